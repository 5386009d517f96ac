// This file plays plans from their states.

ghost use Rattle.std.specs.Prelude.{◌≡◌, ◌+◌, ◌-◌, ◌<◌, ◌≤◌, ℕ, [], None, false, true, drop, take, length, IfOk, OnOk};
ghost use Rattle.ptb_chances.specs.Prelude.{is_open, State, run_from, ComesTo, GoesOn, CanPlay, PlaysTo, SameEnd};
ghost use Rattle.ptb_chances.specs.Prelude.{IsStageAt, IsStageAtSaved, FitsProgram, PlainTurns};

use crate::last_line::last_lines;
use crate::plays::{PlayDevices, Played, play_plan};
use crate::worklist::{Plan, SavedState};
use ptb_machine::{Ending, Machine, Player, Rules, TextScreen, run_laws};
use std::alloc::{AllocError, Global};

/// Plays a program by rules, with the input lines of its devices.
#[derive(Drop)]
pub(crate) struct Stage<'p, 'l> {
    pub(crate) player: Player<'p>,
    pub(crate) rules: Rules,
    /// It plays each plan, from where the machine of its state was.
    pub(crate) machine: Machine,
    pub(crate) devices: PlayDevices<'l>,
    /// Where the run was before the command that asks next.
    pub(crate) before: SavedState,
}

impl<'p, 'l> Stage<'p, 'l> {
    // Plays a plan from its state, up to the end of the command that takes its last answer.
    fn start(
        &mut self,
        alloc: Global,
        state: &SavedState,
        plan: &Plan,
    ) -> Result<Played, AllocError>
        requires { CanPlay self.old state.now plan.now.answers.items }
        ensures player { self.new.player ≡ self.old.player }
        ensures rules { self.new.rules ≡ self.old.rules }
        ensures same_lines { self.new.devices.source.lines ≡ self.old.devices.source.lines }
        ensures plays { IfOk result (λ played. (given : ℕ) × ((S : State) →
            IsStageAtSaved self.old state.now S → PlaysTo self.old.player self.old.rules S
            (take given plan.now.answers.items) plan.now.answers.items self.new.machine
            (drop self.new.devices.source.taken self.old.devices.source.lines)
            self.new.devices.screen played)) }
        ensures goes { IfOk result (λ played. played ≡ Played.Goes →
            (self.new.machine.spent ≡ false)
            × (self.old.rules.limit - self.new.machine.steps
            < self.old.rules.limit - state.now.machine.steps)) }
        ensures within { IfOk result (λ _.
            self.new.devices.source.taken ≤ length self.old.devices.source.lines) }
    {
        self.machine.restore(alloc, &state.machine)?;
        self.devices.screen = TextScreen::from_vec(Vec::from_slice(alloc, &state.shown)?);
        self.devices.source.go(state.taken);
        play_plan(
            &self.player,
            self.rules,
            &mut self.machine,
            &plan.answers,
            &mut self.devices,
        )
    }

    // Does the commands that are next and ask nothing, and notes where the run is then.
    fn advance(&mut self, alloc: Global) -> Result<(), AllocError>
        requires fits { FitsProgram self.old.player self.old.machine }
        ensures player { self.new.player ≡ self.old.player }
        ensures rules { self.new.rules ≡ self.old.rules }
        ensures devices { self.new.devices ≡ self.old.devices }
        ensures turns { (n : ℕ) × ((self.new.machine.steps ≡ self.old.machine.steps + n)
            × PlainTurns self.old.player self.old.rules.limit n self.old.machine self.new.machine) }
        ensures spent { self.new.machine.spent ≡ self.old.machine.spent }
        ensures machine { OnOk result (self.new.before.machine ≡ self.new.machine) }
        ensures taken { OnOk result (self.new.before.taken ≡ self.old.devices.source.taken) }
        ensures shown { OnOk result (SameEnd self.old.devices.screen self.new.before.shown.items) }
    {
        self.player.advance(&mut self.machine, self.rules.limit);
        self.before.machine.save(&self.machine)?;
        self.before.taken = self.devices.source.taken();
        self.before.shown = last_lines(alloc, self.devices.screen.bytes())?;
        Ok(())
    }

    // Continues from where its machine is: up to the end of the run, which is given, or up to the next
    // command that asks.
    fn play_to_question(&mut self, alloc: Global) -> Result<Option<Ending>, AllocError>
        requires unspent { self.old.machine.spent ≡ false }
        requires within { self.old.devices.source.taken ≤ length self.old.devices.source.lines }
        requires opens { (S : State) × IsStageAt self.old.player self.old.rules self.old.machine
            (drop self.old.devices.source.taken self.old.devices.source.lines)
            self.old.devices.screen S
            × (is_open (run_from self.old.player self.old.rules S []) ≡ true) }
        ensures player { self.new.player ≡ self.old.player }
        ensures rules { self.new.rules ≡ self.old.rules }
        ensures same_lines { self.new.devices.source.lines ≡ self.old.devices.source.lines }
        ensures goes { IfOk result (λ over. (S : State) →
            IsStageAt self.old.player self.old.rules self.old.machine
            (drop self.old.devices.source.taken self.old.devices.source.lines)
            self.old.devices.screen S
            → GoesOn self.old.player self.old.rules S self.new.before
            self.old.devices.source.lines self.new.devices.screen over) }
        ensures waits { IfOk result (λ over. over ≡ None →
            (self.new.before.machine.spent ≡ false)
            × (self.old.rules.limit - self.new.before.machine.steps
            ≤ self.old.rules.limit - self.old.machine.steps)
            × (self.new.before.taken ≤ length self.old.devices.source.lines)) }
    {
        run_laws();
        'commands: loop {
            self.advance(alloc)?;
            match play_plan(
                &self.player,
                self.rules,
                &mut self.machine,
                &[],
                &mut self.devices,
            )? {
                Played::Over(ending) => return Ok(Some(ending)),
                Played::Asks(_) => return Ok(None),
                Played::Goes => {}
            }
        }
    }

    /// Plays a plan from its state: up to the end of the run, to a question of the command that took the
    /// last answer, or up to the next command that asks.
    ///
    /// # Errors
    ///
    /// Where a growth was refused memory.
    pub(crate) fn play(
        &mut self,
        alloc: Global,
        state: &SavedState,
        plan: &Plan,
    ) -> Result<Played, AllocError>
        requires { CanPlay self.old state.now plan.now.answers.items }
        ensures player { self.new.player ≡ self.old.player }
        ensures rules { self.new.rules ≡ self.old.rules }
        ensures same_lines { self.new.devices.source.lines ≡ self.old.devices.source.lines }
        ensures plays { IfOk result (λ played. (given : ℕ) × ((S : State) →
            IsStageAtSaved self.old state.now S → ComesTo self.old.player self.old.rules S given
            plan.now.answers.items self.new.before self.old.devices.source.lines
            self.new.devices.screen played)) }
        ensures goes { IfOk result (λ played. played ≡ Played.Goes →
            (self.new.before.machine.spent ≡ false)
            × (self.old.rules.limit - self.new.before.machine.steps
            < self.old.rules.limit - state.now.machine.steps)
            × (self.new.before.taken ≤ length self.old.devices.source.lines)) }
    {
        run_laws();
        let played = self.start(alloc, state, plan)?;
        match played {
            Played::Over(ending) => return Ok(Played::Over(ending)),
            Played::Asks(bound) => return Ok(Played::Asks(bound)),
            Played::Goes => {}
        }
        let over = self.play_to_question(alloc)?;
        match over {
            Some(ending) => Ok(Played::Over(ending)),
            None => Ok(Played::Goes),
        }
    }
}
