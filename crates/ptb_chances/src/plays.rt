// This file continues a run from where it is, with the answers of a plan.

ghost use Rattle.std.specs.Prelude.{◌≡◌, ◌-◌, ◌<◌, ◌≤◌, ℕ, false, true, drop, length, take, IfOk};
ghost use Rattle.ptb_answers.specs.Outcome.{is_open};
ghost use Rattle.ptb_command.specs.State.{State};
ghost use Rattle.ptb_machine.specs.Play.{run_from};
ghost use Rattle.ptb_chances.specs.StagePlays.{played_of, PlaysTo, IsStageAt};

use crate::plan_chooser::PlanChooser;
use ptb_machine::{Ending, Lines, Machine, Player, Rules, TextScreen, memory_refusal, run_laws};
use std::alloc::AllocError;

/// The result of a run that is played with the answers of a plan.
#[derive(Clone, Copy)]
pub(crate) enum Played {
    /// It is over.
    Over(Ending),
    /// It asks for one more answer, with this bound.
    Asks(i16),
    /// The command that took the last answer is done.
    Goes,
}

// What the ending of a play says, and the bound of the question that was refused last. Each answer of a
// plan is within the bound of its question.
fn ended(ending: Ending, bound: i16) -> Played
    requires { ending ≡ Ending.BadAnswer → ⊥ }
    ensures { result ≡ played_of ending bound }
{
    match ending {
        Ending::NoAnswer => Played::Asks(bound),
        Ending::BadAnswer => unreachable!(),
        over => Played::Over(over),
    }
}

/// What a run shows, and the lines that it takes.
#[derive(Drop)]
pub(crate) struct PlayDevices<'l> {
    pub(crate) screen: TextScreen,
    pub(crate) source: Lines<'l>,
}

/// Continues a run of the player's program from where it is, with the answers of a plan: up to its
/// end, to a question after them, or through the command that takes the last of them. Where the plan has
/// no answers, this is one command.
///
/// # Errors
///
/// Where a growth was refused memory.
pub(crate) fn play_plan(
    player: &Player,
    rules: Rules,
    machine: &mut Machine,
    answers: &[i16],
    devices: &mut PlayDevices<'_>,
) -> Result<Played, AllocError>
    requires unspent { machine.old.spent ≡ false }
    requires within { devices.old.source.taken ≤ length devices.old.source.lines }
    requires opens { (S : State) × IsStageAt player.now rules machine.old
        (drop devices.old.source.taken devices.old.source.lines) devices.old.screen S
        × (is_open (run_from player.now rules S answers.now) ≡ true) }
    ensures same_lines { devices.new.source.lines ≡ devices.old.source.lines }
    ensures within { IfOk result (λ _.
        devices.new.source.taken ≤ length devices.old.source.lines) }
    ensures plays { IfOk result (λ played. (given : ℕ) × ((S : State) →
        IsStageAt player.now rules machine.old
        (drop devices.old.source.taken devices.old.source.lines) devices.old.screen S
        → PlaysTo player.now rules S (take given answers.now) answers.now
        machine.new (drop devices.new.source.taken devices.old.source.lines) devices.new.screen
        played)) }
    ensures goes { IfOk result (λ played. played ≡ Played.Goes →
        (machine.new.spent ≡ false)
        × (rules.limit - machine.new.steps < rules.limit - machine.old.steps)) }
{
    run_laws();
    let mut plan = PlanChooser::new(answers);
    'commands: loop {
        player.advance(machine, rules.limit);
        match player.step(
            machine,
            rules,
            &mut plan,
            &mut devices.screen,
            &mut devices.source,
        ) {
            Ok(None) => {}
            Ok(Some(ending)) => return Ok(ended(ending, plan.refused_bound())),
            Err(fault) => return Err(memory_refusal(fault)),
        }
        if plan.is_used_up() {
            return Ok(Played::Goes);
        }
    }
}
