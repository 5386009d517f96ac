// This file plays runs of a listing, from their beginning or from where they are.

ghost use Rattle.std.specs.Prelude.{◌≡◌, ◌-◌, ◌<◌, ◌+◌, ◌≤◌, [], IfOk, OnOk, OnErr};
ghost use Rattle.ptb_explore.specs.Prelude.{play, AreCopies, more_played, play_limit, game_of, IsSameGame, IsFresh};
ghost use Rattle.ptb_explore.specs.Prelude.{CanPlayOn, PlayEnds, play_steps, recorder_choices, recorded};

use crate::copies::RunProgress;
use crate::runner::Runner;
use ptb_machine::{Ending, Lines, Machine, TextScreen, memory_refusal, run_laws};
use std::alloc::AllocError;

impl<'a> Runner<'a> {
    /// Plays a run on from where it is: with the answers of the plan, and 1 to each question after
    /// them. Copies of the machine are kept where answers were taken.
    ///
    /// The ending is `BadAnswer` where an answer of the plan is outside its bound. It is never
    /// `NoAnswer`. The command that asked is the last one that was begun then.
    ///
    /// # Errors
    ///
    /// Where a growth was refused memory, except that of a copy, which isn't kept then.
    pub(crate) fn play_on(
        &mut self,
        machine: &mut Machine,
        screen: &mut TextScreen,
        source: &mut Lines,
    ) -> Result<Ending, AllocError>
        requires { CanPlayOn self.old machine.old screen.old source.old }
        ensures same { self.new ≡ record self.old {
          chooser = self.new.chooser;
          copies = self.new.copies;
        } }
        ensures plan { OnOk result
            ((recorder_choices self.new.chooser).plan ≡ (recorder_choices self.old.chooser).plan) }
        ensures ends { IfOk result (PlayEnds (play self.old.player source.old.lines self.old.rules)
            (recorder_choices self.new.chooser) self.new.chooser.refused_bound machine.new.steps screen.new) }
        ensures begun { OnOk result (machine.new.steps ≡ play_steps self.old.player source.old.lines
            self.old.rules (recorder_choices self.new.chooser).taken) }
        ensures copies { OnOk result (AreCopies self.old.player source.old.lines self.old.rules
            (recorder_choices self.new.chooser).taken screen.new self.new.copies.kept.items) }
    {
        run_laws();
        let rules = self.rules;
        loop {
            self.player.advance(machine, rules.limit);
            let before = self.chooser.given;
            match self
                .player
                .step(machine, rules, &mut self.chooser, screen, source)
            {
                Ok(None) => {}
                Ok(Some(ending)) => return Ok(ending),
                Err(fault) => return Err(memory_refusal(fault)),
            }
            let taken = self.chooser.given;
            let shown = screen.len();
            let lines = source.taken();
            let reached = RunProgress {
                taken,
                shown,
                lines,
            };
            self.copies.keep(self.alloc, machine, before, reached);
        }
    }

    /// Plays a run as [`play_on`](Runner::play_on) does, and adds its commands to those played, also
    /// where memory is refused.
    ///
    /// # Errors
    ///
    /// As in [`play_on`](Runner::play_on).
    pub(crate) fn play_counted(
        &mut self,
        machine: &mut Machine,
        screen: &mut TextScreen,
        source: &mut Lines,
    ) -> Result<Ending, AllocError>
        requires { CanPlayOn self.old machine.old screen.old source.old }
        ensures same { self.new ≡ record self.old {
          chooser = self.new.chooser;
          copies = self.new.copies;
          played = self.new.played;
        } }
        ensures plan { OnOk result
            ((recorder_choices self.new.chooser).plan ≡ (recorder_choices self.old.chooser).plan) }
        ensures ends { IfOk result (PlayEnds (play self.old.player source.old.lines self.old.rules)
            (recorder_choices self.new.chooser) self.new.chooser.refused_bound machine.new.steps screen.new) }
        ensures begun { OnOk result (machine.new.steps ≡ play_steps self.old.player source.old.lines
            self.old.rules (recorder_choices self.new.chooser).taken) }
        ensures copies { OnOk result (AreCopies self.old.player source.old.lines self.old.rules
            (recorder_choices self.new.chooser).taken screen.new self.new.copies.kept.items) }
        ensures played { self.new.played
            ≡ more_played self.old.played (machine.new.steps - machine.old.steps) }
        ensures rises { self.old.played ≤ self.new.played }
        ensures once { self.new.played < self.old.played + play_limit }
    {
        let first = machine.steps();
        let ending = self.play_on(machine, screen, source);
        let more = machine.steps().saturating_sub(first);
        self.played = self.played.saturating_add(u64::from(more));
        ending
    }

    /// Plays a run from its beginning, as [`play_on`](Runner::play_on) continues it, for the steps and
    /// the transcript of the report. The steps are added to those played, except where memory is
    /// refused.
    ///
    /// # Errors
    ///
    /// Where a growth was refused memory, except that of a copy.
    pub(crate) fn play_from_start(&mut self) -> Result<Ending, AllocError>
        requires fresh { IsFresh self.old.chooser }
        requires none { self.old.copies.kept.items ≡ [] }
        ensures same { IsSameGame self.old self.new }
        ensures plan { OnOk result
            ((recorder_choices self.new.chooser).plan ≡ recorded self.old.chooser) }
        ensures ends { IfOk result (PlayEnds (game_of self.old) (recorder_choices self.new.chooser)
            self.new.chooser.refused_bound self.new.report.steps self.new.report.transcript.items) }
        ensures copies { OnOk result (AreCopies self.old.player self.old.lines.now self.old.rules
            (recorder_choices self.new.chooser).taken self.new.report.transcript.items
            self.new.copies.kept.items) }
        ensures played { OnOk result
            (self.new.played ≡ more_played self.old.played self.new.report.steps) }
        ensures few { OnOk result (self.new.report.steps < play_limit) }
        ensures uncounted { OnErr result (self.new.played ≡ self.old.played) }
    {
        let mut machine = self.player.machine(self.alloc)?;
        let mut screen = TextScreen::new(self.alloc);
        let mut source = Lines::new(self.lines);
        let ending = self.play_on(&mut machine, &mut screen, &mut source)?;
        let steps = machine.steps();
        self.report.transcript = screen.into_vec();
        self.report.steps = steps;
        self.played = self.played.saturating_add(u64::from(steps));
        Ok(ending)
    }
}
