// This file makes the report of the next run of a listing, by `report_next`.

ghost use Rattle.std.specs.Prelude.{◌≡◌, ◌+◌, ◌<◌, ◌≤◌, false, Ok, true, IfOk, OnOk, OnErr, IsTrue};
ghost use Rattle.ptb_explore.specs.Prelude.{answers_of, is_open, answers_in, bounds_in, PlaysOn, kept_runs, play_limit};
ghost use Rattle.ptb_explore.specs.Prelude.{game_of, report_finish, AreCopiesAt, IsSameGame, HasRunCopies, NextPlays};
ghost use Rattle.ptb_explore.specs.Prelude.{NextReports, Resumes, front_at, PlanEndsWith, IsPosition, recorded, IsLast};

use crate::plan::{ListingPosition, plan_next};
use crate::runner::Runner;
use ptb_answers::Marked;
use ptb_machine::run_laws;
use std::alloc::AllocError;

impl<'a> Runner<'a> {
    // Plays a plan as play_plan does, and makes the report of its run.
    fn report_plan(&mut self, common: usize) -> Result<(), AllocError>
        requires resumes { Resumes self.old common }
        requires opens { is_open (game_of self.old (recorded self.old.chooser)) ≡ true }
        ensures same { IsSameGame self.old self.new }
        ensures ends { OnOk result (PlanEndsWith (game_of self.old) (recorded self.old.chooser)
            (answers_in self.new.report.asked.items) (bounds_in self.new.report.asked.items)
            (report_finish self.new.report)) }
        ensures asked { OnErr result (self.new.report.asked.items ≡ self.old.report.asked.items) }
        ensures copies { OnOk result (HasRunCopies self.old self.new) }
        ensures played { OnOk result (PlaysOn common self.old.copies.kept.items self.old.played
            self.new.report.steps self.new.played) }
        ensures rises { self.old.played ≤ self.new.played }
        ensures once { self.new.played < self.old.played + play_limit }
    {
        run_laws();
        self.play_plan(common)?;
        self.chooser.exchange_answers(&mut self.report.asked);
        Ok(())
    }

    /// Makes the report of the next run of those that begin with some answers, and says whether there
    /// is one. The listing is at the run of the report, or as the position says.
    ///
    /// # Errors
    ///
    /// Where a growth was refused memory, never where no run is left. The report keeps its answers.
    pub(crate) fn report_next(
        &mut self,
        position: ListingPosition,
        prefix: &[Marked],
    ) -> Result<bool, AllocError>
        requires position { IsPosition (game_of self.old) (answers_of prefix.now) position
            (answers_in self.old.report.asked.items) (bounds_in self.old.report.asked.items) }
        requires copies { AreCopiesAt self.old.player self.old.lines.now self.old.rules position
            self.old.report self.old.copies.kept.items }
        ensures same { IsSameGame self.old self.new }
        ensures next { IfOk result (NextReports (game_of self.old) (answers_of prefix.now)
            (front_at position (answers_in self.old.report.asked.items)) self.new.report) }
        ensures asked { OnErr result (self.new.report.asked.items ≡ self.old.report.asked.items) }
        ensures ended { IsLast (game_of self.old) (answers_of prefix.now)
            (front_at position (answers_in self.old.report.asked.items)) → result ≡ Ok false }
        ensures copies { IfOk result (λ found. IsTrue found → HasRunCopies self.old self.new) }
        ensures played { IfOk result (NextPlays
            (kept_runs (answers_in self.old.report.asked.items) self.old.copies.kept.items)
            self.old.played self.new.report self.new.played) }
        ensures rises { self.old.played ≤ self.new.played }
        ensures once { self.new.played < self.old.played + play_limit }
    {
        run_laws();
        match plan_next(position, prefix, &self.report.asked, &mut self.chooser)? {
            None => Ok(false),
            Some(common) => {
                self.report_plan(common)?;
                Ok(true)
            }
        }
    }
}
