// This file has the explorer, which finds all runs of a program.

ghost use Rattle.std.specs.Prelude.{◌≡◌, ◌≤◌, Ok, None, length, IfOk, IfSome, IfNone};
ghost use Rattle.ptb_explore.specs.Prelude.{answers_in, play_of, most_of, Reports, IsNextRun, IsLast};
ghost use Rattle.ptb_explore.specs.Prelude.{ArePlaces, AreKeptAt};

use crate::plan::ListingPosition;
use crate::report::Report;
use crate::runner::Runner;
use ptb_answers::Marked;
use ptb_machine::run_laws;
use std::alloc::AllocError;
use std::marker::Model;

/// Finds the runs of a program, one after the other, in the order of their answers.
///
/// It holds the report of one run, one list of answers more and the answers of its share, however
/// many runs there are. One player plays them all, so that the program is translated once. Copies of
/// the machine are kept where the run took answers, at most 64, so that the next run continues from
/// the last place at which it is the same.
#[derive(Drop)]
pub struct Explorer<'a> {
    /// Plays the runs; its report has the answers and bounds of the run at which the explorer is.
    pub(crate) runner: Runner<'a>,
    /// The answers with which each of the runs begins.
    pub(crate) prefix: Vec<Marked>,
    /// Where the listing of the runs is.
    pub(crate) position: ListingPosition,
}

impl<'a> Model for Explorer<'a> {
    ghost use Rattle.std.specs.Coded.{codes};
    ghost use Rattle.ptb_answers.specs.contracts.rules.Rules as rules_type;
    ghost use Rattle.ptb_explore.specs.Prelude.{answers_of, answers_in, bounds_in, kept_runs, Exploration};
    ghost use Rattle.ptb_explore.specs.Prelude.{exploration, AreCopiesAt, game_of, IsPosition, front_at};

    ghost Value = { Exploration };

    // that of its rules is given, since they state a fact
    ghost coded = { Prim.hlevel (codes, rules_type.the_row.coded) };

    ghost view = { λ e. exploration e.runner.player e.runner.lines.now e.runner.rules (answers_of e.prefix.items)
        (front_at e.position (answers_in e.runner.report.asked.items))
        (kept_runs (answers_in e.runner.report.asked.items) e.runner.copies.kept.items) e.runner.played };

    ghost invariant = { λ e. IsPosition (game_of e.runner) (answers_of e.prefix.items)
        e.position (answers_in e.runner.report.asked.items) (bounds_in e.runner.report.asked.items)
        × AreCopiesAt e.runner.player e.runner.lines.now e.runner.rules e.position e.runner.report
        e.runner.copies.kept.items };
}

impl<'a> Explorer<'a> {
    ghost use Rattle.std.specs.Borrow.{sem};
    ghost use Rattle.ptb_explore.specs.LentReports.{NextRests};

    /// Goes to the next run, and lends its report. `None` says that no run is left; so does every
    /// later call then.
    ///
    /// # Errors
    ///
    /// Where a growth was refused memory, never where no run is left. Its place is unchanged then, no
    /// copy of the machine is kept, and a further call looks for that run once more. What
    /// [`played`](Explorer::played) gives doesn't fall then, and rises by less than 4,294,967,296.
    pub fn next(&mut self) -> Result<Option<&Report>, AllocError>
        ensures report { IfOk result (λ o. IfSome o (λ r. Reports (play_of self.old) r.now)) }
        ensures next { IfOk result (λ o. IfSome o (λ r.
            IsNextRun (play_of self.old) self.old.prefix self.old.front
            (answers_in r.now.asked.items))) }
        ensures few { IfOk result (λ o. IfSome o (λ r.
            length (answers_in r.now.asked.items) ≤ most_of self.old)) }
        ensures last { IfOk result (λ o. IfNone o
            (IsLast (play_of self.old) self.old.prefix self.old.front)) }
        ensures ended { IsLast (play_of self.old) self.old.prefix self.old.front
            → result ≡ Ok None }
        ensures* leaves { sem 𝓛 (NextRests self.entry result) }
    {
        run_laws();
        let found = self.runner.report_next(self.position, &self.prefix);
        match found {
            Ok(true) => {
                self.position = ListingPosition::AtRun;
                Ok(Some(&self.runner.report))
            }
            Ok(false) => {
                self.runner.copies.clear();
                self.position = ListingPosition::AtEnd;
                Ok(None)
            }
            Err(fault) => {
                self.runner.copies.clear();
                Err(fault)
            }
        }
    }

    /// The number of copies of the machine that are kept now, at most 64. They are of the run at which
    /// the explorer is; there are none where it is at no run.
    ///
    /// For users of the library: the program doesn't call it.
    pub fn kept(&self) -> usize
        ensures number { result ≡ length self.now.kept }
        ensures most { result ≤ 64 }
        ensures front { AreKeptAt self.now.front self.now.kept }

        // The steps of each copy are those of the command that took the last of its answers.
        ensures places { ArePlaces self.now.program self.now.input self.now.rules self.now.kept }
    {
        self.runner.copies.kept.len()
    }

    /// How many commands were played for the runs so far; `u64::MAX` where there were more. A call of
    /// [`next`](Explorer::next) that is refused memory adds fewer than 4,294,967,296.
    ///
    /// For users of the library: the program doesn't call it.
    pub fn played(&self) -> u64
        ensures { result ≡ self.now.played }
    {
        self.runner.played
    }
}
