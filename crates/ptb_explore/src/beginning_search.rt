// This file plays a plan up to the questions of a list that splits runs, by `find_beginning`.

ghost use Rattle.std.specs.Prelude.{◌≡◌, ◌+◌, ◌<◌, ◌≤◌, Ok, [], true, false, length, IfOk, OnOk, OnErr, IsTrue};
ghost use Rattle.ptb_explore.specs.Prelude.{is_open, answers_in, bounds_in, recorded, stopped, FindsBeginning, Resumes};
ghost use Rattle.ptb_explore.specs.Prelude.{PlaysOn, kept_runs, AreCopiesAt, HasRunCopies, IsSameGame, NextPlays};
ghost use Rattle.ptb_explore.specs.Prelude.{game_of, PlanEndsWith, IsPosition, front_at, IsLast, play_steps};
ghost use Rattle.ptb_explore.specs.Prelude.{play_limit};

use crate::plan::{ListingPosition, plan_next};
use crate::runner::Runner;
use ptb_machine::run_laws;
use std::alloc::AllocError;

// Continues a runner's plan from a copy, but not past the question that follows `most` answers. The
// report has the answers that were taken then, and their bounds. The first answers of the plan are
// those of the report before, as many as `common` says.
fn play_beginning(runner: &mut Runner, common: usize, most: usize) -> Result<(), AllocError>
    requires resumes { Resumes runner.old common }
    requires within { length (recorded runner.old.chooser) ≤ most }
    requires common { common ≤ length (recorded runner.old.chooser) }
    requires opens { is_open (stopped most (game_of runner.old)
        (recorded runner.old.chooser)) ≡ true }
    ensures same { IsSameGame runner.old runner.new }
    ensures ends { OnOk result (PlanEndsWith (stopped most (game_of runner.old))
        (recorded runner.old.chooser) (answers_in runner.new.report.asked.items)
        (bounds_in runner.new.report.asked.items) tt) }
    ensures asked { OnErr result (runner.new.report.asked.items ≡ runner.old.report.asked.items) }
    ensures copies { OnOk result (HasRunCopies runner.old runner.new) }
    ensures begun { OnOk result (runner.new.report.steps ≡ play_steps runner.old.player
        runner.old.lines.now runner.old.rules (answers_in runner.new.report.asked.items)) }
    ensures played { OnOk result (PlaysOn common runner.old.copies.kept.items runner.old.played
        runner.new.report.steps runner.new.played) }
    ensures rises { runner.old.played ≤ runner.new.played }
    ensures once { runner.new.played < runner.old.played + play_limit }
{
    run_laws();
    runner.chooser.stop_after(most)?;
    runner.play_plan(common)?;
    runner.chooser.keep_given();
    runner.chooser.exchange_answers(&mut runner.report.asked);
    Ok(())
}

/// Finds the next list, and says whether there is one. The runner's report has its answers and bounds
/// then.
pub(crate) fn find_beginning(
    runner: &mut Runner,
    most: usize,
    position: ListingPosition,
) -> Result<bool, AllocError>
    requires position { IsPosition (stopped most (game_of runner.old)) [] position
        (answers_in runner.old.report.asked.items) (bounds_in runner.old.report.asked.items) }
    requires copies { AreCopiesAt runner.old.player runner.old.lines.now runner.old.rules position
        runner.old.report runner.old.copies.kept.items }
    ensures same { IsSameGame runner.old runner.new }
    ensures next { IfOk result (FindsBeginning (stopped most (game_of runner.old))
        (front_at position (answers_in runner.old.report.asked.items)) runner.new.report) }
    ensures asked { OnErr result (runner.new.report.asked.items ≡ runner.old.report.asked.items) }
    ensures ended { IsLast (stopped most (game_of runner.old)) []
        (front_at position (answers_in runner.old.report.asked.items)) → result ≡ Ok false }
    ensures copies { IfOk result (λ found. IsTrue found → HasRunCopies runner.old runner.new) }
    ensures begun { IfOk result (λ found. IsTrue found → runner.new.report.steps
        ≡ play_steps runner.old.player runner.old.lines.now runner.old.rules
        (answers_in runner.new.report.asked.items)) }
    ensures played { IfOk result (NextPlays
        (kept_runs (answers_in runner.old.report.asked.items) runner.old.copies.kept.items)
        runner.old.played runner.new.report runner.new.played) }
    ensures rises { runner.old.played ≤ runner.new.played }
    ensures once { runner.new.played < runner.old.played + play_limit }
{
    run_laws();
    match plan_next(position, &[], &runner.report.asked, &mut runner.chooser)? {
        None => Ok(false),
        Some(common) => {
            play_beginning(runner, common, most)?;
            Ok(true)
        }
    }
}
