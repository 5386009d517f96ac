// This file plans the next run: it finds the answers with which that run begins.

ghost use Rattle.std.specs.Prelude.{◌≡◌, pos, take, ◌<ℤ◌, slice_index_or, IfOk, IfSome, OnErr, OnSome, MatchOption};
ghost use Rattle.ptb_explore.specs.Prelude.{answers_of, answers_in, bounds_in, recorded, IsLastBelow, AreAtBounds};
ghost use Rattle.ptb_explore.specs.Prelude.{HasPlan, PlansNext, IsFresh};

use crate::recorder::Recorder;
use ptb_answers::{Asked, Marked};
use std::alloc::AllocError;

/// Where a listing of all runs is.
#[derive(Clone, Copy)]
pub(crate) enum ListingPosition {
    /// Before the first run.
    AtStart,
    /// At a run.
    AtRun,
    /// After the last run.
    AtEnd,
}

// The last place at which the answer is below its bound, except those before the floor.
fn last_below(asked: &[Asked], floor: usize) -> Option<usize>
    ensures place { MatchOption result
        (AreAtBounds floor (answers_in asked.now) (bounds_in asked.now))
        (IsLastBelow floor (answers_in asked.now) (bounds_in asked.now)) }

    // It can be raised by one.
    ensures room { IfSome result
        (λ i. slice_index_or (answers_in asked.now) i (pos 0) <ℤ pos 32767) }
{
    for i in (floor..asked.len()).rev() {
        if asked[i].answer < asked[i].bound {
            return Some(i);
        }
    }
    None
}

/// Plans the run after the one at which the listing is: the last answer that its bound leaves
/// room for is raised by one, and those after it are dropped. The answers with which each run of
/// the listing begins stay.
///
/// It gives the number of answers before the raised one, or `None` where no run is left.
///
/// # Errors
///
/// Where the plan is refused memory; never where no run is left.
// Inlined, so that its result isn't passed in memory for each run.
#[inline(always)]
pub(crate) fn plan_next(
    position: ListingPosition,
    prefix: &[Marked],
    asked: &[Asked],
    chooser: &mut Recorder,
) -> Result<Option<usize>, AllocError>
    ensures plan { IfOk result (PlansNext (answers_of prefix.now) position
        (answers_in asked.now) (bounds_in asked.now) (recorded chooser.new)) }

    // The answers in front of the raised one have their bounds.
    ensures bounds { IfOk result (λ o. IfSome o
        (λ i. take i (bounds_in chooser.new.asked.items) ≡ take i (bounds_in asked.now))) }
    ensures fresh { IfOk result (λ o. OnSome o (IsFresh chooser.new)) }
    ensures refused { OnErr result (HasPlan (answers_of prefix.now) position
        (answers_in asked.now) (bounds_in asked.now)) }
{
    match position {
        ListingPosition::AtEnd => Ok(None),
        ListingPosition::AtStart => {
            chooser.replay(prefix)?;
            Ok(Some(0))
        }
        ListingPosition::AtRun => match last_below(asked, prefix.len()) {
            None => Ok(None),
            Some(i) => {
                let Asked { answer, bound } = asked[i];
                let raised = Asked {
                    answer: answer + 1,
                    bound,
                };
                chooser.replace_plan(&asked[..i + 1], i, raised)?;
                Ok(Some(i))
            }
        },
    }
}
