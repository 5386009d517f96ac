// This file finds why the items of a list that was played are no run, or why no run begins with them.

ghost use Rattle.std.specs.Prelude.{◌≡◌, ◌≤◌, [], length, take, List, ℕ, IfSome, IfNone, true};
ghost use Rattle.ptb_explore.specs.Prelude.{Answers, Outcome, IsReader, answers_of, bounds_in, Finish, states_bounds};
ghost use Rattle.ptb_explore.specs.Prelude.{Explains, IsItemMismatch, IsRunMismatch, MismatchLaws, TakesItems, IsTaken};
ghost use Rattle.ptb_explore.specs.Prelude.{IsTakenAlone, recorder_choices};

use crate::recorder::Recorder;
use ptb_answers::{Asked, Marked};
use ptb_machine::Ending;

/// Why the items of a list are no run, or why no run begins with them. Items count from 1.
#[derive(Clone, Copy, Debug, PartialEq, Eq)]
pub enum Mismatch {
    /// The answer of an item is not from 1 to the bound of its question.
    OutOfRange {
        item: usize,
        answer: i16,
        bound: i16,
    },
    /// The bound that is stated with an item is not that of its question.
    OtherBound {
        item: usize,
        stated: i16,
        bound: i16,
    },
    /// The run is over after this many items, and the list has more.
    NoQuestion {
        items: usize,
    },
    /// All items fit, and the run asks for one more, with this bound.
    Missing {
        item: usize,
        bound: i16,
    },
    /// The answers of the items do not begin with those of the other list.
    NotUnder,
}

// The first item that states another bound than that of its question. So many of the items are taken,
// and these are their questions.
fn bound_mismatch(list: &[Marked], taken: usize, asked: &[Asked]) -> Option<Mismatch>
    requires list { taken ≤ length list.now }
    requires asked { taken ≤ length asked.now }
    ensures states { IfNone result
        (states_bounds (take taken list.now) (bounds_in asked.now) ≡ true) }
    ensures mismatch { (game : Answers → Outcome Finish (List ℕ)) (most : ℕ) → IsReader game most
        → TakesItems game list.now (bounds_in asked.now) taken
        → IfSome result (IsItemMismatch game list.now) }
{
    for k in 0..taken {
        if let Some(stated) = list[k].bound {
            let bound = asked[k].bound;
            if stated != bound {
                let item = k + 1;
                return Some(Mismatch::OtherBound {
                    item,
                    stated,
                    bound,
                });
            }
        }
    }
    None
}

/// The first item of a list that does not fit its question, of a play with the list's answers that came
/// to this ending; or `None` where a run begins with the list. An item that is out of range and also
/// states another bound is out of range.
pub(crate) fn item_mismatch(list: &[Marked], chooser: &Recorder, ending: Ending) -> Option<Mismatch>
    requires { (recorder_choices chooser.now).plan ≡ answers_of list.now }
    ensures taken { IfNone result (IsTaken (length list.now) list.now chooser.now) }
    ensures mismatch { Explains (λ game. IsItemMismatch game list.now) chooser.now ending result }
{
    let taken = chooser.given.min(list.len());
    let found = bound_mismatch(list, taken, &chooser.asked[..chooser.given]);
    if found.is_some() {
        return found;
    }
    if taken == list.len() {
        return None;
    }
    if ending == Ending::BadAnswer {
        return Some(Mismatch::OutOfRange {
            item: taken + 1,
            answer: list[taken].answer,
            bound: chooser.refused_bound,
        });
    }
    Some(Mismatch::NoQuestion { items: taken })
}

/// Why the items of a list are no run, as [`item_mismatch`] finds it, or that one is missing; or `None`
/// where they are a run.
pub(crate) fn run_mismatch(list: &[Marked], chooser: &Recorder, ending: Ending) -> Option<Mismatch>
    requires { (recorder_choices chooser.now).plan ≡ answers_of list.now }
    ensures taken { IfNone result (IsTakenAlone (length list.now) list.now chooser.now) }
    ensures mismatch { Explains (λ game. IsRunMismatch game [] list.now) chooser.now ending result }
{
    let found = item_mismatch(list, chooser, ending);
    if found.is_some() {
        return found;
    }
    let items = list.len();
    if items < chooser.given {
        return Some(Mismatch::Missing {
            item: items + 1,
            bound: chooser.asked[items].bound,
        });
    }
    None
}

/// Whatever takes answers one by one: a list is no run, or no run begins with it, exactly where there
/// is a mismatch, and there is one alone.
pub fn mismatch_laws<A, W>()
    ensures { (play : Answers → Outcome A W) (most : ℕ) → IsReader play most → MismatchLaws play }
{}
