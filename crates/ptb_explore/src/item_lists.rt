// This file copies lists of answers with their bounds, makes them from answers, and compares how they begin.

ghost use Rattle.std.specs.Prelude.{◌≡◌, IfOk};
ghost use Rattle.ptb_answers.specs.AnswerText.{answers_of, unmarked};
ghost use Rattle.ptb_machine.specs.RunTree.{begins_with};

use ptb_answers::Marked;
use std::alloc::{AllocError, Global};

/// A copy of a list.
///
/// # Errors
///
/// Where a growth was refused memory.
pub(crate) fn copied_list(alloc: Global, list: &[Marked]) -> Result<Vec<Marked>, AllocError>
    ensures { IfOk result (λ v. v.items ≡ list.now) }
{
    let mut items = Vec::new(alloc);
    items.extend_from_slice(list)?;
    Ok(items)
}

/// The items of answers that have no bounds.
///
/// # Errors
///
/// Where a growth was refused memory.
pub(crate) fn unmarked(alloc: Global, answers: &[i16]) -> Result<Vec<Marked>, AllocError>
    ensures { IfOk result (λ v. v.items ≡ unmarked answers.now) }
{
    let mut list = Vec::new(alloc);
    for answer in answers {
        list.push(Marked {
            answer: *answer,
            bound: None,
        })?;
    }
    Ok(list)
}

/// Whether the answers of a list begin with those of another. It takes no memory.
pub(crate) fn items_begin_with(list: &[Marked], prefix: &[Marked]) -> bool
    ensures { result ≡ begins_with (answers_of list.now) (answers_of prefix.now) }
{
    if list.len() < prefix.len() {
        return false;
    }
    for k in 0..prefix.len() {
        if list[k].answer != prefix[k].answer {
            return false;
        }
    }
    true
}
