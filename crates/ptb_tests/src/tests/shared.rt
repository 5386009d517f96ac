// This file has what several of the tests use: rules, answers, programs, and tables whose rows must be so.

use ptb_explore::{Answers, Asked, Bounds, Marked};
use ptb_machine::{Line, Rules, read_lines};
use ptb_text::{Device, DeviceFault, LoadFault, Program, load};
use std::alloc::Global;
use std::fmt::Debug;
use std::process::Abort;

/// Rules by which a run begins so many commands at most. Where no line is left, it takes an answer up to
/// this bound, if there is one.
pub(crate) fn rules(limit: u32, choose: Option<i16>) -> Rules {
    let choose = match choose {
        Some(bound) => Some(bound.max(1)),
        None => None,
    };
    Rules { limit, choose }
}

/// Rules by which a run ends where no line is left.
pub(crate) fn plain_rules(limit: u32) -> Rules {
    rules(limit, None)
}

/// The most commands of a run, where `--steps` is left out.
pub(crate) const DEFAULT_STEPS: u32 = 10_000;

/// The memory of a program, where `--memory` is left out.
pub(crate) const DEFAULT_MEMORY: u16 = 4096;

/// Two values that must be the same; `what` says of what they are.
pub(crate) fn expect_same<T: Copy + PartialEq + Debug>(rt: &impl Abort, what: &str, a: T, b: T) {
    assert_eq!(rt; a, b, "{what}");
}

/// Whether these are the answers and the bounds of a list of questions.
pub(crate) fn are_asked(asked: &[Asked], answers: &[i16], bounds: &[i16]) -> bool {
    if answers.len() != asked.len() || bounds.len() != asked.len() {
        return false;
    }
    for k in 0..asked.len() {
        if asked[k].answer != answers[k] || asked[k].bound != bounds[k] {
            return false;
        }
    }
    true
}

/// Whether the views of a list of questions have these answers and bounds, and say before how many they
/// are.
pub(crate) fn are_viewed(
    answers: Answers,
    bounds: Bounds,
    due_answers: &[i16],
    due_bounds: &[i16],
) -> bool {
    answers.len() == due_answers.len()
        && bounds.len() == due_bounds.len()
        && answers.size_hint() == (due_answers.len(), Some(due_answers.len()))
        && bounds.size_hint() == (due_bounds.len(), Some(due_bounds.len()))
        && answers.eq(due_answers.iter().copied())
        && bounds.eq(due_bounds.iter().copied())
}

// An answer, with its bound or without, for lists that are constants.
macro_rules! marked {
    ($answer:literal, $bound:expr) => {
        Marked {
            answer: $answer,
            bound: $bound,
        }
    };
}

pub(crate) const ZERO: Marked = marked!(0, None);

pub(crate) const ONE: Marked = marked!(1, None);

pub(crate) const ONE_OF_1: Marked = marked!(1, Some(1));

pub(crate) const ONE_OF_2: Marked = marked!(1, Some(2));

pub(crate) const ONE_OF_3: Marked = marked!(1, Some(3));

pub(crate) const ONE_OF_4: Marked = marked!(1, Some(4));

pub(crate) const ONE_OF_6: Marked = marked!(1, Some(6));

pub(crate) const TWO: Marked = marked!(2, None);

pub(crate) const TWO_OF_2: Marked = marked!(2, Some(2));

pub(crate) const TWO_OF_3: Marked = marked!(2, Some(3));

pub(crate) const THREE: Marked = marked!(3, None);

pub(crate) const THREE_OF_3: Marked = marked!(3, Some(3));

pub(crate) const FOUR: Marked = marked!(4, None);

pub(crate) const FOUR_OF_3: Marked = marked!(4, Some(3));

pub(crate) const FOUR_OF_4: Marked = marked!(4, Some(4));

pub(crate) const NINE_OF_7: Marked = marked!(9, Some(7));

pub(crate) const GREATEST: Marked = marked!(32767, Some(32767));

/// The rows of a table, which are structs of one type: it is named before their fields.
macro_rules! table {
    ($row:ident: $($fields:tt),* $(,)?) => {
        &[$($row $fields),*]
    };
}

pub(crate) use table;

/// Why there is no program or there are no lines, where memory is missing.
pub(crate) const OUT_OF_MEMORY: &str = "out of memory";

/// The program of a text, and the lines of an input; or why there are none.
pub(crate) fn loaded(
    alloc: Global,
    text: &str,
    input: &str,
) -> Result<(Program, Vec<Line>), &'static str> {
    let (mut text, mut input) = (text.as_bytes(), input.as_bytes());
    let program = match load(alloc, 4096, &mut Device::new(&mut text)) {
        Ok(program) => program,
        Err((_, LoadFault::Memory)) => return Err(OUT_OF_MEMORY),
        Err(_) => return Err("no program"),
    };
    match read_lines(alloc, &mut Device::new(&mut input)) {
        Ok(lines) => Ok((program, lines)),
        Err(DeviceFault::Memory) => Err(OUT_OF_MEMORY),
        Err(_) => Err("no input"),
    }
}

/// A row of a table: what it says of a context is so, or it isn't.
pub(crate) trait Row<C> {
    /// Whether it is so.
    fn holds(&self, context: &C) -> bool;
}

/// Each row of a table holds; where one doesn't, `what` names the table.
pub(crate) fn expect_rows<C, R: Row<C>>(rt: &impl Abort, what: &str, context: &C, rows: &[R]) {
    for (index, row) in rows.iter().enumerate() {
        assert!(rt; row.holds(context), "{what}: row {index}");
    }
}
