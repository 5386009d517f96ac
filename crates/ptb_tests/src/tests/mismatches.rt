// This file tests why the items of a list are no run, or why no run begins with them.

use crate::tests::explorers::{BRANCHES, Runs, open_fault};
use crate::tests::shared::{
    FOUR, FOUR_OF_4, ONE, ONE_OF_2, ONE_OF_3, OUT_OF_MEMORY, Row, THREE, THREE_OF_3, TWO, TWO_OF_2,
    TWO_OF_3, ZERO, expect_rows, expect_same, loaded, table,
};
use ptb_explore::{Marked, Mismatch, OpenFault};
use ptb_text::Program;
use std::alloc::Global;
use std::test::Fail;

// The program of the branches, and where memory is from.
type Branches = (Global, Program);

// A list with which runs begin, another list, why no run begins with that one, and why it is no run
// that begins with the first; `None` where there is one.
struct Lists(
    &'static [Marked],
    &'static [Marked],
    Option<Mismatch>,
    Option<Mismatch>,
);

// Whether no run begins with a list for this reason; or one does where there is no reason.
fn is_no_beginning(context: &Branches, list: &[Marked], why: Option<Mismatch>) -> bool {
    open_fault(context.0, &context.1, Runs::Under(list)) == why.map(OpenFault::NoBeginning)
}

// Whether a list is no run that begins with another for this reason; or is one where there is no reason.
fn is_no_run(context: &Branches, runs: Runs<'_>, why: Option<Mismatch>) -> bool {
    open_fault(context.0, &context.1, runs) == why.map(OpenFault::NotARun)
}

impl Row<Branches> for Lists {
    fn holds(&self, context: &Branches) -> bool {
        let Lists(under, list, beginning, run) = *self;
        is_no_beginning(context, list, beginning)
            && is_no_run(context, Runs::UnderAfter(under, list), run)
    }
}

// A list, and its first item that does not fit, for which no run begins with it and it is no run.
struct Unfit(&'static [Marked], Mismatch);

impl Row<Branches> for Unfit {
    fn holds(&self, context: &Branches) -> bool {
        let Unfit(list, why) = *self;
        is_no_beginning(context, list, Some(why))
            && is_no_run(context, Runs::UnderAfter(&[], list), Some(why))
    }
}

const NO_RUNS: &[Unfit] = table! { Unfit:
    (&[ONE, ONE], Mismatch::NoQuestion { items: 1 }),
    (&[TWO, ONE, FOUR, FOUR], Mismatch::NoQuestion { items: 2 }),
    (&[ZERO], Mismatch::OutOfRange { item: 1, answer: 0, bound: 2 }),
    (&[THREE], Mismatch::OutOfRange { item: 1, answer: 3, bound: 2 }),
    (&[TWO, FOUR], Mismatch::OutOfRange { item: 2, answer: 4, bound: 3 }),
    (&[TWO_OF_3], Mismatch::OtherBound { item: 1, stated: 3, bound: 2 }),
    (&[TWO, TWO_OF_2], Mismatch::OtherBound { item: 2, stated: 2, bound: 3 }),
    // an item that is out of range and states another bound
    (&[THREE_OF_3], Mismatch::OutOfRange { item: 1, answer: 3, bound: 2 }),
    (&[TWO_OF_2, FOUR_OF_4], Mismatch::OutOfRange { item: 2, answer: 4, bound: 3 }),
    // an item that states another bound before one that has no question
    (&[ONE_OF_3, ONE], Mismatch::OtherBound { item: 1, stated: 3, bound: 2 }),
};

// A run begins with these lists: they are runs, or an item is missing, or they begin otherwise.
const BEGINNINGS: &[Lists] = table! { Lists:
    (&[], &[], None, Some(Mismatch::Missing { item: 1, bound: 2 })),
    (&[], &[TWO], None, Some(Mismatch::Missing { item: 2, bound: 3 })),
    (&[], &[ONE], None, None),
    (&[], &[ONE_OF_2], None, None),
    (&[], &[TWO_OF_2, THREE], None, None),
    (&[TWO], &[TWO, ONE], None, None),
    (&[TWO], &[ONE], None, Some(Mismatch::NotUnder)),
    (&[TWO, ONE], &[TWO, THREE], None, Some(Mismatch::NotUnder)),
    (&[TWO_OF_2], &[TWO, ONE], None, None),
};

// A list with which no run begins, for this reason, which is found before the other list is looked at.
struct NoBeginning(&'static [Marked], &'static [Marked], Mismatch);

impl Row<Branches> for NoBeginning {
    fn holds(&self, context: &Branches) -> bool {
        let NoBeginning(under, list, why) = *self;
        open_fault(context.0, &context.1, Runs::UnderAfter(under, list))
            == Some(OpenFault::NoBeginning(why))
    }
}

const NO_BEGINNINGS: &[NoBeginning] = table! { NoBeginning:
    (&[TWO_OF_3], &[TWO, ONE], Mismatch::OtherBound { item: 1, stated: 3, bound: 2 }),
    (&[THREE], &[ONE], Mismatch::OutOfRange { item: 1, answer: 3, bound: 2 }),
};

// How a list begins is looked at before its items are.
const OTHER_BEGINNINGS: &[Lists] = table! { Lists:
    (&[TWO], &[THREE], Some(Mismatch::OutOfRange { item: 1, answer: 3, bound: 2 }), Some(Mismatch::NotUnder)),
    (&[TWO], &[ONE, ONE], Some(Mismatch::NoQuestion { items: 1 }), Some(Mismatch::NotUnder)),
    (&[TWO, ONE], &[TWO], None, Some(Mismatch::NotUnder)),
    (&[TWO], &[], None, Some(Mismatch::NotUnder)),
};

// Answers without bounds, and why they are no run; `None` where they are one.
struct Answers(&'static [i16], Option<Mismatch>);

impl Row<Branches> for Answers {
    fn holds(&self, context: &Branches) -> bool {
        is_no_run(context, Runs::After(self.0), self.1)
    }
}

const ANSWERS: &[Answers] = table! { Answers:
    (&[1], None),
    (&[2, 3], None),
    (&[], Some(Mismatch::Missing { item: 1, bound: 2 })),
    (&[2], Some(Mismatch::Missing { item: 2, bound: 3 })),
    (&[2, 4], Some(Mismatch::OutOfRange { item: 2, answer: 4, bound: 3 })),
    (&[1, 1], Some(Mismatch::NoQuestion { items: 1 })),
};

#[test]
fn mismatches(rt: HostRuntime) -> Result<(), Fail> {
    let (program, _) = loaded(rt.alloc(), BRANCHES, "")?;
    let context = (rt.alloc(), program);
    expect_rows(&rt, "items that do not fit", &context, NO_RUNS);
    expect_rows(&rt, "items that fit", &context, BEGINNINGS);
    expect_rows(
        &rt,
        "lists that begin otherwise",
        &context,
        OTHER_BEGINNINGS,
    );
    expect_rows(&rt, "no beginnings", &context, NO_BEGINNINGS);
    expect_rows(&rt, "answers", &context, ANSWERS);
    Ok(())
}

// Whether there is no explorer for this reason, or for lack of memory.
fn is_refused(alloc: Global, program: &Program, runs: Runs<'_>, why: OpenFault) -> bool {
    let fault = open_fault(alloc, program, runs);
    fault == Some(why) || fault == Some(OpenFault::Memory)
}

// Whether lists that do not fit are refused, unless memory for the program is.
fn are_refused(alloc: Global) -> bool {
    let (program, lines) = match loaded(alloc, BRANCHES, "") {
        Ok(both) => both,
        Err(why) => return why == OUT_OF_MEMORY,
    };
    let range = Mismatch::OutOfRange {
        item: 2,
        answer: 4,
        bound: 3,
    };
    let missing = OpenFault::NotARun(Mismatch::Missing { item: 2, bound: 3 });
    let other = OpenFault::NotARun(Mismatch::NotUnder);
    is_refused(
        alloc,
        &program,
        Runs::Under(&[TWO, FOUR]),
        OpenFault::NoBeginning(range),
    ) && is_refused(alloc, &program, Runs::UnderAfter(&[TWO], &[TWO]), missing)
        && is_refused(alloc, &program, Runs::UnderAfter(&[TWO], &[ONE]), other)
        && lines.is_empty()
}

// Passes whichever of its allocations is refused.
#[test]
fn refused_mismatches(rt: HostRuntime) {
    expect_same(&rt, "refused lists", are_refused(rt.alloc()), true);
}
