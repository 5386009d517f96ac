// This file tests requests for some of the runs of a program: those after a run, the first ones, and those
// that begin with some answers.

use crate::tests::replies::expect_reply;
use crate::tests::served_listings::{
    ALL, AllRuns, FAULTY, FAULTY_TEXT, LIMITED, LIMITED_TEXT, ListedRows, ONE_ROLL, ONE_ROLL_TEXT,
    ROLL_AFTER_IF, ROLL_AFTER_IF_TEXT, ROLLED_INDEX, ROLLED_INDEX_TEXT, TWO_ROLLS, TWO_ROLLS_TEXT,
    all_of, expect_listings, listed, listings,
};
use crate::tests::shared::{
    FOUR, ONE, ONE_OF_1, ONE_OF_2, ONE_OF_3, THREE, THREE_OF_3, TWO, TWO_OF_2, TWO_OF_3,
    expect_same,
};
use ptb_explore::Marked;
use ptb_serve::{Note, Outcome};
use std::alloc::{AllocError, Global};
use std::process::Abort;
use std::test::Fail;

// The greatest answer, without its bound.
const GREATEST_ALONE: Marked = Marked {
    answer: 32767,
    bound: None,
};

const RUNS_AFTER_A_RUN: ListedRows<'static> = listings! {
    (TWO_ROLLS, b"RUN 1,2 END 1 7\n     2\n\nRUN 2,1 END 1 7\n     2\n\n", after = Some(&[ONE, ONE]), first = Some(2)),
    (TWO_ROLLS, b"RUN 1,1 END 1 7\n     1\n\nRUN 1,2 END 1 7\n     2\n\n", first = Some(2)),
    (TWO_ROLLS, TWO_ROLLS_TEXT, first = Some(4)),
    (TWO_ROLLS, TWO_ROLLS_TEXT, first = Some(1_000_000_000)),
    (ROLL_AFTER_IF, b"RUN 2,2 END 4 7\n     2\n\nRUN 2,3 END 4 7\n     3\n\n", after = Some(&[TWO, ONE])),
    (ROLL_AFTER_IF, b"", after = Some(&[TWO, THREE])),
    (b"", b"", after = Some(&[])),
    (ONE_ROLL, b"RUN 2 END 1 7\n     2\n\n", after = Some(&[ONE]), first = Some(5)),
};

// Listings after a run, or of the first runs: what is written, with status 0.
#[test]
fn runs_after_a_run(rt: HostRuntime) -> Result<(), Fail> {
    expect_listings(&rt, rt.alloc(), RUNS_AFTER_A_RUN)?;
    Ok(())
}

const NO_RUNS: &[(&[u8], &[Marked])] = &[
    (ROLL_AFTER_IF, &[TWO]),
    (ROLL_AFTER_IF, &[TWO, FOUR]),
    (ROLL_AFTER_IF, &[TWO, ONE, ONE]),
    (ONE_ROLL, &[]),
    (ONE_ROLL, &[GREATEST_ALONE]),
    // a run, and a bound that none of its questions has there
    (ROLL_AFTER_IF, &[TWO_OF_3, ONE_OF_3]),
    (ROLL_AFTER_IF, &[TWO_OF_2, ONE_OF_2]),
    (ONE_ROLL, &[ONE_OF_1]),
];

// Answers that are no run are refused, and nothing is written.
#[test]
fn runs_after_no_run(rt: HostRuntime) -> Result<(), Fail> {
    for &(program, list) in NO_RUNS {
        let reply = listed(rt.alloc(), &all_of!(program, after = Some(list)), 100)?;
        expect_reply(&rt, reply, (67, Some(Note::NoRun)), b"");
    }
    Ok(())
}

// The result of a listing in form 1 of the runs that begin with a list, after one of them if it is
// named.
fn share_of<'a>(
    alloc: Global,
    list: &'a [Marked],
    after: Option<&'a [Marked]>,
) -> Result<(Outcome, Vec<u8>), AllocError> {
    let asked = all_of!(ROLL_AFTER_IF, under = Some(list), after = after);
    listed(alloc, &asked, 100)
}

const SHARES: &[(&[Marked], Option<&[Marked]>, usize, usize)] = &[
    (&[], None, 0, 87),
    (&[ONE], None, 0, 15),
    (&[TWO], None, 15, 87),
    (&[TWO_OF_2], Some(&[TWO, ONE]), 39, 87),
    (&[TWO, ONE_OF_3], None, 15, 39),
    (&[TWO, THREE], None, 63, 87),
];

#[test]
fn shares_of_a_tree(rt: HostRuntime) -> Result<(), Fail> {
    for &(list, after, from, to) in SHARES {
        let (outcome, bytes) = share_of(rt.alloc(), list, after)?;
        let found = (outcome.status, outcome.note, Some(bytes.as_slice()));
        let due = (0, None, ROLL_AFTER_IF_TEXT.get(from..to));
        expect_same(&rt, "a share", found, due);
    }
    Ok(())
}

const NO_SHARES: &[(&[Marked], Option<&[Marked]>, Note)] = &[
    (&[ONE, ONE], None, Note::NoBeginning),
    (&[THREE], None, Note::NoBeginning),
    (&[TWO_OF_3], None, Note::NoBeginning),
    (&[TWO_OF_3], Some(&[ONE]), Note::NoBeginning),
    (&[TWO], Some(&[ONE]), Note::NoRun),
];

#[test]
fn shares_of_no_run(rt: HostRuntime) -> Result<(), Fail> {
    for &(list, after, note) in NO_SHARES {
        let reply = share_of(rt.alloc(), list, after)?;
        expect_reply(&rt, reply, (67, Some(note)), b"");
    }
    Ok(())
}

// The runs of these programs, in order, with their bounds here and there.
const ONE_ROLL_RUNS: &[&[Marked]] = &[&[ONE], &[TWO_OF_2]];

const ROLL_AFTER_IF_RUNS: &[&[Marked]] = &[
    &[ONE],
    &[TWO, ONE],
    &[TWO_OF_2, TWO],
    &[TWO_OF_2, THREE_OF_3],
];

const FAULTY_RUNS: &[&[Marked]] = &[&[ONE], &[TWO, ONE_OF_1]];

const ROLLED_INDEX_RUNS: &[&[Marked]] = &[&[ONE, ONE], &[ONE, TWO], &[TWO, ONE], &[TWO, TWO]];

const LIMITED_RUNS: &[&[Marked]] = &[&[ONE], &[TWO]];

// Requests with what they list, and the runs of that.
const IN_TWO_PARTS: &[(AllRuns<'static>, &[u8], &[&[Marked]])] = &[
    (all_of!(ONE_ROLL), ONE_ROLL_TEXT, ONE_ROLL_RUNS),
    (
        all_of!(ROLL_AFTER_IF),
        ROLL_AFTER_IF_TEXT,
        ROLL_AFTER_IF_RUNS,
    ),
    (all_of!(FAULTY), FAULTY_TEXT, FAULTY_RUNS),
    (
        all_of!(ROLLED_INDEX, input = b")\n5\n"),
        ROLLED_INDEX_TEXT,
        ROLLED_INDEX_RUNS,
    ),
    (all_of!(LIMITED, steps = 1), LIMITED_TEXT, LIMITED_RUNS),
];

// The first reports of a listing, up to a run, and then those that are listed after this run.
fn joined(
    alloc: Global,
    asked: &AllRuns<'_>,
    first: u64,
    run: &[Marked],
) -> Result<Vec<u8>, AllocError> {
    let first = Some(first);
    let (_, mut bytes) = listed(alloc, &AllRuns { first, ..*asked }, 100)?;
    let after = Some(run);
    let (_, rest) = listed(alloc, &AllRuns { after, ..*asked }, 100)?;
    bytes.extend_from_slice(&rest)?;
    Ok(bytes)
}

// A listing may end at each of its runs, and continue after it.
fn expect_two_parts(
    rt: &impl Abort,
    alloc: Global,
    asked: &AllRuns<'_>,
    text: &[u8],
    runs: &[&[Marked]],
) -> Result<(), AllocError> {
    let mut first: u64 = 0;
    for run in runs {
        first = first.saturating_add(1);
        let bytes = joined(alloc, asked, first, run)?;
        expect_same(rt, "two parts", (first, bytes.as_slice()), (first, text));
    }
    Ok(())
}

// What is listed up to a run, and what is listed after it, is the complete listing.
#[test]
fn listings_in_two_parts(rt: HostRuntime) -> Result<(), Fail> {
    for (asked, text, runs) in IN_TWO_PARTS {
        expect_two_parts(&rt, rt.alloc(), asked, text, runs)?;
    }
    Ok(())
}
