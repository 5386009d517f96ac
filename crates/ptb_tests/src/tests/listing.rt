// This file tests listings of runs, also to writers that fail and where memory is refused.

use crate::tests::devices::{FAILINGS, Failing, make_sink};
use crate::tests::explorers::{ALL, BRANCHES, Listing, Runs, explorer_of, open_fault};
use crate::tests::shared::{
    FOUR_OF_3, FOUR_OF_4, ONE, ONE_OF_1, ONE_OF_2, ONE_OF_3, ONE_OF_4, OUT_OF_MEMORY, Row, THREE,
    TWO, TWO_OF_2, TWO_OF_3, ZERO, are_asked, expect_rows, expect_same, loaded, plain_rules, table,
};
use crate::tests::written_rows::{Written, has_just, is_begun, is_result, refused_after, tell};
use ptb_explore::{ExploreFault, Explorer, Form, OpenFault, write_all_runs};
use ptb_machine::{Ending, Line};
use ptb_text::{Device, Program};
use std::alloc::{AllocError, Global};
use std::test::Fail;

const PRODUCTS: &str = "10 PRINT RND(2)*RND(2)";

const PRODUCT_REPORTS: &[&str] = &[
    "RUN 1,1 END 1 7\n     1\n\n",
    "RUN 1,2 END 1 7\n     2\n\n",
    "RUN 2,1 END 1 7\n     2\n\n",
    "RUN 2,2 END 1 7\n     4\n\n",
];

const BRANCH_REPORTS: &[&str] = &[
    "RUN 1 END 2 0\n\n",
    "RUN 2,1 END 4 7\n     1\n\n",
    "RUN 2,2 END 4 7\n     2\n\n",
    "RUN 2,3 END 4 7\n     3\n\n",
];

const LISTINGS: &[Written<Listing<'static>>] = table! { Written:
    ("", "", ALL, &["RUN none END 0 0\n\n"]),
    (PRODUCTS, "", ALL, PRODUCT_REPORTS),
    (BRANCHES, "", ALL, BRANCH_REPORTS),
    ("10 A=RND(2)-1;B=RND(A)", "", ALL, &["RUN 1 HOW 2 29\nHOW?\n10 A=RND(2)-1;B=RND(A)?\n\n", "RUN 2,1 END 2 0\n\n"]),
    ("10 INPUT A;PRINT A", "RND(2)", ALL,
     &["RUN 1 END 2 16\nA:RND(2)\n     1\n\n", "RUN 2 END 2 16\nA:RND(2)\n     2\n\n"]),
    ("10 INPUT A", "", ALL, &["RUN none NOINPUT 1 2\nA:\n"]),
    ("10 A=RND(2);B=RND(2)", "", Listing { limit: 1, ..ALL }, &["RUN 1 LIMIT 1 0\n\n", "RUN 2 LIMIT 1 0\n\n"]),
    // each answer that INPUT takes instead of a line gives a run, as each of RND's does
    ("10 INPUT A;PRINT A", "", Listing { choose: Some(2), ..ALL },
     &["RUN 1 END 2 11\nA:1\n     1\n\n", "RUN 2 END 2 11\nA:2\n     2\n\n"]),
    ("10 INPUT A;PRINT A", ")", Listing { choose: Some(2), ..ALL },
     &["RUN 1 END 2 21\nA:)\nWHAT?\nA:1\n     1\n\n", "RUN 2 END 2 21\nA:)\nWHAT?\nA:2\n     2\n\n"]),
    ("10 INPUT A;PRINT A", "7", Listing { choose: Some(2), ..ALL }, &["RUN none END 2 11\nA:7\n     7\n\n"]),
    ("10 INPUT @(RND(2)-1)", "", Listing { choose: Some(2), ..ALL },
     &["RUN 1,1 END 1 14\n@(RND(2)-1):1\n\n", "RUN 1,2 END 1 14\n@(RND(2)-1):2\n\n",
       "RUN 2,1 END 1 14\n@(RND(2)-1):1\n\n", "RUN 2,2 END 1 14\n@(RND(2)-1):2\n\n"]),
    // after a run
    (PRODUCTS, "", Listing { runs: Runs::After(&[1, 1]), first: Some(2), ..ALL },
     &["RUN 1,2 END 1 7\n     2\n\n", "RUN 2,1 END 1 7\n     2\n\n"]),
    (BRANCHES, "", Listing { runs: Runs::After(&[2, 3]), ..ALL }, &[]),
    ("", "", Listing { runs: Runs::After(&[]), ..ALL }, &[]),
};

// The reports of the branches, with bounds.
const RUN_1: &str = "RUN 1/2 END 2 0\n\n";

const RUN_2_1: &str = "RUN 2/2,1/3 END 4 7\n     1\n\n";

const RUN_2_2: &str = "RUN 2/2,2/3 END 4 7\n     2\n\n";

const RUN_2_3: &str = "RUN 2/2,3/3 END 4 7\n     3\n\n";

// Listings of the branches in form 2: which runs, how many at most, and the reports that are due.
macro_rules! branches {
    ($(($runs:expr, $first:expr, $due:expr)),* $(,)?) => {
        &[$(
            Written(
                BRANCHES,
                "",
                Listing {
                    runs: $runs,
                    first: $first,
                    form: Form::Two,
                    ..ALL
                },
                $due,
            )
        ),*]
    };
}

const LISTINGS_OF_BRANCHES: &[Written<Listing<'static>>] = branches! {
    (Runs::All, None, &[RUN_1, RUN_2_1, RUN_2_2, RUN_2_3]),
    // after the run of the answers 2 and 1: each bound may be stated or not
    (Runs::AfterMarked(&[TWO, ONE]), None, &[RUN_2_2, RUN_2_3]),
    (Runs::AfterMarked(&[TWO, ONE_OF_3]), None, &[RUN_2_2, RUN_2_3]),
    (Runs::AfterMarked(&[TWO_OF_2, ONE]), None, &[RUN_2_2, RUN_2_3]),
    (Runs::AfterMarked(&[TWO_OF_2, ONE_OF_3]), None, &[RUN_2_2, RUN_2_3]),
    // those that begin with some answers
    (Runs::Under(&[]), None, &[RUN_1, RUN_2_1, RUN_2_2, RUN_2_3]),
    (Runs::Under(&[ONE]), None, &[RUN_1]),
    (Runs::Under(&[TWO]), None, &[RUN_2_1, RUN_2_2, RUN_2_3]),
    (Runs::Under(&[TWO]), Some(1), &[RUN_2_1]),
    (Runs::Under(&[TWO, ONE_OF_3]), None, &[RUN_2_1]),
    (Runs::Under(&[TWO, THREE]), None, &[RUN_2_3]),
    (Runs::Under(&[TWO_OF_2]), None, &[RUN_2_1, RUN_2_2, RUN_2_3]),
    (Runs::Under(&[TWO_OF_2]), Some(1), &[RUN_2_1]),
    (Runs::Under(&[TWO_OF_2, ONE_OF_3]), None, &[RUN_2_1]),
    (Runs::Under(&[TWO_OF_2, THREE]), None, &[RUN_2_3]),
    // after one of them
    (Runs::UnderAfter(&[TWO], &[TWO_OF_2, ONE]), None, &[RUN_2_2, RUN_2_3]),
    (Runs::UnderAfter(&[TWO], &[TWO_OF_2, TWO]), None, &[RUN_2_3]),
    (Runs::UnderAfter(&[TWO], &[TWO_OF_2, THREE]), None, &[]),
    (Runs::UnderAfter(&[ONE], &[ONE]), None, &[]),
};

// The program of the branches, and where memory is from.
type Branches = (Global, Program);

// Runs of the branches that are none: no run is that after which they come, or none begins so.
enum NoRuns {
    NotARun(Runs<'static>),
    NoBeginning(Runs<'static>),
}

impl Row<Branches> for NoRuns {
    fn holds(&self, context: &Branches) -> bool {
        match *self {
            NoRuns::NotARun(runs) => matches!(
                open_fault(context.0, &context.1, runs),
                Some(OpenFault::NotARun(_))
            ),
            NoRuns::NoBeginning(runs) => matches!(
                open_fault(context.0, &context.1, runs),
                Some(OpenFault::NoBeginning(_))
            ),
        }
    }
}

const NO_RUNS: &[NoRuns] = &[
    NoRuns::NotARun(Runs::After(&[])),
    NoRuns::NotARun(Runs::After(&[2])),
    NoRuns::NotARun(Runs::After(&[2, 4])),
    NoRuns::NotARun(Runs::After(&[2, 1, 1])),
    NoRuns::NotARun(Runs::After(&[0])),
    // the bound of another question
    NoRuns::NotARun(Runs::AfterMarked(&[TWO_OF_3, ONE_OF_3])),
    NoRuns::NotARun(Runs::AfterMarked(&[TWO_OF_2, ONE_OF_2])),
    NoRuns::NotARun(Runs::AfterMarked(&[TWO, ONE_OF_4])),
    NoRuns::NotARun(Runs::AfterMarked(&[ONE_OF_1])),
    // beginnings, a run and more, an answer out of range
    NoRuns::NotARun(Runs::AfterMarked(&[])),
    NoRuns::NotARun(Runs::AfterMarked(&[TWO_OF_2])),
    NoRuns::NotARun(Runs::AfterMarked(&[TWO_OF_2, ONE_OF_3, ONE])),
    NoRuns::NotARun(Runs::AfterMarked(&[TWO_OF_2, FOUR_OF_3])),
    NoRuns::NotARun(Runs::AfterMarked(&[TWO_OF_2, FOUR_OF_4])),
    NoRuns::NotARun(Runs::UnderAfter(&[TWO], &[ONE])),
    NoRuns::NoBeginning(Runs::Under(&[ONE, ONE])),
    NoRuns::NoBeginning(Runs::Under(&[THREE])),
    NoRuns::NoBeginning(Runs::Under(&[ZERO])),
    NoRuns::NoBeginning(Runs::Under(&[TWO_OF_3])),
    NoRuns::NoBeginning(Runs::Under(&[TWO_OF_2, ONE_OF_2])),
    NoRuns::NoBeginning(Runs::Under(&[TWO, FOUR_OF_4])),
];

#[test]
fn listings(rt: HostRuntime) -> Result<(), Fail> {
    expect_rows(&rt, "listings", &rt.alloc(), LISTINGS);
    expect_rows(
        &rt,
        "listings of branches",
        &rt.alloc(),
        LISTINGS_OF_BRANCHES,
    );
    let (program, _) = loaded(rt.alloc(), BRANCHES, "")?;
    expect_rows(&rt, "no runs", &(rt.alloc(), program), NO_RUNS);
    Ok(())
}

// Whether the next run has the answers 1 and this one to questions with the bounds 1 and 2, takes two
// steps, and shows a number.
fn is_next(explorer: &mut Explorer, second: i16) -> bool {
    match explorer.next() {
        Ok(Some(report)) => {
            are_asked(&report.asked, &[1, second], &[1, 2])
                && report.ending == Ending::End
                && report.steps == 2
                && report.transcript.len() == 7
        }
        _ => false,
    }
}

// Whether no run is left, even if this is asked again.
fn is_none_left(explorer: &mut Explorer) -> bool {
    matches!(explorer.next(), Ok(None)) && matches!(explorer.next(), Ok(None))
}

#[test]
fn lends_each_report(rt: HostRuntime) -> Result<(), Fail> {
    let (program, lines) = loaded(rt.alloc(), "10 A=RND(1);P.RND(2)", "")?;
    let mut explorer = Explorer::start(rt.alloc(), &program, &lines, plain_rules(10000))?;
    let both = is_next(&mut explorer, 1) && is_next(&mut explorer, 2);
    expect_same(&rt, "both runs", both, true);
    expect_same(&rt, "no run is left", is_none_left(&mut explorer), true);
    Ok(())
}

// Whether the listing of all products to a writer that fails after so many calls counts the reports that
// are written. A report of 24 bytes takes five calls.
fn is_counted(
    alloc: Global,
    program: &Program,
    lines: &[Line],
    failing: Failing,
    calls: usize,
) -> bool {
    let mut sink = make_sink(alloc, 5, calls, failing);
    let Ok(mut explorer) = explorer_of(alloc, program, lines, plain_rules(10000), Runs::All) else {
        return false;
    };
    let written = write_all_runs(&mut explorer, None, Form::One, &mut Device::new(&mut sink));
    is_result(written, &sink.taken, PRODUCT_REPORTS) && written.is_ok() == (calls == 20)
}

// The writer fails at its first call, at its second, and so on until it does not fail.
#[test]
fn counts_reports_of_a_failing_writer(rt: HostRuntime) -> Result<(), Fail> {
    let (program, lines) = loaded(rt.alloc(), PRODUCTS, "")?;
    for &failing in FAILINGS {
        for calls in 0..=20 {
            let is_right = is_counted(rt.alloc(), &program, &lines, failing, calls);
            let found = (failing, calls, is_right);
            expect_same(&rt, "reports are counted", found, (failing, calls, true));
        }
    }
    Ok(())
}

// How many reports were written, even if memory was refused.
fn count_of(written: Result<u64, ExploreFault>) -> usize {
    match written {
        Ok(count) => count as usize,
        Err(ExploreFault::Memory(count)) => count as usize,
        Err(ExploreFault::Write(_)) => usize::MAX,
    }
}

// Whether a listing has all reports that are left.
fn is_rest_written(explorer: &mut Explorer, reports: &[&str]) -> bool {
    let mut room = [b'.'; 100];
    let written = write_all_runs(explorer, None, Form::One, &mut Device::new(&mut room[..]));
    written == Ok(reports.len() as u64) && has_just(&room, reports)
}

// After how many reports memory was refused a listing, if it was; it has just these, and a second one has
// the others.
fn begun(explorer: &mut Explorer) -> Result<Option<u64>, &'static str> {
    let mut room = [b'.'; 100];
    let first = write_all_runs(explorer, None, Form::One, &mut Device::new(&mut room[..]));
    let Some(rest) = BRANCH_REPORTS.get(count_of(first)..) else {
        return Err("no such reports");
    };
    if is_begun(first, &room, BRANCH_REPORTS) && is_rest_written(explorer, rest) {
        Ok(refused_after(first))
    } else {
        Err("other reports")
    }
}

// The same of a program, unless there is no memory for its explorer.
fn begun_from(alloc: Global, text: &str) -> Result<Option<u64>, &'static str> {
    let (program, lines) = match loaded(alloc, text, "") {
        Ok(both) => both,
        Err(why) if why == OUT_OF_MEMORY => return Ok(None),
        Err(why) => return Err(why),
    };
    match Explorer::start(alloc, &program, &lines, plain_rules(10000)) {
        Ok(mut explorer) => begun(&mut explorer),
        Err(AllocError) => Ok(None),
    }
}

// Passes whichever of its allocations is refused: the listing that ends there has just the reports
// that it counts, and a second one by the same explorer has the others.
#[test]
fn refused_listings_go_on(rt: HostRuntime) -> Result<(), Fail> {
    let refused = begun_from(rt.alloc(), BRANCHES)?;
    tell(&rt, refused)
}
