// This file tests the reports of runs: what they are of, their text in both forms, and writers that fail.

use crate::tests::explorers::{ALL, Listing, Runs, explorer_of};
use crate::tests::shared::{
    ONE_OF_6, Row, THREE, THREE_OF_3, ZERO, are_asked, are_viewed, expect_rows, expect_same,
    loaded, plain_rules, table,
};
use crate::tests::written_rows::{Source, Writing, Written, source_of};
use ptb_explore::{Form, Marked, OpenFault};
use ptb_machine::{Ending, ending_word};
use ptb_text::Program;
use std::alloc::{AllocError, Global};
use std::test::Fail;

// Whether the run after one with these answers has these answers and bounds.
fn is_next(
    alloc: Global,
    program: &Program,
    before: &[i16],
    answers: &[i16],
    bounds: &[i16],
) -> bool {
    let runs = Runs::After(before);
    let Ok(mut explorer) = explorer_of(alloc, program, &[], plain_rules(10000), runs) else {
        return false;
    };
    match explorer.next() {
        Ok(Some(report)) => {
            are_asked(&report.asked, answers, bounds)
                && are_viewed(report.answers(), report.bounds(), answers, bounds)
        }
        _ => false,
    }
}

// An answer is raised, and ones follow it; the bounds are those of the questions.
#[test]
fn records_a_plan_and_ones(rt: HostRuntime) -> Result<(), Fail> {
    let text = "10 A=RND(2),B=RND(3),C=RND(7),D=RND(1)";
    let (program, _) = loaded(rt.alloc(), text, "")?;
    let (before, answers) = (&[2, 2, 7, 1], &[2, 3, 1, 1]);
    let found = is_next(rt.alloc(), &program, before, answers, &[2, 3, 7, 1]);
    expect_same(&rt, "the next run", found, true);
    Ok(())
}

// A program, answers, of which some have their bounds, and whether they are one of its runs.
struct Run(&'static str, &'static [Marked], bool);

impl Row<Global> for Run {
    fn holds(&self, alloc: &Global) -> bool {
        let Ok((program, lines)) = loaded(*alloc, self.0, "") else {
            return false;
        };
        let runs = Runs::AfterMarked(self.1);
        match explorer_of(*alloc, &program, &lines, plain_rules(10000), runs) {
            Ok(_) => self.2,
            Err(OpenFault::NotARun(_)) => !self.2,
            Err(_) => false,
        }
    }
}

// An answer outside its bound isn't taken, be it above or 0, and the bounds are those of the questions.
const RUNS: &[Run] = table! { Run:
    ("10 A=RND(6),B=RND(2)", &[ONE_OF_6, THREE], false),
    ("10 A=RND(6),B=RND(3)", &[ONE_OF_6, THREE_OF_3], true),
    ("10 A=RND(6),B=RND(3),C=RND(9)", &[ONE_OF_6, THREE_OF_3, ZERO], false),
    ("10 A=RND(6),B=RND(2),C=RND(3)", &[ONE_OF_6, THREE_OF_3], false),
};

// The first report, in both forms.
const FIRST: Listing<'static> = Listing {
    first: Some(1),
    ..ALL
};

const FIRST_WITH_BOUNDS: Listing<'static> = Listing {
    first: Some(1),
    form: Form::Two,
    ..ALL
};

const REPORTS: &[Written<Listing<'static>>] = table! { Written:
    ("", "", FIRST, &["RUN none END 0 0\n\n"]),
    ("", "", FIRST_WITH_BOUNDS, &["RUN none END 0 0\n\n"]),
    ("10 A=RND(2),B=RND(3);C=RND(2-A)", "", Listing { runs: Runs::After(&[1, 3, 1]), ..FIRST },
     &["RUN 2,1 HOW 2 38\nHOW?\n10 A=RND(2),B=RND(3);C=RND(2-A)?\n\n"]),
    ("10 A=RND(2),B=RND(3);C=RND(2-A)", "", Listing { runs: Runs::After(&[1, 3, 1]), ..FIRST_WITH_BOUNDS },
     &["RUN 2/2,1/3 HOW 2 38\nHOW?\n10 A=RND(2),B=RND(3);C=RND(2-A)?\n\n"]),
    ("10 A=RND(32767);P.'x',;STOP", "", Listing { runs: Runs::After(&[32766]), ..FIRST },
     &["RUN 32767 STOP 3 1\nx\n"]),
    ("10 A=RND(32767);P.'x',;STOP", "", Listing { runs: Runs::After(&[32766]), ..FIRST_WITH_BOUNDS },
     &["RUN 32767/32767 STOP 3 1\nx\n"]),
    ("10 INPUT A", "", FIRST, &["RUN none NOINPUT 1 2\nA:\n"]),
    ("10 INPUT A", "", FIRST_WITH_BOUNDS, &["RUN none NOINPUT 1 2\nA:\n"]),
    // a writer that takes fewer bytes than a report has gets a prefix of it
    ("10 A=RND(1);B=RND(2);C=1", "", Listing { runs: Runs::After(&[1, 1]), ..ALL }, &["RUN 1,2 END 3 0\n\n"]),
};

#[test]
fn writes_reports(rt: HostRuntime) {
    expect_rows(&rt, "lists and runs", &rt.alloc(), RUNS);
    expect_rows(&rt, "reports", &rt.alloc(), REPORTS);
}

// A program that takes 300 answers, and then shows 600 bytes. That takes 604 commands.
fn long_program(alloc: Global) -> Result<String, AllocError> {
    let shown = "x".repeat(alloc, 200)?;
    format!(in alloc;
        "10 F.I=1TO300;A=RND(10);N.I\n20 P.'{shown}',\n30 P.'{shown}',\n\
40 P.'{shown}',\n50 GOTO 50\n"
    )
}

// The report of its last run.
fn long_report(alloc: Global) -> Result<String, AllocError> {
    let others = ",10".repeat(alloc, 299)?;
    let shown = "x".repeat(alloc, 600)?;
    format!(in alloc; "RUN 10{others} LIMIT 604 600\n{shown}\n")
}

// Whether the report after the last run but one is written into this room.
fn is_last_written(source: &Source, room: &mut [u8]) -> bool {
    let mut before = [10; 300];
    before[299] = 9;
    let last = Listing {
        runs: Runs::After(&before),
        limit: 604,
        ..ALL
    };
    last.write(source, room) == Ok(1)
}

// It has more bytes than are gathered before they are written.
#[test]
fn writes_a_long_report(rt: HostRuntime) -> Result<(), Fail> {
    let (text, report) = (long_program(rt.alloc())?, long_report(rt.alloc())?);
    let source = source_of(rt.alloc(), text.as_str(), "")?;
    let mut room = Vec::new(rt.alloc());
    room.resize(report.len(), b'.')?;
    let written = is_last_written(&source, &mut room[..]);
    expect_same(&rt, "is written", written, true);
    expect_same(&rt, "report", room.as_slice(), report.as_bytes());
    Ok(())
}

// An ending, and its word in reports.
struct EndingWord(Ending, &'static [u8]);

impl Row<()> for EndingWord {
    fn holds(&self, _context: &()) -> bool {
        ending_word(self.0) == self.1
    }
}

const WORDS: &[EndingWord] = table! { EndingWord:
    (Ending::End, b"END"),
    (Ending::Stop, b"STOP"),
    (Ending::What, b"WHAT"),
    (Ending::How, b"HOW"),
    (Ending::Sorry, b"SORRY"),
    (Ending::Limit, b"LIMIT"),
    (Ending::NoInput, b"NOINPUT"),
    (Ending::NoAnswer, b""),
};

#[test]
fn words_of_endings(rt: HostRuntime) {
    expect_rows(&rt, "words", &(), WORDS);
}
