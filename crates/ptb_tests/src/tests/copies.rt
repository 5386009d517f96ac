// This file tests an explorer's copies: how many are kept, and how many commands are played.

use crate::tests::explorers::{Runs, explorer_of};
use crate::tests::shared::{
    ONE, OUT_OF_MEMORY, Row, TWO_OF_2, expect_rows, expect_same, loaded, plain_rules, rules, table,
};
use ptb_explore::{Asked, Explorer, OpenFault, Report};
use ptb_machine::{Ending, Line};
use ptb_text::Program;
use std::alloc::{AllocError, Global};
use std::test::Fail;

// What is expected of a run: its last answers, its steps, the copies that are kept then, and the
// steps played in all runs so far.
struct Run(&'static [i16], u32, usize, u64);

// A program without input, the bound for answers instead of lines, and its runs.
struct Explored(&'static str, Option<i16>, &'static [Run]);

// Whether so many copies are kept, and so many steps were played.
fn has_counts(explorer: &Explorer, kept: usize, played: u64) -> bool {
    (explorer.kept(), explorer.played()) == (kept, played)
}

// Whether these are the last answers of a list of questions.
fn ends_with(asked: &[Asked], last: &[i16]) -> bool {
    if last.len() > asked.len() {
        return false;
    }
    let from = asked.len() - last.len();
    for k in 0..last.len() {
        if asked[from + k].answer != last[k] {
            return false;
        }
    }
    true
}

// Whether the next run is this.
fn is_next(explorer: &mut Explorer, run: &Run) -> bool {
    let Run(last, steps, kept, played) = *run;
    let is_found = match explorer.next() {
        Ok(Some(report)) => ends_with(&report.asked, last) && report.steps == steps,
        _ => false,
    };
    is_found && has_counts(explorer, kept, played)
}

// Whether these are all runs from the beginning on. No copy is kept before them and after them.
fn are_all(explorer: &mut Explorer, runs: &[Run]) -> bool {
    let mut played = 0;
    if !has_counts(explorer, 0, 0) {
        return false;
    }
    for run in runs {
        if !is_next(explorer, run) {
            return false;
        }
        played = run.3;
    }
    matches!(explorer.next(), Ok(None)) && has_counts(explorer, 0, played)
}

impl Row<Global> for Explored {
    fn holds(&self, alloc: &Global) -> bool {
        let Explored(text, choose, runs) = *self;
        let Ok((program, lines)) = loaded(*alloc, text, "") else {
            return false;
        };
        match Explorer::start(*alloc, &program, &lines, rules(10000, choose)) {
            Ok(mut explorer) => are_all(&mut explorer, runs),
            Err(AllocError) => false,
        }
    }
}

const ONE_QUESTION: &str = "10 F.I=1TO200;A=I;N.I\n20 A=RND(3)";

const MANY_QUESTIONS: &str = "10 F.I=1TO69;A=RND(1);N.I\n20 A=RND(2),B=RND(2)";

const EXPLORED: &[Explored] = table! { Explored:
    // a question asked before no other command: nothing is played again but the run itself
    (ONE_QUESTION, None, &[Run(&[1], 402, 1, 402), Run(&[2], 402, 1, 804), Run(&[3], 402, 1, 1206)]),
    // more questions than copies: those with the fewest answers are dropped, and each run after the first
    // continues from the newest copy that has the answers before the raised one
    (MANY_QUESTIONS, None, &[
        Run(&[1, 1], 140, 64, 140), Run(&[1, 2], 140, 64, 142),
        Run(&[2, 1], 140, 64, 144), Run(&[2, 2], 140, 64, 146),
    ]),
    // an answer that stands in for a missing line is kept as any other: only what comes after it is played
    // again
    ("10 F.I=1TO100;A=I;N.I\n20 INPUT A\n30 INPUT B", Some(2), &[
        Run(&[1, 1], 203, 2, 203), Run(&[1, 2], 203, 2, 204),
        Run(&[2, 1], 203, 2, 407), Run(&[2, 2], 203, 2, 408),
    ]),
    // a run that takes more answers than the one before has one copy more
    ("10 A=RND(2);IF A=2 B=RND(2)", None, &[Run(&[1], 2, 1, 2), Run(&[2, 1], 3, 2, 5), Run(&[2, 2], 3, 2, 7)]),
};

#[test]
fn runs_and_their_copies(rt: HostRuntime) {
    expect_rows(&rt, "runs", &rt.alloc(), EXPLORED);
}

// What each run shows, and the steps played so far.
const SHOWN: &[(&str, u64)] = &[
    ("A:3\nB:4\n     1\nC:5\n     5\n", 4),
    ("A:3\nB:4\n     1\nC:5\n    10\n", 6),
    ("A:3\nB:4\n     2\nC:5\n     5\n", 10),
    ("A:3\nB:4\n     2\nC:5\n    10\n", 12),
];

// Whether the next run reaches its end and shows this, after so many steps played.
fn is_shown(explorer: &mut Explorer, shown: &str, played: u64) -> bool {
    let is_found = match explorer.next() {
        Ok(Some(report)) => {
            report.ending == Ending::End && report.transcript.as_slice() == shown.as_bytes()
        }
        _ => false,
    };
    is_found && explorer.played() == played
}

// A run that continues from a copy shows what was shown before, and takes the lines after those
// taken.
#[test]
fn lines_and_bytes_of_a_copy(rt: HostRuntime) -> Result<(), Fail> {
    let text = "10 INPUT A,B;P.RND(2);INPUT C;P.RND(2)*C";
    let (program, lines) = loaded(rt.alloc(), text, "3\n4\n5\n")?;
    let mut explorer = Explorer::start(rt.alloc(), &program, &lines, plain_rules(10000))?;
    for &(shown, played) in SHOWN {
        let found = is_shown(&mut explorer, shown, played);
        expect_same(&rt, shown, found, true);
    }
    Ok(())
}

// Whether a run took so many answers, these last, began so many commands, and shows nothing.
fn is_report(report: &Report, taken: usize, last: &[i16], steps: u32) -> bool {
    report.asked.len() == taken
        && ends_with(&report.asked, last)
        && report.ending == Ending::End
        && report.steps == steps
        && report.transcript.is_empty()
}

// Whether the next run took so many answers, the last of them these, and began so many commands. Where
// memory is refused no copy is kept, and the run is looked for once more.
fn is_next_in_two_calls(explorer: &mut Explorer, taken: usize, last: &[i16], steps: u32) -> bool {
    for _ in 0..2 {
        match explorer.next() {
            Ok(None) => return false,
            Ok(Some(report)) => return is_report(report, taken, last, steps),
            Err(AllocError) => {}
        }
        if explorer.kept() != 0 {
            return false;
        }
    }
    false
}

// Whether the next runs are these, and no others, identified by their last answers.
fn are_next(explorer: &mut Explorer, taken: usize, steps: u32, runs: &[&[i16]]) -> bool {
    for last in runs {
        if !is_next_in_two_calls(explorer, taken, last, steps) {
            return false;
        }
    }
    matches!(explorer.next(), Ok(None))
}

// Whether a program has these runs and no others; or there is no memory for its explorer.
fn has_runs_from(
    alloc: Global,
    program: &Program,
    lines: &[Line],
    taken: usize,
    steps: u32,
    runs: &[&[i16]],
) -> bool {
    match Explorer::start(alloc, program, lines, plain_rules(10000)) {
        Ok(mut explorer) => are_next(&mut explorer, taken, steps, runs),
        Err(AllocError) => true,
    }
}

// Whether a program has these runs and no others, identified by their last answers; or it has no
// memory.
fn has_runs(alloc: Global, text: &str, taken: usize, steps: u32, runs: &[&[i16]]) -> bool {
    match loaded(alloc, text, "") {
        Ok((program, lines)) => has_runs_from(alloc, &program, &lines, taken, steps, runs),
        Err(why) => why == OUT_OF_MEMORY,
    }
}

// Passes whichever of its allocations is refused: the runs are the same.
#[test]
fn refused_copies(rt: HostRuntime) {
    let one = has_runs(rt.alloc(), ONE_QUESTION, 1, 402, &[&[1], &[2], &[3]]);
    let pairs: &[&[i16]] = &[&[1, 1], &[1, 2], &[2, 1], &[2, 2]];
    let many = has_runs(rt.alloc(), MANY_QUESTIONS, 71, 140, pairs);
    expect_same(&rt, "has these runs", (one, many), (true, true));
}

// The third of many questions' runs, where only the second was played before.
const THIRD_RUN: Run = Run(&[2, 1], 140, 64, 142);

// Whether it comes after the second.
fn is_third_next(alloc: Global, program: &Program, lines: &[Line]) -> bool {
    let mut answers = [1; 71];
    answers[70] = 2;
    let runs = Runs::After(&answers);
    match explorer_of(alloc, program, lines, plain_rules(10000), runs) {
        Ok(mut explorer) => { has_counts(&explorer, 64, 140) && is_next(&mut explorer, &THIRD_RUN) }
        Err(_) => false,
    }
}

// After a run, too, the next one continues from a copy.
#[test]
fn after_a_run(rt: HostRuntime) -> Result<(), Fail> {
    let (program, lines) = loaded(rt.alloc(), MANY_QUESTIONS, "")?;
    let found = is_third_next(rt.alloc(), &program, &lines);
    expect_same(&rt, "the third run", found, true);
    Ok(())
}

// Which runs of two questions an explorer is opened for, and how many commands are played for that.
struct Opened(Runs<'static>, u64);

impl Opened {
    // Whether it has played so many, and keeps no copy where it is at no run.
    fn is_met(&self, explorer: &Explorer) -> bool {
        let Opened(runs, played) = *self;
        let is_at_a_run = !matches!(runs, Runs::All | Runs::Under(_));
        explorer.played() == played && (is_at_a_run || explorer.kept() == 0)
    }
}

impl Row<Global> for Opened {
    // It holds even if there is no memory.
    fn holds(&self, alloc: &Global) -> bool {
        let (program, lines) = match loaded(*alloc, "10 A=RND(2);B=RND(3)", "") {
            Ok(both) => both,
            Err(why) => return why == OUT_OF_MEMORY,
        };
        match explorer_of(*alloc, &program, &lines, plain_rules(10000), self.0) {
            Ok(explorer) => self.is_met(&explorer),
            Err(fault) => fault == OpenFault::Memory,
        }
    }
}

const OPENED: &[Opened] = table! { Opened:
    // for all runs nothing is played
    (Runs::All, 0),
    (Runs::Under(&[]), 0),
    (Runs::UnderAfter(&[], &[TWO_OF_2, ONE]), 2),
    (Runs::AfterMarked(&[TWO_OF_2, ONE]), 2),
    // one play shows that a run begins so, and another that the list is a run
    (Runs::Under(&[TWO_OF_2]), 2),
    (Runs::UnderAfter(&[TWO_OF_2], &[TWO_OF_2, ONE]), 4),
};

// Passes whichever of its allocations is refused: all of these runs exist, so that only memory can be
// missing.
#[test]
fn refused_openings(rt: HostRuntime) {
    expect_rows(&rt, "explorers", &rt.alloc(), OPENED);
}
