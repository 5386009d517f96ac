// This file tests samples of runs, also to writers that fail and where memory is refused.

use crate::tests::explorers::BRANCHES;
use crate::tests::shared::{expect_rows, rules, table};
use crate::tests::written_rows::{Source, Writing, Written, expect_begun};
use ptb_explore::{ExploreFault, Form, Sample, write_sample};
use ptb_text::Device;
use std::test::Fail;

// A seed, how many runs are drawn, the form of their reports, and the bound for answers instead of lines.
struct Drawn(u64, u32, Form, Option<i16>);

impl Writing for Drawn {
    fn write(&self, source: &Source, room: &mut [u8]) -> Result<u64, ExploreFault> {
        let Drawn(seed, runs, form, choose) = *self;
        let (sample, rules) = (Sample { seed, runs, form }, rules(10000, choose));
        let (program, lines) = (&source.program, source.lines.as_slice());
        write_sample(
            source.alloc,
            program,
            lines,
            rules,
            sample,
            &mut Device::new(room),
        )?;
        Ok(u64::from(runs))
    }
}

const ROLL: &str = "10 P.RND(6)";

// The words of a seed are those of the reference implementation of PCG32.
const ROWS: &[Written<Drawn>] = table! { Written:
    (ROLL, "", Drawn(7, 1, Form::Two, None), &["RUN 3/6 END 1 7\n     3\n\n"]),
    (ROLL, "", Drawn(7, 0, Form::Two, None), &[]),
    // other seeds
    (ROLL, "", Drawn(0, 2, Form::Two, None), &["RUN 6/6 END 1 7\n     6\n\n", "RUN 6/6 END 1 7\n     6\n\n"]),
    (ROLL, "", Drawn(4294967295, 2, Form::Two, None),
     &["RUN 4/6 END 1 7\n     4\n\n", "RUN 2/6 END 1 7\n     2\n\n"]),
    // runs with one answer and with two; a word that a run doesn't ask for is left to the next
    (BRANCHES, "", Drawn(7, 4, Form::Two, None),
     &["RUN 1/2 END 2 0\n\n", "RUN 1/2 END 2 0\n\n", "RUN 1/2 END 2 0\n\n", "RUN 2/2,1/3 END 4 7\n     1\n\n"]),
    // each run begins with empty variables and with the first line
    ("10 A=A+RND(6);INPUT B;P.A,B", "8\n9\n", Drawn(7, 2, Form::One, None),
     &["RUN 3 END 3 17\nB:8\n     3     8\n\n", "RUN 5 END 3 17\nB:8\n     5     8\n\n"]),
    // an answer instead of a line, no line, a fault, and no question
    ("10 INPUT A", "", Drawn(7, 2, Form::Two, Some(6)),
     &["RUN 3/6 END 1 4\nA:3\n\n", "RUN 5/6 END 1 4\nA:5\n\n"]),
    ("10 INPUT A", "", Drawn(7, 2, Form::Two, None),
     &["RUN none NOINPUT 1 2\nA:\n", "RUN none NOINPUT 1 2\nA:\n"]),
    ("10 P.1/0", "", Drawn(7, 1, Form::Two, None), &["RUN none HOW 1 15\nHOW?\n10 P.1/0?\n\n"]),
    ("", "", Drawn(7, 2, Form::Two, None), &["RUN none END 0 0\n\n", "RUN none END 0 0\n\n"]),
};

// Three rolls.
const THREE_ROLLS: Written<Drawn> = Written(
    ROLL,
    "",
    Drawn(7, 3, Form::One, None),
    &[
        "RUN 3 END 1 7\n     3\n\n",
        "RUN 5 END 1 7\n     5\n\n",
        "RUN 5 END 1 7\n     5\n\n",
    ],
);

#[test]
fn writes_samples(rt: HostRuntime) {
    expect_rows(&rt, "samples", &rt.alloc(), ROWS);
    expect_rows(&rt, "three rolls", &rt.alloc(), &[THREE_ROLLS]);
}

// Passes whichever of its allocations is refused: the sample that ends there has just the reports that
// it counts.
#[test]
fn refused_samples_end_with_a_report(rt: HostRuntime) -> Result<(), Fail> {
    expect_begun(&rt, rt.alloc(), &THREE_ROLLS)
}
