// This file has the explorers of the tests: of all runs of a program, or of those after or under a list.

use crate::tests::shared::rules;
use crate::tests::written_rows::{Source, Writing};
use ptb_explore::{ExploreFault, Explorer, Form, Marked, OpenFault, write_all_runs};
use ptb_machine::{Line, Rules};
use ptb_text::{Device, Program};
use std::alloc::Global;

/// It asks for an answer from 1 to 2, and after 2 for one from 1 to 3.
pub(crate) const BRANCHES: &str = "10 A=RND(2);IF A=2 B=RND(3);PRINT B";

/// Which runs: all, those after one, those that begin with some answers, or both.
#[derive(Clone, Copy)]
pub(crate) enum Runs<'a> {
    All,
    After(&'a [i16]),
    AfterMarked(&'a [Marked]),
    Under(&'a [Marked]),
    UnderAfter(&'a [Marked], &'a [Marked]),
}

/// An explorer of these runs; or why there is none.
pub(crate) fn explorer_of<'a>(
    alloc: Global,
    program: &'a Program,
    lines: &'a [Line],
    rules: Rules,
    runs: Runs<'_>,
) -> Result<Explorer<'a>, OpenFault> {
    match runs {
        Runs::All => Explorer::start(alloc, program, lines, rules).or(Err(OpenFault::Memory)),
        Runs::After(run) => Explorer::after(alloc, program, lines, rules, run),
        Runs::AfterMarked(run) => Explorer::after_marked(alloc, program, lines, rules, run),
        Runs::Under(list) => Explorer::under(alloc, program, lines, rules, list),
        Runs::UnderAfter(list, run) => {
            Explorer::under(alloc, program, lines, rules, list)?.go_to(run)
        }
    }
}

/// Why there is no explorer of these runs of a program without input, if there is none.
pub(crate) fn open_fault(alloc: Global, program: &Program, runs: Runs<'_>) -> Option<OpenFault> {
    explorer_of(alloc, program, &[], rules(10000, None), runs).err()
}

/// The reports of these runs, how many of them at most, and in which form; the most commands of a run, and
/// the bound for answers instead of lines.
#[derive(Clone, Copy)]
pub(crate) struct Listing<'a> {
    pub(crate) runs: Runs<'a>,
    pub(crate) first: Option<u64>,
    pub(crate) form: Form,
    pub(crate) limit: u32,
    pub(crate) choose: Option<i16>,
}

/// All runs, in form 1.
pub(crate) const ALL: Listing<'static> = Listing {
    runs: Runs::All,
    first: None,
    form: Form::One,
    limit: 10000,
    choose: None,
};

impl Writing for Listing<'_> {
    fn write(&self, source: &Source, room: &mut [u8]) -> Result<u64, ExploreFault> {
        let rules = rules(self.limit, self.choose);
        match explorer_of(
            source.alloc,
            &source.program,
            &source.lines,
            rules,
            self.runs,
        ) {
            Ok(mut explorer) => {
                write_all_runs(&mut explorer, self.first, self.form, &mut Device::new(room))
            }
            Err(_) => Err(ExploreFault::Memory(0)),
        }
    }
}
