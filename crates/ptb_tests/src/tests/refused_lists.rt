// This file tests what `serve` says of a list that fits no run: by its note, and why.

use crate::tests::explorers::BRANCHES;
use crate::tests::served_listings::kept;
use crate::tests::shared::{
    DEFAULT_MEMORY, FOUR_OF_3, ONE, Row, THREE, TWO, TWO_OF_2, TWO_OF_3, expect_rows, plain_rules,
    table,
};
use ptb_explore::{Form, Marked, Mismatch};
use ptb_options::{Mode, Request};
use ptb_serve::{ListMismatch, Note, serve};
use ptb_text::Device;
use std::alloc::{AllocError, Global};

// The lists of `--under` and `--after`, the note, and why the list that it refuses fits no run.
struct Lists(
    Option<&'static [Marked]>,
    Option<&'static [Marked]>,
    Option<Note>,
    Option<ListMismatch>,
);

const ROWS: &[Lists] = table! { Lists:
    (None, Some(&[ONE]), None, None),
    (Some(&[TWO]), Some(&[TWO, ONE]), None, None),
    (Some(&[THREE]), None, Some(Note::NoBeginning),
     Some(ListMismatch::Under(Mismatch::OutOfRange { item: 1, answer: 3, bound: 2 }))),
    (Some(&[TWO_OF_3]), None, Some(Note::NoBeginning),
     Some(ListMismatch::Under(Mismatch::OtherBound { item: 1, stated: 3, bound: 2 }))),
    (Some(&[ONE, ONE]), Some(&[TWO]), Some(Note::NoBeginning),
     Some(ListMismatch::Under(Mismatch::NoQuestion { items: 1 }))),
    (None, Some(&[TWO_OF_2]), Some(Note::NoRun), Some(ListMismatch::After(Mismatch::Missing { item: 2, bound: 3 }))),
    (None, Some(&[TWO, FOUR_OF_3]), Some(Note::NoRun),
     Some(ListMismatch::After(Mismatch::OutOfRange { item: 2, answer: 4, bound: 3 }))),
    (Some(&[TWO]), Some(&[ONE]), Some(Note::NoRun), Some(ListMismatch::After(Mismatch::NotUnder))),
};

// A listing of all runs with these two lists.
fn request_of(
    alloc: Global,
    under: Option<&[Marked]>,
    after: Option<&[Marked]>,
) -> Result<Request, AllocError> {
    let (under, after) = (kept(alloc, under)?, kept(alloc, after)?);
    Ok(Request {
        rules: plain_rules(10000),
        memory: DEFAULT_MEMORY,
        mode: Mode::All {
            under,
            after,
            first: Some(0),
            form: Form::Two,
        },
    })
}

impl Row<Global> for Lists {
    fn holds(&self, alloc: &Global) -> bool {
        let Lists(under, after, note, mismatch) = *self;
        let Ok(request) = request_of(*alloc, under, after) else {
            return false;
        };
        let (mut program, mut input) = (Device::new(BRANCHES.as_bytes()), Device::new(&b""[..]));
        let mut shown = Vec::new(*alloc);
        let mut out = Device::new(&mut shown);
        let outcome = serve(*alloc, &request, &mut program, &mut input, &mut out);
        outcome.note == note && outcome.mismatch == mismatch
    }
}

#[test]
fn refused_lists(rt: HostRuntime) {
    expect_rows(&rt, "lists", &rt.alloc(), ROWS);
}
