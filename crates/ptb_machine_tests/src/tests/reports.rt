// This file tests reports of faults, also on texts that are longer than those of statements.

use crate::tests::shared::expect_eq;
use ptb_expr::{Fault, FaultKind};
use ptb_machine::{TextScreen, report_fault};
use std::alloc::{AllocError, Global};
use std::process::Abort;

// Reports HOW? on a text of this length; whether it is shown, and the next line is fresh.
fn is_reported(screen: &mut TextScreen, fresh: bool, length: usize, mark: usize) -> bool {
    let kind = FaultKind::How;
    let text = [b'A'; 400];
    let Some(text) = text.get(..length) else {
        return false;
    };
    let mut fresh = fresh;
    report_fault(screen, &mut fresh, 10, text, Fault { kind, mark }).is_ok() && fresh
}

// What the report is: its front, the text with the mark, and a newline.
fn report_due(
    alloc: Global,
    fresh: bool,
    length: usize,
    mark: usize,
) -> Result<Vec<u8>, AllocError> {
    let front = if fresh { "HOW?\n10 " } else { "\nHOW?\n10 " };
    let mut due = Vec::from_slice(alloc, front.as_bytes())?;
    due.resize(front.len().saturating_add(mark), b'A')?;
    due.push(b'?')?;
    let whole = due.len().saturating_add(length.saturating_sub(mark));
    due.resize(whole, b'A')?;
    due.push(b'\n')?;
    Ok(due)
}

const REPORTS: &[(bool, usize, usize)] = &[
    (true, 0, 0),
    (false, 0, 0),
    (true, 255, 0),
    (false, 255, 255),
    (true, 400, 0),
    (true, 400, 200),
    (false, 400, 400),
];

// A report of HOW? is this one.
fn expect_report(rt: &impl Abort, alloc: Global, (fresh, length, mark): (bool, usize, usize)) {
    let due = report_due(alloc, fresh, length, mark).expect(rt, "memory");
    let mut screen = TextScreen::new(alloc);
    let is_reported = is_reported(&mut screen, fresh, length, mark);
    let found = (is_reported, screen.bytes());
    expect_eq(rt, "a report", found, (true, due.as_slice()));
}

// A report is complete, and has its mark, even if the text is longer than that of a statement.
#[test]
fn reports(rt: HostRuntime) {
    for &row in REPORTS {
        expect_report(&rt, rt.alloc(), row);
    }
}
