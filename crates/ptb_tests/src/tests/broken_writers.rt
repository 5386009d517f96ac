// This file tests replies to writers that fail: what was written is the beginning of the reply.

use crate::tests::devices::{FAILINGS, Failing, Sink, make_sink};
use crate::tests::replies::{
    Kind, RUN, ServedRow, expect_reply, outcome_of, request_of, row, rows,
};
use ptb_serve::Note;
use std::alloc::{AllocError, Global};
use std::process::Abort;
use std::test::Fail;

// A row is served to a writer that fails at a call; what it took before is the beginning of this
// length.
fn expect_broken_off(
    rt: &impl Abort,
    alloc: Global,
    row: &ServedRow<'_>,
    mut sink: Sink,
    length: usize,
) -> Result<(), AllocError> {
    let request = request_of(alloc, row)?;
    let outcome = outcome_of(alloc, &request, row.program, row.input, &mut sink);
    let due = if length < row.bytes.len() {
        (74, Some(Note::Unwritten))
    } else {
        (row.status, None)
    };
    let bytes = &row.bytes[..length.min(row.bytes.len())];
    expect_reply(rt, (outcome, sink.taken), due, bytes);
    Ok(())
}

// A listing of 16 bytes, the mistakes of a text, 35 bytes, and a table of 42 bytes.
const WRITTEN_IN_PIECES: &[ServedRow<'static>] = rows! {
    (b"20 P.34\n10 P.12\n", b"10 P.12\n20 P.34\n", 0, kind = Kind::List),
    (b"20 GOTO 30\n10 PRINT )\n", b"WHAT?\n10 PRINT ?)\nHOW?\n20 GOTO 30?\n", 1, kind = Kind::Check),
    (b"10 P.#1,RND(2)\n", b"CHANCE 1/2 1 END 1\n1\nCHANCE 1/2 1 END 1\n2\n", 0, kind = Kind::Chances),
};

// What was written of a row by calls of two bytes is its beginning, whichever call fails.
fn expect_pieces(rt: &impl Abort, alloc: Global, row: &ServedRow<'_>) -> Result<(), AllocError> {
    for &failing in FAILINGS {
        for calls in 0..=22 {
            let sink = make_sink(alloc, 2, calls, failing);
            expect_broken_off(rt, alloc, row, sink, 2 * calls)?;
        }
    }
    Ok(())
}

#[test]
fn replies_that_cannot_be_written(rt: HostRuntime) -> Result<(), Fail> {
    for row in WRITTEN_IN_PIECES {
        expect_pieces(&rt, rt.alloc(), row)?;
    }
    Ok(())
}

// A row is served to a writer that takes so many bytes a call and fails at its first call, at its
// second and so on: what it took has these lengths.
fn expect_beginnings(
    rt: &impl Abort,
    alloc: Global,
    row: &ServedRow<'_>,
    failing: Failing,
    piece: usize,
    lengths: &[usize],
) -> Result<(), AllocError> {
    for (calls, length) in lengths.iter().enumerate() {
        let sink = make_sink(alloc, piece, calls, failing);
        expect_broken_off(rt, alloc, row, sink, *length)?;
    }
    Ok(())
}

const BYTE_BY_BYTE: &[usize] = &[0, 1, 2, 3, 4, 5, 6, 7, 8, 9, 10, 11, 12, 13, 14];

// What was written of a transcript is its beginning, whichever call fails. The numbers of bytes are
// those before the first call, before the second, and so on. What INPUT shows is written before it
// asks for a line, and when it is done: the prompt; then the line, WHAT? and the prompt, ten bytes;
// and then the last line.
#[test]
fn runs_that_cannot_be_written(rt: HostRuntime) -> Result<(), Fail> {
    let row = row!(b"10 INPUT A", b"A:)\nWHAT?\nA:5\n", 0, input = b")\n5\n");
    for &failing in FAILINGS {
        expect_beginnings(&rt, rt.alloc(), &row, failing, 1, BYTE_BY_BYTE)?;
        expect_beginnings(&rt, rt.alloc(), &row, failing, 5, &[0, 2, 7, 12, 14])?;
    }
    Ok(())
}
