// This file tests inputs that fail or never end, and requests that leave their input alone.

use crate::tests::devices::Script;
use crate::tests::replies::{
    Kind, RUN, ServedRow, expect_reply, reply_on_endless_input, reply_to, request_of, row, rows,
};
use crate::tests::shared::expect_same;
use ptb_explore::Form;
use ptb_serve::{Note, Outcome};
use ptb_text::Device;
use std::alloc::{AllocError, Global};
use std::process::Abort;
use std::test::Fail;

// The result of a row whose input gives some bytes a call, and fails after these.
fn reply_on_unread_input(
    alloc: Global,
    row: &ServedRow<'_>,
    bytes: &[u8],
    piece: usize,
) -> Result<(Outcome, Vec<u8>), AllocError> {
    let request = request_of(alloc, row)?;
    let mut program = Device::new(row.program);
    let mut input = Device::new(Script {
        bytes,
        piece,
        fails: true,
    });
    Ok(reply_to(alloc, &request, &mut program, &mut input, 1))
}

// Programs, the bytes after which their input fails, the status, and what is shown.
const UNREAD_INPUTS: &[(&[u8], &[u8], u8, &[u8])] = &[
    (b"10 PRINT \"HI\"", b"", 0, b"HI\n"),
    (b"10 INPUT A", b"5\n", 0, b"A:5\n"),
    (b"10 INPUT A,B", b"5\n", 66, b"A:5\nB:"),
    (b"10 INPUT A,B", b"5\n7", 66, b"A:5\nB:"),
    (b"10 INPUT A", b"", 66, b"A:"),
    (b"10 INPUT A", b"5", 66, b"A:"),
    (
        b"10 PRINT \"A\"; X=RND(9); PRINT \"B\"; INPUT Y",
        b"",
        66,
        b"A\nB\nY:",
    ),
    (
        b"10 INPUT A; PRINT \"A\"; X=RND(9); PRINT \"B\"; INPUT Y",
        b"5\n7",
        66,
        b"A:5\nA\nB\nY:",
    ),
];

// How many bytes are read at most, and the bound for answers instead of lines.
const READINGS: &[(usize, Option<i16>)] = &[(1, None), (5000, None), (1, Some(9)), (5000, Some(9))];

// However the input of a row is read, it fails after these bytes.
fn expect_unread_input(
    rt: &impl Abort,
    alloc: Global,
    row: &ServedRow<'_>,
    bytes: &[u8],
) -> Result<(), AllocError> {
    for &(piece, choose) in READINGS {
        let reply = reply_on_unread_input(alloc, &ServedRow { choose, ..*row }, bytes, piece)?;
        expect_reply(rt, reply, (row.status, row.note), row.bytes);
    }
    Ok(())
}

// How many bytes of an input are read at most: one more than it may have.
const MOST_READ: usize = 16_777_217;

// A row whose input is endless is served by reading at most this many bytes of it.
fn expect_on_endless_input(
    rt: &impl Abort,
    alloc: Global,
    row: &ServedRow<'_>,
    most: usize,
) -> Result<(), AllocError> {
    let request = request_of(alloc, row)?;
    let (reply, given) = reply_on_endless_input(alloc, &request, row.program, 1);
    expect_reply(rt, reply, (row.status, row.note), row.bytes);
    expect_same(rt, "a limit", given <= most, true);
    Ok(())
}

// The kinds of requests that read the input to its end first.
const INPUT_FIRST: &[Kind<'static>] = &[
    Kind::Chances,
    Kind::Shares(1, Form::Two),
    Kind::Sample(3, Form::Two),
];

// Nothing is written of a table, of lists or of a sample until the input was read to its end.
#[test]
fn inputs_read_first(rt: HostRuntime) -> Result<(), Fail> {
    for &kind in INPUT_FIRST {
        let row = row!(
            b"10 P.RND(6)\n",
            b"",
            66,
            kind = kind,
            note = Some(Note::InputUnread)
        );
        expect_unread_input(&rt, rt.alloc(), &row, b"5\n")?;
        expect_on_endless_input(&rt, rt.alloc(), &row, MOST_READ)?;
    }
    Ok(())
}

// A line is read only when it is asked for, and what was shown before stays. An answer doesn't
// stand for a line that can't be read.
#[test]
fn unread_inputs(rt: HostRuntime) -> Result<(), Fail> {
    for &(program, bytes, status, shown) in UNREAD_INPUTS {
        let note = (status == 66).then_some(Note::InputUnread);
        let kind = Kind::Run(&[4, 4]);
        let row = row!(program, shown, status, kind = kind, note = note);
        expect_unread_input(&rt, rt.alloc(), &row, bytes)?;
    }
    Ok(())
}

#[test]
fn endless_inputs(rt: HostRuntime) -> Result<(), Fail> {
    let note = Some(Note::InputUnread);
    let row = row!(b"10 INPUT A\n", b"A:", 66, note = note);
    expect_on_endless_input(&rt, rt.alloc(), &row, MOST_READ)?;
    Ok(())
}

// A program that asks for no line takes none.
#[test]
fn inputs_not_asked_for(rt: HostRuntime) -> Result<(), Fail> {
    let row = row!(b"10 PRINT \"HI\"\n", b"HI\n", 0);
    expect_on_endless_input(&rt, rt.alloc(), &row, 0)?;
    Ok(())
}

const WITHOUT_INPUT: &[ServedRow<'static>] = rows! {
    (b"10 INPUT A\n", b"10 INPUT A\n", 0, kind = Kind::List),
    (b"10 INPUT A\n", b"", 0, kind = Kind::Check),
    (b"10 INPUT A,\n", b"WHAT?\n10 INPUT A,?\n", 1, kind = Kind::Check),
};

// A listing of a text or of its mistakes leaves its input alone.
#[test]
fn inputs_left_alone(rt: HostRuntime) -> Result<(), Fail> {
    for row in WITHOUT_INPUT {
        expect_on_endless_input(&rt, rt.alloc(), row, 0)?;
    }
    Ok(())
}
