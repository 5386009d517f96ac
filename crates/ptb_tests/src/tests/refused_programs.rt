// This file tests programs that `serve` refuses, and those that fail or never end while they are read.

use crate::tests::devices::{Endless, Script};
use crate::tests::replies::{
    EACH_KIND, RUN, ServedRow, expect_reply, expect_served_row, expect_served_rows, reply_to,
    request_of, row, rows,
};
use crate::tests::shared::expect_same;
use ptb_serve::{Note, Outcome};
use ptb_text::{Device, LoadFault};
use std::alloc::{AllocError, Global};
use std::process::Abort;
use std::test::Fail;

const ELEVEN_LINES: &[u8] =
    b"1 P.1\n2 P.1\n3 P.1\n4 P.1\n5 P.1\n6 P.1\n7 P.1\n8 P.1\n9 P.1\n10 P.1\n11 P.1\n";

const REFUSED_PROGRAMS: &[ServedRow<'static>] = rows! {
    (b"32768 P.1", b"", 65, note = Some(Note::Load(1, LoadFault::NumberTooBig))),
    (b"0 P.", b"", 65, note = Some(Note::Load(1, LoadFault::NoNumber))),
    (b"P.1", b"", 65, note = Some(Note::Load(1, LoadFault::NoNumber))),
    (b"10 P.\x7f", b"", 65, note = Some(Note::Load(1, LoadFault::BadByte(6)))),
    (b"10 P.1\n\n\nP.2\n0", b"", 65, note = Some(Note::Load(4, LoadFault::NoNumber))),
    (ELEVEN_LINES, b"", 65, note = Some(Note::Load(11, LoadFault::Full)), memory = 64),
};

#[test]
fn refused_programs(rt: HostRuntime) -> Result<(), Fail> {
    for &row in REFUSED_PROGRAMS {
        for &kind in EACH_KIND {
            expect_served_rows(&rt, rt.alloc(), &[ServedRow { kind, ..row }])?;
        }
    }
    Ok(())
}

// A text, another one so often, a third one, and why they are refused together.
const LONG_PROGRAMS: &[(&str, &str, usize, &str, Note)] = &[
    ("", "9", 200, " P.", Note::Load(1, LoadFault::NumberTooBig)),
    ("10 A=", "9", 254, "", Note::Load(1, LoadFault::TextTooLong)),
    ("", "\n", 1_048_577, "", Note::Load(0, LoadFault::TooLong)),
];

// A program is refused, whatever is asked for.
fn expect_refused(
    rt: &impl Abort,
    alloc: Global,
    program: &[u8],
    note: Note,
) -> Result<(), AllocError> {
    for &kind in EACH_KIND {
        let row = row!(program, b"", 65, kind = kind, note = Some(note));
        expect_served_row(rt, alloc, &row, 4000)?;
    }
    Ok(())
}

#[test]
fn refused_long_programs(rt: HostRuntime) -> Result<(), Fail> {
    for &(before, piece, count, following, note) in LONG_PROGRAMS {
        let middle = piece.repeat(rt.alloc(), count)?;
        let text = format!(in rt.alloc(); "{before}{middle}{following}")?;
        expect_refused(&rt, rt.alloc(), text.as_bytes(), note)?;
    }
    Ok(())
}

// The result of a row whose program can't be read after its bytes.
fn reply_to_unread(alloc: Global, row: &ServedRow<'_>) -> Result<(Outcome, Vec<u8>), AllocError> {
    let request = request_of(alloc, row)?;
    let mut program = Device::new(Script {
        bytes: row.program,
        piece: 1,
        fails: true,
    });
    let mut input = Device::new(&b""[..]);
    Ok(reply_to(alloc, &request, &mut program, &mut input, 1))
}

// It is refused, whatever is asked for.
fn expect_unread(rt: &impl Abort, alloc: Global, program: &[u8]) -> Result<(), AllocError> {
    for &kind in EACH_KIND {
        let row = row!(program, b"", 66, kind = kind);
        let reply = reply_to_unread(alloc, &row)?;
        expect_reply(rt, reply, (66, Some(Note::ProgramUnread)), b"");
    }
    Ok(())
}

// A reader of the program that fails, at once or after its first bytes.
#[test]
fn unread_programs(rt: HostRuntime) -> Result<(), Fail> {
    expect_unread(&rt, rt.alloc(), b"")?;
    expect_unread(&rt, rt.alloc(), b"10 P.")?;
    expect_unread(&rt, rt.alloc(), b"10 P.1\n")?;
    Ok(())
}

// The result of a request whose program is endless, what is written, and how much was read.
fn reply_on_endless_program(
    alloc: Global,
    row: &ServedRow<'_>,
) -> Result<((Outcome, Vec<u8>), usize), AllocError> {
    let request = request_of(alloc, row)?;
    let mut endless = Endless { given: 0 };
    let mut program = Device::new(&mut endless);
    let mut input = Device::new(&b""[..]);
    let reply = reply_to(alloc, &request, &mut program, &mut input, 1);
    Ok((reply, endless.given))
}

#[test]
fn endless_programs(rt: HostRuntime) -> Result<(), Fail> {
    for &kind in EACH_KIND {
        let row = row!(b"", b"", 65, kind = kind);
        let (reply, given) = reply_on_endless_program(rt.alloc(), &row)?;
        let note = Some(Note::Load(0, LoadFault::TooLong));
        expect_reply(&rt, reply, (65, note), b"");
        expect_same(&rt, "a limit", given <= 1_048_577, true);
    }
    Ok(())
}
