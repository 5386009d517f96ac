// This file tests how many writes a PRINT, an INPUT or the report of a fault takes, and what it has shown
// where it stops.

use crate::tests::shared::{
    Counted, Doing, NO_ANSWER, Offer, UNWRITTEN, doing, done, expect_eq, fault, lines_of, table,
    with_line,
};
use ptb_command::{CommandStop, Output, Registers, put_fault};
use ptb_devices::{Line, WriterScreen};
use ptb_expr::{Fault, FaultKind};
use ptb_machine::report_fault;
use ptb_text::{Device, DeviceFault, Program};
use std::alloc::{AllocError, Global};
use std::process::Abort;

// The lines of the input, the answers, and how many writes the writer takes.
type Offered = (&'static [&'static [u8]], &'static [i16], usize);

// How what is shown begins and ends, and how long it is.
type Shown = (&'static [u8], &'static [u8], usize);

// A command, what it is offered, how it is done, what is shown, and how many writes are left.
type Row = (&'static str, Offered, Doing, Shown, usize);

// One output is lent to all commands.
const WRITES: &[Row] = table! {
    // what PRINT shows
    ("10 P.1,\"HELLO, WORLD\",#1,2/2,' ',#9,-1,_,\"X\"",
     (&[], &[], 3), Ok((0, 41)), (b"     1HELLO, WORLD1        -1\rX\n", b"", 32), 2),
    ("10 P.", (&[], &[], 3), Ok((0, 2)), (b"\n", b"", 1), 2),
    ("10 P.1,", (&[], &[], 3), Ok((0, 4)), (b"     1", b"", 6), 2),
    ("10 P.#255,1,1,#1,1", (&[], &[], 3), Ok((0, 15)), (b"  ", b"", 512), 2),
    ("10 P.#255,1,1,#2,1", (&[], &[], 3), Ok((0, 15)), (b"  ", b"", 513), 1),
    ("10 P.#255,1,1,1", (&[], &[], 3), Ok((0, 12)), (b"  ", b"", 766), 1),
    ("10 P.#255,1,1,1,1,1", (&[], &[], 3), Ok((0, 16)), (b"  ", b"", 1276), 0),
    ("10 P.1,1/0", (&[], &[], 3), fault!(How, 7), (b"     1", b"", 6), 2),
    ("10 P.'A',\"B", (&[], &[], 3), fault!(What, 6), (b"A", b"", 1), 2),
    ("10 P.1/0,1", (&[], &[], 3), fault!(How, 5), (b"", b"", 0), 3),
    ("10 P.'A',RND(5)", (&[], &[], 3), NO_ANSWER, (b"A", b"", 1), 2),
    ("10 P.'A',RND(5),RND(5)", (&[], &[3], 3), NO_ANSWER, (b"A     3", b"", 7), 2),
    ("10 P.'A',1", (&[], &[], 0), UNWRITTEN, (b"", b"", 0), 0),
    ("10 P.'A',RND(5)", (&[], &[], 0), UNWRITTEN, (b"", b"", 0), 0),
    ("10 P.'A',1/0", (&[], &[], 0), UNWRITTEN, (b"", b"", 0), 0),
    ("10 P.#9,'A'", (&[], &[], 0), UNWRITTEN, (b"", b"", 0), 0),
    ("10 P.1", (&[], &[], 3), Ok((0, 3)), (b"     1\n", b"", 7), 2),
    ("10 P.#255,1,1,1", (&[], &[], 1), UNWRITTEN, (b"  ", b"", 510), 0),
    // a value after others, which is gathered with them for one write where there is room in 512 bytes
    ("10 P.7,", (&[], &[], 9), Ok((0, 4)), (b"", b"     7", 6), 8),
    ("10 P.'##',#3,-7,", (&[], &[], 9), Ok((0, 13)), (b"", b"## -7", 5), 8),
    ("10 P.'#',#2,100,", (&[], &[], 9), Ok((0, 13)), (b"", b"#100", 4), 8),
    ("10 P.#0,0,", (&[], &[], 9), Ok((0, 7)), (b"", b"0", 1), 8),
    ("10 P.#255,1,#251,1,#6,-32767-1,", (&[], &[], 9), Ok((0, 28)), (b"", b"1-32768", 512), 8),
    ("10 P.#255,1,#252,1,#6,-32767-1,", (&[], &[], 9), Ok((0, 28)), (b"", b"1-32768", 513), 7),
    ("10 P.#255,1,#2,1,#255,1,", (&[], &[], 9), Ok((0, 21)), (b"", b"   1", 512), 8),
    ("10 P.#255,1,#3,1,#255,1,", (&[], &[], 9), Ok((0, 21)), (b"", b"   1", 513), 7),
    // strings that are gathered as long as there is room in 512 bytes
    ("10 P.#255,1,1,'AB',", (&[], &[], 9), Ok((0, 16)), (b"  ", b"1AB", 512), 8),
    ("10 P.#255,1,1,'ABC',", (&[], &[], 9), Ok((0, 17)), (b"  ", b"1ABC", 513), 7),
    ("10 P.#255,1,1,'A','B',", (&[], &[], 9), Ok((0, 19)), (b"  ", b"1AB", 512), 8),
    ("10 P.#255,1,1,'AB','C',", (&[], &[], 9), Ok((0, 20)), (b"  ", b"1ABC", 513), 7),
    ("10 P.#255,1,1,'AB','',", (&[], &[], 9), Ok((0, 19)), (b"  ", b"1AB", 512), 8),
    // what INPUT shows
    ("10 IN.A", (&[b"5"], &[], 5), Ok((0, 4)), (b"A:5\n", b"", 4), 4),
    ("10 IN.'N'A,B", (&[b"1", b"2"], &[], 5), Ok((0, 9)), (b"N:1\nB:2\n", b"", 8), 4),
    ("10 IN.A", (&[b")", b"5"], &[], 5), Ok((0, 4)), (b"A:)\nWHAT?\nA:5\n", b"", 14), 4),
    ("10 IN.'X'", (&[], &[], 5), Ok((0, 6)), (b"X", b"", 1), 4),
    ("10 IN.A", (&[], &[], 5), Err(CommandStop::NoInput), (b"A:", b"", 2), 4),
    ("10 IN.A", (&[b")"], &[], 5), Err(CommandStop::NoInput), (b"A:)\nWHAT?\nA:", b"", 12), 4),
    ("10 IN.'N'@(0-1)", (&[], &[], 5), fault!(How, 12), (b"N", b"", 1), 4),
    ("10 IN.'X',A(", (&[b"5"], &[], 5), fault!(What, 8), (b"XA:5\n", b"", 5), 4),
    ("10 IN.A", (&[b"5"], &[], 1), Ok((0, 4)), (b"A:5\n", b"", 4), 0),
    ("10 IN.A", (&[b"5"], &[], 0), UNWRITTEN, (b"", b"", 0), 0),
    ("10 IN.A", (&[], &[], 0), UNWRITTEN, (b"", b"", 0), 0),
};

// Does the first command of a program with a writer that takes so many writes: what it does, and how
// many writes are left.
fn written(
    (program, registers): (&Program, &mut Registers),
    offer: Offer<'_>,
    output: &mut Output,
    taken: &mut Vec<u8>,
    mut writes_left: usize,
) -> (Doing, usize) {
    let mut writer = Device::new(Counted {
        taken,
        most: usize::MAX,
        writes_left: &mut writes_left,
    });
    let mut screen = WriterScreen::new(&mut writer);
    let (result, _) = done(program, registers, offer, &mut screen, output);
    drop(screen);
    drop(writer);
    (doing(result, registers), writes_left)
}

// These are the bytes that were shown.
fn expect_shown(rt: &impl Abort, line: &str, shown: &[u8], (begins, ends, count): Shown) {
    let is_begun = shown.starts_with(begins);
    let found = (is_begun, shown.ends_with(ends), shown.len());
    expect_eq(rt, line, found, (true, true, count));
}

// A command is done so, with an output that is lent.
fn expect_written(
    rt: &impl Abort,
    alloc: Global,
    output: &mut Output,
    (line, (input, answers, writes), want, shown, left): Row,
) {
    let lines = lines_of(alloc, input).expect(rt, "memory");
    let (program, mut registers) = with_line(rt, alloc, line, 0);
    let mut taken = Vec::new(alloc);
    let offer = Offer {
        lines: &lines,
        answers,
        choose: None,
    };
    let command = (&program, &mut registers);
    let found = written(command, offer, output, &mut taken, writes);
    expect_eq(rt, line, found, (want, left));
    expect_shown(rt, line, taken.as_slice(), shown);
}

#[test]
fn writes(rt: HostRuntime) {
    let mut output = Output::new();
    for &row in WRITES {
        expect_written(&rt, rt.alloc(), &mut output, row);
    }
}

// Bytes that fill the room after the line of HOW?, and more than are gathered.
const FULL: &[u8] = &[b'F'; 507];

const LONG: &[u8] = &[b'L'; 513];

// The pieces after the line of HOW?, how many writes the writer takes, whether all bytes are shown, how
// many are, and how many writes are left.
type Pieces = (
    &'static [&'static [u8]],
    usize,
    Result<(), DeviceFault>,
    usize,
    usize,
);

const PIECES: &[Pieces] = table! {
    (&[], 2, Ok(()), 5, 1),
    (&[b"1", b"", b"23"], 2, Ok(()), 8, 1),
    (&[FULL], 2, Ok(()), 512, 1),
    (&[FULL, b""], 2, Ok(()), 512, 1),
    (&[FULL, b"1", b"2"], 3, Ok(()), 514, 1),
    (&[b"1", FULL], 3, Ok(()), 513, 1),
    (&[LONG], 3, Ok(()), 518, 1),
    (&[LONG, b"1"], 4, Ok(()), 519, 1),
    (&[b"1"], 0, Err(DeviceFault::Write), 0, 0),
    (&[FULL, b"1"], 1, Err(DeviceFault::Write), 512, 0),
    (&[LONG, b"1"], 1, Err(DeviceFault::Write), 5, 0),
    (&[LONG, b"1"], 2, Err(DeviceFault::Write), 518, 0),
};

// Shows the line of HOW? and pieces with a writer that takes so many writes: whether all are shown, and
// how many writes are left.
fn put_counted(
    pieces: &[&[u8]],
    mut writes_left: usize,
    taken: &mut Vec<u8>,
) -> (Result<(), DeviceFault>, usize) {
    let mut writer = Device::new(Counted {
        taken,
        most: usize::MAX,
        writes_left: &mut writes_left,
    });
    let mut screen = WriterScreen::new(&mut writer);
    let mut fresh = true;
    let result = put_fault(&mut screen, &mut fresh, FaultKind::How, pieces);
    drop(screen);
    drop(writer);
    (result, writes_left)
}

// The line of HOW? and the pieces, one after the other.
fn joined(alloc: Global, pieces: &[&[u8]]) -> Result<Vec<u8>, AllocError> {
    let mut bytes = Vec::from_slice(alloc, b"HOW?\n")?;
    for piece in pieces {
        bytes.extend_from_slice(piece)?;
    }
    Ok(bytes)
}

#[test]
fn writes_of_pieces(rt: HostRuntime) {
    for &(pieces, writes, want, count, left) in PIECES {
        let mut taken = Vec::new(rt.alloc());
        let found = put_counted(pieces, writes, &mut taken);
        expect_eq(&rt, "pieces", found, (want, left));
        let due = joined(rt.alloc(), pieces).expect(&rt, "memory");
        expect_eq(
            &rt,
            "shown",
            Some(taken.as_slice()),
            due.as_slice().get(..count),
        );
    }
}

// The report of a fault is one write, even of the longest statement.
#[test]
fn writes_of_a_report(rt: HostRuntime) {
    let mut writes_left = 2;
    let mut taken = Vec::new(rt.alloc());
    let mut writer = Device::new(Counted {
        taken: &mut taken,
        most: usize::MAX,
        writes_left: &mut writes_left,
    });
    let mut screen = WriterScreen::new(&mut writer);
    let mut fresh = false;
    let fault = Fault {
        kind: FaultKind::Sorry,
        mark: 200,
    };
    let result = report_fault(&mut screen, &mut fresh, 32767, &[b'A'; 255], fault);
    drop(screen);
    drop(writer);
    expect_eq(
        &rt,
        "a report",
        (result, fresh, writes_left),
        (Ok(()), true, 1),
    );
    expect_eq(&rt, "its length", taken.len(), 270);
}
