// This file tests how the lines of an input are read, one by one when they are asked for, and all at
// once: in pieces, to the end, to a fault, and without an end.

use crate::tests::shared::{Long, expect_eq, scripted, table};
use ptb_devices::{LineSource, Lines, ReaderLines, read_lines};
use ptb_text::{Device, DeviceFault, Read};
use std::alloc::{AllocError, Global};
use std::process::Abort;

// These lines come from a source. The row says where they are expected.
fn expect_lines<L: LineSource>(rt: &impl Abort, row: usize, source: &mut L, lines: &[&[u8]]) {
    for &line in lines {
        expect_eq(rt, "line", (row, source.next()), (row, Ok(Some(line))));
    }
}

// No other line comes from a source: it ends so, again and again.
fn expect_end<L: LineSource>(
    rt: &impl Abort,
    row: usize,
    source: &mut L,
    end: Result<Option<&[u8]>, DeviceFault>,
) {
    for _ in 0..2 {
        expect_eq(rt, "end", (row, source.next()), (row, end));
    }
}

// These lines come from a reader, and then this fault, or the end.
fn expect_read<R: Read>(
    rt: &impl Abort,
    row: usize,
    reader: &mut R,
    lines: &[&[u8]],
    fault: Option<DeviceFault>,
) {
    let end = match fault {
        Some(fault) => Err(fault),
        None => Ok(None),
    };
    let mut source = ReaderLines::new(reader);
    expect_lines(rt, row, &mut source, lines);
    expect_eq(rt, "no fault", source.fault(), None);
    expect_end(rt, row, &mut source, end);
    expect_eq(rt, "fault", source.fault(), fault);
}

// These lines come from an input in such pieces, one by one.
fn expect_input(rt: &impl Abort, bytes: &[u8], piece: usize, lines: &[&[u8]]) {
    let mut reader = Device::new(scripted(bytes, piece, false));
    expect_read(rt, piece, &mut reader, lines, None);
}

// They also come all at once.
fn expect_whole(rt: &impl Abort, alloc: Global, bytes: &[u8], piece: usize, lines: &[&[u8]]) {
    let mut reader = Device::new(scripted(bytes, piece, false));
    let all = read_lines(alloc, &mut reader).expect(rt, "memory");
    let mut source = Lines::new(&all);
    expect_lines(rt, piece, &mut source, lines);
    expect_end(rt, piece, &mut source, Ok(None));
}

// Each input, and its lines.
const INPUTS: &[(&[u8], &[&[u8]])] = &[
    (b"", &[]),
    (b"\n", &[b""]),
    (b"\r", &[b""]),
    (b"\x01", &[b""]),
    (b"5", &[b"5"]),
    (b"5\n", &[b"5"]),
    (b"5\n\n", &[b"5", b""]),
    (b"5\n\r", &[b"5", b""]),
    (b"5\n\x7f", &[b"5", b""]),
    (b"1\r2\r\n\t3\r", &[b"12", b" 3"]),
    (b"\n)\n5\n7 ", &[b"", b")", b"5", b"7 "]),
];

#[test]
fn lines_of_an_input(rt: HostRuntime) {
    for &(bytes, lines) in INPUTS {
        for piece in [1, 2, 3, 4096] {
            expect_input(&rt, bytes, piece, lines);
            expect_whole(&rt, rt.alloc(), bytes, piece, lines);
        }
    }
}

// A line of 255 bytes, to which longer ones are cut.
const LONG: &[u8] = &[b'A'; 255];

// Where an input of 5000 bytes has newlines, and its lines: lines longer than the buffer, lines that
// end at its border or begin after it, and others after them.
const LONG_INPUTS: &[(&[usize], &[&[u8]])] = table! {
    (&[300, 4990], &[LONG, LONG, b"AAAAAAAAA"]),
    (&[10, 4095, 4096, 4100], &[b"AAAAAAAAAA", LONG, b"", b"AAA", LONG]),
};

// The byte 65 so often, and newlines at these places.
fn long_input(alloc: Global, count: usize, newlines: &[usize]) -> Result<Vec<u8>, AllocError> {
    let mut bytes = Vec::new(alloc);
    for &at in newlines {
        bytes.resize(at, b'A')?;
        bytes.push(b'\n')?;
    }
    bytes.resize(count, b'A')?;
    Ok(bytes)
}

#[test]
fn long_lines(rt: HostRuntime) {
    for &(newlines, lines) in LONG_INPUTS {
        let bytes = long_input(rt.alloc(), 5000, newlines).expect(&rt, "memory");
        for piece in [1, 299, 4095, 4096, 5000] {
            expect_input(&rt, bytes.as_slice(), piece, lines);
            expect_whole(&rt, rt.alloc(), bytes.as_slice(), piece, lines);
        }
    }
}

// Inputs before a fault: the lines that come before it, and how often the reader is read.
const FAULTS: &[(&[u8], &[&[u8]], usize)] = &[
    (b"", &[], 1),
    (b"5", &[], 2),
    (b"5\n", &[b"5"], 2),
    (b"5\n7", &[b"5"], 2),
    (b"5\n7\n", &[b"5", b"7"], 2),
];

const FAILED: Option<DeviceFault> = Some(DeviceFault::Read);

// The fault of an input that fails, where all its lines are read at once.
fn fault_of(alloc: Global, bytes: &[u8]) -> Option<DeviceFault> {
    read_lines(alloc, &mut Device::new(scripted(bytes, 1, true))).err()
}

// How often a reader is read for these lines of an input that fails, and for its fault.
fn calls_for(rt: &impl Abort, bytes: &[u8], lines: &[&[u8]]) -> usize {
    let mut script = scripted(bytes, 4096, true);
    let row = bytes.len();
    expect_read(rt, row, &mut Device::new(&mut script), lines, FAILED);
    script.calls
}

// A fault is answered after the lines that came complete, and again, without another read. All lines
// at once are refused.
#[test]
fn faults(rt: HostRuntime) {
    for &(bytes, lines, calls) in FAULTS {
        let found = (calls_for(&rt, bytes, lines), fault_of(rt.alloc(), bytes));
        expect_eq(&rt, "calls", found, (calls, FAILED));
    }
}

// Gives so many bytes, with a newline at one place.
fn long(left: usize, newline_at: usize) -> Long {
    Long {
        left,
        newline_at,
        given: 0,
    }
}

const TOO_LONG: Option<DeviceFault> = Some(DeviceFault::TooLong);

// How long an input is, where its newline is, its lines that come one by one, the fault after them,
// and how many bytes are taken.
const LENGTHS: &[(usize, usize, &[&[u8]], Option<DeviceFault>, usize)] = &[
    (16_777_216, 2, &[b"AA", LONG], None, 16_777_216),
    (usize::MAX, 16_777_215, &[LONG], TOO_LONG, 16_777_217),
    (usize::MAX, 16_777_216, &[], TOO_LONG, 16_777_217),
];

// The lines that are complete within the limit come first, the last of them with its newline.
#[test]
fn length_of_an_input(rt: HostRuntime) {
    for &(left, newline_at, lines, fault, taken) in LENGTHS {
        let mut input = long(left, newline_at);
        expect_read(&rt, taken, &mut Device::new(&mut input), lines, fault);
        expect_eq(&rt, "taken", input.given, taken);
    }
}

// How long an input without a newline is, the fault where all its lines are read at once, and how many
// bytes are taken.
const WHOLE_LENGTHS: &[(usize, Option<DeviceFault>, usize)] = &[
    (16_777_216, None, 16_777_216),
    (16_777_217, TOO_LONG, 16_777_217),
    (usize::MAX, TOO_LONG, 16_777_217),
];

#[test]
fn length_of_a_whole_input(rt: HostRuntime) {
    for &(left, want, taken) in WHOLE_LENGTHS {
        let mut input = long(left, usize::MAX);
        let fault = read_lines(rt.alloc(), &mut Device::new(&mut input)).err();
        expect_eq(&rt, "input", (fault, input.given), (want, taken));
    }
}

// After so many lines that are asked for these are at hand, and then none.
fn expect_ready<L: LineSource>(rt: &impl Abort, asked: usize, source: &mut L, lines: &[&[u8]]) {
    for _ in 0..asked {
        expect_eq(rt, "is read", source.next().is_ok(), true);
    }
    for &line in lines {
        let found = (asked, source.take_ready());
        expect_eq(rt, "ready", found, (asked, Some(line)));
    }
    for _ in 0..2 {
        expect_eq(rt, "none", (asked, source.take_ready()), (asked, None));
    }
}

// Each input, how many of its lines are asked for before, the lines that are at hand then, and how
// often the reader is read. Those are at hand that came complete with the buffer, up to one that the
// cleaning changes. The reader is read only where no line is complete, and never after its end.
const READY: &[(&[u8], usize, &[&[u8]], usize)] = &[
    (b"5\n7\n", 0, &[], 0),
    (b"5\n7\n", 1, &[b"7"], 1),
    (b"5\n7", 2, &[], 2),
    (b"5\n7", 3, &[], 2),
    (b"5\n7\t\n9\n", 1, &[], 1),
    (b"5\n7\t\n9\n", 2, &[b"9"], 1),
    (b"5\n7\r\n9\n", 1, &[], 1),
    (b"5\n\x7f\n9\n", 1, &[], 1),
    (b"5\n7\n\n 9 \n1", 1, &[b"7", b"", b" 9 "], 1),
    (b"5\n7\n9", 0, &[], 0),
    (b"5\n7\n9", 1, &[b"7"], 1),
    (b"5\n7\n9", 2, &[], 1),
    (b"5\n7\n9", 3, &[], 2),
    (b"5\n7\n9", 4, &[], 2),
    (b"5\n7\n9", 5, &[], 2),
];

// How often a reader is read where this is so.
fn calls_when(rt: &impl Abort, bytes: &[u8], asked: usize, lines: &[&[u8]]) -> usize {
    let mut script = scripted(bytes, 4096, false);
    let mut reader = Device::new(&mut script);
    expect_ready(rt, asked, &mut ReaderLines::new(&mut reader), lines);
    drop(reader);
    script.calls
}

#[test]
fn lines_at_hand(rt: HostRuntime) {
    for &(bytes, asked, lines, calls) in READY {
        let found = calls_when(&rt, bytes, asked, lines);
        expect_eq(&rt, "calls", (bytes, found), (bytes, calls));
    }
}

// Where an input of 300 bytes has a second newline, the line at hand, if there is one, and the next
// line after that.
const LONG_LINES: &[(usize, &[&[u8]], &[&[u8]])] = table! {
    (1, &[b""], &[LONG]),
    (256, &[LONG], &[b"AAAAAAAAAAAAAAAAAAAAAAAAAAAAAAAAAAAAAAAAAAA"]),
    (257, &[], &[LONG]),
};

// After the first line of an input these lines are at hand, and then these are given.
fn expect_at_hand(rt: &impl Abort, bytes: &[u8], ready: &[&[u8]], next: &[&[u8]]) {
    let mut reader = Device::new(scripted(bytes, 4096, false));
    let mut source = ReaderLines::new(&mut reader);
    expect_ready(rt, 1, &mut source, ready);
    expect_lines(rt, 1, &mut source, next);
}

// A line at hand has at most 255 bytes. One that is longer is still given, cut.
#[test]
fn long_lines_at_hand(rt: HostRuntime) {
    for &(newline, ready, next) in LONG_LINES {
        let bytes = long_input(rt.alloc(), 300, &[0, newline]).expect(&rt, "memory");
        expect_at_hand(&rt, bytes.as_slice(), ready, next);
    }
}
