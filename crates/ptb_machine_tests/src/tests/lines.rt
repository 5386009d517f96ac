// This file tests how lines are cleaned, and how a list of them is taken.

use crate::tests::shared::{expect_eq, lines_of};
use ptb_devices::{Line, LineSource, Lines};
use std::alloc::Global;
use std::process::Abort;

// Bytes, and the line that they are cleaned to.
const CLEANED: &[(&[u8], &[u8])] = &[
    (b"", b""),
    (b"A=1", b"A=1"),
    (b" a\tb\t", b" a b "),
    (b"\r", b""),
    (b"1\r2\r", b"12"),
    (b"\x00x\x1fy\x7fz\x80\xff~", b"xyz~"),
    (b"a\nb", b"ab"),
    (&[b'A'; 255], &[b'A'; 255]),
    (&[b'A'; 256], &[b'A'; 255]),
    (&[b'\t'; 300], &[b' '; 255]),
];

#[test]
fn cleaned_lines(rt: HostRuntime) {
    for &(bytes, want) in CLEANED {
        expect_clean(&rt, rt.alloc(), bytes, want);
    }
}

// Bytes are cleaned to this line.
fn expect_clean(rt: &impl Abort, alloc: Global, bytes: &[u8], want: &[u8]) {
    let line = Line::clean(alloc, bytes).expect(rt, "memory");
    expect_eq(rt, "line", line.bytes(), want);
}

// A byte that is dropped takes no room.
#[test]
fn room_for_printable_bytes(rt: HostRuntime) {
    let mut bytes = Vec::from_slice(rt.alloc(), &[1; 100]).expect(&rt, "memory");
    bytes.resize(299, b'A').expect(&rt, "memory");
    bytes.push(b'Z').expect(&rt, "memory");
    let line = Line::clean(rt.alloc(), bytes.as_slice()).expect(&rt, "memory");
    let found = (line.bytes().len(), line.bytes().last());
    expect_eq(&rt, "line", found, (200, Some(&b'Z')));
}

// How many of three lines are taken, and the next one, if there is one.
const NEXT: &[(usize, Option<&[u8]>)] = &[
    (0, Some(b"one")),
    (1, Some(b"")),
    (2, Some(b"three")),
    (3, None),
    (3, None),
];

// The next line of two lists, from one as a line at hand.
fn expect_next(
    rt: &impl Abort,
    lines: &mut Lines<'_>,
    ready: &mut Lines<'_>,
    (taken, want): (usize, Option<&[u8]>),
) {
    let counts = (lines.taken(), ready.taken());
    let found = (lines.next(), ready.take_ready());
    expect_eq(
        rt,
        "next line",
        (counts, found),
        ((taken, taken), (Ok(want), want)),
    );
}

// The next line after a jump to it.
fn expect_there(rt: &impl Abort, all: &[Line], (taken, want): (usize, Option<&[u8]>)) {
    assert!(rt; taken <= all.len());
    let mut lines = Lines::new(all);
    lines.go(taken);
    let count = lines.taken();
    expect_eq(rt, "line there", (count, lines.next()), (taken, Ok(want)));
}

// The lines are taken one after the other, also those at hand, which are all, and one alone after a
// jump to it.
#[test]
fn lines_in_memory(rt: HostRuntime) {
    let all = lines_of(rt.alloc(), &[b"one", b"", b"three"]).expect(&rt, "memory");
    let mut lines = Lines::new(&all);
    let mut ready = Lines::new(&all);
    for &row in NEXT {
        expect_next(&rt, &mut lines, &mut ready, row);
        expect_there(&rt, &all, row);
    }
}
