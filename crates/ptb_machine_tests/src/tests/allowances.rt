// This file tests how a reader is read within a limit: in pieces, to its end, one byte too far, and
// to a fault.

use crate::tests::shared::{Script, expect_eq, scripted, table};
use ptb_text::{Allowance, Device, DeviceFault, Piece};
use std::process::Abort;

// A reader's bytes, how many it gives in a read, and whether it fails after them.
type Given = (&'static [u8], usize, bool);

// How many bytes are allowed, the results of the reads, into a buffer of three bytes, and how often
// the reader is called.
type Taken = (usize, &'static [Result<Piece, DeviceFault>], usize);

const ONE: Result<Piece, DeviceFault> = Ok(Piece::Bytes(1));

const TWO: Result<Piece, DeviceFault> = Ok(Piece::Bytes(2));

const THREE: Result<Piece, DeviceFault> = Ok(Piece::Bytes(3));

const END: Result<Piece, DeviceFault> = Ok(Piece::End);

const TOO_LONG: Result<Piece, DeviceFault> = Ok(Piece::TooLong);

const FAILED: Result<Piece, DeviceFault> = Err(DeviceFault::Read);

const READS: &[(Given, Taken)] = table! {
    ((b"", 9, false), (4, &[END, END], 2)),
    ((b"ABC", 1, false), (4, &[ONE, ONE, ONE, END], 4)),
    ((b"ABC", 9, false), (4, &[THREE, END, END], 3)),
    ((b"ABCD", 9, false), (4, &[THREE, ONE, END, END], 4)),
    ((b"ABCDE", 9, false), (4, &[THREE, ONE, TOO_LONG, TOO_LONG], 3)),
    ((b"ABCDEF", 2, false), (4, &[TWO, TWO, TOO_LONG, TOO_LONG], 3)),
    ((b"ABCDEF", 9, false), (2, &[TWO, TOO_LONG, TOO_LONG], 2)),
    ((b"", 9, false), (0, &[END, END], 2)),
    ((b"AB", 9, false), (0, &[TOO_LONG, TOO_LONG], 1)),
    ((b"", 9, true), (4, &[FAILED, FAILED], 2)),
    ((b"AB", 9, true), (4, &[TWO, FAILED, FAILED], 3)),
    ((b"ABCD", 9, true), (4, &[THREE, ONE, FAILED], 3)),
    ((b"ABCDE", 9, true), (4, &[THREE, ONE, TOO_LONG, TOO_LONG], 3)),
};

// A read has this result. What it gives is the next of these bytes; the others are left.
fn rest_after<'a>(
    rt: &impl Abort,
    left: &mut Allowance,
    script: &mut Script<'_>,
    bytes: &'a [u8],
    want: Result<Piece, DeviceFault>,
) -> &'a [u8] {
    let mut buffer = [b'.'; 3];
    let found = left.read(&mut Device::new(script), &mut buffer);
    expect_eq(rt, "read", found, want);
    let Ok(Piece::Bytes(count)) = found else {
        return bytes;
    };
    expect_eq(rt, "bytes", bytes.get(..count), buffer.get(..count));
    bytes.get(count..).unwrap_or(&[])
}

// The reads of a reader have these results.
fn expect_reads(rt: &impl Abort, (bytes, piece, fails): Given, (limit, results, calls): Taken) {
    let mut script = scripted(bytes, piece, fails);
    let mut left = Allowance::new(limit.min(4));
    let mut rest = bytes;
    for &result in results {
        rest = rest_after(rt, &mut left, &mut script, rest, result);
    }
    expect_eq(rt, "calls", script.calls, calls);
}

#[test]
fn reads_within_a_limit(rt: HostRuntime) {
    for &(given, taken) in READS {
        expect_reads(&rt, given, taken);
    }
}
