// This file tests the buffer before a writer: what waits, what is written at once, and what a
// writer has where it fails.

use crate::tests::shared::expect_same;
use ptb_text::{ByteSink, Device, DeviceFault, OutputBuffer};
use std::alloc::Global;

// What is put into a buffer of four bytes, what the writer has then, and what it has if that was
// the last.
type Put = (&'static [u8], &'static str, &'static str);

const PUTS: &[Put] = &[
    (b"ab", "", "ab"),
    (b"", "", "ab"),
    // it is full
    (b"cd", "", "abcd"),
    (b"", "", "abcd"),
    // there is no room: what waits is written first
    (b"e", "abcd", "abcde"),
    (b"fgh", "abcd", "abcdefgh"),
    // too many bytes for a buffer
    (b"ijklm", "abcdefghijklm", "abcdefghijklm"),
    (b"n", "abcdefghijklm", "abcdefghijklmn"),
];

// What a writer has after so many of them; if these are all, the buffer is finished.
fn taken(alloc: Global, count: usize, all: bool) -> Result<Vec<u8>, DeviceFault> {
    let mut taken = Vec::new(alloc);
    let mut out = Device::new(&mut taken);
    let mut buffer = OutputBuffer::<4>::new();
    for (bytes, _, _) in PUTS.iter().take(count) {
        buffer.put(&mut out, bytes)?;
    }
    if all {
        buffer.finish(&mut out, &[])?;
    }
    Ok(taken)
}

// Whether these bytes are what a writer has then.
fn is_taken(alloc: Global, count: usize, all: bool, due: &str) -> bool {
    match taken(alloc, count, all) {
        Ok(found) => found.as_slice() == due.as_bytes(),
        Err(_) => false,
    }
}

// Bytes wait until there is no room for more, and are all written in the end.
#[test]
fn bytes_wait(rt: HostRuntime) {
    let mut count: usize = 0;
    for &(_, some, all) in PUTS {
        count = count.saturating_add(1);
        let is_waiting = is_taken(rt.alloc(), count, false, some);
        let is_finished = is_taken(rt.alloc(), count, true, all);
        expect_same(
            &rt,
            all,
            (count, is_waiting, is_finished),
            (count, true, true),
        );
    }
}

const ALL: &[u8] = b"abcdefghijklm";

// Writes these bytes in pieces.
fn write_to<T: ByteSink + Drop>(sink: T) -> Result<(), DeviceFault> {
    let mut out = Device::new(sink);
    let mut buffer = OutputBuffer::<4>::new();
    buffer.put_all(&mut out, &[b"ab", b"c", b"de", b"fghijk"])?;
    buffer.finish(&mut out, &[b"l", b"m"])
}

// Whether a writer with this room has the first of them, and fails if it has no room for all.
fn is_filled(room: &mut [u8]) -> bool {
    let wanted = if room.len() < ALL.len() {
        Err(DeviceFault::Write)
    } else {
        Ok(())
    };
    write_to(&mut *room) == wanted && ALL.starts_with(room)
}

#[test]
fn writer_without_room(rt: HostRuntime) {
    for size in 0..=ALL.len() {
        let mut room = [b'.'; 13];
        expect_same(
            &rt,
            "in pieces",
            (size, is_filled(&mut room[..size])),
            (size, true),
        );
    }
}
