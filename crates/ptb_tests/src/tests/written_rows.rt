// This file has what the tests of lists, samples, listings and tables share: rows with the items that are
// due, such as reports, which are written into rooms of any size, and where memory is refused.

use crate::tests::shared::{OUT_OF_MEMORY, Row, loaded};
use ptb_explore::ExploreFault;
use ptb_machine::Line;
use ptb_text::Program;
use std::alloc::Global;
use std::io::Print;
use std::process::Abort;
use std::test::Fail;

/// A program with the lines of its input, and where memory is from.
#[derive(Drop)]
pub(crate) struct Source {
    pub(crate) alloc: Global,
    pub(crate) program: Program,
    pub(crate) lines: Vec<Line>,
}

/// The program of a text, and the lines of an input; or why there are none.
pub(crate) fn source_of(alloc: Global, text: &str, input: &str) -> Result<Source, &'static str> {
    let (program, lines) = loaded(alloc, text, input)?;
    Ok(Source {
        alloc,
        program,
        lines,
    })
}

/// What a call writes of the runs of a program: some items.
pub(crate) trait Writing {
    /// Writes them into a room; how many items it wrote, even if it fails.
    fn write(&self, source: &Source, room: &mut [u8]) -> Result<u64, ExploreFault>;
}

/// A program, its input, what is written of its runs, and the items that are due.
pub(crate) struct Written<W>(
    pub(crate) &'static str,
    pub(crate) &'static str,
    pub(crate) W,
    pub(crate) &'static [&'static str],
);

// The most bytes of the items of a row.
const MOST: usize = 400;

// How many bytes items have together.
fn size_of(items: &[&str]) -> usize {
    let mut size: usize = 0;
    for item in items {
        size = size.saturating_add(item.len());
    }
    size
}

// How many items are complete in a room that has a prefix of all; `None` where it has something else.
fn whole_items(room: &[u8], items: &[&str]) -> Option<usize> {
    let mut rest = room;
    let mut count: usize = 0;
    for item in items {
        rest = match rest.strip_prefix(item.as_bytes()) {
            Some(after) => after,
            None if item.as_bytes().starts_with(rest) => return Some(count),
            None => return None,
        };
        count = count.saturating_add(1);
    }
    if rest.is_empty() { Some(count) } else { None }
}

/// Whether this is the result of a call that wrote into this room, as far as it has room.
pub(crate) fn is_result(written: Result<u64, ExploreFault>, room: &[u8], items: &[&str]) -> bool {
    match whole_items(room, items) {
        Some(count) if count == items.len() => written == Ok(count as u64),
        Some(count) => written == Err(ExploreFault::Write(count as u64)),
        None => false,
    }
}

// Whether a row is written into a room of so many bytes.
fn is_written_in<W: Writing>(source: &Source, row: &Written<W>, size: usize) -> bool {
    let mut room = [b'.'; MOST];
    if size > MOST {
        return false;
    }
    let written = row.2.write(source, &mut room[..size]);
    is_result(written, &room[..size], row.3)
}

// The items are written where there is just enough room; where there is less, a prefix of them is.
impl<W: Writing> Row<Global> for Written<W> {
    fn holds(&self, alloc: &Global) -> bool {
        let Ok(source) = source_of(*alloc, self.0, self.1) else {
            return false;
        };
        for size in 0..=size_of(self.3) {
            if !is_written_in(&source, self, size) {
                return false;
            }
        }
        true
    }
}

// Whether a room has dots alone.
fn are_dots(room: &[u8]) -> bool {
    for byte in room {
        if *byte != b'.' {
            return false;
        }
    }
    true
}

/// Whether a room of dots has just these items.
pub(crate) fn has_just(room: &[u8], items: &[&str]) -> bool {
    let mut rest = room;
    for item in items {
        rest = match rest.strip_prefix(item.as_bytes()) {
            Some(after) => after,
            None => return false,
        };
    }
    are_dots(rest)
}

/// Whether a room of dots has as many items as were written, or were before memory was refused.
pub(crate) fn is_begun(written: Result<u64, ExploreFault>, room: &[u8], items: &[&str]) -> bool {
    let count = match written {
        Ok(count) if count == items.len() as u64 => count,
        Err(ExploreFault::Memory(count)) => count,
        _ => return false,
    };
    match items.get(..count as usize) {
        Some(first) => has_just(room, first),
        None => false,
    }
}

/// After how many items memory was refused, if it was.
pub(crate) fn refused_after(written: Result<u64, ExploreFault>) -> Option<u64> {
    match written {
        Err(ExploreFault::Memory(count)) => Some(count),
        _ => None,
    }
}

// The items of a row, or where memory is refused, those that are counted; after how many it was.
fn begun<W: Writing>(alloc: Global, row: &Written<W>) -> Result<Option<u64>, &'static str> {
    let source = match source_of(alloc, row.0, row.1) {
        Ok(source) => source,
        Err(why) if why == OUT_OF_MEMORY => return Ok(None),
        Err(why) => return Err(why),
    };
    let mut room = [b'.'; MOST];
    let written = row.2.write(&source, &mut room);
    if is_begun(written, &room, row.3) {
        Ok(refused_after(written))
    } else {
        Err("other items")
    }
}

/// Says after how many items memory was refused, if it was.
pub(crate) fn tell<R: Abort + Print>(rt: &R, refused: Option<u64>) -> Result<(), Fail> {
    if let Some(count) = refused {
        println!(rt; "refused after {count}")?;
    }
    Ok(())
}

/// All items of a row are written, or where memory is refused, just those that are counted.
pub(crate) fn expect_begun<R: Abort + Print, W: Writing>(
    rt: &R,
    alloc: Global,
    row: &Written<W>,
) -> Result<(), Fail> {
    let refused = begun(alloc, row)?;
    tell(rt, refused)
}
