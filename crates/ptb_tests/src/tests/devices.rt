// This file has readers and writers that move few bytes a call, fail, or never end.

use ptb_text::{ByteSink, ByteSource};
use std::alloc::Global;
use std::io;
use std::io::ErrorKind;

/// Gives some bytes a call, and then its end or a fault.
#[derive(Drop)]
pub(crate) struct Script<'a> {
    pub(crate) bytes: &'a [u8],
    pub(crate) piece: usize,
    pub(crate) fails: bool,
}

impl ByteSource for Script<'_> {
    fn read(&mut self, buf: &mut [u8]) -> io::Result<usize> {
        if self.fails && self.bytes.is_empty() {
            return Err(io::Error::from(ErrorKind::Other));
        }
        let room = self.piece.min(buf.len());
        ByteSource::read(&mut self.bytes, &mut buf[..room])
    }
}

/// Gives the byte 65 without end, and counts how often.
#[derive(Drop)]
pub(crate) struct Endless {
    pub(crate) given: usize,
}

impl ByteSource for &mut Endless {
    fn read(&mut self, buf: &mut [u8]) -> io::Result<usize> {
        for byte in buf.iter_mut() {
            *byte = b'A';
        }
        self.given = self.given.saturating_add(buf.len());
        Ok(buf.len())
    }
}

/// How a writer fails: by an error, by one that says that it was interrupted, or by taking nothing.
#[derive(Clone, Copy, Debug, PartialEq, Eq)]
pub(crate) enum Failing {
    Breaks,
    IsInterrupted,
    TakesNothing,
}

/// Takes some bytes a call, until it fails at a call.
#[derive(Drop)]
pub(crate) struct Sink {
    pub(crate) taken: Vec<u8>,
    piece: usize,
    calls_left: usize,
    failing: Failing,
}

impl ByteSink for &mut Sink {
    fn write(&mut self, buf: &[u8]) -> io::Result<usize> {
        if self.calls_left == 0 {
            return match self.failing {
                Failing::Breaks => Err(io::Error::from(ErrorKind::BrokenPipe)),
                Failing::IsInterrupted => Err(io::Error::from(ErrorKind::Interrupted)),
                Failing::TakesNothing => Ok(0),
            };
        }
        self.calls_left -= 1;
        let count = self.piece.min(buf.len());
        self.taken.extend_from_slice(&buf[..count])?;
        Ok(count)
    }

    fn flush(&mut self) -> io::Result<()> {
        Ok(())
    }
}

/// A writer that takes so many bytes a call, and fails in this way after so many calls.
pub(crate) fn make_sink(alloc: Global, piece: usize, calls_left: usize, failing: Failing) -> Sink {
    Sink {
        taken: Vec::new(alloc),
        piece,
        calls_left,
        failing,
    }
}

/// Each way to fail.
pub(crate) const FAILINGS: &[Failing] = &[
    Failing::Breaks,
    Failing::IsInterrupted,
    Failing::TakesNothing,
];
