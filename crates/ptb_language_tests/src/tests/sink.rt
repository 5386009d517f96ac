// This file has the writer that tests of texts and of reports write to: one that takes little and fails.

use ptb_text::ByteSink;
use std::alloc::Global;
use std::io;

/// Takes a few bytes a call, and fails at one of its calls.
#[derive(Drop)]
pub(crate) struct Sink {
    pub(crate) taken: Vec<u8>,
    piece: usize,
    calls: usize,
    fails_at: usize,
}

impl Sink {
    // Counts a call, and fails at one of them.
    fn call(&mut self) -> io::Result<()> {
        self.calls = self.calls.saturating_add(1);
        if self.calls == self.fails_at {
            return Err(io::Error::from(io::ErrorKind::Interrupted));
        }
        Ok(())
    }
}

impl ByteSink for &mut Sink {
    fn write(&mut self, buf: &[u8]) -> io::Result<usize> {
        self.call()?;
        let taken = self.piece.min(buf.len());
        self.taken.extend_from_slice(&buf[..taken])?;
        Ok(taken)
    }

    fn flush(&mut self) -> io::Result<()> {
        self.call()
    }
}

/// Takes so many bytes a call, and fails at this one of its calls, or at none where it is 0.
pub(crate) fn make_sink(alloc: Global, piece: usize, fails_at: usize) -> Sink {
    Sink {
        taken: Vec::new(alloc),
        piece,
        calls: 0,
        fails_at,
    }
}
