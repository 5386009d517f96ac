// This file has the readers of a program's text and of the input, which keep why a read failed.

ghost use Rattle.std.specs.Prelude.{◌≡◌};
ghost use Rattle.ptb.specs.Sources.{source_bytes, kept_inner};

use ptb_text::ByteSource;
use std::cell::Cell;
use std::io;

/// A reader that keeps the error of its last read that failed.
#[derive(Drop)]
pub struct ErrorKeeping<'a, T> {
    inner: T,
    failed: &'a Cell<Option<io::Error>>,
}

impl<'a, T> ErrorKeeping<'a, T> {
    /// A reader of what `inner` gives.
    pub fn new(inner: T, failed: &'a Cell<Option<io::Error>>) -> Self
        ensures { kept_inner result ≡ inner }
    {
        ErrorKeeping { inner, failed }
    }
}

impl<'a, T: io::Read> ByteSource for ErrorKeeping<'a, T> {
    ghost remaining = { λ w. T.remaining w.inner };

    fn read(&mut self, buf: &mut [u8]) -> io::Result<usize> {
        let result = self.inner.read(buf);
        if let Err(error) = result {
            self.failed.set(Some(error));
        }
        result
    }
}

/// The text of a program: that of a file, or standard input.
#[derive(Drop)]
pub enum Source<F, I> {
    /// A file.
    File(F),
    /// Standard input.
    Input(I),
}

impl<F: io::Read, I: io::Read> io::Read for Source<F, I> {
    ghost remaining = { source_bytes F.remaining I.remaining };

    fn read(&mut self, buf: &mut [u8]) -> io::Result<usize> {
        match self {
            Source::File(file) => file.read(buf),
            Source::Input(input) => input.read(buf),
        }
    }
}
