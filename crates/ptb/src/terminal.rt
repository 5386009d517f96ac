// This file has the reader and the writer of a terminal. The terminal shows a line while it is
// typed, and a program's transcript has it once more: the writer leaves that echo out.

ghost use Rattle.std.specs.Prelude.{◌≤◌, length};
ghost use Rattle.ptb.specs.Terminal.{unless_watched};

use ptb_text::ByteSink;
use std::cell::Cell;
use std::io;

/// Which of the standard streams are terminals.
#[derive(Clone, Copy)]
pub struct Terminals {
    /// Standard input.
    pub input: bool,
    /// Standard output.
    pub output: bool,
    /// Standard error.
    pub errors: bool,
}

/// What the terminal has shown of a line that is typed and was not echoed yet.
#[derive(Clone, Copy, PartialEq, Eq)]
pub enum Typed {
    /// Typed lines are not noted, since none of them is echoed.
    Unnoticed,
    /// Nothing.
    Nothing,
    /// A piece without its newline, as after Ctrl-D.
    Piece,
    /// A line with its newline.
    Line,
}

/// A reader of a keyboard. It notes what is typed, where there is a place to note it.
#[derive(Drop)]
pub struct Keyboard<'a, T> {
    inner: T,
    typed: Option<&'a Cell<Typed>>,
}

impl<'a, T> Keyboard<'a, T> {
    /// A reader of what `inner` gives.
    pub fn new(inner: T, typed: Option<&'a Cell<Typed>>) -> Self {
        Keyboard { inner, typed }
    }
}

impl<'a, T: io::Read> io::Read for Keyboard<'a, T> {
    ghost remaining = { λ k. T.remaining k.inner };

    fn read(&mut self, buf: &mut [u8]) -> io::Result<usize> {
        let n = self.inner.read(buf)?;
        if let Some(typed) = self.typed {
            note_piece(typed, &buf[..n]);
        }
        Ok(n)
    }
}

// Notes that a piece was typed. Pieces of one line join; the end is no piece.
fn note_piece(typed: &Cell<Typed>, piece: &[u8]) {
    if typed.get() == Typed::Unnoticed {
        return;
    }
    match piece.last().copied() {
        Some(b'\n') => typed.set(Typed::Line),
        Some(_) => typed.set(Typed::Piece),
        None => {}
    }
}

/// A writer to a terminal. Where typed lines are noted, it leaves out their echo. It notes whether
/// the cursor is at the start of a line.
#[derive(Drop)]
pub struct TerminalWriter<'a, T> {
    inner: T,
    typed: Option<&'a Cell<Typed>>,
    fresh: &'a Cell<bool>,
}

impl<'a, T> TerminalWriter<'a, T> {
    /// A writer to `inner`, which is at the start of a line.
    pub fn new(inner: T, typed: Option<&'a Cell<Typed>>, fresh: &'a Cell<bool>) -> Self {
        TerminalWriter {
            inner,
            typed,
            fresh,
        }
    }
}

impl<'a, T: io::Write> ByteSink for TerminalWriter<'a, T> {
    ghost contents = { λ s. unless_watched s.typed (T.contents s.inner) };

    fn write(&mut self, bytes: &[u8]) -> io::Result<usize> {
        if let Some(typed) = self.typed {
            let echoed = leave_echo(typed, self.fresh, bytes);
            if echoed > 0 {
                return Ok(echoed);
            }
        }
        let n = self.inner.write(bytes)?;
        if n > 0 {
            self.fresh.set(bytes[n - 1] == b'\n');
        }
        Ok(n)
    }

    fn flush(&mut self) -> io::Result<()> {
        self.inner.flush()
    }
}

// How many of these bytes, from the first on, are the echo of the typed line. Its newline is one of
// them where it was typed.
fn leave_echo(typed: &Cell<Typed>, fresh: &Cell<bool>, bytes: &[u8]) -> usize
    ensures { result ≤ length bytes.now }
{
    let with_newline = match typed.get() {
        Typed::Unnoticed | Typed::Nothing => return 0,
        Typed::Piece => false,
        Typed::Line => true,
    };
    let Some(end) = bytes.iter().position(|byte| *byte == b'\n') else {
        fresh.set(false);
        return bytes.len();
    };
    typed.set(Typed::Nothing);
    fresh.set(with_newline);
    if with_newline { end + 1 } else { end }
}
