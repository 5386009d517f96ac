// This file has the line that shows at a terminal how far a table of chances is counted.

use ptb_serve::Watch;
use ptb_text::{DeviceFault, Write};
use std::cell::Cell;
use std::rt::Runtime;
use std::time::Instant;

// A line stays for at least this many milliseconds. A count that takes less time shows none.
const PAUSE: u128 = 500;

// Back to the start of the line, which is erased.
const ERASED: &str = "\r\x1b[K";

/// When the line was written last, and whether it is on the screen.
#[derive(Clone, Copy)]
pub struct Shown {
    // Before the first line, when it was asked for.
    at: Option<Instant>,
    visible: bool,
}

impl Shown {
    /// Nothing is shown yet.
    pub fn nothing() -> Shown {
        Shown {
            at: None,
            visible: false,
        }
    }
}

/// The line of a terminal that shows progress. Elsewhere it shows nothing.
#[derive(Drop)]
pub struct ProgressLine<'a, R> {
    rt: &'a R,
    shown: Option<&'a Cell<Shown>>,
}

impl<'a, R: Runtime> ProgressLine<'a, R> {
    /// The line on standard error, where that is a terminal: then there is a place to note it.
    pub fn new(rt: &'a R, shown: Option<&'a Cell<Shown>>) -> Self {
        ProgressLine { rt, shown }
    }

    /// Erases the line, if it is on the screen.
    pub fn clear(&self) {
        let Some(shown) = self.shown else {
            return;
        };
        let last = shown.get();
        if last.visible {
            let _ = self.rt.eprint(ERASED);
            shown.set(Shown {
                at: last.at,
                visible: false,
            });
        }
    }

    // Whether it is time for a line: some time after the one before, or after it was asked first.
    fn is_due(&self) -> bool {
        let Some(shown) = self.shown else {
            return false;
        };
        let Ok(now) = Instant::now(self.rt) else {
            return false;
        };
        let last = shown.get();
        let (at, due) = match last.at {
            None => (now, false),
            Some(before) if now.duration_since(before).as_millis() < PAUSE => (before, false),
            Some(_) => (now, true),
        };
        shown.set(Shown {
            at: Some(at),
            visible: last.visible,
        });
        due
    }

    // Writes the line again.
    fn show(&self, waiting: usize, billionths: u32) {
        let Some(shown) = self.shown else {
            return;
        };
        let percent = billionths / 10_000_000;
        let tenths = billionths / 1_000_000 % 10;
        let hundredths = billionths / 100_000 % 10;
        let _ = self.rt.eprint(format_args!(
            "{ERASED}{percent}.{tenths}{hundredths}% done, {waiting} states wait"
        ));
        shown.set(Shown {
            at: shown.get().at,
            visible: true,
        });
    }
}

/// A writer that shows its progress in a line, which is erased before anything is written.
#[derive(Drop)]
pub struct Progressing<'a, R, W> {
    out: W,
    line: ProgressLine<'a, R>,
}

impl<'a, R: Runtime, W> Progressing<'a, R, W> {
    /// A writer to `out` with this line.
    pub fn new(out: W, line: ProgressLine<'a, R>) -> Self {
        Progressing { out, line }
    }
}

impl<'a, R: Runtime, W: Write> Write for Progressing<'a, R, W> {
    ghost contents = { λ p. W.contents p.out };

    ghost failures = { λ p. W.failures p.out };

    ghost takes = { λ p. W.takes p.out };

    fn write(&mut self, bytes: &[u8]) -> Result<usize, DeviceFault> {
        self.line.clear();
        self.out.write(bytes)
    }
}

impl<'a, R: Runtime, W> Watch for Progressing<'a, R, W> {
    fn is_due(&self) -> bool {
        self.line.is_due()
    }

    fn show(&self, waiting: usize, billionths: u32) {
        self.line.show(waiting, billionths);
    }
}
