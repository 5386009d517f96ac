// This file has the input of a program that is itself read from standard input.

ghost use Rattle.std.specs.Prelude.{[], Some};

use ptb_text::{DeviceFault, Read};

/// An input without lines.
#[derive(Drop)]
pub struct NoLines;

impl Read for NoLines {
    ghost remaining = { λ _. Some [] };

    ghost failures = { λ _. 0 };

    ghost given = { λ _. 0 };

    fn read(&mut self, _buf: &mut [u8]) -> Result<usize, DeviceFault> {
        Ok(0)
    }
}
