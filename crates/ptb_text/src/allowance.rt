// This file reads within a limit, and finds whether there is more.

ghost use Rattle.std.specs.Prelude.{◌≡◌, ℕ, ◌+◌, ◌-◌, ◌^◌, ◌<◌, length};
ghost use Rattle.std.specs.Prelude.{IfErr, IsOk};
ghost use Rattle.ptb_text.specs.Streams.{ReadsWithin, reads_of};

use crate::device::Read;
use crate::device_fault::DeviceFault;
use std::marker::Model;

/// What comes of a reader that is read within a limit.
#[derive(Clone, Copy, Debug, PartialEq, Eq)]
pub enum Piece {
    /// Nothing: it is at its end.
    End,
    /// This many bytes, at least one, are at the front of the buffer.
    Bytes(usize),
    /// More bytes than are allowed.
    TooLong,
}

/// How many bytes may still be taken of a reader. The last of them only shows that there are too
/// many.
#[derive(Drop)]
pub struct Allowance {
    left: usize,
}

impl Model for Allowance {
    ghost use Rattle.std.specs.Prelude.{ℕ};

    ghost Value = { ℕ };

    ghost view = { λ a. a.left };
}

impl Allowance {
    /// An allowance of `limit` bytes.
    pub fn new(limit: usize) -> Self
        requires { limit < 2 ^ 64 - 1 }
        ensures { result ≡ limit + 1 }
    {
        Allowance { left: limit + 1 }
    }

    /// Reads once, into a buffer that has room. The byte that shows that there are too many is taken
    /// alone. Nothing is read after it.
    ///
    /// # Errors
    ///
    /// [`DeviceFault::Read`] where the reader failed. No byte was taken then.
    pub fn read<R: Read>(&mut self, reader: &mut R, buffer: &mut [u8]) -> Result<Piece, DeviceFault>
        requires { 0 < length buffer.old }
        ensures reads { ReadsWithin self.old self.new
            (reads_of R.remaining R.given R.failures reader.old reader.new) result buffer.new }
        ensures kind { IfErr result (λ fault. fault ≡ DeviceFault.Read) }
        ensures sure { R.reliable reader.old → IsOk result × R.reliable reader.new }
    {
        if self.left == 0 {
            return Ok(Piece::TooLong);
        }
        let room = (self.left - 1).clamp(1, buffer.len());
        let count = reader.read(&mut buffer[..room])?;
        if count == 0 {
            return Ok(Piece::End);
        }
        self.left -= count;
        if self.left == 0 {
            return Ok(Piece::TooLong);
        }
        Ok(Piece::Bytes(count))
    }
}
