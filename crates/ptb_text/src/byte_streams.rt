// This file has what devices read from and write to: readers and writers with the errors of
// `std::io`, and what is known of whether they fail.

ghost use Rattle.std.specs.Prelude.{ℕ, ◌+◌, ◌<◌, ◌≤◌, List, length, Option, Some, None, ⊤};
ghost use Rattle.std.specs.Prelude.{IfOk, IsOk, vec_len, vec_capacity};
ghost use Rattle.std.specs.Io.KnownBytes.{Keeps, ReadConsumes, WriteAppends};
ghost use Rattle.ptb_text.specs.Device.{TakesSurely};

use std::alloc::Allocator;
use std::io;

/// What a [`Device`](crate::Device) reads from.
pub trait ByteSource {
    /// The bytes that it will give from here on to its end, where they are known.
    ghost remaining: { Self → Option (List ℕ) } = { λ _. None };

    /// Whether it is known that none of its reads fails, from here on to its end.
    ghost reliable: { Self → Type 0 } = { λ _. ⊥ };

    /// Puts its next bytes at the front of `buf`, and answers how many, as `read` of [`io::Read`]
    /// does. `Ok(0)` for a buffer that has room means the end.
    ///
    /// # Errors
    ///
    /// What the reader reports. No byte was given then.
    fn read(&mut self, buf: &mut [u8]) -> io::Result<usize>
        ensures room { IfOk result (λ n. n ≤ length buf.old) }
        ensures bytes { ReadConsumes (remaining self.old) (remaining self.new) result buf.new }
        ensures sure { reliable self.old → IsOk result × reliable self.new };
}

/// What a [`Device`](crate::Device) writes to.
pub trait ByteSink {
    /// The bytes that it has taken, where they are known.
    ghost contents: { Self → Option (List ℕ) } = { λ _. None };

    /// Whether it is known to take this many more bytes without failing.
    ghost takes: { Self → ℕ → Type 0 } = { λ _ n. ⊥ };

    /// Takes bytes from the front of `bytes`, and answers how many, as `write` of [`io::Write`] does.
    ///
    /// # Errors
    ///
    /// What the writer reports. No byte was taken then.
    fn write(&mut self, bytes: &[u8]) -> io::Result<usize>
        ensures room { IfOk result (λ n. n ≤ length bytes.now) }
        ensures bytes { WriteAppends (contents self.old) (contents self.new) result bytes.now }
        ensures sure { TakesSurely (takes self.old) (takes self.new) bytes.now result };

    /// Passes on what it holds back, as `flush` of [`io::Write`] does. It takes no byte.
    ///
    /// # Errors
    ///
    /// What the writer reports.
    fn flush(&mut self) -> io::Result<()>
        ensures bytes { Keeps (contents self.old) (contents self.new) }
        ensures sure { (k : ℕ) → takes self.old k → IsOk result × takes self.new k };
}

impl ByteSource for &[u8] {
    ghost remaining = { λ s. Some s.now };

    // A slice gives its bytes.
    ghost reliable = { λ _. ⊤ };

    fn read(&mut self, buf: &mut [u8]) -> io::Result<usize> {
        io::Read::read(self, buf)
    }
}

impl<T: ByteSource> ByteSource for &mut T {
    ghost remaining = { λ r. T.remaining r.now };

    ghost reliable = { λ r. T.reliable r.now };

    fn read(&mut self, buf: &mut [u8]) -> io::Result<usize> {
        ByteSource::read(&mut **self, buf)
    }
}

impl ByteSink for &mut [u8] {
    // A room takes as many bytes as it has.
    ghost takes = { λ room n. n ≤ length room.now };

    fn write(&mut self, bytes: &[u8]) -> io::Result<usize> {
        io::Write::write(self, bytes)
    }

    fn flush(&mut self) -> io::Result<()> {
        Ok(())
    }
}

impl<A: Allocator> ByteSink for Vec<u8, A> {
    ghost contents = { λ v. Some v.items };

    // A vector takes as many bytes as it has capacity left. Whether it can grow is not known.
    ghost takes = { λ v n. vec_len v + n ≤ vec_capacity v };

    fn write(&mut self, bytes: &[u8]) -> io::Result<usize> {
        self.extend_from_slice(bytes)?;
        Ok(bytes.len())
    }

    fn flush(&mut self) -> io::Result<()> {
        Ok(())
    }
}

impl<T: ByteSink> ByteSink for &mut T {
    ghost contents = { λ w. T.contents w.now };

    ghost takes = { λ w n. T.takes w.now n };

    fn write(&mut self, bytes: &[u8]) -> io::Result<usize> {
        ByteSink::write(&mut **self, bytes)
    }

    fn flush(&mut self) -> io::Result<()> {
        ByteSink::flush(&mut **self)
    }
}
