// This file has readers and writers, which count how often they have failed; readers count their
// bytes, too.

ghost use Rattle.std.specs.Prelude.{◌≡◌, ℕ, ◌<◌, ◌≤◌, ◌-◌, List, length, take, Option, Some, IfOk, IfErr, IsOk, OnErr};
ghost use Rattle.std.specs.Io.KnownBytes.{Keeps, Appends, ReadConsumes};
ghost use Rattle.ptb_text.specs.Prelude.{CountsFaults, TakesSome, TakesSurely, CountsBytes, DeviceTakes};
ghost use Rattle.ptb_text.specs.Prelude.{IsReliableDevice, WritesText, device_inner, failure_count, given_count};
ghost use Rattle.ptb_text.specs.Prelude.{writes_of};

use crate::byte_streams::{ByteSink, ByteSource};
use crate::device_fault::DeviceFault;

/// What gives bytes.
///
/// Its failures are counted: a call that answers the fault adds one to the count, and no other call
/// changes it. The count ends at `u64::MAX`; a reader that has reached it answers the fault to each
/// call.
///
/// Its bytes are counted, too, even if it is not known which will come: a call that gives some adds how
/// many, and no other call changes the count. It stays at `u64::MAX` where it would pass it.
pub trait Read {
    /// The bytes that it will give from here on to its end, where they are known.
    ghost remaining: { Self → Option (List ℕ) };

    /// How often it has failed.
    ghost failures: { Self → ℕ };

    /// How many bytes it has given.
    ghost given: { Self → ℕ };

    /// Whether it is known that none of its reads fails, from here on to its end.
    ghost reliable: { Self → Type 0 } = { λ _. ⊥ };

    /// Puts its next bytes at the front of `buf`, and answers how many. `Ok(0)` for a buffer that
    /// has room means the end.
    ///
    /// # Errors
    ///
    /// [`DeviceFault::Read`] where the reader failed. No byte was given then.
    fn read(&mut self, buf: &mut [u8]) -> Result<usize, DeviceFault>
        ensures room { IfOk result (λ n. n ≤ length buf.old) }
        ensures bytes { ReadConsumes (remaining self.old) (remaining self.new) result buf.new }
        ensures given { CountsBytes (given self.old) (given self.new) result }
        ensures count { CountsFaults (failures self.old) (failures self.new) result }
        ensures kind { IfErr result (λ fault. fault ≡ DeviceFault.Read) }
        ensures sure { reliable self.old → IsOk result × reliable self.new };
}

/// What takes bytes.
///
/// A writer counts its failures as a [`Read`] does.
pub trait Write {
    /// The bytes that it has taken, where they are known.
    ghost contents: { Self → Option (List ℕ) };

    /// How often it has failed.
    ghost failures: { Self → ℕ };

    /// Whether it is known to take this many more bytes without failing.
    ghost takes: { Self → ℕ → Type 0 } = { λ _ n. ⊥ };

    /// Takes bytes from the front of `bytes`, and answers how many: at least one, if there is one.
    ///
    /// # Errors
    ///
    /// [`DeviceFault::Write`] where the writer failed. A prefix of the bytes may have been taken then.
    fn write(&mut self, bytes: &[u8]) -> Result<usize, DeviceFault>
        ensures room { IfOk result (λ n. n ≤ length bytes.now) }
        ensures some { IfOk result (λ n. 0 < length bytes.now → 0 < n) }
        ensures bytes { IfOk result
            (λ n. Appends (contents self.old) (contents self.new) (take n bytes.now)) }
        ensures fault { OnErr result (TakesSome (contents self.old) (contents self.new) bytes.now) }
        ensures count { CountsFaults (failures self.old) (failures self.new) result }
        ensures kind { IfErr result (λ fault. fault ≡ DeviceFault.Write) }
        ensures sure { TakesSurely (takes self.old) (takes self.new) bytes.now result };

    /// Takes all of `bytes`, in as many writes as it needs; none if there are no bytes.
    ///
    /// # Errors
    ///
    /// [`DeviceFault::Write`] where one of the writes failed. A prefix of the bytes may have been taken
    /// then.
    final fn write_all(&mut self, bytes: &[u8]) -> Result<(), DeviceFault>
        ensures writes { WritesText (writes_of contents failures self.old self.new) bytes.now result }
        ensures later { failures self.old ≤ failures self.new }
        ensures sure { (k : ℕ) → length bytes.now ≤ k → takes self.old k
            → IsOk result × takes self.new (k - length bytes.now) }
    {
        let mut rest = bytes;
        while !rest.is_empty() {
            let taken = self.write(rest)?;
            rest = &rest[taken..];
        }
        Ok(())
    }
}

/// A reader or a writer, with its failures counted, and the bytes that it gives.
///
/// Every error of the inner one is a fault, also that a call was interrupted, and so is a write that
/// takes none of the bytes that it is given. Nothing else is a fault: a reader that is reliable, and
/// a writer that takes the bytes that it is given, never fail.
#[derive(Drop)]
pub struct Device<T> {
    inner: T,
    failures: u64,
    given: u64,
}

impl<T> Device<T> {
    /// A device that has not failed, and has given nothing.
    pub fn new(inner: T) -> Self
        ensures inner { device_inner result ≡ inner }
        ensures unfailed { failure_count result ≡ 0 }
        ensures unread { given_count result ≡ 0 }
    {
        Device {
            inner,
            failures: 0,
            given: 0,
        }
    }
}

impl<T: ByteSink> Device<T> {
    /// Has the writer pass on what it holds back. It takes no byte, and the count of the bytes that
    /// were given stays.
    ///
    /// # Errors
    ///
    /// [`DeviceFault::Write`] where the writer failed.
    pub fn flush(&mut self) -> Result<(), DeviceFault>
        ensures bytes { Keeps (T.contents (device_inner self.old))
            (T.contents (device_inner self.new)) }
        ensures count { CountsFaults (failure_count self.old) (failure_count self.new) result }
        ensures kind { IfErr result (λ fault. fault ≡ DeviceFault.Write) }
        ensures given { given_count self.new ≡ given_count self.old }
        ensures sure { (k : ℕ) → DeviceTakes T.takes self.old k
            → IsOk result × DeviceTakes T.takes self.new k }
    {
        if self.failures == u64::MAX {
            return Err(DeviceFault::Write);
        }
        if self.inner.flush().is_err() {
            self.failures += 1;
            return Err(DeviceFault::Write);
        }
        Ok(())
    }
}

impl<T: ByteSource> Read for Device<T> {
    ghost remaining = { λ d. T.remaining (device_inner d) };

    ghost failures = { failure_count };

    ghost given = { given_count };

    ghost reliable = { IsReliableDevice T.reliable };

    fn read(&mut self, buf: &mut [u8]) -> Result<usize, DeviceFault> {
        if self.failures == u64::MAX {
            return Err(DeviceFault::Read);
        }
        match self.inner.read(buf) {
            Ok(n) => {
                self.given = self.given.saturating_add(n as u64);
                Ok(n)
            }
            Err(_) => {
                self.failures += 1;
                Err(DeviceFault::Read)
            }
        }
    }
}

impl<T: ByteSink> Write for Device<T> {
    ghost contents = { λ d. T.contents (device_inner d) };

    ghost failures = { failure_count };

    ghost takes = { DeviceTakes T.takes };

    fn write(&mut self, bytes: &[u8]) -> Result<usize, DeviceFault> {
        if self.failures == u64::MAX {
            return Err(DeviceFault::Write);
        }
        match self.inner.write(bytes) {
            Ok(n) if n > 0 || bytes.is_empty() => Ok(n),
            _ => {
                self.failures += 1;
                Err(DeviceFault::Write)
            }
        }
    }
}
