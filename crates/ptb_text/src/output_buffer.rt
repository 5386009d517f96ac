// This file has the buffer that gathers bytes before they are written.

ghost use Rattle.std.specs.Prelude.{◌≡◌, ◌↔◌, ◌+◌, ◌≤◌, ◌++◌, List, ℕ, [], length, IsFalse, IsTrue, OnOk};
ghost use Rattle.std.specs.List.{flat_map};
ghost use Rattle.ptb_text.specs.Streams.{GathersText, WritesText, writes_of};

use crate::byte_buffer::ByteBuffer;
use crate::{DeviceFault, Write};
use std::marker::Model;

/// Bytes that wait to be written, at most `N` of them, so that a writer gets many at once. They are
/// on the stack: no memory is taken. Contracts see the bytes.
///
/// A writer gets the bytes in the order in which they were put into the buffer. At a fault it has
/// taken a prefix of what waited and of what was to be put after it.
#[derive(Drop)]
pub struct OutputBuffer<const N: usize> {
    pending: ByteBuffer<N>,
}

impl<const N: usize> Model for OutputBuffer<N> {
    ghost Value = { List ℕ };

    ghost view = { λ b. b.pending };
}

impl<const N: usize> OutputBuffer<N> {
    /// A buffer in which nothing waits.
    pub fn new() -> Self
        ensures { result ≡ [] }
    {
        OutputBuffer {
            pending: ByteBuffer::new(),
        }
    }

    /// Adds bytes. If there is no room for them, what waits is written first; bytes that alone are
    /// too many are then written at once. With room, the writer gets nothing.
    ///
    /// # Errors
    ///
    /// [`DeviceFault::Write`] where the writer failed.
    pub fn put<W: Write>(&mut self, writer: &mut W, bytes: &[u8]) -> Result<(), DeviceFault>
        ensures gathers { GathersText (writes_of W.contents W.failures writer.old writer.new)
            (self.old ++ bytes.now) self.new result }
        ensures waits { length self.old + length bytes.now ≤ N
            → self.new ≡ self.old ++ bytes.now }
        ensures unwritten { length self.old + length bytes.now ≤ N → writer.new ≡ writer.old }
    {
        if self.pending.try_append(bytes) {
            return Ok(());
        }
        self.flush(writer)?;
        if self.pending.try_append(bytes) {
            return Ok(());
        }
        writer.write_all(bytes)
    }

    /// Adds the pieces, one after the other.
    ///
    /// # Errors
    ///
    /// [`DeviceFault::Write`] where the writer failed.
    #[inline(always)]
    pub fn put_all<W: Write>(&mut self, writer: &mut W, pieces: &[&[u8]]) -> Result<(), DeviceFault>
        ensures { GathersText (writes_of W.contents W.failures writer.old writer.new)
            (self.old ++ flat_map (λ p. p.now) pieces.now) self.new result }
    {
        for piece in pieces {
            self.put(writer, piece)?;
        }
        Ok(())
    }

    /// Adds the last pieces, and writes all that waits. Nothing waits then.
    ///
    /// # Errors
    ///
    /// [`DeviceFault::Write`] where the writer failed.
    // inlined, as is `put_all`: called, they cost the writer of reports registers in its usual case
    #[inline(always)]
    pub fn finish<W: Write>(&mut self, writer: &mut W, pieces: &[&[u8]]) -> Result<(), DeviceFault>
        ensures writes { WritesText (writes_of W.contents W.failures writer.old writer.new)
            (self.old ++ flat_map (λ p. p.now) pieces.now) result }
        ensures empty { OnOk result (self.new ≡ []) }
    {
        self.put_all(writer, pieces)?;
        self.flush(writer)
    }

    // Writes what waits.
    fn flush<W: Write>(&mut self, writer: &mut W) -> Result<(), DeviceFault>
        ensures writes { WritesText (writes_of W.contents W.failures writer.old writer.new) self.old result }
        ensures empty { OnOk result (self.new ≡ []) }
    {
        writer.write_all(self.pending.as_slice())?;
        self.pending.clear();
        Ok(())
    }
}
