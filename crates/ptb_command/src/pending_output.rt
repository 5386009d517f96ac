// This file gathers what is shown, so that the screen gets it at once.

ghost use Rattle.std.specs.Prelude.{◌≡◌, ◌↔◌, ◌≤◌, ◌+◌, ◌++◌, ◌∷◌, List, ℕ, [], length, IsTrue, IsFalse};
ghost use Rattle.std.specs.Prelude.{drop, take};
ghost use Rattle.ptb_command.specs.Prelude.{Cells, goes_on, show_action, Devices, screen_state, with_screen};
ghost use Rattle.ptb_command.specs.Prelude.{nothing_refused, as_stop, trace, with_pending, Comes, IsShown};

use crate::stop::CommandStop;
use crate::transcript::put;
use ptb_devices::Screen;
use ptb_text::{ByteBuffer, DeviceFault};
use std::marker::Model;

/// How many bytes are gathered at most. An item of PRINT shows no more than 255.
pub(crate) const PENDING_LIMIT: usize = 512;

/// How many bytes are copied at once, where few are gathered.
pub(crate) const BLOCK: usize = 16;

/// What is to be shown, and isn't shown yet. It takes no memory. Contracts see its bytes.
#[derive(Drop)]
pub struct PendingOutput {
    buffer: ByteBuffer<PENDING_LIMIT>,
}

impl Model for PendingOutput {
    ghost use Rattle.std.specs.Prelude.{List, ℕ};

    ghost Value = { List ℕ };

    ghost view = { λ g. g.buffer };
}

impl PendingOutput {
    /// Nothing is gathered yet.
    pub(crate) fn new() -> Self
        ensures { result ≡ [] }
    {
        PendingOutput {
            buffer: ByteBuffer::new(),
        }
    }

    /// The bytes that were gathered.
    pub(crate) fn as_slice(&self) -> &[u8]
        ensures { result.now ≡ self.now }
    {
        self.buffer.as_slice()
    }

    /// How many bytes there is still room for.
    #[inline(always)]
    pub(crate) fn room(&self) -> usize
        ensures { length self.now + result ≡ PENDING_LIMIT }
    {
        self.buffer.room()
    }

    /// Adds bytes. There must be room for all of them. This is faster for a few bytes, as most input
    /// lines have.
    #[inline(always)]
    pub(crate) fn append(&mut self, bytes: &[u8])
        requires { length self.old + length bytes.now ≤ PENDING_LIMIT }
        ensures { self.new ≡ self.old ++ bytes.now }
    {
        match bytes.len() {
            2..=4 => self.append_ends(bytes, 2),
            5..=8 => self.append_ends(bytes, 4),
            _ => self.buffer.append(bytes),
        }
    }

    // Adds bytes. There must be room for all of them. It copies a block of `size` bytes at their
    // beginning and one at their end; the two may overlap. Where the size is known, no call copies a
    // block.
    #[inline(always)]
    fn append_ends(&mut self, bytes: &[u8], size: usize)
        requires room { length self.old + length bytes.now ≤ PENDING_LIMIT }
        requires blocks { (size ≤ length bytes.now) × (length bytes.now ≤ size + size) }
        ensures { self.new ≡ self.old ++ bytes.now }
    {
        let last = bytes.len() - size;
        let end = self.buffer.len() + last;
        self.buffer.append(&bytes[..size]);
        self.buffer.cut(end);
        self.buffer.append(&bytes[last..]);
    }

    /// Adds any number of bytes. There must be room for all of them. It is short where it is inlined.
    #[inline(always)]
    pub(crate) fn append_many(&mut self, bytes: &[u8])
        requires { length self.old + length bytes.now ≤ PENDING_LIMIT }
        ensures { self.new ≡ self.old ++ bytes.now }
    {
        self.buffer.append(bytes);
    }

    /// Adds `count` of these bytes, from place `from` on. An entire block is copied, which costs less
    /// than a call that copies the right number.
    #[inline(always)]
    pub(crate) fn append_few(&mut self, bytes: &[u8], from: usize, count: usize)
        requires room { length self.old + BLOCK ≤ PENDING_LIMIT }
        requires block { from + BLOCK ≤ length bytes.now }
        requires few { count ≤ BLOCK }
        ensures { self.new ≡ self.old ++ take count (drop from bytes.now) }
    {
        let end = self.buffer.len() + count;
        self.buffer.append(&bytes[from..from + BLOCK]);
        self.buffer.cut(end);
    }

    /// Adds two bytes.
    #[inline(always)]
    pub(crate) fn push_two(&mut self, a: u8, b: u8)
        requires { length self.old + 2 ≤ PENDING_LIMIT }
        ensures { self.new ≡ self.old ++ a ∷ b ∷ [] }
    {
        self.buffer.push(a);
        self.buffer.push(b);
    }

    /// Empties the buffer.
    #[inline(always)]
    pub(crate) fn clear(&mut self)
        ensures { self.new ≡ [] }
    {
        self.buffer.clear();
    }

    /// Takes bytes, if there is room for all of them. Whether there was.
    #[inline(always)]
    pub(crate) fn try_append(&mut self, bytes: &[u8]) -> bool
        ensures taken { IsTrue result → self.new ≡ self.old ++ bytes.now }
        ensures full { IsFalse result → self.new ≡ self.old }
        ensures room { IsTrue result ↔ (length self.old + length bytes.now ≤ PENDING_LIMIT) }
    {
        self.buffer.try_append(bytes)
    }

    /// Shows what was gathered. Nothing is gathered then, even if the screen fails.
    ///
    /// # Errors
    ///
    /// [`DeviceFault`] where the screen doesn't show it all. It is not made a [`CommandStop`] here, which is
    /// large.
    pub(crate) fn flush<S: Screen>(
        &mut self,
        screen: &mut S,
        fresh: &mut bool,
    ) -> Result<(), DeviceFault>
        ensures comes { (d : Devices) (cells : Cells) → Comes nothing_refused
            (with_pending self.old
            (trace (with_screen (screen_state S.Screen screen.old) d) fresh.old cells))
            (trace (with_screen (screen_state S.Screen screen.new) d) fresh.new cells)
            (goes_on tt) goes_on (as_stop result) }
        ensures empty { self.new ≡ [] }
    {
        let result = put(screen, fresh, self.as_slice());
        self.clear();
        result
    }

    /// Shows bytes as a part of a command: later, with others, if there is room for them.
    // inlined: most bytes find room, and to take them costs less than a call
    #[inline(always)]
    pub(crate) fn show<S: Screen>(
        &mut self,
        screen: &mut S,
        fresh: &mut bool,
        bytes: &[u8],
    ) -> Result<(), CommandStop>
        ensures comes { (d : Devices) (cells : Cells) → Comes nothing_refused
            (with_pending self.old
            (trace (with_screen (screen_state S.Screen screen.old) d) fresh.old cells))
            (with_pending self.new
            (trace (with_screen (screen_state S.Screen screen.new) d) fresh.new cells))
            (show_action bytes.now) goes_on result }
        ensures gathered { length self.old + length bytes.now ≤ PENDING_LIMIT
            → self.new ≡ self.old ++ bytes.now }
    {
        if self.try_append(bytes) {
            return Ok(());
        }
        self.flush_and_append(screen, fresh, bytes)
    }

    // Shows bytes for which there is no room.
    #[inline(never)]
    fn flush_and_append<S: Screen>(
        &mut self,
        screen: &mut S,
        fresh: &mut bool,
        bytes: &[u8],
    ) -> Result<(), CommandStop>
        ensures { (d : Devices) (cells : Cells) → Comes nothing_refused
            (with_pending self.old
            (trace (with_screen (screen_state S.Screen screen.old) d) fresh.old cells))
            (with_pending self.new
            (trace (with_screen (screen_state S.Screen screen.new) d) fresh.new cells))
            (show_action bytes.now) goes_on result }
    {
        self.put(screen, fresh, bytes)?;
        Ok(())
    }

    /// Shows bytes: later, with others, if there is room for them. Otherwise what was gathered is shown
    /// first.
    ///
    /// # Errors
    ///
    /// [`DeviceFault`] where the screen doesn't show them. Nothing is gathered then.
    pub(crate) fn put<S: Screen>(
        &mut self,
        screen: &mut S,
        fresh: &mut bool,
        bytes: &[u8],
    ) -> Result<(), DeviceFault>
        ensures { (d : Devices) (cells : Cells) → IsShown
            (with_pending self.old
            (trace (with_screen (screen_state S.Screen screen.old) d) fresh.old cells))
            (with_pending self.new
            (trace (with_screen (screen_state S.Screen screen.new) d) fresh.new cells))
            bytes.now result }
    {
        if self.try_append(bytes) {
            return Ok(());
        }
        self.flush(screen, fresh)?;
        if self.try_append(bytes) {
            return Ok(());
        }
        put(screen, fresh, bytes)
    }
}
