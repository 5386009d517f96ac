// This file has the screens, which show the bytes of a run.

ghost use Rattle.std.specs.Prelude.{◌≡◌, ℕ, ◌≤◌, Bool, true, false, List, [], length, take, Option, Some, None};
ghost use Rattle.std.specs.Prelude.{OnOk, OnErr, IfErr, IsErrOf, IsTrue};
ghost use Rattle.std.specs.Borrow.{GName};
ghost use Rattle.std.specs.Io.KnownBytes.{Appends};
ghost use Rattle.ptb_devices.specs.Prelude.{HasFailed, TakesSome, screen_writer, IsScreenFault};

use ptb_text::{DeviceFault, Write};
use std::alloc::Global;
use std::marker::Model;

/// Where a run shows its bytes.
pub trait Screen {
    /// The bytes shown so far, where they are known.
    ghost shown: { Self → Option (List ℕ) };

    /// How often its writer has failed. Only a call that answers [`DeviceFault::Write`] changes it.
    ghost failures: { Self → ℕ };

    /// The name of the borrow of its writer, if it has one. No call changes it.
    ghost borrow: { Self → Option GName };

    /// Whether it may take memory.
    ghost takes_memory: { Bool };

    /// Shows the bytes.
    ///
    /// # Errors
    ///
    /// [`DeviceFault::Write`] where its writer failed, [`DeviceFault::Memory`] where a growth was
    /// refused memory. A prefix of the bytes may have been shown then.
    fn put(&mut self, bytes: &[u8]) -> Result<(), DeviceFault>
        ensures ok { OnOk result (Appends (shown self.old) (shown self.new) bytes.now) }
        ensures fault { OnErr result (TakesSome (shown self.old) (shown self.new) bytes.now) }
        ensures write { IsErrOf result DeviceFault.Write
            → HasFailed (failures self.old) (failures self.new) }
        ensures unfailed { ¬ IsErrOf result DeviceFault.Write
            → failures self.new ≡ failures self.old }
        ensures memory { IsErrOf result DeviceFault.Memory → IsTrue takes_memory }
        ensures kind { IfErr result IsScreenFault }
        ensures later { failures self.old ≤ failures self.new }
        ensures same_borrow { borrow self.new ≡ borrow self.old };
}

/// A screen over a writer, which gets the bytes of each `put` at once.
#[derive(Drop)]
pub struct WriterScreen<'a, W> {
    writer: &'a mut W,
}

impl<'a, W: Write> WriterScreen<'a, W> {
    /// A screen over `writer`.
    pub fn new(writer: &'a mut W) -> Self
        ensures same_borrow { (screen_writer result).ghost_name ≡ writer.entry.ghost_name }
        ensures writer { (screen_writer result).now ≡ writer.old }
    {
        WriterScreen { writer }
    }
}

impl<'a, W: Write> Screen for WriterScreen<'a, W> {
    ghost shown = { λ s. W.contents (screen_writer s).now };

    ghost failures = { λ s. W.failures (screen_writer s).now };

    ghost borrow = { λ s. Some (screen_writer s).ghost_name };

    ghost takes_memory = { false };

    fn put(&mut self, bytes: &[u8]) -> Result<(), DeviceFault> {
        self.writer.write_all(bytes)?;
        Ok(())
    }
}

/// A screen in memory: contracts see it as the bytes that it has shown.
#[derive(Drop)]
pub struct TextScreen {
    text: Vec<u8>,
}

impl Model for TextScreen {
    ghost Value = { List ℕ };

    ghost view = { λ s. s.text.items };
}

impl TextScreen {
    /// A screen that has shown nothing.
    pub fn new(alloc: Global) -> Self
        ensures { result ≡ [] }
    {
        TextScreen {
            text: Vec::new(alloc),
        }
    }

    /// A screen that has shown these bytes.
    pub fn from_vec(text: Vec<u8>) -> Self
        ensures { result ≡ text.items }
    {
        TextScreen { text }
    }

    /// The bytes that it has shown.
    pub fn into_vec(self) -> Vec<u8>
        ensures { result.items ≡ self }
    {
        let TextScreen { text } = self;
        text
    }

    /// The bytes that it has shown.
    pub fn bytes(&self) -> &[u8]
        ensures { result.now ≡ self.now }
    {
        &self.text
    }

    /// How many bytes it has shown.
    pub fn len(&self) -> usize
        ensures { result ≡ length self.now }
    {
        self.text.len()
    }

    /// Keeps the first `count` bytes, and forgets that it has shown more.
    pub fn cut(&mut self, count: usize)
        requires { count ≤ length self.old }
        ensures { self.new ≡ take count self.old }
    {
        self.text.truncate(count);
    }
}

impl Screen for TextScreen {
    ghost shown = { λ s. Some s };

    ghost failures = { λ _. 0 };

    ghost borrow = { λ _. None };

    ghost takes_memory = { true };

    fn put(&mut self, bytes: &[u8]) -> Result<(), DeviceFault> {
        self.text.extend_from_slice(bytes)?;
        Ok(())
    }
}
