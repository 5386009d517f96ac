// This file has the input lines of a run, and the sources that give them.

ghost use Rattle.std.specs.Prelude.{◌≡◌, ℕ, ◌+◌, ◌-◌, ◌<◌, ◌≤◌, List, [], ◌∷◌, ◌++◌, length, drop, take, Option, Some};
ghost use Rattle.std.specs.Prelude.{IfOk, IfErr, IfNone, IfSome};
ghost use Rattle.ptb_devices.specs.Prelude.{rules, common_steps, sem, Rests, clean_line, line_limit, IsClean};
ghost use Rattle.ptb_devices.specs.Prelude.{DeviceFault, Loses, NoneLeft, given_lines, ready_lines, LineList, Gives};
ghost use Rattle.ptb_devices.specs.Prelude.{IsSourceFault};

use crate::cutter::LineCutter;
use ptb_text::DeviceFault;
use std::alloc::{AllocError, Global};
use std::marker::Model;

/// Where a run takes its input lines from.
pub trait LineSource {
    /// The lines that it will give from here on, where they are known.
    ghost lines: { Self → Option (List (List ℕ)) };

    /// At most how many lines it can still give.
    ghost most: { Self → ℕ };

    /// What holds between two states of it, where the calls in between gave these lines.
    ghost gives: { Self → List (List ℕ) → Self → Type 0 };

    /// How many lines were asked for without success, of those that it can tell.
    ghost missed: { Self → ℕ };

    /// What holds after a fault.
    ghost refused: { Self → DeviceFault → Type 0 };

    /// The next line, of at most 255 bytes, or none at the end.
    ///
    /// # Errors
    ///
    /// [`DeviceFault::Read`] where the input could not be read, [`DeviceFault::TooLong`] where it has
    /// too many bytes, [`DeviceFault::Memory`] where a growth was refused memory. No line is taken
    /// then.
    fn next(&mut self) -> Result<Option<&[u8]>, DeviceFault>
        ensures* after { sem 𝓛 (Rests Self.row self.entry (λ new.
            gives self.old (given_lines result) new × IfErr result (refused new)
            × IfOk result (λ line. IfNone line (NoneLeft (lines new)))
            × IfOk result (λ line. IfSome line (λ _. missed new ≤ missed self.old))
            × IfOk result (λ line. IfNone line (most new ≡ 0)))) }
        ensures end { IfOk result (λ line. IfNone line (NoneLeft (lines self.old))) }
        ensures kind { IfErr result IsSourceFault }
        ensures short { IfOk result (λ line. IfSome line (λ bytes.
            length bytes.now ≤ line_limit)) };

    /// The next line, of at most 255 bytes, if it is at hand: nothing is waited for. That there is
    /// none says nothing about the lines that are left.
    fn take_ready(&mut self) -> Option<&[u8]>
        ensures* after { sem 𝓛 (Rests Self.row self.entry (λ new.
            gives self.old (ready_lines result) new × (missed new ≤ missed self.old))) }
        ensures short { IfSome result (λ bytes. length bytes.now ≤ line_limit) };

    /// With no call it gives nothing.
    ghost gives_none: { (s : Self) → gives s [] s };

    /// What it gives adds up.
    ghost gives_more: { (s t u : Self) (xs ys : List (List ℕ)) → gives s xs t → gives t ys u
        → gives s (xs ++ ys) u };

    /// The lines left lose those that it gives.
    ghost loses: { (s t : Self) (xs : List (List ℕ)) → gives s xs t
        → Loses (lines s) (lines t) xs };

    /// Each line that it gives is one fewer that it can give.
    ghost falls: { (s t : Self) (xs : List (List ℕ)) → gives s xs t → most t + length xs ≤ most s };

    /// Where it can give no line, none is left.
    ghost ends: { (s : Self) → most s ≡ 0 → NoneLeft (lines s) };
}

/// An input line: at most 255 bytes from 32 to 126.
#[derive(Drop)]
pub struct Line {
    bytes: Vec<u8>,
}

impl Model for Line {
    ghost Value = { List ℕ };

    ghost invariant = { λ l. IsClean l.bytes.items };

    ghost view = { λ l. l.bytes.items };
}

impl Line {
    /// The line that these bytes are: tabs are made spaces, then whatever doesn't print (below 32,
    /// above 126) is removed, and then everything after the 255th byte.
    ///
    /// For users of the library: the program doesn't call it.
    ///
    /// # Errors
    ///
    /// [`AllocError`] where there is no memory for the bytes that are kept.
    pub fn clean(alloc: Global, bytes: &[u8]) -> Result<Line, AllocError>
        ensures { IfOk result (λ l. l ≡ clean_line bytes.now) }
    {
        let mut cutter = LineCutter::new();
        for byte in bytes {
            cutter.take(*byte);
        }
        Line::from_kept(alloc, cutter.kept())
    }

    /// The line of bytes that are clean.
    pub(crate) fn from_kept(alloc: Global, kept: &[u8]) -> Result<Line, AllocError>
        requires { IsClean kept.now }
        ensures { IfOk result (λ l. l ≡ kept.now) }
    {
        let mut bytes = Vec::with_capacity(alloc, kept.len())?;
        bytes.extend_from_slice(kept)?;
        Ok(Line { bytes })
    }

    /// Its bytes: at most 255, each from 32 to 126.
    pub fn bytes(&self) -> &[u8]
        ensures value { result.now ≡ self.now }
        ensures clean { IsClean self.now }
    {
        &self.bytes
    }
}

/// The lines of a slice, in order. It never fails.
#[derive(Drop)]
pub struct Lines<'a> {
    lines: &'a [Line],
    taken: usize,
}

impl<'a> Model for Lines<'a> {
    ghost use Rattle.std.specs.Prelude.{◌≤◌, length};
    ghost use Rattle.ptb_devices.specs.Sources.{LineList};

    ghost Value = { LineList };

    ghost view = { λ s. record { lines = s.lines.now; taken = s.taken } };

    ghost invariant = { λ s. s.taken ≤ length s.lines.now };
}

impl<'a> Lines<'a> {
    /// All of the lines.
    pub fn new(lines: &'a [Line]) -> Self
        ensures { result ≡ record { lines = lines.now; taken = 0 } }
    {
        Lines { lines, taken: 0 }
    }

    /// How many of the lines were taken.
    pub fn taken(&self) -> usize
        ensures { result ≡ self.now.taken }
    {
        self.taken
    }

    /// Goes to where `count` of the lines were taken.
    pub fn go(&mut self, count: usize)
        requires { count ≤ length self.old.lines }
        ensures { self.new ≡ record self.old { taken = count } }
    {
        self.taken = count;
    }
}

impl<'a> LineSource for Lines<'a> {
    ghost lines = { λ s. Some (drop s.taken s.lines) };

    ghost most = { λ s. length s.lines - s.taken };

    ghost gives = { Gives };

    ghost missed = { λ _. 0 };

    ghost refused = { λ _ _. ⊥ };

    // Its laws are found from std's lemmas on lists.
    ghost gives_none = { Prim.search (rules, common_steps) };

    ghost gives_more = { Prim.search (rules, common_steps) };

    ghost loses = { Prim.search (rules, common_steps) };

    ghost falls = { Prim.search (rules, common_steps) };

    ghost ends = { Prim.search (rules, common_steps) };

    fn next(&mut self) -> Result<Option<&[u8]>, DeviceFault> {
        if self.taken == self.lines.len() {
            return Ok(None);
        }
        let line = self.lines[self.taken].bytes();
        self.taken += 1;
        Ok(Some(line))
    }

    fn take_ready(&mut self) -> Option<&[u8]> {
        if self.taken == self.lines.len() {
            return None;
        }
        let line = self.lines[self.taken].bytes();
        self.taken += 1;
        Some(line)
    }
}
