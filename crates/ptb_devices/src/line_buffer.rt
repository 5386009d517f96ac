// This file holds what has come of an input whose lines are asked for one by one.

ghost use Rattle.std.specs.Prelude.{◌≡◌, ◌↔◌, ◌+◌, ◌<◌, ◌≤◌, true, false, [], length, slice_range, take, IsSome};
ghost use Rattle.std.specs.Prelude.{◌==◌, if◌then◌else◌, IsTrue, IfOk, IfErr, IfSome, MatchBool};
ghost use Rattle.ptb_devices.specs.Prelude.{sem, Rests, line_limit, kept_bytes, IsLine, Open, fresh_input, fault_at};
ghost use Rattle.ptb_devices.specs.Prelude.{open_piece, input_now, CutsLine, CutsAll, TakesWhole, ReadsOn, Refuses};
ghost use Rattle.ptb_devices.specs.Prelude.{StayUpTo, w64, trailing_zeros};

use crate::cutter::{LINE_LIMIT, LineCutter, stays};
use crate::whole_input::{BUFFER_SIZE, INPUT_LIMIT};
use ptb_text::{Allowance, DeviceFault, Piece, Read};
use std::marker::Model;
use std::simd::prelude::*;

// How many bytes are looked at together for the end of a line.
const BLOCK: usize = 16;

/// How an input continues.
#[derive(Clone, Copy)]
pub(crate) enum InputEnd {
    /// Its reader may have more.
    Open,
    /// Its reader has come to its end.
    Ended,
    /// Its reader has failed.
    Failed,
    /// Its reader has given more than an input may have.
    Exceeded,
}

/// What has come of an input and was not given.
#[derive(Drop)]
pub(crate) struct LineBuffer {
    /// What the reader gave last is at the front.
    bytes: [u8; BUFFER_SIZE],
    /// Of these bytes, those from here on wait to be cut.
    from: usize,
    /// Nothing came after this place.
    to: usize,
    /// How many bytes may still be taken. The last of them only shows that the input is too long.
    left: Allowance,
    cutter: LineCutter,
    /// Whether the piece in the cutter was given as a line.
    is_given: bool,
    end: InputEnd,
}

impl Model for LineBuffer {
    ghost use Rattle.std.specs.Prelude.{slice_range};
    ghost use Rattle.ptb_devices.specs.Inputs.{InputState, IsWithin};

    ghost Value = { InputState };

    ghost view = { λ a. record {
      piece = a.cutter;
      is_given = a.is_given;
      waiting = slice_range a.bytes a.from a.to;
      left = a.left;
      end = a.end;
    } };

    ghost invariant = { λ a. IsWithin a.bytes a.from a.to a.left a.end };
}

impl LineBuffer {
    ghost use Rattle.ptb_devices.specs.contracts.line_buffer.LineBuffer.{the_row};

    /// A buffer to which nothing came.
    pub(crate) fn new() -> Self
        ensures { result ≡ fresh_input }
    {
        LineBuffer {
            bytes: [0; BUFFER_SIZE],
            from: 0,
            to: 0,
            left: Allowance::new(INPUT_LIMIT),
            cutter: LineCutter::new(),
            is_given: false,
            end: InputEnd::Open,
        }
    }

    /// What is kept of the piece that has begun or was given.
    pub(crate) fn kept(&self) -> &[u8]
        ensures value { result.now ≡ kept_bytes self.now.piece }
        ensures short { length result.now ≤ line_limit }
    {
        self.cutter.kept()
    }

    /// Forgets a piece that was given.
    pub(crate) fn forget_given(&mut self)
        ensures { self.new ≡ record self.old { piece = open_piece self.old; is_given = false } }
    {
        if self.is_given {
            self.cutter.clear();
            self.is_given = false;
        }
    }

    /// Whether its reader may have more.
    pub(crate) fn may_have_more(&self) -> bool
        ensures { IsTrue result → self.now.end ≡ Open }
    {
        matches!(self.end, InputEnd::Open)
    }

    /// Takes the line in front of what has come, if it is complete there, no piece has begun, and the
    /// cleaned line is the same. It is given where it is: nothing is copied.
    #[inline(always)]
    pub(crate) fn take_whole(&mut self) -> Option<&[u8]>
        ensures* after { sem 𝓛 (Rests the_row self.entry (λ new.
            TakesWhole self.old result new)) }
        ensures short { IfSome result (λ bytes. length bytes.now ≤ line_limit) }
    {
        if self.cutter.has_started() {
            return None;
        }
        let from = self.from;
        let count = line_count(between(&self.bytes, from, self.to))?;
        self.from = from + count + 1;
        Some(between(&self.bytes, from, from + count))
    }

    /// Cuts a line from what has come, and gives it. Returns whether there was one; if not, everything
    /// is cut.
    pub(crate) fn cut_line(&mut self) -> bool
        requires { self.old.is_given ≡ false }
        ensures { MatchBool result (CutsLine self.old self.new) (CutsAll self.old self.new) }
    {
        match self
            .cutter
            .take_line(between(&self.bytes, self.from, self.to))
        {
            Some(count) => {
                self.from += count;
                self.is_given = true;
                true
            }
            None => {
                self.from = self.to;
                false
            }
        }
    }

    /// Gives the last piece. Whether one has begun.
    pub(crate) fn give_last(&mut self) -> bool
        ensures begun { IsTrue result ↔ IsSome self.old.piece }
        ensures given { self.new ≡ record self.old { is_given = result } }
    {
        self.is_given = self.cutter.has_started();
        self.is_given
    }

    /// Reads more, once everything that has come is cut. Whether there was more.
    ///
    /// # Errors
    ///
    /// [`DeviceFault::Read`] where the reader failed, and [`DeviceFault::TooLong`] where it gave more
    /// than an input may have, now or before. Nothing is read after the end or a fault.
    pub(crate) fn fill<R: Read>(&mut self, reader: &mut R) -> Result<bool, DeviceFault>
        requires { self.old.waiting ≡ [] }
        ensures on { ReadsOn 1
            (input_now R.remaining R.given R.failures self.old reader.old) []
            (input_now R.remaining R.given R.failures self.new reader.new) }
        ensures same_piece { (self.new.piece ≡ self.old.piece)
            × (self.new.is_given ≡ self.old.is_given) }
        ensures more { IfOk result (λ more. more ≡ true → self.new.left < self.old.left) }
        ensures end { IfOk result (λ more. more ≡ false → self.new.end ≡ InputEnd.Ended) }
        ensures same_fault { IfOk result
            (λ _. fault_at self.new.end ≡ fault_at self.old.end) }
        ensures fault { IfErr result (Refuses self.new.end) }
    {
        match self.end {
            InputEnd::Open => {}
            InputEnd::Ended => return Ok(false),
            InputEnd::Failed => return Err(DeviceFault::Read),
            InputEnd::Exceeded => return Err(DeviceFault::TooLong),
        }
        match self.left.read(reader, &mut self.bytes) {
            Ok(Piece::End) => {
                self.end = InputEnd::Ended;
                Ok(false)
            }
            Ok(Piece::Bytes(count)) => {
                self.from = 0;
                self.to = count;
                Ok(true)
            }
            Ok(Piece::TooLong) => {
                self.end = InputEnd::Exceeded;
                Err(DeviceFault::TooLong)
            }
            Err(_) => {
                self.end = InputEnd::Failed;
                Err(DeviceFault::Read)
            }
        }
    }

    /// How its reader has refused a line, if it has.
    pub(crate) fn fault(&self) -> Option<DeviceFault>
        ensures { result ≡ fault_at self.now.end }
    {
        match self.end {
            InputEnd::Open | InputEnd::Ended => None,
            InputEnd::Failed => Some(DeviceFault::Read),
            InputEnd::Exceeded => Some(DeviceFault::TooLong),
        }
    }
}

/// How many bytes the line in front of these bytes has, if its end is among them and the cleaned line
/// is the same.
#[inline(always)]
fn line_count(bytes: &[u8]) -> Option<usize>
    ensures line { IfSome result (λ n. IsLine (take n bytes.now) (take (n + 1) bytes.now)) }
    ensures within { IfSome result (λ n. n < length bytes.now) }
    ensures short { IfSome result (λ n. n ≤ line_limit) }
{
    let count = staying_blocks(bytes);
    if count <= LINE_LIMIT && count < bytes.len() && bytes[count] == b'\n' {
        return Some(count);
    }
    line_count_from(bytes, count)
}

/// The same, if the cleaning leaves the bytes before a place as they are.
// Not inlined: it is for the last bytes that came, and for lines that are changed.
#[inline(never)]
fn line_count_from(bytes: &[u8], from: usize) -> Option<usize>
    requires stay { StayUpTo bytes.now from }
    requires within { from ≤ length bytes.now }
    ensures line { IfSome result (λ n. IsLine (take n bytes.now) (take (n + 1) bytes.now)) }
    ensures within { IfSome result (λ n. n < length bytes.now) }
    ensures short { IfSome result (λ n. n ≤ line_limit) }
{
    let mut count = from;
    while count < bytes.len() && stays(bytes[count]) {
        count += 1;
    }
    if count <= LINE_LIMIT && count < bytes.len() && bytes[count] == b'\n' {
        return Some(count);
    }
    None
}

/// How many bytes in front of these the cleaning leaves as they are, as far as entire blocks show.
#[inline(always)]
fn staying_blocks(bytes: &[u8]) -> usize
    ensures stay { StayUpTo bytes.now result }
    ensures within { result ≤ length bytes.now }
{
    let mut count = 0;
    while count + BLOCK <= bytes.len() {
        let more = staying_in_block(bytes, count);
        count += more;
        if more < BLOCK {
            break;
        }
    }
    count
}

/// How many bytes the cleaning leaves as they are, of the block from a place on, before one that it
/// doesn't. A processor looks at all of them at once.
#[inline(always)]
fn staying_in_block(bytes: &[u8], from: usize) -> usize
    requires { from + BLOCK ≤ length bytes.now }
    ensures stay { StayUpTo bytes.now from → StayUpTo bytes.now (from + result) }
    ensures within { result ≤ BLOCK }
{
    let block = u8x16::from_slice(&bytes[from..]);
    let others = block.simd_lt(u8x16::splat(b' ')) | block.simd_ge(u8x16::splat(0x7f));
    first_set(others.to_bitmask())
}

/// How many bits of the mask of a block come before the first that is set.
#[inline(always)]
fn first_set(mask: u64) -> usize
    ensures { result ≡ (if mask == 0 then BLOCK else trailing_zeros w64 mask) }
{
    if mask == 0 {
        BLOCK
    } else {
        mask.trailing_zeros() as usize
    }
}

/// The bytes between two places.
fn between(bytes: &[u8], from: usize, to: usize) -> &[u8]
    requires { (from ≤ to) × (to ≤ length bytes.now) }
    ensures { result.now ≡ slice_range bytes.now from to }
{
    &bytes[from..to]
}
