// This file writes the decimals of a value, and gathers them with blanks before them.

ghost use Rattle.std.specs.Prelude.{◌≡◌, ◌+◌, ◌-◌, ◌*◌, ◌≤◌, ◌++◌, ℕ, List, length, take, drop, replicate};
ghost use Rattle.std.specs.Prelude.{IsFalse, IsTrue};
ghost use Rattle.ptb_command.specs.Prelude.{padded_decimal, signed_decimal};

use crate::pending_output::{BLOCK, PENDING_LIMIT, PendingOutput};
use itoa::write_digits;

/// How many bytes a value is shown in, at most.
pub(crate) const WIDTH_LIMIT: usize = 255;

/// The blanks before these bytes, at most.
static BLANKS: [u8; 239] = [b' '; 239];

/// Writes the decimals of a value, which end at a place. Where they begin.
#[inline(always)]
pub(crate) fn write_decimal(value: i16, bytes: &mut [u8], to: usize) -> usize
    requires { (length (signed_decimal value) ≤ to) × (to ≤ length bytes.old) }
    ensures start { result + length (signed_decimal value) ≡ to }
    ensures written { drop result bytes.new ≡ signed_decimal value ++ drop to bytes.old }
    ensures before { take result bytes.new ≡ take result bytes.old }
{
    let start = write_digits(u64::from(value.unsigned_abs()), bytes, to);
    if value >= 0 {
        return start;
    }
    bytes[start - 1] = b'-';
    start - 1
}

// How much room the decimals of a value are given, with blanks before them up to the width.
fn room_for(width: u8) -> usize
    ensures width { width ≤ result }
    ensures block { BLOCK ≤ result }
{
    usize::from(width).max(BLOCK)
}

// Gathers the decimals that a text has after its blanks, from the place `start` on, with blanks before
// them up to the width.
#[inline(always)]
fn gather_decimals(pending: &mut PendingOutput, width: u8, text: &[u8], start: usize)
    requires text { (length text.now ≡ 2 * BLOCK) × (start ≤ BLOCK) }
    requires blanks { length pending.old + width ≤ PENDING_LIMIT }
    requires block { length pending.old + BLOCK ≤ PENDING_LIMIT }
    ensures { (decimals : List ℕ) → take BLOCK text.now ≡ replicate start 32 ++ decimals →
        pending.new ≡ pending.old ++ (replicate (width - length decimals) 32 ++ decimals) }
{
    let width = usize::from(width);
    let before = width.saturating_sub(BLOCK);
    pending.append_many(&BLANKS[..before]);
    let from = start.min(BLOCK - (width - before));
    pending.append_few(text, from, BLOCK - from);
}

// Gathers the decimals of a value, with blanks before them up to the width.
#[inline(always)]
fn gather_value(pending: &mut PendingOutput, width: u8, value: i16)
    requires blanks { length pending.old + width ≤ PENDING_LIMIT }
    requires block { length pending.old + BLOCK ≤ PENDING_LIMIT }
    ensures { pending.new ≡ pending.old ++ padded_decimal width value }
{
    let mut text = [b' '; 2 * BLOCK];
    let start = write_decimal(value, &mut text, BLOCK);
    gather_decimals(pending, width, &text, start);
}

/// Gathers the decimals of a value, with blanks before them up to the width, if there is room for a block
/// where the decimals and the blanks end. Whether there was.
#[inline(always)]
pub(crate) fn try_value(pending: &mut PendingOutput, width: u8, value: i16) -> bool
    ensures gathered { IsTrue result → pending.new ≡ pending.old ++ padded_decimal width value }
    ensures full { IsFalse result → pending.new ≡ pending.old }
{
    if pending.room() < room_for(width) {
        return false;
    }
    gather_value(pending, width, value);
    true
}
