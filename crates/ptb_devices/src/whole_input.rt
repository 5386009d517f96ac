// This file reads all the input lines of a run at once.

ghost use Rattle.std.specs.Prelude.{◌≡◌, ◌+◌, ℕ, List, ◌++◌, Option, Some, OnOk, IfErr, IfOk, IfSome, IsErrOf, IsOk};
ghost use Rattle.ptb_devices.specs.Prelude.{input_lines, ReadsUpTo, reads_of, line_of_piece, Cuts, AddsLines};
ghost use Rattle.ptb_devices.specs.Prelude.{IsSourceFault};

use crate::cutter::LineCutter;
use crate::lines::Line;
use ptb_text::{Allowance, DeviceFault, Piece, Read};
use std::alloc::{AllocError, Global};

/// How many bytes an input may have.
pub const INPUT_LIMIT: usize = 16_777_216;

/// How many bytes are read at once.
pub(crate) const BUFFER_SIZE: usize = 4096;

/// Reads the entire input, and cuts it into its cleaned lines.
///
/// It takes at most one byte more than an input may have, also from a reader that never ends.
///
/// # Errors
///
/// [`DeviceFault::Read`] where the reader failed, [`DeviceFault::TooLong`] where the input has more
/// than [`INPUT_LIMIT`] bytes, [`DeviceFault::Memory`] where a growth was refused memory.
pub fn read_lines<R: Read>(alloc: Global, reader: &mut R) -> Result<Vec<Line>, DeviceFault>
    ensures lines { IfOk result
        (λ ls. IfSome (R.remaining reader.old) (λ b. ls.items ≡ input_lines b)) }
    ensures reads { ReadsUpTo INPUT_LIMIT
        (reads_of R.remaining R.given R.failures reader.old reader.new)
        (IsOk result) (IsErrOf result DeviceFault.TooLong) (IsErrOf result DeviceFault.Read) }
    ensures kind { IfErr result IsSourceFault }
    ensures sure { R.reliable reader.old → ¬ IsErrOf result DeviceFault.Read }
{
    let mut buffer = [0; BUFFER_SIZE];
    let mut cutter = LineCutter::new();
    let mut lines = Vec::new(alloc);
    let mut left = Allowance::new(INPUT_LIMIT);
    loop {
        match left.read(reader, &mut buffer)? {
            Piece::End => {
                push_last(alloc, &mut lines, &cutter)?;
                return Ok(lines);
            }
            Piece::Bytes(count) => {
                push_whole(alloc, &mut lines, &mut cutter, &buffer[..count])?;
            }
            Piece::TooLong => return Err(DeviceFault::TooLong),
        }
    }
}

/// Adds the lines that these bytes end.
fn push_whole(
    alloc: Global,
    lines: &mut Vec<Line>,
    cutter: &mut LineCutter,
    bytes: &[u8],
) -> Result<(), AllocError>
    ensures { OnOk result
        (AddsLines cutter.old bytes.now lines.old.items lines.new.items cutter.new) }
{
    let mut rest = bytes;
    while let Some(count) = cutter.take_line(rest) {
        lines.push(Line::from_kept(alloc, cutter.kept())?)?;
        cutter.clear();
        rest = &rest[count..];
    }
    Ok(())
}

/// Adds the last line, if a piece has begun.
fn push_last(alloc: Global, lines: &mut Vec<Line>, cutter: &LineCutter) -> Result<(), AllocError>
    ensures { OnOk result (lines.new.items ≡ lines.old.items ++ line_of_piece cutter.now) }
{
    if cutter.has_started() {
        lines.push(Line::from_kept(alloc, cutter.kept())?)?;
    }
    Ok(())
}
