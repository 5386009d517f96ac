// This file has the table of the chances of a program's runs.

ghost use Rattle.std.specs.Prelude.{◌≡◌};
ghost use Rattle.ptb_options.specs.declared.request.Mode.TheVariants.{Chances};
ghost use Rattle.ptb_machine.specs.Streams.{reads_of, writes_of};
ghost use Rattle.ptb_serve.specs.LoadedPrograms.{IsServed, IsServedOn};

use crate::note::Note;
use ptb_chances::{Watch, write_chances};
use ptb_machine::{Line, read_lines};
use ptb_options::Request;
use ptb_text::{Program, Read, Write};
use std::alloc::Global;

/// Writes the table of a program's runs: each result that a run has, with the sum of the chances of
/// its runs in lowest terms, and their number. The status is 0.
///
/// Nothing is written until the input was read to its end and the table is complete. Until then, the
/// writer may show how far it is.
///
/// # Errors
///
/// [`Note::InputUnread`] where the input could not be read or has more than 16,777,216 bytes, and
/// [`Note::OutOfMemory`] where a growth was refused memory: nothing was written.
/// [`Note::Unwritten`] where the writer failed: a prefix of the table was written.
pub fn list_table<R: Read, W: Write + Watch>(
    alloc: Global,
    request: &Request,
    program: &Program,
    input: &mut R,
    out: &mut W,
) -> Result<u8, Note>
    requires memory { program.now.memory ≡ request.now.memory }
    ensures { IsServed Chances request.now program.now
        (reads_of R.remaining R.given R.failures input.old input.new)
        (writes_of W.contents W.failures out.old out.new) result }
{
    let lines = read_lines(alloc, input)?;
    table_on(alloc, request, program, &lines, out)
}

// Writes the table of a program's runs on the lines of an input that was read. Its caller owns these lines
// and has few exits: each exit of a body is proved with all that the body owns.
fn table_on<W: Write + Watch>(
    alloc: Global,
    request: &Request,
    program: &Program,
    lines: &[Line],
    out: &mut W,
) -> Result<u8, Note>
    requires memory { program.now.memory ≡ request.now.memory }
    ensures { IsServedOn Chances request.now program.now lines.now
        (writes_of W.contents W.failures out.old out.new) result }
{
    write_chances(alloc, program, lines, request.rules, out)?;
    Ok(0)
}
