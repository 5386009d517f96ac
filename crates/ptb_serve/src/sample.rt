// This file has the sample of a program's runs, each with its report.

ghost use Rattle.std.specs.Prelude.{◌≡◌};
ghost use Rattle.ptb_options.specs.declared.request.Mode.TheVariants as modes;
ghost use Rattle.ptb_machine.specs.Streams.{reads_of, writes_of};
ghost use Rattle.ptb_serve.specs.LoadedPrograms.{IsServed, IsServedOn};

use crate::note::Note;
use ptb_explore::{Sample, write_sample};
use ptb_machine::{Line, read_lines};
use ptb_options::Request;
use ptb_text::{Program, Read, Write};
use std::alloc::Global;

/// Writes the reports of the runs that a seed draws, one after the other. The status is 0.
///
/// Nothing is written until the input was read to its end.
///
/// # Errors
///
/// [`Note::InputUnread`] where the input could not be read or has more than 16,777,216 bytes: nothing
/// was written. [`Note::OutOfMemory`] where a growth was refused memory: the reports of the first runs
/// were written, fewer than all. [`Note::Unwritten`] where the writer failed: a prefix of the reports
/// was written.
pub fn list_sample<R: Read, W: Write>(
    alloc: Global,
    request: &Request,
    program: &Program,
    sample: Sample,
    input: &mut R,
    out: &mut W,
) -> Result<u8, Note>
    requires memory { program.now.memory ≡ request.now.memory }
    ensures { IsServed (modes.Sample sample.seed sample.runs sample.form) request.now program.now
        (reads_of R.remaining R.given R.failures input.old input.new)
        (writes_of W.contents W.failures out.old out.new) result }
{
    let lines = read_lines(alloc, input)?;
    sample_lines(alloc, request, program, &lines, sample, out)
}

// Writes the reports of the runs that a seed draws on the lines of an input that was read. Its caller owns
// these lines and has few exits: each exit of a body is proved with all that the body owns.
fn sample_lines<W: Write>(
    alloc: Global,
    request: &Request,
    program: &Program,
    lines: &[Line],
    sample: Sample,
    out: &mut W,
) -> Result<u8, Note>
    requires memory { program.now.memory ≡ request.now.memory }
    ensures { IsServedOn (modes.Sample sample.seed sample.runs sample.form) request.now program.now lines.now
        (writes_of W.contents W.failures out.old out.new) result }
{
    write_sample(alloc, program, lines, request.rules, sample, out)?;
    Ok(0)
}
