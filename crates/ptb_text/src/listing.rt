// This file writes a program as text.

ghost use Rattle.std.specs.Prelude.{◌≡◌, ◌≤◌, ℕ, [], IsTrue, OnOk};
ghost use Rattle.ptb_text.specs.ProgramTexts.{GivesProgram};
ghost use Rattle.ptb_text.specs.Statements.{Statements, cost, is_program, line_of, listing};
ghost use Rattle.ptb_text.specs.Streams.{WritesText, writes_of};

use crate::{DeviceFault, OutputBuffer, Program, Write};
use itoa::Buffer;

/// The bytes of the longest line: a number of five digits, a space, a text and the byte 10.
const LINE_ROOM: usize = 262;

/// Writes the statements in rising order, each as its number in decimals, a space, its text and
/// the byte 10. Each line is passed to the writer in one piece; no memory is taken.
///
/// Loading what is written gives the program back.
///
/// # Errors
///
/// [`DeviceFault::Write`] where the writer failed. A prefix of the listing was written then.
pub fn list<W: Write>(program: &Program, writer: &mut W) -> Result<(), DeviceFault>
    ensures writes { WritesText (writes_of W.contents W.failures writer.old writer.new)
        (listing program.now.lines) result }
    ensures reloads { (memory : ℕ) (q : Statements) → IsTrue (is_program q) → cost q ≤ memory
        → GivesProgram memory (listing q) q }
{
    let mut line = OutputBuffer::<LINE_ROOM>::new();
    for at in 0..program.len() {
        let (number, text) = program.statement_at(at);
        write_line(&mut line, number, text, writer)?;
    }
    Ok(())
}

// Writes a statement as a line.
fn write_line<W: Write>(
    line: &mut OutputBuffer<LINE_ROOM>,
    number: u16,
    text: &[u8],
    writer: &mut W,
) -> Result<(), DeviceFault>
    requires { line.old ≡ [] }
    ensures writes { WritesText (writes_of W.contents W.failures writer.old writer.new)
        (line_of (number, text.now)) result }
    ensures empty { OnOk result (line.new ≡ []) }
{
    let mut digits = Buffer::new();
    let digits = digits.format(number).as_bytes();
    line.finish(writer, &[digits, b" ", text, b"\n"])
}
