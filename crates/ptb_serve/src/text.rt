// This file has the listing of a program's text.

ghost use Rattle.ptb_options.specs.declared.request.Mode.TheVariants.{List};
ghost use Rattle.ptb_machine.specs.Streams.{writes_of};
ghost use Rattle.ptb_serve.specs.LoadedPrograms.{IsServedUnread};

use crate::note::Note;
use ptb_text::{Program, Write, list};

/// Writes a program's text. The status is 0. Nothing is run, and no memory is taken.
///
/// # Errors
///
/// [`Note::Unwritten`] where the writer failed: a prefix of the listing was written.
pub fn list_text<W: Write>(program: &Program, out: &mut W) -> Result<u8, Note>
    ensures { IsServedUnread List program.now
        (writes_of W.contents W.failures out.old out.new) result }
{
    list(program, out)?;
    Ok(0)
}
