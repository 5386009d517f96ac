// This file has the listing of the mistakes in a program's text.

ghost use Rattle.std.specs.Prelude.{◌≡◌, ◌≤◌};
ghost use Rattle.ptb_options.specs.declared.request.Mode.TheVariants.{Check};
ghost use Rattle.ptb_machine.specs.Streams.{writes_of};
ghost use Rattle.ptb_serve.specs.LoadedPrograms.{IsServedUnread};
ghost use Rattle.ptb_serve.specs.Replies.{check_status};

use crate::note::Note;
use ptb_check::write_mistakes;
use ptb_text::{Program, Write};

/// Writes each mistake in a program's text, as a run reports it. The status is 1 where there is one,
/// and 0 where there is none. Nothing is run, and no memory is taken.
///
/// # Errors
///
/// [`Note::Unwritten`] where the writer failed: a prefix of the mistakes was written.
pub fn list_mistakes<W: Write>(program: &Program, out: &mut W) -> Result<u8, Note>
    ensures { IsServedUnread Check program.now
        (writes_of W.contents W.failures out.old out.new) result }
{
    let any = write_mistakes(program, out)?;
    Ok(status_of(any))
}

// 1 where there is a mistake, otherwise 0.
fn status_of(any: bool) -> u8
    ensures status { result ≡ check_status any }
    ensures small { result ≤ 1 }
{
    if any { 1 } else { 0 }
}
