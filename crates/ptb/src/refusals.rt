// This file says why nothing is served: the arguments could not be read, or make no request.

ghost use Rattle.std.specs.Prelude.{◌≡◌, is_ok};
ghost use Rattle.ptb.specs.Prelude.{error_kind, kind_of, usage_status, note_status, IsRefusedStatus, shown_status};
ghost use Rattle.ptb.specs.Prelude.{unread_status};

use crate::console::Console;
use clap::ArgMatches;
use clap::error::ErrorKind;
use ptb_options::{UsageFault, WrongNumber, misspelled_list, refusal_status};
use ptb_serve::Note;
use std::io;
use std::rt::Runtime;

/// Says why the arguments can't be read: there is no memory for them, or one is no text.
pub(crate) fn refuse_unread<R: Runtime>(console: &Console<'_, R>, error: &io::Error) -> u8
    ensures { result ≡ unread_status (error_kind error.now) }
{
    match error.kind() {
        io::ErrorKind::OutOfMemory => give_up(console, Note::OutOfMemory),
        _ => {
            console.say(*error);
            64
        }
    }
}

/// Says what clap has to say: a mistake in the arguments, or the help or version that they ask for.
pub(crate) fn refuse<R: Runtime>(
    console: &Console<'_, R>,
    error: &clap::Error,
    wrong: Option<WrongNumber<'_>>,
) -> u8
    ensures { IsRefusedStatus (kind_of error.now) result }
{
    if error.kind() == ErrorKind::OutOfMemory {
        return give_up(console, Note::OutOfMemory);
    }
    let shown = match wrong {
        Some(wrong) if is_said_by(error, wrong) => console.runtime().eprint(wrong),
        _ => error.print(console.runtime()),
    };
    shown_error(console, error, shown)
}

// The status of what clap had to say, by what came of showing it. Help and version are written to
// standard output.
fn shown_error<R: Runtime>(
    console: &Console<'_, R>,
    error: &clap::Error,
    shown: io::Result<()>,
) -> u8
    ensures { result ≡ shown_status (kind_of error.now) (is_ok shown) }
{
    if shown.is_err() && !error.use_stderr() {
        return give_up(console, Note::Unwritten);
    }
    refusal_status(error.kind())
}

// Whether a wrong number says more plainly than clap what clap refused. A negative number is an
// unknown option to clap.
fn is_said_by(error: &clap::Error, wrong: WrongNumber<'_>) -> bool {
    match error.kind() {
        ErrorKind::ValueValidation => true,
        ErrorKind::UnknownArgument => wrong.value.starts_with('-'),
        _ => false,
    }
}

// Says why nothing is served.
fn give_up<R: Runtime>(console: &Console<'_, R>, note: Note) -> u8
    ensures { result ≡ note_status note }
{
    console.say(note);
    note.status()
}

/// Says why the options make no request.
pub(crate) fn refuse_options<R: Runtime>(
    console: &Console<'_, R>,
    fault: UsageFault,
    matches: &ArgMatches<'_>,
) -> u8
    ensures { result ≡ usage_status fault }
{
    console.say(fault);
    if fault == UsageFault::BadList {
        if let Some(list) = misspelled_list(matches) {
            console.say(format_args!("  {list}"));
        }
    }
    fault.status()
}
