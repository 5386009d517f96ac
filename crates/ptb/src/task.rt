// This file serves a request for a program that is opened, and says what came of it.

ghost use Rattle.std.specs.Prelude.{◌≡◌, ℕ, List, Option, Result, IfSome, option_copied};
ghost use Rattle.ptb.specs.Prelude.{NoteValue, reads_of, writes_of, shortage_of, ServesOpened, ServesTask, exit_status};
ghost use Rattle.ptb.specs.Prelude.{no_lines};

use crate::console::Console;
use crate::endings::Shortage;
use crate::no_lines::NoLines;
use crate::reasons::Reason;
use ptb_options::{Mode, Request};
use ptb_serve::{ListMismatch, Note, Outcome, Watch, serve};
use ptb_text::{Read, Write};
use std::alloc::Global;
use std::rt::Runtime;

/// What the arguments ask for.
#[derive(Drop)]
pub struct Task<'a> {
    /// What is done.
    pub request: Request,
    /// The program's file, where one is named.
    pub path: Option<&'a str>,
    /// The seed of the request, where it was drawn from the clock.
    pub drawn: Option<u64>,
}

/// Where programs are opened.
pub trait Programs<P> {
    /// What may come of opening the program at a path, with the value before it is opened and the
    /// value after.
    ghost opens: { Self → Option (List ℕ) → Result P NoteValue → Self → Type 0 };

    /// Opens the program's file at this path, or standard input where there is none.
    ///
    /// # Errors
    ///
    /// The note of a file that can't be opened.
    fn open(&mut self, path: Option<&str>) -> Result<P, Note>
        ensures { opens self.old (option_copied path.entry) result self.new };
}

/// Serves a task, and gives the status to exit with. The input has no lines where standard input is
/// the program. The program is opened once.
pub fn serve_task<
    R: Runtime + AllocGlobal,
    P: Read + Drop,
    O: Programs<P>,
    I: Read,
    W: Write + Watch,
>(console: &Console<'_, R>, task: &Task<'_>, programs: &mut O, input: &mut I, out: &mut W) -> u8
    ensures { ServesTask (λ path opened. O.opens programs.old path opened programs.new)
        (reads_of P.remaining P.given P.failures)
        (option_copied task.now.path) task.now.request
        (reads_of I.remaining I.given I.failures input.old input.new)
        (writes_of W.contents W.failures out.old out.new) result }
{
    let alloc = console.runtime().alloc();
    let opened = programs.open(task.path);
    if opened.is_ok() {
        announce(console, task);
    }
    if is_run(&task.request.mode) {
        console.leave_out_echo();
    }
    let result = match task.path {
        Some(_) => serve_opened(alloc, &task.request, opened, input, out),
        None => serve_without_lines(alloc, &task.request, opened, out),
    };
    conclude(console, task, result)
}

// Says which seed was drawn, and that the program is read from the terminal.
fn announce<R: Runtime>(console: &Console<'_, R>, task: &Task<'_>) {
    if let Some(seed) = task.drawn {
        console.say(format_args!("ptb: seed {seed}"));
    }
    if task.path.is_none() && console.terminals.input {
        console.say("ptb: reading the program from the terminal; Ctrl-D ends it");
    }
}

// Serves a request for a program that was opened, or says why it was not.
fn serve_opened<P: Read + Drop, I: Read, W: Write + Watch>(
    alloc: Global,
    request: &Request,
    opened: Result<P, Note>,
    input: &mut I,
    out: &mut W,
) -> Result<Outcome, Note>
    ensures { ServesOpened (reads_of P.remaining P.given P.failures) request.now opened
        (reads_of I.remaining I.given I.failures input.old input.new)
        (writes_of W.contents W.failures out.old out.new) result }
{
    match opened {
        Ok(mut program) => Ok(serve(alloc, request, &mut program, input, out)),
        Err(note) => Err(note),
    }
}

// Serves a request without input lines.
fn serve_without_lines<P: Read + Drop, W: Write + Watch>(
    alloc: Global,
    request: &Request,
    opened: Result<P, Note>,
    out: &mut W,
) -> Result<Outcome, Note>
    ensures { ServesOpened (reads_of P.remaining P.given P.failures) request.now opened no_lines
        (writes_of W.contents W.failures out.old out.new) result }
{
    serve_opened(alloc, request, opened, &mut NoLines, out)
}

// Says what came of a task, and gives the status to exit with.
fn conclude<R: Runtime>(
    console: &Console<'_, R>,
    task: &Task<'_>,
    served: Result<Outcome, Note>,
) -> u8
    ensures { result ≡ exit_status served }
{
    match served {
        Ok(outcome) => {
            match outcome.note {
                Some(note) => say_note(
                    console,
                    reason(console, task, note, outcome.mismatch),
                    note,
                ),
                None => say_shortage(console, task, outcome.status, outcome.line),
            }
            outcome.status
        }
        Err(note) => {
            say_note(console, reason(console, task, note, None), note);
            note.status()
        }
    }
}

// Says why a request was not served, and what was wrong, as far as it is known.
fn say_note<R: Runtime>(console: &Console<'_, R>, reason: Option<Reason<'_>>, note: Note) {
    console.say(note);
    if let Some(reason) = reason {
        console.say(reason);
    }
}

// What was wrong, as far as it is known.
fn reason<'a, R: Runtime>(
    console: &Console<'_, R>,
    task: &Task<'a>,
    note: Note,
    mismatch: Option<ListMismatch>,
) -> Option<Reason<'a>> {
    match note {
        Note::ProgramUnread => {
            let error = console.program_failure()?;
            Some(Reason::Failed(task.path.unwrap_or("standard input"), error))
        }
        Note::InputUnread => Some(match console.input_failure() {
            Some(error) => Reason::Failed("standard input", error),
            None => Reason::TooLong,
        }),
        Note::NoBeginning | Note::NoRun => Some(Reason::List(mismatch?)),
        _ => None,
    }
}

// Says at a terminal why a run ended before its program did, if it did.
fn say_shortage<R: Runtime>(
    console: &Console<'_, R>,
    task: &Task<'_>,
    status: u8,
    line: Option<u16>,
) {
    if !console.terminals.output || !console.terminals.errors || !is_run(&task.request.mode) {
        return;
    }
    if let Some(shortage) = shortage(task, status, line) {
        console.say_on_fresh_line(shortage);
    }
}

// Why a run with this status ended before its program did, if it did; at a limit, at this line.
fn shortage(task: &Task<'_>, status: u8, line: Option<u16>) -> Option<Shortage>
    ensures { result ≡ shortage_of (option_copied task.now.path) task.now.request.rules.limit
        status line }
{
    match status {
        4 => Some(Shortage::Commands {
            line: line?,
            limit: task.request.rules.limit,
        }),
        5 if task.path.is_some() => Some(Shortage::Lines),
        5 => Some(Shortage::LinesBesideProgram),
        6 => Some(Shortage::Answers),
        7 => Some(Shortage::LargeAnswer),
        _ => None,
    }
}

// Whether the program is run once.
fn is_run(mode: &Mode) -> bool {
    matches!(mode, Mode::Plain(_) | Mode::Seeded(_))
}
