// This file has the standard streams as the program uses them, and what is noted while they are
// read and written.

ghost use Rattle.std.specs.Prelude.{◌≡◌};
ghost use Rattle.std.specs.Result.{result_map_both};
ghost use Rattle.std.specs.IoError.{error_kind};
ghost use Rattle.ptb_text.specs.Device.{device_inner};
ghost use Rattle.ptb.specs.Sources.{MayOpen, open_note, kept_inner};

use crate::progress::{ProgressLine, Progressing, Shown};
use crate::readers::{ErrorKeeping, Source};
use crate::task::Programs;
use crate::terminal::{Keyboard, TerminalWriter, Terminals, Typed};
use ptb_serve::{FlushingWriter, Note};
use ptb_text::Device;
use std::cell::Cell;
use std::fmt::Display;
use std::fs;
use std::io::{self, Printer};
use std::rt::{Files, Runtime};

/// What is noted while a request is served.
#[derive(Drop)]
pub struct Events {
    // What the terminal has shown of the line that is typed.
    typed: Cell<Typed>,
    // Whether standard output is at the start of a line.
    fresh: Cell<bool>,
    // What is shown of the progress.
    progress: Cell<Shown>,
    // Why the program's text could not be read.
    program_failed: Cell<Option<io::Error>>,
    // Why the input could not be read.
    input_failed: Cell<Option<io::Error>>,
}

impl Events {
    /// Before anything is read or written.
    pub fn new() -> Events {
        Events {
            typed: Cell::new(Typed::Unnoticed),
            fresh: Cell::new(true),
            progress: Cell::new(Shown::nothing()),
            program_failed: Cell::new(None),
            input_failed: Cell::new(None),
        }
    }
}

/// The runtime, with what is known of its streams.
#[derive(Drop)]
pub struct Console<'a, R> {
    rt: &'a R,
    /// Which streams are terminals.
    pub terminals: Terminals,
    events: &'a Events,
}

/// The lines that INPUT reads.
pub type InputLines<'a, R> = Device<ErrorKeeping<'a, Keyboard<'a, <R as Input>::Reader>>>;

/// The text of a program.
pub type ProgramText<'a, R> = Device<
    ErrorKeeping<'a, Source<<R as Files>::File, <R as Input>::Reader>>,
>;

/// What a request writes to.
pub type ReplyWriter<'a, R> = Progressing<
    'a,
    R,
    FlushingWriter<TerminalWriter<'a, Printer<'a, R>>>,
>;

impl<'a, R: Runtime> Console<'a, R> {
    /// The console of a runtime.
    pub fn new(rt: &'a R, terminals: Terminals, events: &'a Events) -> Self
        ensures { result.terminals ≡ terminals }
    {
        Console {
            rt,
            terminals,
            events,
        }
    }

    /// The runtime.
    pub fn runtime(&self) -> &'a R {
        self.rt
    }

    // Where typed lines are noted: with both streams terminals, what is typed is shown there.
    fn typed(&self) -> Option<&'a Cell<Typed>> {
        if self.terminals.input && self.terminals.output {
            Some(&self.events.typed)
        } else {
            None
        }
    }

    /// The lines of standard input.
    pub fn input(&self) -> InputLines<'a, R> {
        let keyboard = Keyboard::new(self.rt.reader(), self.typed());
        Device::new(ErrorKeeping::new(keyboard, &self.events.input_failed))
    }

    /// The files that are programs, and standard input.
    pub fn programs(&self) -> ProgramFiles<'a, R> {
        ProgramFiles {
            rt: self.rt,
            failed: &self.events.program_failed,
        }
    }

    // The line that shows progress, where standard error is a terminal.
    fn progress_line(&self) -> ProgressLine<'a, R> {
        let shown = if self.terminals.errors {
            Some(&self.events.progress)
        } else {
            None
        };
        ProgressLine::new(self.rt, shown)
    }

    /// Standard output.
    pub fn output(&self) -> ReplyWriter<'a, R> {
        let screen = TerminalWriter::new(io::writer(self.rt), self.typed(), &self.events.fresh);
        Progressing::new(FlushingWriter::new(screen), self.progress_line())
    }

    /// From now on leaves out the echo of typed lines, where standard input and output are
    /// terminals.
    pub fn leave_out_echo(&self) {
        self.events.typed.set(Typed::Nothing);
    }

    /// Prints a line to standard error, instead of one that shows progress. If that fails, the
    /// status is all that is left.
    pub fn say<D: Display + Drop>(&self, line: D) {
        self.progress_line().clear();
        let _ = self.rt.eprintln(line);
    }

    /// Prints a line to standard error, at the start of a line where standard output is the same
    /// terminal.
    pub fn say_on_fresh_line<D: Display + Drop>(&self, line: D) {
        if !self.events.fresh.get() {
            self.say("");
        }
        self.say(line);
    }

    /// Why the program's text could not be read, where a read failed.
    pub fn program_failure(&self) -> Option<io::Error> {
        self.events.program_failed.get()
    }

    /// Why the input could not be read, where a read failed.
    pub fn input_failure(&self) -> Option<io::Error> {
        self.events.input_failed.get()
    }
}

/// Where programs are opened: among the files, or on standard input.
#[derive(Drop)]
pub struct ProgramFiles<'a, R> {
    rt: &'a R,
    failed: &'a Cell<Option<io::Error>>,
}

impl<'a, R: Runtime> Programs<ProgramText<'a, R>> for ProgramFiles<'a, R> {
    // Nobody knows what is in a file, and whether it can be opened.
    ghost opens = { λ files path opened later. MayOpen path
        (result_map_both (λ text. kept_inner (device_inner text)) (λ note. note) opened) };

    fn open(&mut self, path: Option<&str>) -> Result<ProgramText<'a, R>, Note> {
        let source = match path {
            Some(path) => Source::File(opened_file(fs::open(self.rt, path), self.failed)?),
            None => Source::Input(self.rt.reader()),
        };
        Ok(Device::new(ErrorKeeping::new(source, self.failed)))
    }
}

// A file that was opened, or the note of one that can't be. The error is kept.
fn opened_file<F>(opened: io::Result<F>, failed: &Cell<Option<io::Error>>) -> Result<F, Note>
    ensures { result ≡ result_map_both (λ file. file) (λ error. open_note (error_kind error))
        opened }
{
    match opened {
        Ok(file) => Ok(file),
        Err(error) => {
            failed.set(Some(error));
            Err(open_note(&error))
        }
    }
}

// The note of a file that can't be opened.
fn open_note(error: &io::Error) -> Note
    ensures { result ≡ open_note (error_kind error.now) }
{
    match error.kind() {
        io::ErrorKind::OutOfMemory => Note::OutOfMemory,
        _ => Note::ProgramUnread,
    }
}
