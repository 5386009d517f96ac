// This file has the lines that go to standard error, and the status of each.

ghost use Rattle.std.specs.Prelude.{◌≡◌};
ghost use Rattle.ptb_serve.specs.declared.note.Note.TheVariants.{OutOfMemory};
ghost use Rattle.ptb_serve.specs.Messages.{note_line};
ghost use Rattle.ptb_serve.specs.ServedRequests.{device_note, load_note, reports_note};
ghost use Rattle.ptb_serve.specs.Statuses.{note_status};

use ptb_explore::ExploreFault;
use ptb_text::{DeviceFault, LoadFault};
use std::alloc::AllocError;
use std::fmt;

/// Why a request was not served, or not to its end.
#[derive(Clone, Copy, Debug, PartialEq, Eq)]
pub enum Note {
    /// The program text was refused, at this source line; at line 0 as a whole.
    Load(u32, LoadFault),
    /// The program's file could not be opened, or reading it failed.
    ProgramUnread,
    /// Reading the input failed, or it has too many bytes.
    InputUnread,
    /// No run begins with the answers of `--under`, or one of their bounds is wrong.
    NoBeginning,
    /// The answers of `--after` are no run of the listing, or one of their bounds is wrong.
    NoRun,
    /// A growth was refused memory.
    OutOfMemory,
    /// A write failed.
    Unwritten,
}

impl Note {
    /// The status that the program exits with.
    pub fn status(&self) -> u8
        ensures { result ≡ note_status self.now }
    {
        match self {
            Note::Load(..) => 65,
            Note::ProgramUnread | Note::InputUnread => 66,
            Note::NoBeginning | Note::NoRun => 67,
            Note::OutOfMemory => 71,
            Note::Unwritten => 74,
        }
    }
}

impl From<(u32, LoadFault)> for Note {
    ghost from_gives = { λ refusal note. note ≡ load_note refusal };

    fn from(refusal: (u32, LoadFault)) -> Note {
        match refusal {
            (_, LoadFault::Memory) => Note::OutOfMemory,
            (_, LoadFault::Read) => Note::ProgramUnread,
            (line, fault) => Note::Load(line, fault),
        }
    }
}

impl From<DeviceFault> for Note {
    ghost from_gives = { λ fault note. note ≡ device_note fault };

    fn from(fault: DeviceFault) -> Note {
        match fault {
            DeviceFault::Read | DeviceFault::TooLong => Note::InputUnread,
            DeviceFault::Write => Note::Unwritten,
            DeviceFault::Memory => Note::OutOfMemory,
        }
    }
}

impl From<AllocError> for Note {
    ghost from_gives = { λ _ note. note ≡ OutOfMemory };

    fn from(_refusal: AllocError) -> Note {
        Note::OutOfMemory
    }
}

impl From<ExploreFault> for Note {
    ghost from_gives = { λ fault note. note ≡ reports_note fault };

    fn from(fault: ExploreFault) -> Note {
        match fault {
            ExploreFault::Memory(_) => Note::OutOfMemory,
            ExploreFault::Write(_) => Note::Unwritten,
        }
    }
}

// Writes why a program's text was refused, and at which line where it is not the text as a whole.
fn write_refusal<W: fmt::Write>(
    line: u32,
    fault: LoadFault,
    f: &mut fmt::Formatter<W>,
) -> fmt::Result {
    if line == 0 {
        return write!(f, "ptb: {fault}");
    }
    write!(f, "ptb: line {line}: {fault}")
}

impl fmt::Display for Note {
    ghost output = { λ note. note_line note };

    fn fmt<W: fmt::Write>(&self, f: &mut fmt::Formatter<W>) -> fmt::Result {
        f.write_str(match self {
            Note::Load(line, fault) => return write_refusal(*line, *fault, f),
            Note::ProgramUnread => "ptb: cannot read the program",
            Note::InputUnread => "ptb: cannot read the input",
            Note::NoBeginning => "ptb: no run begins so",
            Note::NoRun => "ptb: not a run",
            Note::OutOfMemory => "ptb: out of memory",
            Note::Unwritten => "ptb: cannot write",
        })
    }
}
