// This file tests the notes: the line of each, and its status.

use crate::tests::shared::{Row, expect_rows, table};
use ptb_serve::Note;
use ptb_text::LoadFault;
use std::alloc::Global;

// A note, its status, and its line.
struct Said(Note, u8, &'static str);

const NOTES: &[Said] = table! { Said:
    (Note::Load(1, LoadFault::NoNumber), 65, "ptb: line 1: no statement number"),
    (Note::Load(1, LoadFault::NumberTooBig), 65, "ptb: line 1: number too big"),
    (Note::Load(12, LoadFault::TextTooLong), 65, "ptb: line 12: text too long"),
    (Note::Load(1, LoadFault::BadByte(6)), 65, "ptb: line 1: bad byte at 6"),
    (Note::Load(11, LoadFault::Full), 65, "ptb: line 11: program full"),
    (Note::Load(0, LoadFault::TooLong), 65, "ptb: program too long"),
    (Note::ProgramUnread, 66, "ptb: cannot read the program"),
    (Note::InputUnread, 66, "ptb: cannot read the input"),
    (Note::NoBeginning, 67, "ptb: no run begins so"),
    (Note::NoRun, 67, "ptb: not a run"),
    (Note::OutOfMemory, 71, "ptb: out of memory"),
    (Note::Unwritten, 74, "ptb: cannot write"),
};

impl Row<Global> for Said {
    fn holds(&self, alloc: &Global) -> bool {
        match self.0.to_string(*alloc) {
            Ok(text) => text.as_str() == self.2 && self.0.status() == self.1,
            Err(_) => false,
        }
    }
}

#[test]
fn notes(rt: HostRuntime) {
    expect_rows(&rt, "notes", &rt.alloc(), NOTES);
}
