//! Texts of Tiny BASIC: readers and writers, and reading within a limit; words, letters, numbers and
//! quotations at a place of a text, and the cursor that finds them; the lines of a program text, and
//! the statements under their numbers.
//!
//! It depends on `itoa` and `thiserror`. The crates above may rely on `Cursor` (each call finds what
//! `specs/Words` says is at its place, and takes only that), on `finding_laws`, on `load` (the
//! statements that a text has, or which of its lines is refused first), on the look-ups of
//! `Program`, on `OutputBuffer` (a writer gets what was put into it, in this order), and on
//! `Allowance` (a reader is read within a limit, and one byte shows that it has more).
#![tactic(auto)]

mod allowance;
mod byte_buffer;
mod byte_streams;
mod cursor;
mod device;
mod device_fault;
mod fault;
mod laws;
mod letter;
mod line;
mod listing;
mod loader;
mod numerals;
mod output_buffer;
mod program;
mod program_edits;
mod spelling;
mod word;
mod word_laws;

pub use allowance::{Allowance, Piece};
pub use byte_buffer::ByteBuffer;
pub use byte_streams::{ByteSink, ByteSource};
pub use cursor::Cursor;
pub use device::{Device, Read, Write};
pub use device_fault::DeviceFault;
pub use fault::LoadFault;
pub use laws::statement_laws;
pub use letter::Letter;
pub use listing::list;
pub use loader::{load, split_line};
pub use output_buffer::OutputBuffer;
pub use program::Program;
pub use word::{Number, Quoted, Table, Word};
pub use word_laws::finding_laws;
