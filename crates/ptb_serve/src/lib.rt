//! How a request is served: a run of a program, a listing of its runs, of their chances, of its text,
//! or of the mistakes in its text.
//!
//! It depends on `ptb_options`, `ptb_chances`, `ptb_explore`, `ptb_check`, `ptb_machine`,
//! `ptb_answers` and `ptb_text`, and on definitions of `ptb_command` and `ptb_devices`. The crate
//! above may rely on `serve` (bytes, status and note are those of `specs/Replies`, or the note
//! says what failed: `specs/Promises`), on `FlushingWriter` (a writer whose bytes are those of its
//! inner writer, which it flushes) and on `reply_laws`.
#![tactic(auto)]

mod all_runs;
mod attempt;
mod chances;
mod flushing_writer;
mod laws;
mod list_mismatch;
mod mistakes;
mod note;
mod sample;
mod service;
mod shares;
mod text;

pub use flushing_writer::FlushingWriter;
pub use laws::reply_laws;
pub use list_mismatch::ListMismatch;
pub use note::Note;
pub use ptb_chances::Watch;
// No crate of the program imports these two from here: they are for users of the library who serve no request.
pub use ptb_machine::{run_plain, run_seeded};
pub use service::{Outcome, serve};
