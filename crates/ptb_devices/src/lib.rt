//! What a run shows its bytes on, and where its input lines come from.
//!
//! It depends on `ptb_text` and `arrayvec`. The crate above may rely on the contracts of `Screen`
//! (bytes are shown in order, all of them or a fault) and `LineSource` (lines are given in order, each
//! once; by `take_ready` only lines that need not be waited for), which the screens, `Lines` and
//! `ReaderLines` here keep, and on `read_lines` (the lines of an input, cleaned and cut).
//! `ReaderLines` gives them while it reads the input.
#![tactic(auto)]

mod cutter;
mod line_buffer;
mod lines;
mod reader_lines;
mod screen;
mod whole_input;

pub use lines::{Line, LineSource, Lines};
pub use reader_lines::ReaderLines;
pub use screen::{Screen, TextScreen, WriterScreen};
pub use whole_input::{INPUT_LIMIT, read_lines};
