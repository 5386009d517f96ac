//! The mistakes in the text of a program, which a run meets only if it reaches them.
//!
//! It depends on `ptb_machine`, `ptb_expr`, `ptb_text` and `itoa`, and on definitions of
//! `ptb_command` and `ptb_answers`. The crate above may rely on `write_mistakes` (what
//! is written for the mistakes of `specs/Mistakes`), and on `check_laws` (a run that ends with a fault
//! ends at a command that has no mistake, or one of these).
#![tactic(auto)]

mod laws;
mod mistake;
mod writer;

pub use laws::check_laws;
pub use writer::write_mistakes;
