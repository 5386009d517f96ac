//! The commands of Tiny BASIC: how they are read, and what they do. A command is read once into code
//! (`translation.rt`, `operation.rt`, `command_code.rt`). The places at which the commands of a program
//! begin are found in its text (`statement_places.rt`, `command_finder.rt`). The code of a command is
//! executed (`execution.rt`): it changes the store, the loops and calls that are open (`stack.rt`), and
//! the place, and it shows, takes and asks.
//!
//! It depends on `ptb_devices`, `ptb_expr`, `ptb_answers`, `ptb_text`, `arrayvec` and `itoa`. The crate
//! above may rely on `translate` (the code is that of the parts that `specs/Commands` reads), on
//! `next_command` and `start_of` (places are those of `specs/State`), on `command_laws` (how the parts of
//! a command and the commands of a statement follow one another), on `Stack` (what is open, newest
//! first), on `SavedRegisters` (registers in little memory), and on `Registers::execute`: a command does
//! by its code what `specs/Act` says, or stops where that does. It may also rely on the parts of commands
//! of which its short forms are made, `own_value` (the value of an expression that asks nothing),
//! `place_after_condition` (where a run continues after an IF) and `end_newest_turn` (what a NEXT does
//! to the newest loop), and on those of a report, `fault_line` (the line that names a fault) and
//! `put_fault` (shows this line and what comes after it).
#![tactic(auto)]

mod command_code;
mod command_finder;
mod command_io;
mod command_order;
mod command_word;
mod ending;
mod execution;
mod fault_words;
mod location;
mod operation;
mod pending_output;
mod registers;
mod saved_registers;
mod saved_stack;
mod stack;
mod statement_places;
mod stop;
mod transcript;
mod translation;

pub use command_code::CommandCode;
pub use command_finder::next_command;
pub use command_io::CommandIo;
pub use command_order::command_laws;
pub use ending::Ending;
pub use execution::context::Context;
pub use execution::jumps::place_after_condition;
pub use execution::loop_turns::end_newest_turn;
pub use execution::plain_values::own_value;
pub use execution::print::Output;
pub use fault_words::{fault_line, put_fault};
pub use location::Location;
pub use operation::{Destination, Expression, Literal, Operation, Prompt, Range};
pub use registers::Registers;
pub use saved_registers::SavedRegisters;
pub use stack::{OpenLoop, Stack};
pub use statement_places::{line_at, start_of};
pub use stop::CommandStop;
pub use translation::translate;
