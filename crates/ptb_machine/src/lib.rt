//! The machine of Tiny BASIC. The code of a program is made before it is run
//! (`program_translation.rt`). A step is one command, done by this code; a run is all steps, and a
//! program that is played once is a run over a reader and a writer. Commands that have short forms
//! are done one after the other by them (`short_forms/short_run.rt`).
//!
//! It depends on `ptb_command`, `ptb_devices`, `ptb_expr`, `ptb_answers`, `ptb_text`,
//! `itoa`, `thiserror` and `rand_pcg`. The crate above may rely on `Machine::step` (one
//! turn of `specs/Play`: the state after it, what it shows, the lines and answers it takes), on
//! `Player::step` (the same by the code of the program; it reads the text of a command only if the
//! command has no code), on `Player::advance` (some turns that touch no device), on `run` (all
//! turns), on `run_plain` and `run_seeded` (a run with a list of answers, or with those of a seed: its
//! bytes and its ending, what is read of its input, and which fault it was), on `run_plain_to_end` and
//! `run_seeded_to_end` (the same, and the line at which a limit stopped the run), on `seeded_laws`
//! (what a seed draws), on `SavedMachine` (where a machine is, in little memory, to which it can be
//! restored), on `run_laws` (answers are taken one by one, a limited number of them), on
//! `memory_refusal` (the one fault of a run whose bytes and lines are in memory), and on what it
//! re-exports of the crates below.
#![tactic(auto)]

mod complete_run;
mod ending_words;
mod fault;
mod fault_report;
mod laws;
mod machine;
mod memory_note;
mod plain_run;
mod player;
mod program_code;
mod program_translation;
mod run_end;
mod saved_machine;
mod short_forms;
mod stop_result;

pub use complete_run::run;
pub use ending_words::ending_word;
pub use fault::{RunFault, memory_refusal};
pub use fault_report::report_fault;
pub use laws::{effect_laws, ending_laws, run_laws, seeded_laws};
pub use machine::Machine;
pub use plain_run::{run_plain, run_plain_to_end, run_seeded, run_seeded_to_end};
pub use player::Player;
pub use program_code::ProgramCode;
pub use ptb_answers::Rules;
pub use ptb_command::{
    CommandCode, Destination, Ending, Operation, command_laws, fault_line, line_at, start_of,
    translate,
};
pub use ptb_devices::{Line, Lines, TextScreen, read_lines};
// No crate of the program imports these: they are for users of the library who run programs on devices of their
// own.
pub use ptb_devices::{LineSource, ReaderLines, Screen, WriterScreen};
pub use run_end::RunEnd;
pub use saved_machine::SavedMachine;
