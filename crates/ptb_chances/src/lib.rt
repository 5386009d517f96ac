//! The exact chance of each result of a program's runs.
//!
//! It depends on `ptb_machine` for the runs, on `ptb_numbers` for numbers of any size, on
//! `ptb_answers` and `ptb_text`, and on definitions of `ptb_command` and `ptb_devices`.
//! The crate above may rely on `write_chances` (a writer takes the table, or a prefix of it where it
//! fails), on `chance_laws` and on `table_laws`. What watches how far a table is counted implements
//! `Watch`.
#![tactic(auto)]

mod chances;
mod count;
mod last_line;
mod laws;
mod plan_chooser;
mod plays;
mod result_key;
mod stage;
mod table;
mod tally;
mod watch;
mod worklist;

pub use chances::write_chances;
pub use laws::{chance_laws, table_laws};
pub use watch::Watch;
