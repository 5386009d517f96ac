//! What the arguments of the command line ask for.
//!
//! It uses `ptb_answers` (the rules of a run, the forms of reports, and how lists of answers are
//! written), a definition of `ptb_text`, `clap` and `thiserror`. The crates above may rely on `parse`
//! (what clap finds in the arguments, or its error), on `decide` (the request that the options make,
//! or their first fault), and on `misspelled_list` and `wrong_number` (which value is at fault).
#![tactic(auto)]

mod answers;
mod command_line;
mod decision;
mod given_options;
mod help;
mod items;
mod mistakes;
mod request;
mod usage;
mod wrong_numbers;

pub use answers::{ItemList, MarkedAnswers, PlainAnswers};
pub use command_line::{parse, refusal_status};
pub use decision::{decide, misspelled_list};
pub use mistakes::{ItemMistake, ListMistake, ListOption, MisspelledList};
pub use request::{Mode, Request};
pub use usage::UsageFault;
pub use wrong_numbers::{NumberOption, WrongNumber, wrong_number};
