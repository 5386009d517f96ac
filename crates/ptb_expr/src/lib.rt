//! Expressions of Tiny BASIC: the store of variables and array, and expressions, which are read
//! (`reader.rt`). They are evaluated while they are read, or read into steps, which are run
//! (`step_runner.rt`).
//!
//! It depends on `ptb_text` and `ptb_answers`. The crate above may rely on `evaluate` and `target`:
//! whoever answers, their result is the one that `specs/Value` gives the tree that `specs/Spells`
//! reads at the cursor, a value, a fault with its mark or a question. What is evaluated often is
//! read once, by `read_value` and `read_variable`; `run_steps` runs the steps, and `plain_value`
//! runs those that ask nothing and have a value; `single_value` is for one step. A `ShortValue` has
//! the value of a few steps without a loop over them. The crate re-exports the choosers of
//! `ptb_answers`.
#![tactic(auto)]

mod builder;
mod evaluator;
mod fault;
mod laws;
mod operator;
mod plain_values;
mod reader;
mod saved_store;
mod short_value;
mod step;
mod step_builder;
mod step_runner;
mod stop_report;
mod store;
mod translation;
mod value_builder;
mod values;

pub use evaluator::{evaluate, target};
pub use fault::{Fault, FaultKind, Stop};
pub use laws::{code_laws, mark_laws, spelling_laws, value_laws};
pub use operator::Operator;
pub use plain_values::{plain_value, single_value};
// No crate of the program imports these from here: they are for users of the library who evaluate expressions.
pub use ptb_answers::{Chooser, Listed, Pause, Seeded};
pub use saved_store::SavedStore;
pub use short_value::ShortValue;
pub use step::{Step, Steps};
pub use step_runner::{answer_to, run_steps};
pub use store::{Store, Target};
pub use translation::{VariableRead, read_value, read_variable};
