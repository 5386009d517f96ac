//! The answers to RND: the choosers that give them, the rules of a run, and how lists of answers are
//! written.
//!
//! It depends on `rand_core` and `rand_pcg` for the answers of a seed, and on `thiserror`. The crates
//! above may rely on the laws of `Chooser` (an answer is one to its question, and what was given
//! grows by it), on `Listed` (the answers of a list, in order), on `Seeded`, whose answers are those
//! of `specs/Seeds`, and on what the command line and the machine share: the `Rules` of a run, and how
//! lists of answers are written (`Form`, `Marked` and `specs/AnswerText`), or kept (`Asked`, its views
//! `Answers` and `Bounds`, and `specs/AskedQuestions`).
#![tactic(auto)]

mod answers;
mod asked;
mod bounds;
mod chooser;
mod form;
mod pause;
mod rules;
mod seeded;

pub use answers::Answers;
pub use asked::Asked;
pub use bounds::Bounds;
pub use chooser::{Chooser, Listed};
pub use form::{Form, Marked};
pub use pause::Pause;
pub use rules::Rules;
pub use seeded::Seeded;
