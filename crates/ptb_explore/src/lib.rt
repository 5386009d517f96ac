//! All runs of a Tiny BASIC program, in the order of their answers, and their reports: what a run took,
//! how it ended, and what it showed.
//!
//! It depends on `ptb_machine`, on definitions of `ptb_command` and `ptb_devices`, on
//! `ptb_answers`, `ptb_text`, `arrayvec`, `itoa` and `thiserror`, and on a definition of `rand_pcg`.
//! The crate above may rely on `Explorer::start`, `after` and
//! `after_marked` (where a listing begins, or why the answers are no run), on `under` (the same for
//! the runs that begin with a list of answers), on `go_to` (the run to which an explorer moves), on
//! `write_all_runs` (the reports of the runs that are left), on `Beginnings::start` and
//! `write_beginnings` (the lists of answers that split the runs), on `write_sample` (the reports of
//! the runs that a seed draws), on `ReportWriter::write` (a writer takes the text of
//! `specs/ReportText`, or a prefix of it where it fails), and on `program_laws`.
#![tactic(auto)]

mod beginning_search;
mod beginnings;
mod copies;
mod explorer;
mod fault;
mod item_lists;
mod kept_items;
mod laws;
mod listing;
mod mismatch;
mod next_report;
mod opening;
mod plan;
mod plays;
mod recorder;
mod report;
mod report_text;
mod report_writer;
mod runner;
mod sampler;

pub use beginnings::{Beginnings, write_beginnings};
pub use explorer::Explorer;
pub use fault::{ExploreFault, OpenFault};
pub use laws::{
    beginning_laws, listing_laws, program_laws, report_laws, sample_laws, share_laws, tree_laws,
};
pub use listing::write_all_runs;
pub use mismatch::{Mismatch, mismatch_laws};
pub use ptb_answers::{Answers, Asked, Bounds, Form, Marked};
pub use report::Report;
pub use report_text::Parts;
pub use report_writer::ReportWriter;
pub use sampler::{Sample, write_sample};
