//! Tests of the parts of the tool, over their public names: the explorer and its reports, tables of
//! chances, the command line, runs, notes, and the writer of standard output; and of `serve`, over
//! readers and writers that move few bytes, fail, or never end.
//!
//! It depends on the libraries of the tool, on `clap`, and on `rand_core` and `rand_pcg`, which have
//! the generator of a seed. No crate depends on it: a crate with tests is proved once more together
//! with them, so these are kept apart from what they test.
#![tactic(auto)]

#[cfg(test)]
mod tests;
