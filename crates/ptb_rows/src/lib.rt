//! Worked rows: the results of texts, words, expressions, runs, mistakes, trees of runs, samples and
//! tables of chances (`language_rows.rt`), and those of requests and command lines (`rows.rt`), by
//! the definitions.
//!
//! It depends on `ptb_serve`, `ptb_options`, the crates below them, `clap` and `rand_pcg`. No crate
//! depends on it, so neither a build of the program nor the trial of a planted bug computes its rows.
//! They hold of the definitions; `ptb_tests` runs the code.
#![tactic(auto)]

mod language_rows;
mod rows;

pub use language_rows::{
    answer_rows, array_rows, input_rows, loading_rows, long_rows, loop_rows, mistake_rows,
    print_rows, report_rows, run_fault_rows, sampled_run_rows, step_rows, table_rows, tree_rows,
    value_rows, word_rows,
};
pub use rows::{
    after_rows, all_rows, chance_rows, check_rows, choice_rows, clash_rows, example_rows,
    fault_rows, list_rows, listing_rows, long_run_rows, option_rows, program_rows, refusal_rows,
    run_rows, sample_rows, seed_rows, share_rows, split_rows,
};
