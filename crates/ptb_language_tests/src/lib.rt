//! Tests of texts and expressions of the language, over their public names: loading, entering and
//! listing, the cursor, and the results of expressions; of reports as they are written; of the buffer
//! before a writer; and of natural numbers and fractions, whose expected values are from Python's
//! integers and fractions.
//!
//! It depends on `ptb_text`, `ptb_expr`, `ptb_explore` and `ptb_numbers`, and on `rand_core` and
//! `rand_pcg` for the words that a seed draws. No crate depends on it: a crate with tests is proved
//! once more together with them, so these are kept apart from what they test.
#![tactic(auto)]

#[cfg(test)]
mod tests;
