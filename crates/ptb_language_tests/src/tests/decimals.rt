// This file has what the tests of numbers use: numbers as texts.

use ptb_numbers::Natural;
use std::alloc::{AllocError, Global};

// Whether a text has these decimals after it once the number is written.
fn is_appended(alloc: Global, number: &Natural, wanted: &str) -> Result<bool, AllocError> {
    let mut text = Vec::from_slice(alloc, b"CHANCE ")?;
    number.write_decimals(alloc, &mut text)?;
    Ok(text.as_slice().strip_prefix(b"CHANCE ") == Some(wanted.as_bytes()))
}

/// Whether a number and its copy have these decimals, which are written after a text.
pub(crate) fn is_written(
    alloc: Global,
    number: &Natural,
    wanted: &str,
) -> Result<bool, AllocError> {
    let copy = number.copy(alloc)?;
    Ok(is_appended(alloc, number, wanted)? && is_appended(alloc, &copy, wanted)?)
}
