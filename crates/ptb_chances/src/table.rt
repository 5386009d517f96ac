// This file writes the table of a tally.

ghost use Rattle.std.specs.Prelude.{◌≡◌, ◌++◌, map, IfOk, OnOk};
ghost use Rattle.ptb_chances.specs.Prelude.{lowest, decimals, ratio_of, field, ratio_text, row_text, table_text};
ghost use Rattle.ptb_chances.specs.Prelude.{ResultsRise, reduced, key_result, result_text, row_of_total, total_text};

use crate::result_key::ResultKey;
use crate::tally::{ResultTotal, Tally};
use ptb_machine::ending_word;
use ptb_numbers::{LowestTerms, Natural};
use std::alloc::{AllocError, Global};

// A number of 64 bits, as one of any size.
fn natural(alloc: Global, number: u64) -> Result<Natural, AllocError>
    ensures { IfOk result (λ n. n ≡ number) }
{
    let mut natural = Natural::from_word(alloc, (number / 0x1_0000_0000) as u32)?;
    natural.multiply(0x1_0000)?;
    natural.multiply(0x1_0000)?;
    natural.add_word((number % 0x1_0000_0000) as u32)?;
    Ok(natural)
}

// Writes a fraction at the end of a text.
fn write_ratio(alloc: Global, ratio: &LowestTerms, text: &mut Vec<u8>) -> Result<(), AllocError>
    ensures { OnOk result (text.new.items ≡ text.old.items ++ ratio_text (ratio_of ratio.now)) }
{
    ratio.numerator.write_decimals(alloc, text)?;
    text.extend_from_slice(b"/")?;
    ratio.denominator.write_decimals(alloc, text)
}

// Writes a space and a number at the end of a text.
fn write_number(alloc: Global, number: &Natural, text: &mut Vec<u8>) -> Result<(), AllocError>
    ensures { OnOk result (text.new.items ≡ text.old.items ++ field (decimals number.now)) }
{
    text.extend_from_slice(b" ")?;
    number.write_decimals(alloc, text)
}

// Writes a chance in lowest terms, and a number of runs, at the end of a text.
fn write_total(alloc: Global, total: &ResultTotal, text: &mut Vec<u8>) -> Result<(), AllocError>
    ensures { OnOk result (text.new.items ≡ text.old.items ++ total_text (lowest total.now.chance)
        total.now.runs) }
{
    text.extend_from_slice(b"CHANCE ")?;
    write_ratio(alloc, &total.chance.lowest_terms(alloc)?, text)?;
    write_number(alloc, &total.runs, text)
}

// Writes a result at the end of a text.
fn write_result(alloc: Global, key: &ResultKey, text: &mut Vec<u8>) -> Result<(), AllocError>
    ensures { OnOk result (text.new.items ≡ text.old.items ++ result_text (key_result key.now)) }
{
    text.extend_from_slice(b" ")?;
    text.extend_from_slice(ending_word(key.ending))?;
    write_number(alloc, &natural(alloc, key.line.len() as u64)?, text)?;
    text.extend_from_slice(b"\n")?;
    text.extend_from_slice(&key.line)?;
    text.extend_from_slice(b"\n")
}

// Writes a row, with its chance in lowest terms, at the end of a text.
fn write_row(
    alloc: Global,
    key: &ResultKey,
    total: &ResultTotal,
    text: &mut Vec<u8>,
) -> Result<(), AllocError>
    ensures { OnOk result (text.new.items
        ≡ text.old.items ++ row_text (reduced (row_of_total (key.now, total.now)))) }
{
    write_total(alloc, total, text)?;
    write_result(alloc, key, text)
}

impl Tally {
    /// The text of the table, and the order of its rows.
    ///
    /// # Errors
    ///
    /// Where a growth was refused memory.
    pub(crate) fn text(&self, alloc: Global) -> Result<Vec<u8>, AllocError>
        ensures text { IfOk result (λ text. text.items ≡ table_text (map reduced self.now)) }
        ensures rising { ResultsRise self.now }
    {
        let mut text = Vec::new(alloc);
        for (key, total) in self.totals.iter() {
            write_row(alloc, key, total, &mut text)?;
        }
        Ok(text)
    }
}
