// This file has the tally, which adds up the chances of each result.

ghost use Rattle.std.specs.Prelude.{◌≡◌, ◌+◌, ◌<◌, [], Option, None, Some, OnOk, IfOk};
ghost use Rattle.ptb_numbers.specs.Fractions.{Equals, Ratio, plus};
ghost use Rattle.ptb_chances.specs.Accounts.{AddsRow};
ghost use Rattle.ptb_chances.specs.Keys.{key_result, Joins};

use crate::result_key::ResultKey;
use ptb_numbers::{Fraction, Natural};
use std::alloc::{AllocError, Global};
use std::collections::BTreeMap;
use std::marker::Model;

/// The sum of the chances of some runs, and how many they are.
#[derive(Drop)]
pub(crate) struct ResultTotal {
    pub(crate) chance: Fraction,
    pub(crate) runs: Natural,
}

/// What some runs result in, with the chance of each result.
#[derive(Drop)]
pub(crate) struct Tally {
    pub(crate) totals: BTreeMap<ResultKey, ResultTotal>,
}

impl Model for Tally {
    ghost use Rattle.std.specs.Prelude.{List};
    ghost use Rattle.ptb_chances.specs.Chances.{Row};
    ghost use Rattle.ptb_chances.specs.Keys.{rows_of};

    ghost Value = { List Row };

    ghost view = { λ t. rows_of t.totals.entries };
}

// A total with a chance and a number of runs more, or one that has these alone.
fn joined_total(
    alloc: Global,
    old: Option<ResultTotal>,
    chance: &Fraction,
    runs: &Natural,
) -> Result<ResultTotal, AllocError>
    ensures { IfOk result (λ total. Joins old chance.now runs.now total) }
{
    match old {
        None => Ok(ResultTotal {
            chance: chance.copy(alloc)?,
            runs: runs.copy(alloc)?,
        }),
        Some(mut total) => {
            total.chance.add(alloc, chance)?;
            total.runs.add(runs)?;
            Ok(total)
        }
    }
}

impl Tally {
    /// A tally of no runs.
    pub(crate) fn new(alloc: Global) -> Tally
        ensures { result ≡ [] }
    {
        Tally {
            totals: BTreeMap::new(alloc),
        }
    }

    /// Adds a number of runs with this result, whose chances add up to this chance.
    ///
    /// # Errors
    ///
    /// Where a growth was refused memory.
    pub(crate) fn add(
        &mut self,
        alloc: Global,
        key: ResultKey,
        chance: &Fraction,
        runs: &Natural,
    ) -> Result<(), AllocError>
        ensures { OnOk result (AddsRow self.old (record {
          result = key_result key;
          chance = chance.now;
          runs = runs.now;
        }) self.new) }
    {
        let old = self.totals.remove(&key);
        let total = joined_total(alloc, old, chance, runs)?;
        self.totals.insert(key, total)?;
        Ok(())
    }

    /// How many billionths of the chance of all runs these runs have, each result rounded down.
    ///
    /// # Errors
    ///
    /// Where a growth was refused memory.
    pub(crate) fn billionths(&self, alloc: Global) -> Result<u32, AllocError> {
        let mut sum: u32 = 0;
        for (_, total) in self.totals.iter() {
            let part = total.chance.rounded_product(alloc, 1_000_000_000)?;
            // No chance is greater than 1, so the part is a word: it is its own remainder.
            sum = sum.saturating_add(part.remainder(u32::MAX));
        }
        Ok(sum)
    }
}
