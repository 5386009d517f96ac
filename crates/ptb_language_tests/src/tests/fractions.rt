// This file tests fractions: sums of products of 1/bound, in lowest terms.

use crate::tests::decimals::is_written;
use crate::tests::shared::{Row, expect_rows, expect_same, table};
use ptb_numbers::Fraction;
use std::alloc::{AllocError, Global};

// A step of a calculation with a fraction.
enum Step {
    // The chance of a run with these bounds is added: 1 over their product.
    Plus(&'static [u32]),
    // It is divided by these words.
    Over(&'static [u32]),
    // The steps that follow are done with a copy.
    Copied,
    // Its numerator and its denominator in lowest terms.
    Is(&'static str, &'static str),
    // A word, and the product with it, rounded down.
    Product(u32, &'static str),
}

// The steps from 1 on.
struct Calculation(&'static [Step]);

// Divides by each word, and once more where memory was refused: the fraction is then as it was.
fn divide(fraction: &mut Fraction, words: &[u32]) -> Result<(), AllocError> {
    for &word in words {
        if word > 0 && fraction.divide(word).is_err() {
            fraction.divide(word)?;
        }
    }
    Ok(())
}

// Adds a chance, and once more where memory was refused: the fraction is then as it was.
fn add(alloc: Global, fraction: &mut Fraction, words: &[u32]) -> Result<(), AllocError> {
    let mut chance = Fraction::one(alloc)?;
    divide(&mut chance, words)?;
    if fraction.add(alloc, &chance).is_ok() {
        return Ok(());
    }
    fraction.add(alloc, &chance)
}

// Whether a fraction has this numerator and this denominator in lowest terms.
fn is_fraction(
    alloc: Global,
    fraction: &Fraction,
    numerator: &str,
    denominator: &str,
) -> Result<bool, AllocError> {
    let lowest = fraction.lowest_terms(alloc)?;
    Ok(
        is_written(alloc, &lowest.numerator, numerator)?
            && is_written(alloc, &lowest.denominator, denominator)?,
    )
}

// Does a step, and says whether its answer is right.
fn is_done(alloc: Global, fraction: &mut Fraction, step: &Step) -> Result<bool, AllocError> {
    match step {
        Step::Plus(words) => add(alloc, fraction, words)?,
        Step::Over(words) => divide(fraction, words)?,
        Step::Copied => *fraction = fraction.copy(alloc)?,
        Step::Is(numerator, denominator) => {
            return is_fraction(alloc, fraction, numerator, denominator);
        }
        Step::Product(word, wanted) => {
            return is_written(alloc, &fraction.rounded_product(alloc, *word)?, wanted);
        }
    }
    Ok(true)
}

impl Calculation {
    // Whether all answers are right.
    fn is_right(&self, alloc: Global) -> Result<bool, AllocError> {
        let mut fraction = Fraction::one(alloc)?;
        for step in self.0 {
            if !is_done(alloc, &mut fraction, step)? {
                return Ok(false);
            }
        }
        Ok(true)
    }
}

impl Row<Global> for Calculation {
    fn holds(&self, alloc: &Global) -> bool {
        matches!(self.is_right(*alloc), Ok(true))
    }
}

// A chance, other chances that are added to it, and the sum.
const SUMS: &[Calculation] = table! { Calculation:
    (&[Step::Is("1", "1")]),
    (&[Step::Over(&[2]), Step::Is("1", "2")]),
    (&[Step::Over(&[2]), Step::Plus(&[2]), Step::Is("1", "1")]),
    (&[Step::Over(&[2, 2]), Step::Plus(&[2, 3]), Step::Plus(&[2, 3]), Step::Is("7", "12")]),
    (&[Step::Over(&[6, 6]), Step::Plus(&[36]), Step::Plus(&[6]), Step::Is("2", "9")]),
    (&[Step::Over(&[6, 6, 6]), Step::Plus(&[36, 36]), Step::Plus(&[4]), Step::Is("331", "1296")]),
    (&[Step::Over(&[32767, 32767]), Step::Plus(&[32766]), Step::Is("1073709055", "35180077285374")]),
    (&[Step::Over(&[2; 64]), Step::Plus(&[2; 64]), Step::Plus(&[2; 64]), Step::Is("3", "18446744073709551616")]),
    (&[Step::Over(&[52, 51, 50]), Step::Plus(&[51, 52, 50]), Step::Plus(&[13, 17]), Step::Is("301", "66300")]),
    (&[Step::Over(&[1, 1]), Step::Plus(&[2, 2, 1]), Step::Is("5", "4")]),
    (&[Step::Over(&[4]), Step::Copied, Step::Is("1", "4")]),
};

const PRODUCTS: &[Calculation] = table! { Calculation:
    (&[Step::Product(0, "0")]),
    (&[Step::Product(1_000_000_000, "1000000000")]),
    (&[Step::Over(&[3]), Step::Product(1_000_000_000, "333333333")]),
    (&[Step::Over(&[3, 7]), Step::Product(41, "1")]),
    (&[Step::Over(&[3, 7]), Step::Product(42, "2")]),
    (&[Step::Over(&[6, 6]), Step::Product(35, "0")]),
    (&[Step::Over(&[2; 31]), Step::Product(4_294_967_295, "1")]),
    (&[Step::Over(&[2; 64]), Step::Product(4_294_967_295, "0")]),
};

// It is divided and added to, and memory may be refused.
const GROWTH: Calculation = Calculation(&[
    Step::Over(&[2, 3, 7]),
    Step::Plus(&[5]),
    Step::Is("47", "210"),
]);

#[test]
fn fractions_with_ample_memory(rt: HostRuntime) {
    let alloc = rt.alloc();
    expect_rows(&rt, "sums in lowest terms", &alloc, SUMS);
    expect_rows(&rt, "products are rounded down", &alloc, PRODUCTS);
    expect_rows(&rt, "a growth", &alloc, &[GROWTH]);
}

// Passes whichever of its allocations is refused.
#[test]
fn refused_products(rt: HostRuntime) {
    for calculation in PRODUCTS {
        let is_wrong = matches!(calculation.is_right(rt.alloc()), Ok(false));
        expect_same(&rt, "a product is wrong", is_wrong, false);
    }
}

// Passes whichever of its allocations is refused.
#[test]
fn refused_fractions(rt: HostRuntime) {
    let is_wrong = matches!(GROWTH.is_right(rt.alloc()), Ok(false));
    expect_same(&rt, "a growth is wrong", is_wrong, false);
}
