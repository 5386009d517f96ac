// This file tests natural numbers: sums, products, quotients and their decimals.

use crate::tests::decimals::is_written;
use crate::tests::shared::{Row, expect_rows, expect_same, table};
use ptb_numbers::Natural;
use std::alloc::{AllocError, Global};

// A step of a calculation with a number and another one.
enum Step {
    // Multiplied by a word, so many times.
    Times(u32, u32),
    // A word is added.
    Plus(u32),
    // So many times, the other number is added and the two change places.
    Fibonacci(u32),
    // The two change places.
    Exchanged,
    // Divided by a word, and the remainder, which is also asked for before.
    Divided(u32, u32),
    // A word, and the greatest common divisor of both.
    Divisor(u32, u32),
    IsZero(bool),
}

// The steps from 1 on, with 0 as the other number, and the decimals of the number then.
struct Calculation(&'static [Step], &'static str);

fn multiply(number: &mut Natural, word: u32, times: u32) -> Result<(), AllocError> {
    for _ in 0..times {
        number.multiply(word)?;
    }
    Ok(())
}

fn fibonacci(number: &mut Natural, other: &mut Natural, times: u32) -> Result<(), AllocError> {
    for _ in 0..times {
        other.add(number)?;
        std::mem::swap(number, other);
    }
    Ok(())
}

// Changes the numbers by a step.
fn change(number: &mut Natural, other: &mut Natural, step: &Step) -> Result<(), AllocError> {
    match step {
        Step::Times(word, times) => multiply(number, *word, *times),
        Step::Plus(word) => number.add_word(*word),
        Step::Fibonacci(times) => fibonacci(number, other, *times),
        Step::Exchanged => {
            std::mem::swap(number, other);
            Ok(())
        }
        _ => Ok(()),
    }
}

// Whether a step that asks something has this answer.
fn answers(number: &mut Natural, step: &Step) -> bool {
    match step {
        Step::Divided(word, rest) if *word > 0 => {
            number.remainder(*word) == *rest && number.divide(*word) == *rest
        }
        Step::Divisor(word, wanted) if *word > 0 => number.common_divisor(*word) == *wanted,
        Step::IsZero(wanted) => number.is_zero() == *wanted,
        Step::Divided(..) | Step::Divisor(..) => false,
        _ => true,
    }
}

// Whether the steps have their answers, and the number its decimals.
fn is_so(
    alloc: Global,
    number: &mut Natural,
    other: &mut Natural,
    calculation: &Calculation,
) -> Result<bool, AllocError> {
    for step in calculation.0 {
        change(number, other, step)?;
        if !answers(number, step) {
            return Ok(false);
        }
    }
    is_written(alloc, number, calculation.1)
}

impl Row<Global> for Calculation {
    fn holds(&self, alloc: &Global) -> bool {
        let Ok(mut other) = Natural::from_word(*alloc, 0) else {
            return false;
        };
        match Natural::from_word(*alloc, 1) {
            Ok(mut number) => matches!(is_so(*alloc, &mut number, &mut other, self), Ok(true)),
            Err(_) => false,
        }
    }
}

// A word is a factor so often.
const POWERS: &[Calculation] = table! { Calculation:
    (&[Step::Times(0, 0)], "1"),
    (&[Step::Times(0, 1)], "0"),
    (&[Step::Times(7, 1)], "7"),
    (&[Step::Times(10, 9)], "1000000000"),
    (&[Step::Times(10, 27)], "1000000000000000000000000000"),
    (&[Step::Times(2, 32)], "4294967296"),
    (&[Step::Times(2, 64)], "18446744073709551616"),
    (&[Step::Times(2, 100)], "1267650600228229401496703205376"),
    (&[Step::Times(2, 200)], "1606938044258990275541962092341162602522202993782792835301376"),
    (&[Step::Times(6, 40)], "13367494538843734067838845976576"),
    (&[Step::Times(4_294_967_295, 4)], "340282366604025813516997721482669850625"),
    (&[Step::Times(32767, 20)],
     "2035793028633610800531729308038206330801905537538455803203973609054022273724384243833241601"),
    (&[Step::Times(10, 10)], "10000000000"),
};

// Each number is the sum of the two before it; from 1 after 0 on.
const SUMS: &[Calculation] = table! { Calculation:
    (&[Step::Exchanged], "0"),
    (&[Step::Fibonacci(47)], "4807526976"),
    (&[Step::Fibonacci(92)], "12200160415121876738"),
    (&[Step::Fibonacci(299)], "222232244629420445529739893461909967206666939096499764990979600"),
};

const WORD_SUMS: &[Calculation] = table! { Calculation:
    (&[Step::Times(0, 1), Step::Plus(0)], "0"),
    (&[Step::Times(0, 1), Step::Plus(4_294_967_295)], "4294967295"),
    (&[Step::Times(4_294_967_295, 1), Step::Plus(1)], "4294967296"),
    (&[Step::Times(4_294_967_295, 2), Step::Plus(4_294_967_295)], "18446744069414584320"),
    (&[Step::Times(10, 27), Step::Plus(9)], "1000000000000000000000000009"),
};

const QUOTIENTS: &[Calculation] = table! { Calculation:
    (&[Step::Times(5, 1), Step::Divided(7, 5)], "0"),
    (&[Step::Times(0, 1), Step::Divided(7, 0)], "0"),
    (&[Step::Times(6, 40), Step::Divided(7, 1)], "1909642076977676295405549425225"),
    (&[Step::Times(2, 200), Step::Divided(32767, 32)], "49041353931058390317757563778837324214063020532328038432"),
    (&[Step::Times(10, 27), Step::Divided(1_000_000_000, 0)], "1000000000000000000"),
    (&[Step::Times(2, 64), Step::Divided(4_294_967_295, 1)], "4294967297"),
    (&[Step::Times(2, 64), Step::Divided(1, 0)], "18446744073709551616"),
};

const ZEROS: &[Calculation] = table! { Calculation:
    (&[Step::Times(0, 1), Step::IsZero(true)], "0"),
    (&[Step::Times(1, 1), Step::IsZero(false)], "1"),
    (&[Step::Times(4_294_967_295, 1), Step::IsZero(false)], "4294967295"),
    (&[Step::Times(65536, 2), Step::IsZero(false)], "4294967296"),
    (&[Step::Times(10, 27), Step::IsZero(false)], "1000000000000000000000000000"),
};

const DIVISORS: &[Calculation] = table! { Calculation:
    (&[Step::Times(0, 1), Step::Divisor(12, 12)], "0"),
    (&[Step::Times(6, 40), Step::Divisor(4, 4), Step::Divisor(35, 1)], "13367494538843734067838845976576"),
    (&[Step::Times(10, 27), Step::Divisor(32768, 32768)], "1000000000000000000000000000"),
    (&[Step::Times(2, 200), Step::Divisor(4_294_967_295, 1)],
     "1606938044258990275541962092341162602522202993782792835301376"),
    (&[Step::Times(21, 9), Step::Divisor(98, 49)], "794280046581"),
};

#[test]
fn numbers(rt: HostRuntime) {
    expect_rows(&rt, "powers", &rt.alloc(), POWERS);
    expect_rows(&rt, "sums", &rt.alloc(), SUMS);
    expect_rows(&rt, "sums with words", &rt.alloc(), WORD_SUMS);
    expect_rows(&rt, "quotients and remainders", &rt.alloc(), QUOTIENTS);
    expect_rows(&rt, "zeros", &rt.alloc(), ZEROS);
    expect_rows(&rt, "common divisors", &rt.alloc(), DIVISORS);
}

// How a number grows: by the greatest word, or by itself.
enum Growth {
    Multiplied,
    Doubled,
    Raised,
}

const GROWTHS: &[Growth] = &[Growth::Multiplied, Growth::Doubled, Growth::Raised];

// Whether two numbers have the same decimals.
fn are_same(alloc: Global, number: &Natural, other: &Natural) -> Result<bool, AllocError> {
    let (mut text, mut other_text) = (Vec::new(alloc), Vec::new(alloc));
    number.write_decimals(alloc, &mut text)?;
    other.write_decimals(alloc, &mut other_text)?;
    Ok(text.as_slice() == other_text.as_slice())
}

// Whether a number that memory was refused is as it was.
fn grows_or_stays(
    alloc: Global,
    number: &mut Natural,
    growth: &Growth,
) -> Result<bool, AllocError> {
    let before = number.copy(alloc)?;
    let grown = match growth {
        Growth::Multiplied => number.multiply(4_294_967_295),
        Growth::Doubled => number.add(&before),
        Growth::Raised => number.add_word(4_294_967_295),
    };
    Ok(grown.is_ok() || are_same(alloc, number, &before)?)
}

fn grow_or_stay(alloc: Global, number: &mut Natural) -> Result<bool, AllocError> {
    multiply(number, 4_294_967_295, 3)?;
    for _ in 0..20 {
        for growth in GROWTHS {
            if !grows_or_stays(alloc, number, growth)? {
                return Ok(false);
            }
        }
    }
    Ok(true)
}

// Passes whichever of its allocations is refused: the number is then as it was.
#[test]
fn refused_numbers(rt: HostRuntime) {
    if let Ok(mut number) = Natural::from_word(rt.alloc(), 1) {
        let changed = matches!(grow_or_stay(rt.alloc(), &mut number), Ok(false));
        expect_same(&rt, "a refused number is changed", changed, false);
    }
}

// How many bytes a text has to which a number of 28 digits was written, and whether it was.
fn written(alloc: Global, number: &mut Natural) -> Result<(usize, bool), AllocError> {
    multiply(number, 10, 27)?;
    let mut text = Vec::new(alloc);
    let done = number.write_decimals(alloc, &mut text).is_ok();
    Ok((text.len(), done))
}

// Passes whichever of its allocations is refused: the text is then as it was.
#[test]
fn refused_decimals(rt: HostRuntime) {
    if let Ok(mut number) = Natural::from_word(rt.alloc(), 1) {
        let is_right = match written(rt.alloc(), &mut number) {
            Ok((length, done)) => length == if done { 28 } else { 0 },
            Err(_) => true,
        };
        expect_same(&rt, "a text has all decimals or none", is_right, true);
    }
}
