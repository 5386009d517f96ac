// This file lists the tests: what they try of the language, of reports, and of numbers.

mod cursor;
mod decimals;
mod expressions;
mod fractions;
mod naturals;
mod output;
mod reports;
mod shared;
mod sink;
mod texts;
