// This file finds the argument that clap refuses because it is no number in the range of its option.

ghost use Rattle.std.specs.Prelude.{◌≡◌, ◌↔◌, IsTrue, IfSome, Some, None, map, option_copied, slice_get, false};
ghost use Rattle.std.specs.Fmt.{WritesOnOk};
ghost use Rattle.ptb_options.specs.Prelude.{Accepts, number_text, range_text, HasNoWrongNumber, HasNoWrongValue};
ghost use Rattle.ptb_options.specs.Prelude.{IsNumberOption, IsNumberRange, IsWrongFor, IsWrongNumber, IsWrongValue};
ghost use Rattle.ptb_options.specs.Prelude.{NamesNoNumber, option_argument};

use crate::command_line::{ARGS, ArgKind};
use clap::builder::ValueParser;
use std::convert::AsStr;
use std::fmt;

/// An option that takes a number.
#[derive(Clone, Copy, Debug, PartialEq, Eq)]
pub struct NumberOption {
    /// Its name, as `steps`.
    pub name: &'static str,
    /// The range of the number, as clap has it.
    pub range: ValueParser<'static>,
}

/// A value that is no number in the range of its option. It is displayed in the form of clap's errors.
#[derive(Clone, Copy, Debug, PartialEq, Eq)]
pub struct WrongNumber<'a> {
    /// The option.
    pub option: NumberOption,
    /// The value, as it was given.
    pub value: &'a str,
}

impl fmt::Display for WrongNumber<'_> {
    ghost output = { λ wrong. Some (number_text wrong) };

    fn fmt<W: fmt::Write>(&self, f: &mut fmt::Formatter<W>) -> fmt::Result {
        let (name, value) = (self.option.name, self.value);
        write!(f, "error: invalid value '{value}' for '--{name} <N>': ")?;
        write_range(self.option.range, f)?;
        f.write_str("\n\nFor more information, try '--help'.\n")
    }
}

// Writes which numbers an option takes.
fn write_range<W: fmt::Write>(range: ValueParser<'_>, f: &mut fmt::Formatter<W>) -> fmt::Result
    ensures { WritesOnOk W.write_str_gives f.old result (range_text range.entry) f.new }
{
    match range {
        ValueParser::Signed(least, most) => write!(f, "expected a number from {least} to {most}"),
        ValueParser::Unsigned(least, most) => write!(f, "expected a number from {least} to {most}"),
        _ => Ok(()),
    }
}

/// The first value among the arguments that is no number in the range of its option: after `=`, or in
/// the argument after the option's. The first argument is the program's name, and after `--` no
/// argument is an option. Where clap's error is of kind `ValueValidation`, or `UnknownArgument` for a
/// negative number, this says what is wrong more plainly.
pub fn wrong_number<'a, S: AsStr>(arguments: &'a [S]) -> Option<WrongNumber<'a>>
    ensures some { IfSome result (IsWrongNumber (map S.text arguments.entry.now)) }
    ensures none { result ≡ None → HasNoWrongNumber (map S.text arguments.entry.now) }
{
    for i in 1..arguments.len() {
        let argument = argument_at(arguments, i)?;
        if argument == "--" {
            return None;
        }
        let wrong = wrong_value(argument, argument_at(arguments, i + 1));
        if wrong.is_some() {
            return wrong;
        }
    }
    None
}

// The argument at an index, if there is one.
fn argument_at<'a, S: AsStr>(arguments: &'a [S], i: usize) -> Option<&'a str>
    ensures { option_copied result ≡ slice_get (map S.text arguments.entry.now) i }
{
    match arguments.get(i) {
        Some(argument) => Some(argument.as_str()),
        None => None,
    }
}

// What is wrong with the value of an option with a number, where an argument is one.
fn wrong_value<'a>(argument: &'a str, next: Option<&'a str>) -> Option<WrongNumber<'a>>
    ensures some { IfSome result (IsWrongValue (Some argument.entry.now) (option_copied next.entry)) }
    ensures none { result ≡ None
        → HasNoWrongValue (Some argument.entry.now) (option_copied next.entry) }
{
    match argument.split_once('=') {
        Some((name, value)) => wrong_for(number_option(name)?, value),
        None => wrong_for(number_option(argument)?, next?),
    }
}

// What is wrong with the value of an option, if it is no number in the option's range.
fn wrong_for(option: NumberOption, value: &str) -> Option<WrongNumber<'_>>
    requires { IsNumberRange option.range }
    ensures some { IfSome result (IsWrongFor option value.entry) }
    ensures none { result ≡ None → Accepts false option.range value.entry.now }
{
    if is_in(option.range, value) {
        return None;
    }
    Some(WrongNumber { option, value })
}

// The option with a number that an argument names.
fn number_option(argument: &str) -> Option<NumberOption>
    ensures some { IfSome result (IsNumberOption argument.now) }
    ensures none { result ≡ None → NamesNoNumber argument.now }
{
    for listed in ARGS {
        if let ArgKind::Number(range) = listed.kind {
            if is_named(argument, listed.name) {
                return Some(NumberOption {
                    name: listed.name,
                    range,
                });
            }
        }
    }
    None
}

// Whether an argument is the option of this name.
fn is_named(argument: &str, name: &str) -> bool
    ensures { IsTrue result ↔ argument.now ≡ option_argument name.now }
{
    match argument.as_bytes().strip_prefix(b"--") {
        Some(rest) => rest == name.as_bytes(),
        None => false,
    }
}

// Whether a text is a number in a range, as clap reads it.
fn is_in(range: ValueParser<'_>, text: &str) -> bool
    requires { IsNumberRange range }
    ensures { IsTrue result ↔ Accepts false range.entry text.now }
{
    match range {
        ValueParser::Signed(low, high) => match text.parse::<i64>() {
            Ok(number) => low <= number && number <= high,
            Err(_) => false,
        },
        ValueParser::Unsigned(low, high) => match text.parse::<u64>() {
            Ok(number) => low <= number && number <= high,
            Err(_) => false,
        },
        _ => true,
    }
}
