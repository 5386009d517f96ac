// This file has the command line with its options, and what clap finds there.

ghost use Rattle.std.specs.Prelude.{◌≡◌, IfOk, false, map};
ghost use Rattle.clap.specs.Words.{FailsBy, app_of, fault_of, matches_of, rule_of};
ghost use Rattle.ptb_options.specs.CommandLine.{rule_of_listed, tool};
ghost use Rattle.ptb_options.specs.Options.{HasBound, HasMemorySize, entries_of, options_of};
ghost use Rattle.ptb_options.specs.Statuses.{refusal_status};

use self::ArgKind::{Flag, List, Number, Operand};
use crate::help;
use clap::builder::ValueParser;
use clap::builder::ValueParser::{Signed, Unsigned};
use clap::error::ErrorKind;
use clap::{Arg, ArgAction, ArgMatches, Command, Error};
use std::alloc::{AllocError, Global};
use std::convert::AsStr;

/// The command `ptb` with its options.
///
/// # Errors
///
/// [`AllocError`] where a growth was refused memory.
pub(crate) fn command<'a>(alloc: Global) -> Result<Command<'a>, AllocError>
    ensures { IfOk result (λ c. app_of c ≡ tool) }
{
    let mut command = Command::new(alloc, "ptb")
        .about(help::ABOUT)
        .version(help::VERSION)
        .after_help(help::AFTER);
    for listed in ARGS {
        command = command.arg(listed.arg(alloc))?;
    }
    Ok(command)
}

/// What clap finds in the arguments, of which the first is the program's name.
///
/// # Errors
///
/// clap's error, with its text; where the arguments are right, it is always lack of memory.
pub fn parse<'a, S: AsStr>(alloc: Global, arguments: &'a [S]) -> Result<ArgMatches<'a>, Error>
    ensures entries { IfOk result (λ m.
        entries_of m ≡ matches_of tool (map S.text arguments.entry.now)) }
    ensures memory { IfOk result (λ m. HasMemorySize (options_of (entries_of m))) }
    ensures bound { IfOk result (λ m. HasBound (options_of (entries_of m))) }
    ensures kinds { FailsBy (fault_of tool (map S.text arguments.entry.now)) result }
{
    command(alloc)?.try_get_matches_from(arguments)
}

/// The status that the program exits with where clap answers an error of this kind.
pub fn refusal_status(kind: ErrorKind) -> u8
    ensures { result ≡ refusal_status kind }
{
    match kind {
        ErrorKind::DisplayHelp => 0,
        ErrorKind::DisplayVersion => 0,
        ErrorKind::OutOfMemory => 71,
        _ => 64,
    }
}

// A table of arguments, a row each: name, kind, heading and help.
macro_rules! listed {
    ($($name:literal => $kind:expr, $heading:expr, $help:expr;)*) => {
        &[$(ListedArg { name: $name, kind: $kind, heading: $heading, help: $help }),*]
    };
}

// The arguments: the options, and the program, in the order in which help shows them.
pub(crate) const ARGS: &[ListedArg] = listed! {
    "steps" => Number(Signed(1, 1_000_000_000)), Some(help::RUN), help::STEPS;
    "memory" => Number(Signed(64, 32767)), Some(help::RUN), help::MEMORY;
    "choose" => Number(Signed(1, 32767)), Some(help::RUN), help::CHOOSE;
    "answers" => List, Some(help::RUN), help::ANSWERS;
    "seed" => Number(Unsigned(0, 4_294_967_295)), Some(help::RUN), help::SEED;
    "all" => Flag, Some(help::EXPLORE), help::ALL;
    "under" => List, Some(help::EXPLORE), help::UNDER;
    "after" => List, Some(help::EXPLORE), help::ALL_AFTER;
    "first" => Number(Unsigned(1, 1_000_000_000)), Some(help::EXPLORE), help::FIRST;
    "shares" => Number(Signed(1, 64)), Some(help::EXPLORE), help::SHARES;
    "sample" => Number(Unsigned(1, 1_000_000_000)), Some(help::EXPLORE), help::SAMPLE;
    "form" => Number(Signed(1, 2)), Some(help::EXPLORE), help::FORM;
    "chances" => Flag, Some(help::EXPLORE), help::CHANCES;
    "list" => Flag, Some(help::PRINT), help::LIST;
    "check" => Flag, Some(help::PRINT), help::CHECK;
    "program" => Operand, None, help::PROGRAM;
};

// An argument, with what clap needs to know of it.
pub(crate) struct ListedArg {
    pub(crate) name: &'static str,
    pub(crate) kind: ArgKind,
    // The heading under which help shows it, where that isn't one of clap's own.
    heading: Option<&'static str>,
    help: &'static str,
}

// What an argument is.
pub(crate) enum ArgKind {
    // An option with a number.
    Number(ValueParser<'static>),
    // An option with a text: a list of answers.
    List,
    // An option without a value.
    Flag,
    // No option. Help shows it by its value's name.
    Operand,
}

impl ListedArg {
    // The argument as clap has it.
    fn arg<'a>(&self, alloc: Global) -> Arg<'a>
        ensures rule { rule_of result ≡ rule_of_listed self.now }
        ensures local { result.global ≡ false }
    {
        let arg = under_heading(Arg::new(alloc, self.name).help(self.help), self.heading);
        match self.kind {
            Number(parser) => arg.long(self.name).value_name("N").value_parser(parser),
            List => arg.long(self.name).value_name("LIST"),
            Flag => arg.long(self.name).action(ArgAction::SetTrue),
            Operand => arg.value_name("PROGRAM"),
        }
    }
}

// The argument under its heading in help, if it has one.
fn under_heading<'a>(arg: Arg<'a>, heading: Option<&'a str>) -> Arg<'a>
    ensures rule { rule_of result ≡ rule_of arg.entry }
    ensures local { result.global ≡ arg.entry.global }
{
    match heading {
        Some(heading) => arg.help_heading(heading),
        None => arg,
    }
}
