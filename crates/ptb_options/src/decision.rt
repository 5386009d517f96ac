// This file decides what the arguments of the command line ask for, by `decide`.

ghost use Rattle.std.specs.Prelude.{◌≡◌, None, IfErr, IfOk, IfSome, unwrap_or, codes, option_copied};
ghost use Rattle.ptb_options.specs.Prelude.{IsFirstMisspelled, RefusesOptions, RefusesAnswers, RefusesIfGiven, clash};
ghost use Rattle.ptb_options.specs.Prelude.{SpellsAnswers, RequestsMode, HasMemorySize, SpellsIfGiven, LacksMemory};
ghost use Rattle.ptb_options.specs.Prelude.{Requests, HasBound, IsSpelled, entries_of, options_of, ListOption};

use crate::answers::{MarkedAnswers, PlainAnswers, parse_answers, parse_list};
use crate::given_options::GivenOptions;
use crate::mistakes::{ListOption, MisspelledList};
use crate::request::{DEFAULT_MEMORY, Mode, Request};
use crate::usage::UsageFault;
use clap::ArgMatches;
use std::alloc::Global;

/// The request that the arguments make.
///
/// # Errors
///
/// The first that applies, in this order: [`UsageFault::ListWithOther`],
/// [`UsageFault::CheckWithOther`], [`UsageFault::ChancesWithOther`],
/// [`UsageFault::AfterWithoutAll`], [`UsageFault::FirstWithoutAll`],
/// [`UsageFault::FormWithoutAll`], [`UsageFault::UnderWithoutAll`],
/// [`UsageFault::SharesWithoutAll`], [`UsageFault::SharesWithOther`],
/// [`UsageFault::SampleWithoutSeed`], [`UsageFault::AnswersWithAll`],
/// [`UsageFault::SeedWithAll`], [`UsageFault::SeedWithAnswers`], [`UsageFault::BadList`].
/// [`UsageFault::Memory`] comes only while the items of a list are kept, and no list is kept before
/// all are found to be spelled.
pub fn decide(alloc: Global, matches: &ArgMatches<'_>) -> Result<Request, UsageFault>
    requires memory { HasMemorySize (options_of (entries_of matches.now)) }
    requires bound { HasBound (options_of (entries_of matches.now)) }
    ensures ok { IfOk result (Requests (options_of (entries_of matches.now))) }
    ensures fault { IfErr result (RefusesOptions (options_of (entries_of matches.now))) }
{
    let line = GivenOptions::of(matches);
    if let Some(fault) = line.clash() {
        return Err(fault);
    }
    if line.misspelled().is_some() {
        return Err(UsageFault::BadList);
    }
    Ok(Request {
        rules: line.rules(),
        memory: line.memory.unwrap_or(DEFAULT_MEMORY),
        mode: line.mode(alloc)?,
    })
}

/// The first option whose list is misspelled, in the order `--under`, `--after`, `--answers`, and what
/// is wrong with that list; `None` where each list is spelled. It is there where [`decide`] answers
/// [`UsageFault::BadList`].
pub fn misspelled_list<'a>(matches: &ArgMatches<'a>) -> Option<MisspelledList<'a>>
    ensures none { result ≡ None
        → (x : ListOption) → IsSpelled (options_of (entries_of matches.now)) x }
    ensures some { IfSome result (IsFirstMisspelled (options_of (entries_of matches.now))) }
{
    GivenOptions::of(matches).misspelled()
}

impl<'a> GivenOptions<'a> {
    // What options that don't clash, and whose lists are spelled, ask to be done with the program.
    fn mode(&self, alloc: Global) -> Result<Mode, UsageFault>
        requires clash { clash self.now ≡ None }
        requires spelled { (x : ListOption) → IsSpelled self.now x }
        ensures ok { IfOk result (RequestsMode self.now) }
        ensures fault { IfErr result (LacksMemory self.now) }
    {
        if self.list {
            return Ok(Mode::List);
        }
        if self.check {
            return Ok(Mode::Check);
        }
        if self.chances {
            return Ok(Mode::Chances);
        }
        if self.all {
            if let Some(answers) = self.shares {
                let form = self.form();
                return Ok(Mode::Shares { answers, form });
            }
            return Ok(Mode::All {
                under: list(alloc, self.under)?,
                after: list(alloc, self.after)?,
                first: self.first,
                form: self.form(),
            });
        }
        if let Some(seed) = self.seed {
            if let Some(runs) = self.sample {
                let form = self.form();
                return Ok(Mode::Sample { seed, runs, form });
            }
            return Ok(Mode::Seeded(seed));
        }
        Ok(Mode::Plain(answers(alloc, self.answers)?))
    }
}

// The list that a text spells, if there is a text.
fn list(alloc: Global, text: Option<&str>) -> Result<Option<MarkedAnswers>, UsageFault>
    ensures ok { IfOk result (SpellsIfGiven (option_copied text.entry)) }
    ensures fault { IfErr result (RefusesIfGiven (option_copied text.entry)) }
{
    match text {
        Some(text) => Ok(Some(parse_list(alloc, text)?)),
        None => Ok(None),
    }
}

// The answers that a text spells; none where there is no text.
fn answers(alloc: Global, text: Option<&str>) -> Result<PlainAnswers, UsageFault>
    ensures ok { IfOk result (SpellsAnswers (unwrap_or (option_copied text.entry) (codes "none"))) }
    ensures fault { IfErr result (RefusesAnswers (option_copied text.entry)) }
{
    match text {
        Some(text) => parse_answers(alloc, text),
        None => Ok(Vec::new(alloc).into()),
    }
}
