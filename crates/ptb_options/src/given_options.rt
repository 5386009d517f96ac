// This file has what the command line gives, option by option, `GivenOptions`, and which options don't go
// together.

ghost use Rattle.std.specs.Prelude.{◌≡◌, ◌≤◌, pos, None, IfSome, option_map};
ghost use Rattle.std.specs.Option.{ForSome, option_copied};
ghost use Rattle.ptb_options.specs.Prelude.{IsListOf, HasBound, HasMistake, IsRulesOf, IsFirstMisspelled, IsSpelled};
ghost use Rattle.ptb_options.specs.Prelude.{clash, clashes, entries_of, first_fault, form_of, is_given, options_of};
ghost use Rattle.ptb_options.specs.Prelude.{ListOption};

use crate::mistakes::{BoundRule, ListMistake, ListOption, MisspelledList, list_mistake};
use crate::request::DEFAULT_STEPS;
use crate::usage::UsageFault;
use clap::ArgMatches;
use clap::parser::ValueSource;
use ptb_answers::{Form, Rules};
use std::marker::Model;

/// What the command line gives, option by option. Lists are texts.
#[derive(Drop)]
pub(crate) struct GivenOptions<'a> {
    pub(crate) steps: Option<u32>,
    pub(crate) memory: Option<u16>,
    pub(crate) choose: Option<u16>,
    pub(crate) answers: Option<&'a str>,
    pub(crate) seed: Option<u64>,
    pub(crate) all: bool,
    pub(crate) under: Option<&'a str>,
    pub(crate) after: Option<&'a str>,
    pub(crate) first: Option<u64>,
    pub(crate) shares: Option<u8>,
    pub(crate) sample: Option<u32>,
    pub(crate) form: Option<u8>,
    pub(crate) chances: bool,
    pub(crate) list: bool,
    pub(crate) check: bool,
}

impl<'a> Model for GivenOptions<'a> {
    ghost use Rattle.std.specs.Option.{option_copied};
    ghost use Rattle.ptb_options.specs.Options.{Options};

    ghost Value = { Options };

    ghost view = { λ line. record {
      steps = line.steps;
      memory = line.memory;
      choose = line.choose;
      answers = option_copied line.answers;
      seed = line.seed;
      all = line.all;
      under = option_copied line.under;
      after = option_copied line.after;
      first = line.first;
      shares = line.shares;
      sample = line.sample;
      form = line.form;
      chances = line.chances;
      list = line.list;
      check = line.check;
    } };
}

impl<'a> GivenOptions<'a> {
    /// What clap found on the command line.
    pub(crate) fn of(matches: &ArgMatches<'a>) -> GivenOptions<'a>
        ensures { result ≡ options_of (entries_of matches.now) }
    {
        GivenOptions {
            steps: matches.get_one("steps"),
            memory: matches.get_one("memory"),
            choose: matches.get_one("choose"),
            answers: matches.get_str("answers"),
            seed: matches.get_one("seed"),
            all: is_given(matches, "all"),
            under: matches.get_str("under"),
            after: matches.get_str("after"),
            first: matches.get_one("first"),
            shares: matches.get_one("shares"),
            sample: matches.get_one("sample"),
            form: matches.get_one("form"),
            chances: is_given(matches, "chances"),
            list: is_given(matches, "list"),
            check: is_given(matches, "check"),
        }
    }

    /// The fault of options that don't go together.
    pub(crate) fn clash(&self) -> Option<UsageFault>
        ensures { result ≡ clash self.now }
    {
        first_fault(&self.clashes())
    }

    // Which options don't go together, and the fault of each.
    fn clashes(&self) -> [(bool, UsageFault); 13]
        ensures { result ≡ clashes self.now }
    {
        let (answers, after) = (self.answers.is_some(), self.after.is_some());
        let (seed, first) = (self.seed.is_some(), self.first.is_some());
        let (form, choose) = (self.form.is_some(), self.choose.is_some());
        let (shares, sample) = (self.shares.is_some(), self.sample.is_some());
        let (under, all) = (self.under.is_some(), self.all);
        let part = after | first | under;
        let which = all | answers | seed | under | after | first | form | shares | sample;
        let runs = which | choose | self.chances;
        [
            (self.list & (runs | self.check), UsageFault::ListWithOther),
            (self.check & runs, UsageFault::CheckWithOther),
            (self.chances & which, UsageFault::ChancesWithOther),
            (after & !all, UsageFault::AfterWithoutAll),
            (first & !all, UsageFault::FirstWithoutAll),
            (form & !(all | sample), UsageFault::FormWithoutAll),
            (under & !all, UsageFault::UnderWithoutAll),
            (shares & !all, UsageFault::SharesWithoutAll),
            (shares & part, UsageFault::SharesWithOther),
            (sample & !seed, UsageFault::SampleWithoutSeed),
            (answers & all, UsageFault::AnswersWithAll),
            (seed & all, UsageFault::SeedWithAll),
            (seed & answers, UsageFault::SeedWithAnswers),
        ]
    }

    /// The first option whose list is misspelled, and what is wrong with it.
    pub(crate) fn misspelled(&self) -> Option<MisspelledList<'a>>
        ensures none { result ≡ None → (x : ListOption) → IsSpelled self.now x }
        ensures some { IfSome result (IsFirstMisspelled self.now) }
    {
        if let Some(mistake) = mistake_if_given(self.under, BoundRule::Allowed) {
            let option = ListOption::Under;
            return Some(MisspelledList { option, mistake });
        }
        if let Some(mistake) = mistake_if_given(self.after, BoundRule::Allowed) {
            let option = ListOption::After;
            return Some(MisspelledList { option, mistake });
        }
        let mistake = mistake_if_given(self.answers, BoundRule::Refused)?;
        let option = ListOption::Answers;
        Some(MisspelledList { option, mistake })
    }

    /// The rules of runs.
    pub(crate) fn rules(&self) -> Rules
        requires { HasBound self.now }
        ensures { IsRulesOf self.now result }
    {
        Rules {
            limit: self.steps.unwrap_or(DEFAULT_STEPS),
            choose: bound(self.choose),
        }
    }

    /// How reports have the answers.
    pub(crate) fn form(&self) -> Form
        ensures { result ≡ form_of self.now.form }
    {
        match self.form {
            Some(1) => Form::One,
            _ => Form::Two,
        }
    }
}

// The fault of the first row whose condition holds.
fn first_fault(rows: &[(bool, UsageFault)]) -> Option<UsageFault>
    ensures { result ≡ first_fault rows.now }
{
    let mut rest = rows;
    while let Some(((holds, fault), after)) = rest.split_first() {
        if *holds {
            return Some(*fault);
        }
        rest = after;
    }
    None
}

// A bound as a number of the language, if there is one.
fn bound(number: Option<u16>) -> Option<i16>
    requires { IfSome number (λ n. n ≤ 32767) }
    ensures { result ≡ option_map pos number }
{
    match number {
        Some(number) => i16::try_from(number).ok(),
        None => None,
    }
}

// What is wrong with a list, if there is a text of one.
fn mistake_if_given(text: Option<&str>, bounds: BoundRule) -> Option<ListMistake<'_>>
    ensures none { result ≡ None → ForSome (option_copied text.entry) (IsListOf bounds) }
    ensures some { IfSome result (HasMistake bounds (option_copied text.entry)) }
{
    list_mistake(text?, bounds)
}

// Whether an option is on the command line.
fn is_given(matches: &ArgMatches<'_>, id: &str) -> bool
    ensures { result ≡ is_given id.now (entries_of matches.now) }
{
    matches!(matches.value_source(id), Some(ValueSource::CommandLine))
}
