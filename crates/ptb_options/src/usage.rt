// This file has the usage errors that clap does not find: options that don't go together, and lists.

ghost use Rattle.std.specs.Prelude.{◌≡◌};
ghost use Rattle.ptb_options.specs.Statuses.{usage_status};
ghost use Rattle.ptb_options.specs.declared.usage.UsageFault.TheVariants.{Memory};

use std::alloc::AllocFailed;
use thiserror::Error;

/// A usage error, or lack of memory for a list.
#[derive(Clone, Copy, Debug, PartialEq, Eq, Error)]
pub enum UsageFault {
    /// `--after` without `--all`.
    #[error("ptb: --after needs --all")]
    AfterWithoutAll,
    /// `--first` without `--all`.
    #[error("ptb: --first needs --all")]
    FirstWithoutAll,
    /// `--answers` with `--all`.
    #[error("ptb: --answers excludes --all")]
    AnswersWithAll,
    /// `--list` with `--all`, `--answers`, `--seed`, `--under`, `--after`, `--first`, `--form`,
    /// `--choose`, `--shares`, `--sample`, `--check` or `--chances`.
    #[error("ptb: --list stands alone")]
    ListWithOther,
    /// A list of answers isn't spelled as one.
    #[error("ptb: bad list")]
    BadList,
    /// A growth was refused memory.
    #[error("ptb: out of memory")]
    Memory,
    /// `--seed` with `--all`.
    #[error("ptb: --seed excludes --all")]
    SeedWithAll,
    /// `--seed` with `--answers`.
    #[error("ptb: --seed excludes --answers")]
    SeedWithAnswers,
    /// `--form` with neither `--all` nor `--sample`.
    #[error("ptb: --form needs --all")]
    FormWithoutAll,
    /// `--under` without `--all`.
    #[error("ptb: --under needs --all")]
    UnderWithoutAll,
    /// `--shares` without `--all`.
    #[error("ptb: --shares needs --all")]
    SharesWithoutAll,
    /// `--shares` with `--after`, `--first` or `--under`.
    #[error("ptb: --shares excludes --after, --first and --under")]
    SharesWithOther,
    /// `--sample` without `--seed`.
    #[error("ptb: --sample needs --seed")]
    SampleWithoutSeed,
    /// `--check` with `--all`, `--answers`, `--seed`, `--under`, `--after`, `--first`, `--form`,
    /// `--choose`, `--shares`, `--sample` or `--chances`.
    #[error("ptb: --check stands alone")]
    CheckWithOther,
    /// `--chances` with `--all`, `--answers`, `--seed`, `--under`, `--after`, `--first`, `--form`,
    /// `--shares` or `--sample`.
    #[error("ptb: --chances stands alone")]
    ChancesWithOther,
}

impl UsageFault {
    /// The status that the program exits with.
    pub fn status(&self) -> u8
        ensures { result ≡ usage_status self.now }
    {
        match self {
            UsageFault::Memory => 71,
            _ => 64,
        }
    }
}

impl<T: Drop> From<AllocFailed<T>> for UsageFault {
    ghost from_gives = { λ _ fault. fault ≡ Memory };

    fn from(_refused: AllocFailed<T>) -> UsageFault {
        UsageFault::Memory
    }
}
