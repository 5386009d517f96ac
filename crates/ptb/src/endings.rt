// This file has the lines that say why a run ended, and which option helps.

ghost use Rattle.std.specs.Prelude.{◌≡◌, Some};
ghost use Rattle.ptb.specs.Messages.{plural, shortage_line};

use std::fmt;

/// Why a run ended before its program did.
#[derive(Clone, Copy)]
pub enum Shortage {
    /// It had begun as many commands as it may.
    Commands {
        /// The number of the statement in which its next command begins.
        line: u16,
        /// How many commands it may begin.
        limit: u32,
    },
    /// INPUT found no line left of standard input.
    Lines,
    /// INPUT found no line, since standard input was the program.
    LinesBesideProgram,
    /// A random number was wanted and none was left.
    Answers,
    /// A random number was greater than its question allows.
    LargeAnswer,
}

impl fmt::Display for Shortage {
    ghost output = { λ shortage. Some (shortage_line shortage) };

    fn fmt<W: fmt::Write>(&self, f: &mut fmt::Formatter<W>) -> fmt::Result {
        match self {
            Shortage::Commands { line, limit } => {
                let plural = plural(*limit as usize);
                write!(
                    f,
                    "ptb: stopped at line {line} by the limit of {limit} command{plural}; --steps N allows more"
                )
            }
            Shortage::Lines => {
                f.write_str("ptb: INPUT found no line left; give more lines, or use --choose N")
            }
            Shortage::LinesBesideProgram => f.write_str(
                "ptb: INPUT found no line, since standard input was the program; \
                 name its file as PROGRAM",
            ),
            Shortage::Answers => f.write_str(
                "ptb: a random number was wanted and none is left; \
                 use --seed N, or give more --answers",
            ),
            Shortage::LargeAnswer => f.write_str(
                "ptb: one of the --answers is greater than its question allows; change it",
            ),
        }
    }
}

/// How a word ends, by how many there are.
pub(crate) fn plural(count: usize) -> &'static str
    ensures { result.now ≡ plural count }
{
    if count == 1 { "" } else { "s" }
}
