// This file has the lines that say what was wrong, each after the note that it explains.

ghost use Rattle.std.specs.Fmt.{WritesOnOk};
ghost use Rattle.ptb.specs.Messages.{mismatch_line, mismatch_text, reason_line};

use crate::endings::plural;
use ptb_explore::Mismatch;
use ptb_serve::ListMismatch;
use std::{fmt, io};

/// What was wrong.
#[derive(Drop)]
pub enum Reason<'a> {
    /// This could not be opened or read.
    Failed(&'a str, io::Error),
    /// Standard input has more bytes than are taken.
    TooLong,
    /// A list of the request fits no run.
    List(ListMismatch),
}

impl<'a> fmt::Display for Reason<'a> {
    ghost output = { λ reason. reason_line reason };

    fn fmt<W: fmt::Write>(&self, f: &mut fmt::Formatter<W>) -> fmt::Result {
        match self {
            Reason::Failed(name, error) => write!(f, "  {name}: {error}"),
            Reason::TooLong => f.write_str("  standard input has more than 16777216 bytes"),
            Reason::List(ListMismatch::Under(why)) => write_list("--under", *why, f),
            Reason::List(ListMismatch::After(why)) => write_list("--after", *why, f),
        }
    }
}

// Writes that the list of an option fits no run, and why.
fn write_list<W: fmt::Write>(option: &str, why: Mismatch, f: &mut fmt::Formatter<W>) -> fmt::Result
    ensures { WritesOnOk W.write_str_gives f.old result (mismatch_line option.now why) f.new }
{
    write!(f, "  {option}: ")?;
    write_mismatch(why, f)
}

// Writes why the items of a list fit no run.
fn write_mismatch<W: fmt::Write>(why: Mismatch, f: &mut fmt::Formatter<W>) -> fmt::Result
    ensures { WritesOnOk W.write_str_gives f.old result (mismatch_text why) f.new }
{
    match why {
        Mismatch::OutOfRange {
            item,
            answer,
            bound,
        } => write!(
            f,
            "item {item} is {answer}, but its question allows 1 to {bound}"
        ),
        Mismatch::OtherBound {
            item,
            stated,
            bound,
        } => write!(
            f,
            "item {item} states the bound {stated}, but its question has {bound}"
        ),
        Mismatch::NoQuestion { items } => {
            let plural = plural(items);
            write!(f, "the run is over after {items} item{plural}")
        }
        Mismatch::Missing { item, bound } => {
            write!(
                f,
                "item {item} is missing; its question allows 1 to {bound}"
            )
        }
        Mismatch::NotUnder => f.write_str("the list does not begin with the items of --under"),
    }
}
