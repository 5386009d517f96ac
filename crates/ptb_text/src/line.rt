// This file takes a program line apart: the number in front, and the text after it.

ghost use Rattle.std.specs.Prelude.{◌≡◌, ◌<◌, IfSome, MatchOption, MatchResult};
ghost use Rattle.std.specs.Prelude.{length, not, position};
ghost use Rattle.ptb_text.specs.EnteredLines.{EntersNothing, IsNumbered, IsRefused};
ghost use Rattle.ptb_text.specs.Lines.{is_printable};

use crate::LoadFault;
use crate::numerals::{is_all_blank, number_in_front};
use crate::word::Number;

/// A line with a number: its text is stored under the number, or deletes the statement if empty.
#[derive(Clone, Copy)]
pub(crate) struct NumberedLine<'a> {
    /// 1 to 32767.
    pub number: u16,
    /// Printable bytes, the first no blank.
    pub text: &'a [u8],
}

/// The number and the text of a program line, or none if it has no byte but blanks.
///
/// # Errors
///
/// `BadByte` for the first byte that doesn't print; otherwise `NoNumber` if no number of at least 1
/// is in front; otherwise `NumberTooBig` for a number over 32767.
pub(crate) fn numbered_line(line: &[u8]) -> Result<Option<NumberedLine<'_>>, LoadFault>
    ensures { MatchResult result
        (λ found. MatchOption found (EntersNothing line.now)
        (λ l. IsNumbered line.now l.number l.text.now))
        (IsRefused line.now) }
{
    if let Some(place) = first_unprintable(line) {
        return Err(LoadFault::BadByte(place + 1));
    }
    if is_all_blank(line) {
        return Ok(None);
    }
    let (number, place) = number_in_front(line);
    let number = match number {
        Number::Value(number) => number.unsigned_abs(),
        Number::TooBig => return Err(LoadFault::NumberTooBig),
        Number::Absent => return Err(LoadFault::NoNumber),
    };
    if number == 0 {
        return Err(LoadFault::NoNumber);
    }
    Ok(Some(NumberedLine {
        number,
        text: &line[place..],
    }))
}

// The index of the first byte that is none from space to tilde.
fn first_unprintable(line: &[u8]) -> Option<usize>
    ensures value { result ≡ position (λ b. not (is_printable b)) line.now }
    ensures within { IfSome result (λ place. place < length line.now) }
{
    line.iter().position(|b| !matches!(*b, b' '..=b'~'))
}
