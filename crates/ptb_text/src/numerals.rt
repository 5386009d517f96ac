// This file passes blanks and reads numbers in a text of any length, by `number_in_front`.

ghost use Rattle.std.specs.Prelude.{◌≡◌, ◌+◌, ◌-◌, ◌<◌, ◌≤◌, length, IsTrue, take, drop, min, get_or};
ghost use Rattle.ptb_text.specs.Prelude.{prefix_len, is_digit, digits_value, past_blanks, is_over, number_at};

use crate::word::Number;

// stands for every number that is too big
const TOO_BIG: u32 = 32768;

/// Where the blanks at `place` end, and the byte there: 0 at the end of the text. Most places have no blanks,
/// so that is found before a loop.
#[inline(always)]
#[tactic(auto, using(crate::proofs::Blanks::past_blanks_more, crate::proofs::Blanks::past_blanks_none))]
pub(crate) fn after_blanks(text: &[u8], place: usize) -> (usize, u8)
    requires { place ≤ length text.now }
    ensures value { result.0 ≡ past_blanks text.now place }
    ensures from { place ≤ result.0 }
    ensures within { result.0 ≤ length text.now }
    ensures byte { result.1 ≡ get_or text.now result.0 0 }
{
    let byte = byte_at(text, place);
    if byte != b' ' {
        return (place, byte);
    }
    after_more_blanks(text, place + 1)
}

/// The same, but blanks are passed by a call. So what takes one thing after another from a text stays small.
#[inline(always)]
#[tactic(auto, using(crate::proofs::Blanks::past_blanks_more, crate::proofs::Blanks::past_blanks_none))]
pub(crate) fn after_rare_blanks(text: &[u8], place: usize) -> (usize, u8)
    requires { place ≤ length text.now }
    ensures value { result.0 ≡ past_blanks text.now place }
    ensures from { place ≤ result.0 }
    ensures within { result.0 ≤ length text.now }
    ensures byte { result.1 ≡ get_or text.now result.0 0 }
{
    let byte = byte_at(text, place);
    if byte != b' ' {
        return (place, byte);
    }
    after_blanks_apart(text, place + 1)
}

// As `after_more_blanks`. Not inlined, and marked cold, so that texts without blanks are read with fewer jumps:
// expressions take 1 to 4 percent fewer instructions.
#[cold]
#[inline(never)]
fn after_blanks_apart(text: &[u8], place: usize) -> (usize, u8)
    requires { place ≤ length text.now }
    ensures value { result.0 ≡ past_blanks text.now place }
    ensures from { place ≤ result.0 }
    ensures within { result.0 ≤ length text.now }
    ensures byte { result.1 ≡ get_or text.now result.0 0 }
{
    after_more_blanks(text, place)
}

// The byte at `place`: 0 at the end of the text.
#[inline(always)]
fn byte_at(text: &[u8], place: usize) -> u8
    requires { place ≤ length text.now }
    ensures { result ≡ get_or text.now place 0 }
{
    if place == text.len() {
        return 0;
    }
    text[place]
}

// The same as `after_blanks`, after a blank.
#[inline(always)]
#[tactic(auto, using(crate::proofs::Blanks::past_blanks_more, crate::proofs::Blanks::past_blanks_stop, crate::proofs::Blanks::past_blanks_end))]
fn after_more_blanks(text: &[u8], place: usize) -> (usize, u8)
    requires { place ≤ length text.now }
    ensures value { result.0 ≡ past_blanks text.now place }
    ensures from { place ≤ result.0 }
    ensures within { result.0 ≤ length text.now }
    ensures byte { result.1 ≡ get_or text.now result.0 0 }
{
    let mut end = place;
    while end != text.len() {
        let byte = text[end];
        if byte != b' ' {
            return (end, byte);
        }
        end += 1;
    }
    (end, 0)
}

/// What the digits at `place` write, where they end, and the byte there: 0 at the end of the text. The first
/// of them is this byte. No more is looked at for each digit of a number that isn't too big.
#[inline(always)]
#[tactic(auto, using(crate::proofs::Digits::digits_more, crate::proofs::Digits::digits_stop, crate::proofs::Digits::digits_end, crate::proofs::Digits::digits_value_first, crate::proofs::Digits::digits_value_next))]
pub(crate) fn digits_at(text: &[u8], place: usize, first: u8) -> (u32, usize, u8)
    requires some { place < length text.now }
    requires first { first ≡ get_or text.now place 0 }
    requires digit { IsTrue (is_digit first) }
    ensures value { result.0
        ≡ min (digits_value (take (result.1 - place) (drop place text.now))) TOO_BIG }
    ensures end { result.1 ≡ place + prefix_len is_digit (drop place text.now) }
    ensures some { place < result.1 }
    ensures byte { result.2 ≡ get_or text.now result.1 0 }
{
    let mut value = u32::from(first - b'0');
    let mut end = place + 1;
    while end != text.len() {
        let byte = text[end];
        if !byte.is_ascii_digit() {
            return (value, end, byte);
        }
        value = value * 10 + u32::from(byte - b'0');
        if value >= TOO_BIG {
            return digits_again(text, place);
        }
        end += 1;
    }
    (value, end, 0)
}

// The same for a number that is too big, which is rare.
#[cold]
#[inline(never)]
fn digits_again(text: &[u8], place: usize) -> (u32, usize, u8)
    requires { place ≤ length text.now }
    ensures value { result.0
        ≡ min (digits_value (take (result.1 - place) (drop place text.now))) TOO_BIG }
    ensures end { result.1 ≡ place + prefix_len is_digit (drop place text.now) }
    ensures byte { result.2 ≡ get_or text.now result.1 0 }
{
    let (value, count) = leading_digits(&text[place..]);
    let end = place + count;
    (value, end, byte_at(text, end))
}

// What the digits in front of a text write, and how many they are.
#[inline(never)]
#[tactic(auto, using(crate::proofs::Digits::digits_more, crate::proofs::Digits::digits_stop, crate::proofs::Digits::digits_end, crate::proofs::Digits::digits_value_more))]
fn leading_digits(text: &[u8]) -> (u32, usize)
    ensures value { result.0 ≡ min (digits_value (take result.1 text.now)) TOO_BIG }
    ensures count { result.1 ≡ prefix_len is_digit text.now }
{
    let mut value: u32 = 0;
    for (count, byte) in text.iter().enumerate() {
        if !byte.is_ascii_digit() {
            return (value, count);
        }
        value = (value * 10 + u32::from(*byte - b'0')).min(TOO_BIG);
    }
    (value, text.len())
}

/// The number in front of a text, blanks before it aside, and the place after it and the blanks
/// that follow. The text may have any length.
///
/// As [`Cursor::number`] at place 0: a number over 32767 is passed too, and where there is no digit
/// the place is 0.
pub(crate) fn number_in_front(text: &[u8]) -> (Number, usize)
    ensures value { number_at text.now 0 ≡ (result.0, result.1) }
    ensures within { result.1 ≤ length text.now }
{
    let (start, _) = after_blanks(text, 0);
    let (value, count) = leading_digits(&text[start..]);
    if count == 0 {
        return (Number::Absent, 0);
    }
    let (place, _) = after_blanks(text, start + count);
    match i16::try_from(value) {
        Ok(value) => (Number::Value(value), place),
        Err(_) => (Number::TooBig, place),
    }
}

/// Whether a text of any length has nothing but blanks.
pub(crate) fn is_all_blank(text: &[u8]) -> bool
    ensures { result ≡ is_over text.now 0 }
{
    after_blanks(text, 0).0 == text.len()
}
