// This file has a cursor over a text, which takes what is there piece by piece.

ghost use Rattle.std.specs.Prelude.{◌≡◌, ◌+◌, ◌<◌, ◌≤◌, length, if◌then◌else◌, Some, None, IsTrue, IsFalse, IsSome};
ghost use Rattle.std.specs.Prelude.{IsNone, IfSome, option_map, position, ◌==◌, get_or};
ghost use Rattle.ptb_text.specs.Prelude.{CursorState, bytes_left, past_byte, IsNextToken, past_blanks, next_byte_at};
ghost use Rattle.ptb_text.specs.Prelude.{is_over, token_at, pair_at, letter_at, number_at, is_number, quotation_at};
ghost use Rattle.ptb_text.specs.Prelude.{quotation_of, is_text, IsPieceFrom, word_at, IsWordOf};

use crate::letter::Letter;
use crate::numerals::{after_blanks, after_rare_blanks, digits_at};
use crate::spelling::{continues_word, found_word};
use crate::word::{Number, Quoted, Table, Word};
use std::marker::Model;

/// A place in a text.
///
/// Each call passes the blanks at the place, takes what it finds with the blanks after it, and
/// takes nothing else. A call that finds nothing leaves the place as it was, before the blanks. The
/// text stays the same. It has at most 255 bytes.
#[derive(Debug, Drop)]
pub struct Cursor<'a> {
    text: &'a [u8],
    place: usize,
    // the first place from there on at which there is no blank
    next: usize,
    // the byte there; 0 at the end
    byte: u8,
}

impl<'a> Model for Cursor<'a> {
    ghost Value = { CursorState };

    ghost view = { λ c. record { text = c.text.now; place = c.place } };

    ghost invariant = { λ c. (c.next ≡ past_blanks c.text.now c.place) × (c.place ≤ c.next)
        × (c.next ≤ length c.text.now) × (length c.text.now ≤ 255)
        × (c.byte ≡ get_or c.text.now c.next 0) };
}

// How many bytes are before the first byte that is this one.
fn bytes_before(text: &[u8], byte: u8) -> Option<usize>
    ensures value { result ≡ position (λ b. b == byte) text.now }
    ensures within { IfSome result (λ count. count < length text.now) }
{
    text.iter().position(|b| *b == byte)
}

impl<'a> Cursor<'a> {
    /// A cursor at a place of a text, which counts the bytes before it: at most the text's length.
    ///
    /// The text has at most 255 bytes, as every statement and every input line has.
    #[inline(always)]
    pub fn new(text: &'a [u8], place: usize) -> Self
        requires within { place ≤ length text.now }
        requires short { length text.now ≤ 255 }
        ensures { result ≡ record { text = text.now; place = place } }
    {
        let (next, byte) = after_blanks(text, place);
        Cursor {
            text,
            place,
            next,
            byte,
        }
    }

    /// How many bytes are before the place.
    pub fn place(&self) -> usize
        ensures { result ≡ self.now.place }
    {
        self.place
    }

    /// States that the place lies within the text, which has at most 255 bytes. It does nothing.
    #[inline(always)]
    pub fn range_law(&self)
        ensures within { self.now.place ≤ length self.now.text }
        ensures short { length self.now.text ≤ 255 }
    {
        let _within = self.place;
    }

    /// The entire text.
    pub fn text(&self) -> &'a [u8]
        ensures { result.now ≡ self.now.text }
    {
        self.text
    }

    /// Goes to a place of the text: at most its length. What was taken after it can be taken again.
    #[inline(always)]
    pub fn go_to(&mut self, place: usize)
        requires { place ≤ length self.old.text }
        ensures { self.new ≡ record { text = self.old.text; place = place } }
    {
        let (next, byte) = after_rare_blanks(self.text, place);
        self.place = place;
        self.next = next;
        self.byte = byte;
    }

    /// Whether only blanks follow from the place on.
    pub fn at_end(&self) -> bool
        ensures { result ≡ is_over self.now.text self.now.place }
    {
        self.next == self.text.len()
    }

    // Goes to the place `end`, and past the blanks there.
    #[inline(always)]
    #[tactic(auto, using(crate::proofs::Blanks::past_blanks_twice))]
    fn pass_to(&mut self, end: usize)
        requires { end ≤ length self.old.text }
        ensures text { self.new.text ≡ self.old.text }
        ensures place { self.new.place ≡ past_blanks self.old.text end }
        ensures from { end ≤ self.new.place }
    {
        let (next, byte) = after_rare_blanks(self.text, end);
        self.place = next;
        self.next = next;
        self.byte = byte;
    }

    // The same, where this byte is at `end`: 0 at the end of the text.
    #[inline(always)]
    #[tactic(auto, using(crate::proofs::Blanks::past_blanks_none, crate::proofs::Blanks::past_blanks_twice))]
    fn pass_from(&mut self, end: usize, byte: u8)
        requires within { end ≤ length self.old.text }
        requires byte { byte ≡ get_or self.old.text end 0 }
        ensures text { self.new.text ≡ self.old.text }
        ensures place { self.new.place ≡ past_blanks self.old.text end }
        ensures from { end ≤ self.new.place }
    {
        if byte == b' ' {
            *self = Cursor::new(self.text, end);
            self.place = self.next;
            return;
        }
        self.place = end;
        self.next = end;
        self.byte = byte;
    }

    /// The next byte, or `None` at the end. Nothing is taken.
    ///
    /// It says what can be found at the place, so that a caller need not try anything else.
    #[inline(always)]
    pub fn next_byte(&self) -> Option<u8>
        ensures { IsNextToken self.now.text self.now.place result }
    {
        if self.byte != 0 {
            return Some(self.byte);
        }
        if self.next == self.text.len() {
            return None;
        }
        Some(self.byte)
    }

    /// Takes the next byte, whichever it is. There must be one, as `next_byte` says.
    #[inline(always)]
    pub fn take_byte(&mut self)
        requires { IsSome (next_byte_at self.old.text self.old.place) }
        ensures place { self.new.place ≡ past_byte self.old.text self.old.place }
        ensures text { self.new.text ≡ self.old.text }
        ensures taken { bytes_left self.new < bytes_left self.old }
    {
        self.pass_to(self.next + 1);
    }

    /// The same, faster where a blank follows.
    #[inline(always)]
    #[tactic(auto, using(crate::proofs::Blanks::past_blanks_twice))]
    pub fn take_spaced_byte(&mut self)
        requires { IsSome (next_byte_at self.old.text self.old.place) }
        ensures place { self.new.place ≡ past_byte self.old.text self.old.place }
        ensures text { self.new.text ≡ self.old.text }
        ensures taken { bytes_left self.new < bytes_left self.old }
    {
        let (place, byte) = after_blanks(self.text, self.next + 1);
        self.place = place;
        self.next = place;
        self.byte = byte;
    }

    /// Takes this byte, if it is next.
    #[inline(always)]
    pub fn token(&mut self, byte: u8) -> bool
        ensures value { token_at byte self.old.text self.old.place
            ≡ (if result then Some self.new.place else None) }
        ensures text { self.new.text ≡ self.old.text }
        ensures taken { IsTrue result → bytes_left self.new < bytes_left self.old }
        ensures left { bytes_left self.new ≤ bytes_left self.old }
        ensures absent { IsFalse result → self.new.place ≡ self.old.place }
    {
        match self.next_byte() {
            Some(next) if next == byte => {
                self.take_byte();
                true
            }
            _ => false,
        }
    }

    /// Takes these two bytes, if they are next with nothing between them.
    #[inline(always)]
    #[tactic(auto, using(crate::proofs::Pairs::pair_there, crate::proofs::Pairs::pair_other, crate::proofs::Pairs::pair_other_second, crate::proofs::Pairs::pair_cut))]
    pub fn pair(&mut self, first: u8, second: u8) -> bool
        ensures value { pair_at first second self.old.text self.old.place
            ≡ (if result then Some self.new.place else None) }
        ensures text { self.new.text ≡ self.old.text }
        ensures taken { IsTrue result → bytes_left self.new < bytes_left self.old }
        ensures left { bytes_left self.new ≤ bytes_left self.old }
        ensures absent { IsFalse result → self.new.place ≡ self.old.place }
    {
        if self.next + 1 < self.text.len()
            && self.byte == first
            && self.text[self.next + 1] == second
        {
            self.pass_to(self.next + 2);
            true
        } else {
            false
        }
    }

    /// The letter A to Z that is next, if one is. Nothing is taken.
    #[inline(always)]
    pub fn next_letter(&self) -> Option<Letter>
        ensures value { letter_at self.now.text self.now.place
            ≡ option_map (λ b. (b, past_byte self.now.text self.now.place)) result }
        ensures there { IsSome result → IsSome (next_byte_at self.now.text self.now.place) }
    {
        Letter::new(self.byte)
    }

    /// Takes a letter A to Z, if one is next.
    #[inline(always)]
    pub fn letter(&mut self) -> Option<Letter>
        ensures value { letter_at self.old.text self.old.place
            ≡ option_map (λ b. (b, self.new.place)) result }
        ensures text { self.new.text ≡ self.old.text }
        ensures taken { IsSome result → bytes_left self.new < bytes_left self.old }
        ensures left { bytes_left self.new ≤ bytes_left self.old }
        ensures absent { IsNone result → self.new.place ≡ self.old.place }
    {
        let letter = self.next_letter()?;
        self.take_byte();
        Some(letter)
    }

    /// Takes the longest run of digits that is next.
    ///
    /// A number over 32767 is taken too. Where there is no digit, nothing is taken.
    #[inline(always)]
    pub fn number(&mut self) -> Number
        ensures value { number_at self.old.text self.old.place ≡ (result, self.new.place) }
        ensures text { self.new.text ≡ self.old.text }
        ensures taken { IsTrue (is_number result) → bytes_left self.new < bytes_left self.old }
        ensures left { bytes_left self.new ≤ bytes_left self.old }
        ensures absent { IsFalse (is_number result) → self.new.place ≡ self.old.place }
    {
        if !self.byte.is_ascii_digit() {
            return Number::Absent;
        }
        let (value, end, byte) = digits_at(self.text, self.next, self.byte);
        self.pass_from(end, byte);
        match i16::try_from(value) {
            Ok(value) => Number::Value(value),
            Err(_) => Number::TooBig,
        }
    }

    /// Takes the first word of the table that is next, complete or abbreviated with a period.
    #[inline(always)]
    pub fn word(&mut self, table: Table) -> Option<Word>
        ensures value { word_at table self.old.text self.old.place
            ≡ option_map (λ w. (w, self.new.place)) result }
        ensures word { IfSome result (IsWordOf table) }
        ensures text { self.new.text ≡ self.old.text }
        ensures taken { IsSome result → bytes_left self.new < bytes_left self.old }
        ensures left { bytes_left self.new ≤ bytes_left self.old }
        ensures absent { IsNone result → self.new.place ≡ self.old.place }
    {
        if self.next + 1 >= self.text.len() || !continues_word(self.text[self.next + 1]) {
            return None;
        }
        let found = found_word(self.text, self.next, table)?;
        self.pass_to(usize::from(found.end));
        Some(found.word)
    }

    /// Takes a string with its quotes, which are alike: `'` or `"`.
    ///
    /// Its text borrows from the source. Where a quote has no partner, nothing is taken.
    pub fn quoted(&mut self) -> Quoted<'a>
        ensures value { quotation_at self.old.text self.old.place
            ≡ quotation_of result self.new.place }
        ensures piece { IsPieceFrom (past_blanks self.old.text self.old.place + 1)
            self.old.text result }
        ensures text { self.new.text ≡ self.old.text }
        ensures taken { IsTrue (is_text result) → bytes_left self.new < bytes_left self.old }
        ensures left { bytes_left self.new ≤ bytes_left self.old }
        ensures absent { IsFalse (is_text result) → self.new.place ≡ self.old.place }
    {
        let quote = match self.next_byte() {
            Some(byte) if byte == b'"' || byte == b'\'' => byte,
            _ => return Quoted::Absent,
        };
        let rest = &self.text[self.next + 1..];
        let Some(count) = bytes_before(rest, quote) else {
            return Quoted::Unclosed;
        };
        self.pass_to(self.next + 1 + count + 1);
        Quoted::Text(&rest[..count])
    }
}
