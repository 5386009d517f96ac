// This file finds the words of the language in a text.

ghost use Rattle.std.specs.Prelude.{◌≡◌, ◌+◌, ◌<◌, ◌≤◌, [], ◌∷◌, length, IsTrue, IfSome};
ghost use Rattle.std.specs.Prelude.{option_map, drop, not, ◌==◌, ◌||◌, nat_le};
ghost use Rattle.std.specs.List.{list_all};
ghost use Rattle.ptb_text.specs.WordSearch.{FindsWord};
ghost use Rattle.ptb_text.specs.Words.{spelling_in_front, words, IsCommand, IsFunction, IsWordOf};

use crate::word::{Table, Word};

// What looks for a word is inlined in one function, `found_word`: a result that a call passes in memory
// is read back late.

// what follows a word that is cut
const PERIOD: u8 = b'.';

/// Whether the byte can be the second of a word: each has two letters at least, of which all but the
/// first may be cut with a period. Most letters are variables, and the byte after them shows it.
#[inline(always)]
pub(crate) fn continues_word(byte: u8) -> bool
    ensures { result ≡ (nat_le 65 byte || (byte == PERIOD)) }
{
    byte >= b'A' || byte == PERIOD
}

// The place after all the letters of a word, or after some of them from the front and a period.
#[inline(always)]
#[tactic(auto, using(crate::proofs::Words::spelt_word, crate::proofs::Words::spelt_more, crate::proofs::Words::spelt_stop, crate::proofs::Words::spelt_cut, crate::proofs::Words::spelt_end))]
fn spelling_end(text: &[u8], place: usize, letters: &[u8]) -> Option<usize>
    requires within { place ≤ length text.now }
    requires some { 0 < length letters.now }
    requires no_period { IsTrue (list_all (λ c. not (c == PERIOD)) letters.now) }
    ensures value { option_map (λ s. place + length s)
        (spelling_in_front letters.now (drop place text.now)) ≡ result }
    ensures end { IfSome result (λ end. (place < end) × (end ≤ length text.now)) }
{
    let mut at = place;
    for letter in letters {
        if at == text.len() {
            return None;
        }
        let byte = text[at];
        if byte != *letter {
            return (at > place && byte == PERIOD).then_some(at + 1);
        }
        at += 1;
    }
    Some(at)
}

// The word, if it is at `place`, and the place after it.
#[inline(always)]
fn spelled_word(text: &[u8], place: usize, word: Word, letters: &[u8]) -> Option<(Word, usize)>
    requires within { place ≤ length text.now }
    requires some { 0 < length letters.now }
    requires no_period { IsTrue (list_all (λ c. not (c == PERIOD)) letters.now) }
    ensures value { FindsWord ((word, letters.now) ∷ []) text.now place result }
    ensures word { IfSome result (λ found. found.0 ≡ word) }
{
    spelling_end(text, place, letters).map(|end| (word, end))
}

// The first command word at `place`. Only words that begin with the byte there can be it.
fn command_at(text: &[u8], place: usize) -> Option<(Word, usize)>
    requires { place < length text.now }
    ensures value { FindsWord (words Table.Commands) text.now place result }
    ensures word { IfSome result (λ found. IsCommand found.0) }
{
    match text[place] {
        b'I' => {
            let found_if = spelled_word(text, place, Word::IfKw, b"IF");
            found_if.or_else(|| spelled_word(text, place, Word::InputKw, b"INPUT"))
        }
        b'N' => spelled_word(text, place, Word::NextKw, b"NEXT"),
        b'L' => spelled_word(text, place, Word::LetKw, b"LET"),
        b'G' => {
            let found_goto = spelled_word(text, place, Word::GotoKw, b"GOTO");
            found_goto.or_else(|| spelled_word(text, place, Word::GosubKw, b"GOSUB"))
        }
        b'R' => {
            let found_return = spelled_word(text, place, Word::ReturnKw, b"RETURN");
            found_return.or_else(|| spelled_word(text, place, Word::RemKw, b"REM"))
        }
        b'F' => spelled_word(text, place, Word::ForKw, b"FOR"),
        b'P' => spelled_word(text, place, Word::PrintKw, b"PRINT"),
        b'S' => spelled_word(text, place, Word::StopKw, b"STOP"),
        _ => None,
    }
}

// The first function word at `place`.
fn function_at(text: &[u8], place: usize) -> Option<(Word, usize)>
    requires { place < length text.now }
    ensures value { FindsWord (words Table.Functions) text.now place result }
    ensures word { IfSome result (λ found. IsFunction found.0) }
{
    match text[place] {
        b'R' => spelled_word(text, place, Word::RndKw, b"RND"),
        b'A' => spelled_word(text, place, Word::AbsKw, b"ABS"),
        b'S' => spelled_word(text, place, Word::SizeKw, b"SIZE"),
        _ => None,
    }
}

// The first word of the table that is at `place`, and the place after it.
#[inline(always)]
fn table_word_at(text: &[u8], place: usize, table: Table) -> Option<(Word, usize)>
    requires { place < length text.now }
    ensures value { FindsWord (words table) text.now place result }
    ensures word { IfSome result (λ found. IsWordOf table found.0) }
{
    match table {
        Table::Commands => command_at(text, place),
        Table::Functions => function_at(text, place),
        Table::To => spelled_word(text, place, Word::ToKw, b"TO"),
        Table::Step => spelled_word(text, place, Word::StepKw, b"STEP"),
    }
}

/// A word that was found in a text of at most 255 bytes.
// It takes 2 bytes, so that no call passes it in memory.
#[derive(Clone, Copy)]
pub(crate) struct FoundWord {
    /// The word.
    pub(crate) word: Word,
    /// The place after it.
    pub(crate) end: u8,
}

/// The first word of the table that is at `place`. Not inlined, so that what takes words stays small; a byte
/// that continues a word was seen before.
#[inline(never)]
pub(crate) fn found_word(text: &[u8], place: usize, table: Table) -> Option<FoundWord>
    requires some { place < length text.now }
    requires short { length text.now ≤ 255 }
    ensures value { FindsWord (words table) text.now place (option_map (λ f. (f.word, f.end)) result) }
    ensures word { IfSome result (λ found. IsWordOf table found.word) }
{
    let (word, end) = table_word_at(text, place, table)?;
    Some(FoundWord {
        word,
        end: end as u8,
    })
}
