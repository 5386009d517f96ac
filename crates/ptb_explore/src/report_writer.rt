// This file has the writer of many reports, one after the other, which keeps the text of the last one.

ghost use Rattle.std.specs.Prelude.{◌≡◌, ◌==◌, ◌+◌, ◌<◌, ◌≤◌, [], ◌∷◌, ◌++◌, length, take, codes, decimal};
ghost use Rattle.std.specs.Prelude.{IsTrue, IsFalse, if◌then◌else◌, ℤ, Option, None, Some};
ghost use Rattle.ptb_explore.specs.Prelude.{signed_decimal, in_form, item_text, WritesText, writes_of, asked_items};
ghost use Rattle.ptb_explore.specs.Prelude.{field, report_ending, text_of_report, header_prefix, marked_of};
ghost use Rattle.ptb_explore.specs.Prelude.{marked_items, AreEnds, BeginsWith};

use crate::kept_items::{KeptItem, KeptItems, MOST_ITEMS};
use crate::report_text::{Parts, write_in_pieces};
use itoa::{Buffer, Integer};
use ptb_answers::{Asked, Form};
use ptb_text::{ByteBuffer, DeviceFault, Write};

// How many bytes of a report are gathered at most.
const MOST_BYTES: usize = 4096;

// What comes before the answers.
const START: &[u8] = b"RUN ";

// No item has more bytes: a comma, two numbers of 16 bits, and `/` between them.
const ITEM_ROOM: usize = 14;

// What comes after the answers has no more bytes than this, apart from its word and the transcript.
const NUMBERS_ROOM: usize = 48;

// The text of a report, on the stack, since a report takes no memory.
type Text = ByteBuffer<MOST_BYTES>;

// The bound of an answer as a form has it.
#[inline(always)]
fn bound_in(form: Form, bound: i16) -> Option<i16>
    ensures { (answer : ℤ) → result ≡ (in_form form answer bound).bound }
{
    match form {
        Form::One => None,
        Form::Two => Some(bound),
    }
}

// Whether an item is the one of an answer, as a form has it.
#[inline(always)]
fn is_item(item: &KeptItem, answer: i16, bound: Option<i16>) -> bool
    ensures { IsTrue result → marked_of item.now ≡ record { answer = answer; bound = bound } }
{
    if item.answer != answer {
        return false;
    }
    match (item.bound, bound) {
        (None, None) => true,
        (Some(kept), Some(number)) => kept == number,
        _ => false,
    }
}

// How many of the first answers are those of the items, as a form has them.
#[inline(always)]
fn count_same(items: &[KeptItem], form: Form, asked: &[Asked]) -> usize
    ensures items { result ≤ length items.now }
    ensures asked { result ≤ length asked.now }
    ensures same { take result (marked_items items.now)
        ≡ take result (asked_items form asked.now) }
{
    let most = items.len().min(asked.len());
    for k in 0..most {
        let Asked { answer, bound } = asked[k];
        if !is_item(&items[k], answer, bound_in(form, bound)) {
            return k;
        }
    }
    most
}

// How many bytes the text has up to the end of so many items.
#[inline(always)]
fn end_of(kept: &[KeptItem], count: usize) -> usize
    requires { count ≤ length kept.now }
    ensures end { AreEnds kept.now → result ≡ length (header_prefix (take count (marked_items kept.now))) }
{
    if count == 0 {
        START.len()
    } else {
        kept[count - 1].end
    }
}

// Cuts the items and their text, so that so many items are left.
#[inline(always)]
fn cut(kept: &mut KeptItems, text: &mut Text, count: usize)
    requires begins { BeginsWith text.old (header_prefix (marked_items kept.old)) }
    requires ends { AreEnds kept.old }
    requires within { count ≤ length kept.old }
    ensures items { marked_items kept.new ≡ take count (marked_items kept.old) }
    ensures ends { AreEnds kept.new }
    ensures text { text.new ≡ header_prefix (take count (marked_items kept.old)) }
{
    let end = end_of(kept.as_slice(), count);
    kept.truncate(count);
    text.cut(end);
}

// Adds the text of a number of at most two digits.
#[inline(always)]
fn add_short(text: &mut Text, number: usize)
    requires short { number < 100 }
    requires room { length text.old + 2 ≤ 4096 }
    ensures text { text.new ≡ text.old ++ decimal number }
    ensures length { length text.new ≤ length text.old + 2 }
{
    if number < 10 {
        text.push(b'0' + number as u8);
    } else {
        text.push(b'0' + (number / 10) as u8);
        text.push(b'0' + (number % 10) as u8);
    }
}

// Adds the text of a number.
#[inline(always)]
fn add_count(text: &mut Text, number: usize)
    requires { length text.old + 20 ≤ 4096 }
    ensures text { text.new ≡ text.old ++ decimal number }
    ensures length { length text.new ≤ length text.old + 20 }
{
    if number < 100 {
        add_short(text, number)
    } else {
        add_long(text, number)
    }
}

// Adds the text of a number that may have many digits.
// Not inlined, since the room for the digits is cleared.
#[inline(never)]
fn add_long<N: Integer>(text: &mut Text, number: N)
    requires { length text.old + N.MAX_STR_LEN ≤ 4096 }
    ensures text { text.new ≡ text.old ++ N.text number }
    ensures length { length text.new ≤ length text.old + N.MAX_STR_LEN }
{
    text.append(Buffer::new().format(number).as_bytes());
}

// Adds the text of an answer or a bound.
#[inline(always)]
fn add_number(text: &mut Text, number: i16)
    requires { length text.old + 6 ≤ 4096 }
    ensures text { text.new ≡ text.old ++ signed_decimal number }
    ensures length { length text.new ≤ length text.old + 6 }
{
    match usize::try_from(number) {
        Ok(short) if short < 100 => add_short(text, short),
        _ => add_long(text, number),
    }
}

// Adds the item at a place, after a comma if it isn't the first.
#[inline(always)]
fn add_item(text: &mut Text, place: usize, answer: i16, bound: Option<i16>)
    requires { length text.old + 14 ≤ 4096 }
    ensures { text.new ≡ text.old ++ ((if place == 0 then [] else codes ",")
        ++ item_text (record { answer = answer; bound = bound })) }
{
    if place != 0 {
        text.push(b',');
    }
    add_number(text, answer);
    if let Some(number) = bound {
        text.push(b'/');
        add_number(text, number);
    }
}

// Adds the answers from a place on, as a form has them, and keeps their items. Says whether there was
// room for their text.
#[inline(always)]
fn add_items(
    kept: &mut KeptItems,
    text: &mut Text,
    form: Form,
    asked: &[Asked],
    first: usize,
) -> bool
    requires few { length asked.now ≤ 256 }
    requires within { first ≤ length asked.now }
    requires items { marked_items kept.old ≡ take first (asked_items form asked.now) }
    requires ends { AreEnds kept.old }
    requires text { text.old ≡ header_prefix (take first (asked_items form asked.now)) }
    ensures begins { BeginsWith text.new (header_prefix (marked_items kept.new)) }
    ensures ends { AreEnds kept.new }
    ensures all { IsTrue result
        → text.new ≡ header_prefix (asked_items form asked.now) }
{
    for k in first..asked.len() {
        if text.room() < ITEM_ROOM {
            return false;
        }
        let Asked { answer, bound } = asked[k];
        let bound = bound_in(form, bound);
        add_item(text, k, answer, bound);
        keep_item(kept, text, answer, bound);
    }
    true
}

// Keeps the item that the text ends with.
#[inline(always)]
fn keep_item(kept: &mut KeptItems, text: &Text, answer: i16, bound: Option<i16>)
    requires { length kept.old < 256 }
    ensures { kept.new ≡ kept.old
        ++ (record { answer = answer; bound = bound; end = length text.now }) ∷ [] }
{
    let end = text.len();
    kept.push(KeptItem { answer, bound, end });
}

// Whether there is room for what comes after the answers.
#[inline(always)]
fn has_room(text: &Text, word: &[u8], transcript: &[u8]) -> bool
    ensures { IsTrue result
        → length text.now + 48 + length word.now + length transcript.now ≤ 4096 }
{
    word.len() <= MOST_BYTES
        && transcript.len() <= MOST_BYTES
        && text.len() + NUMBERS_ROOM + word.len() + transcript.len() <= MOST_BYTES
}

// Adds what comes after the answers. Says whether there was room for it.
#[inline(always)]
fn add_ending(text: &mut Text, word: &[u8], steps: u32, transcript: &[u8]) -> bool
    ensures added { IsTrue result → text.new ≡ text.old
        ++ report_ending word.now steps transcript.now }
    ensures longer { BeginsWith text.new text.old }
{
    if !has_room(text, word, transcript) {
        return false;
    }
    add_figures(text, word, steps, transcript.len());
    text.append(transcript);
    text.push(b'\n');
    true
}

// Adds the word of an ending. Most often it has three letters: a call that copies so few takes longer.
#[inline(always)]
fn add_word(text: &mut Text, word: &[u8])
    requires { length text.old + length word.now ≤ 4096 }
    ensures { text.new ≡ text.old ++ word.now }
{
    match word {
        [a, b, c] => {
            let (first, second, third) = (*a, *b, *c);
            text.push(first);
            text.push(second);
            text.push(third);
        }
        _ => text.append(word),
    }
}

// Adds the word of an ending, the number of steps and the size of what was shown.
#[inline(always)]
fn add_figures(text: &mut Text, word: &[u8], steps: u32, size: usize)
    requires { length text.old + length word.now + 47 ≤ 4096 }
    ensures text { text.new ≡ text.old
        ++ (field word.now ++ field (decimal steps) ++ field (decimal size) ++ codes "\n") }
    ensures length { length text.new ≤ length text.old + length word.now + 47 }
{
    text.push(b' ');
    add_word(text, word);
    text.push(b' ');
    add_count(text, steps as usize);
    text.push(b' ');
    add_count(text, size);
    text.push(b'\n');
}

/// Writes the reports of runs, one after the other.
///
/// It has the text of the last report that was short, and the first items of its header. Of a
/// report that begins with some of these items, only what comes after them is made again.
///
/// Public so that tests can try it.
#[derive(Drop)]
pub struct ReportWriter {
    // The first items of the header.
    kept: KeptItems,
    // The text of the report, or a prefix of it.
    text: Text,
    ghost begins: { BeginsWith text (header_prefix (marked_items kept)) },
    ghost ends: { AreEnds kept },
}

impl ReportWriter {
    /// A writer that has written no report yet.
    pub fn new() -> ReportWriter {
        let mut text = Text::new();
        text.append(START);
        ReportWriter {
            kept: KeptItems::new(),
            text,
        }
    }

    // Makes the text of a report that has answers. Says whether there was room for it.
    #[inline(always)]
    fn gather(&mut self, report: &Parts) -> bool
        ensures { IsTrue result → self.new.text ≡ text_of_report report.now }
    {
        let (form, asked) = (report.form, report.asked);
        if asked.is_empty() {
            return false;
        }
        if asked.len() > MOST_ITEMS {
            return false;
        }
        let same = count_same(self.kept.as_slice(), form, asked);
        cut(&mut self.kept, &mut self.text, same);
        let listed = add_items(&mut self.kept, &mut self.text, form, asked, same);
        listed && add_ending(&mut self.text, report.word, report.steps, report.transcript)
    }

    /// Writes the report of a run: its answers as the form has them, the word of its ending, its
    /// steps, and what it showed.
    ///
    /// It takes no memory, and writes a short report in one piece.
    ///
    /// # Errors
    ///
    /// [`DeviceFault::Write`] where the writer failed. A prefix of the report may have been taken then.
    #[inline(always)]
    pub fn write<W: Write>(&mut self, out: &mut W, report: &Parts) -> Result<(), DeviceFault>
        ensures { WritesText (writes_of W.contents W.failures out.old out.new)
            (text_of_report report.now) result }
    {
        if self.gather(report) {
            return out.write_all(self.text.as_slice());
        }
        // copied, so that it lies in memory for long reports alone
        let pieces = *report;
        write_in_pieces(out, &pieces)
    }
}
