// This file tries the cursor at texts whose words, tokens, numbers and strings are known.

use crate::tests::shared::{Row, expect_rows, expect_same, table};
use ptb_text::{Cursor, Letter, LoadFault, Number, Program, Quoted, Table, Word};
use std::alloc::Global;

// What is looked for at a place of a text, and what is found there.
enum Find {
    Word(Table, Option<Word>),
    Token(u8, bool),
    // the token `>=`
    AtLeast(bool),
    Letter(Option<u8>),
    Quoted(Quoted<'static>),
}

// A text, a place there, what is found, and the place after that.
struct Found(&'static str, usize, Find, usize);

// Whether this is found at the cursor.
fn finds(cursor: &mut Cursor<'_>, find: &Find) -> bool {
    match *find {
        Find::Word(table, word) => cursor.word(table) == word,
        Find::Token(byte, found) => cursor.token(byte) == found,
        Find::AtLeast(found) => cursor.pair(b'>', b'=') == found,
        Find::Letter(Some(byte)) => {
            let letter = Letter::new(byte);
            cursor.next_letter() == letter && cursor.letter() == letter
        }
        Find::Letter(None) => cursor.next_letter().is_none() && cursor.letter().is_none(),
        Find::Quoted(quoted) => cursor.quoted() == quoted,
    }
}

impl Row<()> for Found {
    fn holds(&self, _context: &()) -> bool {
        let Found(text, place, find, after) = self;
        if *place > text.len() || text.len() > 255 {
            return false;
        }
        let mut cursor = Cursor::new(text.as_bytes(), *place);
        finds(&mut cursor, find) && cursor.place() == *after
    }
}

const WORDS: &[Found] = table! { Found:
    ("NEXT I", 0, Find::Word(Table::Commands, Some(Word::NextKw)), 5),
    ("N.I", 0, Find::Word(Table::Commands, Some(Word::NextKw)), 2),
    ("LET A", 0, Find::Word(Table::Commands, Some(Word::LetKw)), 4),
    ("LE.A", 0, Find::Word(Table::Commands, Some(Word::LetKw)), 3),
    ("IF 1", 0, Find::Word(Table::Commands, Some(Word::IfKw)), 3),
    ("I.1", 0, Find::Word(Table::Commands, Some(Word::IfKw)), 2),
    ("GOTO 10", 0, Find::Word(Table::Commands, Some(Word::GotoKw)), 5),
    ("G.10", 0, Find::Word(Table::Commands, Some(Word::GotoKw)), 2),
    ("GO. 10", 0, Find::Word(Table::Commands, Some(Word::GotoKw)), 4),
    ("GOSUB10", 0, Find::Word(Table::Commands, Some(Word::GosubKw)), 5),
    ("GOS.10", 0, Find::Word(Table::Commands, Some(Word::GosubKw)), 4),
    ("RETURN", 0, Find::Word(Table::Commands, Some(Word::ReturnKw)), 6),
    ("R.", 0, Find::Word(Table::Commands, Some(Word::ReturnKw)), 2),
    ("RE.", 0, Find::Word(Table::Commands, Some(Word::ReturnKw)), 3),
    ("REM;", 0, Find::Word(Table::Commands, Some(Word::RemKw)), 3),
    ("F.I=1", 0, Find::Word(Table::Commands, Some(Word::ForKw)), 2),
    ("IN.A", 0, Find::Word(Table::Commands, Some(Word::InputKw)), 3),
    ("INPUT A", 0, Find::Word(Table::Commands, Some(Word::InputKw)), 6),
    ("PRINT.", 0, Find::Word(Table::Commands, Some(Word::PrintKw)), 5),
    ("  P. 1", 0, Find::Word(Table::Commands, Some(Word::PrintKw)), 5),
    ("STOP", 0, Find::Word(Table::Commands, Some(Word::StopKw)), 4),
    ("S.", 0, Find::Word(Table::Commands, Some(Word::StopKw)), 2),
    ("PTINT", 0, Find::Word(Table::Commands, None), 0),
    ("P RINT", 0, Find::Word(Table::Commands, None), 0),
    ("  A=1", 0, Find::Word(Table::Commands, None), 0),
    (" .", 0, Find::Word(Table::Commands, None), 0),
    ("", 0, Find::Word(Table::Commands, None), 0),
    ("R.(6)", 0, Find::Word(Table::Functions, Some(Word::RndKw)), 2),
    ("AB. (1)", 0, Find::Word(Table::Functions, Some(Word::AbsKw)), 4),
    ("SIZE", 0, Find::Word(Table::Functions, Some(Word::SizeKw)), 4),
    ("TO", 0, Find::Word(Table::Functions, None), 0),
    ("T.3", 0, Find::Word(Table::To, Some(Word::ToKw)), 2),
    ("S.2", 0, Find::Word(Table::Step, Some(Word::StepKw)), 2),
    ("TO3", 0, Find::Word(Table::Step, None), 0),
};

const TOKENS: &[Found] = table! { Found:
    ("A ; B", 1, Find::Token(b';', true), 4),
    ("A ; B", 1, Find::Token(b'B', false), 1),
    ("(1)", 0, Find::Token(b'(', true), 1),
    (" )", 0, Find::Token(b'(', false), 0),
    ("=  ", 0, Find::Token(b'=', true), 3),
    ("  ", 0, Find::Token(b' ', false), 0),
    ("7>=8", 1, Find::AtLeast(true), 3),
    ("7 >= 8", 1, Find::AtLeast(true), 5),
    ("7> =8", 1, Find::AtLeast(false), 1),
    ("7>", 1, Find::AtLeast(false), 1),
    ("7=>8", 1, Find::AtLeast(false), 1),
};

const LETTERS: &[Found] = table! { Found:
    ("A=1", 0, Find::Letter(Some(b'A')), 1),
    (" Z  (", 0, Find::Letter(Some(b'Z')), 4),
    ("a", 0, Find::Letter(None), 0),
    ("@(1)", 0, Find::Letter(None), 0),
    (" [", 0, Find::Letter(None), 0),
    ("", 0, Find::Letter(None), 0),
};

// A text, the number in front of it, and the place after that; a cursor finds both, and so does a program in
// which the text is entered as a line.
struct InFront(&'static str, Number, usize);

// Whether a line has this number in front of this text. A number without a text deletes its statement.
fn is_entered(alloc: Global, line: &str, number: Number, text: &[u8]) -> bool {
    let mut program = Program::new(alloc, 4096);
    let entered = program.enter(line.as_bytes());
    match number {
        Number::Value(value) if value > 0 => {
            let wanted = if text.is_empty() { None } else { Some(text) };
            entered == Ok(()) && program.line(value) == wanted
        }
        Number::TooBig => entered == Err(LoadFault::NumberTooBig),
        Number::Absent if line.is_empty() => entered == Ok(()) && program.is_empty(),
        _ => entered == Err(LoadFault::NoNumber),
    }
}

impl Row<Global> for InFront {
    fn holds(&self, alloc: &Global) -> bool {
        let InFront(line, number, after) = *self;
        if line.len() > 255 {
            return false;
        }
        let mut cursor = Cursor::new(line.as_bytes(), 0);
        match line.as_bytes().get(after..) {
            Some(text) => {
                cursor.number() == number
                    && cursor.place() == after
                    && is_entered(*alloc, line, number, text)
            }
            None => false,
        }
    }
}

const NUMBERS: &[InFront] = table! { InFront:
    ("0", Number::Value(0), 1),
    (" 0012 ;", Number::Value(12), 6),
    ("32767", Number::Value(32767), 5),
    ("32768 ", Number::TooBig, 6),
    ("00032767A", Number::Value(32767), 8),
    ("1 2", Number::Value(1), 2),
    ("  A1", Number::Absent, 0),
    ("", Number::Absent, 0),
};

const STRINGS: &[Found] = table! { Found:
    ("\"HI\"", 0, Find::Quoted(Quoted::Text(b"HI")), 4),
    ("'A\"B' ,", 0, Find::Quoted(Quoted::Text(b"A\"B")), 6),
    (" \"'\"", 0, Find::Quoted(Quoted::Text(b"'")), 4),
    ("'' ;", 0, Find::Quoted(Quoted::Text(b"")), 3),
    (" 'B", 0, Find::Quoted(Quoted::Unclosed), 0),
    ("\"B'", 0, Find::Quoted(Quoted::Unclosed), 0),
    ("B'B'", 0, Find::Quoted(Quoted::Absent), 0),
    (" ", 0, Find::Quoted(Quoted::Absent), 0),
};

// A digit two hundred times, and the number that this is.
struct Digits(u8, Number);

impl Row<()> for Digits {
    fn holds(&self, _context: &()) -> bool {
        let text = [self.0; 200];
        let mut cursor = Cursor::new(&text, 0);
        cursor.number() == self.1 && cursor.place() == 200
    }
}

const DIGITS: &[Digits] = &[Digits(b'9', Number::TooBig), Digits(b'0', Number::Value(0))];

// Whether a line of blanks enters nothing, whatever its length, and a number may come after as many blanks.
fn are_long_blanks_passed(alloc: Global) -> bool {
    let mut program = Program::new(alloc, 4096);
    let mut line = [b' '; 300];
    if program.enter(&line) != Ok(()) || !program.is_empty() {
        return false;
    }
    line[290] = b'7';
    line[299] = b'A';
    program.enter(&line) == Ok(()) && program.line(7) == Some(b"A".as_slice())
}

// A byte, and how many letters are before it, if it is one.
struct Byte(u8, Option<usize>);

impl Row<()> for Byte {
    fn holds(&self, _context: &()) -> bool {
        match Letter::new(self.0) {
            Some(letter) => self.1 == Some(letter.index()),
            None => self.1.is_none(),
        }
    }
}

const BYTES: &[Byte] = table! { Byte:
    (b'A', Some(0)),
    (b'I', Some(8)),
    (b'Z', Some(25)),
    (b'@', None),
    (b'[', None),
    (b'a', None),
    (b'0', None),
};

// A place of the text `A  B` to which a cursor goes from another place, whether it is the end, and the
// next byte.
struct Place(usize, usize, bool, Option<u8>);

const SPACED: &[u8] = b"A  B";

impl Row<()> for Place {
    fn holds(&self, _context: &()) -> bool {
        let Place(from, place, is_end, next) = *self;
        let mut cursor = Cursor::new(SPACED, from.min(4));
        cursor.go_to(place.min(4));
        (cursor.place(), cursor.at_end(), cursor.next_byte()) == (place, is_end, next)
            && cursor.text() == SPACED
    }
}

const PLACES: &[Place] = table! { Place:
    (0, 3, false, Some(b'B')),
    (3, 4, true, None),
    (4, 0, false, Some(b'A')),
    (0, 2, false, Some(b'B')),
    (2, 1, false, Some(b'B')),
};

// Whether the byte A is seen ahead, taken, and nothing comes after it.
fn is_taken() -> bool {
    let mut cursor = Cursor::new(b" A  ", 0);
    if cursor.place() != 0 || cursor.at_end() || cursor.next_byte() != Some(b'A') {
        return false;
    }
    cursor.take_byte();
    cursor.next_byte().is_none() && cursor.place() == 4 && cursor.at_end()
}

// Whether bytes are taken with the blanks after them where these are expected, as without.
fn are_spaced_taken() -> bool {
    let mut cursor = Cursor::new(SPACED, 0);
    if cursor.next_byte() != Some(b'A') {
        return false;
    }
    cursor.take_spaced_byte();
    if cursor.place() != 3 || cursor.next_byte() != Some(b'B') {
        return false;
    }
    cursor.take_spaced_byte();
    cursor.place() == 4 && cursor.at_end()
}

#[test]
fn finds_what_is_there(rt: HostRuntime) {
    expect_rows(&rt, "words", &(), WORDS);
    expect_rows(&rt, "tokens", &(), TOKENS);
    expect_rows(&rt, "letters", &(), LETTERS);
    expect_rows(&rt, "numbers", &rt.alloc(), NUMBERS);
    expect_rows(&rt, "digits", &(), DIGITS);
    expect_rows(&rt, "strings", &(), STRINGS);
    expect_rows(&rt, "bytes", &(), BYTES);
    expect_rows(&rt, "places", &(), PLACES);
    expect_same(
        &rt,
        "A and B differ",
        Letter::new(b'A') != Letter::new(b'B'),
        true,
    );
    expect_same(&rt, "long blanks", are_long_blanks_passed(rt.alloc()), true);
    expect_same(&rt, "a byte is taken", is_taken(), true);
    expect_same(&rt, "spaced bytes are taken", are_spaced_taken(), true);
}
