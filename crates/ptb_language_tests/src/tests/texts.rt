// This file tests loading, entering and listing, also over devices that fail.

use crate::tests::shared::{Row, expect_rows, expect_same, table};
use crate::tests::sink::make_sink;
use ptb_text::{
    ByteSink, ByteSource, Device, DeviceFault, LoadFault, Program, Read, Write, list, load,
    split_line,
};
use std::alloc::{AllocError, Global};
use std::collections::BTreeMap;
use std::fmt::Display;
use std::io;

// Gives bytes in pieces, and fails where they end or at its end gives no more.
#[derive(Drop)]
struct Pieces<'a> {
    bytes: &'a [u8],
    piece: usize,
    fails: bool,
}

impl ByteSource for Pieces<'_> {
    fn read(&mut self, buf: &mut [u8]) -> io::Result<usize> {
        if self.bytes.is_empty() && self.fails {
            return Err(io::Error::from(io::ErrorKind::Other));
        }
        let taken = self.piece.min(self.bytes.len()).min(buf.len());
        buf[..taken].copy_from_slice(&self.bytes[..taken]);
        self.bytes = &self.bytes[taken..];
        Ok(taken)
    }
}

// Gives the byte 65 without end, and counts how often.
#[derive(Drop)]
struct Endless {
    given: usize,
}

impl ByteSource for &mut Endless {
    fn read(&mut self, buf: &mut [u8]) -> io::Result<usize> {
        for byte in buf.iter_mut() {
            *byte = b'A';
        }
        self.given = self.given.saturating_add(buf.len());
        Ok(buf.len())
    }
}

type Refusal = (u32, LoadFault);

// What is written of a program, to a writer that takes pieces of this length.
fn written(alloc: Global, program: &Program, piece: usize) -> Result<Vec<u8>, AllocError> {
    let mut sink = make_sink(alloc, piece, 0);
    match list(program, &mut Device::new(&mut sink)) {
        Ok(()) => Ok(sink.taken),
        Err(_) => Err(AllocError),
    }
}

// The program of a text that is read in pieces of this length.
fn loaded(alloc: Global, text: &[u8], piece: usize, memory: u16) -> Result<Program, Refusal> {
    let mut reader = Device::new(Pieces {
        bytes: text,
        piece,
        fails: false,
    });
    load(alloc, memory.clamp(64, 32767), &mut reader)
}

// Whether a text that is read and written in pieces of this length lists so, or is refused so; any
// listing will do where none is given.
fn is_listed(
    alloc: Global,
    text: &[u8],
    piece: usize,
    memory: u16,
    wanted: Result<Option<&[u8]>, Refusal>,
) -> Result<bool, AllocError> {
    match loaded(alloc, text, piece, memory) {
        Ok(program) => {
            let listing = written(alloc, &program, piece)?;
            Ok(wanted == Ok(None) || wanted == Ok(Some(listing.as_slice())))
        }
        Err((_, LoadFault::Memory)) => Err(AllocError),
        Err(refusal) => Ok(wanted == Err(refusal)),
    }
}

// A text, its memory, and its listing or why it is refused.
struct Text(&'static [u8], u16, Result<&'static [u8], Refusal>);

impl Row<Global> for Text {
    fn holds(&self, alloc: &Global) -> bool {
        let Text(text, memory, wanted) = *self;
        let due = match wanted {
            Ok(listing) => Ok(Some(listing)),
            Err(refusal) => Err(refusal),
        };
        for piece in [1, 5, 100_000] {
            let listed = is_listed(*alloc, text, piece, memory, due);
            if listed != Ok(true) {
                return false;
            }
        }
        true
    }
}

const ELEVEN_LINES: &[u8] =
    b"1 P.1\n2 P.1\n3 P.1\n4 P.1\n5 P.1\n6 P.1\n7 P.1\n8 P.1\n9 P.1\n10 P.1\n11 P.1\n";

const TEXTS: &[Text] = table! { Text:
    (b"", 4096, Ok(b"")),
    (b"10 PRINT \"HI\"", 4096, Ok(b"10 PRINT \"HI\"\n")),
    (b"10 P.1\n20 P.2\n010\tP.3\r\n20", 4096, Ok(b"10 P.3\n")),
    (b"20 P.\"B\"\n10 P.'A',;P.\n", 4096, Ok(b"10 P.'A',;P.\n20 P.\"B\"\n")),
    (b"10P.\t1 \r", 4096, Ok(b"10 P. 1 \n")),
    (b"\r\n   \n\t\r\n1 A=1\n\r", 4096, Ok(b"1 A=1\n")),
    (b"10 A=1\n 10", 4096, Ok(b"")),
    (b"10", 4096, Ok(b"")),
    (b"32767 STOP", 4096, Ok(b"32767 STOP\n")),
    (b"32768 P.1", 4096, Err((1, LoadFault::NumberTooBig))),
    (b"10 P.\x7f", 4096, Err((1, LoadFault::BadByte(6)))),
    (b"10 P.\r1", 4096, Err((1, LoadFault::BadByte(6)))),
    (b"10 P.1\r\r\n", 4096, Err((1, LoadFault::BadByte(7)))),
    (b"0 P.", 4096, Err((1, LoadFault::NoNumber))),
    (b"10 P.1\n\n\nP.2\n0", 4096, Err((4, LoadFault::NoNumber))),
    (b"P\x01", 4096, Err((1, LoadFault::BadByte(2)))),
    (ELEVEN_LINES, 64, Err((11, LoadFault::Full))),
    (ELEVEN_LINES, 65, Err((11, LoadFault::Full))),
    (ELEVEN_LINES, 66, Ok(ELEVEN_LINES)),
    (b"0 P.\x7f", 4096, Err((1, LoadFault::BadByte(5)))),
    (b"32768 P.\n0 P.", 4096, Err((1, LoadFault::NumberTooBig))),
    (b"1 P.1\n2 P.2\n1\n3 P.3\n1 P.4", 4096, Ok(b"1 P.4\n2 P.2\n3 P.3\n")),
    (b"1 ~\n2 !", 4096, Ok(b"1 ~\n2 !\n")),
    (b"1 A=123456789\n1 A=1234567890", 64, Ok(b"1 A=1234567890\n")),
};

// A text, another one so often, a third one, the memory, and the refusal, if they are refused together.
struct LongText(
    &'static str,
    &'static str,
    usize,
    &'static str,
    u16,
    Option<Refusal>,
);

const LONG_TEXTS: &[LongText] = table! { LongText:
    ("", "9", 200, " P.", 4096, Some((1, LoadFault::NumberTooBig))),
    ("10 A=", "9", 254, "", 4096, Some((1, LoadFault::TextTooLong))),
    ("10 A=", "9", 253, "\n", 4096, None),
    ("", "0", 200, "5 P.\n", 4096, None),
    ("10", " ", 300, "P.\n", 4096, None),
    ("1 P.1\n2 P.1\n1 A=", "1", 53, "", 64, None),
    ("1 P.1\n2 P.1\n1 A=", "1", 54, "", 64, Some((3, LoadFault::Full))),
    ("1 A=", "1", 59, "\n1 A=1\n2 A=1", 64, None),
    ("1 A=", "1", 59, "\n2 A", 64, Some((2, LoadFault::Full))),
    ("1 ", "A", 255, "", 64, Some((1, LoadFault::Full))),
    ("1 ", "A", 256, "", 64, Some((1, LoadFault::TextTooLong))),
    ("32768 ", "A", 256, "", 64, Some((1, LoadFault::NumberTooBig))),
    ("0 ", "A", 256, "", 64, Some((1, LoadFault::NoNumber))),
    ("0 ", "A", 256, "\x1f", 64, Some((1, LoadFault::BadByte(259)))),
    ("", "\n", 1_048_576, "", 4096, None),
    ("", "\n", 1_048_577, "", 4096, Some((0, LoadFault::TooLong))),
};

impl LongText {
    fn text(&self, alloc: Global) -> Result<String, AllocError> {
        let LongText(before, piece, count, following, _, _) = *self;
        let middle = piece.repeat(alloc, count)?;
        format!(in alloc; "{before}{middle}{following}")
    }
}

impl Row<Global> for LongText {
    fn holds(&self, alloc: &Global) -> bool {
        let wanted = match self.5 {
            Some(refusal) => Err(refusal),
            None => Ok(None),
        };
        match self.text(*alloc) {
            Ok(text) => is_listed(*alloc, text.as_bytes(), 4000, self.4, wanted) == Ok(true),
            Err(_) => false,
        }
    }
}

#[test]
fn texts_load_and_list(rt: HostRuntime) {
    expect_rows(&rt, "texts", &rt.alloc(), TEXTS);
    expect_rows(&rt, "first lines", &(), FIRST_LINES);
}

// Up to a million bytes each.
#[test]
fn long_lines(rt: HostRuntime) {
    expect_rows(&rt, "long texts", &rt.alloc(), LONG_TEXTS);
}

// Passes whichever of its allocations is refused: the answer is lack of memory, or the listing.
#[test]
fn refused_growths_are_answered(rt: HostRuntime) {
    let text = b"20 P.2\n10 A=1\n20\n30 P.3\n";
    let wanted = Ok(Some(&b"10 A=1\n30 P.3\n"[..]));
    let is_wrong = is_listed(rt.alloc(), text, 5, 4096, wanted) == Ok(false);
    expect_same(&rt, "another listing", is_wrong, false);
}

// Enters a line, and once more where memory was refused: whether the program was as before then.
fn is_entered_again(program: &mut Program, line: &[u8]) -> bool {
    let before = (program.len(), program.size());
    if program.enter(line) != Err(LoadFault::Memory) {
        return true;
    }
    (program.len(), program.size()) == before && program.enter(line) == Ok(())
}

// Lines that result in three statements.
const LINES_FOR_THREE: &[&[u8]] = &[b"20 P.2", b"10 A=1", b"30 P.3", b"20 P.22", b"40 P.", b"10"];

// Passes whichever of its allocations is refused: the program stays as it was, and the line can be
// entered again.
#[test]
fn refused_lines_are_entered_again(rt: HostRuntime) {
    let mut program = Program::new(rt.alloc(), 4096);
    for line in LINES_FOR_THREE {
        let is_entered = is_entered_again(&mut program, line);
        expect_same(&rt, "a line", (*line, is_entered), (*line, true));
    }
    expect_rows(&rt, "three statements", &program, THREE);
}

// What is asked of a program, and the answer.
enum Ask {
    // The statement of a number: its text and its index.
    Numbered(i16, Option<&'static [u8]>, Option<usize>),
    At(usize, Option<(i16, &'static [u8])>),
    First(Option<i16>),
    After(i16, Option<i16>),
    // The bytes of memory, those that are free, and how many statements there are.
    Sizes(u16, i16, usize),
}

impl Row<Program> for Ask {
    fn holds(&self, program: &Program) -> bool {
        match *self {
            Ask::Numbered(number, text, index) => {
                program.line(number) == text && program.statement_index(number) == index
            }
            Ask::At(index, wanted) => program.get(index) == wanted,
            Ask::First(wanted) => program.first() == wanted,
            Ask::After(number, wanted) => program.after(number) == wanted,
            Ask::Sizes(memory, free, count) => {
                (program.memory(), program.size(), program.len()) == (memory, free, count)
                    && program.is_empty() == (count == 0)
            }
        }
    }
}

const THREE: &[Ask] = &[
    Ask::Sizes(4096, 4096 - 18, 3),
    Ask::Numbered(10, None, None),
    Ask::Numbered(20, Some(b"P.22"), Some(0)),
    Ask::Numbered(40, Some(b"P."), Some(2)),
];

const EMPTY: &[Ask] = &[Ask::Sizes(64, 64, 0), Ask::First(None)];

// Lines, and what is said of each.
const LINES: &[(&[u8], Result<(), LoadFault>)] = &[
    (b"20 P.2", Ok(())),
    (b" 010A=1", Ok(())),
    (b"10\tP.", Err(LoadFault::BadByte(3))),
    (b"10 P.\r", Err(LoadFault::BadByte(6))),
    (b"P.", Err(LoadFault::NoNumber)),
    (b"  ", Ok(())),
    (b"30", Ok(())),
    (b"20   P.345", Ok(())),
    (b"40 P.", Ok(())),
    (b"00040  ", Ok(())),
];

// What a program of these lines answers.
const ENTERED: &[Ask] = &[
    Ask::Sizes(64, 50, 2),
    Ask::First(Some(10)),
    Ask::Numbered(10, Some(b"A=1"), Some(0)),
    Ask::Numbered(15, None, None),
    Ask::Numbered(20, Some(b"P.345"), Some(1)),
    Ask::Numbered(40, None, None),
    Ask::Numbered(0, None, None),
    Ask::Numbered(-10, None, None),
    Ask::At(0, Some((10, b"A=1"))),
    Ask::At(1, Some((20, b"P.345"))),
    Ask::At(2, None),
    Ask::After(-5, Some(10)),
    Ask::After(0, Some(10)),
    Ask::After(10, Some(20)),
    Ask::After(15, Some(20)),
    Ask::After(20, None),
];

#[test]
fn lines_are_entered(rt: HostRuntime) {
    let mut program = Program::new(rt.alloc(), 64);
    expect_rows(&rt, "without lines", &program, EMPTY);
    for &(line, wanted) in LINES {
        let found = program.enter(line);
        expect_same(&rt, "a line", (line, found), (line, wanted));
    }
    expect_rows(&rt, "with lines", &program, ENTERED);
}

// Readers that fail or never end: why they are refused.
fn are_readers_refused(alloc: Global) -> bool {
    let mut broken = Device::new(Pieces {
        bytes: b"10 P.",
        piece: 4,
        fails: true,
    });
    let mut endless = Endless { given: 0 };
    matches!(load(alloc, 4096, &mut broken), Err((0, LoadFault::Read)))
        && matches!(
            load(alloc, 4096, &mut Device::new(&mut endless)),
            Err((0, LoadFault::TooLong))
        )
        && endless.given <= 1_048_577
}

// Bytes are read, and then none.
fn are_bytes_read() -> bool {
    let mut reader = Device::new(&b"HI"[..]);
    let mut buf = [0; 4];
    reader.read(&mut buf) == Ok(2) && buf == [b'H', b'I', 0, 0] && reader.read(&mut buf) == Ok(0)
}

#[test]
fn readers(rt: HostRuntime) {
    expect_same(
        &rt,
        "refused readers",
        are_readers_refused(rt.alloc()),
        true,
    );
    expect_same(&rt, "bytes", are_bytes_read(), true);
}

// What is asked of a writer, and its answer.
enum Act {
    Write(&'static [u8], usize),
    WriteAll(&'static [u8], Result<(), DeviceFault>),
    Flush(Result<(), DeviceFault>),
    // The program `TWO_LINES` is listed.
    List(Result<(), DeviceFault>),
}

// Which list as 16 bytes.
const TWO_LINES: &[u8] = b"20 P.34\n10 P.12";

fn is_act_answered<T: ByteSink>(alloc: Global, writer: &mut Device<T>, act: &Act) -> bool {
    match *act {
        Act::Write(bytes, count) => writer.write(bytes) == Ok(count),
        Act::WriteAll(bytes, wanted) => writer.write_all(bytes) == wanted,
        Act::Flush(wanted) => writer.flush() == wanted,
        Act::List(wanted) => match loaded(alloc, TWO_LINES, 100, 100) {
            Ok(program) => list(&program, writer) == wanted,
            Err(_) => false,
        },
    }
}

fn are_answered<T: ByteSink>(alloc: Global, writer: &mut Device<T>, acts: &[Act]) -> bool {
    for act in acts {
        if !is_act_answered(alloc, writer, act) {
            return false;
        }
    }
    true
}

// How many bytes a writer takes a call, the call at which it fails, if it does, what is asked of it,
// and what it has taken then.
struct Acts(usize, usize, &'static [Act], &'static [u8]);

impl Row<Global> for Acts {
    fn holds(&self, alloc: &Global) -> bool {
        let Acts(piece, fails_at, acts, taken) = *self;
        let mut sink = make_sink(*alloc, piece, fails_at);
        are_answered(*alloc, &mut Device::new(&mut sink), acts) && sink.taken.as_slice() == taken
    }
}

const UNWRITTEN: Result<(), DeviceFault> = Err(DeviceFault::Write);

const BROKEN_LISTING: &[Act] = &[Act::List(UNWRITTEN)];

const ACTS: &[Acts] = table! { Acts:
    // the listing takes eight calls; a writer that fails at a call has what was written before
    (2, 1, BROKEN_LISTING, b""),
    (2, 2, BROKEN_LISTING, b"10"),
    (2, 3, BROKEN_LISTING, b"10 P"),
    (2, 4, BROKEN_LISTING, b"10 P.1"),
    (2, 5, BROKEN_LISTING, b"10 P.12\n"),
    (2, 6, BROKEN_LISTING, b"10 P.12\n20"),
    (2, 7, BROKEN_LISTING, b"10 P.12\n20 P"),
    (2, 8, BROKEN_LISTING, b"10 P.12\n20 P.3"),
    (2, 9, &[Act::List(Ok(()))], b"10 P.12\n20 P.34\n"),
    // a writer that takes nothing
    (0, 0, BROKEN_LISTING, b""),
    // a writer that takes pieces
    (3, 3, &[Act::Write(b"ABCDE", 3), Act::WriteAll(b"DEFGH", UNWRITTEN), Act::WriteAll(b"G", Ok(()))], b"ABCDEFG"),
    (3, 2, &[Act::Write(b"ABC", 3), Act::Flush(UNWRITTEN), Act::Flush(Ok(()))], b"ABC"),
};

// What is asked of a room of five bytes.
const ROOM_ACTS: &[Act] = &[
    Act::WriteAll(b"ABC", Ok(())),
    Act::Flush(Ok(())),
    Act::WriteAll(b"DEF", UNWRITTEN),
    Act::Flush(Ok(())),
];

const VECTOR_ACTS: &[Act] = &[
    Act::WriteAll(b"ABC", Ok(())),
    Act::Flush(Ok(())),
    Act::WriteAll(b"D", Ok(())),
];

// A room takes what it has room for.
fn is_room_filled(alloc: Global) -> bool {
    let mut room = [0; 5];
    are_answered(alloc, &mut Device::new(&mut room[..]), ROOM_ACTS) && room == *b"ABCDE"
}

// A vector takes everything.
fn is_vector_filled(alloc: Global) -> bool {
    let mut taken = Vec::new(alloc);
    are_answered(alloc, &mut Device::new(&mut taken), VECTOR_ACTS)
        && taken.as_slice() == b"ABCD".as_slice()
}

#[test]
fn writers(rt: HostRuntime) {
    expect_rows(&rt, "writers", &rt.alloc(), ACTS);
    expect_same(&rt, "a room", is_room_filled(rt.alloc()), true);
    expect_same(&rt, "a vector", is_vector_filled(rt.alloc()), true);
}

// Whether a program has the texts of a map under its numbers, and no others.
fn has_texts(program: &Program, texts: &BTreeMap<i16, String>) -> bool {
    let mut index: usize = 0;
    for (number, text) in texts.iter() {
        let text = text.as_bytes();
        if program.get(index) != Some((*number, text)) || program.line(*number) != Some(text) {
            return false;
        }
        index = index.saturating_add(1);
    }
    index == program.len()
}

// Changes a program and a map alike by a random number: a line is entered or deleted. A text is like
// no other: it begins with its count, and has dots after it.
fn change(
    alloc: Global,
    program: &mut Program,
    texts: &mut BTreeMap<i16, String>,
    random: u32,
    count: u32,
) -> Result<Result<(), LoadFault>, AllocError> {
    let number = ((random >> 16) % 128) as i16 + 128;
    if random >> 31 != 0 {
        drop(texts.remove(&number));
        let line = format!(in alloc; "{number} ")?;
        return Ok(program.enter(line.as_bytes()));
    }
    let dots = ".".repeat(alloc, (random >> 24) as usize)?;
    let line = format!(in alloc; "{number} A{count}{dots}")?;
    texts.insert(number, format!(in alloc; "A{count}{dots}")?)?;
    Ok(program.enter(line.as_bytes()))
}

// Half of the numbers are in use at most times, so that lines are new, replaced and deleted alike.
#[test]
fn entered_lines_are_those_of_a_map(rt: HostRuntime) {
    let alloc = rt.alloc();
    let mut program = Program::new(alloc, 32_767);
    let mut texts = BTreeMap::new(alloc);
    let mut random: u32 = 1;
    for count in 0..2000 {
        random = random.wrapping_mul(1_664_525).wrapping_add(1_013_904_223);
        let entered = change(alloc, &mut program, &mut texts, random, count);
        let found = (count, entered, has_texts(&program, &texts));
        expect_same(&rt, "a line", found, (count, Ok(Ok(())), true));
    }
    expect_same(&rt, "many lines", program.len() > 50, true);
}

// A text, its first line, and the text after that.
struct FirstLine(&'static [u8], &'static [u8], &'static [u8]);

impl Row<()> for FirstLine {
    fn holds(&self, _context: &()) -> bool {
        let FirstLine(text, line, after) = *self;
        !text.is_empty() && split_line(text) == (line, after)
    }
}

const FIRST_LINES: &[FirstLine] = table! { FirstLine:
    (b"A\nB", b"A", b"B"),
    (b"A\r\n", b"A", b""),
    (b"A\r\r\nB\n", b"A\r", b"B\n"),
    (b"\n\n", b"", b"\n"),
    (b"\r", b"", b""),
    (b"A\rB\r", b"A\rB", b""),
};

// What is printed, and its text.
struct Printed<T>(T, &'static str);

impl<T: Display> Row<Global> for Printed<T> {
    fn holds(&self, alloc: &Global) -> bool {
        match self.0.to_string(*alloc) {
            Ok(text) => text.as_str() == self.1,
            Err(_) => false,
        }
    }
}

const FAULTS: &[Printed<LoadFault>] = table! { Printed:
    (LoadFault::NoNumber, "no statement number"),
    (LoadFault::NumberTooBig, "number too big"),
    (LoadFault::TextTooLong, "text too long"),
    (LoadFault::BadByte(6), "bad byte at 6"),
    (LoadFault::Full, "program full"),
    (LoadFault::Memory, "out of memory"),
    (LoadFault::Read, "cannot read the program"),
    (LoadFault::TooLong, "program too long"),
};

const DEVICE_FAULTS: &[Printed<DeviceFault>] = table! { Printed:
    (DeviceFault::Read, "cannot read"),
    (DeviceFault::TooLong, "too many bytes"),
    (DeviceFault::Write, "cannot write"),
    (DeviceFault::Memory, "out of memory"),
};

#[test]
fn faults_print(rt: HostRuntime) {
    expect_rows(&rt, "faults", &rt.alloc(), FAULTS);
    expect_rows(&rt, "faults of devices", &rt.alloc(), DEVICE_FAULTS);
}
