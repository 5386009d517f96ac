// This file has what several tests use: devices, faults, registers, and values that must be the same.

ghost use Rattle.std.specs.Prelude.{◌≡◌, None, Ok, IsTrue};
ghost use Rattle.ptb_text.specs.Statements.{program};
ghost use Rattle.ptb_text.specs.Words.{is_letter};

use ptb_command::{CommandIo, CommandStop, Context, Location, Output, Registers};
use ptb_devices::{Line, Lines, Screen, WriterScreen};
use ptb_expr::{Listed, Pause, Store};
use ptb_machine::{CommandCode, Rules, line_at, translate};
use ptb_text::{ByteSink, ByteSource, Cursor, Device, DeviceFault, Letter, Program, load};
use std::alloc::{AllocError, Global};
use std::fmt::Debug;
use std::io;
use std::io::ErrorKind;
use std::process::Abort;

// Two values that must be the same; `what` says of what they are.
pub(crate) fn expect_eq<T: Copy + PartialEq + Debug>(rt: &impl Abort, what: &str, a: T, b: T) {
    assert_eq!(rt; a, b, "{what}");
}

// The rows of a table, each on a line of its own.
macro_rules! table {
    ($($row:tt),* $(,)?) => {
        &[$($row),*]
    };
}

pub(crate) use table;

// Whether two values that are saved are the same, whichever is asked, and whether they have one hash.
pub(crate) type Likeness = Result<(bool, bool, bool), AllocError>;

pub(crate) const ALIKE: Likeness = Ok((true, true, true));

pub(crate) const SAME_HASH: Likeness = Ok((false, false, true));

pub(crate) const UNLIKE: Likeness = Ok((false, false, false));

macro_rules! compared {
    ($one:ident, $other:ident) => {
        Ok((
            $one.is_same(&$other),
            $other.is_same(&$one),
            $one.hash() == $other.hash(),
        ))
    };
}

pub(crate) use compared;

// Gives some bytes a call, and then the end or a fault, and counts its calls.
#[derive(Drop)]
pub(crate) struct Script<'a> {
    bytes: &'a [u8],
    piece: usize,
    fails: bool,
    pub(crate) calls: usize,
}

impl<'a> ByteSource for Script<'a> {
    fn read(&mut self, buf: &mut [u8]) -> io::Result<usize> {
        self.calls = self.calls.saturating_add(1);
        if self.fails && self.bytes.is_empty() {
            return Err(io::Error::from(ErrorKind::BrokenPipe));
        }
        let count = buf.len().min(self.piece);
        ByteSource::read(&mut self.bytes, &mut buf[..count])
    }
}

pub(crate) fn scripted(bytes: &[u8], piece: usize, fails: bool) -> Script<'_> {
    Script {
        bytes,
        piece,
        fails,
        calls: 0,
    }
}

// Gives the byte 65 so many times, but a newline at one place.
#[derive(Drop)]
pub(crate) struct Long {
    pub(crate) left: usize,
    pub(crate) newline_at: usize,
    pub(crate) given: usize,
}

impl ByteSource for Long {
    fn read(&mut self, buf: &mut [u8]) -> io::Result<usize> {
        let count = buf.len().min(self.left);
        for byte in &mut buf[..count] {
            *byte = 65;
        }
        if let Some(at) = self.newline_at.checked_sub(self.given) {
            if at < count {
                buf[at] = b'\n';
            }
        }
        self.left -= count;
        self.given = self.given.saturating_add(count);
        Ok(count)
    }
}

// Takes so many bytes of a write at most, until it fails.
#[derive(Drop)]
pub(crate) struct Counted<'a> {
    pub(crate) taken: &'a mut Vec<u8>,
    pub(crate) most: usize,
    pub(crate) writes_left: &'a mut usize,
}

impl<'a> ByteSink for Counted<'a> {
    fn write(&mut self, buf: &[u8]) -> io::Result<usize> {
        let Some(left) = self.writes_left.checked_sub(1) else {
            return Err(io::Error::from(ErrorKind::BrokenPipe));
        };
        *self.writes_left = left;
        let count = buf.len().min(self.most);
        self.taken.extend_from_slice(&buf[..count])?;
        Ok(count)
    }

    fn flush(&mut self) -> io::Result<()> {
        Ok(())
    }
}

// The letter of a byte that is one.
pub(crate) fn letter(byte: u8) -> Letter
    requires { IsTrue (is_letter byte) }
    ensures { result ≡ byte }
{
    Letter::new(byte).unwrap()
}

// A fault with its mark, for tables that are constants.
macro_rules! fault {
    ($kind:ident, $mark:literal) => {
        Err(ptb_command::CommandStop::Fault(ptb_expr::Fault {
            kind: ptb_expr::FaultKind::$kind,
            mark: $mark,
        }))
    };
}

pub(crate) use fault;

// The memory of the programs.
pub(crate) const MEMORY: u16 = 4096;

// The lines of an input.
pub(crate) fn lines_of(alloc: Global, input: &[&[u8]]) -> Result<Vec<Line>, AllocError> {
    let mut lines = Vec::new(alloc);
    for line in input {
        lines.push(Line::clean(alloc, line)?)?;
    }
    Ok(lines)
}

// The two numbers of a place.
pub(crate) fn numbers(place: Option<Location>) -> Option<(usize, usize)> {
    match place {
        Some(place) => Some((place.statement, place.offset)),
        None => None,
    }
}

// The program of a line and a STOP, and registers at its beginning with an array of 27 elements,
// where A holds this.
pub(crate) fn with_line(
    rt: &impl Abort,
    alloc: Global,
    line: &str,
    a: i16,
) -> (Program, Registers) {
    let mut program = Program::new(alloc, MEMORY);
    program.enter(line.as_bytes()).expect(rt, "a line");
    program.enter(b"20 STOP").expect(rt, "a line");
    let mut store = Store::new(alloc, 54).expect(rt, "memory");
    store.set(letter(b'A'), a);
    let mut registers = Registers::new(alloc, &program).expect(rt, "memory");
    registers.store = store;
    (program, registers)
}

// What a command is offered: lines, answers, and the bound of an answer where no line is left.
#[derive(Clone, Copy)]
pub(crate) struct Offer<'a> {
    pub(crate) lines: &'a [Line],
    pub(crate) answers: &'a [i16],
    pub(crate) choose: Option<i16>,
}

// Nothing is offered.
pub(crate) fn nothing() -> Offer<'static> {
    Offer {
        lines: &[],
        answers: &[],
        choose: None,
    }
}

// Does the first command of a program. How it is done, and whether the transcript is fresh then.
pub(crate) fn done<S: Screen>(
    program: &Program,
    registers: &mut Registers,
    offer: Offer<'_>,
    screen: &mut S,
    output: &mut Output,
) -> (Result<(), CommandStop>, bool) {
    let (_, text) = line_at(program, 0);
    let mut cursor = Cursor::new(text, 0);
    let mut code = CommandCode::new();
    translate(&mut cursor, &mut code);
    let context = Context {
        program,
        statement: 0,
        operations: code.operations(),
        steps: code.expression_steps(),
    };
    let mut chooser = Listed::new(offer.answers);
    let mut source = Lines::new(offer.lines);
    let rules = rules_with(1, offer.choose);
    let mut io = CommandIo::new(&mut chooser, screen, &mut source, true, rules);
    let result = registers.execute(context, &mut io, output);
    (result, io.fresh)
}

// What a command does: why it stops, or the statement and the place in it at which the run continues.
pub(crate) type Doing = Result<(usize, usize), CommandStop>;

// A command that was stopped by a write that failed.
pub(crate) const UNWRITTEN: Doing = Err(CommandStop::Device(DeviceFault::Write));

// A command that asked for an answer where none was left.
pub(crate) const NO_ANSWER: Doing = Err(CommandStop::Pause(Pause::Ended));

// What was done with registers. The text of a program is never over after its first command.
pub(crate) fn doing(done: Result<(), CommandStop>, registers: &Registers) -> Doing {
    match (done, registers.place) {
        (Ok(()), Some(place)) => Ok((place.statement, place.offset)),
        (Ok(()), None) => Ok((usize::MAX, usize::MAX)),
        (Err(stop), _) => Err(stop),
    }
}

// Rules by which a run ends where no line is left.
pub(crate) fn plain_rules(limit: u32) -> Rules
    ensures { result ≡ record { limit = limit; choose = None; in_range = tt } }
{
    Rules {
        limit,
        choose: None,
    }
}

// The rules with a limit and with a bound, if it is at least 1.
pub(crate) fn rules_with(limit: u32, choose: Option<i16>) -> Rules {
    match choose {
        Some(bound) if bound >= 1 => Rules {
            limit,
            choose: Some(bound),
        },
        _ => plain_rules(limit),
    }
}

// The program of a text.
pub(crate) fn loaded(rt: &impl Abort, alloc: Global, text: &[u8]) -> Program
    ensures { program 4096 text.now ≡ Ok result.lines }
{
    let mut text = text;
    load(alloc, MEMORY, &mut Device::new(&mut text)).expect(rt, "a program")
}

// So many lines with the same text, numbered from 1000 on.
pub(crate) fn push_lines(program: &mut Vec<u8>, count: u8, text: &[u8]) -> Result<(), AllocError> {
    for n in 0..count {
        let hundreds = (n / 100).wrapping_add(b'0');
        let tens = (n / 10 % 10).wrapping_add(b'0');
        let ones = (n % 10).wrapping_add(b'0');
        program.extend_from_slice(&[b'1', hundreds, tens, ones])?;
        program.extend_from_slice(text)?;
    }
    Ok(())
}
