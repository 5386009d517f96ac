// This file tests runs that end, and that can't be read or written.

use crate::tests::shared::{Row, expect_rows, expect_same, plain_rules, rules, table};
use ptb_machine::{Ending, Rules, RunFault};
use ptb_serve::{run_plain, run_seeded};
use ptb_text::{ByteSink, ByteSource, Device, LoadFault, Program, Read, Write};
use std::alloc::Global;
use std::io;
use std::io::ErrorKind;
use std::test::Fail;

// A reader and a writer that fail at once.
#[derive(Drop)]
struct Broken;

impl ByteSource for Broken {
    fn read(&mut self, _buf: &mut [u8]) -> io::Result<usize> {
        Err(io::Error::from(ErrorKind::Other))
    }
}

impl ByteSink for Broken {
    fn write(&mut self, _buf: &[u8]) -> io::Result<usize> {
        Err(io::Error::from(ErrorKind::Other))
    }

    fn flush(&mut self) -> io::Result<()> {
        Ok(())
    }
}

// A program of one statement.
fn one_line(alloc: Global, line: &[u8]) -> Result<Program, LoadFault> {
    let mut program = Program::new(alloc, 4096);
    program.enter(line)?;
    Ok(program)
}

// Where the random numbers of a run are from.
#[derive(Clone, Copy)]
enum Random {
    Answers(&'static [i16]),
    Seed(u64),
}

// A program, the random numbers of its run, and the rules of that.
#[derive(Clone, Copy)]
struct Start<'a> {
    program: &'a Program,
    random: Random,
    rules: Rules,
}

// How a run ends.
fn ending_of<R: Read, W: Write>(
    alloc: Global,
    start: &Start<'_>,
    input: &mut R,
    out: &mut W,
) -> Result<Ending, RunFault> {
    let rules = start.rules;
    match start.random {
        Random::Answers(answers) => run_plain(alloc, start.program, answers, rules, input, out),
        Random::Seed(seed) => run_seeded(alloc, start.program, seed, rules, input, out),
    }
}

// Whether a run ends so and shows this.
fn ends<R: Read>(
    alloc: Global,
    start: &Start<'_>,
    input: &mut R,
    ending: Result<Ending, RunFault>,
    shown: &[u8],
) -> bool {
    let mut taken = Vec::new(alloc);
    let mut out = Device::new(&mut taken);
    ending_of(alloc, start, input, &mut out) == ending && taken.as_slice() == shown
}

// The line of a program, its random numbers, the bound for answers instead of lines, how its run of 10
// commands at most ends, and what it shows.
struct Run(&'static [u8], Random, Option<i16>, Ending, &'static [u8]);

impl Row<Global> for Run {
    fn holds(&self, alloc: &Global) -> bool {
        let Run(line, random, choose, ending, shown) = *self;
        let Ok(program) = one_line(*alloc, line) else {
            return false;
        };
        let start = Start {
            program: &program,
            random,
            rules: rules(10, choose),
        };
        ends(
            *alloc,
            &start,
            &mut Device::new(&b""[..]),
            Ok(ending),
            shown,
        )
    }
}

const RUNS: &[Run] = table! { Run:
    (b"10 P.RND(2)", Random::Answers(&[]), None, Ending::NoAnswer, b""),
    (b"10 P.RND(2)", Random::Answers(&[2]), None, Ending::End, b"     2\n"),
    (b"10 P.RND(2)", Random::Answers(&[2, 9]), None, Ending::End, b"     2\n"),
    (b"10 P.RND(2)", Random::Answers(&[3]), None, Ending::BadAnswer, b""),
    // without a line a run asks for an answer, if it has a bound for that
    (b"10 INPUT A;PRINT A", Random::Answers(&[]), Some(2), Ending::NoAnswer, b"A:"),
    (b"10 INPUT A;PRINT A", Random::Answers(&[2]), Some(2), Ending::End, b"A:2\n     2\n"),
    (b"10 INPUT A;PRINT A", Random::Answers(&[3]), Some(2), Ending::BadAnswer, b"A:"),
    // a run by a seed has an answer to each question
    (b"10 P.RND(2)", Random::Seed(0), None, Ending::End, b"     2\n"),
    (b"10 P.RND(2)", Random::Seed(7), None, Ending::End, b"     1\n"),
    (b"10 P.RND(6),RND(6)", Random::Seed(7), None, Ending::End, b"     3     5\n"),
    (b"10 P.RND(6),RND(6)", Random::Seed(4294967295), None, Ending::End, b"     4     2\n"),
    (b"10 P.RND(1);INPUT A", Random::Seed(7), None, Ending::NoInput, b"     1\nA:"),
    (b"10 A=RND(2);GOTO 10", Random::Seed(7), None, Ending::Limit, b""),
    (b"10 A=RND(0)", Random::Seed(7), None, Ending::How, b"HOW?\n10 A=RND(0)?\n"),
};

#[test]
fn endings(rt: HostRuntime) {
    expect_rows(&rt, "runs", &rt.alloc(), RUNS);
}

// Whether a room has only lines that are shown, and nothing after them.
fn begins(room: &[u8]) -> bool {
    let mut ended = false;
    for pair in room.as_chunks::<2>().0 {
        let is_shown = *pair == *b"1\n" && !ended;
        ended = *pair == [0, 0];
        if !is_shown && !ended {
            return false;
        }
    }
    true
}

// Whether a run by a seed shows all, or a beginning where memory is refused.
fn is_begun(alloc: Global, program: &Program) -> bool {
    let mut room = [0; 80];
    let mut input = Device::new(&b""[..]);
    let mut out = Device::new(&mut room[..]);
    let ending = run_seeded(alloc, program, 7, plain_rules(200), &mut input, &mut out);
    let is_right = match ending {
        Ok(ending) => ending == Ending::End && room[78] == b'1',
        Err(fault) => fault == RunFault::Memory,
    };
    is_right && begins(&room)
}

// Passes whichever of its allocations is refused: a beginning is shown then, and otherwise all.
#[test]
fn refused_seeded_runs(rt: HostRuntime) {
    let is_right = match one_line(rt.alloc(), b"10 F.I=1TO40;P.#1,RND(1);N.I") {
        Ok(program) => is_begun(rt.alloc(), &program),
        Err(fault) => fault == LoadFault::Memory,
    };
    expect_same(&rt, "a beginning", is_right, true);
}

// Whether a run's input can't be read when a line is asked for, and another one can't be written.
fn is_broken(alloc: Global, start: &Start<'_>) -> bool {
    let (mut input, mut broken) = (Device::new(&b""[..]), Device::new(Broken));
    let unread = Err(RunFault::Read);
    ends(alloc, start, &mut Device::new(Broken), unread, b"\nA:")
        && ending_of(alloc, start, &mut input, &mut broken) == Err(RunFault::Write)
}

#[test]
fn broken_devices(rt: HostRuntime) -> Result<(), Fail> {
    let program = one_line(rt.alloc(), b"10 P.;INPUT A")?;
    for random in [Random::Answers(&[]), Random::Seed(7)] {
        let start = Start {
            program: &program,
            random,
            rules: plain_rules(10),
        };
        expect_same(&rt, "broken devices", is_broken(rt.alloc(), &start), true);
    }
    Ok(())
}
