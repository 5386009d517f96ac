// This file tests complete runs: how they end, at which line a limit stops them, and what they show.

use crate::tests::shared::{Counted, expect_eq, loaded, plain_rules, rules_with, table};
use ptb_expr::Listed;
use ptb_machine::{
    Ending, Lines, ReaderLines, Rules, RunEnd, RunFault, TextScreen, WriterScreen, run,
    run_plain_to_end,
};
use ptb_text::{Device, Program};
use std::alloc::Global;
use std::process::Abort;

// The input of a run, its rules, and the answers.
#[derive(Clone, Copy)]
pub(crate) struct Setting<'a> {
    input: &'a [u8],
    rules: Rules,
    answers: &'a [i16],
}

// A run without input and answers.
pub(crate) fn alone(limit: u32) -> Setting<'static> {
    Setting {
        input: b"",
        rules: plain_rules(limit),
        answers: &[],
    }
}

// How a run of a program ends.
pub(crate) fn ending_of(
    alloc: Global,
    program: &Program,
    setting: Setting<'_>,
    screen: &mut TextScreen,
) -> Result<Ending, RunFault> {
    let mut input = setting.input;
    let mut reader = Device::new(&mut input);
    let mut source = ReaderLines::new(&mut reader);
    let mut list = Listed::new(setting.answers);
    run(
        alloc,
        program,
        setting.rules,
        &mut list,
        screen,
        &mut source,
    )
}

// A run of a program ends so and shows this.
pub(crate) fn expect_run(
    rt: &impl Abort,
    alloc: Global,
    (text, program): (&str, &Program),
    setting: Setting<'_>,
    (want, shown): (Ending, &[u8]),
) {
    let mut screen = TextScreen::new(alloc);
    let ending = ending_of(alloc, program, setting, &mut screen);
    expect_eq(rt, text, (ending, screen.bytes()), (Ok(want), shown));
}

// Each program with a limit of 300 commands: how its run ends, and what it shows.
const RUNS: &[(&str, Ending, &[u8])] = table! {
    ("", Ending::End, b""),
    ("10 PRINT \"HI\"", Ending::End, b"HI\n"),
    ("10 PRINT 'ABC',_,\"X\",#3,7", Ending::End, b"ABC\rX  7\n"),
    ("10 PRINT -32767-1", Ending::End, b"-32768\n"),
    ("10 PRINT SIZE", Ending::End, b"  4083\n"),
    ("20 P.2\n10 P.1,;REM P.3", Ending::End, b"     1     2\n"),
    ("10 P.1;STOP\n20 P.2", Ending::Stop, b"     1\n"),
    ("10 P.1,;GOTO 30\n30 P.3", Ending::End, b"     1     3\n"),
    ("10 IF 0 P.1;P.2\n20 P.3", Ending::End, b"     3\n"),
    ("10 IF 2 P.1;P.2\n20 P.3", Ending::End, b"     1\n     2\n     3\n"),
    ("10 IF 1=2 P.1", Ending::End, b""),
    ("10 REM", Ending::End, b""),
    ("10 F.I=1TO3S.2;P.I,;N.I", Ending::End, b"     1     3"),
    ("10 @(3)=4;P.@(3)", Ending::End, b"     4\n"),
    ("10 GOS.30;P.2;S.\n30 P.1;R.", Ending::Stop, b"     1\n     2\n"),
    ("10 GOSUB 10", Ending::Sorry, b"SORRY\n10 GOSUB 10?\n"),
    ("10 GOS.30;N.J\n30 F.J=1TO9;R.", Ending::What, b"WHAT?\n10 GOS.30;N.J?\n"),
    ("300 B=200,C=200\n310 LET A=B*C+2", Ending::How, b"HOW?\n310 LET A=B*C?+2\n"),
    ("10 INPUT A", Ending::NoInput, b"A:"),
    // faults: the report begins on a fresh line, and shows the statement with the mark
    ("10 PRINT -(-32767-1)", Ending::How, b"HOW?\n10 PRINT -(-32767-1)?\n"),
    ("10 P.1,;P.1/0", Ending::How, b"     1\nHOW?\n10 P.1,;P.1/0?\n"),
    ("10 P.1;P.1/0", Ending::How, b"     1\nHOW?\n10 P.1;P.1/0?\n"),
    ("10 P._,;GOTO 9", Ending::How, b"\r\nHOW?\n10 P._,;GOTO 9?\n"),
    ("10 GOTO 20 P.1", Ending::What, b"WHAT?\n10 GOTO 20 ?P.1\n"),
    ("10 STOP 1", Ending::What, b"WHAT?\n10 STOP ?1\n"),
    ("10 P.@(30000)", Ending::Sorry, b"SORRY\n10 P.@(30000)?\n"),
    ("10 IF 0 P.(", Ending::End, b""),
    ("10 IF ;P.1", Ending::What, b"WHAT?\n10 IF ?;P.1\n"),
    ("10 GOTO 10", Ending::Limit, b""),
};

// So does that of a text.
pub(crate) fn expect_text(
    rt: &impl Abort,
    alloc: Global,
    text: &str,
    setting: Setting<'_>,
    want: (Ending, &[u8]),
) {
    let program = loaded(rt, alloc, text.as_bytes());
    expect_run(rt, alloc, (text, &program), setting, want);
}

#[test]
fn runs(rt: HostRuntime) {
    for &(text, want, shown) in RUNS {
        expect_text(&rt, rt.alloc(), text, alone(300), (want, shown));
    }
}

// An input, a limit, and the bound of an answer where no line is left, if there is one.
type Bounds = (&'static [u8], u32, Option<i16>);

const TWO_QUESTIONS: &str = "10 P.RND(2),;P.RND(2)";

const COUNTED: &str = "10 A=A+1;P.A,;GOTO 10";

const ONE_INPUT: &str = "10 INPUT A";

const SHOWN: &str = "10 INPUT A;PRINT A";

const TWO_INPUTS: &str = "10 INPUT A,B;P.A+B";

const ELEMENT: &str = "10 INPUT @(RND(2)-1);P.@(1)";

const REPEATED: &str = "10 INPUT A\n20 IF A#1 GOTO 10";

// Each program with its bounds and answers: how its run ends, and what it shows.
const ANSWERED: &[(&str, Bounds, &[i16], Ending, &[u8])] = table! {
    // answers to RND, and the limit on commands
    (TWO_QUESTIONS, (b"", 2, None), &[1, 2], Ending::End, b"     1     2\n"),
    (TWO_QUESTIONS, (b"", 2, None), &[1, 2, 9], Ending::End, b"     1     2\n"),
    (TWO_QUESTIONS, (b"", 1, None), &[1], Ending::Limit, b"     1"),
    (TWO_QUESTIONS, (b"", 0, None), &[], Ending::Limit, b""),
    (TWO_QUESTIONS, (b"", 9, None), &[1], Ending::NoAnswer, b"     1"),
    (TWO_QUESTIONS, (b"", 9, None), &[1, 3], Ending::BadAnswer, b"     1"),
    (TWO_QUESTIONS, (b"", 9, None), &[0], Ending::BadAnswer, b""),
    // each command counts as one step, also those that show nothing
    (COUNTED, (b"", 7, None), &[], Ending::Limit, b"     1     2"),
    (COUNTED, (b"", 8, None), &[], Ending::Limit, b"     1     2     3"),
    (COUNTED, (b"", 9, None), &[], Ending::Limit, b"     1     2     3"),
    (COUNTED, (b"", 10, None), &[], Ending::Limit, b"     1     2     3"),
    (COUNTED, (b"", 11, None), &[], Ending::Limit, b"     1     2     3     4"),
    (COUNTED, (b"", 12, None), &[], Ending::Limit, b"     1     2     3     4"),
    (COUNTED, (b"", 20, None), &[], Ending::Limit, b"     1     2     3     4     5     6     7"),
    // an answer stands in for a line that INPUT doesn't find: it is shown as one, and isn't read
    (SHOWN, (b"", 9, Some(2)), &[1], Ending::End, b"A:1\n     1\n"),
    (SHOWN, (b"", 9, Some(2)), &[2], Ending::End, b"A:2\n     2\n"),
    (SHOWN, (b")\n", 9, Some(2)), &[2], Ending::End, b"A:)\nWHAT?\nA:2\n     2\n"),
    (SHOWN, (b"7\n", 9, Some(2)), &[], Ending::End, b"A:7\n     7\n"),
    (ONE_INPUT, (b"", 9, Some(2)), &[], Ending::NoAnswer, b"A:"),
    (ONE_INPUT, (b"", 9, Some(2)), &[3], Ending::BadAnswer, b"A:"),
    (ONE_INPUT, (b"", 9, Some(2)), &[0], Ending::BadAnswer, b"A:"),
    ("10 INPUT \"N\"A", (b"", 9, Some(2)), &[2], Ending::End, b"N:2\n"),
    (TWO_INPUTS, (b"", 9, Some(2)), &[1, 2], Ending::End, b"A:1\nB:2\n     3\n"),
    (TWO_INPUTS, (b"5\n", 9, Some(2)), &[2], Ending::End, b"A:5\nB:2\n     7\n"),
    (TWO_INPUTS, (b"RND(3)\n", 9, Some(2)), &[3, 2], Ending::End, b"A:RND(3)\nB:2\n     5\n"),
    (ELEMENT, (b"", 9, Some(2)), &[2, 1], Ending::End, b"@(RND(2)-1):1\n     1\n"),
    (ELEMENT, (b"", 9, Some(2)), &[2], Ending::NoAnswer, b"@(RND(2)-1):"),
    (ELEMENT, (b"?\n", 9, Some(2)), &[1, 2, 2], Ending::End, b"@(RND(2)-1):?\nWHAT?\n@(RND(2)-1):2\n     2\n"),
    // the greatest bound, and commands that ask often
    (REPEATED, (b"", 9, Some(32767)), &[32767, 1], Ending::End, b"A:32767\nA:1\n"),
    (REPEATED, (b"", 2, Some(32767)), &[2, 2, 2], Ending::Limit, b"A:2\n"),
};

#[test]
fn answers_and_limits(rt: HostRuntime) {
    for &(text, (input, limit, choose), answers, want, shown) in ANSWERED {
        let setting = Setting {
            input,
            rules: rules_with(limit, choose),
            answers,
        };
        expect_text(&rt, rt.alloc(), text, setting, (want, shown));
    }
}

// A text, a limit, how its run ends, and at which line the limit stopped it.
const STOPS: &[(&str, u32, Ending, Option<u16>)] = &[
    ("10 GOTO 10", 5, Ending::Limit, Some(10)),
    ("10 A=1\n20 A=2\n30 A=3", 0, Ending::Limit, Some(10)),
    ("10 A=1\n20 A=2\n30 A=3", 1, Ending::Limit, Some(20)),
    ("10 A=1\n20 A=2\n30 A=3", 2, Ending::Limit, Some(30)),
    ("10 A=1\n20 A=2\n30 A=3", 3, Ending::End, None),
    ("10 A=1;B=2;C=3\n20 D=4", 2, Ending::Limit, Some(10)),
    ("10 A=1;B=2;C=3\n20 D=4", 3, Ending::Limit, Some(20)),
    ("10 IF 0 A=1;A=2\n20 A=3", 1, Ending::Limit, Some(20)),
    ("10 GOS.300;A=2\n300 A=1;R.", 1, Ending::Limit, Some(300)),
    ("10 GOS.300;A=2\n300 A=1;R.", 3, Ending::Limit, Some(10)),
    ("10 F.I=1TO9\n20 N.I", 6, Ending::Limit, Some(20)),
    ("32767 GOTO 32767", 1, Ending::Limit, Some(32767)),
    ("10 A=1;STOP", 2, Ending::Stop, None),
    ("10 A=1/0", 1, Ending::How, None),
    ("10 INPUT A", 1, Ending::NoInput, None),
    ("10 A=RND(6)", 1, Ending::NoAnswer, None),
    ("", 0, Ending::End, None),
];

// How a run without input or answers ends, and where.
fn end_of(rt: &impl Abort, alloc: Global, text: &str, limit: u32) -> Result<RunEnd, RunFault> {
    let program = loaded(rt, alloc, text.as_bytes());
    let mut input = Device::new(&b""[..]);
    let mut shown = Vec::new(alloc);
    let mut out = Device::new(&mut shown);
    let rules = plain_rules(limit);
    run_plain_to_end(alloc, &program, &[], rules, &mut input, &mut out)
}

// Where the limit stops a run: in the statement in which its next command begins.
#[test]
fn stops(rt: HostRuntime) {
    for &(text, limit, ending, line) in STOPS {
        let end = end_of(&rt, rt.alloc(), text, limit);
        expect_eq(&rt, text, end, Ok(RunEnd { ending, line }));
    }
}

// How a run ends whose writer takes so many writes; what it takes is kept.
fn ending_with_writes(
    alloc: Global,
    program: &Program,
    mut writes_left: usize,
    taken: &mut Vec<u8>,
) -> Result<Ending, RunFault> {
    let mut writer = Device::new(Counted {
        taken,
        most: usize::MAX,
        writes_left: &mut writes_left,
    });
    let mut screen = WriterScreen::new(&mut writer);
    let mut list = Listed::new(&[]);
    let mut input = Lines::new(&[]);
    let rules = plain_rules(20);
    run(alloc, program, rules, &mut list, &mut screen, &mut input)
}

// How many writes a writer takes, how the run ends, and what is shown.
const WRITES: &[(usize, Result<Ending, RunFault>, &[u8])] = &[
    (0, Err(RunFault::Write), b""),
    (1, Err(RunFault::Write), b"1AB"),
    (2, Err(RunFault::Write), b"1AB2AB"),
    (3, Err(RunFault::Write), b"1AB2AB3AB"),
    (4, Err(RunFault::Write), b"1AB2AB3AB4AB"),
    (5, Ok(Ending::Limit), b"1AB2AB3AB4AB5AB"),
    (6, Ok(Ending::Limit), b"1AB2AB3AB4AB5AB"),
];

// A run whose writer takes so many writes ends so.
fn expect_writes(
    rt: &impl Abort,
    alloc: Global,
    program: &Program,
    (writes, want, shown): (usize, Result<Ending, RunFault>, &[u8]),
) {
    let mut taken = Vec::new(alloc);
    let ending = ending_with_writes(alloc, program, writes, &mut taken);
    expect_eq(rt, "a run", (ending, taken.as_slice()), (want, shown));
}

// Each PRINT is one write, and the first write that fails ends the run.
#[test]
fn prints_to_a_writer_that_fails(rt: HostRuntime) {
    let text = b"10 A=A+1;P.#1,A,'A','B',;IF A<7 GOTO 10";
    let program = loaded(&rt, rt.alloc(), text);
    for &row in WRITES {
        expect_writes(&rt, rt.alloc(), &program, row);
    }
}
