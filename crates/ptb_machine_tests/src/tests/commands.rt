// This file tests what each command does, and where a run is.

use crate::tests::shared::{
    ALIKE, Doing, Likeness, MEMORY, NO_ANSWER, Offer, UNLIKE, compared, doing, done, expect_eq,
    fault, letter, lines_of, nothing, numbers, with_line,
};
use ptb_command::{
    CommandStop, Context, Location, OpenLoop, Output, Registers, SavedRegisters, Stack,
    next_command, place_after_condition, put_fault,
};
use ptb_devices::TextScreen;
use ptb_expr::{FaultKind, Store};
use ptb_machine::{line_at, start_of};
use ptb_text::{Letter, LoadFault, Program};
use std::alloc::{AllocError, Global};
use std::process::Abort;

// The program of two lines, of which each may be empty.
fn program(alloc: Global, first: &[u8], second: &[u8]) -> Result<Program, LoadFault> {
    let mut program = Program::new(alloc, MEMORY);
    program.enter(first)?;
    program.enter(second)?;
    Ok(program)
}

// The program of two lines, or none where it was refused memory.
fn program_or_refusal(
    rt: &impl Abort,
    alloc: Global,
    first: &[u8],
    second: &[u8],
) -> Option<Program> {
    match program(alloc, first, second) {
        Ok(program) => Some(program),
        Err(fault) => {
            expect_eq(rt, "fault", fault, LoadFault::Memory);
            None
        }
    }
}

// Opens a loop of a letter up to 1, or of another than A up to 0, and else a call.
fn open(stack: &mut Stack, byte: u8) -> bool {
    let back = Location {
        statement: 1,
        offset: 2,
    };
    match Letter::new(byte) {
        Some(letter) => stack.open_loop(OpenLoop {
            back,
            letter,
            limit: if byte == b'A' { 1 } else { 0 },
            step: 1,
        }),
        None => stack.open_call(back),
    }
}

// How many loops and calls are open, counted up to 3. They are closed.
fn closed(stack: &mut Stack) -> usize {
    for count in 0..3 {
        if stack.is_empty() {
            return count;
        }
        stack.close_newest();
    }
    3
}

// What a command does, what it shows, A, and the element 3.
pub(crate) type Effect<'a> = (Doing, &'a [u8], i16, i16);

// Whether a transcript of these bytes is fresh.
fn is_fresh(shown: &[u8]) -> bool {
    matches!(shown.last(), None | Some(b'\n'))
}

// This was done with registers, shown and stored. A command that stops leaves the place as it was.
fn expect_effect(
    rt: &impl Abort,
    line: &str,
    (done, fresh): (Result<(), CommandStop>, bool),
    (registers, screen): (&Registers, &TextScreen),
    (want, shown, a, element): Effect<'_>,
) {
    let stays = done.is_ok() || numbers(registers.place) == Some((0, 0));
    let effect = (doing(done, registers), screen.bytes(), stays, fresh);
    expect_eq(rt, line, effect, (want, shown, true, is_fresh(shown)));
    let stored = (
        registers.store.get(letter(b'A')),
        registers.store.element(3),
    );
    expect_eq(rt, line, stored, (a, Ok(element)));
}

// A command, where A holds this, has this effect.
pub(crate) fn expect_command(
    rt: &impl Abort,
    alloc: Global,
    (line, a): (&str, i16),
    offer: Offer<'_>,
    want: Effect<'_>,
) {
    let (program, mut registers) = with_line(rt, alloc, line, a);
    let mut screen = TextScreen::new(alloc);
    let mut output = Output::new();
    let result = done(&program, &mut registers, offer, &mut screen, &mut output);
    expect_effect(rt, line, result, (&registers, &screen), want);
}

// Commands that open and close nothing, where A is 1, with a line and an answer: what is done and
// shown, and A.
const COMMANDS: &[(&str, Doing, &[u8], i16)] = &[
    ("10 REM X;P.1", Ok((1, 0)), b"", 1),
    ("10 STOP", Err(CommandStop::Over), b"", 1),
    ("10 STOP;", fault!(What, 4), b"", 1),
    ("10 GOTO 20", Ok((1, 0)), b"", 1),
    ("10 GOTO 30", fault!(How, 7), b"", 1),
    ("10 GOTO 20;", fault!(What, 7), b"", 1),
    ("10 IF A P.1", Ok((0, 5)), b"", 1),
    ("10 IF A=2 P.(", Ok((1, 0)), b"", 1),
    ("10 LET A=2;P.A", Ok((0, 8)), b"", 2),
    ("10 A=RND(6) ;P.A", Ok((0, 10)), b"", 4),
    ("10 A=RND(6),A=RND(6)", NO_ANSWER, b"", 4),
    // what is before a value that asks is done once
    ("10 A=A+1,A=RND(6)+A;P.A", Ok((0, 17)), b"", 6),
    ("10 A=1/0", fault!(How, 5), b"", 1),
    ("10 PRINT A,\"X\";STOP", Ok((0, 12)), b"     1X\n", 1),
    ("10 PRINT A,", Ok((0, 8)), b"     1", 1),
    ("10 PRINT 1 2", fault!(What, 8), b"     1\n", 1),
    ("10 INPUT A;P.A", Ok((0, 8)), b"A:5\n", 5),
    ("10 INPUT A,A", Err(CommandStop::NoInput), b"A:5\nA:", 5),
    // one malformed command of each kind that is not above
    ("10 LET A 2", fault!(What, 6), b"", 1),
    ("10 IF", fault!(What, 2), b"", 1),
    ("10 IF A*(2 P.1", fault!(What, 8), b"", 1),
    ("10 GOTO", fault!(What, 4), b"", 1),
    ("10 PRINT 'X", fault!(What, 6), b"", 1),
    ("10 INPUT 5", fault!(What, 6), b"", 1),
    ("10 INPUT A,", fault!(What, 8), b"A:5\n", 5),
    ("10 FOR 5", fault!(What, 4), b"", 1),
    ("10 NEXT 5", fault!(What, 5), b"", 1),
    ("10 GOSUB 20,", fault!(What, 8), b"", 1),
    ("10 RETURN 5", fault!(What, 7), b"", 1),
];

#[test]
fn commands(rt: HostRuntime) {
    let lines = lines_of(rt.alloc(), &[b"5"]).expect(&rt, "memory");
    let offer = Offer {
        lines: &lines,
        answers: &[4],
        choose: None,
    };
    for &(line, want, shown, a) in COMMANDS {
        expect_command(&rt, rt.alloc(), (line, 1), offer, (want, shown, a, 0));
    }
}

// What a command does, and A; to where the newest call returns then, and how many are open below it, or
// without a call.
type Left = (Doing, i16, Option<(usize, usize)>, usize);

// Commands that open or close, where A and B are 0: what is open before, and what is left.
const LOOPS_AND_CALLS: &[(&str, &[u8], Left)] = &[
    ("10 GOSUB 20;P.1", b"", (Ok((1, 0)), 0, Some((0, 9)), 0)),
    ("10 GOSUB 30", b"", (fault!(How, 8), 0, None, 0)),
    ("10 RETURN", b"(A", (Ok((1, 2)), 0, None, 0)),
    ("10 RETURN", b"A", (fault!(What, 6), 0, None, 1)),
    ("10 FOR A=3 TO 5;P.1", b"", (Ok((0, 13)), 3, None, 1)),
    ("10 FOR A=3 S.2", b"", (fault!(What, 8), 3, None, 0)),
    // the first value is stored before the limit and the step are evaluated
    ("10 FOR A=3 TO 1/0", b"", (fault!(How, 14), 3, None, 0)),
    ("10 F.A=A+1TO 9S.A/0", b"", (fault!(How, 16), 1, None, 0)),
    ("10 F.A=2TO A,", b"", (fault!(What, 9), 2, None, 0)),
    ("10 F.A=1/0TO 9", b"", (fault!(How, 7), 0, None, 0)),
    ("10 NEXT A", b"A", (Ok((1, 2)), 1, None, 1)),
    ("10 NEXT A", b"AB", (Ok((1, 2)), 1, None, 1)),
    ("10 NEXT B;P.1", b"AB", (Ok((0, 7)), 0, None, 1)),
    ("10 NEXT A", b"A(", (fault!(What, 6), 0, Some((1, 2)), 1)),
];

// Does the first command of a program, which neither reads nor asks nor shows anything: what it does,
// and A.
fn quiet(
    alloc: Global,
    program: &Program,
    registers: &mut Registers,
) -> (Result<(), CommandStop>, i16) {
    let mut screen = TextScreen::new(alloc);
    let mut output = Output::new();
    let (result, _) = done(program, registers, nothing(), &mut screen, &mut output);
    (result, registers.store.get(letter(b'A')))
}

// Opens what these bytes stand for.
fn expect_opened(rt: &impl Abort, stack: &mut Stack, bytes: &[u8]) {
    for &byte in bytes {
        expect_eq(rt, "opened", open(stack, byte), true);
    }
}

// A command that opens or closes leaves this. One that stops leaves the place as it was.
fn expect_left(rt: &impl Abort, alloc: Global, line: &str, before: &[u8], want: Left) {
    let (program, mut registers) = with_line(rt, alloc, line, 0);
    expect_opened(rt, &mut registers.stack, before);
    let (result, a) = quiet(alloc, &program, &mut registers);
    let stays = result.is_ok() || numbers(registers.place) == Some((0, 0));
    let doing = doing(result, &registers);
    let call = numbers(registers.stack.close_call());
    let left = (doing, a, call, closed(&mut registers.stack));
    expect_eq(rt, line, (left, stays), (want, true));
}

#[test]
fn loops_and_calls(rt: HostRuntime) {
    for &(line, before, want) in LOOPS_AND_CALLS {
        expect_left(&rt, rt.alloc(), line, before, want);
    }
}

// How NEXT is done again and again, where A goes up to 1, the place then, and A: the loop has a turn,
// is over, and then there is none.
const TURNS: &[(Result<(), CommandStop>, (usize, usize), i16)] = &[
    (Ok(()), (1, 2), 1),
    (Ok(()), (0, 7), 2),
    (fault!(What, 6), (0, 7), 2),
];

// A command of registers is done so.
fn expect_turn(
    rt: &impl Abort,
    alloc: Global,
    (program, registers): (&Program, &mut Registers),
    (want, place, a): (Result<(), CommandStop>, (usize, usize), i16),
) {
    let (result, a_then) = quiet(alloc, program, registers);
    let found = (result, numbers(registers.place), a_then);
    expect_eq(rt, "turn", found, (want, Some(place), a));
}

#[test]
fn turns(rt: HostRuntime) {
    let (program, mut registers) = with_line(&rt, rt.alloc(), "10 NEXT A;P.1", 0);
    expect_opened(&rt, &mut registers.stack, b"A");
    for &row in TURNS {
        expect_turn(&rt, rt.alloc(), (&program, &mut registers), row);
    }
}

// Passes whichever of its allocations is refused.
#[test]
fn first_registers(rt: HostRuntime) {
    if let Some(program) = program_or_refusal(&rt, rt.alloc(), b"20 STOP", b"10 A=1") {
        match Registers::new(rt.alloc(), &program) {
            Ok(registers) => expect_first(&rt, &registers, program.size()),
            Err(AllocError) => {}
        }
    }
}

// The registers at the beginning of a run, with an array of this size.
fn expect_first(rt: &impl Abort, registers: &Registers, size: i16) {
    let Registers {
        place,
        store,
        stack,
    } = registers;
    let found = (
        numbers(*place),
        store.get(letter(b'A')),
        store.size(),
        stack.is_empty(),
    );
    expect_eq(rt, "registers", found, (Some((0, 0)), 0, size, true));
    expect_eq(rt, "element", store.element(2), Ok(0));
}

// Registers of a program, where A is 7 and a call is open.
fn registers_with_a_call(
    rt: &impl Abort,
    alloc: Global,
    program: &Program,
) -> Result<Registers, AllocError> {
    let mut registers = Registers::new(alloc, program)?;
    registers.store.set(letter(b'A'), 7);
    expect_opened(rt, &mut registers.stack, b"(");
    Ok(registers)
}

// Registers take over a copy without a place. They take over one with an array of size 4 and another A,
// or hold what they held.
fn expect_taken_over(
    rt: &impl Abort,
    alloc: Global,
    registers: &mut Registers,
) -> Result<(), AllocError> {
    let size = registers.store.size();
    let mut copy = registers.copy(alloc)?;
    let found = (copy.store.get(letter(b'A')), copy.store.size());
    expect_eq(rt, "copy", found, (7, size));
    copy.place = None;
    expect_eq(rt, "copied", registers.copy_from(alloc, &copy), Ok(()));
    expect_eq(rt, "place", numbers(registers.place), None);
    copy.store = Store::new(alloc, 4)?;
    let wanted = match registers.copy_from(alloc, &copy) {
        Ok(()) => (0, 4),
        Err(AllocError) => (7, size),
    };
    let found = (registers.store.get(letter(b'A')), registers.store.size());
    expect_eq(rt, "store", found, wanted);
    Ok(())
}

// Passes whichever of its allocations is refused.
#[test]
fn copied_registers(rt: HostRuntime) {
    if let Some(program) = program_or_refusal(&rt, rt.alloc(), b"10 A=1", b"") {
        if let Ok(mut registers) = registers_with_a_call(&rt, rt.alloc(), &program) {
            expect_eq(&rt, "size", registers.store.size(), program.size());
            let _ = expect_taken_over(&rt, rt.alloc(), &mut registers);
        }
    }
}

// Whether two of them hold the same.
fn likeness(alloc: Global, one: &Registers, other: &Registers) -> Likeness {
    let (mut first, mut second) = (SavedRegisters::new(alloc), SavedRegisters::new(alloc));
    first.save(one)?;
    second.save(other)?;
    compared!(first, second)
}

// What is changed in registers at the first place, where A is 7 and a call is open: their place, A,
// and whether a loop is opened.
type Change = (Option<(usize, usize)>, i16, bool);

// Each change, and whether the registers hold the same after it.
const CHANGES: &[(&str, Change, Likeness)] = &[
    ("nothing", (Some((0, 0)), 7, false), ALIKE),
    ("no place", (None, 7, false), UNLIKE),
    ("another place", (Some((0, 1)), 7, false), UNLIKE),
    ("another statement", (Some((1, 0)), 7, false), UNLIKE),
    ("another value", (Some((0, 0)), 8, false), UNLIKE),
    ("a loop", (Some((0, 0)), 7, true), UNLIKE),
    ("all of these", (None, 8, true), UNLIKE),
];

// Changes registers.
fn change(registers: &mut Registers, (place, a, opens): Change) {
    registers.place = match place {
        Some((statement, at)) => Some(Location {
            statement,
            offset: at,
        }),
        None => None,
    };
    registers.store.set(letter(b'A'), a);
    if opens {
        open(&mut registers.stack, b'A');
    }
}

// A copy of registers is the same, also of those that take it over or restore what was saved of it.
#[test]
fn same_registers(rt: HostRuntime) {
    let program = program(rt.alloc(), b"10 A=1", b"").expect(&rt, "a program");
    let copy = registers_with_a_call(&rt, rt.alloc(), &program).expect(&rt, "memory");
    let mut registers = copy.copy(rt.alloc()).expect(&rt, "memory");
    for &row in CHANGES {
        expect_changed(&rt, rt.alloc(), &mut registers, &copy, row);
        expect_restored(&rt, rt.alloc(), &mut registers, &copy, row.1);
    }
}

// Registers hold what their copy holds, and after a change just so. Then they take over the copy.
fn expect_changed(
    rt: &impl Abort,
    alloc: Global,
    registers: &mut Registers,
    copy: &Registers,
    (what, row, want): (&str, Change, Likeness),
) {
    expect_eq(rt, "copy", likeness(alloc, registers, copy), ALIKE);
    change(registers, row);
    expect_eq(rt, what, likeness(alloc, registers, copy), want);
    registers.copy_from(alloc, copy).expect(rt, "memory");
    expect_eq(rt, "taken over", likeness(alloc, registers, copy), ALIKE);
}

// Changed registers hold what a copy holds where they restore what was saved of it.
fn expect_restored(
    rt: &impl Abort,
    alloc: Global,
    registers: &mut Registers,
    copy: &Registers,
    row: Change,
) {
    change(registers, row);
    let mut saved = SavedRegisters::new(alloc);
    saved.save(copy).expect(rt, "memory");
    registers.restore(alloc, &saved).expect(rt, "memory");
    expect_eq(rt, "restored", likeness(alloc, registers, copy), ALIKE);
}

// The statements of a program of two lines, and one after them: the place after it, where a condition in
// it is 0, its number and its text.
const STATEMENTS: &[(usize, Option<(usize, usize)>, i16, &[u8])] = &[
    (0, Some((1, 0)), 10, b"A=1"),
    (1, None, 20, b"B=1"),
    (2, None, 0, b""),
];

// The value of a condition that ends at byte 3 of the first statement, and where a run continues.
const CONDITIONS: &[(i16, (usize, usize))] = &[(0, (1, 0)), (1, (0, 3)), (-1, (0, 3))];

// Where a run continues after a condition of this value in a statement, if it ends at byte 3.
fn place_after(program: &Program, statement: usize, condition: i16) -> Option<(usize, usize)> {
    let context = Context {
        program,
        statement,
        operations: &[],
        steps: &[],
    };
    numbers(place_after_condition(&context, condition, 3))
}

// Where the line of a number begins, if there is one.
const BEGINNINGS: &[(i16, Option<(usize, usize)>)] = &[
    (10, Some((0, 0))),
    (20, Some((1, 0))),
    (15, None),
    (-10, None),
];

#[test]
fn places(rt: HostRuntime) {
    let program = program(rt.alloc(), b"20 B=1", b"10 A=1").expect(&rt, "memory");
    for &(statement, after, number, text) in STATEMENTS {
        let place = place_after(&program, statement, 0);
        let (found, line) = line_at(&program, statement);
        expect_eq(
            &rt,
            "statement",
            (place, found, line),
            (after, number, text),
        );
    }
    for &(condition, place) in CONDITIONS {
        let found = place_after(&program, 0, condition);
        expect_eq(
            &rt,
            "condition",
            (condition, found),
            (condition, Some(place)),
        );
    }
    for &(number, place) in BEGINNINGS {
        expect_eq(&rt, "line", numbers(start_of(&program, number)), place);
    }
}

// Where the first command of a program begins: in which statement, and after how many bytes.
fn first_command(program: &Program) -> Option<(usize, usize)> {
    let number = program.first()?;
    match next_command(program, start_of(program, number)) {
        Some((statement, cursor)) => Some((statement, cursor.place())),
        None => None,
    }
}

// Two lines, the first place of their program, and where its first command begins.
type FirstCommand = (&'static str, &'static [u8], Option<(usize, usize)>);

const FIRST_COMMANDS: &[FirstCommand] = &[
    ("", b"", None),
    ("10 P.1", b"", Some((0, 0))),
    ("10 ;P.1", b"", Some((0, 0))),
    ("20 B=1", b"10 A=1", Some((0, 0))),
];

// The first command of a program is there.
fn expect_first_command(rt: &impl Abort, alloc: Global, (line, other, want): FirstCommand) {
    let program = program(alloc, line.as_bytes(), other).expect(rt, "memory");
    let place = Registers::new(alloc, &program).expect(rt, "memory").place;
    let found = (numbers(place), first_command(&program));
    expect_eq(rt, line, found, (want, want));
}

#[test]
fn first_commands(rt: HostRuntime) {
    for &row in FIRST_COMMANDS {
        expect_first_command(&rt, rt.alloc(), row);
    }
}

// What is shown after the line of HOW?, whether the transcript is fresh before, what is shown then, and
// whether the transcript is fresh after it.
const SHOWN: &[(&str, bool, &str, bool)] = &[
    ("", true, "HOW?\n", true),
    ("", false, "\nHOW?\n", true),
    ("A", true, "HOW?\nA", false),
    ("A\n", false, "\nHOW?\nA\n", true),
    ("\nA", true, "HOW?\n\nA", false),
];

#[test]
fn freshness(rt: HostRuntime) {
    for &(text, before, shown, after) in SHOWN {
        let mut screen = TextScreen::new(rt.alloc());
        let mut fresh = before;
        let pieces = &[text.as_bytes()];
        let is_shown = put_fault(&mut screen, &mut fresh, FaultKind::How, pieces).is_ok();
        let found = (is_shown, screen.bytes(), fresh);
        expect_eq(&rt, text, found, (true, shown.as_bytes(), after));
    }
}
