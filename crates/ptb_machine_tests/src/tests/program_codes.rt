// This file tests the code of an entire program: which command it finds at a place, how many commands
// are done by it in a row, and a program that has more commands than there is room for their code.

use crate::tests::loops::expect_end;
use crate::tests::shared::{MEMORY, expect_eq, letter, numbers, push_lines, table};
use ptb_command::{Location, Registers};
use ptb_machine::{Ending, Operation, ProgramCode};
use ptb_text::{Device, LoadFault, Program, load};
use std::alloc::{AllocError, Global};
use std::process::Abort;
use std::test::Fail;

// The program of these lines.
fn program_of(alloc: Global, lines: &[&str]) -> Result<Program, LoadFault> {
    let mut program = Program::new(alloc, MEMORY);
    for line in lines {
        program.enter(line.as_bytes())?;
    }
    Ok(program)
}

// Three lines with four commands.
const FOUR_COMMANDS: &[&str] = &["10 A=1;GOTO 30", "20 STOP", "30 PRINT 7"];

// What an operation is, of those with which the commands begin.
fn name(operation: Option<&Operation>) -> &'static str {
    match operation {
        Some(Operation::Set(_, _)) => "set",
        Some(Operation::Goto { .. }) => "goto",
        Some(Operation::Stop) => "stop",
        Some(Operation::Show(_)) => "show",
        _ => "other",
    }
}

// A statement and a place in it, a guess; the command that is next there: its index, its statement,
// the place at which it begins, and its first operation.
type Place = (
    usize,
    usize,
    usize,
    Option<(usize, usize, usize, &'static str)>,
);

const PLACES: &[Place] = &[
    // the guess is the command before, another one, none
    (0, 4, 0, Some((1, 0, 4, "goto"))),
    (0, 4, 1, Some((1, 0, 4, "goto"))),
    (0, 4, 9, Some((1, 0, 4, "goto"))),
    (0, 0, 0, Some((0, 0, 0, "set"))),
    (0, 0, 2, Some((0, 0, 0, "set"))),
    // at the end of a statement the first command of the next one is next
    (0, 11, 1, Some((2, 1, 0, "stop"))),
    (0, 11, 2, Some((2, 1, 0, "stop"))),
    (1, 0, 0, Some((2, 1, 0, "stop"))),
    (1, 4, 0, Some((3, 2, 0, "show"))),
    (2, 7, 3, None),
    // no command begins there
    (0, 3, 0, None),
    (3, 0, 0, None),
];

// This command is next.
fn expect_next(
    rt: &impl Abort,
    program: &Program,
    code: &ProgramCode,
    (statement, at, guess, wanted): Place,
) {
    let found = match code.next(
        program,
        Location {
            statement,
            offset: at,
        },
        guess,
    ) {
        Some(next) => {
            let name = name(next.operations.first());
            Some((next.index, next.place.statement, next.place.offset, name))
        }
        None => None,
    };
    expect_eq(rt, "next", found, wanted);
}

// Passes whichever of its allocations is refused.
#[test]
fn next_code_of_a_program(rt: HostRuntime) -> Result<(), Fail> {
    let program = match program_of(rt.alloc(), FOUR_COMMANDS) {
        Ok(program) => program,
        Err(fault) => {
            expect_eq(&rt, "fault", fault, LoadFault::Memory);
            return Ok(());
        }
    };
    let code = match ProgramCode::new(rt.alloc(), &program) {
        Ok(code) => code,
        Err(AllocError) => return Ok(()),
    };
    for &row in PLACES {
        expect_next(&rt, &program, &code, row);
    }
    Ok(())
}

// Lines, and how many commands may be done; how many are done, the statement and the place in it at
// which the next command is sought then, and the value of A.
type Row = (&'static [&'static str], u32, u32, (usize, usize), i16);

const RUNS: &[Row] = table! {
    (&["10 A=1;A=A+1", "20 GOTO 10"], 0, 0, (0, 0), 0),
    (&["10 A=1;A=A+1", "20 GOTO 10"], 1, 1, (0, 4), 1),
    (&["10 A=1;A=A+1", "20 GOTO 10"], 5, 5, (0, 9), 2),
    // up to a command that shows something, ends the run or has a fault
    (&["10 A=7", "20 PRINT A"], 9, 1, (0, 3), 7),
    (&["10 A=7;STOP"], 9, 1, (0, 4), 7),
    (&["10 A=7;A=A/0"], 9, 1, (0, 4), 7),
    (&["10 A=7;A=RND(1)"], 9, 1, (0, 4), 7),
    (&["10 A=7;INPUT A"], 9, 1, (0, 4), 7),
    // or sets several variables, or is a FOR
    (&["10 A=7", "20 A=8,B=A"], 9, 1, (0, 3), 7),
    (&["10 A=7", "20 F.A=8TO A"], 9, 1, (0, 3), 7),
    // up to the end of the program
    (&["10 A=7", "20 A=8"], 9, 2, (1, 3), 8),
    (&["10 GOSUB 100;A=A+1", "20 STOP", "100 A=5;RETURN"], 9, 4, (0, 15), 6),
    (&["10 A=A+1;IF A<3 GOTO 10", "20 A=-A;STOP"], 99, 9, (1, 5), -3),
};

// The commands of a row are done so, if this entry is the guess.
fn expect_done(
    rt: &impl Abort,
    alloc: Global,
    (program, code): (&Program, &ProgramCode),
    guess: usize,
    &(_, most, wanted, place, a): &Row,
) {
    let mut registers = Registers::new(alloc, program).expect(rt, "memory");
    let done = code.advance(program, &mut registers, most, guess).done;
    let a_then = registers.store.get(letter(b'A'));
    let found = (guess, done, numbers(registers.place), a_then);
    expect_eq(rt, "run", found, (guess, wanted, Some(place), a));
}

// They are done so whichever entry is the guess.
fn expect_row(rt: &impl Abort, alloc: Global, row: &Row) {
    let program = program_of(alloc, row.0).expect(rt, "memory");
    let code = ProgramCode::new(alloc, &program).expect(rt, "memory");
    for guess in [0, 1, 99] {
        expect_done(rt, alloc, (&program, &code), guess, row);
    }
}

#[test]
fn commands_in_a_row(rt: HostRuntime) {
    for row in RUNS {
        expect_row(&rt, rt.alloc(), row);
    }
}

// A program with 110 statements that begin with IF A and have 64 commands each. A PRINT has an entry of
// 24 bytes, three operations of 8 bytes and a step of 6, thus 54. So the code of all commands would take
// more than 110 * 63 * 54 = 374,220 bytes, and that of the first 80 statements less than
// 80 * 64 * 54 = 276,480.
fn text_with_much_code(alloc: Global) -> Result<Vec<u8>, AllocError> {
    let mut line = Vec::from_slice(alloc, b" IFA")?;
    for _ in 0..63 {
        line.extend_from_slice(b"P.A;")?;
    }
    line.push(b'\n')?;
    let mut text = Vec::from_slice(alloc, b"10 B=B+1\n")?;
    push_lines(&mut text, 110, line.as_slice())?;
    text.extend_from_slice(b"2000 C=C+1;GOS.2040\n2010 F.I=1TO4;D=D+I;N.I\n")?;
    text.extend_from_slice(b"2020 IF C<3 GOTO 10\n2030 P.B,C,D,E;STOP\n2040 E=E+C;R.\n")?;
    Ok(text)
}

// Whether the command at the beginning of a statement has code.
fn has_code(code: &ProgramCode, program: &Program, statement: usize) -> bool {
    let place = Location {
        statement,
        offset: 0,
    };
    code.next(program, place, 0).is_some()
}

// The last statements have no code, unlike the first ones.
fn expect_little_code(rt: &impl Abort, alloc: Global, program: &Program) {
    let code = ProgramCode::new(alloc, program).expect(rt, "memory");
    let first = (has_code(&code, program, 0), has_code(&code, program, 70));
    let last = (has_code(&code, program, 110), has_code(&code, program, 111));
    expect_eq(rt, "code", (first, last), ((true, true), (false, false)));
}

// The program has three rounds: two of 126 commands, and one of 125, which does not jump back, before a
// PRINT and a STOP.
#[test]
fn commands_without_code(rt: HostRuntime) {
    let text = text_with_much_code(rt.alloc()).expect(&rt, "memory");
    let mut bytes = text.as_slice();
    let program = load(rt.alloc(), 32_767, &mut Device::new(&mut bytes)).expect(&rt, "a program");
    expect_little_code(&rt, rt.alloc(), &program);
    let want = (Ending::Stop, b"     3     3    30     6\n".as_slice());
    expect_end(&rt, rt.alloc(), ("much code", &program), 379, want);
}
