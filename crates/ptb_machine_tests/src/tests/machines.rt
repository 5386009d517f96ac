// This file tests the steps of machines, their copies, and machines that hold the same.

ghost use Rattle.ptb_machine.specs.Steps.{FitsProgram};
ghost use Rattle.ptb_machine_tests.specs.Programs.{IsCounting, IsPrinting};

use crate::tests::shared::{
    ALIKE, Likeness, SAME_HASH, UNLIKE, compared, expect_eq, loaded, plain_rules, table,
};
use ptb_expr::Listed;
use ptb_machine::{Ending, Lines, Machine, RunFault, SavedMachine, TextScreen};
use ptb_text::Program;
use std::alloc::Global;
use std::process::Abort;

// A machine at the beginning of a run of a program.
fn begun(rt: &impl Abort, alloc: Global, program: &Program) -> Machine
    ensures { FitsProgram program.now result }
{
    Machine::new(alloc, program).expect(rt, "memory")
}

// A step without answers and input.
fn step_of(
    machine: &mut Machine,
    program: &Program,
    limit: u32,
    screen: &mut TextScreen,
) -> Result<Option<Ending>, RunFault>
    requires { FitsProgram program.now machine.old }
    ensures { FitsProgram program.now machine.new }
{
    let mut list = Listed::new(&[]);
    let mut input = Lines::new(&[]);
    machine.step(program, plain_rules(limit), &mut list, screen, &mut input)
}

// The limit of a step, its result, and how many commands are begun and what is shown then.
type Step = (u32, Result<Option<Ending>, RunFault>, u32, &'static [u8]);

// The next steps of a machine are these.
fn expect_steps(
    rt: &impl Abort,
    machine: &mut Machine,
    program: &Program,
    screen: &mut TextScreen,
    rows: &[Step],
)
    requires { FitsProgram program.now machine.old }
    ensures { FitsProgram program.now machine.new }
{
    'rows: for &(limit, want, steps, shown) in rows {
        let result = step_of(machine, program, limit, screen);
        let found = (result, machine.steps(), screen.bytes());
        expect_eq(rt, "a step", found, (want, steps, shown));
    }
}

// A machine of a text after these steps.
fn machine_after(rt: &impl Abort, alloc: Global, (text, rows): (&str, &[Step])) -> Machine {
    let program = loaded(rt, alloc, text.as_bytes());
    let mut machine = begun(rt, alloc, &program);
    let mut screen = TextScreen::new(alloc);
    expect_eq(rt, text, machine.steps(), 0);
    expect_steps(rt, &mut machine, &program, &mut screen, rows);
    machine
}

const TO_THE_END: &[Step] = &[
    (9, Ok(None), 1, b"     1"),
    (9, Ok(None), 2, b"     1     2\n"),
    (9, Ok(Some(Ending::End)), 2, b"     1     2\n"),
    (9, Err(RunFault::Spent), 2, b"     1     2\n"),
];

// The steps of a program that prints twice, and one after them.
#[test]
fn steps(rt: HostRuntime) {
    machine_after(&rt, rt.alloc(), ("10 P.1,;P.2", TO_THE_END));
}

const BEFORE_THE_COPY: &[Step] = &[(9, Ok(None), 1, b"")];

const OF_THE_COPY: &[Step] = &[
    (2, Ok(None), 2, b"     1\n"),
    (2, Ok(Some(Ending::End)), 2, b"     1\n"),
];

const AFTER_THE_END: &[Step] = &[(9, Err(RunFault::Spent), 2, b"     1\n")];

// A copy takes over where the machine is after a step, and continues to the end by itself; the
// machine is over where it takes over from there.
fn expect_taken_over(
    rt: &impl Abort,
    alloc: Global,
    program: &Program,
    machine: &mut Machine,
    copy: &mut Machine,
    screen: &mut TextScreen,
)
    requires { FitsProgram program.now machine.old }
{
    expect_steps(rt, machine, program, screen, BEFORE_THE_COPY);
    expect_eq(rt, "steps", copy.steps(), 0);
    copy.copy_from(alloc, machine).expect(rt, "memory");
    expect_eq(rt, "steps", copy.steps(), 1);
    expect_steps(rt, copy, program, screen, OF_THE_COPY);
    expect_eq(rt, "steps", machine.steps(), 1);
    machine.copy_from(alloc, copy).expect(rt, "memory");
    expect_steps(rt, machine, program, screen, AFTER_THE_END);
}

// A machine and its copy do so.
fn expect_copies(rt: &impl Abort, alloc: Global, program: &Program) {
    let mut machine = begun(rt, alloc, program);
    let mut copy = machine.copy(alloc).expect(rt, "memory");
    let mut screen = TextScreen::new(alloc);
    expect_taken_over(rt, alloc, program, &mut machine, &mut copy, &mut screen)
}

// A copy continues by itself, also from where it was taken over; one of a machine that is over is
// over.
#[test]
fn copies(rt: HostRuntime) {
    let program = loaded(&rt, rt.alloc(), b"10 A=A+1,B=SIZE\n20 P.A");
    expect_copies(&rt, rt.alloc(), &program)
}

const QUIET: &[Step] = &[(9, Ok(None), 1, b""), (9, Ok(None), 2, b"")];

const ELEVEN: &[Step] = &[(9, Ok(None), 1, b"    11\n"), (9, Ok(None), 2, b"    11\n")];

const TWENTY_TWO: &[Step] = &[(9, Ok(None), 1, b"    22\n"), (9, Ok(None), 2, b"    22\n")];

const ONE: &[Step] = &[(9, Ok(None), 1, b"     1"), (9, Ok(None), 2, b"     1")];

const JUMP: &[Step] = &[(9, Ok(None), 1, b"")];

const LIMIT: &[Step] = &[(0, Ok(Some(Ending::Limit)), 0, b"")];

// A text, and the steps of its machine.
type Played = (&'static str, &'static [Step]);

// Two machines, and how alike they are. They differ in a value, in what was shown last, a byte or a newline, in how
// many commands were begun, and in whether the run is over. The hash leaves the last two out.
const PAIRS: &[(Played, Played, Likeness)] = table! {
    (("10 A=1;GOTO 10", QUIET), ("10 A=1;GOTO 10", QUIET), ALIKE),
    (("10 A=1;GOTO 10", QUIET), ("10 A=2;GOTO 10", QUIET), UNLIKE),
    (("10 P.11;GOTO 10", ELEVEN), ("10 P.22;GOTO 10", TWENTY_TWO), ALIKE),
    (("10 P.11;GOTO 10", ELEVEN), ("10 P.1,;GOTO 10", ONE), UNLIKE),
    (("10 GOTO 10", &[]), ("10 GOTO 10", &[]), ALIKE),
    (("10 GOTO 10", &[]), ("10 GOTO 10", JUMP), SAME_HASH),
    (("10 GOTO 10", &[]), ("10 GOTO 10", LIMIT), SAME_HASH),
};

// Whether two of them hold the same.
fn likeness(alloc: Global, one: &Machine, other: &Machine) -> Likeness {
    let (mut first, mut second) = (SavedMachine::new(alloc), SavedMachine::new(alloc));
    first.save(one)?;
    second.save(other)?;
    compared!(first, second)
}

// A machine holds the same as its copy, and as one that takes over what it holds.
fn expect_copied(rt: &impl Abort, alloc: Global, machine: &Machine, other: &mut Machine) {
    let copy = machine.copy(alloc).expect(rt, "memory");
    expect_eq(rt, "copy", likeness(alloc, machine, &copy), ALIKE);
    other.copy_from(alloc, machine).expect(rt, "memory");
    expect_eq(rt, "copied", likeness(alloc, machine, other), ALIKE);
}

// It holds the same as one that is restored from what was saved of it.
fn expect_restored(rt: &impl Abort, alloc: Global, machine: &Machine, other: &mut Machine) {
    let mut saved = SavedMachine::new(alloc);
    saved.save(machine).expect(rt, "memory");
    expect_eq(rt, "steps", saved.steps(), machine.steps());
    other.restore(alloc, &saved).expect(rt, "memory");
    expect_eq(rt, "restored", likeness(alloc, machine, other), ALIKE);
}

// Two machines are so alike.
fn expect_pair(rt: &impl Abort, alloc: Global, one: Played, other: Played, want: Likeness) {
    let machine = machine_after(rt, alloc, one);
    let mut other = machine_after(rt, alloc, other);
    expect_eq(rt, one.0, likeness(alloc, &machine, &other), want);
    let mut third = other.copy(alloc).expect(rt, "memory");
    expect_copied(rt, alloc, &machine, &mut other);
    expect_restored(rt, alloc, &machine, &mut third);
}

#[test]
fn same_machines(rt: HostRuntime) {
    for &(one, other, want) in PAIRS {
        expect_pair(&rt, rt.alloc(), one, other, want);
    }
}

// A sum that is done again and again, which shows nothing.
const COUNTS: &[u8] = b"10 A=A+1\n20 GOTO 10";

// An empty line that is shown again and again. Its commands are where those of the sum are.
const PRINTS: &[u8] = b"10 PRINT\n20 GOTO 10";

// A machine that fits the one program fits the other.
fn fits_prints(machine: &Machine, counts: &Program, prints: &Program)
    requires fits { FitsProgram counts.now machine.now }
    requires counts { IsCounting counts.now }
    requires prints { IsPrinting prints.now }
    ensures { FitsProgram prints.now machine.now }
{}

const EIGHT: &[Step] = &[
    (100, Ok(None), 1, b""),
    (100, Ok(None), 2, b""),
    (100, Ok(None), 3, b""),
    (100, Ok(None), 4, b""),
    (100, Ok(None), 5, b""),
    (100, Ok(None), 6, b""),
    (100, Ok(None), 7, b""),
    (100, Ok(None), 8, b""),
];

const PRINT: &[Step] = &[(100, Ok(None), 9, b"\n")];

// A machine of a program that shows nothing fits another one that prints, after eight commands, and
// then prints.
fn expect_print(rt: &impl Abort, alloc: Global, counts: &Program, prints: &Program)
    requires counts { IsCounting counts.now }
    requires prints { IsPrinting prints.now }
{
    let mut machine = begun(rt, alloc, counts);
    let mut screen = TextScreen::new(alloc);
    expect_steps(rt, &mut machine, counts, &mut screen, EIGHT);
    fits_prints(&machine, counts, prints);
    expect_steps(rt, &mut machine, prints, &mut screen, PRINT);
}

// A machine has nothing of the program whose commands it did: after four turns of a sum and a jump
// it fits a program that prints there, and prints.
#[test]
fn programs_with_the_same_places(rt: HostRuntime) {
    let counts = loaded(&rt, rt.alloc(), COUNTS);
    let prints = loaded(&rt, rt.alloc(), PRINTS);
    expect_print(&rt, rt.alloc(), &counts, &prints)
}
