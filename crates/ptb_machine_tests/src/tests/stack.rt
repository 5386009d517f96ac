// This file tests the control stack: what FOR, NEXT, GOSUB and RETURN leave open.

use crate::tests::shared::{
    ALIKE, Likeness, SAME_HASH, UNLIKE, compared, expect_eq, letter, numbers,
};
use ptb_command::{Location, OpenLoop, Registers, SavedRegisters, Stack};
use ptb_expr::Store;
use ptb_text::Letter;
use std::alloc::{AllocError, Global};
use std::process::Abort;

// What is opened: `(` for a call, or the letter of a loop; to where it leads back, its limit and its
// step. A call has neither.
type Opening = (u8, (usize, usize), i16, i16);

// Opens a call or a loop, and says whether there was room.
fn open(stack: &mut Stack, (byte, (statement, at), limit, step): Opening) -> bool {
    let back = Location {
        statement,
        offset: at,
    };
    match Letter::new(byte) {
        Some(letter) => stack.open_loop(OpenLoop {
            back,
            letter,
            limit,
            step,
        }),
        None => stack.open_call(back),
    }
}

// Does what a byte stands for, and says whether it was done: `(` opens a call and `A` a loop; `)`
// closes the newest call, `a` the loops that are newer than that of A, and `-` what is newest.
fn change(stack: &mut Stack, byte: u8) -> bool {
    match byte {
        b')' => stack.close_call().is_some(),
        b'-' => {
            stack.close_newest();
            true
        }
        b'a' => stack.close_newer(letter(b'A')).is_some(),
        b'b' => stack.close_newer(letter(b'B')).is_some(),
        _ => open(stack, (byte, (1, 2), 9, 1)),
    }
}

// The stack after these changes, and whether the last one was done.
fn changed(script: &str) -> (Stack, bool) {
    let mut stack = Stack::new();
    let mut last = true;
    for &byte in script.as_bytes() {
        last = change(&mut stack, byte);
    }
    (stack, last)
}

// Registers that have what is open, and nothing else.
fn registers_with(alloc: Global, stack: &Stack) -> Result<Registers, AllocError> {
    Ok(Registers {
        place: None,
        store: Store::new(alloc, 0)?,
        stack: stack.copy(),
    })
}

// Whether two of them hold the same.
fn likeness(alloc: Global, one: &Stack, other: &Stack) -> Likeness {
    let (mut first, mut second) = (SavedRegisters::new(alloc), SavedRegisters::new(alloc));
    first.save(&registers_with(alloc, one)?)?;
    second.save(&registers_with(alloc, other)?)?;
    compared!(first, second)
}

// Changes, and whether the last one was done; other changes, and how alike what is open is after both.
type Change = (&'static str, bool, &'static str, Likeness);

const CHANGES: &[Change] = &[
    // what is opened
    ("", true, "", ALIKE),
    ("", true, "A", UNLIKE),
    ("(", true, "(", ALIKE),
    ("((", true, "(", UNLIKE),
    ("A", true, "A", ALIKE),
    ("A", true, "B", UNLIKE),
    ("A", true, "(", UNLIKE),
    ("AB", true, "BA", UNLIKE),
    ("AB(", true, "AB(", ALIKE),
    ("AB(", true, "AB", UNLIKE),
    ("()", true, "", ALIKE),
    ("AB()", true, "AB", ALIKE),
    ("AB(---", true, "", ALIKE),
    ("ABb", true, "AB", ALIKE),
    ("AB-a", true, "A", ALIKE),
    ("BAa", true, "BA", ALIKE),
    ("BA-b", true, "B", ALIKE),
    ("A(Aa", true, "A(A", ALIKE),
    ("A(A-)", true, "A", ALIKE),
    ("A(B", true, "A(C", UNLIKE),
    ("A(B", true, "A(B", ALIKE),
    ("A(A", true, "A(A", ALIKE),
    ("A(A", true, "A(", UNLIKE),
    // a loop that is opened again
    ("AA", true, "A", ALIKE),
    ("ABA", true, "BA", ALIKE),
    ("BAB", true, "AB", ALIKE),
    // what is closed
    (")", false, "", ALIKE),
    ("AB)", false, "AB", ALIKE),
    ("A(B)", true, "A", ALIKE),
    ("A(BC)", true, "A", ALIKE),
    ("A(B(C)", true, "A(B", ALIKE),
    ("a", false, "", ALIKE),
    ("ABCa", true, "A", ALIKE),
    ("ABCb", true, "AB", ALIKE),
    ("A(Ba", false, "A(B", ALIKE),
    ("A(BAb", true, "A(B", ALIKE),
    ("-", true, "", ALIKE),
    ("A-", true, "", ALIKE),
    ("A(-", true, "A", ALIKE),
];

// How alike what is open is to what it was, after registers with something else open were restored.
fn restored_likeness(alloc: Global, other: &Stack, was: &Stack) -> Likeness {
    let mut saved = SavedRegisters::new(alloc);
    saved.save(&registers_with(alloc, was)?)?;
    let mut registers = registers_with(alloc, other)?;
    registers.restore(alloc, &saved)?;
    likeness(alloc, &registers.stack, was)
}

// A copy has what was open, whatever is opened later. Whatever is open in a stack, it takes over what
// a copy has, or what was saved, and keeps nothing of its own.
fn expect_copies(rt: &impl Abort, alloc: Global, script: &str, other: &str) {
    let (one, _) = changed(script);
    let (mut two, _) = changed(other);
    let copy = two.copy();
    let _ = change(&mut two, b'Z');
    two.copy_from(&one);
    expect_eq(rt, script, likeness(alloc, &two, &one), ALIKE);
    two.copy_from(&copy);
    expect_eq(rt, other, likeness(alloc, &two, &changed(other).0), ALIKE);
    expect_eq(rt, script, restored_likeness(alloc, &two, &one), ALIKE);
}

// After changes and other changes this is so.
fn expect_change(rt: &impl Abort, alloc: Global, (script, done, other, want): Change) {
    let (one, last) = changed(script);
    let (two, _) = changed(other);
    let found = (last, two.is_empty());
    expect_eq(rt, script, found, (done, other.is_empty()));
    expect_eq(rt, script, likeness(alloc, &one, &two), want);
}

#[test]
fn changes(rt: HostRuntime) {
    for &row in CHANGES {
        expect_change(&rt, rt.alloc(), row);
        expect_copies(&rt, rt.alloc(), row.0, row.2);
    }
}

// What is done where 255 calls are open.
const LAST_ROOM: &[(u8, bool)] = &[
    (b'A', true),
    (b'A', true),
    (b'B', false),
    (b'(', false),
    (b'-', true),
    (b'(', true),
    (b'A', false),
    (b')', true),
    (b'B', true),
];

// There is room for 256: loops and calls count alike, and a loop that is opened again counts once.
#[test]
fn room(rt: HostRuntime) {
    let mut stack = Stack::new();
    for _ in 1..256 {
        expect_eq(&rt, "call", change(&mut stack, b'('), true);
    }
    for &(byte, done) in LAST_ROOM {
        expect_eq(
            &rt,
            "change",
            (byte, change(&mut stack, byte)),
            (byte, done),
        );
    }
}

// A call returns to its place, and a loop is given as it was opened.
#[test]
fn places(rt: HostRuntime) {
    let mut stack = Stack::new();
    let call = open(&mut stack, (b'(', (3, 4), 0, 0));
    let opened = (call, open(&mut stack, (b'A', (1, 2), 9, 1)));
    expect_eq(&rt, "opened", opened, (true, true));
    let begin = match stack.close_newer(letter(b'A')) {
        Some(item) => numbers(Some(item.back)),
        None => None,
    };
    let back = numbers(stack.close_call());
    expect_eq(&rt, "places", (begin, back), (Some((1, 2)), Some((3, 4))));
}

// Changes that open one loop or call, another one that is opened alone, and how alike they are. The hash
// leaves the step out.
const OPENINGS: &[(&str, Opening, Likeness)] = &[
    ("A", (b'A', (1, 2), 9, 1), ALIKE),
    ("A", (b'A', (2, 2), 9, 1), UNLIKE),
    ("A", (b'A', (1, 3), 9, 1), UNLIKE),
    ("A", (b'B', (1, 2), 9, 1), UNLIKE),
    ("A", (b'A', (1, 2), 8, 1), UNLIKE),
    ("A", (b'A', (1, 2), 9, -1), SAME_HASH),
    ("(", (b'(', (1, 2), 0, 0), ALIKE),
    ("(", (b'(', (2, 2), 0, 0), UNLIKE),
    ("(", (b'(', (1, 3), 0, 0), UNLIKE),
];

// What is opened alone is so alike.
fn expect_opening(rt: &impl Abort, alloc: Global, script: &str, alone: Opening, want: Likeness) {
    let (one, _) = changed(script);
    let mut other = Stack::new();
    expect_eq(rt, "opened", open(&mut other, alone), true);
    expect_eq(rt, script, likeness(alloc, &one, &other), want);
}

#[test]
fn same_openings(rt: HostRuntime) {
    for &(script, opening, want) in OPENINGS {
        expect_opening(&rt, rt.alloc(), script, opening, want);
    }
}
