// This file tests the lists that split the runs of a program, also to writers that fail and where memory
// is refused.

use crate::tests::explorers::BRANCHES;
use crate::tests::shared::{
    Row, are_asked, are_viewed, expect_rows, expect_same, loaded, plain_rules, table,
};
use crate::tests::written_rows::{Source, Writing, Written, expect_begun};
use ptb_explore::{Beginnings, ExploreFault, Form, write_beginnings};
use ptb_text::Device;
use std::alloc::{AllocError, Global};
use std::test::Fail;

// The lists of a program, of so many answers at most.
struct Split(usize, Form);

impl Writing for Split {
    fn write(&self, source: &Source, room: &mut [u8]) -> Result<u64, ExploreFault> {
        let rules = plain_rules(10000);
        match Beginnings::start(source.alloc, &source.program, &source.lines, rules, self.0) {
            Ok(mut lists) => write_beginnings(&mut lists, self.1, &mut Device::new(room)),
            Err(_) => Err(ExploreFault::Memory(0)),
        }
    }
}

const ROWS: &[Written<Split>] = table! { Written:
    (BRANCHES, "", Split(1, Form::Two), &["1/2\n", "2/2\n"]),
    (BRANCHES, "", Split(2, Form::Two), &["1/2\n", "2/2,1/3\n", "2/2,2/3\n", "2/2,3/3\n"]),
    (BRANCHES, "", Split(64, Form::Two), &["1/2\n", "2/2,1/3\n", "2/2,2/3\n", "2/2,3/3\n"]),
    ("", "", Split(1, Form::Two), &["none\n"]),
    ("10 P.RND(2)", "", Split(0, Form::Two), &["none\n"]),
    // a list that ends within a command, a bound that an answer sets, and a fault
    ("10 P.RND(2)*RND(3)", "", Split(1, Form::Two), &["1/2\n", "2/2\n"]),
    ("10 A=RND(3);B=RND(A);C=RND(B)", "", Split(2, Form::Two),
     &["1/3,1/1\n", "2/3,1/2\n", "2/3,2/2\n", "3/3,1/3\n", "3/3,2/3\n", "3/3,3/3\n"]),
    ("10 A=RND(2)-1;B=RND(A);C=RND(2)", "", Split(2, Form::Two), &["1/2\n", "2/2,1/1\n"]),
    // each play begins with the first line; without one a run is over
    ("10 INPUT A;B=RND(A);INPUT C", "2\nRND(2)\n", Split(2, Form::Two),
     &["1/2,1/2\n", "1/2,2/2\n", "2/2,1/2\n", "2/2,2/2\n"]),
    ("10 INPUT A;B=RND(2)", "", Split(1, Form::Two), &["none\n"]),
    // a program that never ends
    ("10 A=RND(2);GOTO 10", "", Split(2, Form::Two), &["1/2,1/2\n", "1/2,2/2\n", "2/2,1/2\n", "2/2,2/2\n"]),
};

// The lists of the branches in form 1.
const FEWER: Written<Split> = Written(
    BRANCHES,
    "",
    Split(2, Form::One),
    &["1\n", "2,1\n", "2,2\n", "2,3\n"],
);

#[test]
fn writes_lists(rt: HostRuntime) {
    expect_rows(&rt, "lists", &rt.alloc(), ROWS);
    expect_rows(&rt, "lists in form 1", &rt.alloc(), &[FEWER]);
}

// Whether the next list has these answers and bounds.
fn is_next(lists: &mut Beginnings, answers: &[i16], bounds: &[i16]) -> bool {
    matches!(lists.next(), Ok(true))
        && are_asked(lists.asked(), answers, bounds)
        && are_viewed(lists.answers(), lists.bounds(), answers, bounds)
}

// Whether no list is left.
fn is_none_left(lists: &mut Beginnings) -> bool {
    matches!(lists.next(), Ok(false))
}

// The answers and the bounds of the branches' lists.
const ASKED: &[(&[i16], &[i16])] = &[
    (&[1], &[2]),
    (&[2, 1], &[2, 3]),
    (&[2, 2], &[2, 3]),
    (&[2, 3], &[2, 3]),
];

// After the last list every call says that there is none.
#[test]
fn one_list_after_the_other(rt: HostRuntime) -> Result<(), Fail> {
    let (program, lines) = loaded(rt.alloc(), BRANCHES, "")?;
    let mut lists = Beginnings::start(rt.alloc(), &program, &lines, plain_rules(10000), 2)?;
    for &(answers, bounds) in ASKED {
        let found = is_next(&mut lists, answers, bounds);
        expect_same(&rt, "a list", (answers, found), (answers, true));
    }
    let none = (is_none_left(&mut lists), is_none_left(&mut lists));
    expect_same(&rt, "no list is left", none, (true, true));
    Ok(())
}

// A program, the most answers of its lists, and how many commands were played once each of them is
// found.
struct Played(&'static str, usize, &'static [u64]);

// Whether so many commands were played after each list, and no more to find that none is left.
fn are_played(lists: &mut Beginnings, counts: &[u64]) -> bool {
    let mut last = 0;
    for &count in counts {
        if !matches!(lists.next(), Ok(true)) || lists.played() != count {
            return false;
        }
        last = count;
    }
    is_none_left(lists) && lists.played() == last
}

impl Row<Global> for Played {
    fn holds(&self, alloc: &Global) -> bool {
        let Played(text, most, counts) = *self;
        let Ok((program, lines)) = loaded(*alloc, text, "") else {
            return false;
        };
        match Beginnings::start(*alloc, &program, &lines, plain_rules(10000), most) {
            Ok(mut lists) => are_played(&mut lists, counts),
            Err(AllocError) => false,
        }
    }
}

const PLAYED: &[Played] = table! { Played:
    // a play stops at the question after its first answers, whose command is begun; what follows is never played
    ("10 A=RND(2)\n20 B=RND(3)\n30 GOTO 30", 1, &[2, 4]),
    // the commands that a list has in common with the one before are not played again
    ("10 A=RND(2)\n20 B=RND(3)\n30 C=RND(4)\n40 GOTO 40", 2, &[3, 5, 7, 10, 12, 14]),
    // a run of fewer answers is played to its end
    ("10 A=RND(2);IF A=2 B=RND(2)", 64, &[2, 5, 7]),
};

#[test]
fn lists_are_played_to_their_last_question(rt: HostRuntime) {
    expect_rows(&rt, "played", &rt.alloc(), PLAYED);
}

// Passes whichever of its allocations is refused: the lines that are counted were written, and no
// others.
#[test]
fn refused_lists_end_with_a_line(rt: HostRuntime) -> Result<(), Fail> {
    expect_begun(&rt, rt.alloc(), &FEWER)
}
