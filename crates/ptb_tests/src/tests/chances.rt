// This file tests tables of chances, also with writers that fail and where memory is refused.

use crate::tests::shared::{expect_rows, rules, table};
use crate::tests::written_rows::{Source, Writing, Written, expect_begun};
use ptb_chances::write_chances;
use ptb_explore::ExploreFault;
use ptb_text::{Device, DeviceFault};
use std::test::Fail;

// The most commands of a run, and the bound for answers instead of lines. A table is one item: where
// memory is refused, nothing of it is written.
struct Table(u32, Option<i16>);

impl Writing for Table {
    fn write(&self, source: &Source, room: &mut [u8]) -> Result<u64, ExploreFault> {
        let rules = rules(self.0, self.1);
        let mut out = Device::new(room);
        match write_chances(
            source.alloc,
            &source.program,
            &source.lines,
            rules,
            &mut out,
        ) {
            Ok(()) => Ok(1),
            Err(DeviceFault::Memory) => Err(ExploreFault::Memory(0)),
            Err(_) => Err(ExploreFault::Write(0)),
        }
    }
}

const ROLL_IN_TWO: Written<Table> = Written(
    "10 A=RND(2);IF A=2 A=RND(3)\n20 P.#1,A\n",
    "",
    Table(10000, None),
    &["CHANCE 2/3 2 END 1\n1\nCHANCE 1/6 1 END 1\n2\nCHANCE 1/6 1 END 1\n3\n"],
);

// The chances are from Python's fractions.
const ROWS: &[Written<Table>] = table! { Written:
    ("", "", Table(10000, None), &["CHANCE 1/1 1 END 0\n\n"]),
    ("10 A=RND(2)\n20 IF A=1 GOTO 10\n", "", Table(5, None),
     &["CHANCE 3/4 2 END 0\n\nCHANCE 1/4 1 LIMIT 0\n\n"]),
    // four tosses: the results go by their bytes, and so the minus sign comes first
    ("10 F.I=1TO4;A=A+RND(2)*2-3;N.I;P.#1,A\n", "", Table(10000, None),
     &["CHANCE 1/4 4 END 2\n-2\nCHANCE 1/16 1 END 2\n-4\nCHANCE 3/8 6 END 1\n0\n\
CHANCE 1/4 4 END 1\n2\nCHANCE 1/16 1 END 1\n4\n"]),
    // by the endings first, then by the lines
    ("10 A=RND(3);P.#1,A;IF A=1 STOP\n20 IF A=2 P.1/0\n", "", Table(10000, None),
     &["CHANCE 1/3 1 END 1\n3\nCHANCE 1/3 1 STOP 1\n1\nCHANCE 1/3 1 HOW 16\n20 IF A=2 P.1/0?\n"]),
    // the last line counts, also one without an end; a last empty line is a line
    ("10 P.RND(2);P.'X'\n", "", Table(10000, None), &["CHANCE 1/1 2 END 1\nX\n"]),
    ("10 A=RND(5);P.#1,A,;IF A<4 STOP\n20 P.;IF A=4 P.\n", "", Table(10000, None),
     &["CHANCE 1/5 1 END 0\n\nCHANCE 1/5 1 END 1\n5\n\
CHANCE 1/5 1 STOP 1\n1\nCHANCE 1/5 1 STOP 1\n2\nCHANCE 1/5 1 STOP 1\n3\n"]),
    // a prefix of a line comes before it
    ("10 A=RND(2);P.#1,7,;IF A=1 P.0\n", "", Table(10000, None),
     &["CHANCE 1/2 1 END 1\n7\nCHANCE 1/2 1 END 7\n7     0\n"]),
    // an answer instead of a line, and no line
    ("10 INPUT A\n", "", Table(10000, Some(2)), &["CHANCE 1/2 1 END 3\nA:1\nCHANCE 1/2 1 END 3\nA:2\n"]),
    ("10 INPUT A;P.#1,RND(2)\n", "", Table(10000, None), &["CHANCE 1/1 1 NOINPUT 2\nA:\n"]),
    ("10 INPUT A;P.#1,RND(2)+A\n", "7\n", Table(10000, None),
     &["CHANCE 1/2 1 END 1\n8\nCHANCE 1/2 1 END 1\n9\n"]),
};

#[test]
fn writes_tables(rt: HostRuntime) {
    expect_rows(&rt, "tables", &rt.alloc(), ROWS);
    expect_rows(&rt, "a roll in two", &rt.alloc(), &[ROLL_IN_TWO]);
}

// Passes whichever of its allocations is refused: nothing is written then.
#[test]
fn refused_tables_write_nothing(rt: HostRuntime) -> Result<(), Fail> {
    expect_begun(&rt, rt.alloc(), &ROLL_IN_TWO)
}
