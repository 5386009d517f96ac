// This file tests requests for tables of chances, for the lists that split all runs, and for samples.

use crate::tests::replies::{Kind, RUN, ServedRow, expect_served_rows, row, rows};
use ptb_explore::Form;
use std::test::Fail;

const TABLES: &[ServedRow<'static>] = rows! {
    (b"", b"CHANCE 1/1 1 END 0\n\n", 0, kind = Kind::Chances),
    (b"10 A=RND(2);IF A=2 A=RND(3)\n20 P.#1,A",
     b"CHANCE 2/3 2 END 1\n1\nCHANCE 1/6 1 END 1\n2\nCHANCE 1/6 1 END 1\n3\n", 0, kind = Kind::Chances),
    (b"10 A=RND(2)\n20 IF A=1 GOTO 10", b"CHANCE 3/4 2 END 0\n\nCHANCE 1/4 1 LIMIT 0\n\n", 0, kind = Kind::Chances,
     steps = 5),
    // a minus sign comes before the digits
    (b"10 F.I=1TO4;A=A+RND(2)*2-3;N.I;P.#1,A",
     b"CHANCE 1/4 4 END 2\n-2\nCHANCE 1/16 1 END 2\n-4\nCHANCE 3/8 6 END 1\n0\nCHANCE 1/4 4 END 1\n2\n\
      CHANCE 1/16 1 END 1\n4\n", 0, kind = Kind::Chances),
    // by the endings first, then by the lines
    (b"10 A=RND(3);P.#1,A;IF A=1 STOP\n20 IF A=2 P.1/0",
     b"CHANCE 1/3 1 END 1\n3\nCHANCE 1/3 1 STOP 1\n1\nCHANCE 1/3 1 HOW 16\n20 IF A=2 P.1/0?\n", 0,
     kind = Kind::Chances),
    (b"10 INPUT A;P.#1,A", b"CHANCE 1/2 1 END 1\n1\nCHANCE 1/2 1 END 1\n2\n", 0, kind = Kind::Chances,
     input = b"RND(2)\n"),
    (b"10 INPUT A", b"CHANCE 1/2 1 END 3\nA:1\nCHANCE 1/2 1 END 3\nA:2\n", 0, kind = Kind::Chances, choose = Some(2)),
    (b"10 INPUT A;P.RND(2)", b"CHANCE 1/1 1 NOINPUT 2\nA:\n", 0, kind = Kind::Chances),
};

// The chances of all results.
#[test]
fn tables_of_chances(rt: HostRuntime) -> Result<(), Fail> {
    expect_served_rows(&rt, rt.alloc(), TABLES)?;
    Ok(())
}

const SPLITS: &[ServedRow<'static>] = rows! {
    (b"10 A=RND(2);IF A=2 B=RND(3);PRINT B", b"1/2\n2/2\n", 0, kind = Kind::Shares(1, Form::Two)),
    (b"10 A=RND(2);IF A=2 B=RND(3);PRINT B", b"1/2\n2/2,1/3\n2/2,2/3\n2/2,3/3\n", 0,
     kind = Kind::Shares(2, Form::Two)),
    (b"10 A=RND(2);IF A=2 B=RND(3);PRINT B", b"1\n2,1\n2,2\n2,3\n", 0, kind = Kind::Shares(9, Form::One)),
    (b"", b"none\n", 0, kind = Kind::Shares(1, Form::Two)),
    (b"10 P.RND(2)", b"none\n", 0, kind = Kind::Shares(0, Form::Two)),
    (b"10 INPUT A;PRINT RND(9)", b"1/2\n2/2\n", 0, kind = Kind::Shares(1, Form::Two), input = b"RND(2)\n"),
    (b"10 INPUT A,B", b"1/3\n2/3\n3/3\n", 0, kind = Kind::Shares(1, Form::Two), choose = Some(3)),
    (b"10 A=RND(2);B=RND(2)", b"1/2\n2/2\n", 0, kind = Kind::Shares(2, Form::Two), steps = 1),
};

// The lists that split the runs.
#[test]
fn lists_that_split(rt: HostRuntime) -> Result<(), Fail> {
    expect_served_rows(&rt, rt.alloc(), SPLITS)?;
    Ok(())
}

const SAMPLES: &[ServedRow<'static>] = rows! {
    (b"10 P.RND(6)", b"RUN 3/6 END 1 7\n     3\n\nRUN 5/6 END 1 7\n     5\n\nRUN 5/6 END 1 7\n     5\n\n", 0,
     kind = Kind::Sample(3, Form::Two)),
    (b"10 P.RND(6)", b"RUN 3 END 1 7\n     3\n\n", 0, kind = Kind::Sample(1, Form::One)),
    (b"10 A=RND(2);IF A=2 B=RND(3);PRINT B",
     b"RUN 1 END 2 0\n\nRUN 1 END 2 0\n\nRUN 1 END 2 0\n\nRUN 2,1 END 4 7\n     1\n\n", 0,
     kind = Kind::Sample(4, Form::One)),
    (b"10 INPUT A", b"RUN 3 END 1 9\nA:RND(6)\n\nRUN 5 END 1 9\nA:RND(6)\n\n", 0, kind = Kind::Sample(2, Form::One),
     input = b"RND(6)\n5\n"),
    (b"10 INPUT A", b"RUN 3/6 END 1 4\nA:3\n\n", 0, kind = Kind::Sample(1, Form::Two), choose = Some(6)),
    (b"10 A=RND(2);GOTO 10", b"RUN 1/2,1/2 LIMIT 3 0\n\n", 0, kind = Kind::Sample(1, Form::Two), steps = 3),
    (b"", b"RUN none END 0 0\n\n", 0, kind = Kind::Sample(1, Form::Two)),
};

// The reports of the runs that a seed draws, one after the other.
#[test]
fn samples(rt: HostRuntime) -> Result<(), Fail> {
    expect_served_rows(&rt, rt.alloc(), SAMPLES)?;
    Ok(())
}
