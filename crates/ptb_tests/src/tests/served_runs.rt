// This file tests requests that run a program once, with a list of answers or with those of a seed.

use crate::tests::replies::{
    Kind, RUN, ServedRow, expect_reply, expect_served_rows, row, rows, served,
};
use crate::tests::shared::expect_same;
use ptb_serve::Outcome;
use rand_core::utils::NextWord;
use rand_pcg::Lcg64Xsh32;
use std::alloc::{AllocError, Global};
use std::process::Abort;
use std::test::Fail;

const RUNS_WITHOUT_INPUT: &[ServedRow<'static>] = rows! {
    (b"", b"", 0),
    (b"10 PRINT \"HI\"\n", b"HI\n", 0),
    (b"20 P.\"B\"\n10 P.'A',;P.\n", b"A\nB\n", 0),
    (b"10 P.\"A\";P.1", b"A\n     1\n", 0),
    (b"10 PRINT -32767-1", b"-32768\n", 0),
    (b"10 PRINT -(-32767-1)", b"HOW?\n10 PRINT -(-32767-1)?\n", 2),
    (b"10 PRINT 'ABC',_,\"X\",#3,7", b"ABC\rX  7\n", 0),
    (b"300 B=200,C=200\n310 LET A=B*C+2", b"HOW?\n310 LET A=B*C?+2\n", 2),
    (b"10 PRINT SIZE", b"  4083\n", 0),
    (b"10 GOS.30;N.J\n30 F.J=1TO9;R.", b"WHAT?\n10 GOS.30;N.J?\n", 1),
    (b"10 A=3,@(A)=A+1;P.@(3)", b"     4\n", 0),
    (b"10 F.I=1TO1;GOS.10", b"SORRY\n10 F.I=1TO1?;GOS.10\n", 3),
    (b"10 P.RND(2)", b"     2\n", 0, kind = Kind::Run(&[2])),
    (b"10 P.RND(2)", b"     1\n", 0, kind = Kind::Run(&[1, 9])),
    (b"10 GOTO 10", b"", 4, steps = 5),
    (b"10 F.I=1TO3S.2;P.I,;N.I", b"     1     3", 0, steps = 5),
    (b"10 F.I=1TO3S.2;P.I,;N.I", b"     1     3", 4, steps = 4),
    (b"10 P.RND(2)", b"", 6, kind = Kind::Run(&[])),
    (b"10 P.RND(2)", b"", 7, kind = Kind::Run(&[3])),
    (b"10 F.A=A+1TO RND(3);P.A,;N.A", b"     1     2", 0, kind = Kind::Run(&[2])),
    (b"10 GOSUB 10", b"SORRY\n10 GOSUB 10?\n", 3, steps = 257),
    (b"10 GOSUB 10", b"", 4, steps = 256),
    (b"10 @(27)=1", b"", 0, memory = 64),
    (b"10 @(28)=1", b"SORRY\n10 @(28)?=1\n", 3, memory = 64),
};

#[test]
fn runs_without_input(rt: HostRuntime) -> Result<(), Fail> {
    expect_served_rows(&rt, rt.alloc(), RUNS_WITHOUT_INPUT)?;
    Ok(())
}

const RUNS_OF_EACH_COMMAND: &[ServedRow<'static>] = rows! {
    (b"10 F.I=5TO1;P.I;N.I", b"     5\n", 0, steps = 3),
    (b"10 F.I=32766TO32767;N.I;P.I", b" 32767\n", 0, steps = 4),
    (b"10 GOSUB 40;P.1\n20 STOP\n40 P.2;RETURN", b"     2\n     1\n", 0, steps = 5),
    (b"10 IF 0 NONSENSE\n20 P.2/3;", b"     0\n", 0, steps = 2),
    (b"10 REM;P.1\n20 PRINT", b"\n", 0, steps = 2),
    (b"10 @(16371)=1;P.@(16371)", b"     1\n", 0, memory = 32767),
    (b"10 @(16372)=1;P.@(16372)", b"SORRY\n10 @(16372)?=1;P.@(16372)\n", 3, memory = 32767),
    (b"210 PTINT \"THIS\"", b"WHAT?\n210 P?TINT \"THIS\"\n", 1),
    (b"260 LET A=B+3, C=(3+4, X=4", b"WHAT?\n260 LET A=B+3, C=(3+4?, X=4\n", 1),
    (b"380 GOTO 412", b"HOW?\n380 GOTO 412?\n", 2),
    (b"10 PRINT 2*-3", b"WHAT?\n10 PRINT 2*?-3\n", 1),
    (b"10 PRINT 1<2<3", b"     1\nWHAT?\n10 PRINT 1<2?<3\n", 1),
    (b"10 P.32768", b"HOW?\n10 P.32768?\n", 2),
    (b"10 P.\"A\",'B", b"A\nWHAT?\n10 P.\"A\",?'B\n", 1),
    (b"10 P.#2,-123,#256,1", b"-123\nHOW?\n10 P.#2,-123,#256?,1\n", 2),
    (b"10 RETURN", b"WHAT?\n10 RETURN?\n", 1),
    (b"10 GOTO 10;P.1", b"WHAT?\n10 GOTO 10?;P.1\n", 1),
    (b"10 A=1/0", b"HOW?\n10 A=1/0?\n", 2),
    (b"10 A=B=0;P.A", b"     1\n", 0),
    (b"10 .1", b"WHAT?\n10 ?.1\n", 1),
    (b"10 P", b"WHAT?\n10 P?\n", 1),
    (b"10 PRINT.", b"WHAT?\n10 PRINT?.\n", 1),
    (b"10 I.1P.2", b"     2\n", 0),
    (b"10 P.S.", b"  4089\n", 0),
    (b"10 INPUT \"N", b"WHAT?\n10 INPUT ?\"N\n", 1),
    (b"10 P.1;;P.2", b"     1\nWHAT?\n10 P.1;?;P.2\n", 1),
    (b"10 @(32767)=1", b"SORRY\n10 @(32767)?=1\n", 3),
};

#[test]
fn runs_of_each_command(rt: HostRuntime) -> Result<(), Fail> {
    expect_served_rows(&rt, rt.alloc(), RUNS_OF_EACH_COMMAND)?;
    Ok(())
}

const RUNS_WITH_INPUT: &[ServedRow<'static>] = rows! {
    (b"10 INPUT A;PRINT A", b"A:RND(2)\n     1\n", 0, input = b"RND(2)\n", kind = Kind::Run(&[1])),
    (b"10 INPUT A", b"A:)\nWHAT?\nA:5\n", 0, input = b")\n5\n"),
    (b"10 INPUT A", b"A:)\nWHAT?\nA:5\n", 0, input = b")\n5"),
    (b"10 INPUT A", b"A:)\nWHAT?\nA:", 5, input = b")\n"),
    (b"10 INPUT A", b"A:", 5, input = b""),
    (b"10 INPUT @(RND(2))", b"@(RND(2)):)\nWHAT?\n@(RND(2)):5\n", 0, input = b")\n5\n", kind = Kind::Run(&[1, 1])),
    (b"10 INPUT \"N\"A,'!'", b"N:2+3 X\n!", 0, input = b"2+3 X\n"),
    (b"10 INPUT A;P.A", b"A: 71\n    71\n", 0, input = b"\t7\x01\x7f1\r\n"),
};

#[test]
fn runs_with_input(rt: HostRuntime) -> Result<(), Fail> {
    expect_served_rows(&rt, rt.alloc(), RUNS_WITH_INPUT)?;
    Ok(())
}

const ANSWERS_IN_PLACE_OF_LINES: &[ServedRow<'static>] = rows! {
    (b"10 INPUT A;PRINT A", b"A:", 6, choose = Some(2)),
    (b"10 INPUT A;PRINT A", b"A:", 7, kind = Kind::Run(&[3]), choose = Some(2)),
    (b"10 INPUT A;PRINT A", b"A:2\n     2\n", 0, kind = Kind::Run(&[2]), choose = Some(2)),
    (b"10 INPUT A,B;PRINT A-B", b"A:5\nB:9\n    -4\n", 0, kind = Kind::Run(&[9]), input = b"5\n", choose = Some(9)),
    (b"10 INPUT A;PRINT A", b"A:)\nWHAT?\nA:1\n     1\n", 0, kind = Kind::Run(&[1]), input = b")\n",
     choose = Some(2)),
    (b"10 INPUT A;PRINT RND(6)", b"A:3\n     5\n", 0, kind = Kind::Seed(7), choose = Some(6)),
};

// Where no line is left an answer stands for it, from 1 to the bound.
#[test]
fn answers_in_place_of_lines(rt: HostRuntime) -> Result<(), Fail> {
    expect_served_rows(&rt, rt.alloc(), ANSWERS_IN_PLACE_OF_LINES)?;
    Ok(())
}

const SEEDED_RUNS: &[ServedRow<'static>] = rows! {
    (b"10 P.RND(1)", b"     1\n", 0, kind = Kind::Seed(7)),
    (b"10 P.RND(6),RND(6),RND(100)", b"     3     5    13\n", 0, kind = Kind::Seed(7)),
    (b"10 INPUT A;PRINT A", b"A:RND(6)\n     3\n", 0, kind = Kind::Seed(7), input = b"RND(6)\n"),
    (b"10 INPUT A", b"A:", 5, kind = Kind::Seed(7)),
};

#[test]
fn seeded_runs(rt: HostRuntime) -> Result<(), Fail> {
    expect_served_rows(&rt, rt.alloc(), SEEDED_RUNS)?;
    Ok(())
}

// Twenty answers from 1 to 6, drawn from the generator here.
fn drawn_list(alloc: Global, seed: u64) -> Result<Vec<i16>, AllocError> {
    let mut generator = Lcg64Xsh32::new(seed, 1);
    let mut list = Vec::new(alloc);
    for _ in 0..20 {
        list.push((1 + generator.next_word() % 6) as i16)?;
    }
    Ok(list)
}

// What twenty questions for a number from 1 to 6 show.
fn twenty_rolls(alloc: Global, kind: Kind<'_>) -> Result<(Outcome, Vec<u8>), AllocError> {
    let row = row!(b"10 F.I=1TO20;P.RND(6),;N.I", b"", 0, kind = kind);
    served(alloc, &row, 5)
}

// The same with the list that is drawn.
fn twenty_drawn_rolls(alloc: Global, seed: u64) -> Result<(Outcome, Vec<u8>), AllocError> {
    let list = drawn_list(alloc, seed)?;
    twenty_rolls(alloc, Kind::Run(&list))
}

// Two runs, of which the second shows the same bytes as the first.
fn expect_same_rolls(rt: &impl Abort, by_list: (Outcome, Vec<u8>), by_seed: (Outcome, Vec<u8>)) {
    let found = (by_list.0.status, by_list.0.note, by_list.1.len());
    expect_same(rt, "twenty rolls", found, (0, None, 120));
    expect_reply(rt, by_seed, (0, None), &by_list.1);
}

// A run by a seed shows the same bytes as one with the list that is drawn.
#[test]
fn seeds_and_lists(rt: HostRuntime) -> Result<(), Fail> {
    for seed in [0, 1, 4294967295] {
        let by_list = twenty_drawn_rolls(rt.alloc(), seed)?;
        let by_seed = twenty_rolls(rt.alloc(), Kind::Seed(seed))?;
        expect_same_rolls(&rt, by_list, by_seed);
    }
    Ok(())
}
