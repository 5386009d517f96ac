// This file tests requests for the lines of a text, and for its mistakes.

use crate::tests::replies::{Kind, RUN, ServedRow, expect_served_rows, row, rows};
use std::test::Fail;

const FOUR_LINES: &[u8] = b"10 P.1\n20 P.2\n010\tP.3\r\n20";

const LISTED_TEXTS: &[ServedRow<'static>] = rows! {
    (FOUR_LINES, b"10 P.3\n", 0, kind = Kind::List),
    (b"", b"", 0, kind = Kind::List),
    (b"20 P.2\n5 P.1\n", b"5 P.1\n20 P.2\n", 0, kind = Kind::List),
    (b"20 P.2\n5 P.1", b"5 P.1\n20 P.2\n", 0, kind = Kind::List),
    (b"10P.\t1 \r\n\r\n   ", b"10 P. 1 \n", 0, kind = Kind::List),
    (b"32767 NONSENSE", b"32767 NONSENSE\n", 0, kind = Kind::List),
    (b"1 GOTO 1\n2 GOTO 1\n3 GOTO 1\n4 GOTO 1\n", b"1 GOTO 1\n2 GOTO 1\n3 GOTO 1\n4 GOTO 1\n", 0, kind = Kind::List,
     steps = 1, memory = 64),
    (b"10 INPUT A", b"10 INPUT A\n", 0, kind = Kind::List, input = b"5\n7\n"),
};

#[test]
fn listed_texts(rt: HostRuntime) -> Result<(), Fail> {
    expect_served_rows(&rt, rt.alloc(), LISTED_TEXTS)?;
    Ok(())
}

const THREE_MISTAKES: &[u8] = b"30 LET A=(3+4, X=4\n20 GOTO 412\n10 IF 0 PTINT \"X\"\n";

const CHECKS: &[ServedRow<'static>] = rows! {
    (b"10 PRINT \"HI\"", b"", 0, kind = Kind::Check),
    (THREE_MISTAKES, b"WHAT?\n10 IF 0 P?TINT \"X\"\nHOW?\n20 GOTO 412?\nWHAT?\n30 LET A=(3+4?, X=4\n", 1,
     kind = Kind::Check),
    (b"10 GOSUB 99;A=32768;PRINT )", b"HOW?\n10 GOSUB 99?;A=32768;PRINT )\nHOW?\n10 GOSUB 99;A=32768?;PRINT )\n", 1,
     kind = Kind::Check),
    (b"10 GOTO A\n20 RETURN", b"", 0, kind = Kind::Check),
    (b"10 PRINT (1/0", b"WHAT?\n10 PRINT (1/0?\n", 1, kind = Kind::Check),
    (b"", b"", 0, kind = Kind::Check),
    (b"10 GOTO 20\n20 GOSUB 10;GOTO (10)", b"", 0, kind = Kind::Check),
    (b"10 IF 1 GOTO +412 ", b"HOW?\n10 IF 1 GOTO +412 ?\n", 1, kind = Kind::Check),
    (b"10 GOSUB 0;GOTO 32767", b"HOW?\n10 GOSUB 0?;GOTO 32767\nHOW?\n10 GOSUB 0;GOTO 32767?\n", 1,
     kind = Kind::Check),
    (b"32767 GOTO 411+1;P.1", b"WHAT?\n32767 GOTO 411+1?;P.1\n", 1, kind = Kind::Check, steps = 1, memory = 64),
    // in each kind of command
    (b"10 F.I=1TO;N.I\n20 N.1\n30 IN.A,)\n40 P.#,A\n50 @(\n60 STOP 1\n70 RETURN;\n80 P.1;;P.2",
     b"WHAT?\n10 F.I=1TO?;N.I\nWHAT?\n20 N.?1\nWHAT?\n30 IN.A,?)\nWHAT?\n40 P.#?,A\nWHAT?\n50 @(?\nWHAT?\n\
      60 STOP ?1\nWHAT?\n70 RETURN?;\nWHAT?\n80 P.1;?;P.2\n", 1, kind = Kind::Check),
    // whatever is after REM, and mistakes of the input
    (b"10 REM GOTO 99;(\n20 INPUT A", b"", 0, kind = Kind::Check, input = b")\n"),
};

// The mistakes in a text.
#[test]
fn checks(rt: HostRuntime) -> Result<(), Fail> {
    expect_served_rows(&rt, rt.alloc(), CHECKS)?;
    Ok(())
}
