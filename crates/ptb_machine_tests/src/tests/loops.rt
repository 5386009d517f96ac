// This file tests runs in which commands are done again and again, to the last step that they need.

use crate::tests::runs::{alone, ending_of, expect_run};
use crate::tests::shared::{expect_eq, loaded, push_lines, table};
use ptb_machine::{Ending, TextScreen};
use ptb_text::Program;
use std::alloc::{AllocError, Global};
use std::process::Abort;

// The run of a program ends so and shows this after so many steps, and stops at its limit with one
// fewer.
pub(crate) fn expect_end(
    rt: &impl Abort,
    alloc: Global,
    (text, program): (&str, &Program),
    steps: u32,
    want: (Ending, &[u8]),
) {
    expect_run(rt, alloc, (text, program), alone(steps), want);
    let mut screen = TextScreen::new(alloc);
    let fewer = alone(steps.saturating_sub(1));
    let early = ending_of(alloc, program, fewer, &mut screen);
    expect_eq(rt, text, (early, steps), (Ok(Ending::Limit), steps));
}

// Each program: how many steps it takes, how it ends, and what it shows.
const ENDS: &[(&str, u32, Ending, &[u8])] = table! {
    // expressions that have no value at last
    ("10 A=32760\n20 A=A+1;GOTO 20\n", 16, Ending::How, b"HOW?\n20 A=A+1?;GOTO 20\n"),
    ("10 A=A-8192;GOTO 10\n", 9, Ending::How, b"HOW?\n10 A=A-8192?;GOTO 10\n"),
    ("10 A=-1\n20 A=A*2;GOTO 20\n", 30, Ending::How, b"HOW?\n20 A=A*2?;GOTO 20\n"),
    ("10 A=3\n20 B=6/A\n30 A=A-1;GOTO 20\n", 11, Ending::How, b"HOW?\n20 B=6/A?\n"),
    ("10 A=2\n20 B=@(A);A=A-1;GOTO 20\n", 11, Ending::How, b"HOW?\n20 B=@(A)?;A=A-1;GOTO 20\n"),
    ("10 A=32760\n20 A=-(-A-1);GOTO 20\n", 16, Ending::How, b"HOW?\n20 A=-(-A-1)?;GOTO 20\n"),
    // jumps to a number beside jumps to the value of a variable
    ("10 A=40\n20 B=B+1;A=90-A;GOTO A\n40 IF B=6 STOP\n45 GOTO 20\n50 P.B,;GOTO 20\n",
     31, Ending::Stop, b"     1     3     5"),
    // conditions that change, one after which the text is over, and one that has no value at last
    ("10 A=A+1;IF A<5 GOTO 10\n20 P.A\n", 15, Ending::End, b"     5\n"),
    ("10 A=A+1;IF A>4 STOP\n20 GOTO 10\n", 15, Ending::Stop, b""),
    ("10 A=A+1;IF A<4 GOTO 10\n", 11, Ending::End, b""),
    ("10 A=A+3000;IF A+A>0 GOTO 10\n", 17, Ending::How, b"HOW?\n10 A=A+3000;IF A+A?>0 GOTO 10\n"),
    ("10 A=A+1;IF A<6\n20 IF A<7 GOTO 10\n30 P.A\n", 28, Ending::End, b"     7\n"),
    ("10 IF A;P.1\n20 B=B+1;IF B<4 GOTO 10\n30 A=1;GOTO 10\n", 19, Ending::What, b"WHAT?\n10 IF A?;P.1\n"),
    // commands after one another, at the end of a text and after blanks, and assignments of more than one
    // value
    ("10 A=A+1\n20 B=B+A;C=C+1\n30 IF C<5 GOTO 10\n40 P.A,B,C\n", 25, Ending::End, b"     5    15     5\n"),
    ("10 A=A+1  \n20 B=B+A ;  \n30 IF B<15 GOTO 10  \n40 P.A,B\n", 20, Ending::End, b"     5    15\n"),
    ("10 A=A+1,B=B+A\n20 IF A<5 GOTO 10\n30 P.A,B\n", 15, Ending::End, b"     5    15\n"),
    ("10 A=A+1;@(A)=A*A;B=B+@(A)\n20 IF A<5 GOTO 10\n30 P.B,@(4)\n", 25, Ending::End, b"    55    16\n"),
    // calls until no room is left, and RETURN where no call is open any more
    ("10 D=D+1;GOSUB 10\n", 514, Ending::Sorry, b"SORRY\n10 D=D+1;GOSUB 10?\n"),
    ("10 GOSUB 10;P.1\n", 257, Ending::Sorry, b"SORRY\n10 GOSUB 10?;P.1\n"),
    ("10 I=I+1;GOSUB 40\n20 IF I<5 GOTO 10\n40 RETURN\n", 25, Ending::What, b"WHAT?\n40 RETURN?\n"),
    ("10 I=I+1;GOSUB 40;P.I,\n20 IF I<4 GOTO 10\n30 STOP\n40 RETURN\n",
     24, Ending::Stop, b"     1     2     3     4"),
    // a downward loop, loops closed by an outer one and by RETURN, and NEXT where none is open any more
    ("10 A=A+1;IF A=4 GOTO 30\n20 FOR I=1 TO 2;GOTO 30\n30 NEXT I\n40 GOTO 10\n",
     28, Ending::What, b"WHAT?\n30 NEXT I?\n"),
    ("10 A=A+1;GOSUB 40\n20 IF A<4 GOTO 10\n30 NEXT I\n40 FOR I=1 TO 9;RETURN\n",
     24, Ending::What, b"WHAT?\n30 NEXT I?\n"),
    ("10 FOR I=9 TO 1 STEP -2\n20 P.I,;NEXT I\n30 P.I\n",
     12, Ending::End, b"     9     7     5     3     1    -1\n"),
    ("10 FOR I=1 TO 3\n20 FOR J=1 TO 3\n30 A=A+1;NEXT I\n40 P.A,I,J;NEXT J\n",
     12, Ending::What, b"     3     4     1\nWHAT?\n40 P.A,I,J;NEXT J?\n"),
    // a loop ends where its next value is out of range, and its variable keeps the value before
    ("10 FOR I=32760 TO 32767\n20 NEXT I\n30 P.I\n", 10, Ending::End, b" 32767\n"),
    ("10 FOR I=32760 TO 32767\n20 NEXT I\n30 P.I;NEXT I\n", 11, Ending::What, b" 32767\nWHAT?\n30 P.I;NEXT I?\n"),
    ("10 FOR I=-32760 TO -32767-1 STEP -2\n20 NEXT I\n30 P.I\n", 7, Ending::End, b"-32768\n"),
    // the last command of a statement with many commands, and the first one of the next
    ("10 A=A+10;B=B+1;C=C+1;D=2+0+0+0+0;E=A-B;IF B<G GOTO 10\n20 G=G+5;IF G<20 GOTO 10\n30 P.A,B,C,D,E,G\n",
     113, Ending::End, b"   150    15    15     2   135    20\n"),
    ("10 A=A+10;B=B+1;C=C+1;D=2+0+0+0+0;E=A-B;IF B=4 STOP\n20 F=F+E;P.F,;GOTO 10\n",
     34, Ending::Stop, b"     9    27    54"),
    // PRINTs: strings, `_`, widths, values, an open line, an empty one, and one with many items
    ("10 F.I=1TO4;P.I,\"HELLO, WORLD\",#1,I/2,' ',#9,-I,_,\"X\";N.I\n",
     9, Ending::End,
     b"     1HELLO, WORLD0        -1\rX\n     2HELLO, WORLD1        -2\rX\
       \n     3HELLO, WORLD1        -3\rX\n     4HELLO, WORLD2        -4\rX\n"),
    ("10 F.I=1TO4;P.I,#2,I,#0,I , ;N.I\n", 9, Ending::End, b"     1 11     2 22     3 33     4 44"),
    ("10 F.I=1TO3;PRINT;N.I\n20 P.'Z'\n", 8, Ending::End, b"\n\n\nZ\n"),
    ("10 F.I=1TO3\n20 P. ' A;B' , \"'\" ,_, '' , -I ; N.I\n",
     7, Ending::End, b" A;B'\r    -1\n A;B'\r    -2\n A;B'\r    -3\n"),
    ("10 F.I=1TO3;P.1,2,3,4,5,6,7,8,9,#1,10,11,12,13;N.I\n",
     7, Ending::End,
     b"     1     2     3     4     5     6     7     8     910111213\
       \n     1     2     3     4     5     6     7     8     910111213\
       \n     1     2     3     4     5     6     7     8     910111213\n"),
    ("10 @(1)=3,@(2)=5,@(3)=7\n20 F.I=1TO3;P.#I,@(I),ABS(-I)+SIZE*0;N.I\n", 8, Ending::End, b"31\n 5 2\n  7  3\n"),
    // a PRINT shows what is before its fault
    ("10 A=A+1;P.'Y',#4-A,A,;GOTO 10\n", 14, Ending::How, b"Y  1Y 2Y3Y4Y\nHOW?\n10 A=A+1;P.'Y',#4-A?,A,;GOTO 10\n"),
    ("10 A=A+1;P.#A*51+1,'X',;GOTO 10\n", 14, Ending::How, b"XXXX\nHOW?\n10 A=A+1;P.#A*51+1?,'X',;GOTO 10\n"),
    ("10 A=A+1;P.A,12/(4-A);GOTO 10\n",
     11, Ending::How, b"     1     4\n     2     6\n     3    12\n     4\nHOW?\n10 A=A+1;P.A,12/(4-A)?;GOTO 10\n"),
    ("10 A=A+1;P.'B',@(4-A);GOTO 10\n",
     14, Ending::How, b"B     0\nB     0\nB     0\nB     0\nB\nHOW?\n10 A=A+1;P.'B',@(4-A)?;GOTO 10\n"),
    ("10 A=A+1;P.A;IF A=3 P.A B\n20 GOTO 10\n",
     12, Ending::What, b"     1\n     2\n     3\n     3\nWHAT?\n10 A=A+1;P.A;IF A=3 P.A ?B\n"),
};

// So does the run of a text.
fn expect_end_of(
    rt: &impl Abort,
    alloc: Global,
    (name, text): (&str, &[u8]),
    steps: u32,
    want: (Ending, &[u8]),
) {
    let program = loaded(rt, alloc, text);
    expect_end(rt, alloc, (name, &program), steps, want);
}

#[test]
fn commands_in_loops(rt: HostRuntime) {
    for &(text, steps, want, shown) in ENDS {
        let want = (want, shown);
        expect_end_of(&rt, rt.alloc(), (text, text.as_bytes()), steps, want);
    }
}

// Four lines, each with so many values of a digit, first of 1, then of 2, and so on: each value has
// blanks up to the greatest width.
fn wide_lines(alloc: Global, count: usize) -> Result<Vec<u8>, AllocError> {
    let mut text = Vec::new(alloc);
    for digit in b'1'..b'5' {
        for _ in 0..count {
            text.extend_from_slice(&[b' '; 254])?;
            text.push(digit)?;
        }
        text.push(b'\n')?;
    }
    Ok(text)
}

// Programs that show such lines, and how many values each line has: lines that find room together, and
// lines that don't.
const WIDE_LINES: &[(&str, usize)] = &[
    ("10 F.I=1TO4;P.#255,I,I;N.I\n", 2),
    ("10 F.I=1TO4;P.#255,I,I,I;N.I\n", 3),
];

#[test]
fn prints_of_long_lines(rt: HostRuntime) {
    for &(text, count) in WIDE_LINES {
        let shown = wide_lines(rt.alloc(), count).expect(&rt, "memory");
        let want = (Ending::End, shown.as_slice());
        expect_end_of(&rt, rt.alloc(), (text, text.as_bytes()), 9, want);
    }
}

// A statement whose second command is at place 128, after blanks, and one that prints.
fn long_statement(alloc: Global) -> Result<Vec<u8>, AllocError> {
    let mut text = Vec::from_slice(alloc, b"10 A=A+1")?;
    text.resize(3 + 127, b' ')?;
    text.extend_from_slice(b";IF A<5 GOTO 10\n20 P.A\n")?;
    Ok(text)
}

// 127 comments between a command and one that goes back to it.
fn many_statements(alloc: Global) -> Result<Vec<u8>, AllocError> {
    let mut text = Vec::from_slice(alloc, b"10 A=A+1;GOTO 5000\n")?;
    push_lines(&mut text, 127, b" REM\n")?;
    text.extend_from_slice(b"5000 IF A<5 GOTO 10\n5010 P.A\n")?;
    Ok(text)
}

const FIVE: (Ending, &[u8]) = (Ending::End, b"     5\n");

// A command that begins at a place over 127 is found, and one whose statement is the 129th.
#[test]
fn far_commands(rt: HostRuntime) {
    let far = long_statement(rt.alloc()).expect(&rt, "memory");
    let text = ("a far place", far.as_slice());
    expect_end_of(&rt, rt.alloc(), text, 15, FIVE);
    let many = many_statements(rt.alloc()).expect(&rt, "memory");
    let text = ("a far statement", many.as_slice());
    expect_end_of(&rt, rt.alloc(), text, 20, FIVE);
}
