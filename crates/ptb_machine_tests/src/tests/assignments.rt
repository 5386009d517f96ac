// This file tests what LET stores, and where it stops.

use crate::tests::commands::expect_command;
use crate::tests::shared::{Doing, fault, nothing};

// Each LET: the place after it or why it stops, A, and the element 3.
const ASSIGNMENTS: &[(&str, Doing, i16, i16)] = &[
    ("10 A=B=0", Ok((0, 5)), 1, 0),
    ("10 A=1/0", fault!(How, 5), 0, 0),
    ("10 A 1", fault!(What, 2), 0, 0),
    ("10 @(27)=1 ;B=2", Ok((0, 9)), 0, 0),
    ("10 A=2,@(28)=1", fault!(Sorry, 9), 2, 0),
    ("10 @(0-1)=1", fault!(How, 6), 0, 0),
    ("10 @(1/0)", fault!(How, 5), 0, 0),
    ("10 A=3,@(A)=A+1", Ok((0, 12)), 3, 4),
    ("10 A=1X", fault!(What, 3), 1, 0),
    ("10 A=1,", fault!(What, 4), 1, 0),
    ("10 LET", fault!(What, 3), 0, 0),
    // what is before the fault is stored, and nothing after it
    ("10 A=1,B=1/0", fault!(How, 9), 1, 0),
    ("10 A=1,B=1/0,A=2", fault!(How, 9), 1, 0),
    ("10 A=4,@(3)=A,A=1/0", fault!(How, 16), 4, 4),
    ("10 A=1,B=A+32766+A", fault!(How, 15), 1, 0),
    ("10 A=1,@(3)=A,A=(2", fault!(What, 15), 1, 1),
];

#[test]
fn assignments(rt: HostRuntime) {
    for &(line, want, a, element) in ASSIGNMENTS {
        expect_command(
            &rt,
            rt.alloc(),
            (line, 0),
            nothing(),
            (want, b"", a, element),
        );
    }
}
