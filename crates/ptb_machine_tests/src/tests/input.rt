// This file tests what INPUT shows and stores, and where it stops.

use crate::tests::commands::{Effect, expect_command};
use crate::tests::shared::{Doing, NO_ANSWER, Offer, fault, lines_of, table};
use ptb_command::CommandStop;
use ptb_expr::Pause;
use std::alloc::Global;
use std::process::Abort;

// Each INPUT with its lines, where RND is answered by 1 and 2: how it is done, what is shown, and A.
const ITEMS: &[(&str, &[&[u8]], Doing, &[u8], i16)] = table! {
    ("10 IN.A", &[b")", b"5"], Ok((0, 4)), b"A:)\nWHAT?\nA:5\n", 5),
    ("10 IN.A", &[b")"], Err(CommandStop::NoInput), b"A:)\nWHAT?\nA:", 0),
    ("10 IN.A", &[b"", b"1/0", b"@(28)", b"9"], Ok((0, 4)), b"A:\nWHAT?\nA:1/0\nHOW?\nA:@(28)\nSORRY\nA:9\n", 9),
    ("10 IN.\"N\"A,'!'", &[b"2+3 X"], Ok((0, 11)), b"N:2+3 X\n!", 5),
    ("10 IN.@(RND(2)) ,A", &[b")", b"5", b"@(2)"], Ok((0, 15)), b"@(RND(2)):)\nWHAT?\n@(RND(2)):5\nA:@(2)\n", 5),
    ("10 IN. @ ( 1 ) ,_", &[b"7"], Ok((0, 14)), b"@ ( 1 ):7\n\r", 0),
    ("10 IN.\"N\"@(0-1)", &[b"7"], fault!(How, 12), b"N", 0),
    ("10 IN.A,\"N", &[b"7"], fault!(What, 5), b"A:7\n", 7),
    ("10 IN.A B", &[b"7"], fault!(What, 5), b"A:7\n", 7),
    ("10 IN.A,", &[b"7"], fault!(What, 5), b"A:7\n", 7),
};

#[test]
fn items(rt: HostRuntime) {
    for &(text, input, want, shown, a) in ITEMS {
        let want = (want, shown, a, 0);
        expect_input(&rt, rt.alloc(), text, (input, &[1, 2], None), want);
    }
}

// An INPUT has this effect with this input, with these answers, and with a bound of an answer where no
// line is left.
fn expect_input(
    rt: &impl Abort,
    alloc: Global,
    text: &str,
    (input, answers, choose): (&[&[u8]], &[i16], Option<i16>),
    want: Effect<'_>,
) {
    let lines = lines_of(alloc, input).expect(rt, "memory");
    let offer = Offer {
        lines: &lines,
        answers,
        choose,
    };
    expect_command(rt, alloc, (text, 0), offer, want);
}

// Where no line is left: an answer is asked for with a bound of 2, if there is one.
const ANSWERED: &[(&str, &[i16], Doing, &[u8], i16)] = table! {
    ("10 IN.A", &[2], Ok((0, 4)), b"A:2\n", 2),
    ("10 IN.'N'A", &[1], Ok((0, 7)), b"N:1\n", 1),
    ("10 IN.A,A", &[1, 2], Ok((0, 6)), b"A:1\nA:2\n", 2),
    ("10 IN.A", &[], NO_ANSWER, b"A:", 0),
    ("10 IN.A", &[3], Err(CommandStop::Pause(Pause::OutOfRange(3))), b"A:", 0),
};

#[test]
fn answers_where_no_line_is_left(rt: HostRuntime) {
    for &(text, answers, want, shown, a) in ANSWERED {
        let want = (want, shown, a, 0);
        expect_input(&rt, rt.alloc(), text, (&[], answers, Some(2)), want);
    }
}
