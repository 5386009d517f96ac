// This file tests requests for all runs of a program.

use crate::tests::devices::{FAILINGS, Failing, Script, Sink, make_sink};
use crate::tests::replies::{expect_reply, outcome_of, reply_on_endless_input, reply_to};
use crate::tests::shared::{
    DEFAULT_MEMORY, DEFAULT_STEPS, ONE, TWO_OF_2, TWO_OF_3, expect_same, rules,
};
use ptb_explore::{Form, Marked};
use ptb_options::{MarkedAnswers, Mode, Request};
use ptb_serve::{Note, Outcome};
use ptb_text::Device;
use std::alloc::{AllocError, Global};
use std::process::Abort;
use std::test::Fail;

/// A program with its input and the most commands of a run, the bound for answers instead of lines,
/// the answers with which its listed runs begin, the run after which its listing begins, how many
/// reports it has at most, and their form.
#[derive(Clone, Copy)]
pub(crate) struct AllRuns<'a> {
    pub(crate) program: &'a [u8],
    pub(crate) input: &'a [u8],
    pub(crate) steps: u32,
    pub(crate) choose: Option<i16>,
    pub(crate) under: Option<&'a [Marked]>,
    pub(crate) after: Option<&'a [Marked]>,
    pub(crate) first: Option<u64>,
    pub(crate) form: Form,
}

/// All runs of a program without input, in form 1, by a request that gives neither steps nor a bound.
pub(crate) const ALL: AllRuns<'static> = AllRuns {
    program: b"",
    input: b"",
    steps: DEFAULT_STEPS,
    choose: None,
    under: None,
    after: None,
    first: None,
    form: Form::One,
};

// Such a request for a program, except for the fields given after it. Rows of constants can't call
// functions.
macro_rules! all_of {
    ($program:expr $(, $field:ident = $value:expr)*) => {
        AllRuns {
            program: $program,
            $($field: $value,)*
            ..ALL
        }
    };
}

pub(crate) use all_of;

// Requests with what they list, and the fields that are given after that.
macro_rules! listings {
    ($(($program:expr, $text:expr $(, $field:ident = $value:expr)*)),* $(,)?) => {
        &[$((all_of!($program $(, $field = $value)*), $text)),*]
    };
}

pub(crate) use listings;

/// A list as a request has it.
pub(crate) fn kept(
    alloc: Global,
    list: Option<&[Marked]>,
) -> Result<Option<MarkedAnswers>, AllocError> {
    match list {
        Some(list) => Ok(Some(Vec::from_slice(alloc, list)?.into())),
        None => Ok(None),
    }
}

// The request of a listing.
fn request_of(alloc: Global, asked: &AllRuns<'_>) -> Result<Request, AllocError> {
    let (under, after) = (kept(alloc, asked.under)?, kept(alloc, asked.after)?);
    Ok(Request {
        rules: rules(asked.steps, asked.choose),
        memory: DEFAULT_MEMORY,
        mode: Mode::All {
            under,
            after,
            first: asked.first,
            form: asked.form,
        },
    })
}

// Serves a listing with this writer.
fn listed_to(alloc: Global, asked: &AllRuns<'_>, sink: &mut Sink) -> Result<Outcome, AllocError> {
    let request = request_of(alloc, asked)?;
    Ok(outcome_of(alloc, &request, asked.program, asked.input, sink))
}

/// The result of a listing with a writer that takes some bytes a call.
pub(crate) fn listed(
    alloc: Global,
    asked: &AllRuns<'_>,
    piece: usize,
) -> Result<(Outcome, Vec<u8>), AllocError> {
    let mut sink = make_sink(alloc, piece, usize::MAX, Failing::Breaks);
    let outcome = listed_to(alloc, asked, &mut sink)?;
    Ok((outcome, sink.taken))
}

pub(crate) const ONE_ROLL: &[u8] = b"10 P.RND(2)";

pub(crate) const ONE_ROLL_TEXT: &[u8] = b"RUN 1 END 1 7\n     1\n\nRUN 2 END 1 7\n     2\n\n";

pub(crate) const TWO_ROLLS: &[u8] = b"10 PRINT RND(2)*RND(2)";

pub(crate) const TWO_ROLLS_TEXT: &[u8] = b"RUN 1,1 END 1 7\n     1\n\nRUN 1,2 END 1 7\n     2\n\n\
RUN 2,1 END 1 7\n     2\n\nRUN 2,2 END 1 7\n     4\n\n";

pub(crate) const ROLL_AFTER_IF: &[u8] = b"10 A=RND(2);IF A=2 B=RND(3);PRINT B";

pub(crate) const ROLL_AFTER_IF_TEXT: &[u8] = b"RUN 1 END 2 0\n\nRUN 2,1 END 4 7\n     1\n\n\
RUN 2,2 END 4 7\n     2\n\nRUN 2,3 END 4 7\n     3\n\n";

pub(crate) const FAULTY: &[u8] = b"10 A=RND(2)-1;B=RND(A)";

pub(crate) const FAULTY_TEXT: &[u8] =
    b"RUN 1 HOW 2 29\nHOW?\n10 A=RND(2)-1;B=RND(A)?\n\nRUN 2,1 END 2 0\n\n";

pub(crate) const ROLLED_INDEX: &[u8] = b"10 INPUT @(RND(2))";

pub(crate) const ROLLED_INDEX_TEXT: &[u8] = b"RUN 1,1 END 1 30\n@(RND(2)):)\nWHAT?\n@(RND(2)):5\n\n\
RUN 1,2 END 1 30\n@(RND(2)):)\nWHAT?\n@(RND(2)):5\n\n\
RUN 2,1 END 1 30\n@(RND(2)):)\nWHAT?\n@(RND(2)):5\n\n\
RUN 2,2 END 1 30\n@(RND(2)):)\nWHAT?\n@(RND(2)):5\n\n";

pub(crate) const LIMITED: &[u8] = b"10 A=RND(2);B=RND(2)";

pub(crate) const LIMITED_TEXT: &[u8] = b"RUN 1 LIMIT 1 0\n\nRUN 2 LIMIT 1 0\n\n";

/// Requests with what they list.
pub(crate) type ListedRows<'a> = &'a [(AllRuns<'a>, &'a [u8])];

// A listing is this text, with a writer that takes some bytes a call.
fn expect_listing(
    rt: &impl Abort,
    alloc: Global,
    asked: &AllRuns<'_>,
    piece: usize,
    text: &[u8],
) -> Result<(), AllocError> {
    let reply = listed(alloc, asked, piece)?;
    expect_reply(rt, reply, (0, None), text);
    Ok(())
}

/// Each request lists this, however its bytes are cut.
pub(crate) fn expect_listings(
    rt: &impl Abort,
    alloc: Global,
    listings: ListedRows<'_>,
) -> Result<(), AllocError> {
    for (asked, text) in listings {
        for piece in [1, 5, 100_000] {
            expect_listing(rt, alloc, asked, piece, text)?;
        }
    }
    Ok(())
}

const ALL_RUNS: ListedRows<'static> = listings! {
    (b"", b"RUN none END 0 0\n\n"),
    (ONE_ROLL, ONE_ROLL_TEXT),
    (TWO_ROLLS, TWO_ROLLS_TEXT),
    (ROLL_AFTER_IF, ROLL_AFTER_IF_TEXT),
    (FAULTY, FAULTY_TEXT),
    (b"10 GOTO 10", b"RUN none LIMIT 5 0\n\n", steps = 5),
    (b"10 INPUT A;PRINT A", b"RUN 1 END 2 16\nA:RND(2)\n     1\n\nRUN 2 END 2 16\nA:RND(2)\n     2\n\n",
     input = b"RND(2)\n"),
    (b"10 INPUT A", b"RUN none NOINPUT 1 2\nA:\n"),
    (b"10 GOSUB 10", b"RUN none SORRY 257 19\nSORRY\n10 GOSUB 10?\n\n"),
    (b"10 F.I=1TO1;GOS.10", b"RUN none SORRY 257 26\nSORRY\n10 F.I=1TO1?;GOS.10\n\n"),
    (ROLLED_INDEX, ROLLED_INDEX_TEXT, input = b")\n5\n"),
    (LIMITED, LIMITED_TEXT, steps = 1),
};

// Programs with what their listing of all runs is.
#[test]
fn all_runs(rt: HostRuntime) -> Result<(), Fail> {
    expect_listings(&rt, rt.alloc(), ALL_RUNS)?;
    Ok(())
}

const RUNS_WITHOUT_LINES: ListedRows<'static> = listings! {
    (b"10 INPUT A;PRINT A", b"RUN 1 END 2 11\nA:1\n     1\n\nRUN 2 END 2 11\nA:2\n     2\n\n", choose = Some(2)),
    (b"10 INPUT A;PRINT A", b"RUN 2 END 2 11\nA:2\n     2\n\n", choose = Some(2), after = Some(&[ONE])),
    (b"10 INPUT A;PRINT A", b"RUN 1 END 2 11\nA:1\n     1\n\n", choose = Some(2), first = Some(1)),
    (b"10 INPUT A;PRINT A", b"RUN 1 END 2 21\nA:)\nWHAT?\nA:1\n     1\n\nRUN 2 END 2 21\nA:)\nWHAT?\nA:2\n     2\n\n",
     choose = Some(2), input = b")\n"),
    (b"10 INPUT @(RND(2)-1)",
     b"RUN 1,1 END 1 14\n@(RND(2)-1):1\n\nRUN 1,2 END 1 14\n@(RND(2)-1):2\n\n\
RUN 2,1 END 1 14\n@(RND(2)-1):1\n\nRUN 2,2 END 1 14\n@(RND(2)-1):2\n\n", choose = Some(2)),
};

// Where no line is left each answer up to the bound gives a run.
#[test]
fn runs_without_lines(rt: HostRuntime) -> Result<(), Fail> {
    expect_listings(&rt, rt.alloc(), RUNS_WITHOUT_LINES)?;
    Ok(())
}

// The report of a run of 5000 answers, each of which is 1.
fn long_report(alloc: Global) -> Result<Vec<u8>, AllocError> {
    let mut text = Vec::from_slice(alloc, b"RUN 1")?;
    for _ in 1..5000 {
        text.extend_from_slice(b",1")?;
    }
    text.extend_from_slice(b" END 10001 0\n\n")?;
    Ok(text)
}

// A run with many answers, each of which is 1.
#[test]
fn most_answers(rt: HostRuntime) -> Result<(), Fail> {
    let asked = all_of!(b"10 F.I=1TO5000;A=RND(1);N.I", steps = 20_000);
    let text = long_report(rt.alloc())?;
    expect_listing(&rt, rt.alloc(), &asked, 100_000, &text)?;
    Ok(())
}

const ROLL_AFTER_IF_BOUNDS: &[u8] = b"RUN 1/2 END 2 0\n\nRUN 2/2,1/3 END 4 7\n     1\n\n\
RUN 2/2,2/3 END 4 7\n     2\n\nRUN 2/2,3/3 END 4 7\n     3\n\n";

const SECOND_WITH_A_BOUND: &[Marked] = &[TWO_OF_2, ONE];

const THIRD_WITH_BOUNDS: &[Marked] = &[TWO_OF_2, TWO_OF_3];

const RUNS_WITH_BOUNDS: ListedRows<'static> = listings! {
    (ROLL_AFTER_IF, ROLL_AFTER_IF_BOUNDS, form = Form::Two),
    (ROLL_AFTER_IF, b"RUN 2/2,2/3 END 4 7\n     2\n\nRUN 2/2,3/3 END 4 7\n     3\n\n",
     form = Form::Two, after = Some(SECOND_WITH_A_BOUND)),
    (ROLL_AFTER_IF, b"RUN 1/2 END 2 0\n\n", form = Form::Two, first = Some(1)),
    (ROLL_AFTER_IF, b"RUN 2,3 END 4 7\n     3\n\n", after = Some(THIRD_WITH_BOUNDS)),
    (b"", b"RUN none END 0 0\n\n", form = Form::Two),
};

// In form 2 each answer is followed by its bound. The run to continue after may be named with
// bounds in either form.
#[test]
fn runs_with_bounds(rt: HostRuntime) -> Result<(), Fail> {
    expect_listings(&rt, rt.alloc(), RUNS_WITH_BOUNDS)?;
    Ok(())
}

// The listing of two rolls to a writer that takes five bytes a call, and fails after so many calls,
// is the prefix of this length.
fn expect_broken_off(
    rt: &impl Abort,
    alloc: Global,
    failing: Failing,
    calls: usize,
    length: usize,
) -> Result<(), AllocError> {
    let mut sink = make_sink(alloc, 5, calls, failing);
    let outcome = listed_to(alloc, &all_of!(TWO_ROLLS), &mut sink)?;
    let due = if calls < 20 {
        (74, Some(Note::Unwritten))
    } else {
        (0, None)
    };
    let bytes = &TWO_ROLLS_TEXT[..length.min(TWO_ROLLS_TEXT.len())];
    expect_reply(rt, (outcome, sink.taken), due, bytes);
    Ok(())
}

// What was written of a listing is its beginning, whichever call fails. A report of 24 bytes takes
// five calls.
#[test]
fn listings_that_break_off(rt: HostRuntime) -> Result<(), Fail> {
    for &failing in FAILINGS {
        for calls in 0..=20 {
            let length = 24 * (calls / 5) + 5 * (calls % 5);
            expect_broken_off(&rt, rt.alloc(), failing, calls, length)?;
        }
    }
    Ok(())
}

// The listing of a program whose input fails after these bytes.
fn reply_on_unread_input(
    alloc: Global,
    program: &[u8],
    bytes: &[u8],
) -> Result<(Outcome, Vec<u8>), AllocError> {
    let request = request_of(alloc, &all_of!(program))?;
    let mut text = Device::new(program);
    let mut input = Device::new(Script {
        bytes,
        piece: 1,
        fails: true,
    });
    Ok(reply_to(alloc, &request, &mut text, &mut input, 1))
}

const UNREAD_INPUTS: &[(&[u8], &[u8])] = &[
    (ONE_ROLL, b""),
    (ONE_ROLL, b"5"),
    (ONE_ROLL, b"5\n"),
    (b"10 INPUT A", b""),
    (b"10 INPUT A", b"5"),
    (b"10 INPUT A", b"5\n"),
];

// The input is read before anything is written, whether or not the program asks for it.
#[test]
fn unread_inputs(rt: HostRuntime) -> Result<(), Fail> {
    for &(program, bytes) in UNREAD_INPUTS {
        let reply = reply_on_unread_input(rt.alloc(), program, bytes)?;
        expect_reply(&rt, reply, (66, Some(Note::InputUnread)), b"");
    }
    Ok(())
}

#[test]
fn endless_inputs(rt: HostRuntime) -> Result<(), Fail> {
    let request = request_of(rt.alloc(), &all_of!(b"10 INPUT A"))?;
    let (reply, given) = reply_on_endless_input(rt.alloc(), &request, b"10 INPUT A", 1);
    expect_reply(&rt, reply, (66, Some(Note::InputUnread)), b"");
    expect_same(&rt, "a limit", given <= 16_777_217, true);
    Ok(())
}
