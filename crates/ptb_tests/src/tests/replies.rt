// This file has requests with the replies that are due, and serves them over readers and writers that cut
// their bytes.

use crate::tests::devices::{Endless, Failing, Script, Sink, make_sink};
use crate::tests::shared::{DEFAULT_MEMORY, DEFAULT_STEPS, expect_same, rules};
use ptb_explore::Form;
use ptb_options::{Mode, Request};
use ptb_serve::{Note, Outcome, serve};
use ptb_text::{Device, Read};
use std::alloc::{AllocError, Global};
use std::process::Abort;

/// What a row requests.
#[derive(Clone, Copy)]
pub(crate) enum Kind<'a> {
    Run(&'a [i16]),
    Seed(u64),
    // The lists of at most so many answers that split all runs, in this form.
    Shares(u8, Form),
    // The runs of seed 7: so many, in this form.
    Sample(u32, Form),
    List,
    Check,
    Chances,
}

/// A request with its program and input, and what is due: the bytes, the status and the note.
#[derive(Clone, Copy)]
pub(crate) struct ServedRow<'a> {
    pub(crate) kind: Kind<'a>,
    pub(crate) steps: u32,
    pub(crate) choose: Option<i16>,
    pub(crate) memory: u16,
    pub(crate) program: &'a [u8],
    pub(crate) input: &'a [u8],
    pub(crate) bytes: &'a [u8],
    pub(crate) status: u8,
    pub(crate) note: Option<Note>,
}

/// A run of a request that gives neither steps nor memory nor a bound, without answers and input
/// lines.
pub(crate) const RUN: ServedRow<'static> = ServedRow {
    kind: Kind::Run(&[]),
    steps: DEFAULT_STEPS,
    choose: None,
    memory: DEFAULT_MEMORY,
    program: b"",
    input: b"",
    bytes: b"",
    status: 0,
    note: None,
};

// Such a run of a program with the bytes and the status that are due, except for the fields given
// after them. Rows of constants can't call functions.
macro_rules! row {
    ($program:expr, $bytes:expr, $status:expr $(, $field:ident = $value:expr)*) => {
        ServedRow {
            program: $program,
            bytes: $bytes,
            status: $status,
            $($field: $value,)*
            ..RUN
        }
    };
}

pub(crate) use row;

// A table of such rows.
macro_rules! rows {
    ($($fields:tt),* $(,)?) => {
        &[$(row! $fields),*]
    };
}

pub(crate) use rows;

/// What is done with a program by each kind of request that runs it once, samples its runs, adds their
/// chances up, or lists it or its mistakes.
pub(crate) const EACH_KIND: &[Kind<'static>] = &[
    Kind::Run(&[]),
    Kind::Seed(7),
    Kind::Shares(2, Form::Two),
    Kind::Sample(3, Form::Two),
    Kind::List,
    Kind::Check,
    Kind::Chances,
];

/// The result of a request and what was written: this status with this note, and these bytes.
pub(crate) fn expect_reply(
    rt: &impl Abort,
    reply: (Outcome, Vec<u8>),
    due: (u8, Option<Note>),
    bytes: &[u8],
) {
    let (outcome, written) = reply;
    let found = (outcome.status, outcome.note, written.as_slice());
    expect_same(rt, "a reply", found, (due.0, due.1, bytes));
}

/// The result of a request with a writer that takes some bytes a call, and what is written.
pub(crate) fn reply_to<P: Read, R: Read>(
    alloc: Global,
    request: &Request,
    program: &mut P,
    input: &mut R,
    piece: usize,
) -> (Outcome, Vec<u8>) {
    let mut sink = make_sink(alloc, piece, usize::MAX, Failing::Breaks);
    let mut out = Device::new(&mut sink);
    let outcome = serve(alloc, request, program, input, &mut out);
    (outcome, sink.taken)
}

/// The result of a request whose input is endless, what is written, and how much was read.
pub(crate) fn reply_on_endless_input(
    alloc: Global,
    request: &Request,
    program: &[u8],
    piece: usize,
) -> ((Outcome, Vec<u8>), usize) {
    let mut endless = Endless { given: 0 };
    let mut program = Device::new(program);
    let mut input = Device::new(&mut endless);
    let reply = reply_to(alloc, request, &mut program, &mut input, piece);
    (reply, endless.given)
}

/// The request of a row.
pub(crate) fn request_of(alloc: Global, row: &ServedRow<'_>) -> Result<Request, AllocError> {
    let mode = match row.kind {
        Kind::Run(answers) => Mode::Plain(Vec::from_slice(alloc, answers)?.into()),
        Kind::Seed(seed) => Mode::Seeded(seed),
        Kind::Shares(answers, form) => Mode::Shares { answers, form },
        Kind::Sample(runs, form) => Mode::Sample {
            seed: 7,
            runs,
            form,
        },
        Kind::List => Mode::List,
        Kind::Check => Mode::Check,
        Kind::Chances => Mode::Chances,
    };
    Ok(Request {
        rules: rules(row.steps, row.choose),
        memory: row.memory.clamp(64, 32767),
        mode,
    })
}

/// Serves a request for a program and its input with this writer.
pub(crate) fn outcome_of(
    alloc: Global,
    request: &Request,
    program: &[u8],
    input: &[u8],
    sink: &mut Sink,
) -> Outcome {
    let (mut program, mut input) = (Device::new(program), Device::new(input));
    serve(
        alloc,
        request,
        &mut program,
        &mut input,
        &mut Device::new(sink),
    )
}

/// Serves a row whose readers give some bytes a call, and whose writer takes as many.
pub(crate) fn served(
    alloc: Global,
    row: &ServedRow<'_>,
    piece: usize,
) -> Result<(Outcome, Vec<u8>), AllocError> {
    let request = request_of(alloc, row)?;
    let mut program = Device::new(Script {
        bytes: row.program,
        piece,
        fails: false,
    });
    let mut input = Device::new(Script {
        bytes: row.input,
        piece,
        fails: false,
    });
    Ok(reply_to(alloc, &request, &mut program, &mut input, piece))
}

/// A row is served as it is due, with bytes that are cut so.
pub(crate) fn expect_served_row(
    rt: &impl Abort,
    alloc: Global,
    row: &ServedRow<'_>,
    piece: usize,
) -> Result<(), AllocError> {
    let (outcome, written) = served(alloc, row, piece)?;
    let found = (outcome.status, outcome.note, written.as_slice());
    let due = (row.status, row.note, row.bytes);
    expect_same(
        rt,
        "a row",
        (row.program, piece, found),
        (row.program, piece, due),
    );
    Ok(())
}

/// Each row is served as it is due, however the bytes are cut.
pub(crate) fn expect_served_rows(
    rt: &impl Abort,
    alloc: Global,
    rows: &[ServedRow<'_>],
) -> Result<(), AllocError> {
    for row in rows {
        for piece in [1, 5, 100_000] {
            expect_served_row(rt, alloc, row, piece)?;
        }
    }
    Ok(())
}
