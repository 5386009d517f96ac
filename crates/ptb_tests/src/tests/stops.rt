// This file tests at which line a limit stops a run, alone and as a request.

use crate::tests::shared::{DEFAULT_MEMORY, expect_same, loaded, plain_rules};
use ptb_machine::{Ending, RunEnd, RunFault, run_plain_to_end, run_seeded_to_end};
use ptb_options::{Mode, Request};
use ptb_serve::{Outcome, serve};
use ptb_text::{Device, Program};
use std::alloc::Global;
use std::process::Abort;
use std::test::Fail;

// The fourth command of a run is at line 20, the fifth and the sixth are at line 30.
const STEPS: &str = "10 P.#1,RND(2);P.#1,RND(2);A=1\n20 P.3\n30 A=2;A=3\n";

// A limit, the ending, the line at which it stops the run, and the status.
const ROWS: &[(u32, Ending, Option<u16>, u8)] = &[
    (0, Ending::Limit, Some(10), 4),
    (1, Ending::Limit, Some(10), 4),
    (3, Ending::Limit, Some(20), 4),
    (4, Ending::Limit, Some(30), 4),
    (5, Ending::Limit, Some(30), 4),
    (6, Ending::End, None, 0),
];

// How a run with the answers 2 and 1 ends, and where.
fn end_by_list(alloc: Global, program: &Program, limit: u32) -> Result<RunEnd, RunFault> {
    let mut input = Device::new(&b""[..]);
    let mut shown = Vec::new(alloc);
    let mut out = Device::new(&mut shown);
    let rules = plain_rules(limit);
    run_plain_to_end(alloc, program, &[2, 1], rules, &mut input, &mut out)
}

// The same by a seed.
fn end_by_seed(alloc: Global, program: &Program, limit: u32) -> Result<RunEnd, RunFault> {
    let mut input = Device::new(&b""[..]);
    let mut shown = Vec::new(alloc);
    let mut out = Device::new(&mut shown);
    let rules = plain_rules(limit);
    run_seeded_to_end(alloc, program, 7, rules, &mut input, &mut out)
}

#[test]
fn ends(rt: HostRuntime) -> Result<(), Fail> {
    let (program, _) = loaded(rt.alloc(), STEPS, "")?;
    for &(limit, ending, line, _) in ROWS {
        let due = Ok(RunEnd { ending, line });
        expect_same(&rt, "a list", end_by_list(rt.alloc(), &program, limit), due);
        expect_same(&rt, "a seed", end_by_seed(rt.alloc(), &program, limit), due);
    }
    Ok(())
}

// What comes of a request for this program.
fn served(alloc: Global, mode: Mode, limit: u32) -> Outcome {
    let request = Request {
        rules: plain_rules(limit),
        memory: DEFAULT_MEMORY,
        mode,
    };
    let (mut program, mut input) = (Device::new(STEPS.as_bytes()), Device::new(&b""[..]));
    let mut shown = Vec::new(alloc);
    let mut out = Device::new(&mut shown);
    serve(alloc, &request, &mut program, &mut input, &mut out)
}

// A request ends so, and its limit stops the run at this line.
fn expect_stop(rt: &impl Abort, name: &str, outcome: Outcome, line: Option<u16>, status: u8) {
    let due = Outcome {
        status,
        note: None,
        mismatch: None,
        line,
    };
    expect_same(rt, name, outcome, due);
}

#[test]
fn requests(rt: HostRuntime) -> Result<(), Fail> {
    for &(limit, _, line, status) in ROWS {
        let outcome = served(rt.alloc(), Mode::Seeded(7), limit);
        expect_stop(&rt, "a run", outcome, line, status);
    }
    let listing = served(rt.alloc(), Mode::List, 0);
    expect_stop(&rt, "a listing", listing, None, 0);
    let shares = Mode::Shares {
        answers: 1,
        form: ptb_explore::Form::Two,
    };
    expect_stop(&rt, "shares", served(rt.alloc(), shares, 1), None, 0);
    Ok(())
}
