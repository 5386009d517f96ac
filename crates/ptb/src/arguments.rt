// This file does what the arguments of the command line ask for, by `run_arguments`.

ghost use Rattle.std.specs.Prelude.{◌≡◌, ◌≤◌, IfErr, IfOk, IfSome, codes, map, is_some, option_copied, string_bytes};
ghost use Rattle.ptb.specs.Prelude.{error_kind, first_of, HasBound, HasMemorySize, RefusesOptions, entries_of};
ghost use Rattle.ptb.specs.Prelude.{options_of, AnswersOptions, AsksAt, ExitsBy, IsUnreadStatus, by_seed, draws_seed};
ghost use Rattle.ptb.specs.Prelude.{reads_of, writes_of};

use crate::console::Console;
use crate::refusals::{refuse, refuse_options, refuse_unread};
use crate::task::{Programs, Task, serve_task};
use clap::ArgMatches;
use ptb_options::{Mode, Request, UsageFault, decide, parse, wrong_number};
use ptb_serve::Watch;
use ptb_text::{Read, Write};
use std::convert::AsStr;
use std::io;
use std::rt::Runtime;
use std::time::{Duration, SystemTime, UNIX_EPOCH};

/// Does what the arguments ask for, and gives the status to exit with. The first argument is the
/// program's name. Where they make a request, its program is opened once. Where they make none, or
/// could not be read, no program is opened, and nothing is read or written.
pub fn run_arguments<
    R: Runtime + AllocGlobal,
    P: Read + Drop,
    O: Programs<P>,
    I: Read,
    W: Write + Watch,
>(
    console: &Console<'_, R>,
    arguments: io::Result<Vec<String>>,
    programs: &mut O,
    input: &mut I,
    out: &mut W,
) -> u8
    ensures read { IfOk arguments (λ w. ExitsBy
        (λ path opened. O.opens programs.old path opened programs.new)
        (reads_of P.remaining P.given P.failures)
        (reads_of I.remaining I.given I.failures input.old input.new)
        (writes_of W.contents W.failures out.old out.new) (programs.new ≡ programs.old)
        console.now.terminals (map string_bytes w.items) result) }
    ensures unread { IfErr arguments (λ error. IsUnreadStatus
        (reads_of I.remaining I.given I.failures input.old input.new)
        (writes_of W.contents W.failures out.old out.new) (programs.new ≡ programs.old)
        (error_kind error) result) }
{
    match arguments {
        Ok(arguments) => run_given(console, arguments.as_slice(), programs, input, out),
        Err(error) => refuse_unread(console, &error),
    }
}

// Does what these arguments ask for.
fn run_given<
    'a,
    R: Runtime + AllocGlobal,
    S: AsStr,
    P: Read + Drop,
    O: Programs<P>,
    I: Read,
    W: Write + Watch,
>(console: &Console<'_, R>, arguments: &'a [S], programs: &mut O, input: &mut I, out: &mut W) -> u8
    ensures { ExitsBy (λ path opened. O.opens programs.old path opened programs.new)
        (reads_of P.remaining P.given P.failures)
        (reads_of I.remaining I.given I.failures input.old input.new)
        (writes_of W.contents W.failures out.old out.new) (programs.new ≡ programs.old)
        console.now.terminals (map S.text arguments.entry.now) result }
{
    match parse(console.runtime().alloc(), arguments) {
        Ok(matches) => run_matches(console, &matches, programs, input, out),
        Err(error) => refuse(console, &error, wrong_number(arguments)),
    }
}

// Does what the options ask for. The task is lent to `serve_task`, which has more exits: each exit of a body is proved
// with all that the body owns.
fn run_matches<R: Runtime + AllocGlobal, P: Read + Drop, O: Programs<P>, I: Read, W: Write + Watch>(
    console: &Console<'_, R>,
    matches: &ArgMatches<'_>,
    programs: &mut O,
    input: &mut I,
    out: &mut W,
) -> u8
    requires memory { HasMemorySize (options_of (entries_of matches.now)) }
    requires bound { HasBound (options_of (entries_of matches.now)) }
    ensures { AnswersOptions (λ path opened. O.opens programs.old path opened programs.new)
        (reads_of P.remaining P.given P.failures)
        (reads_of I.remaining I.given I.failures input.old input.new)
        (writes_of W.contents W.failures out.old out.new) (programs.new ≡ programs.old)
        console.now.terminals (entries_of matches.now) result }
{
    match task(console, matches) {
        Ok(task) => serve_task(console, &task, programs, input, out),
        Err(fault) => refuse_options(console, fault, matches),
    }
}

// What the options ask to be served. At a terminal a run draws its seed where it is given neither
// answers nor a seed.
fn task<'a, R: Runtime + AllocGlobal>(
    console: &Console<'_, R>,
    matches: &ArgMatches<'a>,
) -> Result<Task<'a>, UsageFault>
    requires memory { HasMemorySize (options_of (entries_of matches.now)) }
    requires bound { HasBound (options_of (entries_of matches.now)) }
    ensures asks { IfOk result (λ t. AsksAt console.now.terminals
        (options_of (entries_of matches.now)) t.drawn t.request) }
    ensures path { IfOk result (λ t.
        option_copied t.path ≡ first_of (codes "program") (entries_of matches.now)) }
    ensures fault { IfErr result (RefusesOptions (options_of (entries_of matches.now))) }
{
    let request = decide(console.runtime().alloc(), matches)?;
    let drawn = draw_seed(console, matches, &request.mode);
    Ok(Task {
        request: by_seed(request, drawn),
        path: matches.get_str("program"),
        drawn,
    })
}

// The request with the seed that was drawn for it, where one was.
fn by_seed(mut request: Request, drawn: Option<u64>) -> Request
    ensures { result ≡ by_seed request drawn }
{
    if let Some(seed) = drawn {
        request.mode = Mode::Seeded(seed);
    }
    request
}

// The seed that a run draws from the clock: at a terminal, where it is given neither answers nor a
// seed.
fn draw_seed<R: Runtime>(
    console: &Console<'_, R>,
    matches: &ArgMatches<'_>,
    mode: &Mode,
) -> Option<u64>
    ensures draws { is_some result
        ≡ draws_seed console.now.terminals (options_of (entries_of matches.now)) mode.now }
    ensures small { IfSome result (λ seed. seed ≤ 999999) }
{
    let terminals = console.terminals;
    if !terminals.input || !terminals.output || matches.get_str("answers").is_some() {
        return None;
    }
    match mode {
        Mode::Plain(_) => Some(clock_seed(console.runtime())),
        _ => None,
    }
}

// A seed from 0 to 999999: the microseconds of the clock, or 0 where it can't be read.
fn clock_seed<R: Runtime>(rt: &R) -> u64
    ensures { result ≤ 999999 }
{
    let now = SystemTime::now(rt).unwrap_or(UNIX_EPOCH);
    let since = now.duration_since(UNIX_EPOCH).unwrap_or(Duration::ZERO);
    u64::from(since.subsec_micros())
}
