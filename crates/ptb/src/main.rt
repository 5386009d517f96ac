//! The program `ptb`: it serves the request that its arguments make, and exits with a status.
//!
//! It depends on `ptb_serve`, `ptb_explore`, `ptb_machine`, `ptb_options`, `ptb_text` and `clap`. No
//! crate depends on it.
//!
//! Its contract is that of `run_arguments`, over any arguments, or the error of reading them, and over
//! any programs, input and writer. If the arguments make a request, the bytes that are read and
//! written and the status are those of the reply to it. Otherwise the status says which fault the
//! arguments have, and nothing is read from that input or written to that writer.
//!
//! What `main`, `console.rt` and `progress.rt` do is tested, not proved: which file and which streams
//! are opened, that lines for standard error are printed, that output is flushed, what is left out at
//! a terminal, and what a terminal shows while a table is counted.
#![tactic(auto)]

mod arguments;
mod console;
mod endings;
mod no_lines;
mod progress;
mod readers;
mod reasons;
mod refusals;
mod task;
mod terminal;

use crate::arguments::run_arguments;
use crate::console::{Console, Events};
use crate::terminal::Terminals;
use std::io::IsTerminal;
use std::process::ExitCode;
use std::rt::Runtime;
use std::{env, io};

fn main(rt: HostRuntime) -> ExitCode {
    let terminals = Terminals {
        input: rt.stdin().is_terminal(),
        output: rt.stdout().is_terminal(),
        errors: rt.stderr().is_terminal(),
    };
    let events = Events::new();
    let console = Console::new(&rt, terminals, &events);
    ExitCode::from(run_arguments(
        &console,
        given_arguments(&rt),
        &mut console.programs(),
        &mut console.input(),
        &mut console.output(),
    ))
}

// The arguments of the command line, of which the first is the program's name.
fn given_arguments<R: Runtime + AllocGlobal>(rt: &R) -> io::Result<Vec<String>> {
    Ok(env::args(rt)?.collect(rt.alloc())?)
}
