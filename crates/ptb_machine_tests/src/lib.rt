//! Tests of devices, commands and the machine, over their public names: reading within a limit, lines
//! and how they are read, screens, the stack of what is open, the code of commands, what each command
//! does, reports of faults, steps, and complete runs.
//!
//! It depends on `ptb_devices`, `ptb_command` and `ptb_machine`, and on `ptb_expr` and
//! `ptb_text`, whose stores, programs and cursors commands work on. No crate depends on it: a crate
//! with tests is proved once more together with them, so these are kept apart from what they test.
#![tactic(auto)]

#[cfg(test)]
mod tests;
