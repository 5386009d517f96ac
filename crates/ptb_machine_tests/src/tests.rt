// This file lists the tests, each file for one subject, and what they share.

mod allowances;
mod assignments;
mod commands;
mod input;
mod lines;
mod loops;
mod machines;
mod players;
mod program_codes;
mod reader_lines;
mod reports;
mod runs;
mod screens;
mod shared;
mod stack;
mod translations;
mod writes;
