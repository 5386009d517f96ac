// This file lists the tests: what they try of the explorer and what is written of it, of the command line,
// of runs, and of requests as `serve` answers them.

mod beginnings;
mod broken_writers;
mod chances;
mod command_line;
mod copies;
mod devices;
mod explorers;
mod flushing_writer;
mod listing;
mod mismatches;
mod notes;
mod plain_runs;
mod refused_lists;
mod refused_programs;
mod replies;
mod reports;
mod samples;
mod served_inputs;
mod served_listings;
mod served_portions;
mod served_runs;
mod served_texts;
mod served_trees;
mod shared;
mod stops;
mod written_rows;
