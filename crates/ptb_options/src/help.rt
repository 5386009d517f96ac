// This file has the texts of `--help`, and the version.

/// What the program is for: the first line.
pub const ABOUT: &str = "Runs a program in Palo Alto Tiny BASIC, version 1.";

/// The version of the program, as `--version` shows it after the name.
pub const VERSION: &str = "1.1.0";

/// The heading of the options of a run.
pub const RUN: &str = "Run";

/// The heading of the options for all runs.
pub const EXPLORE: &str = "Explore";

/// The heading of the options that run nothing.
pub const PRINT: &str = "Text";

/// The help of `--steps`.
pub const STEPS: &str = "\
Begin at most N commands
(1 to 1000000000; default 10000)";

/// The help of `--memory`.
pub const MEMORY: &str = "\
Bytes of memory for the program
(64 to 32767; default 4096)";

/// The help of `--choose`.
pub const CHOOSE: &str = "\
Where INPUT finds no line left, take a number
from 1 to N as RND(N) would (1 to 32767)";

/// The help of `--answers`.
pub const ANSWERS: &str = "The random numbers, in order (default none)";

/// The help of `--seed`.
pub const SEED: &str = "\
Draw the random numbers from seed N
(0 to 4294967295)";

/// The help of `--all`.
pub const ALL: &str = "Write a report of every run, in order";

/// The help of `--under`.
pub const UNDER: &str = "\
With --all, only the runs whose random numbers
begin with LIST";

/// The help of `--after`.
pub const ALL_AFTER: &str = "With --all, only the runs after this one";

/// The help of `--first`.
pub const FIRST: &str = "With --all, at most N reports (1 to 1000000000)";

/// The help of `--shares`.
pub const SHARES: &str = "\
With --all, split the runs: print lists of at
most N numbers, each for --under (1 to 64)";

/// The help of `--sample`.
pub const SAMPLE: &str = "\
With --seed, draw N runs, one after the other,
and write their reports (1 to 1000000000)";

/// The help of `--form`.
pub const FORM: &str = "\
In reports and lists, numbers alone (1), or
each with its bound (2, the default)";

/// The help of `--chances`.
pub const CHANCES: &str = "\
Print the exact chance of each result of a run:
how it ends, and the last line that it shows";

/// The help of `--list`.
pub const LIST: &str = "Print the program in the order of its line numbers; run nothing";

/// The help of `--check`.
pub const CHECK: &str = "Print each mistake in the program's text; run nothing";

/// The help of the argument that names the program's file.
pub const PROGRAM: &str = "\
The program's file; without it, standard input is the program and
INPUT finds no line";

/// What follows the options: how lists are written, where input comes from, the statuses, and
/// examples.
pub const AFTER: &str = "\
LIST is none, or numbers from 1 to 32767 with commas between them, as 2,1,6.
With --under and --after an item may have its bound, as 2/2,1/3.

INPUT reads lines from standard input. A run at a terminal without --answers
and --seed draws a seed and prints it; --seed replays the run.

Exit status:
   0  the program ended, or the reports, the lists, the chances, the listing,
      this help or the version was written, or --check found no mistake
   1  the program stopped with WHAT?, or --check found a mistake
   2  the program stopped with HOW?
   3  the program stopped with SORRY
   4  the run reached the limit of --steps
   5  INPUT found no line left
   6  a random number was wanted and none was left
   7  a number of --answers was greater than its question allows
  64  usage error
  65  a line of the program was refused, or the program is too long
  66  the program or the input could not be read, or the input is too long
  67  --after is not a run, or no run begins with --under
  71  out of memory
  74  the output could not be written

Examples:
  ptb game.bas
      play a game
  ptb game.bas < moves.txt
      run it on the lines of moves.txt
  ptb --answers 6,1,3 --steps 500 dice.bas
      run dice.bas with these random numbers and at most 500 commands
  ptb --seed 7 dice.bas
      run it with random numbers drawn from seed 7
  ptb --all --first 10 dice.bas < throws.txt
      write the reports of its first ten runs on the lines of throws.txt";
