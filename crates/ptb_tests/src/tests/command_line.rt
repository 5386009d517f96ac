// This file tests the command line, from its arguments to the request or the line that refuses them.

use crate::tests::shared::{
    GREATEST, NINE_OF_7, ONE, ONE_OF_2, ONE_OF_3, Row, TWO, TWO_OF_2, expect_rows, expect_same,
    table,
};
use clap::error::ErrorKind;
use ptb_explore::{Form, Marked};
use ptb_options::{
    ItemMistake, ListMistake, ListOption, MarkedAnswers, MisspelledList, Mode, PlainAnswers,
    Request, UsageFault, decide, misspelled_list, parse, refusal_status, wrong_number,
};
use std::alloc::{AllocError, Global};
use std::process::Abort;

// What is said against arguments: by clap, or by the tool where clap takes them.
#[derive(Clone, Copy, Debug, PartialEq, Eq)]
enum Fault {
    ByClap(ErrorKind),
    ByTool(UsageFault),
}

// The request of these arguments; the first of them is the program's name.
fn decided(alloc: Global, arguments: &[&str]) -> Result<Request, Fault> {
    match parse(alloc, arguments) {
        Ok(matches) => decide(alloc, &matches).map_err(Fault::ByTool),
        Err(error) => Err(Fault::ByClap(error.kind())),
    }
}

// What is said against arguments.
fn refusal(alloc: Global, arguments: &[&str]) -> Option<Fault> {
    decided(alloc, arguments).err()
}

// The arguments of a line, with one blank between two of them.
fn arguments_of(alloc: Global, line: &str) -> Result<Vec<&str>, AllocError> {
    let mut arguments = Vec::new(alloc);
    for argument in line.split(' ') {
        arguments.push(argument)?;
    }
    Ok(arguments)
}

// The error for the arguments of a line.
fn line_refusal(alloc: Global, line: &str) -> Option<Fault> {
    match arguments_of(alloc, line) {
        Ok(arguments) => refusal(alloc, &arguments),
        Err(AllocError) => Some(Fault::ByTool(UsageFault::Memory)),
    }
}

// The request that the arguments of a line make, if they make one.
fn requested(alloc: Global, line: &str) -> Option<Request> {
    decided(alloc, &arguments_of(alloc, line).ok()?).ok()
}

// Whether a fault has this status, and one of the tool this line.
fn is_said(alloc: Global, fault: Fault, status: u8, line: &str) -> bool {
    match fault {
        Fault::ByClap(kind) => refusal_status(kind) == status,
        Fault::ByTool(fault) => match fault.to_string(alloc) {
            Ok(text) => text.as_str() == line && fault.status() == status,
            Err(_) => false,
        },
    }
}

// Faults, the status of each, its line if it is one of the tool, and command lines that are refused by
// it.
const REFUSALS: &[(Fault, u8, &str, &[&str])] = &[
    (
        Fault::ByTool(UsageFault::ListWithOther),
        64,
        "ptb: --list stands alone",
        &[
            "ptb --list --choose 2",
            "ptb --list --after 1",
            "ptb --list --all",
            "ptb --answers none --list",
            "ptb --list --first 1",
            "ptb --under 1 --list",
            "ptb --list --seed 1",
            "ptb --list --form 1",
            "ptb --list --shares 2",
            "ptb --sample 3 --list",
            "ptb --list --check",
            "ptb --check --all --list",
            "ptb --list --chances",
            "ptb --chances --check --list",
        ],
    ),
    (
        Fault::ByTool(UsageFault::CheckWithOther),
        64,
        "ptb: --check stands alone",
        &[
            "ptb --check --all",
            "ptb --answers none --check",
            "ptb --check --after 1",
            "ptb --check --first 1",
            "ptb --choose 2 --check",
            "ptb --check --seed 1",
            "ptb --check --form 1",
            "ptb --check --under 1",
            "ptb --check --shares 2",
            "ptb --sample 3 --check",
            "ptb --check --answers x",
            "ptb --check --chances",
            "ptb --chances --all --check",
        ],
    ),
    (
        Fault::ByTool(UsageFault::ChancesWithOther),
        64,
        "ptb: --chances stands alone",
        &[
            "ptb --chances --all",
            "ptb --answers none --chances",
            "ptb --chances --after 1",
            "ptb --chances --first 1",
            "ptb --chances --seed 1",
            "ptb --chances --form 1",
            "ptb --chances --under 1",
            "ptb --chances --shares 2",
            "ptb --sample 3 --chances",
            "ptb --chances --choose 2 --seed 1",
            "ptb --chances --answers x",
        ],
    ),
    (
        Fault::ByTool(UsageFault::UnderWithoutAll),
        64,
        "ptb: --under needs --all",
        &[
            "ptb --under 0",
            "ptb --under 1 --answers x",
            "ptb --under 1 --shares 2",
            "ptb --seed 1 --sample 3 --under 1",
        ],
    ),
    (
        Fault::ByTool(UsageFault::SharesWithoutAll),
        64,
        "ptb: --shares needs --all",
        &[
            "ptb --shares 2",
            "ptb --shares 2 --sample 3",
            "ptb --shares 2 --seed 1 --answers x",
        ],
    ),
    (
        Fault::ByTool(UsageFault::SharesWithOther),
        64,
        "ptb: --shares excludes --after, --first and --under",
        &[
            "ptb --all --shares 2 --after 1",
            "ptb --all --shares 2 --first 1",
            "ptb --all --shares 2 --under x",
            "ptb --all --shares 2 --under 1 --answers x",
            "ptb --all --shares 2 --first 1 --sample 3",
        ],
    ),
    (
        Fault::ByTool(UsageFault::SampleWithoutSeed),
        64,
        "ptb: --sample needs --seed",
        &[
            "ptb --sample 3",
            "ptb --sample 3 --answers x",
            "ptb --all --sample 3 --answers x",
            "ptb --all --shares 2 --sample 3",
        ],
    ),
    (
        Fault::ByTool(UsageFault::FormWithoutAll),
        64,
        "ptb: --form needs --all",
        &[
            "ptb --under 1 --form 1",
            "ptb --form 1",
            "ptb --form 2 --answers x",
            "ptb --form 2 --seed 1 --answers 1",
            "ptb --form 2 --shares 2",
        ],
    ),
    (
        Fault::ByTool(UsageFault::AfterWithoutAll),
        64,
        "ptb: --after needs --all",
        &[
            "ptb --after 0",
            "ptb --after 0 --first 1",
            "ptb --seed 1 --after 0",
        ],
    ),
    (
        Fault::ByTool(UsageFault::FirstWithoutAll),
        64,
        "ptb: --first needs --all",
        &[
            "ptb --first 1",
            "ptb --first 1 --answers x",
            "ptb --form 1 --first 1",
        ],
    ),
    (
        Fault::ByTool(UsageFault::AnswersWithAll),
        64,
        "ptb: --answers excludes --all",
        &[
            "ptb --all --answers none",
            "ptb --all --answers x",
            "ptb --seed 1 --all --answers x",
            "ptb --all --shares 2 --answers none",
        ],
    ),
    (
        Fault::ByTool(UsageFault::SeedWithAll),
        64,
        "ptb: --seed excludes --all",
        &[
            "ptb --seed 1 --all",
            "ptb --all --seed 1 --after x",
            "ptb --all --shares 2 --seed 1",
            "ptb --all --seed 1 --sample 3",
        ],
    ),
    (
        Fault::ByTool(UsageFault::SeedWithAnswers),
        64,
        "ptb: --seed excludes --answers",
        &[
            "ptb --seed 1 --answers none",
            "ptb --answers x --seed 1",
            "ptb --answers x --seed 1 --sample 3",
        ],
    ),
    (
        Fault::ByTool(UsageFault::BadList),
        64,
        "ptb: bad list",
        &[
            "ptb --all --after 2,1/",
            "ptb --answers=1/1",
            "ptb --answers=2,1/3",
            "ptb --answers=2/2,1/3",
            // an empty argument
            "ptb --answers ",
        ],
    ),
    (
        Fault::ByTool(UsageFault::Memory),
        71,
        "ptb: out of memory",
        &[],
    ),
    (
        Fault::ByClap(ErrorKind::ValueValidation),
        64,
        "",
        &[
            "ptb --steps 0",
            "ptb --steps 1000000001",
            "ptb --steps 1,000",
            "ptb --memory 63",
            "ptb --memory 32768",
            "ptb --choose 0",
            "ptb --choose 32768",
            "ptb --choose none",
            "ptb --first 0 --all",
            "ptb --first 1000000001 --all",
            "ptb --seed 4294967296",
            "ptb --seed=-1",
            "ptb --seed x",
            "ptb --form 0 --all",
            "ptb --form 3 --all",
            "ptb --form two --all",
            "ptb --shares 0 --all",
            "ptb --shares 65 --all",
            "ptb --sample 0 --seed 1",
            "ptb --sample 1000000001 --seed 1",
            "ptb --first 0 --version",
        ],
    ),
    (
        Fault::ByClap(ErrorKind::InvalidValue),
        64,
        "",
        &["ptb --steps", "ptb --seed"],
    ),
    (
        Fault::ByClap(ErrorKind::UnknownArgument),
        64,
        "",
        &["ptb --stops 1", "ptb one.bas two.bas"],
    ),
    (
        Fault::ByClap(ErrorKind::ArgumentConflict),
        64,
        "",
        &["ptb --all --all"],
    ),
    (
        Fault::ByClap(ErrorKind::DisplayHelp),
        0,
        "",
        &["ptb --help", "ptb -h", "ptb --help --version"],
    ),
    (
        Fault::ByClap(ErrorKind::DisplayVersion),
        0,
        "",
        &[
            "ptb --version",
            "ptb -V",
            "ptb --version --help",
            "ptb --version --first 0",
            "ptb --version --version",
        ],
    ),
    (
        Fault::ByClap(ErrorKind::TooManyValues),
        64,
        "",
        &["ptb --version=1"],
    ),
    (Fault::ByClap(ErrorKind::OutOfMemory), 71, "", &[]),
];

// Each of these command lines is refused so.
fn expect_refused(rt: &impl Abort, alloc: Global, lines: &[&str], fault: Fault) {
    for line in lines {
        expect_same(rt, line, line_refusal(alloc, line), Some(fault));
    }
}

#[test]
fn refused_command_lines(rt: HostRuntime) {
    for &(fault, status, line, lines) in REFUSALS {
        let said = is_said(rt.alloc(), fault, status, line);
        expect_same(&rt, line, (fault, said), (fault, true));
        expect_refused(&rt, rt.alloc(), lines, fault);
    }
}

// A text that is no list of answers, with bounds or without.
struct NoList(&'static str);

const NO_LISTS: &[NoList] = table! { NoList:
    (""),
    ("01"),
    ("1,,2"),
    ("0"),
    ("32768"),
    ("1, 2"),
    ("None"),
    (","),
    ("1,"),
    (",1"),
    ("+1"),
    ("-1"),
    ("1,x"),
    ("none,1"),
    ("1,none"),
    (" 1"),
    ("1 "),
    ("99999999999999999999"),
    ("NONE"),
    ("1;2"),
    ("0x1"),
    ("1/"),
    ("/2"),
    ("1/0"),
    ("1/02"),
    ("1/32768"),
    ("0/2"),
    ("1/2/3"),
    ("1/ 2"),
    ("2/2,1/"),
    ("none/1"),
};

// What is said against a list that is none.
const BAD_LIST: Option<Fault> = Some(Fault::ByTool(UsageFault::BadList));

// Whether --answers, and --all --after, with this text are refused.
fn are_options_refused(alloc: Global, text: &str) -> Result<bool, AllocError> {
    let answers = format!(in alloc; "--answers={text}")?;
    let after = format!(in alloc; "--after={text}")?;
    Ok(
        refusal(alloc, &["ptb", answers.as_str()]) == BAD_LIST
            && refusal(alloc, &["ptb", "--all", after.as_str()]) == BAD_LIST,
    )
}

impl Row<Global> for NoList {
    fn holds(&self, alloc: &Global) -> bool {
        are_options_refused(*alloc, self.0) == Ok(true)
    }
}

const NO_NUMBER: ItemMistake = ItemMistake::NotANumber;

// The arguments that give an option this list.
fn arguments_with(option: ListOption, list: &str) -> [&str; 4] {
    match option {
        ListOption::Under => ["ptb", "--all", "--under", list],
        ListOption::After => ["ptb", "--all", "--after", list],
        ListOption::Answers => ["ptb", "game.bas", "--answers", list],
    }
}

// A text that spells no list, the option that it is given to, and its first faulty item: its place, its
// text, what is wrong.
struct Misspelled(&'static str, ListOption, usize, &'static str, ItemMistake);

impl Row<Global> for Misspelled {
    fn holds(&self, alloc: &Global) -> bool {
        let Misspelled(list, option, item, text, mistake) = *self;
        let mistake = ListMistake {
            item,
            text,
            mistake,
        };
        let arguments = arguments_with(option, list);
        match parse(*alloc, arguments.as_slice()) {
            Ok(matches) => misspelled_list(&matches) == Some(MisspelledList { option, mistake }),
            Err(_) => false,
        }
    }
}

const MISTAKES: &[Misspelled] = table! { Misspelled:
    ("", ListOption::After, 1, "", NO_NUMBER),
    ("2, 2", ListOption::After, 2, " 2", NO_NUMBER),
    ("1,2,03,x", ListOption::After, 3, "03", NO_NUMBER),
    ("32768,0", ListOption::After, 1, "32768", NO_NUMBER),
    ("2/2,1/", ListOption::Under, 2, "1/", NO_NUMBER),
    ("1/32768", ListOption::After, 1, "1/32768", NO_NUMBER),
    ("none,1", ListOption::After, 1, "none", NO_NUMBER),
    ("1,,2", ListOption::Under, 2, "", NO_NUMBER),
    ("1,", ListOption::Answers, 2, "", NO_NUMBER),
    ("x,1/3", ListOption::Answers, 1, "x", NO_NUMBER),
    ("1/0", ListOption::Answers, 1, "1/0", NO_NUMBER),
    ("1/3", ListOption::Answers, 1, "1/3", ItemMistake::HasBound),
    ("2,1/3,x", ListOption::Answers, 2, "1/3", ItemMistake::HasBound),
};

// Arguments, and the line that says which list is misspelled, if one is.
struct Said(&'static [&'static str], Option<&'static str>);

const SAID: &[Said] = table! { Said:
    (&["ptb", "--all", "--after", "2, 2"], Some("--after: item 2 (\" 2\") is not a number from 1 to 32767")),
    (&["ptb", "--answers", "1/3"], Some("--answers: item 1 (\"1/3\") has a bound; --answers takes numbers alone")),
    (&["ptb", "--answers", ""], Some("--answers: item 1 (\"\") is not a number from 1 to 32767")),
    (&["ptb", "--all", "--after", "x", "--under", "1,,2"],
     Some("--under: item 2 (\"\") is not a number from 1 to 32767")),
    (&["ptb", "--all", "--under", "1/2", "--after", "1/2,01\n"],
     Some("--after: item 2 (\"01\\n\") is not a number from 1 to 32767")),
    (&["ptb", "--all", "--after=1/2", "--under=none"], None),
    (&["ptb", "game.bas", "--answers", "2,1"], None),
    (&["ptb", "--seed", "1", "game.bas"], None),
};

// Whether this line says which list of the arguments is misspelled; none where each is spelled.
fn says_misspelled(alloc: Global, arguments: &[&str], line: &str) -> Option<bool> {
    let matches = parse(alloc, arguments).ok()?;
    let said = misspelled_list(&matches)?.to_string(alloc).ok()?;
    Some(said.as_str() == line)
}

impl Row<Global> for Said {
    fn holds(&self, alloc: &Global) -> bool {
        match self.1 {
            Some(line) => {
                refusal(*alloc, self.0) == BAD_LIST
                    && says_misspelled(*alloc, self.0, line) == Some(true)
            }
            None => says_misspelled(*alloc, self.0, "").is_none(),
        }
    }
}

// A list of answers, without bounds or with.
enum List {
    Answers(&'static [i16]),
    Marked(&'static [Marked]),
}

// A text, and the list that it spells.
struct Spelled(&'static str, List);

// Whether these arguments ask for this, and no list of theirs is misspelled.
fn is_given(alloc: Global, arguments: &[&str], asked: &Asked) -> bool {
    match decided(alloc, arguments) {
        Ok(request) => {
            is_asked(&request.mode, asked) && says_misspelled(alloc, arguments, "").is_none()
        }
        Err(_) => false,
    }
}

impl Row<Global> for Spelled {
    fn holds(&self, alloc: &Global) -> bool {
        match self.1 {
            List::Answers(wanted) => {
                let arguments = arguments_with(ListOption::Answers, self.0);
                is_given(*alloc, &arguments, &Asked::Run(wanted))
            }
            List::Marked(wanted) => {
                let (under, after) = (
                    arguments_with(ListOption::Under, self.0),
                    arguments_with(ListOption::After, self.0),
                );
                let list = Some(wanted);
                is_given(*alloc, &under, &Asked::All(list, None, None, Form::Two))
                    && is_given(*alloc, &after, &Asked::All(None, list, None, Form::Two))
            }
        }
    }
}

const LISTS: &[Spelled] = table! { Spelled:
    ("none", List::Answers(&[])),
    ("1", List::Answers(&[1])),
    ("32767", List::Answers(&[32767])),
    ("2,1,30000,10", List::Answers(&[2, 1, 30000, 10])),
    ("none", List::Marked(&[])),
    ("1", List::Marked(&[ONE])),
    ("2/2,1", List::Marked(&[TWO_OF_2, ONE])),
    ("2,1/3", List::Marked(&[TWO, ONE_OF_3])),
    ("9/7,32767/32767", List::Marked(&[NINE_OF_7, GREATEST])),
};

// Whether lists are made of answers, also of ones that no text spells.
fn are_made(alloc: Global) -> Result<bool, AllocError> {
    let marked = [Marked {
        answer: 7,
        bound: Some(-7),
    }];
    let answers = PlainAnswers::from(Vec::from_slice(alloc, &[7, -7])?);
    let list = MarkedAnswers::from(Vec::from_slice(alloc, &marked)?);
    Ok(answers.as_slice() == [7, -7].as_slice() && list.as_slice() == marked.as_slice())
}

#[test]
fn lists_of_answers(rt: HostRuntime) {
    let made = are_made(rt.alloc());
    expect_same(&rt, "made answers", made, Ok(true));
    expect_rows(&rt, "no lists", &rt.alloc(), NO_LISTS);
    expect_rows(&rt, "first faulty items", &rt.alloc(), MISTAKES);
    expect_rows(&rt, "misspelled lists", &rt.alloc(), SAID);
    expect_rows(&rt, "lists", &rt.alloc(), LISTS);
}

// What is asked for.
#[derive(Clone, Copy)]
enum Asked {
    Run(&'static [i16]),
    Seed(u64),
    // The answers with which the listed runs begin, the run after which the listing begins, how many
    // reports it has at most, and their form.
    All(Option<&'static [Marked]>, Option<&'static [Marked]>, Option<u64>, Form),
    Shares(u8, Form),
    Sample(u64, u32, Form),
    List,
    Check,
    Chances,
}

// A command line, and what it asks for.
struct Line {
    line: &'static str,
    asked: Asked,
    limit: u32,
    memory: u16,
    choose: Option<i16>,
}

// A run with the values that options have where they are not given.
const RUN: Line = Line {
    line: "ptb",
    asked: Asked::Run(&[]),
    limit: 10_000,
    memory: 4096,
    choose: None,
};

// Command lines and what they ask for, with these values unless the row says otherwise. Rows of
// constants can't call functions.
macro_rules! lines {
    ($(($line:expr, $asked:expr $(, $field:ident = $value:expr)*)),* $(,)?) => {
        &[$(
            Line {
                line: $line,
                asked: $asked,
                $($field: $value,)*
                ..RUN
            }
        ),*]
    };
}

// Whether a list is there with these items, or is missing as it should.
fn is_list(found: &Option<MarkedAnswers>, wanted: Option<&[Marked]>) -> bool {
    match found {
        Some(found) => Some(found.as_slice()) == wanted,
        None => wanted.is_none(),
    }
}

// Whether a listing of all runs is this one.
fn is_listing(mode: &Mode, asked: &Asked) -> bool {
    match (mode, asked) {
        (
            Mode::All {
                under,
                after,
                first,
                form,
            },
            Asked::All(share, run, most, due),
        ) => is_list(under, *share) && is_list(after, *run) && first == most && form == due,
        _ => false,
    }
}

// Whether this is asked for.
fn is_asked(mode: &Mode, asked: &Asked) -> bool {
    match (mode, asked) {
        (Mode::Plain(found), Asked::Run(answers)) => found.as_slice() == *answers,
        (Mode::Seeded(found), Asked::Seed(seed)) => found == seed,
        (Mode::Shares { answers, form }, Asked::Shares(most, due)) => {
            answers == most && form == due
        }
        (Mode::Sample { seed, runs, form }, Asked::Sample(drawn, count, due)) => {
            seed == drawn && runs == count && form == due
        }
        (Mode::List, Asked::List) | (Mode::Check, Asked::Check) => true,
        (Mode::Chances, Asked::Chances) => true,
        _ => is_listing(mode, asked),
    }
}

impl Row<Global> for Line {
    fn holds(&self, alloc: &Global) -> bool {
        match requested(*alloc, self.line) {
            Some(request) => {
                (request.rules.limit, request.rules.choose) == (self.limit, self.choose)
                    && request.memory == self.memory
                    && is_asked(&request.mode, &self.asked)
            }
            None => false,
        }
    }
}

// More than sixteen arguments, each with an effect of its own.
const ALL_OPTIONS: &str =
    "ptb --all --steps 5 --memory 64 --choose 2 --under 1 --after 1,1/2 --first 3 --form 1 game.bas";

const RUNS: &[Line] = lines! {
    ("ptb", Asked::Run(&[])),
    ("ptb game.bas --answers none", Asked::Run(&[])),
    ("ptb --steps 5 --answers 2,1", Asked::Run(&[2, 1]), limit = 5),
    ("ptb --memory=32767 --steps=1000000000", Asked::Run(&[]), limit = 1_000_000_000, memory = 32767),
    // with --choose INPUT asks for answers, in one run as in all
    ("ptb --choose 1", Asked::Run(&[]), choose = Some(1)),
    ("ptb --choose=32767 --steps 7", Asked::Run(&[]), limit = 7, choose = Some(32767)),
    ("ptb --all --choose 8", Asked::All(None, None, None, Form::Two), choose = Some(8)),
    ("ptb --choose 2 --answers 2", Asked::Run(&[2]), choose = Some(2)),
    ("ptb --seed 0", Asked::Seed(0)),
    ("ptb --seed=65543 game.bas", Asked::Seed(65543)),
    ("ptb --steps 5 --seed 4294967295", Asked::Seed(4294967295), limit = 5),
    ("ptb --seed 007", Asked::Seed(7)),
};

const LISTINGS: &[Line] = lines! {
    ("ptb --all", Asked::All(None, None, None, Form::Two)),
    ("ptb --all --after none", Asked::All(None, Some(&[]), None, Form::Two)),
    ("ptb --all --after 1,1/2 --first 2", Asked::All(None, Some(&[ONE, ONE_OF_2]), Some(2), Form::Two)),
    ("ptb --first 1000000000 --all", Asked::All(None, None, Some(1_000_000_000), Form::Two)),
    ("ptb --all --form 1", Asked::All(None, None, None, Form::One)),
    ("ptb --form=2 --all", Asked::All(None, None, None, Form::Two)),
    ("ptb --all --under none", Asked::All(Some(&[]), None, None, Form::Two)),
    ("ptb --under 1,1/2 --all", Asked::All(Some(&[ONE, ONE_OF_2]), None, None, Form::Two)),
    ("ptb --all --after=1,2 --under=1", Asked::All(Some(&[ONE]), Some(&[ONE, TWO]), None, Form::Two)),
    (ALL_OPTIONS, Asked::All(Some(&[ONE]), Some(&[ONE, ONE_OF_2]), Some(3), Form::One),
     limit = 5, memory = 64, choose = Some(2)),
};

const OTHERS: &[Line] = lines! {
    ("ptb --all --shares 1", Asked::Shares(1, Form::Two)),
    ("ptb --shares=64 --form 1 game.bas --all", Asked::Shares(64, Form::One)),
    ("ptb --all --shares 9 --form 2 --choose 2", Asked::Shares(9, Form::Two), choose = Some(2)),
    ("ptb --seed 0 --sample 1", Asked::Sample(0, 1, Form::Two)),
    ("ptb --sample=1000000000 --form 1 game.bas --seed 4294967295",
     Asked::Sample(4_294_967_295, 1_000_000_000, Form::One)),
    ("ptb --seed 7 --sample 3 --form 2 --steps 5", Asked::Sample(7, 3, Form::Two), limit = 5),
    ("ptb --list --steps 5 --memory 64", Asked::List, limit = 5, memory = 64),
    ("ptb --check", Asked::Check),
    ("ptb --steps 5 --check game.bas --memory 64", Asked::Check, limit = 5, memory = 64),
    ("ptb --chances", Asked::Chances),
    ("ptb --steps 5 --chances game.bas --memory 64 --choose 6", Asked::Chances,
     limit = 5, memory = 64, choose = Some(6)),
};

// Arguments, and the program that they name.
struct Named(&'static [&'static str], Option<&'static str>);

const PROGRAMS: &[Named] = table! { Named:
    (&["ptb"], None),
    (&["ptb", "-"], Some("-")),
    (&["ptb", " game.bas "], Some(" game.bas ")),
    (&["ptb", "--seed", "1", ""], Some("")),
    (&["ptb", "--list", "--", "--list"], Some("--list")),
};

impl Row<Global> for Named {
    fn holds(&self, alloc: &Global) -> bool {
        match parse(*alloc, self.0) {
            Ok(matches) => matches.get_str("program") == self.1,
            Err(_) => false,
        }
    }
}

#[test]
fn requests(rt: HostRuntime) {
    let alloc = rt.alloc();
    expect_rows(&rt, "runs", &alloc, RUNS);
    expect_rows(&rt, "listings of all runs", &alloc, LISTINGS);
    expect_rows(&rt, "other requests", &alloc, OTHERS);
    expect_rows(&rt, "names of programs", &alloc, PROGRAMS);
}

// The text that clap has for an argument, and whether it belongs on standard error.
fn told(alloc: Global, argument: &str) -> Option<(String, bool)> {
    match parse(alloc, &["ptb", argument]) {
        Ok(_) => None,
        Err(error) => Some((error.to_string(alloc).ok()?, error.use_stderr())),
    }
}

// Whether clap has this text for an argument, and whether it belongs on standard error.
fn is_told(alloc: Global, argument: &str, wanted: &str) -> Option<(bool, bool)> {
    let (text, on_standard_error) = told(alloc, argument)?;
    Some((text.as_str() == wanted, on_standard_error))
}

#[test]
fn the_version_is_a_line(rt: HostRuntime) {
    for argument in ["--version", "-V"] {
        let found = is_told(rt.alloc(), argument, "ptb 1.1.0\n");
        expect_same(&rt, argument, found, Some((true, false)));
    }
}

// Command lines that clap refuses for a number, the kind of its error, and the line that is shown.
const WRONG_NUMBERS: &[(&str, ErrorKind, &str)] = &[
    (
        "ptb --steps 1e6",
        ErrorKind::ValueValidation,
        "error: invalid value '1e6' for '--steps <N>': expected a number from 1 to 1000000000",
    ),
    (
        "ptb --seed 0 --steps 1,000,000",
        ErrorKind::ValueValidation,
        "error: invalid value '1,000,000' for '--steps <N>': expected a number from 1 to 1000000000",
    ),
    (
        "ptb --memory=63 game.bas",
        ErrorKind::ValueValidation,
        "error: invalid value '63' for '--memory <N>': expected a number from 64 to 32767",
    ),
    (
        "ptb game.bas --choose 32768",
        ErrorKind::ValueValidation,
        "error: invalid value '32768' for '--choose <N>': expected a number from 1 to 32767",
    ),
    (
        "ptb --seed examples/guess.bas",
        ErrorKind::ValueValidation,
        "error: invalid value 'examples/guess.bas' for '--seed <N>': expected a number from 0 to 4294967295",
    ),
    (
        "ptb --seed -1",
        ErrorKind::UnknownArgument,
        "error: invalid value '-1' for '--seed <N>': expected a number from 0 to 4294967295",
    ),
    (
        "ptb --seed=-1",
        ErrorKind::ValueValidation,
        "error: invalid value '-1' for '--seed <N>': expected a number from 0 to 4294967295",
    ),
    (
        "ptb --all --first 0 --form 3",
        ErrorKind::ValueValidation,
        "error: invalid value '0' for '--first <N>': expected a number from 1 to 1000000000",
    ),
    (
        "ptb --all --form=a=b",
        ErrorKind::ValueValidation,
        "error: invalid value 'a=b' for '--form <N>': expected a number from 1 to 2",
    ),
    (
        "ptb --all --shares 65",
        ErrorKind::ValueValidation,
        "error: invalid value '65' for '--shares <N>': expected a number from 1 to 64",
    ),
    (
        "ptb --seed 1 --sample 1e6",
        ErrorKind::ValueValidation,
        "error: invalid value '1e6' for '--sample <N>': expected a number from 1 to 1000000000",
    ),
];

// The text on the first wrong number of a command line, if there is one.
fn wrong_text(alloc: Global, line: &str) -> Option<String> {
    let arguments = arguments_of(alloc, line).ok()?;
    wrong_number(&arguments)?.to_string(alloc).ok()
}

#[test]
fn wrong_numbers(rt: HostRuntime) {
    for &(line, kind, first) in WRONG_NUMBERS {
        let refused = line_refusal(rt.alloc(), line);
        expect_same(&rt, line, refused, Some(Fault::ByClap(kind)));
        match wrong_text(rt.alloc(), line) {
            Some(text) => expect_lines(
                &rt,
                text.as_str(),
                &[first, "", "For more information, try '--help'."],
            ),
            None => expect_same(&rt, line, false, true),
        }
    }
}

#[test]
fn lines_without_wrong_numbers(rt: HostRuntime) {
    for line in [
        "ptb",
        "ptb --steps 5 --seed=4294967295 game.bas",
        "ptb --stops x",
        "ptb --answers x",
        "ptb --steps",
        "ptb -- --seed x",
        "ptb --list=x",
    ] {
        let found = wrong_text(rt.alloc(), line).is_some();
        expect_same(&rt, line, found, false);
    }
}

// The text of --help, line by line.
const HELP: &[&str] = &[
    "Runs a program in Palo Alto Tiny BASIC, version 1.",
    "",
    "Usage: ptb [OPTIONS] [PROGRAM]",
    "",
    "Arguments:",
    "  [PROGRAM]  The program's file; without it, standard input is the program and",
    "             INPUT finds no line",
    "",
    "Options:",
    "  -h, --help     Print help",
    "  -V, --version  Print version",
    "",
    "Run:",
    "      --steps <N>       Begin at most N commands",
    "                        (1 to 1000000000; default 10000)",
    "      --memory <N>      Bytes of memory for the program",
    "                        (64 to 32767; default 4096)",
    "      --choose <N>      Where INPUT finds no line left, take a number",
    "                        from 1 to N as RND(N) would (1 to 32767)",
    "      --answers <LIST>  The random numbers, in order (default none)",
    "      --seed <N>        Draw the random numbers from seed N",
    "                        (0 to 4294967295)",
    "",
    "Explore:",
    "      --all           Write a report of every run, in order",
    "      --under <LIST>  With --all, only the runs whose random numbers",
    "                      begin with LIST",
    "      --after <LIST>  With --all, only the runs after this one",
    "      --first <N>     With --all, at most N reports (1 to 1000000000)",
    "      --shares <N>    With --all, split the runs: print lists of at",
    "                      most N numbers, each for --under (1 to 64)",
    "      --sample <N>    With --seed, draw N runs, one after the other,",
    "                      and write their reports (1 to 1000000000)",
    "      --form <N>      In reports and lists, numbers alone (1), or",
    "                      each with its bound (2, the default)",
    "      --chances       Print the exact chance of each result of a run:",
    "                      how it ends, and the last line that it shows",
    "",
    "Text:",
    "      --list   Print the program in the order of its line numbers; run nothing",
    "      --check  Print each mistake in the program's text; run nothing",
    "",
    "LIST is none, or numbers from 1 to 32767 with commas between them, as 2,1,6.",
    "With --under and --after an item may have its bound, as 2/2,1/3.",
    "",
    "INPUT reads lines from standard input. A run at a terminal without --answers",
    "and --seed draws a seed and prints it; --seed replays the run.",
    "",
    "Exit status:",
    "   0  the program ended, or the reports, the lists, the chances, the listing,",
    "      this help or the version was written, or --check found no mistake",
    "   1  the program stopped with WHAT?, or --check found a mistake",
    "   2  the program stopped with HOW?",
    "   3  the program stopped with SORRY",
    "   4  the run reached the limit of --steps",
    "   5  INPUT found no line left",
    "   6  a random number was wanted and none was left",
    "   7  a number of --answers was greater than its question allows",
    "  64  usage error",
    "  65  a line of the program was refused, or the program is too long",
    "  66  the program or the input could not be read, or the input is too long",
    "  67  --after is not a run, or no run begins with --under",
    "  71  out of memory",
    "  74  the output could not be written",
    "",
    "Examples:",
    "  ptb game.bas",
    "      play a game",
    "  ptb game.bas < moves.txt",
    "      run it on the lines of moves.txt",
    "  ptb --answers 6,1,3 --steps 500 dice.bas",
    "      run dice.bas with these random numbers and at most 500 commands",
    "  ptb --seed 7 dice.bas",
    "      run it with random numbers drawn from seed 7",
    "  ptb --all --first 10 dice.bas < throws.txt",
    "      write the reports of its first ten runs on the lines of throws.txt",
];

// Each line of a text is the line that it should be, and there are as many.
fn expect_lines(rt: &impl Abort, text: &str, wanted: &[&str]) {
    let mut count: usize = 0;
    for (line, &due) in text.lines().zip(wanted) {
        expect_same(rt, due, line, due);
        count = count.saturating_add(1);
    }
    let lines = (text.lines().count(), count);
    expect_same(rt, "number of lines", lines, (wanted.len(), wanted.len()));
}

#[test]
fn help_line_by_line(rt: HostRuntime) {
    for argument in ["--help", "-h"] {
        match told(rt.alloc(), argument) {
            Some((text, on_standard_error)) => {
                expect_lines(&rt, text.as_str(), HELP);
                expect_same(&rt, argument, on_standard_error, false);
            }
            None => expect_same(&rt, argument, false, true),
        }
    }
}
