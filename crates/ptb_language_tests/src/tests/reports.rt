// This file tests how the reports of runs are written: one alone, one after the other by one writer, and
// to a device that has no room for all of a report.

use crate::tests::shared::{Row, expect_rows, expect_same, table};
use crate::tests::sink::make_sink;
use ptb_explore::{Asked, Form, Parts, ReportWriter};
use ptb_text::{ByteSink, Device, DeviceFault};
use std::alloc::{AllocError, Global};

// What is to be reported of a run: its answers, their bounds, the word of its ending, how many
// commands it began, and what it showed.
type Reported = (
    &'static [i16],
    &'static [i16],
    &'static str,
    u32,
    &'static [u8],
);

const NOTHING: Reported = (&[], &[], "END", 2, b"");

const TWO_ANSWERS: Reported = (&[2, 1], &[2, 32767], "STOP", 4_294_967_295, b"     1\n");

// More than is gathered before anything is written.
const LONG: Reported = (&[1], &[1], "LIMIT", 0, &[b'A'; 5000]);

const ONE_OF_1: Asked = Asked {
    answer: 1,
    bound: 1,
};

// Writes a report of at most 8 answers to a sink.
fn write_to<T: ByteSink + Drop>(
    reports: &mut ReportWriter,
    sink: T,
    form: Form,
    run: Reported,
) -> Result<(), DeviceFault> {
    let (answers, bounds, word, steps, shown) = run;
    let (word, mut out) = (word.as_bytes(), Device::new(sink));
    let (mut asked, count) = ([ONE_OF_1; 8], answers.len());
    if count > asked.len() || bounds.len() != count {
        return Err(DeviceFault::Write);
    }
    for k in 0..count {
        let (answer, bound) = (answers[k], bounds[k]);
        asked[k] = Asked { answer, bound };
    }
    let report = Parts {
        form,
        asked: &asked[..count],
        word,
        steps,
        transcript: shown,
    };
    reports.write(&mut out, &report)
}

// Whether the room holds a text, and nothing after it.
fn holds(room: &[u8], text: &[u8]) -> bool {
    let Some(rest) = room.strip_prefix(text) else {
        return false;
    };
    for byte in rest {
        if *byte != b'.' {
            return false;
        }
    }
    true
}

// A form, what is reported in it, and the report.
struct Report(Form, Reported, &'static str);

// Whether a report is written where there is room for it; where there isn't room for all of it, that
// is a fault, and the room has a beginning.
fn is_written(reports: &mut ReportWriter, room: &mut [u8], report: &Report) -> bool {
    let due = report.2.as_bytes();
    let done = write_to(reports, &mut *room, report.0, report.1);
    if room.len() < due.len() {
        done == Err(DeviceFault::Write) && due.starts_with(room)
    } else {
        done == Ok(()) && holds(room, due)
    }
}

// A report is written alone where there is ample room, just enough, and not enough.
impl Row<()> for Report {
    fn holds(&self, _context: &()) -> bool {
        for size in [100, self.2.len(), 17] {
            let mut room = [b'.'; 100];
            let room = &mut room[..size.min(100)];
            if !is_written(&mut ReportWriter::new(), room, self) {
                return false;
            }
        }
        true
    }
}

const REPORTS: &[Report] = table! { Report:
    (Form::One, NOTHING, "RUN none END 2 0\n\n"),
    (Form::Two, NOTHING, "RUN none END 2 0\n\n"),
    (Form::One, TWO_ANSWERS, "RUN 2,1 STOP 4294967295 7\n     1\n\n"),
    (Form::Two, TWO_ANSWERS, "RUN 2/2,1/32767 STOP 4294967295 7\n     1\n\n"),
};

// A long transcript is written as a short one is.
fn is_long_written(reports: &mut ReportWriter) -> bool {
    let mut room = [b'.'; 5100];
    write_to(reports, &mut room[..], Form::Two, LONG) == Ok(())
        && room.starts_with(b"RUN 1/1 LIMIT 0 5000\n")
        && room[21..].starts_with(&[b'A'; 5000])
        && holds(&room[5021..], b"\n")
}

#[test]
fn reports_are_written(rt: HostRuntime) {
    expect_rows(&rt, "reports", &(), REPORTS);
    let is_long = is_long_written(&mut ReportWriter::new());
    expect_same(&rt, "a long report", is_long, true);
}

// Reports that one writer writes in this order.
const IN_TURN: &[Report] = table! { Report:
    (Form::Two, (&[2, 1], &[2, 3], "END", 14, b"1\n"), "RUN 2/2,1/3 END 14 2\n1\n\n"),
    // the last answer is raised
    (Form::Two, (&[2, 2], &[2, 3], "END", 14, b"2\n"), "RUN 2/2,2/3 END 14 2\n2\n\n"),
    // another bound of the same answer
    (Form::Two, (&[2, 2], &[2, 4], "HOW", 9, b""), "RUN 2/2,2/4 HOW 9 0\n\n"),
    // the other form of the same answers
    (Form::One, (&[2, 2], &[2, 4], "HOW", 9, b""), "RUN 2,2 HOW 9 0\n\n"),
    (Form::Two, (&[2, 2], &[2, 4], "HOW", 9, b""), "RUN 2/2,2/4 HOW 9 0\n\n"),
    // the same report again
    (Form::Two, (&[2, 2], &[2, 4], "HOW", 9, b""), "RUN 2/2,2/4 HOW 9 0\n\n"),
    // more answers, then fewer
    (Form::Two, (&[2, 2, 99, 100, 10, 9], &[2, 4, 100, 999, 10, 10], "SORRY", 99, b"0123456789"),
     "RUN 2/2,2/4,99/100,100/999,10/10,9/10 SORRY 99 10\n0123456789\n"),
    (Form::Two, (&[2, 2, 99, 101], &[2, 4, 100, 999], "STOP", 100, b""), "RUN 2/2,2/4,99/100,101/999 STOP 100 0\n\n"),
    (Form::Two, (&[2], &[2], "WHAT", 4_294_967_295, b""), "RUN 2/2 WHAT 4294967295 0\n\n"),
    // no answers, then the same as before
    (Form::Two, NOTHING, "RUN none END 2 0\n\n"),
    (Form::Two, (&[2], &[2], "WHAT", 4_294_967_295, b""), "RUN 2/2 WHAT 4294967295 0\n\n"),
    // numbers that no run has
    (Form::Two, (&[-32768, 0, 32767], &[-1, -10, 0], "NOINPUT", 0, b""), "RUN -32768/-1,0/-10,32767/0 NOINPUT 0 0\n\n"),
    (Form::One, (&[-32768, 0, -1], &[-1, -10, 0], "LIMIT", 10, b""), "RUN -32768,0,-1 LIMIT 10 0\n\n"),
};

// Whether a report is written in a room of its own.
fn is_written_next(reports: &mut ReportWriter, report: &Report) -> bool {
    is_written(reports, &mut [b'.'; 100], report)
}

// A report that has no room, and one that is longer than what is kept, change nothing of the next.
fn is_written_after_others(reports: &mut ReportWriter, report: &Report) -> bool {
    is_written(reports, &mut [b'.'; 9], report)
        && is_long_written(reports)
        && is_written_next(reports, report)
}

// A report is written to a writer that takes three bytes a call; if a call fails, it has a prefix.
fn is_written_in_pieces(
    alloc: Global,
    reports: &mut ReportWriter,
    report: &Report,
    fails_at: usize,
    wanted: Result<(), DeviceFault>,
) -> bool {
    let mut sink = make_sink(alloc, 3, fails_at);
    write_to(reports, &mut sink, report.0, report.1) == wanted
        && report.2.as_bytes().starts_with(&sink.taken)
        && (sink.taken.len() == report.2.len()) == wanted.is_ok()
}

// Each report is written as it is alone, whatever was written before it.
#[test]
fn reports_in_turn(rt: HostRuntime) {
    let (mut alone, mut after) = (ReportWriter::new(), ReportWriter::new());
    for report in IN_TURN {
        let found = (
            is_written_next(&mut alone, report),
            is_written_after_others(&mut after, report),
        );
        expect_same(&rt, report.2, found, (true, true));
    }
}

#[test]
fn reports_in_small_pieces(rt: HostRuntime) {
    let mut reports = ReportWriter::new();
    for report in IN_TURN {
        let found = (
            is_written_in_pieces(rt.alloc(), &mut reports, report, 3, Err(DeviceFault::Write)),
            is_written_in_pieces(rt.alloc(), &mut reports, report, 0, Ok(())),
        );
        expect_same(&rt, report.2, found, (true, true));
    }
}

// A run of so many answers, all of them 1 but the last, and how many bytes it showed.
struct LongRun(usize, i16, usize);

// Its report.
fn long_report(alloc: Global, run: &LongRun) -> Result<String, AllocError> {
    let LongRun(count, last, size) = *run;
    let ones = "1,".repeat(alloc, count.saturating_sub(1))?;
    let shown = "A".repeat(alloc, size)?;
    format!(in alloc; "RUN {ones}{last} END 7 {size}\n{shown}\n")
}

// Writes that report.
fn write_long(
    reports: &mut ReportWriter,
    taken: &mut Vec<u8>,
    run: &LongRun,
) -> Result<(), DeviceFault> {
    let LongRun(count, last, size) = *run;
    if count < 1 || count > 300 || size > 4097 {
        return Err(DeviceFault::Write);
    }
    let mut asked = [ONE_OF_1; 300];
    asked[count - 1] = Asked {
        answer: last,
        bound: last,
    };
    let (mut out, shown) = (Device::new(taken), &[b'A'; 4097][..size]);
    let report = Parts {
        form: Form::One,
        asked: &asked[..count],
        word: b"END",
        steps: 7,
        transcript: shown,
    };
    reports.write(&mut out, &report)
}

fn is_long_run_written(alloc: Global, reports: &mut ReportWriter, run: &LongRun) -> bool {
    let mut taken = Vec::new(alloc);
    write_long(reports, &mut taken, run) == Ok(())
        && match long_report(alloc, run) {
            Ok(due) => taken.as_slice() == due.as_bytes(),
            Err(AllocError) => false,
        }
}

// Lists of more answers than are kept, and transcripts that are just short enough to be gathered, and
// longer ones, are written as short ones are.
const LONG_RUNS: &[LongRun] = table! { LongRun:
    (255, 1, 0),
    (255, 2, 0),
    (255, 10, 0),
    (255, 3, 0),
    (256, 1, 0),
    (256, 2, 0),
    (256, 10, 0),
    (256, 3, 0),
    (257, 1, 0),
    (257, 2, 0),
    (257, 10, 0),
    (257, 3, 0),
    (300, 1, 0),
    (300, 2, 0),
    (300, 10, 0),
    (300, 3, 0),
    (256, 1, 0),
    (256, 2, 0),
    (256, 10, 0),
    (256, 3, 0),
    (2, 1, 0),
    (2, 2, 0),
    (2, 10, 0),
    (2, 3, 0),
    (1, 1, 4038),
    (1, 1, 4039),
    (1, 1, 4040),
    (1, 1, 4041),
    (1, 1, 4096),
    (1, 1, 4097),
    (1, 1, 600),
    (1, 1, 9),
};

#[test]
fn long_runs_in_turn(rt: HostRuntime) {
    let mut reports = ReportWriter::new();
    for run in LONG_RUNS {
        let found = is_long_run_written(rt.alloc(), &mut reports, run);
        expect_same(
            &rt,
            "a long run",
            (run.0, run.1, run.2, found),
            (run.0, run.1, run.2, true),
        );
    }
}
