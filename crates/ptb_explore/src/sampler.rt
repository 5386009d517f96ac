// This file writes the reports of a sample: runs that the words of a generator draw, one after the other.

ghost use Rattle.std.specs.Prelude.{◌≡◌, [], length, IfOk, OnOk};
ghost use Rattle.ptb_explore.specs.Prelude.{answers_by, sampled_runs, generator_after, generator_of};
ghost use Rattle.ptb_explore.specs.Prelude.{IsAtFirst, play, most_answers, FailsToWrite, FailsOnlyToWrite};
ghost use Rattle.ptb_explore.specs.Prelude.{FailsAfterSome, FailsOnlyAfterSome, report, PlaysDrawn, SampleLaws};
ghost use Rattle.ptb_explore.specs.Prelude.{WritesRun, WritesSample};

use crate::fault::ExploreFault;
use crate::report_text::Parts;
use crate::report_writer::ReportWriter;
use ptb_answers::{Form, Seeded};
use ptb_machine::{
    Ending, Line, Lines, Machine, Player, Rules, TextScreen, ending_word, memory_refusal, run_laws,
};
use ptb_text::{DeviceFault, Program, Write};
use std::alloc::{AllocError, Global};

/// Which runs a sample has, and how their reports are written.
#[derive(Clone, Copy)]
pub struct Sample {
    /// The seed of the generator that draws them.
    pub seed: u64,
    /// How many they are.
    pub runs: u32,
    /// How the reports have the answers of their runs.
    pub form: Form,
}

// What plays the runs of a sample, one after the other. Its room serves all of them.
#[derive(Drop)]
struct Sampler<'a> {
    // Keeps what the program's commands do.
    player: Player<'a>,
    // The machine of the run that is played.
    machine: Machine,
    // Draws the answers, and has those of the run that is played.
    chooser: Seeded,
    // Has what this run shows.
    screen: TextScreen,
    // Writes the reports.
    reports: ReportWriter,
}

// Plays a run of the player's program from its beginning, with the answers that the chooser draws.
fn play_drawn(
    player: &Player,
    machine: &mut Machine,
    lines: &[Line],
    rules: Rules,
    chooser: &mut Seeded,
    screen: &mut TextScreen,
) -> Result<Ending, AllocError>
    requires first { IsAtFirst player.now machine.old }
    requires fresh { chooser.old.bounds ≡ [] }
    requires shown { screen.old ≡ [] }
    ensures { IfOk result (λ ending. PlaysDrawn (play player.now lines.now rules)
        chooser.old.first chooser.new
        (record { ending = ending; steps = machine.new.steps; shown = screen.new })) }
{
    run_laws();
    let mut source = Lines::new(lines);
    'steps: loop {
        player.advance(machine, rules.limit);
        match player.step(machine, rules, chooser, screen, &mut source) {
            Ok(None) => {}
            Ok(Some(ending)) => return Ok(ending),
            Err(fault) => return Err(memory_refusal(fault)),
        }
    }
}

// Plays the next run of a sample.
fn play_next(
    alloc: Global,
    sampler: &mut Sampler,
    lines: &[Line],
    rules: Rules,
) -> Result<Ending, AllocError>
    requires fresh { sampler.old.chooser.bounds ≡ [] }
    ensures program { sampler.new.player ≡ sampler.old.player }
    ensures drawn { IfOk result (λ ending. PlaysDrawn (play sampler.old.player lines.now rules)
        sampler.old.chooser.first sampler.new.chooser (record {
          ending = ending;
          steps = sampler.new.machine.steps;
          shown = sampler.new.screen;
        })) }
{
    sampler.screen.cut(0);
    sampler.player.restart(alloc, &mut sampler.machine)?;
    play_drawn(
        &sampler.player,
        &mut sampler.machine,
        lines,
        rules,
        &mut sampler.chooser,
        &mut sampler.screen,
    )
}

// Plays the next run of a sample and writes its report. The words that the run leaves are for the
// run after it.
fn write_run<W: Write>(
    alloc: Global,
    sampler: &mut Sampler,
    lines: &[Line],
    rules: Rules,
    form: Form,
    writer: &mut W,
) -> Result<(), DeviceFault>
    requires fresh { sampler.old.chooser.bounds ≡ [] }
    ensures program { sampler.new.player ≡ sampler.old.player }
    ensures writes { WritesRun (report form (play sampler.old.player lines.now rules))
        (answers_by (most_answers sampler.old.player lines.now rules.limit)
        sampler.old.chooser.first (play sampler.old.player lines.now rules))
        (W.contents writer.old) (W.contents writer.new) result }
    ensures leaves { OnOk result (sampler.new.chooser ≡ record {
      first = generator_after sampler.old.chooser.first
          (length (answers_by (most_answers sampler.old.player lines.now rules.limit)
          sampler.old.chooser.first (play sampler.old.player lines.now rules)));
      bounds = [];
    }) }
    ensures failed { FailsToWrite result (W.failures writer.old) (W.failures writer.new) }
    ensures unfailed { FailsOnlyToWrite result (W.failures writer.old) (W.failures writer.new) }
{
    run_laws();
    let Ok(ending) = play_next(alloc, sampler, lines, rules) else {
        return Err(DeviceFault::Memory);
    };
    let report = Parts {
        form,
        asked: sampler.chooser.asked(),
        word: ending_word(ending),
        steps: sampler.machine.steps(),
        transcript: sampler.screen.bytes(),
    };
    match sampler.reports.write(writer, &report) {
        Ok(()) => {
            sampler.chooser.forget();
            Ok(())
        }
        Err(_) => Err(DeviceFault::Write),
    }
}

// Writes the reports of the runs of a sample.
fn write_runs<W: Write>(
    alloc: Global,
    sampler: &mut Sampler,
    lines: &[Line],
    rules: Rules,
    sample: Sample,
    writer: &mut W,
) -> Result<(), ExploreFault>
    requires fresh { sampler.old.chooser.bounds ≡ [] }
    ensures writes { WritesSample (report sample.form (play sampler.old.player lines.now rules))
        (sampled_runs (most_answers sampler.old.player lines.now rules.limit)
        (play sampler.old.player lines.now rules) sampler.old.chooser.first sample.runs)
        (W.contents writer.old) (W.contents writer.new) result }
    ensures failed { FailsAfterSome result (W.failures writer.old) (W.failures writer.new) }
    ensures unfailed { FailsOnlyAfterSome result (W.failures writer.old) (W.failures writer.new) }
{
    run_laws();
    let Sample { runs, form, .. } = sample;
    let mut remaining = runs;
    while remaining > 0 {
        match write_run(alloc, sampler, lines, rules, form, writer) {
            Ok(()) => {}
            Err(fault) => return Err(ExploreFault::after(fault, u64::from(runs - remaining))),
        }
        remaining -= 1;
    }
    Ok(())
}

// What plays the runs of a sample, before the first of them. Its exits are apart from those of `write_sample`,
// which owns the sampler: each exit of a body is proved with all that the body owns.
fn start_sampler(alloc: Global, program: &Program, seed: u64) -> Result<Sampler<'_>, AllocError>
    ensures player { IfOk result (λ s. s.player ≡ program.now) }
    ensures chooser { IfOk result (λ s.
        s.chooser ≡ record { first = generator_of seed; bounds = [] }) }
{
    let player = Player::new(alloc, program)?;
    let machine = player.machine(alloc)?;
    Ok(Sampler {
        player,
        machine,
        chooser: Seeded::new(alloc, seed),
        screen: TextScreen::new(alloc),
        reports: ReportWriter::new(),
    })
}

/// Writes the reports of the runs of a sample of a program on these input lines, by these rules.
///
/// The answers of the first run are drawn from the words of the seed's generator, as those of a
/// seeded run are. Each later run is drawn in the same way from the words that the runs before it
/// left. Each report goes to the writer before the next run is played, and its answers and transcript
/// are kept no longer.
///
/// # Errors
///
/// [`ExploreFault::Memory`] where a growth was refused memory: nothing of the next report was written.
/// [`ExploreFault::Write`] where the writer failed: a prefix of the next report was written. Each has
/// the number of reports that were written before. Both come only while a report was still to be
/// written.
pub fn write_sample<W: Write>(
    alloc: Global,
    program: &Program,
    lines: &[Line],
    rules: Rules,
    sample: Sample,
    writer: &mut W,
) -> Result<(), ExploreFault>
    ensures writes { WritesSample (report sample.form (play program.now lines.now rules))
        (sampled_runs (most_answers program.now lines.now rules.limit) (play program.now lines.now rules)
        (generator_of sample.seed) sample.runs)
        (W.contents writer.old) (W.contents writer.new) result }
    ensures failed { FailsAfterSome result (W.failures writer.old) (W.failures writer.new) }
    ensures unfailed { FailsOnlyAfterSome result (W.failures writer.old) (W.failures writer.new) }

    // Which runs a sample has.
    ensures laws { SampleLaws (play program.now lines.now rules)
        (most_answers program.now lines.now rules.limit) }
{
    run_laws();
    let Sample { seed, runs, .. } = sample;
    if runs == 0 {
        return Ok(());
    }
    match start_sampler(alloc, program, seed) {
        Ok(mut sampler) => write_runs(alloc, &mut sampler, lines, rules, sample, writer),
        Err(_) => Err(ExploreFault::Memory(0)),
    }
}
