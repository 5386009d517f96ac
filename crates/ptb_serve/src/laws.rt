// This file states that the laws of replies hold.

ghost use Rattle.ptb_serve.specs.ReplyLaws.{ReplyLaws};

use ptb_chances::table_laws;
use ptb_check::check_laws;
use ptb_explore::program_laws;
use ptb_machine::{run_laws, seeded_laws};

/// What the reply to each request is, for every program text and every input. The reply to a text
/// that is refused, as every text of more than 1,048,576 bytes is, is its refusal. For a text that is
/// accepted it is the reports of all its runs, each once, in the order of their answers, or of those
/// after a run, or of the first of them; what one run shows, with the status of its ending; or the
/// program's lines, or the mistakes in them. Two runs have two different reports. A run by a seed is
/// the one run whose answers are drawn from the seed. The replies to the shares of the lists that split
/// the runs are, one after the other, the reports of all runs. The chances of the results of all runs
/// add up to 1. Where a run ends with a fault, the command at its place has no mistake in its text, or
/// its mistake is among those that a check lists.
#[tactic(auto, using(crate::proofs::ReplyLaws::reply_laws))]
pub fn reply_laws()
    ensures { ReplyLaws }
{
    run_laws();
    seeded_laws();
    program_laws();
    table_laws();
    check_laws();
}
