// This file states that the laws hold of the definitions.

ghost use Rattle.std.specs.Prelude.{ℕ, List};
ghost use Rattle.ptb_explore.specs.Prelude.{StoredProgram, Answers, Outcome, IsReader, Rules, Finish, play};
ghost use Rattle.ptb_explore.specs.Prelude.{most_answers, BeginningLaws, ListingLaws};
ghost use Rattle.ptb_explore.specs.Prelude.{ReportLaws, ShareLaws, TreeLaws, SampleLaws};

use ptb_machine::run_laws;

/// Whatever takes answers one by one, the tree has its runs and nothing else, in rising order.
pub fn tree_laws<A, W>()
    ensures { (play : Answers → Outcome A W) (most : ℕ) → IsReader play most
        → TreeLaws play most }
{}

/// What a listing has left are the runs after the place where it is, in rising order, and one
/// that begins after a run resumes where one that ended with it stopped.
pub fn listing_laws<A, W>()
    ensures { (play : Answers → Outcome A W) (most : ℕ) → IsReader play most
        → ListingLaws play most }
{}

/// The runs that begin with some answers are, one after the other, those that continue with 1, with
/// 2 and so on up to the bound of the question after them; some run begins with answers exactly
/// where they are one, or something is asked after them; a run is alone with its answers; and lists
/// that differ at some place share no run.
pub fn share_laws<A, W>()
    ensures { (play : Answers → Outcome A W) (most : ℕ) → IsReader play most
        → ShareLaws play most }
{}

/// The lists that split the runs after n answers are the runs of at most n answers and the lists of n
/// answers that a question follows. They rise, none begins with another, and the runs that begin with
/// the first, then those that begin with the second and so on, are all runs in their order.
pub fn beginning_laws<A, W>()
    ensures { (play : Answers → Outcome A W) (most n : ℕ) → IsReader play most
        → BeginningLaws play most n }
{}

/// Two runs have two different reports, in whatever form, and so the listings of two shares have no
/// report in common: a report shows the answers of its run. The answers are numbers up to 32767, as
/// every answer that the program reads is.
pub fn report_laws()
    ensures { (play : Answers → Outcome Finish (List ℕ)) (most : ℕ) → IsReader play most
        → ReportLaws play most }
{}

/// A generator draws a sample of runs, one after the other, as many as are wanted: each word of it
/// draws one answer, and the first run is the one that the generator draws alone.
pub fn sample_laws<A, W>()
    ensures { (play : Answers → Outcome A W) (most : ℕ) → IsReader play most
        → SampleLaws play most }
{}

/// The runs of each program on each input, by any rules, have these laws.
pub fn program_laws()
    ensures tree { (p : StoredProgram) (input : List (List ℕ)) (rules : Rules)
        → TreeLaws (play p input rules) (most_answers p input rules.limit) }
    ensures listing { (p : StoredProgram) (input : List (List ℕ)) (rules : Rules)
        → ListingLaws (play p input rules) (most_answers p input rules.limit) }
    ensures share { (p : StoredProgram) (input : List (List ℕ)) (rules : Rules)
        → ShareLaws (play p input rules) (most_answers p input rules.limit) }
    ensures beginning { (p : StoredProgram) (input : List (List ℕ)) (rules : Rules) (n : ℕ)
        → BeginningLaws (play p input rules) (most_answers p input rules.limit) n }
    ensures report { (p : StoredProgram) (input : List (List ℕ)) (rules : Rules)
        → ReportLaws (play p input rules) (most_answers p input rules.limit) }
    ensures sample { (p : StoredProgram) (input : List (List ℕ)) (rules : Rules)
        → SampleLaws (play p input rules) (most_answers p input rules.limit) }
{
    run_laws();
}
