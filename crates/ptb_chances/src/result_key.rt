// This file has the results of runs as keys, in the order of the table.

ghost use Rattle.std.specs.Prelude.{◌≡◌, refl};
ghost use Rattle.std.specs.Cmp.{on_total, on_equiv, eq_by_cmp_equiv, partial_equiv_from_equiv};
ghost use Rattle.std.specs.Cmp.{partial_order_from_agreeing_total};
ghost use Rattle.std.specs.Ordering.{on, as_partial_cmp, eq_by_cmp};
ghost use Rattle.ptb_chances.specs.Prelude.{rank, result_order, key_result, result_order_total};

use ptb_machine::Ending;
use std::cmp::Ordering;

/// How a run ended, and the last line that it showed.
#[derive(Drop)]
pub(crate) struct ResultKey {
    pub(crate) ending: Ending,
    pub(crate) line: Vec<u8>,
}

// The place of an ending in the order of the table.
fn rank_of(ending: Ending) -> u8
    ensures { result ≡ rank ending }
{
    match ending {
        Ending::End => 0,
        Ending::Stop => 1,
        Ending::What => 2,
        Ending::How => 3,
        Ending::Sorry => 4,
        Ending::Limit => 5,
        Ending::NoInput => 6,
        Ending::NoAnswer => 7,
        Ending::BadAnswer => 8,
    }
}

impl PartialEq for ResultKey {
    ghost eq = { eq_by_cmp (on key_result result_order) };

    ghost laws = { partial_equiv_from_equiv (eq_by_cmp_equiv (on_total key_result result_order_total)) };

    fn eq(&self, other: &ResultKey) -> bool {
        self.cmp(other) == Ordering::Equal
    }
}

impl Eq for ResultKey {
    ghost laws = { eq_by_cmp_equiv (on_total key_result result_order_total) };
}

impl PartialOrd for ResultKey {
    ghost partial_cmp = { as_partial_cmp (on key_result result_order) };

    ghost laws = { partial_order_from_agreeing_total (on key_result result_order)
        (on_total key_result result_order_total) (λ x y. refl) (λ x y. refl) };

    fn partial_cmp(&self, other: &ResultKey) -> Option<Ordering> {
        Some(self.cmp(other))
    }
}

impl Ord for ResultKey {
    ghost cmp = { on key_result result_order };

    ghost total = { on_total key_result result_order_total };

    ghost matches_partial_cmp = { λ x y. refl };

    ghost matches_eq = { λ x y. refl };

    fn cmp(&self, other: &ResultKey) -> Ordering {
        match rank_of(self.ending).cmp(&rank_of(other.ending)) {
            Ordering::Equal => self.line.cmp(&other.line),
            unequal => unequal,
        }
    }
}
