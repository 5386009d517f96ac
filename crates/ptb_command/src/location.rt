// This file says where a command begins.

ghost use Rattle.std.specs.Prelude.{◌≡◌, ◌↔◌, IsTrue};

/// One of a program's statements, and a place in its text.
#[derive(Clone, Copy, PartialEq, Eq)]
pub struct Location {
    /// How many statements are before it.
    pub statement: usize,
    /// How many bytes of the text are before the place.
    pub offset: usize,
}

impl Location {
    /// Whether another place is the same.
    #[tactic(auto, using(crate::proofs::Sameness::same_location))]
    pub(crate) fn is_same(self, other: Location) -> bool
        ensures { IsTrue result ↔ (self ≡ other) }
    {
        self.statement == other.statement && self.offset == other.offset
    }

    /// A number that is the same for the same place. Others may have it, too.
    pub(crate) fn hash(self) -> u64 {
        (self.statement as u64)
            .wrapping_mul(0x1_0000)
            .wrapping_add(self.offset as u64)
    }
}
