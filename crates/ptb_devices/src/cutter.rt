// This file cuts cleaned lines from bytes that come one after the other.

ghost use Rattle.std.specs.Prelude.{◌≡◌, ◌↔◌, ℕ, ◌<◌, ◌≤◌, List, [], ◌∷◌, ◌++◌, length, take};
ghost use Rattle.std.specs.Prelude.{Option, Some, None, IfSome, IfNone, IsSome, IsTrue};
ghost use Rattle.std.specs.Prelude.{MatchOption};
ghost use Rattle.ptb_devices.specs.CutLines.{IsClean, cleaned_byte, with_byte, kept_bytes, Cuts};

use arrayvec::ArrayVec;
use std::marker::Model;

/// How many bytes of an input line are kept.
pub(crate) const LINE_LIMIT: usize = 255;

/// The piece of a line that has come so far, if one has begun: of its bytes it keeps what the
/// cleaned line keeps, and no more.
#[derive(Drop)]
pub(crate) struct LineCutter {
    kept: ArrayVec<u8, LINE_LIMIT>,
    has_started: bool,
}

impl Model for LineCutter {
    ghost use Rattle.std.specs.Prelude.{◌≡◌, false, List, ℕ, [], Option};
    ghost use Rattle.ptb_devices.specs.CutLines.{IsClean, started_piece};

    ghost Value = { Option (List ℕ) };

    ghost view = { λ c. started_piece c.has_started c.kept.items };

    ghost invariant = { λ c. (c.has_started ≡ false → c.kept.items ≡ []) × IsClean c.kept.items };
}

impl LineCutter {
    /// No piece has begun.
    pub(crate) fn new() -> Self
        ensures { result ≡ None }
    {
        LineCutter {
            kept: ArrayVec::new(),
            has_started: false,
        }
    }

    /// Whether a piece has begun.
    pub(crate) fn has_started(&self) -> bool
        ensures { IsTrue result ↔ IsSome self.now }
    {
        self.has_started
    }

    /// What is kept of the piece.
    pub(crate) fn kept(&self) -> &[u8]
        ensures value { result.now ≡ kept_bytes self.now }
        ensures clean { IsClean result.now }
    {
        self.kept.as_slice()
    }

    /// Forgets the piece.
    pub(crate) fn clear(&mut self)
        ensures { self.new ≡ None }
    {
        self.kept.clear();
        self.has_started = false;
    }

    /// Takes one byte more of the line.
    pub(crate) fn take(&mut self, byte: u8)
        ensures { self.new ≡ Some (with_byte (kept_bytes self.old) byte) }
    {
        self.has_started = true;
        keep(&mut self.kept, byte);
    }

    /// Takes bytes up to the end of a line, and answers how many with the end. Without an end in
    /// them it takes them all.
    pub(crate) fn take_line(&mut self, bytes: &[u8]) -> Option<usize>
        ensures size { IfSome result (λ n. (0 < n) × (n ≤ length bytes.now)) }
        ensures whole { IfSome result
            (λ n. Cuts self.old (take n bytes.now) (kept_bytes self.new ∷ []) None) }
        ensures part { IfNone result (Cuts self.old bytes.now [] self.new) }
    {
        for (i, byte) in bytes.iter().enumerate() {
            if *byte == b'\n' {
                return Some(i + 1);
            }
            self.take(*byte);
        }
        None
    }
}

/// Keeps one byte more of a line, if the cleaned line keeps it.
fn keep(kept: &mut ArrayVec<u8, LINE_LIMIT>, byte: u8)
    ensures { kept.new.items ≡ with_byte kept.old.items byte }
{
    if kept.is_full() {
        return;
    }
    if let Some(clean) = cleaned_byte(byte) {
        kept.push(clean);
    }
}

/// What the cleaning makes of a byte, if it doesn't drop it.
fn cleaned_byte(byte: u8) -> Option<u8>
    ensures { MatchOption result (cleaned_byte byte ≡ []) (λ b. cleaned_byte byte ≡ b ∷ []) }
{
    match byte {
        b'\t' => Some(b' '),
        b' '..=b'~' => Some(byte),
        _ => None,
    }
}

/// Whether the cleaning leaves a byte as it is.
#[inline(always)]
pub(crate) fn stays(byte: u8) -> bool
    ensures { IsTrue result → cleaned_byte byte ≡ byte ∷ [] }
{
    matches!(byte, b' '..=b'~')
}
