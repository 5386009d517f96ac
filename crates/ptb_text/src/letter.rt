// This file has the letters A to Z, which name the variables.

ghost use Rattle.std.specs.Prelude.{◌≡◌, ◌-◌, ◌<◌, if◌then◌else◌, Some, None};
ghost use Rattle.ptb_text.specs.Words.{is_letter};

use std::marker::Model;

/// A letter A to Z, the name of a variable.
///
/// In contracts it is its byte, which is 65 to 90.
#[derive(Clone, Copy, Debug, PartialEq, Eq)]
pub struct Letter {
    byte: u8,
}

impl Model for Letter {
    ghost use Rattle.std.specs.Prelude.{ℕ, ◌≤◌};

    ghost Value = { ℕ };

    ghost view = { λ l. l.byte };

    ghost invariant = { λ l. (65 ≤ l.byte) × (l.byte ≤ 90) };

    ghost inverse = { λ n. record { byte = n } };
}

impl Letter {
    /// The letter that the byte is, if it is one of A to Z.
    #[inline(always)]
    pub fn new(byte: u8) -> Option<Letter>
        ensures { result ≡ (if is_letter byte then Some byte else None) }
    {
        if byte.is_ascii_uppercase() {
            Some(Letter { byte })
        } else {
            None
        }
    }

    /// How many letters are before it in the alphabet: 0 for A, 25 for Z.
    #[inline(always)]
    pub fn index(self) -> usize
        ensures value { result ≡ self - 65 }
        ensures within { result < 26 }
    {
        // In machine words, so that the subtraction becomes a part of an address.
        usize::from(self.byte) - usize::from(b'A')
    }
}
