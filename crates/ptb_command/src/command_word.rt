// This file reads the word of a command and finds its end, for the translation of every command.

ghost use Rattle.std.specs.Prelude.{◌≡◌};
ghost use Rattle.ptb_text.specs.Words.{IsCommand};
ghost use Rattle.ptb_command.specs.Commands.{command_ends};
ghost use Rattle.ptb_command.specs.ReadCommands.{IsFirstWord};

use ptb_text::{Cursor, Table, Word, finding_laws};

/// Whether a command ends at the cursor: the text is over, or `;` is next.
pub(crate) fn command_ends(cursor: &Cursor) -> bool
    ensures { result ≡ command_ends cursor.now.text cursor.now.place }
{
    match cursor.next_byte() {
        Some(byte) => byte == b';',
        None => true,
    }
}

/// Takes the word with which a command begins; LET, and nothing is taken, where there is none.
#[inline(always)]
pub(crate) fn first_word(cursor: &mut Cursor) -> Word
    ensures first { IsFirstWord cursor.old.text cursor.old.place result cursor.new.place }
    ensures command { IsCommand result }
    ensures text { cursor.new.text ≡ cursor.old.text }
{
    finding_laws();
    cursor.range_law();
    match cursor.word(Table::Commands) {
        Some(word) => word,
        None => Word::LetKw,
    }
}
