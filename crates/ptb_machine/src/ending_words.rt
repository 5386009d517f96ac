// This file has the word of an ending, as reports and tables have it (`ending_word`).

ghost use Rattle.std.specs.Prelude.{◌≡◌};
ghost use Rattle.ptb_machine.specs.Prelude.{ending_word};

use ptb_command::Ending;

/// The word of an ending. The two that no report has are empty.
pub fn ending_word(ending: Ending) -> &'static [u8]
    ensures { result.now ≡ ending_word ending }
{
    match ending {
        Ending::End => b"END",
        Ending::Stop => b"STOP",
        Ending::What => b"WHAT",
        Ending::How => b"HOW",
        Ending::Sorry => b"SORRY",
        Ending::Limit => b"LIMIT",
        Ending::NoInput => b"NOINPUT",
        Ending::NoAnswer | Ending::BadAnswer => b"",
    }
}
