// This file finds the last line of a text, and the end of a text on which it depends.

ghost use Rattle.std.specs.Prelude.{◌≡◌};
ghost use Rattle.ptb_chances.specs.Chances.{last_line};
ghost use Rattle.std.specs.Prelude.{◌≤◌, ◌-◌, ◌⊎◌, drop, get_or, length, IfOk};
ghost use Rattle.ptb_text.specs.Lines.{lines};
ghost use Rattle.ptb_chances.specs.StagePlays.{SameEnd};

use ptb_text::split_line;
use std::alloc::{AllocError, Global};

/// The last line of a text, without its end: empty where there is none.
pub(crate) fn last_line(text: &[u8]) -> &[u8]
    ensures { result.now ≡ last_line (lines text.now) }
{
    let mut last: &[u8] = b"";
    let mut rest = text;
    while !rest.is_empty() {
        let (line, after) = split_line(rest);
        last = line;
        rest = after;
    }
    last
}

// Where the line begins that ends at a place of a text, or that is not ended there.
fn line_start(text: &[u8], end: usize) -> usize
    requires { end ≤ length text.now }
    ensures within { result ≤ end }
    ensures begins { (result ≡ 0) ⊎ (get_or text.now (result - 1) 0 ≡ 10) }
{
    let mut start = end;
    while start > 0 && text[start - 1] != b'\n' {
        start -= 1;
    }
    start
}

// Where the last ended line of a text begins, or the text itself.
fn last_start(text: &[u8]) -> usize
    ensures within { result ≤ length text.now }
    ensures same_end { SameEnd text.now (drop result text.now) }
{
    let open = line_start(text, text.len());
    if open == 0 {
        return 0;
    }
    let start = line_start(text, open - 1);
    start
}

/// The end of a text: its last ended line, and what is after it. Whatever comes after them, the last
/// line is the same.
///
/// # Errors
///
/// Where there is no memory for it.
pub(crate) fn last_lines(alloc: Global, text: &[u8]) -> Result<Vec<u8>, AllocError>
    ensures { IfOk result (λ end. SameEnd text.now end.items) }
{
    let start = last_start(text);
    let end = Vec::from_slice(alloc, &text[start..])?;
    Ok(end)
}
