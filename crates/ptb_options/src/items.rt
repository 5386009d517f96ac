// This file reads an item of a list of answers: a number, and its bound where it has one.

ghost use Rattle.std.specs.Prelude.{◌≡◌, ℤ, IfSome};
ghost use Rattle.ptb_answers.specs.AnswerText.{without_bound};
ghost use Rattle.ptb_answers.specs.declared.form.Marked.{Marked};
ghost use Rattle.ptb_options.specs.AnswerLists.{SpellsItem, SpellsNumber};

use ptb_answers::Marked;

// The item that a text spells, if it is one.
pub(crate) fn parse_item(text: &str) -> Option<Marked>
    ensures some { IfSome result (λ m. SpellsItem text.now m) }
    ensures only { (m : Marked) → SpellsItem text.now m → result ≡ Some m }
{
    let Some((answer, bound)) = text.split_once('/') else {
        return Some(Marked {
            answer: parse_number(text)?,
            bound: None,
        });
    };
    Some(Marked {
        answer: parse_number(answer)?,
        bound: Some(parse_number(bound)?),
    })
}

/// What the items of a list are: numbers, each with its bound or without, or numbers alone.
pub(crate) trait ListItem: Drop {
    /// The item as reports write it.
    ghost marked: { Self → Marked };

    /// The item that a text spells, if it is one.
    fn parse(text: &str) -> Option<Self>
        ensures some { IfSome result (λ x. SpellsItem text.now (marked x)) }
        ensures only { (x : Self) → SpellsItem text.now (marked x) → result ≡ Some x };
}

impl ListItem for Marked {
    ghost marked = { λ m. m };

    fn parse(text: &str) -> Option<Marked> {
        parse_item(text)
    }
}

impl ListItem for i16 {
    ghost marked = { without_bound };

    fn parse(text: &str) -> Option<i16> {
        let item = parse_item(text)?;
        if item.bound.is_some() {
            return None;
        }
        Some(item.answer)
    }
}

// The number that a text spells, if a list may have it. `parse` takes signs and leading zeros, which
// a list may not have, so the first byte is tested before.
fn parse_number(text: &str) -> Option<i16>
    ensures some { IfSome result (λ k. SpellsNumber text.now k) }
    ensures only { (k : ℤ) → SpellsNumber text.now k → result ≡ Some k }
{
    let bytes = text.as_bytes();
    if bytes.is_empty() || bytes[0] < b'1' || bytes[0] > b'9' {
        return None;
    }
    text.parse().ok()
}
