// This file finds what is wrong with a text that should spell a list of answers.

ghost use Rattle.std.specs.Prelude.{◌≡◌, IfSome, Some, None};
ghost use Rattle.ptb_options.specs.ListMistakes.{IsItemMistake, IsItemOf, IsListOf, IsListMistake};
ghost use Rattle.ptb_options.specs.Messages.{option_text};

use crate::items::parse_item;
use std::fmt;
use thiserror::Error;

/// Whether the items of a list may have bounds.
#[derive(Clone, Copy)]
pub(crate) enum BoundRule {
    /// An item is a number, or a number with its bound, as `2/6`.
    Allowed,
    /// An item is a number alone.
    Refused,
}

/// Why a text is no item of a list.
#[derive(Clone, Copy, Debug, PartialEq, Eq, Error)]
pub enum ItemMistake {
    /// It is neither a number from 1 to 32767, in decimals without leading zeros, nor such a number
    /// with such a bound.
    #[error("is not a number from 1 to 32767")]
    NotANumber,
    /// It has a bound, and the list takes numbers alone.
    #[error("has a bound; --answers takes numbers alone")]
    HasBound,
}

/// The first faulty item of a text that spells no list. It is displayed as
/// `item 2 (" 2") is not a number from 1 to 32767`.
#[derive(Clone, Copy, Debug, PartialEq, Eq, Error)]
#[error("item {item} ({text:?}) {mistake}")]
pub struct ListMistake<'a> {
    /// The place of the item in the list, from 1.
    pub item: usize,
    /// The text of the item.
    pub text: &'a str,
    /// What is wrong with it.
    pub mistake: ItemMistake,
}

/// An option that takes a list. It is displayed as it is written, `--after`.
#[derive(Clone, Copy, Debug, PartialEq, Eq)]
pub enum ListOption {
    /// `--under`, a list whose items may have bounds.
    Under,
    /// `--after`, a list whose items may have bounds.
    After,
    /// `--answers`, a list of numbers alone.
    Answers,
}

impl fmt::Display for ListOption {
    ghost output = { λ option. Some (option_text option) };

    fn fmt<W: fmt::Write>(&self, f: &mut fmt::Formatter<W>) -> fmt::Result {
        f.write_str(match self {
            ListOption::Under => "--under",
            ListOption::After => "--after",
            ListOption::Answers => "--answers",
        })
    }
}

/// The option whose list is misspelled, and the first faulty item of that list. It is displayed as
/// `--after: item 2 (" 2") is not a number from 1 to 32767`.
#[derive(Clone, Copy, Debug, PartialEq, Eq, Error)]
#[error("{option}: {mistake}")]
pub struct MisspelledList<'a> {
    /// The option.
    pub option: ListOption,
    /// The first faulty item.
    pub mistake: ListMistake<'a>,
}

/// The first faulty item of a text that spells no list, and `None` where it spells one. Items are the
/// texts between commas.
pub(crate) fn list_mistake(text: &str, bounds: BoundRule) -> Option<ListMistake<'_>>
    ensures none { result ≡ None → IsListOf bounds text.entry.now }
    ensures some { IfSome result (IsListMistake bounds text.entry.now) }
{
    if text == "none" {
        return None;
    }
    let mut item = 0;
    for piece in text.split(',') {
        item += 1;
        if let Some(mistake) = item_mistake(piece, bounds) {
            return Some(ListMistake {
                item,
                text: piece,
                mistake,
            });
        }
    }
    None
}

// What is wrong with the text of an item, if anything is.
fn item_mistake(piece: &str, bounds: BoundRule) -> Option<ItemMistake>
    ensures none { result ≡ None → IsItemOf bounds piece.now }
    ensures some { IfSome result (IsItemMistake bounds piece.now) }
{
    let Some(item) = parse_item(piece) else {
        return Some(ItemMistake::NotANumber);
    };
    match bounds {
        BoundRule::Allowed => None,
        BoundRule::Refused => {
            if item.bound.is_some() {
                Some(ItemMistake::HasBound)
            } else {
                None
            }
        }
    }
}
