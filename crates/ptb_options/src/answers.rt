// This file has lists of answers, and reads them from the text of an option.

ghost use Rattle.std.specs.Prelude.{◌≡◌, ◌≢◌, List, IfErr, IfOk, codes, map};
ghost use Rattle.ptb_options.specs.AnswerLists.{IsListFault, IsListRead, SpellsAnswers, SpellsList};
ghost use Rattle.ptb_options.specs.ListMistakes.{IsListOf};

use crate::items::ListItem;
use crate::mistakes::{BoundRule, list_mistake};
use crate::usage::UsageFault;
use ptb_answers::Marked;
use std::alloc::Global;
use std::marker::Model;

/// A list of items that are answers to RND. A list that was read from a text has numbers from 1 to
/// 32767; the type holds any.
///
/// [`From`] makes it of a `Vec`, and takes no memory.
#[derive(Drop)]
pub struct ItemList<T> {
    items: Vec<T>,
}

/// A list of answers.
pub type PlainAnswers = ItemList<i16>;

/// A list of answers, each with its bound or without.
pub type MarkedAnswers = ItemList<Marked>;

impl<T> Model for ItemList<T> {
    ghost Value = { List T };

    ghost view = { λ l. l.items.items };
}

impl<T> ItemList<T> {
    /// The items, in order.
    pub fn as_slice(&self) -> &[T]
        ensures { result.now ≡ self.now }
    {
        &self.items
    }
}

impl<T> From<Vec<T>> for ItemList<T> {
    ghost from_gives = { λ v l. l ≡ v.items };

    fn from(items: Vec<T>) -> ItemList<T> {
        ItemList { items }
    }
}

/// The list that a text spells: `none`, or items with one comma between two of them and nothing
/// else. An item is an answer in decimals; `/` and its bound in decimals may follow. Both are numbers
/// from 1 to 32767, and their first digit is never 0.
///
/// # Errors
///
/// [`UsageFault::BadList`] where the text spells no list; [`UsageFault::Memory`] where a growth was
/// refused memory, and only for a list that has items.
pub(crate) fn parse_list(alloc: Global, text: &str) -> Result<MarkedAnswers, UsageFault>
    ensures { IsListRead (SpellsList text.now) result }
{
    parse_as::<Marked>(alloc, text, BoundRule::Allowed)
}

/// The answers that a text spells: a list as [`parse_list`] reads it, without bounds.
///
/// # Errors
///
/// [`UsageFault::BadList`] where the text spells no such list; [`UsageFault::Memory`] where a growth
/// was refused memory, and only for a list that has items.
pub(crate) fn parse_answers(alloc: Global, text: &str) -> Result<PlainAnswers, UsageFault>
    ensures { IsListRead (SpellsAnswers text.now) result }
{
    parse_as::<i16>(alloc, text, BoundRule::Refused)
}

// The list of items of this kind that a text spells. Whether an item may have a bound is said twice:
// by the kind, and by `bounds`, for which the entire text is looked at before memory is taken.
fn parse_as<T: ListItem>(
    alloc: Global,
    text: &str,
    bounds: BoundRule,
) -> Result<ItemList<T>, UsageFault>
    ensures ok { IfOk result (λ items. SpellsList text.now (map T.marked items)) }
    ensures bad { result ≡ Err UsageFault.BadList → IsListOf bounds text.now
        → (items : List T) → SpellsList text.now (map T.marked items) → ⊥ }
    ensures memory { result ≡ Err UsageFault.Memory
        → IsListOf bounds text.now × (text.now ≢ codes "none") }
    ensures fault { IfErr result IsListFault }
{
    if list_mistake(text, bounds).is_some() {
        return Err(UsageFault::BadList);
    }
    Ok(parse_items::<T>(alloc, text)?.into())
}

// The items that a text spells. Memory is taken only for a text that isn't `none`.
fn parse_items<T: ListItem>(alloc: Global, text: &str) -> Result<Vec<T>, UsageFault>
    ensures ok { IfOk result (λ items. SpellsList text.now (map T.marked items.items)) }
    ensures bad { result ≡ Err UsageFault.BadList
        → (items : List T) → SpellsList text.now (map T.marked items) → ⊥ }
    ensures memory { result ≡ Err UsageFault.Memory → text.now ≢ codes "none" }
    ensures fault { IfErr result IsListFault }
{
    let mut items = Vec::new(alloc);
    if text == "none" {
        return Ok(items);
    }
    for piece in text.split(',') {
        let item = T::parse(piece).ok_or(UsageFault::BadList)?;
        items.push(item)?;
    }
    Ok(items)
}
