// This file has the items of a header that a writer of reports keeps, from the first one on.

ghost use Rattle.std.specs.Prelude.{◌≡◌, ◌<◌, ◌≤◌, [], ◌∷◌, ◌++◌, length, take};

use std::marker::Model;

/// How many items are kept at most.
pub(crate) const MOST_ITEMS: usize = 256;

/// An item of a header.
#[derive(Clone, Copy)]
pub(crate) struct KeptItem {
    /// The answer.
    pub(crate) answer: i16,
    /// Its bound, where the header has it.
    pub(crate) bound: Option<i16>,
    /// How many bytes the header has up to the end of the item.
    pub(crate) end: usize,
}

/// The first items of a header, at most [`MOST_ITEMS`]. Contracts see them as a list.
///
/// Items that are cut away stay in their places and are written over, so a cut costs nothing.
#[derive(Drop)]
pub(crate) struct KeptItems {
    items: [KeptItem; MOST_ITEMS],
    count: usize,
}

impl Model for KeptItems {
    ghost use Rattle.std.specs.Prelude.{◌≡◌, ◌≤◌, List, length, take};
    ghost use Rattle.ptb_explore.specs.declared.kept_items.KeptItem.{KeptItem};

    ghost Value = { List KeptItem };

    ghost view = { λ k. take k.count k.items };

    ghost invariant = { λ k. (length k.items ≡ 256) × (k.count ≤ 256) };
}

impl KeptItems {
    /// No items.
    pub(crate) fn new() -> KeptItems
        ensures { result ≡ [] }
    {
        let blank = KeptItem {
            answer: 0,
            bound: None,
            end: 0,
        };
        KeptItems {
            items: [blank; MOST_ITEMS],
            count: 0,
        }
    }

    /// The items.
    #[inline(always)]
    pub(crate) fn as_slice(&self) -> &[KeptItem]
        ensures { result.now ≡ self.now }
    {
        &self.items[..self.count]
    }

    /// Keeps the first `count` items.
    #[inline(always)]
    pub(crate) fn truncate(&mut self, count: usize)
        requires { count ≤ length self.old }
        ensures { self.new ≡ take count self.old }
    {
        self.count = count;
    }

    /// Adds an item.
    #[inline(always)]
    pub(crate) fn push(&mut self, item: KeptItem)
        requires { length self.old < 256 }
        ensures { self.new ≡ self.old ++ item ∷ [] }
    {
        let at = self.count;
        self.items[at] = item;
        self.count = at + 1;
    }
}
