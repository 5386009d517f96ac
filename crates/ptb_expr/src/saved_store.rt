// This file has the saved form of a store: its values in little memory.

ghost use Rattle.std.specs.Prelude.{◌≡◌, ◌≤◌, ◌↔◌, ℕ, length, pos, replicate, IsOk, IsTrue};
ghost use Rattle.std.specs.Prelude.{OnOk, OnErr};
ghost use Rattle.ptb_expr.specs.SavedStores.{with_zeros};
ghost use Rattle.ptb_expr.specs.Store.{IsZeroFrom, empty_cells};

use crate::store::{Store, mixed};
use std::alloc::{AllocError, Global};
use std::marker::Model;

/// The values of a store. It takes memory only for the elements up to the last one in use.
#[derive(Drop)]
pub struct SavedStore {
    size: i16,
    values: [i16; 26],
    // The first elements of the array. Those after them are 0.
    elements: Vec<i16>,
}

impl Model for SavedStore {
    ghost use Rattle.std.specs.Prelude.{◌≡◌, ◌+◌, ◌/◌, ◌≤◌, pos, ◌≤ℤ◌, length, unsigned_abs, vec_len};
    ghost use Rattle.ptb_expr.specs.SavedStores.{with_zeros};
    ghost use Rattle.ptb_expr.specs.Store.{Cells};

    ghost Value = { Cells };

    ghost view = { λ s. record {
      size = s.size;
      values = s.values;
      elements = with_zeros (unsigned_abs s.size / 2 + 1) s.elements.items;
    } };

    ghost invariant = { λ s. (length s.values ≡ 26) × (pos 0 ≤ℤ s.size)
        × (vec_len s.elements ≤ unsigned_abs s.size / 2 + 1) };
}

// Puts values in front, and zeros after them: up to a place after which all are 0.
fn put_front(values: &mut [i16], front: &[i16], used: usize)
    requires fits { length front.now ≤ length values.old }
    requires within { used ≤ length values.old }
    requires zeros { IsZeroFrom used values.old }
    ensures { values.new ≡ with_zeros (length values.old) front.now }
{
    values[..front.len()].copy_from_slice(front);
    let end = used.max(front.len());
    let mut at = front.len();
    'zeros: while at < end {
        values[at] = 0;
        at += 1;
    }
}

// Whether all values are 0.
fn is_zero(values: &[i16]) -> bool
    ensures { IsTrue result ↔ (values.now ≡ replicate (length values.now) (pos 0)) }
{
    for i in 0..values.len() {
        if values[i] != 0 {
            return false;
        }
    }
    true
}

// Whether values are those in front, and zeros after them.
fn is_prefix(front: &[i16], values: &[i16]) -> bool
    requires { length front.now ≤ length values.now }
    ensures { (count : ℕ) → length values.now ≤ count
        → IsTrue result ↔ (with_zeros count front.now ≡ with_zeros count values.now) }
{
    let (start, rest) = (&values[..front.len()], &values[front.len()..]);
    start == front && is_zero(rest)
}

// Whether values are the same as others, where those after the last one are 0.
fn is_same_with_zeros(values: &[i16], others: &[i16]) -> bool
    ensures { (count : ℕ) → length values.now ≤ count → length others.now ≤ count
        → IsTrue result ↔ (with_zeros count values.now ≡ with_zeros count others.now) }
{
    if values.len() <= others.len() {
        is_prefix(values, others)
    } else {
        is_prefix(others, values)
    }
}

impl SavedStore {
    /// A store of zeros without memory, where SIZE is 0.
    pub fn new(alloc: Global) -> SavedStore
        ensures { result ≡ empty_cells (pos 0) }
    {
        SavedStore {
            size: 0,
            values: [0; 26],
            elements: Vec::new(alloc),
        }
    }

    /// Replaces its values with those of a store.
    ///
    /// # Errors
    ///
    /// Where the elements are refused memory. The contents are then unspecified.
    pub fn save(&mut self, store: &Store) -> Result<(), AllocError>
        ensures { OnOk result (self.new ≡ store.now) }
    {
        self.elements.clear();
        self.size = store.size;
        self.values = store.values;
        self.elements
            .extend_from_slice(&store.elements[..store.used])
    }

    /// Whether another one has the same SIZE and holds the same values.
    pub fn is_same(&self, other: &SavedStore) -> bool
        ensures { IsTrue result ↔ (self.now ≡ other.now) }
    {
        if other.size != self.size {
            return false;
        }
        self.values == other.values && is_same_with_zeros(&self.elements, &other.elements)
    }

    /// A number that is the same for those that hold the same. Others seldom have it, too.
    pub fn hash(&self) -> u64 {
        let variables = mixed(&self.values, 1);
        mixed(&self.elements, variables)
    }
}

impl Store {
    /// Replaces its values with those that were saved. It takes no memory where both have the same
    /// SIZE.
    ///
    /// # Errors
    ///
    /// Where the array is refused memory. Its values stay then.
    pub fn restore(&mut self, alloc: Global, saved: &SavedStore) -> Result<(), AllocError>
        ensures ok { OnOk result (self.new ≡ saved.now) }
        ensures same_size { self.old.size ≡ saved.now.size → IsOk result }
        ensures err { OnErr result (self.new ≡ self.old) }
    {
        if self.size != saved.size {
            *self = Store::new(alloc, saved.size)?;
        }
        put_front(&mut self.elements, &saved.elements, self.used);
        self.values = saved.values;
        self.used = saved.elements.len();
        Ok(())
    }
}
