// This file has the values of the variables A to Z and of the array @, and what names one of them.

ghost use Rattle.std.specs.Prelude.{◌≡◌, ◌≤◌, ℕ, ℤ, pos, ◌≤ℤ◌, IfOk, IsOk, OnOk, OnErr};
ghost use Rattle.std.specs.Prelude.{◌++◌, length, take, drop};
ghost use Rattle.ptb_expr.specs.Store.{value_at, with_value, index_of, element_of, with_element};
ghost use Rattle.ptb_expr.specs.Store.{empty_cells};

use crate::fault::FaultKind;
use ptb_text::Letter;
use std::alloc::{AllocError, Global};
use std::marker::Model;

/// What a value can be stored in.
#[derive(Clone, Copy, Debug, PartialEq, Eq)]
pub enum Target {
    /// A variable, by its letter.
    Var(Letter),
    /// An element of `@`, by its index, 0 to SIZE/2.
    Element(i16),
}

/// The values of the variables A to Z, and of the array `@` from index 0 to half of SIZE.
#[derive(Drop)]
pub struct Store {
    pub(crate) size: i16,
    pub(crate) values: [i16; 26],
    pub(crate) elements: Vec<i16>,
    /// How many of the first elements a copy takes over: those after them are 0.
    pub(crate) used: usize,
}

// Takes over as many of the first values of others.
fn copy_front(values: &mut [i16], others: &[i16], count: usize)
    requires same_length { length values.old ≡ length others.now }
    requires within { count ≤ length others.now }
    ensures { values.new ≡ take count others.now ++ drop count values.old }
{
    if count == 0 {
        return;
    }
    values[..count].copy_from_slice(&others[..count]);
}

// Mixes values into a number. Zeros at the end change nothing.
pub(crate) fn mixed(values: &[i16], start: u64) -> u64 {
    let mut sum = start;
    let mut factor = start | 1;
    for value in values {
        factor = factor.wrapping_mul(0x9E37_79B9_7F4A_7C15);
        let word = if *value < 0 { 0x1_0000 } else { 0 };
        let word = u64::from(value.unsigned_abs()).wrapping_add(word);
        sum = sum.wrapping_add(factor.wrapping_mul(word));
    }
    sum
}

impl Model for Store {
    ghost use Rattle.std.specs.Prelude.{◌≡◌, ◌+◌, ◌/◌, ◌≤◌, pos, ◌≤ℤ◌, length, unsigned_abs, vec_len};
    ghost use Rattle.ptb_expr.specs.Store.{Cells, IsZeroFrom};

    ghost Value = { Cells };

    ghost view = { λ s. record { size = s.size; values = s.values; elements = s.elements.items } };

    ghost invariant = { λ s. (length s.values ≡ 26) × (pos 0 ≤ℤ s.size)
        × (vec_len s.elements ≡ unsigned_abs s.size / 2 + 1)
        × (s.used ≤ vec_len s.elements) × IsZeroFrom s.used s.elements.items × (s.size ≤ℤ pos 32767) };
}

impl Store {
    /// A store of zeros, where SIZE is `size`, which is at least 0.
    ///
    /// # Errors
    ///
    /// Where the array is refused memory.
    pub fn new(alloc: Global, size: i16) -> Result<Store, AllocError>
        requires { pos 0 ≤ℤ size }
        ensures { IfOk result (λ s. s ≡ empty_cells size) }
    {
        let mut elements = Vec::new(alloc);
        elements.resize(size as usize / 2 + 1, 0)?;
        Ok(Store {
            size,
            values: [0; 26],
            elements,
            used: 0,
        })
    }

    /// A store with the same values.
    ///
    /// # Errors
    ///
    /// Where the array is refused memory.
    pub fn copy(&self, alloc: Global) -> Result<Store, AllocError>
        ensures { IfOk result (λ s. s ≡ self.now) }
    {
        Ok(Store {
            size: self.size,
            values: self.values,
            elements: Vec::from_slice(alloc, &self.elements)?,
            used: self.used,
        })
    }

    /// Replaces its values with those of another store. It takes no memory where both have the same
    /// SIZE.
    ///
    /// # Errors
    ///
    /// Where the array is refused memory. Its values stay then.
    #[inline(always)]
    pub fn copy_from(&mut self, alloc: Global, other: &Store) -> Result<(), AllocError>
        ensures ok { OnOk result (self.new ≡ other.now) }
        ensures same_size { self.old.size ≡ other.now.size → IsOk result }
        ensures err { OnErr result (self.new ≡ self.old) }
    {
        if self.size != other.size {
            *self = other.copy(alloc)?;
            return Ok(());
        }
        let used = self.used.max(other.used);
        self.values = other.values;
        copy_front(&mut self.elements, &other.elements, used);
        self.used = other.used;
        Ok(())
    }

    /// SIZE.
    pub fn size(&self) -> i16
        ensures { result ≡ self.now.size }
    {
        self.size
    }

    /// The value of a variable.
    pub fn get(&self, letter: Letter) -> i16
        ensures { result ≡ value_at self.now letter }
    {
        let at = letter.index();
        self.values[at]
    }

    /// Stores the value of a variable.
    pub fn set(&mut self, letter: Letter, value: i16)
        ensures { self.new ≡ with_value self.old letter value }
    {
        self.values[letter.index()] = value;
    }

    /// The index itself, if the array has an element there.
    ///
    /// # Errors
    ///
    /// `How` below 0, and `Sorry` above half of SIZE.
    pub fn index(&self, index: i16) -> Result<i16, FaultKind>
        ensures { result ≡ index_of self.now.size index }
    {
        // as an unsigned number, an index below 0 is past every array: one comparison is enough
        if usize::from(index.cast_unsigned()) < self.elements.len() {
            return Ok(index);
        }
        if index < 0 {
            return Err(FaultKind::How);
        }
        Err(FaultKind::Sorry)
    }

    /// The element at an index.
    ///
    /// # Errors
    ///
    /// Those of [`Store::index`].
    pub fn element(&self, index: i16) -> Result<i16, FaultKind>
        ensures { result ≡ element_of self.now index }
    {
        let index = self.index(index)?;
        Ok(self.elements[usize::from(index.cast_unsigned())])
    }

    /// Stores an element at an index that the array has.
    pub fn set_element(&mut self, index: i16, value: i16)
        requires { index_of self.old.size index ≡ Ok index }
        ensures { self.new ≡ with_element self.old index value }
    {
        let at = usize::from(index.cast_unsigned());
        self.elements[at] = value;
        if at < self.used {
            return;
        }
        self.used = at + 1;
    }
}
