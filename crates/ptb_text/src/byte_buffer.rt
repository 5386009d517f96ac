// This file has a buffer of bytes that wait to be written or shown. Its capacity is fixed, and it takes
// no memory.

ghost use Rattle.std.specs.Prelude.{◌≡◌, ◌↔◌, ◌+◌, ◌<◌, ◌≤◌, ◌∷◌, ◌++◌, [], length, take};
ghost use Rattle.std.specs.Prelude.{IsTrue, IsFalse};

use std::marker::Model;

/// At most `N` bytes, in the value itself: no memory is taken. Contracts see the bytes.
///
/// Bytes that are cut away stay in their places and are written over, so a cut costs nothing.
#[derive(Drop)]
pub struct ByteBuffer<const N: usize> {
    bytes: [u8; N],
    count: usize,
}

impl<const N: usize> Model for ByteBuffer<N> {
    ghost use Rattle.std.specs.Prelude.{◌≡◌, ◌≤◌, List, ℕ, take, length};

    ghost Value = { List ℕ };

    ghost view = { λ b. take b.count b.bytes };

    ghost invariant = { λ b. (length b.bytes ≡ N) × (b.count ≤ N) };
}

impl<const N: usize> ByteBuffer<N> {
    /// No bytes.
    pub fn new() -> Self
        ensures { result ≡ [] }
    {
        ByteBuffer {
            bytes: [0; N],
            count: 0,
        }
    }

    /// How many bytes it has.
    #[inline(always)]
    pub fn len(&self) -> usize
        ensures value { result ≡ length self.now }
        ensures fits { result ≤ N }
    {
        N - self.room()
    }

    /// How many bytes there is still room for.
    #[inline(always)]
    pub fn room(&self) -> usize
        ensures { length self.now + result ≡ N }
    {
        N - self.count
    }

    /// The bytes.
    #[inline(always)]
    pub fn as_slice(&self) -> &[u8]
        ensures { result.now ≡ self.now }
    {
        &self.bytes[..self.count]
    }

    /// Keeps the first `count` bytes, and drops the others.
    #[inline(always)]
    pub fn cut(&mut self, count: usize)
        requires { count ≤ length self.old }
        ensures { self.new ≡ take count self.old }
    {
        self.count = count;
    }

    /// Drops all bytes.
    #[inline(always)]
    pub fn clear(&mut self)
        ensures { self.new ≡ [] }
    {
        self.count = 0;
    }

    /// Adds a byte.
    #[inline(always)]
    pub fn push(&mut self, byte: u8)
        requires { length self.old < N }
        ensures { self.new ≡ self.old ++ byte ∷ [] }
    {
        // the count is read first: after the store, the compiler would have to read it again
        let at = self.count;
        self.bytes[at] = byte;
        self.count = at + 1;
    }

    /// Adds bytes. There must be room for all of them.
    #[inline(always)]
    pub fn append(&mut self, bytes: &[u8])
        requires { length self.old + length bytes.now ≤ N }
        ensures { self.new ≡ self.old ++ bytes.now }
    {
        // no byte, or one, as most strings and prompts have, costs less than a call that copies it
        match bytes {
            [] => {}
            [byte] => self.push(*byte),
            _ => self.copy(bytes),
        }
    }

    // Adds bytes by a call that copies them.
    #[inline(always)]
    fn copy(&mut self, bytes: &[u8])
        requires { length self.old + length bytes.now ≤ N }
        ensures { self.new ≡ self.old ++ bytes.now }
    {
        let from = self.count;
        let to = from + bytes.len();
        let all = &mut self.bytes[..];
        all[from..to].copy_from_slice(bytes);
        self.count = to;
    }

    /// Adds bytes, if there is room for all of them. Whether there was.
    #[inline(always)]
    pub fn try_append(&mut self, bytes: &[u8]) -> bool
        ensures taken { IsTrue result → self.new ≡ self.old ++ bytes.now }
        ensures full { IsFalse result → self.new ≡ self.old }
        ensures room { IsTrue result ↔ (length self.old + length bytes.now ≤ N) }
    {
        let room = self.room();
        match bytes {
            [] => true,
            [byte] => {
                if room == 0 {
                    return false;
                }
                self.push(*byte);
                true
            }
            _ => {
                if bytes.len() > room {
                    return false;
                }
                self.copy(bytes);
                true
            }
        }
    }
}
