// This file has the control stack: the loops and calls that are open.

ghost use Rattle.std.specs.Prelude.{◌≡◌, ◌+◌, ◌<◌, ◌≤◌, ◌↔◌, [], ◌∷◌, ◌++◌, length, reverse, take, IfSome, IsSome};
ghost use Rattle.std.specs.Prelude.{IsTrue, IsFalse, MatchBool, Some, None, option_map};
ghost use Rattle.ptb_command.specs.Prelude.{OpenLoop, FindsOpen, call_of, loop_of, newest_loop, newest_return, without};
ghost use Rattle.ptb_command.specs.Prelude.{ClosesCall, ClosesNewer, ClosesNewest, nesting_limit};

use crate::location::Location;
use arrayvec::ArrayVec;
use ptb_text::Letter;
use std::marker::Model;

/// How many loops and calls may be open together.
pub(crate) const NESTING_LIMIT: usize = 256;

/// An open FOR.
// The place is the first field: after the smaller ones it would be copied together with the gap before
// it and read back late, and NEXT would take 17 ns instead of 11.
#[derive(Clone, Copy)]
pub struct OpenLoop {
    /// The command after the FOR, where each turn begins.
    pub back: Location,
    /// Its variable.
    pub letter: Letter,
    /// The loop ends when its variable goes past this.
    pub limit: i16,
    /// What NEXT adds to its variable.
    pub step: i16,
}

/// An open FOR or GOSUB.
#[derive(Clone, Copy)]
pub enum Open {
    /// An open FOR.
    Loop(OpenLoop),
    /// An open GOSUB, and the command after it, to which RETURN goes back.
    Call(Location),
}

// a place of the control stack that is not in use
impl Default for Open {
    fn default() -> Self {
        Open::Call(Location {
            statement: 0,
            offset: 0,
        })
    }
}

/// The loops and calls that are open, at most 256 together.
///
/// Contracts see them as a list, newest first.
#[derive(Drop)]
pub struct Stack {
    // newest last
    pub(crate) opens: ArrayVec<Open, NESTING_LIMIT>,
}

impl Model for Stack {
    ghost use Rattle.std.specs.Prelude.{List, reverse};
    ghost use Rattle.ptb_command.specs.declared.stack.Open.{Open};

    ghost Value = { List Open };

    ghost view = { λ s. reverse s.opens.items };
}

impl Stack {
    /// Nothing is open.
    pub fn new() -> Stack
        ensures { result ≡ [] }
    {
        Stack {
            opens: ArrayVec::new(),
        }
    }

    /// A stack with the same loops and calls.
    pub fn copy(&self) -> Stack
        ensures { result ≡ self.now }
    {
        let mut copy = Stack::new();
        copy.copy_from(self);
        copy
    }

    /// Replaces its loops and calls with those of another stack.
    pub fn copy_from(&mut self, other: &Stack)
        ensures { self.new ≡ other.now }
    {
        self.opens.clear();
        if other.is_empty() {
            return;
        }
        let _ = self.opens.try_extend_from_slice(other.opens.as_slice());
    }

    /// Whether nothing is open.
    pub fn is_empty(&self) -> bool
        ensures { IsTrue result ↔ (self.now ≡ []) }
    {
        self.opens.is_empty()
    }

    /// Opens a call, where there is room for one more; whether there is. Without room nothing is
    /// changed.
    pub fn open_call(&mut self, back: Location) -> bool
        ensures { MatchBool result
            ((self.new ≡ Open.Call back ∷ self.old) × (length self.old < nesting_limit))
            ((self.new ≡ self.old) × (nesting_limit ≤ length self.old)) }
    {
        self.add(Open::Call(back))
    }

    /// Opens a loop, where there is room for one more; whether there is. The loop of its variable in
    /// the newest level is removed first; where one was, there is room, so that without room nothing is
    /// changed.
    pub fn open_loop(&mut self, item: OpenLoop) -> bool
        ensures opens { MatchBool result
            ((self.new ≡ Open.Loop item ∷ without item.letter self.old)
            × (length (without item.letter self.old) < nesting_limit))
            ((self.new ≡ without item.letter self.old)
            × (nesting_limit ≤ length (without item.letter self.old))) }
        ensures full { IsFalse result → self.new ≡ self.old }
    {
        self.remove_loops(item.letter);
        self.add(Open::Loop(item))
    }

    /// Closes the newest call with the loops above it, and gives the place to which it returns.
    /// Where no call is open, nothing is closed.
    #[inline(always)]
    pub fn close_call(&mut self) -> Option<Location>
        ensures { ClosesCall self.old self.new result }
    {
        if !self.bring_call() {
            return None;
        }
        let back = self.newest_return()?;
        self.close_newest();
        Some(back)
    }

    /// Closes the loops that are newer than the newest level's loop of a variable, and gives that
    /// loop, which stays open. Where there is none, nothing is closed.
    #[inline(always)]
    pub fn close_newer(&mut self, letter: Letter) -> Option<OpenLoop>
        ensures { ClosesNewer letter self.old self.new result }
    {
        // most often it is the newest, and nothing need be looked for
        if self.is_newest(letter) {
            return self.newest();
        }
        if !self.close_above(letter) {
            return None;
        }
        self.newest()
    }

    /// Where a turn of the newest level's loop of a variable begins; `None` where there is no such loop.
    pub fn loop_back(&self, letter: Letter) -> Option<Location>
        ensures { result ≡ option_map (λ x. x.0.back) (loop_of letter self.now) }
    {
        let (_, item) = newest_loop(self.opens.as_slice(), letter)?;
        Some(item.back)
    }

    /// Closes the newest loop or call, if one is open.
    ///
    /// Public so that tests can try it.
    pub fn close_newest(&mut self)
        ensures { ClosesNewest self.old self.new }
    {
        self.opens.pop();
    }

    // The place to which the newest of all returns, if it is a call.
    #[inline(always)]
    fn newest_return(&self) -> Option<Location>
        ensures { result ≡ newest_return self.now }
    {
        let newest = self.opens.as_slice().last()?;
        match *newest {
            Open::Call(back) => Some(back),
            Open::Loop(_) => None,
        }
    }

    // Whether the newest of all is a call.
    #[inline(always)]
    fn is_call_newest(&self) -> bool
        ensures { IsTrue result → IsSome (newest_return self.now) }
    {
        self.newest_return().is_some()
    }

    // Closes the loops that are newer than the newest call; whether there is a call. Where there is
    // none, nothing is closed.
    #[inline(always)]
    fn bring_call(&mut self) -> bool
        ensures { MatchBool result
            (IsSome (newest_return self.new) × (call_of self.new ≡ call_of self.old))
            (ClosesCall self.old self.new None) }
    {
        // most often no loop is open above it, and nothing need be looked for
        if self.is_call_newest() {
            return true;
        }
        self.close_above_call()
    }

    // The same wherever the newest call is. Not inlined, so that the code for the newest of all
    // stays short.
    #[inline(never)]
    fn close_above_call(&mut self) -> bool
        ensures { MatchBool result
            (IsSome (newest_return self.new) × (call_of self.new ≡ call_of self.old))
            (ClosesCall self.old self.new None) }
    {
        let Some((below, _)) = newest_call(self.opens.as_slice()) else {
            return false;
        };
        let kept = below + 1;
        self.opens.truncate(kept);
        true
    }

    // The newest of all, if it is a loop.
    #[inline(always)]
    fn newest(&self) -> Option<OpenLoop>
        ensures { result ≡ newest_loop self.now }
    {
        match *self.opens.as_slice().last()? {
            Open::Loop(item) => Some(item),
            Open::Call(_) => None,
        }
    }

    // Whether the newest of all is a loop of a variable.
    #[inline(always)]
    fn is_newest(&self, letter: Letter) -> bool
        ensures { IsTrue result → (item : OpenLoop) × ClosesNewer letter self.now self.now (Some item) }
    {
        match self.newest() {
            Some(item) => item.letter == letter,
            None => false,
        }
    }

    // Closes the loops that are newer than the newest level's loop of a variable; whether there is that
    // loop. Where there is none, nothing is closed. Not inlined, so that the code for the newest of all
    // stays short.
    #[inline(never)]
    fn close_above(&mut self, letter: Letter) -> bool
        ensures { MatchBool result
            ((item : OpenLoop) × ClosesNewer letter self.old self.new (Some item))
            (ClosesNewer letter self.old self.new None) }
    {
        let Some((below, _)) = newest_loop(self.opens.as_slice(), letter) else {
            return false;
        };
        self.opens.truncate(below + 1);
        true
    }

    // Adds a loop or a call, where there is room for one more; whether there is.
    fn add(&mut self, item: Open) -> bool
        ensures { MatchBool result
            ((self.new ≡ item ∷ self.old) × (length self.old < nesting_limit))
            ((self.new ≡ self.old) × (nesting_limit ≤ length self.old)) }
    {
        if self.opens.is_full() {
            return false;
        }
        self.opens.push(item);
        true
    }

    // Removes the loops of a variable in the newest level.
    fn remove_loops(&mut self, letter: Letter)
        ensures removed { self.new ≡ without letter self.old }
        ensures few { length self.old ≤ nesting_limit }
    {
        let mut k = self.opens.len();
        'levels: while k > 0 {
            k -= 1;
            let Open::Loop(open) = self.opens[k] else {
                return;
            };
            if open.letter == letter {
                self.opens.remove(k);
            }
        }
    }
}

// Whether two are the same loop or call.
#[tactic(auto, using(crate::proofs::Sameness::same_loop))]
fn same_open(one: Open, other: Open) -> bool
    ensures { IsTrue result ↔ (one ≡ other) }
{
    match (one, other) {
        (Open::Call(one), Open::Call(other)) => one.is_same(other),
        (Open::Loop(one), Open::Loop(other)) => {
            one.back.is_same(other.back)
                && one.letter == other.letter
                && one.limit == other.limit
                && one.step == other.step
        }
        (Open::Call(_), Open::Loop(_)) => false,
        (Open::Loop(_), Open::Call(_)) => false,
    }
}

// A number that is the same for the same loops and calls. Others may have it, too.
pub(crate) fn hash_of_opens(opens: &[Open]) -> u64 {
    let mut sum = opens.len() as u64;
    for open in opens {
        let (back, letter, value) = match *open {
            Open::Call(back) => (back, 0, 0),
            Open::Loop(item) => (item.back, item.letter.index() as u64, item.limit),
        };
        sum = sum
            .wrapping_mul(0x9E37_79B9_7F4A_7C15)
            .wrapping_add(letter)
            .wrapping_mul(0x9E37_79B9_7F4A_7C15)
            .wrapping_add(u64::from(value.unsigned_abs()))
            .wrapping_mul(0x9E37_79B9_7F4A_7C15)
            .wrapping_add(back.hash());
    }
    sum
}

// Whether loops and calls are the same as others.
pub(crate) fn same_opens(opens: &[Open], others: &[Open]) -> bool
    ensures { IsTrue result ↔ (opens.now ≡ others.now) }
{
    if opens.len() != others.len() {
        return false;
    }
    for i in 0..opens.len() {
        if !same_open(opens[i], others[i]) {
            return false;
        }
    }
    true
}

// How many are open below the newest call, and the place to which it returns.
fn newest_call(opens: &[Open]) -> Option<(usize, Location)>
    ensures { FindsOpen Open.Call opens.now (call_of (reverse opens.now)) result }
{
    let mut k = opens.len();
    'levels: while k > 0 {
        k -= 1;
        if let Open::Call(back) = opens[k] {
            return Some((k, back));
        }
    }
    None
}

// How many are open below the newest level's loop of a variable, and that loop.
fn newest_loop(opens: &[Open], letter: Letter) -> Option<(usize, OpenLoop)>
    ensures { FindsOpen Open.Loop opens.now (loop_of letter (reverse opens.now)) result }
{
    let mut k = opens.len();
    'levels: while k > 0 {
        k -= 1;
        let Open::Loop(open) = opens[k] else {
            return None;
        };
        if open.letter == letter {
            return Some((k, open));
        }
    }
    None
}
