// This file tests expressions, variables, the store and the choosers, by worked rows.

ghost use Rattle.std.specs.Prelude.{◌≡◌, ◌≤◌, ◌≤ℤ◌, length, pos, take, Some, IsTrue};
ghost use Rattle.ptb_text.specs.Words.{is_letter};

use crate::tests::shared::{Row, expect_rows, expect_same, table};
use ptb_explore::Asked;
use ptb_expr::{
    Chooser, Fault, FaultKind, Listed, Operator, Pause, SavedStore, Seeded, ShortValue, Step,
    Steps, Stop, Store, Target, answer_to, evaluate, plain_value, read_value, single_value, target,
};
use ptb_text::{Cursor, Letter};
use rand_core::utils::NextWord;
use rand_pcg::Lcg64Xsh32;
use std::alloc::{AllocError, Global};
use std::process::Abort;

// The letter of a byte that is one.
fn letter(byte: u8) -> Letter
    requires { IsTrue (is_letter byte) }
    ensures { result ≡ byte }
{
    Letter::new(byte).unwrap()
}

// A store of zeros, with a SIZE of 4.
fn make_store(rt: &impl Abort, alloc: Global) -> Store {
    Store::new(alloc, 4).expect(rt, "memory")
}

// What an expression gives: its value and the place after it, its fault and the mark of that, or why
// it pauses.
#[derive(Clone, Copy)]
enum Due {
    Value(i16, usize),
    Fault(FaultKind, usize),
    Pause(Pause),
}

// Whether a result is due, with the cursor at this place.
fn is_due(found: Result<i16, Stop>, place: usize, due: Due) -> bool {
    match due {
        Due::Value(value, after) => found == Ok(value) && place == after,
        Due::Fault(kind, mark) => found == Err(Stop::Fault(Fault { kind, mark })),
        Due::Pause(pause) => found == Err(Stop::Pause(pause)),
    }
}

// Whether a text gives this with these answers, of which so many are left.
fn is_worth(store: &Store, text: &[u8], answers: &[i16], due: Due, left: usize) -> bool {
    if text.len() > 255 {
        return false;
    }
    let mut cursor = Cursor::new(text, 0);
    let mut list = Listed::new(answers);
    let found = evaluate(&mut cursor, store, &mut list);
    is_due(found, cursor.place(), due) && list.left() == left
}

// A text, the answers given, what it gives, and how many answers are left.
struct Expression(&'static [u8], &'static [i16], Due, usize);

impl Row<Store> for Expression {
    fn holds(&self, store: &Store) -> bool {
        is_worth(store, self.0, self.1, self.2, self.3)
    }
}

const VALUES: &[Expression] = table! { Expression:
    (b"7 <=  8", &[], Due::Value(1, 7), 0),
    (b"@(2)", &[], Due::Value(0, 4), 0),
    (b"2/3", &[], Due::Value(0, 3), 0),
    (b"B=0", &[], Due::Value(1, 3), 0),
    (b"1<2<3", &[], Due::Value(1, 3), 0),
    (b"-(-32767-1)*0", &[], Due::Value(0, 13), 0),
    (b"2+3 X", &[], Due::Value(5, 4), 0),
    (b"5)", &[], Due::Value(5, 1), 0),
    (b"5(", &[], Due::Value(5, 1), 0),
    (b"  SIZE", &[], Due::Value(4, 6), 0),
    (b"(0-7)/(0-2)", &[], Due::Value(3, 11), 0),
    (b"+5- 3", &[], Due::Value(2, 5), 0),
    (b"RN(6)", &[], Due::Value(0, 1), 0),
    (b"R(6)", &[], Due::Value(0, 1), 0),
    (b"AB.(-3)", &[], Due::Value(3, 7), 0),
    (b"SIZE(1)", &[], Due::Value(4, 4), 0),
    (b"0012 3", &[], Due::Value(12, 5), 0),
    (b"3>=3", &[], Due::Value(1, 4), 0),
    (b"3#3", &[], Due::Value(0, 3), 0),
    (b"2<3=1", &[], Due::Value(1, 3), 0),
    (b"(2<3)=1", &[], Due::Value(1, 7), 0),
    (b"-1>0", &[], Due::Value(0, 4), 0),
    (b"-32767-1", &[], Due::Value(-32768, 8), 0),
    (b"-123", &[], Due::Value(-123, 4), 0),
    (b"(0-7)/2", &[], Due::Value(-3, 7), 0),
    (b"2*(3+4)/S.-A.(0-5)", &[], Due::Value(-2, 18), 0),
    (b"8/2*2-7-3", &[], Due::Value(-2, 9), 0),
    (b"-7/2*2", &[], Due::Value(-6, 6), 0),
    (b"-32767*1", &[], Due::Value(-32767, 8), 0),
};

const FAULTS: &[Expression] = table! { Expression:
    (b"2*-3", &[], Due::Fault(FaultKind::What, 2), 0),
    (b"7> =8", &[], Due::Fault(FaultKind::What, 3), 0),
    (b"(3+4", &[], Due::Fault(FaultKind::What, 4), 0),
    (b"(3+4, X=4", &[], Due::Fault(FaultKind::What, 4), 0),
    (b"5+ ", &[], Due::Fault(FaultKind::What, 3), 0),
    (b" ", &[], Due::Fault(FaultKind::What, 0), 0),
    (b"R. 6", &[], Due::Fault(FaultKind::What, 3), 0),
    (b"+-1", &[], Due::Fault(FaultKind::What, 1), 0),
    (b"--1", &[], Due::Fault(FaultKind::What, 1), 0),
    (b"RND", &[], Due::Fault(FaultKind::What, 3), 0),
    (b"@ ", &[], Due::Fault(FaultKind::What, 2), 0),
    (b"A.(", &[], Due::Fault(FaultKind::What, 3), 0),
    (b"R.(0", &[], Due::Fault(FaultKind::What, 4), 0),
    (b"@(3 ", &[], Due::Fault(FaultKind::What, 4), 0),
    (b"1>= ", &[], Due::Fault(FaultKind::What, 4), 0),
    (b".1", &[], Due::Fault(FaultKind::What, 0), 0),
    (b"(1/0", &[], Due::Fault(FaultKind::How, 4), 0),
    (b"1/0", &[], Due::Fault(FaultKind::How, 3), 0),
    (b"32767+1", &[], Due::Fault(FaultKind::How, 7), 0),
    (b"32768 ", &[], Due::Fault(FaultKind::How, 6), 0),
    (b"200*200+2", &[], Due::Fault(FaultKind::How, 7), 0),
    (b"(-16384) *2 ", &[], Due::Fault(FaultKind::How, 12), 0),
    (b"(-32767-1)/1", &[], Due::Fault(FaultKind::How, 12), 0),
    (b"(-32767-1)/(0-1)", &[], Due::Fault(FaultKind::How, 16), 0),
    (b"-32768", &[], Due::Fault(FaultKind::How, 6), 0),
    (b"-32767-2", &[], Due::Fault(FaultKind::How, 8), 0),
    (b"0-32767-1-1+1", &[], Due::Fault(FaultKind::How, 11), 0),
    (b"-(-32767-1)", &[], Due::Fault(FaultKind::How, 11), 0),
    (b"-2*16384", &[], Due::Fault(FaultKind::How, 8), 0),
    (b"A.(-32767-1)", &[], Due::Fault(FaultKind::How, 12), 0),
    (b"R.(0)", &[], Due::Fault(FaultKind::How, 5), 0),
    (b"@(-1)", &[], Due::Fault(FaultKind::How, 5), 0),
    (b"@(32767) ", &[], Due::Fault(FaultKind::Sorry, 9), 0),
    (b"@(3)", &[], Due::Fault(FaultKind::Sorry, 4), 0),
};

const TWO_QUESTIONS: &[u8] = b"R.(6)+R.(6)";

const ANSWERS: &[Expression] = table! { Expression:
    (TWO_QUESTIONS, &[2, 5], Due::Value(7, 11), 0),
    (TWO_QUESTIONS, &[2, 5, 3], Due::Value(7, 11), 1),
    (TWO_QUESTIONS, &[6, 1, 9], Due::Value(7, 11), 1),
    (TWO_QUESTIONS, &[2], Due::Pause(Pause::Ended), 0),
    (TWO_QUESTIONS, &[], Due::Pause(Pause::Ended), 0),
    (TWO_QUESTIONS, &[7], Due::Pause(Pause::OutOfRange(7)), 1),
    (TWO_QUESTIONS, &[-1], Due::Pause(Pause::OutOfRange(-1)), 1),
    (TWO_QUESTIONS, &[2, 7], Due::Pause(Pause::OutOfRange(7)), 1),
    (TWO_QUESTIONS, &[0], Due::Pause(Pause::OutOfRange(0)), 1),
};

// A question comes before what is wrong after it, and after what is wrong before it.
const QUESTIONS: &[Expression] = table! { Expression:
    (b"R.(9)-R.(9)", &[2, 5], Due::Value(-3, 11), 0),
    (b"R.(R.(9))", &[5, 4], Due::Value(4, 9), 0),
    (b"R.(1)", &[1], Due::Value(1, 5), 0),
    (b"R.(1)", &[], Due::Pause(Pause::Ended), 0),
    (b"R.(32767)", &[32767], Due::Value(32767, 9), 0),
    (b"R.(6)+?", &[], Due::Pause(Pause::Ended), 0),
    (b"2>R.(2)", &[2], Due::Value(0, 7), 0),
    (b"R.(6)+?", &[3], Due::Fault(FaultKind::What, 6), 0),
    (b"R.(6)/0", &[3], Due::Fault(FaultKind::How, 7), 0),
    (b"1/0+R.(6)", &[3], Due::Fault(FaultKind::How, 3), 1),
    (b"R.(6", &[3], Due::Fault(FaultKind::What, 4), 1),
    (b"(R.(6)", &[3], Due::Fault(FaultKind::What, 6), 0),
    (b"R.(-1)", &[3], Due::Fault(FaultKind::How, 6), 1),
    (b"@(R.(6))", &[3], Due::Fault(FaultKind::Sorry, 8), 0),
};

// How deep and how long a text can be.
const LONG_TEXTS: &[Expression] = table! { Expression:
    (&[b'('; 253], &[], Due::Fault(FaultKind::What, 253), 0),
    (&[b'9'; 200], &[], Due::Fault(FaultKind::How, 200), 0),
    (&[b'0'; 200], &[], Due::Value(0, 200), 0),
};

// Whether 126 parentheses around 1 are worth 1, and 253 that are open have no value.
fn are_nested_worth(store: &Store) -> bool {
    let mut nested = [b'('; 253];
    nested[126] = b'1';
    for at in 127..253 {
        nested[at] = b')';
    }
    is_worth(store, &nested, &[], Due::Value(1, 253), 0)
        && value_there(store, &[b'('; 253]).is_none()
}

// A bound, the answers of a list, and the answer to a question with this bound, without an expression.
struct Question(i16, &'static [i16], Result<i16, Pause>);

impl Row<Store> for Question {
    fn holds(&self, _store: &Store) -> bool {
        let Question(bound, answers, wanted) = *self;
        if bound < 1 {
            return false;
        }
        match answer_to(bound, &mut Listed::new(answers)) {
            Ok(answer) => wanted == Ok(answer),
            Err(Stop::Pause(pause)) => wanted == Err(pause),
            Err(Stop::Fault(_)) => false,
        }
    }
}

const BOUNDED: &[Question] = table! { Question:
    (2, &[2, 1], Ok(2)),
    (1, &[1], Ok(1)),
    (2, &[], Err(Pause::Ended)),
    (2, &[3], Err(Pause::OutOfRange(3))),
    (2, &[0], Err(Pause::OutOfRange(0))),
};

// What a variable names: the letter of this byte, or an element; or its fault.
enum Name {
    Variable(u8),
    Element(i16),
    Fault(FaultKind),
}

// A text, what it names, and the place where the cursor is left, which is the mark of a fault.
struct Named(&'static [u8], Name, usize);

// The variable of the letter of a byte.
fn variable(byte: u8) -> Option<Target> {
    match Letter::new(byte) {
        Some(letter) => Some(Target::Var(letter)),
        None => None,
    }
}

// What naming this gives, with the cursor left at this place.
fn due_of(name: &Name, place: usize) -> Option<Result<Target, Stop>> {
    match *name {
        Name::Variable(byte) => Some(Ok(variable(byte)?)),
        Name::Element(index) => Some(Ok(Target::Element(index))),
        Name::Fault(kind) => Some(Err(Stop::Fault(Fault { kind, mark: place }))),
    }
}

impl Row<Store> for Named {
    fn holds(&self, store: &Store) -> bool {
        let Named(text, name, place) = self;
        if text.len() > 255 {
            return false;
        }
        let mut cursor = Cursor::new(text, 0);
        let found = target(&mut cursor, store, &mut Listed::new(&[]));
        Some(found) == due_of(name, *place) && cursor.place() == *place
    }
}

const NAMED: &[Named] = table! { Named:
    (b"B=1", Name::Variable(b'B'), 1),
    (b" @ (1+1) =", Name::Element(2), 9),
    (b"1", Name::Fault(FaultKind::What), 0),
    (b" @ ", Name::Fault(FaultKind::What), 3),
    (b"@(-1)", Name::Fault(FaultKind::How), 5),
    (b"@(3)", Name::Fault(FaultKind::Sorry), 4),
};

#[test]
fn expressions(rt: HostRuntime) {
    let store = make_store(&rt, rt.alloc());
    expect_rows(&rt, "values", &store, VALUES);
    expect_rows(&rt, "faults", &store, FAULTS);
    expect_rows(&rt, "answers", &store, ANSWERS);
    expect_rows(&rt, "questions in order", &store, QUESTIONS);
    expect_rows(&rt, "long texts", &store, LONG_TEXTS);
    expect_same(&rt, "nested", are_nested_worth(&store), true);
    expect_rows(&rt, "answers within a bound", &store, BOUNDED);
    expect_rows(&rt, "targets", &store, NAMED);
}

// A store with a SIZE of 5, in which A is -7, Z is 9, and the element 2 is 12.
fn small_store(alloc: Global) -> Result<Store, AllocError> {
    let mut store = Store::new(alloc, 5)?;
    put(&mut store, b'A', -7);
    put(&mut store, b'Z', 9);
    put(&mut store, b'2', 12);
    Ok(store)
}

fn are_values_stored(store: &Store) -> bool {
    store.get(letter(b'A')) == -7
        && store.index(2) == Ok(2)
        && store.element(2) == Ok(12)
        && store.element(3) == Err(FaultKind::Sorry)
        && is_worth(store, b"Z-A*@(2)+S.", &[], Due::Value(98, 11), 0)
}

#[test]
fn stored_values(rt: HostRuntime) {
    let store = small_store(rt.alloc()).expect(&rt, "memory");
    expect_same(&rt, "values", are_values_stored(&store), true);
}

// Passes whether or not the array is refused memory.
#[test]
fn refused_array(rt: HostRuntime) {
    if let Ok(store) = Store::new(rt.alloc(), 5) {
        expect_same(&rt, "element", store.element(2), Ok(0));
    }
}

// What B, two elements and the SIZE of a store add up to.
fn is_sum(store: &Store, sum: i16) -> bool {
    is_worth(store, b"B+@(1)+@(2)+S.", &[], Due::Value(sum, 14), 0)
}

// A store with a SIZE of 9 takes the values of this one, whose sum is 24, or keeps its own.
fn is_taken_or_kept(alloc: Global, store: &Store) -> bool {
    match Store::new(alloc, 9) {
        Ok(mut other) => {
            let taken = other.copy_from(alloc, store).is_ok();
            is_sum(&other, if taken { 24 } else { 9 })
        }
        Err(AllocError) => true,
    }
}

// A copy keeps the values that are changed in this store, which then takes them back.
fn is_copied_back(alloc: Global, store: &mut Store) -> bool {
    match store.copy(alloc) {
        Ok(copy) => {
            put(store, b'B', 8);
            put(store, b'1', 5);
            is_sum(&copy, 24) && store.copy_from(alloc, &copy) == Ok(()) && is_sum(store, 24)
        }
        Err(AllocError) => true,
    }
}

// Passes whichever of its allocations is refused: what a store held is then as it was.
#[test]
fn copied_values(rt: HostRuntime) {
    if let Ok(mut store) = Store::new(rt.alloc(), 5) {
        put(&mut store, b'B', 7);
        put(&mut store, b'2', 12);
        expect_same(&rt, "a copy", is_copied_back(rt.alloc(), &mut store), true);
        expect_same(
            &rt,
            "another store",
            is_taken_or_kept(rt.alloc(), &store),
            true,
        );
    }
}

// The SIZE of a store, and what is stored in it. A letter names a variable, and a digit an element.
type Stored = (u8, &'static [(u8, i16)]);

// Two stores, and whether they hold the same.
struct Pair(Stored, Stored, bool);

const PAIRS: &[Pair] = table! { Pair:
    ((5, &[]), (5, &[]), true),
    ((5, &[(b'A', 7)]), (5, &[(b'A', 7)]), true),
    ((5, &[(b'A', 7)]), (5, &[(b'A', 8)]), false),
    ((5, &[(b'Z', 1)]), (5, &[]), false),
    ((5, &[(b'A', 7)]), (5, &[(b'B', 7)]), false),
    ((5, &[(b'2', 12)]), (5, &[(b'2', 12)]), true),
    ((5, &[(b'2', 12)]), (5, &[]), false),
    ((5, &[]), (5, &[(b'2', 12)]), false),
    ((5, &[(b'0', 3)]), (5, &[(b'0', -3)]), false),
    ((5, &[(b'0', 3)]), (5, &[(b'1', 3)]), false),
    ((5, &[(b'Z', 3)]), (5, &[(b'0', 3)]), false),
    ((5, &[(b'2', 12), (b'2', 0)]), (5, &[]), true),
    ((5, &[(b'0', 4)]), (5, &[(b'0', 4), (b'2', 5), (b'2', 0)]), true),
    ((4, &[]), (5, &[]), false),
    ((9, &[]), (5, &[]), false),
};

// Stores the value of what the byte names.
fn put(store: &mut Store, byte: u8, value: i16) {
    if let Some(letter) = Letter::new(byte) {
        store.set(letter, value);
    } else if let Ok(index) = store.index(i16::from(byte.saturating_sub(b'0'))) {
        store.set_element(index, value);
    }
}

// A store with these values.
fn stored(alloc: Global, stored: Stored) -> Result<Store, AllocError> {
    let mut store = Store::new(alloc, i16::from(stored.0))?;
    for &(byte, value) in stored.1 {
        put(&mut store, byte, value);
    }
    Ok(store)
}

// What is saved of a store.
fn saved(alloc: Global, store: &Store) -> Result<SavedStore, AllocError> {
    let mut saved = SavedStore::new(alloc);
    saved.save(store)?;
    Ok(saved)
}

// Whether a store has the variables of another one.
fn has_variables(store: &Store, other: &Store) -> bool {
    for index in 0..26 {
        let Some(letter) = Letter::new(b'A'.saturating_add(index)) else {
            return false;
        };
        if store.get(letter) != other.get(letter) {
            return false;
        }
    }
    true
}

// Whether a store has the values of another one.
fn has_values(store: &Store, other: &Store) -> bool {
    for index in 0..6 {
        if store.element(index) != other.element(index) {
            return false;
        }
    }
    has_variables(store, other) && store.size() == other.size()
}

// Saved stores that hold the same have one hash. Of these, those that differ in a value have two.
fn is_same_saved(saved: &SavedStore, other: &SavedStore, pair: &Pair) -> bool {
    let Pair((size, _), (other_size, _), same) = *pair;
    saved.is_same(other) == same
        && other.is_same(saved) == same
        && (size != other_size || (saved.hash() == other.hash()) == same)
}

// Whatever a store held, it takes over what was saved of another one.
fn is_restored(alloc: Global, store: &Store, other: &mut Store, saved: &SavedStore) -> bool {
    other.restore(alloc, saved) == Ok(()) && has_values(other, store)
}

impl Pair {
    fn is_right(&self, alloc: Global) -> Result<bool, AllocError> {
        let store = stored(alloc, self.0)?;
        let mut other = stored(alloc, self.1)?;
        let (one, two) = (saved(alloc, &store)?, saved(alloc, &other)?);
        Ok(is_same_saved(&one, &two, self) && is_restored(alloc, &store, &mut other, &one))
    }
}

impl Row<Global> for Pair {
    fn holds(&self, alloc: &Global) -> bool {
        self.is_right(*alloc) == Ok(true)
    }
}

#[test]
fn saved_values(rt: HostRuntime) {
    expect_rows(&rt, "same and restored values", &rt.alloc(), PAIRS);
}

// A store with a SIZE of 9 is restored, or keeps its values.
fn is_restored_or_kept(alloc: Global, saved: &SavedStore) -> bool {
    match Store::new(alloc, 9) {
        Ok(mut other) => {
            let restored = other.restore(alloc, saved).is_ok();
            let sum = if restored { 17 } else { 9 };
            is_worth(&other, b"@(2)+S.", &[], Due::Value(sum, 7), 0)
        }
        Err(AllocError) => true,
    }
}

// Passes whichever of its allocations is refused: a store keeps its values then.
#[test]
fn refused_values(rt: HostRuntime) {
    if let Ok(store) = stored(rt.alloc(), (5, &[(b'2', 12)])) {
        if let Ok(saved) = saved(rt.alloc(), &store) {
            let is_right = is_restored_or_kept(rt.alloc(), &saved);
            expect_same(&rt, "restored or kept", is_right, true);
        }
    }
}

// Gives the answers of a list, and keeps the bounds.
#[derive(Drop)]
struct Kept<'a> {
    answers: &'a [i16],
    given: usize,
    bounds: Vec<i16>,
    ghost within: { given ≤ length answers.now },
}

impl<'a> Kept<'a> {
    fn new(alloc: Global, answers: &'a [i16]) -> Kept<'a> {
        Kept {
            answers,
            given: 0,
            bounds: Vec::new(alloc),
        }
    }
}

impl<'a> Chooser for Kept<'a> {
    ghost choices = { λ k. record {
      plan = k.answers.now;
      taken = take k.given k.answers.now;
      kept = Some k.bounds.items;
    } };

    ghost refused = { λ k z n. Unit {0} };

    fn choose(&mut self, bound: i16) -> Result<i16, Pause> {
        if self.given == self.answers.len() {
            return Err(Pause::Ended);
        }
        let answer = self.answers[self.given];
        if answer < 1 || bound < answer {
            return Err(Pause::OutOfRange(answer));
        }
        if self.bounds.push(bound).is_err() {
            return Err(Pause::Memory);
        }
        self.given += 1;
        Ok(answer)
    }
}

// Whether the bounds of the questions are kept, in the order in which they are asked.
fn are_bounds_kept(alloc: Global, store: &Store) -> bool {
    let mut kept = Kept::new(alloc, &[2, 1, 1, 9]);
    let mut cursor = Cursor::new(b"R.(R.(3))+R.(1)*R.(8)", 0);
    let stop = Err(Stop::Pause(Pause::OutOfRange(9)));
    evaluate(&mut cursor, store, &mut kept) == stop
        && kept.bounds.as_slice() == [3, 2, 1].as_slice()
}

fn is_bound_kept(alloc: Global, store: &Store) -> bool {
    let mut kept = Kept::new(alloc, &[2]);
    let mut cursor = Cursor::new(b"@(R.(2))", 0);
    target(&mut cursor, store, &mut kept) == Ok(Target::Element(2))
        && kept.bounds.as_slice() == [2].as_slice()
}

#[test]
fn kept_bounds(rt: HostRuntime) {
    let store = make_store(&rt, rt.alloc());
    expect_same(&rt, "a value", are_bounds_kept(rt.alloc(), &store), true);
    expect_same(&rt, "a target", is_bound_kept(rt.alloc(), &store), true);
}

// What the generator gives next for a question with this bound.
fn next_answer(generator: &mut Lcg64Xsh32, bound: u32) -> i64 {
    1 + i64::from(generator.next_word() % bound.max(1))
}

// What RND of the bound is, and i64::MAX where it is a fault or a pause.
fn asked(store: &Store, seeded: &mut Seeded, text: &[u8]) -> i64 {
    if text.len() > 255 {
        return i64::MAX;
    }
    match evaluate(&mut Cursor::new(text, 0), store, seeded) {
        Ok(value) => i64::from(value),
        Err(_) => i64::MAX,
    }
}

const SEEDED: &[(&[u8], u32)] = &[
    (b"R.(6)", 6),
    (b"R.(1)", 1),
    (b"R.(32767)", 32767),
    (b"R.(6)", 6),
    (b"R.(100)", 100),
    (b"R.(2)", 2),
    (b"R.(20000)", 20000),
];

// Whether the answers of a seed are those of its generator, and are kept with their bounds.
fn are_kept(kept: &[Asked], seed: u64) -> bool {
    let mut generator = Lcg64Xsh32::new(seed, 1);
    for (asked, &(_, bound)) in kept.iter().zip(SEEDED) {
        let wanted = (next_answer(&mut generator, bound), i64::from(bound));
        if (i64::from(asked.answer), i64::from(asked.bound)) != wanted {
            return false;
        }
    }
    kept.len() == SEEDED.len()
}

// A seed, whose answers are those of its generator.
struct Seed(u64);

const SEEDS: &[Seed] = &[Seed(0), Seed(1), Seed(4294967295)];

impl Seed {
    fn is_right(&self, alloc: Global, store: &Store) -> bool {
        let mut seeded = Seeded::new(alloc, self.0);
        let mut generator = Lcg64Xsh32::new(self.0, 1);
        for &(text, bound) in SEEDED {
            if asked(store, &mut seeded, text) != next_answer(&mut generator, bound) {
                return false;
            }
        }
        are_kept(seeded.asked(), self.0)
    }
}

impl Row<Global> for Seed {
    fn holds(&self, alloc: &Global) -> bool {
        match Store::new(*alloc, 4) {
            Ok(store) => self.is_right(*alloc, &store),
            Err(AllocError) => false,
        }
    }
}

// Whether the views of what is kept have these answers and bounds.
fn are_viewed(seeded: &Seeded, answers: &[i16], bounds: &[i16]) -> bool {
    seeded.answers().eq(answers.iter().copied()) && seeded.bounds().eq(bounds.iter().copied())
}

// Whether two answers to questions with bound 6 are these, which are all that is kept.
fn are_two_rolls(store: &Store, seeded: &mut Seeded, first: i16, second: i16) -> bool {
    let found = (
        asked(store, seeded, b"R.(6)"),
        asked(store, seeded, b"R.(6)"),
    );
    let kept = match seeded.asked() {
        [one, other] => (one.answer, one.bound, other.answer, other.bound),
        _ => return false,
    };
    kept == (first, 6, second, 6)
        && found == (i64::from(first), i64::from(second))
        && are_viewed(seeded, &[first, second], &[6, 6])
}

// Once answers are forgotten, the next ones are drawn by the words that follow. The words are those of
// the reference implementation of PCG32.
fn are_forgotten(store: &Store, seeded: &mut Seeded) -> bool {
    for (first, second) in [(3, 5), (5, 4), (4, 4)] {
        if !are_two_rolls(store, seeded, first, second) {
            return false;
        }
        seeded.forget();
    }
    seeded.asked().is_empty()
}

// A question that is asked with a bound below 1 is a fault, and no word is drawn for it.
fn is_fault_without_a_word(store: &Store, seeded: &mut Seeded) -> bool {
    let found = evaluate(&mut Cursor::new(b"R.(0)", 0), store, seeded);
    let wanted = next_answer(&mut Lcg64Xsh32::new(7, 1), 9);
    is_due(found, 5, Due::Fault(FaultKind::How, 5))
        && seeded.asked().is_empty()
        && asked(store, seeded, b"R.(9)") == wanted
}

#[test]
fn seeded_answers(rt: HostRuntime) {
    let store = make_store(&rt, rt.alloc());
    expect_rows(&rt, "seeds", &rt.alloc(), SEEDS);
    let forgotten = are_forgotten(&store, &mut Seeded::new(rt.alloc(), 7));
    expect_same(&rt, "forgotten answers", forgotten, true);
    let fault = is_fault_without_a_word(&store, &mut Seeded::new(rt.alloc(), 7));
    expect_same(&rt, "a fault", fault, true);
}

// An answer is the generator's and is in the list then; one that is refused changes nothing.
fn is_chosen(seeded: &mut Seeded, generator: &mut Lcg64Xsh32) -> bool {
    let given = seeded.asked().len();
    match seeded.choose(100) {
        Ok(answer) => {
            i64::from(answer) == next_answer(generator, 100) && seeded.asked().len() == given + 1
        }
        Err(pause) => pause == Pause::Memory && seeded.asked().len() == given,
    }
}

// Passes whichever of its allocations is refused: the lists are then as they were, and the next
// answer is the one that was refused.
#[test]
fn refused_answers(rt: HostRuntime) {
    let mut seeded = Seeded::new(rt.alloc(), 7);
    let mut generator = Lcg64Xsh32::new(7, 1);
    for _ in 0..40 {
        expect_same(
            &rt,
            "an answer",
            is_chosen(&mut seeded, &mut generator),
            true,
        );
    }
}

// A is 5, B is -7, I is 2, J is 100, and the element 2 is 9.
const LETTERED: Stored = (
    4,
    &[(b'A', 5), (b'B', -7), (b'I', 2), (b'J', 100), (b'2', 9)],
);

// The steps of the expression at the front of a text, and the place after it.
fn expression_steps_of(text: &[u8]) -> Option<(Steps, usize)> {
    if text.len() > 254 {
        return None;
    }
    let mut cursor = Cursor::new(text, 0);
    let mut steps = Steps::new();
    read_value(&mut cursor, &mut steps);
    Some((steps, cursor.place()))
}

// The value of the expression at the front of a text. Nothing is answered.
fn value_there(store: &Store, text: &[u8]) -> Option<i16> {
    if text.len() > 255 {
        return None;
    }
    evaluate(&mut Cursor::new(text, 0), store, &mut Listed::new(&[])).ok()
}

// A text, and the value of its expression and the place after it, if it has a plain one: without a
// fault and without a question.
struct Plain(&'static [u8], Option<(i16, usize)>);

// An expression that asks nothing and has a value has it by `plain_value` and by `evaluate`.
impl Row<Store> for Plain {
    fn holds(&self, store: &Store) -> bool {
        let Plain(text, wanted) = *self;
        let Some((steps, place)) = expression_steps_of(text) else {
            return false;
        };
        let plainly = plain_value(steps.as_slice(), store);
        if plainly != value_there(store, text) {
            return false;
        }
        match wanted {
            Some((value, after)) => {
                (plainly, place) == (Some(value), after)
                    && is_worth(store, text, &[], Due::Value(value, after), 0)
            }
            None => plainly.is_none(),
        }
    }
}

const PLAIN_VALUES: &[Plain] = table! { Plain:
    (b"7", Some((7, 1))),
    (b" J )", Some((100, 3))),
    (b"A+1", Some((6, 3))),
    (b"A<30000", Some((1, 7))),
    (b"A*3+B", Some((8, 5))),
    (b"J/7*7+I", Some((100, 7))),
    (b"(A)", Some((5, 3))),
    (b"A<B+1", Some((0, 5))),
    (b"A<-1", Some((0, 4))),
    (b"A+B+I+J<A", Some((0, 9))),
    (b"A-1-B", Some((11, 5))),
    (b"A-(B-J)", Some((112, 7))),
    (b"I/3*2-I+A/2+(J>I)*7", Some((7, 19))),
    (b"ABS(A-J)/3+1", Some((32, 12))),
    (b"-B*2+A", Some((19, 6))),
    (b"+A", Some((5, 2))),
    (b"A-S.", Some((1, 4))),
    (b"@(I)*@(I*0)+@(I)", Some((9, 16))),
    (b"A>B=1", Some((1, 3))),
    (b"(A<B)+(A<=B)+(A#B)", Some((1, 18))),
    (b"1+1+1+1+1+1+1+1+1+1+1+1+1+1+1+1+1+1+1+1+1+1+1+1", Some((24, 47))),
    (b"A-(A-(A-(A-(A-(A-(A-(A-(A-(A-(A-(A-0)))))))))))", Some((0, 47))),
    (b"1+1+1+1+1+1+1+1+1+1+1+1+1+1+1+1+1+1+1+1+1+1+1+1+1", Some((25, 49))),
    (b"A-(A-(A-(A-(A-(A-(A-(A-(A-(A-(A-(A-(A-0))))))))))))", Some((5, 51))),
    (b"A*B*I*I*A", Some((-700, 9))),
    (b"A+B*I", Some((-9, 5))),
    (b"A*(B)", Some((-35, 5))),
    (b"-A", Some((-5, 2))),
    (b"(A-B)/(I+1)-J", Some((-96, 13))),
    (b"S.-A", Some((-1, 4))),
};

// Expressions that have no value, or that ask.
const NOT_PLAIN: &[Plain] = table! { Plain:
    (b"32767+1", None),
    (b"-(-32767-1)", None),
    (b"A.(-32767-1)", None),
    (b"A*32767", None),
    (b"A/(B+7)", None),
    (b"@(I+1)", None),
    (b"@(B)", None),
    (b"", None),
    (b"A+", None),
    (b"A*", None),
    (b"A<", None),
    (b"-", None),
    (b"(A", None),
    (b"@A", None),
    (b"@(A", None),
    (b"ABS 5", None),
    (b"32768", None),
    (b"RND(5)", None),
    (b"1+R.(2)", None),
    (b"R.(2)+1", None),
    (b"(A-B)*R.(2)", None),
    (b"A/0", None),
    (b"(A-B)/(A-A)", None),
    (b"@(I)/@(0)", None),
};

// A number, a variable and SIZE have a value by themselves, and no other step has.
fn are_single_values(store: &Store) -> bool {
    let variable = Step::Variable(letter(b'J'));
    single_value(&Step::Number(7), store) == Some(7)
        && single_value(&variable, store) == Some(100)
        && single_value(&Step::Size, store) == Some(4)
        && single_value(&Step::Negate(0), store).is_none()
        && single_value(&Step::Ask(0), store).is_none()
}

// A text, and the value of its expression by its short form: `None` if it asks, and `Some(None)` if it
// has no short form or no value.
struct Short(&'static [u8], Option<Option<i16>>);

// The value of these steps by their short form.
fn short_value(store: &Store, steps: &[Step]) -> Option<Option<i16>> {
    match ShortValue::of(steps) {
        Some(short) => Some(short.value(store)),
        None => None,
    }
}

impl Row<Store> for Short {
    fn holds(&self, store: &Store) -> bool {
        let Short(text, wanted) = *self;
        let Some((steps, _)) = expression_steps_of(text) else {
            return false;
        };
        let is_found = match wanted {
            Some(Some(value)) => is_worth(store, text, &[], Due::Value(value, text.len()), 0),
            _ => true,
        };
        is_found && short_value(store, steps.as_slice()) == wanted
    }
}

const SHORT_VALUES: &[Short] = table! { Short:
    (b"7", Some(Some(7))),
    (b"A", Some(Some(5))),
    (b"A+1", Some(Some(6))),
    (b"A-1", Some(Some(4))),
    (b"A+32762", Some(Some(32767))),
    (b"A*3", Some(Some(15))),
    (b"J/7", Some(Some(14))),
    (b"A>=5", Some(Some(1))),
    (b"A>=6", Some(Some(0))),
    (b"A#5", Some(Some(0))),
    (b"A#6", Some(Some(1))),
    (b"A>4", Some(Some(1))),
    (b"A>5", Some(Some(0))),
    (b"A>32767", Some(Some(0))),
    (b"A=5", Some(Some(1))),
    (b"A=6", Some(Some(0))),
    (b"A<=5", Some(Some(1))),
    (b"A<=4", Some(Some(0))),
    (b"A<6", Some(Some(1))),
    (b"A<5", Some(Some(0))),
    (b"A-B", Some(Some(12))),
    (b"J/A", Some(Some(20))),
    (b"B<A", Some(Some(1))),
    (b"@(I)", Some(Some(9))),
    (b"@(I)+1", Some(Some(10))),
    (b"@(I)/2", Some(Some(4))),
    (b"@(I)<9", Some(Some(0))),
    (b"B-32761", Some(Some(-32768))),
    (b"B/2", Some(Some(-3))),
    (b"A+B", Some(Some(-2))),
    (b"B*A", Some(Some(-35))),
    (b"@(I)-10", Some(Some(-1))),
};

// Expressions that ask nothing and have no short form, or no value; and those that ask.
const NOT_SHORT: &[Short] = table! { Short:
    (b"S.", Some(None)),
    (b"-A", Some(None)),
    (b"-1", Some(None)),
    (b"2+3", Some(None)),
    (b"A+B+I", Some(None)),
    (b"A+1+1", Some(None)),
    (b"@(2)", Some(None)),
    (b"@(I+1)", Some(None)),
    (b"@(I)+A", Some(None)),
    (b"@(I)*@(I)", Some(None)),
    (b"A+32763", Some(None)),
    (b"B-32762", Some(None)),
    (b"B*32767", Some(None)),
    (b"A/0", Some(None)),
    (b"@(A)", Some(None)),
    (b"@(B)", Some(None)),
    (b"@(I)*32767", Some(None)),
    (b"@(I)/0", Some(None)),
    (b"", Some(None)),
    (b"A+", Some(None)),
    (b"@A", Some(None)),
    (b"32768", Some(None)),
    (b"R.(2)", None),
    (b"R.(A)", None),
    (b"A+R.(2)", None),
    (b"R.(A)+1", None),
    (b"@(R.(2))", None),
    (b"S.*A-R.(I)", None),
};

// The least number has no opposite, so that no sum has the value of this difference.
fn is_difference_with_the_least_number(store: &Store) -> bool {
    let steps = [
        Step::Variable(letter(b'B')),
        Step::ApplyNumber(Operator::Minus, i16::MIN, 2),
    ];
    short_value(store, &steps) == Some(Some(32761))
}

#[test]
fn plain_values(rt: HostRuntime) {
    let store = stored(rt.alloc(), LETTERED).expect(&rt, "memory");
    expect_rows(&rt, "plain values", &store, PLAIN_VALUES);
    expect_rows(&rt, "no plain values", &store, NOT_PLAIN);
    expect_rows(&rt, "short values", &store, SHORT_VALUES);
    expect_rows(&rt, "no short values", &store, NOT_SHORT);
    expect_same(&rt, "single values", are_single_values(&store), true);
    let is_right = is_difference_with_the_least_number(&store);
    expect_same(&rt, "B-(-32768)", is_right, true);
}
