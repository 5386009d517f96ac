// This file says what is made of an expression that is read, by the trait `Builder`. The grammar has one reader
// (`reader.rt`): it makes steps by `step_builder.rt`, and a value by `value_builder.rt`.

ghost use Rattle.std.specs.Prelude.{◌+◌, ◌≤◌, ◌<◌, IfSome, IsNone};
ghost use Rattle.ptb_expr.specs.Prelude.{ℕ, Tree, Num, Var, node_of, room_of};
ghost use Rattle.ptb_expr.specs.Tree.{Size, Bin, Bad, Unclosed};

use crate::fault::FaultKind;
use crate::operator::Operator;
use ptb_text::Letter;

/// What is done with one value.
#[derive(Clone, Copy)]
pub(crate) enum Unary {
    /// Nothing: it is in parentheses.
    Itself,
    /// The element of `@` at this index.
    Element,
    /// RND of this bound.
    Ask,
    /// ABS.
    Absolute,
    /// A leading minus.
    Negate,
}

/// Makes something of the parts of an expression, in the order in which they are read.
pub(crate) trait Builder {
    /// What was made of a part of an expression.
    type Made: Copy;

    /// From one state to another, this was made of a part that has this tree.
    ghost makes: { Self → Self → Self.Made → Tree → Type 0 };

    /// The same, and it is kept as a left operand.
    ghost keeps: { Self → Self → Self.Made → Tree → Type 0 };

    /// From one state to another, a malformed part was read that has this tree.
    ghost spoils: { Self → Self → Tree → Type 0 };

    /// Whether it may give up on a part that is not malformed. None then says nothing about the expression.
    ghost gives_up: { Type 0 };

    /// How much of its room is used.
    ghost room_used: { Self → ℕ };

    /// How much more of its room a part will take.
    ghost room_wanted: { Self.Made → ℕ };

    /// A number.
    fn number(&mut self, value: i16) -> Self::Made
        ensures made { makes self.old self.new result (Num value) }
        ensures room { room_used self.new + room_wanted result ≤ room_used self.old + 1 };

    /// A variable.
    fn variable(&mut self, letter: Letter) -> Self::Made
        ensures made { makes self.old self.new result (Var letter) }
        ensures room { room_used self.new + room_wanted result ≤ room_used self.old + 1 };

    /// SIZE.
    fn size(&mut self) -> Self::Made
        requires { room_used self.old < 256 }
        ensures made { makes self.old self.new result Size }
        ensures room { room_used self.new + room_wanted result ≤ room_used self.old + 1 };

    /// What is done with the last part. None where it has no value.
    fn unary(&mut self, unary: Unary, part: Self::Made, mark: u8) -> Option<Self::Made>
        requires { room_used self.old + room_wanted part < 256 }
        ensures made { IfSome result (λ made. (s : Self) (x : Tree) → makes s self.old part x
            → makes s self.new made (node_of unary x mark)) }
        ensures room { IfSome result (λ made. room_used self.new + room_wanted made
            ≤ room_used self.old + room_wanted part + room_of unary) }
        ensures none { IsNone result → gives_up };

    /// Keeps the last part as a left operand, whose operator was read.
    fn keep(&mut self, part: Self::Made) -> Self::Made
        requires { room_used self.old + room_wanted part ≤ 256 }
        ensures kept { (s : Self) (x : Tree) → makes s self.old part x → keeps s self.new result x }
        ensures room { room_used self.new ≤ room_used self.old + room_wanted part };

    /// An operator with its operands; the right one is the last part. None where it has no value.
    fn binary(
        &mut self,
        operator: Operator,
        left: Self::Made,
        right: Self::Made,
        mark: u8,
    ) -> Option<Self::Made>
        requires { room_used self.old + room_wanted right < 256 }
        ensures made { IfSome result (λ made. (r s : Self) (x y : Tree) → keeps r s left x
            → makes s self.old right y → makes r self.new made (Bin operator x y mark)) }
        ensures room { IfSome result (λ made. room_used self.new + room_wanted made
            ≤ room_used self.old + room_wanted right + 1) }
        ensures none { IsNone result → gives_up };

    /// A part that is malformed from its beginning on.
    fn malformed(&mut self, kind: FaultKind, mark: u8)
        requires { room_used self.old < 256 }
        ensures spoilt { spoils self.old self.new (Bad kind mark) }
        ensures room { room_used self.new ≤ room_used self.old + 1 };

    /// The last part, after which a closing parenthesis is missing.
    fn unclosed(&mut self, part: Self::Made, mark: u8)
        requires { room_used self.old + room_wanted part < 256 }
        ensures spoilt { (s : Self) (x : Tree) → makes s self.old part x
            → spoils s self.new (Unclosed x mark) }
        ensures room { room_used self.new ≤ room_used self.old + room_wanted part + 1 };

    /// What is around a malformed part is malformed, too, whichever state it began in. The function does nothing.
    fn malformed_laws(&self)
        ensures inside { (s t : Self) (unary : Unary) (x : Tree) (m : ℕ) → spoils s t x
            → spoils s t (node_of unary x m) }
        ensures right { (r s t : Self) (op : Operator) (left : Self.Made) (x y : Tree) (m : ℕ)
            → keeps r s left x → spoils s t y → spoils r t (Bin op x y m) };
}
