// This file has the rules of a run.

ghost use Rattle.std.specs.Prelude.{pos, ◌≤ℤ◌, IfSome};
ghost use Rattle.std.proofs.Props.{props};

/// The rules of a run. Together with its program, its input and its answers they determine it.
#[derive(Clone, Copy, Debug, PartialEq, Eq)]
pub struct Rules {
    /// The most commands that are begun: where one more would be begun, the run ends.
    pub limit: u32,
    /// The bound with which INPUT asks for an answer where no line is left, from 1 to 32767.
    /// Without a bound the run ends there.
    pub choose: Option<i16>,
    pub ghost in_range: { IfSome choose (λ n. pos 1 ≤ℤ n) } by { Prim.hlevel props },
}
