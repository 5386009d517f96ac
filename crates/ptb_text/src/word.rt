// This file has the words of the language, and what a number and a string can be.

/// A table of words. They are tried in its order, so a cut word that could be two is the first.
#[derive(Clone, Copy, Debug, PartialEq, Eq)]
pub enum Table {
    /// The words with which commands begin: NEXT, LET, IF, GOTO, GOSUB, RETURN, REM, FOR, INPUT,
    /// PRINT and STOP.
    Commands,
    /// The functions of an expression: RND, ABS and SIZE.
    Functions,
    /// The one word TO, which is before the limit of a FOR.
    To,
    /// The one word STEP, which is before the step of a FOR.
    Step,
}

/// A word of one of the tables, however it is cut.
#[derive(Clone, Copy, Debug, PartialEq, Eq)]
pub enum Word {
    /// NEXT, which ends a turn of a loop.
    NextKw,
    /// LET, which stores values. A command without a word is one, too.
    LetKw,
    /// IF, which does what follows it or leaves it out.
    IfKw,
    /// GOTO, which continues at another statement.
    GotoKw,
    /// GOSUB, which goes to another statement and may come back.
    GosubKw,
    /// RETURN, which goes back to the command after the newest GOSUB.
    ReturnKw,
    /// REM, which does nothing: the rest of its statement is a remark.
    RemKw,
    /// FOR, which begins a loop.
    ForKw,
    /// INPUT, which stores values of the input.
    InputKw,
    /// PRINT, which shows strings and values.
    PrintKw,
    /// STOP, which ends the run.
    StopKw,
    /// RND, a value that is chosen, from 1 to its argument.
    RndKw,
    /// ABS, a value without its sign.
    AbsKw,
    /// SIZE, how much memory the program leaves.
    SizeKw,
    /// TO, before the limit of a FOR.
    ToKw,
    /// STEP, before the step of a FOR.
    StepKw,
}

/// What is read where a number may be.
#[derive(Clone, Copy, Debug, PartialEq, Eq)]
pub enum Number {
    /// No digit.
    Absent,
    /// A number from 0 to 32767.
    Value(i16),
    /// A number over 32767.
    TooBig,
}

/// What is read where a string may be.
#[derive(Clone, Copy, Debug, PartialEq, Eq)]
pub enum Quoted<'a> {
    /// No quote.
    Absent,
    /// The text inside its quotes.
    Text(&'a [u8]),
    /// A quote without its partner.
    Unclosed,
}
