/// What a text can deserve a refusal for, by its number in the table of refusals.
#[derive(Clone, Copy)]
pub enum Cause {
    /// A byte at which no token, blank or comment begins.
    BadByte = 1,
    /// A statement outside the grammar.
    OutsideGrammar = 2,
    /// A literal above 2^62.
    LargeLiteral = 3,
    DefinedAgain = 4,
    UnknownName = 5,
    /// A name of another sort, or an interval that is no member.
    WrongName = 6,
    /// A range or a pair with its ends turned round.
    ReversedPair = 7,
    NegativeAmount = 8,
    /// Rows, types or states that don't fit.
    Misfit = 9,
    TwiceInList = 10,
    /// A text, a nesting, or the number of statements or of things of one sort, above its limit.
    LimitPassed = 11,
    SecondObjective = 12,
    /// An expression that leaves the bound on literals.
    NoHull = 13,
    /// A word that the language leaves out, or a product with two factors that name an interval.
    LeftOut = 14,
}
