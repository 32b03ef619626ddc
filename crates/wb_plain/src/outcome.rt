//! What a step comes to.

/// Why a run traps.
#[derive(Clone, Copy, Debug, PartialEq, Eq)]
pub enum TrapKind {
    /// `unreachable` was reached.
    Unreachable,
    /// A number was divided by zero.
    DivideByZero,
    /// A quotient has no word.
    Overflow,
    /// A load or a store ends past the memory.
    OutOfBounds,
}

/// What an instruction comes to.
#[derive(Clone, Copy, Debug, PartialEq, Eq)]
pub enum Outcome {
    /// The run goes on behind the instruction.
    Goes,
    /// The run would go on with more words than there may be.
    Full,
    Traps(TrapKind),
    /// No rule applies.
    Stuck,
}
