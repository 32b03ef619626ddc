// Why an operation gives no number.

/// Why an operation with two operands traps (the standard, 4.3.2).
#[derive(Clone, Copy, Debug, PartialEq, Eq)]
pub enum NumTrap {
    /// The divisor is 0.
    DivideByZero,
    /// The quotient of the least signed number by -1 has no word.
    Overflow,
}
