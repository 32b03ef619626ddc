// The operations on integers.

/// An operation on two integers of the object level.
#[derive(Clone, Copy, Debug, PartialEq, Eq)]
pub enum Op {
    /// the sum
    Add,
    /// the difference
    Sub,
    /// the product
    Mul,
    /// the quotient, rounded toward zero
    Div,
    /// the remainder, with the sign of the first
    Rem,
    /// whether they are equal
    Eq,
    /// whether the first is less, as signed numbers
    Lt,
}
