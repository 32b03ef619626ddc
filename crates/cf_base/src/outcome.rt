// How a run of a program ends.

/// How a run of an object program ends.
#[derive(Clone, Copy, Debug, PartialEq, Eq)]
pub enum Outcome {
    /// `main` gave this number.
    Returned(i64),
    /// A division or a remainder by 0.
    DivideByZero,
    /// The least number was divided by −1.
    Overflow,
    /// `fail` was reached.
    Failed,
    /// A cell did not fit the region.
    HeapFull,
}
