// The limits on the items of a program's text.

/// What a program's text has a limit on, with the greatest number that may stand.
#[derive(Clone, Copy, Debug, PartialEq, Eq)]
pub enum Limit {
    /// Declarations of a program: 4,096.
    Declarations,
    /// Parameters of a data declaration: 16.
    Parameters,
    /// Constructors of a data declaration: 256.
    Constructors,
    /// Fields of a constructor in its declaration: 16.
    Fields,
    /// Arguments of one application, and operands of one chain of `@`: 16.
    Arguments,
}
