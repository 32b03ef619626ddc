// Tokens as the grammar sees them.
ghost use Rattle.std.specs.Prelude.{◌≡◌, ◌↔◌, IsTrue};

use cf_lex::{Keyword, Mark};

/// What the grammar sees of a token.
#[derive(Clone, Copy, Debug, PartialEq, Eq)]
pub enum Class {
    /// a name; true where it does not begin with `_`, so that it can be a global name
    Name(bool),
    /// a keyword
    Word(Keyword),
    /// a whole number
    Whole,
    /// a Nat literal
    NatLit,
    /// `_` alone
    Hole,
    /// a mark
    Mark(Mark),
    /// the end of the text, which counts as a token
    End,
}

/// Whether two classes are the same.
pub fn is_same(one: Class, other: Class) -> bool
    ensures { IsTrue result ↔ (one ≡ other) }
{
    one == other
}
