// What may stand at a place of a text.
use crate::keywords::Keyword;
use crate::marks::Mark;

/// A token as its characters tell it: a name has no number yet.
#[derive(Clone, Copy)]
pub enum Lexeme {
    /// a name
    Name,
    /// a keyword
    Word(Keyword),
    /// digits, or `-` directly before them
    Whole,
    /// `#` directly before digits
    NatLit,
    /// `_` alone
    Hole,
    /// a mark
    Mark(Mark),
}

/// What may stand at a place of a text.
#[derive(Clone, Copy)]
pub enum Piece {
    /// a token
    Token(Lexeme),
    /// one blank character
    Blank,
    /// a comment, up to the end of its line
    Comment,
}
