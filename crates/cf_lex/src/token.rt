// Tokens.
use crate::keywords::Keyword;
use crate::marks::Mark;

/// A token with its place: it begins at byte `start` of the text and ends before byte `end`.
#[derive(Clone, Copy, Debug, PartialEq, Eq)]
pub struct Token {
    /// where it begins
    pub start: u32,
    /// where it ends
    pub end: u32,
    /// what it is
    pub kind: TokenKind,
}

/// What a token is.
#[derive(Clone, Copy, Debug, PartialEq, Eq)]
pub enum TokenKind {
    /// a name, by its number: so many different names stand before the first token with its spelling
    Name(u32),
    /// a keyword
    Word(Keyword),
    /// digits, or `-` directly before them
    Whole,
    /// `#` directly before digits
    NatLit,
    /// `_` alone
    Hole,
    /// a mark
    Mark(Mark),
}
