//! Reads the text of a program as tokens.
//!
//! At each place the longest token, blank or comment is taken.
#![tactic(auto)]

mod classes;
mod ends;
mod fronts;
mod keywords;
mod laws;
mod lexing;
mod list;
mod marks;
mod naming;
mod piece;
mod token;

pub use ends::LexEnd;
pub use keywords::Keyword;
pub use laws::{in_order, lexes_one};
pub use lexing::tokens;
pub use list::Tokens;
pub use marks::Mark;
pub use token::{Token, TokenKind};
