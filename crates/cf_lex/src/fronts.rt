// What a text begins with.
ghost use Rattle.std.specs.Prelude.{◌≡◌, ◌≤◌, length, slice_index};
ghost use Rattle.cf_lex.specs.Fronts.{FrontIs, IsOther, PairIs};
ghost use Rattle.cf_lex.specs.Tokens.{word_of};

use crate::classes::{
    begins_comment, begins_name, begins_natlit, begins_negative, digits_len, is_blank, is_digit,
    line_len, name_len,
};
use crate::keywords::{find_keyword, spells};
use crate::marks::{find_long, find_short};
use crate::piece::{Lexeme, Piece};

/// What the text begins with, and how many characters long it is.
pub fn front(chars: &[char]) -> Option<(Piece, usize)>
    ensures { FrontIs chars.now result }
{
    if chars.is_empty() {
        return None;
    }
    let first = chars[0];
    if begins_name(first) {
        let n = 1 + name_len(&chars[1..]);
        return Some((Piece::Token(word(&chars[..n])), n));
    }
    if is_digit(first) {
        return Some((Piece::Token(Lexeme::Whole), 1 + digits_len(&chars[1..])));
    }
    if is_blank(first) {
        return Some((Piece::Blank, 1));
    }
    other(chars)
}

// The hole, a keyword or a name.
fn word(chars: &[char]) -> Lexeme
    ensures { result ≡ word_of chars.now }
{
    if spells(chars, "_") {
        return Lexeme::Hole;
    }
    match find_keyword(chars) {
        Some(keyword) => Lexeme::Word(keyword),
        None => Lexeme::Name,
    }
}

// The front of a text that begins with no name, number or blank.
fn other(chars: &[char]) -> Option<(Piece, usize)>
    requires some { 1 ≤ length chars.now }
    requires begins { IsOther (slice_index chars.now 0) }
    ensures { FrontIs chars.now result }
{
    if chars.len() > 1 {
        if let Some(found) = pair(chars) {
            return Some(found);
        }
    }
    match find_short(chars[0]) {
        Some(mark) => Some((Piece::Token(Lexeme::Mark(mark)), 1)),
        None => None,
    }
}

// The front of such a text, where it is longer than one character.
fn pair(chars: &[char]) -> Option<(Piece, usize)>
    requires some { 2 ≤ length chars.now }
    requires begins { IsOther (slice_index chars.now 0) }
    ensures { PairIs chars.now result }
{
    let first = chars[0];
    let second = chars[1];
    if begins_comment(first, second) {
        return Some((Piece::Comment, 2 + line_len(&chars[2..])));
    }
    if begins_negative(first, second) {
        return Some((Piece::Token(Lexeme::Whole), 2 + digits_len(&chars[2..])));
    }
    if begins_natlit(first, second) {
        return Some((Piece::Token(Lexeme::NatLit), 2 + digits_len(&chars[2..])));
    }
    match find_long(first, second) {
        Some(mark) => Some((Piece::Token(Lexeme::Mark(mark)), 2)),
        None => None,
    }
}
