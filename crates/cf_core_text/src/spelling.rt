// Printed tokens as text.
ghost use Rattle.std.specs.Prelude.{◌≡◌, ◌∷◌, ◌++◌, [], string_bytes, OnOk};
ghost use Rattle.cf_core_text.specs.Tables.{gap_behind, names_in};
ghost use Rattle.cf_core_text.specs.Text.{closes, is_becomes, is_close_paren, joined, mark_text, opens, spelling, tight};

use crate::naming::Names;
use crate::pieces::Piece;
use cf_lex::Mark;
use std::alloc::AllocError;

// How a mark is spelled.
fn mark_text(mark: Mark) -> &'static str
    ensures { result.now ≡ mark_text mark }
{
    match mark {
        Mark::OpenParen => "(",
        Mark::CloseParen => ")",
        Mark::OpenBracket => "[",
        Mark::CloseBracket => "]",
        Mark::OpenBrace => "{",
        Mark::CloseBrace => "}",
        Mark::Less => "<",
        Mark::Greater => ">",
        Mark::Tilde => "~",
        Mark::Caret => "^",
        Mark::Colon => ":",
        Mark::Becomes => ":=",
        Mark::Semicolon => ";",
        Mark::Dot => ".",
        Mark::Comma => ",",
        Mark::Bar => "|",
        Mark::Arrow => "->",
        Mark::DoubleArrow => "=>",
        Mark::Backslash => "\\",
        Mark::At => "@",
    }
}

// Adds the text of a token.
fn spell(out: &mut String, names: &Names<'_>, token: Piece) -> Result<(), AllocError>
    ensures { OnOk result (string_bytes out.new ≡ string_bytes out.old ++ spelling (names_in names.now) token) }
{
    match token {
        Piece::Word(word) => out.push_str(word.text()),
        Piece::Mark(mark) => out.push_str(mark_text(mark)),
        Piece::Fields => out.push_str("("),
        Piece::Global(number) => out.push_str(names.global(number)),
        Piece::Local(number) => write!(out, "_{number}"),
        Piece::DataType(number) => out.push_str(names.data_type(number)),
        Piece::Ctor(data_type, number) => out.push_str(names.ctor(data_type, number)),
        Piece::Whole(number) => write!(out, "{number}"),
        Piece::NatLit(number) => write!(out, "#{number}"),
        Piece::Hole(number) => write!(out, "?{number}"),
    }
}

// Whether a token has no space behind it.
fn opens(token: Piece) -> bool
    ensures { result ≡ opens token }
{
    match token {
        Piece::Fields => true,
        Piece::Mark(Mark::OpenParen) => true,
        Piece::Mark(Mark::OpenBracket) => true,
        Piece::Mark(Mark::Less) => true,
        Piece::Mark(Mark::Tilde) => true,
        Piece::Mark(Mark::Caret) => true,
        Piece::Mark(Mark::Backslash) => true,
        _ => false,
    }
}

// Whether a token has no space before it.
fn closes(token: Piece) -> bool
    ensures { result ≡ closes token }
{
    match token {
        Piece::Fields => true,
        Piece::Mark(Mark::CloseParen) => true,
        Piece::Mark(Mark::OpenBracket) => true,
        Piece::Mark(Mark::CloseBracket) => true,
        Piece::Mark(Mark::Greater) => true,
        Piece::Mark(Mark::Comma) => true,
        _ => false,
    }
}

fn is_close_paren(token: Piece) -> bool
    ensures { result ≡ is_close_paren token }
{
    match token {
        Piece::Mark(Mark::CloseParen) => true,
        _ => false,
    }
}

fn is_becomes(token: Piece) -> bool
    ensures { result ≡ is_becomes token }
{
    match token {
        Piece::Mark(Mark::Becomes) => true,
        _ => false,
    }
}

// Whether two neighbours have no space between them.
fn tight(first: Piece, second: Piece) -> bool
    ensures { result ≡ tight first second }
{
    match second {
        Piece::Mark(Mark::Dot) => is_close_paren(first),
        Piece::Mark(Mark::Semicolon) => !is_becomes(first),
        _ => opens(first) || closes(second),
    }
}

// Adds the space between a token and the one before it, if there is one.
fn push_gap(out: &mut String, previous: Option<Piece>, token: Piece) -> Result<(), AllocError>
    ensures { OnOk result (string_bytes out.new ≡ string_bytes out.old ++ gap_behind previous token) }
{
    match previous {
        None => Ok(()),
        Some(first) => {
            if tight(first, token) {
                return Ok(());
            }
            out.push_str(" ")?;
            Ok(())
        }
    }
}

/// Adds the text of tokens, and a line feed.
pub fn push_line(out: &mut String, names: &Names<'_>, line: &[Piece]) -> Result<(), AllocError>
    ensures { OnOk result (string_bytes out.new ≡ string_bytes out.old ++ (joined (names_in names.now) line.now ++ 10 ∷ [])) }
{
    let mut previous = None;
    for token in line {
        push_gap(out, previous, *token)?;
        spell(out, names, *token)?;
        previous = Some(*token);
    }
    out.push_str("\n")?;
    Ok(())
}
