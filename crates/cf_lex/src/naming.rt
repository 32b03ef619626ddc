// Names and their numbers.
ghost use Rattle.std.specs.Prelude.{◌≡◌, IfErr, IfOk, OnErr, OnOk, string_bytes};
ghost use Rattle.std.specs.Str.{encode_utf8_all};
ghost use Rattle.cf_lex.specs.Naming.{bytes_of, kind_after, names_after, number_after};
ghost use Rattle.cf_lex.specs.Names.{with_name};
ghost use Rattle.cf_lex.specs.declared.ends.LexEnd.TheVariants as end;

use crate::ends::LexEnd;
use crate::piece::Lexeme;
use crate::token::TokenKind;
use indexmap::IndexSet;
use std::alloc::Global;

/// What a token is, by its characters. A name that is new is put behind the others.
pub fn kind(
    names: &mut IndexSet<String>,
    alloc: Global,
    lexeme: Lexeme,
    chars: &[char],
) -> Result<TokenKind, LexEnd>
    ensures kind { IfOk result (λ k. k ≡ kind_after (bytes_of names.old.keys) lexeme (encode_utf8_all chars.now)) }
    ensures names { OnOk result (bytes_of names.new.keys ≡ names_after (bytes_of names.old.keys) lexeme (encode_utf8_all chars.now)) }
    ensures refused { IfErr result (λ e. e ≡ end.NoMemory) }
{
    match lexeme {
        Lexeme::Name => Ok(TokenKind::Name(number(names, text(alloc, chars)?)?)),
        Lexeme::Word(keyword) => Ok(TokenKind::Word(keyword)),
        Lexeme::Whole => Ok(TokenKind::Whole),
        Lexeme::NatLit => Ok(TokenKind::NatLit),
        Lexeme::Hole => Ok(TokenKind::Hole),
        Lexeme::Mark(mark) => Ok(TokenKind::Mark(mark)),
    }
}

// The number of a name: how many different names were seen before it was first seen.
fn number(names: &mut IndexSet<String>, name: String) -> Result<u32, LexEnd>
    ensures number { IfOk result (λ n. n ≡ number_after (bytes_of names.old.keys) (string_bytes name)) }
    ensures names { OnOk result (bytes_of names.new.keys ≡ with_name (bytes_of names.old.keys) (string_bytes name)) }
    ensures refused { IfErr result (λ e. e ≡ end.NoMemory) }
{
    if names.len() > 0xffff_ffff {
        return Err(LexEnd::NoMemory);
    }
    let (at, _added) = names.insert_full(name)?;
    Ok(at as u32)
}

// The characters as a text.
fn text(alloc: Global, chars: &[char]) -> Result<String, LexEnd>
    ensures text { IfOk result (λ s. string_bytes s ≡ encode_utf8_all chars.now) }
    ensures refused { IfErr result (λ e. e ≡ end.NoMemory) }
{
    let mut text = String::new(alloc);
    for c in chars {
        text.push(*c)?;
    }
    Ok(text)
}
