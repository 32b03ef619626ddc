// The tokens of a text.
ghost use Rattle.std.specs.Prelude.{◌≡◌, ◌+◌, ◌^◌, ◌<◌, ◌≤◌, IfErr, IfOk, OnOk, length};
ghost use Rattle.std.specs.Str.{chars, encode_utf8_all};
ghost use Rattle.cf_lex.specs.Lexed.{Lexed};
ghost use Rattle.cf_lex.specs.Naming.{bytes_of, piece_names, piece_tokens};
ghost use Rattle.cf_lex.specs.Reading.{Reads};
ghost use Rattle.cf_lex.specs.Tokens.{width};
ghost use Rattle.cf_lex.specs.declared.ends.LexEnd.TheVariants as end;

use crate::ends::LexEnd;
use crate::fronts::front;
use crate::list::Tokens;
use crate::naming::kind;
use crate::piece::Piece;
use crate::token::Token;
use indexmap::IndexSet;
use std::alloc::Global;

/// The tokens of a text, which has at most 1,048,576 bytes.
///
/// `NotText` comes exactly where the bytes are not UTF-8, and `BadChar` exactly where they are and at some place no
/// token, blank or comment begins; it tells the first such place.
pub fn tokens(alloc: Global, bytes: &[u8]) -> Result<Tokens, LexEnd>
    requires { length bytes.now ≤ 1048576 }
    ensures { Lexed bytes.now result }
{
    let text = match str::from_utf8(bytes) {
        Ok(text) => text,
        Err(e) => return Err(LexEnd::NotText(e.valid_up_to() as u32)),
    };
    let text = match String::from_str(alloc, text) {
        Ok(text) => text,
        Err(_) => return Err(LexEnd::NoMemory),
    };
    let chars = characters(alloc, text.as_str())?;
    let (tokens, names) = match pieces(alloc, chars.as_slice()) {
        Ok(found) => found,
        Err(e) => return Err(e),
    };
    Ok(Tokens {
        text,
        tokens,
        names,
    })
}

// The characters of a text.
fn characters(alloc: Global, text: &str) -> Result<Vec<char>, LexEnd>
    ensures chars { IfOk result (λ v. v.items ≡ chars text.now) }
    ensures refused { IfErr result (λ e. e ≡ end.NoMemory) }
{
    let chars: Vec<char> = text.chars().collect(alloc)?;
    Ok(chars)
}

// The tokens and the names of a text, piece by piece.
fn pieces(alloc: Global, chars: &[char]) -> Result<(Vec<Token>, IndexSet<String>), LexEnd>
    requires { width chars.now ≤ 1048576 }
    ensures { Reads chars.now result }
{
    let mut tokens = Vec::new(alloc);
    let mut names = IndexSet::new(alloc);
    let mut rest = chars;
    let mut at: u32 = 0;
    while !rest.is_empty() {
        let Some((piece, n)) = front(rest) else {
            return Err(LexEnd::BadChar(at));
        };
        keep(&mut tokens, &mut names, alloc, piece, &rest[..n], at)?;
        at += bytes_len(&rest[..n]);
        rest = &rest[n..];
    }
    Ok((tokens, names))
}

// Puts a token behind the others; blanks and comments are none.
fn keep(
    tokens: &mut Vec<Token>,
    names: &mut IndexSet<String>,
    alloc: Global,
    piece: Piece,
    chars: &[char],
    at: u32,
) -> Result<(), LexEnd>
    requires { at + width chars.now ≤ 1048576 }
    ensures tokens { OnOk result (tokens.new.items ≡ piece_tokens tokens.old.items (bytes_of names.old.keys) piece at (encode_utf8_all chars.now)) }
    ensures names { OnOk result (bytes_of names.new.keys ≡ piece_names (bytes_of names.old.keys) piece (encode_utf8_all chars.now)) }
    ensures refused { IfErr result (λ e. e ≡ end.NoMemory) }
{
    match piece {
        Piece::Token(lexeme) => {
            let end = at + bytes_len(chars);
            let kind = kind(names, alloc, lexeme, chars)?;
            let token = Token {
                start: at,
                end,
                kind,
            };
            tokens.push(token)?;
            Ok(())
        }
        Piece::Blank | Piece::Comment => Ok(()),
    }
}

// How many bytes the characters take.
fn bytes_len(chars: &[char]) -> u32
    requires { width chars.now < 2 ^ 32 }
    ensures { result ≡ width chars.now }
{
    let mut n: u32 = 0;
    for c in chars {
        n += c.len_utf8() as u32;
    }
    n
}
