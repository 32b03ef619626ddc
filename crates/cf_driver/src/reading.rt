// Which program the bytes of a source are.
ghost use Rattle.std.specs.Prelude.{◌≤◌, IfErr, IfOk, length};
ghost use Rattle.cf_driver.specs.Sources.{IsUnread, ReadsAs};

use cf_diag::Refusal;
use cf_lex::{LexEnd, tokens};
use cf_parse::{ParseEnd, parse};
use cf_tree::Program;
use std::alloc::Global;

/// The program that a source of at most 1,048,576 bytes reads as; or `NotText`, `BadChar`, `Syntax`, `TooNested`, `TooMany` or `Literal`,
/// with the place.
pub fn read(alloc: Global, source: &[u8]) -> Result<Program, Refusal>
    requires short { length source.now ≤ 1048576 }
    ensures program { IfOk result (λ p. ReadsAs source.now p) }
    ensures refused { IfErr result (λ e. IsUnread source.now e) }
{
    let tokens = match tokens(alloc, source) {
        Ok(tokens) => tokens,
        Err(LexEnd::NotText(at)) => return Err(Refusal::NotText(at)),
        Err(LexEnd::BadChar(at)) => return Err(Refusal::BadChar(at)),
        Err(LexEnd::NoMemory) => return Err(Refusal::NoMemory),
    };
    match parse(alloc, &tokens, false) {
        Ok(program) => Ok(program),
        Err(ParseEnd::Syntax(at)) => Err(Refusal::Syntax(at)),
        Err(ParseEnd::TooNested(at)) => Err(Refusal::TooNested(at)),
        Err(ParseEnd::TooMany(at, what)) => Err(Refusal::TooMany(at, what)),
        Err(ParseEnd::Literal(at)) => Err(Refusal::Literal(at)),
        Err(ParseEnd::NoMemory) => Err(Refusal::NoMemory),
    }
}
