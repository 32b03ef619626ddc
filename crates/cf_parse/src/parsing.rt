// Reads the tokens of a text as a program.
ghost use Rattle.std.specs.Prelude.{IfErr, IfOk};
ghost use Rattle.cf_parse.specs.Reads.{Reads};
ghost use Rattle.cf_syntax.specs.Refusals.{IsRefused};

use crate::building::built;
use cf_lex::Tokens;
use cf_syntax::{ParseEnd, Source, judge};
use cf_tree::Program;
use std::alloc::Global;

/// The program that the tokens of a text read as, within the limits and with its numbers in range; `prelude` tells whether the
/// text is the prelude's.
///
/// What is wrong is told with its place: the first token with which something is, and of that the first in the order of
/// `Syntax`, `TooMany`, `TooNested`, `Literal`. Takes time and memory in proportion to the tokens.
pub fn parse(alloc: Global, t: &Tokens, prelude: bool) -> Result<Program, ParseEnd>
    ensures fine { IfOk result (λ p. Reads prelude t.now p) }
    ensures refused { IfErr result (λ e. IsRefused prelude t.now e) }
{
    let source = Source {
        alloc,
        tokens: t,
        prelude,
    };
    let steps = judge(&source)?;
    match built(&source, steps) {
        Ok(program) => Ok(program),
        Err(_) => Err(ParseEnd::NoMemory),
    }
}
