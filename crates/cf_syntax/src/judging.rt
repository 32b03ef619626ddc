// Judges the tokens of a text.
ghost use Rattle.std.specs.Prelude.{IfErr, IfOk};
ghost use Rattle.cf_grammar.specs.Grammar.{start};
ghost use Rattle.cf_grammar.specs.Productions.{Follows};
ghost use Rattle.cf_grammar.specs.Refusing.{Says};
ghost use Rattle.cf_grammar.specs.declared.endings.Ending.TheVariants.{Fine};
ghost use Rattle.cf_syntax.specs.Checks.{AllInRange};
ghost use Rattle.cf_syntax.specs.Refusals.{IsRefused};
ghost use Rattle.cf_syntax.specs.Tokens.{classes, tokens_of};

use crate::ends::ParseEnd;
use crate::source::Source;
use cf_grammar::{Step, walk};

/// The steps of the derivation of a source's tokens, where these are a program within the limits and with its numbers in range.
///
/// What is wrong is told with its place: the first token with which something is, and of that the first in the order of
/// `Syntax`, `TooMany`, `TooNested`, `Literal`. Takes time and memory in proportion to the tokens.
pub fn judge(source: &Source<'_>) -> Result<Vec<Step>, ParseEnd>
    ensures fine { IfOk result (λ _. Says (classes (tokens_of source.now.tokens.now)) Fine) }
    ensures ranges { IfOk result (λ _. AllInRange (tokens_of source.now.tokens.now)) }
    ensures steps { IfOk result (λ v. Follows start v.items (classes (tokens_of source.now.tokens.now))) }
    ensures refused { IfErr result (λ e. IsRefused source.now.prelude source.now.tokens.now e) }
{
    let Ok(classes) = source.classes() else {
        return Err(ParseEnd::NoMemory);
    };
    let Ok(walked) = walk(source.alloc, classes.as_slice()) else {
        return Err(ParseEnd::NoMemory);
    };
    let literal = source.first_literal();
    if let Err(end) = source.judged(walked.ending, literal) {
        return Err(end);
    }
    Ok(walked.steps)
}
