// From the steps of a derivation to the program that they read as.
ghost use Rattle.std.specs.Prelude.{◌≡◌, ◌∷◌, List, IfOk, Some};
ghost use Rattle.cf_parse.specs.Building.{Sound};
ghost use Rattle.cf_parse.specs.Evaluation.{evaluated};
ghost use Rattle.cf_parse.specs.Kinds as kind;
ghost use Rattle.cf_parse.specs.Kinds.{Fits};
ghost use Rattle.cf_parse.specs.Meaning.{Sem, program_in};
ghost use Rattle.cf_syntax.specs.Tokens.{tokens_of};

use crate::actions::reduce;
use crate::values::{Value, pop, push};
use cf_grammar::Step;
use cf_syntax::{OutOfMemory, Source};
use cf_tree::Program;

// The program that the steps of its derivation build, from the last step to the first: what phrases stand for is kept on a
// stack, the foremost on top.
pub(crate) fn built(source: &Source<'_>, steps: Vec<Step>) -> Result<Program, OutOfMemory>
    requires { Sound source.now.prelude steps.items (tokens_of source.now.tokens.now) }
    ensures { IfOk result (λ p. (v : Sem) (vs : List Sem) → evaluated source.now.prelude steps.items (tokens_of source.now.tokens.now) ≡ v ∷ vs → Fits (kind.Maybe kind.Program) v → program_in v ≡ Some p) }
{
    let mut left = steps;
    let mut values: Vec<Value> = Vec::new(source.alloc);
    let mut at = source.count();
    while let Some(step) = left.pop() {
        match step {
            Step::Take => {
                at -= 1;
                push(&mut values, Value::Token(at))?;
            }
            Step::Open(production) => reduce(source, &mut values, production, at)?,
        }
    }
    Ok(pop(&mut values).program(source.alloc))
}
