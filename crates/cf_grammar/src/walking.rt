// The walk over the tokens of a text.
ghost use Rattle.std.specs.Prelude.{◌≡◌, ◌++◌, ◌∷◌, [], IfOk};
ghost use Rattle.cf_grammar.specs.Grammar.{start};
ghost use Rattle.cf_grammar.specs.Productions.{Follows, step_of};
ghost use Rattle.cf_grammar.specs.Refusing.{IsText, Says};
ghost use Rattle.cf_grammar.specs.declared.endings.Ending.TheVariants.{Fine};

use crate::choosing::step;
use crate::classes::Class;
use crate::endings::Ending;
use crate::phrases::{Phrase, Symbol};
use crate::productions::Step;
use crate::stacking::put;
use crate::turning::{Turn, take_turn};
use cf_base::NoMemory;
use std::alloc::Global;

/// What the walk over the tokens of a text finds.
#[derive(Drop)]
pub struct Walked {
    /// what the grammar says of the tokens
    pub ending: Ending,
    /// the steps of the derivation, as far as the walk came
    pub steps: Vec<Step>,
}

/// Walks over the classes of a text's tokens, the end as the last and nowhere else, and answers what the grammar says of
/// them: a program within the limits; or the first token that is wrong, and what is wrong with it. Of a program the steps
/// are those of its derivation. Takes time and memory in proportion to the tokens; `NoMemory` where memory runs out.
pub fn walk(alloc: Global, classes: &[Class]) -> Result<Walked, NoMemory>
    requires text { IsText classes.now }
    ensures says { IfOk result (λ w. Says classes.now w.ending) }
    ensures steps { IfOk result (λ w. w.ending ≡ Fine → Follows start w.steps.items classes.now) }
{
    let mut stack: Vec<Symbol> = Vec::new(alloc);
    put(
        &mut stack,
        &[Symbol::Phrase(Phrase::Program), Symbol::Is(Class::End)],
    )?;
    let mut steps: Vec<Step> = Vec::new(alloc);
    let mut at = 0;
    while let Some(symbol) = stack.pop() {
        let class = classes[at];
        match take_turn(&mut stack, symbol, class)? {
            Turn::Take => {
                note(&mut steps, symbol, class)?;
                at += 1;
            }
            Turn::Open => note(&mut steps, symbol, class)?,
            Turn::Refuse => {
                return Ok(Walked {
                    ending: Ending::Syntax(at),
                    steps,
                });
            }
            Turn::Pass(fault) => {
                return Ok(Walked {
                    ending: Ending::Past(at, fault),
                    steps,
                });
            }
        }
    }
    Ok(Walked {
        ending: Ending::Fine,
        steps,
    })
}

// Notes the step of a symbol at a token.
fn note(steps: &mut Vec<Step>, symbol: Symbol, class: Class) -> Result<(), NoMemory>
    ensures { IfOk result (λ _. steps.new.items ≡ steps.old.items ++ step_of symbol class ∷ []) }
{
    if steps.push(step(symbol, class)).is_err() {
        return Err(NoMemory);
    }
    Ok(())
}
