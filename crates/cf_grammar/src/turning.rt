// One turn of the walk.
ghost use Rattle.std.specs.Prelude.{◌≡◌, ◌++◌, reverse, IfOk};
ghost use Rattle.cf_grammar.specs.declared.phrases.Symbol.TheVariants.{Phrase as a};
ghost use Rattle.cf_grammar.specs.Walking.{Fits, IsSmall, Turned, put};

use crate::classes::{Class, is_same};
use crate::endings::Fault;
use crate::limits::over;
use crate::opening::{may_be_empty, put_side};
use crate::phrases::{Phrase, Symbol};
use cf_base::NoMemory;

/// What the symbol on top of the stack does at the next token.
#[derive(Clone, Copy, Debug, PartialEq, Eq)]
pub enum Turn {
    /// it takes the token
    Take,
    /// it is a phrase, and makes room for what it is made of
    Open,
    /// neither
    Refuse,
    /// it is a phrase past a limit
    Pass(Fault),
}

/// The turn of a symbol that was on top of the stack.
pub fn take_turn(stack: &mut Vec<Symbol>, symbol: Symbol, class: Class) -> Result<Turn, NoMemory>
    requires { Fits symbol }
    ensures turned { IfOk result (λ t. Turned symbol class t) }
    ensures put { IfOk result (λ t. reverse stack.new.items ≡ put symbol class ++ reverse stack.old.items) }
{
    match symbol {
        Symbol::Phrase(phrase) => open(stack, phrase, class),
        Symbol::Is(wanted) => {
            if is_same(wanted, class) {
                Ok(Turn::Take)
            } else {
                Ok(Turn::Refuse)
            }
        }
        Symbol::AnyName => match class {
            Class::Name(_) => Ok(Turn::Take),
            _ => Ok(Turn::Refuse),
        },
    }
}

// The turn of a phrase.
fn open(stack: &mut Vec<Symbol>, phrase: Phrase, class: Class) -> Result<Turn, NoMemory>
    requires { IsSmall phrase }
    ensures turned { IfOk result (λ t. Turned (a phrase) class t) }
    ensures put { IfOk result (λ t. reverse stack.new.items ≡ put (a phrase) class ++ reverse stack.old.items) }
{
    let begins = put_side(stack, phrase, class)?;
    if begins {
        match over(phrase) {
            Some(fault) => Ok(Turn::Pass(fault)),
            None => Ok(Turn::Open),
        }
    } else if may_be_empty(phrase) {
        Ok(Turn::Open)
    } else {
        Ok(Turn::Refuse)
    }
}
