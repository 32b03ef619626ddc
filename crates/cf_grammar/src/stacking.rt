// The stack of the walk: the symbols that are still to come, the next one on top.
ghost use Rattle.std.specs.Prelude.{◌≡◌, ◌++◌, reverse, IfOk, true};

use crate::classes::Class;
use crate::phrases::{Phrase, Symbol};
use cf_base::NoMemory;
use cf_lex::Mark;

/// `(`
pub const OPEN_PAREN: Symbol = Symbol::Is(Class::Mark(Mark::OpenParen));

/// `)`
pub const CLOSE_PAREN: Symbol = Symbol::Is(Class::Mark(Mark::CloseParen));

/// `[`
pub const OPEN_BRACKET: Symbol = Symbol::Is(Class::Mark(Mark::OpenBracket));

/// `]`
pub const CLOSE_BRACKET: Symbol = Symbol::Is(Class::Mark(Mark::CloseBracket));

/// `{`
pub const OPEN_BRACE: Symbol = Symbol::Is(Class::Mark(Mark::OpenBrace));

/// `}`
pub const CLOSE_BRACE: Symbol = Symbol::Is(Class::Mark(Mark::CloseBrace));

/// `:`
pub const COLON: Symbol = Symbol::Is(Class::Mark(Mark::Colon));

/// `:=`
pub const BECOMES: Symbol = Symbol::Is(Class::Mark(Mark::Becomes));

/// `;`
pub const SEMICOLON: Symbol = Symbol::Is(Class::Mark(Mark::Semicolon));

/// `.`
pub const DOT: Symbol = Symbol::Is(Class::Mark(Mark::Dot));

/// `,`
pub const COMMA: Symbol = Symbol::Is(Class::Mark(Mark::Comma));

/// a name or `_`
pub const BINDER: Symbol = Symbol::Phrase(Phrase::Binder);

/// Puts a right side on the stack, its first symbol on top; answers true.
pub fn put(stack: &mut Vec<Symbol>, side: &[Symbol]) -> Result<bool, NoMemory>
    ensures put { IfOk result (λ b. reverse stack.new.items ≡ side.now ++ reverse stack.old.items) }
    ensures done { IfOk result (λ b. b ≡ true) }
{
    let mut left = side.len();
    while left > 0 {
        left -= 1;
        if stack.push(side[left]).is_err() {
            return Err(NoMemory);
        }
    }
    Ok(true)
}
