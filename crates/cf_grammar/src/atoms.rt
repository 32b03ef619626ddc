// The right sides of atoms, heads and arguments, put on the stack where the token begins one.
ghost use Rattle.std.specs.Prelude.{◌≡◌, ◌≤◌, false, reverse, IfOk};
ghost use Rattle.cf_grammar.specs.declared.classes.Class.TheVariants.{Word};
ghost use Rattle.cf_grammar.specs.declared.phrases.Phrase.TheVariants.{Arg, Atom, Brackets, Code, ConBrackets, Head, Second};
ghost use Rattle.cf_grammar.specs.Choosing.{for_constant, is_chosen};
ghost use Rattle.cf_grammar.specs.Walking.{IsPut};

use crate::beginning::begins_atom;
use crate::classes::Class;
use crate::phrases::{Phrase, Symbol};
use crate::stacking::{CLOSE_BRACE, CLOSE_BRACKET, CLOSE_PAREN, COMMA, put};
use cf_base::NoMemory;
use cf_lex::{Keyword, Mark};

/// Puts the token's right side of an atom on the stack, and answers whether it has one.
pub fn put_atom(
    stack: &mut Vec<Symbol>,
    explicit: bool,
    depth: u32,
    class: Class,
) -> Result<bool, NoMemory>
    requires { depth ≤ 201 }
    ensures { IfOk result (λ b. IsPut (Atom explicit depth) class (reverse stack.old.items) (reverse stack.new.items) b) }
{
    let this = Symbol::Is(class);
    let term = Symbol::Phrase(Phrase::Term(explicit, depth + 1));
    match class {
        Class::Name(_) => put(
            stack,
            &[
                Symbol::AnyName,
                Symbol::Phrase(Phrase::Brackets(explicit, depth)),
            ],
        ),
        Class::Whole | Class::NatLit => put(stack, &[this]),
        Class::Word(word) => put_constant(stack, explicit, depth, word),
        Class::Hole => if explicit {
            Ok(false)
        } else {
            put(stack, &[this])
        },
        Class::Mark(Mark::OpenParen) => put(
            stack,
            &[
                this,
                term,
                Symbol::Phrase(Phrase::Second(explicit, depth)),
                CLOSE_PAREN,
            ],
        ),
        Class::Mark(Mark::Less) => put(
            stack,
            &[this, term, Symbol::Is(Class::Mark(Mark::Greater))],
        ),
        Class::Mark(Mark::Tilde | Mark::Caret) => put(
            stack,
            &[Symbol::Phrase(Phrase::Code(explicit, depth + 1))],
        ),
        _ => Ok(false),
    }
}

// Puts the token's right side of an atom that begins with a keyword on the stack, and answers whether it has one.
fn put_constant(
    stack: &mut Vec<Symbol>,
    explicit: bool,
    depth: u32,
    word: Keyword,
) -> Result<bool, NoMemory>
    requires { depth ≤ 201 }
    ensures { IfOk result (λ b. IsPut (Atom explicit depth) (Word word) (reverse stack.old.items) (reverse stack.new.items) b) }
{
    let this = Symbol::Is(Class::Word(word));
    match word {
        Keyword::Con => put(
            stack,
            &[
                this,
                Symbol::AnyName,
                Symbol::Phrase(Phrase::ConBrackets(explicit, depth)),
                Symbol::Is(Class::Mark(Mark::OpenParen)),
                Symbol::Phrase(Phrase::Terms(explicit, depth)),
                CLOSE_PAREN,
            ],
        ),
        Keyword::MetaTy | Keyword::ValTy | Keyword::CompTy | Keyword::Ty => put(stack, &[this]),
        Keyword::UnitTy | Keyword::Unit | Keyword::BoolTy | Keyword::True | Keyword::False => put(
            stack,
            &[this],
        ),
        Keyword::NatTy | Keyword::Zero | Keyword::IntTy => put(stack, &[this]),
        _ => Ok(false),
    }
}

/// Puts the token's right side of an atom that begins with `~` or `^` on the stack, and answers whether it has one.
pub fn put_code(
    stack: &mut Vec<Symbol>,
    explicit: bool,
    depth: u32,
    class: Class,
) -> Result<bool, NoMemory>
    ensures { IfOk result (λ b. IsPut (Code explicit depth) class (reverse stack.old.items) (reverse stack.new.items) b) }
{
    match class {
        Class::Mark(Mark::Tilde | Mark::Caret) => put(
            stack,
            &[
                Symbol::Is(class),
                Symbol::Phrase(Phrase::Atom(explicit, depth)),
            ],
        ),
        _ => Ok(false),
    }
}

/// Puts the token's right side of the head of an application on the stack, and answers whether it has one.
pub fn put_head(
    stack: &mut Vec<Symbol>,
    explicit: bool,
    depth: u32,
    class: Class,
) -> Result<bool, NoMemory>
    ensures { IfOk result (λ b. IsPut (Head explicit depth) class (reverse stack.old.items) (reverse stack.new.items) b) }
{
    if begins_atom(explicit, class) {
        return put(stack, &[Symbol::Phrase(Phrase::Atom(explicit, depth))]);
    }
    match class {
        Class::Word(word) => put_word(stack, explicit, depth, word),
        _ => Ok(false),
    }
}

// Puts the token's right side of a head that begins with a keyword on the stack, its atoms behind it, and answers
// whether it has one.
fn put_word(
    stack: &mut Vec<Symbol>,
    explicit: bool,
    depth: u32,
    word: Keyword,
) -> Result<bool, NoMemory>
    requires { is_chosen (for_constant word) ≡ false }
    ensures { IfOk result (λ b. IsPut (Head explicit depth) (Word word) (reverse stack.old.items) (reverse stack.new.items) b) }
{
    let this = Symbol::Is(Class::Word(word));
    let atom = Symbol::Phrase(Phrase::Atom(explicit, depth));
    match word {
        Keyword::Fail | Keyword::Fst | Keyword::Snd | Keyword::Suc => put(stack, &[this, atom]),
        Keyword::ListTy | Keyword::Nil | Keyword::V | Keyword::C => put(stack, &[this, atom]),
        Keyword::Cons | Keyword::Eq | Keyword::Lt => put(stack, &[this, atom, atom]),
        Keyword::Add | Keyword::Sub | Keyword::Mul | Keyword::Div | Keyword::Rem => put(
            stack,
            &[this, atom, atom],
        ),
        Keyword::Pair | Keyword::UnitRec => put(stack, &[this, atom, atom, atom]),
        Keyword::BoolRec | Keyword::NatRec | Keyword::ListRec => put(
            stack,
            &[this, atom, atom, atom, atom],
        ),
        _ => Ok(false),
    }
}

/// Puts the token's right side of an argument on the stack, and answers whether it has one.
pub fn put_argument(
    stack: &mut Vec<Symbol>,
    explicit: bool,
    depth: u32,
    item: u32,
    class: Class,
) -> Result<bool, NoMemory>
    requires { depth ≤ 201 }
    ensures { IfOk result (λ b. IsPut (Arg explicit depth item) class (reverse stack.old.items) (reverse stack.new.items) b) }
{
    match class {
        Class::Mark(Mark::OpenBrace) => if explicit {
            Ok(false)
        } else {
            put(
                stack,
                &[
                    Symbol::Is(class),
                    Symbol::Phrase(Phrase::Term(explicit, depth + 1)),
                    CLOSE_BRACE,
                ],
            )
        },
        _ => if begins_atom(explicit, class) {
            put(stack, &[Symbol::Phrase(Phrase::Atom(explicit, depth))])
        } else {
            Ok(false)
        },
    }
}

/// Puts the token's right side of the brackets behind a name on the stack, and answers whether it has one.
pub fn put_brackets(
    stack: &mut Vec<Symbol>,
    explicit: bool,
    depth: u32,
    class: Class,
) -> Result<bool, NoMemory>
    ensures behind_name { IfOk result (λ b. IsPut (Brackets explicit depth) class (reverse stack.old.items) (reverse stack.new.items) b) }
    ensures behind_con { IfOk result (λ b. IsPut (ConBrackets explicit depth) class (reverse stack.old.items) (reverse stack.new.items) b) }
{
    match class {
        Class::Mark(Mark::OpenBracket) => put(
            stack,
            &[
                Symbol::Is(class),
                Symbol::Phrase(Phrase::Terms(explicit, depth)),
                CLOSE_BRACKET,
            ],
        ),
        _ => Ok(false),
    }
}

/// Puts the token's right side of the second component of a pair on the stack, and answers whether it has one.
pub fn put_second(
    stack: &mut Vec<Symbol>,
    explicit: bool,
    depth: u32,
    class: Class,
) -> Result<bool, NoMemory>
    requires { depth ≤ 201 }
    ensures { IfOk result (λ b. IsPut (Second explicit depth) class (reverse stack.old.items) (reverse stack.new.items) b) }
{
    match (class, explicit) {
        (Class::Mark(Mark::Comma), false) => put(
            stack,
            &[COMMA, Symbol::Phrase(Phrase::Term(explicit, depth + 1))],
        ),
        _ => Ok(false),
    }
}
