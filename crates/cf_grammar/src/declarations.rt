// The right sides of programs and declarations, put on the stack where the token begins one.
ghost use Rattle.std.specs.Prelude.{◌≤◌, reverse, IfOk};
ghost use Rattle.cf_grammar.specs.declared.phrases.Phrase.TheVariants.{Ctor, Decl, Param, Program};
ghost use Rattle.cf_grammar.specs.Walking.{IsPut};

use crate::beginning::begins_declaration;
use crate::classes::Class;
use crate::phrases::{Phrase, Symbol};
use crate::stacking::{BECOMES, CLOSE_PAREN, COLON, OPEN_PAREN, SEMICOLON, put};
use cf_base::NoMemory;
use cf_lex::{Keyword, Mark};

const GLOBAL: Symbol = Symbol::Is(Class::Name(true));

/// Puts the token's right side of a program on the stack, and answers whether it has one.
pub fn put_program(stack: &mut Vec<Symbol>, class: Class) -> Result<bool, NoMemory>
    ensures { IfOk result (λ b. IsPut Program class (reverse stack.old.items) (reverse stack.new.items) b) }
{
    match class {
        Class::Word(Keyword::Explicit) => put(
            stack,
            &[
                Symbol::Is(class),
                SEMICOLON,
                Symbol::Phrase(Phrase::Decls(true, 0)),
            ],
        ),
        Class::Word(Keyword::Use) => put(
            stack,
            &[
                Symbol::Is(class),
                Symbol::Is(Class::Word(Keyword::Prelude)),
                SEMICOLON,
                Symbol::Phrase(Phrase::Decls(false, 0)),
            ],
        ),
        _ => if begins_declaration(class) {
            put(
                stack,
                &[
                    Symbol::Phrase(Phrase::Decl(false, 0)),
                    Symbol::Phrase(Phrase::Decls(false, 1)),
                ],
            )
        } else {
            Ok(false)
        },
    }
}

/// Puts the token's right side of a declaration on the stack, and answers whether it has one.
pub fn put_declaration(
    stack: &mut Vec<Symbol>,
    explicit: bool,
    item: u32,
    class: Class,
) -> Result<bool, NoMemory>
    ensures { IfOk result (λ b. IsPut (Decl explicit item) class (reverse stack.old.items) (reverse stack.new.items) b) }
{
    let this = Symbol::Is(class);
    let term = Symbol::Phrase(Phrase::Term(explicit, 1));
    match class {
        Class::Word(Keyword::Data) => put(
            stack,
            &[
                this,
                GLOBAL,
                Symbol::Phrase(Phrase::Params(0)),
                BECOMES,
                Symbol::Phrase(Phrase::Ctors(explicit, 0)),
                SEMICOLON,
            ],
        ),
        Class::Word(Keyword::Meta) => put(
            stack,
            &[this, GLOBAL, COLON, term, BECOMES, term, SEMICOLON],
        ),
        Class::Name(true) => put(stack, &[GLOBAL, COLON, term, BECOMES, term, SEMICOLON]),
        _ => Ok(false),
    }
}

/// Puts the token's right side of a parameter on the stack, and answers whether it has one.
pub fn put_parameter(stack: &mut Vec<Symbol>, item: u32, class: Class) -> Result<bool, NoMemory>
    ensures { IfOk result (λ b. IsPut (Param item) class (reverse stack.old.items) (reverse stack.new.items) b) }
{
    match class {
        Class::Mark(Mark::OpenParen) => put(
            stack,
            &[
                OPEN_PAREN,
                Symbol::AnyName,
                COLON,
                Symbol::Is(Class::Word(Keyword::ValTy)),
                CLOSE_PAREN,
            ],
        ),
        _ => Ok(false),
    }
}

/// Puts the token's right side of a constructor on the stack, and answers whether it has one.
pub fn put_constructor(
    stack: &mut Vec<Symbol>,
    explicit: bool,
    item: u32,
    class: Class,
) -> Result<bool, NoMemory>
    ensures { IfOk result (λ b. IsPut (Ctor explicit item) class (reverse stack.old.items) (reverse stack.new.items) b) }
{
    match class {
        Class::Name(true) => put(
            stack,
            &[
                GLOBAL,
                OPEN_PAREN,
                Symbol::Phrase(Phrase::Fields(explicit, 0)),
                CLOSE_PAREN,
            ],
        ),
        _ => Ok(false),
    }
}
