// The right sides of lists of declarations, parameters, constructors and fields, put on the stack where the token begins one.
ghost use Rattle.std.specs.Prelude.{◌≤◌, reverse, IfOk};
ghost use Rattle.cf_grammar.specs.declared.phrases.Phrase.TheVariants.{Ctors, Decls, Field, Fields, MoreCtors, MoreFields, Params};
ghost use Rattle.cf_grammar.specs.Walking.{IsPut};

use crate::beginning::{begins_declaration, begins_term};
use crate::classes::Class;
use crate::phrases::{Phrase, Symbol};
use crate::stacking::put;
use cf_base::NoMemory;
use cf_lex::Mark;

/// Puts the token's right side of declarations on the stack, and answers whether it has one.
pub fn put_declarations(
    stack: &mut Vec<Symbol>,
    explicit: bool,
    item: u32,
    class: Class,
) -> Result<bool, NoMemory>
    requires { item ≤ 4096 }
    ensures { IfOk result (λ b. IsPut (Decls explicit item) class (reverse stack.old.items) (reverse stack.new.items) b) }
{
    if begins_declaration(class) {
        put(
            stack,
            &[
                Symbol::Phrase(Phrase::Decl(explicit, item)),
                Symbol::Phrase(Phrase::Decls(explicit, item + 1)),
            ],
        )
    } else {
        Ok(false)
    }
}

/// Puts the token's right side of parameters on the stack, and answers whether it has one.
pub fn put_parameters(stack: &mut Vec<Symbol>, item: u32, class: Class) -> Result<bool, NoMemory>
    requires { item ≤ 16 }
    ensures { IfOk result (λ b. IsPut (Params item) class (reverse stack.old.items) (reverse stack.new.items) b) }
{
    if class == Class::Mark(Mark::OpenParen) {
        put(
            stack,
            &[
                Symbol::Phrase(Phrase::Param(item)),
                Symbol::Phrase(Phrase::Params(item + 1)),
            ],
        )
    } else {
        Ok(false)
    }
}

/// Puts the token's right side of constructors on the stack, and answers whether it has one.
pub fn put_constructors(
    stack: &mut Vec<Symbol>,
    explicit: bool,
    item: u32,
    class: Class,
) -> Result<bool, NoMemory>
    requires { item ≤ 256 }
    ensures { IfOk result (λ b. IsPut (Ctors explicit item) class (reverse stack.old.items) (reverse stack.new.items) b) }
{
    if class == Class::Name(true) {
        put(
            stack,
            &[
                Symbol::Phrase(Phrase::Ctor(explicit, item)),
                Symbol::Phrase(Phrase::MoreCtors(explicit, item + 1)),
            ],
        )
    } else {
        Ok(false)
    }
}

/// Puts the token's right side of constructors behind the first on the stack, and answers whether it has one.
pub fn put_more_constructors(
    stack: &mut Vec<Symbol>,
    explicit: bool,
    item: u32,
    class: Class,
) -> Result<bool, NoMemory>
    requires { item ≤ 256 }
    ensures { IfOk result (λ b. IsPut (MoreCtors explicit item) class (reverse stack.old.items) (reverse stack.new.items) b) }
{
    if class == Class::Mark(Mark::Bar) {
        put(
            stack,
            &[
                Symbol::Is(class),
                Symbol::Phrase(Phrase::Ctor(explicit, item)),
                Symbol::Phrase(Phrase::MoreCtors(explicit, item + 1)),
            ],
        )
    } else {
        Ok(false)
    }
}

/// Puts the token's right side of fields on the stack, and answers whether it has one.
pub fn put_fields(
    stack: &mut Vec<Symbol>,
    explicit: bool,
    item: u32,
    class: Class,
) -> Result<bool, NoMemory>
    requires { item ≤ 16 }
    ensures { IfOk result (λ b. IsPut (Fields explicit item) class (reverse stack.old.items) (reverse stack.new.items) b) }
{
    if begins_term(explicit, class) {
        put(
            stack,
            &[
                Symbol::Phrase(Phrase::Field(explicit, item)),
                Symbol::Phrase(Phrase::MoreFields(explicit, item + 1)),
            ],
        )
    } else {
        Ok(false)
    }
}

/// Puts the token's right side of fields behind the first on the stack, and answers whether it has one.
pub fn put_more_fields(
    stack: &mut Vec<Symbol>,
    explicit: bool,
    item: u32,
    class: Class,
) -> Result<bool, NoMemory>
    requires { item ≤ 16 }
    ensures { IfOk result (λ b. IsPut (MoreFields explicit item) class (reverse stack.old.items) (reverse stack.new.items) b) }
{
    if class == Class::Mark(Mark::Comma) {
        put(
            stack,
            &[
                Symbol::Is(class),
                Symbol::Phrase(Phrase::Field(explicit, item)),
                Symbol::Phrase(Phrase::MoreFields(explicit, item + 1)),
            ],
        )
    } else {
        Ok(false)
    }
}

/// Puts the token's right side of a field on the stack, and answers whether it has one.
pub fn put_field(
    stack: &mut Vec<Symbol>,
    explicit: bool,
    item: u32,
    class: Class,
) -> Result<bool, NoMemory>
    ensures { IfOk result (λ b. IsPut (Field explicit item) class (reverse stack.old.items) (reverse stack.new.items) b) }
{
    if begins_term(explicit, class) {
        put(stack, &[Symbol::Phrase(Phrase::Term(explicit, 1))])
    } else {
        Ok(false)
    }
}
