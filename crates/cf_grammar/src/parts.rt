// The right sides of what terms are made of, put on the stack where the token begins one.
ghost use Rattle.std.specs.Prelude.{◌≤◌, reverse, IfOk};
ghost use Rattle.cf_grammar.specs.declared.phrases.Phrase.TheVariants.{App, Args, Binder, Binders, Branch, Branches, CaseType, Chain, MoreBranches, MoreTerms, Operand, Operands, Terms};
ghost use Rattle.cf_grammar.specs.Walking.{IsPut};

use crate::beginning::{begins_argument, begins_binder, begins_head, begins_term, is_name};
use crate::classes::Class;
use crate::phrases::{Phrase, Symbol};
use crate::stacking::{BINDER, DOT, put};
use cf_base::NoMemory;
use cf_lex::Mark;

/// Puts the token's right side of terms between commas on the stack, and answers whether it has one.
pub fn put_terms(
    stack: &mut Vec<Symbol>,
    explicit: bool,
    depth: u32,
    class: Class,
) -> Result<bool, NoMemory>
    requires { depth ≤ 201 }
    ensures { IfOk result (λ b. IsPut (Terms explicit depth) class (reverse stack.old.items) (reverse stack.new.items) b) }
{
    if begins_term(explicit, class) {
        put(
            stack,
            &[
                Symbol::Phrase(Phrase::Term(explicit, depth + 1)),
                Symbol::Phrase(Phrase::MoreTerms(explicit, depth)),
            ],
        )
    } else {
        Ok(false)
    }
}

/// Puts the token's right side of terms behind the first on the stack, and answers whether it has one.
pub fn put_more_terms(
    stack: &mut Vec<Symbol>,
    explicit: bool,
    depth: u32,
    class: Class,
) -> Result<bool, NoMemory>
    requires { depth ≤ 201 }
    ensures { IfOk result (λ b. IsPut (MoreTerms explicit depth) class (reverse stack.old.items) (reverse stack.new.items) b) }
{
    if class == Class::Mark(Mark::Comma) {
        put(
            stack,
            &[
                Symbol::Is(class),
                Symbol::Phrase(Phrase::Term(explicit, depth + 1)),
                Symbol::Phrase(Phrase::MoreTerms(explicit, depth)),
            ],
        )
    } else {
        Ok(false)
    }
}

/// Puts the token's right side of the type of a `case` on the stack, and answers whether it has one.
pub fn put_case_type(
    stack: &mut Vec<Symbol>,
    explicit: bool,
    depth: u32,
    class: Class,
) -> Result<bool, NoMemory>
    requires { depth ≤ 201 }
    ensures { IfOk result (λ b. IsPut (CaseType explicit depth) class (reverse stack.old.items) (reverse stack.new.items) b) }
{
    if class == Class::Mark(Mark::Colon) {
        put(
            stack,
            &[
                Symbol::Is(class),
                Symbol::Phrase(Phrase::Term(explicit, depth + 1)),
            ],
        )
    } else {
        Ok(false)
    }
}

/// Puts the token's right side of branches on the stack, and answers whether it has one.
pub fn put_branches(
    stack: &mut Vec<Symbol>,
    explicit: bool,
    depth: u32,
    class: Class,
) -> Result<bool, NoMemory>
    ensures { IfOk result (λ b. IsPut (Branches explicit depth) class (reverse stack.old.items) (reverse stack.new.items) b) }
{
    if is_name(class) {
        put(
            stack,
            &[
                Symbol::Phrase(Phrase::Branch(explicit, depth)),
                Symbol::Phrase(Phrase::MoreBranches(explicit, depth)),
            ],
        )
    } else {
        Ok(false)
    }
}

/// Puts the token's right side of branches behind the first on the stack, and answers whether it has one.
pub fn put_more_branches(
    stack: &mut Vec<Symbol>,
    explicit: bool,
    depth: u32,
    class: Class,
) -> Result<bool, NoMemory>
    ensures { IfOk result (λ b. IsPut (MoreBranches explicit depth) class (reverse stack.old.items) (reverse stack.new.items) b) }
{
    if class == Class::Mark(Mark::Bar) {
        put(
            stack,
            &[
                Symbol::Is(class),
                Symbol::Phrase(Phrase::Branch(explicit, depth)),
                Symbol::Phrase(Phrase::MoreBranches(explicit, depth)),
            ],
        )
    } else {
        Ok(false)
    }
}

/// Puts the token's right side of a branch on the stack, and answers whether it has one.
pub fn put_branch(
    stack: &mut Vec<Symbol>,
    explicit: bool,
    depth: u32,
    class: Class,
) -> Result<bool, NoMemory>
    requires { depth ≤ 201 }
    ensures { IfOk result (λ b. IsPut (Branch explicit depth) class (reverse stack.old.items) (reverse stack.new.items) b) }
{
    if is_name(class) {
        put(
            stack,
            &[
                Symbol::AnyName,
                Symbol::Phrase(Phrase::Binders),
                DOT,
                Symbol::Phrase(Phrase::Term(explicit, depth + 1)),
            ],
        )
    } else {
        Ok(false)
    }
}

/// Puts the token's right side of a chain of `@` on the stack, and answers whether it has one.
pub fn put_chain(
    stack: &mut Vec<Symbol>,
    explicit: bool,
    depth: u32,
    class: Class,
) -> Result<bool, NoMemory>
    ensures { IfOk result (λ b. IsPut (Chain explicit depth) class (reverse stack.old.items) (reverse stack.new.items) b) }
{
    if begins_head(explicit, class) {
        put(
            stack,
            &[
                Symbol::Phrase(Phrase::App(explicit, depth)),
                Symbol::Phrase(Phrase::Operands(explicit, depth, 0)),
            ],
        )
    } else {
        Ok(false)
    }
}

/// Puts the token's right side of operands of `@` on the stack, and answers whether it has one.
pub fn put_operands(
    stack: &mut Vec<Symbol>,
    explicit: bool,
    depth: u32,
    item: u32,
    class: Class,
) -> Result<bool, NoMemory>
    requires { item ≤ 16 }
    ensures { IfOk result (λ b. IsPut (Operands explicit depth item) class (reverse stack.old.items) (reverse stack.new.items) b) }
{
    if class == Class::Mark(Mark::At) {
        put(
            stack,
            &[
                Symbol::Is(class),
                Symbol::Phrase(Phrase::Operand(explicit, depth, item)),
                Symbol::Phrase(Phrase::Operands(explicit, depth, item + 1)),
            ],
        )
    } else {
        Ok(false)
    }
}

/// Puts the token's right side of an operand on the stack, and answers whether it has one.
pub fn put_operand(
    stack: &mut Vec<Symbol>,
    explicit: bool,
    depth: u32,
    item: u32,
    class: Class,
) -> Result<bool, NoMemory>
    ensures { IfOk result (λ b. IsPut (Operand explicit depth item) class (reverse stack.old.items) (reverse stack.new.items) b) }
{
    if begins_head(explicit, class) {
        put(stack, &[Symbol::Phrase(Phrase::App(explicit, depth))])
    } else {
        Ok(false)
    }
}

/// Puts the token's right side of an application on the stack, and answers whether it has one.
pub fn put_application(
    stack: &mut Vec<Symbol>,
    explicit: bool,
    depth: u32,
    class: Class,
) -> Result<bool, NoMemory>
    ensures { IfOk result (λ b. IsPut (App explicit depth) class (reverse stack.old.items) (reverse stack.new.items) b) }
{
    if begins_head(explicit, class) {
        put(
            stack,
            &[
                Symbol::Phrase(Phrase::Head(explicit, depth)),
                Symbol::Phrase(Phrase::Args(explicit, depth, 0)),
            ],
        )
    } else {
        Ok(false)
    }
}

/// Puts the token's right side of arguments on the stack, and answers whether it has one.
pub fn put_arguments(
    stack: &mut Vec<Symbol>,
    explicit: bool,
    depth: u32,
    item: u32,
    class: Class,
) -> Result<bool, NoMemory>
    requires { item ≤ 16 }
    ensures { IfOk result (λ b. IsPut (Args explicit depth item) class (reverse stack.old.items) (reverse stack.new.items) b) }
{
    if begins_argument(explicit, class) {
        put(
            stack,
            &[
                Symbol::Phrase(Phrase::Arg(explicit, depth, item)),
                Symbol::Phrase(Phrase::Args(explicit, depth, item + 1)),
            ],
        )
    } else {
        Ok(false)
    }
}

/// Puts the token's right side of a name or `_` on the stack, and answers whether it has one.
pub fn put_binder(stack: &mut Vec<Symbol>, class: Class) -> Result<bool, NoMemory>
    ensures { IfOk result (λ b. IsPut Binder class (reverse stack.old.items) (reverse stack.new.items) b) }
{
    match class {
        Class::Name(_) => put(stack, &[Symbol::AnyName]),
        Class::Hole => put(stack, &[Symbol::Is(class)]),
        _ => Ok(false),
    }
}

/// Puts the token's right side of any number of names or `_` on the stack, and answers whether it has one.
pub fn put_binders(stack: &mut Vec<Symbol>, class: Class) -> Result<bool, NoMemory>
    ensures { IfOk result (λ b. IsPut Binders class (reverse stack.old.items) (reverse stack.new.items) b) }
{
    if begins_binder(class) {
        put(stack, &[BINDER, Symbol::Phrase(Phrase::Binders)])
    } else {
        Ok(false)
    }
}
