// The right sides of terms, put on the stack where the token begins one.
ghost use Rattle.std.specs.Prelude.{◌≡◌, ◌≤◌, reverse, IfOk, true};
ghost use Rattle.cf_grammar.specs.declared.phrases.Phrase.TheVariants.{Arrow, Branch, CaseType, Fn, Lambda, PiBinder, Term};
ghost use Rattle.cf_grammar.specs.Choosing.{for_form, is_chosen};
ghost use Rattle.cf_grammar.specs.Walking.{IsPut};

use crate::beginning::{begins_form, begins_head};
use crate::classes::Class;
use crate::phrases::{Phrase, Symbol};
use crate::stacking::{
    BECOMES, BINDER, CLOSE_BRACE, CLOSE_PAREN, COLON, COMMA, DOT, OPEN_BRACE, OPEN_PAREN,
    SEMICOLON, put,
};
use cf_base::NoMemory;
use cf_lex::{Keyword, Mark};

/// Puts the token's right side of a term on the stack, and answers whether it has one.
pub fn put_term(
    stack: &mut Vec<Symbol>,
    explicit: bool,
    depth: u32,
    class: Class,
) -> Result<bool, NoMemory>
    requires { depth ≤ 201 }
    ensures { IfOk result (λ b. IsPut (Term explicit depth) class (reverse stack.old.items) (reverse stack.new.items) b) }
{
    if begins_form(class) {
        put_form(stack, explicit, depth, class)
    } else if begins_head(explicit, class) {
        put(
            stack,
            &[
                Symbol::Phrase(Phrase::Chain(explicit, depth)),
                Symbol::Phrase(Phrase::Arrow(explicit, depth)),
            ],
        )
    } else {
        Ok(false)
    }
}

// Puts the token's right side of a term that begins with a keyword or a mark of its own on the stack, and answers
// whether it has one.
fn put_form(
    stack: &mut Vec<Symbol>,
    explicit: bool,
    depth: u32,
    class: Class,
) -> Result<bool, NoMemory>
    requires depth { depth ≤ 201 }
    requires form { is_chosen (for_form class) ≡ true }
    ensures { IfOk result (λ b. IsPut (Term explicit depth) class (reverse stack.old.items) (reverse stack.new.items) b) }
{
    let this = Symbol::Is(class);
    let term = Symbol::Phrase(Phrase::Term(explicit, depth + 1));
    match class {
        Class::Mark(Mark::Backslash) => put(
            stack,
            &[
                this,
                Symbol::Phrase(Phrase::Lambda(explicit, depth)),
                DOT,
                term,
            ],
        ),
        Class::Word(Keyword::Fn) => put(
            stack,
            &[this, Symbol::Phrase(Phrase::Fn(explicit, depth)), DOT, term],
        ),
        Class::Word(Keyword::MetaLet | Keyword::Let | Keyword::LetRec) => put(
            stack,
            &[this, BINDER, COLON, term, BECOMES, term, SEMICOLON, term],
        ),
        Class::Word(Keyword::Pi) => put(
            stack,
            &[
                this,
                Symbol::Phrase(Phrase::PiBinder(explicit, depth)),
                Symbol::Is(Class::Mark(Mark::Arrow)),
                term,
            ],
        ),
        Class::Word(Keyword::Sig) => put(
            stack,
            &[
                this,
                OPEN_PAREN,
                BINDER,
                COLON,
                term,
                CLOSE_PAREN,
                COMMA,
                term,
            ],
        ),
        Class::Word(Keyword::Case) => put(
            stack,
            &[
                this,
                term,
                Symbol::Phrase(Phrase::CaseType(explicit, depth)),
                Symbol::Is(Class::Word(Keyword::Of)),
                OPEN_BRACE,
                Symbol::Phrase(Phrase::Branches(explicit, depth)),
                CLOSE_BRACE,
            ],
        ),
        _ => Ok(false),
    }
}

/// Puts the token's right side of the binder of a lambda on the stack, and answers whether it has one.
pub fn put_lambda(
    stack: &mut Vec<Symbol>,
    explicit: bool,
    depth: u32,
    class: Class,
) -> Result<bool, NoMemory>
    requires { depth ≤ 201 }
    ensures { IfOk result (λ b. IsPut (Lambda explicit depth) class (reverse stack.old.items) (reverse stack.new.items) b) }
{
    let term = Symbol::Phrase(Phrase::Term(explicit, depth + 1));
    match (class, explicit) {
        (Class::Mark(Mark::OpenParen), _) => put(
            stack,
            &[OPEN_PAREN, BINDER, COLON, term, CLOSE_PAREN],
        ),
        (Class::Mark(Mark::OpenBrace), false) => put(
            stack,
            &[OPEN_BRACE, BINDER, COLON, term, CLOSE_BRACE],
        ),
        (Class::Name(_) | Class::Hole, false) => put(stack, &[BINDER]),
        _ => Ok(false),
    }
}

/// Puts the token's right side of the binder of `fn` on the stack, and answers whether it has one.
pub fn put_fn(
    stack: &mut Vec<Symbol>,
    explicit: bool,
    depth: u32,
    class: Class,
) -> Result<bool, NoMemory>
    requires { depth ≤ 201 }
    ensures { IfOk result (λ b. IsPut (Fn explicit depth) class (reverse stack.old.items) (reverse stack.new.items) b) }
{
    let term = Symbol::Phrase(Phrase::Term(explicit, depth + 1));
    match (class, explicit) {
        (Class::Mark(Mark::OpenParen), _) => put(
            stack,
            &[OPEN_PAREN, BINDER, COLON, term, CLOSE_PAREN],
        ),
        (Class::Name(_) | Class::Hole, false) => put(stack, &[BINDER]),
        _ => Ok(false),
    }
}

/// Puts the token's right side of the binder of `Pi` on the stack, and answers whether it has one.
pub fn put_pi(
    stack: &mut Vec<Symbol>,
    explicit: bool,
    depth: u32,
    class: Class,
) -> Result<bool, NoMemory>
    requires { depth ≤ 201 }
    ensures { IfOk result (λ b. IsPut (PiBinder explicit depth) class (reverse stack.old.items) (reverse stack.new.items) b) }
{
    let term = Symbol::Phrase(Phrase::Term(explicit, depth + 1));
    match (class, explicit) {
        (Class::Mark(Mark::OpenParen), _) => put(
            stack,
            &[OPEN_PAREN, BINDER, COLON, term, CLOSE_PAREN],
        ),
        (Class::Mark(Mark::OpenBrace), false) => put(
            stack,
            &[OPEN_BRACE, BINDER, COLON, term, CLOSE_BRACE],
        ),
        _ => Ok(false),
    }
}

/// Puts the token's right side of what an arrow leads to on the stack, and answers whether it has one.
pub fn put_arrow(
    stack: &mut Vec<Symbol>,
    explicit: bool,
    depth: u32,
    class: Class,
) -> Result<bool, NoMemory>
    requires { depth ≤ 201 }
    ensures { IfOk result (λ b. IsPut (Arrow explicit depth) class (reverse stack.old.items) (reverse stack.new.items) b) }
{
    let term = Symbol::Phrase(Phrase::Term(explicit, depth + 1));
    match class {
        Class::Mark(Mark::Arrow | Mark::DoubleArrow) => put(stack, &[Symbol::Is(class), term]),
        _ => Ok(false),
    }
}
