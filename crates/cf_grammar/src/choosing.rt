// By which kind of right side the next token opens a phrase, and the steps of symbols.
ghost use Rattle.std.specs.Prelude.{◌≡◌, false};
ghost use Rattle.cf_grammar.specs.declared.phrases.Phrase.TheVariants.{Binder, Binders, Branch, Branches, Ctor, Ctors, Decl, Decls, Field, MoreBranches, MoreCtors, Param, Params, Program};
ghost use Rattle.cf_grammar.specs.Productions.{production, step_of};

use crate::beginning::{begins_binder, begins_declaration, begins_term, is_name};
use crate::classes::Class;
use crate::kinds::{
    of_application, of_argument, of_arguments, of_arrow, of_atom, of_brackets, of_case_type,
    of_chain, of_code, of_fn, of_head, of_lambda, of_more_terms, of_operand, of_operands, of_pi,
    of_second, of_term, of_terms,
};
use crate::phrases::{Phrase, Symbol};
use crate::productions::{Production, Step};
use cf_lex::{Keyword, Mark};

/// The kind of the right side that opens a phrase at a token: of the one that begins with the token, and `Empty` where none
/// does.
pub fn production(phrase: Phrase, class: Class) -> Production
    ensures { result ≡ production phrase class }
{
    match phrase {
        Phrase::Program => of_program(class),
        Phrase::Decls(_, _) => of_declarations(class),
        Phrase::Decl(_, _) => of_declaration(class),
        Phrase::Params(_) => of_parameters(class),
        Phrase::Param(_) => of_parameter(class),
        Phrase::Ctors(_, _) => of_constructors(class),
        Phrase::MoreCtors(_, _) => of_more_constructors(class),
        Phrase::Ctor(_, _) => of_constructor(class),
        Phrase::Fields(explicit, _) => of_terms(explicit, class),
        Phrase::MoreFields(_, _) => of_more_terms(class),
        Phrase::Field(explicit, _) => of_field(explicit, class),
        Phrase::Terms(explicit, _) => of_terms(explicit, class),
        Phrase::MoreTerms(_, _) => of_more_terms(class),
        Phrase::Term(explicit, _) => of_term(explicit, class),
        Phrase::Lambda(explicit, _) => of_lambda(explicit, class),
        Phrase::Fn(explicit, _) => of_fn(explicit, class),
        Phrase::PiBinder(explicit, _) => of_pi(explicit, class),
        Phrase::CaseType(_, _) => of_case_type(class),
        Phrase::Branches(_, _) => of_branches(class),
        Phrase::MoreBranches(_, _) => of_more_branches(class),
        Phrase::Branch(_, _) => of_branch(class),
        Phrase::Arrow(_, _) => of_arrow(class),
        Phrase::Chain(explicit, _) => of_chain(explicit, class),
        Phrase::Operands(_, _, _) => of_operands(class),
        Phrase::Operand(explicit, _, _) => of_operand(explicit, class),
        Phrase::App(explicit, _) => of_application(explicit, class),
        Phrase::Args(explicit, _, _) => of_arguments(explicit, class),
        Phrase::Arg(explicit, _, _) => of_argument(explicit, class),
        Phrase::Head(explicit, _) => of_head(explicit, class),
        Phrase::Atom(explicit, _) => of_atom(explicit, class),
        Phrase::Code(_, _) => of_code(class),
        Phrase::Brackets(_, _) => of_brackets(class),
        Phrase::ConBrackets(_, _) => of_brackets(class),
        Phrase::Second(explicit, _) => of_second(explicit, class),
        Phrase::Binder => of_binder(class),
        Phrase::Binders => of_binders(class),
    }
}

/// The step of a symbol at a token.
pub fn step(symbol: Symbol, class: Class) -> Step
    ensures { result ≡ step_of symbol class }
{
    match symbol {
        Symbol::Phrase(phrase) => Step::Open(production(phrase, class)),
        Symbol::Is(_) | Symbol::AnyName => Step::Take,
    }
}

// The kind of right side of a program.
fn of_program(class: Class) -> Production
    ensures { result ≡ production Program class }
{
    match class {
        Class::Word(Keyword::Explicit) => Production::Explicit,
        Class::Word(Keyword::Use) => Production::Prelude,
        _ => if begins_declaration(class) {
            Production::Plain
        } else {
            Production::Empty
        },
    }
}

// The kind of right side of declarations.
fn of_declarations(class: Class) -> Production
    ensures { result ≡ production (Decls false 0) class }
{
    if begins_declaration(class) {
        Production::FirstDecl
    } else {
        Production::Empty
    }
}

// The kind of right side of a declaration.
fn of_declaration(class: Class) -> Production
    ensures { result ≡ production (Decl false 0) class }
{
    match class {
        Class::Word(Keyword::Data) => Production::Data,
        Class::Word(Keyword::Meta) => Production::Meta,
        Class::Name(true) => Production::Object,
        _ => Production::Empty,
    }
}

// The kind of right side of parameters.
fn of_parameters(class: Class) -> Production
    ensures { result ≡ production (Params 0) class }
{
    match class {
        Class::Mark(Mark::OpenParen) => Production::FirstParam,
        _ => Production::Empty,
    }
}

// The kind of right side of a parameter.
fn of_parameter(class: Class) -> Production
    ensures { result ≡ production (Param 0) class }
{
    match class {
        Class::Mark(Mark::OpenParen) => Production::Param,
        _ => Production::Empty,
    }
}

// The kind of right side of constructors.
fn of_constructors(class: Class) -> Production
    ensures { result ≡ production (Ctors false 0) class }
{
    match class {
        Class::Name(true) => Production::FirstCtor,
        _ => Production::Empty,
    }
}

// The kind of right side of constructors behind the first.
fn of_more_constructors(class: Class) -> Production
    ensures { result ≡ production (MoreCtors false 0) class }
{
    match class {
        Class::Mark(Mark::Bar) => Production::NextCtor,
        _ => Production::Empty,
    }
}

// The kind of right side of a constructor.
fn of_constructor(class: Class) -> Production
    ensures { result ≡ production (Ctor false 0) class }
{
    match class {
        Class::Name(true) => Production::Ctor,
        _ => Production::Empty,
    }
}

// The kind of right side of a field.
fn of_field(explicit: bool, class: Class) -> Production
    ensures { result ≡ production (Field explicit 0) class }
{
    if begins_term(explicit, class) {
        Production::Same
    } else {
        Production::Empty
    }
}

// The kind of right side of branches.
fn of_branches(class: Class) -> Production
    ensures { result ≡ production (Branches false 0) class }
{
    if is_name(class) {
        Production::FirstBranch
    } else {
        Production::Empty
    }
}

// The kind of right side of branches behind the first.
fn of_more_branches(class: Class) -> Production
    ensures { result ≡ production (MoreBranches false 0) class }
{
    match class {
        Class::Mark(Mark::Bar) => Production::NextBranch,
        _ => Production::Empty,
    }
}

// The kind of right side of a branch.
fn of_branch(class: Class) -> Production
    ensures { result ≡ production (Branch false 0) class }
{
    if is_name(class) {
        Production::Branch
    } else {
        Production::Empty
    }
}

// The kind of right side of a name or `_`.
fn of_binder(class: Class) -> Production
    ensures { result ≡ production Binder class }
{
    match class {
        Class::Name(_) => Production::Named,
        Class::Hole => Production::Unnamed,
        _ => Production::Empty,
    }
}

// The kind of right side of any number of names or `_`.
fn of_binders(class: Class) -> Production
    ensures { result ≡ production Binders class }
{
    if begins_binder(class) {
        Production::FirstBinder
    } else {
        Production::Empty
    }
}
