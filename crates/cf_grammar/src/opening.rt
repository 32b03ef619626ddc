// The right sides of all phrases.
ghost use Rattle.std.specs.Prelude.{◌≡◌, reverse, IfOk};
ghost use Rattle.cf_grammar.specs.Walking.{IsPut, IsSmall, may_be_empty};

use crate::atoms::{put_argument, put_atom, put_brackets, put_code, put_head, put_second};
use crate::classes::Class;
use crate::declarations::{put_constructor, put_declaration, put_parameter, put_program};
use crate::lists::{
    put_constructors, put_declarations, put_field, put_fields, put_more_constructors,
    put_more_fields, put_parameters,
};
use crate::parts::{
    put_application, put_arguments, put_binder, put_binders, put_branch, put_branches,
    put_case_type, put_chain, put_more_branches, put_more_terms, put_operand, put_operands,
    put_terms,
};
use crate::phrases::{Phrase, Symbol};
use crate::terms::{put_arrow, put_fn, put_lambda, put_pi, put_term};
use cf_base::NoMemory;

/// Puts the token's right side of the phrase on the stack, and answers whether it has one.
pub fn put_side(stack: &mut Vec<Symbol>, phrase: Phrase, class: Class) -> Result<bool, NoMemory>
    requires { IsSmall phrase }
    ensures { IfOk result (λ b. IsPut phrase class (reverse stack.old.items) (reverse stack.new.items) b) }
{
    match phrase {
        Phrase::Program => put_program(stack, class),
        Phrase::Decls(explicit, item) => put_declarations(stack, explicit, item, class),
        Phrase::Decl(explicit, item) => put_declaration(stack, explicit, item, class),
        Phrase::Params(item) => put_parameters(stack, item, class),
        Phrase::Param(item) => put_parameter(stack, item, class),
        Phrase::Ctors(explicit, item) => put_constructors(stack, explicit, item, class),
        Phrase::MoreCtors(explicit, item) => put_more_constructors(stack, explicit, item, class),
        Phrase::Ctor(explicit, item) => put_constructor(stack, explicit, item, class),
        Phrase::Fields(explicit, item) => put_fields(stack, explicit, item, class),
        Phrase::MoreFields(explicit, item) => put_more_fields(stack, explicit, item, class),
        Phrase::Field(explicit, item) => put_field(stack, explicit, item, class),
        Phrase::Terms(explicit, depth) => put_terms(stack, explicit, depth, class),
        Phrase::MoreTerms(explicit, depth) => put_more_terms(stack, explicit, depth, class),
        Phrase::Term(explicit, depth) => put_term(stack, explicit, depth, class),
        Phrase::Lambda(explicit, depth) => put_lambda(stack, explicit, depth, class),
        Phrase::Fn(explicit, depth) => put_fn(stack, explicit, depth, class),
        Phrase::PiBinder(explicit, depth) => put_pi(stack, explicit, depth, class),
        Phrase::CaseType(explicit, depth) => put_case_type(stack, explicit, depth, class),
        Phrase::Branches(explicit, depth) => put_branches(stack, explicit, depth, class),
        Phrase::MoreBranches(explicit, depth) => put_more_branches(stack, explicit, depth, class),
        Phrase::Branch(explicit, depth) => put_branch(stack, explicit, depth, class),
        Phrase::Arrow(explicit, depth) => put_arrow(stack, explicit, depth, class),
        Phrase::Chain(explicit, depth) => put_chain(stack, explicit, depth, class),
        Phrase::Operands(explicit, depth, item) => put_operands(
            stack, explicit, depth, item, class,
        ),
        Phrase::Operand(explicit, depth, item) => put_operand(stack, explicit, depth, item, class),
        Phrase::App(explicit, depth) => put_application(stack, explicit, depth, class),
        Phrase::Args(explicit, depth, item) => put_arguments(stack, explicit, depth, item, class),
        Phrase::Arg(explicit, depth, item) => put_argument(stack, explicit, depth, item, class),
        Phrase::Head(explicit, depth) => put_head(stack, explicit, depth, class),
        Phrase::Atom(explicit, depth) => put_atom(stack, explicit, depth, class),
        Phrase::Code(explicit, depth) => put_code(stack, explicit, depth, class),
        Phrase::Brackets(explicit, depth) => put_brackets(stack, explicit, depth, class),
        Phrase::ConBrackets(explicit, depth) => put_brackets(stack, explicit, depth, class),
        Phrase::Second(explicit, depth) => put_second(stack, explicit, depth, class),
        Phrase::Binder => put_binder(stack, class),
        Phrase::Binders => put_binders(stack, class),
    }
}

/// Whether the phrase may be empty.
pub fn may_be_empty(phrase: Phrase) -> bool
    ensures { result ≡ may_be_empty phrase }
{
    match phrase {
        Phrase::Program => true,
        Phrase::Decls(_, _) | Phrase::Params(_) => true,
        Phrase::Ctors(_, _) | Phrase::MoreCtors(_, _) => true,
        Phrase::Fields(_, _) | Phrase::MoreFields(_, _) => true,
        Phrase::Terms(_, _) | Phrase::MoreTerms(_, _) => true,
        Phrase::Branches(_, _) | Phrase::MoreBranches(_, _) => true,
        Phrase::Operands(_, _, _) | Phrase::Args(_, _, _) => true,
        Phrase::Arrow(_, _) | Phrase::Brackets(_, _) | Phrase::Second(_, _) => true,
        Phrase::Binders => true,
        Phrase::CaseType(explicit, _) | Phrase::ConBrackets(explicit, _) => !explicit,
        _ => false,
    }
}
