// By which kind of right side the next token opens a term, or a part of one.
ghost use Rattle.std.specs.Prelude.{◌≡◌, true, false};
ghost use Rattle.cf_grammar.specs.declared.classes.Class.TheVariants.{Word};
ghost use Rattle.cf_grammar.specs.declared.phrases.Phrase.TheVariants.{App, Arg, Args, Arrow, Atom, Brackets, CaseType, Chain, Code, ConBrackets, Fn, Head, Lambda, MoreTerms, Operand, Operands, PiBinder, Second, Term, Terms};
ghost use Rattle.cf_grammar.specs.Choosing.{for_constant, for_form, is_chosen};
ghost use Rattle.cf_grammar.specs.Productions.{production};

use crate::beginning::{begins_argument, begins_atom, begins_form, begins_head, begins_term};
use crate::classes::Class;
use crate::productions::Production;
use cf_lex::{Keyword, Mark};

/// The kind of right side of terms between commas, or of fields.
pub fn of_terms(explicit: bool, class: Class) -> Production
    ensures { result ≡ production (Terms explicit 0) class }
{
    if begins_term(explicit, class) {
        Production::FirstTerm
    } else {
        Production::Empty
    }
}

/// The kind of right side of terms or fields behind the first.
pub fn of_more_terms(class: Class) -> Production
    ensures { result ≡ production (MoreTerms false 0) class }
{
    match class {
        Class::Mark(Mark::Comma) => Production::NextTerm,
        _ => Production::Empty,
    }
}

/// The kind of right side of a term.
pub fn of_term(explicit: bool, class: Class) -> Production
    ensures { result ≡ production (Term explicit 0) class }
{
    if begins_form(class) {
        of_form(explicit, class)
    } else if begins_head(explicit, class) {
        Production::Arrow
    } else {
        Production::Empty
    }
}

// The kind of right side of a term that begins with a keyword or a mark of its own.
fn of_form(explicit: bool, class: Class) -> Production
    requires { is_chosen (for_form class) ≡ true }
    ensures { result ≡ production (Term explicit 0) class }
{
    match class {
        Class::Mark(Mark::Backslash) => Production::Lambda,
        Class::Word(Keyword::Fn) => Production::Function,
        Class::Word(Keyword::MetaLet) => Production::Let,
        Class::Word(Keyword::Let) => Production::LetV,
        Class::Word(Keyword::LetRec) => Production::LetRec,
        Class::Word(Keyword::Pi) => Production::Pi,
        Class::Word(Keyword::Sig) => Production::Sig,
        Class::Word(Keyword::Case) => Production::Case,
        _ => Production::Empty,
    }
}

/// The kind of right side of the binder of a lambda.
pub fn of_lambda(explicit: bool, class: Class) -> Production
    ensures { result ≡ production (Lambda explicit 0) class }
{
    match (class, explicit) {
        (Class::Mark(Mark::OpenParen), _) => Production::TypedBinder,
        (Class::Mark(Mark::OpenBrace), false) => Production::ImplicitBinder,
        (Class::Name(_) | Class::Hole, false) => Production::UntypedBinder,
        _ => Production::Empty,
    }
}

/// The kind of right side of the binder of `fn`.
pub fn of_fn(explicit: bool, class: Class) -> Production
    ensures { result ≡ production (Fn explicit 0) class }
{
    match (class, explicit) {
        (Class::Mark(Mark::OpenParen), _) => Production::TypedBinder,
        (Class::Name(_) | Class::Hole, false) => Production::UntypedBinder,
        _ => Production::Empty,
    }
}

/// The kind of right side of the binder of `Pi`.
pub fn of_pi(explicit: bool, class: Class) -> Production
    ensures { result ≡ production (PiBinder explicit 0) class }
{
    match (class, explicit) {
        (Class::Mark(Mark::OpenParen), _) => Production::TypedBinder,
        (Class::Mark(Mark::OpenBrace), false) => Production::ImplicitBinder,
        _ => Production::Empty,
    }
}

/// The kind of right side of the type of a `case`.
pub fn of_case_type(class: Class) -> Production
    ensures { result ≡ production (CaseType false 0) class }
{
    match class {
        Class::Mark(Mark::Colon) => Production::Behind,
        _ => Production::Empty,
    }
}

/// The kind of right side of what an arrow leads to.
pub fn of_arrow(class: Class) -> Production
    ensures { result ≡ production (Arrow false 0) class }
{
    match class {
        Class::Mark(Mark::Arrow) => Production::OntoMeta,
        Class::Mark(Mark::DoubleArrow) => Production::OntoObject,
        _ => Production::Empty,
    }
}

/// The kind of right side of a chain of `@`.
pub fn of_chain(explicit: bool, class: Class) -> Production
    ensures { result ≡ production (Chain explicit 0) class }
{
    if begins_head(explicit, class) {
        Production::Chain
    } else {
        Production::Empty
    }
}

/// The kind of right side of operands of `@`.
pub fn of_operands(class: Class) -> Production
    ensures { result ≡ production (Operands false 0 0) class }
{
    match class {
        Class::Mark(Mark::At) => Production::NextTerm,
        _ => Production::Empty,
    }
}

/// The kind of right side of an operand.
pub fn of_operand(explicit: bool, class: Class) -> Production
    ensures { result ≡ production (Operand explicit 0 0) class }
{
    if begins_head(explicit, class) {
        Production::Same
    } else {
        Production::Empty
    }
}

/// The kind of right side of an application.
pub fn of_application(explicit: bool, class: Class) -> Production
    ensures { result ≡ production (App explicit 0) class }
{
    if begins_head(explicit, class) {
        Production::Application
    } else {
        Production::Empty
    }
}

/// The kind of right side of arguments.
pub fn of_arguments(explicit: bool, class: Class) -> Production
    ensures { result ≡ production (Args explicit 0 0) class }
{
    if begins_argument(explicit, class) {
        Production::FirstArgument
    } else {
        Production::Empty
    }
}

/// The kind of right side of an argument.
pub fn of_argument(explicit: bool, class: Class) -> Production
    ensures { result ≡ production (Arg explicit 0 0) class }
{
    match class {
        Class::Mark(Mark::OpenBrace) => if explicit {
            Production::Empty
        } else {
            Production::ImplicitArgument
        },
        _ => if begins_atom(explicit, class) {
            Production::ExplicitArgument
        } else {
            Production::Empty
        },
    }
}

/// The kind of right side of the head of an application.
pub fn of_head(explicit: bool, class: Class) -> Production
    ensures { result ≡ production (Head explicit 0) class }
{
    if begins_atom(explicit, class) {
        return Production::Same;
    }
    match class {
        Class::Word(word) => of_word(explicit, word),
        _ => Production::Empty,
    }
}

// The kind of right side of a head that begins with a keyword, by how many atoms it takes.
fn of_word(explicit: bool, word: Keyword) -> Production
    requires { is_chosen (for_constant word) ≡ false }
    ensures { result ≡ production (Head explicit 0) (Word word) }
{
    match word {
        Keyword::Fail | Keyword::Fst | Keyword::Snd | Keyword::Suc => Production::OneAtom,
        Keyword::ListTy | Keyword::Nil | Keyword::V | Keyword::C => Production::OneAtom,
        Keyword::Cons | Keyword::Eq | Keyword::Lt => Production::TwoAtoms,
        Keyword::Add | Keyword::Sub | Keyword::Mul => Production::TwoAtoms,
        Keyword::Div | Keyword::Rem => Production::TwoAtoms,
        Keyword::Pair | Keyword::UnitRec => Production::ThreeAtoms,
        Keyword::BoolRec | Keyword::NatRec | Keyword::ListRec => Production::FourAtoms,
        _ => Production::Empty,
    }
}

/// The kind of right side of an atom.
pub fn of_atom(explicit: bool, class: Class) -> Production
    ensures { result ≡ production (Atom explicit 0) class }
{
    match class {
        Class::Name(_) => Production::Variable,
        Class::Whole => Production::Literal,
        Class::NatLit => Production::Numeral,
        Class::Word(word) => of_constant(explicit, word),
        Class::Hole => if explicit {
            Production::Empty
        } else {
            Production::Hole
        },
        Class::Mark(Mark::OpenParen) => Production::Enclosed,
        Class::Mark(Mark::Less) => Production::Quote,
        Class::Mark(Mark::Tilde | Mark::Caret) => Production::Same,
        _ => Production::Empty,
    }
}

// The kind of right side of an atom that begins with a keyword.
fn of_constant(explicit: bool, word: Keyword) -> Production
    ensures { result ≡ production (Atom explicit 0) (Word word) }
{
    match word {
        Keyword::Con => Production::Construction,
        Keyword::MetaTy | Keyword::ValTy | Keyword::CompTy | Keyword::Ty => Production::Constant,
        Keyword::UnitTy | Keyword::Unit | Keyword::BoolTy => Production::Constant,
        Keyword::True | Keyword::False | Keyword::NatTy => Production::Constant,
        Keyword::Zero | Keyword::IntTy => Production::Constant,
        _ => Production::Empty,
    }
}

/// The kind of right side of an atom that begins with `~` or `^`.
pub fn of_code(class: Class) -> Production
    ensures { result ≡ production (Code false 0) class }
{
    match class {
        Class::Mark(Mark::Tilde) => Production::Splice,
        Class::Mark(Mark::Caret) => Production::Lift,
        _ => Production::Empty,
    }
}

/// The kind of right side of the brackets behind a name.
pub fn of_brackets(class: Class) -> Production
    ensures behind_name { result ≡ production (Brackets false 0) class }
    ensures behind_con { result ≡ production (ConBrackets false 0) class }
{
    match class {
        Class::Mark(Mark::OpenBracket) => Production::Brackets,
        _ => Production::Empty,
    }
}

/// The kind of right side of the second component of a pair.
pub fn of_second(explicit: bool, class: Class) -> Production
    ensures { result ≡ production (Second explicit 0) class }
{
    match (class, explicit) {
        (Class::Mark(Mark::Comma), false) => Production::Behind,
        _ => Production::Empty,
    }
}
