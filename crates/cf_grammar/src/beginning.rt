// Which tokens begin a phrase.
ghost use Rattle.std.specs.Prelude.{◌≡◌};
ghost use Rattle.cf_grammar.specs.Choosing.{for_atom, for_arg, for_binder, for_constant, for_decl, for_form, for_global, for_head, for_name, for_taking, for_term, is_chosen};

use crate::classes::Class;
use cf_lex::{Keyword, Mark};

/// Whether the keyword is an atom or begins one: it takes no atoms, or is `con`.
pub fn begins_constant(word: Keyword) -> bool
    ensures { result ≡ is_chosen (for_constant word) }
{
    match word {
        Keyword::Con => true,
        Keyword::MetaTy => true,
        Keyword::ValTy => true,
        Keyword::CompTy => true,
        Keyword::Ty => true,
        Keyword::UnitTy => true,
        Keyword::Unit => true,
        Keyword::BoolTy => true,
        Keyword::True => true,
        Keyword::False => true,
        Keyword::NatTy => true,
        Keyword::Zero => true,
        Keyword::IntTy => true,
        _ => false,
    }
}

/// Whether the keyword takes atoms.
pub fn takes_atoms(word: Keyword) -> bool
    ensures { result ≡ is_chosen (for_taking word) }
{
    match word {
        Keyword::Fail => true,
        Keyword::Fst => true,
        Keyword::Snd => true,
        Keyword::Suc => true,
        Keyword::ListTy => true,
        Keyword::Nil => true,
        Keyword::V => true,
        Keyword::C => true,
        Keyword::Cons => true,
        Keyword::Add => true,
        Keyword::Sub => true,
        Keyword::Mul => true,
        Keyword::Div => true,
        Keyword::Rem => true,
        Keyword::Eq => true,
        Keyword::Lt => true,
        Keyword::Pair => true,
        Keyword::UnitRec => true,
        Keyword::BoolRec => true,
        Keyword::NatRec => true,
        Keyword::ListRec => true,
        _ => false,
    }
}

/// Whether the token begins an atom; in an explicit program `_` begins none.
pub fn begins_atom(explicit: bool, class: Class) -> bool
    ensures { result ≡ is_chosen (for_atom explicit class) }
{
    match class {
        Class::Name(_) => true,
        Class::Whole => true,
        Class::NatLit => true,
        Class::Word(word) => begins_constant(word),
        Class::Hole => !explicit,
        Class::Mark(Mark::OpenParen) => true,
        Class::Mark(Mark::Less) => true,
        Class::Mark(Mark::Tilde) => true,
        Class::Mark(Mark::Caret) => true,
        _ => false,
    }
}

/// Whether the token begins the head of an application: an atom, or a keyword that takes atoms.
pub fn begins_head(explicit: bool, class: Class) -> bool
    ensures { result ≡ is_chosen (for_head explicit class) }
{
    match class {
        Class::Word(word) => begins_constant(word) || takes_atoms(word),
        _ => begins_atom(explicit, class),
    }
}

/// Whether the token begins an argument: an atom, or `{` where the program is not explicit.
pub fn begins_argument(explicit: bool, class: Class) -> bool
    ensures { result ≡ is_chosen (for_arg explicit class) }
{
    match class {
        Class::Mark(Mark::OpenBrace) => !explicit,
        _ => begins_atom(explicit, class),
    }
}

/// Whether the token is a keyword or a mark of a form of its own.
pub fn begins_form(class: Class) -> bool
    ensures { result ≡ is_chosen (for_form class) }
{
    match class {
        Class::Mark(Mark::Backslash) => true,
        Class::Word(Keyword::Fn) => true,
        Class::Word(Keyword::MetaLet) => true,
        Class::Word(Keyword::Let) => true,
        Class::Word(Keyword::LetRec) => true,
        Class::Word(Keyword::Pi) => true,
        Class::Word(Keyword::Sig) => true,
        Class::Word(Keyword::Case) => true,
        _ => false,
    }
}

/// Whether the token begins a term.
pub fn begins_term(explicit: bool, class: Class) -> bool
    ensures { result ≡ is_chosen (for_term explicit class) }
{
    begins_form(class) || begins_head(explicit, class)
}

/// Whether the token begins a declaration.
pub fn begins_declaration(class: Class) -> bool
    ensures { result ≡ is_chosen (for_decl class) }
{
    match class {
        Class::Word(Keyword::Data) => true,
        Class::Word(Keyword::Meta) => true,
        Class::Name(global) => global,
        _ => false,
    }
}

/// Whether the token is a name or `_`.
pub fn begins_binder(class: Class) -> bool
    ensures { result ≡ is_chosen (for_binder class) }
{
    match class {
        Class::Name(_) => true,
        Class::Hole => true,
        _ => false,
    }
}

/// Whether the token is a name.
pub fn is_name(class: Class) -> bool
    ensures { result ≡ is_chosen (for_name class) }
{
    match class {
        Class::Name(_) => true,
        _ => false,
    }
}
