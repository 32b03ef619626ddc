// Printed tokens, and the places where a form may stand.
ghost use Rattle.std.specs.Prelude.{◌≡◌};
ghost use Rattle.cf_core_text.specs.Pieces.{stands};

use cf_lex::{Keyword, Mark};

/// A printed token. Names are given by numbers (`specs/Names` has the names).
#[derive(Clone, Copy)]
pub enum Piece {
    /// a keyword
    Word(Keyword),
    /// a mark
    Mark(Mark),
    /// the parenthesis that opens the fields of `con`
    Fields,
    /// the meta definition or object declaration with this number
    Global(usize),
    /// `_k`: the local variable under k local binders
    Local(usize),
    /// the data type with this number
    DataType(usize),
    /// a constructor: the number of its data type, and its own there
    Ctor(usize, usize),
    /// a whole number
    Whole(i64),
    /// a Nat literal
    NatLit(u64),
    /// a hole with its number
    Hole(u32),
}

/// A place of the grammar where a term may stand.
#[derive(Clone, Copy)]
pub enum Place {
    /// a whole term
    Term,
    /// left of `@`
    Chain,
    /// left in an application
    Application,
    /// an atom
    Atom,
}

/// Whether a form of a class stands at a place without parentheses.
pub fn stands(place: Place, class: Place) -> bool
    ensures { result ≡ stands place class }
{
    match (place, class) {
        (Place::Term, _) => true,
        (_, Place::Atom) => true,
        (Place::Application, Place::Application) => true,
        (Place::Chain, Place::Chain) => true,
        _ => false,
    }
}
