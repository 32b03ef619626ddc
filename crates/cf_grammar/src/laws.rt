//! Laws of the grammar, each proved as the contract of a function that does nothing.

ghost use Rattle.cf_grammar.specs.Laws.{Apart, ItemsFirst, OneChoice, OneDerivation, OneEnding};

/// At most one ending holds of the tokens of a text.
pub fn one_ending()
    ensures { OneEnding }
{}

/// Each text is a program by at most one derivation.
pub fn one_derivation()
    ensures { OneDerivation }
{}

/// Where the first phrase past a limit is one that is nested too deep, no item past a limit begins with the same token.
pub fn items_first()
    ensures { ItemsFirst }
{}

/// No two right sides of a phrase begin with the same token.
pub fn apart()
    ensures { Apart }
{}

/// At a phrase that is reached within a program, the next token tells the right side, and a derivation within the limits
/// goes on within them.
pub fn one_choice()
    ensures { OneChoice }
{}
