//! Laws of the tokens of a text, each proved as the contract of a function that does nothing.

ghost use Rattle.cf_lex.specs.Laws.{InOrder, LexesOne};

/// A text has one answer at most: its tokens, and where they stop.
pub fn lexes_one()
    ensures { LexesOne }
{}

/// The tokens of a text are in order, and do not overlap.
pub fn in_order()
    ensures { InOrder }
{}
