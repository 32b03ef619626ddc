//! Laws of reading, each proved as the contract of a function that does nothing.

ghost use Rattle.cf_parse.specs.Laws.{KeepsDeclarations, ReadsOne};

/// The tokens of a text read as one program at most.
pub fn reads_one()
    ensures { ReadsOne }
{}

/// The program that a text reads as has the declarations of the text: none is dropped, none is added, and they stand in order.
pub fn keeps_declarations()
    ensures { KeepsDeclarations }
{}
