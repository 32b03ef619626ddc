//! Laws of the definitions, each the contract of a function that does nothing.

ghost use Rattle.wb_syntax.specs.Laws.{
  DecodedExactly,
  EncodesOne,
  NestedExactly,
  WellNestedExactly,
  TypedIsProper,
  StandsOnAny,
  RunsEndedStay,
  MainEndedStays,
  MachEndedStays,
};

/// Bytes spell a module by the grammar exactly where `decoded` reads that module from them.
pub fn decoded_exactly()
    ensures { DecodedExactly }
{}

/// No list of bytes spells two modules.
pub fn encodes_one()
    ensures { EncodesOne }
{}

/// The nested code of a body is the only proper code that, written out and closed by an end, is that body.
pub fn nested_exactly()
    ensures { NestedExactly }
{}

/// A body is well nested exactly where it has nested code.
pub fn well_nested_exactly()
    ensures { WellNestedExactly }
{}

/// Code by which a body is typed is proper, and is the nested code of that body.
pub fn typed_is_proper()
    ensures { TypedIsProper }
{}

/// Code that has a type has it over any stack, and leaves what is below as it is.
pub fn stands_on_any()
    ensures { StandsOnAny }
{}

/// A run that has ended ends the same way however many more steps it may make.
pub fn ended_stays()
    ensures runs { RunsEndedStay }
    ensures main { MainEndedStays }
    ensures mach { MachEndedStays }
{}
