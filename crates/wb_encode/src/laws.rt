//! Laws, each proved as the contract of a function that does nothing.

ghost use Rattle.wb_encode.specs.Laws.{EncodedIsEncodable, ValidIsEncodable, CanonicalIsOne, CanonicalHasItems};

use wb_syntax::{typed_is_proper, well_nested_exactly};

/// A module that has bytes meets what `encode` asks of it.
pub fn encoded_is_encodable()
    ensures { EncodedIsEncodable }
{}

/// A valid module meets what `encode` asks of it, where each of its bodies has fewer than 2^32 locals.
pub fn valid_is_encodable()
    ensures { ValidIsEncodable }
{
    typed_is_proper();
    well_nested_exactly();
}

/// A module has one canonical list of bytes at most.
pub fn canonical_is_one()
    ensures { CanonicalIsOne }
{}

/// Canonical bytes have neither an empty section nor a custom one.
pub fn canonical_has_items()
    ensures { CanonicalHasItems }
{}
