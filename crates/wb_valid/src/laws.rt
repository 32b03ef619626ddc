//! Laws of validity, each the contract of a function that does nothing.

ghost use Rattle.wb_valid.specs.Laws.{FirstIsOne, ValidHasNone};

/// At most one part of a module is the first that is not valid, and none of a valid one.
pub fn first_is_one()
    ensures one { FirstIsOne }
    ensures none { ValidHasNone }
{}
