//! A law of the lines of refusals, proved as the contract of a function that does nothing.

ghost use Rattle.cf_diag.specs.Laws.{LinesDiffer};

/// Two refusals with the same line are the same.
pub fn lines_differ()
    ensures { LinesDiffer }
{}
