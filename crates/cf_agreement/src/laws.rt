//! Laws of agreement, each proved as the contract of a function that does nothing.

ghost use Rattle.cf_agreement.specs.Laws.{AgreeingIsOver, OneOutcome, SameOutcomes};

/// The end of a module's run that agrees with an outcome is over, and not for want of words.
pub fn agreeing_is_over()
    ensures { AgreeingIsOver }
{}

/// The end of a module's run agrees with at most one outcome.
pub fn one_outcome()
    ensures { OneOutcome }
{}

/// Two programs that one module ends as end in the same outcomes.
pub fn same_outcomes()
    ensures { SameOutcomes }
{}
