//! Laws of renaming, shifting and substitution, each proved as the contract of a function that does nothing.

ghost use Rattle.cf_term.specs.Laws.{BareTermIsClosed, ClosedAmongMore, RenamedTermIsClosed, RenamingIsSubstitution, RenamingOfClosed, RenamingOfSubstituted, RenamingsCompose, SameDecides, ShiftByNothing, ShiftOfClosed, ShiftedTermIsClosed, ShiftsAdd, SubstitutedTermIsClosed, SubstitutionIsClosed, SubstitutionOfClosed, SubstitutionOfInstance, SubstitutionOfRenamed, SubstitutionOfShifted, SubstitutionOfVariables, SubstitutionsCompose};

/// Two renamings after one another are one.
pub fn renamings_compose()
    ensures { RenamingsCompose }
{}

/// Substitution in a renamed term is one substitution.
pub fn substitution_of_renamed()
    ensures { SubstitutionOfRenamed }
{}

/// Renaming after substitution is one substitution.
pub fn renaming_of_substituted()
    ensures { RenamingOfSubstituted }
{}

/// Two substitutions after one another are one.
pub fn substitutions_compose()
    ensures { SubstitutionsCompose }
{}

/// Each variable for itself changes nothing.
pub fn substitution_of_variables()
    ensures { SubstitutionOfVariables }
{}

/// A renaming is a substitution of variables.
pub fn renaming_is_substitution()
    ensures { RenamingIsSubstitution }
{}

/// Substitution of a variable that a term was shifted past gives the term back.
pub fn substitution_of_shifted()
    ensures { SubstitutionOfShifted }
{}

/// Shifting twice at one place is shifting once.
pub fn shifts_add()
    ensures { ShiftsAdd }
{}

/// Shifting by nothing changes nothing.
pub fn shift_by_nothing()
    ensures { ShiftByNothing }
{}

/// Substitution goes past the putting in of an argument.
pub fn substitution_of_instance()
    ensures { SubstitutionOfInstance }
{}

/// The test for the same term decides equality, marks and `implicit` flags aside.
pub fn same_decides()
    ensures { SameDecides }
{}

/// A term in a context stands in each context of more variables.
pub fn closed_among_more()
    ensures { ClosedAmongMore }
{}

/// A renaming that keeps the variables of a term keeps the term.
pub fn renaming_of_closed()
    ensures { RenamingOfClosed }
{}

/// A substitution that keeps the variables of a term keeps the term.
pub fn substitution_of_closed()
    ensures { SubstitutionOfClosed }
{}

/// Shifting past the variables of a term keeps the term, and so does substitution for a variable past them.
pub fn shift_of_closed()
    ensures { ShiftOfClosed }
{}

/// A renaming into a context makes a term in that context.
pub fn renamed_term_is_closed()
    ensures { RenamedTermIsClosed }
{}

/// A substitution of terms in a context makes a term in that context, under binders as well.
pub fn substitution_is_closed()
    ensures { SubstitutionIsClosed }
{}

/// A shifted term stands in a context of as many variables more.
pub fn shifted_term_is_closed()
    ensures { ShiftedTermIsClosed }
{}

/// Putting a term in for a variable makes a term in a context of one variable less.
pub fn substituted_term_is_closed()
    ensures { SubstitutedTermIsClosed }
{}

/// A term without its marks stands in the same contexts.
pub fn bare_term_is_closed()
    ensures { BareTermIsClosed }
{}
