//! Laws of what values stand for, each proved as the contract of a function that does nothing.

ghost use Rattle.cf_value.specs.Laws.{ArgumentPutIn, EnvironmentUnderBinders, ReadingsAgree, RenamingOfValue, ValueIsClosed, ValueOfContext, ValueOutOfBinders, ValueUnderBinders, VariablesAreValues};

use cf_term::{
    bare_term_is_closed, renaming_of_substituted, renamings_compose, substitution_is_closed,
    substitution_of_renamed, substitution_of_variables, substitutions_compose,
};

/// A renamed term of a value is the term where its levels stand for the renamed variables.
pub fn renaming_of_value()
    ensures { RenamingOfValue }
{
    renamings_compose();
    renaming_of_substituted();
}

/// A value of a context stands for a term that evaluates to itself.
pub fn value_of_context()
    ensures { ValueOfContext }
{}

/// Under object binders, an environment with their levels is the substitution under these binders.
pub fn environment_under_binders()
    ensures { EnvironmentUnderBinders }
{
    renaming_of_value();
}

/// An argument that is put in is one value more in the environment.
pub fn argument_put_in()
    ensures { ArgumentPutIn }
{
    substitutions_compose();
    substitution_of_renamed();
    substitution_of_variables();
}

/// The levels of object binders are values of the context that has their variables.
pub fn variables_are_values()
    ensures { VariablesAreValues }
{}

/// A value of the context that has the variables of object binders is known under these binders.
pub fn value_under_binders()
    ensures { ValueUnderBinders }
{}

/// A value that is known under object binders is a value of each context that has their levels.
pub fn value_out_of_binders()
    ensures { ValueOutOfBinders }
{}

/// What a value stands for depends on the variables of the levels of its context alone.
pub fn readings_agree()
    ensures { ReadingsAgree }
{}

/// What a value stands for is closed in the context of the variables of its levels.
pub fn value_is_closed()
    ensures { ValueIsClosed }
{
    bare_term_is_closed();
    substitution_is_closed();
}
