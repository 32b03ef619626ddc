//! Laws of evaluation and of normal forms, each proved as the contract of a function that does nothing.
//!
//! Evaluation counts, and substitutes in a fixed order. Reductions do neither: a law here says that what evaluation answers
//! is reached by them.
#![tactic(auto)]

ghost use Rattle.cf_reduction.specs.Laws.{ConversionIsEquivalence, EvaluationGoesOn, EvaluationReaches, EvaluationRenames, EvaluationSpends, NormalFormReaches, NormalFormsAreNormal, NormalFormsKeepHoles, NormalFormsStayClosed, NormalTermsAreValues};
ghost use Rattle.cf_reduction.specs.Laws.{NormalTermsDoNotReduce, NormalTermsStay, ReachedTermsConvert, ReadingOfValueReaches, ReadingReaches, ReductionsKeepHoles, ReductionsStayClosed, SameNormalFormsConvert, UnmarkedTermsAreBare, ValuesStay};

/// What follows a step is evaluation itself, with the steps and the nest that are left.
pub fn evaluation_goes_on()
    ensures { EvaluationGoesOn }
{}

/// Evaluation goes through a renaming: the same steps, and the renamed value.
pub fn evaluation_renames()
    ensures { EvaluationRenames }
{
    cf_term::renaming_of_substituted();
    cf_term::substitution_of_renamed();
}

/// A value evaluates to itself, in no step.
pub fn values_stay()
    ensures { ValuesStay }
{}

/// No evaluation leaves more steps than it was given.
pub fn evaluation_spends()
    ensures { EvaluationSpends }
{}

/// A value is reached from its term by reductions, whatever variables are defined.
pub fn evaluation_reaches()
    ensures { EvaluationReaches }
{}

/// What is read back of a value is reached from it by reductions.
pub fn reading_reaches()
    ensures { ReadingReaches }
{}

/// A normal form is reached from its term by reductions, marks aside.
pub fn normal_form_reaches()
    ensures { NormalFormReaches }
{}

/// A term is normal exactly where nothing in it reduces.
pub fn normal_terms_do_not_reduce()
    ensures { NormalTermsDoNotReduce }
{}

/// A normal term evaluates to itself, in no step.
pub fn normal_terms_are_values()
    ensures { NormalTermsAreValues }
{}

/// Taking the marks of a term without marks away changes nothing.
pub fn unmarked_terms_are_bare()
    ensures { UnmarkedTermsAreBare }
{}

/// A normal term without marks is its own normal form, by a step for each node.
pub fn normal_terms_stay()
    ensures { NormalTermsStay }
{}

/// What is read back of a value is a normal term, and so is a normal form.
pub fn normal_forms_are_normal()
    ensures { NormalFormsAreNormal }
{}

/// What is read back of the value of a term is reached from the term by reductions, whatever variables are defined.
pub fn reading_of_value_reaches()
    ensures { ReadingOfValueReaches }
{}

/// Reductions bring no variable that was not there.
pub fn reductions_stay_closed()
    ensures { ReductionsStayClosed }
{
    cf_term::closed_among_more();
    cf_term::renamed_term_is_closed();
    cf_term::substitution_is_closed();
}

/// A normal form has no variable that its term has not.
pub fn normal_forms_stay_closed()
    ensures { NormalFormsStayClosed }
{
    cf_term::bare_term_is_closed();
    reductions_stay_closed();
}

/// Reductions bring no hole that was not there.
pub fn reductions_keep_holes()
    ensures { ReductionsKeepHoles }
{}

/// A normal form has no hole that its term has not.
pub fn normal_forms_keep_holes()
    ensures { NormalFormsKeepHoles }
{}

/// Conversion is an equivalence.
pub fn conversion_is_equivalence()
    ensures { ConversionIsEquivalence }
{}

/// A term converts to what reductions make of it.
pub fn reached_terms_convert()
    ensures { ReachedTermsConvert }
{}

/// Two terms whose normal forms are the same, marks and `implicit` flags aside, convert.
pub fn same_normal_forms_convert()
    ensures { SameNormalFormsConvert }
{
    cf_term::same_decides();
}
