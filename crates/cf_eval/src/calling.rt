// The calls: an evaluation, and an evaluation that is read back.
ghost use Rattle.std.specs.Prelude.{IfOk};
ghost use Rattle.cf_term.specs.Closed.{IsClosed};
ghost use Rattle.cf_term.specs.Evaluation.{Done, evaluate};
ghost use Rattle.cf_term.specs.NormalForms.{then_read_back};
ghost use Rattle.cf_term.specs.Same.{bare};
ghost use Rattle.cf_term.specs.Substitution.{substitute};
ghost use Rattle.cf_value.specs.Contexts.{AreValuesIn, IsValueIn};
ghost use Rattle.cf_value.specs.Stands.{env_at, in_context, term_at};
ghost use Rattle.cf_value.specs.Val.{values_in};
ghost use Rattle.cf_eval.specs.Answers.{Answers, IsReachedFrom};

use crate::answers::{Budget, EvalEnd, Evaluated, Written};
use crate::evaluating::value_of;
use crate::reading::read_back;
use cf_reduction::{evaluation_reaches, reading_of_value_reaches};
use cf_term::Term;
use cf_value::Env;
use std::alloc::Global;

/// The value of the term, with the values of its variables, in a context of `depth` variables. `Spent` where a step
/// was to be taken and none was left, `Deep` where one was left and the nest was used up. Reductions lead from the term to it.
pub fn evaluate(
    alloc: Global,
    env: &Env,
    t: &Term,
    depth: u32,
    budget: Budget,
) -> Result<Evaluated, EvalEnd>
    requires closed { IsClosed (values_in env.now) t.now }
    requires values { AreValuesIn depth env.now }
    ensures equal { Answers result (λ e. Done (term_at (in_context depth) e.value) e.left) (evaluate budget.steps budget.nest (substitute (env_at (in_context depth) env.now) (bare t.now))) }
    ensures value { IfOk result (λ e. IsValueIn depth e.value) }
    ensures reached { IfOk result (λ e. IsReachedFrom (substitute (env_at (in_context depth) env.now) (bare t.now)) (term_at (in_context depth) e.value)) }
{
    evaluation_reaches();
    let reached = value_of(alloc, env, t, depth, budget.steps, budget.nest)?;
    let value = reached.value.copy(alloc)?;
    Ok(Evaluated {
        value,
        left: reached.left,
    })
}

/// The normal form of the term, with the values of its variables, in a context of `depth` variables: it is evaluated, and
/// its value is written with the steps that are left. It stands in the context, and reductions lead from the term to it.
pub fn normalise(
    alloc: Global,
    env: &Env,
    t: &Term,
    depth: u32,
    budget: Budget,
) -> Result<Written, EvalEnd>
    requires closed { IsClosed (values_in env.now) t.now }
    requires values { AreValuesIn depth env.now }
    ensures equal { Answers result (λ w. Done w.term w.left) (then_read_back budget.nest (evaluate budget.steps budget.nest (substitute (env_at (in_context depth) env.now) (bare t.now)))) }
    ensures closed { IfOk result (λ w. IsClosed depth w.term) }
    ensures reached { IfOk result (λ w. IsReachedFrom (substitute (env_at (in_context depth) env.now) (bare t.now)) w.term) }
{
    reading_of_value_reaches();
    let reached = value_of(alloc, env, t, depth, budget.steps, budget.nest)?;
    let rest = Budget {
        steps: reached.left,
        nest: budget.nest,
    };
    read_back(alloc, &reached.value, depth, rest)
}
