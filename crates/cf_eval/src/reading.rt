// Reading values back: a node for a step, and kept parts are evaluated before they are written.
ghost use Rattle.std.specs.Prelude.{◌≡◌, ◌≤◌, ◌∷◌, [], ℕ, IfOk, length};
ghost use Rattle.cf_term.specs.Closed.{IsClosed};
ghost use Rattle.cf_term.specs.Core.{nil, var};
ghost use Rattle.cf_term.specs.Core.{parts as parts_of};
ghost use Rattle.cf_term.specs.Evaluation.{AllDone, Done};
ghost use Rattle.cf_term.specs.NormalForms.{read_back, write_all_by, write_within, written};
ghost use Rattle.cf_term.specs.View.{listed};
ghost use Rattle.cf_value.specs.Contexts.{below, AreKnownParts, IsKnown, IsValueIn, or_levels};
ghost use Rattle.cf_value.specs.Heads.{head_of, Fits};
ghost use Rattle.cf_value.specs.Seen.{seen_part, seen_parts};
ghost use Rattle.cf_value.specs.Stands.{in_context, term_at, terms_at, with_levels};
ghost use Rattle.cf_value.specs.Val.{none, parts_in};
ghost use Rattle.cf_eval.specs.Answers.{Answers, AnswersAll, IsReachedFrom};
ghost use Rattle.cf_eval.specs.Goals.{part_term};
ghost use Rattle.cf_eval.specs.Scopes.{at_of};
ghost use Rattle.cf_eval.specs.Writing.{is_kept, part_written};

use crate::answers::{Budget, EvalEnd, Written};
use crate::binders::binds;
use crate::evaluating::{to_levels, under};
use crate::memory::{push, sum, to_share};
use crate::scoping::Scope;
use cf_reduction::{reading_reaches, reductions_stay_closed};
use cf_term::{Term, TermNode};
use cf_value::{
    Shape, Value, ValueNode, ValuePart, readings_agree, value_is_closed, value_out_of_binders,
};
use std::alloc::Global;
use std::rc::Rc;

/// The parts of a form, written, and the steps that are left.
#[derive(Drop)]
struct AllWritten {
    terms: Vec<Rc<Term>>,
    left: u64,
}

/// The normal form that the value of a context of `depth` variables is written as. Each node takes a step. The normal form stands
/// in the context, and reductions lead from the value to it.
pub fn read_back(alloc: Global, v: &Value, depth: u32, budget: Budget) -> Result<Written, EvalEnd>
    requires { IsValueIn depth v.now }
    ensures equal { Answers result (λ w. Done w.term w.left) (read_back budget.steps budget.nest (term_at (in_context depth) v.now)) }
    ensures closed { IfOk result (λ w. IsClosed depth w.term) }
    ensures reached { IfOk result (λ w. IsReachedFrom (term_at (in_context depth) v.now) w.term) }
{
    readings_agree();
    value_is_closed();
    reading_reaches();
    reductions_stay_closed();
    let scope = Scope::context(depth);
    read(alloc, &scope, v, depth, budget.steps, budget.nest)
}

/// Writes a value whose levels stand for the variables of the scope.
#[cycle(reading)]
fn read(
    alloc: Global,
    scope: &Scope,
    v: &Value,
    depth: u32,
    steps: u64,
    nest: u32,
) -> Result<Written, EvalEnd>
    requires { IsValueIn depth v.now }
    ensures equal { (n : ℕ) → steps ≤ n → Answers result (λ w. Done w.term w.left) (write_within n nest steps (term_at (at_of scope.now) v.now)) }
    ensures spends { IfOk result (λ w. w.left ≤ steps) }
{
    if steps == 0 {
        return Err(EvalEnd::Spent);
    }
    match &v.node {
        ValueNode::Level(n) => Ok(Written {
            term: variable(scope.place(*n)?),
            left: steps - 1,
        }),
        ValueNode::Form {
            shape,
            first,
            parts,
        } => read_form(alloc, scope, shape, *first, parts, depth, steps - 1, nest),
    }
}

fn variable(i: u32) -> Term
    ensures { result ≡ var i }
{
    Term {
        inserted: false,
        node: TermNode::Var(i),
    }
}

/// Writes a form whose own step is taken.
#[cycle(reading)]
fn read_form(
    alloc: Global,
    scope: &Scope,
    shape: &Shape,
    first: u32,
    parts: &Vec<ValuePart>,
    depth: u32,
    steps: u64,
    nest: u32,
) -> Result<Written, EvalEnd>
    requires fits { Fits (head_of shape.now) (parts_in (seen_parts parts.now.items)) }
    requires known { AreKnownParts (below depth) first (parts_of (head_of shape.now)) (seen_parts parts.now.items) }
    ensures equal { (n : ℕ) → steps ≤ n → Answers result (λ w. Done w.term w.left)
        (written (head_of shape.now) (write_all_by (write_within n nest) steps nest (parts_of (head_of shape.now)) (terms_at (at_of scope.now) first (parts_of (head_of shape.now)) (seen_parts parts.now.items)))) }
    ensures spends { IfOk result (λ w. w.left ≤ steps) }
{
    let all = read_parts(alloc, scope, shape, first, parts, depth, steps, nest)?;
    let node = shape.with_parts(alloc, all.terms)?;
    Ok(Written {
        term: Term {
            inserted: false,
            node,
        },
        left: all.left,
    })
}

/// Writes the parts of a form, in order.
#[cycle(reading)]
fn read_parts(
    alloc: Global,
    scope: &Scope,
    shape: &Shape,
    first: u32,
    parts: &Vec<ValuePart>,
    depth: u32,
    steps: u64,
    nest: u32,
) -> Result<AllWritten, EvalEnd>
    requires known { AreKnownParts (below depth) first (parts_of (head_of shape.now)) (seen_parts parts.now.items) }
    ensures equal { (n : ℕ) → steps ≤ n → AnswersAll result (λ r. AllDone (listed r.terms.items nil) r.left)
        (write_all_by (write_within n nest) steps nest (parts_of (head_of shape.now)) (terms_at (at_of scope.now) first (parts_of (head_of shape.now)) (seen_parts parts.now.items))) }
    ensures count { IfOk result (λ r. length r.terms.items ≡ parts_in (seen_parts parts.now.items)) }
    ensures spends { IfOk result (λ r. r.left ≤ steps) }
{
    let mut terms = Vec::new(alloc);
    let mut left = steps;
    for i in 0..parts.len() {
        let binds = binds(shape, i);
        match parts.get(i) {
            Some(part) => {
                let one = read_part(alloc, scope, binds, first, part, depth, left, nest)?;
                let term = to_share(alloc, one.term)?;
                push(&mut terms, term)?;
                left = one.left;
            }
            None => unreachable!(),
        }
    }
    Ok(AllWritten { terms, left })
}

/// Writes a part. One that was kept is evaluated first, with new levels for the variables that its form binds.
#[cycle(reading)]
fn read_part(
    alloc: Global,
    scope: &Scope,
    binds: u64,
    first: u32,
    part: &ValuePart,
    depth: u32,
    steps: u64,
    nest: u32,
) -> Result<Written, EvalEnd>
    requires known { AreKnownParts (below depth) first (record { binds = binds; kept = is_kept part.now } ∷ []) (seen_part part.now none) }
    ensures equal { (n : ℕ) → steps ≤ n → Answers result (λ w. Done w.term w.left) (part_written (is_kept part.now) n nest steps (part_term (at_of scope.now) first binds part.now)) }
    ensures spends { IfOk result (λ w. w.left ≤ steps) }
{
    match part {
        ValuePart::Ready(v) => read_under(alloc, scope, binds, first, v, depth, steps, nest),
        ValuePart::Kept(f) => {
            let v = under(alloc, &f.env, binds, &f.body, depth, steps, nest)?;
            read_under(alloc, scope, binds, depth, &v.value, depth, v.left, nest)
        }
    }
}

/// Writes a value under object binders with the levels from `first` on.
#[cycle(reading)]
fn read_under(
    alloc: Global,
    scope: &Scope,
    binds: u64,
    first: u32,
    v: &Value,
    depth: u32,
    steps: u64,
    nest: u32,
) -> Result<Written, EvalEnd>
    requires known { IsKnown (or_levels binds first (below depth)) v.now }
    ensures equal { (n : ℕ) → steps ≤ n → Answers result (λ w. Done w.term w.left) (write_within n nest steps (term_at (with_levels binds first (at_of scope.now)) v.now)) }
    ensures spends { IfOk result (λ w. w.left ≤ steps) }
{
    value_out_of_binders();
    let count = to_levels(binds)?;
    let inner = scope.under(alloc, count, first)?;
    let deeper = depth.max(sum(first, count)?);
    read(alloc, &inner, v, deeper, steps, nest)
}
