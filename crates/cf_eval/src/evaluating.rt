// Evaluation with shared environments: the parts of a form in order, and then its step.
ghost use Rattle.std.specs.Prelude.{◌≡◌, ◌≤◌, ◌<◌, ◌+◌, ◌∷◌, [], false, max, ℕ, IfOk, None};
ghost use Rattle.cf_term.specs.Closed.{AreClosed, IsClosed};
ghost use Rattle.cf_term.specs.Core.{cons, here, later, nil, AppH};
ghost use Rattle.cf_term.specs.Core.{depth as depth_of, depth_all, parts as parts_of};
ghost use Rattle.cf_term.specs.Evaluation.{AllDone, Done, evaluate, evaluate_all_by, finish, formed, step};
ghost use Rattle.cf_term.specs.Numbered.{places, terms, variable_of};
ghost use Rattle.cf_term.specs.Numbered.{count as count_of};
ghost use Rattle.cf_term.specs.Same.{bare, bare_all};
ghost use Rattle.cf_term.specs.Substitution.{instance, substitute, substitute_all, ups};
ghost use Rattle.cf_term.specs.View.{tm_of};
ghost use Rattle.cf_value.specs.Contexts.{below, AreKnownParts, AreValuesIn, IsKnown, IsValueIn, or_levels, with_variables};
ghost use Rattle.cf_value.specs.Heads.{head_of, Fits};
ghost use Rattle.cf_value.specs.Seen.{seen_part, seen_parts};
ghost use Rattle.cf_value.specs.Stands.{env_at, term_at, terms_at, with_levels};
ghost use Rattle.cf_value.specs.Val.{form, frozen, none, parts_in, ready, values_in};
ghost use Rattle.cf_eval.specs.Answers.{Answers, AnswersAll};
ghost use Rattle.cf_eval.specs.Bulk.{bulk, bulks, goal_bulk, kept_bulk, part_bulk};
ghost use Rattle.cf_eval.specs.Goals.{goal_of, part_out, part_term};
ghost use Rattle.cf_eval.specs.Redexes.{IsKnownGoal, IsKnownKept, body_at, goal_at, kept_at, kept_of, list_case, number_case, redex};

use crate::answers::EvalEnd;
use crate::memory::{push, shared, sum, to_share};
use crate::stepping::{Next, step, unquoted};
use cf_base::NoMemory;
use cf_reduction::evaluation_goes_on;
use cf_term::{Part, Term, TermNode};
use cf_value::{
    Env, Frozen, Shape, Value, ValueNode, ValuePart, argument_put_in, environment_under_binders,
    value_of_context, value_under_binders, variables_are_values,
};
use std::alloc::Global;
use std::rc::Rc;

/// A value, shared, and the steps that are left.
#[derive(Drop)]
pub(crate) struct Reached {
    pub value: Rc<Value>,
    pub left: u64,
}

/// A part of a form, evaluated where it is not kept, and the steps that are left.
#[derive(Drop)]
pub(crate) struct PartReached {
    pub part: ValuePart,
    pub left: u64,
}

/// The parts of a form, evaluated where they are not kept, and the steps that are left.
#[derive(Drop)]
pub(crate) struct AllReached {
    pub parts: Vec<ValuePart>,
    pub left: u64,
}

/// The value of the term, with the values of its variables, in a context of `depth` variables.
#[cycle(evaluating)]
pub(crate) fn value_of(
    alloc: Global,
    env: &Env,
    t: &Term,
    depth: u32,
    steps: u64,
    nest: u32,
) -> Result<Reached, EvalEnd>
    requires closed { IsClosed (values_in env.now) t.now }
    requires values { AreValuesIn depth env.now }
    ensures equal { (at : ℕ → ℕ) → Answers result (λ r. Done (term_at at r.value.value) r.left) (evaluate steps nest (substitute (env_at at env.now) (bare t.now))) }
    ensures known { IfOk result (λ r. IsValueIn depth r.value.value) }
    ensures no_deeper { IfOk result (λ r. bulk r.value.value ≤ max (bulks env.now) (depth_of t.now)) }
    ensures spends { IfOk result (λ r. r.left ≤ steps) }
{
    match t.node.variable() {
        Some(i) => Ok(found(env, i, depth, steps)?),
        None => form_of(alloc, env, &t.node, depth, steps, nest),
    }
}

/// The value of a form.
#[cycle(evaluating)]
fn form_of(
    alloc: Global,
    env: &Env,
    node: &TermNode,
    depth: u32,
    steps: u64,
    nest: u32,
) -> Result<Reached, EvalEnd>
    requires form { variable_of (tm_of node.now) ≡ None }
    requires closed { AreClosed (values_in env.now) (places (tm_of node.now)) (terms (tm_of node.now)) }
    requires values { AreValuesIn depth env.now }
    ensures equal { (at : ℕ → ℕ) → Answers result (λ r. Done (term_at at r.value.value) r.left) (evaluate steps nest (substitute (env_at at env.now) (bare (tm_of node.now)))) }
    ensures known { IfOk result (λ r. IsValueIn depth r.value.value) }
    ensures no_deeper { IfOk result (λ r. bulk r.value.value ≤ max (bulks env.now) (depth_of (tm_of node.now))) }
    ensures spends { IfOk result (λ r. r.left ≤ steps) }
{
    evaluation_goes_on();
    let shape = Shape::of(alloc, node)?;
    let all = parts_in_order(alloc, env, node, depth, steps, nest)?;
    finished(alloc, shape, all.parts, all.left, depth, nest)
}

// the value of a variable
fn found(env: &Env, i: u32, depth: u32, steps: u64) -> Result<Reached, NoMemory>
    requires bound { i < values_in env.now }
    requires values { AreValuesIn depth env.now }
    ensures stands { IfOk result (λ r. (at : ℕ → ℕ) → env_at at env.now i ≡ term_at at r.value.value) }
    ensures known { IfOk result (λ r. IsValueIn depth r.value.value) }
    ensures no_deeper { IfOk result (λ r. bulk r.value.value ≤ bulks env.now) }
    ensures left { IfOk result (λ r. r.left ≡ steps) }
{
    match env.get(i) {
        Some(v) => Ok(Reached {
            value: shared(v)?,
            left: steps,
        }),
        None => unreachable!(),
    }
}

/// The parts of a form: those that are not kept are evaluated, in order.
#[cycle(evaluating)]
fn parts_in_order(
    alloc: Global,
    env: &Env,
    node: &TermNode,
    depth: u32,
    steps: u64,
    nest: u32,
) -> Result<AllReached, EvalEnd>
    requires closed { AreClosed (values_in env.now) (places (tm_of node.now)) (terms (tm_of node.now)) }
    requires values { AreValuesIn depth env.now }
    ensures equal { (at : ℕ → ℕ) → AnswersAll result (λ r. AllDone (terms_at at depth (places (tm_of node.now)) (seen_parts r.parts.items)) r.left)
        (evaluate_all_by evaluate steps nest (places (tm_of node.now)) (substitute_all (env_at at env.now) (places (tm_of node.now)) (bare_all (terms (tm_of node.now))))) }
    ensures count { IfOk result (λ r. parts_in (seen_parts r.parts.items) ≡ count_of (tm_of node.now)) }
    ensures known { IfOk result (λ r. AreKnownParts (below depth) depth (places (tm_of node.now)) (seen_parts r.parts.items)) }
    ensures no_deeper { IfOk result (λ r. part_bulk (seen_parts r.parts.items) ≤ max (bulks env.now) (depth_all (terms (tm_of node.now)))) }
    ensures spends { IfOk result (λ r. r.left ≤ steps) }
{
    evaluation_goes_on();
    let mut made = Vec::new(alloc);
    let mut left = steps;
    for i in 0..node.count() {
        match node.part(i) {
            Some(p) => {
                let one = part_of(alloc, env, &p, depth, left, nest)?;
                push(&mut made, one.part)?;
                left = one.left;
            }
            None => unreachable!(),
        }
    }
    Ok(AllReached { parts: made, left })
}

/// A part of a form: it is evaluated, or kept with the values of its variables.
#[cycle(evaluating)]
fn part_of(
    alloc: Global,
    env: &Env,
    part: &Part<'_>,
    depth: u32,
    steps: u64,
    nest: u32,
) -> Result<PartReached, EvalEnd>
    requires closed { IsClosed (values_in env.now + part.now.binds) part.now.term.now.value }
    requires values { AreValuesIn depth env.now }
    ensures equal { (at : ℕ → ℕ) → Answers result (λ r. Done (part_term at depth part.now.binds r.part) r.left)
        (part_out part.now.kept steps nest (substitute (ups part.now.binds (env_at at env.now)) (bare part.now.term.now.value))) }
    ensures known { IfOk result (λ r. AreKnownParts (below depth) depth (record { binds = part.now.binds; kept = part.now.kept } ∷ []) (seen_part r.part none)) }
    ensures no_deeper { IfOk result (λ r. part_bulk (seen_part r.part none) ≤ max (bulks env.now) (depth_of part.now.term.now.value)) }
    ensures spends { IfOk result (λ r. r.left ≤ steps) }
{
    if part.kept {
        let body = shared(part.term)?;
        let env = env.share()?;
        Ok(PartReached {
            part: ValuePart::Kept(Frozen { env, body }),
            left: steps,
        })
    } else {
        let v = under(alloc, env, part.binds, part.term, depth, steps, nest)?;
        Ok(PartReached {
            part: ValuePart::Ready(v.value),
            left: v.left,
        })
    }
}

/// The value of a term under `binds` object binders, which get the levels from `depth` on.
#[cycle(evaluating)]
pub(crate) fn under(
    alloc: Global,
    env: &Env,
    binds: u64,
    t: &Term,
    depth: u32,
    steps: u64,
    nest: u32,
) -> Result<Reached, EvalEnd>
    requires closed { IsClosed (values_in env.now + binds) t.now }
    requires values { AreValuesIn depth env.now }
    ensures equal { (at : ℕ → ℕ) → Answers result (λ r. Done (term_at (with_levels binds depth at) r.value.value) r.left) (evaluate steps nest (substitute (ups binds (env_at at env.now)) (bare t.now))) }
    ensures known { IfOk result (λ r. IsKnown (or_levels binds depth (below depth)) r.value.value) }
    ensures no_deeper { IfOk result (λ r. bulk r.value.value ≤ max (bulks env.now) (depth_of t.now)) }
    ensures spends { IfOk result (λ r. r.left ≤ steps) }
{
    let count = to_levels(binds)?;
    let inner = with_levels(alloc, env, count, depth)?;
    let deeper = sum(depth, count)?;
    environment_under_binders();
    variables_are_values();
    value_under_binders();
    value_of(alloc, &inner, t, deeper, steps, nest)
}

// a number of variables, where there are levels for them
pub(crate) fn to_levels(binds: u64) -> Result<u32, NoMemory>
    ensures { IfOk result (λ n. n ≡ binds) }
{
    match u32::try_from(binds) {
        Ok(n) => Ok(n),
        Err(_) => Err(NoMemory),
    }
}

// the environment under object binders: the levels from `level` on for their variables
fn with_levels(alloc: Global, env: &Env, count: u32, level: u32) -> Result<Env, NoMemory>
    ensures { IfOk result (λ e. e ≡ with_variables count level env.now) }
{
    let mut inner = env.share()?;
    for i in 0..count {
        let variable = to_share(alloc, Value::level(sum(level, i)?))?;
        inner = inner.push(alloc, variable)?;
    }
    Ok(inner)
}

/// The value of a form with evaluated parts: its step is taken, if it takes one.
#[cycle(evaluating)]
fn finished(
    alloc: Global,
    shape: Shape,
    parts: Vec<ValuePart>,
    left: u64,
    depth: u32,
    nest: u32,
) -> Result<Reached, EvalEnd>
    requires fits { Fits (head_of shape) (parts_in (seen_parts parts.items)) }
    requires known { AreKnownParts (below depth) depth (parts_of (head_of shape)) (seen_parts parts.items) }
    ensures equal { (at : ℕ → ℕ) → Answers result (λ r. Done (term_at at r.value.value) r.left) (finish evaluate nest (head_of shape) (AllDone (terms_at at depth (parts_of (head_of shape)) (seen_parts parts.items)) left)) }
    ensures known { IfOk result (λ r. IsValueIn depth r.value.value) }
    ensures no_deeper { IfOk result (λ r. bulk r.value.value ≤ part_bulk (seen_parts parts.items)) }
    ensures spends { IfOk result (λ r. r.left ≤ left) }
{
    match step(&shape, &parts) {
        Some(next) => taken(alloc, next, left, depth, nest),
        None => Ok(formed(alloc, shape, parts, left, depth)?),
    }
}

// A form that takes no step: a quote of a splice is what is inside, all others are values.
fn formed(
    alloc: Global,
    shape: Shape,
    parts: Vec<ValuePart>,
    left: u64,
    depth: u32,
) -> Result<Reached, NoMemory>
    requires fits { Fits (head_of shape) (parts_in (seen_parts parts.items)) }
    requires known { AreKnownParts (below depth) depth (parts_of (head_of shape)) (seen_parts parts.items) }
    requires stays { redex (head_of shape) (seen_parts parts.items) ≡ None }
    ensures equal { IfOk result (λ r. (at : ℕ → ℕ) → term_at at r.value.value ≡ formed (head_of shape) (terms_at at depth (parts_of (head_of shape)) (seen_parts parts.items))) }
    ensures known { IfOk result (λ r. IsValueIn depth r.value.value) }
    ensures no_deeper { IfOk result (λ r. bulk r.value.value ≤ part_bulk (seen_parts parts.items)) }
    ensures left { IfOk result (λ r. r.left ≡ left) }
{
    evaluation_goes_on();
    match unquoted(&shape, &parts) {
        Some(v) => {
            let value = shared(v)?;
            Ok(Reached { value, left })
        }
        None => {
            let value = made(alloc, shape, parts, depth)?;
            Ok(Reached { value, left })
        }
    }
}

// the form of these parts
fn made(
    alloc: Global,
    shape: Shape,
    parts: Vec<ValuePart>,
    first: u32,
) -> Result<Rc<Value>, NoMemory>
    ensures { IfOk result (λ r. r.value ≡ form (head_of shape) first (seen_parts parts.items)) }
{
    let shape = to_share(alloc, shape)?;
    to_share(
        alloc,
        Value {
            node: ValueNode::Form {
                shape,
                first,
                parts,
            },
        },
    )
}

/// Takes a step, where one is left and the nest allows it, and goes on with what it makes.
#[cycle(evaluating)]
fn taken(
    alloc: Global,
    next: Next<'_>,
    left: u64,
    depth: u32,
    nest: u32,
) -> Result<Reached, EvalEnd>
    requires known { IsKnownGoal (below depth) (goal_of next) }
    ensures equal { (at : ℕ → ℕ) → Answers result (λ r. Done (term_at at r.value.value) r.left) (step evaluate left nest (goal_at at (goal_of next.entry))) }
    ensures known { IfOk result (λ r. IsValueIn depth r.value.value) }
    ensures no_deeper { IfOk result (λ r. bulk r.value.value ≤ goal_bulk (goal_of next.entry)) }
    ensures spends { IfOk result (λ r. r.left ≤ left) }
{
    if left == 0 {
        Err(EvalEnd::Spent)
    } else if nest == 0 {
        Err(EvalEnd::Deep)
    } else {
        followed(alloc, next, left - 1, depth, nest - 1)
    }
}

/// The value of what a step makes.
#[cycle(evaluating)]
fn followed(
    alloc: Global,
    next: Next<'_>,
    steps: u64,
    depth: u32,
    nest: u32,
) -> Result<Reached, EvalEnd>
    requires known { IsKnownGoal (below depth) (goal_of next) }
    ensures equal { (at : ℕ → ℕ) → Answers result (λ r. Done (term_at at r.value.value) r.left) (evaluate steps nest (goal_at at (goal_of next.entry))) }
    ensures known { IfOk result (λ r. IsValueIn depth r.value.value) }
    ensures no_deeper { IfOk result (λ r. bulk r.value.value ≤ goal_bulk (goal_of next.entry)) }
    ensures spends { IfOk result (λ r. r.left ≤ steps) }
{
    match next {
        Next::Opened(body, v) => opened(alloc, body, v, steps, depth, nest),
        Next::Value(v) => Ok(again(v, depth, steps)?),
        Next::Case(t) => thawed(alloc, t, steps, depth, nest),
        Next::Number {
            motive,
            zero,
            suc,
            number,
        } => after_number(alloc, motive, zero, suc, number, steps, depth, nest),
        Next::List {
            motive,
            nil,
            cons,
            item,
            others,
        } => after_list(alloc, motive, nil, cons, item, others, steps, depth, nest),
    }
}

// a value once more
fn again(v: &Rc<Value>, depth: u32, steps: u64) -> Result<Reached, NoMemory>
    requires known { IsValueIn depth v.now.value }
    ensures equal { IfOk result (λ r. (at : ℕ → ℕ) (nest : ℕ) → evaluate steps nest (term_at at v.now.value) ≡ Done (term_at at r.value.value) r.left) }
    ensures known { IfOk result (λ r. IsValueIn depth r.value.value) }
    ensures no_deeper { IfOk result (λ r. bulk r.value.value ≤ bulk v.now.value) }
    ensures left { IfOk result (λ r. r.left ≡ steps) }
{
    value_of_context();
    Ok(Reached {
        value: shared(v)?,
        left: steps,
    })
}

/// The value of a body with the value of its variable.
#[cycle(evaluating)]
fn opened(
    alloc: Global,
    body: &Frozen,
    v: &Rc<Value>,
    steps: u64,
    depth: u32,
    nest: u32,
) -> Result<Reached, EvalEnd>
    requires closed { IsKnownKept (below depth) 1 (kept_of body.now) }
    requires known { IsValueIn depth v.now.value }
    ensures equal { (at : ℕ → ℕ) → Answers result (λ r. Done (term_at at r.value.value) r.left) (evaluate steps nest (instance (body_at at (kept_of body.now)) (term_at at v.now.value))) }
    ensures known { IfOk result (λ r. IsValueIn depth r.value.value) }
    ensures no_deeper { IfOk result (λ r. bulk r.value.value ≤ max (kept_bulk (kept_of body.now)) (bulk v.now.value)) }
    ensures spends { IfOk result (λ r. r.left ≤ steps) }
{
    argument_put_in();
    let env = body.env.push(alloc, shared(v)?)?;
    value_of(alloc, &env, &body.body, depth, steps, nest)
}

/// The value of a kept part.
#[cycle(evaluating)]
fn thawed(alloc: Global, t: &Frozen, steps: u64, depth: u32, nest: u32) -> Result<Reached, EvalEnd>
    requires closed { IsKnownKept (below depth) 0 (kept_of t.now) }
    ensures equal { (at : ℕ → ℕ) → Answers result (λ r. Done (term_at at r.value.value) r.left) (evaluate steps nest (kept_at at (kept_of t.now))) }
    ensures known { IfOk result (λ r. IsValueIn depth r.value.value) }
    ensures no_deeper { IfOk result (λ r. bulk r.value.value ≤ kept_bulk (kept_of t.now)) }
    ensures spends { IfOk result (λ r. r.left ≤ steps) }
{
    value_of(alloc, &t.env, &t.body, depth, steps, nest)
}

/// The value of `s m (natrec P z s m)`.
#[cycle(evaluating)]
fn after_number(
    alloc: Global,
    motive: &Frozen,
    zero: &Frozen,
    suc: &Frozen,
    number: &Rc<Value>,
    steps: u64,
    depth: u32,
    nest: u32,
) -> Result<Reached, EvalEnd>
    requires known { IsKnownGoal (below depth) (number_case (kept_of motive.now) (kept_of zero.now) (kept_of suc.now) number.now.value) }
    ensures equal { (at : ℕ → ℕ) → Answers result (λ r. Done (term_at at r.value.value) r.left) (evaluate steps nest (goal_at at (number_case (kept_of motive.now) (kept_of zero.now) (kept_of suc.now) number.now.value))) }
    ensures known { IfOk result (λ r. IsValueIn depth r.value.value) }
    ensures no_deeper { IfOk result (λ r. bulk r.value.value ≤ goal_bulk (number_case (kept_of motive.now) (kept_of zero.now) (kept_of suc.now) number.now.value)) }
    ensures spends { IfOk result (λ r. r.left ≤ steps) }
{
    evaluation_goes_on();
    value_of_context();
    let f = thawed(alloc, suc, steps, depth, nest)?;
    let f = applied(alloc, f.value, shared(number)?, f.left, depth, nest)?;
    let shape = Shape::NatRec;
    let r = recursor(alloc, shape, motive, zero, suc, number, f.left, depth, nest)?;
    applied(alloc, f.value, r.value, r.left, depth, nest)
}

/// The value of `c x y (listrec P n c y)`.
#[cycle(evaluating)]
fn after_list(
    alloc: Global,
    motive: &Frozen,
    nil: &Frozen,
    cons: &Frozen,
    item: &Rc<Value>,
    others: &Rc<Value>,
    steps: u64,
    depth: u32,
    nest: u32,
) -> Result<Reached, EvalEnd>
    requires known { IsKnownGoal (below depth) (list_case (kept_of motive.now) (kept_of nil.now) (kept_of cons.now) item.now.value others.now.value) }
    ensures equal { (at : ℕ → ℕ) → Answers result (λ r. Done (term_at at r.value.value) r.left) (evaluate steps nest (goal_at at (list_case (kept_of motive.now) (kept_of nil.now) (kept_of cons.now) item.now.value others.now.value))) }
    ensures known { IfOk result (λ r. IsValueIn depth r.value.value) }
    ensures no_deeper { IfOk result (λ r. bulk r.value.value ≤ goal_bulk (list_case (kept_of motive.now) (kept_of nil.now) (kept_of cons.now) item.now.value others.now.value)) }
    ensures spends { IfOk result (λ r. r.left ≤ steps) }
{
    evaluation_goes_on();
    value_of_context();
    let f = thawed(alloc, cons, steps, depth, nest)?;
    let f = applied(alloc, f.value, shared(item)?, f.left, depth, nest)?;
    let f = applied(alloc, f.value, shared(others)?, f.left, depth, nest)?;
    let shape = Shape::ListRec;
    let r = recursor(alloc, shape, motive, nil, cons, others, f.left, depth, nest)?;
    applied(alloc, f.value, r.value, r.left, depth, nest)
}

/// The value of an application of values.
#[cycle(evaluating)]
fn applied(
    alloc: Global,
    function: Rc<Value>,
    argument: Rc<Value>,
    left: u64,
    depth: u32,
    nest: u32,
) -> Result<Reached, EvalEnd>
    requires function { IsValueIn depth function.value }
    requires argument { IsValueIn depth argument.value }
    ensures equal { (at : ℕ → ℕ) → Answers result (λ r. Done (term_at at r.value.value) r.left) (finish evaluate nest (AppH false) (AllDone (cons (term_at at function.value) (cons (term_at at argument.value) nil)) left)) }
    ensures known { IfOk result (λ r. IsValueIn depth r.value.value) }
    ensures no_deeper { IfOk result (λ r. bulk r.value.value ≤ max (bulk function.value) (bulk argument.value)) }
    ensures spends { IfOk result (λ r. r.left ≤ left) }
{
    let parts = two(alloc, function, argument)?;
    finished(alloc, Shape::App(false), parts, left, depth, nest)
}

// two parts that were evaluated
fn two(alloc: Global, v: Rc<Value>, w: Rc<Value>) -> Result<Vec<ValuePart>, NoMemory>
    ensures { IfOk result (λ ps. seen_parts ps.items ≡ ready v.value (ready w.value none)) }
{
    let mut parts = Vec::new(alloc);
    push(&mut parts, ValuePart::Ready(v))?;
    push(&mut parts, ValuePart::Ready(w))?;
    Ok(parts)
}

/// The value of a recursor with two cases on a value.
#[cycle(evaluating)]
fn recursor(
    alloc: Global,
    shape: Shape,
    motive: &Frozen,
    base: &Frozen,
    step: &Frozen,
    v: &Rc<Value>,
    left: u64,
    depth: u32,
    nest: u32,
) -> Result<Reached, EvalEnd>
    requires shape { parts_of (head_of shape) ≡ later ∷ later ∷ later ∷ here ∷ [] }
    requires fits { Fits (head_of shape) 4 }
    requires motive { IsKnownKept (below depth) 0 (kept_of motive.now) }
    requires base { IsKnownKept (below depth) 0 (kept_of base.now) }
    requires step { IsKnownKept (below depth) 0 (kept_of step.now) }
    requires known { IsValueIn depth v.now.value }
    ensures equal { (at : ℕ → ℕ) → Answers result (λ r. Done (term_at at r.value.value) r.left)
        (finish evaluate nest (head_of shape) (AllDone (cons (kept_at at (kept_of motive.now)) (cons (kept_at at (kept_of base.now)) (cons (kept_at at (kept_of step.now)) (cons (term_at at v.now.value) nil)))) left)) }
    ensures known { IfOk result (λ r. IsValueIn depth r.value.value) }
    ensures no_deeper { IfOk result (λ r. bulk r.value.value ≤ max (max (kept_bulk (kept_of motive.now)) (kept_bulk (kept_of base.now))) (max (kept_bulk (kept_of step.now)) (bulk v.now.value))) }
    ensures spends { IfOk result (λ r. r.left ≤ left) }
{
    let parts = recursor_parts(alloc, motive, base, step, v)?;
    finished(alloc, shape, parts, left, depth, nest)
}

// the parts of a recursor with two cases
fn recursor_parts(
    alloc: Global,
    motive: &Frozen,
    base: &Frozen,
    step: &Frozen,
    v: &Rc<Value>,
) -> Result<Vec<ValuePart>, NoMemory>
    ensures { IfOk result (λ ps. seen_parts ps.items ≡
        frozen motive.now.env motive.now.body.value (frozen base.now.env base.now.body.value (frozen step.now.env step.now.body.value (ready v.now.value none)))) }
{
    let mut parts = Vec::new(alloc);
    push(&mut parts, ValuePart::Kept(motive.share()?))?;
    push(&mut parts, ValuePart::Kept(base.share()?))?;
    push(&mut parts, ValuePart::Kept(step.share()?))?;
    push(&mut parts, ValuePart::Ready(shared(v)?))?;
    Ok(parts)
}
