// What is applied to arguments or operands, and right sides that mean what one of their symbols does.
ghost use Rattle.std.specs.Prelude.{◌≡◌, ◌∷◌, [], IfOk, map, reverse};
ghost use Rattle.cf_grammar.specs.declared.productions.Production.TheVariants as by;
ghost use Rattle.cf_parse.specs.Evaluation.{reduced};
ghost use Rattle.cf_parse.specs.Kinds.{AllFit, params};
ghost use Rattle.cf_parse.specs.Meaning as meant;
ghost use Rattle.cf_parse.specs.Values.{argument_of, listed, sems, term_of};
ghost use Rattle.cf_tree.specs.declared.heads.Head.TheVariants as head;

use crate::parts::Argument;
use crate::taking::take_term;
use crate::values::{Value, discard, pop, push};
use cf_base::At;
use cf_syntax::{OutOfMemory, Source};
use cf_tree::{Node, Tree};
use std::alloc::Global;

// A term with one operand more.
fn with_operand(alloc: Global, at: At, t: Box<Tree>, u: Tree) -> Result<Box<Tree>, OutOfMemory>
    ensures { IfOk result (λ v. v.value ≡ meant.form at head.OApp (t.value ∷ u ∷ [])) }
{
    let u = Box::new(alloc, u)?;
    let node = Node::OApp(t, u);
    Ok(Box::new(alloc, Tree { at, node })?)
}

// A term with operands; the last one comes first.
fn with_operands(
    alloc: Global,
    at: At,
    t: Box<Tree>,
    operands: Vec<Tree>,
) -> Result<Box<Tree>, OutOfMemory>
    ensures { IfOk result (λ v. v.value ≡ meant.operands at t.value (listed (map term_of (reverse operands.items)))) }
{
    let mut t = t;
    let mut operands = operands;
    while let Some(u) = operands.pop() {
        t = with_operand(alloc, at, t, u)?;
    }
    Ok(t)
}

// A term with one argument more.
fn with_argument(alloc: Global, at: At, t: Box<Tree>, u: Argument) -> Result<Box<Tree>, OutOfMemory>
    ensures { IfOk result (λ v. v.value ≡ meant.form at (head.App u.implicit) (t.value ∷ u.term.value ∷ [])) }
{
    let node = Node::App {
        implicit: u.implicit,
        function: t,
        argument: u.term,
    };
    Ok(Box::new(alloc, Tree { at, node })?)
}

// A term with arguments; the last one comes first.
fn with_arguments(
    alloc: Global,
    at: At,
    t: Box<Tree>,
    arguments: Vec<Argument>,
) -> Result<Box<Tree>, OutOfMemory>
    ensures { IfOk result (λ v. v.value ≡ meant.arguments at t.value (listed (map argument_of (reverse arguments.items)))) }
{
    let mut t = t;
    let mut arguments = arguments;
    while let Some(u) = arguments.pop() {
        t = with_argument(alloc, at, t, u)?;
    }
    Ok(t)
}

// `t @ u @ ..`
pub(crate) fn chain(
    source: &Source<'_>,
    values: &mut Vec<Value>,
    place: At,
) -> Result<(), OutOfMemory>
    requires { AllFit (params by.Chain) (sems source.now values.old) }
    ensures { IfOk result (λ _. sems source.now values.new ≡ reduced by.Chain place (sems source.now values.old)) }
{
    let first = take_term(values, source.alloc)?;
    let operands = pop(values).terms(source.alloc)?;
    let t = with_operands(source.alloc, place, first, operands)?;
    push(values, Value::Term(t))?;
    Ok(())
}

// `t u {v} ..`
pub(crate) fn application(
    source: &Source<'_>,
    values: &mut Vec<Value>,
    place: At,
) -> Result<(), OutOfMemory>
    requires { AllFit (params by.Application) (sems source.now values.old) }
    ensures { IfOk result (λ _. sems source.now values.new ≡ reduced by.Application place (sems source.now values.old)) }
{
    let function = take_term(values, source.alloc)?;
    let arguments = pop(values).arguments(source.alloc)?;
    let t = with_arguments(source.alloc, place, function, arguments)?;
    push(values, Value::Term(t))?;
    Ok(())
}

// an argument
pub(crate) fn explicit_argument(
    source: &Source<'_>,
    values: &mut Vec<Value>,
    place: At,
) -> Result<(), OutOfMemory>
    requires { AllFit (params by.ExplicitArgument) (sems source.now values.old) }
    ensures { IfOk result (λ _. sems source.now values.new ≡ reduced by.ExplicitArgument place (sems source.now values.old)) }
{
    let term = take_term(values, source.alloc)?;
    let argument = Argument {
        implicit: false,
        term,
    };
    push(values, Value::Argument(argument))?;
    Ok(())
}

// an argument between braces
pub(crate) fn implicit_argument(
    source: &Source<'_>,
    values: &mut Vec<Value>,
    place: At,
) -> Result<(), OutOfMemory>
    requires { AllFit (params by.ImplicitArgument) (sems source.now values.old) }
    ensures { IfOk result (λ _. sems source.now values.new ≡ reduced by.ImplicitArgument place (sems source.now values.old)) }
{
    discard(values);
    let term = take_term(values, source.alloc)?;
    discard(values);
    let argument = Argument {
        implicit: true,
        term,
    };
    push(values, Value::Argument(argument))?;
    Ok(())
}

// what its only symbol means
pub(crate) fn same(
    source: &Source<'_>,
    values: &mut Vec<Value>,
    place: At,
) -> Result<(), OutOfMemory>
    requires { AllFit (params by.Same) (sems source.now values.old) }
    ensures { IfOk result (λ _. sems source.now values.new ≡ reduced by.Same place (sems source.now values.old)) }
{
    Ok(())
}

// a part behind a mark
pub(crate) fn behind(
    source: &Source<'_>,
    values: &mut Vec<Value>,
    place: At,
) -> Result<(), OutOfMemory>
    requires { AllFit (params by.Behind) (sems source.now values.old) }
    ensures { IfOk result (λ _. sems source.now values.new ≡ reduced by.Behind place (sems source.now values.old)) }
{
    discard(values);
    let part = pop(values);
    push(values, part)?;
    Ok(())
}

// no symbol
pub(crate) fn empty(
    source: &Source<'_>,
    values: &mut Vec<Value>,
    place: At,
) -> Result<(), OutOfMemory>
    requires { AllFit (params by.Empty) (sems source.now values.old) }
    ensures { IfOk result (λ _. sems source.now values.new ≡ reduced by.Empty place (sems source.now values.old)) }
{
    push(values, Value::Nothing)?;
    Ok(())
}
