// Terms that bind variables, and what stands behind an arrow.
ghost use Rattle.std.specs.Prelude.{◌≡◌, ◌∷◌, [], IfOk, drop, false, reverse};
ghost use Rattle.cf_base.specs.declared.at.At as places;
ghost use Rattle.cf_grammar.specs.declared.productions.Production.TheVariants as by;
ghost use Rattle.cf_tree.specs.Tree.{Plain, none, part, tree};
ghost use Rattle.cf_tree.specs.View.{binder_of, binders_of, tree_of};
ghost use Rattle.cf_parse.specs.Evaluation.{firsts, reduced};
ghost use Rattle.cf_parse.specs.Kinds.{AllFit, params};
ghost use Rattle.cf_parse.specs.Meaning.{own};
ghost use Rattle.cf_parse.specs.Meaning as meant;
ghost use Rattle.cf_parse.specs.Values.{abstraction_head, arm_of, binding_head, is_recursive, sems, term_of};

use crate::parts::{Abstraction, Binding, or_missing};
use crate::taking::{put_form, take_named, take_term};
use crate::values::{Value, discard, pop, push};
use cf_base::At;
use cf_syntax::{OutOfMemory, Source};
use cf_tree::{Branch, Definition, Named, Node, Tree};
use std::alloc::Global;

// A variable of this type, and what is under it.
fn abstraction_node(
    form: Abstraction,
    implicit: bool,
    binder: Option<String>,
    domain: Box<Tree>,
    body: Box<Tree>,
) -> Node
    ensures { (p : places.At) → tree_of p result ≡ tree p (Plain (abstraction_head form implicit)) (part [] domain.value (part (binder_of binder ∷ []) body.value none)) }
{
    match form {
        Abstraction::Lambda => Node::Lam {
            implicit,
            binder,
            domain,
            body,
        },
        Abstraction::Function => Node::OLam {
            binder,
            domain,
            body,
        },
        Abstraction::FunctionType => Node::Pi {
            implicit,
            binder,
            domain,
            codomain: body,
        },
    }
}

// `\x. t`, `fn x. t`, `Pi (x : a) -> b`
pub(crate) fn abstraction(
    source: &Source<'_>,
    values: &mut Vec<Value>,
    place: At,
    form: Abstraction,
) -> Result<(), OutOfMemory>
    requires { AllFit (params by.Lambda) (sems source.now values.old) }
    ensures { IfOk result (λ _. sems source.now values.new ≡ meant.abstraction (abstraction_head form) place (firsts 4 (sems source.now values.old)) ∷ drop 4 (sems source.now values.old)) }
{
    discard(values);
    let domain = pop(values).domain();
    discard(values);
    let body = take_term(values, source.alloc)?;
    let ty = or_missing(source.alloc, place, domain.ty)?;
    let node = abstraction_node(form, domain.implicit, domain.binder, ty, body);
    put_form(values, source.alloc, place, node)
}

// A variable of this type with what it stands for, and a body under it.
fn definition_node(
    alloc: Global,
    form: Binding,
    binder: Option<String>,
    ty: Box<Tree>,
    value: Box<Tree>,
    body: Box<Tree>,
) -> Result<Node, OutOfMemory>
    ensures { IfOk result (λ n. (p : places.At) → tree_of p n ≡ tree p (Plain (binding_head form)) (part [] ty.value (part (own (is_recursive form) (binder_of binder)) value.value (part (binder_of binder ∷ []) body.value none)))) }
{
    match form {
        Binding::Meta => Ok(Node::Let {
            binder,
            ty,
            value,
            body,
        }),
        Binding::Value => Ok(Node::LetV {
            binder,
            ty,
            value,
            body,
        }),
        Binding::Recursive => {
            let definition = Definition { binder, ty, value };
            let mut definitions = Vec::new(alloc);
            definitions.push(definition)?;
            Ok(Node::LetRec { definitions, body })
        }
    }
}

// `mlet x : a := t; u`, `let x : a := t; u`, `letrec x : a := t; u`
pub(crate) fn definition(
    source: &Source<'_>,
    values: &mut Vec<Value>,
    place: At,
    form: Binding,
) -> Result<(), OutOfMemory>
    requires { AllFit (params by.Let) (sems source.now values.old) }
    ensures { IfOk result (λ _. sems source.now values.new ≡ meant.defined (binding_head form) (is_recursive form) place (firsts 8 (sems source.now values.old)) ∷ drop 8 (sems source.now values.old)) }
{
    discard(values);
    let binder = pop(values).binder();
    discard(values);
    let ty = take_term(values, source.alloc)?;
    discard(values);
    let value = take_term(values, source.alloc)?;
    discard(values);
    let body = take_term(values, source.alloc)?;
    let node = definition_node(source.alloc, form, binder, ty, value, body)?;
    put_form(values, source.alloc, place, node)
}

// `Sig (x : a), b`
pub(crate) fn pair_type(
    source: &Source<'_>,
    values: &mut Vec<Value>,
    place: At,
) -> Result<(), OutOfMemory>
    requires { AllFit (params by.Sig) (sems source.now values.old) }
    ensures { IfOk result (λ _. sems source.now values.new ≡ reduced by.Sig place (sems source.now values.old)) }
{
    discard(values);
    discard(values);
    let binder = pop(values).binder();
    discard(values);
    let first = take_term(values, source.alloc)?;
    discard(values);
    discard(values);
    let second = take_term(values, source.alloc)?;
    let node = Node::Sig {
        binder,
        first,
        second,
    };
    put_form(values, source.alloc, place, node)
}

// The arms, the first one first.
fn arms_in_order(mut arms: Vec<Branch>) -> Vec<Branch>
    ensures { result.items ≡ reverse arms.items }
{
    arms.reverse();
    arms
}

// The binders, the first one first.
fn binders_in_order(mut names: Vec<Option<String>>) -> Vec<Option<String>>
    ensures { result.items ≡ reverse names.items }
{
    names.reverse();
    names
}

// An arm of a look at a value. The names have the last one first.
fn new_arm(
    alloc: Global,
    ctor: Named,
    names: Vec<Option<String>>,
    body: Box<Tree>,
) -> Result<Box<Branch>, OutOfMemory>
    ensures { IfOk result (λ b. arm_of b.value ≡ meant.arm ctor (binders_of (reverse names.items)) body.value) }
{
    let names = binders_in_order(names);
    Ok(Box::new(alloc, Branch { ctor, names, body })?)
}

// `case t : a of { .. }`
pub(crate) fn cases(
    source: &Source<'_>,
    values: &mut Vec<Value>,
    place: At,
) -> Result<(), OutOfMemory>
    requires { AllFit (params by.Case) (sems source.now values.old) }
    ensures { IfOk result (λ _. sems source.now values.new ≡ reduced by.Case place (sems source.now values.old)) }
{
    discard(values);
    let scrutinee = take_term(values, source.alloc)?;
    let ty = pop(values).optional_term();
    discard(values);
    discard(values);
    let arms = pop(values).arms(source.alloc)?;
    discard(values);
    let ty = or_missing(source.alloc, place, ty)?;
    let node = Node::Case {
        scrutinee,
        ty,
        branches: arms_in_order(arms),
    };
    put_form(values, source.alloc, place, node)
}

// `c x .. . t`
pub(crate) fn branch(
    source: &Source<'_>,
    values: &mut Vec<Value>,
    place: At,
) -> Result<(), OutOfMemory>
    requires { AllFit (params by.Branch) (sems source.now values.old) }
    ensures { IfOk result (λ _. sems source.now values.new ≡ reduced by.Branch place (sems source.now values.old)) }
{
    let ctor = take_named(source, values)?;
    let names = pop(values).binders(source.alloc)?;
    discard(values);
    let body = take_term(values, source.alloc)?;
    let arm = new_arm(source.alloc, ctor, names, body)?;
    push(values, Value::Arm(arm))?;
    Ok(())
}

// A type of functions, of the object language or of the meta language.
fn arrow_node(object: bool, domain: Box<Tree>, codomain: Box<Tree>) -> Node
    ensures { (p : places.At) → meant.term (tree_of p result) ≡ meant.arrow p (term_of domain.value ∷ meant.onto object codomain.value ∷ []) }
{
    if object {
        Node::Arr(domain, codomain)
    } else {
        Node::Pi {
            implicit: false,
            binder: None,
            domain,
            codomain,
        }
    }
}

// a term, and maybe an arrow behind it
pub(crate) fn arrow(
    source: &Source<'_>,
    values: &mut Vec<Value>,
    place: At,
) -> Result<(), OutOfMemory>
    requires { AllFit (params by.Arrow) (sems source.now values.old) }
    ensures { IfOk result (λ _. sems source.now values.new ≡ reduced by.Arrow place (sems source.now values.old)) }
{
    let domain = take_term(values, source.alloc)?;
    match pop(values).onto() {
        Some((object, codomain)) => {
            let node = arrow_node(object, domain, codomain);
            put_form(values, source.alloc, place, node)
        }
        None => push(values, Value::Term(domain)),
    }
}

// `-> b`, `=> b`
pub(crate) fn onto(
    source: &Source<'_>,
    values: &mut Vec<Value>,
    place: At,
    object: bool,
) -> Result<(), OutOfMemory>
    requires { AllFit (params by.OntoMeta) (sems source.now values.old) }
    ensures { IfOk result (λ _. sems source.now values.new ≡ meant.behind object place (firsts 2 (sems source.now values.old)) ∷ drop 2 (sems source.now values.old)) }
{
    discard(values);
    let codomain = take_term(values, source.alloc)?;
    push(values, Value::Onto(object, codomain))
}
