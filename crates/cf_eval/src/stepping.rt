// The step of a form with evaluated parts: what is evaluated after it.
ghost use Rattle.std.specs.Prelude.{◌≡◌, false};
ghost use Rattle.cf_term.specs.Core.{AppH, BoolRecH, LetH, ListRecH, NatRecH, UnitRecH};
ghost use Rattle.cf_value.specs.Heads.{head_of};
ghost use Rattle.cf_value.specs.Seen.{seen_part, seen_parts};
ghost use Rattle.cf_value.specs.Val.{VParts};
ghost use Rattle.cf_eval.specs.Redexes.{after_list, after_number, bool_of, case_at, first_value, head_item, kept_part, lambda_of, nil_of, other_items, quoted_value, ready_part, redex, second_value, seen_kept, seen_value, spliced_value, suc_of, unit_of, unquoted, value_at, zero_of};
ghost use Rattle.cf_eval.specs.Goals.{seen_goal};

use cf_value::{Frozen, Shape, Value, ValueNode, ValuePart};
use std::rc::Rc;

/// What is evaluated after a step.
#[derive(Drop)]
pub(crate) enum Next<'a> {
    /// a body with the value of its variable
    Opened(&'a Frozen, &'a Rc<Value>),
    /// a value
    Value(&'a Rc<Value>),
    /// a kept part
    Case(&'a Frozen),
    /// the case for the number after one
    Number {
        motive: &'a Frozen,
        zero: &'a Frozen,
        suc: &'a Frozen,
        number: &'a Rc<Value>,
    },
    /// the case for the list of an item and others
    List {
        motive: &'a Frozen,
        nil: &'a Frozen,
        cons: &'a Frozen,
        item: &'a Rc<Value>,
        others: &'a Rc<Value>,
    },
}

// the value, where the part was evaluated
fn evaluated(part: &ValuePart) -> Option<&Rc<Value>>
    ensures { (ps : VParts) → seen_value result ≡ ready_part (seen_part part.now ps) 0 }
{
    match part {
        ValuePart::Ready(v) => Some(v),
        ValuePart::Kept(_) => None,
    }
}

// the term, where the part was kept
fn frozen(part: &ValuePart) -> Option<&Frozen>
    ensures { (ps : VParts) → seen_kept result ≡ kept_part (seen_part part.now ps) 0 }
{
    match part {
        ValuePart::Ready(_) => None,
        ValuePart::Kept(f) => Some(f),
    }
}

// the part with this number, where it was evaluated
fn ready(parts: &Vec<ValuePart>, i: usize) -> Option<&Rc<Value>>
    ensures { seen_value result ≡ ready_part (seen_parts parts.now.items) i }
{
    match parts.get(i) {
        Some(part) => evaluated(part),
        None => None,
    }
}

// the part with this number, where it was kept
fn kept(parts: &Vec<ValuePart>, i: usize) -> Option<&Frozen>
    ensures { seen_kept result ≡ kept_part (seen_parts parts.now.items) i }
{
    match parts.get(i) {
        Some(part) => frozen(part),
        None => None,
    }
}

// the body of a lambda
fn lambda(v: &Value) -> Option<&Frozen>
    ensures { seen_kept result ≡ lambda_of v.now }
{
    match &v.node {
        ValueNode::Level(_) => None,
        ValueNode::Form { shape, parts, .. } => {
            let shape: &Shape = shape;
            match shape {
                Shape::Lam(_) => kept(parts, 1),
                _ => None,
            }
        }
    }
}

// the first component of a pair
fn first(v: &Value) -> Option<&Rc<Value>>
    ensures { seen_value result ≡ first_value v.now }
{
    match &v.node {
        ValueNode::Level(_) => None,
        ValueNode::Form { shape, parts, .. } => {
            let shape: &Shape = shape;
            match shape {
                Shape::Pair => ready(parts, 1),
                _ => None,
            }
        }
    }
}

// the second component of a pair
fn second(v: &Value) -> Option<&Rc<Value>>
    ensures { seen_value result ≡ second_value v.now }
{
    match &v.node {
        ValueNode::Level(_) => None,
        ValueNode::Form { shape, parts, .. } => {
            let shape: &Shape = shape;
            match shape {
                Shape::Pair => ready(parts, 2),
                _ => None,
            }
        }
    }
}

// whether it is `unit`
fn is_unit(v: &Value) -> bool
    ensures { result ≡ unit_of v.now }
{
    match &v.node {
        ValueNode::Level(_) => false,
        ValueNode::Form { shape, .. } => {
            let shape: &Shape = shape;
            match shape {
                Shape::Unit => true,
                _ => false,
            }
        }
    }
}

// which of `true` and `false` it is
fn boolean(v: &Value) -> Option<bool>
    ensures { result ≡ bool_of v.now }
{
    match &v.node {
        ValueNode::Level(_) => None,
        ValueNode::Form { shape, .. } => {
            let shape: &Shape = shape;
            match shape {
                Shape::True => Some(true),
                Shape::False => Some(false),
                _ => None,
            }
        }
    }
}

// whether it is `zero`
fn is_zero(v: &Value) -> bool
    ensures { result ≡ zero_of v.now }
{
    match &v.node {
        ValueNode::Level(_) => false,
        ValueNode::Form { shape, .. } => {
            let shape: &Shape = shape;
            match shape {
                Shape::Zero => true,
                _ => false,
            }
        }
    }
}

// the number before
fn before(v: &Value) -> Option<&Rc<Value>>
    ensures { seen_value result ≡ suc_of v.now }
{
    match &v.node {
        ValueNode::Level(_) => None,
        ValueNode::Form { shape, parts, .. } => {
            let shape: &Shape = shape;
            match shape {
                Shape::Suc => ready(parts, 0),
                _ => None,
            }
        }
    }
}

// whether it is a `nil`
fn is_nil(v: &Value) -> bool
    ensures { result ≡ nil_of v.now }
{
    match &v.node {
        ValueNode::Level(_) => false,
        ValueNode::Form { shape, .. } => {
            let shape: &Shape = shape;
            match shape {
                Shape::Nil => true,
                _ => false,
            }
        }
    }
}

// the first item of a list
fn item(v: &Value) -> Option<&Rc<Value>>
    ensures { seen_value result ≡ head_item v.now }
{
    match &v.node {
        ValueNode::Level(_) => None,
        ValueNode::Form { shape, parts, .. } => {
            let shape: &Shape = shape;
            match shape {
                Shape::Cons => ready(parts, 0),
                _ => None,
            }
        }
    }
}

// the other items of a list
fn others(v: &Value) -> Option<&Rc<Value>>
    ensures { seen_value result ≡ other_items v.now }
{
    match &v.node {
        ValueNode::Level(_) => None,
        ValueNode::Form { shape, parts, .. } => {
            let shape: &Shape = shape;
            match shape {
                Shape::Cons => ready(parts, 1),
                _ => None,
            }
        }
    }
}

// what a quote has inside
fn quoted(v: &Value) -> Option<&Rc<Value>>
    ensures { seen_value result ≡ quoted_value v.now }
{
    match &v.node {
        ValueNode::Level(_) => None,
        ValueNode::Form { shape, parts, .. } => {
            let shape: &Shape = shape;
            match shape {
                Shape::Quote => ready(parts, 0),
                _ => None,
            }
        }
    }
}

// what a splice has inside
fn spliced(v: &Value) -> Option<&Rc<Value>>
    ensures { seen_value result ≡ spliced_value v.now }
{
    match &v.node {
        ValueNode::Level(_) => None,
        ValueNode::Form { shape, parts, .. } => {
            let shape: &Shape = shape;
            match shape {
                Shape::Splice => ready(parts, 0),
                _ => None,
            }
        }
    }
}

// the kept part with this number
fn case(parts: &Vec<ValuePart>, i: usize) -> Option<Next<'_>>
    ensures { seen_goal result ≡ case_at (seen_parts parts.now.items) i }
{
    Some(Next::Case(kept(parts, i)?))
}

// a component, or what a quote has inside
fn component(v: Option<&Rc<Value>>) -> Option<Next<'_>>
    ensures { seen_goal result ≡ value_at (seen_value v.entry) }
{
    Some(Next::Value(v?))
}

fn application(parts: &Vec<ValuePart>) -> Option<Next<'_>>
    ensures { seen_goal result ≡ redex (AppH false) (seen_parts parts.now.items) }
{
    let function = ready(parts, 0)?;
    let argument = ready(parts, 1)?;
    let body = lambda(function)?;
    Some(Next::Opened(body, argument))
}

fn definition(parts: &Vec<ValuePart>) -> Option<Next<'_>>
    ensures { seen_goal result ≡ redex LetH (seen_parts parts.now.items) }
{
    let value = ready(parts, 1)?;
    let body = kept(parts, 2)?;
    Some(Next::Opened(body, value))
}

fn unit_case(parts: &Vec<ValuePart>) -> Option<Next<'_>>
    ensures { seen_goal result ≡ redex UnitRecH (seen_parts parts.now.items) }
{
    if is_unit(ready(parts, 2)?) {
        case(parts, 1)
    } else {
        None
    }
}

fn bool_case(parts: &Vec<ValuePart>) -> Option<Next<'_>>
    ensures { seen_goal result ≡ redex BoolRecH (seen_parts parts.now.items) }
{
    if boolean(ready(parts, 3)?)? {
        case(parts, 1)
    } else {
        case(parts, 2)
    }
}

fn number_case(parts: &Vec<ValuePart>) -> Option<Next<'_>>
    ensures { seen_goal result ≡ redex NatRecH (seen_parts parts.now.items) }
{
    let number = ready(parts, 3)?;
    if is_zero(number) {
        case(parts, 1)
    } else {
        after_number(parts, before(number)?)
    }
}

fn after_number<'a>(parts: &'a Vec<ValuePart>, number: &'a Rc<Value>) -> Option<Next<'a>>
    ensures { seen_goal result ≡ after_number (seen_parts parts.now.items) number.now.value }
{
    let motive = kept(parts, 0)?;
    let zero = kept(parts, 1)?;
    let suc = kept(parts, 2)?;
    Some(Next::Number {
        motive,
        zero,
        suc,
        number,
    })
}

fn list_case(parts: &Vec<ValuePart>) -> Option<Next<'_>>
    ensures { seen_goal result ≡ redex ListRecH (seen_parts parts.now.items) }
{
    let list = ready(parts, 3)?;
    if is_nil(list) {
        case(parts, 1)
    } else {
        let item = item(list)?;
        let others = others(list)?;
        after_list(parts, item, others)
    }
}

fn after_list<'a>(
    parts: &'a Vec<ValuePart>,
    item: &'a Rc<Value>,
    others: &'a Rc<Value>,
) -> Option<Next<'a>>
    ensures { seen_goal result ≡ after_list (seen_parts parts.now.items) item.now.value others.now.value }
{
    let motive = kept(parts, 0)?;
    let nil = kept(parts, 1)?;
    let cons = kept(parts, 2)?;
    Some(Next::List {
        motive,
        nil,
        cons,
        item,
        others,
    })
}

/// What a form with these parts goes on to by one step, if it takes one.
pub(crate) fn step<'a>(shape: &Shape, parts: &'a Vec<ValuePart>) -> Option<Next<'a>>
    ensures { seen_goal result ≡ redex (head_of shape.now) (seen_parts parts.now.items) }
{
    match shape {
        Shape::App(_) => application(parts),
        Shape::Let => definition(parts),
        Shape::Fst => component(first(ready(parts, 0)?)),
        Shape::Snd => component(second(ready(parts, 0)?)),
        Shape::UnitRec => unit_case(parts),
        Shape::BoolRec => bool_case(parts),
        Shape::NatRec => number_case(parts),
        Shape::ListRec => list_case(parts),
        Shape::Splice => component(quoted(ready(parts, 0)?)),
        _ => None,
    }
}

/// What is inside the splice that a quote of these parts holds, if it holds one.
pub(crate) fn unquoted<'a>(shape: &Shape, parts: &'a Vec<ValuePart>) -> Option<&'a Rc<Value>>
    ensures { seen_value result ≡ unquoted (head_of shape.now) (seen_parts parts.now.items) }
{
    match shape {
        Shape::Quote => spliced(ready(parts, 0)?),
        _ => None,
    }
}
