// What one name, number or hole becomes.
ghost use Rattle.std.specs.Prelude.{◌≡◌, ◌+◌, length, IfErr, IfOk, OnOk, OnErr, string_bytes};
ghost use Rattle.cf_term.specs.View.{listed, tm_of};
ghost use Rattle.cf_elab.specs.Scope as spec;
ghost use Rattle.cf_elab.specs.Forms.{numeral as numeral_of};
ghost use Rattle.cf_elab.specs.Refusals.{IsUnbound};
ghost use Rattle.cf_elab.specs.Steps.{MakesHoles};
ghost use Rattle.cf_elab.specs.declared.ends.NameEnd.TheVariants as end;

use crate::ends::NameEnd;
use crate::globals::Globals;
use crate::locals::Locals;
use crate::numbers::CtorNumber;
use cf_base::At;
use cf_term::{Term, TermNode};
use cf_tree::Named;
use std::alloc::Global;
use std::rc::Rc;

/// The local variables around a place, and how many holes stand before it.
#[derive(Drop)]
pub struct Scope<'a> {
    pub locals: Locals<'a>,
    pub holes: u32,
}

/// A number of 32 bits.
pub fn number(n: usize) -> Result<u32, NameEnd>
    ensures value { IfOk result (λ m. m ≡ n) }
    ensures refused { IfErr result (λ e. e ≡ end.NoMemory) }
{
    if n > 0xffff_ffff {
        return Err(NameEnd::NoMemory);
    }
    Ok(n as u32)
}

fn sum(a: u32, b: u32) -> Result<u32, NameEnd>
    ensures value { IfOk result (λ n. n ≡ a + b) }
    ensures refused { IfErr result (λ e. e ≡ end.NoMemory) }
{
    a.checked_add(b).ok_or(NameEnd::NoMemory)
}

/// The variable of this name, counted from the innermost one.
pub fn variable(g: &Globals, locals: &Locals<'_>, at: At, name: &String) -> Result<u32, NameEnd>
    ensures value { IfOk result (λ i. spec.variable_of g.now locals.now (string_bytes name.now) ≡ Some i) }
    ensures refused { IfErr result (λ e. IsUnbound at (spec.variable_of g.now locals.now (string_bytes name.now)) e) }
{
    match locals.find(name.as_str()) {
        Some(i) => Ok(number(i)?),
        None => match g.variable(name.as_str()) {
            Some(i) => {
                let inner = number(locals.len())?;
                let outer = number(i)?;
                Ok(sum(inner, outer)?)
            }
            None => Err(NameEnd::Unknown(at)),
        },
    }
}

/// The number of the data type of this name.
pub fn data_type(g: &Globals, name: &Named) -> Result<u32, NameEnd>
    ensures value { IfOk result (λ n. spec.type_of g.now name.now.name ≡ Some n) }
    ensures refused { IfErr result (λ e. IsUnbound name.now.at (spec.type_of g.now name.now.name) e) }
{
    match g.data_type(name.name.as_str()) {
        Some(n) => number(n),
        None => Err(NameEnd::Unknown(name.at)),
    }
}

/// The numbers of the constructor of this name.
pub fn ctor(g: &Globals, name: &Named) -> Result<CtorNumber, NameEnd>
    ensures value { IfOk result (λ c. spec.ctor_of g.now name.now.name ≡ Some c) }
    ensures refused { IfErr result (λ e. IsUnbound name.now.at (spec.ctor_of g.now name.now.name) e) }
{
    match g.ctor(name.name.as_str()) {
        Some(c) => Ok(c),
        None => Err(NameEnd::Unknown(name.at)),
    }
}

/// The number of the next hole.
pub fn hole(holes: &mut u32) -> Result<u32, NameEnd>
    ensures value { IfOk result (λ n. n ≡ holes.old) }
    ensures next { OnOk result (holes.new ≡ holes.old + 1) }
    ensures refused { IfErr result (λ e. e ≡ end.NoMemory) }
{
    let n = *holes;
    *holes = sum(n, 1)?;
    Ok(n)
}

/// As many new holes.
pub fn new_holes(alloc: Global, holes: &mut u32, count: u32) -> Result<Vec<Rc<Term>>, NameEnd>
    ensures value { IfOk result (λ hs. MakesHoles count holes.old (listed hs.items) holes.new) }
    ensures count { IfOk result (λ hs. length hs.items ≡ count) }
    ensures refused { IfErr result (λ e. e ≡ end.NoMemory) }
{
    let mut parts = Vec::new(alloc);
    for _i in 0..count {
        let node = TermNode::Hole(hole(holes)?);
        parts.push(written(alloc, node)?)?;
    }
    Ok(parts)
}

/// The form as a part of another.
pub fn written(alloc: Global, node: TermNode) -> Result<Rc<Term>, NameEnd>
    ensures value { IfOk result (λ t. t.value ≡ tm_of node) }
    ensures refused { IfErr result (λ e. e ≡ end.NoMemory) }
{
    let term = Term {
        inserted: false,
        node,
    };
    Ok(Rc::new(alloc, term)?)
}

/// `count` times `suc` on `zero`.
pub fn numeral(alloc: Global, count: u32) -> Result<TermNode, NameEnd>
    ensures value { IfOk result (λ n. tm_of n ≡ numeral_of count) }
    ensures refused { IfErr result (λ e. e ≡ end.NoMemory) }
{
    let mut node = TermNode::Zero;
    for _i in 0..count {
        node = TermNode::Suc(written(alloc, node)?);
    }
    Ok(node)
}
