// Shifting.
ghost use Rattle.std.specs.Prelude.{◌≡◌, ◌+◌, IfOk, length};
ghost use Rattle.cf_term.specs.Core.{nil};
ghost use Rattle.cf_term.specs.Numbered.{count, places, terms};
ghost use Rattle.cf_term.specs.Substitution.{rename_all, shifted, skip};
ghost use Rattle.cf_term.specs.View.{listed, tm_of};

use crate::forms::{Term, TermNode};
use crate::memory::{push, shared};
use cf_base::NoMemory;
use std::alloc::Global;
use std::rc::Rc;

/// The term with each variable from `from` on raised by `by`. Where a variable would pass 4,294,967,295 the answer is `NoMemory`.
pub fn shift(alloc: Global, t: &Term, from: u32, by: u32) -> Result<Term, NoMemory>
    ensures { IfOk result (λ r. r ≡ shifted t.now from by) }
{
    raise(alloc, t, u64::from(from), u64::from(by))
}

#[cycle(shifting)]
pub(crate) fn raise(alloc: Global, t: &Term, from: u64, by: u64) -> Result<Term, NoMemory>
    ensures { IfOk result (λ r. r ≡ shifted t.now from by) }
{
    let inserted = t.inserted;
    match t.node.variable() {
        Some(i) => {
            let node = TermNode::Var(raise_variable(i, from, by)?);
            Ok(Term { inserted, node })
        }
        None => {
            let parts = raise_parts(alloc, &t.node, from, by)?;
            let node = t.node.with_parts(alloc, parts)?;
            Ok(Term { inserted, node })
        }
    }
}

#[cycle(shifting)]
fn raise_parts(
    alloc: Global,
    node: &TermNode,
    from: u64,
    by: u64,
) -> Result<Vec<Rc<Term>>, NoMemory>
    ensures parts { IfOk result (λ us. listed us.items nil ≡ rename_all (skip from by) (places (tm_of node.now)) (terms (tm_of node.now))) }
    ensures count { IfOk result (λ us. length us.items ≡ count (tm_of node.now)) }
{
    let mut made = Vec::new(alloc);
    for i in 0..node.count() {
        match node.part(i) {
            Some(p) => {
                let t = raise(alloc, p.term, deeper(from, p.binds)?, by)?;
                push(&mut made, shared(alloc, t)?)?;
            }
            None => unreachable!(),
        }
    }
    Ok(made)
}

fn raise_variable(i: u32, from: u64, by: u64) -> Result<u32, NoMemory>
    ensures { IfOk result (λ n. n ≡ skip from by i) }
{
    if u64::from(i) < from {
        return Ok(i);
    }
    let n = deeper(u64::from(i), by)?;
    match u32::try_from(n) {
        Ok(n) => Ok(n),
        Err(_) => Err(NoMemory),
    }
}

/// A place or a number of variables, under so many more.
pub(crate) fn deeper(depth: u64, binds: u64) -> Result<u64, NoMemory>
    ensures { IfOk result (λ n. n ≡ depth + binds) }
{
    match depth.checked_add(binds) {
        Some(n) => Ok(n),
        None => Err(NoMemory),
    }
}
