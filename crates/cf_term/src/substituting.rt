// Substitution.
ghost use Rattle.std.specs.Prelude.{◌≡◌, ◌+◌, IfOk, length};
ghost use Rattle.cf_term.specs.Core.{nil, var};
ghost use Rattle.cf_term.specs.Numbered.{count, places, terms};
ghost use Rattle.cf_term.specs.Substitution.{in_place, substitute, substitute_all, substituted, ups};
ghost use Rattle.cf_term.specs.View.{listed, tm_of};

use crate::forms::{Term, TermNode};
use crate::memory::{push, shared};
use crate::shifting::{deeper, raise};
use cf_base::NoMemory;
use std::alloc::Global;
use std::rc::Rc;

/// The term with `by` for the variable `at`, and each variable above it lowered by one. Under binders `by` is shifted past them.
/// Where a variable would pass 4,294,967,295 the answer is `NoMemory`.
pub fn subst(alloc: Global, t: &Term, at: u32, by: &Term) -> Result<Term, NoMemory>
    ensures { IfOk result (λ r. r ≡ substituted t.now at by.now) }
{
    below(alloc, t, u64::from(at), 0, by)
}

// the same below `depth` binders
#[cycle(substituting)]
fn below(alloc: Global, t: &Term, at: u64, depth: u64, by: &Term) -> Result<Term, NoMemory>
    ensures { IfOk result (λ r. r ≡ substitute (ups depth (in_place at by.now)) t.now) }
{
    match t.node.variable() {
        Some(i) => put(alloc, i, at, depth, by),
        None => {
            let inserted = t.inserted;
            let parts = below_parts(alloc, &t.node, at, depth, by)?;
            let node = t.node.with_parts(alloc, parts)?;
            Ok(Term { inserted, node })
        }
    }
}

#[cycle(substituting)]
fn below_parts(
    alloc: Global,
    node: &TermNode,
    at: u64,
    depth: u64,
    by: &Term,
) -> Result<Vec<Rc<Term>>, NoMemory>
    ensures parts { IfOk result (λ us. listed us.items nil ≡ substitute_all (ups depth (in_place at by.now)) (places (tm_of node.now)) (terms (tm_of node.now))) }
    ensures count { IfOk result (λ us. length us.items ≡ count (tm_of node.now)) }
{
    let mut made = Vec::new(alloc);
    for i in 0..node.count() {
        match node.part(i) {
            Some(p) => {
                let t = below(alloc, p.term, at, deeper(depth, p.binds)?, by)?;
                push(&mut made, shared(alloc, t)?)?;
            }
            None => unreachable!(),
        }
    }
    Ok(made)
}

// what stands for this variable below `depth` binders
fn put(alloc: Global, i: u32, at: u64, depth: u64, by: &Term) -> Result<Term, NoMemory>
    ensures { IfOk result (λ r. r ≡ ups depth (in_place at by.now) i) }
{
    let place = deeper(at, depth)?;
    let n = u64::from(i);
    if n == place {
        return raise(alloc, by, 0, depth);
    }
    if n < place {
        return Ok(lone(i));
    }
    Ok(lone(i - 1))
}

fn lone(i: u32) -> Term
    ensures { result ≡ var i }
{
    Term {
        inserted: false,
        node: TermNode::Var(i),
    }
}
