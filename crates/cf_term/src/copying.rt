// Copies.
ghost use Rattle.std.specs.Prelude.{◌≡◌, IfOk, length};
ghost use Rattle.cf_term.specs.Core.{nil};
ghost use Rattle.cf_term.specs.Numbered.{count, terms};
ghost use Rattle.cf_term.specs.View.{listed, tm_of};

use crate::forms::{Term, TermNode};
use crate::memory::{push, share};
use cf_base::NoMemory;
use std::alloc::Global;
use std::rc::Rc;

/// The same term once more. Its parts are shared, so it costs as much as its outermost form has parts.
pub fn copy(alloc: Global, t: &Term) -> Result<Term, NoMemory>
    ensures { IfOk result (λ r. r ≡ t.now) }
{
    let inserted = t.inserted;
    let parts = shared_parts(alloc, &t.node)?;
    let node = t.node.with_parts(alloc, parts)?;
    Ok(Term { inserted, node })
}

fn shared_parts(alloc: Global, node: &TermNode) -> Result<Vec<Rc<Term>>, NoMemory>
    ensures parts { IfOk result (λ us. listed us.items nil ≡ terms (tm_of node.now)) }
    ensures count { IfOk result (λ us. length us.items ≡ count (tm_of node.now)) }
{
    let mut made = Vec::new(alloc);
    for i in 0..node.count() {
        match node.part(i) {
            Some(p) => push(&mut made, share(p.term)?)?,
            None => unreachable!(),
        }
    }
    Ok(made)
}
