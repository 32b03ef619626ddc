// Whether a term stands in a context of so many variables. No memory is taken.
ghost use Rattle.std.specs.Prelude.{◌≡◌, ◌-◌, ◌^◌, ℕ, min, None, Decides};
ghost use Rattle.cf_term.specs.Closed.{AreClosed, IsClosed};
ghost use Rattle.cf_term.specs.Numbered.{places, terms, variable_of};
ghost use Rattle.cf_term.specs.View.{tm_of};

use crate::forms::{Term, TermNode};

/// Whether each variable of the term that is not bound in it is below `variables`.
pub fn is_closed(t: &Term, variables: u32) -> bool
    ensures { Decides result (IsClosed variables t.now) }
{
    is_below(t, u64::from(variables))
}

// the same, where `variables` is a number up to the end of the type
#[cycle(closing)]
fn is_below(t: &Term, variables: u64) -> bool
    ensures { (n : ℕ) → min n (2 ^ 64 - 1) ≡ variables → Decides result (IsClosed n t.now) }
{
    match t.node.variable() {
        Some(i) => u64::from(i) < variables,
        None => are_below(&t.node, variables),
    }
}

#[cycle(closing)]
fn are_below(node: &TermNode, variables: u64) -> bool
    ensures { (n : ℕ) → min n (2 ^ 64 - 1) ≡ variables → Decides result (AreClosed n (places (tm_of node.now)) (terms (tm_of node.now))) }
{
    for i in 0..node.count() {
        match node.part(i) {
            Some(p) => {
                if !is_below(p.term, variables.saturating_add(p.binds)) {
                    return false;
                }
            }
            None => unreachable!(),
        }
    }
    true
}
