// How many forms a term has, and how deep they are nested. No memory is taken.
ghost use Rattle.std.specs.Prelude.{◌≡◌, ◌-◌, ◌^◌, min};
ghost use Rattle.cf_term.specs.Measures.{nesting, nesting_all, nodes, nodes_all};
ghost use Rattle.cf_term.specs.Numbered.{terms};
ghost use Rattle.cf_term.specs.View.{tm_of};

use crate::forms::{Term, TermNode};

/// How many forms the term has, its own included, up to the end of the type. Marks are no forms.
#[cycle(counting)]
#[tactic(auto, using(crate::proofs::Measured::nodes_marked))]
pub fn size(t: &Term) -> u64
    ensures { result ≡ min (nodes t.now) (2 ^ 64 - 1) }
{
    size_of_parts(&t.node).saturating_add(1)
}

#[cycle(counting)]
fn size_of_parts(node: &TermNode) -> u64
    ensures { result ≡ min (nodes_all (terms (tm_of node.now))) (2 ^ 64 - 1) }
{
    let mut n: u64 = 0;
    for i in 0..node.count() {
        match node.part(i) {
            Some(p) => n = n.saturating_add(size(p.term)),
            None => unreachable!(),
        }
    }
    n
}

/// The greatest number of forms on one way from the term down to a part, both included, up to the end of the type. Marks are no forms.
#[cycle(nesting)]
#[tactic(auto, using(crate::proofs::Measured::nesting_marked))]
pub fn nesting(t: &Term) -> u32
    ensures { result ≡ min (nesting t.now) (2 ^ 32 - 1) }
{
    nesting_of_parts(&t.node).saturating_add(1)
}

#[cycle(nesting)]
fn nesting_of_parts(node: &TermNode) -> u32
    ensures { result ≡ min (nesting_all (terms (tm_of node.now))) (2 ^ 32 - 1) }
{
    let mut n: u32 = 0;
    for i in 0..node.count() {
        match node.part(i) {
            Some(p) => n = n.max(nesting(p.term)),
            None => unreachable!(),
        }
    }
    n
}
