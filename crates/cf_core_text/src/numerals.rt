// Nat literals.
ghost use Rattle.std.specs.Prelude.{◌≡◌, ◌∷◌, [], ℕ, suc, IfOk};
ghost use Rattle.cf_term.specs.Core.{cons, depth_all, nil};
ghost use Rattle.cf_core_text.specs.Layout.{Lays};
ghost use Rattle.cf_core_text.specs.Pieces.{printed, successor};

use crate::layouts::{Layout, one, single};
use crate::pieces::{Piece, Place};
use crate::scopes::Scope;
use cf_lex::Keyword;
use cf_term::{Term, TermNode};
use std::alloc::{AllocError, Global};
use std::rc::Rc;

/// The number of a term that is a Nat literal: how often `suc` stands on `zero`.
pub fn numeral(term: &Term) -> Result<Option<u64>, AllocError>
    ensures { IfOk result (λ n. (g d : ℕ) → (printed g d term.now).number ≡ n) }
{
    let mut count = 0u64;
    let mut rest = term;
    loop {
        match &rest.node {
            TermNode::Zero => return Ok(Some(count)),
            TermNode::Suc(inner) => {
                count = count.checked_add(1).ok_or(AllocError)?;
                rest = inner.as_ref();
            }
            _ => return Ok(None),
        }
    }
}

/// `suc t`, or the Nat literal that it is.
pub fn successor<'a>(alloc: Global, s: Scope, t: &'a Rc<Term>) -> Result<Layout<'a>, AllocError>
    ensures { IfOk result (λ l. Lays l (successor (printed s.globals s.depth t.now.value)) (suc (depth_all (cons t.now.value nil)))) }
{
    match numeral(t.as_ref())? {
        Some(n) => match n.checked_add(1) {
            Some(next) => single(alloc, Place::Atom, Piece::NatLit(next)),
            None => Err(AllocError),
        },
        None => one(alloc, Keyword::Suc, s, t),
    }
}
