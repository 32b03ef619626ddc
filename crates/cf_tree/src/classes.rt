// What kind of program it is.
ghost use Rattle.std.specs.Prelude.{◌≡◌};
ghost use Rattle.std.specs.List.{list_all};
ghost use Rattle.cf_tree.specs.Tree as spec;
ghost use Rattle.cf_tree.specs.View.{decl_of, ctor_of};
ghost use Rattle.cf_tree.specs.Whole.{branch_hole_free, definition_hole_free};

use crate::decls::{CtorTree, Decl, Program};
use crate::forms::{Branch, Definition, Node, Tree};

/// Whether the program began with `explicit;`.
pub fn is_explicit(p: &Program) -> bool
    ensures { result ≡ spec.is_explicit p.now }
{
    p.explicit
}

#[tactic(auto, using(crate::proofs::Parts::decls_free))]
/// Whether the program has no hole, no implicit part and no missing part: no `_` as a term, no braces, and no shorthand.
pub fn is_hole_free(p: &Program) -> bool
    ensures { result ≡ spec.is_hole_free p.now }
{
    decls_hole_free(&p.decls)
}

fn decls_hole_free(ds: &Vec<Decl>) -> bool
    ensures { result ≡ list_all (λ d. spec.decl_hole_free (decl_of d)) ds.now.items }
{
    for d in ds {
        if !decl_hole_free(d) {
            return false;
        }
    }
    true
}

#[tactic(auto, using(crate::proofs::Parts::ctors_free))]
fn decl_hole_free(d: &Decl) -> bool
    ensures { result ≡ spec.decl_hole_free (decl_of d.now) }
{
    match d {
        Decl::DataD { ctors, .. } => ctors_hole_free(ctors),
        Decl::MetaD { ty, body, .. } => hole_free(ty) && hole_free(body),
        Decl::ObjectD { ty, body, .. } => hole_free(ty) && hole_free(body),
    }
}

fn ctors_hole_free(cs: &Vec<CtorTree>) -> bool
    ensures { result ≡ list_all (λ c. spec.ctor_hole_free (ctor_of c)) cs.now.items }
{
    for c in cs {
        if !all_hole_free(&c.fields) {
            return false;
        }
    }
    true
}

#[cycle(holes)]
#[tactic(auto, using(crate::proofs::Parts::each_free, crate::proofs::Parts::definitions_free, crate::proofs::Parts::branches_free))]
fn hole_free(t: &Tree) -> bool
    ensures { result ≡ spec.hole_free t.now }
{
    match &t.node {
        Node::Pi {
            implicit,
            domain,
            codomain,
            ..
        } => !*implicit && hole_free(domain) && hole_free(codomain),
        Node::Lam {
            implicit,
            domain,
            body,
            ..
        } => !*implicit && hole_free(domain) && hole_free(body),
        Node::App {
            implicit,
            function,
            argument,
        } => !*implicit && hole_free(function) && hole_free(argument),
        Node::Sig { first, second, .. } => hole_free(first) && hole_free(second),
        Node::OLam { domain, body, .. } => hole_free(domain) && hole_free(body),
        Node::Let {
            ty,
            value,
            body,
            ..
        } => hole_free(ty) && hole_free(value) && hole_free(body),
        Node::LetV {
            ty,
            value,
            body,
            ..
        } => hole_free(ty) && hole_free(value) && hole_free(body),
        Node::LetRec { definitions, body } => {
            definitions_hole_free(definitions) && hole_free(body)
        }
        Node::Fst(t)
        | Node::Snd(t)
        | Node::Suc(t)
        | Node::ListTy(t)
        | Node::Nil(t)
        | Node::Lift(t)
        | Node::Quote(t)
        | Node::V(t)
        | Node::C(t)
        | Node::Fail(t)
        | Node::Splice(t) => hole_free(t),
        Node::Cons(t, u) | Node::Arr(t, u) | Node::OApp(t, u) | Node::Prim(_, t, u) => {
            hole_free(t) && hole_free(u)
        }
        Node::Pair(s, t, u) | Node::UnitRec(s, t, u) => {
            hole_free(s) && hole_free(t) && hole_free(u)
        }
        Node::BoolRec(s, t, u, v) | Node::NatRec(s, t, u, v) | Node::ListRec(s, t, u, v) => {
            hole_free(s) && hole_free(t) && hole_free(u) && hole_free(v)
        }
        Node::Data { params, .. } => all_hole_free(params),
        Node::Con { params, fields, .. } => match params {
            Some(params) => all_hole_free(params) && all_hole_free(fields),
            None => false,
        },
        Node::Case {
            scrutinee,
            ty,
            branches,
        } => hole_free(scrutinee) && hole_free(ty) && branches_hole_free(branches),
        Node::Hole | Node::Missing => false,
        _ => true,
    }
}

#[cycle(holes)]
fn all_hole_free(ts: &Vec<Tree>) -> bool
    ensures { result ≡ list_all spec.hole_free ts.now.items }
{
    for t in ts {
        if !hole_free(t) {
            return false;
        }
    }
    true
}

#[cycle(holes)]
fn definitions_hole_free(ds: &Vec<Definition>) -> bool
    ensures { result ≡ list_all definition_hole_free ds.now.items }
{
    for d in ds {
        if !(hole_free(&d.ty) && hole_free(&d.value)) {
            return false;
        }
    }
    true
}

#[cycle(holes)]
fn branches_hole_free(bs: &Vec<Branch>) -> bool
    ensures { result ≡ list_all branch_hole_free bs.now.items }
{
    for b in bs {
        if !hole_free(&b.body) {
            return false;
        }
    }
    true
}
