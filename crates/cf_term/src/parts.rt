// The parts of a form by number. Here and in `rebuilding` each form is known: all that goes over terms goes over their parts.
ghost use Rattle.std.specs.Prelude.{◌≡◌, ◌∷◌, [], length, true, false};
ghost use Rattle.cf_term.specs.Core.{Part as Place, body, cons, group, here, later, nil, parts, branch_parts, under, CaseH};
ghost use Rattle.cf_term.specs.Numbered.{IsPart, count, part_at, part_of, variable_of};
ghost use Rattle.cf_term.specs.View.{bodies, definitions, heads, listed, tm_of};

use crate::forms::{Branch, Definition, Term, TermNode};
use std::rc::Rc;

/// A part of a form.
#[derive(Drop)]
pub struct Part<'a> {
    /// how many variables the form binds in it
    pub binds: u64,
    /// whether evaluation leaves it as it is until it is used
    pub kept: bool,
    /// the part
    pub term: &'a Rc<Term>,
}

impl<'a> Part<'a> {
    // evaluated, under no variable of the form
    fn here(term: &'a Rc<Term>) -> Self
        ensures { (result.binds ≡ 0) × (result.kept ≡ false) × (result.term.now ≡ term.now) }
    {
        Part {
            binds: 0,
            kept: false,
            term,
        }
    }

    // kept, under no variable of the form
    fn later(term: &'a Rc<Term>) -> Self
        ensures { (result.binds ≡ 0) × (result.kept ≡ true) × (result.term.now ≡ term.now) }
    {
        Part {
            binds: 0,
            kept: true,
            term,
        }
    }
}

// one part, of a form that binds and keeps nothing
fn one(i: usize, t: &Rc<Term>) -> Option<Part<'_>>
    ensures { IsPart result (part_at [] (cons t.now.value nil) i) }
{
    match i {
        0 => Some(Part::here(t)),
        _ => None,
    }
}

// two parts, of a form that binds and keeps nothing
fn two<'a>(i: usize, t: &'a Rc<Term>, u: &'a Rc<Term>) -> Option<Part<'a>>
    ensures { IsPart result (part_at [] (cons t.now.value (cons u.now.value nil)) i) }
{
    match i {
        0 => Some(Part::here(t)),
        1 => Some(Part::here(u)),
        _ => None,
    }
}

// three parts, of a form that binds and keeps nothing
fn three<'a>(i: usize, t: &'a Rc<Term>, u: &'a Rc<Term>, v: &'a Rc<Term>) -> Option<Part<'a>>
    ensures { IsPart result (part_at [] (cons t.now.value (cons u.now.value (cons v.now.value nil))) i) }
{
    match i {
        0 => Some(Part::here(t)),
        1 => Some(Part::here(u)),
        2 => Some(Part::here(v)),
        _ => None,
    }
}

// a type, and a part under a variable of this type
fn binder<'a>(i: usize, ty: &'a Rc<Term>, term: &'a Rc<Term>, kept: bool) -> Option<Part<'a>>
    ensures { IsPart result (part_at (here ∷ record { binds = 1; kept = kept } ∷ []) (cons ty.now.value (cons term.now.value nil)) i) }
{
    match i {
        0 => Some(Part::here(ty)),
        1 => Some(Part {
            binds: 1,
            kept,
            term,
        }),
        _ => None,
    }
}

// a type, a term of this type, and a part under a variable that stands for it
fn bound<'a>(
    i: usize,
    ty: &'a Rc<Term>,
    value: &'a Rc<Term>,
    term: &'a Rc<Term>,
    kept: bool,
) -> Option<Part<'a>>
    ensures { IsPart result
        (part_at (record { binds = 0; kept = kept } ∷ here ∷ record { binds = 1; kept = kept } ∷ []) (cons ty.now.value (cons value.now.value (cons term.now.value nil))) i) }
{
    match i {
        0 => Some(Part {
            binds: 0,
            kept,
            term: ty,
        }),
        1 => Some(Part::here(value)),
        2 => Some(Part {
            binds: 1,
            kept,
            term,
        }),
        _ => None,
    }
}

// the parts of a recursor with one case
fn recursor<'a>(i: usize, p: &'a Rc<Term>, u: &'a Rc<Term>, n: &'a Rc<Term>) -> Option<Part<'a>>
    ensures { IsPart result (part_at (later ∷ later ∷ here ∷ []) (cons p.now.value (cons u.now.value (cons n.now.value nil))) i) }
{
    match i {
        0 => Some(Part::later(p)),
        1 => Some(Part::later(u)),
        2 => Some(Part::here(n)),
        _ => None,
    }
}

// the parts of a recursor with two cases
fn recursor_of_two<'a>(
    i: usize,
    p: &'a Rc<Term>,
    u: &'a Rc<Term>,
    v: &'a Rc<Term>,
    n: &'a Rc<Term>,
) -> Option<Part<'a>>
    ensures { IsPart result (part_at (later ∷ later ∷ later ∷ here ∷ []) (cons p.now.value (cons u.now.value (cons v.now.value (cons n.now.value nil)))) i) }
{
    match i {
        0 => Some(Part::later(p)),
        1 => Some(Part::later(u)),
        2 => Some(Part::later(v)),
        3 => Some(Part::here(n)),
        _ => None,
    }
}

// these terms, of a form that binds and keeps nothing
fn many(i: usize, ts: &Vec<Rc<Term>>) -> Option<Part<'_>>
    ensures { IsPart result (part_at [] (listed ts.now.items nil) i) }
{
    match ts.get(i) {
        Some(t) => Some(Part::here(t)),
        None => None,
    }
}

// these terms and then those
fn both<'a>(i: usize, ts: &'a Vec<Rc<Term>>, us: &'a Vec<Rc<Term>>) -> Option<Part<'a>>
    ensures { IsPart result (part_at [] (listed ts.now.items (listed us.now.items nil)) i) }
{
    if i < ts.len() {
        many(i, ts)
    } else {
        many(i - ts.len(), us)
    }
}

// the definitions of a group, and its last part
fn grouped<'a>(i: usize, ds: &'a Vec<Definition>, term: &'a Rc<Term>) -> Option<Part<'a>>
    ensures { IsPart result (part_at (group (length ds.now.items) (length ds.now.items)) (definitions ds.now.items (cons term.now.value nil)) i) }
{
    let binds = ds.len() as u64;
    match ds.get(i / 2) {
        Some(d) => {
            if i % 2 == 0 {
                Some(Part::here(&d.ty))
            } else {
                Some(Part {
                    binds,
                    kept: false,
                    term: &d.value,
                })
            }
        }
        None => {
            if i == 2 * ds.len() {
                Some(Part {
                    binds,
                    kept: false,
                    term,
                })
            } else {
                None
            }
        }
    }
}

// the branch with this number
fn branch(i: usize, bs: &Vec<Branch>) -> Option<Part<'_>>
    ensures { IsPart result (part_at (branch_parts (heads bs.now.items)) (bodies bs.now.items) i) }
{
    match bs.get(i) {
        Some(b) => Some(Part {
            binds: u64::from(b.names),
            kept: false,
            term: &b.body,
        }),
        None => None,
    }
}

// the parts of a case
fn case<'a>(i: usize, t: &'a Rc<Term>, ty: &'a Rc<Term>, bs: &'a Vec<Branch>) -> Option<Part<'a>>
    ensures { IsPart result (part_at (parts (CaseH (heads bs.now.items))) (cons t.now.value (cons ty.now.value (bodies bs.now.items))) i) }
{
    match i {
        0 => Some(Part::here(t)),
        1 => Some(Part::here(ty)),
        _ => branch(i - 2, bs),
    }
}

impl TermNode {
    /// The part with this number, counted from 0; `None` exactly where there is none.
    pub fn part(&self, i: usize) -> Option<Part<'_>>
        ensures { IsPart result (part_of (tm_of self.now) i) }
    {
        match self {
            TermNode::Var(_)
            | TermNode::MetaTy
            | TermNode::ValTy
            | TermNode::CompTy
            | TermNode::Ty
            | TermNode::UnitTy
            | TermNode::Unit
            | TermNode::BoolTy
            | TermNode::True
            | TermNode::False
            | TermNode::NatTy
            | TermNode::Zero
            | TermNode::IntTy
            | TermNode::Lit(_)
            | TermNode::Hole(_) => None,
            TermNode::Fst(t)
            | TermNode::Snd(t)
            | TermNode::Suc(t)
            | TermNode::ListTy(t)
            | TermNode::Nil(t)
            | TermNode::Lift(t)
            | TermNode::Quote(t)
            | TermNode::V(t)
            | TermNode::C(t)
            | TermNode::Fail(t)
            | TermNode::Splice(t) => one(i, t),
            TermNode::App {
                function,
                argument,
                ..
            } => two(i, function, argument),
            TermNode::Cons(t, u)
            | TermNode::Arr(t, u)
            | TermNode::Prim(_, t, u)
            | TermNode::OApp(t, u) => two(i, t, u),
            TermNode::Pair(s, t, u) => three(i, s, t, u),
            TermNode::Pi {
                domain,
                codomain,
                ..
            } => binder(i, domain, codomain, true),
            TermNode::Lam { domain, body, .. } => binder(i, domain, body, true),
            TermNode::Sig(a, b) => binder(i, a, b, true),
            TermNode::OLam { domain, body } => binder(i, domain, body, false),
            TermNode::Let { ty, value, body } => bound(i, ty, value, body, true),
            TermNode::LetV { ty, value, body } => bound(i, ty, value, body, false),
            TermNode::UnitRec(p, u, n) => recursor(i, p, u, n),
            TermNode::BoolRec(p, u, v, n)
            | TermNode::NatRec(p, u, v, n)
            | TermNode::ListRec(p, u, v, n) => recursor_of_two(i, p, u, v, n),
            TermNode::Data(_, ts) => many(i, ts),
            TermNode::Con { params, fields, .. } => both(i, params, fields),
            TermNode::LetRec { definitions, body } => grouped(i, definitions, body),
            TermNode::Case {
                scrutinee,
                ty,
                branches,
            } => case(i, scrutinee, ty, branches),
        }
    }

    /// The variable, where the form is one.
    pub fn variable(&self) -> Option<u32>
        ensures { result ≡ variable_of (tm_of self.now) }
    {
        match self {
            TermNode::Var(i) => Some(*i),
            _ => None,
        }
    }

    /// How many parts it has.
    #[tactic(auto, using(crate::proofs::Places::listed_length, crate::proofs::Places::definitions_length, crate::proofs::Places::bodies_length))]
    pub fn count(&self) -> usize
        ensures { result ≡ count (tm_of self.now) }
    {
        match self {
            TermNode::Var(_)
            | TermNode::MetaTy
            | TermNode::ValTy
            | TermNode::CompTy
            | TermNode::Ty
            | TermNode::UnitTy
            | TermNode::Unit
            | TermNode::BoolTy
            | TermNode::True
            | TermNode::False
            | TermNode::NatTy
            | TermNode::Zero
            | TermNode::IntTy
            | TermNode::Lit(_)
            | TermNode::Hole(_) => 0,
            TermNode::Fst(_)
            | TermNode::Snd(_)
            | TermNode::Suc(_)
            | TermNode::ListTy(_)
            | TermNode::Nil(_)
            | TermNode::Lift(_)
            | TermNode::Quote(_)
            | TermNode::V(_)
            | TermNode::C(_)
            | TermNode::Fail(_)
            | TermNode::Splice(_) => 1,
            TermNode::Pi { .. }
            | TermNode::Lam { .. }
            | TermNode::App { .. }
            | TermNode::Sig(_, _)
            | TermNode::Cons(_, _)
            | TermNode::Arr(_, _)
            | TermNode::Prim(_, _, _)
            | TermNode::OLam { .. }
            | TermNode::OApp(_, _) => 2,
            TermNode::Let { .. }
            | TermNode::LetV { .. }
            | TermNode::Pair(_, _, _)
            | TermNode::UnitRec(_, _, _) => 3,
            TermNode::BoolRec(_, _, _, _)
            | TermNode::NatRec(_, _, _, _)
            | TermNode::ListRec(_, _, _, _) => 4,
            TermNode::Data(_, ts) => ts.len(),
            TermNode::Con { params, fields, .. } => params.len() + fields.len(),
            TermNode::LetRec { definitions, .. } => 2 * definitions.len() + 1,
            TermNode::Case { branches, .. } => branches.len() + 2,
        }
    }
}
