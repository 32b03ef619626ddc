// The same form with other parts.
ghost use Rattle.std.specs.Prelude.{◌≡◌, ◌∷◌, ◌+◌, ◌*◌, ◌≤◌, ◌<◌, IfOk, length};
ghost use Rattle.std.specs.Vec.Iter.{into_iter_items, into_iter_len};
ghost use Rattle.cf_term.specs.Core.{cons, nil, node, CaseH, ConH, LetRecH};
ghost use Rattle.cf_term.specs.Numbered.{count, with_terms};
ghost use Rattle.cf_term.specs.View.{heads, listed, tm_of};

use crate::forms::{Branch, Definition, Term, TermNode};
use crate::memory::push;
use cf_base::NoMemory;
use std::alloc::Global;
use std::rc::Rc;
use std::vec::IntoIter;

// the next part
fn next(rest: &mut IntoIter<Rc<Term>>) -> Rc<Term>
    requires { 0 < into_iter_len rest.old }
    ensures items { into_iter_items rest.old ≡ result ∷ into_iter_items rest.new }
    ensures len { into_iter_len rest.new + 1 ≡ into_iter_len rest.old }
{
    match rest.next() {
        Some(t) => t,
        None => unreachable!(),
    }
}

fn one(parts: Vec<Rc<Term>>) -> Rc<Term>
    requires { length parts.items ≡ 1 }
    ensures { listed parts.items nil ≡ cons result.value nil }
{
    let mut rest = parts.into_iter();
    next(&mut rest)
}

fn two(parts: Vec<Rc<Term>>) -> (Rc<Term>, Rc<Term>)
    requires { length parts.items ≡ 2 }
    ensures { listed parts.items nil ≡ cons result.0.value (cons result.1.value nil) }
{
    let mut rest = parts.into_iter();
    let t = next(&mut rest);
    let u = next(&mut rest);
    (t, u)
}

fn three(parts: Vec<Rc<Term>>) -> (Rc<Term>, Rc<Term>, Rc<Term>)
    requires { length parts.items ≡ 3 }
    ensures { listed parts.items nil ≡ cons result.0.value (cons result.1.value (cons result.2.value nil)) }
{
    let mut rest = parts.into_iter();
    let t = next(&mut rest);
    let u = next(&mut rest);
    let v = next(&mut rest);
    (t, u, v)
}

fn four(parts: Vec<Rc<Term>>) -> (Rc<Term>, Rc<Term>, Rc<Term>, Rc<Term>)
    requires { length parts.items ≡ 4 }
    ensures { listed parts.items nil ≡ cons result.0.value (cons result.1.value (cons result.2.value (cons result.3.value nil))) }
{
    let mut rest = parts.into_iter();
    let t = next(&mut rest);
    let u = next(&mut rest);
    let v = next(&mut rest);
    let w = next(&mut rest);
    (t, u, v, w)
}

// the constructor with these parameters and then fields
fn con(
    data_type: u32,
    ctor: u32,
    count: usize,
    mut parts: Vec<Rc<Term>>,
) -> Result<TermNode, NoMemory>
    requires { count ≤ length parts.items }
    ensures { IfOk result (λ n. tm_of n ≡ node (ConH data_type ctor count) (listed parts.items nil)) }
{
    match parts.split_off(count) {
        Ok(fields) => Ok(TermNode::Con {
            data_type,
            ctor,
            params: parts,
            fields,
        }),
        Err(_) => Err(NoMemory),
    }
}

// the group of so many definitions, each a type and then a body, and the last part
fn group(alloc: Global, count: usize, parts: Vec<Rc<Term>>) -> Result<TermNode, NoMemory>
    requires { length parts.items ≡ 2 * count + 1 }
    ensures { IfOk result (λ n. tm_of n ≡ node (LetRecH count) (listed parts.items nil)) }
{
    let mut definitions = Vec::new(alloc);
    let mut rest = parts.into_iter();
    for _ in 0..count {
        let ty = next(&mut rest);
        let value = next(&mut rest);
        push(&mut definitions, Definition { ty, value })?;
    }
    let body = next(&mut rest);
    Ok(TermNode::LetRec { definitions, body })
}

// the case with the data types, constructors and names of these branches
fn case(alloc: Global, branches: &Vec<Branch>, parts: Vec<Rc<Term>>) -> Result<TermNode, NoMemory>
    requires { length parts.items ≡ length branches.now.items + 2 }
    ensures { IfOk result (λ n. tm_of n ≡ node (CaseH (heads branches.now.items)) (listed parts.items nil)) }
{
    let mut made = Vec::new(alloc);
    let mut rest = parts.into_iter();
    let scrutinee = next(&mut rest);
    let ty = next(&mut rest);
    for b in branches {
        let body = next(&mut rest);
        let (data_type, ctor, names) = (b.data_type, b.ctor, b.names);
        push(
            &mut made,
            Branch {
                data_type,
                ctor,
                names,
                body,
            },
        )?;
    }
    Ok(TermNode::Case {
        scrutinee,
        ty,
        branches: made,
    })
}

impl TermNode {
    /// The same form with other parts, as many as it has. A variable has none, and stays as it is.
    pub fn with_parts(&self, alloc: Global, parts: Vec<Rc<Term>>) -> Result<TermNode, NoMemory>
        requires { length parts.items ≡ count (tm_of self.now) }
        ensures { IfOk result (λ n. tm_of n ≡ with_terms (tm_of self.now) (listed parts.items nil)) }
    {
        match self {
            TermNode::Var(i) => Ok(TermNode::Var(*i)),
            TermNode::MetaTy => Ok(TermNode::MetaTy),
            TermNode::ValTy => Ok(TermNode::ValTy),
            TermNode::CompTy => Ok(TermNode::CompTy),
            TermNode::Ty => Ok(TermNode::Ty),
            TermNode::UnitTy => Ok(TermNode::UnitTy),
            TermNode::Unit => Ok(TermNode::Unit),
            TermNode::BoolTy => Ok(TermNode::BoolTy),
            TermNode::True => Ok(TermNode::True),
            TermNode::False => Ok(TermNode::False),
            TermNode::NatTy => Ok(TermNode::NatTy),
            TermNode::Zero => Ok(TermNode::Zero),
            TermNode::IntTy => Ok(TermNode::IntTy),
            TermNode::Lit(z) => Ok(TermNode::Lit(*z)),
            TermNode::Hole(k) => Ok(TermNode::Hole(*k)),
            TermNode::Fst(_) => Ok(TermNode::Fst(one(parts))),
            TermNode::Snd(_) => Ok(TermNode::Snd(one(parts))),
            TermNode::Suc(_) => Ok(TermNode::Suc(one(parts))),
            TermNode::ListTy(_) => Ok(TermNode::ListTy(one(parts))),
            TermNode::Nil(_) => Ok(TermNode::Nil(one(parts))),
            TermNode::Lift(_) => Ok(TermNode::Lift(one(parts))),
            TermNode::Quote(_) => Ok(TermNode::Quote(one(parts))),
            TermNode::V(_) => Ok(TermNode::V(one(parts))),
            TermNode::C(_) => Ok(TermNode::C(one(parts))),
            TermNode::Fail(_) => Ok(TermNode::Fail(one(parts))),
            TermNode::Splice(_) => Ok(TermNode::Splice(one(parts))),
            TermNode::Pi { implicit, .. } => {
                let (t, u) = two(parts);
                Ok(TermNode::Pi {
                    implicit: *implicit,
                    domain: t,
                    codomain: u,
                })
            }
            TermNode::Lam { implicit, .. } => {
                let (t, u) = two(parts);
                Ok(TermNode::Lam {
                    implicit: *implicit,
                    domain: t,
                    body: u,
                })
            }
            TermNode::App { implicit, .. } => {
                let (t, u) = two(parts);
                Ok(TermNode::App {
                    implicit: *implicit,
                    function: t,
                    argument: u,
                })
            }
            TermNode::Sig(_, _) => {
                let (t, u) = two(parts);
                Ok(TermNode::Sig(t, u))
            }
            TermNode::Cons(_, _) => {
                let (t, u) = two(parts);
                Ok(TermNode::Cons(t, u))
            }
            TermNode::Arr(_, _) => {
                let (t, u) = two(parts);
                Ok(TermNode::Arr(t, u))
            }
            TermNode::OApp(_, _) => {
                let (t, u) = two(parts);
                Ok(TermNode::OApp(t, u))
            }
            TermNode::Prim(op, _, _) => {
                let (t, u) = two(parts);
                Ok(TermNode::Prim(*op, t, u))
            }
            TermNode::OLam { .. } => {
                let (t, u) = two(parts);
                Ok(TermNode::OLam { domain: t, body: u })
            }
            TermNode::Let { .. } => {
                let (t, u, v) = three(parts);
                Ok(TermNode::Let {
                    ty: t,
                    value: u,
                    body: v,
                })
            }
            TermNode::LetV { .. } => {
                let (t, u, v) = three(parts);
                Ok(TermNode::LetV {
                    ty: t,
                    value: u,
                    body: v,
                })
            }
            TermNode::Pair(_, _, _) => {
                let (t, u, v) = three(parts);
                Ok(TermNode::Pair(t, u, v))
            }
            TermNode::UnitRec(_, _, _) => {
                let (t, u, v) = three(parts);
                Ok(TermNode::UnitRec(t, u, v))
            }
            TermNode::BoolRec(_, _, _, _) => {
                let (t, u, v, w) = four(parts);
                Ok(TermNode::BoolRec(t, u, v, w))
            }
            TermNode::NatRec(_, _, _, _) => {
                let (t, u, v, w) = four(parts);
                Ok(TermNode::NatRec(t, u, v, w))
            }
            TermNode::ListRec(_, _, _, _) => {
                let (t, u, v, w) = four(parts);
                Ok(TermNode::ListRec(t, u, v, w))
            }
            TermNode::Data(data_type, _) => Ok(TermNode::Data(*data_type, parts)),
            TermNode::Con {
                data_type,
                ctor,
                params,
                ..
            } => con(*data_type, *ctor, params.len(), parts),
            TermNode::LetRec { definitions, .. } => group(alloc, definitions.len(), parts),
            TermNode::Case { branches, .. } => case(alloc, branches, parts),
        }
    }
}
