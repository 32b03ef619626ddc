// The form of a shape with given parts.
ghost use Rattle.std.specs.Prelude.{◌≡◌, ◌∷◌, ◌+◌, ◌*◌, ◌≤◌, ◌<◌, IfOk, length};
ghost use Rattle.std.specs.Vec.Iter.{into_iter_items, into_iter_len};
ghost use Rattle.cf_term.specs.Core.{cons, nil, node, CaseH, ConH, LetRecH};
ghost use Rattle.cf_term.specs.View.{listed, tm_of};
ghost use Rattle.cf_value.specs.Heads.{Fits, branches, head_of};

use crate::memory::push;
use crate::shapes::{Arm, Shape};
use cf_base::NoMemory;
use cf_term::{Branch, Definition, Term, TermNode};
use std::alloc::Global;
use std::rc::Rc;
use std::vec::IntoIter;

// the next part
fn next(rest: &mut IntoIter<Rc<Term>>) -> Rc<Term>
    requires { 0 < into_iter_len rest.old }
    ensures items { into_iter_items rest.old ≡ result ∷ into_iter_items rest.new }
    ensures len { into_iter_len rest.new + 1 ≡ into_iter_len rest.old }
{
    match rest.next() {
        Some(t) => t,
        None => unreachable!(),
    }
}

fn one(parts: Vec<Rc<Term>>) -> Rc<Term>
    requires { length parts.items ≡ 1 }
    ensures { listed parts.items nil ≡ cons result.value nil }
{
    let mut rest = parts.into_iter();
    next(&mut rest)
}

fn two(parts: Vec<Rc<Term>>) -> (Rc<Term>, Rc<Term>)
    requires { length parts.items ≡ 2 }
    ensures { listed parts.items nil ≡ cons result.0.value (cons result.1.value nil) }
{
    let mut rest = parts.into_iter();
    let t = next(&mut rest);
    let u = next(&mut rest);
    (t, u)
}

fn three(parts: Vec<Rc<Term>>) -> (Rc<Term>, Rc<Term>, Rc<Term>)
    requires { length parts.items ≡ 3 }
    ensures { listed parts.items nil ≡ cons result.0.value (cons result.1.value (cons result.2.value nil)) }
{
    let mut rest = parts.into_iter();
    let t = next(&mut rest);
    let u = next(&mut rest);
    let v = next(&mut rest);
    (t, u, v)
}

fn four(parts: Vec<Rc<Term>>) -> (Rc<Term>, Rc<Term>, Rc<Term>, Rc<Term>)
    requires { length parts.items ≡ 4 }
    ensures { listed parts.items nil ≡ cons result.0.value (cons result.1.value (cons result.2.value (cons result.3.value nil))) }
{
    let mut rest = parts.into_iter();
    let t = next(&mut rest);
    let u = next(&mut rest);
    let v = next(&mut rest);
    let w = next(&mut rest);
    (t, u, v, w)
}

// the constructor with these parameters and then fields
fn con(
    data_type: u32,
    ctor: u32,
    count: usize,
    mut parts: Vec<Rc<Term>>,
) -> Result<TermNode, NoMemory>
    requires { count ≤ length parts.items }
    ensures { IfOk result (λ n. tm_of n ≡ node (ConH data_type ctor count) (listed parts.items nil)) }
{
    match parts.split_off(count) {
        Ok(fields) => Ok(TermNode::Con {
            data_type,
            ctor,
            params: parts,
            fields,
        }),
        Err(_) => Err(NoMemory),
    }
}

// the group of so many definitions, each a type and then a body, and the last part
fn group(alloc: Global, count: usize, parts: Vec<Rc<Term>>) -> Result<TermNode, NoMemory>
    requires { length parts.items ≡ 2 * count + 1 }
    ensures { IfOk result (λ n. tm_of n ≡ node (LetRecH count) (listed parts.items nil)) }
{
    let mut definitions = Vec::new(alloc);
    let mut rest = parts.into_iter();
    for _ in 0..count {
        let ty = next(&mut rest);
        let value = next(&mut rest);
        push(&mut definitions, Definition { ty, value })?;
    }
    let body = next(&mut rest);
    Ok(TermNode::LetRec { definitions, body })
}

// the case with these branches
fn case(alloc: Global, arms: &Vec<Arm>, parts: Vec<Rc<Term>>) -> Result<TermNode, NoMemory>
    requires { length parts.items ≡ length arms.now.items + 2 }
    ensures { IfOk result (λ n. tm_of n ≡ node (CaseH (branches arms.now.items)) (listed parts.items nil)) }
{
    let mut made = Vec::new(alloc);
    let mut rest = parts.into_iter();
    let scrutinee = next(&mut rest);
    let ty = next(&mut rest);
    for a in arms {
        let body = next(&mut rest);
        let (data_type, ctor, names) = (a.data_type, a.ctor, a.names);
        push(
            &mut made,
            Branch {
                data_type,
                ctor,
                names,
                body,
            },
        )?;
    }
    Ok(TermNode::Case {
        scrutinee,
        ty,
        branches: made,
    })
}

impl Shape {
    /// The form of this shape with these parts, as many as it should have.
    pub fn with_parts(&self, alloc: Global, parts: Vec<Rc<Term>>) -> Result<TermNode, NoMemory>
        requires { Fits (head_of self.now) (length parts.items) }
        ensures { IfOk result (λ n. tm_of n ≡ node (head_of self.now) (listed parts.items nil)) }
    {
        match self {
            Shape::MetaTy => Ok(TermNode::MetaTy),
            Shape::ValTy => Ok(TermNode::ValTy),
            Shape::CompTy => Ok(TermNode::CompTy),
            Shape::Ty => Ok(TermNode::Ty),
            Shape::UnitTy => Ok(TermNode::UnitTy),
            Shape::Unit => Ok(TermNode::Unit),
            Shape::BoolTy => Ok(TermNode::BoolTy),
            Shape::True => Ok(TermNode::True),
            Shape::False => Ok(TermNode::False),
            Shape::NatTy => Ok(TermNode::NatTy),
            Shape::Zero => Ok(TermNode::Zero),
            Shape::IntTy => Ok(TermNode::IntTy),
            Shape::Lit(z) => Ok(TermNode::Lit(*z)),
            Shape::Hole(k) => Ok(TermNode::Hole(*k)),
            Shape::Fst => Ok(TermNode::Fst(one(parts))),
            Shape::Snd => Ok(TermNode::Snd(one(parts))),
            Shape::Suc => Ok(TermNode::Suc(one(parts))),
            Shape::ListTy => Ok(TermNode::ListTy(one(parts))),
            Shape::Nil => Ok(TermNode::Nil(one(parts))),
            Shape::Lift => Ok(TermNode::Lift(one(parts))),
            Shape::Quote => Ok(TermNode::Quote(one(parts))),
            Shape::V => Ok(TermNode::V(one(parts))),
            Shape::C => Ok(TermNode::C(one(parts))),
            Shape::Fail => Ok(TermNode::Fail(one(parts))),
            Shape::Splice => Ok(TermNode::Splice(one(parts))),
            Shape::Pi(implicit) => {
                let (t, u) = two(parts);
                Ok(TermNode::Pi {
                    implicit: *implicit,
                    domain: t,
                    codomain: u,
                })
            }
            Shape::Lam(implicit) => {
                let (t, u) = two(parts);
                Ok(TermNode::Lam {
                    implicit: *implicit,
                    domain: t,
                    body: u,
                })
            }
            Shape::App(implicit) => {
                let (t, u) = two(parts);
                Ok(TermNode::App {
                    implicit: *implicit,
                    function: t,
                    argument: u,
                })
            }
            Shape::Sig => {
                let (t, u) = two(parts);
                Ok(TermNode::Sig(t, u))
            }
            Shape::Cons => {
                let (t, u) = two(parts);
                Ok(TermNode::Cons(t, u))
            }
            Shape::Arr => {
                let (t, u) = two(parts);
                Ok(TermNode::Arr(t, u))
            }
            Shape::OApp => {
                let (t, u) = two(parts);
                Ok(TermNode::OApp(t, u))
            }
            Shape::Prim(op) => {
                let (t, u) = two(parts);
                Ok(TermNode::Prim(*op, t, u))
            }
            Shape::OLam => {
                let (t, u) = two(parts);
                Ok(TermNode::OLam { domain: t, body: u })
            }
            Shape::Let => {
                let (t, u, v) = three(parts);
                Ok(TermNode::Let {
                    ty: t,
                    value: u,
                    body: v,
                })
            }
            Shape::LetV => {
                let (t, u, v) = three(parts);
                Ok(TermNode::LetV {
                    ty: t,
                    value: u,
                    body: v,
                })
            }
            Shape::Pair => {
                let (t, u, v) = three(parts);
                Ok(TermNode::Pair(t, u, v))
            }
            Shape::UnitRec => {
                let (t, u, v) = three(parts);
                Ok(TermNode::UnitRec(t, u, v))
            }
            Shape::BoolRec => {
                let (t, u, v, w) = four(parts);
                Ok(TermNode::BoolRec(t, u, v, w))
            }
            Shape::NatRec => {
                let (t, u, v, w) = four(parts);
                Ok(TermNode::NatRec(t, u, v, w))
            }
            Shape::ListRec => {
                let (t, u, v, w) = four(parts);
                Ok(TermNode::ListRec(t, u, v, w))
            }
            Shape::Data(data_type) => Ok(TermNode::Data(*data_type, parts)),
            Shape::Con {
                data_type,
                ctor,
                params,
            } => con(*data_type, *ctor, *params, parts),
            Shape::LetRec(count) => group(alloc, *count, parts),
            Shape::Case(arms) => case(alloc, arms, parts),
        }
    }
}
