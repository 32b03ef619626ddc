// Whether two terms are the same, marks and `implicit` flags aside. No memory is taken.
ghost use Rattle.std.specs.Prelude.{◌≡◌, ◌↔◌, IsTrue};
ghost use Rattle.cf_term.specs.Numbered.{terms};
ghost use Rattle.cf_term.specs.Roots.{branches_of, form_of, own_of};
ghost use Rattle.cf_term.specs.Same.{plain, plain_all, root};
ghost use Rattle.cf_term.specs.View.{heads, tm_of};

use crate::forms::{Branch, Term, TermNode};
use crate::operations::Op;

// Which form a term is, without its parts, flags, own numbers and branches.
#[derive(Clone, Copy, PartialEq, Eq)]
pub(crate) enum Form {
    Var,
    MetaTy,
    ValTy,
    CompTy,
    Ty,
    Pi,
    Lam,
    App,
    Let,
    Sig,
    Pair,
    Fst,
    Snd,
    UnitTy,
    Unit,
    UnitRec,
    BoolTy,
    True,
    False,
    BoolRec,
    NatTy,
    Zero,
    Suc,
    NatRec,
    ListTy,
    Nil,
    Cons,
    ListRec,
    Lift,
    Quote,
    V,
    C,
    IntTy,
    Data,
    Arr,
    Lit,
    Prim,
    LetV,
    LetRec,
    OLam,
    OApp,
    Con,
    Case,
    Fail,
    Splice,
    Hole,
}

// The numbers of a form that are no parts.
#[derive(Clone, Copy, PartialEq, Eq)]
pub(crate) enum Own {
    Nothing,
    Index(u32),
    Integer(i64),
    Operation(Op),
    Count(usize),
    Constructor(u32, u32, usize),
}

/// Whether two terms are the same, marks and `implicit` flags aside.
#[cycle(comparing)]
pub fn same(a: &Term, b: &Term) -> bool
    ensures { IsTrue result ↔ (plain a.now ≡ plain b.now) }
{
    same_root(&a.node, &b.node) && same_parts(&a.node, &b.node)
}

#[cycle(comparing)]
fn same_parts(a: &TermNode, b: &TermNode) -> bool
    ensures { IsTrue result ↔ (plain_all (terms (tm_of a.now)) ≡ plain_all (terms (tm_of b.now))) }
{
    if a.count() != b.count() {
        return false;
    }
    for i in 0..a.count() {
        match a.part(i) {
            Some(p) => match b.part(i) {
                Some(q) => {
                    if !same(p.term, q.term) {
                        return false;
                    }
                }
                None => unreachable!(),
            },
            None => unreachable!(),
        }
    }
    true
}

fn same_root(a: &TermNode, b: &TermNode) -> bool
    ensures { IsTrue result ↔ (root (tm_of a.now) ≡ root (tm_of b.now)) }
{
    if !same_form(a.form(), b.form()) {
        return false;
    }
    if !same_own(a.own(), b.own()) {
        return false;
    }
    same_branches(a.branches(), b.branches())
}

fn same_form(a: Form, b: Form) -> bool
    ensures { IsTrue result ↔ (a ≡ b) }
{
    a == b
}

fn same_own(a: Own, b: Own) -> bool
    ensures { IsTrue result ↔ (a ≡ b) }
{
    a == b
}

fn same_branches(a: &[Branch], b: &[Branch]) -> bool
    ensures { IsTrue result ↔ (heads a.now ≡ heads b.now) }
{
    if a.len() != b.len() {
        return false;
    }
    for i in 0..a.len() {
        if !same_head(&a[i], &b[i]) {
            return false;
        }
    }
    true
}

// the same constructor with as many names
fn same_head(a: &Branch, b: &Branch) -> bool
    ensures { IsTrue result ↔ ((a.now.data_type ≡ b.now.data_type) × (a.now.ctor ≡ b.now.ctor) × (a.now.names ≡ b.now.names)) }
{
    a.data_type == b.data_type && a.ctor == b.ctor && a.names == b.names
}

impl TermNode {
    // the branches, where the form is a case
    fn branches(&self) -> &[Branch]
        ensures { heads result.now ≡ branches_of (tm_of self.now) }
    {
        match self {
            TermNode::Case { branches, .. } => branches.as_slice(),
            _ => &[],
        }
    }

    fn own(&self) -> Own
        ensures { result ≡ own_of (tm_of self.now) }
    {
        match self {
            TermNode::Var(i) => Own::Index(*i),
            TermNode::Hole(k) => Own::Index(*k),
            TermNode::Data(data_type, _) => Own::Index(*data_type),
            TermNode::Lit(z) => Own::Integer(*z),
            TermNode::Prim(op, _, _) => Own::Operation(*op),
            TermNode::LetRec { definitions, .. } => Own::Count(definitions.len()),
            TermNode::Con {
                data_type,
                ctor,
                params,
                ..
            } => Own::Constructor(*data_type, *ctor, params.len()),
            _ => Own::Nothing,
        }
    }

    fn form(&self) -> Form
        ensures { result ≡ form_of (tm_of self.now) }
    {
        match self {
            TermNode::Var(_) => Form::Var,
            TermNode::MetaTy => Form::MetaTy,
            TermNode::ValTy => Form::ValTy,
            TermNode::CompTy => Form::CompTy,
            TermNode::Ty => Form::Ty,
            TermNode::Pi { .. } => Form::Pi,
            TermNode::Lam { .. } => Form::Lam,
            TermNode::App { .. } => Form::App,
            TermNode::Let { .. } => Form::Let,
            TermNode::Sig(_, _) => Form::Sig,
            TermNode::Pair(_, _, _) => Form::Pair,
            TermNode::Fst(_) => Form::Fst,
            TermNode::Snd(_) => Form::Snd,
            TermNode::UnitTy => Form::UnitTy,
            TermNode::Unit => Form::Unit,
            TermNode::UnitRec(_, _, _) => Form::UnitRec,
            TermNode::BoolTy => Form::BoolTy,
            TermNode::True => Form::True,
            TermNode::False => Form::False,
            TermNode::BoolRec(_, _, _, _) => Form::BoolRec,
            TermNode::NatTy => Form::NatTy,
            TermNode::Zero => Form::Zero,
            TermNode::Suc(_) => Form::Suc,
            TermNode::NatRec(_, _, _, _) => Form::NatRec,
            TermNode::ListTy(_) => Form::ListTy,
            TermNode::Nil(_) => Form::Nil,
            TermNode::Cons(_, _) => Form::Cons,
            TermNode::ListRec(_, _, _, _) => Form::ListRec,
            TermNode::Lift(_) => Form::Lift,
            TermNode::Quote(_) => Form::Quote,
            TermNode::V(_) => Form::V,
            TermNode::C(_) => Form::C,
            TermNode::IntTy => Form::IntTy,
            TermNode::Data(_, _) => Form::Data,
            TermNode::Arr(_, _) => Form::Arr,
            TermNode::Lit(_) => Form::Lit,
            TermNode::Prim(_, _, _) => Form::Prim,
            TermNode::LetV { .. } => Form::LetV,
            TermNode::LetRec { .. } => Form::LetRec,
            TermNode::OLam { .. } => Form::OLam,
            TermNode::OApp(_, _) => Form::OApp,
            TermNode::Con { .. } => Form::Con,
            TermNode::Case { .. } => Form::Case,
            TermNode::Fail(_) => Form::Fail,
            TermNode::Splice(_) => Form::Splice,
            TermNode::Hole(_) => Form::Hole,
        }
    }
}
