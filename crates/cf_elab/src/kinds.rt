// Forms by the number of their parts, and by the variables that these are under.
ghost use Rattle.std.specs.Prelude.{◌≡◌, [], ℕ};
ghost use Rattle.cf_term.specs.Core.{nil, cons};
ghost use Rattle.cf_term.specs.View.{tm_of};
ghost use Rattle.cf_elab.specs.Forms as spec;
ghost use Rattle.cf_elab.specs.Forms.{formed};
ghost use Rattle.cf_elab.specs.Kinds.{unary_head, binary_head, ternary_head, quaternary_head, binder_head, definer_head};
ghost use Rattle.cf_elab.specs.Resolving.{As};

use cf_term::{Op, Term, TermNode};
use std::rc::Rc;

/// A form with one part.
#[derive(Clone, Copy)]
pub enum Unary {
    Fst,
    Snd,
    Suc,
    ListTy,
    Nil,
    Lift,
    Quote,
    V,
    C,
    Fail,
    Splice,
}

/// A form with two parts.
#[derive(Clone, Copy)]
pub enum Binary {
    App(bool),
    Cons,
    Arr,
    Prim(cf_tree::Op),
    OApp,
}

/// A form with three parts.
#[derive(Clone, Copy)]
pub enum Ternary {
    Pair,
    UnitRec,
}

/// A form with four parts.
#[derive(Clone, Copy)]
pub enum Quaternary {
    BoolRec,
    NatRec,
    ListRec,
}

/// A form with the type of a variable, and a part under it.
#[derive(Clone, Copy)]
pub enum Binder {
    Pi(bool),
    Lam(bool),
    Sig,
    OLam,
}

/// A form with the type of a variable, what it stands for, and a part under it.
#[derive(Clone, Copy)]
pub enum Definer {
    Let,
    LetV,
}

impl Unary {
    /// The form with this part.
    pub fn over(self, t: Rc<Term>) -> TermNode
        ensures { (k : ℕ) → formed (unary_head self) [] (cons t.value nil) k ≡ As (tm_of result) k }
    {
        match self {
            Unary::Fst => TermNode::Fst(t),
            Unary::Snd => TermNode::Snd(t),
            Unary::Suc => TermNode::Suc(t),
            Unary::ListTy => TermNode::ListTy(t),
            Unary::Nil => TermNode::Nil(t),
            Unary::Lift => TermNode::Lift(t),
            Unary::Quote => TermNode::Quote(t),
            Unary::V => TermNode::V(t),
            Unary::C => TermNode::C(t),
            Unary::Fail => TermNode::Fail(t),
            Unary::Splice => TermNode::Splice(t),
        }
    }
}

impl Binary {
    /// The form with these parts.
    pub fn over(self, t: Rc<Term>, u: Rc<Term>) -> TermNode
        ensures { (k : ℕ) → formed (binary_head self) [] (cons t.value (cons u.value nil)) k ≡ As (tm_of result) k }
    {
        match self {
            Binary::App(implicit) => TermNode::App {
                implicit,
                function: t,
                argument: u,
            },
            Binary::Cons => TermNode::Cons(t, u),
            Binary::Arr => TermNode::Arr(t, u),
            Binary::Prim(op) => TermNode::Prim(core_op(op), t, u),
            Binary::OApp => TermNode::OApp(t, u),
        }
    }
}

impl Ternary {
    /// The form with these parts.
    pub fn over(self, t: Rc<Term>, u: Rc<Term>, v: Rc<Term>) -> TermNode
        ensures { (k : ℕ) → formed (ternary_head self) [] (cons t.value (cons u.value (cons v.value nil))) k ≡ As (tm_of result) k }
    {
        match self {
            Ternary::Pair => TermNode::Pair(t, u, v),
            Ternary::UnitRec => TermNode::UnitRec(t, u, v),
        }
    }
}

impl Quaternary {
    /// The form with these parts.
    pub fn over(self, t: Rc<Term>, u: Rc<Term>, v: Rc<Term>, w: Rc<Term>) -> TermNode
        ensures { (k : ℕ) → formed (quaternary_head self) [] (cons t.value (cons u.value (cons v.value (cons w.value nil)))) k ≡ As (tm_of result) k }
    {
        match self {
            Quaternary::BoolRec => TermNode::BoolRec(t, u, v, w),
            Quaternary::NatRec => TermNode::NatRec(t, u, v, w),
            Quaternary::ListRec => TermNode::ListRec(t, u, v, w),
        }
    }
}

impl Binder {
    /// The form with these parts.
    pub fn over(self, ty: Rc<Term>, body: Rc<Term>) -> TermNode
        ensures { (k : ℕ) → formed (binder_head self) [] (cons ty.value (cons body.value nil)) k ≡ As (tm_of result) k }
    {
        match self {
            Binder::Pi(implicit) => TermNode::Pi {
                implicit,
                domain: ty,
                codomain: body,
            },
            Binder::Lam(implicit) => TermNode::Lam {
                implicit,
                domain: ty,
                body,
            },
            Binder::Sig => TermNode::Sig(ty, body),
            Binder::OLam => TermNode::OLam { domain: ty, body },
        }
    }
}

impl Definer {
    /// The form with these parts.
    pub fn over(self, ty: Rc<Term>, value: Rc<Term>, body: Rc<Term>) -> TermNode
        ensures { (k : ℕ) → formed (definer_head self) [] (cons ty.value (cons value.value (cons body.value nil))) k ≡ As (tm_of result) k }
    {
        match self {
            Definer::Let => TermNode::Let { ty, value, body },
            Definer::LetV => TermNode::LetV { ty, value, body },
        }
    }
}

// The operation of the same name.
fn core_op(op: cf_tree::Op) -> Op
    ensures { result ≡ spec.core_op op }
{
    match op {
        cf_tree::Op::Add => Op::Add,
        cf_tree::Op::Sub => Op::Sub,
        cf_tree::Op::Mul => Op::Mul,
        cf_tree::Op::Div => Op::Div,
        cf_tree::Op::Rem => Op::Rem,
        cf_tree::Op::Eq => Op::Eq,
        cf_tree::Op::Lt => Op::Lt,
    }
}
