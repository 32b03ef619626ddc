// What a form is, without its parts.
ghost use Rattle.std.specs.Prelude.{◌≡◌, IfOk, Option, None};
ghost use Rattle.cf_term.specs.Core.{node, CaseH};
ghost use Rattle.cf_term.specs.Numbered.{count, terms, variable_of};
ghost use Rattle.cf_term.specs.View.{heads, tm_of};
ghost use Rattle.cf_value.specs.Heads.{Fits, branches, head_of};

use crate::memory::push;
use cf_base::NoMemory;
use cf_term::{Branch, Op, TermNode};
use std::alloc::Global;

/// A branch of a `case` without its body.
#[derive(Clone, Copy, PartialEq, Eq, Debug)]
pub struct Arm {
    /// the number of the data type
    pub data_type: u32,
    /// the number of the constructor in its type
    pub ctor: u32,
    /// how many names it binds
    pub names: u32,
}

/// A form of the language without its parts: one variant for each, but for the variable.
#[derive(Drop)]
pub enum Shape {
    /// `MetaTy`
    MetaTy,
    /// `ValTy`
    ValTy,
    /// `CompTy`
    CompTy,
    /// `Ty`
    Ty,
    /// `Pi (x : A) -> B`, and whether arguments may be left out
    Pi(bool),
    /// `\(x : A). t`, and whether arguments may be left out
    Lam(bool),
    /// `t u`, and whether the argument may be left out
    App(bool),
    /// `mlet x : A := t; u`
    Let,
    /// `Sig (x : A), B`
    Sig,
    /// `pair S t u`
    Pair,
    /// `fst t`
    Fst,
    /// `snd t`
    Snd,
    /// `Unit`
    UnitTy,
    /// `unit`
    Unit,
    /// `unitrec P u n`
    UnitRec,
    /// `Bool`
    BoolTy,
    /// `true`
    True,
    /// `false`
    False,
    /// `boolrec P t f n`
    BoolRec,
    /// `Nat`
    NatTy,
    /// `zero`
    Zero,
    /// `suc n`
    Suc,
    /// `natrec P z s n`
    NatRec,
    /// `List A`
    ListTy,
    /// `nil A`
    Nil,
    /// `cons t u`
    Cons,
    /// `listrec P n c l`
    ListRec,
    /// `^A`
    Lift,
    /// `<o>`
    Quote,
    /// `V a`
    V,
    /// `C b`
    C,
    /// `Int`
    IntTy,
    /// `D[a, ..]`, by the number of the data type
    Data(u32),
    /// `a => B`
    Arr,
    /// an integer
    Lit(i64),
    /// `add t u` and its kin
    Prim(Op),
    /// `let x : A := t; u`
    LetV,
    /// `letrec f : b := t; u`, by the number of its definitions
    LetRec(usize),
    /// `fn (x : a). t`
    OLam,
    /// `t @ u`
    OApp,
    /// `con c[a, ..](t, ..)`
    Con {
        /// the number of the data type
        data_type: u32,
        /// the number of the constructor in its type
        ctor: u32,
        /// how many of the parts are parameters of the type
        params: usize,
    },
    /// `case t : B of { c x .. . u | .. }`, by its branches
    Case(Vec<Arm>),
    /// `fail A`
    Fail,
    /// `~u`
    Splice,
    /// a hole, by its number
    Hole(u32),
}

// the branches without their bodies
fn arms(alloc: Global, bs: &Vec<Branch>) -> Result<Shape, NoMemory>
    ensures { IfOk result (λ s. head_of s ≡ CaseH (heads bs.now.items)) }
{
    let mut made = Vec::new(alloc);
    for b in bs {
        let arm = Arm {
            data_type: b.data_type,
            ctor: b.ctor,
            names: b.names,
        };
        push(&mut made, arm)?;
    }
    Ok(Shape::Case(made))
}

impl Shape {
    /// The shape of a form that is no variable.
    pub fn of(alloc: Global, form: &TermNode) -> Result<Shape, NoMemory>
        requires { variable_of (tm_of form.now) ≡ None }
        ensures shape { IfOk result (λ s. tm_of form.now ≡ node (head_of s) (terms (tm_of form.now))) }
        ensures fits { IfOk result (λ s. Fits (head_of s) (count (tm_of form.now))) }
    {
        match form {
            TermNode::Var(_) => unreachable!(),
            TermNode::MetaTy => Ok(Shape::MetaTy),
            TermNode::ValTy => Ok(Shape::ValTy),
            TermNode::CompTy => Ok(Shape::CompTy),
            TermNode::Ty => Ok(Shape::Ty),
            TermNode::Pi { implicit, .. } => Ok(Shape::Pi(*implicit)),
            TermNode::Lam { implicit, .. } => Ok(Shape::Lam(*implicit)),
            TermNode::App { implicit, .. } => Ok(Shape::App(*implicit)),
            TermNode::Let { .. } => Ok(Shape::Let),
            TermNode::Sig(_, _) => Ok(Shape::Sig),
            TermNode::Pair(_, _, _) => Ok(Shape::Pair),
            TermNode::Fst(_) => Ok(Shape::Fst),
            TermNode::Snd(_) => Ok(Shape::Snd),
            TermNode::UnitTy => Ok(Shape::UnitTy),
            TermNode::Unit => Ok(Shape::Unit),
            TermNode::UnitRec(_, _, _) => Ok(Shape::UnitRec),
            TermNode::BoolTy => Ok(Shape::BoolTy),
            TermNode::True => Ok(Shape::True),
            TermNode::False => Ok(Shape::False),
            TermNode::BoolRec(_, _, _, _) => Ok(Shape::BoolRec),
            TermNode::NatTy => Ok(Shape::NatTy),
            TermNode::Zero => Ok(Shape::Zero),
            TermNode::Suc(_) => Ok(Shape::Suc),
            TermNode::NatRec(_, _, _, _) => Ok(Shape::NatRec),
            TermNode::ListTy(_) => Ok(Shape::ListTy),
            TermNode::Nil(_) => Ok(Shape::Nil),
            TermNode::Cons(_, _) => Ok(Shape::Cons),
            TermNode::ListRec(_, _, _, _) => Ok(Shape::ListRec),
            TermNode::Lift(_) => Ok(Shape::Lift),
            TermNode::Quote(_) => Ok(Shape::Quote),
            TermNode::V(_) => Ok(Shape::V),
            TermNode::C(_) => Ok(Shape::C),
            TermNode::IntTy => Ok(Shape::IntTy),
            TermNode::Data(data_type, _) => Ok(Shape::Data(*data_type)),
            TermNode::Arr(_, _) => Ok(Shape::Arr),
            TermNode::Lit(z) => Ok(Shape::Lit(*z)),
            TermNode::Prim(op, _, _) => Ok(Shape::Prim(*op)),
            TermNode::LetV { .. } => Ok(Shape::LetV),
            TermNode::LetRec { definitions, .. } => Ok(Shape::LetRec(definitions.len())),
            TermNode::OLam { .. } => Ok(Shape::OLam),
            TermNode::OApp(_, _) => Ok(Shape::OApp),
            TermNode::Con {
                data_type,
                ctor,
                params,
                ..
            } => Ok(Shape::Con {
                data_type: *data_type,
                ctor: *ctor,
                params: params.len(),
            }),
            TermNode::Case { branches, .. } => arms(alloc, branches),
            TermNode::Fail(_) => Ok(Shape::Fail),
            TermNode::Splice(_) => Ok(Shape::Splice),
            TermNode::Hole(k) => Ok(Shape::Hole(*k)),
        }
    }
}
