// Terms: one variant for each form of the language.
use crate::operations::Op;
use std::marker::Model;
use std::rc::Rc;

/// A term. Contracts see it as a tree of forms, where each form is a head with its parts (`specs/Core`).
#[cycle(term)]
#[derive(Drop)]
pub struct Term {
    /// whether its outermost form was inserted, and not written
    pub inserted: bool,
    /// its outermost form
    pub node: TermNode,
}

/// A form with its parts. Variables are de Bruijn indices: 0 is the innermost one in scope.
#[cycle(term)]
#[derive(Drop)]
pub enum TermNode {
    /// `x`
    Var(u32),
    /// `MetaTy`
    MetaTy,
    /// `ValTy`
    ValTy,
    /// `CompTy`
    CompTy,
    /// `Ty`
    Ty,
    /// `Pi (x : domain) -> codomain`
    Pi {
        /// whether arguments may be left out
        implicit: bool,
        /// the type of the variable
        domain: Rc<Term>,
        /// the type of a result, under the variable
        codomain: Rc<Term>,
    },
    /// `\(x : domain). body`
    Lam {
        /// whether arguments may be left out
        implicit: bool,
        /// the type of the variable
        domain: Rc<Term>,
        /// what is answered, under the variable
        body: Rc<Term>,
    },
    /// `function argument`
    App {
        /// whether the argument may be left out
        implicit: bool,
        /// what is applied
        function: Rc<Term>,
        /// to what
        argument: Rc<Term>,
    },
    /// `mlet x : ty := value; body`
    Let {
        /// the type of the variable
        ty: Rc<Term>,
        /// what it stands for
        value: Rc<Term>,
        /// what is answered, under the variable
        body: Rc<Term>,
    },
    /// `Sig (x : A), B`: the type of the first component, and that of the second, under the first
    Sig(Rc<Term>, Rc<Term>),
    /// `pair S t u`: the type, the first and the second component
    Pair(Rc<Term>, Rc<Term>, Rc<Term>),
    /// `fst t`
    Fst(Rc<Term>),
    /// `snd t`
    Snd(Rc<Term>),
    /// `Unit`
    UnitTy,
    /// `unit`
    Unit,
    /// `unitrec P u n`
    UnitRec(Rc<Term>, Rc<Term>, Rc<Term>),
    /// `Bool`
    BoolTy,
    /// `true`
    True,
    /// `false`
    False,
    /// `boolrec P t f n`
    BoolRec(Rc<Term>, Rc<Term>, Rc<Term>, Rc<Term>),
    /// `Nat`
    NatTy,
    /// `zero`
    Zero,
    /// `suc n`
    Suc(Rc<Term>),
    /// `natrec P z s n`
    NatRec(Rc<Term>, Rc<Term>, Rc<Term>, Rc<Term>),
    /// `List A`
    ListTy(Rc<Term>),
    /// `nil A`
    Nil(Rc<Term>),
    /// `cons t u`
    Cons(Rc<Term>, Rc<Term>),
    /// `listrec P n c l`
    ListRec(Rc<Term>, Rc<Term>, Rc<Term>, Rc<Term>),
    /// `^A`
    Lift(Rc<Term>),
    /// `<o>`
    Quote(Rc<Term>),
    /// `V a`
    V(Rc<Term>),
    /// `C b`
    C(Rc<Term>),
    /// `Int`
    IntTy,
    /// `D[a, ..]`: the number of the data type, and its parameters
    Data(u32, Vec<Rc<Term>>),
    /// `a => B`
    Arr(Rc<Term>, Rc<Term>),
    /// an integer
    Lit(i64),
    /// `add t u` and its kin
    Prim(Op, Rc<Term>, Rc<Term>),
    /// `let x : ty := value; body`
    LetV {
        /// the type of the variable
        ty: Rc<Term>,
        /// what it stands for
        value: Rc<Term>,
        /// what is answered, under the variable
        body: Rc<Term>,
    },
    /// `letrec f : b := t; u`, with any number of definitions
    LetRec {
        /// the definitions; the last one's variable is the innermost
        definitions: Vec<Definition>,
        /// what is answered, under all of them
        body: Rc<Term>,
    },
    /// `fn (x : domain). body`
    OLam {
        /// the type of the variable
        domain: Rc<Term>,
        /// what is answered, under the variable
        body: Rc<Term>,
    },
    /// `t @ u`
    OApp(Rc<Term>, Rc<Term>),
    /// `con c[a, ..](t, ..)`
    Con {
        /// the number of the data type
        data_type: u32,
        /// the number of the constructor in its type
        ctor: u32,
        /// the parameters of the type
        params: Vec<Rc<Term>>,
        /// the fields
        fields: Vec<Rc<Term>>,
    },
    /// `case t : B of { c x .. . u | .. }`
    Case {
        /// what is looked at
        scrutinee: Rc<Term>,
        /// the type of the whole
        ty: Rc<Term>,
        /// a branch for each constructor
        branches: Vec<Branch>,
    },
    /// `fail A`
    Fail(Rc<Term>),
    /// `~u`
    Splice(Rc<Term>),
    /// a hole, by its number
    Hole(u32),
}

/// A definition of a `letrec`.
#[cycle(term)]
#[derive(Drop)]
pub struct Definition {
    /// its type, outside of the definitions
    pub ty: Rc<Term>,
    /// what it stands for, under all definitions of its `letrec`
    pub value: Rc<Term>,
}

/// A branch of a `case`.
#[cycle(term)]
#[derive(Drop)]
pub struct Branch {
    /// the number of the data type
    pub data_type: u32,
    /// the number of the constructor in its type
    pub ctor: u32,
    /// how many names it binds, one for each field; the last one's variable is the innermost
    pub names: u32,
    /// what is answered, under the names
    pub body: Rc<Term>,
}

impl Model for Term {
    ghost use Rattle.cf_term.specs.Core.{Tm, depth};
    ghost use Rattle.cf_term.specs.Codes.{tm_code};

    ghost Value = { Tm };

    ghost coded = { tm_code };

    ghost use Rattle.cf_term.specs.View.{tm_of, marked};

    ghost view = { λ t. marked t.inserted (tm_of t.node) };

    ghost size = { depth };

    ghost use Rattle.cf_term.specs.Falls.{falls};

    ghost size_decreases = { λ t h. falls t.inserted t.node };
}

/// A term that a refusal keeps.
#[derive(Drop)]
pub struct Kept {
    /// the term
    pub term: Term,
    /// how many variables are in scope where it stands
    pub depth: u32,
}
