// Trees: one variant for each form of the language.
use crate::heads::Op;
use cf_base::At;
use std::marker::Model;

/// The name of a data type or constructor, with the place where it stands.
#[derive(Drop)]
pub struct Named {
    /// where it stands
    pub at: At,
    /// the name
    pub name: String,
}

impl Model for Named {
    ghost use Rattle.std.specs.Prelude.{string_bytes};
    ghost use Rattle.cf_tree.specs.Tree as spec;

    ghost Value = { spec.Named };

    ghost view = { λ n. record { at = n.at; name = string_bytes n.name } };
}

/// A term as it is written. Contracts see it as a tree of forms, where each form is a head with its parts (`specs/Tree`).
#[cycle(tree)]
#[derive(Drop)]
pub struct Tree {
    /// where its first token stands; for a missing part, where the form stands that leaves it out
    pub at: At,
    /// its outermost form
    pub node: Node,
}

/// A form with its parts. A binder is a name, or `None` for `_`.
#[cycle(tree)]
#[derive(Drop)]
pub enum Node {
    /// `x`
    Var(String),
    /// `MetaTy`
    MetaTy,
    /// `ValTy`
    ValTy,
    /// `CompTy`
    CompTy,
    /// `Ty`
    Ty,
    /// `Pi (x : domain) -> codomain`, and `domain -> codomain` with no name
    Pi {
        /// whether it is written with braces
        implicit: bool,
        /// the variable
        binder: Option<String>,
        /// the type of the variable
        domain: Box<Tree>,
        /// the type of a result, under the variable
        codomain: Box<Tree>,
    },
    /// `\(x : domain). body`
    Lam {
        /// whether it is written with braces
        implicit: bool,
        /// the variable
        binder: Option<String>,
        /// the type of the variable, or missing
        domain: Box<Tree>,
        /// what is answered, under the variable
        body: Box<Tree>,
    },
    /// `function argument`
    App {
        /// whether the argument is written with braces
        implicit: bool,
        /// what is applied
        function: Box<Tree>,
        /// to what
        argument: Box<Tree>,
    },
    /// `mlet x : ty := value; body`
    Let {
        /// the variable
        binder: Option<String>,
        /// its type
        ty: Box<Tree>,
        /// what it stands for
        value: Box<Tree>,
        /// what is answered, under the variable
        body: Box<Tree>,
    },
    /// `Sig (x : first), second`
    Sig {
        /// the variable
        binder: Option<String>,
        /// the type of the first component
        first: Box<Tree>,
        /// the type of the second, under the variable
        second: Box<Tree>,
    },
    /// `pair S t u`: the type, or missing, and the components
    Pair(Box<Tree>, Box<Tree>, Box<Tree>),
    /// `fst t`
    Fst(Box<Tree>),
    /// `snd t`
    Snd(Box<Tree>),
    /// `Unit`
    UnitTy,
    /// `unit`
    Unit,
    /// `unitrec P u n`
    UnitRec(Box<Tree>, Box<Tree>, Box<Tree>),
    /// `Bool`
    BoolTy,
    /// `true`
    True,
    /// `false`
    False,
    /// `boolrec P t f n`
    BoolRec(Box<Tree>, Box<Tree>, Box<Tree>, Box<Tree>),
    /// `Nat`
    NatTy,
    /// `zero`
    Zero,
    /// `suc n`
    Suc(Box<Tree>),
    /// `#k`
    NatLit(u32),
    /// `natrec P z s n`
    NatRec(Box<Tree>, Box<Tree>, Box<Tree>, Box<Tree>),
    /// `List A`
    ListTy(Box<Tree>),
    /// `nil A`
    Nil(Box<Tree>),
    /// `cons t u`
    Cons(Box<Tree>, Box<Tree>),
    /// `listrec P n c l`
    ListRec(Box<Tree>, Box<Tree>, Box<Tree>, Box<Tree>),
    /// `^A`
    Lift(Box<Tree>),
    /// `<o>`
    Quote(Box<Tree>),
    /// `V a`
    V(Box<Tree>),
    /// `C b`
    C(Box<Tree>),
    /// `Int`
    IntTy,
    /// `D[a, ..]`
    Data {
        /// the data type
        name: Named,
        /// its parameters
        params: Vec<Tree>,
    },
    /// `a => B`
    Arr(Box<Tree>, Box<Tree>),
    /// an integer
    Lit(i64),
    /// `add t u` and its kin
    Prim(Op, Box<Tree>, Box<Tree>),
    /// `let x : ty := value; body`
    LetV {
        /// the variable
        binder: Option<String>,
        /// its type
        ty: Box<Tree>,
        /// what it stands for
        value: Box<Tree>,
        /// what is answered, under the variable
        body: Box<Tree>,
    },
    /// `letrec f : b := t; u`, with any number of definitions
    LetRec {
        /// the definitions
        definitions: Vec<Definition>,
        /// what is answered, under the variables of all of them
        body: Box<Tree>,
    },
    /// `fn (x : domain). body`
    OLam {
        /// the variable
        binder: Option<String>,
        /// the type of the variable, or missing
        domain: Box<Tree>,
        /// what is answered, under the variable
        body: Box<Tree>,
    },
    /// `t @ u`
    OApp(Box<Tree>, Box<Tree>),
    /// `con c[a, ..](t, ..)`
    Con {
        /// the constructor
        name: Named,
        /// the parameters of its data type; `None` where no brackets are written
        params: Option<Vec<Tree>>,
        /// the fields
        fields: Vec<Tree>,
    },
    /// `case t : B of { c x .. . u | .. }`
    Case {
        /// what is looked at
        scrutinee: Box<Tree>,
        /// the type of the whole, or missing
        ty: Box<Tree>,
        /// the branches
        branches: Vec<Branch>,
    },
    /// `fail A`
    Fail(Box<Tree>),
    /// `~u`
    Splice(Box<Tree>),
    /// `_`
    Hole,
    /// a part that a shorthand leaves out
    Missing,
}

/// A definition of a `letrec`.
#[cycle(tree)]
#[derive(Drop)]
pub struct Definition {
    /// its variable
    pub binder: Option<String>,
    /// its type
    pub ty: Box<Tree>,
    /// what it stands for, under the variables of all definitions of its `letrec`
    pub value: Box<Tree>,
}

/// A branch of a `case`.
#[cycle(tree)]
#[derive(Drop)]
pub struct Branch {
    /// the constructor
    pub ctor: Named,
    /// the variables for its fields
    pub names: Vec<Option<String>>,
    /// what is answered, under the variables
    pub body: Box<Tree>,
}

impl Model for Tree {
    ghost use Rattle.cf_tree.specs.Tree as spec;
    ghost use Rattle.cf_tree.specs.Codes.{tree_code};

    ghost Value = { spec.Tree };

    ghost coded = { tree_code };

    ghost use Rattle.cf_tree.specs.View.{tree_of};

    ghost view = { λ t. tree_of t.at t.node };

    ghost size = { spec.depth };

    ghost use Rattle.cf_tree.specs.Falls.{falls};

    ghost size_decreases = { λ t h. falls t.at t.node };
}
