// Forms without their parts.

/// A primitive operation.
#[derive(Clone, Copy, Debug, PartialEq, Eq)]
pub enum Op {
    /// `add`
    Add,
    /// `sub`
    Sub,
    /// `mul`
    Mul,
    /// `div`
    Div,
    /// `rem`
    Rem,
    /// `eq`
    Eq,
    /// `lt`
    Lt,
}

/// A form without its parts, where it has no name of a variable, data type or constructor. Contracts see each form of a tree as
/// one of these, or as one of those names, with its parts beside it.
#[derive(Clone, Copy, Debug, PartialEq, Eq)]
pub enum Head {
    /// `MetaTy`
    MetaTy,
    /// `ValTy`
    ValTy,
    /// `CompTy`
    CompTy,
    /// `Ty`
    Ty,
    /// `Pi`, and whether it is implicit
    Pi(bool),
    /// a lambda, and whether it is implicit
    Lam(bool),
    /// an application, and whether it is implicit
    App(bool),
    /// `mlet`
    Let,
    /// `Sig`
    Sig,
    /// `pair`
    Pair,
    /// `fst`
    Fst,
    /// `snd`
    Snd,
    /// `Unit`
    UnitTy,
    /// `unit`
    Unit,
    /// `unitrec`
    UnitRec,
    /// `Bool`
    BoolTy,
    /// `true`
    True,
    /// `false`
    False,
    /// `boolrec`
    BoolRec,
    /// `Nat`
    NatTy,
    /// `zero`
    Zero,
    /// `suc`
    Suc,
    /// `#k`
    NatLit(u32),
    /// `natrec`
    NatRec,
    /// `List`
    ListTy,
    /// `nil`
    Nil,
    /// `cons`
    Cons,
    /// `listrec`
    ListRec,
    /// `^A`
    Lift,
    /// `<o>`
    Quote,
    /// `V`
    V,
    /// `C`
    C,
    /// `Int`
    IntTy,
    /// `a => B`
    Arr,
    /// an integer
    Lit(i64),
    /// a primitive operation
    Prim(Op),
    /// `let`
    LetV,
    /// `letrec`
    LetRec,
    /// `fn`
    OLam,
    /// `t @ u`
    OApp,
    /// `case`
    Case,
    /// `fail`
    Fail,
    /// `~u`
    Splice,
    /// `_`
    Hole,
    /// a part that a shorthand leaves out
    Missing,
}
