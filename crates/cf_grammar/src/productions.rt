// The kinds of right sides, and the steps of a derivation.

/// A kind of right side: by which of its right sides a phrase is opened.
#[derive(Clone, Copy, Debug, PartialEq, Eq)]
pub enum Production {
    /// nothing
    Empty,
    /// a program that begins with `explicit`
    Explicit,
    /// a program that begins with `use prelude`
    Prelude,
    /// a program that begins with a declaration
    Plain,
    /// a declaration, and those behind it
    FirstDecl,
    /// a data declaration
    Data,
    /// a declaration that begins with `meta`
    Meta,
    /// the declaration of an object
    Object,
    /// a parameter, and those behind it
    FirstParam,
    /// a parameter
    Param,
    /// the first constructor, and those behind it
    FirstCtor,
    /// a bar, a constructor, and those behind it
    NextCtor,
    /// a constructor
    Ctor,
    /// the first term of a list, and those behind it
    FirstTerm,
    /// a comma or `@`, a term, and those behind it
    NextTerm,
    /// the one phrase that this one stands for
    Same,
    /// a mark, and the term behind it
    Behind,
    /// a lambda
    Lambda,
    /// `fn`
    Function,
    /// `mlet`
    Let,
    /// `let`
    LetV,
    /// `letrec`
    LetRec,
    /// `Pi`
    Pi,
    /// `Sig`
    Sig,
    /// `case`
    Case,
    /// a chain, and what an arrow behind it leads to
    Arrow,
    /// a binder with its type between parentheses
    TypedBinder,
    /// a binder with its type between braces
    ImplicitBinder,
    /// a binder without a type
    UntypedBinder,
    /// the first branch, and those behind it
    FirstBranch,
    /// a bar, a branch, and those behind it
    NextBranch,
    /// a branch
    Branch,
    /// `->` and a term
    OntoMeta,
    /// `=>` and a term
    OntoObject,
    /// an application, and the operands behind it
    Chain,
    /// a head with its arguments
    Application,
    /// an argument, and those behind it
    FirstArgument,
    /// an atom as an argument
    ExplicitArgument,
    /// a term between braces as an argument
    ImplicitArgument,
    /// a keyword that takes no atoms
    Constant,
    /// a keyword and one atom
    OneAtom,
    /// a keyword and two atoms
    TwoAtoms,
    /// a keyword and three atoms
    ThreeAtoms,
    /// a keyword and four atoms
    FourAtoms,
    /// a name, and the parameters between brackets behind it
    Variable,
    /// a whole number
    Literal,
    /// a Nat literal
    Numeral,
    /// `con`
    Construction,
    /// a term or a pair between parentheses
    Enclosed,
    /// a term between `<` and `>`
    Quote,
    /// `~` and an atom
    Splice,
    /// `^` and an atom
    Lift,
    /// `_` as an atom
    Hole,
    /// terms between brackets
    Brackets,
    /// a name as a binder
    Named,
    /// `_` as a binder
    Unnamed,
    /// a binder, and those behind it
    FirstBinder,
}

/// A step of the derivation of a text from its left to its right.
#[derive(Clone, Copy, Debug, PartialEq, Eq)]
pub enum Step {
    /// the next token is taken
    Take,
    /// the next phrase is opened by its right side of this kind
    Open(Production),
}
