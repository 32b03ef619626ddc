// Phrases of the grammar, and what their right sides are made of.
use crate::classes::Class;

/// A phrase of the grammar. First stands whether the program is explicit (true: no shorthand is part of the grammar), then the
/// depth (how many terms, and atoms that begin with `~` or `^`, are open around it), last the number of the item, from 0 on.
#[derive(Clone, Copy, Debug, PartialEq, Eq)]
pub enum Phrase {
    /// a whole program
    Program,
    /// declarations, from item number on
    Decls(bool, u32),
    /// a declaration
    Decl(bool, u32),
    /// parameters of a data declaration
    Params(u32),
    /// a parameter
    Param(u32),
    /// constructors of a data declaration
    Ctors(bool, u32),
    /// a bar and a constructor, any number of times
    MoreCtors(bool, u32),
    /// a constructor
    Ctor(bool, u32),
    /// fields of a constructor's declaration
    Fields(bool, u32),
    /// a comma and a field, any number of times
    MoreFields(bool, u32),
    /// a field
    Field(bool, u32),
    /// terms between commas, maybe none
    Terms(bool, u32),
    /// a comma and a term, any number of times
    MoreTerms(bool, u32),
    /// a term
    Term(bool, u32),
    /// the binder of a lambda
    Lambda(bool, u32),
    /// the binder of `fn`
    Fn(bool, u32),
    /// the binder of `Pi`
    PiBinder(bool, u32),
    /// the type of a `case`
    CaseType(bool, u32),
    /// branches of a `case`
    Branches(bool, u32),
    /// a bar and a branch, any number of times
    MoreBranches(bool, u32),
    /// a branch
    Branch(bool, u32),
    /// what an arrow leads to, if one stands behind the chain
    Arrow(bool, u32),
    /// a chain of `@`
    Chain(bool, u32),
    /// `@` and an operand, any number of times
    Operands(bool, u32, u32),
    /// an operand of `@`
    Operand(bool, u32, u32),
    /// a head with its arguments
    App(bool, u32),
    /// arguments
    Args(bool, u32, u32),
    /// an argument
    Arg(bool, u32, u32),
    /// the head of an application
    Head(bool, u32),
    /// an atom
    Atom(bool, u32),
    /// an atom that begins with `~` or `^`, itself counted in its depth
    Code(bool, u32),
    /// parameters between brackets behind a name, if there are any
    Brackets(bool, u32),
    /// parameters between brackets behind the name of a constructor
    ConBrackets(bool, u32),
    /// the second component of a pair between parentheses
    Second(bool, u32),
    /// a name or `_`
    Binder,
    /// names or `_`, any number of times
    Binders,
}

/// A symbol of a right side.
#[derive(Clone, Copy, Debug, PartialEq, Eq)]
pub enum Symbol {
    /// a token of this class
    Is(Class),
    /// any name
    AnyName,
    /// a phrase
    Phrase(Phrase),
}
