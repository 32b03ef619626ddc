// Parts of terms that are no terms.
ghost use Rattle.std.specs.Prelude.{◌≡◌, IfOk};
ghost use Rattle.cf_parse.specs.Meaning.{missing, or_missing};
ghost use Rattle.cf_parse.specs.Values.{tree_in};

use cf_base::At;
use cf_syntax::OutOfMemory;
use cf_tree::{Node, Tree};
use std::alloc::Global;

// A binder, with its type if it is written.
#[derive(Drop)]
pub(crate) struct Domain {
    pub implicit: bool,
    pub binder: Option<String>,
    pub ty: Option<Box<Tree>>,
}

// An argument.
#[derive(Drop)]
pub(crate) struct Argument {
    pub implicit: bool,
    pub term: Box<Tree>,
}

// What binds a variable over what is behind it: `\`, `fn` or `Pi`.
#[derive(Clone, Copy)]
pub(crate) enum Abstraction {
    Lambda,
    Function,
    FunctionType,
}

// What binds a variable to what it stands for: `mlet`, `let` or `letrec`.
#[derive(Clone, Copy)]
pub(crate) enum Binding {
    Meta,
    Value,
    Recursive,
}

// A part that a form at this place leaves out.
pub(crate) fn missing(at: At) -> Tree
    ensures { result ≡ missing at }
{
    Tree {
        at,
        node: Node::Missing,
    }
}

// The type, or that it is missing.
pub(crate) fn or_missing(
    alloc: Global,
    at: At,
    ty: Option<Box<Tree>>,
) -> Result<Box<Tree>, OutOfMemory>
    ensures { IfOk result (λ t. t.value ≡ or_missing at (tree_in ty)) }
{
    match ty {
        Some(ty) => Ok(ty),
        None => Ok(Box::new(alloc, missing(at))?),
    }
}

// A place that is looked at by nobody.
pub(crate) fn nowhere() -> At {
    At {
        prelude: false,
        offset: 0,
    }
}
