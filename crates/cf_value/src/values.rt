// Values: levels and forms. Parts that evaluation keeps are frozen with the values of their variables.
use crate::shapes::Shape;
use cf_term::Term;
use std::marker::Model;
use std::rc::Rc;

/// A value. Contracts see it as a tree of levels and forms (`specs/Val`), which stands for a term (`specs/Stands`).
#[cycle(value)]
#[derive(Drop)]
pub struct Value {
    /// its outermost form
    pub node: ValueNode,
}

/// A level, or a form with its parts.
#[cycle(value)]
#[derive(Drop)]
pub enum ValueNode {
    /// An undefined variable: that of the innermost object binder around with this level, else that of the context with this number.
    Level(u32),
    /// a form
    Form {
        /// the form without its parts
        shape: Rc<Shape>,
        /// the level of the first object variable that it binds in a part; further ones have the next levels
        first: u32,
        /// the parts
        parts: Vec<ValuePart>,
    },
}

/// A part of a value.
#[cycle(value)]
#[derive(Drop)]
pub enum ValuePart {
    /// a part that was evaluated
    Ready(Rc<Value>),
    /// a part that evaluation keeps
    Kept(Frozen),
}

/// A term as it was written, with the values of its variables but those that its form binds.
#[cycle(value)]
#[derive(Drop)]
pub struct Frozen {
    /// the values
    pub env: Env,
    /// the term
    pub body: Rc<Term>,
}

/// The values of the variables in scope, shared. Contracts see it as the list of these values, the one pushed last first.
#[cycle(value)]
#[derive(Drop)]
pub struct Env {
    pub(crate) cell: Cell,
}

#[cycle(value)]
#[derive(Drop)]
pub(crate) enum Cell {
    Empty,
    More(Rc<Value>, Rc<Env>),
}

impl Model for Value {
    ghost use Rattle.cf_value.specs.Val.{Val, height};
    ghost use Rattle.cf_value.specs.Stored.{val_code};

    ghost Value = { Val };

    ghost coded = { val_code };

    ghost use Rattle.cf_value.specs.Seen.{seen_value};

    ghost view = { λ v. seen_value v.node };

    ghost size = { height };

    ghost use Rattle.cf_value.specs.Heights.{falls_value};

    ghost size_decreases = { λ v h. falls_value v.node };
}

impl Model for Env {
    ghost use Rattle.cf_value.specs.Val.{Vals, heights};
    ghost use Rattle.cf_value.specs.Stored.{vals_code};

    ghost Value = { Vals };

    ghost coded = { vals_code };

    ghost use Rattle.cf_value.specs.Seen.{seen_env};

    ghost view = { λ e. seen_env e.cell };

    ghost size = { heights };

    ghost use Rattle.cf_value.specs.Heights.{falls_env};

    ghost size_decreases = { λ e h. falls_env e.cell };
}
