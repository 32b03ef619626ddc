// Declarations and programs.
use crate::forms::Tree;
use cf_base::At;
use std::marker::Model;

/// A constructor of a data declaration.
#[derive(Drop)]
pub struct CtorTree {
    /// where its name stands
    pub at: At,
    /// its name
    pub name: String,
    /// the types of its fields
    pub fields: Vec<Tree>,
}

/// A declaration. The place is that of the declared name.
#[derive(Drop)]
pub enum Decl {
    /// `data name (a : ValTy) .. := ctor | .. ;`
    DataD {
        /// where its name stands
        at: At,
        /// the data type
        name: String,
        /// its parameters
        params: Vec<String>,
        /// its constructors
        ctors: Vec<CtorTree>,
    },
    /// `meta name : ty := body;`
    MetaD {
        /// where its name stands
        at: At,
        /// the declared name
        name: String,
        /// its type
        ty: Tree,
        /// what it stands for
        body: Tree,
    },
    /// `name : ty := body;`
    ObjectD {
        /// where its name stands
        at: At,
        /// the declared name
        name: String,
        /// its type
        ty: Tree,
        /// what it stands for
        body: Tree,
    },
}

/// A program as it is written. Contracts see it as `specs/Tree` has it: names as their bytes, terms as trees of forms.
#[derive(Drop)]
pub struct Program {
    /// whether it begins with `explicit;`
    pub explicit: bool,
    /// whether it begins with `use prelude;`
    pub prelude: bool,
    /// its declarations, in order; the prelude's own are not among them
    pub decls: Vec<Decl>,
}

impl Model for Program {
    ghost use Rattle.cf_tree.specs.Tree as spec;
    ghost use Rattle.cf_tree.specs.Codes.{program_code};

    ghost Value = { spec.Program };

    ghost coded = { program_code };

    ghost use Rattle.cf_tree.specs.View.{decls_of};

    ghost view = { λ p. record { explicit = p.explicit; prelude = p.prelude; decls = decls_of p.decls.items } };
}
