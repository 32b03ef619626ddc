// Programs of the core.
use crate::declarations::DataDecl;
use cf_term::Term;
use std::marker::Model;

/// A declaration of a program.
#[derive(Drop)]
pub enum CoreDecl {
    /// a data type
    DataC(DataDecl),
    /// a meta definition
    MetaC {
        /// its name
        name: String,
        /// its type
        ty: Term,
        /// what it stands for
        body: Term,
    },
    /// an object declaration
    ObjectC {
        /// its name
        name: String,
        /// its type
        ty: Term,
        /// what it stands for
        body: Term,
    },
}

/// A program: its declarations, in order. The variables of a declaration are the meta definitions and object declarations
/// above it, the last one innermost. Contracts see it as a list (`specs/Programs`).
#[derive(Drop)]
pub struct CoreProgram {
    /// the declarations
    pub decls: Vec<CoreDecl>,
}

impl Model for CoreProgram {
    ghost use Rattle.std.specs.Prelude.{List};
    ghost use Rattle.cf_rules.specs.Programs.{Declaration};
    ghost use Rattle.cf_rules.specs.Codes.{declarations_code};

    ghost Value = { List Declaration };

    ghost coded = { declarations_code };

    ghost use Rattle.cf_rules.specs.View.{declarations};

    ghost view = { λ p. declarations p.decls.items };
}
