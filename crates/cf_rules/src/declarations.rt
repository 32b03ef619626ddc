// Declarations of data types.
use cf_term::Term;
use std::marker::Model;

/// A declaration of a data type: its name, how many parameters it has, and its constructors in order.
/// Contracts see the name as its bytes, and the constructors as a list (`specs/Programs`).
#[derive(Drop)]
pub struct DataDecl {
    /// its name
    pub name: String,
    /// how many parameters it has
    pub params: u32,
    /// its constructors, in order
    pub ctors: Vec<Ctor>,
}

impl Model for DataDecl {
    ghost use Rattle.std.specs.Prelude.{string_bytes};
    ghost use Rattle.cf_rules.specs.Programs.{Data};
    ghost use Rattle.cf_rules.specs.Codes.{data_code};

    ghost Value = { Data };

    ghost coded = { data_code };

    ghost view = { λ d. record { name = string_bytes d.name; params = d.params; ctors = d.ctors.items } };
}

/// A constructor of a data type: its name, and the types of its fields in order, under the parameters of its type.
#[derive(Drop)]
pub struct Ctor {
    /// its name
    pub name: String,
    /// the types of its fields, in order
    pub fields: Vec<Term>,
}

impl Model for Ctor {
    ghost use Rattle.std.specs.Prelude.{string_bytes};
    ghost use Rattle.cf_rules.specs.Programs.{Constructor};
    ghost use Rattle.cf_rules.specs.Codes.{constructor_code};

    ghost Value = { Constructor };

    ghost coded = { constructor_code };

    ghost view = { λ c. record { name = string_bytes c.name; fields = c.fields.items } };
}
