//! Values: levels and forms with shared environments, frozen bodies, and the terms that they stand for.
#![tactic(auto)]

mod copying;
mod environments;
mod forming;
mod laws;
mod memory;
mod shapes;
mod values;

pub use laws::{
    argument_put_in, environment_under_binders, readings_agree, renaming_of_value, value_is_closed,
    value_of_context, value_out_of_binders, value_under_binders, variables_are_values,
};
pub use shapes::{Arm, Shape};
pub use values::{Env, Frozen, Value, ValueNode, ValuePart};
