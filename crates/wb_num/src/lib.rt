//! The integer operations of WebAssembly Core 1.0 (the standard, 4.3.2), by opcode.
//! An i32 is a number below 2^32 in a `u64`, an i64 any `u64`; signed operations read them in two's complement.
#![tactic(auto)]

mod i32_operations;
mod i64_operations;
mod operations;
mod trap;

pub use operations::{binary, unary};
pub use trap::NumTrap;
