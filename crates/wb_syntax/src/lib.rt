//! WebAssembly Core 1.0 modules on an integer profile: their structure as Rust types, and what they mean as definitions.
//!
//! The profile has the value types i32 and i64, functions with at most one result, one memory, globals and exports.
//! It has no floating point, imports, tables, segments or start function; the definitions say of each which name it
//! has and where it is refused.
//!
//! The crate computes nothing. An encoder, a decoder, a validator, a machine and a compiler that emits modules state
//! their contracts by these definitions. Each file of `specs/` names the sections of the standard that it follows.
//!
//! | File of `specs/` | What it defines | Its chief names |
//! |---|---|---|
//! | `Syntax` | the types of [`syntax`] as contracts see them, and nested code | `Module`, `Instr`, `Code`, `Nested` |
//! | `Table` | the one table of instructions: each opcode's operands, types, width and operation | `row_at`, `Row` |
//! | `Numbers` | integer operations, by type and by opcode | `unary`, `binary` |
//! | `Nesting` | nested code and the flat body that it is written out as | `flat`, `nested`, `IsWellNested` |
//! | `Grammar` | grammars over bytes, each with its spellings and its reading side by side; LEB128 numbers | `Grammar`, `followed`, `vec` |
//! | `Binary` | the binary format: which bytes spell a module, and what any bytes are read as | `Encodes`, `decoded` |
//! | `Typing` | validity, part by part | `Types`, `IsValid`, `Valid`, `IsFirstInvalid` |
//! | `Execute` | states, and one step of the machine on nested code | `Config`, `machine_step` |
//! | `Runs` | whole runs: how they begin, their words and steps, how they end | `runs`, `run_main`, `mach`, `HasEnded` |
//! | `Laws` | the statements of the laws below | |
//!
//! Each law is the contract of a function that does nothing:
//!
//! - [`decoded_exactly`]: the grammar and the reading agree on what is a module.
//! - [`encodes_one`]: no list of bytes spells two modules.
//! - [`nested_exactly`]: a body and its nested code determine each other.
//! - [`well_nested_exactly`]: the bodies that the binary format has are those that have nested code.
//! - [`typed_is_proper`]: the code by which a body is typed is its nested code.
//! - [`stands_on_any`]: typed code has its type over any stack, and leaves what is below as it is.
//! - [`ended_stays`]: more steps change nothing of a run that has ended.
//!
//! `proofs/` has the proofs of the laws, and worked examples: bytes that are read or refused (`ReadExamples`), modules
//! that are valid or not (`TypingExamples`), operations (`NumberExamples`), runs (`RunExamples`).
#![tactic(auto)]

mod laws;
pub mod name;
pub mod syntax;

pub use laws::{
    decoded_exactly, encodes_one, ended_stays, nested_exactly, stands_on_any, typed_is_proper,
    well_nested_exactly,
};
pub use name::Name;
pub use syntax::{
    Export, Exported, Func, FuncType, Global, Instr, Limits, LocalRun, Module, NumType,
};
