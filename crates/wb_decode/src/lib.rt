//! Reads modules of WebAssembly Core 1.0, on the integer profile of `wb_syntax`, from bytes.
//!
//! [`decode`] answers exactly what the definition `decoded` of `wb_syntax` gives: the module that the bytes spell, in any
//! allowed spelling, or the first fault with the offset of its section.
//!
//! | Module | What it reads | The standard |
//! |---|---|---|
//! | `numbers` | bytes, and LEB128 numbers of every allowed length | 5.2.2 |
//! | `vectors` | vectors of any kind, and contents behind their size | 5.1.3 |
//! | `types` | value types, block types, function types, limits | 5.3 |
//! | `instructions` | one instruction, by ranges of opcodes | 5.4.1 to 5.4.5 |
//! | `expressions` | instructions up to the end that closes the body, without recursion | 5.4.6 |
//! | `exports`, `codes` | names, exports, globals; runs of locals and bodies | 5.2.4, 5.5.9, 5.5.10, 5.5.13 |
//! | `sections`, `contents`, `decoding` | sections in order, and the module that they make | 5.5.2 to 5.5.15 |
//!
//! Each reader takes the bytes that are left and answers a value and the bytes behind it, by one contract: `Reading`, which
//! cites the grammar. A count takes no memory for what is not there, and the time is in proportion to the bytes.
#![tactic(auto)]

mod codes;
mod contents;
mod decoding;
mod ends;
mod exports;
mod expressions;
mod instructions;
mod laws;
mod numbers;
mod sections;
mod types;
mod vectors;

pub use decoding::decode;
pub use ends::{DecodeEnd, What};
pub use laws::{answers_spelled, refuses_no_spelled};
