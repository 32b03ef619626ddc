//! Modules of the integer profile as bytes (WebAssembly Core 1.0, section 5).
//!
//! `encode` writes each number in its fewest bytes, no section that is empty and no custom section.
#![tactic(auto)]

mod encoding;
mod instructions;
mod laws;
mod numbers;
mod parts;
mod sections;
mod spelling;

pub use cf_base::NoMemory;
pub use encoding::encode;
pub use laws::{canonical_has_items, canonical_is_one, encoded_is_encodable, valid_is_encodable};
