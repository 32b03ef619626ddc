//! A module as bytes.
ghost use Rattle.std.specs.Prelude.{IfOk, ◌++◌};
ghost use Rattle.wb_encode.specs.Shortest.{IsCanonical};
ghost use Rattle.wb_encode.specs.Encodable.{AreBodiesWellNested, AreInitialValuesWellNested, AreOfTable, AreLocalsFew};

use crate::sections::{push_section, push_type_indices};
use cf_base::NoMemory;
use std::alloc::{AllocError, Global};
use wb_syntax::Module;

/// The bytes of a module (the standard, 5.5.15): numbers in their fewest bytes, no empty section, no custom section.
///
/// # Errors
///
/// `NoMemory` where memory runs out, or where a length or the size of a section passes 32 bits.
pub fn encode(alloc: Global, m: &Module) -> Result<Vec<u8>, NoMemory>
    requires bodies { AreBodiesWellNested m.now }
    requires initial_values { AreInitialValuesWellNested m.now }
    requires instructions { AreOfTable m.now }
    requires locals { AreLocalsFew m.now }
    ensures { IfOk result (λ bytes. IsCanonical m.now bytes.items) }
{
    match written(alloc, m) {
        Ok(bytes) => Ok(bytes),
        Err(_) => Err(NoMemory),
    }
}

// The header, and then the sections in the order of their ids.
fn written(alloc: Global, m: &Module) -> Result<Vec<u8>, AllocError>
    requires bodies { AreBodiesWellNested m.now }
    requires initial_values { AreInitialValuesWellNested m.now }
    requires instructions { AreOfTable m.now }
    requires locals { AreLocalsFew m.now }
    ensures { IfOk result (λ bytes. IsCanonical m.now bytes.items) }
{
    let mut out = Vec::from_slice(alloc, &[0x00, 0x61, 0x73, 0x6D, 0x01, 0x00, 0x00, 0x00])?;
    push_section(alloc, &mut out, 1, m.types.as_slice())?;
    push_type_indices(alloc, &mut out, m.funcs.as_slice())?;
    push_section(alloc, &mut out, 5, m.memories.as_slice())?;
    push_section(alloc, &mut out, 6, m.globals.as_slice())?;
    push_section(alloc, &mut out, 7, m.exports.as_slice())?;
    push_section(alloc, &mut out, 10, m.funcs.as_slice())?;
    Ok(out)
}
