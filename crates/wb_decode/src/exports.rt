//! Names (the standard, 5.2.4), exports (5.5.10) and globals (5.5.9).

ghost use Rattle.std.specs.Prelude.{◌≡◌};
ghost use Rattle.wb_syntax.specs.Grammar.{vec, mapped, index};
ghost use Rattle.wb_syntax.specs.declared.syntax.Exported.TheVariants as kinds;
ghost use Rattle.wb_syntax.specs.Binary.{any_byte, name, exported, export, global};
ghost use Rattle.wb_decode.specs.Reading.{Reading};

use crate::ends::{Fault, What};
use crate::expressions::expression;
use crate::numbers::{first, index};
use crate::types::{mutability, value_type};
use crate::vectors::Spelled;
use std::{alloc, str};
use wb_syntax::{Export, Exported, Global, Name};

// A vector of bytes, as it stands.
fn byte_vector(bytes: &[u8]) -> Result<(&[u8], &[u8]), Fault>
    ensures { Reading (λ x. (x.0.now, x.1.now)) (vec any_byte) bytes.now result }
{
    let (length, rest) = index(bytes)?;
    let length = length as usize;
    if length <= rest.len() {
        Ok(rest.split_at(length))
    } else {
        Err(Fault::Malformed)
    }
}

/// A name, which has to be UTF-8.
pub fn name(bytes: &[u8]) -> Result<(&str, &[u8]), Fault>
    ensures { Reading (λ x. (x.0.now, x.1.now)) name bytes.now result }
{
    let (text, rest) = byte_vector(bytes)?;
    match str::from_utf8(text) {
        Ok(text) => Ok((text, rest)),
        Err(_) => Err(Fault::Malformed),
    }
}

// The index of an exported function.
fn func(bytes: &[u8]) -> Result<(Exported, &[u8]), Fault>
    ensures { Reading (λ x. (x.0, x.1.now)) (mapped kinds.Func index) bytes.now result }
{
    let (index, rest) = index(bytes)?;
    Ok((Exported::Func(index), rest))
}

// The index of an exported memory.
fn memory(bytes: &[u8]) -> Result<(Exported, &[u8]), Fault>
    ensures { Reading (λ x. (x.0, x.1.now)) (mapped kinds.Memory index) bytes.now result }
{
    let (index, rest) = index(bytes)?;
    Ok((Exported::Memory(index), rest))
}

// The index of an exported global.
fn global(bytes: &[u8]) -> Result<(Exported, &[u8]), Fault>
    ensures { Reading (λ x. (x.0, x.1.now)) (mapped kinds.Global index) bytes.now result }
{
    let (index, rest) = index(bytes)?;
    Ok((Exported::Global(index), rest))
}

// What is exported, by its kind.
fn exported(bytes: &[u8]) -> Result<(Exported, &[u8]), Fault>
    ensures { Reading (λ x. (x.0, x.1.now)) exported bytes.now result }
{
    let (kind, rest) = first(bytes)?;
    match kind {
        0x00 => func(rest),
        0x01 => Err(Fault::Outside(What::Table)),
        0x02 => memory(rest),
        0x03 => global(rest),
        _ => Err(Fault::Malformed),
    }
}

impl Spelled for Export {
    ghost grammar = { export };

    fn read(alloc: alloc::Global, bytes: &[u8]) -> Result<(Export, &[u8]), Fault> {
        let (text, rest) = name(bytes)?;
        let (what, rest) = exported(rest)?;
        let name = Name::new(String::from_str(alloc, text)?);
        Ok((Export { name, what }, rest))
    }
}

impl Spelled for Global {
    ghost grammar = { global };

    fn read(alloc: alloc::Global, bytes: &[u8]) -> Result<(Global, &[u8]), Fault> {
        let (ty, rest) = value_type(bytes)?;
        let (mutable, rest) = mutability(rest)?;
        let (init, rest) = expression(alloc, rest)?;
        Ok((Global { ty, mutable, init }, rest))
    }
}
