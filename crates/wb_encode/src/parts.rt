//! Types, limits, globals, exports and bodies (the standard, 5.3 and 5.5).
ghost use Rattle.std.specs.Prelude.{◌≡◌, ◌++◌, [], ◌∷◌, length, OnOk, Option};
ghost use Rattle.wb_syntax.specs.Grammar.{index, followed};
ghost use Rattle.wb_syntax.specs.Binary.{value_type, results, func_type, limits, global, expression, export, exported, name};
ghost use Rattle.wb_encode.specs.Shortest.{IsShortest};
ghost use Rattle.wb_encode.specs.Appended.{Written};
ghost use Rattle.wb_encode.specs.Encodable.{Anything, IsInitialized, SpellsRun};

use crate::numbers::{push_length, push_unsigned};
use crate::spelling::{Spell, push_each, push_vec};
use std::alloc::AllocError;
use wb_syntax::{Export, Exported, FuncType, Global, Limits, LocalRun, Name, NumType};

impl Spell for u32 {
    ghost is_encodable = { Anything };

    ghost spells = { index.Is };

    fn push_to(&self, out: &mut Vec<u8>) -> Result<(), AllocError> {
        push_unsigned(out, *self)?;
        Ok(())
    }
}

impl Spell for NumType {
    ghost is_encodable = { Anything };

    ghost spells = { value_type.Is };

    fn push_to(&self, out: &mut Vec<u8>) -> Result<(), AllocError> {
        out.push(type_byte(*self))?;
        Ok(())
    }
}

// The byte of a value type.
fn type_byte(t: NumType) -> u8
    ensures { IsShortest (value_type.Is t) (result ∷ []) }
{
    match t {
        NumType::I32 => 0x7F,
        NumType::I64 => 0x7E,
    }
}

impl Spell for LocalRun {
    ghost is_encodable = { Anything };

    ghost spells = { SpellsRun };

    fn push_to(&self, out: &mut Vec<u8>) -> Result<(), AllocError> {
        push_unsigned(out, self.count)?;
        self.ty.push_to(out)?;
        Ok(())
    }
}

impl Spell for FuncType {
    ghost is_encodable = { Anything };

    ghost spells = { func_type.Is };

    fn push_to(&self, out: &mut Vec<u8>) -> Result<(), AllocError> {
        out.push(0x60)?;
        push_vec(out, self.params.as_slice())?;
        push_result(out, self.result)?;
        Ok(())
    }
}

// A vector of at most one type.
fn push_result(out: &mut Vec<u8>, t: Option<NumType>) -> Result<(), AllocError>
    ensures { OnOk result (Written out.old.items out.new.items ((followed index results).Is t)) }
{
    match t {
        None => {
            push_unsigned(out, 0)?;
            Ok(())
        }
        Some(t) => {
            push_unsigned(out, 1)?;
            t.push_to(out)?;
            Ok(())
        }
    }
}

impl Spell for Limits {
    ghost is_encodable = { Anything };

    ghost spells = { limits.Is };

    fn push_to(&self, out: &mut Vec<u8>) -> Result<(), AllocError> {
        match self.max {
            None => {
                out.push(0x00)?;
                push_unsigned(out, self.min)?;
                Ok(())
            }
            Some(max) => {
                out.push(0x01)?;
                push_unsigned(out, self.min)?;
                push_unsigned(out, max)?;
                Ok(())
            }
        }
    }
}

impl Spell for Global {
    ghost is_encodable = { IsInitialized };

    ghost spells = { global.Is };

    fn push_to(&self, out: &mut Vec<u8>) -> Result<(), AllocError> {
        self.ty.push_to(out)?;
        out.push(u8::from(self.mutable))?;
        push_each(out, self.init.as_slice())?;
        Ok(())
    }
}

impl Spell for Export {
    ghost is_encodable = { Anything };

    ghost spells = { export.Is };

    fn push_to(&self, out: &mut Vec<u8>) -> Result<(), AllocError> {
        push_name(out, &self.name)?;
        push_exported(out, self.what)?;
        Ok(())
    }
}

// The number of bytes, and the bytes.
fn push_name(out: &mut Vec<u8>, text: &Name) -> Result<(), AllocError>
    ensures { OnOk result (Written out.old.items out.new.items (name.Is text.now)) }
{
    let bytes = text.as_str().as_bytes();
    push_length(out, bytes.len())?;
    out.extend_from_slice(bytes)?;
    Ok(())
}

// The kind, and the index.
fn push_exported(out: &mut Vec<u8>, what: Exported) -> Result<(), AllocError>
    ensures { OnOk result (Written out.old.items out.new.items (exported.Is what)) }
{
    match what {
        Exported::Func(f) => {
            out.push(0x00)?;
            push_unsigned(out, f)?;
            Ok(())
        }
        Exported::Memory(x) => {
            out.push(0x02)?;
            push_unsigned(out, x)?;
            Ok(())
        }
        Exported::Global(x) => {
            out.push(0x03)?;
            push_unsigned(out, x)?;
            Ok(())
        }
    }
}
