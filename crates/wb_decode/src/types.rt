//! Types (the standard, 5.3).

ghost use Rattle.std.specs.Prelude.{◌≡◌};
ghost use Rattle.wb_syntax.specs.Grammar.{index, followed};
ghost use Rattle.wb_syntax.specs.Binary.{value_type, block_type, results, func_type, limits, mutability};
ghost use Rattle.wb_decode.specs.Reading.{Reading, signature, at_least, within};

use crate::ends::{Fault, What};
use crate::numbers::{first, index};
use crate::vectors::{Spelled, vector};
use std::alloc::Global;
use wb_syntax::{FuncType, Limits, NumType};

/// A value type (5.3.1).
pub fn value_type(bytes: &[u8]) -> Result<(NumType, &[u8]), Fault>
    ensures { Reading (λ x. (x.0, x.1.now)) value_type bytes.now result }
{
    let (byte, rest) = first(bytes)?;
    match byte {
        0x7F => Ok((NumType::I32, rest)),
        0x7E => Ok((NumType::I64, rest)),
        0x7D => Err(Fault::Outside(What::Float)),
        0x7C => Err(Fault::Outside(What::Float)),
        _ => Err(Fault::Malformed),
    }
}

/// The type of a block: at most one result (5.3.2).
pub fn block_type(bytes: &[u8]) -> Result<(Option<NumType>, &[u8]), Fault>
    ensures { Reading (λ x. (x.0, x.1.now)) block_type bytes.now result }
{
    let (byte, rest) = first(bytes)?;
    match byte {
        0x40 => Ok((None, rest)),
        0x7F => Ok((Some(NumType::I32), rest)),
        0x7E => Ok((Some(NumType::I64), rest)),
        0x7D => Err(Fault::Outside(What::Float)),
        0x7C => Err(Fault::Outside(What::Float)),
        _ => Err(Fault::Malformed),
    }
}

// The results of a function: at most one.
fn results(bytes: &[u8]) -> Result<(Option<NumType>, &[u8]), Fault>
    ensures { Reading (λ x. (x.0, x.1.now)) (followed index results) bytes.now result }
{
    let (count, rest) = index(bytes)?;
    match count {
        0 => Ok((None, rest)),
        1 => {
            let (result_type, rest) = value_type(rest)?;
            Ok((Some(result_type), rest))
        }
        _ => Err(Fault::Malformed),
    }
}

// Limits with a least size alone, behind the byte that says so.
fn at_least(bytes: &[u8]) -> Result<(Limits, &[u8]), Fault>
    ensures { Reading (λ x. (x.0, x.1.now)) at_least bytes.now result }
{
    let (min, rest) = index(bytes)?;
    Ok((Limits { min, max: None }, rest))
}

// Limits with a greatest size too, behind the byte that says so.
fn within(bytes: &[u8]) -> Result<(Limits, &[u8]), Fault>
    ensures { Reading (λ x. (x.0, x.1.now)) within bytes.now result }
{
    let (min, rest) = index(bytes)?;
    let (max, rest) = index(rest)?;
    let max = Some(max);
    Ok((Limits { min, max }, rest))
}

/// The limits of a memory (5.3.4, 5.3.5).
pub fn limits(bytes: &[u8]) -> Result<(Limits, &[u8]), Fault>
    ensures { Reading (λ x. (x.0, x.1.now)) limits bytes.now result }
{
    let (form, rest) = first(bytes)?;
    match form {
        0x00 => at_least(rest),
        0x01 => within(rest),
        _ => Err(Fault::Malformed),
    }
}

/// Whether a global may be set (5.3.7).
pub fn mutability(bytes: &[u8]) -> Result<(bool, &[u8]), Fault>
    ensures { Reading (λ x. (x.0, x.1.now)) mutability bytes.now result }
{
    let (byte, rest) = first(bytes)?;
    match byte {
        0x00 => Ok((false, rest)),
        0x01 => Ok((true, rest)),
        _ => Err(Fault::Malformed),
    }
}

// The parameters and the results of a function.
fn signature(alloc: Global, bytes: &[u8]) -> Result<(FuncType, &[u8]), Fault>
    ensures { Reading (λ x. (x.0, x.1.now)) signature bytes.now result }
{
    let (params, rest) = vector(alloc, bytes)?;
    let (result_type, rest) = results(rest)?;
    let func_type = FuncType {
        params,
        result: result_type,
    };
    Ok((func_type, rest))
}

impl Spelled for u32 {
    ghost grammar = { index };

    fn read(_alloc: Global, bytes: &[u8]) -> Result<(u32, &[u8]), Fault> {
        index(bytes)
    }
}

impl Spelled for NumType {
    ghost grammar = { value_type };

    fn read(_alloc: Global, bytes: &[u8]) -> Result<(NumType, &[u8]), Fault> {
        value_type(bytes)
    }
}

impl Spelled for Limits {
    ghost grammar = { limits };

    fn read(_alloc: Global, bytes: &[u8]) -> Result<(Limits, &[u8]), Fault> {
        limits(bytes)
    }
}

impl Spelled for FuncType {
    ghost grammar = { func_type };

    fn read(alloc: Global, bytes: &[u8]) -> Result<(FuncType, &[u8]), Fault> {
        let (byte, rest) = first(bytes)?;
        if byte == 0x60 {
            signature(alloc, rest)
        } else {
            Err(Fault::Malformed)
        }
    }
}
