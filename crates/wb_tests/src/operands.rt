//! Each instruction with operands, valid and with each operand, its result and its alignment wrong.

use crate::samples::{SECTIONS, body, check, module_bytes, push_words};
use std::alloc::Global;
use std::test::Fail;
use wb_decode::decode;
use wb_valid::validate;

const I32: u8 = 0x7F;

const I64: u8 = 0x7E;

const NONE: u8 = 0x40;

/// Opcodes from the first to the last: operands from the lowest up, the result, and of an access the greatest alignment.
const ROWS: [(u8, u8, &[u8], u8, Option<u8>); 24] = [
    (0x45, 0x45, &[I32], I32, None),
    (0x46, 0x4F, &[I32, I32], I32, None),
    (0x50, 0x50, &[I64], I32, None),
    (0x51, 0x5A, &[I64, I64], I32, None),
    (0x67, 0x69, &[I32], I32, None),
    (0x6A, 0x78, &[I32, I32], I32, None),
    (0x79, 0x7B, &[I64], I64, None),
    (0x7C, 0x8A, &[I64, I64], I64, None),
    (0xA7, 0xA7, &[I64], I32, None),
    (0xAC, 0xAD, &[I32], I64, None),
    (0x28, 0x28, &[I32], I32, Some(2)),
    (0x29, 0x29, &[I32], I64, Some(3)),
    (0x2C, 0x2D, &[I32], I32, Some(0)),
    (0x2E, 0x2F, &[I32], I32, Some(1)),
    (0x30, 0x31, &[I32], I64, Some(0)),
    (0x32, 0x33, &[I32], I64, Some(1)),
    (0x34, 0x35, &[I32], I64, Some(2)),
    (0x36, 0x36, &[I32, I32], NONE, Some(2)),
    (0x37, 0x37, &[I32, I64], NONE, Some(3)),
    (0x3A, 0x3A, &[I32, I32], NONE, Some(0)),
    (0x3B, 0x3B, &[I32, I32], NONE, Some(1)),
    (0x3C, 0x3C, &[I32, I64], NONE, Some(0)),
    (0x3D, 0x3D, &[I32, I64], NONE, Some(1)),
    (0x3E, 0x3E, &[I32, I64], NONE, Some(2)),
];

fn other(ty: u8) -> u8 {
    if ty == I32 { I64 } else { I32 }
}

/// An instruction with the types of its operands and of its result.
#[derive(Clone, Copy)]
struct Typed<'a> {
    operands: &'a [u8],
    opcode: u8,
    align: Option<u8>,
    gives: u8,
}

// The words that put a result in a local of its type, and end the body.
fn behind(gives: u8) -> &'static str {
    match gives {
        I32 => "local.set 02 i64.const 00 end",
        I64 => "local.set 03 i64.const 00 end",
        _ => "i64.const 00 end",
    }
}

// A body that has put such operands.
fn with_operands(alloc: Global, operands: &[u8]) -> Result<Vec<u8>, Fail> {
    let mut code = body(alloc, "")?;
    for ty in operands {
        let constant = if *ty == I32 { 0x41 } else { 0x42 };
        code.extend_from_slice(&[constant, 0x00])?;
    }
    Ok(code)
}

// The body that puts such operands, does this, and puts the result in a local of its type.
fn main_of(alloc: Global, typed: Typed<'_>) -> Result<Vec<u8>, Fail> {
    let mut code = with_operands(alloc, typed.operands)?;
    match typed.align {
        None => code.push(typed.opcode)?,
        Some(align) => code.extend_from_slice(&[typed.opcode, align, 0x00])?,
    }
    push_words(alloc, &mut code, behind(typed.gives))?;
    Ok(code)
}

fn is_valid(alloc: Global, typed: Typed<'_>) -> Result<bool, Fail> {
    let main = main_of(alloc, typed)?;
    let module = decode(alloc, &module_bytes(alloc, &SECTIONS, &main)?)?;
    Ok(validate(alloc, module).is_ok())
}

// Whether it is valid with one operand of the other type, or with one less.
fn is_valid_with_others(alloc: Global, typed: Typed<'_>) -> Result<bool, Fail> {
    for at in 0..typed.operands.len() {
        let mut wrong = Vec::from_slice(alloc, typed.operands)?;
        wrong[at] = other(wrong[at]);
        let operands = wrong.as_slice();
        if is_valid(alloc, Typed { operands, ..typed })? {
            return Ok(true);
        }
    }
    let operands = typed.operands.get(1..).unwrap_or(&[]);
    is_valid(alloc, Typed { operands, ..typed })
}

// Whether it is valid with the other result, or with a greater alignment.
fn is_valid_otherwise(alloc: Global, typed: Typed<'_>) -> Result<bool, Fail> {
    if let Some(align) = typed.align {
        let align = Some(align.saturating_add(1));
        if is_valid(alloc, Typed { align, ..typed })? {
            return Ok(true);
        }
    }
    if typed.gives == NONE {
        return Ok(false);
    }
    let gives = other(typed.gives);
    is_valid(alloc, Typed { gives, ..typed })
}

// Whether exactly this typing of it is found valid, among those that differ in one place.
fn is_judged(alloc: Global, typed: Typed<'_>) -> Result<bool, Fail> {
    let is_right = is_valid(alloc, typed)?;
    let is_right_with_others = is_valid_with_others(alloc, typed)?;
    let is_right_otherwise = is_valid_otherwise(alloc, typed)?;
    Ok(is_right && !is_right_with_others && !is_right_otherwise)
}

#[test]
fn every_instruction_with_operands(rt: HostRuntime) -> Result<(), Fail> {
    for (first, last, operands, gives, align) in ROWS {
        for opcode in first..=last {
            let typed = Typed {
                operands,
                opcode,
                align,
                gives,
            };
            check(&rt, is_judged(rt.alloc(), typed)?, opcode);
        }
    }
    Ok(())
}
