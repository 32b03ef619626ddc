//! Operations at their edges, as the WebAssembly standard has them (4.3.2).

use crate::running::{call, machine};
use crate::samples::{body, check, push_words};
use std::alloc::Global;
use std::test::Fail;
use wb_machine::{MachineEnd, TrapKind};

const LEAST_32: i64 = 0x8000_0000;

const MINUS_ONE_32: i64 = 0xFFFF_FFFF;

const LEAST_64: i64 = i64::MIN;

/// Operations by their opcodes, their operands, and what they give, or why they trap. An i32 is written without its sign.
const ANSWERS: [(u8, i64, i64, Result<i64, TrapKind>); 72] = [
    // i32: less by sign and greater without, the least number and -1, equal ones
    (0x46, 5, 5, Ok(1)),
    (0x47, 5, 5, Ok(0)),
    (0x48, MINUS_ONE_32, 0, Ok(1)),
    (0x49, MINUS_ONE_32, 0, Ok(0)),
    (0x4A, MINUS_ONE_32, LEAST_32, Ok(1)),
    (0x4B, 1, LEAST_32, Ok(0)),
    (0x4C, LEAST_32, 0x7FFF_FFFF, Ok(1)),
    (0x4D, LEAST_32, 0x7FFF_FFFF, Ok(0)),
    (0x4E, 7, 7, Ok(1)),
    (0x4F, 0, MINUS_ONE_32, Ok(0)),
    // i64
    (0x51, 0x8000_0000, LEAST_64, Ok(0)),
    (0x52, 0x8000_0000, LEAST_64, Ok(1)),
    (0x53, -1, 0, Ok(1)),
    (0x54, -1, 0, Ok(0)),
    (0x55, 0, LEAST_64, Ok(1)),
    (0x56, 0, LEAST_64, Ok(0)),
    (0x57, LEAST_64, LEAST_64, Ok(1)),
    (0x58, LEAST_64, 1, Ok(0)),
    (0x59, LEAST_64, -1, Ok(0)),
    (0x5A, -1, LEAST_64, Ok(1)),
    // i32: quotients are rounded toward zero, remainders have the dividend's sign, distances are taken modulo 32
    (0x6A, MINUS_ONE_32, 1, Ok(0)),
    (0x6B, 3, 5, Ok(0xFFFF_FFFE)),
    (0x6C, 0x1234_5678, 0x1_0000, Ok(0x5678_0000)),
    (0x6D, 0xFFFF_FFF9, 2, Ok(0xFFFF_FFFD)),
    (0x6E, LEAST_32, MINUS_ONE_32, Ok(0)),
    (0x6F, LEAST_32, MINUS_ONE_32, Ok(0)),
    (0x6F, 0xFFFF_FFF9, 2, Ok(0xFFFF_FFFF)),
    (0x70, 0xFFFF_FFF9, 2, Ok(1)),
    (0x71, 0b1100, 0b1010, Ok(0b1000)),
    (0x72, 0b1100, 0b1010, Ok(0b1110)),
    (0x73, 0b1100, 0b1010, Ok(0b0110)),
    (0x74, 1, 33, Ok(2)),
    (0x75, LEAST_32, 31, Ok(0xFFFF_FFFF)),
    (0x76, LEAST_32, 63, Ok(1)),
    (0x77, 0xABCD_9876, 1, Ok(0x579B_30ED)),
    (0x78, 1, 33, Ok(0x8000_0000)),
    // i64
    (0x7C, -1, 1, Ok(0)),
    (0x7D, 3, 5, Ok(-2)),
    (0x7E, LEAST_64, 3, Ok(LEAST_64)),
    (0x7F, -7, 2, Ok(-3)),
    (0x80, -1, 2, Ok(0x7FFF_FFFF_FFFF_FFFF)),
    (0x81, LEAST_64, -1, Ok(0)),
    (0x82, -1, 10, Ok(5)),
    (0x83, 0b1100, 0b1010, Ok(0b1000)),
    (0x84, 0b1100, 0b1010, Ok(0b1110)),
    (0x85, 0b1100, 0b1010, Ok(0b0110)),
    (0x86, 1, 65, Ok(2)),
    (0x87, LEAST_64, 63, Ok(-1)),
    (0x88, LEAST_64, 127, Ok(1)),
    (0x89, -0x5432_678A_0000_0000, 1, Ok(0x579B_30EC_0000_0001)),
    (0x8A, 1, 65, Ok(LEAST_64)),
    // tests, and counts of bits: all bits of 0 are leading and trailing zeros
    (0x45, 0, 0, Ok(1)),
    (0x50, LEAST_64, 0, Ok(0)),
    (0x67, 0, 0, Ok(32)),
    (0x68, LEAST_32, 0, Ok(31)),
    (0x69, MINUS_ONE_32, 0, Ok(32)),
    (0x79, 1, 0, Ok(63)),
    (0x7A, 0, 0, Ok(64)),
    (0x7B, -0x5555_AAAA_5555_AAAB, 0, Ok(32)),
    // between the types
    (0xA7, 0x1234_5678_9ABC_DEF0, 0, Ok(0x9ABC_DEF0)),
    (0xAC, LEAST_32, 0, Ok(-0x8000_0000)),
    (0xAD, LEAST_32, 0, Ok(LEAST_32)),
    // traps
    (0x6D, LEAST_32, MINUS_ONE_32, Err(TrapKind::Overflow)),
    (0x7F, LEAST_64, -1, Err(TrapKind::Overflow)),
    (0x6D, 1, 0, Err(TrapKind::DivideByZero)),
    (0x6E, 1, 0, Err(TrapKind::DivideByZero)),
    (0x6F, 1, 0, Err(TrapKind::DivideByZero)),
    (0x70, 1, 0, Err(TrapKind::DivideByZero)),
    (0x7F, LEAST_64, 0, Err(TrapKind::DivideByZero)),
    (0x80, LEAST_64, 0, Err(TrapKind::DivideByZero)),
    (0x81, LEAST_64, 0, Err(TrapKind::DivideByZero)),
    (0x82, LEAST_64, 0, Err(TrapKind::DivideByZero)),
];

// The words before and behind an operation that make a body of it.
fn around(opcode: u8) -> (&'static str, &'static str) {
    match opcode {
        0x45 | 0x67..=0x69 => ("local.get 00 i32.wrap_i64", "i64.extend_i32_u end"),
        0x46..=0x4F | 0x6A..=0x78 => (
            "local.get 00 i32.wrap_i64 local.get 01 i32.wrap_i64",
            "i64.extend_i32_u end",
        ),
        0x50 | 0xA7 => ("local.get 00", "i64.extend_i32_u end"),
        0x51..=0x5A => ("local.get 00 local.get 01", "i64.extend_i32_u end"),
        0x79..=0x7B => ("local.get 00", "end"),
        0x7C..=0x8A => ("local.get 00 local.get 01", "end"),
        _ => ("local.get 00 i32.wrap_i64", "end"),
    }
}

// The body of an operation, with its locals.
fn main_of(alloc: Global, opcode: u8) -> Result<Vec<u8>, Fail> {
    let (before, behind) = around(opcode);
    let mut code = body(alloc, before)?;
    code.push(opcode)?;
    push_words(alloc, &mut code, behind)?;
    Ok(code)
}

// How a run of an operation ends on these operands.
fn end_of(alloc: Global, opcode: u8, operands: &[i64]) -> Result<Option<MachineEnd>, Fail> {
    let mut m = machine(alloc, 99, &main_of(alloc, opcode)?)?;
    Ok(call(&mut m, operands, 9))
}

fn as_end(answer: Result<i64, TrapKind>) -> MachineEnd {
    match answer {
        Ok(z) => MachineEnd::Returned(z),
        Err(kind) => MachineEnd::Trap(kind),
    }
}

#[test]
fn answers(rt: HostRuntime) -> Result<(), Fail> {
    for (opcode, a, b, wanted) in ANSWERS {
        let end = end_of(rt.alloc(), opcode, &[a, b])?;
        check(&rt, end == Some(as_end(wanted)), opcode);
    }
    Ok(())
}
