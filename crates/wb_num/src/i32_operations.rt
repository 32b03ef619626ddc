//! Operations with two operands of type i32.
ghost use Rattle.std.specs.Prelude.{◌≡◌, ◌≤◌, ◌<◌};
ghost use Rattle.wb_syntax.specs.Numbers.{Yields, word_of, binary};
ghost use Rattle.wb_num.specs.Answers.{AnswersNumber};

use crate::trap::NumTrap;

/// Comparisons, from i32.eq (46) to i32.ge_u (4F).
#[inline(always)]
#[tactic(auto, unfolding(wb_syntax::specs::Table::row_at))]
pub fn compare_i32(op: u8, a: u32, b: u32) -> bool
    requires from_eq { 0x46 ≤ op }
    requires to_ge_u { op ≤ 0x4F }
    ensures { binary op a b ≡ Yields (word_of result) }
{
    match op {
        0x46 => a == b, // eq
        0x47 => a != b, // ne
        0x48 => a.cast_signed() < b.cast_signed(), // lt_s
        0x49 => a < b, // lt_u
        0x4A => a.cast_signed() > b.cast_signed(), // gt_s
        0x4B => a > b, // gt_u
        0x4C => a.cast_signed() <= b.cast_signed(), // le_s
        0x4D => a <= b, // le_u
        0x4E => a.cast_signed() >= b.cast_signed(), // ge_s
        _ => a >= b, // ge_u
    }
}

/// Arithmetic, from i32.add (6A) to i32.rotr (78).
#[inline(always)]
#[tactic(auto, unfolding(wb_syntax::specs::Table::row_at))]
pub fn compute_i32(op: u8, a: u32, b: u32) -> Result<u32, NumTrap>
    requires from_add { 0x6A ≤ op }
    requires to_rotr { op ≤ 0x78 }
    ensures { AnswersNumber op a b result }
{
    match op {
        0x6D..=0x70 => divide_i32(op, a, b),
        0x74..=0x78 => Ok(shift_i32(op, a, b)),
        _ => Ok(combine_i32(op, a, b)),
    }
}

// Sums, differences, products (6A to 6C) and bitwise operations (71 to 73).
#[inline(always)]
#[tactic(auto, unfolding(wb_syntax::specs::Table::row_at))]
fn combine_i32(op: u8, a: u32, b: u32) -> u32
    requires from_add { 0x6A ≤ op }
    requires to_xor { op ≤ 0x73 }
    requires no_division { 0x6C < op → 0x70 < op }
    ensures { binary op a b ≡ Yields result }
{
    match op {
        0x6A => a.wrapping_add(b), // add
        0x6B => a.wrapping_sub(b), // sub
        0x6C => a.wrapping_mul(b), // mul
        0x71 => a & b, // and
        0x72 => a | b, // or
        _ => a ^ b, // xor
    }
}

// Quotients and remainders (6D to 70).
#[inline(always)]
#[tactic(auto, unfolding(wb_syntax::specs::Table::row_at))]
fn divide_i32(op: u8, a: u32, b: u32) -> Result<u32, NumTrap>
    requires from_div_s { 0x6D ≤ op }
    requires to_rem_u { op ≤ 0x70 }
    ensures { AnswersNumber op a b result }
{
    if b == 0 {
        return Err(NumTrap::DivideByZero);
    }
    match op {
        0x6D => quotient_i32(a, b), // div_s
        0x6E => Ok(a / b), // div_u
        0x6F => Ok(
            a.cast_signed()
                .wrapping_rem(b.cast_signed())
                .cast_unsigned(),
        ), // rem_s
        _ => Ok(a % b), // rem_u
    }
}

// The signed quotient, which is too large where the least number is divided by -1.
#[inline(always)]
#[tactic(auto, unfolding(wb_syntax::specs::Table::row_at))]
fn quotient_i32(a: u32, b: u32) -> Result<u32, NumTrap>
    requires { 0 < b }
    ensures { AnswersNumber 0x6D a b result }
{
    if a == 0x8000_0000 && b == u32::MAX {
        return Err(NumTrap::Overflow);
    }
    Ok((a.cast_signed() / b.cast_signed()).cast_unsigned())
}

// Shifts and rotations by distances modulo 32 (74 to 78).
#[inline(always)]
#[tactic(auto, unfolding(wb_syntax::specs::Table::row_at))]
fn shift_i32(op: u8, a: u32, b: u32) -> u32
    requires from_shl { 0x74 ≤ op }
    requires to_rotr { op ≤ 0x78 }
    ensures { binary op a b ≡ Yields result }
{
    let distance = b % 32;
    match op {
        0x74 => a << distance, // shl
        0x75 => (a.cast_signed() >> distance).cast_unsigned(), // shr_s
        0x76 => a >> distance, // shr_u
        0x77 => a.rotate_left(distance), // rotl
        _ => a.rotate_right(distance), // rotr
    }
}
