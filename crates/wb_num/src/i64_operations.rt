//! Operations with two operands of type i64.
ghost use Rattle.std.specs.Prelude.{◌≡◌, ◌≤◌, ◌<◌};
ghost use Rattle.wb_syntax.specs.Numbers.{Yields, word_of, binary};
ghost use Rattle.wb_num.specs.Answers.{AnswersNumber};

use crate::trap::NumTrap;

/// Comparisons, from i64.eq (51) to i64.ge_u (5A).
#[inline(always)]
#[tactic(auto, unfolding(wb_syntax::specs::Table::row_at))]
pub fn compare_i64(op: u8, a: u64, b: u64) -> bool
    requires from_eq { 0x51 ≤ op }
    requires to_ge_u { op ≤ 0x5A }
    ensures { binary op a b ≡ Yields (word_of result) }
{
    match op {
        0x51 => a == b, // eq
        0x52 => a != b, // ne
        0x53 => a.cast_signed() < b.cast_signed(), // lt_s
        0x54 => a < b, // lt_u
        0x55 => a.cast_signed() > b.cast_signed(), // gt_s
        0x56 => a > b, // gt_u
        0x57 => a.cast_signed() <= b.cast_signed(), // le_s
        0x58 => a <= b, // le_u
        0x59 => a.cast_signed() >= b.cast_signed(), // ge_s
        _ => a >= b, // ge_u
    }
}

/// Arithmetic, from i64.add (7C) to i64.rotr (8A).
#[inline(always)]
#[tactic(auto, unfolding(wb_syntax::specs::Table::row_at))]
pub fn compute_i64(op: u8, a: u64, b: u64) -> Result<u64, NumTrap>
    requires from_add { 0x7C ≤ op }
    requires to_rotr { op ≤ 0x8A }
    ensures { AnswersNumber op a b result }
{
    match op {
        0x7F..=0x82 => divide_i64(op, a, b),
        0x86..=0x8A => Ok(shift_i64(op, a, b)),
        _ => Ok(combine_i64(op, a, b)),
    }
}

// Sums, differences, products (7C to 7E) and bitwise operations (83 to 85).
#[inline(always)]
#[tactic(auto, unfolding(wb_syntax::specs::Table::row_at))]
fn combine_i64(op: u8, a: u64, b: u64) -> u64
    requires from_add { 0x7C ≤ op }
    requires to_xor { op ≤ 0x85 }
    requires no_division { 0x7E < op → 0x82 < op }
    ensures { binary op a b ≡ Yields result }
{
    match op {
        0x7C => a.wrapping_add(b), // add
        0x7D => a.wrapping_sub(b), // sub
        0x7E => a.wrapping_mul(b), // mul
        0x83 => a & b, // and
        0x84 => a | b, // or
        _ => a ^ b, // xor
    }
}

// Quotients and remainders (7F to 82).
#[inline(always)]
#[tactic(auto, unfolding(wb_syntax::specs::Table::row_at))]
fn divide_i64(op: u8, a: u64, b: u64) -> Result<u64, NumTrap>
    requires from_div_s { 0x7F ≤ op }
    requires to_rem_u { op ≤ 0x82 }
    ensures { AnswersNumber op a b result }
{
    if b == 0 {
        return Err(NumTrap::DivideByZero);
    }
    match op {
        0x7F => quotient_i64(a, b), // div_s
        0x80 => Ok(a / b), // div_u
        0x81 => Ok(
            a.cast_signed()
                .wrapping_rem(b.cast_signed())
                .cast_unsigned(),
        ), // rem_s
        _ => Ok(a % b), // rem_u
    }
}

// The signed quotient, which is too large where the least number is divided by -1.
#[inline(always)]
#[tactic(auto, unfolding(wb_syntax::specs::Table::row_at))]
fn quotient_i64(a: u64, b: u64) -> Result<u64, NumTrap>
    requires { 0 < b }
    ensures { AnswersNumber 0x7F a b result }
{
    if a == 0x8000_0000_0000_0000 && b == u64::MAX {
        return Err(NumTrap::Overflow);
    }
    Ok((a.cast_signed() / b.cast_signed()).cast_unsigned())
}

// Shifts and rotations by distances modulo 64 (86 to 8A).
#[inline(always)]
#[tactic(auto, unfolding(wb_syntax::specs::Table::row_at))]
fn shift_i64(op: u8, a: u64, b: u64) -> u64
    requires from_shl { 0x86 ≤ op }
    requires to_rotr { op ≤ 0x8A }
    ensures { binary op a b ≡ Yields result }
{
    let distance = (b % 64) as u32;
    match op {
        0x86 => a << distance, // shl
        0x87 => (a.cast_signed() >> distance).cast_unsigned(), // shr_s
        0x88 => a >> distance, // shr_u
        0x89 => a.rotate_left(distance), // rotl
        _ => a.rotate_right(distance), // rotr
    }
}
