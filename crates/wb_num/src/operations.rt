//! Operations of both types, by opcode.
ghost use Rattle.std.specs.Prelude.{◌≡◌, ◌<◌, IfOk};
ghost use Rattle.wb_syntax.specs.Numbers.{word_of, unary};
ghost use Rattle.wb_num.specs.Answers.{IsUnaryOperation, IsBinaryOperation, IsOperand, IsResult, AnswersNumber};

use crate::i32_operations::{compare_i32, compute_i32};
use crate::i64_operations::{compare_i64, compute_i64};
use crate::trap::NumTrap;

// A test as a number.
#[inline(always)]
fn flag(test: bool) -> u64
    ensures number { result ≡ word_of test }
    ensures fits { result < 2 }
{
    u64::from(test)
}

/// What the operation with this opcode gives for its two operands, the first one below the second on the stack.
///
/// The opcode is that of a comparison or of an operation with two operands: 46 to 4F, 51 to 5A, 6A to 78 or 7C to 8A.
/// Operands and results of type i32 are below 2^32.
///
/// # Errors
///
/// `DivideByZero` where a division or a remainder has the divisor 0, `Overflow` where the least signed number is divided by -1.
#[inline(always)]
#[tactic(auto, unfolding(wb_syntax::specs::Table::row_at))]
pub fn binary(op: u8, a: u64, b: u64) -> Result<u64, NumTrap>
    requires operation { IsBinaryOperation op }
    requires first { IsOperand op a }
    requires second { IsOperand op b }
    ensures number { AnswersNumber op a b result }
    ensures fits { IfOk result (λ n. IsResult op n) }
{
    match op {
        0x46..=0x4F => Ok(flag(compare_i32(op, a as u32, b as u32))),
        0x51..=0x5A => Ok(flag(compare_i64(op, a, b))),
        0x6A..=0x78 => {
            let number = compute_i32(op, a as u32, b as u32)?;
            Ok(u64::from(number))
        }
        _ => {
            let number = compute_i64(op, a, b)?;
            Ok(number)
        }
    }
}

/// What the operation with this opcode gives for its one operand.
///
/// The opcode is that of a test (45, 50), of a count of bits (67 to 69, 79 to 7B) or of a conversion (A7, AC, AD).
/// Operands and results of type i32 are below 2^32.
#[tactic(auto, unfolding(wb_syntax::specs::Table::row_at))]
pub fn unary(op: u8, a: u64) -> u64
    requires operation { IsUnaryOperation op }
    requires operand { IsOperand op a }
    ensures number { result ≡ unary op a }
    ensures fits { IsResult op result }
{
    match op {
        0x45 => u64::from(a == 0), // i32.eqz
        0x50 => u64::from(a == 0), // i64.eqz
        0x67 => u64::from((a as u32).leading_zeros()), // i32.clz
        0x68 => u64::from((a as u32).trailing_zeros()), // i32.ctz
        0x69 => u64::from((a as u32).count_ones()), // i32.popcnt
        0x79 => u64::from(a.leading_zeros()), // i64.clz
        0x7A => u64::from(a.trailing_zeros()), // i64.ctz
        0x7B => u64::from(a.count_ones()), // i64.popcnt
        0xA7 => a % 0x1_0000_0000, // i32.wrap_i64
        0xAC => i64::from((a as u32).cast_signed()).cast_unsigned(), // i64.extend_i32_s
        _ => a, // i64.extend_i32_u
    }
}
