//! Instructions (the standard, 5.4), by what follows their opcode.
ghost use Rattle.std.specs.Prelude.{◌≡◌, ℕ, ℤ, ◌-◌, ◌^◌, OnOk, IsTrue, Option, [], ◌∷◌};
ghost use Rattle.wb_syntax.specs.Table.{Alone, WithResult, WithIndex, WithZero, Constant, row_at};
ghost use Rattle.wb_syntax.specs.Binary.{instr, block_type};
ghost use Rattle.wb_encode.specs.Shortest.{IsShortest};
ghost use Rattle.wb_encode.specs.Appended.{Written, IsWithin};
ghost use Rattle.wb_encode.specs.Encodable.{IsOfTable, loads, stores, takes_one, takes_two};

use crate::numbers::{push_signed, push_unsigned};
use crate::spelling::{Spell, push_vec};
use std::alloc::AllocError;
use wb_syntax::{Instr, NumType};

impl Spell for Instr {
    ghost is_encodable = { IsOfTable };

    ghost spells = { instr.Is };

    fn push_to(&self, out: &mut Vec<u8>) -> Result<(), AllocError> {
        match self {
            Instr::Unreachable => push_plain(out, 0x00),
            Instr::Nop => push_plain(out, 0x01),
            Instr::Block(t) => push_construct(out, 0x02, *t),
            Instr::Loop(t) => push_construct(out, 0x03, *t),
            Instr::If(t) => push_construct(out, 0x04, *t),
            Instr::Else => push_plain(out, 0x05),
            Instr::End => push_plain(out, 0x0B),
            Instr::Br(label) => push_indexed(out, 0x0C, *label),
            Instr::BrIf(label) => push_indexed(out, 0x0D, *label),
            Instr::BrTable(labels, last) => push_labels(out, labels.as_slice(), *last),
            Instr::Return => push_plain(out, 0x0F),
            Instr::Call(f) => push_indexed(out, 0x10, *f),
            Instr::Drop => push_plain(out, 0x1A),
            Instr::Select => push_plain(out, 0x1B),
            Instr::LocalGet(x) => push_indexed(out, 0x20, *x),
            Instr::LocalSet(x) => push_indexed(out, 0x21, *x),
            Instr::LocalTee(x) => push_indexed(out, 0x22, *x),
            Instr::GlobalGet(x) => push_indexed(out, 0x23, *x),
            Instr::GlobalSet(x) => push_indexed(out, 0x24, *x),
            Instr::Load(op, align, offset) => push_access(out, *op, *align, *offset),
            Instr::Store(op, align, offset) => push_access(out, *op, *align, *offset),
            Instr::MemorySize => push_with_zero(out, 0x3F),
            Instr::MemoryGrow => push_with_zero(out, 0x40),
            Instr::I32Const(z) => push_constant(out, 0x41, i64::from(*z)),
            Instr::I64Const(z) => push_constant(out, 0x42, *z),
            Instr::Unary(op) => push_numeric(out, *op),
            Instr::Binary(op) => push_numeric(out, *op),
        }
    }
}

// The opcode is the whole instruction.
fn push_plain(out: &mut Vec<u8>, op: u8) -> Result<(), AllocError>
    ensures { (i : Instr) → row_at op ≡ Alone i → OnOk result (Written out.old.items out.new.items (instr.Is i)) }
{
    out.push(op)?;
    Ok(())
}

// An instruction that keeps its opcode, with one operand or with two.
fn push_numeric(out: &mut Vec<u8>, op: u8) -> Result<(), AllocError>
    ensures one { (i : Instr) → IsTrue (takes_one (row_at op)) → i ≡ Instr.Unary op → OnOk result (Written out.old.items out.new.items (instr.Is i)) }
    ensures two { (i : Instr) → IsTrue (takes_two (row_at op)) → i ≡ Instr.Binary op → OnOk result (Written out.old.items out.new.items (instr.Is i)) }
{
    out.push(op)?;
    Ok(())
}

// A block type follows.
fn push_construct(out: &mut Vec<u8>, op: u8, t: Option<NumType>) -> Result<(), AllocError>
    ensures { (i : Instr) (make : Option NumType → Instr) → row_at op ≡ WithResult make → i ≡ make t → OnOk result (Written out.old.items out.new.items (instr.Is i)) }
{
    let t = block_type_byte(t);
    out.push(op)?;
    out.push(t)?;
    Ok(())
}

// The byte of a block type.
fn block_type_byte(t: Option<NumType>) -> u8
    ensures { IsShortest (block_type.Is t) (result ∷ []) }
{
    match t {
        None => 0x40,
        Some(NumType::I32) => 0x7F,
        Some(NumType::I64) => 0x7E,
    }
}

// An index follows.
fn push_indexed(out: &mut Vec<u8>, op: u8, n: u32) -> Result<(), AllocError>
    ensures { (i : Instr) (make : ℕ → Instr) → row_at op ≡ WithIndex make → i ≡ make n → OnOk result (Written out.old.items out.new.items (instr.Is i)) }
{
    out.push(op)?;
    push_unsigned(out, n)?;
    Ok(())
}

// A branch by an index into a list of labels, and the label for all other indices.
fn push_labels(out: &mut Vec<u8>, labels: &[u32], last: u32) -> Result<(), AllocError>
    ensures { OnOk result (Written out.old.items out.new.items (instr.Is (Instr.BrTable labels.now last))) }
{
    out.push(0x0E)?;
    push_vec(out, labels)?;
    push_unsigned(out, last)?;
    Ok(())
}

// Alignment and offset of a load or a store follow.
fn push_access(out: &mut Vec<u8>, op: u8, align: u32, offset: u32) -> Result<(), AllocError>
    ensures load { (i : Instr) → IsTrue (loads (row_at op)) → i ≡ Instr.Load op align offset → OnOk result (Written out.old.items out.new.items (instr.Is i)) }
    ensures store { (i : Instr) → IsTrue (stores (row_at op)) → i ≡ Instr.Store op align offset → OnOk result (Written out.old.items out.new.items (instr.Is i)) }
{
    out.push(op)?;
    push_unsigned(out, align)?;
    push_unsigned(out, offset)?;
    Ok(())
}

// The byte 00 follows.
fn push_with_zero(out: &mut Vec<u8>, op: u8) -> Result<(), AllocError>
    ensures { (i : Instr) → row_at op ≡ WithZero i → OnOk result (Written out.old.items out.new.items (instr.Is i)) }
{
    out.push(op)?;
    out.push(0x00)?;
    Ok(())
}

// A signed number follows.
fn push_constant(out: &mut Vec<u8>, op: u8, z: i64) -> Result<(), AllocError>
    ensures { (i : Instr) (bits : ℕ) (make : ℤ → Instr) → row_at op ≡ Constant bits make → IsWithin (2 ^ (bits - 1)) z → i ≡ make z → OnOk result (Written out.old.items out.new.items (instr.Is i)) }
{
    out.push(op)?;
    push_signed(out, z)?;
    Ok(())
}
