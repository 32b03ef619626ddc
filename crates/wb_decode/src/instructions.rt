//! Instructions (the standard, 5.4), by the table.

ghost use Rattle.std.specs.Prelude.{◌≡◌, ◌<◌, ◌≤◌, length, IfOk};
ghost use Rattle.wb_syntax.specs.Table.{row_at};
ghost use Rattle.wb_syntax.specs.Grammar.{exact, mapped, behind, signed_number};
ghost use Rattle.wb_syntax.specs.declared.syntax.Instr.TheVariants.{MemorySize, MemoryGrow, I32Const, I64Const};
ghost use Rattle.wb_syntax.specs.Binary.{instr};
ghost use Rattle.wb_decode.specs.Reading.{Reading};
ghost use Rattle.wb_decode.specs.Rows.{after, with_result, with_index, opened, indexed, labels, loaded, stored, load_at, store_at, unary_at, binary_at};

use crate::ends::{Fault, What};
use crate::numbers::{first, index, signed_32, signed_64};
use crate::types::block_type;
use crate::vectors::vector;
use std::alloc::Global;
use wb_syntax::{Instr, NumType};

// block, loop or if with its type.
#[tactic(auto, unfolding(wb_syntax::specs::Table::row_at))]
fn opening(opcode: u8, block_type: Option<NumType>) -> Instr
    requires from_block { 0x02 ≤ opcode }
    requires to_if { opcode ≤ 0x04 }
    ensures { result ≡ with_result (row_at opcode) block_type }
{
    match opcode {
        0x02 => Instr::Block(block_type),
        0x03 => Instr::Loop(block_type),
        _ => Instr::If(block_type),
    }
}

// What follows block, loop or if.
fn opened(opcode: u8, bytes: &[u8]) -> Result<(Instr, &[u8]), Fault>
    requires from_block { 0x02 ≤ opcode }
    requires to_if { opcode ≤ 0x04 }
    ensures { Reading (λ x. (x.0, x.1.now)) (opened opcode) bytes.now result }
{
    let (block_type, rest) = block_type(bytes)?;
    let instr = opening(opcode, block_type);
    Ok((instr, rest))
}

// A branch or a call with its index.
#[tactic(auto, unfolding(wb_syntax::specs::Table::row_at))]
fn leading(opcode: u8, index: u32) -> Instr
    requires from_br { 0x0C ≤ opcode }
    requires to_call { opcode ≤ 0x10 }
    requires no_table { 0x0D < opcode → 0x0F < opcode }
    ensures { result ≡ with_index (row_at opcode) index }
{
    match opcode {
        0x0C => Instr::Br(index),
        0x0D => Instr::BrIf(index),
        _ => Instr::Call(index),
    }
}

// What follows br, br_if or call.
fn led(opcode: u8, bytes: &[u8]) -> Result<(Instr, &[u8]), Fault>
    requires from_br { 0x0C ≤ opcode }
    requires to_call { opcode ≤ 0x10 }
    requires no_table { 0x0D < opcode → 0x0F < opcode }
    ensures { Reading (λ x. (x.0, x.1.now)) (indexed opcode) bytes.now result }
{
    let (index, rest) = index(bytes)?;
    let instr = leading(opcode, index);
    Ok((instr, rest))
}

// An access to a local or a global with its index.
#[tactic(auto, unfolding(wb_syntax::specs::Table::row_at))]
fn access(opcode: u8, index: u32) -> Instr
    requires from_local_get { 0x20 ≤ opcode }
    requires to_global_set { opcode ≤ 0x24 }
    ensures { result ≡ with_index (row_at opcode) index }
{
    match opcode {
        0x20 => Instr::LocalGet(index),
        0x21 => Instr::LocalSet(index),
        0x22 => Instr::LocalTee(index),
        0x23 => Instr::GlobalGet(index),
        _ => Instr::GlobalSet(index),
    }
}

// What follows an access to a local or a global.
fn accessed(opcode: u8, bytes: &[u8]) -> Result<(Instr, &[u8]), Fault>
    requires from_local_get { 0x20 ≤ opcode }
    requires to_global_set { opcode ≤ 0x24 }
    ensures { Reading (λ x. (x.0, x.1.now)) (indexed opcode) bytes.now result }
{
    let (index, rest) = index(bytes)?;
    let instr = access(opcode, index);
    Ok((instr, rest))
}

// What follows br_table: the labels of a list, and one more.
fn labels(alloc: Global, bytes: &[u8]) -> Result<(Instr, &[u8]), Fault>
    ensures { Reading (λ x. (x.0, x.1.now)) labels bytes.now result }
{
    let (labels, rest) = vector(alloc, bytes)?;
    let (default, rest) = index(rest)?;
    Ok((Instr::BrTable(labels, default), rest))
}

// What follows a load.
fn loaded(opcode: u8, bytes: &[u8]) -> Result<(Instr, &[u8]), Fault>
    ensures { Reading (λ x. (x.0, x.1.now)) (loaded opcode) bytes.now result }
{
    let (align, rest) = index(bytes)?;
    let (offset, rest) = index(rest)?;
    Ok((Instr::Load(opcode, align, offset), rest))
}

// What follows a store.
fn stored(opcode: u8, bytes: &[u8]) -> Result<(Instr, &[u8]), Fault>
    ensures { Reading (λ x. (x.0, x.1.now)) (stored opcode) bytes.now result }
{
    let (align, rest) = index(bytes)?;
    let (offset, rest) = index(rest)?;
    Ok((Instr::Store(opcode, align, offset), rest))
}

// Whether the opcode is that of a load.
fn is_load(opcode: u8) -> bool
    ensures { result ≡ load_at opcode }
{
    (0x28 <= opcode && opcode <= 0x29) || (0x2C <= opcode && opcode <= 0x35)
}

// Whether the opcode is that of a store.
fn is_store(opcode: u8) -> bool
    ensures { result ≡ store_at opcode }
{
    (0x36 <= opcode && opcode <= 0x37) || (0x3A <= opcode && opcode <= 0x3E)
}

// Whether the opcode is that of an operation with one operand.
fn is_unary(opcode: u8) -> bool
    ensures { result ≡ unary_at opcode }
{
    opcode == 0x45
        || opcode == 0x50
        || (0x67 <= opcode && opcode <= 0x69)
        || (0x79 <= opcode && opcode <= 0x7B)
        || opcode == 0xA7
        || (0xAC <= opcode && opcode <= 0xAD)
}

// Whether the opcode is that of an operation with two operands.
fn is_binary(opcode: u8) -> bool
    ensures { result ≡ binary_at opcode }
{
    (0x46 <= opcode && opcode <= 0x4F)
        || (0x51 <= opcode && opcode <= 0x5A)
        || (0x6A <= opcode && opcode <= 0x78)
        || (0x7C <= opcode && opcode <= 0x8A)
}

// What follows an opcode from 28 to 3E: loads and stores.
fn memory(opcode: u8, bytes: &[u8]) -> Result<(Instr, &[u8]), Fault>
    requires from_load { 0x28 ≤ opcode }
    requires to_store { opcode ≤ 0x3E }
    ensures { Reading (λ x. (x.0, x.1.now)) (after opcode) bytes.now result }
{
    if is_load(opcode) {
        return loaded(opcode, bytes);
    }
    if is_store(opcode) {
        return stored(opcode, bytes);
    }
    Err(Fault::Outside(What::Float))
}

// What follows an opcode from 43 to BF: operations.
fn numeric(opcode: u8, bytes: &[u8]) -> Result<(Instr, &[u8]), Fault>
    requires from_constant { 0x43 ≤ opcode }
    requires to_reinterpret { opcode ≤ 0xBF }
    ensures { Reading (λ x. (x.0, x.1.now)) (after opcode) bytes.now result }
{
    if is_unary(opcode) {
        return Ok((Instr::Unary(opcode), bytes));
    }
    if is_binary(opcode) {
        return Ok((Instr::Binary(opcode), bytes));
    }
    Err(Fault::Outside(What::Float))
}

// What follows memory.size: the byte 00.
fn memory_size(bytes: &[u8]) -> Result<(Instr, &[u8]), Fault>
    ensures { Reading (λ x. (x.0, x.1.now)) (behind 0x00 (exact MemorySize)) bytes.now result }
{
    let (byte, rest) = first(bytes)?;
    match byte {
        0x00 => Ok((Instr::MemorySize, rest)),
        _ => Err(Fault::Malformed),
    }
}

// What follows memory.grow: the byte 00.
fn memory_grow(bytes: &[u8]) -> Result<(Instr, &[u8]), Fault>
    ensures { Reading (λ x. (x.0, x.1.now)) (behind 0x00 (exact MemoryGrow)) bytes.now result }
{
    let (byte, rest) = first(bytes)?;
    match byte {
        0x00 => Ok((Instr::MemoryGrow, rest)),
        _ => Err(Fault::Malformed),
    }
}

// What follows i32.const.
fn i32_constant(bytes: &[u8]) -> Result<(Instr, &[u8]), Fault>
    ensures { Reading (λ x. (x.0, x.1.now)) (mapped I32Const (signed_number 32)) bytes.now result }
{
    let (number, rest) = signed_32(bytes)?;
    Ok((Instr::I32Const(number), rest))
}

// What follows i64.const.
fn i64_constant(bytes: &[u8]) -> Result<(Instr, &[u8]), Fault>
    ensures { Reading (λ x. (x.0, x.1.now)) (mapped I64Const (signed_number 64)) bytes.now result }
{
    let (number, rest) = signed_64(bytes)?;
    Ok((Instr::I64Const(number), rest))
}

// What follows an opcode from 00 to 05.
#[tactic(auto, unfolding(wb_syntax::specs::Table::row_at))]
fn structured(opcode: u8, bytes: &[u8]) -> Result<(Instr, &[u8]), Fault>
    requires { opcode ≤ 0x05 }
    ensures { Reading (λ x. (x.0, x.1.now)) (after opcode) bytes.now result }
{
    match opcode {
        0x00 => Ok((Instr::Unreachable, bytes)),
        0x01 => Ok((Instr::Nop, bytes)),
        0x05 => Ok((Instr::Else, bytes)),
        _ => opened(opcode, bytes),
    }
}

// What follows an opcode from 0B to 11.
#[tactic(auto, unfolding(wb_syntax::specs::Table::row_at))]
fn branching(alloc: Global, opcode: u8, bytes: &[u8]) -> Result<(Instr, &[u8]), Fault>
    requires from_end { 0x0B ≤ opcode }
    requires to_call_indirect { opcode ≤ 0x11 }
    ensures { Reading (λ x. (x.0, x.1.now)) (after opcode) bytes.now result }
{
    match opcode {
        0x0B => Ok((Instr::End, bytes)),
        0x0E => labels(alloc, bytes),
        0x0F => Ok((Instr::Return, bytes)),
        0x11 => Err(Fault::Outside(What::Table)),
        _ => led(opcode, bytes),
    }
}

// What follows an opcode.
#[tactic(auto, unfolding(wb_syntax::specs::Table::row_at))]
fn behind(alloc: Global, opcode: u8, bytes: &[u8]) -> Result<(Instr, &[u8]), Fault>
    ensures { Reading (λ x. (x.0, x.1.now)) (after opcode) bytes.now result }
{
    match opcode {
        0x00..=0x05 => structured(opcode, bytes),
        0x0B..=0x11 => branching(alloc, opcode, bytes),
        0x1A => Ok((Instr::Drop, bytes)),
        0x1B => Ok((Instr::Select, bytes)),
        0x20..=0x24 => accessed(opcode, bytes),
        0x28..=0x3E => memory(opcode, bytes),
        0x3F => memory_size(bytes),
        0x40 => memory_grow(bytes),
        0x41 => i32_constant(bytes),
        0x42 => i64_constant(bytes),
        0x43..=0xBF => numeric(opcode, bytes),
        _ => Err(Fault::Malformed),
    }
}

/// An instruction.
pub fn instr(alloc: Global, bytes: &[u8]) -> Result<(Instr, &[u8]), Fault>
    ensures reading { Reading (λ x. (x.0, x.1.now)) instr bytes.now result }
    ensures shorter { IfOk result (λ x. length x.1.now < length bytes.now) }
{
    let (opcode, rest) = first(bytes)?;
    behind(alloc, opcode, rest)
}
