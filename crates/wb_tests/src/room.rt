//! The parts of a machine's state, each made once, and a memory that is too large for one.

use crate::samples::{SECTIONS, check, module, replaced};
use std::alloc::Global;
use std::test::Fail;
use wb_control::{Callers, Labels};
use wb_machine::{Machine, OpenEnd};
use wb_state::{Locals, Memory, Operands, Width, Word};
use wb_syntax::NumType;
use wb_valid::validate;

// Whether there is room for one operand.
fn has_operands(alloc: Global) -> Result<bool, Fail> {
    let mut operands = Operands::new(alloc, 1)?;
    let has_first = operands.put(Word::I64(7));
    let has_second = operands.put(Word::I64(8));
    Ok(has_first && !has_second)
}

// Whether there is room for two locals.
fn has_locals(alloc: Global) -> Result<bool, Fail> {
    let mut locals = Locals::new(alloc, 2)?;
    locals.add_zeros(NumType::I32, 2);
    Ok(locals.get(1) == Some(Word::I32(0)) && locals.get(2).is_none())
}

// Whether a page has 65,536 bytes, which are zero.
fn has_memory(alloc: Global) -> Result<bool, Fail> {
    let memory = Memory::new(alloc, 1)?;
    let last = memory.read(65_528, Width::Eight);
    Ok(last == Some(0) && memory.read(65_529, Width::Eight).is_none())
}

// Whether there are labels and callers, none of them at first.
fn has_frames(alloc: Global) -> Result<bool, Fail> {
    let labels = Labels::new(alloc, 1)?;
    let callers = Callers::new(alloc, 1)?;
    Ok(labels.len() == 0 && callers.len() == 0)
}

// Why there is no machine for a memory of 1,025 pages.
fn end_of_large_memory(alloc: Global) -> Result<Option<OpenEnd>, Fail> {
    let sections = replaced(alloc, &SECTIONS, 5, "01 00 8108")?;
    let valid = validate(alloc, module(alloc, &sections, "i64.const 07 end")?)?;
    Ok(Machine::new(alloc, valid, 9).err())
}

#[test]
fn parts_of_a_state(rt: HostRuntime) -> Result<(), Fail> {
    check(&rt, has_operands(rt.alloc())?, "operands");
    check(&rt, has_locals(rt.alloc())?, "locals");
    check(&rt, has_memory(rt.alloc())?, "memory");
    check(&rt, has_frames(rt.alloc())?, "frames");
    let end = end_of_large_memory(rt.alloc())?;
    check(&rt, end == Some(OpenEnd::TooMuchMemory(1025)), "most pages");
    Ok(())
}
