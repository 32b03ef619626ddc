//! Modules that are run.

use crate::samples::{SECTIONS, body, check, module_bytes};
use std::alloc::Global;
use std::test::Fail;
use wb_decode::decode;
use wb_machine::{Machine, MachineEnd, TrapKind};
use wb_valid::validate;

/// The machine of a module with such a body of `main`, for so many words, of which there is one at least.
pub fn machine(alloc: Global, words: u8, main: &[u8]) -> Result<Machine, Fail> {
    let module = decode(alloc, &module_bytes(alloc, &SECTIONS, main)?)?;
    let valid = validate(alloc, module)?;
    Ok(Machine::new(alloc, valid, u32::from(words.max(1)))?)
}

/// Calls `main` where it takes as many arguments.
pub fn call(m: &mut Machine, args: &[i64], limit: u64) -> Option<MachineEnd> {
    if let Some(count) = m.main_arity() {
        if count as usize != args.len() {
            return None;
        }
    }
    Some(m.call_main(args, limit))
}

/// A body, its first argument, where the second is 8, and its result.
const RESULTS: [(&str, i64, i64); 32] = [
    ("local.get 00 local.get 01 i64.sub end", 5, -3),
    ("local.get 00 local.get 01 i64.div_s end", -7, 0),
    // the first value where the condition is not zero
    ("i64.const 01 i64.const 02 i32.const 03 select end", 0, 1),
    ("i64.const 01 i64.const 02 i32.const 00 select end", 0, 2),
    ("i64.const 01 local.tee 03 local.get 03 i64.add end", 0, 2),
    ("i64.const 01 i64.const 02 drop end", 0, 1),
    // calls
    ("local.get 00 local.get 01 call 01 end", 5, 8),
    ("call 00 local.get 01 local.get 00 call 01 end", 5, 5),
    // branches
    (
        "i32.const 01 if 7E i64.const 01 else i64.const 02 end end",
        0,
        1,
    ),
    (
        "i32.const 00 if 7E i64.const 01 else i64.const 02 end end",
        0,
        2,
    ),
    (
        "i64.const 01 block 7E i64.const 02 i64.const 03 br 00 end i64.add end",
        0,
        4,
    ),
    (
        "block 40 block 40 i32.const 00 br_table 01 01 00 end i64.const 01 return end i64.const 02 end",
        0,
        2,
    ),
    (
        "block 40 block 40 i32.const 01 br_table 01 01 00 end i64.const 01 return end i64.const 02 end",
        0,
        1,
    ),
    (
        "block 40 block 40 i32.const 7F br_table 01 01 00 end i64.const 01 return end i64.const 02 end",
        0,
        1,
    ),
    // a loop that is left: 5 + 4 + 3 + 2 + 1
    (
        "loop 40 local.get 00 local.get 03 i64.add local.set 03 local.get 00 i64.const 01 i64.sub local.tee 00 i64.eqz \
        if 40 local.get 03 return end br 00 end local.get 03 end",
        5,
        15,
    ),
    // the memory does not grow
    ("memory.size 00 i64.extend_i32_s end", 0, 1),
    ("i32.const 00 memory.grow 00 i64.extend_i32_s end", 0, 1),
    ("i32.const 01 memory.grow 00 i64.extend_i32_s end", 0, -1),
    // the last word of the memory
    (
        "i32.const F8FF03 local.get 00 i64.store 03 00 i32.const F8FF03 i64.load 03 00 end",
        5,
        5,
    ),
    // the lowest byte stands first
    (
        "i32.const 08 local.get 00 i64.store 03 00 i32.const 08 i64.load8_u 00 00 end",
        0x0708,
        0x08,
    ),
    (
        "i32.const 08 local.get 00 i64.store 03 00 i32.const 08 i64.load16_u 01 00 end",
        0x06_0708,
        0x0708,
    ),
    (
        "i32.const 08 local.get 00 i64.store 03 00 i32.const 08 i64.load32_u 02 04 end",
        0x0102_0304_0506_0708,
        0x0102_0304,
    ),
    (
        "i32.const 08 local.get 00 i64.store 03 00 i32.const 07 i64.load16_u 00 00 end",
        0x0708,
        0x0800,
    ),
    // with a sign and without
    (
        "i32.const 08 local.get 00 i64.store 03 00 i32.const 08 i64.load8_s 00 00 end",
        0x80,
        -0x80,
    ),
    (
        "i32.const 08 local.get 00 i64.store 03 00 i32.const 08 i64.load8_u 00 00 end",
        0x80,
        0x80,
    ),
    (
        "i32.const 08 local.get 00 i64.store 03 00 i32.const 08 i64.load16_s 01 00 end",
        0x8000,
        -0x8000,
    ),
    (
        "i32.const 08 local.get 00 i64.store 03 00 i32.const 08 i64.load32_s 02 00 end",
        0x8000_0000,
        -0x8000_0000,
    ),
    (
        "i32.const 08 local.get 00 i64.store 03 00 i32.const 08 i64.load32_u 02 00 end",
        0x8000_0000,
        0x8000_0000,
    ),
    // no more than the width, and only there
    (
        "i32.const 08 local.get 00 i64.store8 00 00 i32.const 08 i64.load 03 00 end",
        -1,
        0xFF,
    ),
    (
        "i32.const 08 local.get 00 i64.store16 01 00 i32.const 08 i64.load 03 00 end",
        -1,
        0xFFFF,
    ),
    (
        "i32.const 08 local.get 00 i64.store32 02 00 i32.const 08 i64.load 03 00 end",
        -1,
        0xFFFF_FFFF,
    ),
    (
        "i32.const 08 local.get 00 i64.store 03 08 i32.const 08 i64.load 03 00 end",
        -1,
        0,
    ),
];

// How the first call of a machine for so many words ends.
fn end_of(
    alloc: Global,
    main: &str,
    words: u8,
    args: &[i64],
    limit: u64,
) -> Result<Option<MachineEnd>, Fail> {
    let mut m = machine(alloc, words, &body(alloc, main)?)?;
    Ok(call(&mut m, args, limit))
}

#[test]
fn results(rt: HostRuntime) -> Result<(), Fail> {
    for (main, a, wanted) in RESULTS {
        let end = end_of(rt.alloc(), main, 99, &[a, 8], 99)?;
        check(&rt, end == Some(MachineEnd::Returned(wanted)), main);
    }
    Ok(())
}

/// A body, how many words and steps there may be, and how it ends on 5 and 8.
const ENDS: [(&str, u8, u64, MachineEnd); 14] = [
    // the frame has nine words, four of its own, four locals and a constant; its end is one step
    ("i64.const 07 end", 9, 1, MachineEnd::Returned(7)),
    ("i64.const 07 end", 9, 0, MachineEnd::StepLimit),
    ("i64.const 07 end", 8, 1, MachineEnd::StackFull),
    ("i64.const 07 end", 8, 0, MachineEnd::StackFull),
    ("i64.const 07 end", 7, 1, MachineEnd::StackFull),
    (
        "local.get 00 local.get 01 i64.sub end",
        99,
        4,
        MachineEnd::Returned(-3),
    ),
    (
        "local.get 00 local.get 01 i64.sub end",
        99,
        3,
        MachineEnd::StepLimit,
    ),
    (
        "loop 40 br 00 end i64.const 07 end",
        99,
        99,
        MachineEnd::StepLimit,
    ),
    // a step is left, which does not grow the memory
    (
        "i32.const 01 memory.grow 00 drop i64.const 07 end",
        99,
        0,
        MachineEnd::StepLimit,
    ),
    (
        "local.get 00 local.get 01 call 02 end",
        99,
        999,
        MachineEnd::StackFull,
    ),
    (
        "unreachable end",
        99,
        9,
        MachineEnd::Trap(TrapKind::Unreachable),
    ),
    // a byte past the memory, and far past the last address
    (
        "i32.const F8FF03 i64.load 03 01 end",
        99,
        9,
        MachineEnd::Trap(TrapKind::OutOfBounds),
    ),
    (
        "i32.const F8FF03 i64.const 01 i64.store 03 01 unreachable end",
        99,
        9,
        MachineEnd::Trap(TrapKind::OutOfBounds),
    ),
    (
        "i32.const 7F i64.load8_s 00 FFFFFFFF0F end",
        99,
        9,
        MachineEnd::Trap(TrapKind::OutOfBounds),
    ),
];

#[test]
fn ends_of_runs(rt: HostRuntime) -> Result<(), Fail> {
    for (main, words, limit, wanted) in ENDS {
        let end = end_of(rt.alloc(), main, words, &[5, 8], limit)?;
        check(&rt, end == Some(wanted), (main, words));
    }
    Ok(())
}

/// A body that takes one from the global, stores it at 0, and divides the first argument by the second.
const COUNTING: &str =
    "global.get 01 i64.const 01 i64.sub global.set 01 i32.const 00 global.get 01 i64.store 03 00 \
    local.get 00 local.get 01 i64.div_s end";

// Whether a further call ends so, and leaves this status.
fn goes_on(m: &mut Machine, args: &[i64], wanted: MachineEnd, status: u32) -> bool {
    call(m, args, 99) == Some(wanted) && m.status() == status
}

#[test]
fn calls_that_follow_one_another(rt: HostRuntime) -> Result<(), Fail> {
    let main = body(rt.alloc(), COUNTING)?;
    let mut m = machine(rt.alloc(), 99, &main)?;
    let by_zero = MachineEnd::Trap(TrapKind::DivideByZero);
    let is_right = goes_on(&mut m, &[7, 2], MachineEnd::Returned(3), 6)
        && goes_on(&mut m, &[5, 0], by_zero, 5)
        && goes_on(&mut m, &[9, -2], MachineEnd::Returned(-4), 4);
    check(&rt, is_right, "calls");
    Ok(())
}
