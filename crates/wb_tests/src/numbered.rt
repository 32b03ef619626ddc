//! Modules by number, written again.

use crate::samples::{check, module_bytes, push_words};
use crate::spelling::rewritten;
use std::alloc::Global;
use std::test::Fail;

/// Numbers that follow from a first one.
#[derive(Drop)]
struct Numbers {
    state: u64,
}

impl Numbers {
    /// The next number below 256.
    fn next(&mut self) -> u8 {
        self.state = self
            .state
            .wrapping_mul(6_364_136_223_846_793_005)
            .wrapping_add(1_442_695_040_888_963_407);
        (self.state >> 56) as u8
    }
}

/// Instructions, some of which are longer than they have to be.
const INSTRUCTIONS: [&str; 16] = [
    "i64.const 8A8000",
    "i64.const 808080808080808000",
    "i32.const CA7F",
    "i32.const B5FFFFFF7F",
    "block 40 nop end",
    "loop 7E br 8000 end",
    "if 7E nop else return end",
    "if 40 end",
    "local.get 9100",
    "local.tee 80808000",
    "global.set 82808000",
    "i64.load 8300 9F01",
    "i64.store8 80808000 8080808008",
    "br_table 8200 9F00 00 01",
    "memory.grow 00",
    "i64.add",
];

/// Sections whose numbers are longer than they have to be, with custom ones between them.
const PADDED: [(u8, &str); 8] = [
    (1, "01 60 8100 7E 01 7E"),
    (0, "01 78 99"),
    (3, "01 8000"),
    (5, "01 01 D300 FF01"),
    (6, "01 7E 01 i64.const 938000 end"),
    (7, "01 02 C3A9 00 8000"),
    (10, "8100"),
    (0, "00"),
];

// A module by number.
fn module_by(alloc: Global, seed: u64) -> Result<Vec<u8>, Fail> {
    let mut numbers = Numbers { state: seed };
    let mut body = Vec::from_slice(alloc, &[0x01, 0x83, 0x00, 0x7E])?;
    for _ in 0..numbers.next() {
        let instruction = INSTRUCTIONS[usize::from(numbers.next() % 16)];
        push_words(alloc, &mut body, instruction)?;
    }
    body.push(0x0B)?;
    module_bytes(alloc, &PADDED, &body)
}

// Whether it is written shorter, and that alike when it is written again.
fn is_written_alike(alloc: Global, seed: u64) -> Result<bool, Fail> {
    let bytes = module_by(alloc, seed)?;
    let out = rewritten(alloc, &bytes)?;
    let again = rewritten(alloc, &out)?;
    Ok(out.len() < bytes.len() && again.as_slice() == out.as_slice())
}

#[test]
fn modules_by_number(rt: HostRuntime) -> Result<(), Fail> {
    for seed in 0..300 {
        check(&rt, is_written_alike(rt.alloc(), seed)?, seed);
    }
    Ok(())
}
