//! Which bytes are read, and which are written, by the standard's section 5.

use crate::samples::{SECTIONS, body, bytes, bytes_behind, check, module_bytes};
use std::alloc::Global;
use std::mem::size_of;
use std::test::Fail;
use wb_decode::{DecodeEnd, What, decode};
use wb_encode::encode;
use wb_syntax::{Instr, Module};
use wb_valid::validate;

/// The header of a module.
const HEADER: &str = "0061736D 01000000";

/// The header, and the type, function and export sections of one function () -> i64 that is exported as `main`.
const FRONT: &str = "0061736D 01000000 01 05 01 60 00 01 7E 03 02 01 00 07 08 01 'main 00 00";

/// What is read behind a front, and what is written behind it, with numbers in their fewest bytes, no custom section
/// and no empty one, or why it is refused.
const READ: [(&str, &str, Result<&str, DecodeEnd>); 21] = [
    // i64.const 7 in the fewest bytes, with padded numbers and a custom section, and with the longest constant
    (
        FRONT,
        "0A 06 01 04 00 i64.const 07 end",
        Ok("0A 06 01 04 00 i64.const 07 end"),
    ),
    (
        FRONT,
        "0A 8A80808000 01 08 00 i64.const 8780808000 end 00 02 'x",
        Ok("0A 06 01 04 00 i64.const 07 end"),
    ),
    (
        FRONT,
        "0A 0F 01 0D 00 i64.const 87808080808080808000 end",
        Ok("0A 06 01 04 00 i64.const 07 end"),
    ),
    // an index of five bytes, which is the most
    (
        FRONT,
        "0A 0A 01 08 00 call 8080808000 end",
        Ok("0A 06 01 04 00 call 00 end"),
    ),
    // bodies that have no type
    (
        FRONT,
        "0A 07 01 05 00 unreachable i32.const 00 end",
        Ok("0A 07 01 05 00 unreachable i32.const 00 end"),
    ),
    (FRONT, "0A 8400 01 02 00 end", Ok("0A 04 01 02 00 end")),
    // a loop without an end
    (
        FRONT,
        "0A 0B 01 09 00 loop 40 br 00 end i64.const 07 end",
        Ok("0A 0B 01 09 00 loop 40 br 00 end i64.const 07 end"),
    ),
    // operands of each kind
    (
        FRONT,
        "0A 18 01 16 00 br_table 8100 00 8100 i64.load 8300 8001 local.get 8500 block 7E i32.const FF7F end end",
        Ok(
            "0A 13 01 11 00 br_table 01 00 01 i64.load 03 8001 local.get 05 block 7E i32.const 7F end end",
        ),
    ),
    // each section: a type (i64) -> (), a function of it with 200 locals, from 1 page to 128, a variable at -1, and the memory as m
    (
        HEADER,
        "00 01 00 01 05 01 60 01 7E 00 03 02 01 00 00 01 00 05 05 01 01 01 8001 06 06 01 7E 01 i64.const 7F end 07 05 01 'm 02 00 0A 08 01 06 01 C88100 7F end",
        Ok(
            "01 05 01 60 01 7E 00 03 02 01 00 05 05 01 01 01 8001 06 06 01 7E 01 i64.const 7F end 07 05 01 'm 02 00 0A 07 01 05 01 C801 7F end",
        ),
    ),
    // sections with nothing in them
    (
        HEADER,
        "01 01 00 03 01 00 05 01 00 06 01 00 07 01 00 0A 01 00",
        Ok(""),
    ),
    (HEADER, "01 02 8000 0A 8100 00", Ok("")),
    (HEADER, "", Ok("")),
    // a name of two bytes that is one letter
    (
        HEADER,
        "05 04 01 00 8000 07 86808000 01 02 C3A9 02 00",
        Ok("05 03 01 00 00 07 06 01 02 C3A9 02 00"),
    ),
    // a constant of eleven bytes, and one whose last byte has more than its sign
    (
        FRONT,
        "0A 10 01 0E 00 i64.const 8780808080808080808000 end",
        Err(DecodeEnd::Malformed(29)),
    ),
    (
        FRONT,
        "0A 0F 01 0D 00 i64.const 8080808080808080807E end",
        Err(DecodeEnd::Malformed(29)),
    ),
    (
        FRONT,
        "0A 0A 01 08 00 i32.const FFFFFFFF0F end",
        Err(DecodeEnd::Malformed(29)),
    ),
    // an index of six bytes, and one of 2^32
    (
        FRONT,
        "0A 0B 01 09 00 call 808080808000 end",
        Err(DecodeEnd::Malformed(29)),
    ),
    (
        FRONT,
        "0A 0A 01 08 00 call 8080808010 end",
        Err(DecodeEnd::Malformed(29)),
    ),
    // an instruction of floating point
    (
        FRONT,
        "0A 05 01 03 00 A0 end",
        Err(DecodeEnd::Outside(29, What::Float)),
    ),
    // a section of five bytes that promises 2^32 - 1 types, and a body with 2^32 locals
    (HEADER, "01 05 FFFFFFFF0F", Err(DecodeEnd::Malformed(8))),
    (
        FRONT,
        "0A 0E 01 0C 02 FFFFFFFF0F 7E 01 7E i64.const 07 end",
        Err(DecodeEnd::Malformed(29)),
    ),
];

/// What the encoder makes of the module that the bytes are.
pub fn rewritten(alloc: Global, bytes: &[u8]) -> Result<Vec<u8>, DecodeEnd> {
    let module = match decode(alloc, bytes) {
        Ok(module) => module,
        Err(end) => return Err(end),
    };
    match encode(alloc, &module) {
        Ok(out) => Ok(out),
        Err(_) => Err(DecodeEnd::NoMemory),
    }
}

// Whether these bytes are written so.
fn is_written(alloc: Global, given: &[u8], wanted: &[u8]) -> Result<bool, Fail> {
    let out = rewritten(alloc, given)?;
    Ok(out.as_slice() == wanted)
}

// Whether what is read behind a front is answered so.
fn is_answered(
    alloc: Global,
    front: &str,
    read: &str,
    wanted: Result<&str, DecodeEnd>,
) -> Result<bool, Fail> {
    let given = bytes_behind(alloc, front, read)?;
    match wanted {
        Ok(words) => is_written(alloc, &given, &bytes_behind(alloc, front, words)?),
        Err(end) => Ok(decode(alloc, &given).err() == Some(end)),
    }
}

#[test]
fn bytes_that_are_read(rt: HostRuntime) -> Result<(), Fail> {
    for (front, read, wanted) in READ {
        check(&rt, is_answered(rt.alloc(), front, read, wanted)?, read);
    }
    Ok(())
}

/// Constants, in a spelling that is longer than it has to be where there is one, and as they are written behind the locals.
const CONSTANTS: [(i64, &str, &str); 9] = [
    (0, "i64.const 8000 end", "7E i64.const 00 end"),
    (63, "i64.const BF00 end", "7E i64.const 3F end"),
    (64, "i64.const C0808000 end", "7E i64.const C000 end"),
    (-64, "i64.const C07F end", "7E i64.const 40 end"),
    (
        -65,
        "i64.const BFFFFFFFFFFFFFFFFF7F end",
        "7E i64.const BF7F end",
    ),
    (-128, "i64.const 80FF7F end", "7E i64.const 807F end"),
    (-123456, "i64.const C0BBF87F end", "7E i64.const C0BB78 end"),
    (
        i64::MAX,
        "i64.const FFFFFFFFFFFFFFFFFF00 end",
        "7E i64.const FFFFFFFFFFFFFFFFFF00 end",
    ),
    (
        i64::MIN,
        "i64.const 8080808080808080807F end",
        "7E i64.const 8080808080808080807F end",
    ),
];

// The constant with which the body of function 2 begins.
fn constant(module: &Module) -> Option<i64> {
    let func = module.funcs.get(2)?;
    match func.body.get(0)? {
        Instr::I64Const(z) => Some(*z),
        _ => None,
    }
}

// Whether the constant is read so.
fn is_read(alloc: Global, z: i64, bytes: &[u8]) -> Result<bool, Fail> {
    let module = decode(alloc, bytes)?;
    Ok(constant(&module) == Some(z))
}

// Whether what is written ends so.
fn is_written_behind(alloc: Global, given: &[u8], wanted: &str) -> Result<bool, Fail> {
    let out = rewritten(alloc, given)?;
    Ok(out.ends_with(&bytes(alloc, wanted)?))
}

// Whether the constant is read so, and what is written ends so.
fn is_spelled(alloc: Global, z: i64, read: &str, wanted: &str) -> Result<bool, Fail> {
    let given = module_bytes(alloc, &SECTIONS, &body(alloc, read)?)?;
    Ok(is_read(alloc, z, &given)? && is_written_behind(alloc, &given, wanted)?)
}

#[test]
fn signed_constants(rt: HostRuntime) -> Result<(), Fail> {
    for (z, read, wanted) in CONSTANTS {
        check(&rt, is_spelled(rt.alloc(), z, read, wanted)?, z);
    }
    Ok(())
}

/// Where a cut of the module to so many bytes is malformed, or None where it is a module.
fn fault_of_cut(n: usize) -> Option<DecodeEnd> {
    match n {
        0..=7 => Some(DecodeEnd::Malformed(0)),
        9..=14 => Some(DecodeEnd::Malformed(8)),
        16..=18 => Some(DecodeEnd::Malformed(15)),
        19..=28 => Some(DecodeEnd::Malformed(19)),
        29..=36 => Some(DecodeEnd::Malformed(29)),
        _ => None,
    }
}

#[test]
fn cuts_of_a_module(rt: HostRuntime) -> Result<(), Fail> {
    let bytes = bytes_behind(rt.alloc(), FRONT, "0A 06 01 04 00 i64.const 07 end")?;
    assert_eq!(rt; bytes.len(), 37);
    for n in 0..38 {
        let end = decode(rt.alloc(), &bytes.as_slice()[..n]).err();
        check(&rt, end == fault_of_cut(n), n);
    }
    Ok(())
}

// Blocks in one another, as many as this, with a constant in the innermost one.
fn nest(alloc: Global, depth: u32) -> Result<Vec<u8>, Fail> {
    let mut code = body(alloc, "")?;
    for _ in 0..depth {
        code.extend_from_slice(&[0x02, 0x7E])?;
    }
    code.extend_from_slice(&[0x42, 0x07])?;
    for _ in 0..=depth {
        code.push(0x0B)?;
    }
    Ok(code)
}

// Whether the bytes are those of a valid module whose function 2 has so many instructions.
fn is_valid_with(alloc: Global, bytes: &[u8], count: usize) -> Result<bool, Fail> {
    let module = decode(alloc, bytes)?;
    let found = module.funcs.get(2).map(|func| func.body.len());
    Ok(validate(alloc, module).is_ok() && found == Some(count))
}

#[test]
fn deep_nesting(rt: HostRuntime) -> Result<(), Fail> {
    let alloc = rt.alloc();
    let bytes = module_bytes(alloc, &SECTIONS, &nest(alloc, 100_000)?)?;
    let out = rewritten(alloc, &bytes)?;
    check(
        &rt,
        is_valid_with(alloc, &bytes, 200_002)?,
        "as it was made",
    );
    check(
        &rt,
        is_valid_with(alloc, &out, 200_002)?,
        "as it was written",
    );
    check(&rt, size_of::<Instr>() <= 40, "size of an instruction");
    Ok(())
}
