//! Bytes written as words, and a module whose sections are such words.

use std::alloc::Global;
use std::fmt::Debug;
use std::process::Abort;
use std::test::Fail;
use wb_decode::decode;
use wb_syntax::Module;

/// The opcodes that words name (the standard, 5.4).
const OPCODES: [(&str, u8); 44] = [
    ("unreachable", 0x00),
    ("nop", 0x01),
    ("block", 0x02),
    ("loop", 0x03),
    ("if", 0x04),
    ("else", 0x05),
    ("end", 0x0B),
    ("br", 0x0C),
    ("br_if", 0x0D),
    ("br_table", 0x0E),
    ("return", 0x0F),
    ("call", 0x10),
    ("drop", 0x1A),
    ("select", 0x1B),
    ("local.get", 0x20),
    ("local.set", 0x21),
    ("local.tee", 0x22),
    ("global.get", 0x23),
    ("global.set", 0x24),
    ("i64.load", 0x29),
    ("i64.load8_s", 0x30),
    ("i64.load8_u", 0x31),
    ("i64.load16_s", 0x32),
    ("i64.load16_u", 0x33),
    ("i64.load32_s", 0x34),
    ("i64.load32_u", 0x35),
    ("i64.store", 0x37),
    ("i64.store8", 0x3C),
    ("i64.store16", 0x3D),
    ("i64.store32", 0x3E),
    ("memory.size", 0x3F),
    ("memory.grow", 0x40),
    ("i32.const", 0x41),
    ("i64.const", 0x42),
    ("i64.eqz", 0x50),
    ("i32.sub", 0x6B),
    ("i64.add", 0x7C),
    ("i64.sub", 0x7D),
    ("i64.mul", 0x7E),
    ("i64.div_s", 0x7F),
    ("i64.rem_s", 0x81),
    ("i32.wrap_i64", 0xA7),
    ("i64.extend_i32_s", 0xAC),
    ("i64.extend_i32_u", 0xAD),
];

fn opcode(word: &str) -> Option<u8> {
    for (name, opcode) in &OPCODES {
        if *name == word {
            return Some(*opcode);
        }
    }
    None
}

// A word: behind a ' a name with its length, else an opcode by its name, else bytes in hexadecimal digits.
fn push_word(alloc: Global, out: &mut Vec<u8>, word: &str) -> Result<(), Fail> {
    if let Some(name) = word.strip_prefix('\'') {
        out.push(name.len().min(127) as u8)?;
        out.extend_from_slice(name.as_bytes())?;
    } else if let Some(opcode) = opcode(word) {
        out.push(opcode)?;
    } else {
        out.extend_from_slice(&hex::decode(alloc, word)?)?;
    }
    Ok(())
}

/// Appends the bytes of these words.
pub fn push_words(alloc: Global, out: &mut Vec<u8>, words: &str) -> Result<(), Fail> {
    for word in words.split_whitespace() {
        push_word(alloc, out, word)?;
    }
    Ok(())
}

/// The bytes of these words.
pub fn bytes(alloc: Global, words: &str) -> Result<Vec<u8>, Fail> {
    let mut out = Vec::new(alloc);
    push_words(alloc, &mut out, words)?;
    Ok(out)
}

// Bytes behind their number, which is written in five bytes.
fn push_sized(out: &mut Vec<u8>, contents: &[u8]) -> Result<(), Fail> {
    let mut rest = contents.len();
    for _ in 0..4 {
        out.push((128 + rest % 128) as u8)?;
        rest /= 128;
    }
    out.push((rest % 16) as u8)?;
    out.extend_from_slice(contents)?;
    Ok(())
}

/// The sections of a module, each with its id; of the code section all but the last body.
///
/// The types are () -> () and (i64 i64) -> i64. Function 0 does nothing, function 1 gives its second argument, and function
/// 2 is exported as `main`. Global 0 is a constant i32, global 1 a variable i64, at first 7.
pub const SECTIONS: [(u8, &str); 6] = [
    (1, "02 60 00 00 60 02 7E 7E 01 7E"),
    (3, "03 00 01 01"),
    (5, "01 01 01 02"),
    (6, "02 7F 00 i32.const 00 end 7E 01 i64.const 07 end"),
    (7, "01 'main 00 02"),
    (10, "03 02 00 end 04 00 local.get 01 end"),
];

/// The sections, where the one of this id has these words.
pub fn replaced<'a>(
    alloc: Global,
    sections: &[(u8, &'a str)],
    id: u8,
    words: &'a str,
) -> Result<Vec<(u8, &'a str)>, Fail> {
    let mut out = Vec::new(alloc);
    for (other, kept) in sections {
        out.push((*other, if *other == id { words } else { *kept }))?;
    }
    Ok(out)
}

// What a section has in it, where the last body is this one.
fn contents(alloc: Global, id: u8, words: &str, body: &[u8]) -> Result<Vec<u8>, Fail> {
    let mut contents = bytes(alloc, words)?;
    if id == 10 {
        push_sized(&mut contents, body)?;
    }
    Ok(contents)
}

/// The module of these sections, where the last body is this one, with its locals.
pub fn module_bytes(alloc: Global, sections: &[(u8, &str)], body: &[u8]) -> Result<Vec<u8>, Fail> {
    let mut out = bytes(alloc, "0061736D 01000000")?;
    for (id, words) in sections {
        out.push(*id)?;
        push_sized(&mut out, &contents(alloc, *id, words, body)?)?;
    }
    Ok(out)
}

/// A body of these words, behind two locals: 2 is an i32, 3 an i64.
pub fn body(alloc: Global, words: &str) -> Result<Vec<u8>, Fail> {
    bytes_behind(alloc, "02 01 7F 01 7E", words)
}

/// The bytes of these words behind those of the first ones.
pub fn bytes_behind(alloc: Global, first: &str, words: &str) -> Result<Vec<u8>, Fail> {
    let mut out = bytes(alloc, first)?;
    push_words(alloc, &mut out, words)?;
    Ok(out)
}

/// The module of these sections with a `main` of these words.
pub fn module(alloc: Global, sections: &[(u8, &str)], words: &str) -> Result<Module, Fail> {
    let bytes = module_bytes(alloc, sections, &body(alloc, words)?)?;
    Ok(decode(alloc, &bytes)?)
}

/// Ends the test where something is not right of a row.
pub fn check<R: Debug + Drop>(rt: &impl Abort, is_right: bool, row: R) {
    assert!(rt; is_right, "{row:?}");
}
