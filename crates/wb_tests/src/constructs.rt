//! Bodies of constructs: where each of their instructions leads, and bodies that no bytes spell.

use crate::samples::{SECTIONS, check, module};
use sqlite_items::Items;
use std::alloc::{AllocError, Global};
use std::test::Fail;
use wb_code::jumps;
use wb_syntax::{Func, Instr, NumType};
use wb_valid::{InvalidEnd, Part, validate};

/// An instruction by a letter.
fn instr(letter: char) -> Instr {
    match letter {
        'b' => Instr::Block(None),
        'l' => Instr::Loop(None),
        'i' => Instr::If(None),
        'e' => Instr::Else,
        '.' => Instr::End,
        '1' => Instr::I32Const(1),
        '7' => Instr::I64Const(7),
        'a' => Instr::Binary(0x7C),
        'u' => Instr::Unary(0x7C),
        'x' => Instr::Binary(0xFF),
        's' => Instr::Load(0x36, 0, 0),
        _ => Instr::Nop,
    }
}

/// A body by letters.
fn letters_body(alloc: Global, letters: &str) -> Result<Items<Instr>, AllocError> {
    let mut body = Items::new(alloc);
    for letter in letters.chars() {
        body.push(instr(letter))?;
    }
    Ok(body)
}

/// A body, an index in it, and where the construct there leads: past it, and to the second branch.
const LEADS: [(&str, usize, (usize, usize)); 13] = [
    // a block, an if without else and one with it
    ("bn..", 0, (3, 2)),
    ("in..", 0, (3, 2)),
    ("inen..", 0, (5, 3)),
    ("ie..", 0, (3, 2)),
    // in one another
    ("lbinenn....", 0, (10, 9)),
    ("lbinenn....", 1, (9, 8)),
    ("lbinenn....", 2, (8, 5)),
    // one after another
    ("b.i.l..", 0, (2, 1)),
    ("b.i.l..", 2, (4, 3)),
    ("b.i.l..", 4, (6, 5)),
    // an if in each branch of an if
    ("ii.eie...", 0, (8, 4)),
    ("ii.eie...", 1, (3, 2)),
    ("ii.eie...", 4, (7, 6)),
];

// Where the construct at a place of a body leads.
fn leads(alloc: Global, letters: &str, at: usize) -> Result<Option<(usize, usize)>, Fail> {
    let body = letters_body(alloc, letters)?;
    let found = jumps(alloc, body.as_slice())?;
    Ok(found.get(at).map(|jump| (jump.past, jump.other)))
}

fn count_jumps(alloc: Global, letters: &str) -> Result<usize, Fail> {
    let body = letters_body(alloc, letters)?;
    Ok(jumps(alloc, body.as_slice())?.len())
}

#[test]
fn where_constructs_lead(rt: HostRuntime) -> Result<(), Fail> {
    for (letters, at, wanted) in LEADS {
        let found = leads(rt.alloc(), letters, at)?;
        check(&rt, found == Some(wanted), letters);
    }
    Ok(())
}

/// Bodies that no bytes spell.
const UNSPELLED: [&str; 13] = [
    "", "7", "7..", "7.7", "b7.", "7e.", "be.7.", "1iee.7.", "77u.", "77x.", "1s7.", "e", "ee..",
];

// What is invalid of a module with such a body.
fn with_body(alloc: Global, letters: &str) -> Result<Option<InvalidEnd>, Fail> {
    let body = letters_body(alloc, letters)?;
    let mut m = module(alloc, &SECTIONS, "i64.const 07 end")?;
    m.funcs.push(Func {
        ty: 1,
        locals: Items::new(alloc),
        body,
    })?;
    Ok(validate(alloc, m).err())
}

// What is invalid of a module with a global that begins so.
fn with_global(alloc: Global, letters: &str) -> Result<Option<InvalidEnd>, Fail> {
    let init = letters_body(alloc, letters)?;
    let mut m = module(alloc, &SECTIONS, "i64.const 07 end")?;
    m.globals.push(wb_syntax::Global {
        ty: NumType::I64,
        mutable: false,
        init,
    })?;
    Ok(validate(alloc, m).err())
}

#[test]
fn code_that_no_bytes_spell(rt: HostRuntime) -> Result<(), Fail> {
    for letters in UNSPELLED {
        check(
            &rt,
            count_jumps(rt.alloc(), letters)? == letters.len(),
            letters,
        );
        let end = with_body(rt.alloc(), letters)?;
        check(
            &rt,
            end == Some(InvalidEnd::Invalid(Part::Body(3))),
            letters,
        );
        let end = with_global(rt.alloc(), letters)?;
        check(
            &rt,
            end == Some(InvalidEnd::Invalid(Part::GlobalInit(2))),
            letters,
        );
    }
    Ok(())
}
