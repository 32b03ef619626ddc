//! Bodies that have a type and bodies that have none, and modules of which one part is wrong.

use crate::samples::{SECTIONS, check, module, replaced};
use std::alloc::Global;
use std::test::Fail;
use wb_valid::{InvalidEnd, Part, validate};

/// Bodies of type (i64 i64) -> i64, one in each line.
const TYPED: &str = "\
    i64.const 00 end
    nop local.get 00 end
    local.get 03 end
    i32.const 00 local.tee 02 drop i64.const 00 end
    local.get 00 local.set 00 i64.const 00 end
    unreachable end
    unreachable i64.const 00 end
    unreachable drop end
    i32.const 00 drop i64.const 00 end
    i64.const 00 i64.const 00 i32.const 00 select end
    unreachable select end
    unreachable select select drop end
    unreachable i64.const 00 i32.const 00 select end
    block 40 end i64.const 00 end
    block 7E i64.const 00 end end
    block 7E i64.const 00 br 00 end end
    block 7E i64.const 00 br 01 end end
    block 7E i64.const 00 i32.const 00 br_if 00 end end
    loop 40 br 00 end i64.const 00 end
    loop 7E br 00 end end
    i32.const 00 if 40 end i64.const 00 end
    i32.const 00 if 40 else end i64.const 00 end
    i32.const 00 if 7E i64.const 00 else i64.const 00 end end
    i32.const 00 if 7E i64.const 00 return else unreachable end end
    i64.const 00 i32.const 00 br_table 02 00 00 00 end
    block 7E i64.const 00 i32.const 00 br_table 02 00 01 00 end end
    i64.const 00 return i64.const 00 end
    call 00 i64.const 00 end
    i64.const 00 i64.const 00 call 01 end
    unreachable call 01 end
    i32.const 00 i64.load 03 00 end
    i32.const 00 i64.load32_s 02 00 end
    i32.const 00 i64.const 00 i64.store 03 00 i64.const 00 end
    memory.size 00 drop i64.const 00 end
    i32.const 00 memory.grow 00 drop i64.const 00 end
    global.get 01 end
    i64.const 00 global.set 01 i64.const 00 end
    i64.const 00 i64.const 00 i64.add end
    i64.const 00 i64.eqz i64.extend_i32_s end
    i64.const 00 i32.wrap_i64 drop i64.const 00 end
    i32.const 00 local.set 02 i64.const 00 end";

/// Bodies that are not of this type.
const UNTYPED: &str = "\
    end
    i32.const 00 end
    i64.const 00 i64.const 00 end
    unreachable i32.const 00 end
    unreachable i64.const 00 i64.const 00 end
    return i32.const 00 end
    drop i64.const 00 end
    i64.const 00 i32.const 00 i32.const 00 select end
    i64.const 00 i64.const 00 i64.const 00 select end
    i64.const 00 i32.const 00 select end
    unreachable i64.const 00 i32.const 00 i32.const 00 select end
    block 40 i64.const 00 end i64.const 00 end
    block 7E end end
    block 7E i32.const 00 end end
    i64.const 00 block 40 drop end end
    block 7E br 00 end end
    block 7E i32.const 00 br_if 00 i64.const 00 end end
    block 7E i64.const 00 br_if 00 i64.const 00 end end
    i64.const 00 br 01 end
    loop 7E end end
    if 40 end i64.const 00 end
    i64.const 00 if 40 end i64.const 00 end
    i32.const 00 if 7E i64.const 00 end end
    i32.const 00 if 7E i64.const 00 else end end
    i32.const 00 if 7E i32.const 00 else i64.const 00 end end
    i32.const 00 if 40 i64.const 00 else end i64.const 00 end
    i32.const 00 br_table 02 00 00 00 end
    i64.const 00 i64.const 00 br_table 02 00 00 00 end
    block 40 i64.const 00 i32.const 00 br_table 02 00 01 00 end i64.const 00 end
    unreachable block 40 unreachable br_table 02 00 01 00 end end
    i64.const 00 call 01 end
    i32.const 00 i64.const 00 call 01 end
    unreachable i32.const 00 call 01 end
    call 03 i64.const 00 end
    local.get 04 end
    local.get 02 end
    global.get 02 end
    i32.const 00 global.set 00 i64.const 00 end
    i32.const 00 i64.load 04 00 end
    i32.const 00 i64.load32_s 03 00 end
    i64.const 00 i64.load 03 00 end
    i64.const 00 i32.const 00 i64.store 03 00 i64.const 00 end
    i32.const 00 i64.const 00 i64.store8 01 00 i64.const 00 end
    i32.const 00 i64.const 00 i64.add end
    block 7E i32.const 00 br 00 end end
    block 40 i64.const 00 br_if 00 end i64.const 00 end
    block 7E i32.const 00 i32.const 00 br_if 00 end end
    i32.const 00 i32.const 00 br_table 02 00 00 00 end
    i32.const 00 return end
    i64.const 00 i32.const 00 call 01 end
    i32.const 00 local.set 00 i64.const 00 end
    i64.const 00 local.set 02 i64.const 00 end
    i64.const 00 local.tee 02 drop i64.const 00 end
    i32.const 00 global.set 01 i64.const 00 end
    i64.const 00 memory.grow 00 drop i64.const 00 end
    i64.const 00 i64.const 00 i64.store 03 00 i64.const 00 end
    i32.const 00 i32.const 00 i64.store 03 00 i64.const 00 end
    i32.const 00 i64.eqz i64.extend_i32_s end
    i32.const 00 i32.wrap_i64 drop i64.const 00 end
    i64.const 00 i64.extend_i32_s end
    i64.const 00 i32.const 00 i64.add end";

/// Bodies that are of this type only where there is a memory.
const OF_MEMORY: &str = "\
    i32.const 00 i64.load 03 00 end
    i32.const 00 i64.const 00 i64.store 03 00 i64.const 00 end
    memory.size 00 drop i64.const 00 end
    i32.const 00 memory.grow 00 drop i64.const 00 end";

// What is invalid of the module of these sections with a `main` of these words.
fn verdict(alloc: Global, sections: &[(u8, &str)], main: &str) -> Result<Option<InvalidEnd>, Fail> {
    Ok(validate(alloc, module(alloc, sections, main)?).err())
}

fn invalid(part: Option<Part>) -> Option<InvalidEnd> {
    part.map(InvalidEnd::Invalid)
}

// The first of these bodies of `main` with which not this part is wrong.
fn first_other(
    alloc: Global,
    sections: &[(u8, &str)],
    bodies: &'static str,
    wrong: Option<Part>,
) -> Result<Option<&'static str>, Fail> {
    for main in bodies.lines() {
        if verdict(alloc, sections, main)? != invalid(wrong) {
            return Ok(Some(main));
        }
    }
    Ok(None)
}

#[test]
fn bodies(rt: HostRuntime) -> Result<(), Fail> {
    let other = first_other(rt.alloc(), &SECTIONS, TYPED, None)?;
    check(&rt, other.is_none(), other);
    let other = first_other(rt.alloc(), &SECTIONS, UNTYPED, Some(Part::Body(2)))?;
    check(&rt, other.is_none(), other);
    let sections = replaced(rt.alloc(), &SECTIONS, 5, "00")?;
    let other = first_other(rt.alloc(), &sections, OF_MEMORY, Some(Part::Body(2)))?;
    check(&rt, other.is_none(), other);
    Ok(())
}

/// Sections by id, one in each line, each in place of one of a valid module, and the part that is then wrong.
const REPLACED: [(u8, &str, Option<Part>); 7] = [
    (5, MEMORIES, None),
    (5, WRONG_LIMITS, Some(Part::MemoryLimits)),
    (5, "02 00 00 00 00", Some(Part::Memories)),
    (6, GLOBALS, None),
    (6, WRONG_GLOBALS, Some(Part::GlobalInit(2))),
    (7, EXPORTS, None),
    (7, WRONG_EXPORTS, Some(Part::ExportOf(1))),
];

/// The greatest sizes of a memory, and the least.
const MEMORIES: &str = "\
    01 00 00
    01 00 808004
    01 01 00 00
    01 01 808004 808004";

/// Sizes past the greatest, and ones out of order.
const WRONG_LIMITS: &str = "\
    01 00 818004
    01 01 00 818004
    01 01 02 01";

/// A third global with a constant of its type.
const GLOBALS: &str = "\
    03 7F 00 4100 end 7E 01 4207 end 7F 01 i32.const 00 end
    03 7F 00 4100 end 7E 01 4207 end 7E 01 i64.const 00 end";

/// A third global with another value, with none, with two, and with one that is no constant.
const WRONG_GLOBALS: &str = "\
    03 7F 00 4100 end 7E 01 4207 end 7E 01 i32.const 00 end
    03 7F 00 4100 end 7E 01 4207 end 7F 01 i64.const 00 end
    03 7F 00 4100 end 7E 01 4207 end 7F 01 end
    03 7F 00 4100 end 7E 01 4207 end 7F 01 i32.const 00 i32.const 00 end
    03 7F 00 4100 end 7E 01 4207 end 7E 01 global.get 01 end
    03 7F 00 4100 end 7E 01 4207 end 7E 01 i64.const 00 i64.const 00 i64.add end";

/// A second export by another name.
const EXPORTS: &str = "\
    02 'main 00 02 ' 00 01
    02 'main 00 02 'maim 00 02
    02 'main 00 02 'm 02 00
    02 'main 00 02 'g 03 01";

/// A second export by the same name, and ones of what there is not.
const WRONG_EXPORTS: &str = "\
    02 'main 00 02 'main 00 02
    02 'main 00 02 'main 02 00
    02 'main 00 02 'f 00 03
    02 'main 00 02 'm 02 01
    02 'main 00 02 'g 03 02";

/// A body of type (i64 i64) -> i64.
const RIGHT: &str = "i64.const 00 end";

// The first of these sections with which not this part is wrong.
fn first_other_section(
    alloc: Global,
    id: u8,
    texts: &'static str,
    wrong: Option<Part>,
) -> Result<Option<&'static str>, Fail> {
    for words in texts.lines() {
        let sections = replaced(alloc, &SECTIONS, id, words)?;
        if verdict(alloc, &sections, RIGHT)? != invalid(wrong) {
            return Ok(Some(words));
        }
    }
    Ok(None)
}

#[test]
fn wrong_parts(rt: HostRuntime) -> Result<(), Fail> {
    for (id, texts, wrong) in REPLACED {
        let other = first_other_section(rt.alloc(), id, texts, wrong)?;
        check(&rt, other.is_none(), other);
    }
    Ok(())
}

/// Sections by id that are replaced one after another, and the first part that is wrong once they are.
const ONE_BY_ONE: [(u8, &str, Part); 7] = [
    (10, "03 02 00 end 04 00 local.get 01 end", Part::Body(2)),
    (10, "03 02 00 end 02 00 end", Part::Body(1)),
    (
        7,
        "03 'main 00 02 'main 00 09 'main 00 09",
        Part::ExportOf(1),
    ),
    (
        6,
        "03 7F 00 4100 end 7E 01 4207 end 7E 00 i32.const 00 end",
        Part::GlobalInit(2),
    ),
    (5, "01 01 03 02", Part::MemoryLimits),
    (5, "02 01 03 02 00 00", Part::Memories),
    (3, "03 01 02 02", Part::FuncType(1)),
];

#[test]
fn order_of_parts(rt: HostRuntime) -> Result<(), Fail> {
    let mut sections = replaced(rt.alloc(), &SECTIONS, 5, "00")?;
    for (id, words, wrong) in ONE_BY_ONE {
        sections = replaced(rt.alloc(), &sections, id, words)?;
        let end = verdict(rt.alloc(), &sections, "end")?;
        check(&rt, end == invalid(Some(wrong)), words);
    }
    Ok(())
}
