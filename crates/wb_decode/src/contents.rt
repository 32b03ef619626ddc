//! The contents of all sections, and the module that they make (the standard, 5.5.15).

ghost use Rattle.std.specs.Prelude.{◌≡◌, [], map, reverse, IfOk, OnOk, MatchOption, Some, None};
ghost use Rattle.wb_syntax.specs.Binary.{gather, gathered, joined, module_of};
ghost use Rattle.wb_decode.specs.Sections.{section_of, gathered_of, gather_all, Keeps};

use crate::codes::Code;
use crate::sections::Section;
use sqlite_items::Items;
use std::alloc;
use std::alloc::AllocError;
use wb_syntax::{Export, Func, FuncType, Global, Limits, Module};

/// The contents of sections: a module without a section has nothing of its kind.
#[derive(Drop)]
pub struct Contents {
    pub types: Items<FuncType>,
    pub func_types: Items<u32>,
    pub memories: Items<Limits>,
    pub globals: Items<Global>,
    pub exports: Items<Export>,
    pub codes: Items<Code>,
}

// Adds the contents of a section, in place of what is there of its kind.
fn add(contents: &mut Contents, section: Section)
    ensures { gathered_of contents.new ≡ gather (section_of section) (gathered_of contents.old) }
{
    match section {
        Section::Custom => {}
        Section::Types(types) => contents.types = types,
        Section::FuncTypes(types) => contents.func_types = types,
        Section::Memories(memories) => contents.memories = memories,
        Section::Globals(globals) => contents.globals = globals,
        Section::Exports(exports) => contents.exports = exports,
        Section::Codes(codes) => contents.codes = codes,
    }
}

// Nothing.
fn nothing(alloc: alloc::Global) -> Contents
    ensures { gathered_of result ≡ gathered [] }
{
    Contents {
        types: Items::new(alloc),
        func_types: Items::new(alloc),
        memories: Items::new(alloc),
        globals: Items::new(alloc),
        exports: Items::new(alloc),
        codes: Items::new(alloc),
    }
}

/// Keeps a section behind those that were read before: a custom one has no contents.
pub fn keep(sections: &mut Items<Section>, section: Section) -> Result<(), AllocError>
    ensures { OnOk result (Keeps sections.old section sections.new) }
{
    match section {
        Section::Custom => Ok(()),
        section => sections.push(section),
    }
}

/// The contents of these sections.
pub fn gathered(alloc: alloc::Global, sections: Items<Section>) -> Contents
    ensures { gathered_of result ≡ gather_all (map section_of sections) (gathered []) }
{
    let mut contents = nothing(alloc);
    let mut sections = sections;
    while let Some(section) = sections.pop() {
        add(&mut contents, section);
    }
    contents
}

// The items from the last to the first.
fn reversed<T: Drop>(alloc: alloc::Global, items: Items<T>) -> Result<Items<T>, AllocError>
    ensures { IfOk result (λ back. back ≡ reverse items) }
{
    let mut items = items;
    let mut back = Items::new(alloc);
    while let Some(item) = items.pop() {
        back.push(item)?;
    }
    Ok(back)
}

// Each function with its code, where there are as many of both; the codes come from the last to the first.
fn functions(
    alloc: alloc::Global,
    types: &[u32],
    codes: Items<Code>,
) -> Result<Option<Items<Func>>, AllocError>
    ensures { IfOk result (λ funcs. MatchOption funcs (joined types.now (reverse codes) ≡ None) (λ fs. joined types.now (reverse codes) ≡ Some fs)) }
{
    let mut codes = codes;
    let mut funcs = Items::new(alloc);
    for ty in types {
        let Some((locals, body)) = codes.pop() else {
            return Ok(None);
        };
        let ty = *ty;
        funcs.push(Func { ty, locals, body })?;
    }
    if codes.is_empty() {
        Ok(Some(funcs))
    } else {
        Ok(None)
    }
}

/// The module with these contents, where the numbers of functions and of bodies agree.
pub fn module(alloc: alloc::Global, contents: Contents) -> Result<Option<Module>, AllocError>
    ensures { IfOk result (λ m. m ≡ module_of (gathered_of contents)) }
{
    let Contents {
        types,
        func_types,
        memories,
        globals,
        exports,
        codes,
    } = contents;
    let codes = reversed(alloc, codes)?;
    match functions(alloc, func_types.as_slice(), codes)? {
        None => Ok(None),
        Some(funcs) => Ok(Some(Module {
            types,
            funcs,
            memories,
            globals,
            exports,
        })),
    }
}
