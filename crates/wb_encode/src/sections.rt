//! Sections (the standard, 5.5.2), each with its size before its contents.
ghost use Rattle.std.specs.Prelude.{◌≡◌, ◌++◌, [], ◌∷◌, length, map, OnOk};
ghost use Rattle.wb_syntax.specs.Grammar.{index};
ghost use Rattle.wb_encode.specs.Appended.{Written, Every, VecSpelled, SizedSpelled, SectionSpelled};
ghost use Rattle.wb_encode.specs.Encodable.{IsCode, SpellsCode, types_of};

use crate::numbers::push_length;
use crate::spelling::{Spell, push_each, push_vec};
use std::alloc::{AllocError, Global};
use wb_syntax::Func;

/// Writes a section with these parts, or nothing where there are none.
pub fn push_section<T: Spell>(
    alloc: Global,
    out: &mut Vec<u8>,
    id: u8,
    parts: &[T],
) -> Result<(), AllocError>
    requires { Every T.is_encodable parts.now }
    ensures { OnOk result (Written out.old.items out.new.items (SectionSpelled id T.spells parts.now)) }
{
    if parts.is_empty() {
        return Ok(());
    }
    let mut contents = Vec::new(alloc);
    push_vec(&mut contents, parts)?;
    out.push(id)?;
    push_sized(out, &contents)?;
    Ok(())
}

/// Writes the section of the functions' types, or nothing where there are no functions.
pub fn push_type_indices(alloc: Global, out: &mut Vec<u8>, funcs: &[Func]) -> Result<(), AllocError>
    ensures { OnOk result (Written out.old.items out.new.items (SectionSpelled 3 index.Is (types_of funcs.now))) }
{
    let types: Vec<u32> = funcs.iter().map(|f| f.ty).collect(alloc)?;
    push_section(alloc, out, 3, &types)?;
    Ok(())
}

/// Writes the size of contents, and the contents.
pub fn push_sized(out: &mut Vec<u8>, contents: &Vec<u8>) -> Result<(), AllocError>
    ensures { OnOk result (Written out.old.items out.new.items (λ bytes. SizedSpelled (λ inner. inner ≡ contents.now.items) bytes)) }
{
    push_length(out, contents.len())?;
    out.extend_from_slice(contents)?;
    Ok(())
}

impl Spell for Func {
    ghost is_encodable = { IsCode };

    ghost spells = { SpellsCode };

    fn push_to(&self, out: &mut Vec<u8>) -> Result<(), AllocError> {
        let mut contents = Vec::new(*out.allocator());
        push_vec(&mut contents, self.locals.as_slice())?;
        push_each(&mut contents, self.body.as_slice())?;
        push_sized(out, &contents)?;
        Ok(())
    }
}
