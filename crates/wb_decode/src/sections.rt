//! Sections (the standard, 5.5.2 to 5.5.14).

ghost use Rattle.std.specs.Prelude.{◌≡◌, ◌<◌, ◌≤◌, length, IfOk};
ghost use Rattle.wb_syntax.specs.Grammar.{mapped, sized, vec, index, among, by_byte};
ghost use Rattle.wb_syntax.specs.Binary.{func_type, limits, global, export, code, custom, by_id, in_order, last_after};
ghost use Rattle.wb_syntax.specs.Binary as binary;
ghost use Rattle.wb_decode.specs.Reading.{Reading};
ghost use Rattle.wb_decode.specs.Sections.{section_of};

use crate::codes::Code;
use crate::ends::{Fault, What};
use crate::exports::name;
use crate::numbers::first;
use crate::vectors::{cut, sized_vector};
use sqlite_items::Items;
use std::alloc;
use wb_syntax::{Export, FuncType, Global, Limits};

/// A section, as far as modules keep it.
#[derive(Drop)]
pub enum Section {
    Custom,
    Types(Items<FuncType>),
    FuncTypes(Items<u32>),
    Memories(Items<Limits>),
    Globals(Items<Global>),
    Exports(Items<Export>),
    Codes(Items<Code>),
}

// A custom section behind its id (5.5.3): the name is read, the rest passed over.
fn custom(bytes: &[u8]) -> Result<(Section, &[u8]), Fault>
    ensures { Reading (λ x. (section_of x.0, x.1.now)) custom bytes.now result }
{
    let (contents, rest) = cut(bytes)?;
    let (_, _) = name(contents)?;
    Ok((Section::Custom, rest))
}

// The type section behind its id (5.5.4).
fn types(alloc: alloc::Global, bytes: &[u8]) -> Result<(Section, &[u8]), Fault>
    ensures { Reading (λ x. (section_of x.0, x.1.now)) (mapped binary.Types (sized (vec func_type))) bytes.now result }
{
    let (types, rest) = sized_vector(alloc, bytes)?;
    Ok((Section::Types(types), rest))
}

// The function section behind its id (5.5.6).
fn func_types(alloc: alloc::Global, bytes: &[u8]) -> Result<(Section, &[u8]), Fault>
    ensures { Reading (λ x. (section_of x.0, x.1.now)) (mapped binary.FuncTypes (sized (vec index))) bytes.now result }
{
    let (types, rest) = sized_vector(alloc, bytes)?;
    Ok((Section::FuncTypes(types), rest))
}

// The memory section behind its id (5.5.8).
fn memories(alloc: alloc::Global, bytes: &[u8]) -> Result<(Section, &[u8]), Fault>
    ensures { Reading (λ x. (section_of x.0, x.1.now)) (mapped binary.Memories (sized (vec limits))) bytes.now result }
{
    let (memories, rest) = sized_vector(alloc, bytes)?;
    Ok((Section::Memories(memories), rest))
}

// The global section behind its id (5.5.9).
fn globals(alloc: alloc::Global, bytes: &[u8]) -> Result<(Section, &[u8]), Fault>
    ensures { Reading (λ x. (section_of x.0, x.1.now)) (mapped binary.Globals (sized (vec global))) bytes.now result }
{
    let (globals, rest) = sized_vector(alloc, bytes)?;
    Ok((Section::Globals(globals), rest))
}

// The export section behind its id (5.5.10).
fn exports(alloc: alloc::Global, bytes: &[u8]) -> Result<(Section, &[u8]), Fault>
    ensures { Reading (λ x. (section_of x.0, x.1.now)) (mapped binary.Exports (sized (vec export))) bytes.now result }
{
    let (exports, rest) = sized_vector(alloc, bytes)?;
    Ok((Section::Exports(exports), rest))
}

// The code section behind its id (5.5.13).
fn codes(alloc: alloc::Global, bytes: &[u8]) -> Result<(Section, &[u8]), Fault>
    ensures { Reading (λ x. (section_of x.0, x.1.now)) (mapped binary.Codes (sized (vec code))) bytes.now result }
{
    let (codes, rest) = sized_vector(alloc, bytes)?;
    Ok((Section::Codes(codes), rest))
}

// What follows the id of a section that is not custom.
fn by_id(alloc: alloc::Global, id: u8, bytes: &[u8]) -> Result<(Section, &[u8]), Fault>
    ensures { Reading (λ x. (section_of x.0, x.1.now)) (among by_id id) bytes.now result }
{
    match id {
        1 => types(alloc, bytes),
        2 => Err(Fault::Outside(What::Import)),
        3 => func_types(alloc, bytes),
        4 => Err(Fault::Outside(What::Table)),
        5 => memories(alloc, bytes),
        6 => globals(alloc, bytes),
        7 => exports(alloc, bytes),
        8 => Err(Fault::Outside(What::Start)),
        9 => Err(Fault::Outside(What::Element)),
        10 => codes(alloc, bytes),
        11 => Err(Fault::Outside(What::DataPart)),
        _ => Err(Fault::Malformed),
    }
}

// What follows an id, where `last` is the greatest one before it: custom sections stand anywhere.
fn in_order(alloc: alloc::Global, last: u8, id: u8, bytes: &[u8]) -> Result<(Section, &[u8]), Fault>
    ensures { Reading (λ x. (section_of x.0, x.1.now)) (in_order last id) bytes.now result }
{
    if id == 0 {
        return custom(bytes);
    }
    if id <= last {
        return Err(Fault::Malformed);
    }
    by_id(alloc, id, bytes)
}

/// A section behind those whose greatest id is `last`, 0 for none.
pub fn read_section(alloc: alloc::Global, last: u8, bytes: &[u8]) -> Result<(Section, &[u8]), Fault>
    ensures reading { Reading (λ x. (section_of x.0, x.1.now)) (by_byte (in_order last)) bytes.now result }
    ensures shorter { IfOk result (λ x. length x.1.now < length bytes.now) }
{
    let (id, rest) = first(bytes)?;
    in_order(alloc, last, id, rest)
}

/// The greatest id, with this section counted.
pub fn last_after(last: u8, section: &Section) -> u8
    ensures { result ≡ last_after last (section_of section.now) }
{
    match section {
        Section::Custom => last,
        Section::Types(_) => 1,
        Section::FuncTypes(_) => 3,
        Section::Memories(_) => 5,
        Section::Globals(_) => 6,
        Section::Exports(_) => 7,
        Section::Codes(_) => 10,
    }
}
