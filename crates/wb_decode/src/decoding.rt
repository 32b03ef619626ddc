//! Whole modules (the standard, 5.5.15).

ghost use Rattle.std.specs.Prelude.{◌≡◌, ◌≤◌, [], map, drop, length};
ghost use Rattle.wb_syntax.specs.Binary.{Decoded, IsModule, answer, read_sections, gathered};
ghost use Rattle.wb_decode.specs.Sections.{section_of, answer_from, made, FaultAt, EndsAs, Gives, Decodes};

use crate::contents::{gathered, keep, module};
use crate::ends::{DecodeEnd, Fault};
use crate::sections::{Section, last_after, read_section};
use sqlite_items::Items;
use std::alloc::Global;
use wb_syntax::Module;

// The end that a fault in the section at this offset makes.
fn end_at(at: usize, fault: Fault) -> DecodeEnd
    ensures { (d : Decoded) → FaultAt at fault d → EndsAs result d }
{
    let Ok(at) = u32::try_from(at) else {
        return DecodeEnd::NoMemory;
    };
    match fault {
        Fault::Malformed => DecodeEnd::Malformed(at),
        Fault::Outside(what) => DecodeEnd::Outside(at, what),
        Fault::NoMemory => DecodeEnd::NoMemory,
    }
}

// The sections behind the header, but for custom ones.
fn sections(alloc: Global, bytes: &[u8]) -> Result<Items<Section>, DecodeEnd>
    requires { 8 ≤ length bytes.now }
    ensures { Gives (λ ss. made (length bytes.now) (map section_of ss) (gathered [])) result (answer_from (length bytes.now) [] (read_sections (length bytes.now) 0 (drop 8 bytes.now))) }
{
    let mut sections = Items::new(alloc);
    let mut last = 0;
    let mut rest = &bytes[8..];
    while !rest.is_empty() {
        let (section, after) = match read_section(alloc, last, rest) {
            Ok(read) => read,
            Err(fault) => return Err(end_at(bytes.len() - rest.len(), fault)),
        };
        last = last_after(last, &section);
        keep(&mut sections, section)?;
        rest = after;
    }
    Ok(sections)
}

// The module behind the header.
fn behind_header(alloc: Global, bytes: &[u8]) -> Result<Module, DecodeEnd>
    requires { 8 ≤ length bytes.now }
    ensures { Gives IsModule result (answer (length bytes.now) (read_sections (length bytes.now) 0 (drop 8 bytes.now))) }
{
    let sections = sections(alloc, bytes)?;
    let contents = gathered(alloc, sections);
    match module(alloc, contents)? {
        Some(module) => Ok(module),
        None => Err(end_at(bytes.len(), Fault::Malformed)),
    }
}

// The header: magic and version.
const HEADER: [u8; 8] = [0x00, 0x61, 0x73, 0x6D, 0x01, 0x00, 0x00, 0x00];

/// The module that the bytes spell. Every allowed spelling is read, long numbers and custom sections included.
///
/// # Errors
///
/// `Malformed` where the bytes are not the binary format, `Outside` where they are not of the profile, each with its
/// offset; `NoMemory` where memory runs out or the offset is 2^32 or more.
pub fn decode(alloc: Global, bytes: &[u8]) -> Result<Module, DecodeEnd>
    ensures { Decodes bytes.now result }
{
    if bytes.starts_with(&HEADER) {
        behind_header(alloc, bytes)
    } else {
        Err(DecodeEnd::Malformed(0))
    }
}
