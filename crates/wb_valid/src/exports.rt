//! Exports: what they name, and that no two have one name.

ghost use Rattle.std.specs.Prelude.{IfOk, IsTrue, ◌↔◌};
ghost use Rattle.wb_syntax.specs.Typing.{ExportOf, IsThere};
ghost use Rattle.wb_valid.specs.Scans.{Finds};

use crate::part::OutOfMemory;
use std::alloc::Global;
use std::collections::BTreeMap;
use wb_syntax::{Exported, Module};

/// Whether what is exported is there.
fn is_there(m: &Module, what: Exported) -> bool
    ensures { IsTrue result ↔ IsThere m.now what }
{
    match what {
        Exported::Func(index) => (index as usize) < m.funcs.len(),
        Exported::Memory(index) => (index as usize) < m.memories.len(),
        Exported::Global(index) => (index as usize) < m.globals.len(),
    }
}

/// The first export whose object is not there or that has the name of an earlier one.
pub fn export(alloc: Global, m: &Module) -> Result<Option<usize>, OutOfMemory>
    ensures { IfOk result (λ found. Finds m.now ExportOf found) }
{
    let mut names: BTreeMap<&str, usize> = BTreeMap::new(alloc);
    for (at, export) in m.exports.as_slice().iter().enumerate() {
        if !is_there(m, export.what) {
            return Ok(Some(at));
        }
        if names.insert(export.name.as_str(), at)?.is_some() {
            return Ok(Some(at));
        }
    }
    Ok(None)
}
