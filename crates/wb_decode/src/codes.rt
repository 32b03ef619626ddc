//! Entries of the code section (the standard, 5.5.13).

ghost use Rattle.std.specs.Prelude.{◌≡◌, ◌+◌, ◌<◌, ◌^◌, IfOk};
ghost use Rattle.wb_syntax.specs.Grammar.{followed, index, sized};
ghost use Rattle.wb_syntax.specs.Binary.{local_runs, code};
ghost use Rattle.wb_decode.specs.Reading.{Reading, local_run, entry};

use crate::ends::Fault;
use crate::expressions::expression;
use crate::numbers::index;
use crate::types::value_type;
use crate::vectors::{Spelled, cut};
use sqlite_items::Items;
use std::alloc::Global;
use wb_syntax::{Instr, LocalRun};

/// The runs of locals and the body of a function.
pub type Code = (Items<LocalRun>, Items<Instr>);

// A run of locals, with so many locals before it: fewer than 2^32 with them.
fn local_run(before: u32, bytes: &[u8]) -> Result<(LocalRun, &[u8]), Fault>
    ensures reading { Reading (λ x. (x.0, x.1.now)) (local_run before) bytes.now result }
    ensures fits { IfOk result (λ x. before + x.0.count < 2 ^ 32) }
{
    let (count, rest) = index(bytes)?;
    if count > u32::MAX - before {
        return Err(Fault::Malformed);
    }
    let (ty, rest) = value_type(rest)?;
    Ok((LocalRun { count, ty }, rest))
}

// So many runs of locals, fewer than 2^32 locals in all.
fn local_runs(alloc: Global, count: u32, bytes: &[u8]) -> Result<(Items<LocalRun>, &[u8]), Fault>
    ensures { Reading (λ x. (x.0, x.1.now)) (local_runs count 0) bytes.now result }
{
    let mut runs = Items::new(alloc);
    let mut before = 0u32;
    let mut rest = bytes;
    let mut more = count;
    while more > 0 {
        let (next, after) = local_run(before, rest)?;
        runs.push(next)?;
        before += next.count;
        rest = after;
        more -= 1;
    }
    Ok((runs, rest))
}

// An entry without its size.
fn entry(alloc: Global, bytes: &[u8]) -> Result<(Code, &[u8]), Fault>
    ensures { Reading (λ x. ((x.0.0, x.0.1), x.1.now)) entry bytes.now result }
{
    let (count, rest) = index(bytes)?;
    let (locals, rest) = local_runs(alloc, count, rest)?;
    let (body, rest) = expression(alloc, rest)?;
    Ok(((locals, body), rest))
}

impl Spelled for Code {
    ghost grammar = { code };

    fn read(alloc: Global, bytes: &[u8]) -> Result<(Code, &[u8]), Fault> {
        let (contents, rest) = cut(bytes)?;
        let (code, more) = entry(alloc, contents)?;
        if more.is_empty() {
            Ok((code, rest))
        } else {
            Err(Fault::Malformed)
        }
    }
}
