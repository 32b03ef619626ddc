//! What a machine takes memory for.

ghost use Rattle.std.specs.Prelude.{◌≡◌, ◌≤◌, ◌^◌, ◌++◌, length, map, IfOk, OnOk, IsTrue, ◌↔◌};
ghost use Rattle.wb_syntax.specs.declared.syntax.Instr.TheVariants.{End};
ghost use Rattle.wb_syntax.specs.Runs.{constant_of, globals_at_first, memory_at_first, fixed_room, store_at_first};
ghost use Rattle.wb_state.specs.Words.{seen};
ghost use Rattle.wb_plain.specs.Follows.{store_of};
ghost use Rattle.wb_control.specs.Changes.{IsRoomy, results_of};
ghost use Rattle.wb_control.specs.Stands.{AllLead};
ghost use Rattle.wb_machine.specs.Opening.{most_pages};

use sqlite_items::Items;
use std::alloc::Global;
use wb_code::{Jump, NoMemory};
use wb_control::{Callers, Labels, Place, Run, constant_word};
use wb_state::{Globals, Locals, Memory, Operands, State, Word};
use wb_syntax::{Instr, Module};

/// How many pages the memory of a module has at first, or 0 where it has none.
pub(crate) fn first_pages(m: &Module) -> u32
    requires { length m.now.memories ≤ 1 }
    ensures { result ≡ fixed_room m.now }
{
    match m.memories.get(0) {
        None => 0,
        Some(limits) => limits.min,
    }
}

/// The memory at its least size, all zeros, where a module has one.
fn first_memory(alloc: Global, m: &Module) -> Result<Option<Memory>, NoMemory>
    requires { fixed_room m.now ≤ most_pages }
    ensures { IfOk result (λ memory. memory ≡ memory_at_first m.now.memories) }
{
    match m.memories.get(0) {
        None => Ok(None),
        Some(limits) => Ok(Some(Memory::new(alloc, limits.min)?)),
    }
}

/// Whether this is an end.
fn is_end(instr: &Instr) -> bool
    ensures { IsTrue result ↔ (instr.now ≡ End) }
{
    match instr {
        Instr::End => true,
        _ => false,
    }
}

/// The word of a constant expression, which is one constant and its end.
fn constant_of(init: &[Instr]) -> Option<Word>
    ensures { results_of result ≡ constant_of init.now }
{
    if init.len() != 2 {
        return None;
    }
    if !is_end(&init[1]) {
        return None;
    }
    constant_word(&init[0])
}

/// Adds the word of a constant expression.
fn push_constant(words: &mut Vec<Word>, init: &[Instr]) -> Result<(), NoMemory>
    ensures { OnOk result (map seen words.new.items ≡ map seen words.old.items ++ constant_of init.now) }
{
    match constant_of(init) {
        None => Ok(()),
        Some(word) => {
            words.push(word)?;
            Ok(())
        }
    }
}

/// The words of these globals at first.
fn first_globals(alloc: Global, globals: &[wb_syntax::Global]) -> Result<Vec<Word>, NoMemory>
    ensures { IfOk result (λ words. map seen words.items ≡ globals_at_first globals.now) }
{
    let mut words = Vec::new(alloc);
    for global in globals {
        push_constant(&mut words, global.init.as_slice())?;
    }
    Ok(words)
}

/// Where the constructs of each body lead.
pub(crate) fn all_jumps(alloc: Global, m: &Module) -> Result<Items<Items<Jump>>, NoMemory>
    ensures { IfOk result (λ js. AllLead m.now js) }
{
    let funcs = m.funcs.as_slice();
    let mut all = Items::new(alloc);
    for func in funcs {
        let found = wb_code::jumps(alloc, func.body.as_slice())?;
        all.push(found)?;
    }
    Ok(all)
}

/// All that a run of so many words works on, with memory and globals as they are at first.
pub(crate) fn first_run(alloc: Global, m: &Module, words: usize) -> Result<Run, NoMemory>
    requires memory { fixed_room m.now ≤ most_pages }
    requires words { words ≤ 2 ^ 32 }
    ensures roomy { IfOk result IsRoomy }
    ensures words { IfOk result (λ r. r.state.operands.room ≡ words) }
    ensures store { IfOk result (λ r. store_of r.state ≡ store_at_first m.now) }
{
    let globals = first_globals(alloc, m.globals.as_slice())?;
    let state = State {
        operands: Operands::new(alloc, words)?,
        locals: Locals::new(alloc, words)?,
        memory: first_memory(alloc, m)?,
        globals: Globals::new(globals),
    };
    Ok(Run {
        state,
        labels: Labels::new(alloc, words)?,
        callers: Callers::new(alloc, words / 4 + 1)?,
        place: Place {
            func: 0,
            at: 0,
            results: false,
            labels: 0,
            bottom: 0,
        },
        result: None,
    })
}
