//! The machine.

ghost use Rattle.std.specs.Prelude.{◌≡◌, ◌≤◌, length, true};
ghost use Rattle.wb_syntax.specs.Runs.{run_main, fixed_room, main_arity, status};
ghost use Rattle.wb_control.specs.Stands.{AllNested};
ghost use Rattle.wb_machine.specs.Ends.{EndsAs};
ghost use Rattle.wb_machine.specs.Opening.{IsOpened, IsCalledWith};
ghost use Rattle.wb_machine.specs.Inside.{HasFewParameters, status_of};

use crate::calling::call;
use crate::ends::{MachineEnd, OpenEnd};
use crate::entry::count_parameters;
use crate::opening::{all_jumps, first_pages, first_run};
use sqlite_items::Items;
use std::alloc::Global;
use std::marker::Model;
use wb_code::Jump;
use wb_control::Run;
use wb_state::{Memory, Width};
use wb_syntax::{Module, typed_is_proper};
use wb_valid::ValidModule;

/// The most pages that a memory may begin with.
pub const MOST_PAGES: u32 = 1024;

/// A module with all memory of its runs. Contracts see its module, its words and its store.
#[derive(Drop)]
pub struct Machine {
    module: ValidModule,
    words: u32,
    jumps: Items<Items<Jump>>,
    run: Run,
}

impl Model for Machine {
    ghost use Rattle.wb_plain.specs.Follows.{store_of};
    ghost use Rattle.wb_syntax.specs.Runs.{fixed_room};
    ghost use Rattle.wb_control.specs.Stands.{AllLead};
    ghost use Rattle.wb_machine.specs.Model.{Machine-model};
    ghost use Rattle.wb_machine.specs.Inside.{IsFor, HasFewParameters};

    ghost Value = { Machine-model };

    ghost view = { λ a. record { module_ = a.module; words = a.words; store = store_of a.run.state } };

    ghost invariant = { λ a. ∥ AllLead a.module a.jumps ∥₁ × IsFor a.module (fixed_room a.module) a.words a.run × ∥ HasFewParameters a.module ∥₁ };
}

/// The 32-bit word at address 0, or 0 where there is none.
fn status_of(memory: &Option<Memory>) -> u32
    ensures { result ≡ status_of memory.now }
{
    match memory {
        None => 0,
        Some(memory) => match memory.read(0, Width::Four) {
            None => 0,
            Some(number) => number as u32,
        },
    }
}

/// Whether `main`, where there is one, has fewer than 2^32 parameters.
fn has_few_parameters(m: &Module) -> bool
    ensures { result ≡ true → HasFewParameters m.now }
{
    match count_parameters(m) {
        None => true,
        Some(count) => count < 0x1_0000_0000,
    }
}

/// The module that was found valid, whose bodies have nested code.
fn nested_module(m: &ValidModule) -> &Module
    ensures same { result.now ≡ m.now }
    ensures nested { AllNested m.now }
{
    typed_is_proper();
    m.module()
}

impl Machine {
    /// A machine for runs of at most so many words, with memory and globals as they are at first. Takes all memory of
    /// the runs.
    ///
    /// # Errors
    ///
    /// `TooMuchMemory`, with the pages, where the memory begins with more than [`MOST_PAGES`]. `NoMemory` where memory
    /// runs out, or where `main` has 2^32 parameters or more.
    pub fn new(alloc: Global, m: ValidModule, words: u32) -> Result<Machine, OpenEnd>
        requires least { 1 ≤ words }
        requires most { words ≤ 16777216 }
        ensures { IsOpened m words result }
    {
        let module = m.module();
        let pages = first_pages(module);
        if pages > MOST_PAGES {
            return Err(OpenEnd::TooMuchMemory(pages));
        }
        if !has_few_parameters(module) {
            return Err(OpenEnd::NoMemory);
        }
        let jumps = all_jumps(alloc, module)?;
        let run = first_run(alloc, module, words as usize)?;
        Ok(Machine {
            module: m,
            words,
            jumps,
            run,
        })
    }

    /// How many parameters the exported function `main` has, where its type is any number of i64 to i64. Takes no memory.
    pub fn main_arity(&self) -> Option<u32>
        ensures { result ≡ main_arity self.now.module_ }
    {
        match count_parameters(self.module.module()) {
            None => None,
            Some(count) => Some(count as u32),
        }
    }

    /// The status word: the 32-bit word at address 0, lowest byte first, or 0 where there is no memory or it has fewer
    /// than 4 bytes. Takes no memory.
    pub fn status(&self) -> u32
        ensures { result ≡ status self.now.store }
    {
        status_of(&self.run.state.memory)
    }

    /// Runs `main` on these arguments, as many as [`Machine::main_arity`] says, with at most so many steps.
    ///
    /// Begins anew on memory and globals as they stand, and leaves them as the run does. Takes no memory.
    pub fn call_main(&mut self, args: &[i64], limit: u64) -> MachineEnd
        requires arity { IsCalledWith (main_arity self.old.module_) (length args.now) }
        ensures ends { EndsAs self.old.store (run_main self.old.module_ (fixed_room self.old.module_) self.old.store args.now self.old.words limit) result self.new.store }
        ensures same { self.new.module_ ≡ self.old.module_ }
        ensures words { self.new.words ≡ self.old.words }
    {
        call(
            &mut self.run,
            nested_module(&self.module),
            self.jumps.as_slice(),
            args,
            limit,
        )
    }
}
