//! What is known of the operands at a place of a body.

ghost use Rattle.std.specs.Prelude.{◌≡◌, OnOk};
ghost use Rattle.std.specs.Prelude.{reverse};
ghost use Rattle.wb_valid.specs.Operands.{empty, anything, may_be, pop, pops, take_any, put, put_result, is_finished, PopsTo, Takes};

use crate::pile::Pile;
use std::alloc::{AllocError, Global};
use wb_syntax::NumType;

/// The operands that a construct has put on the stack so far.
#[derive(Drop)]
pub struct Operands {
    /// Their types, the top first; `None` where any type may stand.
    pub known: Pile<Option<NumType>>,
    /// Behind a jump anything may stand below the known operands.
    pub endless: bool,
}

/// Whether an operand of which this is known may have the type.
fn may_be(known: Option<NumType>, ty: NumType) -> bool
    ensures { result ≡ may_be known ty }
{
    match known {
        None => true,
        Some(other) => other == ty,
    }
}

impl Operands {
    /// The operands where a construct begins. Takes no memory.
    pub fn empty(alloc: Global) -> Operands
        ensures { result ≡ empty }
    {
        Operands {
            known: Pile::new(alloc),
            endless: false,
        }
    }

    /// The operands behind a jump. Takes no memory.
    pub fn anything(alloc: Global) -> Operands
        ensures { result ≡ anything }
    {
        Operands {
            known: Pile::new(alloc),
            endless: true,
        }
    }

    /// Takes an operand of this type; says whether it was there.
    pub fn pop(&mut self, ty: NumType) -> bool
        ensures { PopsTo (pop ty self.old) result self.new }
    {
        match self.known.pop() {
            None => self.endless,
            Some(known) => may_be(known, ty),
        }
    }

    /// Takes an operand of any type: what is known of it, or nothing where there is none.
    pub fn take_any(&mut self) -> Option<Option<NumType>>
        ensures { Takes (take_any self.old) result self.new }
    {
        match self.known.pop() {
            None => { if self.endless { Some(None) } else { None } }
            Some(known) => Some(known),
        }
    }

    /// Puts an operand on top.
    pub fn put(&mut self, known: Option<NumType>) -> Result<(), AllocError>
        ensures { OnOk result (self.new ≡ put known self.old) }
    {
        self.known.push(known)
    }

    /// Puts a result on top, where there is one.
    pub fn put_result(&mut self, given: Option<NumType>) -> Result<(), AllocError>
        ensures { OnOk result (self.new ≡ put_result given self.old) }
    {
        match given {
            None => Ok(()),
            Some(ty) => self.put(Some(ty)),
        }
    }

    /// Takes operands of these types, the last of them from the top; says whether they were there.
    ///
    /// Where none is known any more and anything may stand below, the rest is there, however long it is.
    pub fn pop_all(&mut self, types: &[NumType]) -> bool
        ensures { PopsTo (pops (reverse types.now) self.old) result self.new }
    {
        let mut left = types.len();
        while left > 0 {
            if self.endless && self.known.is_empty() {
                return true;
            }
            left -= 1;
            if !self.pop(types[left]) {
                return false;
            }
        }
        true
    }

    /// Whether exactly the result stands there; takes the operands.
    pub fn is_finished(&mut self, wanted: Option<NumType>) -> bool
        ensures { result ≡ is_finished wanted self.old }
    {
        let there = match wanted {
            None => true,
            Some(ty) => self.pop(ty),
        };
        there && self.known.is_empty()
    }
}
