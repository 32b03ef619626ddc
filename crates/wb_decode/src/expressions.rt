//! Expressions (the standard, 5.4.6): instructions up to the end that closes the body.

ghost use Rattle.std.specs.Prelude.{◌≡◌};
ghost use Rattle.wb_syntax.specs.declared.syntax.Instr.TheVariants.{Else, End};
ghost use Rattle.wb_syntax.specs.Binary.{expression};
ghost use Rattle.wb_decode.specs.Reading.{Reading};
ghost use Rattle.wb_decode.specs.Nest.{Leads};

use crate::ends::Fault;
use crate::instructions::instr;
use sqlite_items::Items;
use std::alloc::{AllocError, Global};
use wb_syntax::Instr;

/// A construct that is open at a place.
#[derive(Clone, Copy, Debug, PartialEq, Eq)]
pub enum Open {
    /// The first branch of an if, where an else may come.
    FirstBranch,
    /// Any other construct.
    Construct,
}

/// What follows an instruction.
#[derive(Clone, Copy, Debug, PartialEq, Eq)]
pub enum Place {
    /// More of the body.
    Inside,
    /// Nothing: the body is closed.
    Closed,
    /// Nothing: an else may not stand here.
    Misplaced,
}

// An else: the second branch of an if, where the first was open.
fn after_else(nest: &mut Vec<Open>) -> Result<Place, AllocError>
    ensures { Leads nest.old.items nest.new.items Else result }
{
    match nest.pop() {
        Some(Open::FirstBranch) => {
            nest.push(Open::Construct)?;
            Ok(Place::Inside)
        }
        _ => Ok(Place::Misplaced),
    }
}

// An end: the innermost construct is closed, or else the body.
fn after_end(nest: &mut Vec<Open>) -> Result<Place, AllocError>
    ensures { Leads nest.old.items nest.new.items End result }
{
    match nest.pop() {
        Some(_) => Ok(Place::Inside),
        None => Ok(Place::Closed),
    }
}

// Where an instruction leads, with the constructs that are open, the innermost last.
fn lead(nest: &mut Vec<Open>, instr: &Instr) -> Result<Place, AllocError>
    ensures { Leads nest.old.items nest.new.items instr.now result }
{
    match instr {
        Instr::Block(_) | Instr::Loop(_) => {
            nest.push(Open::Construct)?;
            Ok(Place::Inside)
        }
        Instr::If(_) => {
            nest.push(Open::FirstBranch)?;
            Ok(Place::Inside)
        }
        Instr::Else => after_else(nest),
        Instr::End => after_end(nest),
        _ => Ok(Place::Inside),
    }
}

/// An expression.
pub fn expression(alloc: Global, bytes: &[u8]) -> Result<(Items<Instr>, &[u8]), Fault>
    ensures { Reading (λ x. (x.0, x.1.now)) expression bytes.now result }
{
    let mut instrs = Items::new(alloc);
    let mut nest = Vec::new(alloc);
    let mut rest = bytes;
    loop {
        let (instr, after) = instr(alloc, rest)?;
        let place = lead(&mut nest, &instr)?;
        instrs.push(instr)?;
        rest = after;
        match place {
            Place::Inside => {}
            Place::Closed => return Ok((instrs, rest)),
            Place::Misplaced => return Err(Fault::Malformed),
        }
    }
}
