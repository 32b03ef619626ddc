// The local variables in scope.
ghost use Rattle.std.specs.Prelude.{◌≡◌, [], ◌∷◌, drop, length, map, position, string_bytes, IfErr, OnOk, Some};
ghost use Rattle.cf_tree.specs.View.{binder_of, binders_of, names_of, variables};
ghost use Rattle.cf_elab.specs.Names.{lent};
ghost use Rattle.cf_elab.specs.Scope.{is_named, under};
ghost use Rattle.cf_elab.specs.declared.ends.NameEnd.TheVariants as end;

use crate::ends::NameEnd;
use cf_tree::Definition;
use std::alloc::Global;
use std::marker::Model;

/// The local variables around a place. Contracts see them as a list of binders, the innermost first.
#[derive(Drop)]
pub struct Locals<'a> {
    // the innermost last
    names: Vec<Option<&'a str>>,
}

impl<'a> Model for Locals<'a> {
    ghost use Rattle.std.specs.Prelude.{List, map, reverse};
    ghost use Rattle.cf_elab.specs.Names.{lent};
    ghost use Rattle.cf_tree.specs.Tree.{Binder};

    ghost Value = { List Binder };

    ghost view = { λ l. reverse (map lent l.names.items) };
}

impl<'a> Locals<'a> {
    /// No local variables.
    pub fn new(alloc: Global) -> Self
        ensures { result ≡ [] }
    {
        Locals {
            names: Vec::new(alloc),
        }
    }

    /// How many there are.
    pub fn len(&self) -> usize
        ensures { result ≡ length self.now }
    {
        self.names.len()
    }

    /// Goes under a binder.
    pub fn push(&mut self, binder: &'a Option<String>) -> Result<(), NameEnd>
        ensures pushed { OnOk result (self.new ≡ binder_of binder.now ∷ self.old) }
        ensures refused { IfErr result (λ e. e ≡ end.NoMemory) }
    {
        let name = match binder {
            Some(name) => Some(name.as_str()),
            None => None,
        };
        self.names.push(name)?;
        Ok(())
    }

    fn push_name(&mut self, name: &'a String) -> Result<(), NameEnd>
        ensures pushed { OnOk result (self.new ≡ Some (string_bytes name.now) ∷ self.old) }
        ensures refused { IfErr result (λ e. e ≡ end.NoMemory) }
    {
        self.names.push(Some(name.as_str()))?;
        Ok(())
    }

    /// Goes under these binders, the last of them innermost.
    pub fn enter(&mut self, binders: &'a Vec<Option<String>>) -> Result<(), NameEnd>
        ensures entered { OnOk result (self.new ≡ under (binders_of binders.now.items) self.old) }
        ensures refused { IfErr result (λ e. e ≡ end.NoMemory) }
    {
        for binder in binders {
            self.push(binder)?;
        }
        Ok(())
    }

    /// Goes under the variables of these definitions, the last of them innermost.
    pub fn enter_definitions(&mut self, definitions: &'a Vec<Definition>) -> Result<(), NameEnd>
        ensures entered { OnOk result (self.new ≡ under (variables definitions.now.items) self.old) }
        ensures refused { IfErr result (λ e. e ≡ end.NoMemory) }
    {
        for definition in definitions {
            self.push(&definition.binder)?;
        }
        Ok(())
    }

    /// Goes under these parameters, the last of them innermost.
    pub fn enter_params(&mut self, params: &'a Vec<String>) -> Result<(), NameEnd>
        ensures entered { OnOk result (self.new ≡ under (map Some (names_of params.now.items)) self.old) }
        ensures refused { IfErr result (λ e. e ≡ end.NoMemory) }
    {
        for param in params {
            self.push_name(param)?;
        }
        Ok(())
    }

    /// Leaves so many binders.
    pub fn leave(&mut self, count: usize)
        ensures { self.new ≡ drop count self.old }
    {
        for _i in 0..count {
            self.pop();
        }
    }

    fn pop(&mut self)
        ensures { self.new ≡ drop 1 self.old }
    {
        self.names.pop();
    }

    /// Where the variable stands, counted from the innermost one; `None` where there is none of this name.
    pub fn find(&self, name: &str) -> Option<usize>
        ensures { result ≡ position (is_named name.now) self.now }
    {
        let count = self.names.len();
        for i in 0..count {
            if is_same(self.names[count - 1 - i], name) {
                return Some(i);
            }
        }
        None
    }
}

// Whether a binder has this name.
fn is_same(binder: Option<&str>, name: &str) -> bool
    ensures { result ≡ is_named name.now (lent binder.entry) }
{
    match binder {
        Some(other) => name == other,
        None => false,
    }
}
