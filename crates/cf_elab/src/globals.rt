// The tables of global names.
ghost use Rattle.std.specs.Prelude.{◌≡◌, [], false, length, position, string_bytes, IfErr, IfOk, OnOk};
ghost use Rattle.std.specs.Str.{bytes_eq};
ghost use Rattle.cf_elab.specs.Scope as spec;
ghost use Rattle.cf_elab.specs.declared.ends.NameEnd.TheVariants as end;

use crate::ends::NameEnd;
use crate::numbers::CtorNumber;
use indexmap::{IndexMap, IndexSet};
use std::alloc::Global;
use std::marker::Model;

/// What is declared above a place. Contracts see it as the lists of `specs/Scope`.
#[derive(Drop)]
pub struct Globals {
    // in the order of declaration
    variables: IndexSet<String>,
    types: IndexSet<String>,
    ctors: IndexMap<String, CtorNumber>,
    // how many of the constructors may be used
    usable: usize,
}

impl Model for Globals {
    ghost use Rattle.std.specs.Prelude.{◌≤◌, length, reverse, take, drop};
    ghost use Rattle.cf_elab.specs.Scope as spec;
    ghost use Rattle.cf_elab.specs.Names.{names_of, named_numbers};

    ghost Value = { spec.Globals };

    ghost view = { λ g. record {
      variables = reverse (names_of g.variables.keys);
      types = names_of g.types.keys;
      ctors = take g.usable (named_numbers g.ctors.entries);
      own = drop g.usable (named_numbers g.ctors.entries);
    } };

    ghost invariant = { λ g. g.usable ≤ length g.ctors.entries };
}

impl Globals {
    /// What stands above every program: the data type `Flag` with its constructors `no` and `yes`.
    pub fn start(alloc: Global) -> Result<Self, NameEnd>
        ensures start { IfOk result (λ g. g ≡ spec.start) }
        ensures refused { IfErr result (λ e. e ≡ end.NoMemory) }
    {
        let no = CtorNumber {
            data_type: 0,
            ctor: 0,
            params: 0,
        };
        let yes = CtorNumber {
            data_type: 0,
            ctor: 1,
            params: 0,
        };
        let mut g = Globals::empty(alloc);
        g.push_type(String::from_str(alloc, "Flag")?)?;
        g.push_ctor(String::from_str(alloc, "no")?, no)?;
        g.push_ctor(String::from_str(alloc, "yes")?, yes)?;
        g.settle();
        Ok(g)
    }

    fn empty(alloc: Global) -> Self
        ensures { result ≡ record { variables = []; types = []; ctors = []; own = [] } }
    {
        Globals {
            variables: IndexSet::new(alloc),
            types: IndexSet::new(alloc),
            ctors: IndexMap::new(alloc),
            usable: 0,
        }
    }

    /// How many data types there are.
    pub fn types(&self) -> usize
        ensures { result ≡ length self.now.types }
    {
        self.types.len()
    }

    /// How many constructors the data declaration at hand has so far.
    pub fn own(&self) -> usize
        ensures { result ≡ length self.now.own }
    {
        self.ctors.len() - self.usable
    }

    /// Where the global variable stands, counted from the last one; `None` where there is none of this name.
    pub fn variable(&self, name: &str) -> Option<usize>
        ensures { result ≡ position (bytes_eq name.now) self.now.variables }
    {
        let count = self.variables.len();
        match self.variables.get_index_of(name) {
            Some(i) => Some(count - 1 - i),
            None => None,
        }
    }

    /// The number of the data type of this name.
    pub fn data_type(&self, name: &str) -> Option<usize>
        ensures { result ≡ spec.type_of self.now name.now }
    {
        self.types.get_index_of(name)
    }

    /// The constructor of this name, where it may be used.
    pub fn ctor(&self, name: &str) -> Option<CtorNumber>
        ensures { result ≡ spec.ctor_of self.now name.now }
    {
        match self.ctors.get_full(name) {
            Some((i, _, number)) => { if i < self.usable { Some(*number) } else { None } }
            None => None,
        }
    }

    /// Whether the name is taken by a global variable, a data type or a constructor.
    pub fn is_taken(&self, name: &str) -> bool
        ensures { result ≡ spec.is_taken self.now name.now }
    {
        let variable = self.variables.contains(name);
        let data_type = self.types.contains(name);
        let ctor = self.ctors.contains_key(name);
        variable | data_type | ctor
    }

    /// Puts a global variable behind the others.
    pub fn push_variable(&mut self, name: String) -> Result<(), NameEnd>
        requires { spec.is_taken self.old (string_bytes name) ≡ false }
        ensures pushed { OnOk result (self.new ≡ spec.with_variable (string_bytes name) self.old) }
        ensures refused { IfErr result (λ e. e ≡ end.NoMemory) }
    {
        self.variables.insert_full(name)?;
        Ok(())
    }

    /// Puts a data type behind the others.
    pub fn push_type(&mut self, name: String) -> Result<(), NameEnd>
        requires { spec.is_taken self.old (string_bytes name) ≡ false }
        ensures pushed { OnOk result (self.new ≡ spec.with_type (string_bytes name) self.old) }
        ensures refused { IfErr result (λ e. e ≡ end.NoMemory) }
    {
        self.types.insert_full(name)?;
        Ok(())
    }

    /// Puts a constructor behind those of the data declaration at hand.
    pub fn push_ctor(&mut self, name: String, number: CtorNumber) -> Result<(), NameEnd>
        requires { spec.is_taken self.old (string_bytes name) ≡ false }
        ensures pushed { OnOk result (self.new ≡ spec.with_own (string_bytes name) number self.old) }
        ensures refused { IfErr result (λ e. e ≡ end.NoMemory) }
    {
        self.ctors.insert(name, number)?;
        Ok(())
    }

    /// Ends the data declaration at hand: its constructors may be used from now on.
    pub fn settle(&mut self)
        ensures { self.new ≡ spec.settled self.old }
    {
        self.usable = self.ctors.len();
    }
}
