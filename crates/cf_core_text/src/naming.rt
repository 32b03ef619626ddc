// The names of a program by their numbers.
ghost use Rattle.std.specs.Prelude.{◌≡◌, ◌∷◌, ◌++◌, [], IfOk, OnOk};
ghost use Rattle.cf_core_text.specs.Names.{ctor_in, ctor_name, data_types, flag, global_name, global_names, type_name};
ghost use Rattle.cf_core_text.specs.Tables.{names_in};
ghost use Rattle.cf_rules.specs.View.{declaration, declarations};

use cf_rules::{CoreDecl, Ctor, DataDecl};
use std::alloc::{AllocError, Global};

/// The data types and the names of globals, each by its number.
#[derive(Drop)]
pub struct Names<'a> {
    /// the data types, the predeclared one first
    pub types: Vec<&'a DataDecl>,
    /// the names of meta definitions and object declarations
    pub globals: Vec<&'a str>,
}

impl Names<'_> {
    /// The name of a global.
    pub fn global(&self, number: usize) -> &str
        ensures { result.now ≡ global_name (names_in self.now) number }
    {
        match self.globals.get(number) {
            Some(name) => name,
            None => "",
        }
    }

    /// The name of a data type.
    pub fn data_type(&self, number: usize) -> &str
        ensures { result.now ≡ type_name (names_in self.now) number }
    {
        match self.types.get(number) {
            Some(decl) => decl.name.as_str(),
            None => "",
        }
    }

    /// The name of a constructor of a data type.
    pub fn ctor(&self, data_type: usize, number: usize) -> &str
        ensures { result.now ≡ ctor_name (names_in self.now) data_type number }
    {
        match self.types.get(data_type) {
            Some(decl) => ctor_of(decl, number),
            None => "",
        }
    }
}

fn ctor_of(decl: &DataDecl, number: usize) -> &str
    ensures { result.now ≡ ctor_in decl.now number }
{
    match decl.ctors.get(number) {
        Some(ctor) => ctor.name.as_str(),
        None => "",
    }
}

// A constructor without fields.
fn plain_ctor(alloc: Global, name: &str) -> Result<Ctor, AllocError>
    ensures { IfOk result (λ k. k ≡ record { name = name.now; fields = [] }) }
{
    let name = String::from_str(alloc, name)?;
    Ok(Ctor {
        name,
        fields: Vec::new(alloc),
    })
}

/// The predeclared data type.
pub fn flag(alloc: Global) -> Result<DataDecl, AllocError>
    ensures { IfOk result (λ d. d ≡ flag) }
{
    let name = String::from_str(alloc, "Flag")?;
    let no = plain_ctor(alloc, "no")?;
    let yes = plain_ctor(alloc, "yes")?;
    let mut ctors = Vec::new(alloc);
    ctors.push(no)?;
    ctors.push(yes)?;
    Ok(DataDecl {
        name,
        params: 0,
        ctors,
    })
}

// One declaration more.
fn add<'a>(names: &mut Names<'a>, decl: &'a CoreDecl) -> Result<(), AllocError>
    ensures types { OnOk result ((names_in names.new).types ≡ (names_in names.old).types ++ data_types (declaration decl.now ∷ [])) }
    ensures globals { OnOk result ((names_in names.new).globals ≡ (names_in names.old).globals ++ global_names (declaration decl.now ∷ [])) }
{
    match decl {
        CoreDecl::DataC(data_type) => {
            names.types.push(data_type)?;
            Ok(())
        }
        CoreDecl::MetaC { name, .. } => {
            names.globals.push(name.as_str())?;
            Ok(())
        }
        CoreDecl::ObjectC { name, .. } => {
            names.globals.push(name.as_str())?;
            Ok(())
        }
    }
}

/// The names of declarations, behind the predeclared data type.
pub fn names_of<'a>(
    alloc: Global,
    flag: &'a DataDecl,
    decls: &'a [CoreDecl],
) -> Result<Names<'a>, AllocError>
    ensures types { IfOk result (λ n. (names_in n).types ≡ flag.now ∷ data_types (declarations decls.now)) }
    ensures globals { IfOk result (λ n. (names_in n).globals ≡ global_names (declarations decls.now)) }
{
    let mut names = Names {
        types: Vec::new(alloc),
        globals: Vec::new(alloc),
    };
    names.types.push(flag)?;
    for decl in decls {
        add(&mut names, decl)?;
    }
    Ok(names)
}
