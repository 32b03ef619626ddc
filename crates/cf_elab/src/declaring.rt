// Declarations, and the whole program.
ghost use Rattle.std.specs.Prelude.{◌≡◌, false, IfErr, IfOk, OnOk, map, string_bytes, Some, []};
ghost use Rattle.cf_rules.specs.Programs.{DataC, MetaC, ObjectC};
ghost use Rattle.cf_rules.specs.View.{declaration as declaration_of};
ghost use Rattle.cf_tree.specs.Tree.{DataD, MetaD, ObjectD};
ghost use Rattle.cf_tree.specs.View.{ctor_of, ctors_of, decl_of, named, names_of};
ghost use Rattle.cf_elab.specs.Core as spec;
ghost use Rattle.cf_elab.specs.Core.{IsCoreOf};
ghost use Rattle.cf_elab.specs.Declaring.{DeclaresCtor, RefusesCtor};
ghost use Rattle.cf_elab.specs.Refusals.{IsRefused, IsTwice, Refuses};
ghost use Rattle.cf_elab.specs.Resolving.{As, each};
ghost use Rattle.cf_elab.specs.Scope.{is_taken, under};

use crate::ends::NameEnd;
use crate::globals::Globals;
use crate::locals::Locals;
use crate::numbers::CtorNumber;
use crate::resolving::resolve;
use crate::scope::{Scope, number};
use cf_base::At;
use cf_rules::{CoreDecl, CoreProgram, Ctor, DataDecl};
use cf_term::Term;
use cf_tree::{CtorTree, Decl, Program, Tree};
use std::alloc::Global;

/// The core of a program: names become indices and numbers, each hole or missing part gets the next number, and nothing else
/// changes. It is refused at the first name in the text that is not bound as its place asks, or that was declared before.
pub fn direct(alloc: Global, p: &Program) -> Result<CoreProgram, NameEnd>
    ensures core { IfOk result (λ c. IsCoreOf p.now c) }
    ensures refused { IfErr result (λ e. IsRefused p.now e) }
{
    let mut g = Globals::start(alloc)?;
    let mut holes = 0;
    let mut decls = Vec::new(alloc);
    for decl in &p.decls {
        let decl = declaration(alloc, &mut g, &mut holes, decl)?;
        decls.push(decl)?;
    }
    Ok(CoreProgram { decls })
}

// a declaration, which then stands above what follows
fn declaration(
    alloc: Global,
    g: &mut Globals,
    holes: &mut u32,
    decl: &Decl,
) -> Result<CoreDecl, NameEnd>
    ensures read { IfOk result (λ c. spec.declare g.old (decl_of decl.now) holes.old ≡ As (declaration_of c, g.new) holes.new) }
    ensures refused { IfErr result (λ e. Refuses (spec.declare g.old (decl_of decl.now) holes.old) e) }
{
    match decl {
        Decl::DataD {
            at,
            name,
            params,
            ctors,
        } => Ok(CoreDecl::DataC(data(alloc, g, holes, *at, name, params, ctors)?)),
        Decl::MetaD { at, name, ty, body } => {
            let (name, ty, body) = definition(alloc, g, holes, *at, name, ty, body)?;
            Ok(CoreDecl::MetaC { name, ty, body })
        }
        Decl::ObjectD { at, name, ty, body } => {
            let (name, ty, body) = definition(alloc, g, holes, *at, name, ty, body)?;
            Ok(CoreDecl::ObjectC { name, ty, body })
        }
    }
}

// a meta definition or an object declaration: its name, its type and its body
fn definition(
    alloc: Global,
    g: &mut Globals,
    holes: &mut u32,
    at: At,
    name: &String,
    ty: &Tree,
    body: &Tree,
) -> Result<(String, Term, Term), NameEnd>
    ensures meta { IfOk result (λ r. spec.declare g.old (MetaD (named at name.now) ty.now body.now) holes.old ≡ As (MetaC (string_bytes r.0) r.1 r.2, g.new) holes.new) }
    ensures object { IfOk result (λ r. spec.declare g.old (ObjectD (named at name.now) ty.now body.now) holes.old ≡ As (ObjectC (string_bytes r.0) r.1 r.2, g.new) holes.new) }
    ensures meta_refused { IfErr result (λ e. Refuses (spec.declare g.old (MetaD (named at name.now) ty.now body.now) holes.old) e) }
    ensures object_refused { IfErr result (λ e. Refuses (spec.declare g.old (ObjectD (named at name.now) ty.now body.now) holes.old) e) }
{
    let declared = new_name(g, at, name)?;
    let ty = term(alloc, g, holes, ty)?;
    let body = term(alloc, g, holes, body)?;
    g.push_variable(declared.clone()?)?;
    Ok((declared, ty, body))
}

// a data declaration
fn data(
    alloc: Global,
    g: &mut Globals,
    holes: &mut u32,
    at: At,
    name: &String,
    params: &Vec<String>,
    ctors: &Vec<CtorTree>,
) -> Result<DataDecl, NameEnd>
    ensures read { IfOk result (λ r. spec.declare g.old (DataD (named at name.now) (names_of params.now.items) (ctors_of ctors.now.items)) holes.old ≡ As (DataC r, g.new) holes.new) }
    ensures refused { IfErr result (λ e. Refuses (spec.declare g.old (DataD (named at name.now) (names_of params.now.items) (ctors_of ctors.now.items)) holes.old) e) }
{
    let declared = new_name(g, at, name)?;
    let data_type = number(g.types())?;
    let count = number(params.len())?;
    g.push_type(declared.clone()?)?;
    let ctors = constructors(alloc, g, holes, data_type, params, ctors)?;
    g.settle();
    Ok(DataDecl {
        name: declared,
        params: count,
        ctors,
    })
}

// the constructors of the data type with this number
fn constructors(
    alloc: Global,
    g: &mut Globals,
    holes: &mut u32,
    data_type: u32,
    params: &Vec<String>,
    ctors: &Vec<CtorTree>,
) -> Result<Vec<Ctor>, NameEnd>
    ensures read { IfOk result (λ r. spec.declare_ctors data_type (names_of params.now.items) g.old (ctors_of ctors.now.items) holes.old ≡ As (r.items, g.new) holes.new) }
    ensures refused { IfErr result (λ e. Refuses (spec.declare_ctors data_type (names_of params.now.items) g.old (ctors_of ctors.now.items) holes.old) e) }
{
    let mut read = Vec::new(alloc);
    for ctor in ctors {
        let ctor = constructor(alloc, g, holes, data_type, params, ctor)?;
        read.push(ctor)?;
    }
    Ok(read)
}

// one of these constructors
fn constructor(
    alloc: Global,
    g: &mut Globals,
    holes: &mut u32,
    data_type: u32,
    params: &Vec<String>,
    ctor: &CtorTree,
) -> Result<Ctor, NameEnd>
    ensures read { IfOk result (λ r. DeclaresCtor data_type (names_of params.now.items) g.old (ctor_of ctor.now) holes.old r g.new holes.new) }
    ensures refused { IfErr result (λ e. RefusesCtor data_type (names_of params.now.items) g.old (ctor_of ctor.now) holes.old e) }
{
    let name = new_name(g, ctor.at, &ctor.name)?;
    let fields = fields_under(alloc, g, holes, params, &ctor.fields)?;
    let numbers = CtorNumber {
        data_type,
        ctor: number(g.own())?,
        params: number(params.len())?,
    };
    g.push_ctor(name.clone()?, numbers)?;
    Ok(Ctor { name, fields })
}

// the types of fields, under these parameters
fn fields_under(
    alloc: Global,
    g: &Globals,
    holes: &mut u32,
    params: &Vec<String>,
    fields: &Vec<Tree>,
) -> Result<Vec<Term>, NameEnd>
    ensures read { IfOk result (λ r. each (spec.resolve g.now (under (map Some (names_of params.now.items)) [])) fields.now.items holes.old ≡ As r.items holes.new) }
    ensures refused { IfErr result (λ e. Refuses (each (spec.resolve g.now (under (map Some (names_of params.now.items)) [])) fields.now.items holes.old) e) }
{
    let mut scope = Scope {
        locals: Locals::new(alloc),
        holes: *holes,
    };
    scope.locals.enter_params(params)?;
    let read = terms(alloc, g, &mut scope, fields)?;
    *holes = scope.holes;
    Ok(read)
}

// each of these terms
fn terms<'a>(
    alloc: Global,
    g: &Globals,
    scope: &mut Scope<'a>,
    ts: &'a Vec<Tree>,
) -> Result<Vec<Term>, NameEnd>
    ensures read { IfOk result (λ r. each (spec.resolve g.now scope.old.locals) ts.now.items scope.old.holes ≡ As r.items scope.new.holes) }
    ensures refused { IfErr result (λ e. Refuses (each (spec.resolve g.now scope.old.locals) ts.now.items scope.old.holes) e) }
{
    let mut read = Vec::new(alloc);
    for t in ts {
        let t = resolve(alloc, g, scope, t)?;
        read.push(t)?;
    }
    Ok(read)
}

// a term under no local variables
fn term(alloc: Global, g: &Globals, holes: &mut u32, t: &Tree) -> Result<Term, NameEnd>
    ensures read { IfOk result (λ r. spec.resolve g.now [] t.now holes.old ≡ As r holes.new) }
    ensures refused { IfErr result (λ e. Refuses (spec.resolve g.now [] t.now holes.old) e) }
{
    let mut scope = Scope {
        locals: Locals::new(alloc),
        holes: *holes,
    };
    let read = resolve(alloc, g, &mut scope, t)?;
    *holes = scope.holes;
    Ok(read)
}

// a name that is declared, where it is new
fn new_name(g: &Globals, at: At, name: &String) -> Result<String, NameEnd>
    ensures name { IfOk result (λ s. string_bytes s ≡ string_bytes name.now) }
    ensures new { OnOk result (is_taken g.now (string_bytes name.now) ≡ false) }
    ensures refused { IfErr result (λ e. IsTwice at (is_taken g.now (string_bytes name.now)) e) }
{
    if g.is_taken(name.as_str()) {
        return Err(NameEnd::Twice(at));
    }
    Ok(name.clone()?)
}
