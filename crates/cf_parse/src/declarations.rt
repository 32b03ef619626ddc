// The actions that make declarations and programs.
ghost use Rattle.std.specs.Prelude.{◌≡◌, ◌∷◌, [], IfOk, map, reverse};
ghost use Rattle.cf_base.specs.declared.at.At as places;
ghost use Rattle.cf_grammar.specs.declared.productions.Production.TheVariants as by;
ghost use Rattle.cf_tree.specs.View.{names_of};
ghost use Rattle.cf_parse.specs.Evaluation.{reduced};
ghost use Rattle.cf_parse.specs.Kinds as kind;
ghost use Rattle.cf_parse.specs.Kinds.{AllFit, Fits, params};
ghost use Rattle.cf_parse.specs.Meaning.{Sem, names_in};
ghost use Rattle.cf_parse.specs.Meaning as meant;
ghost use Rattle.cf_parse.specs.Values.{ctor_sem, decl_sem, listed, sems, term_of, token_of};

use crate::taking::take_token;
use crate::values::{Value, discard, pop, push};
use cf_base::At;
use cf_syntax::{OutOfMemory, Source};
use cf_tree::{CtorTree, Decl, Program, Tree};

// `explicit;` and declarations.
pub(crate) fn explicit_program(
    source: &Source<'_>,
    values: &mut Vec<Value>,
    place: At,
) -> Result<(), OutOfMemory>
    requires { AllFit (params by.Explicit) (sems source.now values.old) }
    ensures { IfOk result (λ _. sems source.now values.new ≡ reduced by.Explicit place (sems source.now values.old)) }
{
    discard(values);
    discard(values);
    let mut decls = pop(values).decls(source.alloc)?;
    decls.reverse();
    let program = Program {
        explicit: true,
        prelude: false,
        decls,
    };
    push(values, Value::Program(program))?;
    Ok(())
}

// `use prelude;` and declarations.
pub(crate) fn prelude_program(
    source: &Source<'_>,
    values: &mut Vec<Value>,
    place: At,
) -> Result<(), OutOfMemory>
    requires { AllFit (params by.Prelude) (sems source.now values.old) }
    ensures { IfOk result (λ _. sems source.now values.new ≡ reduced by.Prelude place (sems source.now values.old)) }
{
    discard(values);
    discard(values);
    discard(values);
    let mut decls = pop(values).decls(source.alloc)?;
    decls.reverse();
    let program = Program {
        explicit: false,
        prelude: true,
        decls,
    };
    push(values, Value::Program(program))?;
    Ok(())
}

// Declarations, with no head before them.
pub(crate) fn plain_program(
    source: &Source<'_>,
    values: &mut Vec<Value>,
    place: At,
) -> Result<(), OutOfMemory>
    requires { AllFit (params by.Plain) (sems source.now values.old) }
    ensures { IfOk result (λ _. sems source.now values.new ≡ reduced by.Plain place (sems source.now values.old)) }
{
    if let Value::Decl(first) = pop(values) {
        let mut decls = pop(values).decls(source.alloc)?;
        decls.push(Box::into_inner(first))?;
        decls.reverse();
        let program = Program {
            explicit: false,
            prelude: false,
            decls,
        };
        push(values, Value::Program(program))?;
    }
    Ok(())
}

// `data d (a : ValTy) .. := c (t, ..) | ..;`
pub(crate) fn data(
    source: &Source<'_>,
    values: &mut Vec<Value>,
    place: At,
) -> Result<(), OutOfMemory>
    requires { AllFit (params by.Data) (sems source.now values.old) }
    ensures { IfOk result (λ _. sems source.now values.new ≡ reduced by.Data place (sems source.now values.old)) }
{
    discard(values);
    let name = take_token(values);
    let params = pop(values).names(source.alloc)?;
    discard(values);
    let ctors = pop(values).ctors(source.alloc)?;
    discard(values);
    let decl = data_of(source, name, params, ctors)?;
    push(values, Value::Decl(decl))?;
    Ok(())
}

// A data type: its name, the names of its parameters and its constructors; both lists have the last one first.
fn data_of(
    source: &Source<'_>,
    name: usize,
    params: Vec<usize>,
    ctors: Vec<CtorTree>,
) -> Result<Box<Decl>, OutOfMemory>
    ensures { IfOk result (λ d. (p : places.At) (k l m : Sem) → Fits kind.Name (token_of source.now name) → Fits (kind.Many kind.Name) (listed (map (token_of source.now) (reverse params.items))) → decl_sem d.value ≡ meant.data_decl p (k ∷ token_of source.now name ∷ listed (map (token_of source.now) (reverse params.items)) ∷ l ∷ listed (map ctor_sem (reverse ctors.items)) ∷ m ∷ [])) }
{
    let mut ctors = ctors;
    ctors.reverse();
    let decl = Decl::DataD {
        at: source.place(name),
        name: source.text(name)?,
        params: texts(source, params)?,
        ctors,
    };
    let decl = Box::new(source.alloc, decl)?;
    Ok(decl)
}

// The names with these numbers, which have the last one first.
fn texts(source: &Source<'_>, numbers: Vec<usize>) -> Result<Vec<String>, OutOfMemory>
    ensures { IfOk result (λ v. Fits (kind.Many kind.Name) (listed (map (token_of source.now) (reverse numbers.items))) → names_of v.items ≡ names_in (listed (map (token_of source.now) (reverse numbers.items)))) }
{
    let mut numbers = numbers;
    let mut names = Vec::new(source.alloc);
    while let Some(at) = numbers.pop() {
        names.push(source.text(at)?)?;
    }
    Ok(names)
}

// `meta x : a := t;`
pub(crate) fn meta(
    source: &Source<'_>,
    values: &mut Vec<Value>,
    place: At,
) -> Result<(), OutOfMemory>
    requires { AllFit (params by.Meta) (sems source.now values.old) }
    ensures { IfOk result (λ _. sems source.now values.new ≡ reduced by.Meta place (sems source.now values.old)) }
{
    discard(values);
    let name = take_token(values);
    discard(values);
    let ty = pop(values).term(source.alloc)?;
    discard(values);
    let body = pop(values).term(source.alloc)?;
    discard(values);
    let decl = meta_of(source, name, ty, body)?;
    push(values, Value::Decl(decl))?;
    Ok(())
}

// A definition at the meta level: its name, its type and what it stands for.
fn meta_of(
    source: &Source<'_>,
    name: usize,
    ty: Box<Tree>,
    body: Box<Tree>,
) -> Result<Box<Decl>, OutOfMemory>
    ensures { IfOk result (λ d. (p : places.At) (k l m n : Sem) → Fits kind.Name (token_of source.now name) → decl_sem d.value ≡ meant.meta_decl p (k ∷ token_of source.now name ∷ l ∷ term_of ty.value ∷ m ∷ term_of body.value ∷ n ∷ [])) }
{
    let decl = Decl::MetaD {
        at: source.place(name),
        name: source.text(name)?,
        ty: Box::into_inner(ty),
        body: Box::into_inner(body),
    };
    let decl = Box::new(source.alloc, decl)?;
    Ok(decl)
}

// `x : a := t;`
pub(crate) fn object(
    source: &Source<'_>,
    values: &mut Vec<Value>,
    place: At,
) -> Result<(), OutOfMemory>
    requires { AllFit (params by.Object) (sems source.now values.old) }
    ensures { IfOk result (λ _. sems source.now values.new ≡ reduced by.Object place (sems source.now values.old)) }
{
    let name = take_token(values);
    discard(values);
    let ty = pop(values).term(source.alloc)?;
    discard(values);
    let body = pop(values).term(source.alloc)?;
    discard(values);
    let decl = object_of(source, name, ty, body)?;
    push(values, Value::Decl(decl))?;
    Ok(())
}

// A definition at the object level: its name, its type and what it stands for.
fn object_of(
    source: &Source<'_>,
    name: usize,
    ty: Box<Tree>,
    body: Box<Tree>,
) -> Result<Box<Decl>, OutOfMemory>
    ensures { IfOk result (λ d. (p : places.At) (k l m : Sem) → Fits kind.Name (token_of source.now name) → decl_sem d.value ≡ meant.object_decl p (token_of source.now name ∷ k ∷ term_of ty.value ∷ l ∷ term_of body.value ∷ m ∷ [])) }
{
    let decl = Decl::ObjectD {
        at: source.place(name),
        name: source.text(name)?,
        ty: Box::into_inner(ty),
        body: Box::into_inner(body),
    };
    let decl = Box::new(source.alloc, decl)?;
    Ok(decl)
}

// `(a : ValTy)`: a parameter is its name.
pub(crate) fn parameter(
    source: &Source<'_>,
    values: &mut Vec<Value>,
    place: At,
) -> Result<(), OutOfMemory>
    requires { AllFit (params by.Param) (sems source.now values.old) }
    ensures { IfOk result (λ _. sems source.now values.new ≡ reduced by.Param place (sems source.now values.old)) }
{
    discard(values);
    let name = take_token(values);
    discard(values);
    discard(values);
    discard(values);
    push(values, Value::Token(name))?;
    Ok(())
}

// `c (t, ..)`: a constructor.
pub(crate) fn constructor(
    source: &Source<'_>,
    values: &mut Vec<Value>,
    place: At,
) -> Result<(), OutOfMemory>
    requires { AllFit (params by.Ctor) (sems source.now values.old) }
    ensures { IfOk result (λ _. sems source.now values.new ≡ reduced by.Ctor place (sems source.now values.old)) }
{
    let name = take_token(values);
    discard(values);
    let fields = pop(values).terms(source.alloc)?;
    discard(values);
    let ctor = ctor_of(source, name, fields)?;
    push(values, Value::Ctor(ctor))?;
    Ok(())
}

// A constructor: its name and the types of its fields, the last one first.
fn ctor_of(
    source: &Source<'_>,
    name: usize,
    fields: Vec<Tree>,
) -> Result<Box<CtorTree>, OutOfMemory>
    ensures { IfOk result (λ c. (p : places.At) (k l : Sem) → Fits kind.Name (token_of source.now name) → ctor_sem c.value ≡ meant.a_ctor p (token_of source.now name ∷ k ∷ listed (map term_of (reverse fields.items)) ∷ l ∷ [])) }
{
    let mut fields = fields;
    fields.reverse();
    let ctor = CtorTree {
        at: source.place(name),
        name: source.text(name)?,
        fields,
    };
    let ctor = Box::new(source.alloc, ctor)?;
    Ok(ctor)
}
