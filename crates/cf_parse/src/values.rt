// The values that the parser keeps on its stack, and what they are taken for.
ghost use Rattle.std.specs.Prelude.{◌≡◌, ◌∷◌, ℕ, List, IfOk, Some, map, option_map, reverse};
ghost use Rattle.cf_parse.specs.Kinds as kind;
ghost use Rattle.cf_parse.specs.Kinds.{AllFit, Fits, IsToken};
ghost use Rattle.cf_parse.specs.Meaning.{Sem, program_in};
ghost use Rattle.cf_parse.specs.Values.{Taken, arm_of, argument_of, binder_sem, ctor_sem, decl_sem, domain_of, listed, optional_brackets, optional_onto, optional_term, sem, sems, term_of, token_of};
ghost use Rattle.cf_syntax.specs.declared.source.Source as sources;

use crate::parts::{Argument, Domain, missing, nowhere};
use cf_syntax::OutOfMemory;
use cf_tree::{Branch, CtorTree, Decl, Program, Tree};
use std::alloc::Global;

// What a phrase that was read stands for. A list has its first item apart, and the others last first. What is large is in a box,
// so that values are quick to move.
#[derive(Drop)]
pub(crate) enum Value {
    // a token, by its number
    Token(usize),
    // a list without items, or a part that is left out
    Nothing,
    Term(Box<Tree>),
    Binder(Option<String>),
    Domain(Domain),
    Argument(Argument),
    // what stands behind an arrow; true behind `=>`
    Onto(bool, Box<Tree>),
    // terms between brackets, in order
    Bracketed(Vec<Tree>),
    Arm(Box<Branch>),
    Ctor(Box<CtorTree>),
    Decl(Box<Decl>),
    Program(Program),
    Tokens(usize, Vec<usize>),
    Terms(Box<Tree>, Vec<Tree>),
    Binders(Option<String>, Vec<Option<String>>),
    Arguments(Argument, Vec<Argument>),
    Arms(Box<Branch>, Vec<Branch>),
    Ctors(Box<CtorTree>, Vec<CtorTree>),
    Decls(Box<Decl>, Vec<Decl>),
}

// Takes the topmost value.
pub(crate) fn pop(values: &mut Vec<Value>) -> Value
    ensures { (s : sources.Source) (j : kind.Kind) → Taken j (sems s values.old) (sem s result) (sems s values.new) }
{
    match values.pop() {
        Some(value) => value,
        None => Value::Nothing,
    }
}

// Takes the topmost value away.
pub(crate) fn discard(values: &mut Vec<Value>)
    ensures { (s : sources.Source) → (v : Sem) × ((j : kind.Kind) → Taken j (sems s values.old) v (sems s values.new)) }
{
    drop_value(pop(values));
}

// Lets a value go. Its drop goes over all variants, and is proved here alone.
pub(crate) fn drop_value(value: Value) {
    drop(value);
}

// Puts a value on top.
pub(crate) fn push(values: &mut Vec<Value>, value: Value) -> Result<(), OutOfMemory>
    ensures { IfOk result (λ _. (s : sources.Source) → sems s values.new ≡ sem s value ∷ sems s values.old) }
{
    values.push(value)?;
    Ok(())
}

impl Value {
    // The term that it is.
    pub fn term(self, alloc: Global) -> Result<Box<Tree>, OutOfMemory>
        ensures { IfOk result (λ t. (s : sources.Source) → Fits kind.Term (sem s self) → sem s self ≡ term_of t.value) }
    {
        match self {
            Value::Term(t) => Ok(t),
            other => {
                drop_value(other);
                Ok(Box::new(alloc, missing(nowhere()))?)
            }
        }
    }

    // The binder that it is.
    pub fn binder(self) -> Option<String>
        ensures { (s : sources.Source) → Fits kind.Binder (sem s self) → sem s self ≡ binder_sem result }
    {
        match self {
            Value::Binder(b) => b,
            other => {
                drop_value(other);
                None
            }
        }
    }

    // The binder with its type that it is.
    pub fn domain(self) -> Domain
        ensures { (s : sources.Source) → Fits kind.Domain (sem s self) → sem s self ≡ domain_of result }
    {
        match self {
            Value::Domain(d) => d,
            other => {
                drop_value(other);
                Domain {
                    implicit: false,
                    binder: None,
                    ty: None,
                }
            }
        }
    }

    // The number of the token that it is.
    pub fn token(&self) -> usize
        ensures { (s : sources.Source) (j : kind.Kind) → IsToken j → Fits j (sem s self.now) → sem s self.now ≡ token_of s result }
    {
        match self {
            Value::Token(at) => *at,
            _ => 0,
        }
    }

    // The numbers of the names of a list, the last one first.
    pub fn names(self, alloc: Global) -> Result<Vec<usize>, OutOfMemory>
        ensures { IfOk result (λ v. (s : sources.Source) → Fits (kind.Many kind.Name) (sem s self) → sem s self ≡ listed (map (token_of s) (reverse v.items))) }
    {
        match self {
            Value::Tokens(first, others) => {
                let mut all = others;
                all.push(first)?;
                Ok(all)
            }
            other => {
                drop_value(other);
                Ok(Vec::new(alloc))
            }
        }
    }

    // The terms of a list, the last one first.
    pub fn terms(self, alloc: Global) -> Result<Vec<Tree>, OutOfMemory>
        ensures { IfOk result (λ v. (s : sources.Source) → Fits (kind.Many kind.Term) (sem s self) → sem s self ≡ listed (map (term_of) (reverse v.items))) }
    {
        match self {
            Value::Terms(first, others) => {
                let mut all = others;
                all.push(Box::into_inner(first))?;
                Ok(all)
            }
            other => {
                drop_value(other);
                Ok(Vec::new(alloc))
            }
        }
    }

    // The binders of a list, the last one first.
    pub fn binders(self, alloc: Global) -> Result<Vec<Option<String>>, OutOfMemory>
        ensures { IfOk result (λ v. (s : sources.Source) → Fits (kind.Many kind.Binder) (sem s self) → sem s self ≡ listed (map (binder_sem) (reverse v.items))) }
    {
        match self {
            Value::Binders(first, others) => {
                let mut all = others;
                all.push(first)?;
                Ok(all)
            }
            other => {
                drop_value(other);
                Ok(Vec::new(alloc))
            }
        }
    }

    // The arguments of a list, the last one first.
    pub fn arguments(self, alloc: Global) -> Result<Vec<Argument>, OutOfMemory>
        ensures { IfOk result (λ v. (s : sources.Source) → Fits (kind.Many kind.Argument) (sem s self) → sem s self ≡ listed (map (argument_of) (reverse v.items))) }
    {
        match self {
            Value::Arguments(first, others) => {
                let mut all = others;
                all.push(first)?;
                Ok(all)
            }
            other => {
                drop_value(other);
                Ok(Vec::new(alloc))
            }
        }
    }

    // The arms of a list, the last one first.
    pub fn arms(self, alloc: Global) -> Result<Vec<Branch>, OutOfMemory>
        ensures { IfOk result (λ v. (s : sources.Source) → Fits (kind.Many kind.Arm) (sem s self) → sem s self ≡ listed (map (arm_of) (reverse v.items))) }
    {
        match self {
            Value::Arms(first, others) => {
                let mut all = others;
                all.push(Box::into_inner(first))?;
                Ok(all)
            }
            other => {
                drop_value(other);
                Ok(Vec::new(alloc))
            }
        }
    }

    // The constructors of a list, the last one first.
    pub fn ctors(self, alloc: Global) -> Result<Vec<CtorTree>, OutOfMemory>
        ensures { IfOk result (λ v. (s : sources.Source) → Fits (kind.Many kind.Ctor) (sem s self) → sem s self ≡ listed (map (ctor_sem) (reverse v.items))) }
    {
        match self {
            Value::Ctors(first, others) => {
                let mut all = others;
                all.push(Box::into_inner(first))?;
                Ok(all)
            }
            other => {
                drop_value(other);
                Ok(Vec::new(alloc))
            }
        }
    }

    // The declarations of a list, the last one first.
    pub fn decls(self, alloc: Global) -> Result<Vec<Decl>, OutOfMemory>
        ensures { IfOk result (λ v. (s : sources.Source) → Fits (kind.Many kind.Decl) (sem s self) → sem s self ≡ listed (map (decl_sem) (reverse v.items))) }
    {
        match self {
            Value::Decls(first, others) => {
                let mut all = others;
                all.push(Box::into_inner(first))?;
                Ok(all)
            }
            other => {
                drop_value(other);
                Ok(Vec::new(alloc))
            }
        }
    }

    // The term that it is, if it is one.
    pub fn optional_term(self) -> Option<Box<Tree>>
        ensures { (s : sources.Source) → Fits (kind.Maybe kind.Term) (sem s self) → sem s self ≡ optional_term result }
    {
        match self {
            Value::Term(t) => Some(t),
            other => {
                drop_value(other);
                None
            }
        }
    }

    // What stands behind an arrow, if one does; true behind `=>`.
    pub fn onto(self) -> Option<(bool, Box<Tree>)>
        ensures { (s : sources.Source) → Fits (kind.Maybe kind.Onto) (sem s self) → sem s self ≡ optional_onto result }
    {
        match self {
            Value::Onto(object, t) => Some((object, t)),
            other => {
                drop_value(other);
                None
            }
        }
    }

    // The terms between brackets, if brackets are written.
    pub fn bracketed(self) -> Option<Vec<Tree>>
        ensures { (s : sources.Source) → Fits (kind.Maybe kind.Bracketed) (sem s self) → sem s self ≡ optional_brackets result }
    {
        match self {
            Value::Bracketed(ts) => Some(ts),
            other => {
                drop_value(other);
                None
            }
        }
    }

    // The program that it is, which is the empty one if nothing is written.
    pub fn program(self, alloc: Global) -> Program
        ensures { (s : sources.Source) → Fits (kind.Maybe kind.Program) (sem s self) → program_in (sem s self) ≡ Some result }
    {
        match self {
            Value::Program(p) => p,
            other => {
                drop_value(other);
                Program {
                    explicit: false,
                    prelude: false,
                    decls: Vec::new(alloc),
                }
            }
        }
    }
}
