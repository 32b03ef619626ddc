// The lines of declarations as printed tokens.
ghost use Rattle.std.specs.Prelude.{◌≡◌, ◌+◌, ◌∷◌, ◌++◌, [], map, IfOk, OnOk};
ghost use Rattle.cf_core_text.specs.Lines.{bar, constructor, constructors, data_line, definition, globals_below, parameters, types_below};
ghost use Rattle.cf_core_text.specs.Pieces.{further, listed, printed};
ghost use Rattle.cf_core_text.specs.Lines as spec;
ghost use Rattle.cf_rules.specs.View.{declaration};

use crate::pieces::{Piece, Place};
use crate::printing::print;
use crate::scopes::Scope;
use cf_lex::{Keyword, Mark};
use cf_rules::{CoreDecl, Ctor, DataDecl};
use cf_term::Term;
use std::alloc::{AllocError, Global};

/// How many data types and how many globals stand above a declaration.
#[derive(Clone, Copy)]
pub struct Above {
    /// how many data types, the predeclared one included
    pub types: usize,
    /// how many meta definitions and object declarations
    pub globals: usize,
}

impl Above {
    /// What stands above the next declaration.
    pub fn below(self, decl: &CoreDecl) -> Result<Above, AllocError>
        ensures { IfOk result (λ a. a ≡ record { types = types_below self.types (declaration decl.now); globals = globals_below self.globals (declaration decl.now) }) }
    {
        match decl {
            CoreDecl::DataC(_) => self.more(1, 0),
            CoreDecl::MetaC { .. } => self.more(0, 1),
            CoreDecl::ObjectC { .. } => self.more(0, 1),
        }
    }

    fn more(self, types: usize, globals: usize) -> Result<Above, AllocError>
        ensures { IfOk result (λ a. a ≡ record { types = self.types + types; globals = self.globals + globals }) }
    {
        let types = self.types.checked_add(types).ok_or(AllocError)?;
        let globals = self.globals.checked_add(globals).ok_or(AllocError)?;
        Ok(Above { types, globals })
    }

    // The variables at the beginning of a declaration.
    fn scope(self) -> Scope
        ensures { result ≡ record { globals = self.globals; depth = self.globals } }
    {
        Scope {
            globals: self.globals,
            depth: self.globals,
        }
    }
}

// Each behind a comma.
fn push_further(
    alloc: Global,
    line: &mut Vec<Piece>,
    s: Scope,
    fields: &[Term],
) -> Result<(), AllocError>
    ensures { OnOk result (line.new.items ≡ line.old.items ++ further (map (printed s.globals s.depth) fields.now)) }
{
    for field in fields {
        line.push(Piece::Mark(Mark::Comma))?;
        print(alloc, line, Place::Term, s, field)?;
    }
    Ok(())
}

// With commas between.
fn push_fields(
    alloc: Global,
    line: &mut Vec<Piece>,
    s: Scope,
    fields: &[Term],
) -> Result<(), AllocError>
    ensures { OnOk result (line.new.items ≡ line.old.items ++ listed (map (printed s.globals s.depth) fields.now)) }
{
    match fields {
        [] => Ok(()),
        [field, rest @ ..] => {
            print(alloc, line, Place::Term, s, field)?;
            push_further(alloc, line, s, rest)?;
            Ok(())
        }
    }
}

// A constructor: `number` is its own in the data type with number `data_type`.
fn push_constructor(
    alloc: Global,
    line: &mut Vec<Piece>,
    s: Scope,
    data_type: usize,
    number: usize,
    ctor: &Ctor,
) -> Result<(), AllocError>
    ensures { OnOk result (line.new.items ≡ line.old.items ++ constructor s.globals s.depth data_type number ctor.now) }
{
    line.extend_from_slice(&[Piece::Ctor(data_type, number), Piece::Mark(Mark::OpenParen)])?;
    push_fields(alloc, line, s, &ctor.fields)?;
    line.push(Piece::Mark(Mark::CloseParen))?;
    Ok(())
}

// A bar before each constructor but the first.
fn push_bar(line: &mut Vec<Piece>, number: usize) -> Result<(), AllocError>
    ensures { OnOk result (line.new.items ≡ line.old.items ++ bar number) }
{
    if number == 0 {
        return Ok(());
    }
    line.push(Piece::Mark(Mark::Bar))?;
    Ok(())
}

// The constructors of a data type, with bars between.
fn push_constructors(
    alloc: Global,
    line: &mut Vec<Piece>,
    s: Scope,
    data_type: usize,
    ctors: &[Ctor],
) -> Result<(), AllocError>
    ensures { OnOk result (line.new.items ≡ line.old.items ++ constructors s.globals s.depth data_type 0 ctors.now) }
{
    for (number, ctor) in ctors.iter().enumerate() {
        push_bar(line, number)?;
        push_constructor(alloc, line, s, data_type, number, ctor)?;
    }
    Ok(())
}

// So many parameters.
fn push_parameters(line: &mut Vec<Piece>, count: u32) -> Result<(), AllocError>
    ensures { OnOk result (line.new.items ≡ line.old.items ++ parameters 0 count) }
{
    for k in 0..count {
        line.extend_from_slice(&[
            Piece::Mark(Mark::OpenParen),
            Piece::Local(k as usize),
            Piece::Mark(Mark::Colon),
            Piece::Word(Keyword::ValTy),
            Piece::Mark(Mark::CloseParen),
        ])?;
    }
    Ok(())
}

// A data declaration.
fn push_data(
    alloc: Global,
    line: &mut Vec<Piece>,
    above: Above,
    decl: &DataDecl,
) -> Result<(), AllocError>
    ensures { OnOk result (line.new.items ≡ line.old.items ++ data_line above.types above.globals decl.now) }
{
    let s = above.scope().under(decl.params as usize)?;
    line.extend_from_slice(&[Piece::Word(Keyword::Data), Piece::DataType(above.types)])?;
    push_parameters(line, decl.params)?;
    line.push(Piece::Mark(Mark::Becomes))?;
    push_constructors(alloc, line, s, above.types, &decl.ctors)?;
    line.push(Piece::Mark(Mark::Semicolon))?;
    Ok(())
}

// A name with its type and what it stands for.
fn push_definition(
    alloc: Global,
    line: &mut Vec<Piece>,
    above: Above,
    ty: &Term,
    body: &Term,
) -> Result<(), AllocError>
    ensures { OnOk result (line.new.items ≡ line.old.items ++ definition above.globals ty.now body.now) }
{
    let s = above.scope();
    line.extend_from_slice(&[Piece::Global(above.globals), Piece::Mark(Mark::Colon)])?;
    print(alloc, line, Place::Term, s, ty)?;
    line.push(Piece::Mark(Mark::Becomes))?;
    print(alloc, line, Place::Term, s, body)?;
    line.push(Piece::Mark(Mark::Semicolon))?;
    Ok(())
}

/// Adds the tokens of a declaration.
pub fn push_declaration(
    alloc: Global,
    line: &mut Vec<Piece>,
    above: Above,
    decl: &CoreDecl,
) -> Result<(), AllocError>
    ensures { OnOk result (line.new.items ≡ line.old.items ++ spec.line above.types above.globals (declaration decl.now)) }
{
    match decl {
        CoreDecl::DataC(data_type) => {
            push_data(alloc, line, above, data_type)?;
            Ok(())
        }
        CoreDecl::MetaC { ty, body, .. } => {
            line.push(Piece::Word(Keyword::Meta))?;
            push_definition(alloc, line, above, ty, body)?;
            Ok(())
        }
        CoreDecl::ObjectC { ty, body, .. } => {
            push_definition(alloc, line, above, ty, body)?;
            Ok(())
        }
    }
}
