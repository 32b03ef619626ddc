// Programs as text.
ghost use Rattle.std.specs.Prelude.{◌≡◌, ◌++◌, string_bytes, IfOk, OnOk};
ghost use Rattle.cf_core_text.specs.Lines.{lines, line_text};
ghost use Rattle.cf_core_text.specs.Lines as spec;
ghost use Rattle.cf_core_text.specs.Tables.{names_in};
ghost use Rattle.cf_rules.specs.View.{declarations};

use crate::lines::{Above, push_declaration};
use crate::naming::{Names, flag, names_of};
use crate::pieces::Piece;
use crate::spelling::push_line;
use cf_base::NoMemory;
use cf_lex::{Keyword, Mark};
use cf_rules::{CoreDecl, CoreProgram};
use std::alloc::{AllocError, Global};

/// The printed form of a program: the line `explicit;`, and a line for each declaration, in order.
///
/// # Errors
///
/// `NoMemory` where memory runs out, or where a number of the program would pass 64 bits.
pub fn core_text(alloc: Global, p: &CoreProgram) -> Result<Vec<u8>, NoMemory>
    ensures text { IfOk result (λ bytes. bytes.items ≡ spec.core_text p.now) }
{
    match written(alloc, p) {
        Ok(text) => Ok(text.into_bytes()),
        Err(_) => Err(NoMemory),
    }
}

fn written(alloc: Global, p: &CoreProgram) -> Result<String, AllocError>
    ensures { IfOk result (λ text. string_bytes text ≡ spec.core_text p.now) }
{
    let flag = flag(alloc)?;
    let names = names_of(alloc, &flag, &p.decls)?;
    let mut out = String::new(alloc);
    push_line(
        &mut out,
        &names,
        &[Piece::Word(Keyword::Explicit), Piece::Mark(Mark::Semicolon)],
    )?;
    push_lines(alloc, &mut out, &names, &p.decls)?;
    Ok(out)
}

// The lines of declarations.
fn push_lines(
    alloc: Global,
    out: &mut String,
    names: &Names<'_>,
    decls: &[CoreDecl],
) -> Result<(), AllocError>
    ensures { OnOk result (string_bytes out.new ≡ string_bytes out.old ++ line_text (names_in names.now) (lines 1 0 (declarations decls.now))) }
{
    let mut above = Above {
        types: 1,
        globals: 0,
    };
    for decl in decls {
        let mut line = Vec::new(alloc);
        push_declaration(alloc, &mut line, above, decl)?;
        push_line(out, names, &line)?;
        above = above.below(decl)?;
    }
    Ok(())
}
