// Programs and terms from their text.
use cf_core_text::core_text;
use cf_elab::direct;
use cf_lex::tokens;
use cf_parse::parse;
use cf_rules::{CoreDecl, CoreProgram};
use cf_term::Term;
use cf_tree::Program;
use std::alloc::Global;
use std::rc::Rc;
use std::test::Fail;

/// A data type that stands above terms.
pub(crate) const DATA: &str = "data D (p : ValTy) (q : ValTy) := none() | one(p) | two(p, q);";

/// The program with this text.
pub(crate) fn program_of(alloc: Global, text: &str) -> Result<Program, Fail> {
    if text.len() > 1048576 {
        return Err(Fail::from("too long"));
    }
    let found = tokens(alloc, text.as_bytes())?;
    Ok(parse(alloc, &found, false)?)
}

/// The core of the program with this text.
pub(crate) fn core_of(alloc: Global, text: &str) -> Result<CoreProgram, Fail> {
    let program = program_of(alloc, text)?;
    Ok(direct(alloc, &program)?)
}

/// The core of the program with this text, as it is printed.
pub(crate) fn printed(alloc: Global, text: &str) -> Result<String, Fail> {
    let core = core_of(alloc, text)?;
    Ok(String::from_utf8(core_text(alloc, &core)?)?)
}

fn body_of(decl: CoreDecl) -> Option<Term> {
    match decl {
        CoreDecl::MetaC { body, .. } => Some(body),
        CoreDecl::ObjectC { body, .. } => Some(body),
        CoreDecl::DataC(_) => None,
    }
}

/// The body of the last declaration of the program with this text. Terms are kept shared, so that a function that has several drops each by
/// one call.
pub(crate) fn last_body(alloc: Global, text: &str) -> Result<Rc<Term>, Fail> {
    let mut core = core_of(alloc, text)?;
    match core.decls.pop() {
        Some(decl) => Ok(Rc::new(alloc, body_of(decl).ok_or("no body")?)?),
        None => Err(Fail::from("no declaration")),
    }
}

/// The term with this text below these declarations.
pub(crate) fn body_below(alloc: Global, above: &str, text: &str) -> Result<Rc<Term>, Fail> {
    let program = format!(in alloc; "{above} main : Int := {text};")?;
    last_body(alloc, program.as_str())
}

/// The term with this text, where these letters are its variables, the last of them innermost.
pub(crate) fn term_of(alloc: Global, variables: &str, text: &str) -> Result<Rc<Term>, Fail> {
    let mut above = String::from_str(alloc, DATA)?;
    for name in variables.chars() {
        above.push_str(" ")?;
        above.push(name)?;
        above.push_str(" : Int := 0;")?;
    }
    body_below(alloc, above.as_str(), text)
}

/// The two fields of a row.
pub(crate) fn two(row: &str) -> Result<(&str, &str), Fail> {
    Ok(row.split_once(" § ").ok_or("not two fields")?)
}

/// The three fields of a row.
pub(crate) fn three(row: &str) -> Result<(&str, &str, &str), Fail> {
    let (first, rest) = two(row)?;
    let (second, third) = two(rest)?;
    Ok((first, second, third))
}

/// The number of a field.
pub(crate) fn number(field: &str) -> Result<u32, Fail> {
    match field.parse::<u32>() {
        Ok(n) => Ok(n),
        Err(_) => Err(Fail::from("no number")),
    }
}

/// So many times the piece.
fn push_repeated(text: &mut String, count: u32, piece: &str) -> Result<(), Fail> {
    for _ in 0..count {
        text.push_str(piece)?;
    }
    Ok(())
}

/// The text where each second part between `×` is repeated, as `×3:ab×` for `ababab`.
pub(crate) fn expanded(alloc: Global, row: &str) -> Result<String, Fail> {
    let mut text = String::new(alloc);
    for part in row.split('×') {
        match part.split_once(':') {
            Some((count, piece)) => match count.parse::<u32>() {
                Ok(count) => push_repeated(&mut text, count, piece)?,
                Err(_) => text.push_str(part)?,
            },
            None => text.push_str(part)?,
        }
    }
    Ok(text)
}
