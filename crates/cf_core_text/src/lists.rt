// Lists of parts with commas between.
ghost use Rattle.std.specs.Prelude.{◌≡◌, ◌∷◌, ◌++◌, [], max, length, suc, IfOk, OnOk};
ghost use Rattle.cf_term.specs.Core.{depth_all, nil, ConH};
ghost use Rattle.cf_term.specs.View.{listed as terms};
ghost use Rattle.cf_core_text.specs.Layout.{Adds, Lays};
ghost use Rattle.cf_core_text.specs.Pieces.{bracketed, further, listed, printed_all, shown, written};

use crate::layouts::{Item, Layout, push_all};
use crate::pieces::{Piece, Place};
use crate::scopes::Scope;
use cf_lex::{Keyword, Mark};
use cf_term::Term;
use std::alloc::{AllocError, Global};
use std::rc::Rc;

// Each behind a comma.
fn push_further<'a>(
    items: &mut Vec<Item<'a>>,
    s: Scope,
    ts: &'a [Rc<Term>],
) -> Result<(), AllocError>
    ensures { OnOk result (Adds items.old.items items.new.items (further (printed_all s.globals s.depth [] (terms ts.now nil))) (depth_all (terms ts.now nil))) }
{
    for t in ts {
        push_all(
            items,
            &[
                Item::Token(Piece::Mark(Mark::Comma)),
                Item::Part(Place::Term, s, t),
            ],
        )?;
    }
    Ok(())
}

// With commas between.
fn push_listed<'a>(
    items: &mut Vec<Item<'a>>,
    s: Scope,
    ts: &'a [Rc<Term>],
) -> Result<(), AllocError>
    ensures { OnOk result (Adds items.old.items items.new.items (listed (printed_all s.globals s.depth [] (terms ts.now nil))) (depth_all (terms ts.now nil))) }
{
    match ts {
        [] => Ok(()),
        [t, rest @ ..] => {
            push_all(items, &[Item::Part(Place::Term, s, t)])?;
            push_further(items, s, rest)?;
            Ok(())
        }
    }
}

/// `D[a, ..]`
pub fn data<'a>(
    alloc: Global,
    number: u32,
    s: Scope,
    params: &'a [Rc<Term>],
) -> Result<Layout<'a>, AllocError>
    ensures { IfOk result
        (λ l.
        Lays l (shown Place.Atom (Piece.DataType number ∷ bracketed (printed_all s.globals s.depth [] (terms params.now nil)) []))
        (suc (depth_all (terms params.now nil)))) }
{
    let mut items = Vec::new(alloc);
    push_all(
        &mut items,
        &[
            Item::Token(Piece::DataType(number as usize)),
            Item::Token(Piece::Mark(Mark::OpenBracket)),
        ],
    )?;
    push_listed(&mut items, s, params)?;
    push_all(&mut items, &[Item::Token(Piece::Mark(Mark::CloseBracket))])?;
    Ok(Layout {
        class: Place::Atom,
        items,
    })
}

/// `con c[a, ..](t, ..)`
pub fn con<'a>(
    alloc: Global,
    data_type: u32,
    ctor: u32,
    s: Scope,
    params: &'a [Rc<Term>],
    fields: &'a [Rc<Term>],
) -> Result<Layout<'a>, AllocError>
    ensures { IfOk result
        (λ l.
        Lays l (written s.globals s.depth (ConH data_type ctor (length params.now)) (printed_all s.globals s.depth [] (terms params.now (terms fields.now nil))))
        (suc (depth_all (terms params.now (terms fields.now nil))))) }
{
    let mut items = Vec::new(alloc);
    push_all(
        &mut items,
        &[
            Item::Token(Piece::Word(Keyword::Con)),
            Item::Token(Piece::Ctor(data_type as usize, ctor as usize)),
            Item::Token(Piece::Mark(Mark::OpenBracket)),
        ],
    )?;
    push_listed(&mut items, s, params)?;
    push_all(
        &mut items,
        &[
            Item::Token(Piece::Mark(Mark::CloseBracket)),
            Item::Token(Piece::Fields),
        ],
    )?;
    push_listed(&mut items, s, fields)?;
    push_all(&mut items, &[Item::Token(Piece::Mark(Mark::CloseParen))])?;
    Ok(Layout {
        class: Place::Atom,
        items,
    })
}
