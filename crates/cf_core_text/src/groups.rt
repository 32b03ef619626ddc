// Groups of definitions.
ghost use Rattle.std.specs.Prelude.{◌≡◌, ◌∷◌, ◌++◌, [], length, suc, IfOk, OnOk};
ghost use Rattle.cf_term.specs.Core.{cons, depth_all, nil, group as parts};
ghost use Rattle.cf_term.specs.View.{definitions};
ghost use Rattle.cf_core_text.specs.Layout.{Adds, Lays, opened, word_at};
ghost use Rattle.cf_core_text.specs.Pieces.{group, printed, printed_all, shown, under};

use crate::layouts::{Item, Layout, push_all};
use crate::pieces::{Piece, Place};
use crate::scopes::Scope;
use cf_lex::{Keyword, Mark};
use cf_term::{Definition, Term};
use std::alloc::{AllocError, Global};
use std::rc::Rc;

// The word before the definition with number k.
fn opening(k: usize) -> Keyword
    ensures { result ≡ word_at k }
{
    match k {
        0 => Keyword::LetRec,
        _ => Keyword::And,
    }
}

// The definitions, each behind its word: what they stand for is in the inner scope.
fn push_definitions<'a>(
    items: &mut Vec<Item<'a>>,
    s: Scope,
    inner: Scope,
    ds: &'a [Definition],
) -> Result<(), AllocError>
    requires { inner.globals ≡ s.globals }
    ensures { OnOk result (Adds items.old.items items.new.items (opened Keyword.LetRec s.globals s.depth s.depth inner.depth ds.now) (depth_all (definitions ds.now nil))) }
{
    for (k, d) in ds.iter().enumerate() {
        let before = s.under(k)?;
        push_all(
            items,
            &[
                Item::Token(Piece::Word(opening(k))),
                Item::Token(s.variable(before.depth)),
                Item::Token(Piece::Mark(Mark::Colon)),
                Item::Part(Place::Term, s, &d.ty),
                Item::Token(Piece::Mark(Mark::Becomes)),
                Item::Part(Place::Term, inner, &d.value),
            ],
        )?;
    }
    Ok(())
}

/// `letrec f : b := t; u`
pub fn letrec<'a>(
    alloc: Global,
    s: Scope,
    ds: &'a [Definition],
    body: &'a Rc<Term>,
) -> Result<Layout<'a>, AllocError>
    ensures { IfOk result
        (λ l.
        Lays l
        (shown Place.Term
        (group Keyword.LetRec s.globals s.depth
        (printed_all s.globals s.depth (parts (length ds.now) (length ds.now)) (definitions ds.now (cons body.now.value nil)))))
        (suc (depth_all (definitions ds.now (cons body.now.value nil))))) }
{
    let inner = s.under(ds.len())?;
    let mut items = Vec::new(alloc);
    push_definitions(&mut items, s, inner, ds)?;
    push_all(
        &mut items,
        &[
            Item::Token(Piece::Mark(Mark::Semicolon)),
            Item::Part(Place::Term, inner, body),
        ],
    )?;
    Ok(Layout {
        class: Place::Term,
        items,
    })
}
