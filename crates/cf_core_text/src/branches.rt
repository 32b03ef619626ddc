// Branches of a case.
ghost use Rattle.std.specs.Prelude.{◌≡◌, ◌∷◌, ◌++◌, [], suc, IfOk, OnOk};
ghost use Rattle.cf_term.specs.Core.{branch_parts, cons, depth, depth_all};
ghost use Rattle.cf_term.specs.View.{bodies, heads};
ghost use Rattle.cf_core_text.specs.Layout.{Adds, Lays};
ghost use Rattle.cf_core_text.specs.Pieces.{arm, arms, more_arms, names, printed, printed_all, shown, under};

use crate::layouts::{Item, Layout, push_all};
use crate::pieces::{Piece, Place};
use crate::scopes::Scope;
use cf_lex::{Keyword, Mark};
use cf_term::{Branch, Term};
use std::alloc::{AllocError, Global};
use std::rc::Rc;

// So many variables from the next one on.
fn push_names(items: &mut Vec<Item<'_>>, s: Scope, count: u32) -> Result<(), AllocError>
    ensures { OnOk result (Adds items.old.items items.new.items (names s.globals s.depth count []) 0) }
{
    for k in 0..count {
        let before = s.under(k as usize)?;
        push_all(items, &[Item::Token(s.variable(before.depth))])?;
    }
    Ok(())
}

// One branch.
fn push_arm<'a>(items: &mut Vec<Item<'a>>, s: Scope, branch: &'a Branch) -> Result<(), AllocError>
    ensures { OnOk result
        (Adds items.old.items items.new.items
        (arm s.globals s.depth (record { type = branch.now.data_type; ctor = branch.now.ctor; names = branch.now.names })
        (printed s.globals (under s.depth branch.now.names) branch.now.body.value) [])
        (depth branch.now.body.value)) }
{
    let inner = s.under(branch.names as usize)?;
    let ctor = Piece::Ctor(branch.data_type as usize, branch.ctor as usize);
    push_all(items, &[Item::Token(ctor)])?;
    push_names(items, s, branch.names)?;
    push_all(
        items,
        &[
            Item::Token(Piece::Mark(Mark::Dot)),
            Item::Part(Place::Term, inner, &branch.body),
        ],
    )?;
    Ok(())
}

// The branches behind a first one, and the brace.
fn push_more_arms<'a>(
    items: &mut Vec<Item<'a>>,
    s: Scope,
    branches: &'a [Branch],
) -> Result<(), AllocError>
    ensures { OnOk result
        (Adds items.old.items items.new.items
        (more_arms s.globals s.depth (heads branches.now) (printed_all s.globals s.depth (branch_parts (heads branches.now)) (bodies branches.now)))
        (depth_all (bodies branches.now))) }
{
    for branch in branches {
        push_all(items, &[Item::Token(Piece::Mark(Mark::Bar))])?;
        push_arm(items, s, branch)?;
    }
    push_all(items, &[Item::Token(Piece::Mark(Mark::CloseBrace))])?;
    Ok(())
}

// The branches, and the brace.
fn push_arms<'a>(
    items: &mut Vec<Item<'a>>,
    s: Scope,
    branches: &'a [Branch],
) -> Result<(), AllocError>
    ensures { OnOk result
        (Adds items.old.items items.new.items
        (arms s.globals s.depth (heads branches.now) (printed_all s.globals s.depth (branch_parts (heads branches.now)) (bodies branches.now)))
        (depth_all (bodies branches.now))) }
{
    match branches {
        [] => {
            push_all(items, &[Item::Token(Piece::Mark(Mark::CloseBrace))])?;
            Ok(())
        }
        [branch, rest @ ..] => {
            push_arm(items, s, branch)?;
            push_more_arms(items, s, rest)?;
            Ok(())
        }
    }
}

/// `case t : B of { c x .. . u | .. }`
pub fn case<'a>(
    alloc: Global,
    s: Scope,
    scrutinee: &'a Rc<Term>,
    ty: &'a Rc<Term>,
    branches: &'a [Branch],
) -> Result<Layout<'a>, AllocError>
    ensures { IfOk result
        (λ l.
        Lays l
        (shown Place.Term
        (Piece.Word Keyword.Case
        ∷ ((printed s.globals s.depth scrutinee.now.value).pieces
        ++ Piece.Mark Mark.Colon
        ∷ ((printed s.globals s.depth ty.now.value).pieces
        ++ Piece.Word Keyword.Of
        ∷ Piece.Mark Mark.OpenBrace
        ∷ arms s.globals s.depth (heads branches.now) (printed_all s.globals s.depth (branch_parts (heads branches.now)) (bodies branches.now))))))
        (suc (depth_all (cons scrutinee.now.value (cons ty.now.value (bodies branches.now)))))) }
{
    let mut items = Vec::new(alloc);
    push_all(
        &mut items,
        &[
            Item::Token(Piece::Word(Keyword::Case)),
            Item::Part(Place::Term, s, scrutinee),
            Item::Token(Piece::Mark(Mark::Colon)),
            Item::Part(Place::Term, s, ty),
            Item::Token(Piece::Word(Keyword::Of)),
            Item::Token(Piece::Mark(Mark::OpenBrace)),
        ],
    )?;
    push_arms(&mut items, s, branches)?;
    Ok(Layout {
        class: Place::Term,
        items,
    })
}
