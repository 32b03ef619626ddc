// Terms as printed tokens.
ghost use Rattle.std.specs.Prelude.{◌≡◌, ◌++◌, OnOk};
ghost use Rattle.cf_core_text.specs.Layout.{deepest, flat, item_pieces};
ghost use Rattle.cf_core_text.specs.Pieces.{placed, printed};

use crate::forms::layout;
use crate::layouts::Item;
use crate::pieces::{Piece, Place, stands};
use crate::scopes::Scope;
use cf_lex::Mark;
use cf_term::Term;
use std::alloc::{AllocError, Global};

/// Adds the tokens of a term at a place.
#[cycle(printing)]
pub fn print(
    alloc: Global,
    out: &mut Vec<Piece>,
    place: Place,
    s: Scope,
    term: &Term,
) -> Result<(), AllocError>
    ensures { OnOk result (out.new.items ≡ out.old.items ++ placed place (printed s.globals s.depth term.now)) }
{
    let layout = layout(alloc, s, &term.node)?;
    if stands(place, layout.class) {
        print_items(alloc, out, &layout.items)?;
        Ok(())
    } else {
        out.push(Piece::Mark(Mark::OpenParen))?;
        print_items(alloc, out, &layout.items)?;
        out.push(Piece::Mark(Mark::CloseParen))?;
        Ok(())
    }
}

// Adds the tokens of items.
#[cycle(printing)]
fn print_items(alloc: Global, out: &mut Vec<Piece>, items: &Vec<Item<'_>>) -> Result<(), AllocError>
    ensures { OnOk result (out.new.items ≡ out.old.items ++ flat items.now.items) }
{
    for item in items {
        print_item(alloc, out, *item)?;
    }
    Ok(())
}

// Adds the tokens of an item.
#[cycle(printing)]
fn print_item(alloc: Global, out: &mut Vec<Piece>, item: Item<'_>) -> Result<(), AllocError>
    ensures { OnOk result (out.new.items ≡ out.old.items ++ item_pieces item.entry) }
{
    match item {
        Item::Token(token) => {
            out.push(token)?;
            Ok(())
        }
        Item::Part(place, s, term) => {
            print(alloc, out, place, s, term.as_ref())?;
            Ok(())
        }
    }
}
