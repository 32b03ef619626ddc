// How a form is laid out: its class, and its tokens and parts in order.
ghost use Rattle.std.specs.Prelude.{◌≡◌, ◌∷◌, ◌++◌, [], suc, IfOk, OnOk};
ghost use Rattle.cf_term.specs.Core.{cons, depth_all, nil};
ghost use Rattle.cf_core_text.specs.Layout.{Adds, Lays, deepest, flat};
ghost use Rattle.cf_core_text.specs.Pieces.{bound, binder, placed, printed, shown, worded};

use crate::pieces::{Piece, Place};
use crate::scopes::Scope;
use cf_lex::{Keyword, Mark};
use cf_term::Term;
use std::alloc::{AllocError, Global};
use std::rc::Rc;

/// What stands in a printed form: a token, or a part at its place.
#[derive(Clone, Copy)]
pub enum Item<'a> {
    /// a token
    Token(Piece),
    /// a part, in its scope
    Part(Place, Scope, &'a Rc<Term>),
}

/// A form that is laid out.
#[derive(Drop)]
pub struct Layout<'a> {
    /// the narrowest place where it stands without parentheses
    pub class: Place,
    /// its tokens and parts, in order
    pub items: Vec<Item<'a>>,
}

/// A form of this class with these items.
pub fn shape<'a>(alloc: Global, class: Place, items: &[Item<'a>]) -> Result<Layout<'a>, AllocError>
    ensures { IfOk result (λ l. (l.class ≡ class) × (l.items.items ≡ items.now)) }
{
    let items = Vec::from_slice(alloc, items)?;
    Ok(Layout { class, items })
}

/// Adds items.
pub fn push_all<'a>(items: &mut Vec<Item<'a>>, more: &[Item<'a>]) -> Result<(), AllocError>
    ensures { OnOk result (Adds items.old.items items.new.items (flat more.now) (deepest more.now)) }
{
    items.extend_from_slice(more)?;
    Ok(())
}

/// One token.
pub fn single<'a>(alloc: Global, class: Place, token: Piece) -> Result<Layout<'a>, AllocError>
    ensures { IfOk result (λ l. Lays l (shown class (token ∷ [])) 1) }
{
    shape(alloc, class, &[Item::Token(token)])
}

/// A word without atoms.
pub fn word<'a>(alloc: Global, w: Keyword) -> Result<Layout<'a>, AllocError>
    ensures { IfOk result (λ l. Lays l (worded w []) 1) }
{
    single(alloc, Place::Atom, Piece::Word(w))
}

/// A word and an atom.
pub fn one<'a>(
    alloc: Global,
    w: Keyword,
    s: Scope,
    t: &'a Rc<Term>,
) -> Result<Layout<'a>, AllocError>
    ensures { IfOk result (λ l. Lays l (worded w (printed s.globals s.depth t.now.value ∷ [])) (suc (depth_all (cons t.now.value nil)))) }
{
    shape(
        alloc,
        Place::Term,
        &[Item::Token(Piece::Word(w)), Item::Part(Place::Atom, s, t)],
    )
}

/// A word and two atoms.
pub fn two<'a>(
    alloc: Global,
    w: Keyword,
    s: Scope,
    t: &'a Rc<Term>,
    u: &'a Rc<Term>,
) -> Result<Layout<'a>, AllocError>
    ensures { IfOk result
        (λ l.
        Lays l (worded w (printed s.globals s.depth t.now.value ∷ printed s.globals s.depth u.now.value ∷ []))
        (suc (depth_all (cons t.now.value (cons u.now.value nil))))) }
{
    shape(
        alloc,
        Place::Term,
        &[
            Item::Token(Piece::Word(w)),
            Item::Part(Place::Atom, s, t),
            Item::Part(Place::Atom, s, u),
        ],
    )
}

/// A word and three atoms.
pub fn three<'a>(
    alloc: Global,
    w: Keyword,
    s: Scope,
    t: &'a Rc<Term>,
    u: &'a Rc<Term>,
    v: &'a Rc<Term>,
) -> Result<Layout<'a>, AllocError>
    ensures { IfOk result
        (λ l.
        Lays l
        (worded w (printed s.globals s.depth t.now.value ∷ printed s.globals s.depth u.now.value ∷ printed s.globals s.depth v.now.value ∷ []))
        (suc (depth_all (cons t.now.value (cons u.now.value (cons v.now.value nil)))))) }
{
    shape(
        alloc,
        Place::Term,
        &[
            Item::Token(Piece::Word(w)),
            Item::Part(Place::Atom, s, t),
            Item::Part(Place::Atom, s, u),
            Item::Part(Place::Atom, s, v),
        ],
    )
}

/// A word and four atoms.
pub fn four<'a>(
    alloc: Global,
    w: Keyword,
    s: Scope,
    p: &'a Rc<Term>,
    t: &'a Rc<Term>,
    u: &'a Rc<Term>,
    v: &'a Rc<Term>,
) -> Result<Layout<'a>, AllocError>
    ensures { IfOk result
        (λ l.
        Lays l
        (worded w
        (printed s.globals s.depth p.now.value ∷ printed s.globals s.depth t.now.value ∷ printed s.globals s.depth u.now.value ∷ printed s.globals s.depth v.now.value ∷ []))
        (suc (depth_all (cons p.now.value (cons t.now.value (cons u.now.value (cons v.now.value nil))))))) }
{
    shape(
        alloc,
        Place::Term,
        &[
            Item::Token(Piece::Word(w)),
            Item::Part(Place::Atom, s, p),
            Item::Part(Place::Atom, s, t),
            Item::Part(Place::Atom, s, u),
            Item::Part(Place::Atom, s, v),
        ],
    )
}

/// A binder with its type, a mark, and what is under the variable.
pub fn binding<'a>(
    alloc: Global,
    opening: Piece,
    s: Scope,
    domain: &'a Rc<Term>,
    mark: Mark,
    body: &'a Rc<Term>,
) -> Result<Layout<'a>, AllocError>
    ensures { IfOk result
        (λ l.
        Lays l
        (shown Place.Term
        (opening ∷ binder s.globals s.depth (printed s.globals s.depth domain.now.value) (Piece.Mark mark) (printed s.globals (suc s.depth) body.now.value)))
        (suc (depth_all (cons domain.now.value (cons body.now.value nil))))) }
{
    let inner = s.under(1)?;
    shape(
        alloc,
        Place::Term,
        &[
            Item::Token(opening),
            Item::Token(Piece::Mark(Mark::OpenParen)),
            Item::Token(s.variable(s.depth)),
            Item::Token(Piece::Mark(Mark::Colon)),
            Item::Part(Place::Term, s, domain),
            Item::Token(Piece::Mark(Mark::CloseParen)),
            Item::Token(Piece::Mark(mark)),
            Item::Part(Place::Term, inner, body),
        ],
    )
}

/// A word, a variable with its type and what it stands for, and what is under it.
pub fn defining<'a>(
    alloc: Global,
    w: Keyword,
    s: Scope,
    ty: &'a Rc<Term>,
    value: &'a Rc<Term>,
    body: &'a Rc<Term>,
) -> Result<Layout<'a>, AllocError>
    ensures { IfOk result
        (λ l.
        Lays l
        (shown Place.Term
        (Piece.Word w
        ∷ bound s.globals s.depth (printed s.globals s.depth ty.now.value) (printed s.globals s.depth value.now.value) (printed s.globals (suc s.depth) body.now.value)))
        (suc (depth_all (cons ty.now.value (cons value.now.value (cons body.now.value nil)))))) }
{
    let inner = s.under(1)?;
    shape(
        alloc,
        Place::Term,
        &[
            Item::Token(Piece::Word(w)),
            Item::Token(s.variable(s.depth)),
            Item::Token(Piece::Mark(Mark::Colon)),
            Item::Part(Place::Term, s, ty),
            Item::Token(Piece::Mark(Mark::Becomes)),
            Item::Part(Place::Term, s, value),
            Item::Token(Piece::Mark(Mark::Semicolon)),
            Item::Part(Place::Term, inner, body),
        ],
    )
}

/// `t u`
pub fn application<'a>(
    alloc: Global,
    s: Scope,
    t: &'a Rc<Term>,
    u: &'a Rc<Term>,
) -> Result<Layout<'a>, AllocError>
    ensures { IfOk result
        (λ l.
        Lays l
        (shown Place.Application (placed Place.Application (printed s.globals s.depth t.now.value) ++ placed Place.Atom (printed s.globals s.depth u.now.value)))
        (suc (depth_all (cons t.now.value (cons u.now.value nil))))) }
{
    shape(
        alloc,
        Place::Application,
        &[
            Item::Part(Place::Application, s, t),
            Item::Part(Place::Atom, s, u),
        ],
    )
}

/// `t @ u`
pub fn chain<'a>(
    alloc: Global,
    s: Scope,
    t: &'a Rc<Term>,
    u: &'a Rc<Term>,
) -> Result<Layout<'a>, AllocError>
    ensures { IfOk result
        (λ l.
        Lays l
        (shown Place.Chain
        (placed Place.Chain (printed s.globals s.depth t.now.value) ++ Piece.Mark Mark.At ∷ placed Place.Atom (printed s.globals s.depth u.now.value)))
        (suc (depth_all (cons t.now.value (cons u.now.value nil))))) }
{
    shape(
        alloc,
        Place::Chain,
        &[
            Item::Part(Place::Chain, s, t),
            Item::Token(Piece::Mark(Mark::At)),
            Item::Part(Place::Atom, s, u),
        ],
    )
}

/// `a => B`
pub fn arrow<'a>(
    alloc: Global,
    s: Scope,
    a: &'a Rc<Term>,
    b: &'a Rc<Term>,
) -> Result<Layout<'a>, AllocError>
    ensures { IfOk result
        (λ l.
        Lays l
        (shown Place.Term
        (placed Place.Atom (printed s.globals s.depth a.now.value) ++ Piece.Mark Mark.DoubleArrow ∷ (printed s.globals s.depth b.now.value).pieces))
        (suc (depth_all (cons a.now.value (cons b.now.value nil))))) }
{
    shape(
        alloc,
        Place::Term,
        &[
            Item::Part(Place::Atom, s, a),
            Item::Token(Piece::Mark(Mark::DoubleArrow)),
            Item::Part(Place::Term, s, b),
        ],
    )
}

/// A mark directly before an atom.
pub fn prefixed<'a>(
    alloc: Global,
    mark: Mark,
    s: Scope,
    t: &'a Rc<Term>,
) -> Result<Layout<'a>, AllocError>
    ensures { IfOk result
        (λ l.
        Lays l (shown Place.Atom (Piece.Mark mark ∷ placed Place.Atom (printed s.globals s.depth t.now.value)))
        (suc (depth_all (cons t.now.value nil)))) }
{
    shape(
        alloc,
        Place::Atom,
        &[
            Item::Token(Piece::Mark(mark)),
            Item::Part(Place::Atom, s, t),
        ],
    )
}

/// `<t>`
pub fn quote<'a>(alloc: Global, s: Scope, t: &'a Rc<Term>) -> Result<Layout<'a>, AllocError>
    ensures { IfOk result
        (λ l.
        Lays l
        (shown Place.Atom (Piece.Mark Mark.Less ∷ ((printed s.globals s.depth t.now.value).pieces ++ Piece.Mark Mark.Greater ∷ [])))
        (suc (depth_all (cons t.now.value nil)))) }
{
    shape(
        alloc,
        Place::Atom,
        &[
            Item::Token(Piece::Mark(Mark::Less)),
            Item::Part(Place::Term, s, t),
            Item::Token(Piece::Mark(Mark::Greater)),
        ],
    )
}
