// The layout of each form. This is the one place that knows them all.
ghost use Rattle.std.specs.Prelude.{◌≡◌, IfOk};
ghost use Rattle.cf_term.specs.Core.{depth};
ghost use Rattle.cf_term.specs.View.{tm_of};
ghost use Rattle.cf_core_text.specs.Layout.{Lays};
ghost use Rattle.cf_core_text.specs.Pieces.{op_word, printed};

use crate::branches::case;
use crate::groups::letrec;
use crate::layouts::{
    Layout, application, arrow, binding, chain, defining, four, one, prefixed, quote, single,
    three, two, word,
};
use crate::lists::{con, data};
use crate::numerals::successor;
use crate::pieces::{Piece, Place};
use crate::scopes::Scope;
use cf_lex::{Keyword, Mark};
use cf_term::{Op, TermNode};
use std::alloc::{AllocError, Global};

// The word of an operation.
fn operation(op: Op) -> Keyword
    ensures { result ≡ op_word op }
{
    match op {
        Op::Add => Keyword::Add,
        Op::Sub => Keyword::Sub,
        Op::Mul => Keyword::Mul,
        Op::Div => Keyword::Div,
        Op::Rem => Keyword::Rem,
        Op::Eq => Keyword::Eq,
        Op::Lt => Keyword::Lt,
    }
}

/// The layout of a form.
pub fn layout<'a>(alloc: Global, s: Scope, node: &'a TermNode) -> Result<Layout<'a>, AllocError>
    ensures { IfOk result (λ l. Lays l (printed s.globals s.depth (tm_of node.now)) (depth (tm_of node.now))) }
{
    match node {
        TermNode::Var(i) => single(alloc, Place::Atom, s.at_index(*i)),
        TermNode::MetaTy => word(alloc, Keyword::MetaTy),
        TermNode::ValTy => word(alloc, Keyword::ValTy),
        TermNode::CompTy => word(alloc, Keyword::CompTy),
        TermNode::Ty => word(alloc, Keyword::Ty),
        TermNode::Pi {
            domain,
            codomain,
            ..
        } => binding(
            alloc,
            Piece::Word(Keyword::Pi),
            s,
            domain,
            Mark::Arrow,
            codomain,
        ),
        TermNode::Lam { domain, body, .. } => {
            binding(
                alloc,
                Piece::Mark(Mark::Backslash),
                s,
                domain,
                Mark::Dot,
                body,
            )
        }
        TermNode::App {
            function,
            argument,
            ..
        } => application(alloc, s, function, argument),
        TermNode::Let { ty, value, body } => defining(alloc, Keyword::MetaLet, s, ty, value, body),
        TermNode::Sig(a, b) => binding(alloc, Piece::Word(Keyword::Sig), s, a, Mark::Comma, b),
        TermNode::Pair(ty, t, u) => three(alloc, Keyword::Pair, s, ty, t, u),
        TermNode::Fst(t) => one(alloc, Keyword::Fst, s, t),
        TermNode::Snd(t) => one(alloc, Keyword::Snd, s, t),
        TermNode::UnitTy => word(alloc, Keyword::UnitTy),
        TermNode::Unit => word(alloc, Keyword::Unit),
        TermNode::UnitRec(p, u, n) => three(alloc, Keyword::UnitRec, s, p, u, n),
        TermNode::BoolTy => word(alloc, Keyword::BoolTy),
        TermNode::True => word(alloc, Keyword::True),
        TermNode::False => word(alloc, Keyword::False),
        TermNode::BoolRec(p, t, f, n) => four(alloc, Keyword::BoolRec, s, p, t, f, n),
        TermNode::NatTy => word(alloc, Keyword::NatTy),
        TermNode::Zero => single(alloc, Place::Atom, Piece::NatLit(0)),
        TermNode::Suc(n) => successor(alloc, s, n),
        TermNode::NatRec(p, z, next, n) => four(alloc, Keyword::NatRec, s, p, z, next, n),
        TermNode::ListTy(a) => one(alloc, Keyword::ListTy, s, a),
        TermNode::Nil(a) => one(alloc, Keyword::Nil, s, a),
        TermNode::Cons(t, u) => two(alloc, Keyword::Cons, s, t, u),
        TermNode::ListRec(p, n, c, l) => four(alloc, Keyword::ListRec, s, p, n, c, l),
        TermNode::Lift(a) => prefixed(alloc, Mark::Caret, s, a),
        TermNode::Quote(t) => quote(alloc, s, t),
        TermNode::V(a) => one(alloc, Keyword::V, s, a),
        TermNode::C(b) => one(alloc, Keyword::C, s, b),
        TermNode::IntTy => word(alloc, Keyword::IntTy),
        TermNode::Data(number, params) => data(alloc, *number, s, params),
        TermNode::Arr(a, b) => arrow(alloc, s, a, b),
        TermNode::Lit(number) => single(alloc, Place::Atom, Piece::Whole(*number)),
        TermNode::Prim(op, t, u) => two(alloc, operation(*op), s, t, u),
        TermNode::LetV { ty, value, body } => defining(alloc, Keyword::Let, s, ty, value, body),
        TermNode::LetRec { definitions, body } => letrec(alloc, s, definitions, body),
        TermNode::OLam { domain, body } => {
            binding(alloc, Piece::Word(Keyword::Fn), s, domain, Mark::Dot, body)
        }
        TermNode::OApp(t, u) => chain(alloc, s, t, u),
        TermNode::Con {
            data_type,
            ctor,
            params,
            fields,
        } => con(alloc, *data_type, *ctor, s, params, fields),
        TermNode::Case {
            scrutinee,
            ty,
            branches,
        } => case(alloc, s, scrutinee, ty, branches),
        TermNode::Fail(a) => one(alloc, Keyword::Fail, s, a),
        TermNode::Splice(u) => prefixed(alloc, Mark::Tilde, s, u),
        TermNode::Hole(number) => single(alloc, Place::Term, Piece::Hole(*number)),
    }
}
