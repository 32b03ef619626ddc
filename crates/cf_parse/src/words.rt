// Forms that are a word and atoms.
ghost use Rattle.std.specs.Prelude.{◌≡◌};
ghost use Rattle.cf_base.specs.declared.at.At.{At};
ghost use Rattle.cf_parse.specs.Built.{four_tree, one_tree, three_tree, two_tree, zero_tree};
ghost use Rattle.cf_tree.specs.View.{tree_of};

use cf_lex::Keyword;
use cf_tree::{Node, Op, Tree};

// The form that a word is alone.
pub(crate) fn with_none(word: Keyword) -> Node
    ensures { (p : At) → tree_of p result ≡ zero_tree p word }
{
    match word {
        Keyword::MetaTy => Node::MetaTy,
        Keyword::ValTy => Node::ValTy,
        Keyword::CompTy => Node::CompTy,
        Keyword::Ty => Node::Ty,
        Keyword::UnitTy => Node::UnitTy,
        Keyword::Unit => Node::Unit,
        Keyword::BoolTy => Node::BoolTy,
        Keyword::True => Node::True,
        Keyword::False => Node::False,
        Keyword::NatTy => Node::NatTy,
        Keyword::Zero => Node::Zero,
        Keyword::IntTy => Node::IntTy,
        _ => Node::Missing,
    }
}

// The form of a word with one atom.
pub(crate) fn with_one(word: Keyword, t: Box<Tree>) -> Node
    ensures { (p : At) → tree_of p result ≡ one_tree p word t.value }
{
    match word {
        Keyword::Fail => Node::Fail(t),
        Keyword::Fst => Node::Fst(t),
        Keyword::Snd => Node::Snd(t),
        Keyword::Suc => Node::Suc(t),
        Keyword::ListTy => Node::ListTy(t),
        Keyword::Nil => Node::Nil(t),
        Keyword::V => Node::V(t),
        Keyword::C => Node::C(t),
        _ => Node::Missing,
    }
}

// The form of a word with two atoms.
pub(crate) fn with_two(word: Keyword, t: Box<Tree>, u: Box<Tree>) -> Node
    ensures { (p : At) → tree_of p result ≡ two_tree p word t.value u.value }
{
    match word {
        Keyword::Cons => Node::Cons(t, u),
        Keyword::Add => Node::Prim(Op::Add, t, u),
        Keyword::Sub => Node::Prim(Op::Sub, t, u),
        Keyword::Mul => Node::Prim(Op::Mul, t, u),
        Keyword::Div => Node::Prim(Op::Div, t, u),
        Keyword::Rem => Node::Prim(Op::Rem, t, u),
        Keyword::Eq => Node::Prim(Op::Eq, t, u),
        Keyword::Lt => Node::Prim(Op::Lt, t, u),
        _ => Node::Missing,
    }
}

// The form of a word with three atoms.
pub(crate) fn with_three(word: Keyword, s: Box<Tree>, t: Box<Tree>, u: Box<Tree>) -> Node
    ensures { (p : At) → tree_of p result ≡ three_tree p word s.value t.value u.value }
{
    match word {
        Keyword::Pair => Node::Pair(s, t, u),
        Keyword::UnitRec => Node::UnitRec(s, t, u),
        _ => Node::Missing,
    }
}

// The form of a word with four atoms.
pub(crate) fn with_four(
    word: Keyword,
    s: Box<Tree>,
    t: Box<Tree>,
    u: Box<Tree>,
    v: Box<Tree>,
) -> Node
    ensures { (p : At) → tree_of p result ≡ four_tree p word s.value t.value u.value v.value }
{
    match word {
        Keyword::BoolRec => Node::BoolRec(s, t, u, v),
        Keyword::NatRec => Node::NatRec(s, t, u, v),
        Keyword::ListRec => Node::ListRec(s, t, u, v),
        _ => Node::Missing,
    }
}
