// How many variables a form binds in a part.
ghost use Rattle.std.specs.Prelude.{◌≡◌, nat_eq, if◌then◌else◌};
ghost use Rattle.cf_term.specs.Core.{branch_parts, group, parts, CaseH};
ghost use Rattle.cf_value.specs.Heads.{branches, head_of};
ghost use Rattle.cf_eval.specs.Scopes.{binds_at};

use cf_value::{Arm, Shape};

/// How many variables a form of this shape binds in its part with this number; none past the last part.
pub(crate) fn binds(shape: &Shape, i: usize) -> u64
    ensures { result ≡ binds_at (parts (head_of shape.now)) i }
{
    match shape {
        Shape::Pi(_) | Shape::Lam(_) | Shape::Sig | Shape::OLam => one_at(i, 1),
        Shape::Let | Shape::LetV => one_at(i, 2),
        Shape::LetRec(count) => in_group(*count, i),
        Shape::Case(arms) => in_case(arms, i),
        _ => 0,
    }
}

// one variable in the part with number `place`
fn one_at(i: usize, place: usize) -> u64
    ensures { result ≡ (if nat_eq i place then 1 else 0) }
{
    if i == place { 1 } else { 0 }
}

// all variables of a group in each definition's body and in the last part
fn in_group(count: usize, i: usize) -> u64
    ensures { result ≡ binds_at (group count count) i }
{
    let (pair, second) = (i / 2, i % 2);
    if second == 1 {
        if pair < count { count as u64 } else { 0 }
    } else if pair == count {
        count as u64
    } else {
        0
    }
}

// the names of a branch
fn in_case(arms: &Vec<Arm>, i: usize) -> u64
    ensures { result ≡ binds_at (parts (CaseH (branches arms.now.items))) i }
{
    if i < 2 { 0 } else { names(arms, i - 2) }
}

fn names(arms: &Vec<Arm>, i: usize) -> u64
    ensures { result ≡ binds_at (branch_parts (branches arms.now.items)) i }
{
    match arms.get(i) {
        Some(arm) => u64::from(arm.names),
        None => 0,
    }
}
