// The calls on each form, and on the terms whose variables are easily mistaken.
use crate::building::{number, term_of, three, two};
use cf_base::NoMemory;
use cf_term::{Definition, Term, TermNode, copy, nesting, same, shift, size, subst};
use std::alloc::Global;
use std::rc::Rc;
use std::test::Fail;

// The variables of a term: `a` has number 3, `b` 4, `c` 5, `d` 6; `z` is below them.
const VARIABLES: &str = "fgdcbazyw";

// The same where ten more stand between `a` and `z`: a shift by 10 from 3 on.
const SHIFTED: &str = "fgdcbaijklmnopqrzyw";

// The same where `a` is the name of variable 7, and the variables above it are lowered: variable 7 put in for variable 3.
const PUT: &str = "agdcbzyw";

// How many forms a term has, on how many levels, and the term: one of each form with its variables, of some also with those that it binds; a
// row a line.
pub(crate) const FORMS: &str = "1 § 1 § a
1 § 1 § z
1 § 1 § MetaTy
1 § 1 § ValTy
1 § 1 § CompTy
1 § 1 § Ty
5 § 3 § Pi (x : a) -> x b
5 § 3 § \\(x : a). b x
3 § 2 § a b
6 § 3 § mlet x : a := b; x c
5 § 3 § Sig (x : a), x b
4 § 2 § pair a b c
2 § 2 § fst a
2 § 2 § snd a
1 § 1 § Unit
1 § 1 § unit
4 § 2 § unitrec a b c
1 § 1 § Bool
1 § 1 § true
1 § 1 § false
5 § 2 § boolrec a b c d
1 § 1 § Nat
1 § 1 § zero
2 § 2 § suc a
5 § 2 § natrec a b c d
2 § 2 § List a
2 § 2 § nil a
3 § 2 § cons a b
5 § 2 § listrec a b c d
2 § 2 § ^a
2 § 2 § <a>
2 § 2 § V a
2 § 2 § C a
1 § 1 § Int
3 § 2 § D[a, b]
3 § 2 § a => b
1 § 1 § -7
3 § 2 § sub a b
6 § 3 § let x : a := b; c x
8 § 3 § letrec x : a := x b; c x
5 § 3 § fn (x : a). b x
3 § 2 § a @ b
5 § 2 § con two[a, b](c, d)
12 § 4 § case a : b of { none . c | one x . d x | two x u . x u a }
2 § 2 § fail a
2 § 2 § ~a
1 § 1 § _
3 § 3 § #2
9 § 5 § \\(x : a). fn (u : x). z a u
10 § 5 § Pi (x : a) -> Sig (u : x), mlet v : u := x; a v";

fn shifted_by_10(alloc: Global, t: &Term) -> Result<Rc<Term>, Fail> {
    Ok(Rc::new(alloc, shift(alloc, t, 3, 10)?)?)
}

fn with_3(alloc: Global, t: &Term, by: &Term) -> Result<Rc<Term>, Fail> {
    Ok(Rc::new(alloc, subst(alloc, t, 3, by)?)?)
}

// Whether shifting the term by 10 from 3 on and putting in variable 7 for 3 give these terms.
fn moves(alloc: Global, t: &Term, shifted: &Term, put: &Term) -> Result<bool, Fail> {
    let raised = shifted_by_10(alloc, t)?;
    let by = term_of(alloc, PUT, "a")?;
    let replaced = with_3(alloc, t, &by)?;
    Ok(same(&raised, shifted) && same(&replaced, put))
}

fn form_moves(alloc: Global, row: &str) -> Result<bool, Fail> {
    let (_, _, text) = three(row)?;
    let t = term_of(alloc, VARIABLES, text)?;
    let shifted = term_of(alloc, SHIFTED, text)?;
    let put = term_of(alloc, PUT, text)?;
    moves(alloc, &t, &shifted, &put)
}

#[test]
fn forms_are_moved(rt: HostRuntime) -> Result<(), Fail> {
    for row in FORMS.lines() {
        assert!(rt; form_moves(rt.alloc(), row)?, "{row}");
    }
    Ok(())
}

// How many forms the copy of a term has, and on how many levels; nothing where it differs from the term.
fn copy_measured(alloc: Global, t: &Term) -> Result<Option<(u64, u32)>, NoMemory> {
    let copied = copy(alloc, t)?;
    if same(&copied, t) {
        Ok(Some((size(&copied), nesting(&copied))))
    } else {
        Ok(None)
    }
}

fn is_measured(alloc: Global, row: &str) -> Result<bool, Fail> {
    let (forms, levels, text) = three(row)?;
    let t = term_of(alloc, VARIABLES, text)?;
    let wanted = (u64::from(number(forms)?), number(levels)?);
    Ok(copy_measured(alloc, &t)? == Some(wanted))
}

#[test]
fn forms_are_copied_and_measured(rt: HostRuntime) -> Result<(), Fail> {
    for row in FORMS.lines() {
        assert!(rt; is_measured(rt.alloc(), row)?, "{row}");
    }
    Ok(())
}

// Terms, what is put in for `a`, and what they become: no variable is captured.
const PUT_IN: &str = "let x : V Int := 100; add x ~a § <w> § let x : V Int := 100; add x ~<w>
\\(x : a). a x § fst w § \\(x : fst w). fst w x
fn (x : Int). fn (u : Int). a @ u § \\(v : y). v y w § fn (x : Int). fn (u : Int). (\\(v : y). v y w) @ u
letrec x : a := a x; x a § C (z => w) § letrec x : C (z => w) := C (z => w) x; x (C (z => w))
case a : a of { none . a | two x u . x a } § w y § case w y : w y of { none . w y | two x u . x (w y) }
mlet x : a := a; a § suc w § mlet x : suc w := suc w; suc w
Sig (x : a), Pi (u : a) -> a § w § Sig (x : w), Pi (u : w) -> w
cons b (cons d z) § w § cons b (cons d z)";

fn is_put_in(alloc: Global, row: &str) -> Result<bool, Fail> {
    let (text, by, want) = three(row)?;
    let t = term_of(alloc, VARIABLES, text)?;
    let by = term_of(alloc, "fgdcbzyw", by)?;
    let want = term_of(alloc, "fgdcbzyw", want)?;
    let found = with_3(alloc, &t, &by)?;
    Ok(same(&found, &want))
}

#[test]
fn no_variable_is_captured(rt: HostRuntime) -> Result<(), Fail> {
    for row in PUT_IN.lines() {
        assert!(rt; is_put_in(rt.alloc(), row)?, "{row}");
    }
    Ok(())
}

// Terms that differ.
const DIFFERENT: &str = "5 § -5
#5 § 5
a § b
add a b § sub a b
add a b § add b a
con one[a, b](c) § con two[a, b](c)
con one[a, b](c) § con one[a](b, c)
D[a, b] § D[a]
case a : b of { none . c } § case a : b of { none . c | none . c }
case a : b of { one x . c } § case a : b of { one x u . c }";

fn are_same(alloc: Global, row: &str) -> Result<bool, Fail> {
    let (text, other) = two(row)?;
    let t = term_of(alloc, VARIABLES, text)?;
    let u = term_of(alloc, VARIABLES, other)?;
    Ok(same(&t, &u))
}

#[test]
fn others_differ(rt: HostRuntime) -> Result<(), Fail> {
    for row in DIFFERENT.lines() {
        assert!(rt; !are_same(rt.alloc(), row)?, "{row}");
    }
    Ok(())
}

// A group of two definitions, whose variables are `u` and `v`; no text has one.
fn group(alloc: Global, outer: &str, inner: &str) -> Result<Rc<Term>, Fail> {
    let mut definitions = Vec::new(alloc);
    for (ty, value) in [("a", "v a"), ("b", "u c")] {
        let ty = term_of(alloc, outer, ty)?;
        let value = term_of(alloc, inner, value)?;
        definitions.push(Definition { ty, value })?;
    }
    let body = term_of(alloc, inner, "u v a b")?;
    let node = TermNode::LetRec { definitions, body };
    let inserted = false;
    Ok(Rc::new(alloc, Term { inserted, node })?)
}

#[test]
fn groups_of_definitions(rt: HostRuntime) -> Result<(), Fail> {
    let alloc = rt.alloc();
    let t = group(alloc, VARIABLES, "fgdcbazywuv")?;
    let shifted = group(alloc, SHIFTED, "fgdcbaijklmnopqrzywuv")?;
    let put = group(alloc, PUT, "agdcbzywuv")?;
    assert!(rt; moves(alloc, &t, &shifted, &put)?);
    assert_eq!(rt; copy_measured(alloc, &t)?, Some((16, 5)));
    assert!(rt; !same(&t, &put));
    Ok(())
}

// The term of a text, marked as inserted.
fn inserted(alloc: Global, text: &str) -> Result<Rc<Term>, Fail> {
    let t = term_of(alloc, VARIABLES, text)?;
    let mut t = copy(alloc, &t)?;
    t.inserted = true;
    Ok(Rc::new(alloc, t)?)
}

// A copy keeps the mark of what was inserted and the flag of what is implicit; the comparison sets them aside.
#[test]
fn marks_and_flags(rt: HostRuntime) -> Result<(), Fail> {
    let alloc = rt.alloc();
    let t = inserted(alloc, "\\{x : a}. x")?;
    let copied = copy(alloc, &t)?;
    assert!(rt; copied.inserted);
    assert!(rt; matches!(&copied.node, TermNode::Lam { implicit: true, .. }));
    let u = term_of(alloc, VARIABLES, "\\(x : a). x")?;
    assert!(rt; same(&t, &u) && same(&copied, &t));
    assert_eq!(rt; size(&t), 3);
    Ok(())
}
