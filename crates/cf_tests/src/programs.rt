// Programs: the core that is printed for them, and their classes.
use crate::building::{printed, program_of, three, two};
use cf_tree::{is_explicit, is_hole_free};
use std::alloc::Global;
use std::test::Fail;

// What stands above each term, and how it is printed.
const ABOVE: &str =
    "data D (p : ValTy) (_q : ValTy) := none() | two(p, D[p, _q]); data E := ; meta f : Nat := #2;";

const ABOVE_PRINTED: &str =
    "explicit;\ndata D (_0 : ValTy) (_1 : ValTy) := none () | two (_0, D[_0, _1]);\ndata E := ;\nmeta f : Nat := #2;";

// Terms with forms that no explicit program has, and how their core is printed. What is left out is a hole, and holes are
// numbered in the order of the text: those of brackets that are left out stand before those in the fields.
const TERMS: &str = "\\(x : Int). \\{y : f}. x y § \\(_0 : Int). \\(_1 : f). _0 _1
\\x. \\_. x § \\(_0 : ?0). \\(_1 : ?1). _0
fn x. fn _. x § fn (_0 : ?0). fn (_1 : ?1). _0
f {_} _ #1 § f (?0) (?1) #1
Pi {x : Int} -> x -> Int § Pi (_0 : Int) -> Pi (_1 : _0) -> Int
(unit, true) § pair (?0) unit true
case f of { none . _ | two x _ . x } § case f : ?0 of { none . ?1 | two _0 _1 . _0 }
con two(_, _) § con two[?0, ?1](?2, ?3)
con none() § con none[?0, ?1]()
D[_, Int] § D[?0, Int]
suc _ § suc (?0)
suc (suc zero) § #2
^_ § ^(?0)
(f @ 1) @ -2 § f @ 1 @ -2
case f of { } § case f : ?0 of { }
E[] § E[]
eq (lt 1 2) (mul 3 (div 4 (rem 5 6))) § eq (lt 1 2) (mul 3 (div 4 (rem 5 6)))
let _ : Int := 1; letrec _ : Int := 2; mlet _ : Int := 3; f § let _0 : Int := 1; letrec _1 : Int := 2; mlet _2 : Int := 3; f";

// Whether the core of a program with this term is printed with this one.
fn is_printed(alloc: Global, row: &str) -> Result<bool, Fail> {
    let (term, want) = two(row)?;
    let text = format!(in alloc; "{ABOVE} main : Int := {term};")?;
    let lines = format!(in alloc; "{ABOVE_PRINTED}\nmain : Int := {want};\n")?;
    Ok(printed(alloc, text.as_str())?.as_str() == lines.as_str())
}

#[test]
fn cores_are_printed(rt: HostRuntime) -> Result<(), Fail> {
    for row in TERMS.lines() {
        assert!(rt; is_printed(rt.alloc(), row)?, "{row}");
    }
    Ok(())
}

// Whether a program is explicit, whether it is hole-free, and the program, a row a line.
const CLASSES: &str = "no § yes § 
yes § yes § explicit;
no § yes § use prelude;
yes § yes § explicit; x : Int := 1;
no § yes § x : Int := 1;
no § no § x : Int := _;
no § no § x : _ := 1;
no § no § meta x : Int := suc (suc _);
no § yes § x : Int := \\(y : Int). y;
no § no § x : Int := \\{y : Int}. y;
no § no § x : Int := fn y. y;
no § no § x : Int := y {z};
no § no § x : Int := (y, z);
no § yes § x : Int := con c[](y);
no § no § x : Int := con c(y);
no § no § data D := c(Int) | d(_);";

fn has_classes(alloc: Global, row: &str) -> Result<bool, Fail> {
    let (explicit, hole_free, text) = three(row)?;
    let program = program_of(alloc, text)?;
    Ok(
        is_explicit(&program) == (explicit == "yes")
            && is_hole_free(&program) == (hole_free == "yes"),
    )
}

#[test]
fn programs_have_classes(rt: HostRuntime) -> Result<(), Fail> {
    for row in CLASSES.lines() {
        assert!(rt; has_classes(rt.alloc(), row)?, "{row}");
    }
    Ok(())
}
