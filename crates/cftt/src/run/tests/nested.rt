//! Each form in each place of each form, as it is printed: with its parentheses, and with its numbers of local names.
use super::comes_to;
use std::alloc::Global;
use std::test::Fail;

// What may stand in a place without parentheses.
#[derive(Clone, Copy)]
enum Place {
    // Every form.
    Whole,
    // An atom.
    Atom,
    // An atom, or an application of the meta level.
    Applied,
    // An atom, or an application of the object level.
    Called,
}

// What a form is, for its parentheses.
#[derive(Clone, Copy)]
enum Kind {
    Atom,
    Application,
    Call,
    // What is none of these.
    Other,
}

// Forms, one a line, with a `%` at the place that is filled: what may stand there without parentheses, and what `_1` and `_2` are called there
// where a form binds them itself.
const PLACES: [(Place, &str, &str, &str); 7] = [
    (
        Place::Whole,
        "_1",
        "_2",
        "Pi (_1 : %) -> _1
\\(_1 : %). _1
Sig (_1 : %), _1
mlet _1 : % := x; _1
mlet _1 : Nat := %; _1
<%>
Paß[%, Int]
Paß[Int, %]
let _1 : % := 1; _1
let _1 : V Int := %; _1
letrec _1 : % := _1; _1
fn (_1 : %). _1
con Ö[%, Int](1, x)
con Ö[Int, %](1, x)
con Ö[Int, Int](%, x)
con Ö[Int, Int](1, %)
case % : V Int of { Ä . 0 | Ö _1 _2 . _1 }
case x : % of { Ä . 0 | Ö _1 _2 . _1 }
case x : V Int of { Ä . % | Ö _1 _2 . _1 }
x => %",
    ),
    (
        Place::Whole,
        "_2",
        "_3",
        "Pi (_1 : Nat) -> %
\\(_1 : Nat). %
Sig (_1 : Nat), %
mlet _1 : Nat := x; %
let _1 : V Int := 1; %
letrec _1 : Int => V Int := %; _1
letrec _1 : Int => V Int := _1; %
fn (_1 : Int). %",
    ),
    (
        Place::Whole,
        "_3",
        "_4",
        "case x : V Int of { Ä . 0 | Ö _1 _2 . % }",
    ),
    // places for atoms, in forms of the meta level and types
    (
        Place::Atom,
        "_1",
        "_2",
        "x %
pair % x x
pair x % x
pair x x %
fst %
snd %
unitrec % x x
unitrec x % x
unitrec x x %
boolrec % x x x
boolrec x % x x
boolrec x x % x
boolrec x x x %
suc %
natrec % x x x
natrec x % x x
natrec x x % x
natrec x x x %
List %
nil %
cons % x
cons x %
listrec % x x x
listrec x % x x
listrec x x % x
listrec x x x %
^%
V %
C %",
    ),
    (Place::Applied, "_1", "_2", "% x"),
    // the same in forms of the object level and its types
    (
        Place::Atom,
        "_1",
        "_2",
        "% => x
add % 1
add 1 %
sub % 1
sub 1 %
mul % 1
mul 1 %
div % 1
div 1 %
rem % 1
rem 1 %
eq % 1
eq 1 %
lt % 1
lt 1 %
x @ %
fail %
~%",
    ),
    (Place::Called, "_1", "_2", "% @ x"),
];

// Forms to be put there, one a line: `x` is a definition above, `_0` is bound around the form, the rest in it.
const FORMS: [(Kind, &str); 4] = [
    (
        Kind::Atom,
        "x
_0
MetaTy
ValTy
CompTy
Ty
Unit
unit
Bool
true
false
Nat
#0
#3
Int
Paß[Int, _0]
7
-9223372036854775808
con Ä[Int, _0]()
con Ö[Int, _0](-1, x)
<_0>
~_0
^_0",
    ),
    (Kind::Application, "x _0"),
    (Kind::Call, "x @ _0"),
    (
        Kind::Other,
        "Pi (_1 : _0) -> _1
\\(_1 : Nat). \\(_2 : _1). _1
mlet _1 : Nat := _0; _1
Sig (_1 : Nat), _0
pair x _0 x
fst _0
snd _0
unitrec x _0 x
boolrec x x _0 x
suc _0
natrec x x _0 x
List _0
nil _0
cons _0 x
listrec x x x _0
V _0
C _0
Int => _0
add _0 -1
sub _0 1
mul _0 1
div _0 1
rem _0 1
eq _0 1
lt _0 1
let _1 : V Int := _0; _1
letrec _1 : _0 := fn (_2 : Int). _1 @ _2; _1 @ 1
fn (_1 : Int). _1
case _0 : V Int of { }
case _0 : V Int of { Ä . 0 | Ö _1 _2 . _1 }
fail _0",
    ),
];

const DATA: &str = "explicit;
data Paß (_0 : ValTy) (_1 : ValTy) := Ä () | Ö (_0, Paß[_0, _1]);
meta x : Nat := #0;
";

// Whether a form of this kind stands in parentheses there.
fn is_enclosed(place: Place, kind: Kind) -> bool {
    !matches!(
        (place, kind),
        (Place::Whole, _)
            | (_, Kind::Atom)
            | (Place::Applied, Kind::Application)
            | (Place::Called, Kind::Call)
    )
}

// The form at its place, as it is printed.
fn printed(
    alloc: Global,
    (before, after): (&str, &str),
    is_enclosed: bool,
    form: &str,
) -> Result<String, Fail> {
    Ok(match (before, form) {
        // the successor of a literal is one
        ("suc ", "#0") => String::from_str(alloc, "#1")?,
        ("suc ", "#3") => String::from_str(alloc, "#4")?,
        _ if is_enclosed => format!(in alloc; "{before}({form}){after}")?,
        _ => format!(in alloc; "{before}{form}{after}")?,
    })
}

// A source with a declaration for each form in each of these places, always in parentheses, and how its core is printed.
fn texts(
    alloc: Global,
    (place, first, second, places): (Place, &str, &str, &str),
) -> Result<(String, String), Fail> {
    let mut source = String::from_str(alloc, DATA)?;
    let mut core = String::from_str(alloc, DATA)?;
    for line in places.lines() {
        let Some((before, after)) = line.split_once('%') else {
            return Err(Fail::from("a form without a place"));
        };
        for (kind, forms) in FORMS {
            for form in forms.lines() {
                // the name has the number of bytes above
                let front = format!(in alloc; "größe{} : Int := \\(_0 : Nat). ", core.len())?;
                let line = format!(in alloc; "{front}{before}({form}){after};\n")?;
                source.push_str(line.as_str())?;
                let form = form.replace(alloc, "_2", second)?;
                let form = form.replace(alloc, "_1", first)?;
                let body = printed(
                    alloc,
                    (before, after),
                    is_enclosed(place, kind),
                    form.as_str(),
                )?;
                let line = format!(in alloc; "{front}{body};\n")?;
                core.push_str(line.as_str())?;
            }
        }
    }
    Ok((source, core))
}

#[test]
fn forms_are_printed_in_each_place(rt: HostRuntime) -> Result<(), Fail> {
    let alloc = rt.alloc();
    for places in PLACES {
        let (source, core) = texts(alloc, places)?;
        for text in [&source, &core] {
            assert!(rt; comes_to(alloc, "core", text.as_bytes(), core.trim_end())?);
        }
    }
    Ok(())
}

// Bodies as they are printed, one a line, below `Seq` and `f`: what stands in no place above.
const ALONE: &str = "f Flag[] (f f)
-9223372036854775808
9223372036854775807
suc (suc f)
f #0 unit
(f @ 1) f
(f f) @ 1
^^f
Int => Int => Int
(Int => Int) => Int
f @ 1 @ -2
f @ (f @ 1)
lt (lt 1 2) 3
con Cons[Int](1, con Nil[Int]())
case con Nil[Int]() : V Int of { Nil . 0 | Cons _0 _1 . _0 }";

#[test]
fn forms_alone_are_printed(rt: HostRuntime) -> Result<(), Fail> {
    let alloc = rt.alloc();
    for body in ALONE.lines() {
        let text = format!(in alloc;
            "explicit;\ndata Seq (_0 : ValTy) := Nil () | Cons (_0, Seq[_0]);\nmeta f : Nat := #0;\nx : Int := {body};"
        )?;
        assert!(rt;
            comes_to(alloc, "core", text.as_bytes(), text.as_str())?,
            "{body}"
        );
    }
    Ok(())
}
