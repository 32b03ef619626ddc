//! Sources: what is built or printed of them, and why they are refused.

use super::{comes_to, fields};
use std::alloc::Global;
use std::test::Fail;

// Words, a source, and what is written or told, a row a line. `¶` stands for a line feed; each second part between `×` is repeated, as
// `×3:ab×` for `ababab`.
const ROWS: &str = " §  § refused: usage at word 0
builds §  § refused: usage at word 0
x build §  § refused: usage at word 0
build x §  § refused: usage at word 1
build --pages 2 --pages 3 §  § refused: usage at word 3
build --steps §  § refused: usage at word 2
core --pages 2 §  § refused: usage at word 1
core --steps 0 §  § refused: usage at word 2
build --pages 2 --steps 007 § main : Int := add 3 4; § a module
build § main : Int := 1; § a module
build § main:Int:=(add(-1)((2)));-- § a module
build § -- é¶main : (Int) := 7; § a module
build § main : Int := 9223372036854775807; § a module
build § main : Int := -9223372036854775808; § a module
build § main : Int := 00000000000000000000000001; § a module
build § main : Int := ×199:(×7×199:)×; § a module
build § main : Int := ×200:(×7×200:)×; § refused: nested too deep at 214
build § ×1048554: ×main : Int := add 3 4; § a module
build § ×1048555: ×main : Int := add 3 4; § refused: input too long
build § main : Int := 1 % 2; § refused: bad character at 16
build § explicit; use prelude; § refused: syntax at 10
build § main Int § refused: syntax at 5
build § main : Int := 1 § refused: syntax at 15
build § main : Int := 1  -- the end¶ § refused: syntax at 28
build § main : Int := ; § refused: syntax at 14
build § main : Int := add 3; § refused: syntax at 19
build § _a : Int := 1; § refused: syntax at 0
build § explicit;¶main : V Int := _; § refused: syntax at 26
build § explicit; f : Int := \\x. x; § refused: syntax at 22
build § explicit; f : Int := g {x}; § refused: syntax at 23
build § explicit; f : Int := con c(x); § refused: syntax at 26
build § explicit; f : Int := (x, y); § refused: syntax at 23
build § explicit; f : Int := case x of { }; § refused: syntax at 28
build § f : Int := mlet x : Nat := #0; let y : Int := 1; letrec z : C := w; z; § refused: syntax at 62
build § data D := c (a | b); § refused: syntax at 15
build § meta p : Nat := natrec P z s; § refused: syntax at 28
build § été : Int := λ λ § refused: syntax at 20
build § main : Int := ) 9223372036854775808; § refused: syntax at 14
build § meta n : Nat := #65; main : Int := 1; § refused: literal out of range at 16
build § main : Int := 9223372036854775808 ) § refused: literal out of range at 14
build § main : Int := 1 9223372036854775808; § refused: literal out of range at 16
build § main : Int := -9223372036854775809; § refused: literal out of range at 14
build § main : Int := f×17: 1×; § refused: too many arguments at 48
build § main : Int := f×16: @ 1× @ 9223372036854775808; § refused: too many arguments at 82
build § data D := c (×16:x, ×(x)); § refused: too many fields at 61
build § data D ×17:(a : ValTy)  ×:= ; § refused: too many parameters at 215
build § data D := c ()×256: | c () ×; § refused: too many constructors at 2057
build § ×4097:meta  a1000:Nat:=#0;× § refused: too many declarations at 81920
build § ×4096:meta  a1000:Nat:=#0;× § refused: form not built yet
build § data D ×16:(a : ValTy)  ×:= c ()×255: | c () ×; § refused: form not built yet
build §  § refused: form not built yet
build § main : Int := x; § refused: form not built yet
build § main : Int := sub 1 2; § refused: form not built yet
build § main : V Int := 7; § refused: form not built yet
build § explicit; main : Int := 7; § refused: form not built yet
build § use prelude; main : Int := 7; § refused: form not built yet
build § other : Int := 7; § refused: form not built yet
build § f : Int := \\x. \\{y : Nat}. \\(z : _). x; § refused: form not built yet
build § f : Int := fn x. fn (y : Int). g {x} y @ x @ y; § refused: form not built yet
build § f : Pi (x : Nat) -> Pi {y : Nat} -> Sig (z : Nat), Nat -> Int => Int := (x, y); § refused: form not built yet
build § f : Int := mlet x : Nat := #0; let y : Int := 1; letrec z : C Int := w; z; § refused: form not built yet
build § f : Int := case con c[Int](x, y) : V D[Int, E[]] of { c a _ . a | d . fail Int }; § refused: form not built yet
build § data D (a : ValTy) (b : ValTy) := c (a, D[a, b]) | d (); data E := ; § refused: form not built yet
build § meta p : Nat := natrec P z s #3 x y; § refused: form not built yet
build § meta p : ^Int := <~p>; § refused: form not built yet
core § explicit;¶meta power : Pi (n : Nat) -> Pi (x : ^(V Int)) -> ^(V Int) := \\(n : Nat). \\(x : ^(V Int)). natrec (\\(k : Nat). ^(V Int)) <1> (\\(k : Nat). \\(r : ^(V Int)). <mul ~x ~r>) n;¶main : C (Int => V Int) := fn (x : Int). ~(power #5 <x>);¶ § explicit;¶meta power : Pi (_0 : Nat) -> Pi (_1 : ^(V Int)) -> ^(V Int) := \\(_0 : Nat). \\(_1 : ^(V Int)). natrec (\\(_2 : Nat). ^(V Int)) <1> (\\(_2 : Nat). \\(_3 : ^(V Int)). <mul ~_1 ~_3>) _0;¶main : C (Int => V Int) := fn (_0 : Int). ~(power #5 <_0>);
core --steps 1 § explicit;¶meta power : Pi (_0 : Nat) -> Pi (_1 : ^(V Int)) -> ^(V Int) := \\(_0 : Nat). \\(_1 : ^(V Int)). natrec (\\(_2 : Nat). ^(V Int)) <1> (\\(_2 : Nat). \\(_3 : ^(V Int)). <mul ~_1 ~_3>) _0;¶main : C (Int => V Int) := fn (_0 : Int). ~(power #5 <_0>); § explicit;¶meta power : Pi (_0 : Nat) -> Pi (_1 : ^(V Int)) -> ^(V Int) := \\(_0 : Nat). \\(_1 : ^(V Int)). natrec (\\(_2 : Nat). ^(V Int)) <1> (\\(_2 : Nat). \\(_3 : ^(V Int)). <mul ~_1 ~_3>) _0;¶main : C (Int => V Int) := fn (_0 : Int). ~(power #5 <_0>);
core § explicit; § explicit;
core § explicit; data Leer := ; data größe (a : ValTy) (b : ValTy) := ; § explicit;¶data Leer := ;¶data größe (_0 : ValTy) (_1 : ValTy) := ;
core § explicit; f : (Int) := (fn (x : Int). (fn (_ : Int). (x)) @ suc (suc #1)); -- the end § explicit;¶f : Int := fn (_0 : Int). (fn (_1 : Int). _0) @ #3;
core § explicit; main : V Int := ; § refused: syntax at 26
core § main : Int := 7; § refused: form not built yet
core § explicit; x : Int := 7 § refused: syntax at 22
core § explicit; data D (p : ValTy) := c(p); a : Int := \\(x : Int). \\(y : Int). y; § explicit;¶data D (_0 : ValTy) := c (_0);¶a : Int := \\(_0 : Int). \\(_1 : Int). _1;
core § explicit; data D (p : ValTy) := c(p); a : Int := \\(x : Int). \\(y : Int). x; § explicit;¶data D (_0 : ValTy) := c (_0);¶a : Int := \\(_0 : Int). \\(_1 : Int). _0;
core § explicit; data D (p : ValTy) := c(p); a : Int := \\(x : Int). \\(x : Int). x; § explicit;¶data D (_0 : ValTy) := c (_0);¶a : Int := \\(_0 : Int). \\(_1 : Int). _1;
core § explicit; data D (p : ValTy) := c(p); b : Int := 1; a : Int := \\(x : Int). \\(y : Int). b; § explicit;¶data D (_0 : ValTy) := c (_0);¶b : Int := 1;¶a : Int := \\(_0 : Int). \\(_1 : Int). b;
core § explicit; data D (p : ValTy) := c(p); b : Int := 1; a : Int := \\(x : Int). \\(b : Int). b; § explicit;¶data D (_0 : ValTy) := c (_0);¶b : Int := 1;¶a : Int := \\(_0 : Int). \\(_1 : Int). _1;
core § explicit; data D (p : ValTy) := c(p); b : Int := 1; a : Int := \\(b : Int). \\(y : Int). b; § explicit;¶data D (_0 : ValTy) := c (_0);¶b : Int := 1;¶a : Int := \\(_0 : Int). \\(_1 : Int). _0;
core § explicit; data D (p : ValTy) := c(p); a : Int := a; § refused: unknown name at 49
core § explicit; data D (p : ValTy) := c(p); a : Int := D; § refused: unknown name at 49
core § explicit; data D (p : ValTy) := c(p); a : Int := \\(x : Int). y; § refused: unknown name at 61
core § explicit; data D (p : ValTy) := c(p); data Flag := ; § refused: declared twice at 43
core § explicit; data D (p : ValTy) := c(p); data E := yes (); § refused: declared twice at 48
core § explicit; data D (p : ValTy) := c(p); data E := E (); § refused: declared twice at 48
core § explicit; data D (p : ValTy) := c(p); data E := e (e); § refused: unknown name at 51
core § explicit; data D (p : ValTy) := c(p); data E := e (u); c : Int := 1; § refused: unknown name at 51
core § explicit; data D (p : ValTy) := c(p); c : Int := 1; § refused: declared twice at 38
core § explicit; data D (p : ValTy) := c(p); D : Int := u; § refused: declared twice at 38
core § explicit; data D (p : ValTy) := c(p); a : Int := 1; a : Int := 1; § refused: declared twice at 52";

// So many times the piece.
fn push_repeated(text: &mut String, count: u32, piece: &str) -> Result<(), Fail> {
    for _ in 0..count {
        text.push_str(piece)?;
    }
    Ok(())
}

// The text without `×` and `¶`.
fn expanded(alloc: Global, row: &str) -> Result<String, Fail> {
    let mut text = String::new(alloc);
    for part in row.split('×') {
        match part.split_once(':') {
            Some((count, piece)) => match count.parse::<u32>() {
                Ok(count) => push_repeated(&mut text, count, piece)?,
                Err(_) => text.push_str(part)?,
            },
            None => text.push_str(part)?,
        }
    }
    Ok(text.replace(alloc, "¶", "\n")?)
}

// Whether the row is as it says.
fn is_so(alloc: Global, row: &str) -> Result<bool, Fail> {
    let (words, text, wanted) = fields(row)?;
    let text = expanded(alloc, text)?;
    let wanted = wanted.replace(alloc, "¶", "\n")?;
    comes_to(alloc, words, text.as_bytes(), wanted.as_str())
}

#[test]
fn sources_are_judged(rt: HostRuntime) -> Result<(), Fail> {
    for row in ROWS.lines() {
        assert!(rt; is_so(rt.alloc(), row)?, "{row}");
    }
    Ok(())
}

#[test]
fn bytes_that_are_no_text(rt: HostRuntime) -> Result<(), Fail> {
    for words in ["build", "core"] {
        assert!(rt; comes_to(rt.alloc(), words, b"a\xFF", "refused: not text at 1")?);
    }
    Ok(())
}

// Each declaration uses the one above it.
#[test]
fn many_declarations(rt: HostRuntime) -> Result<(), Fail> {
    let alloc = rt.alloc();
    let mut text = String::from_str(alloc, "explicit;\nd0 : Int := 1;")?;
    for i in 1..4096u32 {
        let line = format!(in alloc; "\nd{i} : Int := d{};", i - 1)?;
        text.push_str(line.as_str())?;
    }
    assert!(rt; comes_to(alloc, "core", text.as_bytes(), text.as_str())?);
    Ok(())
}
