// What the grammar refuses, and its limits.
use crate::building::{expanded, number, two};
use cf_base::At;
use cf_grammar::{Class, Ending, walk};
use cf_lex::{Keyword, Mark, tokens};
use cf_parse::{ParseEnd, parse};
use std::alloc::Global;
use std::test::Fail;

// The place of the first token that no program goes on with, and a text, a row a line.
const WRONG: &str = "1 § a
2 § a Int
0 § _a : Int := 1;
0 § let : Int := 1;
11 § a : Int := ;
12 § a : Int := 1
14 § a : Int := 1; ;
11 § a : Int := and;
12 § a : Int := x);
16 § a : Int := add 1;
9 § a : A -> := 1;
14 § a : Int := fn {x : A}. x;
14 § a : Int := f @;
23 § a : Int := case x of { 1 . 2 };
10 § data D := | c();
12 § data D (a : Int) := ;
14 § data D := c(A,);
3 § use;
8 § explicit
23 § explicit; a : V Int := _;
22 § explicit; a : Int := \\x. x;
28 § explicit; a : Int := case x of {};";

// Where the text is wrong, if it is, by the grammar or by a limit.
fn refusal(alloc: Global, text: &str, prelude: bool) -> Result<Option<ParseEnd>, Fail> {
    if text.len() > 1048576 {
        return Err(Fail::from("too long"));
    }
    let found = tokens(alloc, text.as_bytes())?;
    Ok(parse(alloc, &found, prelude).err())
}

fn is_wrong_at(alloc: Global, row: &str, prelude: bool) -> Result<bool, Fail> {
    let (offset, text) = two(row)?;
    let offset = number(offset)?;
    Ok(refusal(alloc, text, prelude)? == Some(ParseEnd::Syntax(At { prelude, offset })))
}

#[test]
fn texts_are_refused(rt: HostRuntime) -> Result<(), Fail> {
    for row in WRONG.lines() {
        for prelude in [false, true] {
            assert!(rt; is_wrong_at(rt.alloc(), row, prelude)?, "{row}");
        }
    }
    Ok(())
}

// Why texts at a limit are refused, if they are, and the texts, a row a line.
const LONG: &str = "None § data D := c(A×15:, A×);
Some(TooMany(At { prelude: false, offset: 60 }, Fields)) § data D := c(A×16:, A×);
None § a : Int := f×16: 1×;
Some(TooMany(At { prelude: false, offset: 45 }, Arguments)) § a : Int := f×17: 1×;
Some(TooMany(At { prelude: false, offset: 90 }, Arguments)) § a : Int := natrec 1 2 3 4×17: {5}×;
None § a : Int := f×16: @ 1×;
Some(TooMany(At { prelude: false, offset: 79 }, Arguments)) § a : Int := f×17: @ 1×;
None § a : Int := D[x×40:, x×];
None § a : Int := ×199:(×1×199:)×;
Some(TooNested(At { prelude: false, offset: 211 })) § a : Int := ×200:(×1×200:)×;
None § a : Int := ×199:~×x;
Some(TooNested(At { prelude: false, offset: 210 })) § a : Int := ×200:^×x;
Some(TooMany(At { prelude: false, offset: 244 }, Arguments)) § a : Int := ×199:(×f×16: 1× ~x×199:)×;
None § meta a : Nat := #64;
Some(Literal(At { prelude: false, offset: 16 })) § meta a : Nat := #65;";

fn is_refused_so(alloc: Global, row: &str) -> Result<bool, Fail> {
    let (want, text) = two(row)?;
    let text = expanded(alloc, text)?;
    let end = refusal(alloc, text.as_str(), false)?;
    Ok(format!(in alloc; "{end:?}")?.as_str() == want)
}

#[test]
fn limits_hold(rt: HostRuntime) -> Result<(), Fail> {
    for row in LONG.lines() {
        assert!(rt; is_refused_so(rt.alloc(), row)?, "{row}");
    }
    Ok(())
}

// The classes of the tokens of `a : Int := 1;`, and of this text without its number.
#[test]
fn tokens_are_walked_over(rt: HostRuntime) -> Result<(), Fail> {
    let (colon, becomes) = (Class::Mark(Mark::Colon), Class::Mark(Mark::Becomes));
    let (name, ty) = (Class::Name(true), Class::Word(Keyword::IntTy));
    let end = Class::Mark(Mark::Semicolon);
    let whole = [name, colon, ty, becomes, Class::Whole, end, Class::End];
    assert_eq!(rt; walk(rt.alloc(), &whole)?.ending, Ending::Fine);
    let wrong = [name, colon, ty, becomes, end, Class::End];
    assert_eq!(rt; walk(rt.alloc(), &wrong)?.ending, Ending::Syntax(4));
    Ok(())
}
