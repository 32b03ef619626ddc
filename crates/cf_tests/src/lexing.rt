// The tokens of small texts, and where a text is refused.
use crate::building::two;
use cf_lex::{Token, Tokens, tokens};
use std::alloc::Global;
use std::test::Fail;

// Texts, and their tokens as `kind=text`, one behind the other, a row a line. `¶`, `␍` and `␉` stand for a line feed, a carriage return and a
// tab.
const ROWS: &str = "a § Name(0)=a
_x _ x § Name(0)=_x Hole=_ Name(1)=x
b a b c a § Name(0)=b Name(1)=a Name(0)=b Name(2)=c Name(1)=a
let x letx § Word(Let)=let Name(0)=x Name(1)=letx
été λ été § Name(0)=été Name(1)=λ Name(0)=été
007 -0 #5 § Whole=007 Whole=-0 NatLit=#5
1x a-1 § Whole=1 Name(0)=x Name(1)=a Whole=-1
3--4¶5 § Whole=3 Whole=5
-- % = § 
x -- c ␍ d¶␉ y § Name(0)=x Name(1)=y
a->b:=: § Name(0)=a Mark(Arrow)=-> Name(1)=b Mark(Becomes)=:= Mark(Colon)=:
- § BadChar(0)
5- § BadChar(1)
a =b § BadChar(2)
#a § BadChar(0)
1 % 2 § BadChar(2)
é% § BadChar(2)
explicit use prelude data meta let letrec mlet fn case of fail con pair fst snd MetaTy ValTy CompTy Ty Pi Sig Unit unit § Word(Explicit)=explicit Word(Use)=use Word(Prelude)=prelude Word(Data)=data Word(Meta)=meta Word(Let)=let Word(LetRec)=letrec Word(MetaLet)=mlet Word(Fn)=fn Word(Case)=case Word(Of)=of Word(Fail)=fail Word(Con)=con Word(Pair)=pair Word(Fst)=fst Word(Snd)=snd Word(MetaTy)=MetaTy Word(ValTy)=ValTy Word(CompTy)=CompTy Word(Ty)=Ty Word(Pi)=Pi Word(Sig)=Sig Word(UnitTy)=Unit Word(Unit)=unit
unitrec Bool true false boolrec Nat zero suc natrec List nil cons listrec V C Int add sub mul div rem eq lt and § Word(UnitRec)=unitrec Word(BoolTy)=Bool Word(True)=true Word(False)=false Word(BoolRec)=boolrec Word(NatTy)=Nat Word(Zero)=zero Word(Suc)=suc Word(NatRec)=natrec Word(ListTy)=List Word(Nil)=nil Word(Cons)=cons Word(ListRec)=listrec Word(V)=V Word(C)=C Word(IntTy)=Int Word(Add)=add Word(Sub)=sub Word(Mul)=mul Word(Div)=div Word(Rem)=rem Word(Eq)=eq Word(Lt)=lt Word(And)=and
( ) [ ] { } < > ~ ^ : := ; . , | -> => \\ @ § Mark(OpenParen)=( Mark(CloseParen)=) Mark(OpenBracket)=[ Mark(CloseBracket)=] Mark(OpenBrace)={ Mark(CloseBrace)=} Mark(Less)=< Mark(Greater)=> Mark(Tilde)=~ Mark(Caret)=^ Mark(Colon)=: Mark(Becomes)=:= Mark(Semicolon)=; Mark(Dot)=. Mark(Comma)=, Mark(Bar)=| Mark(Arrow)=-> Mark(DoubleArrow)==> Mark(Backslash)=\\ Mark(At)=@";

// The token at an index, as `kind=text`.
fn token_shown(alloc: Global, found: &Tokens, i: u32) -> Result<String, Fail> {
    let Some(token) = found.get(i) else {
        return Err(Fail::from("no token"));
    };
    let Token { kind, .. } = token;
    let text = String::from_utf8(found.text(token).to_vec(alloc)?)?;
    Ok(format!(in alloc; "{kind:?}={text} ")?)
}

// The tokens of a text, one behind the other, or why it has none.
fn shown(alloc: Global, text: &[u8]) -> Result<String, Fail> {
    if text.len() > 1048576 {
        return Err(Fail::from("too long"));
    }
    let found = match tokens(alloc, text) {
        Ok(found) => found,
        Err(end) => return Ok(format!(in alloc; "{end:?}")?),
    };
    let mut out = String::new(alloc);
    for i in 0..found.len() {
        out.push_str(token_shown(alloc, &found, i)?.as_str())?;
    }
    Ok(out)
}

// The same of the longest text that there may be, all blanks.
fn longest_shown(alloc: Global) -> Result<String, Fail> {
    let blanks = vec![in alloc; b' '; 1048576]?;
    shown(alloc, blanks.as_slice())
}

fn is_so(alloc: Global, row: &str) -> Result<bool, Fail> {
    let (text, want) = two(row)?;
    let text = text.replace(alloc, "¶", "\n")?;
    let text = text.replace(alloc, "␍", "\r")?;
    let text = text.replace(alloc, "␉", "\t")?;
    Ok(shown(alloc, text.as_bytes())?.trim_end() == want)
}

#[test]
fn texts_have_tokens(rt: HostRuntime) -> Result<(), Fail> {
    for row in ROWS.lines() {
        assert!(rt; is_so(rt.alloc(), row)?, "{row}");
    }
    assert!(rt; longest_shown(rt.alloc())?.is_empty());
    Ok(())
}

#[test]
fn other_bytes_are_no_text(rt: HostRuntime) -> Result<(), Fail> {
    assert_eq!(rt; shown(rt.alloc(), b"\xff")?.as_str(), "NotText(0)");
    assert_eq!(rt; shown(rt.alloc(), b"ab\xce")?.as_str(), "NotText(2)");
    Ok(())
}
