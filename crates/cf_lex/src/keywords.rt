// Keywords.
ghost use Rattle.std.specs.Prelude.{◌≡◌};
ghost use Rattle.std.specs.Str.{bytes_eq};
ghost use Rattle.cf_lex.specs.Spelling.{keyword_of, keyword_text};

/// A keyword.
#[derive(Clone, Copy, Debug, PartialEq, Eq)]
pub enum Keyword {
    /// `explicit`
    Explicit,
    /// `use`
    Use,
    /// `prelude`
    Prelude,
    /// `data`
    Data,
    /// `meta`
    Meta,
    /// `let`
    Let,
    /// `letrec`
    LetRec,
    /// `mlet`
    MetaLet,
    /// `fn`
    Fn,
    /// `case`
    Case,
    /// `of`
    Of,
    /// `fail`
    Fail,
    /// `con`
    Con,
    /// `pair`
    Pair,
    /// `fst`
    Fst,
    /// `snd`
    Snd,
    /// `MetaTy`
    MetaTy,
    /// `ValTy`
    ValTy,
    /// `CompTy`
    CompTy,
    /// `Ty`
    Ty,
    /// `Pi`
    Pi,
    /// `Sig`
    Sig,
    /// `Unit`
    UnitTy,
    /// `unit`
    Unit,
    /// `unitrec`
    UnitRec,
    /// `Bool`
    BoolTy,
    /// `true`
    True,
    /// `false`
    False,
    /// `boolrec`
    BoolRec,
    /// `Nat`
    NatTy,
    /// `zero`
    Zero,
    /// `suc`
    Suc,
    /// `natrec`
    NatRec,
    /// `List`
    ListTy,
    /// `nil`
    Nil,
    /// `cons`
    Cons,
    /// `listrec`
    ListRec,
    /// `V`
    V,
    /// `C`
    C,
    /// `Int`
    IntTy,
    /// `add`
    Add,
    /// `sub`
    Sub,
    /// `mul`
    Mul,
    /// `div`
    Div,
    /// `rem`
    Rem,
    /// `eq`
    Eq,
    /// `lt`
    Lt,
    /// `and`
    And,
}

impl Keyword {
    /// All keywords.
    pub const ALL: [Keyword; 48] = [
        Keyword::Explicit,
        Keyword::Use,
        Keyword::Prelude,
        Keyword::Data,
        Keyword::Meta,
        Keyword::Let,
        Keyword::LetRec,
        Keyword::MetaLet,
        Keyword::Fn,
        Keyword::Case,
        Keyword::Of,
        Keyword::Fail,
        Keyword::Con,
        Keyword::Pair,
        Keyword::Fst,
        Keyword::Snd,
        Keyword::MetaTy,
        Keyword::ValTy,
        Keyword::CompTy,
        Keyword::Ty,
        Keyword::Pi,
        Keyword::Sig,
        Keyword::UnitTy,
        Keyword::Unit,
        Keyword::UnitRec,
        Keyword::BoolTy,
        Keyword::True,
        Keyword::False,
        Keyword::BoolRec,
        Keyword::NatTy,
        Keyword::Zero,
        Keyword::Suc,
        Keyword::NatRec,
        Keyword::ListTy,
        Keyword::Nil,
        Keyword::Cons,
        Keyword::ListRec,
        Keyword::V,
        Keyword::C,
        Keyword::IntTy,
        Keyword::Add,
        Keyword::Sub,
        Keyword::Mul,
        Keyword::Div,
        Keyword::Rem,
        Keyword::Eq,
        Keyword::Lt,
        Keyword::And,
    ];

    /// How the keyword is spelled.
    pub fn text(self) -> &'static str
        ensures { result.now ≡ keyword_text self }
    {
        match self {
            Keyword::Explicit => "explicit",
            Keyword::Use => "use",
            Keyword::Prelude => "prelude",
            Keyword::Data => "data",
            Keyword::Meta => "meta",
            Keyword::Let => "let",
            Keyword::LetRec => "letrec",
            Keyword::MetaLet => "mlet",
            Keyword::Fn => "fn",
            Keyword::Case => "case",
            Keyword::Of => "of",
            Keyword::Fail => "fail",
            Keyword::Con => "con",
            Keyword::Pair => "pair",
            Keyword::Fst => "fst",
            Keyword::Snd => "snd",
            Keyword::MetaTy => "MetaTy",
            Keyword::ValTy => "ValTy",
            Keyword::CompTy => "CompTy",
            Keyword::Ty => "Ty",
            Keyword::Pi => "Pi",
            Keyword::Sig => "Sig",
            Keyword::UnitTy => "Unit",
            Keyword::Unit => "unit",
            Keyword::UnitRec => "unitrec",
            Keyword::BoolTy => "Bool",
            Keyword::True => "true",
            Keyword::False => "false",
            Keyword::BoolRec => "boolrec",
            Keyword::NatTy => "Nat",
            Keyword::Zero => "zero",
            Keyword::Suc => "suc",
            Keyword::NatRec => "natrec",
            Keyword::ListTy => "List",
            Keyword::Nil => "nil",
            Keyword::Cons => "cons",
            Keyword::ListRec => "listrec",
            Keyword::V => "V",
            Keyword::C => "C",
            Keyword::IntTy => "Int",
            Keyword::Add => "add",
            Keyword::Sub => "sub",
            Keyword::Mul => "mul",
            Keyword::Div => "div",
            Keyword::Rem => "rem",
            Keyword::Eq => "eq",
            Keyword::Lt => "lt",
            Keyword::And => "and",
        }
    }
}

/// The keyword that these characters spell, if they spell one.
pub fn find_keyword(word: &[char]) -> Option<Keyword>
    ensures { result ≡ keyword_of word.now }
{
    Keyword::ALL
        .iter()
        .copied()
        .find(|k| spells(word, k.text()))
}

/// Whether these are the characters of the text, which is ASCII.
pub fn spells(word: &[char], text: &str) -> bool
    ensures { result ≡ bytes_eq word.now text.now }
{
    let bytes = text.as_bytes();
    if word.len() != bytes.len() {
        return false;
    }
    for (i, c) in word.iter().enumerate() {
        if *c != char::from(bytes[i]) {
            return false;
        }
    }
    true
}
