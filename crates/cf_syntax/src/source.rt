// The tokens of a text, one behind the other.
ghost use Rattle.std.specs.Prelude.{◌≡◌, ◌∷◌, ◌<◌, List, ◌≤◌, Contains, IfOk, IfSome, None, Some, length, slice_get, string_bytes, false};
ghost use Rattle.cf_grammar.specs.declared.classes.Class.TheVariants as class;
ghost use Rattle.cf_lex.specs.declared.keywords.Keyword as keywords;
ghost use Rattle.cf_syntax.specs.Numbers.{natlit_of, whole_of};
ghost use Rattle.cf_syntax.specs.Places.{IsName, IsNumber, IsPlace, front, is_end};
ghost use Rattle.cf_syntax.specs.Source.{from};
ghost use Rattle.cf_syntax.specs.Tokens as spec;
ghost use Rattle.cf_syntax.specs.Tokens.{begins_plain, class_of, tokens_of};

use crate::ends::OutOfMemory;
use crate::numbers::{natlit, whole};
use cf_base::At;
use cf_grammar::Class;
use cf_lex::{Keyword, Token, TokenKind, Tokens};
use std::alloc::Global;

/// The tokens of a text that is read. They are numbered from 0 on, and the end of the text counts as the last.
#[derive(Drop)]
pub struct Source<'a> {
    /// Where memory is taken from.
    pub alloc: Global,
    /// The tokens.
    pub tokens: &'a Tokens,
    /// Whether the text is the prelude's.
    pub prelude: bool,
}

// The class of a token with these bytes.
pub(crate) fn class_of(kind: TokenKind, text: &[u8]) -> Class
    ensures { result ≡ class_of kind text.now }
{
    match kind {
        TokenKind::Name(_) => Class::Name(begins_plain(text)),
        TokenKind::Word(word) => Class::Word(word),
        TokenKind::Whole => Class::Whole,
        TokenKind::NatLit => Class::NatLit,
        TokenKind::Hole => Class::Hole,
        TokenKind::Mark(mark) => Class::Mark(mark),
    }
}

// Whether a name with these bytes may be a global one.
fn begins_plain(text: &[u8]) -> bool
    ensures { result ≡ begins_plain text.now }
{
    text.is_empty() || text[0] != b'_'
}

impl Source<'_> {
    /// How many tokens there are, the end counted.
    pub fn count(&self) -> usize
        ensures { result ≡ length (tokens_of self.now.tokens.now) }
    {
        self.tokens.len() as usize + 1
    }

    // The token with this number.
    pub(crate) fn get(&self, at: usize) -> Option<Token>
        ensures some { IfSome result (λ t. slice_get self.now.tokens.now.tokens at ≡ Some t) }
        ensures listed { IfSome result (λ t. Contains self.now.tokens.now.tokens t) }
        ensures inside { IfSome result (λ _. at < length self.now.tokens.now.tokens) }
        ensures none { result ≡ None → length self.now.tokens.now.tokens ≤ at }
    {
        if at < self.tokens.len() as usize {
            self.tokens.get(at as u32)
        } else {
            None
        }
    }

    // The class of the token with this number; the end at the end and behind it.
    pub(crate) fn class(&self, at: usize) -> Class
        ensures front { front (from self.now at) ≡ result }
        ensures inside { is_end result ≡ false → at < length self.now.tokens.now.tokens }
    {
        match self.get(at) {
            Some(t) => class_of(t.kind, self.tokens.text(t)),
            None => Class::End,
        }
    }

    /// Where the token with this number stands.
    pub fn place(&self, at: usize) -> At
        ensures { IsPlace self.now.prelude (from self.now at) result }
    {
        At {
            prelude: self.prelude,
            offset: self.offset(at),
        }
    }

    // The byte where the token with this number begins.
    fn offset(&self, at: usize) -> u32
        ensures { (k : spec.Token) (ls : List spec.Token) → from self.now at ≡ k ∷ ls → result ≡ k.at }
    {
        match self.get(at) {
            Some(t) => t.start,
            None => self.tokens.text_len(),
        }
    }

    /// The name that the token with this number is. `OutOfMemory` where memory runs out.
    pub fn text(&self, at: usize) -> Result<String, OutOfMemory>
        ensures { IfOk result (λ s. IsName (from self.now at) (string_bytes s)) }
    {
        Ok(String::from_str(self.alloc, self.spelling(at))?)
    }

    // How the name with this number is spelled.
    fn spelling(&self, at: usize) -> &str
        ensures { IsName (from self.now at) result.now }
    {
        match self.get(at) {
            Some(t) => match t.kind {
                TokenKind::Name(n) => match self.tokens.name(n) {
                    Some(name) => name,
                    None => "",
                },
                _ => "",
            },
            None => "",
        }
    }

    /// The whole number that the token with this number is, where it is in its range.
    pub fn whole(&self, at: usize) -> i64
        ensures { IsNumber class.Whole whole_of (from self.now at) result }
    {
        match self.get(at) {
            Some(t) => match whole(self.tokens.text(t)) {
                Some(z) => z,
                None => 0,
            },
            None => 0,
        }
    }

    /// The Nat literal that the token with this number is, where it is in its range.
    pub fn natlit(&self, at: usize) -> u32
        ensures { IsNumber class.NatLit natlit_of (from self.now at) result }
    {
        match self.get(at) {
            Some(t) => match natlit(self.tokens.text(t)) {
                Some(n) => n,
                None => 0,
            },
            None => 0,
        }
    }

    /// The word that the token with this number is.
    pub fn word(&self, at: usize) -> Keyword
        ensures { (y : keywords.Keyword) → front (from self.now at) ≡ class.Word y → result ≡ y }
    {
        match self.class(at) {
            Class::Word(word) => word,
            _ => Keyword::Explicit,
        }
    }
}
