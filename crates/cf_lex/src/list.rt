// The tokens of a text.
ghost use Rattle.std.specs.Prelude.{◌≡◌, ◌↔◌, Contains, IfSome, IsSome, length, option_map, slice_get, slice_range};
ghost use Rattle.cf_lex.specs.Lexed.{IsSpelled, IsUsed, Spells};

use crate::token::Token;
use indexmap::IndexSet;
use std::marker::Model;

/// A text with its tokens, in order, and the names that stand in it.
#[derive(Drop)]
pub struct Tokens {
    pub(crate) text: String,
    pub(crate) tokens: Vec<Token>,
    pub(crate) names: IndexSet<String>,
}

impl Model for Tokens {
    ghost use Rattle.std.specs.Prelude.{◌≤◌, length, string_bytes};
    ghost use Rattle.cf_lex.specs.Naming.{bytes_of};
    ghost use Rattle.cf_lex.specs.Lexed.{TokenList, IsLexed};

    ghost Value = { TokenList };

    ghost view = { λ l. record { text = string_bytes l.text; tokens = l.tokens.items; names = bytes_of l.names.keys } };

    ghost invariant = { λ l. (length (string_bytes l.text) ≤ 1048576) × IsLexed (record { text = string_bytes l.text; tokens = l.tokens.items; names = bytes_of l.names.keys }) };
}

impl Tokens {
    /// How many bytes the text has.
    pub fn text_len(&self) -> u32
        ensures { result ≡ length self.now.text }
    {
        self.text.len() as u32
    }

    /// How many tokens there are.
    pub fn len(&self) -> u32
        ensures { result ≡ length self.now.tokens }
    {
        self.tokens.len() as u32
    }

    /// The token at index `i`; `None` exactly where there are no more than `i`.
    pub fn get(&self, i: u32) -> Option<Token>
        ensures value { result ≡ slice_get self.now.tokens i }
        ensures listed { IfSome result (λ t. Contains self.now.tokens t) }
    {
        self.tokens.get(i as usize).copied()
    }

    /// The bytes of a token of this text.
    pub fn text(&self, t: Token) -> &[u8]
        requires { Contains self.now.tokens t }
        ensures value { result.now ≡ slice_range self.now.text t.start t.end }
        ensures spells { Spells t.kind result.now }
    {
        &self.text.as_bytes()[t.start as usize..t.end as usize]
    }

    /// How the name with number `n` is spelled; `None` exactly where no token is that name.
    pub fn name(&self, n: u32) -> Option<&str>
        ensures value { option_map (λ s. s.now) result ≡ slice_get self.now.names n }
        ensures used { IsSome result ↔ IsUsed self.now.tokens n }
        ensures spelled { IfSome result (λ s. IsSpelled self.now n s.now) }
    {
        match self.names.get_index(n as usize) {
            Some(name) => Some(name.as_str()),
            None => None,
        }
    }
}
