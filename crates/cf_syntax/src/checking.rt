// Whether the tokens of a text are a program, and why not.
ghost use Rattle.std.specs.Prelude.{◌≡◌, ◌∷◌, ◌≤◌, List, IfErr, IfOk, OnOk, length};
ghost use Rattle.cf_grammar.specs.Refusing.{Says};
ghost use Rattle.cf_grammar.specs.declared.endings.Ending.TheVariants.{Fine};
ghost use Rattle.cf_syntax.specs.Checks.{FirstBad};
ghost use Rattle.cf_syntax.specs.Numbers.{in_range};
ghost use Rattle.cf_syntax.specs.Refusals.{IsRefused};
ghost use Rattle.cf_syntax.specs.Source.{from};
ghost use Rattle.cf_syntax.specs.Tokens as spec;
ghost use Rattle.cf_syntax.specs.Tokens.{classes, tokens_of};

use crate::ends::{OutOfMemory, ParseEnd};
use crate::numbers::is_in_range;
use crate::source::{Source, class_of};
use cf_grammar::{Class, Ending, Fault};

impl Source<'_> {
    // The classes of all tokens, the end as the last.
    pub(crate) fn classes(&self) -> Result<Vec<Class>, OutOfMemory>
        ensures { IfOk result (λ v. v.items ≡ classes (tokens_of self.now.tokens.now)) }
    {
        let mut classes = Vec::new(self.alloc);
        for at in 0..self.count() {
            classes.push(self.class(at))?;
        }
        Ok(classes)
    }

    // Whether the token with this number is no number out of its range.
    fn is_in_range(&self, at: usize) -> bool
        ensures { (k : spec.Token) (ls : List spec.Token) → from self.now at ≡ k ∷ ls → result ≡ in_range k.class k.text }
    {
        match self.get(at) {
            Some(t) => {
                let text = self.tokens.text(t);
                is_in_range(class_of(t.kind, text), text)
            }
            None => true,
        }
    }

    // The number of the first token that is a number out of its range, or else of the last.
    pub(crate) fn first_literal(&self) -> usize
        ensures { FirstBad (tokens_of self.now.tokens.now) result }
    {
        let len = self.tokens.len() as usize;
        let mut at: usize = 0;
        while at < len && self.is_in_range(at) {
            at += 1;
        }
        at
    }

    // What is answered, by what the grammar says and the first number out of range.
    pub(crate) fn judged(&self, ending: Ending, literal: usize) -> Result<(), ParseEnd>
        requires says { Says (classes (tokens_of self.now.tokens.now)) ending }
        requires literal { FirstBad (tokens_of self.now.tokens.now) literal }
        ensures fine { OnOk result (ending ≡ Fine) }
        ensures ranges { OnOk result (length self.now.tokens.now.tokens ≤ literal) }
        ensures refused { IfErr result (λ e. IsRefused self.now.prelude self.now.tokens.now e) }
    {
        match ending {
            Ending::Fine => {
                if literal < self.tokens.len() as usize {
                    return Err(ParseEnd::Literal(self.place(literal)));
                }
                Ok(())
            }
            Ending::Syntax(at) => {
                if literal < at {
                    return Err(ParseEnd::Literal(self.place(literal)));
                }
                Err(ParseEnd::Syntax(self.place(at)))
            }
            Ending::Past(at, fault) => {
                if literal < at {
                    return Err(ParseEnd::Literal(self.place(literal)));
                }
                match fault {
                    Fault::Many(limit) => Err(ParseEnd::TooMany(self.place(at), limit)),
                    Fault::Nested => Err(ParseEnd::TooNested(self.place(at))),
                }
            }
        }
    }
}
