//! Globals.

ghost use Rattle.std.specs.Prelude.{◌≡◌, slice_get, map};
ghost use Rattle.std.specs.Option.{option_map};
ghost use Rattle.wb_state.specs.Words.{seen, replaced, SetsTo};

use crate::words::{Word, replace};
use std::marker::Model;

/// The globals of a module (the standard, 4.2.9), which contracts see as the list of their words.
#[derive(Drop)]
pub struct Globals {
    words: Vec<Word>,
}

impl Model for Globals {
    ghost use Rattle.std.specs.Prelude.{List, map};
    ghost use Rattle.wb_syntax.specs.Execute.{Word};
    ghost use Rattle.wb_state.specs.Words.{seen};

    ghost Value = { List Word };

    ghost view = { λ g. map seen g.words.items };
}

impl Globals {
    /// Globals at these words.
    pub fn new(words: Vec<Word>) -> Globals
        ensures { result ≡ map seen words.items }
    {
        Globals { words }
    }

    /// The word of a global, where there is one of this index.
    pub fn get(&self, index: u32) -> Option<Word>
        ensures { option_map seen result ≡ slice_get self.now index }
    {
        self.words.get(index as usize).copied()
    }

    /// Sets a global to a word of its type; says whether there is such a global, and else changes nothing.
    pub fn set(&mut self, index: u32, word: Word) -> bool
        ensures { SetsTo (replaced self.old index (seen word)) self.old result self.new }
    {
        replace(&mut self.words, index as usize, word)
    }
}
