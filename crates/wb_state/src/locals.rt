//! The locals of a run.

ghost use Rattle.std.specs.Prelude.{◌≡◌, ◌+◌, ◌≤◌, ◌++◌, length, map, replicate, slice_get, IfOk};
ghost use Rattle.std.specs.Option.{option_map};
ghost use Rattle.wb_syntax.specs.Execute.{word};
ghost use Rattle.wb_state.specs.Words.{seen, replaced, SetsTo};
ghost use Rattle.wb_state.specs.Frames.{none, count_of, entered, left, with_current};

use crate::words::{Word, replace};
use std::alloc::{AllocError, Global};
use std::marker::Model;
use wb_syntax::NumType;

/// The locals of all frames of a run; those of the innermost frame begin at a base. There is room for so many.
#[derive(Drop)]
pub struct Locals {
    words: Vec<Word>,
    base: usize,
    room: usize,
}

impl Model for Locals {
    ghost use Rattle.std.specs.Prelude.{◌≤◌};
    ghost use Rattle.std.specs.Vec.{vec_len, vec_capacity};
    ghost use Rattle.wb_state.specs.Frames.{Frames, frames_of};

    ghost Value = { Frames };

    ghost view = { λ l. frames_of l.words.items l.base l.room };

    ghost invariant = { λ l. (l.base ≤ vec_len l.words) × (vec_len l.words ≤ l.room) × (l.room ≤ vec_capacity l.words) };
}

impl Locals {
    /// No locals, with room for so many.
    pub fn new(alloc: Global, room: usize) -> Result<Locals, AllocError>
        ensures { IfOk result (λ l. l ≡ none room) }
    {
        let words = Vec::with_capacity(alloc, room)?;
        Ok(Locals {
            words,
            base: 0,
            room,
        })
    }

    /// The word of a local of the innermost frame, where there is one of this index.
    #[inline(always)]
    pub fn get(&self, index: u32) -> Option<Word>
        ensures { option_map seen result ≡ slice_get self.now.current index }
    {
        self.words[self.base..].get(index as usize).copied()
    }

    /// Sets a local of the innermost frame to a word of its type; says whether there is such a local, and else changes
    /// nothing.
    #[inline(always)]
    pub fn set(&mut self, index: u32, word: Word) -> bool
        ensures current { SetsTo (replaced self.old.current index (seen word)) self.old.current result self.new.current }
        ensures outer { self.new.outer ≡ self.old.outer }
        ensures room { self.new.room ≡ self.old.room }
    {
        replace(&mut self.words[self.base..], index as usize, word)
    }

    /// How many locals the frames around the innermost one have.
    pub fn base(&self) -> usize
        ensures { result ≡ length self.now.outer }
    {
        self.base
    }

    /// How many locals the innermost frame has.
    pub fn count(&self) -> usize
        ensures { result ≡ length self.now.current }
    {
        self.words.len() - self.base
    }

    /// Begins a frame without locals.
    pub fn enter(&mut self)
        ensures { self.new ≡ entered self.old }
    {
        self.base = self.words.len();
    }

    /// Leaves the innermost frame: the one around it begins at this index.
    pub fn leave(&mut self, base: usize)
        requires { base ≤ length self.old.outer }
        ensures { self.new ≡ left base self.old }
    {
        self.words.truncate(self.base);
        self.base = base;
    }

    /// Takes all locals off, those of all frames.
    pub fn clear(&mut self)
        ensures { self.new ≡ none self.old.room }
    {
        self.words.clear();
        self.base = 0;
    }

    /// Adds these words to the locals of the innermost frame.
    pub fn add_all(&mut self, words: &[Word])
        requires { count_of self.old + length words.now ≤ self.old.room }
        ensures { self.new ≡ with_current self.old (self.old.current ++ map seen words.now) }
    {
        self.words.extend_from_slice(words).unwrap();
    }

    /// Adds so many zeros of a type to the locals of the innermost frame.
    pub fn add_zeros(&mut self, ty: NumType, count: usize)
        requires { count_of self.old + count ≤ self.old.room }
        ensures { self.new ≡ with_current self.old (self.old.current ++ replicate count (word ty 0)) }
    {
        let length = self.words.len() + count;
        self.words.resize(length, Word::zero(ty)).unwrap();
    }
}
