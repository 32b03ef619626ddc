//! The operands of a run.

ghost use Rattle.std.specs.Prelude.{◌≡◌, false, ◌+◌, ◌<◌, ◌≤◌, ◌^◌, length, IfOk, IfSome};
ghost use Rattle.wb_syntax.specs.Numbers.{bits_of};
ghost use Rattle.wb_state.specs.Words.{seen};
ghost use Rattle.wb_state.specs.Stack.{empty, put, take_word, height_of, raised, cut, TakesAny, TakesTo, PutsTo, Reserves, AreArguments};

use crate::words::Word;
use std::alloc::{AllocError, Global};
use std::marker::Model;
use wb_syntax::NumType;

/// A stack of words with a floor: what stands below it is not taken.
///
/// It has room for so many words, and holds no more than it may: the rest of the room is reserved.
#[derive(Drop)]
pub struct Operands {
    words: Vec<Word>,
    floor: usize,
    most: usize,
    room: usize,
}

impl Model for Operands {
    ghost use Rattle.std.specs.Prelude.{◌≤◌};
    ghost use Rattle.std.specs.Vec.{vec_len, vec_capacity};
    ghost use Rattle.wb_state.specs.Stack.{Stack, stack_of};

    ghost Value = { Stack };

    ghost view = { λ o. stack_of o.words.items o.floor o.most o.room };

    ghost invariant = { λ o. (o.floor ≤ vec_len o.words) × (vec_len o.words ≤ o.most) × (o.most ≤ o.room) × (o.room ≤ vec_capacity o.words) };
}

impl Operands {
    /// An empty stack with room for this many words.
    pub fn new(alloc: Global, room: usize) -> Result<Operands, AllocError>
        ensures { IfOk result (λ o. o ≡ empty room) }
    {
        let words = Vec::with_capacity(alloc, room)?;
        Ok(Operands {
            words,
            floor: 0,
            most: room,
            room,
        })
    }

    /// Takes the topmost word, where one stands above the floor.
    #[inline(always)]
    pub fn take_any(&mut self) -> Option<Word>
        ensures { TakesAny result self.old self.new }
    {
        if self.words.len() == self.floor {
            return None;
        }
        Some(self.words.take_last())
    }

    /// Takes the topmost word, which has to be of this type, and answers its bits.
    #[inline(always)]
    pub fn take(&mut self, ty: NumType) -> Option<u64>
        ensures taken { TakesTo (take_word ty self.old) result self.new }
        ensures fits { IfSome result (λ n. n < 2 ^ bits_of ty) }
        ensures room { self.new.room ≡ self.old.room }
    {
        match self.take_any() {
            None => None,
            Some(word) => word.bits_as(ty),
        }
    }

    /// Puts a word on top; says whether there was room, and else changes nothing.
    #[inline(always)]
    pub fn put(&mut self, word: Word) -> bool
        ensures puts { PutsTo (put (seen word) self.old) result self.new }
        ensures same { result ≡ false → self.new ≡ self.old }
        ensures room { self.new.room ≡ self.old.room }
    {
        if self.words.len() == self.most {
            return false;
        }
        self.words.push_reserved(word);
        true
    }

    /// How many words there are.
    #[inline(always)]
    pub fn height(&self) -> usize
        ensures height { result ≡ height_of self.now }
        ensures within { result ≤ self.now.most }
    {
        self.words.len()
    }

    /// How many words stand below the floor.
    #[inline(always)]
    pub fn floor(&self) -> usize
        ensures { result ≡ length self.now.below }
    {
        self.floor
    }

    /// Takes room for so many words away; says whether there was as much, and else changes nothing.
    pub fn reserve(&mut self, count: u64) -> bool
        ensures { Reserves count self.old result self.new }
    {
        let spare = self.most - self.words.len();
        if count > spare as u64 {
            return false;
        }
        self.most -= count as usize;
        true
    }

    /// Gives room for so many words back, which was taken away.
    pub fn release(&mut self, count: usize)
        requires { self.old.most + count ≤ self.old.room }
        ensures { self.new ≡ record self.old { most = self.old.most + count } }
    {
        self.most += count;
    }

    /// Puts the floor on top of all words.
    #[inline(always)]
    pub fn raise(&mut self)
        ensures { self.new ≡ raised self.old }
    {
        self.floor = self.words.len();
    }

    /// Leaves so many of the words, and puts the floor at this height.
    pub fn cut(&mut self, height: usize, floor: usize)
        requires floor { floor ≤ height }
        requires height { height ≤ height_of self.old }
        ensures { self.new ≡ cut height floor self.old }
    {
        self.words.truncate(height);
        self.floor = floor;
    }

    /// Takes all words off, and gives all room back.
    pub fn clear(&mut self)
        ensures { self.new ≡ empty self.old.room }
    {
        self.words.clear();
        self.floor = 0;
        self.most = self.room;
    }

    /// The topmost words above the floor, the top last, where there are so many.
    pub fn arguments(&self, count: usize) -> Option<&[Word]>
        ensures { AreArguments self.now count result }
    {
        let height = self.words.len();
        if height - self.floor < count {
            return None;
        }
        Some(&self.words[height - count..])
    }
}
