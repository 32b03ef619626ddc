//! Labels and frames that wait, the innermost on top.

ghost use Rattle.std.specs.Prelude.{◌≡◌, ◌<◌, [], ◌∷◌, length, slice_get, MatchOption, IfOk};
ghost use Rattle.wb_state.specs.Stack.{lowest};

use crate::run::{Caller, Label};
use std::alloc::{AllocError, Global};
use std::marker::Model;

/// The labels of all frames of a run; there is room for so many.
#[derive(Drop)]
pub struct Labels {
    items: Vec<Label>,
    room: usize,
}

impl Model for Labels {
    ghost use Rattle.std.specs.Prelude.{◌≤◌, reverse};
    ghost use Rattle.std.specs.Vec.{vec_len, vec_capacity};
    ghost use Rattle.wb_control.specs.Piles.{LabelPile};

    ghost Value = { LabelPile };

    ghost view = { λ p. record { items = reverse p.items.items; room = p.room } };

    ghost invariant = { λ p. (vec_len p.items ≤ p.room) × (p.room ≤ vec_capacity p.items) };
}

impl Labels {
    /// None, with room for so many.
    pub fn new(alloc: Global, room: usize) -> Result<Labels, AllocError>
        ensures { IfOk result (λ p. p ≡ record { items = []; room = room }) }
    {
        let items = Vec::with_capacity(alloc, room)?;
        Ok(Labels { items, room })
    }

    /// Takes all off.
    pub fn clear(&mut self)
        ensures { self.new ≡ record self.old { items = [] } }
    {
        self.items.clear();
    }

    /// Puts one on top.
    pub fn push(&mut self, item: Label)
        requires { length self.old.items < self.old.room }
        ensures { self.new ≡ record self.old { items = item ∷ self.old.items } }
    {
        self.items.push_reserved(item);
    }

    /// The one on top, taken off.
    pub fn pop(&mut self) -> Option<Label>
        ensures room { self.new.room ≡ self.old.room }
        ensures items { MatchOption result ((self.old.items ≡ []) × (self.new.items ≡ [])) (λ top. self.old.items ≡ top ∷ self.new.items) }
    {
        self.items.pop()
    }

    /// How many there are.
    pub fn len(&self) -> usize
        ensures { result ≡ length self.now.items }
    {
        self.items.len()
    }

    /// The label at this depth: the one on top is at 0.
    pub fn get(&self, depth: usize) -> Option<Label>
        ensures { result ≡ slice_get self.now.items depth }
    {
        let count = self.items.len();
        if depth < count {
            self.items.get(count - 1 - depth).copied()
        } else {
            None
        }
    }

    /// Leaves so many of the labels, the outermost.
    pub fn keep(&mut self, count: usize)
        ensures { self.new ≡ record self.old { items = lowest count self.old.items } }
    {
        self.items.truncate(count);
    }
}

/// The frames that wait; there is room for so many.
#[derive(Drop)]
pub struct Callers {
    items: Vec<Caller>,
    room: usize,
}

impl Model for Callers {
    ghost use Rattle.std.specs.Prelude.{◌≤◌, reverse};
    ghost use Rattle.std.specs.Vec.{vec_len, vec_capacity};
    ghost use Rattle.wb_control.specs.Piles.{CallerPile};

    ghost Value = { CallerPile };

    ghost view = { λ p. record { items = reverse p.items.items; room = p.room } };

    ghost invariant = { λ p. (vec_len p.items ≤ p.room) × (p.room ≤ vec_capacity p.items) };
}

impl Callers {
    /// None, with room for so many.
    pub fn new(alloc: Global, room: usize) -> Result<Callers, AllocError>
        ensures { IfOk result (λ p. p ≡ record { items = []; room = room }) }
    {
        let items = Vec::with_capacity(alloc, room)?;
        Ok(Callers { items, room })
    }

    /// Takes all off.
    pub fn clear(&mut self)
        ensures { self.new ≡ record self.old { items = [] } }
    {
        self.items.clear();
    }

    /// Puts one on top.
    pub fn push(&mut self, item: Caller)
        requires { length self.old.items < self.old.room }
        ensures { self.new ≡ record self.old { items = item ∷ self.old.items } }
    {
        self.items.push_reserved(item);
    }

    /// The one on top, taken off.
    pub fn pop(&mut self) -> Option<Caller>
        ensures room { self.new.room ≡ self.old.room }
        ensures items { MatchOption result ((self.old.items ≡ []) × (self.new.items ≡ [])) (λ top. self.old.items ≡ top ∷ self.new.items) }
    {
        self.items.pop()
    }

    /// How many there are.
    pub fn len(&self) -> usize
        ensures { result ≡ length self.now.items }
    {
        self.items.len()
    }
}
