// Variables in scope.
ghost use Rattle.std.specs.Prelude.{◌≡◌, ◌-◌, suc, IfOk};
ghost use Rattle.cf_core_text.specs.Pieces.{under, variable};

use crate::pieces::Piece;
use std::alloc::AllocError;

/// How many variables are in scope, and how many of them, the outermost ones, are globals.
#[derive(Clone, Copy)]
pub struct Scope {
    /// how many globals are in scope
    pub globals: usize,
    /// how many variables are in scope, globals included
    pub depth: usize,
}

impl Scope {
    /// The variable that stands under so many others.
    pub fn variable(self, level: usize) -> Piece
        ensures { result ≡ variable self.globals level }
    {
        if level < self.globals {
            Piece::Global(level)
        } else {
            Piece::Local(level - self.globals)
        }
    }

    /// The variable with this index.
    pub fn at_index(self, index: u32) -> Piece
        ensures { result ≡ variable self.globals (self.depth - suc index) }
    {
        self.variable(self.depth.saturating_sub(index as usize + 1))
    }

    /// So many variables more.
    pub fn under(self, names: usize) -> Result<Scope, AllocError>
        ensures { IfOk result (λ s. s ≡ record { globals = self.globals; depth = under self.depth names }) }
    {
        match self.depth.checked_add(names) {
            Some(depth) => Ok(Scope {
                globals: self.globals,
                depth,
            }),
            None => Err(AllocError),
        }
    }
}
