// Which variable each level stands for, when a value is written.
ghost use Rattle.std.specs.Prelude.{◌≡◌, ◌∷◌, IfOk};
ghost use Rattle.cf_eval.specs.Scopes.{at_of, context, with_binders};

use crate::memory::{shared, sum, to_share};
use cf_base::NoMemory;
use std::alloc::Global;
use std::marker::Model;
use std::rc::Rc;

/// The levels of the object binders around, over those of a context. Contracts see it as the list of these levels, the innermost first.
#[cycle(scope)]
#[derive(Drop)]
pub(crate) struct Scope {
    cell: Outer,
}

#[cycle(scope)]
#[derive(Drop)]
enum Outer {
    Context(u32),
    Binder(u32, Rc<Scope>),
}

impl Model for Scope {
    ghost use Rattle.std.specs.Prelude.{List, ℕ};
    ghost use Rattle.std.specs.Coded.{coded_list, coded_ℕ};

    ghost Value = { List ℕ };

    ghost coded = { coded_list coded_ℕ };

    ghost use Rattle.cf_eval.specs.Scopes.{scope_size, seen_scope};

    ghost view = { λ s. seen_scope s.cell };

    ghost size = { scope_size };

    ghost use Rattle.cf_eval.specs.ScopeFalls.{falls_scope};

    ghost size_decreases = { λ v h. falls_scope v.cell };
}

impl Scope {
    /// The scope of a context of this many variables.
    pub fn context(depth: u32) -> Scope
        ensures { result ≡ context depth }
    {
        Scope {
            cell: Outer::Context(depth),
        }
    }

    fn share(&self) -> Result<Scope, NoMemory>
        ensures { IfOk result (λ s. s ≡ self.now) }
    {
        match &self.cell {
            Outer::Context(n) => Ok(Scope {
                cell: Outer::Context(*n),
            }),
            Outer::Binder(l, rest) => {
                let rest = shared(rest)?;
                Ok(Scope {
                    cell: Outer::Binder(*l, rest),
                })
            }
        }
    }

    /// The scope under `count` object binders with the levels from `first` on.
    pub fn under(&self, alloc: Global, count: u32, first: u32) -> Result<Scope, NoMemory>
        ensures { IfOk result (λ s. s ≡ with_binders count first self.now) }
    {
        let mut inner = self.share()?;
        for i in 0..count {
            let level = sum(first, i)?;
            let rest = to_share(alloc, inner)?;
            inner = Scope {
                cell: Outer::Binder(level, rest),
            };
        }
        Ok(inner)
    }

    /// The variable that the level stands for.
    pub fn place(&self, n: u32) -> Result<u32, NoMemory>
        ensures { IfOk result (λ i. i ≡ at_of self.now n) }
    {
        match &self.cell {
            Outer::Context(d) => { if n < *d { Ok(*d - 1 - n) } else { Ok(*d) } }
            Outer::Binder(l, rest) => {
                if n == *l {
                    Ok(0)
                } else {
                    sum(rest.place(n)?, 1)
                }
            }
        }
    }
}
