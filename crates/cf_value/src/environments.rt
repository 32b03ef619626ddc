// Environments and levels.
ghost use Rattle.std.specs.Prelude.{◌≡◌, IfOk};
ghost use Rattle.cf_value.specs.Found.{Finds, found};
ghost use Rattle.cf_value.specs.Val.{empty, level, push};

use crate::memory::shared;
use crate::values::{Cell, Env, Value, ValueNode};
use cf_base::NoMemory;
use std::alloc::Global;
use std::rc::Rc;

impl Env {
    /// The environment without values.
    pub fn empty() -> Env
        ensures { result ≡ empty }
    {
        Env { cell: Cell::Empty }
    }

    /// The same environment once more, shared.
    pub fn share(&self) -> Result<Env, NoMemory>
        ensures { IfOk result (λ e. e ≡ self.now) }
    {
        match &self.cell {
            Cell::Empty => Ok(Env { cell: Cell::Empty }),
            Cell::More(v, rest) => {
                let v = shared(v)?;
                let rest = shared(rest)?;
                Ok(Env {
                    cell: Cell::More(v, rest),
                })
            }
        }
    }

    /// The environment with one value more, for variable 0; the variables before are raised by one.
    pub fn push(&self, alloc: Global, v: Rc<Value>) -> Result<Env, NoMemory>
        ensures { IfOk result (λ e. e ≡ push v.value self.now) }
    {
        let rest = self.share()?;
        match Rc::new(alloc, rest) {
            Ok(rest) => Ok(Env {
                cell: Cell::More(v, rest),
            }),
            Err(_) => Err(NoMemory),
        }
    }

    /// The value after which i more were pushed; `None` exactly where the list has at most i values.
    pub fn get(&self, i: u32) -> Option<&Rc<Value>>
        ensures { Finds result (found self.now i) }
    {
        match &self.cell {
            Cell::Empty => None,
            Cell::More(v, rest) => { if i == 0 { Some(v) } else { rest.get(i - 1) } }
        }
    }
}

impl Value {
    /// The undefined variable with this level.
    pub fn level(n: u32) -> Value
        ensures { result ≡ level n }
    {
        Value {
            node: ValueNode::Level(n),
        }
    }
}
