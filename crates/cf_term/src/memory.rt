// What takes memory, with want of memory as the one error.
ghost use Rattle.std.specs.Prelude.{◌≡◌, ◌∷◌, [], ◌++◌, IfOk, OnOk};

use crate::forms::Term;
use cf_base::NoMemory;
use std::alloc::Global;
use std::rc::Rc;

/// The same term once more, shared.
pub(crate) fn share(t: &Rc<Term>) -> Result<Rc<Term>, NoMemory>
    ensures { IfOk result (λ r. r.value ≡ t.now.value) }
{
    match t.clone() {
        Ok(r) => Ok(r),
        Err(_) => Err(NoMemory),
    }
}

/// The term on the heap, where it can be shared.
pub(crate) fn shared(alloc: Global, t: Term) -> Result<Rc<Term>, NoMemory>
    ensures { IfOk result (λ r. r.value ≡ t) }
{
    match Rc::new(alloc, t) {
        Ok(r) => Ok(r),
        Err(_) => Err(NoMemory),
    }
}

/// Adds an item at the end of a list.
pub(crate) fn push<T: Drop>(list: &mut Vec<T>, item: T) -> Result<(), NoMemory>
    ensures { OnOk result (list.new.items ≡ list.old.items ++ item ∷ []) }
{
    match list.push(item) {
        Ok(()) => Ok(()),
        Err(_) => Err(NoMemory),
    }
}
