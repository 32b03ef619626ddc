// What takes memory, with want of memory as the one error.
ghost use Rattle.std.specs.Prelude.{◌≡◌, ◌+◌, ◌∷◌, [], ◌++◌, IfOk, OnOk};

use cf_base::NoMemory;
use std::alloc::Global;
use std::rc::Rc;

/// What is shared, once more.
pub(crate) fn shared<T: Drop>(t: &Rc<T>) -> Result<Rc<T>, NoMemory>
    ensures { IfOk result (λ r. r.value ≡ t.now.value) }
{
    match t.clone() {
        Ok(r) => Ok(r),
        Err(_) => Err(NoMemory),
    }
}

/// The value on the heap, where it can be shared.
pub(crate) fn to_share<T: Drop>(alloc: Global, t: T) -> Result<Rc<T>, NoMemory>
    ensures { IfOk result (λ r. r.value ≡ t) }
{
    match Rc::new(alloc, t) {
        Ok(r) => Ok(r),
        Err(_) => Err(NoMemory),
    }
}

/// Adds an item at the end of a list.
pub(crate) fn push<T: Drop>(list: &mut Vec<T>, item: T) -> Result<(), NoMemory>
    ensures { OnOk result (list.new.items ≡ list.old.items ++ item ∷ []) }
{
    match list.push(item) {
        Ok(()) => Ok(()),
        Err(_) => Err(NoMemory),
    }
}

/// A sum of levels.
pub(crate) fn sum(a: u32, b: u32) -> Result<u32, NoMemory>
    ensures { IfOk result (λ n. n ≡ a + b) }
{
    a.checked_add(b).ok_or(NoMemory)
}
