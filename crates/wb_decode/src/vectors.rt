//! Vectors (the standard, 5.1.3), and contents behind their size.

ghost use Rattle.std.specs.Prelude.{◌≡◌, ◌≤◌, length};
ghost use Rattle.wb_syntax.specs.Grammar.{Grammar, index, times, vec, sized};
ghost use Rattle.wb_decode.specs.Reading.{Reading, whatever};

use crate::ends::Fault;
use crate::numbers::index;
use sqlite_items::Items;
use std::alloc::Global;

/// What a vector may hold: values with a grammar.
pub trait Spelled: Drop {
    ghost grammar: { Grammar Self };

    /// The value that the bytes begin with, and the bytes behind it.
    fn read(alloc: Global, bytes: &[u8]) -> Result<(Self, &[u8]), Fault>
        ensures { Reading (λ x. (x.0, x.1.now)) grammar bytes.now result };
}

// So many values, one after another.
fn values<T: Spelled>(alloc: Global, count: u32, bytes: &[u8]) -> Result<(Items<T>, &[u8]), Fault>
    ensures { Reading (λ x. (x.0, x.1.now)) (times count T.grammar) bytes.now result }
{
    let mut items = Items::new(alloc);
    let mut rest = bytes;
    let mut more = count;
    while more > 0 {
        let (item, after) = T::read(alloc, rest)?;
        items.push(item)?;
        rest = after;
        more -= 1;
    }
    Ok((items, rest))
}

/// A vector: its length, then its values.
pub fn vector<T: Spelled>(alloc: Global, bytes: &[u8]) -> Result<(Items<T>, &[u8]), Fault>
    ensures { Reading (λ x. (x.0, x.1.now)) (vec T.grammar) bytes.now result }
{
    let (count, rest) = index(bytes)?;
    values(alloc, count, rest)
}

/// The contents behind their size, and the bytes behind them.
pub fn cut(bytes: &[u8]) -> Result<(&[u8], &[u8]), Fault>
    ensures { Reading (λ x. (x.0.now, x.1.now)) (sized whatever) bytes.now result }
{
    let (size, rest) = index(bytes)?;
    let size = size as usize;
    if size <= rest.len() {
        Ok(rest.split_at(size))
    } else {
        Err(Fault::Malformed)
    }
}

/// A vector behind its size, which has to be its own.
pub fn sized_vector<T: Spelled>(alloc: Global, bytes: &[u8]) -> Result<(Items<T>, &[u8]), Fault>
    ensures { Reading (λ x. (x.0, x.1.now)) (sized (vec T.grammar)) bytes.now result }
{
    let (contents, rest) = cut(bytes)?;
    let (items, more) = vector(alloc, contents)?;
    if more.is_empty() {
        Ok((items, rest))
    } else {
        Err(Fault::Malformed)
    }
}
