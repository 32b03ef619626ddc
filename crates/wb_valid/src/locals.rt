//! The locals of a function, which come in runs of one type.

ghost use Rattle.std.specs.Prelude.{◌≡◌, ◌++◌, slice_get, IfOk};
ghost use Rattle.wb_syntax.specs.Syntax.{expanded};
ghost use Rattle.wb_valid.specs.Locals.{running_sums};

use crate::part::OutOfMemory;
use sqlite_items::at;
use std::alloc::Global;
use wb_syntax::{LocalRun, NumType};

/// How many locals there are up to the end of each run.
pub fn running_sums(alloc: Global, runs: &[LocalRun]) -> Result<Vec<u64>, OutOfMemory>
    ensures { IfOk result (λ sums. sums.items ≡ running_sums 0 runs.now) }
{
    let mut sums = Vec::new(alloc);
    let mut sum: u64 = 0;
    for run in runs {
        sum = sum.checked_add(u64::from(run.count)).ok_or(OutOfMemory)?;
        sums.push(sum)?;
    }
    Ok(sums)
}

/// The type of the local with this index, where there is one: the parameters come first, and then the runs.
pub fn local_type(
    params: &[NumType],
    runs: &[LocalRun],
    sums: &[u64],
    index: u32,
) -> Option<NumType>
    requires { sums.now ≡ running_sums 0 runs.now }
    ensures { result ≡ slice_get (params.now ++ expanded runs.now) index }
{
    let place = index as usize;
    let count = params.len();
    if place < count {
        return params.get(place).copied();
    }
    let past = (place - count) as u64;
    let run = sums.partition_point(|sum| *sum <= past);
    match at(runs, run) {
        None => None,
        Some(run) => Some(run.ty),
    }
}
