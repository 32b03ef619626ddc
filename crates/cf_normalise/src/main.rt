//! Normalises a call that takes many steps, few of them open in one another, and prints how many steps are left of 1,000,000,000.
//!
//! The function that is called does a thing 16 times in a row by `natrec`, and this thing is such a function again, so many levels
//! deep. The word after the program's name is the number of levels; where it is not given, there are 3. The status is 1 where the
//! word is no number, where there is no normal form within the steps, or where memory ran out or the line could not be written.
#![tactic(auto)]

mod iterating;

use cf_eval::Budget;
use iterating::normalised;
use std::process::ExitCode;
use std::{env, io};

fn main(rt: HostRuntime) -> ExitCode {
    match run(&rt) {
        Ok(true) => ExitCode::SUCCESS,
        _ => ExitCode::from(1),
    }
}

// The number of levels that the word after the program's name gives.
fn levels(rt: &HostRuntime) -> io::Result<Option<u32>> {
    let Some(word) = env::args(rt)?.nth(1) else {
        return Ok(Some(3));
    };
    Ok(word.parse::<u32>().ok())
}

// Whether the call was normalised.
fn run(rt: &HostRuntime) -> io::Result<bool> {
    let Some(levels) = levels(rt)? else {
        return Ok(false);
    };
    let budget = Budget {
        steps: 1_000_000_000,
        nest: 1_000,
    };
    let Ok(written) = normalised(rt.alloc(), levels, budget) else {
        return Ok(false);
    };
    let left = written.left;
    println!(rt; "{left} steps are left")?;
    Ok(true)
}
