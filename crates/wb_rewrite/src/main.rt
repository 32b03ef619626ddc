//! Reads a module on standard input, and writes it again: each number in its fewest bytes, no custom section, no empty one.
//!
//! With the word `verdict` it writes a line in place of the module: `valid`, or why the input is no valid module of the
//! profile. With the word `times` it writes how long reading, writing and validating took. The status is 0, or 1 where
//! the input is refused, is too long, or could not be read, or where the output could not be written.
#![tactic(auto)]

mod rewriting;

use cf_base::{StdSink, StdSource, read_all, write_all};
use rewriting::rewritten;
use std::process::ExitCode;
use std::time::Instant;
use std::{env, io};
use wb_decode::decode;
use wb_valid::validate;

/// The most bytes of a module: 32 MiB.
const MOST_BYTES: u64 = 33_554_432;

fn main(rt: HostRuntime) -> ExitCode {
    match run(&rt) {
        Ok(true) => ExitCode::SUCCESS,
        _ => ExitCode::from(1),
    }
}

// What is to be done with the module.
#[derive(Clone, Copy, PartialEq, Eq)]
enum Task {
    Rewrite,
    Verdict,
    Times,
}

// The task that the word after the program's name gives.
fn wanted(rt: &HostRuntime) -> io::Result<Task> {
    let Some(word) = env::args(rt)?.nth(1) else {
        return Ok(Task::Rewrite);
    };
    match word.as_str() {
        "verdict" => Ok(Task::Verdict),
        "times" => Ok(Task::Times),
        _ => Ok(Task::Rewrite),
    }
}

// Whether the task was done.
fn run(rt: &HostRuntime) -> io::Result<bool> {
    let mut input = StdSource::new(rt.stdin());
    let Ok(bytes) = read_all(rt.alloc(), &mut input, MOST_BYTES) else {
        return Ok(false);
    };
    match wanted(rt)? {
        Task::Rewrite => rewrite(rt, &bytes),
        Task::Verdict => verdict(rt, &bytes),
        Task::Times => times(rt, &bytes),
    }
}

fn rewrite(rt: &HostRuntime, bytes: &[u8]) -> io::Result<bool> {
    let Ok(out) = rewritten(rt.alloc(), bytes) else {
        return Ok(false);
    };
    let mut output = StdSink::new(rt.stdout());
    Ok(write_all(&mut output, &out).is_ok())
}

fn verdict(rt: &HostRuntime, bytes: &[u8]) -> io::Result<bool> {
    let module = match decode(rt.alloc(), bytes) {
        Ok(module) => module,
        Err(end) => {
            println!(rt; "{end}")?;
            return Ok(false);
        }
    };
    match validate(rt.alloc(), module) {
        Ok(_) => {
            println!(rt; "valid")?;
            Ok(true)
        }
        Err(end) => {
            println!(rt; "{end}")?;
            Ok(false)
        }
    }
}

// How many nanoseconds reading took, reading and writing, and validating.
fn times(rt: &HostRuntime, bytes: &[u8]) -> io::Result<bool> {
    let start = Instant::now(rt)?;
    let Ok(module) = decode(rt.alloc(), bytes) else {
        return Ok(false);
    };
    let read = start.elapsed(rt)?.as_nanos();
    let start = Instant::now(rt)?;
    if validate(rt.alloc(), module).is_err() {
        return Ok(false);
    }
    let validated = start.elapsed(rt)?.as_nanos();
    let start = Instant::now(rt)?;
    if rewritten(rt.alloc(), bytes).is_err() {
        return Ok(false);
    }
    let written = start.elapsed(rt)?.as_nanos();
    println!(rt; "read {read} ns, validated {validated} ns, read and written {written} ns")?;
    Ok(true)
}
