//! `cftt`: the program, and its top call.
#![tactic(auto)]

mod run;
mod telling;
mod top;
mod writing;

use cf_base::{StdSink, StdSource};
use cf_diag::Refusal;
use std::process::ExitCode;
use std::{env, io};
use telling::told;

// The words after the program's name.
fn words(rt: &HostRuntime) -> io::Result<Vec<String>> {
    let mut words = Vec::new(rt.alloc());
    for word in env::args(rt)?.skip(1) {
        words.push(word)?;
    }
    Ok(words)
}

fn main(rt: HostRuntime) -> ExitCode {
    let mut err = StdSink::new(rt.stderr());
    let Ok(words) = words(&rt) else {
        let refusal = told(rt.alloc(), &mut err, Refusal::NoMemory);
        return ExitCode::from(run::status(&Err(refusal)));
    };
    let mut input = StdSource::new(rt.stdin());
    let mut out = StdSink::new(rt.stdout());
    let end = run::cftt(rt.alloc(), &words, &mut input, &mut out, &mut err);
    ExitCode::from(run::status(&end))
}
