//! Calls of the program: what it writes and tells for words and an input.

mod modules;
mod nested;
mod sources;
mod streams;

use super::{cftt, status};
use crate::top::Report;
use cf_base::{MemSink, MemSource};
use cf_diag::Refusal;
use std::alloc::Global;
use std::test::Fail;

// How the input comes, and where the output and the refusals go: pieces of so many bytes, room for so many, and the numbers of the calls
// that fail.
#[derive(Clone, Copy)]
struct Ends<'a> {
    piece: usize,
    room: usize,
    read_fails: &'a [u64],
    write_fails: &'a [u64],
    tell_fails: &'a [u64],
}

const SOUND: Ends<'static> = Ends {
    piece: 4_194_304,
    room: 1_000_000,
    read_fails: &[],
    write_fails: &[],
    tell_fails: &[],
};

// The answer, and what the output and the error stream took.
#[derive(Drop)]
struct Seen {
    end: Result<Report, Refusal>,
    written: Vec<u8>,
    told: Vec<u8>,
}

// The words of a line, with blanks between them.
fn words_of(alloc: Global, line: &str) -> Result<Vec<String>, Fail> {
    let mut words = Vec::new(alloc);
    for word in line.split_whitespace() {
        words.push(String::from_str(alloc, word)?)?;
    }
    Ok(words)
}

// What the program answers, writes and tells for these words.
fn run(alloc: Global, line: &str, input: &[u8], ends: &Ends<'_>) -> Result<Seen, Fail> {
    let words = words_of(alloc, line)?;
    let bytes = input.to_vec(alloc)?;
    let mut source = MemSource::new(bytes, ends.piece.max(1), ends.read_fails.to_vec(alloc)?);
    let mut out = MemSink::new(alloc, ends.room, 4, ends.write_fails.to_vec(alloc)?)?;
    let mut err = MemSink::new(alloc, 1000, 4, ends.tell_fails.to_vec(alloc)?)?;
    let end = cftt(alloc, &words, &mut source, &mut out, &mut err);
    Ok(Seen {
        end,
        written: out.taken().to_vec(alloc)?,
        told: err.taken().to_vec(alloc)?,
    })
}

// Whether this was written and nothing told; `a module` stands for any.
fn is_written(seen: &Seen, report: Report, wanted: &str) -> bool {
    let code = if wanted.starts_with("trap") { 3 } else { 0 };
    let is_so = match wanted {
        "a module" => seen.written.starts_with(b"\0asm\x01\0\0\0"),
        _ => seen.written.strip_suffix(b"\n") == Some(wanted.as_bytes()),
    };
    is_so && report == Report { code, calls: 0 } && seen.told.is_empty()
}

// Whether this was told and nothing written.
fn is_told(seen: &Seen, wanted: &str) -> bool {
    let code = if wanted.starts_with("refused: usage") {
        2
    } else {
        1
    };
    let is_so = seen.told.strip_suffix(b"\n") == Some(wanted.as_bytes());
    is_so && status(&seen.end) == code && seen.written.is_empty()
}

// Whether the words and the input come to this: what is written, or the line of a refusal.
fn comes_to(alloc: Global, line: &str, input: &[u8], wanted: &str) -> Result<bool, Fail> {
    let seen = run(alloc, line, input, &SOUND)?;
    Ok(match seen.end {
        Ok(report) => is_written(&seen, report, wanted),
        Err(_) => is_told(&seen, wanted),
    })
}

// The words, the input and what is wanted of a row.
fn fields(row: &str) -> Result<(&str, &str, &str), Fail> {
    let Some((words, rest)) = row.split_once(" § ") else {
        return Err(Fail::from("no input"));
    };
    match rest.split_once(" § ") {
        Some((input, wanted)) => Ok((words, input, wanted)),
        None => Err(Fail::from("nothing wanted")),
    }
}
