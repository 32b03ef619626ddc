//! Modules that are run: how their runs end, and why they are refused.

use super::{SOUND, comes_to, fields, run};
use cf_diag::Refusal;
use std::alloc::Global;
use std::test::Fail;

// Parts of modules by name: the header; the type () -> i64, a function of it, its export as `main`; a memory of one page; the code of
// i64.const 7; and a module but for its code, with the types () -> i64, (i64, i32) -> i64, () -> (), three functions of these types, a page, a
// global that is 5, and the first function as main.
fn part(name: &str) -> &'static [u8] {
    match name {
        "header" => b"\0asm\x01\0\0\0",
        "type" => b"\x01\x05\x01\x60\0\x01\x7E",
        "function" => b"\x03\x02\x01\0",
        "export" => b"\x07\x08\x01\x04main\0\0",
        "page" => b"\x05\x03\x01\0\x01",
        "seven" => b"\x0A\x06\x01\x04\0\x42\x07\x0B",
        "three" =>
            b"\x01\x0E\x03\x60\0\x01\x7E\x60\x02\x7E\x7F\x01\x7E\x60\0\0\x03\x04\x03\0\x01\x02\x05\x03\x01\0\x01\x06\x06\x01\x7E\x01\x42\x05\x0B",
        _ => b"",
    }
}

// The bytes of a word: a part by its name, or a byte by its two digits.
fn push_word(bytes: &mut Vec<u8>, word: &str) -> Result<(), Fail> {
    match u8::from_str_radix(word, 16) {
        Ok(byte) if word.len() == 2 => Ok(bytes.push(byte)?),
        _ => Ok(bytes.extend_from_slice(part(word))?),
    }
}

fn bytes_of(alloc: Global, text: &str) -> Result<Vec<u8>, Fail> {
    let mut bytes = Vec::new(alloc);
    for word in text.split_whitespace() {
        push_word(&mut bytes, word)?;
    }
    Ok(bytes)
}

// Words, a module, and what is written or told, a row a line.
const ROWS: &str = "run § header type function export seven § returned 7
run § header type function export 0A 8A 80 80 80 00 01 08 00 42 87 80 80 80 00 0B 00 02 01 78 § returned 7
run § header type function export 0A 0F 01 0D 00 42 87 80 80 80 80 80 80 80 80 00 0B § returned 7
run § header type function export 0A 10 01 0E 00 42 87 80 80 80 80 80 80 80 80 80 00 0B § refused: malformed at 29
run § header type function export 0A 05 01 03 00 A0 0B § refused: outside the profile at 29: float
run § header type function export 0A 07 01 05 00 00 41 00 0B § refused: invalid body 0
run --limit 1 --words 4 § header type function export seven § refused: stack full at 4 words
run --limit 1 --words 5 § header type function export seven § returned 7
run --limit 1000 § header type function export 0A 0B 01 09 00 03 40 0C 00 0B 42 07 0B § refused: step limit 1000
run --words 100 § header type function export 0A 06 01 04 00 10 00 0B § refused: stack full at 100 words
run --words 100 --limit 24 § header type function export 0A 06 01 04 00 10 00 0B § refused: step limit 24
run --limit 25 --words 100 § header type function export 0A 06 01 04 00 10 00 0B § refused: stack full at 100 words
run § header type function export 0A 05 01 03 00 00 0B § trap unreachable
run § header type function export 0A 09 01 07 00 42 01 42 00 7F 0B § trap divide-by-zero
run § header type function export 0A 12 01 10 00 42 80 80 80 80 80 80 80 80 80 7F 42 7F 7F 0B § trap overflow
run § header type function export 0A 12 01 10 00 42 80 80 80 80 80 80 80 80 80 7F 42 7F 81 0B § returned 0
run § header type function page export 0A 09 01 07 00 41 7F 29 03 00 0B § trap out-of-bounds
run § header type function page export 0A 0C 01 0A 00 41 00 41 00 36 02 00 00 0B § trap unreachable
run § header type function page export 0A 0C 01 0A 00 41 00 41 01 36 02 00 00 0B § trap heap-full
run § header type function page export 0A 0C 01 0A 00 41 00 41 02 36 02 00 00 0B § trap failed
run § header type function page export 0A 0C 01 0A 00 41 00 41 03 36 02 00 00 0B § trap unreachable
run § header type function 05 03 01 00 00 export seven § returned 7
run § header type function 05 04 01 00 80 08 export seven § returned 7
run § header type function 05 04 01 00 81 08 export seven § refused: memory of 1025 pages
run § header type function 05 05 01 00 80 80 04 export seven § refused: memory of 65536 pages
run § header type function 05 05 01 00 81 80 04 export seven § refused: invalid limits
run § header type function 05 05 02 00 00 00 00 export seven § refused: invalid memories
run § header 05 04 01 00 81 08 § refused: memory of 1025 pages
run 5 § header type function export seven § refused: arity 1, wanted 0
run 5 3 § header 01 07 01 60 02 7E 7E 01 7E function export 0A 09 01 07 00 20 00 20 01 7D 0B § returned 2
run -2 3 § header 01 07 01 60 02 7E 7E 01 7E function export 0A 09 01 07 00 20 00 20 01 7D 0B § returned -5
run -9223372036854775808 0 § header 01 07 01 60 02 7E 7E 01 7E function export 0A 09 01 07 00 20 00 20 01 7D 0B § returned -9223372036854775808
run -9223372036854775808 1 § header 01 07 01 60 02 7E 7E 01 7E function export 0A 09 01 07 00 20 00 20 01 7D 0B § returned 9223372036854775807
run § header 01 07 01 60 02 7E 7E 01 7E function export 0A 09 01 07 00 20 00 20 01 7D 0B § refused: arity 0, wanted 2
run 5 § header 01 07 01 60 02 7E 7E 01 7E function export 0A 09 01 07 00 20 00 20 01 7D 0B § refused: arity 1, wanted 2
run 1 2 3 § header 01 07 01 60 02 7E 7E 01 7E function export 0A 09 01 07 00 20 00 20 01 7D 0B § refused: arity 3, wanted 2
run 1 --limit 2 §  § refused: usage at word 2
run --words 0 §  § refused: usage at word 2
run +1 2 §  § refused: usage at word 1
run § header 01 05 01 60 00 01 7F function export 0A 06 01 04 00 41 07 0B § refused: no exported main
run § header § refused: no exported main
run §  § refused: malformed at 0";

// Whether the row is as it says.
fn is_so(alloc: Global, row: &str) -> Result<bool, Fail> {
    let (words, module, wanted) = fields(row)?;
    let bytes = bytes_of(alloc, module)?;
    comes_to(alloc, words, &bytes, wanted)
}

#[test]
fn modules_are_run(rt: HostRuntime) -> Result<(), Fail> {
    for row in ROWS.lines() {
        assert!(rt; is_so(rt.alloc(), row)?, "{row}");
    }
    Ok(())
}

// How a module is refused that is cut off behind so many bytes.
fn cut_at(length: usize) -> &'static str {
    match length {
        0..=7 => "refused: malformed at 0",
        8 | 15 => "refused: no exported main",
        9..=14 => "refused: malformed at 8",
        16..=18 => "refused: malformed at 15",
        19..=28 => "refused: malformed at 19",
        29..=36 => "refused: malformed at 29",
        _ => "returned 7",
    }
}

#[test]
fn cut_modules(rt: HostRuntime) -> Result<(), Fail> {
    let bytes = bytes_of(rt.alloc(), "header type function export seven")?;
    assert_eq!(rt; bytes.len(), 37);
    for length in 0..38 {
        let front = bytes.get(..length).unwrap_or(&[]);
        assert!(rt;
            comes_to(rt.alloc(), "run", front, cut_at(length))?,
            "{length}"
        );
    }
    Ok(())
}

#[test]
fn built_modules_are_run(rt: HostRuntime) -> Result<(), Fail> {
    for (text, wanted) in [
        ("main : Int := add 3 4;", "returned 7"),
        (
            "main : Int := add 9223372036854775807 1;",
            "returned -9223372036854775808",
        ),
    ] {
        let module = run(rt.alloc(), "build", text.as_bytes(), &SOUND)?.written;
        assert!(rt; comes_to(rt.alloc(), "run", &module, wanted)?, "{text}");
    }
    Ok(())
}

#[test]
fn long_modules(rt: HostRuntime) -> Result<(), Fail> {
    let mut input = vec![in rt.alloc(); 0u8; 33_554_432]?;
    let seen = run(rt.alloc(), "run", &input, &SOUND)?;
    assert_eq!(rt; seen.end, Err(Refusal::Malformed(0)));
    input.push(0)?;
    let seen = run(rt.alloc(), "run", &input, &SOUND)?;
    assert_eq!(rt; seen.end, Err(Refusal::TooLong));
    Ok(())
}

// The module whose main has this body, below 90 bytes, over a local i64 and a local i32. Function 1 returns its first argument, function 2 has
// one local and does nothing.
fn module_of(alloc: Global, body: &str) -> Result<Vec<u8>, Fail> {
    let body = bytes_of(alloc, body)?;
    let mut bytes = bytes_of(alloc, "header three export")?;
    let size = u8::try_from(body.len()).unwrap_or(0).saturating_add(6);
    bytes.extend_from_slice(&[0x0A, size.saturating_add(13), 3, size, 2, 1, 0x7E, 1, 0x7F])?;
    bytes.extend_from_slice(&body)?;
    bytes.extend_from_slice(b"\x0B\x04\x00\x20\x00\x0B\x05\x01\x01\x7E\x01\x0B")?;
    Ok(bytes)
}

// Whether a run of the module with so many steps and words comes to this.
fn ends(alloc: Global, module: &[u8], limit: u32, words: u32, wanted: &str) -> Result<bool, Fail> {
    let line = format!(in alloc; "run --limit {limit} --words {words}")?;
    comes_to(alloc, line.as_str(), module, wanted)
}

// Whether the body ends so with so many steps and words, and with fewer of either does not. A limit is one step at least.
fn takes(alloc: Global, body: &str, steps: u32, words: u32, wanted: &str) -> Result<bool, Fail> {
    let module = module_of(alloc, body)?;
    let (fewer, less) = (steps.saturating_sub(1), words.saturating_sub(1));
    let limited = format!(in alloc; "refused: step limit {fewer}")?;
    let full = format!(in alloc; "refused: stack full at {less} words")?;
    Ok(
        ends(alloc, &module, steps, words, wanted)?
            && (fewer == 0 || ends(alloc, &module, fewer, words, limited.as_str())?)
            && ends(alloc, &module, steps, less, full.as_str())?,
    )
}

// Steps and words, a body, what its run comes to, and what it tells of, a row a line.
const COUNTS: &str = "1 7 § 42 07 § returned 7 § a constant, and the end of main
2 7 § 01 42 07 § returned 7 § nop
2 6 § 01 00 § trap unreachable § unreachable
4 7 § 02 40 01 0B 42 07 § returned 7 § a block that is left at its end
4 9 § 42 03 02 7E 42 04 0B 7C § returned 7 § a block with a result over an operand
3 9 § 02 7E 42 01 42 02 0C 00 0B § returned 2 § a block that is left by a branch
5 10 § 42 09 02 7E 02 40 42 04 0C 01 0B 42 05 0B 7D § returned 5 § two blocks left by one branch
2 9 § 42 01 02 40 42 08 0C 01 0B § returned 8 § a branch to the end of main
3 8 § 03 7E 42 07 0B § returned 7 § a loop that is gone through once
18 9 § 42 02 21 00 03 40 20 00 42 01 7D 22 00 50 04 40 05 0C 01 0B 0B 20 00 § returned 0 § a loop of two turns
4 8 § 02 40 03 40 0C 01 0B 0B 42 07 § returned 7 § a branch out of a loop
3 8 § 41 01 04 7E 42 06 05 42 05 0B § returned 6 § an if that holds
3 8 § 41 00 04 7E 42 06 05 42 05 0B § returned 5 § an if that does not hold
3 7 § 41 00 04 40 01 0B 42 07 § returned 7 § an if with no else that does not hold
4 7 § 41 01 04 40 01 0B 42 07 § returned 7 § an if with no else that holds
3 9 § 02 7E 42 06 41 01 0D 00 1A 42 05 0B § returned 6 § br_if that is taken
5 9 § 02 7E 42 06 41 00 0D 00 1A 42 05 0B § returned 5 § br_if that is not taken
1 8 § 42 06 41 01 0D 00 1A 42 05 § returned 6 § br_if to the end of main
4 9 § 02 40 02 40 41 00 0E 01 00 01 0B 42 03 0F 0B 42 04 § returned 3 § br_table at its first label
4 9 § 02 40 02 40 41 09 0E 01 00 01 0B 42 03 0F 0B 42 04 § returned 4 § br_table past its labels
2 10 § 42 01 02 40 42 02 42 03 0F 0B § returned 3 § return over operands and labels
4 13 § 42 07 41 03 10 01 § returned 7 § a call with arguments, the first below
5 14 § 42 01 42 07 41 03 10 01 7C § returned 8 § a call over an operand
4 11 § 10 02 42 07 § returned 7 § a call with no argument and no result
9 12 § 02 40 10 02 10 02 0B 42 07 § returned 7 § a call in a block
2 7 § 42 01 1A 42 07 § returned 7 § drop
2 9 § 42 07 42 08 41 01 1B § returned 7 § select the first
2 9 § 42 07 42 08 41 00 1B § returned 8 § select the second
2 7 § 20 00 § returned 0 § local.get
3 7 § 42 07 21 00 20 00 § returned 7 § local.set
2 7 § 42 07 22 00 § returned 7 § local.tee
2 7 § 23 00 § returned 5 § global.get
3 7 § 42 07 24 00 23 00 § returned 7 § global.set
3 7 § 3F 00 AD § returned 1 § memory.size
3 7 § 41 00 40 00 AD § returned 1 § memory.grow by nothing
1 7 § 41 F9 FF 03 29 03 00 § trap out-of-bounds § a load past the end by one byte
2 7 § 41 F8 FF 03 29 03 00 § returned 0 § a load at the end
1 8 § 41 F9 FF 03 42 01 37 03 00 42 07 § trap out-of-bounds § a store past the end by one byte
2 8 § 41 F8 FF 03 42 01 37 03 00 42 07 § returned 7 § a store at the end
3 8 § 41 08 42 AC 02 3C 00 00 41 08 31 00 00 § returned 44 § a load of what was stored
1 8 § 42 01 42 00 7F § trap divide-by-zero § a division by nothing
1 8 § 42 80 80 80 80 80 80 80 80 80 7F 42 7F 7F § trap overflow § a quotient past the greatest number
3 7 § 41 00 28 00 00 1A 42 07 § returned 7 § opcode
3 7 § 41 00 29 00 00 1A 42 07 § returned 7 § opcode
3 7 § 41 00 2C 00 00 1A 42 07 § returned 7 § opcode
3 7 § 41 00 2D 00 00 1A 42 07 § returned 7 § opcode
3 7 § 41 00 2E 00 00 1A 42 07 § returned 7 § opcode
3 7 § 41 00 2F 00 00 1A 42 07 § returned 7 § opcode
3 7 § 41 00 30 00 00 1A 42 07 § returned 7 § opcode
3 7 § 41 00 31 00 00 1A 42 07 § returned 7 § opcode
3 7 § 41 00 32 00 00 1A 42 07 § returned 7 § opcode
3 7 § 41 00 33 00 00 1A 42 07 § returned 7 § opcode
3 7 § 41 00 34 00 00 1A 42 07 § returned 7 § opcode
3 7 § 41 00 35 00 00 1A 42 07 § returned 7 § opcode
2 8 § 41 00 41 01 36 00 00 42 07 § returned 7 § opcode
2 8 § 41 00 42 01 37 00 00 42 07 § returned 7 § opcode
2 8 § 41 00 41 01 3A 00 00 42 07 § returned 7 § opcode
2 8 § 41 00 41 01 3B 00 00 42 07 § returned 7 § opcode
2 8 § 41 00 42 01 3C 00 00 42 07 § returned 7 § opcode
2 8 § 41 00 42 01 3D 00 00 42 07 § returned 7 § opcode
2 8 § 41 00 42 01 3E 00 00 42 07 § returned 7 § opcode
3 7 § 41 01 45 1A 42 07 § returned 7 § opcode
3 8 § 41 02 41 01 46 1A 42 07 § returned 7 § opcode
3 8 § 41 02 41 01 47 1A 42 07 § returned 7 § opcode
3 8 § 41 02 41 01 48 1A 42 07 § returned 7 § opcode
3 8 § 41 02 41 01 49 1A 42 07 § returned 7 § opcode
3 8 § 41 02 41 01 4A 1A 42 07 § returned 7 § opcode
3 8 § 41 02 41 01 4B 1A 42 07 § returned 7 § opcode
3 8 § 41 02 41 01 4C 1A 42 07 § returned 7 § opcode
3 8 § 41 02 41 01 4D 1A 42 07 § returned 7 § opcode
3 8 § 41 02 41 01 4E 1A 42 07 § returned 7 § opcode
3 8 § 41 02 41 01 4F 1A 42 07 § returned 7 § opcode
3 7 § 42 01 50 1A 42 07 § returned 7 § opcode
3 8 § 42 02 42 01 51 1A 42 07 § returned 7 § opcode
3 8 § 42 02 42 01 52 1A 42 07 § returned 7 § opcode
3 8 § 42 02 42 01 53 1A 42 07 § returned 7 § opcode
3 8 § 42 02 42 01 54 1A 42 07 § returned 7 § opcode
3 8 § 42 02 42 01 55 1A 42 07 § returned 7 § opcode
3 8 § 42 02 42 01 56 1A 42 07 § returned 7 § opcode
3 8 § 42 02 42 01 57 1A 42 07 § returned 7 § opcode
3 8 § 42 02 42 01 58 1A 42 07 § returned 7 § opcode
3 8 § 42 02 42 01 59 1A 42 07 § returned 7 § opcode
3 8 § 42 02 42 01 5A 1A 42 07 § returned 7 § opcode
3 7 § 41 01 67 1A 42 07 § returned 7 § opcode
3 7 § 41 01 68 1A 42 07 § returned 7 § opcode
3 7 § 41 01 69 1A 42 07 § returned 7 § opcode
3 8 § 41 02 41 01 6A 1A 42 07 § returned 7 § opcode
3 8 § 41 02 41 01 6B 1A 42 07 § returned 7 § opcode
3 8 § 41 02 41 01 6C 1A 42 07 § returned 7 § opcode
3 8 § 41 02 41 01 6D 1A 42 07 § returned 7 § opcode
3 8 § 41 02 41 01 6E 1A 42 07 § returned 7 § opcode
3 8 § 41 02 41 01 6F 1A 42 07 § returned 7 § opcode
3 8 § 41 02 41 01 70 1A 42 07 § returned 7 § opcode
3 8 § 41 02 41 01 71 1A 42 07 § returned 7 § opcode
3 8 § 41 02 41 01 72 1A 42 07 § returned 7 § opcode
3 8 § 41 02 41 01 73 1A 42 07 § returned 7 § opcode
3 8 § 41 02 41 01 74 1A 42 07 § returned 7 § opcode
3 8 § 41 02 41 01 75 1A 42 07 § returned 7 § opcode
3 8 § 41 02 41 01 76 1A 42 07 § returned 7 § opcode
3 8 § 41 02 41 01 77 1A 42 07 § returned 7 § opcode
3 8 § 41 02 41 01 78 1A 42 07 § returned 7 § opcode
3 7 § 42 01 79 1A 42 07 § returned 7 § opcode
3 7 § 42 01 7A 1A 42 07 § returned 7 § opcode
3 7 § 42 01 7B 1A 42 07 § returned 7 § opcode
3 8 § 42 02 42 01 7C 1A 42 07 § returned 7 § opcode
3 8 § 42 02 42 01 7D 1A 42 07 § returned 7 § opcode
3 8 § 42 02 42 01 7E 1A 42 07 § returned 7 § opcode
3 8 § 42 02 42 01 7F 1A 42 07 § returned 7 § opcode
3 8 § 42 02 42 01 80 1A 42 07 § returned 7 § opcode
3 8 § 42 02 42 01 81 1A 42 07 § returned 7 § opcode
3 8 § 42 02 42 01 82 1A 42 07 § returned 7 § opcode
3 8 § 42 02 42 01 83 1A 42 07 § returned 7 § opcode
3 8 § 42 02 42 01 84 1A 42 07 § returned 7 § opcode
3 8 § 42 02 42 01 85 1A 42 07 § returned 7 § opcode
3 8 § 42 02 42 01 86 1A 42 07 § returned 7 § opcode
3 8 § 42 02 42 01 87 1A 42 07 § returned 7 § opcode
3 8 § 42 02 42 01 88 1A 42 07 § returned 7 § opcode
3 8 § 42 02 42 01 89 1A 42 07 § returned 7 § opcode
3 8 § 42 02 42 01 8A 1A 42 07 § returned 7 § opcode
3 7 § 42 01 A7 1A 42 07 § returned 7 § opcode
3 7 § 41 01 AC 1A 42 07 § returned 7 § opcode
3 7 § 41 01 AD 1A 42 07 § returned 7 § opcode
3 7 § 20 01 1A 42 07 § returned 7 § opcode
2 7 § 41 02 21 01 42 07 § returned 7 § opcode
3 7 § 41 02 22 01 1A 42 07 § returned 7 § opcode
3 7 § 3F 00 1A 42 07 § returned 7 § opcode";

// Whether the row is as it says.
fn is_counted(alloc: Global, row: &str) -> Result<bool, Fail> {
    let (numbers, body, rest) = fields(row)?;
    let wanted = rest.split_once(" § ").map_or(rest, |(wanted, _)| wanted);
    match numbers.split_once(' ') {
        Some((steps, words)) => match (steps.parse::<u32>(), words.parse::<u32>()) {
            (Ok(steps), Ok(words)) => takes(alloc, body, steps, words, wanted),
            _ => Err(Fail::from("no numbers")),
        },
        None => Err(Fail::from("no numbers")),
    }
}

#[test]
fn steps_and_words(rt: HostRuntime) -> Result<(), Fail> {
    for row in COUNTS.lines() {
        assert!(rt; is_counted(rt.alloc(), row)?, "{row}");
    }
    Ok(())
}
