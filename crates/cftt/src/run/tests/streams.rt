//! Streams that fail: each read, each write, and each write of a refusal.

use super::{Ends, SOUND, Seen, run};
use cf_diag::Refusal;
use std::alloc::Global;
use std::test::Fail;

const SUM: &[u8] = b"main : Int := add 3 4;";

// A module whose `main` returns 7.
const SEVEN: &[u8] =
    b"\0asm\x01\0\0\0\x01\x05\x01\x60\0\x01\x7E\x03\x02\x01\0\x07\x08\x01\x04main\0\0\x0A\x06\x01\x04\0\x42\x07\x0B";

// A command with its input, and how many reads of 7 bytes it makes.
const COMMANDS: [(&str, &[u8], u64); 3] = [
    ("build", SUM, 5),
    ("core", b"explicit; x : Int := 1;", 5),
    ("run", SEVEN, 7),
];

// What comes of the command where the read with this number fails.
fn failing_read(alloc: Global, line: &str, input: &[u8], number: u64) -> Result<Seen, Fail> {
    let fails = [number];
    let ends = Ends {
        piece: 7,
        read_fails: fails.as_slice(),
        ..SOUND
    };
    run(alloc, line, input, &ends)
}

// The read that finds the end is the last one that is made, so a failure behind it changes nothing.
#[test]
fn failing_reads(rt: HostRuntime) -> Result<(), Fail> {
    for (line, input, reads) in COMMANDS {
        for number in 1..=reads {
            let seen = failing_read(rt.alloc(), line, input, number)?;
            assert_eq!(rt; seen.end, Err(Refusal::ReadFault), "{line} {number}");
            assert!(rt; seen.written.is_empty());
            assert_eq!(rt; seen.told.as_slice(), b"refused: read fault\n".as_slice());
        }
        let seen = failing_read(rt.alloc(), line, input, reads.saturating_add(1))?;
        assert!(rt; seen.end != Err(Refusal::ReadFault), "{line}");
    }
    Ok(())
}

// What comes of the command where the output has this room, and the write with this number fails.
fn failing_write(
    alloc: Global,
    line: &str,
    input: &[u8],
    room: usize,
    number: u64,
) -> Result<Seen, Fail> {
    let fails = [number];
    let ends = Ends {
        room,
        write_fails: fails.as_slice(),
        ..SOUND
    };
    run(alloc, line, input, &ends)
}

// Whether the write failed, and a front of so many bytes was taken.
fn is_cut(seen: &Seen, whole: &[u8], count: usize) -> bool {
    let front = whole.get(..count.min(whole.len()));
    seen.end == Err(Refusal::WriteFault)
        && Some(seen.written.as_slice()) == front
        && seen.told.as_slice() == b"refused: write fault\n".as_slice()
}

// Writes take 4 bytes.
#[test]
fn failing_writes(rt: HostRuntime) -> Result<(), Fail> {
    for (line, input, _) in COMMANDS {
        let whole = run(rt.alloc(), line, input, &SOUND)?.written;
        let count = whole.len();
        for number in 0..count.div_ceil(4) {
            let at = number as u64 + 1;
            let seen = failing_write(rt.alloc(), line, input, 1000, at)?;
            assert!(rt; is_cut(&seen, &whole, 4 * number), "{line} {number}");
        }
        for room in 0..count {
            let seen = failing_write(rt.alloc(), line, input, room, 0)?;
            assert!(rt; is_cut(&seen, &whole, room), "{line} {room}");
        }
    }
    Ok(())
}

// A fault of the error stream changes no answer: what was taken before it stays.
#[test]
fn failing_tells(rt: HostRuntime) -> Result<(), Fail> {
    for (number, front) in [(1, ""), (2, "refu"), (3, "refused:")] {
        let fails = [number];
        let ends = Ends {
            tell_fails: fails.as_slice(),
            ..SOUND
        };
        let seen = run(rt.alloc(), "build", b"\xFF", &ends)?;
        assert_eq!(rt; seen.end, Err(Refusal::NotText(0)));
        assert_eq!(rt; seen.told.as_slice(), front.as_bytes());
    }
    Ok(())
}
