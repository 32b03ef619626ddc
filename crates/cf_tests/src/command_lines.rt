// Command lines, and words that are none.
use crate::building::two;
use cf_words::{Command, read_words};
use std::alloc::Global;
use std::test::Fail;

// The words, one blank between two, and what they ask for or the number of the word where they are refused, a row a line.
const ROWS: &str = " § Err(Usage(0))
core § Ok(Core { steps: 1000000 })
build § Ok(Build { steps: 1000000, pages: 16 })
run § Ok(Run 2097152 100000000 [])
buil § Err(Usage(0))
builds § Err(Usage(0))
Build § Err(Usage(0))
--steps 3 core § Err(Usage(0))
build x § Err(Usage(1))
core core § Err(Usage(1))
core --steps 1 § Ok(Core { steps: 1 })
core --steps 1000000000 § Ok(Core { steps: 1000000000 })
core --steps 1000000001 § Err(Usage(2))
core --steps 000 § Err(Usage(2))
core --steps 18446744073709551617 § Err(Usage(2))
core --steps 000000000000000000000000000000000000000042 § Ok(Core { steps: 42 })
core --steps +5 § Err(Usage(2))
core --steps 5x § Err(Usage(2))
core --steps ٣ § Err(Usage(2))
core --steps § Err(Usage(2))
core --pages 2 § Err(Usage(1))
core --steps 7 --steps 7 § Err(Usage(3))
core --steps 7 8 § Err(Usage(3))
build --step 3 § Err(Usage(1))
build --steps=3 § Err(Usage(1))
build --pages 1024 § Ok(Build { steps: 1000000, pages: 1024 })
build --pages 1025 § Err(Usage(2))
build --pages 0 § Err(Usage(2))
build --steps 42 --pages 007 § Ok(Build { steps: 42, pages: 7 })
build --steps 42 --pages § Err(Usage(4))
build --steps 42 --pages 7 --steps 1 § Err(Usage(5))
run --words 16777216 § Ok(Run 16777216 100000000 [])
run --words 16777217 § Err(Usage(2))
run --limit 1000000000000 § Ok(Run 2097152 1000000000000 [])
run --limit 1000000000001 § Err(Usage(2))
run --limit 030 --words 005 -2 3 § Ok(Run 5 30 [-2, 3])
run --words 5 -2 --limit 30 § Err(Usage(4))
run 7 --words 5 § Err(Usage(2))
run 0 00 -0 -007 § Ok(Run 2097152 100000000 [0, 0, 0, -7])
run 9223372036854775807 -9223372036854775808 § Ok(Run 2097152 100000000 [9223372036854775807, -9223372036854775808])
run 9223372036854775808 § Err(Usage(1))
run 1 -9223372036854775809 § Err(Usage(2))
run - § Err(Usage(1))
run 3  § Err(Usage(2))";

// What is answered for the words, as text.
fn shown(alloc: Global, line: &str) -> Result<String, Fail> {
    let mut words = Vec::new(alloc);
    if !line.is_empty() {
        for word in line.split(' ') {
            words.push(String::from_str(alloc, word)?)?;
        }
    }
    match read_words(alloc, words.as_slice()) {
        Ok(Command::Run { words, limit, args }) => {
            let args = args.as_slice();
            Ok(format!(in alloc; "Ok(Run {words} {limit} {args:?})")?)
        }
        answer => Ok(format!(in alloc; "{answer:?}")?),
    }
}

fn is_so(alloc: Global, row: &str) -> Result<bool, Fail> {
    let (line, want) = two(row)?;
    Ok(shown(alloc, line)?.as_str() == want)
}

#[test]
fn words_are_read(rt: HostRuntime) -> Result<(), Fail> {
    for row in ROWS.lines() {
        assert!(rt; is_so(rt.alloc(), row)?, "{row}");
    }
    Ok(())
}
