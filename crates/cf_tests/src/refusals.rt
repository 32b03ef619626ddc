// The line of each refusal.
use cf_base::{At, Limit};
use cf_diag::{Refusal, no_memory_text, refusal_text, write_fault_text};
use std::alloc::Global;
use std::test::Fail;
use wb_decode::What;
use wb_valid::Part;

// A place in the source, and one in the prelude.
const SOURCE: At = At {
    prelude: false,
    offset: 26,
};

const PRELUDE: At = At {
    prelude: true,
    offset: 1048576,
};

// The refusal with this number.
fn refusal(number: u32) -> Option<Refusal> {
    Some(match number {
        0 => Refusal::Usage(3),
        1 => Refusal::Usage(0),
        2 => Refusal::ReadFault,
        3 => Refusal::TooLong,
        4 => Refusal::NotText(0),
        5 => Refusal::BadChar(4294967295),
        6 => Refusal::Syntax(SOURCE),
        7 => Refusal::Syntax(PRELUDE),
        8 => Refusal::TooNested(SOURCE),
        9 => Refusal::TooMany(SOURCE, Limit::Declarations),
        10 => Refusal::TooMany(SOURCE, Limit::Parameters),
        11 => Refusal::TooMany(SOURCE, Limit::Constructors),
        12 => Refusal::TooMany(SOURCE, Limit::Fields),
        13 => Refusal::TooMany(PRELUDE, Limit::Arguments),
        14 => Refusal::Literal(SOURCE),
        15 => Refusal::Unknown(SOURCE),
        16 => Refusal::Twice(SOURCE),
        17 => Refusal::Later,
        18 => Refusal::WriteFault,
        19 => Refusal::NoMemory,
        20 => Refusal::Malformed(0),
        21 => Refusal::Malformed(4294967295),
        22 => Refusal::Outside(37, What::Import),
        23 => Refusal::Outside(37, What::Table),
        24 => Refusal::Outside(37, What::Start),
        25 => Refusal::Outside(37, What::Element),
        26 => Refusal::Outside(37, What::DataPart),
        27 => Refusal::Outside(37, What::Float),
        28 => Refusal::Invalid(Part::FuncType(3)),
        29 => Refusal::Invalid(Part::Memories),
        30 => Refusal::Invalid(Part::MemoryLimits),
        31 => Refusal::Invalid(Part::GlobalInit(3)),
        32 => Refusal::Invalid(Part::ExportOf(3)),
        33 => Refusal::Invalid(Part::Body(0)),
        34 => Refusal::TooMuchMemory(1025),
        35 => Refusal::NoMain,
        36 => Refusal::Arity(1, 0),
        37 => Refusal::Arity(10, 11),
        38 => Refusal::StepLimit(1000),
        39 => Refusal::StepLimit(1000000000000),
        40 => Refusal::StackFull(4),
        41 => Refusal::StackFull(16777216),
        42 => Refusal::Stuck,
        _ => return None,
    })
}

// The lines of the refusals, in the order of their numbers.
const LINES: &str = "refused: usage at word 3
refused: usage at word 0
refused: read fault
refused: input too long
refused: not text at 0
refused: bad character at 4294967295
refused: syntax at 26
refused: syntax at prelude 1048576
refused: nested too deep at 26
refused: too many declarations at 26
refused: too many parameters at 26
refused: too many constructors at 26
refused: too many fields at 26
refused: too many arguments at prelude 1048576
refused: literal out of range at 26
refused: unknown name at 26
refused: declared twice at 26
refused: form not built yet
refused: write fault
refused: no memory
refused: malformed at 0
refused: malformed at 4294967295
refused: outside the profile at 37: import
refused: outside the profile at 37: table
refused: outside the profile at 37: start
refused: outside the profile at 37: element
refused: outside the profile at 37: data
refused: outside the profile at 37: float
refused: invalid function type 3
refused: invalid memories
refused: invalid limits
refused: invalid global 3
refused: invalid export 3
refused: invalid body 0
refused: memory of 1025 pages
refused: no exported main
refused: arity 1, wanted 0
refused: arity 10, wanted 11
refused: step limit 1000
refused: step limit 1000000000000
refused: stack full at 4 words
refused: stack full at 16777216 words
refused: stuck";

fn line(alloc: Global, refusal: &Refusal) -> Result<String, Fail> {
    Ok(String::from_utf8(refusal_text(alloc, refusal)?)?)
}

// Whether the refusal with this number has this line.
fn is_so(alloc: Global, number: u32, want: &str) -> Result<bool, Fail> {
    let refusal = refusal(number).ok_or("no refusal")?;
    let found = line(alloc, &refusal)?;
    Ok(found.strip_suffix('\n') == Some(want))
}

#[test]
fn refusals_have_lines(rt: HostRuntime) -> Result<(), Fail> {
    let mut number: u32 = 0;
    for want in LINES.lines() {
        assert!(rt; is_so(rt.alloc(), number, want)?, "{want}");
        number = number.saturating_add(1);
    }
    assert_eq!(rt; number, 43);
    assert_eq!(rt; no_memory_text(), b"refused: no memory\n".as_slice());
    assert_eq!(rt; write_fault_text(), b"refused: write fault\n".as_slice());
    Ok(())
}
