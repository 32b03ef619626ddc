// Sources and sinks, in memory and over readers and writers that fail.
use cf_base::{
    Failed, MemSink, MemSource, ReadEnd, Sink, Source, StdSink, StdSource, read_all, write_all,
};
use std::io;
use std::io::{ErrorKind, Read, Write};
use std::test::Fail;

// Room for five bytes, where the second write fails.
#[test]
fn a_sink_in_memory(rt: HostRuntime) -> Result<(), Fail> {
    let fails = vec![in rt.alloc(); 2]?;
    let mut sink = MemSink::new(rt.alloc(), 5, 3, fails)?;
    assert_eq!(rt; write_all(&mut sink, b"abcd"), Err(Failed));
    assert_eq!(rt; sink.taken(), b"abc".as_slice());
    assert_eq!(rt; write_all(&mut sink, b"de"), Ok(()));
    assert_eq!(rt; write_all(&mut sink, b"f"), Err(Failed));
    assert_eq!(rt; sink.taken(), b"abcde".as_slice());
    Ok(())
}

// How many bytes there are, how many are taken at most, which read fails, and how many were read.
const INPUTS: [(usize, u64, u64, Result<usize, ReadEnd>); 6] = [
    (0, 0, 0, Ok(0)),
    (1, 0, 0, Err(ReadEnd::TooLong)),
    (5000, 5000, 0, Ok(5000)),
    (5001, 5000, 0, Err(ReadEnd::TooLong)),
    (10, u64::MAX, 0, Ok(10)),
    (20, 100, 3, Err(ReadEnd::Fault)),
];

#[test]
fn whole_inputs(rt: HostRuntime) -> Result<(), Fail> {
    for (count, max, fails, end) in INPUTS {
        let bytes = vec![in rt.alloc(); 1u8; count]?;
        let mut source = MemSource::new(bytes, 7, vec![in rt.alloc(); fails]?);
        let read = read_all(rt.alloc(), &mut source, max).map(|bytes| bytes.len());
        assert_eq!(rt; read, end, "{count} bytes, at most {max}");
    }
    Ok(())
}

// Reads one byte a call, or takes one; the second call fails, and the third reads or takes nothing.
#[derive(Drop)]
struct Faulty {
    calls: u32,
}

impl Faulty {
    fn turn(&mut self, most: usize) -> io::Result<usize> {
        self.calls = self.calls.saturating_add(1);
        match self.calls {
            2 => Err(io::Error::from(ErrorKind::Other)),
            3 => Ok(0),
            _ => Ok(most.min(1)),
        }
    }
}

impl Read for Faulty {
    fn read(&mut self, buf: &mut [u8]) -> io::Result<usize> {
        let count = self.turn(buf.len())?.min(buf.len());
        buf[..count].fill(7);
        Ok(count)
    }
}

impl Write for Faulty {
    fn write(&mut self, piece: &[u8]) -> io::Result<usize> {
        Ok(self.turn(piece.len())?.min(piece.len()))
    }

    fn flush(&mut self) -> io::Result<()> {
        Ok(())
    }
}

#[test]
fn a_reader_and_a_writer_that_fail(rt: HostRuntime) {
    let mut source = StdSource::new(Faulty { calls: 0 });
    let mut room = [0u8; 2];
    assert_eq!(rt; source.read(&mut room), Ok(1));
    assert_eq!(rt; room, [7, 0]);
    assert_eq!(rt; source.read(&mut room), Err(Failed));
    assert_eq!(rt; source.read(&mut room), Ok(0));
    let mut sink = StdSink::new(Faulty { calls: 0 });
    assert_eq!(rt; sink.write(b"ab"), Ok(1));
    assert_eq!(rt; sink.write(b"b"), Err(Failed));
    assert_eq!(rt; sink.write(b"b"), Err(Failed));
    assert_eq!(rt; sink.write(b"b"), Ok(1));
}
