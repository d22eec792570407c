//! Bytes in and out, with faults.

use io_edges::{
    Failed, MemSink, MemSource, ReadSource, ReadStop, Sink, Source, SureSource, WriteSink,
    read_all, write_whole,
};
use std::alloc::{AllocError, Global};
use std::io;
use std::io::{ErrorKind, Read, Write};
use std::test::Fail;

/// A stream whose first call moves one byte, whose second fails, and whose others move nothing.
#[derive(Drop)]
struct Flaky {
    calls: u8,
}

impl Flaky {
    fn next_call(&mut self) -> u8 {
        let call = self.calls;
        self.calls = call.saturating_add(1);
        call
    }
}

impl Read for Flaky {
    fn read(&mut self, buf: &mut [u8]) -> io::Result<usize> {
        match self.next_call() {
            0 if !buf.is_empty() => {
                buf[0] = b'a';
                Ok(1)
            }
            1 => Err(io::Error::from(ErrorKind::Other)),
            _ => Ok(0),
        }
    }
}

impl Write for Flaky {
    fn write(&mut self, buf: &[u8]) -> io::Result<usize> {
        match self.next_call() {
            0 if !buf.is_empty() => Ok(1),
            1 => Err(io::Error::from(ErrorKind::Other)),
            _ => Ok(0),
        }
    }

    fn flush(&mut self) -> io::Result<()> {
        Ok(())
    }
}

#[test]
fn reading_adapters(rt: HostRuntime) {
    let mut buf = [0u8; 4];
    let mut source = ReadSource::new(Flaky { calls: 0 });
    for answer in [Ok(1), Err(Failed), Ok(0)] {
        assert!(rt; source.read(&mut buf) == answer);
    }
    assert!(rt; buf == [b'a', 0, 0, 0]);
}

#[test]
fn writing_adapters(rt: HostRuntime) {
    let mut sink = WriteSink::new(Flaky { calls: 0 });
    for answer in [Ok(1), Err(Failed), Err(Failed)] {
        assert!(rt; sink.write(b"ab") == answer);
    }
    assert!(rt; sink.write(b"") == Ok(0));
}

/// Whether a read gives this answer, and the buffer is then this one.
fn reads(source: &mut MemSource, buf: &mut [u8; 4], answer: Answer, front: &[u8; 4]) -> bool {
    source.read(buf) == answer && *buf == *front
}

/// What a read or a write answers.
type Answer = Result<usize, Failed>;

/// The answers of five reads, and the buffer after each.
const READS: &[(Answer, &[u8; 4])] = &[
    (Ok(2), b"ab\0\0"),
    (Err(Failed), b"ab\0\0"),
    (Ok(2), b"cd\0\0"),
    (Ok(1), b"ed\0\0"),
    (Ok(0), b"ed\0\0"),
];

#[test]
fn memory_to_read(rt: HostRuntime) -> Result<(), Fail> {
    let alloc = rt.alloc();
    let mut buf = [0u8; 4];
    let bytes = Vec::from_slice(alloc, b"abcde")?;
    let mut source = MemSource::new(bytes, vec![in alloc; 1]?, 2);
    for (answer, front) in READS {
        assert!(rt; reads(&mut source, &mut buf, *answer, *front));
    }
    Ok(())
}

/// Texts that are written, and the answers.
const WRITES: &[(&[u8], Answer)] = &[
    (b"abcdef", Ok(2)),
    (b"cdef", Err(Failed)),
    (b"cdef", Ok(2)),
    (b"ef", Ok(1)),
    (b"f", Err(Failed)),
    (b"", Ok(0)),
];

#[test]
fn memory_to_write(rt: HostRuntime) -> Result<(), Fail> {
    let alloc = rt.alloc();
    let mut sink = MemSink::new(alloc, 5, vec![in alloc; 1]?, 2)?;
    for (text, answer) in WRITES {
        assert!(rt; sink.write(*text) == *answer);
    }
    assert!(rt; sink.written() == b"abcde".as_slice());
    Ok(())
}

/// Whether this is what is read of so many bytes in pieces of three, of which one fails.
fn whole_is(
    alloc: Global,
    fails: u32,
    limit: usize,
    wanted: Result<&[u8], ReadStop>,
) -> Result<bool, AllocError> {
    if limit > 1_048_576 {
        return Ok(false);
    }
    let bytes = Vec::from_slice(alloc, b"abcde")?;
    let mut source = MemSource::new(bytes, vec![in alloc; fails]?, 3);
    Ok(match (read_all(alloc, &mut source, limit), wanted) {
        (Ok(found), Ok(wanted)) => found.as_slice() == wanted,
        (Err(found), Err(wanted)) => found == wanted,
        _ => false,
    })
}

#[test]
fn whole_inputs(rt: HostRuntime) -> Result<(), Fail> {
    for (fails, limit, answer) in [
        (9, 5, Ok(b"abcde".as_slice())),
        (1, 5, Err(ReadStop::ReadFault)),
        (9, 4, Err(ReadStop::TooLong)),
        (9, 0, Err(ReadStop::TooLong)),
    ] {
        assert!(rt; whole_is(rt.alloc(), fails, limit, answer)?);
    }
    Ok(())
}

/// Ten thousand sevens.
fn many(alloc: Global) -> Result<Vec<u8>, AllocError> {
    vec![in alloc; 7u8; 10_000]
}

#[test]
fn many_bytes_read(rt: HostRuntime) -> Result<(), Fail> {
    let mut source = SureSource::new(many(rt.alloc())?);
    let found = read_all(rt.alloc(), &mut source, 1_048_576)?;
    assert!(rt; found == many(rt.alloc())?);
    Ok(())
}

#[test]
fn many_bytes_written(rt: HostRuntime) -> Result<(), Fail> {
    let bytes = many(rt.alloc())?;
    let mut sink = MemSink::new(rt.alloc(), 10_000, Vec::new(rt.alloc()), 3000)?;
    write_whole(&mut sink, &bytes)?;
    assert!(rt; sink.written() == bytes.as_slice());
    assert!(rt; write_whole(&mut sink, b"more") == Err(Failed));
    Ok(())
}
