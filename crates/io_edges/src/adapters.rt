//! The adapters over std's readers and writers.
ghost use Rattle.std.specs.Prelude.{◌≡◌, ◌<◌, ◌≤◌, length, None, IfOk, OnErr};
ghost use Rattle.std.specs.Io.{ReadsAtMost, WritesAtMost};
ghost use Rattle.std.specs.Io.KnownBytes.{ReadConsumes, WriteAppends};
ghost use Rattle.io_edges.specs.Adapted.{reader, read_faults, writer, write_faults};
ghost use Rattle.io_edges.specs.Faults.{Rose, CountsFault};
ghost use Rattle.io_edges.specs.Told.{StayTold};

use crate::traits::{Failed, Sink, Source};
use std::io::{Read, Write};

/// A reader as a source. Each error of the reader is counted as a fault. It tells no bytes.
#[derive(Debug, Drop)]
pub struct ReadSource<R> {
    inner: R,
    faults: u64,
}

impl<R: Read> ReadSource<R> {
    /// A source of the bytes of `inner`, with no fault yet.
    pub fn new(inner: R) -> ReadSource<R>
        ensures inner { reader result ≡ inner }
        ensures none { read_faults result ≡ 0 }
    {
        ReadSource { inner, faults: 0 }
    }
}

impl<R: Read> Source for ReadSource<R> {
    ghost left = { λ _. None };

    ghost faults = { λ source. source.faults };

    fn read(&mut self, buf: &mut [u8]) -> Result<usize, Failed>
        ensures bound { ReadsAtMost result buf.new }
        ensures later { read_faults self.old ≤ read_faults self.new }
        ensures cause { OnErr result (Rose (read_faults self.old) (read_faults self.new)) }

        // The bytes are those of the reader, where it knows them, and its errors are counted.
        ensures inner { ReadConsumes
            (R.remaining (reader self.old)) (R.remaining (reader self.new)) result buf.new }
        ensures counted { CountsFault (read_faults self.old) (read_faults self.new) result }
    {
        match self.inner.read(buf) {
            Ok(count) => Ok(count),
            Err(_) => {
                self.faults = self.faults.saturating_add(1);
                Err(Failed)
            }
        }
    }

    ghost fit = { λ _. tt };
}

/// A writer as a sink. Each error of the writer is counted as a fault, and so is each write of some
/// bytes that takes none. It tells no bytes.
#[derive(Debug, Drop)]
pub struct WriteSink<W> {
    inner: W,
    faults: u64,
}

impl<W: Write> WriteSink<W> {
    /// A sink into `inner`, with no fault yet.
    pub fn new(inner: W) -> WriteSink<W>
        ensures inner { writer result ≡ inner }
        ensures none { write_faults result ≡ 0 }
    {
        WriteSink { inner, faults: 0 }
    }
}

impl<W: Write> Sink for WriteSink<W> {
    ghost written = { λ _. None };

    ghost faults = { λ sink. sink.faults };

    fn write(&mut self, buf: &[u8]) -> Result<usize, Failed>
        ensures bound { WritesAtMost result buf.now }
        ensures some { 0 < length buf.now → IfOk result (λ count. 0 < count) }
        ensures later { write_faults self.old ≤ write_faults self.new }
        ensures cause { OnErr result (Rose (write_faults self.old) (write_faults self.new)) }

        // The writer takes the bytes, and a write of some bytes that takes none is an error.
        ensures inner { WriteAppends
            (W.contents (writer self.old)) (W.contents (writer self.new)) result buf.now }
        ensures counted { CountsFault (write_faults self.old) (write_faults self.new) result }
    {
        match self.inner.write(buf) {
            Ok(count) if count > 0 || buf.is_empty() => Ok(count),
            _ => {
                self.faults = self.faults.saturating_add(1);
                Err(Failed)
            }
        }
    }
}
