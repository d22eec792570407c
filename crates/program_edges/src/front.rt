//! A source and a sink that keep the front of what went through.

use io_edges::{Failed, Sink, Source};
use std::alloc::Global;

/// How many bytes are kept. A refusal with more, which a word of some thousand characters makes, is cut here.
const FRONT: usize = 8_192;

/// A sink into another one. It keeps the first bytes that the other one took, up to a piece for which
/// there was no memory.
#[derive(Debug, Drop)]
pub struct FrontSink<S> {
    inner: S,
    front: Vec<u8>,
}

impl<S: Sink> FrontSink<S> {
    /// A sink into `inner`, with nothing kept.
    pub fn new(alloc: Global, inner: S) -> FrontSink<S> {
        FrontSink {
            inner,
            front: Vec::new(alloc),
        }
    }

    /// What was kept.
    pub fn front(&self) -> &[u8] {
        self.front.as_slice()
    }
}

impl<S: Sink> Sink for FrontSink<S> {
    ghost written = { λ sink. S.written sink.inner };

    ghost faults = { λ sink. S.faults sink.inner };

    ghost surely_takes = { λ sink count. S.surely_takes sink.inner count };

    fn write(&mut self, buf: &[u8]) -> Result<usize, Failed> {
        let count = self.inner.write(buf)?;
        if self.front.len() < FRONT {
            let room = FRONT - self.front.len();
            let _ = self.front.extend_from_slice(&buf[..count.min(room)]);
        }
        Ok(count)
    }
}

/// A source out of another one. It keeps the first bytes that the other one gave, up to a piece for which
/// there was no memory.
#[derive(Debug, Drop)]
pub struct FrontSource<S> {
    inner: S,
    front: Vec<u8>,
}

impl<S: Source> FrontSource<S> {
    /// A source out of `inner`, with nothing kept.
    pub fn new(alloc: Global, inner: S) -> FrontSource<S> {
        FrontSource {
            inner,
            front: Vec::new(alloc),
        }
    }

    /// What was kept.
    pub fn front(&self) -> &[u8] {
        self.front.as_slice()
    }
}

impl<S: Source> Source for FrontSource<S> {
    ghost left = { λ source. S.left source.inner };

    ghost faults = { λ source. S.faults source.inner };

    fn read(&mut self, buf: &mut [u8]) -> Result<usize, Failed> {
        let count = self.inner.read(buf)?;
        if self.front.len() < FRONT && count <= buf.len() {
            let room = FRONT - self.front.len();
            let _ = self.front.extend_from_slice(&buf[..count.min(room)]);
        }
        Ok(count)
    }

    ghost fit = { λ source. S.fit source.inner };
}
