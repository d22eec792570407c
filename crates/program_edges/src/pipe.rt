//! A writer that notes whether its reader went away.

use std::io::{self, Write};

/// A writer into another one. It notes whether a write failed since nobody reads any more, as behind a
/// pipe into `head`.
#[derive(Debug, Drop)]
pub struct PipeWriter<W> {
    inner: W,
    broken: bool,
}

impl<W: Write> PipeWriter<W> {
    /// A writer into `inner`.
    pub fn new(inner: W) -> PipeWriter<W> {
        PipeWriter {
            inner,
            broken: false,
        }
    }

    /// Whether nobody reads any more what is written.
    pub fn is_broken(&self) -> bool {
        self.broken
    }
}

impl<W: Write> Write for PipeWriter<W> {
    fn write(&mut self, buf: &[u8]) -> io::Result<usize> {
        match self.inner.write(buf) {
            Err(error) => {
                self.broken = error.kind() == io::ErrorKind::BrokenPipe;
                Err(error)
            }
            done => done,
        }
    }

    fn flush(&mut self) -> io::Result<()> {
        self.inner.flush()
    }
}
