//! Lines of JSON, each of which names the file that it is of.

use json::Writer;
use std::alloc::{AllocError, Global};
use std::io::{self, Write};

/// A writer of lines, each a JSON object with members, into another writer. To each it gives a first
/// member `file`.
#[derive(Drop)]
pub struct FileLines<W> {
    inner: W,
    /// An object's beginning, up to its first member's end.
    front: Vec<u8>,
    /// A line begins.
    begins: bool,
}

/// The beginning of an object with a member `file` of this name, up to this member's end.
fn front_of(alloc: Global, file: &str) -> Result<Vec<u8>, AllocError> {
    let mut front = Writer::new(Vec::new(alloc));
    front.begin_object()?;
    front.key("file")?;
    front.string(file)?;
    Ok(front.into_inner())
}

impl<W: Write + Drop> FileLines<W> {
    /// A writer into `inner`, whose lines name this file.
    pub fn new(alloc: Global, file: &str, inner: W) -> Result<FileLines<W>, AllocError> {
        Ok(FileLines {
            inner,
            front: front_of(alloc, file)?,
            begins: true,
        })
    }

    /// Writes a line's first bracket with the member `file` and the comma behind it.
    fn open_line(&mut self) -> io::Result<()> {
        self.inner.write_all(&self.front)?;
        self.inner.write_all(b",")?;
        self.begins = false;
        Ok(())
    }
}

impl<W: Write + Drop> Write for FileLines<W> {
    fn write(&mut self, buf: &[u8]) -> io::Result<usize> {
        if self.begins && !buf.is_empty() && buf[0] == b'{' {
            self.open_line()?;
            return Ok(1);
        }
        let end = buf.iter().position(|byte| *byte == b'\n');
        let line = match end {
            Some(at) => &buf[..=at],
            None => buf,
        };
        let written = self.inner.write(line)?;
        self.begins = end.is_some() && written == line.len();
        Ok(written)
    }

    fn flush(&mut self) -> io::Result<()> {
        self.inner.flush()
    }
}
