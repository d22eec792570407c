//! Why nothing was written of an input, or not all.

use io_edges::OutOfMemory;

/// Why nothing was written of an input, or not all.
#[derive(Clone, Copy, Debug, PartialEq, Eq)]
pub enum StreamStop {
    /// A read failed; nothing was written.
    ReadFault,
    /// The input has more than 1,048,576 bytes; nothing was written.
    TooLong,
    /// The sink failed; the first bytes were written, or none.
    WriteFault,
    /// There was no memory; nothing was written.
    Memory(OutOfMemory),
}
