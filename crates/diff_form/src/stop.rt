//! Why the difference of two captures wasn't written.

use crate::outcome::Side;
use io_edges::OutOfMemory;

/// Why the difference of two captures wasn't written.
#[derive(Clone, Copy, Debug, PartialEq, Eq)]
pub enum DiffStop {
    /// A read of this capture failed; nothing was written.
    ReadFault(Side),
    /// This capture has more than 1,048,576 bytes; nothing was written.
    TooLong(Side),
    /// The sink failed; the first bytes of the text were written, or none.
    WriteFault,
    /// There was no memory; nothing was written.
    Memory(OutOfMemory),
}
