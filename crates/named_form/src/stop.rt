//! Why a bus with names wasn't written.

use crate::outcome::Input;
use io_edges::OutOfMemory;

/// Why a bus with names wasn't written.
#[derive(Clone, Copy, Debug, PartialEq, Eq)]
pub enum NamedStop {
    /// A read of this input failed; nothing was written.
    ReadFault(Input),
    /// This input has more than 1,048,576 bytes; nothing was written.
    TooLong(Input),
    /// The sink failed; the first bytes of the text were written, or none.
    WriteFault,
    /// There was no memory; nothing was written.
    Memory(OutOfMemory),
}
