//! Why a source was not read to its end.
ghost use Rattle.std.specs.Prelude.{◌≡◌};

use crate::traits::Failed;
use std::alloc::AllocError;
use thiserror::Error;

/// Want of memory.
pub type OutOfMemory = AllocError;

/// Why a source was not read to its end.
#[derive(Clone, Copy, Debug, PartialEq, Eq, Error)]
pub enum ReadStop {
    /// A read failed.
    #[error("the source failed")]
    ReadFault,
    /// The source gave more bytes than the limit.
    #[error("the source has too many bytes")]
    TooLong,
    /// There was no memory for the bytes.
    #[error("out of memory")]
    Memory(OutOfMemory),
}

impl From<Failed> for ReadStop {
    ghost use Rattle.io_edges.specs.declared.stop.ReadStop.TheVariants.{ReadFault};

    ghost from_gives = { λ _ stop. stop ≡ ReadFault };

    fn from(_failed: Failed) -> ReadStop {
        ReadStop::ReadFault
    }
}

impl From<OutOfMemory> for ReadStop {
    ghost use Rattle.io_edges.specs.declared.stop.ReadStop.TheVariants.{Memory};

    ghost from_gives = { λ error stop. stop ≡ Memory error };

    fn from(error: OutOfMemory) -> ReadStop {
        ReadStop::Memory(error)
    }
}
