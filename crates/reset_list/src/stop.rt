//! Why a log wasn't shown to its end.
ghost use Rattle.std.specs.Prelude.{◌≡◌};

use std::alloc::{AllocError, AllocFailed};
use thiserror::Error;

/// The most bytes of a log: as many come in 292,000 years at a megabyte a second.
pub const MAX_LOG: usize = 9_223_372_036_854_775_807;

/// Why a log wasn't shown to its end.
#[derive(Clone, Copy, Debug, PartialEq, Eq, Error)]
pub enum LogStop {
    /// A read failed.
    #[error("the source failed")]
    ReadFault,
    /// A write failed.
    #[error("the sink failed")]
    WriteFault,
    /// The log has more bytes than `MAX_LOG`.
    #[error("the log is too long")]
    TooLong,
    /// There was no memory.
    #[error("out of memory")]
    Memory(AllocError),
}

impl From<AllocError> for LogStop {
    ghost use Rattle.reset_list.specs.declared.stop.LogStop.TheVariants.{Memory};

    ghost from_gives = { λ error stop. stop ≡ Memory error };

    fn from(error: AllocError) -> LogStop {
        LogStop::Memory(error)
    }
}

impl<T: Drop> From<AllocFailed<T>> for LogStop {
    ghost use Rattle.std.specs.Prelude.{alloc_error};
    ghost use Rattle.reset_list.specs.declared.stop.LogStop.TheVariants.{Memory};

    ghost from_gives = { λ _ stop. stop ≡ Memory alloc_error };

    fn from(failed: AllocFailed<T>) -> LogStop {
        LogStop::Memory(AllocError::from(failed))
    }
}
