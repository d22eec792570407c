//! The exit status.
ghost use Rattle.std.specs.Prelude.{◌≡◌};
ghost use Rattle.capture_import.specs.Status.{import_status};

use crate::outcome::Outcome;
use crate::stop::StreamStop;

/// The exit status of the program where `show_import` answered this: 0 where a capture was written, 1 where the input
/// is refused, 3 where a read failed, 4 where the write did, 5 without memory, and 6 for an input that is too long.
pub fn import_status(shown: Result<Outcome, StreamStop>) -> u8
    ensures { result ≡ import_status shown }
{
    match shown {
        Ok(Outcome::Written(_)) => 0,
        Ok(Outcome::Refused(_)) => 1,
        Err(StreamStop::ReadFault) => 3,
        Err(StreamStop::WriteFault) => 4,
        Err(StreamStop::Memory(_)) => 5,
        Err(StreamStop::TooLong) => 6,
    }
}
