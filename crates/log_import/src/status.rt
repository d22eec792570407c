//! The exit status.
ghost use Rattle.std.specs.Prelude.{◌≡◌};
ghost use Rattle.log_import.specs.Status.{reset_status};

use crate::outcome::Outcome;
use reset_list::LogStop;

/// The exit status of the program where `show_reset` answered this: 0 where a capture was written, 1 where the log has
/// no such reset that is judged, 3 where a read failed, 4 where the write did, 5 without memory, and 6 for a log that is
/// too long.
pub fn reset_status(shown: Result<Outcome, LogStop>) -> u8
    ensures { result ≡ reset_status shown }
{
    match shown {
        Ok(Outcome::Written(_)) => 0,
        Ok(Outcome::TooFew(_)) => 1,
        Ok(Outcome::IsError(_)) => 1,
        Ok(Outcome::PacketsMissing(_, _)) => 1,
        Err(LogStop::ReadFault) => 3,
        Err(LogStop::WriteFault) => 4,
        Err(LogStop::Memory(_)) => 5,
        Err(LogStop::TooLong) => 6,
    }
}
