//! The exit status.
ghost use Rattle.std.specs.Prelude.{◌≡◌};
ghost use Rattle.flawed_form.specs.Status.{flawed_status};

use crate::written::FlawedStop;
use flawed_capture::FlawStop;

/// The exit status of the program where `write_flawed` answered this: 0 where a capture was written, 2 where the
/// bus has none with the flaw or none was found, 4 where the write failed, and 5 without memory.
pub fn flawed_status(written: Result<(), FlawedStop>) -> u8
    ensures { result ≡ flawed_status written }
{
    match written {
        Ok(()) => 0,
        Err(FlawedStop::WriteFault) => 4,
        Err(FlawedStop::Flaw(FlawStop::TooFewNodes { .. })) => 2,
        Err(FlawedStop::Flaw(FlawStop::NoBus)) => 2,
        Err(FlawedStop::Flaw(FlawStop::NotFound)) => 2,
        Err(FlawedStop::Flaw(FlawStop::Memory(_))) => 5,
    }
}
