//! The exit status.
ghost use Rattle.std.specs.Prelude.{◌≡◌};
ghost use Rattle.diff_form.specs.Status.{diff_status};

use crate::outcome::Outcome;
use crate::stop::DiffStop;

/// The exit status of the program where `show_difference` answered this: 0 if nothing differs, 1 if something
/// does, 2 if a capture is refused, 3 if a read failed, 4 if the write did, 5 without memory, and 6 for a capture
/// that is too long.
pub fn diff_status(shown: Result<Outcome, DiffStop>) -> u8
    ensures { result ≡ diff_status shown }
{
    match shown {
        Ok(Outcome::Same) => 0,
        Ok(Outcome::Differs) => 1,
        Ok(Outcome::OldRefused | Outcome::NewRefused | Outcome::BothRefused) => 2,
        Err(DiffStop::ReadFault(_)) => 3,
        Err(DiffStop::WriteFault) => 4,
        Err(DiffStop::Memory(_)) => 5,
        Err(DiffStop::TooLong(_)) => 6,
    }
}
