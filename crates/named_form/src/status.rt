//! The exit status.
ghost use Rattle.std.specs.Prelude.{◌≡◌};
ghost use Rattle.named_form.specs.Status.{named_status};

use crate::outcome::Outcome;
use crate::stop::NamedStop;

/// The exit status of the program if `show_named` answered this: 0 if the bus is shown, 1 if the capture is refused,
/// 2 if the file of names is, 3 if a read failed, 4 if the write did, 5 without memory, and 6 for an input that is too
/// long.
pub fn named_status(shown: Result<Outcome, NamedStop>) -> u8
    ensures { result ≡ named_status shown }
{
    match shown {
        Ok(Outcome::Shown) => 0,
        Ok(Outcome::Refused) => 1,
        Ok(Outcome::Misnamed(_)) => 2,
        Err(NamedStop::ReadFault(_)) => 3,
        Err(NamedStop::WriteFault) => 4,
        Err(NamedStop::Memory(_)) => 5,
        Err(NamedStop::TooLong(_)) => 6,
    }
}
