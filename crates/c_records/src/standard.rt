//! The standards by their years.
ghost use Rattle.std.specs.Prelude.{◌≡◌};
ghost use Rattle.c_records.specs.Standards.{standard_of};

use self_id::Standard;

/// The standard of a year, 1995 or 2000.
pub fn standard_of(year: u32) -> Option<Standard>
    ensures { result ≡ standard_of year }
{
    match year {
        1995 => Some(Standard::Ieee1995),
        2000 => Some(Standard::Ieee2000),
        _ => None,
    }
}
