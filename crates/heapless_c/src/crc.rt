//! The CRC.
ghost use Rattle.std.specs.Prelude.{◌≡◌, ℕ};
ghost use Rattle.topology_map.specs.Crc.{IsCrc};

/// The CRC of quadlets (IEEE Std 1212).
#[unsafe(no_mangle)]
pub extern "C" fn busconf_crc16(quads: &[u32]) -> u16
    ensures remainder { IsCrc quads.now result }
    // No other number is the remainder.
    ensures only { (crc : ℕ) → IsCrc quads.now crc → crc ≡ result }
{
    topology_map::crc16(quads)
}
