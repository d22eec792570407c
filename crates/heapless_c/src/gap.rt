//! Gap counts.
ghost use Rattle.std.specs.Prelude.{◌≡◌, ◌<◌};
ghost use Rattle.bus_manager.specs.Gap.{gap_of};

/// The gap count for so many hops.
#[unsafe(no_mangle)]
pub extern "C" fn busconf_gap_for(hops: u8) -> u8
    ensures value { result ≡ gap_of hops }
    ensures fits { result < 64 }
{
    bus_manager::gap_for(hops)
}
