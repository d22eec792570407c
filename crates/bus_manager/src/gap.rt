//! Gap counts.
ghost use Rattle.std.specs.Prelude.{◌≡◌, ◌<◌};
ghost use Rattle.bus_manager.specs.Gap.{gap_of};

/// The gap count that suits a bus whose longest path has so many cables.
///
/// No hop at all, and more than 15, give 63, the greatest gap count.
pub fn gap_for(hops: u8) -> u8
    ensures value { result ≡ gap_of hops }
    ensures fits { result < 64 }
{
    match hops {
        1 => 5,
        2 => 7,
        3 => 8,
        4 => 10,
        5 => 13,
        6 => 16,
        7 => 18,
        8 => 21,
        9 => 24,
        10 => 26,
        11 => 29,
        12 => 32,
        13 => 35,
        14 => 37,
        15 => 40,
        _ => 63,
    }
}
