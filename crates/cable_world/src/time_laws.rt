//! Laws of times.
ghost use Rattle.cable_world.specs.Times.{RangesSuit, StandardTimesSuit};

/// Nodes whose times are in suitable ranges suit a bus on which no node has longer times than the
/// greatest of these, and each can be forced. So do nodes with the times of IEEE Std 1394-1995 and
/// 1394a-2000, for each number of ticks and of nanoseconds for the delay of a cable for which
/// `TimeRanges::of_standard` gives ranges.
pub fn times_suit()
    ensures ranges { RangesSuit }
    ensures standards { StandardTimesSuit }
{
    port_state::ranges_are_suitable();
}
