//! Laws of the ranges of times.
ghost use Rattle.self_id.specs.declared.standard.Standard.TheVariants.{Ieee1995, Ieee2000};
ghost use Rattle.port_state.specs.TimeRanges.{FitsAreSuitable, SuitableRangesFit};
ghost use Rattle.port_state.specs.TimeRanges.{ProfileIsSuitable, ProfileIsInRange};
ghost use Rattle.port_state.specs.StandardTimes.{FineTicksAreSuitable, CoarseTicksAreSuitable};
ghost use Rattle.port_state.specs.StandardTimes.{LeastIsWithin, DelaysAreFew};

/// Ranges are handed out exactly where they are suitable. Those of the profile are.
pub fn ranges_are_suitable()
    ensures fits { FitsAreSuitable }
    ensures all { SuitableRangesFit }
    ensures profile { ProfileIsSuitable }
    ensures in_range { ProfileIsInRange }
{}

/// The times of the standards are suitable for cables that are fast enough: with 16 ticks for the
/// delay of a cable up to 363 nanoseconds by IEEE Std 1394a-2000, and up to 116 by IEEE Std
/// 1394-1995; with 4 ticks up to 334 and 106.
pub fn standard_ranges_are_suitable()
    ensures fine { FineTicksAreSuitable Ieee2000 363 }
    ensures fine_older { FineTicksAreSuitable Ieee1995 116 }
    ensures coarse { CoarseTicksAreSuitable Ieee2000 334 }
    ensures coarse_older { CoarseTicksAreSuitable Ieee1995 106 }
{}

/// The least times of a standard are in its ranges. Where these suit, the delay of a cable is at most
/// 65,535 nanoseconds.
pub fn standard_times_are_few()
    ensures least { LeastIsWithin }
    ensures few { DelaysAreFew }
{}
