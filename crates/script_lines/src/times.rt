//! What a script says of the times of its nodes.
ghost use Rattle.std.specs.Prelude.{◌≡◌, ◌≤◌};
ghost use Rattle.script_lines.specs.Times.{profile_times, standard_times};

use crate::kind::Kind;
use port_state::{TimeRanges, ranges_are_suitable, standard_times_are_few};
use self_id::Standard;

/// The times of the nodes of a script.
#[derive(Clone, Copy, Debug, PartialEq, Eq)]
pub struct ScriptTimes {
    /// Their ranges, in ticks.
    pub ranges: TimeRanges,
    /// So many nanoseconds are as long as the delay of a cable, where the script says it.
    pub nanoseconds: Option<u16>,
}

impl ScriptTimes {
    /// Those of a script that says nothing of them, where a cable delays a signal by at most `d`
    /// ticks, 1 to 16.
    pub fn profile(d: u8) -> ScriptTimes
        requires some { 1 ≤ d }
        requires few { d ≤ 16 }
        ensures { result ≡ profile_times d }
    {
        ScriptTimes {
            ranges: TimeRanges::profile(d),
            nanoseconds: None,
        }
    }

    /// Those of a standard, where a cable delays by at most `d` ticks, 1 to 16, and these are
    /// `nanoseconds`, at least one. `Range` where nodes with such times can't share a bus.
    pub fn of_standard(standard: Standard, d: u8, nanoseconds: u32) -> Result<ScriptTimes, Kind>
        requires some { 1 ≤ d }
        requires few { d ≤ 16 }
        requires some_time { 1 ≤ nanoseconds }
        ensures { result ≡ standard_times standard d nanoseconds }
    {
        ranges_are_suitable();
        standard_times_are_few();
        match TimeRanges::of_standard(standard, d, nanoseconds) {
            Ok(ranges) => Ok(ScriptTimes {
                ranges,
                nanoseconds: Some(nanoseconds as u16),
            }),
            Err(_) => Err(Kind::Range),
        }
    }
}
