//! The ranges of the times of nodes that share a bus.
ghost use Rattle.std.specs.Prelude.{◌≡◌, ◌≤◌, ◌*◌, ◌+◌, ◌-◌, ◌/◌, nat_lt, Some, None, if◌then◌else◌};
ghost use Rattle.port_state.specs.TimeRanges.{greatest, misfit, suitable, profile_ranges};
ghost use Rattle.port_state.specs.StandardTimes.{nanoseconds, standard_ranges, ticks_down, ticks_up};

use crate::timing::Timing;
use self_id::Standard;

/// From the least to the greatest that each time of a node may be, in ticks.
#[derive(Clone, Copy, Debug, PartialEq, Eq)]
pub struct TimeRanges {
    /// The least.
    pub least: Timing,
    /// The greatest.
    pub most: Timing,
}

/// Why nodes whose times are in given ranges can't share a bus on which a cable delays by at most
/// `d` ticks.
#[derive(Clone, Copy, Debug, PartialEq, Eq)]
pub enum Misfit {
    /// A time is longer than a timer counts: more than 65,535 ticks.
    Uncounted,
    /// A hold may be shorter than 64 d: a reset could run round a ring for ever.
    ShortHold,
    /// A short wait may be no longer than 2 d, the way over a cable and back.
    ShortWait,
    /// A long wait may be less than 2 d longer than a short one.
    CloseWaits,
    /// A forced node may give up before all others have asked it to be their parent: its hold and
    /// its force time are no longer than the longest hold and 127 d.
    ShortForce,
}

impl TimeRanges {
    /// The ranges of the profile, where a cable delays by at most `d` ticks, 1 to 16: those that
    /// `Timing::in_range` asks for.
    pub fn profile(d: u8) -> TimeRanges
        requires some { 1 ≤ d }
        requires few { d ≤ 16 }
        ensures { result ≡ profile_ranges d }
    {
        let least = Timing::usual(d);
        let d = u16::from(d);
        let most = Timing {
            hold: 80 * d,
            force: 256 * d,
            timeout: 512 * d,
            short: 4 * d,
            long: 10 * d,
        };
        TimeRanges { least, most }
    }

    /// The ranges of a standard, rounded outwards to whole ticks, where a cable delays by at most
    /// `d` ticks, 1 to 16, and these are `nanoseconds`, at least one. Where nodes with such times
    /// can't share a bus, why.
    pub fn of_standard(standard: Standard, d: u8, nanoseconds: u32) -> Result<TimeRanges, Misfit>
        requires some { 1 ≤ d }
        requires few { d ≤ 16 }
        requires some_time { 1 ≤ nanoseconds }
        ensures { result ≡ suitable d (standard_ranges standard d nanoseconds) }
    {
        match ranges_of(standard, d, nanoseconds) {
            None => Err(Misfit::Uncounted),
            Some(ranges) => match ranges.misfit(d) {
                None => Ok(ranges),
                Some(misfit) => Err(misfit),
            },
        }
    }

    /// Why nodes with times in these ranges can't share a bus on which a cable delays by at most
    /// `d` ticks, 1 to 16; none where they can.
    pub fn misfit(self, d: u8) -> Option<Misfit>
        requires some { 1 ≤ d }
        requires few { d ≤ 16 }
        ensures { result ≡ misfit d self }
    {
        let d = u32::from(d);
        let least = self.least;
        let most = self.most;
        if u32::from(least.hold) < 64 * d {
            Some(Misfit::ShortHold)
        } else if u32::from(least.short) < 2 * d + 1 {
            Some(Misfit::ShortWait)
        } else if u32::from(least.long) < u32::from(most.short) + 2 * d {
            Some(Misfit::CloseWaits)
        } else if u32::from(least.hold) + u32::from(least.force)
            < u32::from(most.hold) + 127 * d + 1
        {
            Some(Misfit::ShortForce)
        } else {
            None
        }
    }
}

/// From the least to the greatest that a time may be, in nanoseconds.
#[derive(Clone, Copy)]
struct Span {
    least: u32,
    most: u32,
}

const HOLD: Span = Span {
    least: 166_600,
    most: 166_700,
};

const FORCE: Span = Span {
    least: 83_300,
    most: 166_600,
};

const TIMEOUT: Span = Span {
    least: 166_600,
    most: 166_700,
};

/// The short wait of a contention.
fn short_wait(standard: Standard) -> Span
    ensures least { result.least ≡ (nanoseconds standard).least.short }
    ensures most { result.most ≡ (nanoseconds standard).most.short }
{
    match standard {
        Standard::Ieee1995 => Span {
            least: 240,
            most: 260,
        },
        Standard::Ieee2000 => Span {
            least: 760,
            most: 850,
        },
    }
}

/// The long wait of a contention.
fn long_wait(standard: Standard) -> Span
    ensures least { result.least ≡ (nanoseconds standard).least.long }
    ensures most { result.most ≡ (nanoseconds standard).most.long }
{
    match standard {
        Standard::Ieee1995 => Span {
            least: 570,
            most: 600,
        },
        Standard::Ieee2000 => Span {
            least: 1590,
            most: 1670,
        },
    }
}

/// A time in ticks, of which `d` are so many nanoseconds: its least rounded down, and its greatest
/// rounded up. None where the greatest is more than a timer counts.
fn ticks(span: Span, d: u8, nanoseconds: u32) -> Option<(u16, u16)>
    requires some_time { 1 ≤ nanoseconds }
    requires rising { span.least ≤ span.most }
    ensures { result ≡ if nat_lt 65535 (ticks_up d nanoseconds span.most) then None
        else Some (ticks_down d nanoseconds span.least, ticks_up d nanoseconds span.most) }
{
    let (d, one) = (u64::from(d), u64::from(nanoseconds));
    let most = (u64::from(span.most) * d + (one - 1)) / one;
    if most > 65535 {
        return None;
    }
    let least = u64::from(span.least) * d / one;
    Some((least as u16, most as u16))
}

/// The ranges of a standard, where a timer can count them.
fn ranges_of(standard: Standard, d: u8, nanoseconds: u32) -> Option<TimeRanges>
    requires some_time { 1 ≤ nanoseconds }
    ensures { result ≡ if nat_lt 65535 (greatest (standard_ranges standard d nanoseconds).most)
        then None else Some (standard_ranges standard d nanoseconds) }
{
    let hold = ticks(HOLD, d, nanoseconds)?;
    let force = ticks(FORCE, d, nanoseconds)?;
    let timeout = ticks(TIMEOUT, d, nanoseconds)?;
    let short = ticks(short_wait(standard), d, nanoseconds)?;
    let long = ticks(long_wait(standard), d, nanoseconds)?;
    let least = Timing {
        hold: hold.0,
        force: force.0,
        timeout: timeout.0,
        short: short.0,
        long: long.0,
    };
    let most = Timing {
        hold: hold.1,
        force: force.1,
        timeout: timeout.1,
        short: short.1,
        long: long.1,
    };
    Some(TimeRanges { least, most })
}
