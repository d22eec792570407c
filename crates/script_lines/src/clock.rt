//! A node's clock that is slower than a turn says.
ghost use Rattle.std.specs.Prelude.{◌≡◌, ◌≤◌, ◌+◌, ◌*◌, ◌/◌, nat_lt, max, Some, None, Ok, IfSome, if◌then◌else◌};
ghost use Rattle.port_state.specs.Clock.{most_turns};
ghost use Rattle.port_state.specs.TimeRanges.{greatest};
ghost use Rattle.script_lines.specs.Clock.{gap_of, before_first, widened, slow_suitable, slow_ranges};

use crate::kind::{Kind, LineStop};
use port_state::{Misfit, TimeRanges, Timing};

/// Why the clock of a node can't be as slow as a line says.
#[derive(Clone, Copy, Debug, PartialEq, Eq)]
pub enum TooSlow {
    /// It ticks fewer times between two turns that it misses than the node's long wait.
    Often,
    /// With the turns that it misses the times of nodes no longer suit.
    Times(Misfit),
}

impl From<TooSlow> for LineStop {
    ghost use Rattle.script_lines.specs.declared.kind.Kind.TheVariants.{Range};
    ghost use Rattle.script_lines.specs.declared.kind.LineStop.TheVariants.{Fault};

    ghost from_gives = { λ _ e. e ≡ Fault Range };

    fn from(_reason: TooSlow) -> LineStop {
        LineStop::Fault(Kind::Range)
    }
}

/// For how many turns a clock ticks between two that it misses, where it is so many parts per million
/// slower than a turn says, at least one.
pub fn gap_of(ppm: u32) -> u32
    requires { 1 ≤ ppm }
    ensures value { result ≡ gap_of ppm }
    ensures some { ppm ≤ 1000000 → 1 ≤ result }
{
    1_000_000 / ppm
}

/// For how many turns it ticks before the first that it misses: the one that is said, counted from 1,
/// or the one behind `gap` turns.
pub fn before_first(gap: u32, first: Option<u32>) -> u32
    requires { IfSome first (λ turn. 1 ≤ turn) }
    ensures { result ≡ before_first gap first }
{
    match first {
        None => gap,
        Some(turn) => turn - 1,
    }
}

/// How many turns a clock misses in so many ticks, where it ticks so many times between two of them. No
/// pace stands for none.
fn missed(ticks: u16, pace: u16) -> u16
    ensures { result ≡ ticks / pace }
{
    if pace == 0 { 0 } else { ticks / pace }
}

/// How many turns so many ticks take at most.
fn most_turns(pace: u16, ticks: u16) -> u32
    ensures { result ≡ most_turns pace ticks }
{
    u32::from(ticks) + u32::from(missed(ticks, pace)) + 1
}

/// The longer of two times. None where it is more than a timer counts.
fn longer(most: u16, turns: u32) -> Option<u16>
    ensures { result ≡ if nat_lt 65535 (max most turns) then None else Some (max most turns) }
{
    if turns > 65535 {
        return None;
    }
    Some(most.max(turns as u16))
}

/// The widened ranges, where a timer can count them.
fn widened(ranges: TimeRanges, t: Timing) -> Option<TimeRanges>
    ensures { result ≡ if nat_lt 65535 (greatest (widened ranges t).most) then None
        else Some (widened ranges t) }
{
    let TimeRanges { least, most } = ranges;
    let hold = longer(most.hold, most_turns(t.long, t.hold))?;
    let force = longer(most.force, most_turns(t.long, t.force))?;
    let timeout = longer(most.timeout, most_turns(t.long, t.timeout))?;
    let short = longer(most.short, u32::from(t.short) + 1)?;
    let long = longer(most.long, u32::from(t.long) + 1)?;
    let most = Timing {
        hold,
        force,
        timeout,
        short,
        long,
    };
    Some(TimeRanges { least, most })
}

/// Whether a forced node could give up before all others have asked it to be their parent, where a
/// cable delays by `d` turns and clocks miss turns.
fn is_forced_too_short(d: u8, ranges: TimeRanges) -> bool
    ensures { result ≡ nat_lt (ranges.least.hold + ranges.least.force)
        (ranges.most.hold + 127 * (d + 1) + 1) }
{
    let waits = u32::from(ranges.least.hold) + u32::from(ranges.least.force);
    waits < u32::from(ranges.most.hold) + 127 * (u32::from(d) + 1) + 1
}

/// Suitable ranges on a bus whose clocks miss turns.
fn slow_suitable(d: u8, ranges: TimeRanges) -> Result<TimeRanges, TooSlow>
    ensures { result ≡ slow_suitable d (Ok ranges) }
{
    if is_forced_too_short(d, ranges) {
        return Err(TooSlow::Times(Misfit::ShortForce));
    }
    Ok(ranges)
}

/// The ranges of the times of the nodes of a bus, in turns, once the clock of a node with these times
/// ticks for `gap` turns between two that it misses. They were `ranges` before, and a cable delays a
/// signal by at most `d` turns, 1 to 16. Where the clock is too slow for that, why.
pub fn slow_ranges(
    d: u8,
    ranges: TimeRanges,
    timing: Timing,
    gap: u32,
) -> Result<TimeRanges, TooSlow>
    requires some { 1 ≤ d }
    requires few { d ≤ 16 }
    ensures { result ≡ slow_ranges d ranges timing gap }
{
    if gap < u32::from(timing.long) {
        return Err(TooSlow::Often);
    }
    match widened(ranges, timing) {
        None => Err(TooSlow::Times(Misfit::Uncounted)),
        Some(ranges) => match ranges.misfit(d) {
            None => slow_suitable(d, ranges),
            Some(misfit) => Err(TooSlow::Times(misfit)),
        },
    }
}
