//! How slow the lines before a line say that clocks are, and what that makes of the times of nodes.
ghost use Rattle.std.specs.Prelude.{◌≡◌, ◌≤◌, drop, IfOk, if◌then◌else◌};
ghost use Rattle.script_lines.specs.Form.{word_at};
ghost use Rattle.script_words.specs.Clocks.{is_clock_line, time_given, time_or, timing_said, timing_of, gap_said, slowed_by, or_same, widened_by, slowed_behind};

use crate::before::{declares, words_in};
use crate::text::{Text, same, word_at};
use port_state::{TimeRanges, Timing};
use script_lines::{TooSlow, gap_of, number_of, slow_ranges};
use std::alloc::Global;
use topology_stack::OutOfMemory;

/// Whether words are those of a `clock` line.
pub(crate) fn is_clock_line(words: &[Text]) -> bool
    ensures { result ≡ is_clock_line words.now }
{
    same(word_at(words, 0), b"clock")
}

/// The number behind a key of pairs.
fn time_given(pairs: &[Text], key: &[u8]) -> Option<u32>
    ensures { result ≡ time_given key.now pairs.now }
{
    let mut rest = pairs;
    while let [word, value, behind @ ..] = rest {
        if word.is(key) {
            return number_of(value.as_bytes());
        }
        rest = behind;
    }
    None
}

/// A time that is given, or the least if that is none that a node counts.
fn time_or(least: u16, given: Option<u32>) -> u16
    ensures { result ≡ time_or least given }
{
    match given {
        Some(n) if n <= 65535 => n as u16,
        _ => least,
    }
}

/// The times that the pairs of a `node` line give.
fn timing_said(ranges: TimeRanges, pairs: &[Text]) -> Timing
    ensures { result ≡ timing_said ranges pairs.now }
{
    let least = ranges.least;
    Timing {
        hold: time_or(least.hold, time_given(pairs, b"hold")),
        short: time_or(least.short, time_given(pairs, b"short")),
        long: time_or(least.long, time_given(pairs, b"long")),
        ..least
    }
}

/// The words behind the first three.
fn pairs_of<'p, 'a>(words: &'p [Text<'a>]) -> &'p [Text<'a>]
    ensures { result.now ≡ drop 3 words.now }
{
    match words {
        [_, _, _, pairs @ ..] => pairs,
        _ => &[],
    }
}

/// The times of the node with a name, where it is declared in some of these lines.
pub(crate) fn timing_of(
    alloc: Global,
    ranges: TimeRanges,
    name: &[u8],
    lines: &[Text],
) -> Result<Timing, OutOfMemory>
    ensures { IfOk result (λ timing. timing ≡ timing_of ranges name.now lines.now) }
{
    for line in lines {
        let words = words_in(alloc, line)?;
        if declares(name, words.as_slice()) {
            return Ok(timing_said(ranges, pairs_of(words.as_slice())));
        }
    }
    Ok(ranges.least)
}

/// In how many turns the clock of a line ticks between two that it misses.
pub(crate) fn gap_said(words: &[Text]) -> u32
    ensures { result ≡ gap_said words.now }
{
    gap_of(number_of(word_at(words, 2)).unwrap_or(1).max(1))
}

/// What a line says on the clock of a node that has these times.
fn slowed_by(
    d: u8,
    ranges: TimeRanges,
    timing: Timing,
    words: &[Text],
) -> Result<TimeRanges, TooSlow>
    requires some { 1 ≤ d }
    requires few { d ≤ 16 }
    ensures { result ≡ slowed_by d ranges timing words.now }
{
    slow_ranges(d, ranges, timing, gap_said(words))
}

/// The new ranges, or where there are none the old ones.
fn or_same(ranges: TimeRanges, new: Result<TimeRanges, TooSlow>) -> TimeRanges
    ensures { result ≡ or_same ranges new }
{
    match new {
        Ok(new) => new,
        Err(_) => ranges,
    }
}

/// The ranges behind a line with these words, where nodes are declared in some of these lines.
fn widened_once(
    alloc: Global,
    d: u8,
    nodes: &[Text],
    ranges: TimeRanges,
    words: &[Text],
) -> Result<TimeRanges, OutOfMemory>
    requires some { 1 ≤ d }
    requires few { d ≤ 16 }
    ensures { IfOk result (λ new. new ≡ (if is_clock_line words.now then
        or_same ranges (slowed_by d ranges (timing_of ranges (word_at words.now 1) nodes.now) words.now)
        else ranges)) }
{
    if !is_clock_line(words) {
        return Ok(ranges);
    }
    let timing = timing_of(alloc, ranges, word_at(words, 1), nodes)?;
    Ok(or_same(ranges, slowed_by(d, ranges, timing, words)))
}

/// The ranges behind these lines, in which nodes are declared too.
fn widened_by(
    alloc: Global,
    d: u8,
    ranges: TimeRanges,
    lines: &[Text],
) -> Result<TimeRanges, OutOfMemory>
    requires some { 1 ≤ d }
    requires few { d ≤ 16 }
    ensures { IfOk result (λ new. new ≡ widened_by d lines.now ranges lines.now) }
{
    let mut wide = ranges;
    for line in lines {
        let words = words_in(alloc, line)?;
        wide = widened_once(alloc, d, lines, wide, words.as_slice())?;
    }
    Ok(wide)
}

/// What a line says on a clock behind other lines, where the times of nodes are at first in these
/// ranges.
pub(crate) fn slowed_behind(
    alloc: Global,
    d: u8,
    times: TimeRanges,
    lines: &[Text],
    words: &[Text],
) -> Result<Result<TimeRanges, TooSlow>, OutOfMemory>
    requires some { 1 ≤ d }
    requires few { d ≤ 16 }
    ensures { IfOk result (λ said. said ≡ slowed_behind d times lines.now words.now) }
{
    let ranges = widened_by(alloc, d, times, lines)?;
    let timing = timing_of(alloc, times, word_at(words, 1), lines)?;
    Ok(slowed_by(d, ranges, timing, words))
}
