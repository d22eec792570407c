//! What the first lines of a script say of its delay and of the times of its nodes.
ghost use Rattle.std.specs.Prelude.{◌≡◌, ◌≤◌, [], IfOk, drop, slice_index_or};
ghost use Rattle.script_words.specs.Before.{words_in, from_first, is_delay, delay_number, says_delay, delay_said, delay_of, standard_named, ranges_by, is_times, times_said, any_ranges, or_any, is_opening, ranges_said, ranges_of};

use crate::before::words_in;
use crate::fit::furthest;
use crate::text::{Text, same, word_at};
use port_state::{Misfit, TimeRanges, Timing};
use script_lines::{number_of, says_nothing};
use self_id::Standard;
use std::alloc::Global;
use topology_stack::OutOfMemory;

/// What a script's first lines say: its delay, 1 to 16, and the ranges of the times of its nodes.
#[derive(Clone, Copy, Debug)]
pub(crate) struct Opening {
    pub delay: u8,
    pub times: TimeRanges,
}

/// The lines from the first that isn't skipped.
fn from_first<'p, 'a>(lines: &'p [Text<'a>]) -> &'p [Text<'a>]
    ensures { result.now ≡ from_first lines.now }
{
    let mut rest = lines;
    while let [line, behind @ ..] = rest {
        if !says_nothing(line.as_bytes()) {
            return rest;
        }
        rest = behind;
    }
    rest
}

/// The lines behind the first.
fn behind_first<'p, 'a>(lines: &'p [Text<'a>]) -> &'p [Text<'a>]
    ensures { result.now ≡ drop 1 lines.now }
{
    match lines {
        [] => lines,
        [_, behind @ ..] => behind,
    }
}

/// The words of the first of these lines.
#[tactic(auto, unfolding(line_words::specs::Words::words_by))]
fn words_of_first<'a>(alloc: Global, lines: &[Text<'a>]) -> Result<Vec<Text<'a>>, OutOfMemory>
    ensures { IfOk result (λ words. words.items ≡ words_in (slice_index_or lines.now 0 [])) }
{
    match lines {
        [] => Ok(Vec::new(alloc)),
        [line, ..] => words_in(alloc, line),
    }
}

fn is_delay(words: &[Text]) -> bool
    ensures { result ≡ is_delay words.now }
{
    same(word_at(words, 0), b"delay")
}

fn delay_number(words: &[Text]) -> u32
    ensures { result ≡ delay_number words.now }
{
    number_of(word_at(words, 1)).unwrap_or(0)
}

/// Whether words say a delay, and none is at fault.
fn says_delay(words: &[Text]) -> bool
    ensures { result ≡ says_delay words.now }
{
    is_delay(words) && words.len() == 2 && (1..=16).contains(&delay_number(words))
}

/// The delay that a line says, or the usual one.
fn delay_said(words: &[Text]) -> u8
    ensures value { result ≡ delay_said words.now }
    ensures some { 1 ≤ result }
    ensures few { result ≤ 16 }
{
    if says_delay(words) {
        delay_number(words) as u8
    } else {
        4
    }
}

/// The standard that a word names.
fn standard_named(word: &[u8]) -> Option<Standard>
    ensures { result ≡ standard_named word.now }
{
    if same(word, b"1394a") {
        Some(Standard::Ieee2000)
    } else if same(word, b"1394-1995") {
        Some(Standard::Ieee1995)
    } else {
        None
    }
}

/// The ranges of a standard, where `d` ticks are so many nanoseconds, or why they don't suit.
fn ranges_by(
    d: u8,
    standard: Option<Standard>,
    nanoseconds: u32,
) -> Option<Result<TimeRanges, Misfit>>
    requires some { 1 ≤ d }
    requires few { d ≤ 16 }
    ensures { result ≡ ranges_by d standard nanoseconds }
{
    match standard {
        Some(standard) if nanoseconds > 0 => {
            Some(TimeRanges::of_standard(standard, d, nanoseconds))
        }
        _ => None,
    }
}

fn is_times(words: &[Text]) -> bool
    ensures { result ≡ is_times words.now }
{
    same(word_at(words, 0), b"times")
}

/// The ranges that a line says, or why they don't suit.
pub(crate) fn times_said(d: u8, words: &[Text]) -> Option<Result<TimeRanges, Misfit>>
    requires some { 1 ≤ d }
    requires few { d ≤ 16 }
    ensures { result ≡ times_said d words.now }
{
    if !is_times(words) || words.len() != 3 {
        return None;
    }
    let nanoseconds = number_of(word_at(words, 2)).unwrap_or(0);
    ranges_by(d, standard_named(word_at(words, 1)), nanoseconds)
}

/// Every time that a timer counts.
fn any_ranges() -> TimeRanges
    ensures { result ≡ any_ranges }
{
    let least = Timing {
        hold: 1,
        force: 1,
        timeout: 1,
        short: 1,
        long: 1,
    };
    let most = Timing {
        hold: 65_535,
        force: 65_535,
        timeout: 65_535,
        short: 65_535,
        long: 65_535,
    };
    TimeRanges { least, most }
}

/// The ranges that are said, if they suit. Otherwise the times may be any.
fn or_any(said: Option<Result<TimeRanges, Misfit>>) -> TimeRanges
    ensures { result ≡ or_any said }
{
    match said {
        Some(Ok(ranges)) => ranges,
        _ => any_ranges(),
    }
}

/// Whether words ought to say the delay or times: they begin with that verb, or with none, which may be one of these
/// two misspelt.
fn is_opening(alloc: Global, words: &[Text]) -> Result<bool, OutOfMemory>
    ensures { IfOk result (λ opening. opening ≡ is_opening words.now) }
{
    if is_delay(words) || is_times(words) {
        return Ok(true);
    }
    let fitting = furthest(alloc, words)?;
    Ok(fitting == 0)
}

/// The ranges by a line behind which no other says them. If it ought to and is at fault, the times may be any.
fn ranges_said(alloc: Global, d: u8, words: &[Text]) -> Result<TimeRanges, OutOfMemory>
    requires some { 1 ≤ d }
    requires few { d ≤ 16 }
    ensures { IfOk result (λ ranges. ranges ≡ ranges_said d words.now) }
{
    if is_opening(alloc, words)? {
        return Ok(or_any(times_said(d, words)));
    }
    Ok(TimeRanges::profile(d))
}

/// What a script of these lines says.
pub(crate) fn said(alloc: Global, lines: &[Text]) -> Result<Opening, OutOfMemory>
    ensures delay { IfOk result (λ said. said.delay ≡ delay_of lines.now) }
    ensures times { IfOk result (λ said. said.times ≡ ranges_of lines.now) }
    ensures some { IfOk result (λ said. 1 ≤ said.delay) }
    ensures few { IfOk result (λ said. said.delay ≤ 16) }
{
    let lines = from_first(lines);
    let words = words_of_first(alloc, lines)?;
    let delay = delay_said(words.as_slice());
    let words = if says_delay(words.as_slice()) {
        words_of_first(alloc, from_first(behind_first(lines)))?
    } else {
        words
    };
    let times = ranges_said(alloc, delay, words.as_slice())?;
    Ok(Opening { delay, times })
}
