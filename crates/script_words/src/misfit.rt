//! Why times don't suit, and why a clock is too slow.
ghost use Rattle.std.specs.Prelude.{◌≡◌, ◌≤◌, ◌++◌, IfOk, OnOk};
ghost use Rattle.script_words.specs.Sentence.{too_slow, too_slow_or_long, ticks, inequality, reason, misfit_wanted, often_wanted, slow_delay, slow_wanted, is_right_clock, clock_sentence, number_sentence, range_sentence};

use crate::clocks::{gap_said, is_clock_line, slowed_behind, timing_of};
use crate::column::{put_field, put_found};
use crate::fit::{first_of, furthest, right};
use crate::line_sentence::put_value_sentence;
use crate::said::{Opening, times_said};
use crate::text::{Text, word_at, words_of};
use port_state::Misfit;
use script_lines::TooSlow;
use std::alloc::Global;
use topology_stack::OutOfMemory;

/// Appends that cables are too slow for a standard.
#[tactic(auto, unfolding(crate::specs::Sentence::too_slow))]
fn put_too_slow(out: &mut Vec<u8>, standard: &[u8]) -> Result<(), OutOfMemory>
    ensures { OnOk result (out.new.items ≡ out.old.items ++ too_slow standard.now) }
{
    out.extend_from_slice(b"Cables are too slow for ")?;
    out.extend_from_slice(standard)?;
    out.extend_from_slice(b".\n")?;
    Ok(())
}

/// Appends that cables are too slow for a standard, or ticks too long.
#[tactic(auto, unfolding(crate::specs::Sentence::too_slow_or_long))]
fn put_too_slow_or_long(out: &mut Vec<u8>, standard: &[u8]) -> Result<(), OutOfMemory>
    ensures { OnOk result (out.new.items ≡ out.old.items ++ too_slow_or_long standard.now) }
{
    out.extend_from_slice(b"Cables are too slow for ")?;
    out.extend_from_slice(standard)?;
    out.extend_from_slice(b", or ticks too long.\n")?;
    Ok(())
}

/// Appends words before a number of ticks, and words behind it.
#[tactic(auto, unfolding(crate::specs::Sentence::ticks))]
fn put_ticks(out: &mut Vec<u8>, before: &[u8], d: u8, behind: &[u8]) -> Result<(), OutOfMemory>
    ensures { OnOk result (out.new.items ≡ out.old.items ++ ticks before.now d behind.now) }
{
    put_field(out, before, u64::from(d))?;
    out.extend_from_slice(b" ticks, the way over ")?;
    out.extend_from_slice(behind)?;
    Ok(())
}

/// Appends the inequality that fails, where `d` ticks are the delay of a cable.
fn put_inequality(out: &mut Vec<u8>, d: u8, misfit: Misfit) -> Result<(), OutOfMemory>
    ensures { OnOk result (out.new.items ≡ out.old.items ++ inequality d misfit) }
{
    match misfit {
        Misfit::Uncounted => {
            out.extend_from_slice(b"times of at most 65535 ticks, which a node can count. ")
        }
        Misfit::ShortHold => put_ticks(out, b"holds of at least 64 x ", d, b"64 cables. "),
        Misfit::ShortWait => {
            let longer = b"short waits of a contention longer than 2 x ";
            put_ticks(out, longer, d, b"a cable and back. ")
        }
        Misfit::CloseWaits => {
            let longer = b"long waits of a contention longer than short ones by at least 2 x ";
            put_ticks(out, longer, d, b"a cable and back. ")
        }
        Misfit::ShortForce => {
            let longer =
                b"forced nodes that wait longer than the longest hold less theirs and 127 x ";
            put_ticks(out, longer, d, b"127 cables. ")
        }
    }
}

/// Appends why it does.
fn put_reason(out: &mut Vec<u8>, standard: &[u8], misfit: Misfit) -> Result<(), OutOfMemory>
    ensures { OnOk result (out.new.items ≡ out.old.items ++ reason standard.now misfit) }
{
    match misfit {
        Misfit::Uncounted => out.extend_from_slice(b"Ticks are too short.\n"),
        Misfit::ShortHold => put_too_slow(out, standard),
        Misfit::ShortWait => put_too_slow_or_long(out, standard),
        Misfit::CloseWaits => put_too_slow_or_long(out, standard),
        Misfit::ShortForce => put_too_slow(out, standard),
    }
}

/// Appends what was wanted of times that don't suit.
fn put_misfit(out: &mut Vec<u8>, d: u8, standard: &[u8], misfit: Misfit) -> Result<(), OutOfMemory>
    ensures { OnOk result (out.new.items
        ≡ out.old.items ++ misfit_wanted d standard.now misfit) }
{
    put_inequality(out, d, misfit)?;
    put_reason(out, standard, misfit)
}

/// Appends how often the clock of a node with this long wait has to tick.
#[tactic(auto, unfolding(crate::specs::Sentence::often_wanted))]
fn put_often_wanted(out: &mut Vec<u8>, long: u16, gap: u32) -> Result<(), OutOfMemory>
    ensures { OnOk result (out.new.items ≡ out.old.items ++ often_wanted long gap) }
{
    put_field(out, b"a clock that ticks at least ", u64::from(long))?;
    let between =
        b" times, the node's long wait, between two turns that it misses. This one ticks ";
    put_field(out, between, u64::from(gap))?;
    out.extend_from_slice(b" times.\n")?;
    Ok(())
}

/// After how many turns what a node tells is seen, where clocks miss turns.
fn slow_delay(d: u8, misfit: Misfit) -> u8
    requires { d ≤ 16 }
    ensures { result ≡ slow_delay d misfit }
{
    match misfit {
        Misfit::ShortForce => d + 1,
        _ => d,
    }
}

/// Appends why a clock is too slow that ticks for `gap` turns between two that it misses.
fn put_slow_wanted(
    out: &mut Vec<u8>,
    d: u8,
    long: u16,
    gap: u32,
    reason: TooSlow,
) -> Result<(), OutOfMemory>
    requires { d ≤ 16 }
    ensures { OnOk result (out.new.items ≡ out.old.items ++ slow_wanted d long gap reason) }
{
    match reason {
        TooSlow::Often => put_often_wanted(out, long, gap),
        TooSlow::Times(misfit) => {
            put_inequality(out, slow_delay(d, misfit), misfit)?;
            out.extend_from_slice(b"With the turns that this clock misses, times take too long.\n")
        }
    }
}

/// Whether words are those of a `clock` line and each number is in its range.
fn is_right_clock(alloc: Global, words: &[Text]) -> Result<bool, OutOfMemory>
    ensures { IfOk result (λ right. right ≡ is_right_clock words.now) }
{
    let n = furthest(alloc, words)?;
    let usage = first_of(alloc, n, words)?;
    let wanted = words_of(alloc, usage)?;
    Ok(is_clock_line(words) && !(right(wanted.as_slice(), words) < wanted.len()))
}

/// Appends the sentence on a clock that is too slow behind these lines.
fn put_clock_sentence(
    alloc: Global,
    out: &mut Vec<u8>,
    said: Opening,
    lines: &[Text],
    line: &[u8],
    words: &[Text],
) -> Result<(), OutOfMemory>
    requires some { 1 ≤ said.delay }
    requires few { said.delay ≤ 16 }
    ensures { OnOk result (out.new.items
        ≡ out.old.items ++ clock_sentence said.delay said.times lines.now line.now words.now) }
{
    match slowed_behind(alloc, said.delay, said.times, lines, words)? {
        Err(reason) => {
            let timing = timing_of(alloc, said.times, word_at(words, 1), lines)?;
            put_found(out, line, words, 2)?;
            put_slow_wanted(out, said.delay, timing.long, gap_said(words), reason)
        }
        Ok(_) => put_value_sentence(alloc, out, said.times, line, words),
    }
}

/// Appends the sentence on a number that is out of its range, or on times that don't suit.
fn put_number_sentence(
    alloc: Global,
    out: &mut Vec<u8>,
    said: Opening,
    line: &[u8],
    words: &[Text],
) -> Result<(), OutOfMemory>
    requires some { 1 ≤ said.delay }
    requires few { said.delay ≤ 16 }
    ensures { OnOk result (out.new.items
        ≡ out.old.items ++ number_sentence said.delay said.times line.now words.now) }
{
    match times_said(said.delay, words) {
        Some(Err(misfit)) => {
            put_found(out, line, words, 2)?;
            put_misfit(out, said.delay, word_at(words, 1), misfit)
        }
        _ => put_value_sentence(alloc, out, said.times, line, words),
    }
}

/// Appends one of these sentences, on a line behind others.
pub(crate) fn put_range_sentence(
    alloc: Global,
    out: &mut Vec<u8>,
    said: Opening,
    lines: &[Text],
    line: &[u8],
    words: &[Text],
) -> Result<(), OutOfMemory>
    requires some { 1 ≤ said.delay }
    requires few { said.delay ≤ 16 }
    ensures { OnOk result (out.new.items
        ≡ out.old.items ++ range_sentence said.delay said.times lines.now line.now words.now) }
{
    if is_right_clock(alloc, words)? {
        put_clock_sentence(alloc, out, said, lines, line, words)
    } else {
        put_number_sentence(alloc, out, said, line, words)
    }
}
