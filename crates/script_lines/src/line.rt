//! A line of a script.
ghost use Rattle.std.specs.Prelude.{◌≡◌, ◌≤◌, ◌++◌, codes, Some, find, not, Option, None, Result, Ok, IsTrue, IfOk, IfErr, IfSome};
ghost use Rattle.std.specs.Str.Lines.{strip_carriage_return};
ghost use Rattle.port_state.specs.declared.ranges.TimeRanges.{TimeRanges};
ghost use Rattle.port_state.specs.TimeRanges.{profile_ranges};
ghost use Rattle.script_lines.specs.Words.{is_blank};
ghost use Rattle.script_lines.specs.Line.{is_skipped};
ghost use Rattle.script_lines.specs.codings.Reading.{read_words, read_line};
ghost use Rattle.script_lines.specs.Answer.{AnswersReading, Refuses};
ghost use Rattle.script_lines.specs.Line.{ReadsLine};
ghost use Rattle.script_lines.specs.Range.{IsInRange};
ghost use Rattle.script_lines.specs.declared.command.Command.{Command};
ghost use Rattle.script_lines.specs.declared.command.Command.TheVariants as command;
ghost use Rattle.script_lines.specs.declared.kind.Kind.{Kind};

use crate::command::Command;
use crate::fixed::read_fixed;
use crate::kind::{Kind, LineStop};
use crate::node::node;
use crate::number::number_of;
use crate::word::Word;
use crate::words::{are_permitted, few_words, is_blank, words_of};
use arrayvec::ArrayVec;
use port_state::TimeRanges;
use std::alloc::Global;

/// A line without the carriage return at its end.
fn without_return(line: &[u8]) -> &[u8]
    ensures { result.now ≡ strip_carriage_return line.now }
{
    match line {
        [front @ .., b'\r'] => front,
        _ => line,
    }
}

/// The first character of a line that is no blank.
fn first_shown(line: &[u8]) -> Option<u8>
    ensures { result ≡ find (λ c. not (is_blank c)) line.now }
{
    line.iter().copied().find(|c| !is_blank(*c))
}

/// Whether a line has no words, or is a comment.
fn is_skipped(line: &[u8]) -> bool
    ensures { result ≡ is_skipped line.now }
{
    match first_shown(line) {
        Some(c) => c == b'#',
        None => true,
    }
}

/// Whether a line of a script is nothing: it has no words, or is a comment. `line` has no line feed;
/// a carriage return at its end doesn't count. It takes no memory.
pub fn says_nothing(line: &[u8]) -> bool
    ensures value { result ≡ is_skipped (strip_carriage_return line.now) }
    ensures nothing { IsTrue result → (times : TimeRanges) → ReadsLine times line.now (Ok None) }
{
    is_skipped(without_return(line))
}

/// What stands behind `turn ` in a line that begins so.
fn behind_turn(line: &[u8]) -> Option<&[u8]>
    ensures { IfSome result (λ word. line.now ≡ codes "turn " ++ word.now) }
{
    line.strip_prefix(b"turn ")
}

/// The number of turns of a line `turn K` in which one blank stands between the words and none else.
/// `None` says nothing of a line. [`parse_line_with`] reads each such line so; this takes fewer steps.
pub fn turn_line(line: &[u8]) -> Option<u32>
    ensures reads { IfSome result (λ count. (times : TimeRanges) →
        ReadsLine times line.now (Ok (Some (command.Turn count)))) }
    ensures ranged { IfSome result (λ count. (1 ≤ count) × (count ≤ 2000000)) }
{
    let count = number_of(behind_turn(without_return(line))?)?;
    if (1..=2_000_000).contains(&count) {
        Some(count)
    } else {
        None
    }
}

/// The command that words say.
#[inline(always)]
fn read_words(words: &[Word], times: TimeRanges) -> Result<Command, Kind>
    ensures value { result ≡ read_words times words.now }
    ensures ranged { IfOk result (IsInRange times) }
{
    match words {
        [] => Err(Kind::Word),
        [verb, args @ ..] => {
            if verb.is(b"node") {
                node(args, times)
            } else {
                read_fixed(verb, args)
            }
        }
    }
}

/// The command of a line that isn't skipped, with any number of words.
#[inline(never)]
fn read_long(alloc: Global, line: &[u8], times: TimeRanges) -> Result<Option<Command>, LineStop>
    requires shown { IsTrue (not (is_skipped line.now)) }
    ensures value { AnswersReading result (read_line times line.now) }
    ensures ranged { IfOk result (λ command. IfSome command (IsInRange times)) }
{
    if !are_permitted(line) {
        return Err(LineStop::Fault(Kind::Word));
    }
    let words = words_of(alloc, line)?;
    Ok(Some(read_words(words.as_slice(), times)?))
}

/// The command of a line that has no carriage return at its end.
fn read_line(alloc: Global, line: &[u8], times: TimeRanges) -> Result<Option<Command>, LineStop>
    ensures value { AnswersReading result (read_line times line.now) }
    ensures ranged { IfOk result (λ command. IfSome command (IsInRange times)) }
{
    if is_skipped(line) {
        return Ok(None);
    }
    let mut words = ArrayVec::new();
    match few_words(&mut words, line) {
        Some(()) => Ok(Some(read_words(words.as_slice(), times)?)),
        None => read_long(alloc, line, times),
    }
}

/// The command of one line of a script, where a cable delays a signal by at most `d` ticks, 1 to 16,
/// and no line says that the times of nodes are a standard's. `None` for a line with no words, and for
/// a comment, whose first word begins with `#`.
///
/// A line is refused with
/// - `Word` where it has a byte that isn't permitted, or its words have none of the forms of lines;
/// - else with the fault of the first word that is at fault: `Number`, `Name`, `Range`, or `Twice` at
///   a key that may not stand behind the keys before it.
pub fn parse_line(alloc: Global, line: &[u8], d: u8) -> Result<Option<Command>, LineStop>
    requires some { 1 ≤ d }
    requires few { d ≤ 16 }
    ensures found { IfOk result (λ command. ReadsLine (profile_ranges d) line.now (Ok command)) }
    ensures refused { IfErr result (λ stop. Refuses (profile_ranges d) line.now stop) }
    ensures only { (reading : Result (Option Command) Kind)
        → ReadsLine (profile_ranges d) line.now reading → AnswersReading result reading }
    ensures ranged { IfOk result (λ command. IfSome command (IsInRange (profile_ranges d))) }
{
    parse_line_with(alloc, line, TimeRanges::profile(d))
}

/// The command of one line of a script, as [`parse_line`] has it, where the times of nodes are in these
/// ranges.
pub fn parse_line_with(
    alloc: Global,
    line: &[u8],
    times: TimeRanges,
) -> Result<Option<Command>, LineStop>
    ensures found { IfOk result (λ command. ReadsLine times line.now (Ok command)) }
    ensures refused { IfErr result (λ stop. Refuses times line.now stop) }
    ensures only { (reading : Result (Option Command) Kind) → ReadsLine times line.now reading
        → AnswersReading result reading }
    ensures ranged { IfOk result (λ command. IfSome command (IsInRange times)) }
{
    read_line(alloc, without_return(line), times)
}
