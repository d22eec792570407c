//! What a line of the log is, by itself.
ghost use Rattle.std.specs.Prelude.{◌≡◌, Some, None, take, IfOk, MatchOption};
ghost use Rattle.log_line.specs.Words.{words_of, value_of};
ghost use Rattle.log_line.specs.Line.{event_of, named, is_loss, has_loss, is_lost, number_field, list_field, truth_of, truth_field, reset_of, event, by_driver, of_words, line_of};
ghost use Rattle.log_line.specs.Driver.{driver};
ghost use Rattle.log_line.specs.declared.line.Origin.{Origin};

use crate::driver::driver;
use crate::list::list_of;
use crate::listing::listed;
use crate::local::local_of;
use crate::marks::may_be_shown;
use crate::number::number_of;
use crate::said::{LogText, said_behind};
use crate::time::time_of;
use crate::word::Word;
use crate::words::{value_of, words_of};
use quad_lanes::QuadList;
use std::alloc::{AllocError, Global};

/// Which of the kernel's trace events a reset was read from.
#[derive(Clone, Copy, Debug, PartialEq, Eq)]
pub enum Origin {
    /// `firewire_ohci:self_id_complete`: quadlets and their inverses, as the controller wrote them.
    Controller,
    /// `firewire:bus_reset_handle`: the packets' quadlets alone, which the kernel has judged.
    Core,
}

/// A bus reset in a log.
#[derive(Debug, Drop)]
pub struct Reset {
    pub origin: Origin,
    /// When it was, in microseconds, where its line says so.
    pub time: Option<u64>,
    /// The number of the controller on its machine, or from 2^32 on its device.
    pub card: u64,
    /// The count of resets, which begins again after 255.
    pub generation: u32,
    /// The node that the card itself is, where its line says so.
    pub local: Option<u8>,
    /// Whether the controller says that it failed.
    pub is_error: bool,
    /// Of `Controller` quadlets and their inverses, of `Core` quadlets.
    pub list: QuadList,
}

/// The first line of a reset in the driver's own log.
#[derive(Clone, Copy, Debug, PartialEq, Eq)]
pub struct Begun {
    /// From 2^32 on, the device.
    pub card: u64,
    /// When it was, in microseconds, where its line says so.
    pub time: Option<u64>,
    pub generation: u32,
    /// The node that the card itself is, where its line says so.
    pub local: Option<u8>,
    /// How many lines of packets follow.
    pub count: u32,
}

/// What a line of the log is.
#[derive(Debug, Drop)]
pub enum LogLine {
    /// None of the two events.
    Other,
    /// Events were lost here.
    Lost,
    /// The kernel says this; the time is in microseconds, where the line says it.
    Said { time: Option<u64>, text: LogText },
    /// The driver begins to list the packets of a reset.
    Begins(Begun),
    /// The driver lists a packet.
    Packet { card: u64, quad: u32 },
    /// One of them, with a field that is missing or isn't what it has to be.
    Garbled,
    OfReset(Reset),
}

/// The event that a word names, alone or behind its system's name.
fn event_of(word: &Word) -> Option<Origin>
    ensures { result ≡ event_of word.now }
{
    if word.is(b"self_id_complete:") || word.is(b"firewire_ohci:self_id_complete:") {
        Some(Origin::Controller)
    } else if word.is(b"bus_reset_handle:") || word.is(b"firewire:bus_reset_handle:") {
        Some(Origin::Core)
    } else {
        None
    }
}

/// The first event that is named, the last time before it where there is one, and the words behind it.
fn named<'w, 'a>(words: &'w [Word<'a>]) -> Option<(Origin, Option<u64>, &'w [Word<'a>])>
    ensures { MatchOption result (named None words.now ≡ None)
        (λ e. named None words.now ≡ Some (e.0, e.1, e.2.now)) }
{
    let mut time = None;
    let mut rest = words;
    while let [word, behind @ ..] = rest {
        if let Some(event) = event_of(word) {
            return Some((event, time, behind));
        }
        if let Some(found) = time_of(word) {
            time = Some(found);
        }
        rest = behind;
    }
    None
}

fn is_loss(word: &Word) -> bool
    ensures { result ≡ is_loss word.now }
{
    word.is(b"EVENTS]") || word.is(b"DROPPED]")
}

fn has_loss(words: &[Word]) -> bool
    ensures { result ≡ has_loss words.now }
{
    let mut rest = words;
    while let [word, behind @ ..] = rest {
        if is_loss(word) {
            return true;
        }
        rest = behind;
    }
    false
}

/// Whether a line says that events were lost.
fn is_lost(words: &[Word]) -> bool
    ensures { result ≡ is_lost words.now }
{
    match words {
        [word, behind @ ..] => word.behind(b"CPU:").is_some() && has_loss(behind),
        [] => false,
    }
}

/// The number behind a key.
fn number_field(words: &[Word], key: &[u8]) -> Option<u32>
    ensures { result ≡ number_field (value_of key.now words.now) }
{
    let (value, _) = value_of(words, key)?;
    number_of(value.as_bytes())
}

/// The list behind a key.
fn list_field(alloc: Global, words: &[Word], key: &[u8]) -> Result<Option<QuadList>, AllocError>
    ensures { IfOk result (λ list. list ≡ list_field (value_of key.now words.now)) }
{
    match value_of(words, key) {
        Some((first, behind)) => list_of(alloc, &first, behind),
        None => Ok(None),
    }
}

fn truth_of(word: &Word) -> Option<bool>
    ensures { result ≡ truth_of word.now }
{
    match word.as_bytes() {
        b"true" => Some(true),
        b"false" => Some(false),
        _ => None,
    }
}

/// `true` or `false` behind a key.
fn truth_field(words: &[Word], key: &[u8]) -> Option<bool>
    ensures { result ≡ truth_field (value_of key.now words.now) }
{
    let (value, _) = value_of(words, key)?;
    truth_of(&value)
}

/// A reset of its fields, where each of them is there.
fn reset_of(
    origin: Origin,
    time: Option<u64>,
    local: Option<u8>,
    card: Option<u64>,
    generation: Option<u32>,
    is_error: Option<bool>,
    list: Option<QuadList>,
) -> LogLine
    ensures { result ≡ reset_of origin time local card generation is_error list }
{
    match (card, generation, is_error, list) {
        (Some(card), Some(generation), Some(is_error), Some(list)) => LogLine::OfReset(Reset {
            origin,
            time,
            card,
            generation,
            local,
            is_error,
            list,
        }),
        _ => LogLine::Garbled,
    }
}

fn widened(number: Option<u32>) -> Option<u64>
    ensures { result ≡ number }
{
    match number {
        Some(number) => Some(u64::from(number)),
        None => None,
    }
}

/// An event with these words.
fn event(
    alloc: Global,
    origin: Origin,
    time: Option<u64>,
    words: &[Word],
) -> Result<LogLine, AllocError>
    ensures { IfOk result (λ line. line ≡ event origin time words.now) }
{
    let card = widened(number_field(words, b"card_index="));
    match origin {
        Origin::Controller => {
            let generation = number_field(words, b"generation_at_completion=");
            let is_error = truth_field(words, b"is_error=");
            let list = list_field(alloc, words, b"packet_data=")?;
            Ok(reset_of(origin, time, None, card, generation, is_error, list))
        }
        Origin::Core => {
            let generation = number_field(words, b"generation=");
            let local = local_of(number_field(words, b"node_id="));
            let list = list_field(alloc, words, b"self_ids=")?;
            let is_error = Some(false);
            Ok(reset_of(origin, time, local, card, generation, is_error, list))
        }
    }
}

/// The first bytes of a line, `most` of them at most.
pub fn front(line: &[u8], most: usize) -> &[u8]
    ensures { result.now ≡ take most line.now }
{
    if line.len() > most {
        &line[..most]
    } else {
        line
    }
}

/// What a line is by the first driver that its words name.
fn of_driver(alloc: Global, words: &[Word]) -> Result<LogLine, AllocError>
    ensures { IfOk result (λ line. line ≡ by_driver (driver None words.now)) }
{
    let Some((time, behind)) = driver(words) else {
        return Ok(LogLine::Other);
    };
    match said_behind(alloc, behind)? {
        Some(text) => Ok(LogLine::Said { time, text }),
        None => Ok(listed(time, behind)),
    }
}

/// What a line of the log is, by its first 65,536 bytes. What stands before the event's name, and
/// other fields of it, may be anything.
#[tactic(auto, unfolding(crate::specs::Line::line_of))]
pub fn line_of(alloc: Global, line: &[u8]) -> Result<LogLine, AllocError>
    ensures { IfOk result (λ found. found ≡ line_of line.now) }
{
    let kept = front(line, 65536);
    if !may_be_shown(kept) {
        return Ok(LogLine::Other);
    }
    let words = words_of(alloc, kept)?;
    match named(&words) {
        Some((origin, time, behind)) => event(alloc, origin, time, behind),
        None if is_lost(&words) => Ok(LogLine::Lost),
        None => of_driver(alloc, &words),
    }
}
