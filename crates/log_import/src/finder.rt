//! The search for a reset in a log.
ghost use Rattle.std.specs.Prelude.{◌≡◌, ◌==◌, ◌<◌, ◌≤◌, ◌+◌, ◌^◌, ◌∷◌, [], length, None, IfOk, IfSome, IfNone, OnOk};
ghost use Rattle.log_line.specs.Line.{line_of};
ghost use Rattle.log_line.specs.declared.line.LogLine.{LogLine};
ghost use Rattle.reset_log.specs.Log.{lines_of, open_lines};
ghost use Rattle.reset_log.specs.Noted.{begun_at, with_packet};
ghost use Rattle.reset_log.specs.Entries.{entry_if, waiting_if, entries_at, waiting_at, entries_from};
ghost use Rattle.log_import.specs.Import.{IsSearch};
ghost use Rattle.log_import.specs.codings.Standing.{Stands, Advances};

use crate::judge::Judge;
use log_line::{Begun, LogLine, Origin, Reset, line_of};
use memchr::memchr;
use quad_lanes::QuadList;
use reset_log::Pending;
use std::alloc::{AllocError, Global};
use std::collections::BTreeMap;

/// What a search of a log comes to.
#[derive(Debug, Drop)]
pub enum Search {
    /// The reset that is wanted, with the line that begins it and how many of its packets the log lacks.
    Found(Pending),
    /// The log has only so many resets.
    Fewer(u64),
}

/// What is known behind the lines of a log so far.
#[derive(Drop)]
pub(crate) struct Finder {
    pub(crate) judge: Judge,
    /// By card, the reset that waits for its packets.
    pub(crate) waiting: BTreeMap<u64, Pending>,
    /// The number of the next line, from 1.
    pub(crate) number: u64,
}

/// A reset that a line begins.
fn begun_at(alloc: Global, number: u64, begun: Begun) -> Pending
    ensures { result ≡ begun_at number begun }
{
    Pending {
        number,
        left: begun.count,
        reset: Reset {
            origin: Origin::Core,
            time: begun.time,
            card: begun.card,
            generation: begun.generation,
            local: begun.local,
            is_error: false,
            list: QuadList::new(alloc),
        },
    }
}

/// A reset with one packet more.
fn with_packet(mut pending: Pending, quad: u32) -> Result<Pending, AllocError>
    ensures { IfOk result (λ longer. longer ≡ with_packet quad pending) }
{
    pending.reset.list.push(quad)?;
    pending.left = pending.left.saturating_sub(1);
    Ok(pending)
}

/// A reset that a line is by itself.
fn alone(number: u64, reset: Reset) -> Pending
    ensures { result ≡ record { number = number; left = 0; reset = reset } }
{
    Pending {
        number,
        left: 0,
        reset,
    }
}

impl Finder {
    /// No line was taken.
    fn new(alloc: Global, wanted: u64) -> Finder
        requires { 0 < wanted }
        ensures stands { Stands result.judge [] }
        ensures wanted { result.judge.wanted ≡ wanted }
        ensures waiting { result.waiting.entries ≡ [] }
        ensures number { result.number ≡ 1 }
    {
        Finder {
            judge: Judge::new(alloc, wanted),
            waiting: BTreeMap::new(alloc),
            number: 1,
        }
    }

    /// Takes a reset if none of its packets is still to come, and else lets it wait for them.
    fn take_if_whole(
        &mut self,
        alloc: Global,
        pending: Pending,
    ) -> Result<Option<Pending>, AllocError>
        requires { self.old.judge.counted < self.old.judge.wanted }
        ensures found { IfOk result (λ found. Advances self.old.judge self.new.judge
            (entry_if (pending.left == 0) pending) found) }
        ensures waiting { OnOk result (self.new.waiting.entries
            ≡ waiting_if (pending.left == 0) pending self.old.waiting.entries) }
        ensures number { self.new.number ≡ self.old.number }
        ensures below { IfOk result (λ found.
            found ≡ None → self.new.judge.counted < self.new.judge.wanted) }
    {
        let card = pending.reset.card;
        self.waiting.remove(&card);
        if pending.left == 0 {
            return self.judge.next(alloc, Some(pending));
        }
        self.waiting.insert(card, pending)?;
        Ok(None)
    }

    /// Takes the reset of a card that waited for its packets, and the one that begins.
    fn begin(&mut self, alloc: Global, begun: Begun) -> Result<Option<Pending>, AllocError>
        requires { self.old.judge.counted < self.old.judge.wanted }
        ensures found { IfOk result (λ found. Advances self.old.judge self.new.judge
            (entries_at self.old.number self.old.waiting.entries (LogLine.Begins begun)) found) }
        ensures waiting { IfOk result (λ found. found ≡ None → self.new.waiting.entries
            ≡ waiting_at self.old.number self.old.waiting.entries (LogLine.Begins begun)) }
        ensures number { self.new.number ≡ self.old.number }
        ensures below { IfOk result (λ found.
            found ≡ None → self.new.judge.counted < self.new.judge.wanted) }
    {
        let before = self.waiting.remove(&begun.card);
        match self.judge.next(alloc, before)? {
            Some(found) => Ok(Some(found)),
            None => self.take_if_whole(alloc, begun_at(alloc, self.number, begun)),
        }
    }

    /// Takes a packet of the reset of its card that waits, if one does.
    fn take_packet(
        &mut self,
        alloc: Global,
        card: u64,
        quad: u32,
    ) -> Result<Option<Pending>, AllocError>
        requires { self.old.judge.counted < self.old.judge.wanted }
        ensures found { IfOk result (λ found. Advances self.old.judge self.new.judge
            (entries_at self.old.number self.old.waiting.entries (LogLine.Packet card quad)) found) }
        ensures waiting { OnOk result (self.new.waiting.entries
            ≡ waiting_at self.old.number self.old.waiting.entries (LogLine.Packet card quad)) }
        ensures number { self.new.number ≡ self.old.number }
        ensures below { IfOk result (λ found.
            found ≡ None → self.new.judge.counted < self.new.judge.wanted) }
    {
        match self.waiting.remove(&card) {
            Some(pending) => {
                let pending = with_packet(pending, quad)?;
                self.take_if_whole(alloc, pending)
            }
            None => Ok(None),
        }
    }

    /// Takes what a line is, and answers the reset that is wanted if the line ends it.
    fn take(&mut self, alloc: Global, line: LogLine) -> Result<Option<Pending>, AllocError>
        requires { self.old.judge.counted < self.old.judge.wanted }
        ensures found { IfOk result (λ found. Advances self.old.judge self.new.judge
            (entries_at self.old.number self.old.waiting.entries line) found) }
        ensures waiting { IfOk result (λ found. found ≡ None → self.new.waiting.entries
            ≡ waiting_at self.old.number self.old.waiting.entries line) }
        ensures number { self.new.number ≡ self.old.number }
        ensures below { IfOk result (λ found.
            found ≡ None → self.new.judge.counted < self.new.judge.wanted) }
    {
        match line {
            LogLine::Other => Ok(None),
            LogLine::Lost => Ok(None),
            LogLine::Said { .. } => Ok(None),
            LogLine::Garbled => Ok(None),
            LogLine::Begins(begun) => self.begin(alloc, begun),
            LogLine::Packet { card, quad } => self.take_packet(alloc, card, quad),
            LogLine::OfReset(reset) => self.judge.next(alloc, Some(alone(self.number, reset))),
        }
    }

    /// Takes a line, and answers the reset that is wanted if the line ends it.
    fn take_line(&mut self, alloc: Global, line: &[u8]) -> Result<Option<Pending>, AllocError>
        requires { self.old.judge.counted < self.old.judge.wanted }
        ensures found { IfOk result (λ found. Advances self.old.judge self.new.judge
            (entries_at self.old.number self.old.waiting.entries (line_of line.now)) found) }
        ensures waiting { IfOk result (λ found. found ≡ None → self.new.waiting.entries
            ≡ waiting_at self.old.number self.old.waiting.entries (line_of line.now)) }
        ensures number { OnOk result (self.old.number < 2 ^ 63 →
            self.new.number ≡ self.old.number + 1) }
        ensures below { IfOk result (λ found.
            found ≡ None → self.new.judge.counted < self.new.judge.wanted) }
    {
        let line = line_of(alloc, line)?;
        let found = self.take(alloc, line)?;
        self.number = self.number.saturating_add(1);
        Ok(found)
    }
}

/// What stands before the first line feed of a text, and what stands behind it.
fn cut(text: &[u8]) -> Option<(&[u8], &[u8])>
    ensures cut { IfSome result (λ parts.
        lines_of text.now ≡ parts.0.now ∷ lines_of parts.1.now) }
    ensures shorter { IfSome result (λ parts. length parts.1.now < length text.now) }
    ensures whole { IfNone result (lines_of text.now ≡ open_lines text.now) }
{
    match memchr(b'\n', text) {
        Some(end) => Some((&text[..end], &text[end + 1..])),
        None => None,
    }
}

/// Takes the last line of a log, if no line feed ends it.
fn take_last(alloc: Global, finder: &mut Finder, rest: &[u8]) -> Result<Option<Pending>, AllocError>
    requires { finder.old.judge.counted < finder.old.judge.wanted }
    ensures { IfOk result (λ found. Advances finder.old.judge finder.new.judge
        (entries_from finder.old.number finder.old.waiting.entries (open_lines rest.now)) found) }
{
    if rest.is_empty() {
        return Ok(None);
    }
    finder.take_line(alloc, rest)
}

/// The reset with this number in a log, from 1, or how many resets the log has if they are fewer.
pub(crate) fn find_reset(alloc: Global, log: &[u8], wanted: u64) -> Result<Search, AllocError>
    requires from_one { 0 < wanted }
    requires short { length log.now ≤ 1073741824 }
    ensures { IfOk result (λ search. IsSearch wanted log.now search) }
{
    let mut finder = Finder::new(alloc, wanted);
    let mut rest = log;
    while let Some((line, behind)) = cut(rest) {
        if let Some(found) = finder.take_line(alloc, line)? {
            return Ok(Search::Found(found));
        }
        rest = behind;
    }
    match take_last(alloc, &mut finder, rest)? {
        Some(found) => Ok(Search::Found(found)),
        None => Ok(Search::Fewer(finder.judge.counted)),
    }
}
