//! Showing a log as it comes.
ghost use Rattle.std.specs.Prelude.{◌≡◌, ◌≢◌, ◌↔◌, ◌<◌, ◌≤◌, ◌+◌, ◌++◌, ◌∷◌, [], ℕ, Bool, true, false, List, length, OnOk, OnErr, IfOk, IfErr, IfSome, IfNone, IsErr, IsErrOf};
ghost use Rattle.std.specs.Io.KnownBytes.{IsAtEnd, Consumes};
ghost use Rattle.bus_json.specs.Lines.{GathersJsonLines, WritesJsonLines};
ghost use Rattle.io_edges.specs.Faults.{Rose};
ghost use Rattle.io_edges.specs.Told.{IfTold, TookOver};
ghost use Rattle.self_id.specs.declared.standard.Standard.{Standard};
ghost use Rattle.reset_list.specs.declared.form.LogForm.{LogForm};
ghost use Rattle.reset_log.specs.codings.Going.{IsNew, HasShown, HasWritten, ShowsLine, ShowsWhole, CountsWhole, KeepsBytes, IsOneLine, Begun, BreaksText, Broke, ShowsLines, ShowsAll};
ghost use Rattle.reset_log.specs.codings.InJson.{IfJson};
ghost use Rattle.log_line.specs.Marks.{has_mark};
ghost use Rattle.log_line.specs.declared.line.LogLine.{LogLine};
ghost use Rattle.log_line.specs.Line.{line_of};
ghost use Rattle.reset_list.specs.Cause.{StoppedWriting};
ghost use Rattle.reset_log.specs.Log.{parted, lines_of, IsLogShown, AreWritten, AreBegun};
ghost use Rattle.reset_list.specs.Wrote.{Wrote, WroteFront, WroteFrontOf};
ghost use Rattle.reset_log.specs.Shown.{totals_text};
ghost use Rattle.reset_log.specs.Notes.{noted};
ghost use Rattle.reset_list.specs.Answered.{IsExact, IsComplete, IsFront, IsSure};

use crate::notes::Notes;
use crate::shown::{show_line, totals_text};
use io_edges::{Sink, Source, write_whole};
use log_line::{begins_loss, front, has_mark};
use memchr::memchr;
use reset_list::{LogForm, LogStop, MAX_LOG};
use std::alloc::{AllocError, Global};

/// The most bytes of a line that are kept.
const MAX_LINE: usize = 65536;

/// The most bytes of one read.
const PIECE: usize = 65536;

/// A reader of a log. It keeps the line that isn't whole yet, and what is noted of the log.
#[derive(Drop)]
pub(crate) struct LogReader {
    form: LogForm,
    notes: Notes,
    line: Vec<u8>,
    number: u64,
    taken: usize,
    bad: bool,
}

/// Writes the whole of a text.
fn put<K: Sink>(sink: &mut K, text: &[u8]) -> Result<(), LogStop>
    ensures ok { OnOk result (Wrote K.written K.faults K.surely_takes
        sink.old sink.new text.now) }
    ensures part { OnErr result (WroteFront K.written K.faults K.surely_takes
        sink.old sink.new text.now) }
    ensures stops { IfErr result (StoppedWriting (K.faults sink.old) (K.faults sink.new)) }
    ensures later { K.faults sink.old ≤ K.faults sink.new }
{
    match write_whole(sink, text) {
        Ok(()) => Ok(()),
        Err(_) => Err(LogStop::WriteFault),
    }
}

/// What stands before the first line feed of a text, and what stands behind it.
fn cut(text: &[u8]) -> Option<(&[u8], &[u8])>
    ensures cut { IfSome result (λ parts. text.now ≡ parts.0.now ++ 10 ∷ parts.1.now) }
    ensures first { IfSome result (λ parts. IsOneLine parts.0.now) }
    ensures whole { IfNone result (IsOneLine text.now) }
{
    match memchr(b'\n', text) {
        Some(end) => Some((&text[..end], &text[end + 1..])),
        None => None,
    }
}

impl LogReader {
    /// A reader that was given nothing.
    fn new(alloc: Global, form: LogForm) -> LogReader
        ensures start { IsNew result }
        ensures same { result.form ≡ form }
    {
        LogReader {
            form,
            notes: Notes::new(alloc),
            line: Vec::new(alloc),
            number: 1,
            taken: 0,
            bad: false,
        }
    }

    /// Shows the line that is kept, behind what was gathered, and begins the next one.
    fn show(&mut self, alloc: Global, out: &mut Vec<u8>) -> Result<(), AllocError>
        ensures ok { OnOk result (ShowsLine self.old self.new out.old.items out.new.items) }
        ensures part { OnErr result (out.new.items ≡ out.old.items) }
        ensures json { IfJson self.old.form (GathersJsonLines out.old.items out.new.items) }
    {
        let shown = show_line(alloc, self.form, &mut self.notes, self.number, &self.line)?;
        out.extend_from_slice(&shown.text)?;
        self.bad = self.bad || shown.bad;
        self.number = self.number.saturating_add(1);
        self.line.clear();
        Ok(())
    }

    /// Whether a line that ends with these bytes came whole, and all of it is looked at.
    fn is_whole(&self, bytes: &[u8]) -> bool
        ensures kept { result ≡ true → self.now.line.items ≡ [] }
        ensures few { result ≡ true → length bytes.now ≤ 65536 }
    {
        self.line.is_empty() && bytes.len() <= MAX_LINE
    }

    /// Counts a line that came whole, with its line feed.
    fn count_whole(&mut self, line: &[u8])
        ensures counts { CountsWhole self.old self.new line.now }
        ensures passes { line_of line.now ≡ LogLine.Other →
            (out : List ℕ) → ShowsWhole self.old self.new line.now out out }
    {
        self.number = self.number.saturating_add(1);
        self.taken = self.taken.saturating_add(line.len()).saturating_add(1);
    }

    /// Shows a line that came whole, with its line feed, behind what was gathered.
    fn show_whole(
        &mut self,
        alloc: Global,
        line: &[u8],
        out: &mut Vec<u8>,
    ) -> Result<(), AllocError>
        ensures ok { OnOk result (ShowsWhole
            self.old self.new line.now out.old.items out.new.items) }
        ensures part { OnErr result (out.new.items ≡ out.old.items) }
        ensures json { IfJson self.old.form (GathersJsonLines out.old.items out.new.items) }
    {
        let shown = show_line(alloc, self.form, &mut self.notes, self.number, line)?;
        out.extend_from_slice(&shown.text)?;
        self.bad = self.bad || shown.bad;
        self.count_whole(line);
        Ok(())
    }

    /// Keeps bytes of the line, as far as there is room.
    fn keep(&mut self, bytes: &[u8]) -> Result<(), AllocError>
        ensures { OnOk result (KeepsBytes self.old self.new bytes.now) }
    {
        let room = MAX_LINE.saturating_sub(self.line.len());
        self.line.extend_from_slice(front(bytes, room))?;
        self.taken = self.taken.saturating_add(bytes.len());
        Ok(())
    }

    /// Whether a line that ends with these bytes came whole, and a glance tells that nothing is
    /// shown of it. `quiet` says that there is no mark of an event in the bytes.
    fn is_idle(&self, quiet: bool, bytes: &[u8]) -> bool
        requires unmarked { quiet ≡ true → has_mark bytes.now ≡ false }
        ensures none { result ≡ true → line_of bytes.now ≡ LogLine.Other }
        ensures kept { result ≡ true → self.now.line.items ≡ [] }
        ensures few { result ≡ true → length bytes.now ≤ 65536 }
    {
        quiet && self.is_whole(bytes) && !begins_loss(bytes)
    }

    /// Takes the last bytes of a line and its line feed, and shows the line behind what was gathered.
    /// `quiet` says that there is no mark of an event in the bytes.
    fn end_line(
        &mut self,
        alloc: Global,
        quiet: bool,
        bytes: &[u8],
        out: &mut Vec<u8>,
    ) -> Result<(), AllocError>
        requires unmarked { quiet ≡ true → has_mark bytes.now ≡ false }
        ensures ok { OnOk result ((done text : List ℕ) → IsOneLine bytes.now →
            length done + length bytes.now < 9223372036854775807 →
            HasShown self.old done (text ++ out.old.items) →
            HasShown self.new (done ++ (bytes.now ++ 10 ∷ [])) (text ++ out.new.items)) }
        ensures part { OnErr result (out.new.items ≡ out.old.items) }
        ensures json { IfJson self.old.form (GathersJsonLines out.old.items out.new.items) }
        ensures same { OnOk result (self.new.form ≡ self.old.form) }
    {
        if self.is_idle(quiet, bytes) {
            self.count_whole(bytes);
            return Ok(());
        }
        if self.is_whole(bytes) {
            self.show_whole(alloc, bytes, out)?;
            return Ok(());
        }
        self.keep(bytes)?;
        self.taken = self.taken.saturating_add(1);
        self.show(alloc, out)?;
        Ok(())
    }

    /// Takes bytes, and gathers what is shown of the lines that they end.
    fn gather(&mut self, alloc: Global, bytes: &[u8], out: &mut Vec<u8>) -> Result<(), AllocError>
        ensures ok { OnOk result ((done text : List ℕ) →
            length done + length bytes.now ≤ 9223372036854775807 →
            HasShown self.old done (text ++ out.old.items) →
            HasShown self.new (done ++ bytes.now) (text ++ out.new.items)) }
        ensures begun { (done text : List ℕ) →
            length done + length bytes.now ≤ 9223372036854775807 →
            HasShown self.old done (text ++ out.old.items) →
            Begun self.old.form (parted (done ++ bytes.now)).lines (text ++ out.new.items) }
        ensures json { IfJson self.old.form (GathersJsonLines out.old.items out.new.items) }
        ensures same { OnOk result (self.new.form ≡ self.old.form) }
    {
        let quiet = !has_mark(bytes);
        let mut rest = bytes;
        while let Some((line, behind)) = cut(rest) {
            self.end_line(alloc, quiet, line, out)?;
            rest = behind;
        }
        self.keep(rest)?;
        Ok(())
    }

    /// Takes bytes, and shows the lines that they end: by one write, also where there was no memory for
    /// what is shown of a line among them.
    fn take<K: Sink>(&mut self, alloc: Global, bytes: &[u8], sink: &mut K) -> Result<(), LogStop>
        ensures ok { OnOk result ((done : List ℕ) (start : K) →
            length done + length bytes.now ≤ 9223372036854775807 →
            HasWritten K.written K.faults K.surely_takes self.old done start sink.old →
            HasWritten K.written K.faults K.surely_takes
            self.new (done ++ bytes.now) start sink.new) }
        ensures part { OnErr result ((done : List ℕ) (start : K) →
            length done + length bytes.now ≤ 9223372036854775807 →
            HasWritten K.written K.faults K.surely_takes self.old done start sink.old →
            Broke K.written K.faults K.surely_takes
            self.old.form (parted (done ++ bytes.now)).lines start sink.new) }
        ensures json { OnOk result (IfJson self.old.form
            (WritesJsonLines (K.written sink.old) (K.written sink.new))) }
        ensures stops { IfErr result (StoppedWriting (K.faults sink.old) (K.faults sink.new)) }
        ensures same { OnOk result (self.new.form ≡ self.old.form) }
        ensures later { K.faults sink.old ≤ K.faults sink.new }
    {
        let mut out = Vec::new(alloc);
        let gathered = self.gather(alloc, bytes, &mut out);
        put(sink, &out)?;
        gathered?;
        Ok(())
    }

    /// Shows the last line where no line feed ended it.
    fn show_last<K: Sink>(&mut self, alloc: Global, sink: &mut K) -> Result<(), LogStop>
        ensures ok { OnOk result ((done : List ℕ) (start : K) →
            HasWritten K.written K.faults K.surely_takes self.old done start sink.old →
            ShowsLines K.written K.faults K.surely_takes
            self.new self.old.form (lines_of done) start sink.new) }
        ensures part { OnErr result ((done : List ℕ) (start : K) →
            HasWritten K.written K.faults K.surely_takes self.old done start sink.old →
            Broke K.written K.faults K.surely_takes
            self.old.form (lines_of done) start sink.new) }
        ensures json { OnOk result (IfJson self.old.form
            (WritesJsonLines (K.written sink.old) (K.written sink.new))) }
        ensures stops { IfErr result (StoppedWriting (K.faults sink.old) (K.faults sink.new)) }
        ensures later { K.faults sink.old ≤ K.faults sink.new }
    {
        if self.line.is_empty() {
            return Ok(());
        }
        let mut out = Vec::new(alloc);
        self.show(alloc, &mut out)?;
        put(sink, &out)?;
        Ok(())
    }

    /// Writes what was counted in all.
    fn put_totals<K: Sink>(&self, alloc: Global, form: LogForm, sink: &mut K) -> Result<(), LogStop>
        ensures ok { OnOk result (Wrote K.written K.faults K.surely_takes
            sink.old sink.new (totals_text form (noted self.now.notes))) }
        ensures part { OnErr result (BreaksText K.written K.faults K.surely_takes
            sink.old sink.new (totals_text form (noted self.now.notes))) }
        ensures json { OnOk result (IfJson form
            (WritesJsonLines (K.written sink.old) (K.written sink.new))) }
        ensures stops { IfErr result (StoppedWriting (K.faults sink.old) (K.faults sink.new)) }
        ensures later { K.faults sink.old ≤ K.faults sink.new }
    {
        let text = totals_text(alloc, form, &self.notes)?;
        put(sink, &text)?;
        Ok(())
    }

    /// Shows the last line where no line feed ended it, and what was counted in all. It says whether a
    /// line was at fault.
    fn finish<K: Sink>(&mut self, alloc: Global, sink: &mut K) -> Result<bool, LogStop>
        ensures ok { IfOk result (λ bad. (done : List ℕ) (start : K) →
            HasWritten K.written K.faults K.surely_takes self.old done start sink.old →
            ShowsAll K.written K.faults K.surely_takes
            self.old.form (lines_of done) bad start sink.new) }
        ensures part { OnErr result ((done : List ℕ) (start : K) →
            HasWritten K.written K.faults K.surely_takes self.old done start sink.old →
            WroteFrontOf K.written K.faults K.surely_takes
            (IsLogShown self.old.form (lines_of done)) start sink.new) }
        ensures json { OnOk result (IfJson self.old.form
            (WritesJsonLines (K.written sink.old) (K.written sink.new))) }
        ensures stops { IfErr result (StoppedWriting (K.faults sink.old) (K.faults sink.new)) }
        ensures later { K.faults sink.old ≤ K.faults sink.new }
    {
        let form = self.form;
        self.show_last(alloc, sink)?;
        self.put_totals(alloc, form, sink)?;
        Ok(self.bad)
    }
}

/// Shows in a form the bus of each reset in a log, which is the text of a Linux kernel's trace, to its
/// end. It says whether a line of it was at fault: an event that is garbled, or a list that no bus
/// can have sent. What is shown of a line is written before the source is asked for more, and behind
/// the last line what was counted in all.
///
/// `ReadFault` and `WriteFault` come only where the count of faults of the source or of the sink
/// rose, and `TooLong` exactly where the source gave more than 9,223,372,036,854,775,807 bytes. After each of them,
/// and where there was no memory, the front of the text is written; after `ReadFault` at least what
/// is shown of the whole lines that were read is written. It keeps no more than 65,536 bytes of a
/// line, and the last tree of each card.
pub fn show_log<S: Source, K: Sink>(
    alloc: Global,
    form: LogForm,
    source: &mut S,
    sink: &mut K,
) -> Result<bool, LogStop>
    // What is shown of the log's lines is written, in order.
    ensures shown { IfOk result (λ bad. IfSome (S.left source.old) (λ log.
        AreWritten form (K.written sink.old) (K.written sink.new) (lines_of log) bad)) }
    ensures end { OnOk result (IsAtEnd (S.left source.new)) }

    // With the form for programs each line that is written is read back as a value.
    ensures json { (standard : Standard) → form ≡ LogForm.Json standard →
        OnOk result (WritesJsonLines (K.written sink.old) (K.written sink.new)) }

    // When each stop comes, and what was written before a read that failed.
    ensures read_fault { IsErrOf result LogStop.ReadFault →
        Rose (S.faults source.old) (S.faults source.new) }
    ensures write_fault { IsErrOf result LogStop.WriteFault →
        Rose (K.faults sink.old) (K.faults sink.new) }
    ensures long { IfTold (S.left source.old) (S.left source.new) (λ old new.
        IsErrOf result LogStop.TooLong ↔ TookOver 9223372036854775807 old new) }
    ensures waits { IsErrOf result LogStop.ReadFault → (read : List ℕ) × (bad : Bool)
        × Consumes (S.left source.old) (S.left source.new) read
        × AreBegun form (K.written sink.old) (K.written sink.new) (parted read).lines bad }
    ensures part { IsErr result → IfSome (S.left source.old) (λ log.
        IsFront (IsLogShown form (lines_of log)) (K.written sink.old) (K.written sink.new)) }

    // The log's one text is answered, unless another stop has its cause.
    ensures exact { IfSome (S.left source.old) (λ log.
        IsExact (IsLogShown form (lines_of log)) result) }
    ensures complete { ¬ Rose (S.faults source.old) (S.faults source.new) →
        ¬ Rose (K.faults sink.old) (K.faults sink.new) → IfSome (S.left source.old) (λ log.
        length log ≤ 9223372036854775807 → IsComplete (IsLogShown form (lines_of log)) result
        (K.written sink.old) (K.written sink.new)) }

    // A sink that surely takes the text has no fault.
    ensures sure { IfSome (S.left source.old) (λ log. IsSure (IsLogShown form (lines_of log))
        (K.surely_takes sink.old) (K.faults sink.old) (K.faults sink.new)) }
{
    let mut reader = LogReader::new(alloc, form);
    let mut buf = [0u8; PIECE];
    loop {
        let Ok(count) = source.read(&mut buf) else {
            return Err(LogStop::ReadFault);
        };
        if count == 0 {
            return reader.finish(alloc, sink);
        }
        if count > MAX_LOG.saturating_sub(reader.taken) {
            return Err(LogStop::TooLong);
        }
        reader.take(alloc, &buf[..count], sink)?;
    }
}
