//! Showing a dump as it comes.
ghost use Rattle.std.specs.Prelude.{◌≡◌, ◌⊎◌, ◌↔◌, ◌<◌, ◌≤◌, ◌+◌, ◌++◌, ◌||◌, [], ℕ, true, false, is_none, is_some, List, Option, None, length, take, OnOk, OnErr, IfOk, IfErr, IfSome, IsErr, IsErrOf};
ghost use Rattle.std.specs.Io.KnownBytes.{IsAtEnd, Consumes};
ghost use Rattle.bus_json.specs.Lines.{WritesJsonLines};
ghost use Rattle.io_edges.specs.Faults.{Rose};
ghost use Rattle.io_edges.specs.Told.{IfTold, TookOver};
ghost use Rattle.reset_list.specs.Cause.{StoppedWriting};
ghost use Rattle.reset_list.specs.Answered.{IsExact, IsComplete, IsFront, IsSure};
ghost use Rattle.reset_list.specs.Wrote.{Wrote, WroteFront, WroteFrontOf};
ghost use Rattle.nosy_dump.specs.Record.{record_bytes, is_size, IsOpen, EndsSo};
ghost use Rattle.self_id.specs.declared.standard.Standard.{Standard};
ghost use Rattle.std.specs.Option.{option_copied};
ghost use Rattle.nosy_dump.specs.Dump.{IsJudged, last_text, IsDumpShown, IsDumpWritten, IsBegunWritten};
ghost use Rattle.nosy_dump.specs.Notes.{noted};
ghost use Rattle.nosy_dump.specs.codings.Going.{IsNew, Knows, Awaits, IsWhole, IsFilled, ShowsReset, ShowsPending, Begins, Keeps, Stays, Goes, Leads, Opens, Writes, AreAsJson, GathersAsJson, WritesAsJson};

use crate::notes::Notes;
use crate::record::{DumpFault, DumpReset, Record, front_record, is_size, record_of, size_of};
use crate::texts::{end_text, head};
use crate::values::{end_lines, reset_line};
use io_edges::{Sink, Source, write_whole};
use log_line::Origin;
use quad_lanes::QuadList;
use reset_list::{ListShown, LogForm, LogStop, MAX_LOG, show_list, show_short};
use std::alloc::{AllocError, Global};
use topology_stack::BusTree;

/// The most bytes of one read.
const PIECE: usize = 4096;

/// A reader of a dump. It keeps the record that isn't whole yet, the reset whose packets are gathered, and
/// what is noted of the resets before.
#[derive(Drop)]
pub(crate) struct DumpReader {
    form: LogForm,
    part: Vec<u8>,
    pending: Option<DumpReset>,
    notes: Notes,
    number: u64,
    taken: usize,
    bad: bool,
}

/// Writes the whole of a text.
fn put<K: Sink>(sink: &mut K, text: &[u8]) -> Result<(), LogStop>
    ensures ok { OnOk result (Wrote K.written K.faults K.surely_takes
        sink.old sink.new text.now) }
    ensures part { OnErr result (WroteFront K.written K.faults K.surely_takes
        sink.old sink.new text.now) }
    ensures stops { IfErr result (StoppedWriting (K.faults sink.old) (K.faults sink.new)) }
    ensures later { K.faults sink.old ≤ K.faults sink.new }
{
    match write_whole(sink, text) {
        Ok(()) => Ok(()),
        Err(_) => Err(LogStop::WriteFault),
    }
}

/// Whether a list was refused, or the dump has a fault.
fn is_bad(refused: bool, fault: Option<DumpFault>) -> bool
    ensures either { result ≡ refused || is_some fault }
    ensures none { result ≡ false → fault ≡ None }
{
    match fault {
        None => refused,
        Some(_) => true,
    }
}

/// Whether something was at fault, or is.
fn either(was: bool, is: bool) -> bool
    ensures { result ≡ was || is }
{
    was || is
}

/// What is shown in a form of the reset with this number, and the tree that its list is heard as.
fn show_judged(
    alloc: Global,
    form: LogForm,
    number: u64,
    before: Option<&BusTree>,
    reset: &DumpReset,
) -> Result<ListShown, AllocError>
    ensures judged { IfOk result (λ shown. IsJudged form number (option_copied before.entry)
        reset.now shown.text.items shown.tree) }
    ensures json { IfOk result (λ shown. AreAsJson form shown.text.items) }
{
    match form {
        LogForm::Text(standard) => {
            let head = head(alloc, number, reset)?;
            let list = reset.list.as_slice();
            let shown = show_list(alloc, standard, Origin::Core, &head, before, list)?;
            Ok(shown)
        }
        LogForm::Short(standard) => {
            let head = head(alloc, number, reset)?;
            let list = reset.list.as_slice();
            let shown = show_short(alloc, standard, Origin::Core, &head, list)?;
            Ok(shown)
        }
        LogForm::Json(standard) => reset_line(alloc, standard, number, reset),
    }
}

/// What is shown in a form behind the last reset of a dump.
fn last_text(
    alloc: Global,
    form: LogForm,
    byte: u64,
    fault: Option<DumpFault>,
    notes: &Notes,
) -> Result<Vec<u8>, AllocError>
    ensures last { IfOk result (λ text.
        text.items ≡ last_text form byte fault (noted notes.now)) }
    ensures json { IfOk result (λ text. AreAsJson form text.items) }
{
    match form {
        LogForm::Text(_) => end_text(alloc, byte, fault, notes),
        LogForm::Short(_) => end_text(alloc, byte, fault, notes),
        LogForm::Json(_) => end_lines(alloc, byte, fault, notes),
    }
}

impl DumpReader {
    /// A reader that was given nothing.
    fn new(alloc: Global, form: LogForm) -> DumpReader
        ensures start { IsNew result }
        ensures same { result.form ≡ form }
    {
        DumpReader {
            form,
            part: Vec::new(alloc),
            pending: None,
            notes: Notes::new(alloc),
            number: 1,
            taken: 0,
            bad: false,
        }
    }

    /// Shows a reset, behind what was gathered.
    fn show_one(
        &mut self,
        alloc: Global,
        reset: &DumpReset,
        out: &mut Vec<u8>,
    ) -> Result<(), AllocError>
        ensures ok { OnOk result (ShowsReset
            self.old.form reset.now self.old.number (noted self.old.notes) self.old.bad
            self.new.number (noted self.new.notes) self.new.bad out.old.items out.new.items) }
        ensures part { OnErr result (out.new.items ≡ out.old.items) }
        ensures json { OnOk result (GathersAsJson self.old.form out.old.items out.new.items) }
        ensures rest { OnOk result (self.new ≡ record self.old {
          number = self.new.number;
          notes = self.new.notes;
          bad = self.new.bad;
        }) }
    {
        let before = self.notes.tree.as_ref();
        let ListShown { text, tree } = show_judged(alloc, self.form, self.number, before, reset)?;
        let refused = tree.is_none();
        self.notes.keep(tree)?;
        out.extend_from_slice(&text)?;
        self.bad = either(self.bad, refused);
        self.number = self.number.saturating_add(1);
        Ok(())
    }

    /// Shows the reset that waits, if one does, behind what was gathered.
    fn show(&mut self, alloc: Global, out: &mut Vec<u8>) -> Result<(), AllocError>
        ensures ok { OnOk result (ShowsPending self.old self.new out.old.items out.new.items) }
        ensures part { OnErr result (out.new.items ≡ out.old.items) }
        ensures json { OnOk result (GathersAsJson self.old.form out.old.items out.new.items) }
    {
        match self.pending.take() {
            Some(reset) => self.show_one(alloc, &reset, out),
            None => Ok(()),
        }
    }

    /// Shows the reset that waits, and lets the one of the record at this byte wait.
    fn begin(
        &mut self,
        alloc: Global,
        byte: usize,
        time: u32,
        out: &mut Vec<u8>,
    ) -> Result<(), AllocError>
        ensures ok { OnOk result (Begins
            byte time self.old self.new out.old.items out.new.items) }
        ensures part { OnErr result (out.new.items ≡ out.old.items) }
        ensures json { OnOk result (GathersAsJson self.old.form out.old.items out.new.items) }
    {
        self.show(alloc, out)?;
        self.pending = Some(DumpReset {
            byte: byte as u64,
            time,
            list: QuadList::new(alloc),
        });
        Ok(())
    }

    /// Keeps a self-ID packet of the reset that waits, if one does.
    fn keep(&mut self, quad: u32) -> Result<(), AllocError>
        ensures { OnOk result (Keeps quad self.old self.new) }
    {
        if let Some(reset) = &mut self.pending {
            reset.list.push(quad)?;
        }
        Ok(())
    }

    /// Takes what the record at this byte tells.
    fn judge(
        &mut self,
        alloc: Global,
        byte: usize,
        last: Record,
        out: &mut Vec<u8>,
    ) -> Result<(), AllocError>
        ensures ok { OnOk result ((done text : List ℕ) → length done ≤ 9223372036854775807 →
            Awaits self.old byte last done (text ++ out.old.items) →
            Knows IsOpen self.new done (text ++ out.new.items)) }
        ensures part { OnErr result (out.new.items ≡ out.old.items) }
        ensures json { OnOk result (GathersAsJson self.old.form out.old.items out.new.items) }
        ensures same { OnOk result (self.new.form ≡ self.old.form) }
    {
        match last {
            Record::Reset { time } => self.begin(alloc, byte, time, out)?,
            Record::SelfId { quad } => self.keep(quad)?,
            Record::Other => {}
        }
        Ok(())
    }

    /// Takes the bytes of a whole record where no other one has begun.
    fn take_whole(
        &mut self,
        alloc: Global,
        bytes: &[u8],
        out: &mut Vec<u8>,
    ) -> Result<(), AllocError>
        ensures ok { OnOk result ((done text : List ℕ) →
            length done + (4 + length bytes.now) ≤ 9223372036854775807 →
            is_size (length bytes.now) ≡ true → self.old.part.items ≡ [] →
            Knows IsOpen self.old done (text ++ out.old.items) →
            Knows IsOpen self.new (done ++ record_bytes bytes.now) (text ++ out.new.items)) }
        ensures part { OnErr result (out.new.items ≡ out.old.items) }
        ensures json { OnOk result (GathersAsJson self.old.form out.old.items out.new.items) }
        ensures same { OnOk result (self.new.form ≡ self.old.form) }
    {
        let byte = self.taken;
        self.taken = byte.saturating_add(bytes.len()).saturating_add(4);
        self.judge(alloc, byte, record_of(bytes), out)?;
        Ok(())
    }

    /// Takes the record that is kept and is whole.
    fn take_part(&mut self, alloc: Global, out: &mut Vec<u8>) -> Result<(), AllocError>
        requires { 4 ≤ length self.old.part.items }
        ensures ok { OnOk result ((done text : List ℕ) → length done ≤ 9223372036854775807 →
            Knows IsWhole self.old done (text ++ out.old.items) →
            Knows IsOpen self.new done (text ++ out.new.items)) }
        ensures part { OnErr result (out.new.items ≡ out.old.items) }
        ensures json { OnOk result (GathersAsJson self.old.form out.old.items out.new.items) }
        ensures same { OnOk result (self.new.form ≡ self.old.form) }
    {
        let byte = self.taken.saturating_sub(self.part.len());
        let record = record_of(&self.part[4..]);
        self.part.clear();
        self.judge(alloc, byte, record, out)?;
        Ok(())
    }

    /// How many bytes the record that has begun lacks: up to the end of its length, or up to its own end.
    fn lacks(&self) -> usize
        ensures some { IsOpen self.now.part.items → 0 < result }
        ensures filled { IsOpen self.now.part.items → (more : List ℕ) → length more ≤ result →
            IsFilled (self.now.part.items ++ more) }
    {
        let count = self.part.len();
        match size_of(&self.part) {
            Some(size) => (size as usize + 4).saturating_sub(count),
            None => 4usize.saturating_sub(count),
        }
    }

    /// Keeps bytes of the record that has begun: as many as it lacks, and at least one. It answers how
    /// many.
    fn fill(&mut self, bytes: &[u8]) -> Result<usize, AllocError>
        ensures ok { IfOk result (λ count. (done text : List ℕ) →
            length done + length bytes.now ≤ 9223372036854775807 →
            0 < length bytes.now → Knows IsOpen self.old done text →
            Knows IsFilled self.new (done ++ take count bytes.now) text) }
        ensures some { IfOk result (λ count. 0 < length bytes.now → 0 < count) }
        ensures few { IfOk result (λ count. count ≤ length bytes.now) }
        ensures same { OnOk result (self.new.form ≡ self.old.form) }
    {
        let count = self.lacks().max(1).min(bytes.len());
        self.part.extend_from_slice(&bytes[..count])?;
        self.taken = self.taken.saturating_add(count);
        Ok(count)
    }

    /// Takes the record that is kept once it is whole. It answers a length that a record can't have.
    fn end_part(&mut self, alloc: Global, out: &mut Vec<u8>) -> Result<Option<u32>, AllocError>
        ensures ok { IfOk result (λ size. (done text : List ℕ) →
            length done ≤ 9223372036854775807 →
            Knows IsFilled self.old done (text ++ out.old.items) →
            Stays size self.new done (text ++ out.new.items)) }
        ensures part { OnErr result (out.new.items ≡ out.old.items) }
        ensures json { OnOk result (GathersAsJson self.old.form out.old.items out.new.items) }
        ensures same { OnOk result (self.new.form ≡ self.old.form) }
    {
        let Some(size) = size_of(&self.part) else {
            return Ok(None);
        };
        if !is_size(size) {
            return Ok(Some(size));
        }
        if self.part.len() != size as usize + 4 {
            return Ok(None);
        }
        self.take_part(alloc, out)?;
        Ok(None)
    }

    /// Takes the whole record that bytes begin with, or bytes of the record that has begun. It answers
    /// how many it took, and a length that a record can't have.
    fn take_front(
        &mut self,
        alloc: Global,
        bytes: &[u8],
        out: &mut Vec<u8>,
    ) -> Result<(usize, Option<u32>), AllocError>
        ensures ok { IfOk result (λ took. (done text : List ℕ) →
            length done + length bytes.now ≤ 9223372036854775807 →
            0 < length bytes.now → Knows IsOpen self.old done (text ++ out.old.items) →
            Stays took.1 self.new (done ++ take took.0 bytes.now) (text ++ out.new.items)) }
        ensures some { IfOk result (λ took. 0 < length bytes.now → 0 < took.0) }
        ensures few { IfOk result (λ took. took.0 ≤ length bytes.now) }
        ensures part { OnErr result (out.new.items ≡ out.old.items) }
        ensures json { OnOk result (GathersAsJson self.old.form out.old.items out.new.items) }
        ensures same { OnOk result (self.new.form ≡ self.old.form) }
    {
        if self.part.is_empty() {
            if let Some(whole) = front_record(bytes) {
                self.take_whole(alloc, whole, out)?;
                return Ok((whole.len() + 4, None));
            }
        }
        let count = self.fill(bytes)?;
        let size = self.end_part(alloc, out)?;
        Ok((count, size))
    }

    /// Takes bytes, up to a length that a record can't have, which it answers. It gathers what is shown of
    /// the resets that they end.
    fn gather(
        &mut self,
        alloc: Global,
        bytes: &[u8],
        out: &mut Vec<u8>,
    ) -> Result<Option<u32>, AllocError>
        ensures ok { IfOk result (λ size. (done text : List ℕ) →
            length done + length bytes.now ≤ 9223372036854775807 →
            Knows IsOpen self.old done (text ++ out.old.items) →
            Goes size self.new (done ++ bytes.now) (text ++ out.new.items)) }
        ensures front { (done text : List ℕ) →
            length done + length bytes.now ≤ 9223372036854775807 →
            Knows IsOpen self.old done (text ++ out.old.items) →
            Leads self.old.form (done ++ bytes.now) (text ++ out.new.items) }
        ensures json { OnOk result (GathersAsJson self.old.form out.old.items out.new.items) }
        ensures same { OnOk result (self.new.form ≡ self.old.form) }
    {
        let mut at = 0;
        while at < bytes.len() {
            let (count, size) = self.take_front(alloc, &bytes[at..], out)?;
            if size.is_some() {
                return Ok(size);
            }
            at += count;
        }
        Ok(None)
    }

    /// Takes bytes, up to a length that a record can't have, which it answers. It shows the resets that
    /// they end: by one write, also where there was no memory for what is shown of one among them.
    fn take<K: Sink>(
        &mut self,
        alloc: Global,
        bytes: &[u8],
        sink: &mut K,
    ) -> Result<Option<u32>, LogStop>
        ensures ok { IfOk result (λ size. (done : List ℕ) (start : K) →
            length done + length bytes.now ≤ 9223372036854775807 →
            Writes K.written K.faults K.surely_takes (Knows IsOpen self.old done)
            start sink.old → Writes K.written K.faults K.surely_takes
            (Goes size self.new (done ++ bytes.now)) start sink.new) }
        ensures part { OnErr result ((done left : List ℕ) (start : K) →
            length done + length bytes.now ≤ 9223372036854775807 →
            Writes K.written K.faults K.surely_takes (Knows IsOpen self.old done)
            start sink.old → WroteFrontOf K.written K.faults K.surely_takes
            (IsDumpShown self.old.form ((done ++ bytes.now) ++ left)) start sink.new) }
        ensures json { OnOk result (WritesAsJson
            self.old.form (K.written sink.old) (K.written sink.new)) }
        ensures stops { IfErr result (StoppedWriting (K.faults sink.old) (K.faults sink.new)) }
        ensures same { OnOk result (self.new.form ≡ self.old.form) }
        ensures later { K.faults sink.old ≤ K.faults sink.new }
    {
        let mut out = Vec::new(alloc);
        let gathered = self.gather(alloc, bytes, &mut out);
        put(sink, &out)?;
        let size = gathered?;
        Ok(size)
    }

    /// Gathers what is shown of the reset that waits, the dump's fault if it has one, and what was
    /// counted in all. It says whether anything was at fault.
    fn end(
        &mut self,
        alloc: Global,
        fault: Option<DumpFault>,
        out: &mut Vec<u8>,
    ) -> Result<bool, AllocError>
        ensures ok { IfOk result (λ bad. (done more text : List ℕ) →
            length done ≤ 9223372036854775807 →
            Knows (λ bytes. EndsSo (bytes ++ more) fault) self.old done (text ++ out.old.items) →
            IsDumpShown self.old.form (done ++ more) (text ++ out.new.items) bad) }
        ensures front { (done more text : List ℕ) → length done ≤ 9223372036854775807 →
            Knows (λ bytes. EndsSo (bytes ++ more) fault) self.old done (text ++ out.old.items) →
            Opens self.old.form (done ++ more) (text ++ out.new.items) }
        ensures json { OnOk result (GathersAsJson self.old.form out.old.items out.new.items) }
        ensures none { IfOk result (λ bad. bad ≡ false → fault ≡ None) }
    {
        let byte = self.taken.saturating_sub(self.part.len());
        let form = self.form;
        self.show(alloc, out)?;
        let text = last_text(alloc, form, byte as u64, fault, &self.notes)?;
        out.extend_from_slice(&text)?;
        Ok(is_bad(self.bad, fault))
    }

    /// Shows the reset that waits, the dump's fault if it has one, and what was counted in all. It says
    /// whether anything was at fault.
    fn finish<K: Sink>(
        &mut self,
        alloc: Global,
        fault: Option<DumpFault>,
        sink: &mut K,
    ) -> Result<bool, LogStop>
        ensures ok { IfOk result (λ bad. (done more : List ℕ) (start : K) →
            length done ≤ 9223372036854775807 → Writes K.written K.faults K.surely_takes
            (Knows (λ bytes. EndsSo (bytes ++ more) fault) self.old done) start sink.old →
            Writes K.written K.faults K.surely_takes
            (λ text. IsDumpShown self.old.form (done ++ more) text bad) start sink.new) }
        ensures part { OnErr result ((done more : List ℕ) (start : K) →
            length done ≤ 9223372036854775807 → Writes K.written K.faults K.surely_takes
            (Knows (λ bytes. EndsSo (bytes ++ more) fault) self.old done) start sink.old →
            WroteFrontOf K.written K.faults K.surely_takes
            (IsDumpShown self.old.form (done ++ more)) start sink.new) }
        ensures json { OnOk result (WritesAsJson
            self.old.form (K.written sink.old) (K.written sink.new)) }
        ensures none { IfOk result (λ bad. bad ≡ false → fault ≡ None) }
        ensures stops { IfErr result (StoppedWriting (K.faults sink.old) (K.faults sink.new)) }
        ensures later { K.faults sink.old ≤ K.faults sink.new }
    {
        let mut out = Vec::new(alloc);
        let ended = self.end(alloc, fault, &mut out);
        put(sink, &out)?;
        let bad = ended?;
        Ok(bad)
    }

    /// The fault of a dump that ends here.
    fn end_fault(&self) -> Option<DumpFault>
        ensures { IsOpen self.now.part.items → EndsSo (self.now.part.items ++ []) result }
    {
        if self.part.is_empty() {
            None
        } else {
            Some(DumpFault::Cut)
        }
    }
}

/// Shows in a form the bus at each reset in a dump: what `nosy-dump --output` of the Linux kernel
/// recorded, to its end. It says whether anything was at fault: a list that no bus can have sent, a
/// record with a length that can't be, or a record that the dump ends within. Behind such a length
/// nothing is read. A reset is shown once the next one comes, or at the end, and before the source is
/// asked for more. The last line is what was counted in all.
///
/// `ReadFault` and `WriteFault` come only where the count of faults of the source or of the sink
/// rose, and `TooLong` exactly where the source gave more than 9,223,372,036,854,775,807 bytes. After each of them,
/// and where there was no memory, the front of the text is written; after `ReadFault` at least what
/// is shown of each reset that another one followed is written. It keeps one record of at most 65,536
/// bytes, the packets of one reset, what is shown of one read, the last tree, and a count for each node
/// that began a reset. What is shown of one read is written at once.
pub fn show_dump<S: Source, K: Sink>(
    alloc: Global,
    form: LogForm,
    source: &mut S,
    sink: &mut K,
) -> Result<bool, LogStop>
    // What is shown of the dump is written.
    ensures shown { IfOk result (λ bad. IfSome (S.left source.old) (λ dump.
        IsDumpWritten form (K.written sink.old) (K.written sink.new) dump bad)) }
    ensures json { (standard : Standard) → form ≡ LogForm.Json standard →
        OnOk result (WritesJsonLines (K.written sink.old) (K.written sink.new)) }
    ensures end { IfOk result (λ bad. bad ≡ false → IsAtEnd (S.left source.new)) }

    // When each stop comes, and what was written before a read that failed.
    ensures read_fault { IsErrOf result LogStop.ReadFault →
        Rose (S.faults source.old) (S.faults source.new) }
    ensures write_fault { IsErrOf result LogStop.WriteFault →
        Rose (K.faults sink.old) (K.faults sink.new) }
    ensures long { IfTold (S.left source.old) (S.left source.new) (λ old new.
        IsErrOf result LogStop.TooLong ↔ TookOver 9223372036854775807 old new) }
    ensures waits { IsErrOf result LogStop.ReadFault → (read : List ℕ)
        × Consumes (S.left source.old) (S.left source.new) read
        × IsBegunWritten form (K.written sink.old) (K.written sink.new) read }
    ensures part { IsErr result → IfSome (S.left source.old) (λ dump.
        IsFront (IsDumpShown form dump) (K.written sink.old) (K.written sink.new)) }

    // The dump's one text is answered, unless another stop has its cause.
    ensures exact { IfSome (S.left source.old) (λ dump.
        IsExact (IsDumpShown form dump) result) }
    ensures complete { ¬ Rose (S.faults source.old) (S.faults source.new) →
        ¬ Rose (K.faults sink.old) (K.faults sink.new) → IfSome (S.left source.old) (λ dump.
        length dump ≤ 9223372036854775807 → IsComplete (IsDumpShown form dump) result
        (K.written sink.old) (K.written sink.new)) }

    // A sink that surely takes the text has no fault.
    ensures sure { IfSome (S.left source.old) (λ dump. IsSure (IsDumpShown form dump)
        (K.surely_takes sink.old) (K.faults sink.old) (K.faults sink.new)) }
{
    let mut reader = DumpReader::new(alloc, form);
    let mut buf = [0u8; PIECE];
    loop {
        let Ok(count) = source.read(&mut buf) else {
            return Err(LogStop::ReadFault);
        };
        if count == 0 {
            let fault = reader.end_fault();
            return reader.finish(alloc, fault, sink);
        }
        if count > MAX_LOG.saturating_sub(reader.taken) {
            return Err(LogStop::TooLong);
        }
        if let Some(size) = reader.take(alloc, &buf[..count], sink)? {
            let fault = Some(DumpFault::BadLength { size });
            return reader.finish(alloc, fault, sink);
        }
    }
}
