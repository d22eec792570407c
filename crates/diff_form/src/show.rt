//! The call: two captures in, what differs out.
ghost use Rattle.std.specs.Prelude.{◌≡◌, ◌≢◌, ◌≤◌, ◌↔◌, ℕ, List, Result, Ok, Err, length, alloc_error, IfOk, OnOk, IfSome, IsOkUnless};
ghost use Rattle.std.specs.Io.KnownBytes.{Appends, IsAtEnd};
ghost use Rattle.io_edges.specs.Faults.{Rose};
ghost use Rattle.io_edges.specs.Told.{AreLeft, AppendsStart, IfTold, TookOver};
ghost use Rattle.topology_stack.specs.Tree.{Tree};
ghost use Rattle.capture_reading.specs.declared.fault.CaptureFault.{CaptureFault};
ghost use Rattle.diff_form.specs.declared.outcome.Outcome.{Outcome};
ghost use Rattle.diff_form.specs.declared.stop.DiffStop.{DiffStop};
ghost use Rattle.diff_form.specs.Form.{standard_of};
ghost use Rattle.diff_form.specs.Difference.{IsReading, IsOfReadings, IsDifference};

use crate::difference::difference_of;
use crate::form::DiffForm;
use crate::outcome::{Outcome, Side};
use crate::stop::DiffStop;
use capture_reading::one_reading;
use io_edges::{ReadStop, Sink, Source, read_all, write_whole};
use std::alloc::Global;

/// The most bytes of a capture.
const MOST: usize = 1_048_576;

/// Writes what differs between the captures that two sources give, in files of these names: a line for each
/// change, or a line for each capture that is refused; as JSON one line with all changes or all refusals.
///
/// The old capture is read to its end, then the new one, and only then are they judged and is something written.
/// Which node is which is a guess (`bus_diff::compare`). What is told by it is so of both buses, and all that
/// differs by it is told. That no other guess has less to tell isn't promised.
pub fn show_difference<S: Source, T: Source, K: Sink>(
    alloc: Global,
    form: DiffForm,
    old_name: &str,
    before: &mut S,
    new_name: &str,
    after: &mut T,
    sink: &mut K,
) -> Result<Outcome, DiffStop>
    // What is written whole is the difference of the bytes that the sources had left, of which none is left.
    ensures answer { IfOk result (λ outcome. (old : List ℕ) × (new : List ℕ) × (text : List ℕ)
        × AreLeft (S.left before.old) old × AreLeft (T.left after.old) new
        × IsDifference form old_name.now new_name.now old new text outcome
        × Appends (K.written sink.old) (K.written sink.new) text) }
    ensures end { OnOk result (IsAtEnd (S.left before.new)) }
    ensures new_end { OnOk result (IsAtEnd (T.left after.new)) }

    // When each stop comes.
    ensures read_fault { result ≡ Err (DiffStop.ReadFault Side.Old) →
        Rose (S.faults before.old) (S.faults before.new) }
    ensures new_read_fault { result ≡ Err (DiffStop.ReadFault Side.New) →
        Rose (T.faults after.old) (T.faults after.new) }
    ensures write_fault { result ≡ Err DiffStop.WriteFault →
        Rose (K.faults sink.old) (K.faults sink.new) }
    ensures too_long { IfTold (S.left before.old) (S.left before.new) (λ old new.
        (result ≡ Err (DiffStop.TooLong Side.Old)) ↔ TookOver 1048576 old new) }
    ensures new_too_long { IfTold (T.left after.old) (T.left after.new) (λ old new.
        (result ≡ Err (DiffStop.TooLong Side.New)) ↔ TookOver 1048576 old new) }

    // What is written before a fault of the sink, and that nothing is before any other.
    ensures part { result ≡ Err DiffStop.WriteFault → (old : List ℕ) × (new : List ℕ)
        × (text : List ℕ) × (outcome : Outcome)
        × AreLeft (S.left before.old) old × AreLeft (T.left after.old) new
        × IsDifference form old_name.now new_name.now old new text outcome
        × AppendsStart (K.written sink.old) (K.written sink.new) text }
    ensures unwritten { (stop : DiffStop) → result ≡ Err stop → stop ≢ DiffStop.WriteFault →
        sink.new ≡ sink.old }

    // Captures that are read so have no other answer than that of these readings, and one is given where no
    // stream has a fault, there is memory, and none of them is too long.
    ensures exact { IfOk result (λ outcome. IfSome (S.left before.old) (λ old.
        IfSome (T.left after.old) (λ new. (r s : Result Tree CaptureFault) →
        IsReading (standard_of form) old r → IsReading (standard_of form) new s → (text : List ℕ)
        × IsOfReadings form old_name.now new_name.now r s text outcome
        × Appends (K.written sink.old) (K.written sink.new) text))) }
    ensures complete { ¬ Rose (S.faults before.old) (S.faults before.new) →
        ¬ Rose (T.faults after.old) (T.faults after.new) →
        ¬ Rose (K.faults sink.old) (K.faults sink.new) →
        IfSome (S.left before.old) (λ old. IfSome (T.left after.old) (λ new.
        length old ≤ 1048576 → length new ≤ 1048576 →
        IsOkUnless result (DiffStop.Memory alloc_error))) }

    // A sink that surely takes each text which the difference may have has no fault.
    ensures sure { IfSome (S.left before.old) (λ old. IfSome (T.left after.old) (λ new.
        ((text : List ℕ) (outcome : Outcome) →
        IsDifference form old_name.now new_name.now old new text outcome →
        K.surely_takes sink.old (length text)) → K.faults sink.new ≡ K.faults sink.old)) }
{
    one_reading();
    let old = match read_all(alloc, before, MOST) {
        Ok(bytes) => bytes,
        Err(ReadStop::ReadFault) => return Err(DiffStop::ReadFault(Side::Old)),
        Err(ReadStop::TooLong) => return Err(DiffStop::TooLong(Side::Old)),
        Err(ReadStop::Memory(error)) => return Err(DiffStop::Memory(error)),
    };
    let new = match read_all(alloc, after, MOST) {
        Ok(bytes) => bytes,
        Err(ReadStop::ReadFault) => return Err(DiffStop::ReadFault(Side::New)),
        Err(ReadStop::TooLong) => return Err(DiffStop::TooLong(Side::New)),
        Err(ReadStop::Memory(error)) => return Err(DiffStop::Memory(error)),
    };
    let found = match difference_of(alloc, form, old_name, &old, new_name, &new) {
        Ok(found) => found,
        Err(error) => return Err(DiffStop::Memory(error)),
    };
    match write_whole(sink, &found.text) {
        Ok(()) => Ok(found.outcome),
        Err(_) => Err(DiffStop::WriteFault),
    }
}
