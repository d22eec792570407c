//! The call: a file of names and a capture in, the bus with names out.
ghost use Rattle.std.specs.Prelude.{◌≡◌, ◌≢◌, ◌≤◌, ◌↔◌, ℕ, List, Result, Ok, Err, length, alloc_error, IfOk, OnOk, IfSome, IsOkUnless};
ghost use Rattle.std.specs.Io.KnownBytes.{Appends, IsAtEnd};
ghost use Rattle.io_edges.specs.Faults.{Rose};
ghost use Rattle.io_edges.specs.Told.{AreLeft, AppendsStart, IfTold, TookOver};
ghost use Rattle.self_id.specs.declared.standard.Standard.{Standard};
ghost use Rattle.topology_stack.specs.Tree.{Tree};
ghost use Rattle.capture_reading.specs.declared.fault.CaptureFault.{CaptureFault};
ghost use Rattle.diff_form.specs.Difference.{IsReading};
ghost use Rattle.view_text.specs.GraphDot.{IsTreeDot};
ghost use Rattle.named_form.specs.declared.form.NamedForm.{NamedForm};
ghost use Rattle.named_form.specs.declared.outcome.Outcome.{Outcome};
ghost use Rattle.named_form.specs.declared.stop.NamedStop.{NamedStop};
ghost use Rattle.named_form.specs.Form.{standard_of};
ghost use Rattle.named_form.specs.File.{fault_of};
ghost use Rattle.named_form.specs.Shown.{IsByFault, IsShown};

use crate::bus::shown_of;
use crate::form::NamedForm;
use crate::laws::named_graphs_are_dot;
use crate::outcome::{Input, Outcome};
use crate::stop::NamedStop;
use capture_reading::one_reading;
use io_edges::{ReadStop, Sink, Source, read_all, write_whole};
use std::alloc::Global;

/// The most bytes of an input.
const MOST: usize = 1_048_576;

/// Writes the bus of the capture that a source gives with the names of the file that another one gives, as
/// `busview tree` and `dot` show it without, and with a node's name before each mention of it. A capture that no
/// bus can have sent is refused as they refuse it.
///
/// The names are read to their end, then the capture, and only then are they judged and is something written.
pub fn show_named<S: Source, T: Source, K: Sink>(
    alloc: Global,
    form: NamedForm,
    names: &mut S,
    capture: &mut T,
    sink: &mut K,
) -> Result<Outcome, NamedStop>
    // What is written whole is the text of the bytes that the sources had left, of which none is left.
    ensures answer { IfOk result (λ outcome. (file : List ℕ) × (bytes : List ℕ) × (text : List ℕ)
        × AreLeft (S.left names.old) file × AreLeft (T.left capture.old) bytes
        × IsShown form file bytes text outcome
        × Appends (K.written sink.old) (K.written sink.new) text) }
    ensures names_end { OnOk result (IsAtEnd (S.left names.new)) }
    ensures capture_end { OnOk result (IsAtEnd (T.left capture.new)) }

    // A graph that is shown is one in DOT, with a node for each node of the tree that the capture spells and an edge
    // for each of its cables.
    ensures dot { IfOk result (λ outcome. (standard : Standard) → form ≡ NamedForm.Dot standard →
        outcome ≡ Outcome.Shown → (bytes : List ℕ) × (t : Tree) × (text : List ℕ)
        × AreLeft (T.left capture.old) bytes × IsReading standard bytes (Ok t) × IsTreeDot t text
        × Appends (K.written sink.old) (K.written sink.new) text) }

    // When each stop comes.
    ensures names_read_fault { result ≡ Err (NamedStop.ReadFault Input.Names) →
        Rose (S.faults names.old) (S.faults names.new) }
    ensures read_fault { result ≡ Err (NamedStop.ReadFault Input.Capture) →
        Rose (T.faults capture.old) (T.faults capture.new) }
    ensures write_fault { result ≡ Err NamedStop.WriteFault →
        Rose (K.faults sink.old) (K.faults sink.new) }
    ensures names_too_long { IfTold (S.left names.old) (S.left names.new) (λ old new.
        (result ≡ Err (NamedStop.TooLong Input.Names)) ↔ TookOver 1048576 old new) }
    ensures too_long { IfTold (T.left capture.old) (T.left capture.new) (λ old new.
        (result ≡ Err (NamedStop.TooLong Input.Capture)) ↔ TookOver 1048576 old new) }

    // What is written before a fault of the sink, and that nothing is before any other.
    ensures part { result ≡ Err NamedStop.WriteFault → (file : List ℕ) × (bytes : List ℕ)
        × (text : List ℕ) × (outcome : Outcome)
        × AreLeft (S.left names.old) file × AreLeft (T.left capture.old) bytes
        × IsShown form file bytes text outcome
        × AppendsStart (K.written sink.old) (K.written sink.new) text }
    ensures unwritten { (stop : NamedStop) → result ≡ Err stop → stop ≢ NamedStop.WriteFault →
        sink.new ≡ sink.old }

    // A capture that is read so has no other answer than that of this reading, and one is given if no stream
    // has a fault, there is memory, and neither input is too long.
    ensures exact { IfOk result (λ outcome. IfSome (S.left names.old) (λ file.
        IfSome (T.left capture.old) (λ bytes. (r : Result Tree CaptureFault) →
        IsReading (standard_of form) bytes r → (text : List ℕ)
        × IsByFault form file r (fault_of file) text outcome
        × Appends (K.written sink.old) (K.written sink.new) text))) }
    ensures complete { ¬ Rose (S.faults names.old) (S.faults names.new) →
        ¬ Rose (T.faults capture.old) (T.faults capture.new) →
        ¬ Rose (K.faults sink.old) (K.faults sink.new) →
        IfSome (S.left names.old) (λ file. IfSome (T.left capture.old) (λ bytes.
        length file ≤ 1048576 → length bytes ≤ 1048576 →
        IsOkUnless result (NamedStop.Memory alloc_error))) }

    // A sink that surely takes each text which may come of them has no fault.
    ensures sure { IfSome (S.left names.old) (λ file. IfSome (T.left capture.old) (λ bytes.
        ((text : List ℕ) (outcome : Outcome) → IsShown form file bytes text outcome →
        K.surely_takes sink.old (length text)) → K.faults sink.new ≡ K.faults sink.old)) }
{
    one_reading();
    named_graphs_are_dot();
    let file = match read_all(alloc, names, MOST) {
        Ok(bytes) => bytes,
        Err(ReadStop::ReadFault) => return Err(NamedStop::ReadFault(Input::Names)),
        Err(ReadStop::TooLong) => return Err(NamedStop::TooLong(Input::Names)),
        Err(ReadStop::Memory(error)) => return Err(NamedStop::Memory(error)),
    };
    let bytes = match read_all(alloc, capture, MOST) {
        Ok(bytes) => bytes,
        Err(ReadStop::ReadFault) => return Err(NamedStop::ReadFault(Input::Capture)),
        Err(ReadStop::TooLong) => return Err(NamedStop::TooLong(Input::Capture)),
        Err(ReadStop::Memory(error)) => return Err(NamedStop::Memory(error)),
    };
    let shown = match shown_of(alloc, form, &file, &bytes) {
        Ok(shown) => shown,
        Err(error) => return Err(NamedStop::Memory(error)),
    };
    match write_whole(sink, &shown.text) {
        Ok(()) => Ok(shown.outcome),
        Err(_) => Err(NamedStop::WriteFault),
    }
}
