//! The call: an input in, its capture out.
ghost use Rattle.std.specs.Prelude.{◌≡◌, ◌≢◌, ◌≤◌, ◌↔◌, ℕ, List, Err, length, alloc_error, IfOk, OnOk, IfSome, IsOkUnless};
ghost use Rattle.std.specs.Io.KnownBytes.{Appends, IsAtEnd};
ghost use Rattle.io_edges.specs.Faults.{Rose};
ghost use Rattle.io_edges.specs.Told.{AreLeft, AppendsStart, IfTold, TookOver};
ghost use Rattle.capture_import.specs.declared.outcome.Outcome.{Outcome};
ghost use Rattle.capture_import.specs.declared.stop.StreamStop.{StreamStop};
ghost use Rattle.capture_import.specs.Import.{IsImport};

use crate::import::import_of;
use crate::laws::one_import;
use crate::outcome::Outcome;
use crate::stop::StreamStop;
use io_edges::{ReadStop, Sink, Source, read_all, write_whole};
use std::alloc::Global;

/// The most bytes of an input.
const MOST: usize = 1_048_576;

/// Writes the capture of the self-ID packets that the input of a source names, or a line that says why it names none.
///
/// The input is read to its end, and only then is it judged and is something written. What it is taken for is answered.
pub fn show_import<S: Source, K: Sink>(
    alloc: Global,
    source: &mut S,
    sink: &mut K,
) -> Result<Outcome, StreamStop>
    // What is written whole is the capture of the list that the bytes name, or why they name none. They are the bytes
    // that the source had left, of which none is left.
    ensures answer { IfOk result (λ outcome. (input : List ℕ) × (text : List ℕ)
        × AreLeft (S.left source.old) input × IsImport input text outcome
        × Appends (K.written sink.old) (K.written sink.new) text) }
    ensures end { OnOk result (IsAtEnd (S.left source.new)) }

    // When each stop comes.
    ensures read_fault { result ≡ Err StreamStop.ReadFault →
        Rose (S.faults source.old) (S.faults source.new) }
    ensures write_fault { result ≡ Err StreamStop.WriteFault →
        Rose (K.faults sink.old) (K.faults sink.new) }
    ensures too_long { IfTold (S.left source.old) (S.left source.new) (λ old new.
        (result ≡ Err StreamStop.TooLong) ↔ TookOver 1048576 old new) }

    // What is written before a fault of the sink, and that nothing is before any other.
    ensures part { result ≡ Err StreamStop.WriteFault → (input : List ℕ) × (text : List ℕ)
        × (outcome : Outcome) × AreLeft (S.left source.old) input × IsImport input text outcome
        × AppendsStart (K.written sink.old) (K.written sink.new) text }
    ensures unwritten { (stop : StreamStop) → result ≡ Err stop → stop ≢ StreamStop.WriteFault →
        sink.new ≡ sink.old }

    // An input has one outcome, which is answered, and one text, which is written.
    ensures exact { IfSome (S.left source.old) (λ input. (text : List ℕ) (right : Outcome) →
        IsImport input text right → IfOk result (λ outcome. (outcome ≡ right)
        × Appends (K.written sink.old) (K.written sink.new) text)) }

    // An answer is given where no stream has a fault, there is memory, and the input isn't too long.
    ensures complete { ¬ Rose (S.faults source.old) (S.faults source.new) →
        ¬ Rose (K.faults sink.old) (K.faults sink.new) →
        IfSome (S.left source.old) (λ input. length input ≤ 1048576 →
        IsOkUnless result (StreamStop.Memory alloc_error)) }
{
    one_import();
    let input = match read_all(alloc, source, MOST) {
        Ok(bytes) => bytes,
        Err(ReadStop::ReadFault) => return Err(StreamStop::ReadFault),
        Err(ReadStop::TooLong) => return Err(StreamStop::TooLong),
        Err(ReadStop::Memory(error)) => return Err(StreamStop::Memory(error)),
    };
    let import = match import_of(alloc, &input) {
        Ok(import) => import,
        Err(error) => return Err(StreamStop::Memory(error)),
    };
    match write_whole(sink, &import.text) {
        Ok(()) => Ok(import.outcome),
        Err(_) => Err(StreamStop::WriteFault),
    }
}
