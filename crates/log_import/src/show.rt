//! The call: a log in, the capture of one of its resets out.
ghost use Rattle.std.specs.Prelude.{◌≡◌, ◌≢◌, ◌<◌, ◌≤◌, ◌↔◌, ℕ, List, Err, length, alloc_error, IfOk, OnOk, IfSome, IsOkUnless};
ghost use Rattle.std.specs.Io.KnownBytes.{Appends, IsAtEnd};
ghost use Rattle.io_edges.specs.Faults.{Rose};
ghost use Rattle.io_edges.specs.Told.{AreLeft, AppendsStart, IfTold, TookOver};
ghost use Rattle.reset_list.specs.declared.stop.LogStop.{LogStop};
ghost use Rattle.log_import.specs.declared.outcome.Outcome.{Outcome};
ghost use Rattle.log_import.specs.Import.{IsResetImport};

use crate::import::reset_import;
use crate::laws::one_reset;
use crate::outcome::Outcome;
use crate::read::read_log;
use io_edges::{ReadStop, Sink, Source, write_whole};
use reset_list::LogStop;
use std::alloc::Global;

/// Writes the capture of the reset with this number, from 1, in the log that a source has, or a line that says why there
/// is none. The log is the text of a Linux kernel's trace or log, and has at most 1,073,741,824 bytes. It is read to its
/// end, and only then is something written. What the log comes to is answered.
pub fn show_reset<S: Source, K: Sink>(
    alloc: Global,
    wanted: u64,
    source: &mut S,
    sink: &mut K,
) -> Result<Outcome, LogStop>
    requires { 0 < wanted }

    // What is written whole is the capture of the log's reset with this number, or why there is none.
    ensures answer { IfOk result (λ outcome. (log : List ℕ) × (text : List ℕ)
        × AreLeft (S.left source.old) log × IsResetImport wanted log text outcome
        × Appends (K.written sink.old) (K.written sink.new) text) }
    ensures end { OnOk result (IsAtEnd (S.left source.new)) }

    // When each stop comes.
    ensures read_fault { result ≡ Err LogStop.ReadFault →
        Rose (S.faults source.old) (S.faults source.new) }
    ensures write_fault { result ≡ Err LogStop.WriteFault →
        Rose (K.faults sink.old) (K.faults sink.new) }
    ensures too_long { IfTold (S.left source.old) (S.left source.new) (λ old new.
        (result ≡ Err LogStop.TooLong) ↔ TookOver 1073741824 old new) }

    // What is written before a fault of the sink, and that nothing is before any other.
    ensures part { result ≡ Err LogStop.WriteFault → (log : List ℕ) × (text : List ℕ)
        × (outcome : Outcome) × AreLeft (S.left source.old) log
        × IsResetImport wanted log text outcome
        × AppendsStart (K.written sink.old) (K.written sink.new) text }
    ensures unwritten { (stop : LogStop) → result ≡ Err stop → stop ≢ LogStop.WriteFault →
        sink.new ≡ sink.old }

    // A log has one outcome, which is answered, and one text, which is written.
    ensures exact { IfOk result (λ outcome. IfSome (S.left source.old) (λ log. (text : List ℕ)
        (right : Outcome) → IsResetImport wanted log text right → (outcome ≡ right)
        × Appends (K.written sink.old) (K.written sink.new) text)) }

    // An answer is given where no stream has a fault, there is memory, and the log isn't too long.
    ensures complete { ¬ Rose (S.faults source.old) (S.faults source.new) →
        ¬ Rose (K.faults sink.old) (K.faults sink.new) →
        IfSome (S.left source.old) (λ log. length log ≤ 1073741824 →
        IsOkUnless result (LogStop.Memory alloc_error)) }
{
    one_reset();
    let log = match read_log(alloc, source) {
        Ok(bytes) => bytes,
        Err(ReadStop::ReadFault) => return Err(LogStop::ReadFault),
        Err(ReadStop::TooLong) => return Err(LogStop::TooLong),
        Err(ReadStop::Memory(error)) => return Err(LogStop::Memory(error)),
    };
    let import = match reset_import(alloc, &log, wanted) {
        Ok(import) => import,
        Err(error) => return Err(LogStop::Memory(error)),
    };
    match write_whole(sink, &import.text) {
        Ok(()) => Ok(import.outcome),
        Err(_) => Err(LogStop::WriteFault),
    }
}
