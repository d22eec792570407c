//! Reading the input that a form asks for.
ghost use Rattle.std.specs.Prelude.{◌≡◌, ◌≢◌, ◌<◌, ◌≤◌, ◌↔◌, ℕ, List, length, alloc_error, IfOk, IfErr, IfSome, OnOk, IsErrOf, IsOkUnless, IsErrAnd, ◌⊎◌};
ghost use Rattle.std.specs.Io.KnownBytes.{IsAtEnd};
ghost use Rattle.io_edges.specs.Faults.{Rose};
ghost use Rattle.io_edges.specs.Told.{AreLeft, IfTold, TookOver};
ghost use Rattle.bus_cli.specs.Form.{standard_of};
ghost use Rattle.bus_cli.specs.codings.Reading.{IsReadAs, SparesMemory};

use crate::form::CaptureForm;
use crate::reader::CaptureReader;
use capture_reading::{CaptureStop, read_capture};
use io_edges::{ReadStop, Source, read_all, read_pieces};
use std::alloc::Global;
use top_call::MAX_INPUT;
use topology_stack::BusTree;

/// Reads the capture that a form asks for. With `read` it is taken piece by piece, and memory is
/// taken for the tree that it spells and for nothing else. Else the whole capture is read first.
pub(crate) fn read_input<S: Source>(
    alloc: Global,
    form: CaptureForm,
    source: &mut S,
) -> Result<Result<BusTree, CaptureStop>, ReadStop>
    ensures reading { IfOk result (λ reading. (bytes : List ℕ) × AreLeft (S.left source.old) bytes
        × IsReadAs (standard_of form) bytes reading
        × (form ≡ CaptureForm.Read → SparesMemory bytes reading)) }
    ensures end { OnOk result (IsAtEnd (S.left source.new)) }

    // When each stop comes.
    ensures fault { IsErrOf result ReadStop.ReadFault →
        Rose (S.faults source.old) (S.faults source.new) }
    ensures long { IfTold (S.left source.old) (S.left source.new) (λ old new.
        IsErrOf result ReadStop.TooLong ↔ TookOver 1048576 old new) }
    ensures memory { form ≡ CaptureForm.Read →
        IfErr result (λ stop. stop ≢ ReadStop.Memory alloc_error) }
    ensures complete { ¬ Rose (S.faults source.old) (S.faults source.new) →
        IfSome (S.left source.old) (λ bytes. length bytes ≤ 1048576 →
        IsOkUnless result (ReadStop.Memory alloc_error)) }
{
    match form {
        CaptureForm::Read => {
            let mut reader = CaptureReader::new();
            read_pieces(source, MAX_INPUT, &mut reader)?;
            Ok(reader.finish(alloc))
        }
        CaptureForm::Read95 | CaptureForm::Maps => {
            let bytes = read_all(alloc, source, MAX_INPUT)?;
            Ok(read_capture(alloc, form.standard(), &bytes))
        }
    }
}
