//! The fault of a capture as a line of JSON.
ghost use Rattle.std.specs.Prelude.{◌≡◌, IfOk};
ghost use Rattle.bus_json.specs.Lines.{IsJsonLine};
ghost use Rattle.bus_json.specs.Refusal.{fault_value};
ghost use Rattle.bus_json.specs.Text.{json_line};

use bus_json::refusal_line;
use capture_reading::CaptureFault;
use std::alloc::Global;
use topology_stack::OutOfMemory;

/// The line of a capture's fault: its pair, its kind, and what was found and wanted where that is
/// known.
pub(crate) fn fault_json(alloc: Global, fault: CaptureFault) -> Result<Vec<u8>, OutOfMemory>
    ensures line { IfOk result (λ line. line.items ≡ json_line (fault_value fault)) }
    ensures json { IfOk result (λ line. IsJsonLine line.items) }
{
    let line = refusal_line(alloc, fault)?;
    Ok(line)
}
