//! The line of a refusal.
ghost use Rattle.std.specs.Prelude.{◌≡◌, IfOk};
ghost use Rattle.capture_import.specs.Line.{kind_word, refusal_line};

use crate::fault::{FaultKind, ImportFault};
use std::alloc::Global;
use topology_stack::{OutOfMemory, put_number};

/// The name of a kind of fault.
pub fn kind_word(kind: FaultKind) -> &'static str
    ensures { result.now ≡ kind_word kind }
{
    match kind {
        FaultKind::BadWord => "BadWord",
        FaultKind::SecondList => "SecondList",
        FaultKind::Empty => "Empty",
        FaultKind::BadLength => "BadLength",
        FaultKind::BadInverse => "BadInverse",
        FaultKind::NotSelfId => "NotSelfId",
        FaultKind::BadCrc => "BadCrc",
        FaultKind::BadCounts => "BadCounts",
    }
}

/// `refused quadlet Q KIND`.
pub(crate) fn refusal_line(alloc: Global, fault: ImportFault) -> Result<Vec<u8>, OutOfMemory>
    ensures { IfOk result (λ line. line.items ≡ refusal_line fault) }
{
    let mut line = Vec::new(alloc);
    line.extend_from_slice(b"refused quadlet ")?;
    put_number(&mut line, fault.quadlet as u64)?;
    line.extend_from_slice(b" ")?;
    line.extend_from_slice(kind_word(fault.kind).as_bytes())?;
    line.extend_from_slice(b"\n")?;
    Ok(line)
}
