//! The kind of fault that a capture has.
ghost use Rattle.std.specs.Prelude.{◌≡◌, Some, IfOk, IfSome, IfNone};
ghost use Rattle.flawed_capture.specs.declared.flaw.Flaw.{Flaw};
ghost use Rattle.flawed_capture.specs.Flaw.{HasFlaw, IsOfATree};

use crate::flaw::Flaw;
use capture_reading::{CaptureStop, one_reading, read_capture};
use self_id::Standard;
use std::alloc::Global;
use topology_stack::OutOfMemory;

/// The kind of fault that the bytes of a capture have by a standard, `None` where they have none. It is
/// the kind of the one fault for which `busconf read` or `busconf read95` refuses them.
pub fn flaw_of(alloc: Global, standard: Standard, bytes: &[u8]) -> Result<Option<Flaw>, OutOfMemory>
    ensures flaw { IfOk result (λ found. IfSome found (λ flaw. HasFlaw standard bytes.now flaw)) }
    ensures none { IfOk result (λ found. IfNone found (IsOfATree standard bytes.now)) }
    // A kind that they have is the one that is found.
    ensures only { (flaw : Flaw) → HasFlaw standard bytes.now flaw →
        IfOk result (λ found. found ≡ Some flaw) }
{
    one_reading();
    match read_capture(alloc, standard, bytes) {
        Ok(_) => Ok(None),
        Err(CaptureStop::Fault(fault)) => Ok(Some(Flaw::from(fault))),
        Err(CaptureStop::Memory(error)) => Err(error),
    }
}
