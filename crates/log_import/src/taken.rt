//! The capture of a reset's list.
ghost use Rattle.std.specs.Prelude.{◌≡◌, ◌==◌, ◌&&◌, not, true, false, IfOk};
ghost use Rattle.quad_lanes.specs.Pairs.{bytes_of};
ghost use Rattle.self_id.specs.declared.standard.Standard.{Standard};
ghost use Rattle.topology_stack.specs.Tree.{Tree};
ghost use Rattle.capture_reading.specs.declared.fault.CaptureFault.{CaptureFault};
ghost use Rattle.capture_reading.specs.Capture.{Spells, CaptureRefused};
ghost use Rattle.reset_list.specs.Judged.{capture_by};

use capture_reading::{CaptureStop, read_capture};
use log_line::{Origin, Reset};
use quad_lanes::capture_of;
use self_id::Standard;
use std::alloc::{AllocError, Global};

/// The bytes of quadlets, the highest of each first.
fn bytes_of(alloc: Global, list: &[u32]) -> Result<Vec<u8>, AllocError>
    ensures { IfOk result (λ bytes. bytes.items ≡ bytes_of list.now) }
{
    let mut bytes = Vec::new(alloc);
    for quad in list {
        bytes.extend_from_slice(&quad.to_be_bytes())?;
    }
    Ok(bytes)
}

/// The capture of a reset's list: of a controller's quadlets as they came, and of the kernel's packets each before its
/// inverse.
pub(crate) fn capture_by(alloc: Global, reset: &Reset) -> Result<Vec<u8>, AllocError>
    ensures { IfOk result (λ bytes. bytes.items ≡ capture_by reset.now.origin reset.now.list) }
{
    match reset.origin {
        Origin::Controller => bytes_of(alloc, reset.list.as_slice()),
        Origin::Core => capture_of(alloc, reset.list.as_slice()),
    }
}

/// Whether the list of a reset is that of a bus by IEEE 1394a-2000.
pub(crate) fn is_bus(alloc: Global, reset: &Reset) -> Result<bool, AllocError>
    ensures spelt { IfOk result (λ bus. bus ≡ true → (t : Tree)
        × Spells Standard.Ieee2000 (capture_by reset.now.origin reset.now.list) t) }
    ensures refused { IfOk result (λ bus. bus ≡ false → (f : CaptureFault)
        × CaptureRefused Standard.Ieee2000 (capture_by reset.now.origin reset.now.list) f) }
{
    let bytes = capture_by(alloc, reset)?;
    match read_capture(alloc, Standard::Ieee2000, &bytes) {
        Ok(_) => Ok(true),
        Err(CaptureStop::Fault(_)) => Ok(false),
        Err(CaptureStop::Memory(error)) => Err(error),
    }
}
