//! The tree that a capture spells.
ghost use Rattle.std.specs.Prelude.{IfOk};
ghost use Rattle.self_id.specs.declared.standard.Standard.{Standard};
ghost use Rattle.capture_reading.specs.Capture.{IsCaptureOf, Spells, CaptureRefused};
ghost use Rattle.capture_reading.specs.Stop.{IfFault};

use crate::fault::{CaptureFault, CaptureStop};
use quad_lanes::{QuadList, first_bad_pair, firsts, good_pairs_are_a_capture, pairs_of};
use self_id::Standard;
use std::alloc::Global;
use topology_stack::{BusTree, read_tree_by};

/// The quadlets of a capture's packets: the first one of each pair. It refuses bytes that end
/// within a pair, and else the first bad pair.
fn packets_of(alloc: Global, bytes: &[u8]) -> Result<QuadList, CaptureStop>
    ensures packets { IfOk result (λ quads. IsCaptureOf quads bytes.now) }
    ensures fault { (standard : Standard) →
        IfFault result (λ f. CaptureRefused standard bytes.now f) }
{
    let pairs = pairs_of(alloc, bytes)?;
    let quads = pairs.as_slice();
    if let Some(pair) = first_bad_pair(quads) {
        return Err(CaptureStop::Fault(CaptureFault::BadInverse { pair }));
    }
    good_pairs_are_a_capture();
    Ok(firsts(alloc, quads)?)
}

/// The bus tree of a standard that the bytes of a capture spell, or the fault that they have by it, as
/// `read`, `read95` and `maps` refuse them. `one_reading` says that there is one of the two, and never
/// a second.
pub fn read_capture(alloc: Global, standard: Standard, bytes: &[u8]) -> Result<BusTree, CaptureStop>
    ensures tree { IfOk result (λ t. Spells standard bytes.now t) }
    ensures fault { IfFault result (λ f. CaptureRefused standard bytes.now f) }
{
    let packets = packets_of(alloc, bytes)?;
    Ok(read_tree_by(alloc, standard, packets.as_slice())?)
}
