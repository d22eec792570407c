//! What a list is heard as.
ghost use Rattle.std.specs.Prelude.{◌≡◌, IfOk};
ghost use Rattle.capture_reading.specs.Stop.{IfFault};
ghost use Rattle.topology_stack.specs.Tree.{IsBusTreeOf, emits};
ghost use Rattle.reset_list.specs.Hear.{IsHeard, IsUnheard, IsTreeFault};

use capture_reading::{CaptureFault, CaptureStop};
use log_line::Origin;
use quad_lanes::{first_bad_pair, firsts};
use self_id::Standard;
use std::alloc::Global;
use topology_stack::{BusTree, read_tree_by};

/// The tree of a standard whose packets' quadlets these are.
fn tree_of(alloc: Global, standard: Standard, quads: &[u32]) -> Result<BusTree, CaptureStop>
    ensures tree { IfOk result (λ t. IsBusTreeOf standard t × (emits t ≡ quads.now)) }
    ensures fault { IfFault result (IsTreeFault standard quads.now) }
{
    Ok(read_tree_by(alloc, standard, quads)?)
}

/// The tree that pairs spell.
fn tree_of_pairs(alloc: Global, standard: Standard, list: &[u32]) -> Result<BusTree, CaptureStop>
    ensures tree { IfOk result (λ t. IsHeard standard Origin.Controller list.now t) }
    ensures fault { IfFault result (λ f. IsUnheard standard Origin.Controller list.now f) }
{
    let pair = list.len() / 2;
    if list.len() % 2 != 0 {
        return Err(CaptureStop::Fault(CaptureFault::BadLength { pair }));
    }
    if let Some(pair) = first_bad_pair(list) {
        return Err(CaptureStop::Fault(CaptureFault::BadInverse { pair }));
    }
    let quads = firsts(alloc, list)?;
    tree_of(alloc, standard, quads.as_slice())
}

/// The tree that a reset's list is heard as by a standard, or its fault.
pub(crate) fn hear(
    alloc: Global,
    standard: Standard,
    origin: Origin,
    list: &[u32],
) -> Result<BusTree, CaptureStop>
    ensures tree { IfOk result (λ t. IsHeard standard origin list.now t) }
    ensures fault { IfFault result (λ f. IsUnheard standard origin list.now f) }
{
    match origin {
        Origin::Controller => tree_of_pairs(alloc, standard, list),
        Origin::Core => tree_of(alloc, standard, list),
    }
}
