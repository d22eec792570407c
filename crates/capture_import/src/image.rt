//! The list of a topology map's image.
ghost use Rattle.std.specs.Prelude.{◌≡◌, ◌≤◌, ◌+◌, ◌/◌, ◌^◌, length, take, slice_index, IfOk, true};
ghost use Rattle.capture_import.specs.Answer.{IfFault};
ghost use Rattle.capture_import.specs.Image.{HasList, IsBadImage, kind_of, place_of, image_of};
ghost use Rattle.capture_import.specs.List.{NamesList, IsBadList, begins_map};
ghost use Rattle.capture_import.specs.declared.taken.Layout.{Layout};

use crate::fault::{FaultKind, ImportStop, fault};
use crate::taken::{Layout, Order};
use quad_lanes::QuadList;
use std::alloc::Global;
use topology_map::{ImageFault, read_image};

/// The image that stands first among quadlets.
fn image_of(quads: &[u32]) -> &[u32]
    requires { begins_map quads.now ≡ true }
    ensures { result.now ≡ image_of quads.now }
{
    &quads[..(quads[0] / 0x1_0000) as usize + 1]
}

/// The list of the topology map that stands first among quadlets, or why it has none.
pub(crate) fn map_list(alloc: Global, quads: &[u32]) -> Result<(QuadList, Order), ImportStop>
    requires { begins_map quads.now ≡ true }
    ensures found { IfOk result (λ found. NamesList Layout.Map found.1 quads.now found.0) }
    ensures refused { IfFault result (λ f. IsBadList Layout.Map quads.now f) }
{
    match read_image(alloc, image_of(quads)) {
        Ok(parts) => Ok((parts.list, Order::Big)),
        Err(ImageFault::Length { .. }) => Err(fault(0, FaultKind::BadCounts)),
        Err(ImageFault::Crc { .. }) => Err(fault(0, FaultKind::BadCrc)),
        Err(ImageFault::Counts { .. }) => Err(fault(2, FaultKind::BadCounts)),
        Err(ImageFault::Memory(error)) => Err(ImportStop::Memory(error)),
    }
}
