//! The image of a speed map.
ghost use Rattle.std.specs.Prelude.{◌≡◌, ◌%◌, ◌≤◌, ◌∷◌, length, IfOk};
ghost use Rattle.quad_lanes.specs.Pairs.{quads_of};
ghost use Rattle.topology_map.specs.Sealed.{IsSealed};

use quad_lanes::{OutOfMemory, QuadList, quads_of};
use std::alloc::Global;
use topology_map::seal;

/// The image of a speed map: length and CRC; the generation; the rows as big-endian quadlets, 16 a
/// node. The length of `rows` is a multiple of 64 and at most 4,032, the rows of 63 nodes.
/// `read_image` gives the rows and the generation back.
pub fn image(alloc: Global, rows: &[u8], generation: u32) -> Result<QuadList, OutOfMemory>
    requires whole { length rows.now % 64 ≡ 0 }
    requires few { length rows.now ≤ 4032 }
    ensures { IfOk result (λ quads. IsSealed (generation ∷ quads_of rows.now) quads) }
{
    let quads = quads_of(alloc, rows)?;
    let mut body = QuadList::new(alloc);
    body.push(generation)?;
    body.extend_from_slice(quads.as_slice())?;
    seal(alloc, body.as_slice())
}
