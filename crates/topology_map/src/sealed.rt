//! Images: quadlets behind their length and CRC.
ghost use Rattle.std.specs.Prelude.{◌<◌, ◌^◌, length, IfOk};
ghost use Rattle.topology_map.specs.Sealed.{IsSealed};

use crate::crc::crc16;
use crate::fault::OutOfMemory;
use quad_lanes::QuadList;
use std::alloc::Global;

/// The image of a body: its length in quadlets (16 bits) and its CRC (16 bits) in one quadlet, and
/// then the body, which has less than 65,536 quadlets.
pub fn seal(alloc: Global, body: &[u32]) -> Result<QuadList, OutOfMemory>
    requires { length body.now < 2 ^ 16 }
    ensures { IfOk result (λ quads. IsSealed body.now quads) }
{
    let mut quads = QuadList::new(alloc);
    quads.push((body.len() as u32) * 0x1_0000 + u32::from(crc16(body)))?;
    quads.extend_from_slice(body)?;
    Ok(quads)
}
