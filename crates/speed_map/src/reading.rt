//! The image of a speed map, read back.
ghost use Rattle.std.specs.Prelude.{◌≡◌, ◌<◌, ℕ, All, List, Err, IfOk, IsOkAnd, MatchResult};
ghost use Rattle.speed_map.specs.Image.{IsImage, Refused};
ghost use Rattle.speed_map.specs.Answer.{IfFault, UnlessMemory};
ghost use Rattle.quad_lanes.specs.Pairs.{bytes_of};
ghost use Rattle.speed_map.specs.codings.Bytes.{TellsMap};
ghost use Rattle.speed_map.specs.declared.fault.ImageFault.{ImageFault};

use crate::fault::ImageFault;
use quad_lanes::OutOfMemory;
use std::alloc::Global;
use topology_map::crc16;

/// What an image of a speed map says.
#[derive(Debug, Drop)]
pub struct MapParts {
    /// How many times the bus was configured.
    pub generation: u32,
    /// The rows: 64 bytes a node, as `rows` answers them.
    pub rows: Vec<u8>,
}

/// The bytes of quadlets, the highest of each first.
fn bytes_of(alloc: Global, quads: &[u32]) -> Result<Vec<u8>, OutOfMemory>
    ensures { IfOk result (λ bytes. bytes.items ≡ bytes_of quads.now) }
{
    let mut bytes = Vec::new(alloc);
    for quad in quads {
        bytes.extend_from_slice(&quad.to_be_bytes())?;
    }
    Ok(bytes)
}

/// Refuses quadlets that are no image.
fn check(quads: &[u32]) -> Result<(), ImageFault>
    ensures { MatchResult result (λ _. TellsMap quads.now) (Refused quads.now) }
{
    if quads.len() < 2 || (quads[0] >> 16) as usize != quads.len() - 1 {
        return Err(ImageFault::Length { found: quads.len() });
    }
    let kept = (quads[0] % 0x1_0000) as u16;
    let computed = crc16(&quads[1..]);
    if kept != computed {
        return Err(ImageFault::Crc { kept, computed });
    }
    let found = quads[2..].len();
    if found % 16 != 0 || found > 1008 {
        return Err(ImageFault::Rows { found });
    }
    Ok(())
}

/// Reads the image of a speed map. `quads` is the whole image, its first quadlet with length and
/// CRC included.
///
/// The faults are looked for in the order `Length`, `Crc`, `Rows`. Which speeds the rows have isn't
/// looked at.
pub fn read_image(alloc: Global, quads: &[u32]) -> Result<MapParts, ImageFault>
    // The quadlets are the image of the parts that are answered.
    ensures found { IfOk result (λ parts. IsImage parts.generation parts.rows.items quads.now) }
    // The parts of an image are answered, unless memory ran out.
    ensures only { (generation : ℕ) (rows : List ℕ) → All (λ b. b < 256) rows →
        IsImage generation rows quads.now →
        UnlessMemory result (λ r. IsOkAnd r (λ parts.
        (parts.generation ≡ generation) × (parts.rows.items ≡ rows))) }
    // A fault that is answered is the quadlets', and their fault is answered, which takes no memory.
    ensures refused { IfFault result (λ f. Refused quads.now f) }
    ensures exact { (f : ImageFault) → Refused quads.now f → result ≡ Err f }
{
    check(quads)?;
    let rows = bytes_of(alloc, &quads[2..])?;
    Ok(MapParts {
        generation: quads[1],
        rows,
    })
}
