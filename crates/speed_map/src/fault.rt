//! Why quadlets are no image of a speed map.
ghost use Rattle.std.specs.Prelude.{◌≡◌};

use quad_lanes::OutOfMemory;

/// The first rule that quadlets break which are no image of a speed map.
#[derive(Debug, Drop)]
pub enum ImageFault {
    /// There are fewer than 2 quadlets, or the first 16 bits aren't the number of those after the
    /// first. `found` counts all quadlets.
    Length { found: usize },
    /// The CRC that the first quadlet keeps isn't the one computed over the quadlets after it.
    Crc { kept: u16, computed: u16 },
    /// The quadlets behind the generation aren't 16 a row, of 63 rows at most. `found` counts them.
    Rows { found: usize },
    /// There was no memory for the rows.
    Memory(OutOfMemory),
}

impl From<OutOfMemory> for ImageFault {
    ghost use Rattle.speed_map.specs.declared.fault.ImageFault.TheVariants.{Memory};

    ghost from_gives = { λ e fault. fault ≡ Memory e };

    fn from(e: OutOfMemory) -> ImageFault {
        ImageFault::Memory(e)
    }
}
