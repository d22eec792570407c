//! Why quadlets are no image of a topology map.
ghost use Rattle.std.specs.Prelude.{◌≡◌};

pub use quad_lanes::OutOfMemory;

/// The first rule that quadlets break which are no image of a topology map.
#[derive(Debug, Drop)]
pub enum ImageFault {
    /// There are fewer than 3 quadlets, or the first 16 bits aren't the number of those after the
    /// first. `found` counts all quadlets.
    Length { found: usize },
    /// The CRC that the first quadlet keeps isn't the one computed over the quadlets after it.
    Crc { kept: u16, computed: u16 },
    /// The third quadlet isn't the counts found behind it: of packet zeros in the high 16 bits, of
    /// quadlets in the low 16.
    Counts { kept: u32, found: u32 },
    /// There was no memory for the list.
    Memory(OutOfMemory),
}

impl From<OutOfMemory> for ImageFault {
    ghost use Rattle.topology_map.specs.declared.fault.ImageFault.TheVariants.{Memory};

    ghost from_gives = { λ e fault. fault ≡ Memory e };

    fn from(e: OutOfMemory) -> ImageFault {
        ImageFault::Memory(e)
    }
}
