//! Why bytes are no configuration ROM, or a ROM's blocks can't be told.
ghost use Rattle.std.specs.Prelude.{◌≡◌};

use quad_lanes::OutOfMemory;
use thiserror::Error;

/// The first rule that bytes, or the blocks of a ROM, break. `at` counts quadlets from 0.
#[derive(Clone, Copy, Debug, PartialEq, Eq)]
pub enum RomFault {
    /// The bytes end within a quadlet, after so many whole ones.
    RomLength { at: usize },
    /// There are more than 256 quadlets; `at` is 256.
    RomTooLong { at: usize },
    /// There is no quadlet; `at` is 0.
    RomEmpty { at: usize },
    /// The first byte is 0, so there is no bus information block; `at` is 0.
    NoInfo { at: usize },
    /// The first byte is 1: this is a minimal ROM, of one quadlet; `at` is 0.
    Minimal { at: usize },
    /// The bus information block or the root directory isn't whole; `at` is the number of quadlets.
    RomCut { at: usize },
    /// Quadlet 1, which was `found`, isn't the name of this bus, 0x31333934; `at` is 1.
    BusName { at: usize, found: u32 },
    /// The block at this place, or its header, isn't inside of the ROM.
    Outside { at: usize },
    /// The entry of a directory at this place leads to itself.
    SelfTarget { at: usize },
}

/// Why a call answers no ROM, or no blocks.
#[derive(Debug, Drop, Error)]
pub enum RomStop {
    /// A rule is broken.
    #[error("refused: {0:?}")]
    Fault(RomFault),
    /// There was no memory.
    #[error("out of memory")]
    Memory(OutOfMemory),
}

impl From<OutOfMemory> for RomStop {
    ghost use Rattle.config_rom.specs.declared.fault.RomStop.TheVariants.{Memory};

    ghost from_gives = { λ error stop. stop ≡ Memory error };

    fn from(error: OutOfMemory) -> RomStop {
        RomStop::Memory(error)
    }
}
