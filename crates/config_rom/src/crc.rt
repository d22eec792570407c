//! What is known of a CRC.
ghost use Rattle.std.specs.Prelude.{length};
ghost use Rattle.config_rom.specs.Crc.{IsCrcState, IsInfoCrc};

use crate::rom::Rom;
use topology_map::crc16;

/// What is known of a CRC that is kept.
#[derive(Clone, Copy, Debug, PartialEq, Eq)]
pub enum CrcState {
    /// It is the one that is computed.
    Good,
    /// Another one is computed.
    Bad { kept: u16, computed: u16 },
    /// There are fewer quadlets than it is over.
    Past,
}

/// What is known of the CRC that is kept for these quadlets.
pub(crate) fn crc_state(quads: &[u32], kept: u16) -> CrcState
    ensures { IsCrcState quads.now kept result }
{
    let computed = crc16(quads);
    if computed == kept {
        CrcState::Good
    } else {
        CrcState::Bad { kept, computed }
    }
}

impl Rom {
    /// What is known of the CRC in quadlet 0. `Past` comes where `crc_length` passes the quadlets
    /// behind quadlet 0. It takes no memory.
    pub fn info_crc(&self) -> CrcState
        ensures { IsInfoCrc self.now result }
    {
        let quads = self.quads();
        let behind = &quads[1..];
        let length = usize::from(self.crc_length());
        if behind.len() < length {
            return CrcState::Past;
        }
        crc_state(&behind[..length], (quads[0] % 0x1_0000) as u16)
    }
}
