//! Which registers there are.
ghost use Rattle.std.specs.Prelude.{◌≡◌, ◌<◌, ◌≤◌};
ghost use Rattle.resource_manager.specs.Register.{layout, register_at, cut};
ghost use Rattle.resource_manager.specs.Channel.{register_of};

/// A register of the isochronous resource manager.
#[derive(Clone, Copy, PartialEq, Eq, Debug)]
pub enum Register {
    /// BUS_MANAGER_ID: the physical ID of the bus manager, or 0x3F while there is none.
    BusManagerId,
    /// BANDWIDTH_AVAILABLE: the bandwidth that is left, in allocation units of about 20 nanoseconds
    /// in each cycle of 125 microseconds.
    BandwidthAvailable,
    /// CHANNELS_AVAILABLE_HI: a bit for each of the channels 0 to 31, from the top; 1 means free.
    ChannelsAvailableHi,
    /// CHANNELS_AVAILABLE_LO: a bit for each of the channels 32 to 63, from the top; 1 means free.
    ChannelsAvailableLo,
}

impl Register {
    /// The register at an offset in the CSR space, or `None` where there is none of the four.
    pub fn at(offset: u32) -> Option<Register>
        ensures { result ≡ register_at offset }
    {
        match offset {
            0x21C => Some(Register::BusManagerId),
            0x220 => Some(Register::BandwidthAvailable),
            0x224 => Some(Register::ChannelsAvailableHi),
            0x228 => Some(Register::ChannelsAvailableLo),
            _ => None,
        }
    }

    /// The register with the bit of a channel.
    pub fn of_channel(channel: u8) -> Register
        requires { channel ≤ 63 }
        ensures { result ≡ register_of channel }
    {
        if channel < 32 {
            Register::ChannelsAvailableHi
        } else {
            Register::ChannelsAvailableLo
        }
    }

    /// The register's offset in the CSR space.
    pub fn offset(self) -> u32
        ensures { result ≡ (layout self).offset }
    {
        match self {
            Register::BusManagerId => 0x21C,
            Register::BandwidthAvailable => 0x220,
            Register::ChannelsAvailableHi => 0x224,
            Register::ChannelsAvailableLo => 0x228,
        }
    }

    /// The value that a bus reset restores.
    pub fn initial(self) -> u32
        ensures { result ≡ (layout self).initial }
    {
        match self {
            Register::BusManagerId => 0x3F,
            Register::BandwidthAvailable => 4915,
            Register::ChannelsAvailableHi | Register::ChannelsAvailableLo => u32::MAX,
        }
    }

    /// What the register keeps of a new value: its low 6, 13 or 32 bits.
    pub fn cut(self, value: u32) -> u32
        ensures { result ≡ cut self value }
    {
        match self {
            Register::BusManagerId => value & 0x3F,
            Register::BandwidthAvailable => value & 0x1FFF,
            Register::ChannelsAvailableHi | Register::ChannelsAvailableLo => value,
        }
    }
}
