//! What C sees of packets, readers and registers: numbers, in the order of `include/busconf.h`.

/// How many quadlets a reader keeps: one more than any bus tree emits, 63 groups of four packets.
pub const READER_QUADS: usize = 253;

/// A PHY packet. A field that its kind doesn't have is 0.
#[repr(C)]
#[derive(Clone, Copy, Debug, PartialEq, Eq)]
pub struct PacketRecord {
    /// The bits behind the fields of a configuration or link-on packet; the whole quadlet of an
    /// extended or an undefined one.
    pub rest: u32,
    /// The eight port fields of a further self-ID packet, the first at the top.
    pub fields: u16,
    /// The number of the kind.
    pub kind: u8,
    /// phy_ID, or root_ID of a configuration packet.
    pub phy_id: u8,
    /// R of a configuration packet.
    pub force: u8,
    /// T of a configuration packet.
    pub set_gap: u8,
    /// gap_cnt.
    pub gap: u8,
    /// L of packet zero.
    pub link: u8,
    /// sp of packet zero.
    pub speed: u8,
    /// The two bits of packet zero behind sp.
    pub delay: u8,
    /// c of packet zero.
    pub contender: u8,
    /// pwr of packet zero.
    pub power: u8,
    /// The port field p0 of packet zero.
    pub p0: u8,
    /// The port field p1 of packet zero.
    pub p1: u8,
    /// The port field p2 of packet zero.
    pub p2: u8,
    /// i of packet zero.
    pub initiated: u8,
    /// m of a self-ID packet.
    pub more: u8,
    /// n of a further self-ID packet.
    pub n: u8,
    /// The two reserved bits of a further self-ID packet.
    pub kept: u8,
    /// r of a further self-ID packet.
    pub r: u8,
}

/// A reader.
#[repr(C)]
#[derive(Clone, Copy, Debug, PartialEq, Eq)]
pub struct ReaderRecord {
    /// How many quadlets it keeps.
    pub count: u32,
    /// The quadlets, the first ones of the list.
    pub quads: [u32; READER_QUADS],
}

/// The four registers of an isochronous resource manager. Of a value past its register's width the low
/// bits count.
#[repr(C)]
#[derive(Clone, Copy, Debug, PartialEq, Eq)]
pub struct RegistersRecord {
    /// BUS_MANAGER_ID, 6 bits.
    pub bus_manager_id: u32,
    /// BANDWIDTH_AVAILABLE, 13 bits.
    pub bandwidth_available: u32,
    /// CHANNELS_AVAILABLE_HI, 32 bits.
    pub channels_available_hi: u32,
    /// CHANNELS_AVAILABLE_LO, 32 bits.
    pub channels_available_lo: u32,
}

/// The response to an access.
#[repr(C)]
#[derive(Clone, Copy, Debug, PartialEq, Eq)]
pub struct ReplyRecord {
    /// The value that a read or a lock found; 0 where it was refused.
    pub value: u32,
    /// The response code: complete 0, type error 6, address error 7.
    pub rcode: u8,
}

/// What was seen of the bandwidth and the channels.
#[repr(C)]
#[derive(Clone, Copy, Debug, PartialEq, Eq)]
pub struct SeenRecord {
    /// The value of BANDWIDTH_AVAILABLE.
    pub bandwidth: u32,
    /// The value of CHANNELS_AVAILABLE_HI.
    pub hi: u32,
    /// The value of CHANNELS_AVAILABLE_LO.
    pub lo: u32,
}

/// Why an allocation or a release was refused.
#[repr(C)]
#[derive(Clone, Copy, Debug, PartialEq, Eq)]
pub struct GrantRecord {
    /// The bandwidth seen, or the offset of the register that changed, or 0.
    pub detail: u32,
    /// The value that this register holds now, or 0.
    pub now: u32,
    /// The number of the kind.
    pub kind: u8,
}

/// What stands for a number of an event where there is none.
pub const NUMBER_NONE: u32 = 4_294_967_295;

/// An event of a trace.
#[repr(C)]
#[derive(Clone, Copy, Debug, PartialEq, Eq)]
pub struct EventRecord {
    /// Where the name of the node begins in the text, in bytes from 0.
    pub name: usize,
    /// How many bytes that name has.
    pub name_length: usize,
    /// Where the name of a second node begins, or 0.
    pub other: usize,
    /// How many bytes that name has, or 0.
    pub other_length: usize,
    /// How many turns are done.
    pub turn: u32,
    /// The port of the node, where the kind has one, else 0.
    pub port: u32,
    /// The port of the second node, where the kind has one, else 0.
    pub other_port: u32,
    /// What the kind says, else 0.
    pub value: u32,
    /// What the kind says, else 0.
    pub second: u32,
    /// The number of the kind.
    pub kind: u8,
}
