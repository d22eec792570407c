//! What C sees of plans, changes and ROMs: numbers, in the order of `include/busconf.h`.

/// A root and the packet that makes it root.
#[repr(C)]
#[derive(Clone, Copy, Debug, PartialEq, Eq)]
pub struct PlanRecord {
    /// The first quadlet of the PHY configuration packet.
    pub packet: u32,
    /// The ID of the root.
    pub root: u8,
    /// The hops of the bus.
    pub hops: u8,
    /// The gap count for them.
    pub gap: u8,
    /// The reach of the root.
    pub reach: u8,
}

/// A cable of a bus, or none: then both IDs are 63, and the other numbers 0.
#[repr(C)]
#[derive(Clone, Copy, Debug, PartialEq, Eq)]
pub struct CableRecord {
    /// The ID of the node nearer to the root.
    pub parent: u8,
    /// The port of that node.
    pub port: u8,
    /// The ID of the node further from the root.
    pub child: u8,
    /// The port of that node.
    pub child_port: u8,
    /// The less of both nodes' speed codes, where 3 counts as 2.
    pub speed: u8,
}

/// Something that differs between two buses.
#[repr(C)]
#[derive(Clone, Copy, Debug, PartialEq, Eq)]
pub struct ChangeRecord {
    /// The number of its kind, from 1.
    pub kind: u8,
    /// The ID of the node in the old bus, or 63 where there is none.
    pub old_id: u8,
    /// The ID of the node in the new bus, or 63 where there is none.
    pub new_id: u8,
    /// What the node said of itself in the old bus, where the kind has it, else 0.
    pub old_value: u8,
    /// What the node says of itself in the new bus, where the kind has it, else 0.
    pub new_value: u8,
    /// The cable of the old bus on which the node hung, where the kind has it.
    pub old_cable: CableRecord,
    /// The cable of the new bus on which the node hangs, where the kind has it.
    pub new_cable: CableRecord,
}

/// A block of a configuration ROM.
#[repr(C)]
#[derive(Clone, Copy, Debug, PartialEq, Eq)]
pub struct BlockRecord {
    /// The place of its header, in quadlets from 0.
    pub at: u16,
    /// How many quadlets stand behind its header.
    pub length: u16,
    /// The CRC that its header keeps, where another one is computed, or 0.
    pub kept: u16,
    /// The CRC that is computed, where another one is kept, or 0.
    pub computed: u16,
    /// The number of its kind: 1 a directory, 2 a leaf.
    pub kind: u8,
    /// What is known of its CRC: 1 good, 2 bad, 3 over more quadlets than there are.
    pub crc: u8,
}

/// Why bytes are no configuration ROM, or a ROM's blocks can't be told.
#[repr(C)]
#[derive(Clone, Copy, Debug, PartialEq, Eq)]
pub struct RomFaultRecord {
    /// The place, in quadlets from 0.
    pub at: usize,
    /// What was found in place of the bus's name, or 0.
    pub found: u32,
    /// The number of the kind.
    pub kind: u8,
}
