//! What C sees of a bus: numbers, in the order of `include/busconf.h`.

/// How many slots a node has at most.
pub const MAX_SLOTS: usize = 27;

/// A slot of a node.
#[repr(C)]
#[derive(Clone, Copy, Debug, PartialEq, Eq)]
pub struct SlotRecord {
    /// The two bits of the port status: 0 absent, 1 unplugged, 2 up to the parent, 3 down to a child.
    pub status: u8,
    /// The ID of the node at the other end, or 63 where there is none.
    pub peer: u8,
}

/// A node of a bus.
#[repr(C)]
#[derive(Clone, Copy, Debug, PartialEq, Eq)]
pub struct NodeRecord {
    /// The node's ID.
    pub id: u8,
    /// 1 where the link is active, else 0.
    pub link: u8,
    /// The gap count, 0 to 63.
    pub gap: u8,
    /// The speed code, 0 to 3.
    pub speed: u8,
    /// 1 where the node may become isochronous resource manager, else 0.
    pub contender: u8,
    /// The power class, 0 to 7.
    pub power: u8,
    /// 1 where the node initiated the bus reset, else 0.
    pub initiated: u8,
    /// How many slots the node has.
    pub slot_count: u8,
    /// The slots by number. Those behind the last have status 0 and lead nowhere.
    pub slots: [SlotRecord; MAX_SLOTS],
}

/// A bus.
#[repr(C)]
#[derive(Clone, Copy, Debug, PartialEq, Eq)]
pub struct BusRecord {
    /// The number of nodes, 1 to 63.
    pub nodes: u8,
    /// The ID of the root.
    pub root: u8,
    /// The ID of the isochronous resource manager, or 63 where there is none.
    pub manager: u8,
}

/// A fault.
#[repr(C)]
#[derive(Clone, Copy, Debug, PartialEq, Eq)]
pub struct FaultRecord {
    /// The place, in quadlets from 0.
    pub at: usize,
    /// The number of the kind.
    pub kind: u8,
    /// What was found, or 0.
    pub found: u8,
    /// What was wanted, or 0.
    pub wanted: u8,
}
