//! Ends of cables, and refusals.

/// One port of one node.
#[derive(Clone, Copy, Debug, PartialEq, Eq)]
pub struct End {
    /// The number of the node, from 0.
    pub node: u8,
    /// The number of the port on its node, from 0.
    pub port: u8,
}

/// A cable, by its two ends.
#[derive(Clone, Copy, Debug, PartialEq, Eq)]
pub struct Cable {
    pub a: End,
    pub b: End,
}

/// Why a cable could not be plugged or pulled.
#[derive(Clone, Copy, Debug, PartialEq, Eq)]
pub enum CableFault {
    /// There is no such node.
    NoNode { end: End },
    /// The node has no such port.
    NoPort { end: End },
    /// A cable is in this port already.
    InUse { end: End },
    /// Both ends are on this node.
    SameNode { node: u8 },
    /// No cable is in this port.
    NotPlugged { end: End },
}
