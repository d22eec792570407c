//! What a node is made of.
use port_state::{Coins, Timing};
use self_id::Attrs;

/// What a node is made of, at power-on.
#[derive(Debug, Drop)]
pub struct NodeSpec {
    /// The number of ports, 1 to 16.
    pub ports: u8,
    /// The attributes, which fit their bits, with a delay of 0. The gap count is that of power-on;
    /// the initiated bit isn't looked at.
    pub attrs: Attrs,
    /// The times.
    pub timing: Timing,
    /// Whether the node waits the force time before it asks for a parent, so that it becomes root.
    pub force: bool,
    /// The coins.
    pub coins: Coins,
}
