//! The record of a node, for the crates that hold the steps of a machine. Other crates see a
//! machine by its calls.
use crate::timing::Timing;
use crate::view::View;
use arrayvec::ArrayVec;
use self_id::Attrs;

/// How many quadlets a list has at most: four for each of 63 nodes. No bus fills it, since a node
/// sends three self-ID packets at most.
pub const LIST_LIMIT: usize = 252;

/// The record of a node.
#[derive(Debug, Drop)]
pub struct NodeState {
    /// What the node shows.
    pub view: View,
    /// The first quadlets of the self-ID packets that were heard or sent since the last reset, the
    /// first of them first.
    pub list: ArrayVec<u32, LIST_LIMIT>,
    /// The attributes that the node was made with, of which the delay is 0. The gap count and the
    /// initiated bit that it shows are those of the view.
    pub attrs: Attrs,
    /// The times of the node.
    pub timing: Timing,
    /// The number of ports, 1 to 16.
    pub ports: u8,
    /// Whether the node sets its gap count back to 63 at the second reset without a new configuration
    /// packet.
    pub resets_gap: bool,
}
