//! Nodes, their ports, and the cables between them: which nodes belong together, where cables form
//! loops, and in which order the nodes of a tree identify themselves.
#![tactic(auto)]

mod cable;
mod component;
mod laws;
mod looped;
mod node_set;
mod tree;
mod visits;
mod walk;
mod wiring;

pub use cable::{Cable, CableFault, End};
pub use laws::{
    cablings_are_their_cables, components_are_whole, components_exist, cores_exist,
    cores_keep_without_other_cables, trees_are_seen_once, trees_have_leaves, trees_have_no_core,
    walks_hold_each_node_once,
};
pub use node_set::NodeSet;
pub use quad_lanes::OutOfMemory;
pub use tree::TreeFromFault;
pub use walk::{Cyclic, Walk};
pub use wiring::{Cabling, cables_are_two_ended};
