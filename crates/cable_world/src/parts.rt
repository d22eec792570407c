//! The parts of a world, for worlds that go through them in their own way: wires, and what the nodes
//! do in a turn and in an act. `specs/running` has what their contracts cite.

pub use crate::acting::{act_world, hold_fault, is_memory};
pub use crate::all_nodes::{last_change, turn_nodes, turn_one, turn_wires, turn_world};
pub use crate::nodes::turn_node;
pub use crate::rows::{ArrivalRow, WireRow};
pub use crate::start::{arrival_rows, no_changes, port_counts, wire_rows};
pub use crate::steps::{NodeAct, step_both, step_node};
