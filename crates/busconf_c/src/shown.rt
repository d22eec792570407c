//! A bus tree as records.
ghost use Rattle.std.specs.Prelude.{◌≡◌, ℕ, ◌<◌, ◌≤◌, length, slice_index_or};
ghost use Rattle.topology_stack.specs.Tree.{walk};
ghost use Rattle.c_records.specs.Shown.{no_slot, IsSlotOf, IsNodeRecord, IsBusRecord, AreNodesShown};

use c_records::{
    BusRecord, MAX_SLOTS, NO_SLOT, NodeRecord, SlotRecord, id_or_none, said, slot_record,
};
use topology_stack::{BusTree, elect};

/// The records of the slots of the node with this ID.
fn slot_records(tree: &BusTree, id: u8) -> [SlotRecord; MAX_SLOTS]
    requires { id < length (walk tree.now) }
    ensures { (k : ℕ) → k < 27 → IsSlotOf tree.now id k (slice_index_or result k no_slot) }
{
    let mut slots = [NO_SLOT; MAX_SLOTS];
    let ports = tree.node(id).ports.as_slice();
    for (slot, status) in ports.iter().enumerate() {
        slots[slot] = slot_record(*status, tree.far(id, slot as u8));
    }
    slots
}

/// The record of the node with this ID.
fn node_record(tree: &BusTree, id: u8) -> NodeRecord
    requires { id < length (walk tree.now) }
    ensures { IsNodeRecord tree.now id result }
{
    said(id, tree.node(id), slot_records(tree, id))
}

/// Writes the records of all nodes by ID, and leaves what stands behind them.
pub(crate) fn show_nodes(tree: &BusTree, nodes: &mut [NodeRecord])
    requires { length (walk tree.now) ≤ length nodes.old }
    ensures { AreNodesShown tree.now nodes.old nodes.new }
{
    for id in 0..tree.len() {
        nodes[id as usize] = node_record(tree, id);
    }
}

/// The record of a bus.
pub(crate) fn bus_record(tree: &BusTree) -> BusRecord
    ensures { IsBusRecord tree.now result }
{
    BusRecord {
        nodes: tree.len(),
        root: tree.root(),
        manager: id_or_none(elect(tree)),
    }
}
