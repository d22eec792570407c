//! The nodes of a list as records, in memory of fixed size.
ghost use Rattle.std.specs.Prelude.{◌≡◌, ◌+◌, ◌<◌, ◌≤◌, ℕ, Some, IsSomeAnd, length, drop, slice_get, slice_index_or};
ghost use Rattle.self_id.specs.declared.standard.Standard.{Standard};
ghost use Rattle.self_id.specs.Node.{Node, downs};
ghost use Rattle.self_id.specs.Group.{group, BeginsWith};
ghost use Rattle.topology_stack.specs.Tree.{Tree, walk};
ghost use Rattle.topology_stack.specs.Stored.{ends_of};
ghost use Rattle.c_records.specs.Shown.{no_slot, IsSlotOf, IsNodeRecord, AreNodesShown};
ghost use Rattle.heapless_c.specs.Reading.{IsLinked, IsPlaced};

use crate::links::Links;
use c_records::{MAX_SLOTS, NO_SLOT, NodeRecord, SlotRecord, said, slot_record};
use self_id::{PortStatus, SelfId, Standard, count_down, read_group_of};

/// The ID at the other end of a slot, below a parent and above as many children as slots are down.
fn far_end(ports: &[PortStatus], slot: usize, parent: u8, children: &[u8]) -> Option<u8>
    requires inside { slot < length ports.now }
    requires children { length children.now ≡ downs ports.now }
    ensures { slice_get (ends_of parent children.now ports.now) slot ≡ Some result }
{
    match ports[slot] {
        PortStatus::Absent | PortStatus::Unplugged => None,
        PortStatus::Up => Some(parent),
        PortStatus::Down => Some(children[count_down(&ports[..slot])]),
    }
}

/// The records of the slots of a node, below a parent and above as many children as slots are down.
fn slot_records(node: &SelfId, parent: u8, children: &[u8]) -> [SlotRecord; MAX_SLOTS]
    requires { length children.now ≡ downs node.now.ports }
    ensures { (t : Tree) (id : ℕ) → IsPlaced t id node.now parent children.now → (k : ℕ) → k < 27
        → IsSlotOf t id k (slice_index_or result k no_slot) }
{
    let mut slots = [NO_SLOT; MAX_SLOTS];
    let ports = node.ports.as_slice();
    for (slot, status) in ports.iter().enumerate() {
        slots[slot] = slot_record(*status, far_end(ports, slot, parent, children));
    }
    slots
}

/// The record of a node with its ID, below a parent and above as many children as slots are down.
fn node_record(id: u8, node: &SelfId, parent: u8, children: &[u8]) -> NodeRecord
    requires { length children.now ≡ downs node.now.ports }
    ensures { (t : Tree) → IsPlaced t id node.now parent children.now → IsNodeRecord t id result }
{
    said(id, node, slot_records(node, parent, children))
}

/// The node with an ID whose group stands at a place of a list, and the place behind the group.
fn node_in(standard: Standard, quads: &[u32], at: usize, id: u8) -> (SelfId, usize)
    requires inside { at < length quads.now }
    requires id { id ≤ 62 }
    requires node { (n : Node) × BeginsWith standard (drop at quads.now) id n }
    ensures node { (n : Node) → BeginsWith standard (drop at quads.now) id n → result.0 ≡ n }
    ensures place { result.1 ≡ at + length (group result.0 id) }
{
    match read_group_of(standard, quads, at, id) {
        Ok(found) => found,
        Err(_) => unreachable!(),
    }
}

/// Writes the records of all nodes of a list's bus by ID, and leaves what stands behind them. There are
/// so many nodes, and they are linked.
pub(crate) fn show_nodes(
    standard: Standard,
    quads: &[u32],
    links: &Links,
    count: u8,
    nodes: &mut [NodeRecord],
)
    requires linked { (t : Tree) × (count ≡ length (walk t))
        × IsLinked standard quads.now links.now.parents.items links.now.children t }
    requires room { count ≤ length nodes.old }
    ensures { (t : Tree) → IsLinked standard quads.now links.now.parents.items links.now.children t
        → AreNodesShown t nodes.old nodes.new }
{
    let mut at = 0;
    for id in 0..count {
        let (node, after) = node_in(standard, quads, at, id);
        let parent = links.parents[id as usize];
        nodes[id as usize] = node_record(id, &node, parent, links.children.of(id as usize));
        at = after;
    }
}
