//! The nodes at which something may happen in an act.
ghost use Rattle.std.specs.Prelude.{◌≡◌, ◌⊎◌, ◌<◌, ℕ, IsSomeAnd, length};
ghost use Rattle.cabling.specs.NodeSet.{Holds, IsWithin};
ghost use Rattle.cabling.specs.Wiring.{far};
ghost use Rattle.script_trace.specs.ActTouches.{TakesTouched, TouchesAtMost};

use cable_world::Act;
use cabling::{Cabling, End, NodeSet};
use world_laws::acts_by_number;

/// Takes a node into a set, if it is one of 63.
fn take(nodes: &mut NodeSet, node: u8)
    ensures holds { node < 63 → Holds nodes.new node }
    ensures kept { IsWithin nodes.old nodes.new }
{
    if node < 63 {
        nodes.insert(node);
    }
}

/// The set of two nodes of 63.
fn pair(a: u8, b: u8) -> NodeSet
    ensures { (k : ℕ) → k < 63 → (k ≡ a) ⊎ (k ≡ b) → Holds result k }
{
    let mut nodes = NodeSet::none();
    take(&mut nodes, a);
    take(&mut nodes, b);
    nodes
}

/// The node at the far end of the cable at an end, or the end's own where there is none.
fn far_node(cabling: &Cabling, end: End) -> u8
    ensures { (k : ℕ) → IsSomeAnd (far cabling.now end) (λ b. k ≡ b.node) → k ≡ result }
{
    if end.node < cabling.nodes() && end.port < cabling.ports(end.node) {
        if let Some(far) = cabling.far(end) {
            return far.node;
        }
    }
    end.node
}

/// The set of the two nodes of the cable at an end, of 63 nodes; of the end's own where there is none.
fn cable_nodes(cabling: &Cabling, end: End) -> NodeSet
    ensures { (k : ℕ) → k < 63 →
        (k ≡ end.node) ⊎ IsSomeAnd (far cabling.now end) (λ b. k ≡ b.node) → Holds result k }
{
    pair(end.node, far_node(cabling, end))
}

/// The nodes at which an act may do something, of 63 at most.
fn nodes_of(cabling: &Cabling, act: &Act) -> NodeSet
    ensures { TakesTouched act.now cabling.now result }
{
    let count = cabling.nodes();
    match act {
        Act::Plug { a, b } => pair(a.node, b.node),
        Act::Pull { end } => cable_nodes(cabling, *end),
        Act::Reset { node } => pair(*node, *node),
        Act::Config { .. } => NodeSet::first(count),
    }
}

/// The nodes at which something may happen in an act between two turns. It is known of the others that they
/// show nothing new after it.
pub fn touched_by(cabling: &Cabling, act: &Act) -> NodeSet
    ensures { TouchesAtMost act.now cabling.now result }
{
    acts_by_number();
    nodes_of(cabling, act)
}
