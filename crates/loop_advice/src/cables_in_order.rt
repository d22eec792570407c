//! The cables of a component in their order.
ghost use Rattle.std.specs.Prelude.{◌<◌, ◌+◌, ℕ, length, IfOk, OnOk, MatchOption};
ghost use Rattle.cabling.specs.Wiring.{HasEnd};
ghost use Rattle.cabling.specs.NodeSet.{Holds};
ghost use Rattle.cabling.specs.Component.{IsClosed, IsComponent};
ghost use Rattle.loop_advice.specs.Order.{AreInOrder};
ghost use Rattle.loop_advice.specs.codings.Collected.{Collected, StartsAt, NoneStartsAt};

use crate::cable_list::CableList;
use cabling::{Cable, Cabling, End, NodeSet, OutOfMemory, cables_are_two_ended};
use std::alloc::Global;

/// The cable at an end, if this is its lower end. The end exists.
fn cable_from(cabling: &Cabling, end: End) -> Option<Cable>
    requires { HasEnd cabling.now end }
    ensures { MatchOption result (NoneStartsAt cabling.now end) (λ x. StartsAt cabling.now end x) }
{
    match cabling.far(end) {
        Some(other) => {
            if end.node < other.node {
                Some(Cable { a: end, b: other })
            } else {
                None
            }
        }
        None => None,
    }
}

/// Appends the cables whose lower end is at a node, which exists, if the node is in the set. No
/// cable leads out of the set.
fn push_cables(
    cabling: &Cabling,
    set: NodeSet,
    node: u8,
    list: &mut CableList,
) -> Result<(), OutOfMemory>
    requires there { node < length cabling.now }
    requires closed { IsClosed cabling.now set }
    requires before { Collected cabling.now set node 0 list.old }
    ensures { OnOk result (Collected cabling.now set (node + 1) 0 list.new) }
{
    cables_are_two_ended(cabling);
    if !set.has(node) {
        return Ok(());
    }
    for port in 0..cabling.ports(node) {
        if let Some(cable) = cable_from(cabling, End { node, port }) {
            list.push(cable)?;
        }
    }
    Ok(())
}

/// The cables of a set of nodes, each with its end at the lower node first, in the order of these
/// ends. The nodes of the set exist, and no cable leads out of it.
pub(crate) fn cables_within(
    alloc: Global,
    cabling: &Cabling,
    set: NodeSet,
) -> Result<CableList, OutOfMemory>
    requires { IsClosed cabling.now set }
    ensures { IfOk result (λ list. AreInOrder cabling.now set list) }
{
    cables_are_two_ended(cabling);
    let mut list = CableList::new(alloc);
    for node in 0..cabling.nodes() {
        push_cables(cabling, set, node, &mut list)?;
    }
    Ok(list)
}

/// The cables of a node's component, each with its end at the lower node first, in the order of
/// these ends. The node exists. `Err` means that there is no memory for the list.
pub fn cables_of(alloc: Global, cabling: &Cabling, node: u8) -> Result<CableList, OutOfMemory>
    requires { node < length cabling.now }
    ensures { IfOk result (λ list.
        (set : ℕ) → IsComponent cabling.now node set → AreInOrder cabling.now set list) }
{
    cables_within(alloc, cabling, cabling.component(node))
}
