//! The cables of a bus tree.
ghost use Rattle.std.specs.Prelude.{◌≡◌, ℕ, ◌+◌, ◌<◌, ◌≤◌, ◌++◌, List, [], Option, Some, length, slice_get, IfOk, OnOk, IfSome};
ghost use Rattle.self_id.specs.Node.{Node};
ghost use Rattle.topology_stack.specs.Tree.{walk};
ghost use Rattle.topology_stack.specs.Far.{ends};
ghost use Rattle.view_text.specs.Cable.{first_up, up_of, speed_of, cable_to, cable_at, cables_of, cables};

use self_id::PortStatus;
use std::alloc::Global;
use topology_stack::{BusTree, OutOfMemory};

/// A cable of a bus tree.
#[derive(Clone, Copy, Debug, PartialEq, Eq)]
pub struct Cable {
    /// The ID of the node nearer to the root.
    pub parent: u8,
    /// The port of the parent.
    pub port: u8,
    /// The ID of the node further from the root.
    pub child: u8,
    /// The port of the child.
    pub child_port: u8,
    /// The less of both nodes' speed codes: 0 for S100, 1 for S200, 2 for S400. The code 3, which
    /// later standards use, counts as 2.
    pub speed: u8,
}

/// The number of the first slot that is up, 0 where there is none.
fn first_up(ports: &[PortStatus]) -> u8
    requires { length ports.now ≤ 255 }
    ensures { result ≡ first_up 0 ports.now }
{
    for (slot, port) in ports.iter().enumerate() {
        if let PortStatus::Up = port {
            return slot as u8;
        }
    }
    0
}

/// The port of the node with this ID that leads to its parent.
fn up_port(tree: &BusTree, id: u8) -> u8
    ensures { result ≡ up_of (slice_get (walk tree.now) id) }
{
    if id < tree.len() {
        first_up(tree.node(id).ports.as_slice())
    } else {
        0
    }
}

/// The speed code of the node with this ID.
fn speed_at(tree: &BusTree, id: u8) -> u8
    ensures { result ≡ speed_of (slice_get (walk tree.now) id) }
{
    if id < tree.len() {
        tree.node(id).attrs.speed.min(2)
    } else {
        0
    }
}

/// The cable from a port of a node to this child.
pub(crate) fn cable_to(tree: &BusTree, id: u8, slot: u8, child: u8) -> Cable
    ensures { result ≡ cable_to tree.now id slot child }
{
    Cable {
        parent: id,
        port: slot,
        child,
        child_port: up_port(tree, child),
        speed: speed_at(tree, id).min(speed_at(tree, child)),
    }
}

/// Appends the cable of a slot, where the slot is down.
fn put_cable(
    list: &mut Vec<Cable>,
    tree: &BusTree,
    id: u8,
    slot: u8,
    port: PortStatus,
    far: Option<u8>,
) -> Result<(), OutOfMemory>
    ensures { OnOk result (list.new.items
        ≡ list.old.items ++ cable_at tree.now id slot port far) }
{
    if let (PortStatus::Down, Some(child)) = (port, far) {
        list.push(cable_to(tree, id, slot, child))?;
    }
    Ok(())
}

/// Appends the cables of the slots of a node.
fn put_cables(list: &mut Vec<Cable>, tree: &BusTree, id: u8) -> Result<(), OutOfMemory>
    requires { id < length (walk tree.now) }
    ensures { OnOk result ((n : Node) (es : List (Option ℕ)) →
        slice_get (walk tree.now) id ≡ Some n → slice_get (ends tree.now) id ≡ Some es →
        list.new.items ≡ list.old.items ++ cables_of tree.now id 0 n.ports es) }
{
    let ports = tree.node(id).ports.as_slice();
    for (slot, port) in ports.iter().enumerate() {
        let far = tree.far(id, slot as u8);
        put_cable(list, tree, id, slot as u8, *port, far)?;
    }
    Ok(())
}

/// The cables of a tree, by rising ID of the parent and by its port.
pub fn cables(alloc: Global, tree: &BusTree) -> Result<Vec<Cable>, OutOfMemory>
    ensures { IfOk result (λ list. list.items ≡ cables tree.now) }
{
    let mut list = Vec::new(alloc);
    for id in 0..tree.len() {
        put_cables(&mut list, tree, id)?;
    }
    Ok(list)
}
