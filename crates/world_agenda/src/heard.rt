//! Which nodes hear something in a turn, and at which of their ports.
ghost use Rattle.std.specs.Prelude.{◌≡◌, ◌<◌, ℕ, length, slice_index_or, IfSome};
ghost use Rattle.cabling.specs.NodeSet.{Holds, IsWithin};
ghost use Rattle.world_agenda.specs.Agenda.{AreBelow};
ghost use Rattle.world_agenda.specs.Live.{GiveNoneBut, RestBut};
ghost use Rattle.world_agenda.specs.Heard.{IsHeard, StayHeard, GivesBut, AreSparedBut, SendsBut, AwaitNoneBut};

use cable_world::parts::{ArrivalRow, WireRow};
use cabling::{Cabling, End, NodeSet, cables_are_two_ended};
use port_state::PortSet;

/// The nodes that hear something in a turn, and for each node the ports at which it does.
#[derive(Drop)]
pub struct Heard {
    pub nodes: NodeSet,
    ports: [PortSet; 63],
}

impl Heard {
    /// Nothing is heard.
    pub(crate) fn none() -> Heard
        ensures { result.nodes ≡ 0 }
    {
        Heard {
            nodes: NodeSet::none(),
            ports: [PortSet::none(); 63],
        }
    }

    /// At which of its ports a node, 0 to 62, hears something.
    pub fn at(&self, node: u8) -> PortSet
        requires { node < 63 }
        ensures { result ≡ slice_index_or self.now.ports node 0 }
    {
        self.ports[node as usize]
    }

    /// Marks a far end, if there is one: of node 0 to 62 the port 0 to 15.
    fn mark(&mut self, far: Option<End>)
        requires node { IfSome far (λ end. end.node < 63) }
        requires port { IfSome far (λ end. end.port < 16) }
        ensures heard { IfSome far (λ end. IsHeard self.new end) }
        ensures kept { StayHeard self.old self.new }
        ensures below { (count : ℕ) → IfSome far (λ end. end.node < count) →
            AreBelow self.old.nodes count → AreBelow self.new.nodes count }
    {
        if let Some(End { node, port }) = far {
            self.nodes.insert(node);
            self.ports[node as usize].insert(port);
        }
    }
}

/// Marks the ends at which something arrives from the wires of a node. The node exists.
fn mark_from(cabling: &Cabling, node: u8, row: &ArrivalRow, heard: &mut Heard)
    requires exists { node < length cabling.now }
    requires below { AreBelow heard.old.nodes (length cabling.now) }
    ensures gives { GivesBut heard.new cabling.now node row.now }
    ensures kept { StayHeard heard.old heard.new }
    ensures below { AreBelow heard.new.nodes (length cabling.now) }
{
    cables_are_two_ended(cabling);
    let gives = row.ports();
    let ports = cabling.ports(node);
    let mut port = 0;
    while let Some(next) = gives.next_from(port) {
        if next >= ports {
            break;
        }
        heard.mark(cabling.far(End { node, port: next }));
        port = next + 1;
    }
}

/// Marks in `heard`, where nothing is marked yet, which nodes hear something, and at which ports. From
/// the wires of the nodes that aren't in `givers` nothing arrives.
pub fn hearers(cabling: &Cabling, arrivals: &[ArrivalRow], givers: NodeSet, heard: &mut Heard)
    requires unmarked { heard.old.nodes ≡ 0 }
    requires nodes { length arrivals.now ≡ length cabling.now }
    requires near { AreBelow givers (length arrivals.now) }
    requires none { GiveNoneBut givers arrivals.now }
    ensures spared { AreSparedBut heard.new arrivals.now cabling.now }
    ensures below { AreBelow heard.new.nodes (length cabling.now) }
{
    cables_are_two_ended(cabling);
    let mut left = givers;
    while let Some(node) = left.take_least() {
        mark_from(cabling, node, &arrivals[node as usize], heard);
    }
}

// ---- what is under way

/// Takes the node at the far end of a wire, if there is one, into a set where so many signals are under
/// way on the wire.
fn mark_far(far: Option<End>, count: usize, nodes: &mut NodeSet)
    requires { IfSome far (λ end. end.node < 63) }
    ensures holds { 0 < count → IfSome far (λ end. Holds nodes.new end.node) }
    ensures kept { IsWithin nodes.old nodes.new }
{
    if count > 0 {
        if let Some(end) = far {
            nodes.insert(end.node);
        }
    }
}

/// Takes the nodes to which something is under way on the wires of a node into a set. The node exists.
fn mark_awaiting(cabling: &Cabling, node: u8, row: &WireRow, nodes: &mut NodeSet)
    requires exists { node < length cabling.now }
    ensures sends { SendsBut nodes.new cabling.now node row.now }
    ensures kept { IsWithin nodes.old nodes.new }
{
    cables_are_two_ended(cabling);
    for port in 0..cabling.ports(node) {
        mark_far(cabling.far(End { node, port }), row.count(port), nodes);
    }
}

/// The nodes to which something is under way. The wires of the nodes that aren't in `live` are at rest.
pub fn awaiting(cabling: &Cabling, wires: &[WireRow], live: NodeSet) -> NodeSet
    requires nodes { length wires.now ≡ length cabling.now }
    requires near { AreBelow live (length wires.now) }
    requires rest { RestBut live wires.now }
    ensures { AwaitNoneBut result wires.now cabling.now }
{
    let mut nodes = NodeSet::none();
    let mut left = live;
    while let Some(node) = left.take_least() {
        mark_awaiting(cabling, node, &wires[node as usize], &mut nodes);
    }
    nodes
}
