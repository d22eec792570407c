//! Whether two nodes of a component contend without end.
ghost use Rattle.std.specs.Prelude.{◌<◌, ◌↔◌, ℕ, IfSome, IfNone, IsTrue, length};
ghost use Rattle.cabling.specs.NodeSet.{Holds};
ghost use Rattle.cabling.specs.Component.{IsNeighbour};
ghost use Rattle.cable_world.specs.Lawful.{IsWellFormed};
ghost use Rattle.cable_world.specs.Outcome.{DrewAlike};
ghost use Rattle.settle.specs.codings.Reading.{Contend, IsLeastRival, HasNoRival, IsLeastPair, HasNoPair};

use cable_world::WorldRun;
use cabling::{Cabling, End, NodeSet};
use port_state::View;

/// Whether a cable leads from one node to another. The first exists.
fn are_neighbours(cabling: &Cabling, node: u8, other: u8) -> bool
    requires { node < length cabling.now }
    ensures { IsTrue result ↔ IsNeighbour cabling.now node other }
{
    for port in 0..cabling.ports(node) {
        match cabling.far(End { node, port }) {
            Some(end) => {
                if end.node == other {
                    return true;
                }
            }
            None => {}
        }
    }
    false
}

/// Whether two nodes drew 32 coins at least, and the same first 32.
fn drew_alike(view: &View, other: &View) -> bool
    ensures { IsTrue result ↔ DrewAlike view.now other.now }
{
    view.draws >= 32 && other.draws >= 32 && view.first_draws == other.first_draws
}

/// Whether a node and a later one are neighbours that drew alike.
fn contend<W: WorldRun>(world: &W, node: u8, other: u8) -> bool
    requires formed { IsWellFormed (W.world world.now) }
    requires there { node < length (W.world world.now).nodes }
    requires other { other < length (W.world world.now).nodes }
    ensures { IsTrue result ↔ Contend (W.world world.now) node other }
{
    node < other
        && are_neighbours(world.cabling(), node, other)
        && drew_alike(&world.view(node), &world.view(other))
}

/// The first node that a node contends with.
fn rival_of<W: WorldRun>(world: &W, node: u8) -> Option<u8>
    requires formed { IsWellFormed (W.world world.now) }
    requires there { node < length (W.world world.now).nodes }
    ensures first { IfSome result (λ other. IsLeastRival (W.world world.now) node other) }
    ensures none { IfNone result (HasNoRival (W.world world.now) node) }
{
    for other in 0..world.cabling().nodes() {
        if contend(world, node, other) {
            return Some(other);
        }
    }
    None
}

/// The first node of a set that contends with a later one, and the first that it contends with.
pub fn contention_in<W: WorldRun>(world: &W, set: NodeSet) -> Option<(u8, u8)>
    requires { IsWellFormed (W.world world.now) }
    ensures first { IfSome result (λ pair. IsLeastPair (W.world world.now) set pair.0 pair.1) }
    ensures none { IfNone result (HasNoPair (W.world world.now) set) }
{
    for node in 0..world.cabling().nodes() {
        if set.has(node) {
            if let Some(other) = rival_of(world, node) {
                return Some((node, other));
            }
        }
    }
    None
}
