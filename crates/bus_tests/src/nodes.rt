//! Nodes that were just powered on, and worlds of them.
ghost use Rattle.std.specs.Prelude.{◌≡◌, ◌≤◌, All, IfOk, length};
ghost use Rattle.phy_machine.specs.Any.{any_node};
ghost use Rattle.phy_machine.specs.PowerOn.{IsSpec, node_of_spec};
ghost use Rattle.port_state.specs.Timing.{InRange};
ghost use Rattle.cable_world.specs.Times.{KeepsTime, longest_in_range};
ghost use Rattle.cable_world.specs.World.{IsNodeAtPowerOn};

use cable_world::{World, WorldRun};
use phy_machine::{AnyMachine, FieldMachine, NodeSpec, PackedMachine};
use port_state::{Coins, Timing};
use self_id::Attrs;
use std::alloc::{AllocError, Global};
use std::process::Abort;
use std::test::Fail;
use world_agenda::AgendaWorld;

/// What a node of a test is made of; the rest is usual.
#[derive(Clone, Copy)]
pub struct Node {
    pub ports: u8,
    pub coins: u64,
    pub contender: bool,
    pub link: bool,
    pub speed: u8,
}

/// A node of three ports that draws zeros.
pub const USUAL: Node = Node {
    ports: 3,
    coins: 0,
    contender: false,
    link: true,
    speed: 2,
};

/// A node of three ports that draws ones.
pub const ONES: Node = Node {
    coins: u64::MAX,
    ..USUAL
};

/// A node of three ports that draws zeros, and contends to be isochronous resource manager.
pub const CONTENDER: Node = Node {
    contender: true,
    ..USUAL
};

/// A specification of a node whose cables delay by at most `d` turns.
pub fn spec(node: Node, d: u8) -> NodeSpec
    requires some { 1 ≤ d }
    requires few { d ≤ 16 }
    ensures is { IsSpec result }
    ensures timing { InRange d result.timing }
{
    NodeSpec {
        ports: node.ports.clamp(1, 16),
        attrs: Attrs {
            link: node.link,
            gap: 63,
            speed: node.speed.min(3),
            delay: 0,
            contender: node.contender,
            power: 0,
            initiated: false,
        },
        timing: Timing::usual(d),
        force: false,
        coins: Coins::bits(node.coins, 64),
    }
}

fn machine(spec: NodeSpec, packed: bool) -> AnyMachine
    requires { IsSpec spec }
    ensures { any_node result ≡ node_of_spec spec }
{
    if packed {
        AnyMachine::Packed(PackedMachine::new(spec))
    } else {
        AnyMachine::Field(FieldMachine::new(spec))
    }
}

/// A machine that was just powered on.
fn powered_on(node: Node, d: u8, packed: bool) -> AnyMachine
    requires some { 1 ≤ d }
    requires few { d ≤ 16 }
    ensures node { IsNodeAtPowerOn d (any_node result).state }
    ensures clock { KeepsTime (longest_in_range d) (any_node result).state.timing
        (any_node result).clock }
{
    machine(spec(node, d), packed)
}

fn machines(
    alloc: Global,
    nodes: &[Node],
    d: u8,
    packed: bool,
) -> Result<Vec<AnyMachine>, AllocError>
    requires some { 1 ≤ d }
    requires few { d ≤ 16 }
    ensures power_on { IfOk result (λ made.
        All (λ m. IsNodeAtPowerOn d (any_node m).state) made.items) }
    ensures clocks { IfOk result (λ made. All (λ m. KeepsTime (longest_in_range d)
        (any_node m).state.timing (any_node m).clock) made.items) }
    ensures length { IfOk result (λ made. length made.items ≡ length nodes.now) }
{
    let mut made = Vec::new(alloc);
    for node in nodes {
        made.push(powered_on(*node, d, packed))?;
    }
    Ok(made)
}

/// A world of these nodes at power-on, without cables.
pub fn world(
    rt: &impl Abort,
    alloc: Global,
    nodes: &[Node],
    d: u8,
    packed: bool,
) -> Result<World<AnyMachine>, Fail>
    ensures { IfOk result (λ made.
        length (⟦<World<AnyMachine> as WorldRun>⟧.world made).nodes ≡ length nodes.now) }
{
    assert!(rt; 1 <= d && d <= 16);
    assert!(rt; nodes.len() <= 63);
    Ok(World::new(alloc, machines(alloc, nodes, d, packed)?, d)?)
}

/// The same world, which passes over the turns in which nothing happens.
pub fn agenda(
    rt: &impl Abort,
    alloc: Global,
    nodes: &[Node],
    d: u8,
    packed: bool,
) -> Result<AgendaWorld<AnyMachine>, Fail>
    ensures { IfOk result (λ made.
        length (⟦<AgendaWorld<AnyMachine> as WorldRun>⟧.world made).nodes ≡ length nodes.now) }
{
    assert!(rt; 1 <= d && d <= 16);
    assert!(rt; nodes.len() <= 63);
    Ok(AgendaWorld::new(alloc, machines(alloc, nodes, d, packed)?, d)?)
}
