//! Buses of 63 nodes that run.
ghost use Rattle.std.specs.Prelude.{◌≡◌, All, IfOk, length};
ghost use Rattle.phy_machine.specs.Field.{field_node};
ghost use Rattle.cable_world.specs.Times.{KeepsTime, longest_in_range};
ghost use Rattle.cable_world.specs.World.{IsNodeAtPowerOn};

use crate::cablings::{Shape, joined};
use crate::nodes::{DELAY, spec};
use cable_world::{Act, World, WorldRun};
use cabling::{Cabling, End};
use phy_machine::FieldMachine;
use port_state::Coins;
use std::alloc::{AllocError, Global};
use world_agenda::AgendaWorld;

/// What is measured of a bus.
#[derive(Clone, Copy)]
pub enum Course {
    /// A turn of a world that does one turn after the other.
    Turn,
    /// From power-on to the turn in which the bus has settled, in a world that passes over turns.
    Settle,
}

/// How many nodes there are.
const NODES: u8 = 63;

/// The turns after which so many nodes have settled.
const SETTLED: u32 = 73_520;

/// A machine that was just powered on.
fn powered_on(ports: u8, node: u8) -> FieldMachine
    ensures node { IsNodeAtPowerOn 4 (field_node result).state }
    ensures clock { KeepsTime (longest_in_range 4) (field_node result).state.timing
        (field_node result).clock }
{
    FieldMachine::new(spec(ports, Coins::seeded(u32::from(node))))
}

/// How many ports the nodes have that are joined in a shape.
fn ports_in(shape: Shape) -> u8 {
    match shape {
        Shape::Line => 3,
        Shape::Star | Shape::Looped => 16,
    }
}

/// The machines of the nodes.
fn machines(alloc: Global, shape: Shape) -> Result<Vec<FieldMachine>, AllocError>
    ensures power_on { IfOk result (λ made.
        All (λ m. IsNodeAtPowerOn 4 (field_node m).state) made.items) }
    ensures clocks { IfOk result (λ made. All (λ m. KeepsTime (longest_in_range 4)
        (field_node m).state.timing (field_node m).clock) made.items) }
    ensures few { IfOk result (λ made. length made.items ≡ 63) }
{
    let ports = ports_in(shape);
    let mut made = Vec::with_capacity(alloc, NODES as usize)?;
    for node in 0..NODES {
        made.push(powered_on(ports, node))?;
    }
    Ok(made)
}

/// Plugs the cables of a cabling into a world. The answer counts those that the world refused.
fn plug_all<W: WorldRun>(world: &mut W, cabling: &Cabling) -> u64 {
    let mut refused = 0u64;
    for node in 0..cabling.nodes() {
        for port in 0..cabling.ports(node) {
            let a = End { node, port };
            if let Some(b) = cabling.far(a) {
                if node < b.node && world.act(&Act::Plug { a, b }).is_err() {
                    refused = refused.wrapping_add(1);
                }
            }
        }
    }
    refused
}

/// The nodes joined in a shape, in a world that does one turn after the other.
pub fn running(alloc: Global, shape: Shape) -> Result<World<FieldMachine>, AllocError> {
    let mut world = World::new(alloc, machines(alloc, shape)?, DELAY)?;
    let _refused = plug_all(&mut world, &joined(alloc, shape)?);
    Ok(world)
}

/// So many turns of a world. It answers how many were done.
pub fn turns<W: WorldRun>(world: &mut W, count: u32) -> u64 {
    if world.turns() > 1_000_000_000 || count > 1_000_000_000 {
        return 0;
    }
    let _done = world.run_turns(count);
    u64::from(world.turns())
}

/// From power-on to the turn in which the bus has settled. The answer counts the resets of the first
/// node and the packets that it knows.
pub fn settle(alloc: Global, shape: Shape) -> Result<u64, AllocError> {
    let mut world = AgendaWorld::new(alloc, machines(alloc, shape)?, DELAY)?;
    let refused = plug_all(&mut world, &joined(alloc, shape)?);
    Ok(turns(&mut world, SETTLED).wrapping_add(refused))
}
