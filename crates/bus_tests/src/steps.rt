//! What a test does to a world of machines step by step, and what has to be seen of it then.
ghost use Rattle.std.specs.Prelude.{◌≡◌, ◌<◌, OnOk, length};
ghost use Rattle.cable_world.specs.Act.{IsAct};

use crate::nodes::{Node, ONES, USUAL, agenda, world};
use cable_world::{Act, ActStop, WorldRun};
use cabling::{CableFault, End};
use port_state::{Phase, View};
use std::alloc::Global;
use std::process::Abort;
use std::test::Fail;

/// What a test does to a world, or what has to be seen of it then.
#[derive(Clone, Copy)]
pub enum Step {
    /// A cable from a node's port to a node's port.
    Plug(u8, u8, u8, u8),
    /// The cable at a node's port is pulled.
    Pull(u8, u8),
    /// A node resets the bus.
    Reset(u8),
    /// The wire from a node's port is held for so many turns.
    Hold(u8, u8, u16),
    /// So many turns.
    Turns(u32),
    /// A cable that is refused, since its first end is in use.
    InUse(u8, u8, u8, u8),
    /// What a node shows.
    Look(u8, Look),
    /// How many turns were done.
    Done(u32),
    /// Each node has the list of node 0, of so many quadlets.
    Agree(usize),
}

/// One thing that a node shows.
#[derive(Clone, Copy)]
pub enum Look {
    Phase(Phase),
    Timer(u16),
    Parent(Option<u8>),
    Child(u8),
    Granted(bool),
    Id(Option<u8>),
    Draws(u16),
    FirstDraws(u32),
    TimedOut(bool),
    Resets(u32),
    Changed(u32),
    List(&'static [u32]),
}

use Look::{Changed, Child, Draws, FirstDraws, Granted, Id, List, Parent, Resets, TimedOut, Timer};
use Step::{Agree, Done, Hold, InUse, Look as See, Plug, Pull, Reset, Turns};

fn end(node: u8, port: u8) -> End {
    End { node, port }
}

/// Whether a cable is refused since one of its ends is in use.
fn in_use<W: WorldRun>(world: &mut W, a: End, b: End) -> Result<bool, Fail>
    ensures { OnOk result (length (W.world world.new).nodes ≡ length (W.world world.old).nodes) }
{
    match world.act(&Act::Plug { a, b }) {
        Ok(()) => Ok(false),
        Err(stop) => match stop {
            ActStop::Fault(fault) => Ok(matches!(fault, CableFault::InUse { .. })),
            ActStop::Memory(stop) => Err(Fail::from(stop)),
        },
    }
}

fn turns<W: WorldRun>(world: &mut W, count: u32) -> Result<bool, Fail>
    ensures { OnOk result (length (W.world world.new).nodes ≡ length (W.world world.old).nodes) }
{
    if world.turns() > 1_000_000 || count > 1_000_000 {
        return Ok(false);
    }
    world.run_turns(count)?;
    Ok(true)
}

/// Whether a port of a view leads to a child.
fn has_child(view: &View, port: usize) -> bool {
    port < view.ports.len() && view.ports.get(port).child
}

/// Whether a view shows this, unless it is of the world.
fn shows(view: &View, look: Look) -> bool {
    match look {
        Look::Phase(phase) => view.phase == phase,
        Timer(ticks) => view.timer == ticks,
        Parent(port) => view.parent == port,
        Child(port) => has_child(view, usize::from(port)),
        Granted(granted) => view.granted == granted,
        Id(id) => view.id == id,
        Draws(draws) => view.draws == draws,
        FirstDraws(bits) => view.first_draws == bits,
        TimedOut(out) => view.timed_out == out,
        Resets(resets) => view.resets == resets,
        Changed(_) | List(_) => false,
    }
}

/// Whether a node shows this.
fn see<W: WorldRun>(world: &W, node: u8, look: Look) -> bool
    requires { node < length (W.world world.now).nodes }
{
    match look {
        Changed(turn) => world.changed(node) == turn,
        List(list) => world.list(node) == list,
        look => shows(&world.view(node), look),
    }
}

/// Whether each node has the list of node 0, of so many quadlets.
fn agree<W: WorldRun>(world: &W, nodes: u8, quads: usize) -> bool
    requires { length (W.world world.now).nodes ≡ nodes }
{
    for node in 0..nodes {
        if world.list(node).len() != quads || world.list(node) != world.list(0) {
            return false;
        }
    }
    true
}

/// Does a step to a world of so many nodes, or looks at it. Whether all is as it should be.
fn take<W: WorldRun>(world: &mut W, nodes: u8, step: Step) -> Result<bool, Fail>
    requires { length (W.world world.old).nodes ≡ nodes }
    ensures { OnOk result (length (W.world world.new).nodes ≡ nodes) }
{
    match step {
        Plug(a, p, b, q) => world.act(&Act::Plug {
            a: end(a, p),
            b: end(b, q),
        })?,
        Pull(a, p) => world.act(&Act::Pull { end: end(a, p) })?,
        Reset(node) => world.act(&Act::Reset { node })?,
        Hold(a, p, turns) => world.hold(end(a, p), turns)?,
        Turns(count) => return turns(world, count),
        InUse(a, p, b, q) => return in_use(world, end(a, p), end(b, q)),
        See(node, look) => return Ok(node < nodes && see(world, node, look)),
        Done(count) => return Ok(world.turns() == count),
        Agree(quads) => return Ok(agree(world, nodes, quads)),
    }
    Ok(true)
}

/// Takes steps, one after the other.
fn take_all<W: WorldRun>(
    rt: &impl Abort,
    world: &mut W,
    nodes: u8,
    steps: &[Step],
    name: &str,
) -> Result<(), Fail>
    requires { length (W.world world.old).nodes ≡ nodes }
    ensures { OnOk result (length (W.world world.new).nodes ≡ nodes) }
{
    let mut at = 0u32;
    for step in steps {
        let is_right = take(world, nodes, *step)?;
        assert!(rt; is_right, "{name}, step {at}");
        at = at.wrapping_add(1);
    }
    Ok(())
}

/// Takes steps in a world that does one turn after the other, and in one that passes over turns.
fn take_in_plain(
    rt: &impl Abort,
    alloc: Global,
    nodes: &[Node],
    d: u8,
    packed: bool,
    steps: &[Step],
    name: &str,
) -> Result<(), Fail> {
    assert!(rt; nodes.len() <= 63);
    let mut world = world(rt, alloc, nodes, d, packed)?;
    take_all(rt, &mut world, nodes.len() as u8, steps, name)
}

fn take_in_agenda(
    rt: &impl Abort,
    alloc: Global,
    nodes: &[Node],
    d: u8,
    packed: bool,
    steps: &[Step],
    name: &str,
) -> Result<(), Fail> {
    assert!(rt; nodes.len() <= 63);
    let mut world = agenda(rt, alloc, nodes, d, packed)?;
    take_all(rt, &mut world, nodes.len() as u8, steps, name)
}

/// Takes steps with these nodes in both worlds, over both machines.
pub fn take_in_all(
    rt: &impl Abort,
    alloc: Global,
    nodes: &[Node],
    d: u8,
    steps: &[Step],
    name: &str,
) -> Result<(), Fail> {
    for packed in [false, true] {
        take_in_plain(rt, alloc, nodes, d, packed, steps, name)?;
        take_in_agenda(rt, alloc, nodes, d, packed, steps, name)?;
    }
    Ok(())
}
