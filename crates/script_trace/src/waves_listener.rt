//! A dump hears a bus, and grows.
ghost use Rattle.std.specs.Prelude.{◌≡◌, ◌≤◌, ◌<◌, ◌++◌, [], List, Some, true, length, slice_get, drop, OnOk};
ghost use Rattle.port_state.specs.Machine.{PortNode};
ghost use Rattle.cable_world.specs.World.{wire_of};
ghost use Rattle.script_trace.specs.Event.{Seen};
ghost use Rattle.script_trace.specs.News.{IsEnough};
ghost use Rattle.script_trace.specs.waves.Change.{all_port_changes, node_changes, port_changes, sent_changes};
ghost use Rattle.script_trace.specs.waves.Moment.{all_changes, at_time, time_of, waves_since, waves_voice};

use crate::legend::Legend;
use crate::listener::Listener;
use crate::watch::Seen;
use crate::waves_node::{put_id, put_miss, put_root, put_state, put_timeout};
use crate::waves_port::{put_gone, put_role, put_sent_one, put_shown, there_at};
use cable_world::ShowsWires;
use cabling::{End, NodeSet};
use port_state::{PortView, View};
use script_lines::Command;
use script_text::{OutOfMemory, put_numbered};
use std::alloc::Global;
use std::marker::Model;

/// The changes of a dump so far. In a contract it is their text.
#[derive(Drop)]
pub struct Waves {
    pub(crate) text: Vec<u8>,
    /// Room for the changes of a moment.
    scratch: Vec<u8>,
}

impl Model for Waves {
    ghost use Rattle.std.specs.Prelude.{List, ℕ};

    ghost Value = { List ℕ };

    ghost view = { λ w. w.text.items };
}

/// Appends each signal that was sent just now on the wire that leaves an end, behind the first
/// `there`.
fn put_sent<W: ShowsWires>(
    out: &mut Vec<u8>,
    world: &W,
    end: End,
    there: usize,
) -> Result<(), OutOfMemory>
    requires node { end.node ≤ 62 }
    requires port { end.port ≤ 15 }
    ensures { OnOk result (out.new.items ≡ out.old.items
        ++ sent_changes end.node end.port
        (drop there (wire_of (W.world world.now) end).signals)) }
{
    for travelling in world.under_way(end, there) {
        put_sent_one(out, end.node, end.port, travelling)?;
    }
    Ok(())
}

/// Appends what changed at a port since the node showed that.
fn put_port<W: ShowsWires>(
    out: &mut Vec<u8>,
    world: &W,
    node: u8,
    seen: &Seen,
    view: &View,
    port: u8,
    port_view: PortView,
) -> Result<(), OutOfMemory>
    requires node { node ≤ 62 }
    requires port { port ≤ 15 }
    ensures { OnOk result (out.new.items ≡ out.old.items
        ++ port_changes (W.world world.now) node seen.now view.now port port_view) }
{
    let end = End { node, port };
    put_role(out, node, seen.view(), view, port, port_view)?;
    put_shown(out, node, seen.view(), port, port_view)?;
    put_gone(out, node, seen.view(), port, port_view)?;
    put_sent(out, world, end, there_at(seen.there(), port))
}

/// Appends what changed at the ports of a node.
fn put_ports<W: ShowsWires>(
    out: &mut Vec<u8>,
    world: &W,
    node: u8,
    seen: &Seen,
    view: &View,
) -> Result<(), OutOfMemory>
    requires { node ≤ 62 }
    ensures { OnOk result (out.new.items ≡ out.old.items
        ++ all_port_changes (W.world world.now) node seen.now view.now 0 view.now.ports) }
{
    let ports = &view.ports;
    for port in 0..ports.len() {
        put_port(out, world, node, seen, view, port as u8, ports.get(port))?;
    }
    Ok(())
}

/// Appends what changed at a node since it showed that.
fn put_node<W: ShowsWires>(
    out: &mut Vec<u8>,
    world: &W,
    node: u8,
    seen: &Seen,
    view: &View,
) -> Result<(), OutOfMemory>
    requires { node ≤ 62 }
    ensures { OnOk result (out.new.items
        ≡ out.old.items ++ node_changes (W.world world.now) node seen.now view.now) }
{
    put_miss(out, node, seen.missed())?;
    put_state(out, node, seen.view(), view)?;
    put_id(out, node, seen.view(), view)?;
    put_timeout(out, node, seen.view(), view)?;
    put_root(out, node, seen.view(), view)?;
    put_ports(out, world, node, seen, view)
}

/// Appends what changed at a node since it showed what stands at a place, if something does.
fn put_seen<W: ShowsWires>(
    out: &mut Vec<u8>,
    world: &W,
    node: u8,
    seen: &[Seen],
    at: usize,
) -> Result<(), OutOfMemory>
    requires few { node ≤ 62 }
    requires there { node < length (W.world world.now).nodes }
    ensures { OnOk result ((s : Seen) (x : PortNode) → slice_get seen.now at ≡ Some s →
        slice_get (W.world world.now).nodes node ≡ Some x → out.new.items
        ≡ out.old.items ++ node_changes (W.world world.now) node s x.state.view) }
{
    let count = seen.len();
    if at >= count {
        return Ok(());
    }
    let view = world.view(node);
    put_node(out, world, node, &seen[at], &view)?;
    Ok(())
}

/// Appends what changed at all nodes, of which there are so many, since those of a set showed this; the
/// others show nothing new.
fn put_all<W: ShowsWires>(
    out: &mut Vec<u8>,
    nodes: usize,
    touched: NodeSet,
    seen: &[Seen],
    world: &W,
) -> Result<(), OutOfMemory>
    requires few { nodes ≤ 63 }
    requires nodes { nodes ≡ length (W.world world.now).nodes }
    ensures { OnOk result ((all : List Seen) →
        IsEnough true touched seen.now all (W.world world.now) →
        out.new.items
        ≡ out.old.items ++ all_changes (W.world world.now) 0 all (W.world world.now).nodes) }
{
    let mut next = 0;
    for node in 0..nodes {
        if !touched.has(node as u8) {
            continue;
        }
        put_seen(out, world, node as u8, seen, next)?;
        next += 1;
    }
    Ok(())
}

/// The time after so many turns, of which `d` may be so many nanoseconds.
fn time_of(nanoseconds: Option<u16>, d: u8, turns: u32) -> u64
    ensures { result ≡ time_of nanoseconds d turns }
{
    match nanoseconds {
        None => u64::from(turns),
        Some(nanoseconds) => {
            let picoseconds = u64::from(turns) * u64::from(nanoseconds) * 1000;
            picoseconds.checked_div(u64::from(d)).unwrap_or(0)
        }
    }
}

/// Appends `#T` and changes, where there are any.
fn put_time(out: &mut Vec<u8>, time: u64, changes: &[u8]) -> Result<(), OutOfMemory>
    ensures { OnOk result (out.new.items ≡ out.old.items ++ at_time time changes.now) }
{
    if changes.is_empty() {
        return Ok(());
    }
    put_numbered(out, b"#", time)?;
    out.push(b'\n')?;
    out.extend_from_slice(changes)?;
    Ok(())
}

impl Waves {
    /// No changes.
    pub fn new(alloc: Global) -> Waves
        ensures { result ≡ [] }
    {
        Waves {
            text: Vec::new(alloc),
            scratch: Vec::new(alloc),
        }
    }
}

/// A dump to which the changes are appended.
impl Listener for Waves {
    ghost written = { λ waves. waves };

    ghost voice = { waves_voice };

    ghost looks = { true };

    fn command(&mut self, _turn: u32, _command: &Command) -> Result<(), OutOfMemory> {
        Ok(())
    }

    fn since<W: ShowsWires>(
        &mut self,
        legend: &Legend,
        touched: NodeSet,
        seen: &[Seen],
        world: &W,
    ) -> Result<(), OutOfMemory> {
        self.scratch.clear();
        put_all(&mut self.scratch, legend.names.len(), touched, seen, world)?;
        let time = time_of(legend.nanoseconds, world.delay(), world.turns());
        put_time(&mut self.text, time, self.scratch.as_slice())
    }

    fn hears(&self) -> bool {
        true
    }

    fn news(&self) {}
}
