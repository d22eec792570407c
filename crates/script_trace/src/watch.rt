//! What the nodes of a world show, to be told from what they show later.
ghost use Rattle.std.specs.Prelude.{◌≡◌, ◌<◌, ◌≤◌, ◌++◌, List, Some, true, length, map, slice_get, slice_index_or, drop, IfOk, OnOk};
ghost use Rattle.port_state.specs.Machine.{PortNode};
ghost use Rattle.cable_world.specs.World.{wire_of};
ghost use Rattle.script_trace.specs.Event.{Seen, changed_lines, lines_at, sent_lines, all_sent_lines};
ghost use Rattle.script_trace.specs.News.{picked, IsEnough};
ghost use Rattle.script_trace.specs.Step.{lines_since, seen_before_turn, seen_before_act, counts_from};

use crate::node::{
    begin_lines, put_children, put_coin, put_id, put_miss, put_parent, put_sent_one, put_state,
    put_timeout,
};
use cable_world::ShowsWires;
use cabling::{End, NodeSet};
use port_state::{PortViews, View};
use script_text::{Name, OutOfMemory, put_numbered};
use std::alloc::Global;
use std::marker::Model;

/// What a node shows, how many signals are under way on each of its wires, and whether what comes next is
/// a turn that its clock misses.
#[derive(Drop)]
pub struct Seen {
    view: View,
    there: Vec<usize>,
    missed: bool,
}

impl Model for Seen {
    ghost use Rattle.script_trace.specs.Event.{Seen};

    ghost Value = { Seen };

    ghost view = { λ s. record {
      view = s.view;
      there = s.there.items;
      missed = s.missed;
    } };
}

impl Seen {
    /// What the node shows.
    pub fn view(&self) -> &View
        ensures { result.now ≡ self.now.view }
    {
        &self.view
    }

    /// How many signals are under way on each of its wires.
    pub fn there(&self) -> &[usize]
        ensures { result.now ≡ self.now.there }
    {
        self.there.as_slice()
    }

    /// Whether its clock misses the turn that comes next.
    pub fn missed(&self) -> bool
        ensures { result ≡ self.now.missed }
    {
        self.missed
    }
}

/// The nodes of a set before a turn. The world has 63 nodes at most, so many as are said.
pub fn seen_before_turn<W: ShowsWires>(
    alloc: Global,
    world: &W,
    nodes: usize,
    touched: NodeSet,
) -> Result<Vec<Seen>, OutOfMemory>
    requires few { nodes ≤ 63 }
    requires nodes { nodes ≡ length (W.world world.now).nodes }
    ensures { IfOk result (λ seen. seen.items
        ≡ picked touched 0 (map seen_before_turn (W.world world.now).nodes)) }
{
    let mut seen = Vec::new(alloc);
    for node in 0..nodes {
        if !touched.has(node as u8) {
            continue;
        }
        seen.push(Seen {
            view: world.view(node as u8),
            there: Vec::new(alloc),
            missed: world.misses(node as u8),
        })?;
    }
    Ok(seen)
}

/// How many signals are under way on each wire of a node with so many ports.
fn counts<W: ShowsWires>(
    alloc: Global,
    world: &W,
    node: u8,
    ports: &PortViews,
) -> Result<Vec<usize>, OutOfMemory>
    ensures { IfOk result (λ list. list.items ≡ counts_from (W.world world.now) node 0 ports.now) }
{
    let mut list = Vec::new(alloc);
    for port in 0..ports.len() {
        let end = End {
            node,
            port: port as u8,
        };
        list.push(world.count_under_way(end))?;
    }
    Ok(list)
}

/// The nodes of a set before an act. The world has 63 nodes at most, so many as are said.
pub fn seen_before_act<W: ShowsWires>(
    alloc: Global,
    world: &W,
    nodes: usize,
    touched: NodeSet,
) -> Result<Vec<Seen>, OutOfMemory>
    requires few { nodes ≤ 63 }
    requires nodes { nodes ≡ length (W.world world.now).nodes }
    ensures { IfOk result (λ seen. seen.items
        ≡ picked touched 0 (seen_before_act (W.world world.now) 0 (W.world world.now).nodes)) }
{
    let mut seen = Vec::new(alloc);
    for node in 0..nodes {
        if !touched.has(node as u8) {
            continue;
        }
        let view = world.view(node as u8);
        let there = counts(alloc, world, node as u8, &view.ports)?;
        seen.push(Seen {
            view,
            there,
            missed: false,
        })?;
    }
    Ok(seen)
}

/// How many signals were there before on the wire of a port.
fn there_at(there: &[usize], port: usize) -> usize
    ensures { result ≡ slice_index_or there.now port 0 }
{
    match there.get(port) {
        None => 0,
        Some(count) => *count,
    }
}

/// Appends a line for each signal that was sent just now on the wire that leaves an end, behind the
/// first `there`. The lines begin with `front`.
fn put_sent<W: ShowsWires>(
    out: &mut Vec<u8>,
    front: &[u8],
    world: &W,
    end: End,
    there: usize,
) -> Result<(), OutOfMemory>
    ensures { OnOk result (out.new.items ≡ out.old.items
        ++ sent_lines front.now end.port
        (drop there (wire_of (W.world world.now) end).signals)) }
{
    for travelling in world.under_way(end, there) {
        put_sent_one(out, front, end.port, travelling)?;
    }
    Ok(())
}

/// Appends a line for each signal that a node has sent since.
fn put_all_sent<W: ShowsWires>(
    out: &mut Vec<u8>,
    front: &[u8],
    world: &W,
    node: u8,
    there: &[usize],
    ports: &PortViews,
) -> Result<(), OutOfMemory>
    ensures { OnOk result (out.new.items ≡ out.old.items
        ++ all_sent_lines front.now (W.world world.now) node there.now 0 ports.now) }
{
    for port in 0..ports.len() {
        let end = End {
            node,
            port: port as u8,
        };
        put_sent(out, front, world, end, there_at(there, port))?;
    }
    Ok(())
}

/// Appends what changed at a node since it showed this, in lines that begin with `front`.
fn put_changed<W: ShowsWires>(
    out: &mut Vec<u8>,
    front: &[u8],
    world: &W,
    node: u8,
    seen: &Seen,
    view: &View,
) -> Result<(), OutOfMemory>
    ensures { OnOk result (out.new.items
        ≡ out.old.items ++ changed_lines front.now (W.world world.now) node seen.now view.now) }
{
    put_state(out, front, &seen.view, view)?;
    put_timeout(out, front, &seen.view, view)?;
    put_parent(out, front, &seen.view, view)?;
    put_children(out, front, &seen.view.ports, &view.ports)?;
    put_coin(out, front, &seen.view, view)?;
    put_id(out, front, &seen.view, view)?;
    put_all_sent(out, front, world, node, &seen.there, &view.ports)
}

/// Appends what happened at a node since it showed this, in lines that begin with `front`.
fn put_node<W: ShowsWires>(
    out: &mut Vec<u8>,
    front: &[u8],
    world: &W,
    node: u8,
    seen: &Seen,
    view: &View,
) -> Result<(), OutOfMemory>
    ensures { OnOk result (out.new.items
        ≡ out.old.items ++ lines_at front.now (W.world world.now) node seen.now view.now) }
{
    put_miss(out, front, seen.missed)?;
    put_changed(out, front, world, node, seen, view)
}

/// Appends what happened at a node since it showed what stands at a place, if something does, in lines that
/// begin with `front`.
fn put_seen<W: ShowsWires>(
    out: &mut Vec<u8>,
    front: &[u8],
    world: &W,
    node: u8,
    seen: &[Seen],
    at: usize,
) -> Result<(), OutOfMemory>
    requires { node < length (W.world world.now).nodes }
    ensures { OnOk result ((s : Seen) (x : PortNode) → slice_get seen.now at ≡ Some s →
        slice_get (W.world world.now).nodes node ≡ Some x → out.new.items
        ≡ out.old.items ++ lines_at front.now (W.world world.now) node s x.state.view) }
{
    let count = seen.len();
    if at >= count {
        return Ok(());
    }
    let view = world.view(node);
    put_node(out, front, world, node, &seen[at], &view)?;
    Ok(())
}

/// Appends what happened since the nodes of a set showed this; the others show nothing new. `names` has
/// the name of each node, at most 63.
pub(crate) fn put_since<W: ShowsWires>(
    out: &mut Vec<u8>,
    names: &[Name],
    touched: NodeSet,
    seen: &[Seen],
    world: &W,
) -> Result<(), OutOfMemory>
    requires few { length names.now ≤ 63 }
    requires nodes { length names.now ≡ length (W.world world.now).nodes }
    ensures { OnOk result ((all : List Seen) →
        IsEnough true touched seen.now all (W.world world.now) →
        out.new.items ≡ out.old.items ++ lines_since names.now all (W.world world.now)) }
{
    let mut turn = Vec::new(*out.allocator());
    put_numbered(&mut turn, b"turn ", u64::from(world.turns()))?;
    let mut front = Vec::new(*out.allocator());
    let mut next = 0;
    for node in 0..names.len() {
        if !touched.has(node as u8) {
            continue;
        }
        begin_lines(&mut front, &turn, names, node as u8)?;
        put_seen(out, &front, world, node as u8, seen, next)?;
        next += 1;
    }
    Ok(())
}
