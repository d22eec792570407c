//! Acts, over the parts of a world, and why holds are refused.
ghost use Rattle.std.specs.Prelude.{◌≡◌, ◌<◌, ◌≤◌, ◌↔◌, ◌⊎◌, ℕ, None, Some, [], length, map, slice_index_or, IfNone, IfOk, IfSome, IsTrue, OnOk, if◌then◌else◌};
ghost use Rattle.std.specs.Option.{ForSome};
ghost use Rattle.cabling.specs.NodeSet.{Holds};
ghost use Rattle.cabling.specs.Change.{pull_fault};
ghost use Rattle.cabling.specs.Wiring.{Wiring, HasEnd};
ghost use Rattle.port_state.specs.Config.{config_packet};
ghost use Rattle.port_state.specs.declared.timing.Timing.{Timing};
ghost use Rattle.port_state.specs.Machine.{node_set_config};
ghost use Rattle.cable_world.specs.Wire.{empty_wire};
ghost use Rattle.cable_world.specs.World.{put};
ghost use Rattle.cable_world.specs.Act.{ActLeads, IsAct, IsConfigPacket, act_fault, change_in_set};
ghost use Rattle.cable_world.specs.Answer.{IfFault, IsMemory};
ghost use Rattle.cable_world.specs.running.NodeActs.{AreLawful};
ghost use Rattle.cable_world.specs.running.ActEnds.{ActEnds, AreSameBut, TouchesOnly};
ghost use Rattle.cable_world.specs.Parts.{world_record};
ghost use Rattle.cable_world.specs.declared.act.Act.TheVariants as act;

use crate::act::{Act, ActStop};
use crate::rows::WireRow;
use crate::steps::{NodeAct, step_both, step_node};
use cabling::{CableFault, Cabling, End, NodeSet, OutOfMemory};
use port_state::{Outbox, PortMachine};

/// Takes away what is under way on the wires from two ends, and holds. The ends exist.
fn clear_cable(wires: &mut [WireRow], a: End, b: End)
    requires a_node { a.node < length wires.old }
    requires a_port { a.port < length (slice_index_or wires.old a.node []) }
    requires b_node { b.node < length wires.old }
    requires b_port { b.port < length (slice_index_or wires.old b.node []) }
    ensures done { wires.new ≡ put b empty_wire (put a empty_wire wires.old) }
    ensures others { AreSameBut (λ k. (k ≡ a.node) ⊎ (k ≡ b.node)) wires.old wires.new }
{
    wires[a.node as usize].clear(a.port);
    wires[b.node as usize].clear(b.port);
}

/// A node hears a configuration packet, if it `hears`.
fn set_config<M: PortMachine>(
    machine: &mut M,
    hears: bool,
    root_id: u8,
    force: bool,
    gap: Option<u8>,
)
    requires root { root_id ≤ 63 }
    requires gap { ForSome gap (λ g. g ≤ 63) }
    ensures { M.record_of machine.new
        ≡ (if hears then node_set_config (config_packet root_id force gap) (M.record_of machine.old)
        else M.record_of machine.old) }
{
    if hears {
        machine.set_config(root_id, force, gap);
    }
}

/// The nodes of a set hear a configuration packet.
fn set_configs<M: PortMachine>(
    machines: &mut [M],
    set: NodeSet,
    root_id: u8,
    force: bool,
    gap: Option<u8>,
)
    requires few { length machines.old ≤ 63 }
    requires root { root_id ≤ 63 }
    requires gap { ForSome gap (λ g. g ≤ 63) }
    ensures { map M.record_of machines.new
        ≡ change_in_set set (node_set_config (config_packet root_id force gap)) 0
        (map M.record_of machines.old) }
{
    for node in 0..machines.len() {
        let hears = set.has(node as u8);
        set_config(&mut machines[node], hears, root_id, force, gap);
    }
}

/// The set of two nodes, 0 to 62, or of one.
fn both(a: u8, b: u8) -> NodeSet
    requires a { a < 63 }
    requires b { b < 63 }
    ensures { (k : ℕ) → Holds result k ↔ ((k ≡ a) ⊎ (k ≡ b)) }
{
    let mut set = NodeSet::none();
    set.insert(a);
    set.insert(b);
    set
}

/// Plugs a cable into two ends, when `turns` turns are done.
fn plug_ends<M: PortMachine>(
    a: End,
    b: End,
    cabling: &mut Cabling,
    machines: &mut [M],
    wires: &mut [WireRow],
    changed: &mut [u32],
    turns: u32,
    out: &mut Outbox,
) -> Result<NodeSet, ActStop>
    requires lawful { AreLawful cabling.old (map M.record_of machines.old) wires.old changed.old
        turns }
    ensures ends { ActEnds (act.Plug a b)
        (λ d t. world_record d t cabling.old (map M.record_of machines.old) wires.old changed.old
        turns)
        (λ d t. world_record d t cabling.new (map M.record_of machines.new) wires.new changed.new
        turns)
        ((cabling.new ≡ cabling.old) × (machines.new ≡ machines.old)
        × (wires.new ≡ wires.old) × (changed.new ≡ changed.old)) result }
    ensures touched { IfOk result (λ set. TouchesOnly set machines.old machines.new
        wires.old wires.new) }
{
    if let Err(fault) = cabling.plug(a, b) {
        return Err(ActStop::Fault(fault));
    }
    clear_cable(wires, a, b);
    let first = (a.node, NodeAct::Plug { port: a.port });
    let second = (b.node, NodeAct::Plug { port: b.port });
    if let Err(stop) = step_both(machines, wires, changed, first, second, turns, out) {
        return Err(ActStop::Memory(stop));
    }
    Ok(both(a.node, b.node))
}

/// Pulls the cable at an end, when `turns` turns are done.
fn pull_end<M: PortMachine>(
    end: End,
    cabling: &mut Cabling,
    machines: &mut [M],
    wires: &mut [WireRow],
    changed: &mut [u32],
    turns: u32,
    out: &mut Outbox,
) -> Result<NodeSet, ActStop>
    requires lawful { AreLawful cabling.old (map M.record_of machines.old) wires.old changed.old
        turns }
    ensures ends { ActEnds (act.Pull end)
        (λ d t. world_record d t cabling.old (map M.record_of machines.old) wires.old changed.old
        turns)
        (λ d t. world_record d t cabling.new (map M.record_of machines.new) wires.new changed.new
        turns)
        ((cabling.new ≡ cabling.old) × (machines.new ≡ machines.old)
        × (wires.new ≡ wires.old) × (changed.new ≡ changed.old)) result }
    ensures touched { IfOk result (λ set. TouchesOnly set machines.old machines.new
        wires.old wires.new) }
{
    let cable = match cabling.pull(end) {
        Err(fault) => return Err(ActStop::Fault(fault)),
        Ok(cable) => cable,
    };
    clear_cable(wires, end, cable.b);
    let first = (end.node, NodeAct::Pull { port: end.port });
    let second = (cable.b.node, NodeAct::Pull { port: cable.b.port });
    if let Err(stop) = step_both(machines, wires, changed, first, second, turns, out) {
        return Err(ActStop::Memory(stop));
    }
    Ok(both(end.node, cable.b.node))
}

/// A node resets the bus, when `turns` turns are done. The cables are any.
fn reset_node<M: PortMachine>(
    node: u8,
    machines: &mut [M],
    wires: &mut [WireRow],
    changed: &mut [u32],
    turns: u32,
    out: &mut Outbox,
) -> Result<NodeSet, ActStop>
    requires lawful { (c : Wiring) × AreLawful c (map M.record_of machines.old) wires.old
        changed.old turns }
    ensures ends { (c : Wiring) → ActEnds (act.Reset node)
        (λ d t. world_record d t c (map M.record_of machines.old) wires.old changed.old turns)
        (λ d t. world_record d t c (map M.record_of machines.new) wires.new changed.new turns)
        ((machines.new ≡ machines.old) × (wires.new ≡ wires.old)
        × (changed.new ≡ changed.old)) result }
    ensures touched { IfOk result (λ set. TouchesOnly set machines.old machines.new
        wires.old wires.new) }
{
    if node as usize >= machines.len() {
        return Err(ActStop::Fault(CableFault::NoNode {
            end: End { node, port: 0 },
        }));
    }
    let act = NodeAct::Disturb;
    if let Err(stop) = step_node(machines, wires, changed, node, act, turns, out) {
        return Err(ActStop::Memory(stop));
    }
    Ok(both(node, node))
}

/// A node sends a configuration packet and resets the bus, when `turns` turns are done.
fn send_config<M: PortMachine>(
    from: u8,
    root_id: u8,
    force: bool,
    gap: Option<u8>,
    cabling: &Cabling,
    machines: &mut [M],
    wires: &mut [WireRow],
    changed: &mut [u32],
    turns: u32,
    out: &mut Outbox,
) -> Result<NodeSet, ActStop>
    requires is { IsConfigPacket (config_packet root_id force gap) }
    requires lawful { AreLawful cabling.now (map M.record_of machines.old) wires.old changed.old
        turns }
    ensures ends { ActEnds (act.Config from root_id force gap)
        (λ d t. world_record d t cabling.now (map M.record_of machines.old) wires.old changed.old
        turns)
        (λ d t. world_record d t cabling.now (map M.record_of machines.new) wires.new changed.new
        turns)
        ((machines.new ≡ machines.old) × (wires.new ≡ wires.old)
        × (changed.new ≡ changed.old)) result }
    ensures touched { IfOk result (λ set. TouchesOnly set machines.old machines.new
        wires.old wires.new) }
{
    if from as usize >= machines.len() {
        return Err(ActStop::Fault(CableFault::NoNode {
            end: End {
                node: from,
                port: 0,
            },
        }));
    }
    set_configs(machines, cabling.component(from), root_id, force, gap);
    let act = NodeAct::Disturb;
    if let Err(stop) = step_node(machines, wires, changed, from, act, turns, out) {
        return Err(ActStop::Memory(stop));
    }
    Ok(NodeSet::first(machines.len() as u8))
}

/// Does an act, as `act_world` has it.
fn do_act<M: PortMachine>(
    act: &Act,
    cabling: &mut Cabling,
    machines: &mut [M],
    wires: &mut [WireRow],
    changed: &mut [u32],
    turns: u32,
    out: &mut Outbox,
) -> Result<NodeSet, ActStop>
    requires is { IsAct act.now }
    requires lawful { AreLawful cabling.old (map M.record_of machines.old) wires.old changed.old
        turns }
    ensures ends { ActEnds act.now
        (λ d t. world_record d t cabling.old (map M.record_of machines.old) wires.old changed.old
        turns)
        (λ d t. world_record d t cabling.new (map M.record_of machines.new) wires.new changed.new
        turns)
        ((cabling.new ≡ cabling.old) × (machines.new ≡ machines.old)
        × (wires.new ≡ wires.old) × (changed.new ≡ changed.old)) result }
    ensures touched { IfOk result (λ set. TouchesOnly set machines.old machines.new
        wires.old wires.new) }
{
    match *act {
        Act::Plug { a, b } => plug_ends(a, b, cabling, machines, wires, changed, turns, out),
        Act::Pull { end } => pull_end(end, cabling, machines, wires, changed, turns, out),
        Act::Reset { node } => reset_node(node, machines, wires, changed, turns, out),
        Act::Config {
            from,
            root_id,
            force,
            gap,
        } => send_config(
            from, root_id, force, gap, cabling, machines, wires, changed, turns, out,
        ),
    }
}

/// Does an act, when `turns` turns are done. Answers which nodes it may have touched: the others and
/// their wires are as they were.
pub fn act_world<M: PortMachine>(
    act: &Act,
    cabling: &mut Cabling,
    machines: &mut [M],
    wires: &mut [WireRow],
    changed: &mut [u32],
    turns: u32,
    out: &mut Outbox,
) -> Result<NodeSet, ActStop>
    requires is { IsAct act.now }
    requires lawful { AreLawful cabling.old (map M.record_of machines.old) wires.old changed.old
        turns }
    ensures done { OnOk result ((d : ℕ) (t : Timing) → ActLeads act.now
        (world_record d t cabling.old (map M.record_of machines.old) wires.old changed.old turns)
        (world_record d t cabling.new (map M.record_of machines.new) wires.new changed.new turns)) }
    ensures accepted { OnOk result ((d : ℕ) (t : Timing) → act_fault act.now
        (world_record d t cabling.old (map M.record_of machines.old) wires.old changed.old turns)
        ≡ None) }
    ensures rows { OnOk result (map length wires.new ≡ map length wires.old) }
    ensures refused { IfFault result (λ f. (d : ℕ) (t : Timing) → act_fault act.now
        (world_record d t cabling.old (map M.record_of machines.old) wires.old changed.old turns)
        ≡ Some f) }
    ensures same { IfFault result (λ f. (cabling.new ≡ cabling.old) × (machines.new ≡ machines.old)
        × (wires.new ≡ wires.old) × (changed.new ≡ changed.old)) }
    ensures memory { IsMemory result → (d : ℕ) (t : Timing) → act_fault act.now
        (world_record d t cabling.old (map M.record_of machines.old) wires.old changed.old turns)
        ≡ None }
    ensures touched { IfOk result (λ set. TouchesOnly set machines.old machines.new
        wires.old wires.new) }
{
    do_act(act, cabling, machines, wires, changed, turns, out)
}

/// Whether an act found no memory.
pub fn is_memory<T>(done: &Result<T, ActStop>) -> bool
    ensures { IsMemory done.now ↔ IsTrue result }
{
    matches!(*done, Err(ActStop::Memory(_)))
}

/// Why a hold of the wire that leaves an end is refused, if it is: no cable is there.
pub fn hold_fault(cabling: &Cabling, end: End) -> Option<CableFault>
    ensures refused { IfSome result (λ f. pull_fault cabling.now end ≡ Some f) }
    ensures accepted { IfNone result (pull_fault cabling.now end ≡ None) }
    ensures exists { IfNone result (HasEnd cabling.now end) }
{
    if end.node >= cabling.nodes() {
        return Some(CableFault::NoNode { end });
    }
    if end.port >= cabling.ports(end.node) {
        return Some(CableFault::NoPort { end });
    }
    if cabling.far(end).is_none() {
        return Some(CableFault::NotPlugged { end });
    }
    None
}
