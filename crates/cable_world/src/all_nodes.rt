//! The turn of a world, over its parts.
ghost use Rattle.std.specs.Prelude.{◌≡◌, ◌==◌, ◌+◌, ◌<◌, ◌≤◌, ℕ, true, length, map, OnOk, IfOk, All, if◌then◌else◌};
ghost use Rattle.port_state.specs.declared.timing.Timing.{Timing};
ghost use Rattle.port_state.specs.PortSet.{has_port};
ghost use Rattle.port_state.specs.Machine.{PortNode, NodeStep};
ghost use Rattle.cable_world.specs.Wire.{arrives, stays};
ghost use Rattle.cabling.specs.Wiring.{ports_of};
ghost use Rattle.cable_world.specs.Turn.{node_turn, wires_after_sends, same_list};
ghost use Rattle.cable_world.specs.Turn.{all_wires_after_sends, last_changes};
ghost use Rattle.cable_world.specs.running.Hearing.{AreQuietBut, inbox_of};
ghost use Rattle.cable_world.specs.running.Ages.{AreYoung};
ghost use Rattle.cable_world.specs.running.Steps.{turns_of, HasItsPorts};
ghost use Rattle.cable_world.specs.Parts.{world_record};
ghost use Rattle.cable_world.specs.Turn.{turn};
ghost use Rattle.cable_world.specs.Lawful.{IsLawful};

use crate::nodes::turn_node;
use crate::rows::{ArrivalRow, WireRow};
use cabling::{Cabling, OutOfMemory};
use port_state::{Outbox, PortMachine, PortSet};

/// A turn of every wire. What arrives at their far ends takes the place of what is in `arrivals`.
pub fn turn_wires(
    wires: &mut [WireRow],
    delay: u8,
    arrivals: &mut [ArrivalRow],
) -> Result<(), OutOfMemory>
    requires young { All (λ row. All AreYoung row) wires.old }
    requires same { map length arrivals.old ≡ map length wires.old }
    ensures stays { OnOk result (wires.new ≡ map (map (stays delay)) wires.old) }
    ensures arrives { OnOk result (arrivals.new ≡ map (map (arrives delay)) wires.old) }
{
    for at in 0..wires.len() {
        wires[at].turn(delay, &mut arrivals[at])?;
    }
    Ok(())
}

/// Every port, 0 to 15.
fn all_ports() -> PortSet
    ensures { (k : ℕ) → k < 16 → has_port result k ≡ true }
{
    let mut ports = PortSet::none();
    for port in 0..16 {
        ports.insert(port);
    }
    ports
}

/// When a list changed last, by its lengths before and after a turn. A list only grows at its end or is
/// emptied, and doesn't grow again in that turn.
pub fn last_change(before: usize, after: usize, turns: u32, last: u32) -> u32
    ensures { result ≡ (if before == after then last else turns) }
{
    if before == after { last } else { turns }
}

/// The turn of one node in turn number `turns`, from 1: answers when its list changed last, which
/// was at the end of turn number `last` before. At the ports that aren't in `heard` nothing arrives.
pub fn turn_one<M: PortMachine>(
    machine: &mut M,
    cabling: &Cabling,
    node: u8,
    arrivals: &[ArrivalRow],
    heard: PortSet,
    turns: u32,
    last: u32,
    out: &mut Outbox,
    wires: &mut WireRow,
) -> Result<u32, OutOfMemory>
    requires exists { node < length cabling.now }
    requires quiet { AreQuietBut heard arrivals.now cabling.now node }
    requires ports { length (ports_of cabling.now node) ≡ (M.record_of machine.old).state.ports }
    ensures node { OnOk result (M.record_of machine.new
        ≡ (node_turn (inbox_of arrivals.now 0 (ports_of cabling.now node))
        (M.record_of machine.old)).node) }
    ensures sent { OnOk result (wires.new ≡ wires_after_sends 0
        (node_turn (inbox_of arrivals.now 0 (ports_of cabling.now node))
        (M.record_of machine.old)).sends wires.old) }
    ensures changed { IfOk result (λ at. at
        ≡ (if same_list (M.record_of machine.old) (M.record_of machine.new) then last
        else turns)) }
{
    let before = machine.list().len();
    turn_node(machine, cabling, node, arrivals, heard, out, wires)?;
    Ok(last_change(before, machine.list().len(), turns, last))
}

/// The turn of every node, which is turn number `turns`, from 1.
pub fn turn_nodes<M: PortMachine>(
    machines: &mut [M],
    cabling: &Cabling,
    arrivals: &[ArrivalRow],
    turns: u32,
    changed: &mut [u32],
    out: &mut Outbox,
    wires: &mut [WireRow],
) -> Result<(), OutOfMemory>
    requires few { length machines.old ≤ 63 }
    requires nodes { length machines.old ≡ length cabling.now }
    requires changes { length changed.old ≡ length cabling.now }
    requires rows { length wires.old ≡ length cabling.now }
    requires ports { HasItsPorts cabling.now (map M.record_of machines.old) }
    ensures node { OnOk result (map M.record_of machines.new
        ≡ map (λ (s : NodeStep). s.node)
        (turns_of arrivals.now cabling.now (map M.record_of machines.old))) }
    ensures changes { OnOk result (changed.new
        ≡ last_changes turns (map M.record_of machines.old) (map M.record_of machines.new)
        changed.old) }
    ensures wires { OnOk result (wires.new
        ≡ all_wires_after_sends
        (turns_of arrivals.now cabling.now (map M.record_of machines.old)) wires.old) }
{
    let heard = all_ports();
    for node in 0..machines.len() {
        changed[node] = turn_one(
            &mut machines[node],
            cabling,
            node as u8,
            arrivals,
            heard,
            turns,
            changed[node],
            out,
            &mut wires[node],
        )?;
    }
    Ok(())
}

/// The turn of a world after `turns` turns.
pub fn turn_world<M: PortMachine>(
    delay: u8,
    cabling: &Cabling,
    machines: &mut [M],
    wires: &mut [WireRow],
    changed: &mut [u32],
    turns: u32,
    arrivals: &mut [ArrivalRow],
    out: &mut Outbox,
) -> Result<(), OutOfMemory>
    requires few { turns < 4000000000 }
    requires short { delay ≤ 16 }
    requires lawful { (t : Timing) × IsLawful
        (world_record delay t cabling.now (map M.record_of machines.old) wires.old changed.old
        turns) }
    requires same { map length arrivals.old ≡ map length wires.old }
    ensures done { OnOk result ((t : Timing) →
        world_record delay t cabling.now (map M.record_of machines.new) wires.new changed.new
        (turns + 1)
        ≡ turn (world_record delay t cabling.now (map M.record_of machines.old) wires.old
        changed.old turns)) }
    ensures same { OnOk result (map length arrivals.new ≡ map length wires.new) }
{
    turn_wires(wires, delay, arrivals)?;
    turn_nodes(machines, cabling, arrivals, turns + 1, changed, out, wires)?;
    Ok(())
}
