//! The turn of one node.
ghost use Rattle.std.specs.Prelude.{◌≡◌, ◌<◌, ◌≤◌, ℕ, false, [], length, slice_index_or, OnOk, IfSome, IfNone};
ghost use Rattle.port_state.specs.PortSet.{has_port};
ghost use Rattle.cabling.specs.Wiring.{ports_of};
ghost use Rattle.cable_world.specs.Turn.{node_turn, wires_after_sends};
ghost use Rattle.cable_world.specs.running.Hearing.{AreQuietBut, node_hears, on_one, arriving_from, inbox_of};
ghost use Rattle.cable_world.specs.running.Rows.{signals_on};

use crate::rows::{ArrivalRow, WireRow};
use crate::wire::UnderWay;
use cabling::{Cabling, End, OutOfMemory};
use port_state::{Outbox, PortMachine, PortSet};

/// What a step sends goes onto the wires of its node. Most steps send nothing.
fn send(out: &Outbox, wires: &mut WireRow) -> Result<(), OutOfMemory>
    ensures sent { OnOk result (wires.new ≡ wires_after_sends 0 out.now wires.old) }
    ensures row { length wires.new ≡ length wires.old }
{
    if out.is_none() {
        return Ok(());
    }
    wires.send_all(out.as_slice())
}

/// A node hears on one of its ports what arrives from the port `from` of another, the first first.
/// What it sends goes onto its wires.
fn hear_port<M: PortMachine>(
    machine: &mut M,
    port: u8,
    arriving: &[UnderWay],
    from: u8,
    out: &mut Outbox,
    wires: &mut WireRow,
) -> Result<(), OutOfMemory>
    requires { port < (M.record_of machine.old).state.ports }
    ensures node { OnOk result (M.record_of machine.new
        ≡ (node_hears (on_one port (signals_on from arriving.now)) (M.record_of machine.old)).node) }
    ensures sent { OnOk result (wires.new ≡ wires_after_sends 0
        (node_hears (on_one port (signals_on from arriving.now)) (M.record_of machine.old)).sends
        wires.old) }
    ensures ports { OnOk result ((M.record_of machine.new).state.ports
        ≡ (M.record_of machine.old).state.ports) }
    ensures row { length wires.new ≡ length wires.old }
{
    for entry in arriving {
        if !entry.ports.has(from) {
            continue;
        }
        out.clear();
        machine.on_signal_into(port, entry.signal, out);
        send(out, wires)?;
    }
    Ok(())
}

/// What arrives from a far end, among what does from other ports of its node.
fn arriving(arrivals: &[ArrivalRow], far: End) -> &[UnderWay]
    ensures { signals_on far.port result.now
        ≡ slice_index_or (slice_index_or arrivals.now far.node []) far.port [] }
{
    match arrivals.get(far.node as usize) {
        None => &[],
        Some(row) => row.at(far.port),
    }
}

/// A node hears on one of its ports what arrives from its far end. What it sends goes onto its wires.
fn hear_end<M: PortMachine>(
    machine: &mut M,
    port: u8,
    arrivals: &[ArrivalRow],
    far: Option<End>,
    out: &mut Outbox,
    wires: &mut WireRow,
) -> Result<(), OutOfMemory>
    requires { port < (M.record_of machine.old).state.ports }
    ensures node { OnOk result (M.record_of machine.new
        ≡ (node_hears (on_one port (arriving_from arrivals.now far)) (M.record_of machine.old)).node) }
    ensures sent { OnOk result (wires.new ≡ wires_after_sends 0
        (node_hears (on_one port (arriving_from arrivals.now far)) (M.record_of machine.old)).sends
        wires.old) }
    ensures ports { OnOk result ((M.record_of machine.new).state.ports
        ≡ (M.record_of machine.old).state.ports) }
    ensures row { length wires.new ≡ length wires.old }
{
    match far {
        None => Ok(()),
        Some(far) => hear_port(machine, port, arriving(arrivals, far), far.port, out, wires),
    }
}

/// The lowest port of a set that isn't below this number, if it is below the number of ports.
fn next_heard(heard: PortSet, ports: u8, port: u8) -> Option<u8>
    ensures few { IfSome result (λ next. next < 16) }
    ensures there { IfSome result (λ next. next < ports) }
    ensures up { IfSome result (λ next. port ≤ next) }
    ensures lowest { IfSome result (λ next. (k : ℕ) → port ≤ k → k < next →
        has_port heard k ≡ false) }
    ensures none { IfNone result ((k : ℕ) → port ≤ k → k < ports → has_port heard k ≡ false) }
{
    match heard.next_from(port) {
        Some(next) if next < ports => Some(next),
        _ => None,
    }
}

/// A node hears what arrives at its ports, by rising port. What it sends goes onto its wires. At the
/// ports that aren't in `heard` nothing arrives.
#[inline(always)]
fn hear_ports<M: PortMachine>(
    machine: &mut M,
    cabling: &Cabling,
    node: u8,
    arrivals: &[ArrivalRow],
    heard: PortSet,
    out: &mut Outbox,
    wires: &mut WireRow,
) -> Result<(), OutOfMemory>
    requires exists { node < length cabling.now }
    requires quiet { AreQuietBut heard arrivals.now cabling.now node }
    requires ports { length (ports_of cabling.now node) ≡ (M.record_of machine.old).state.ports }
    ensures node { OnOk result (M.record_of machine.new
        ≡ (node_hears (inbox_of arrivals.now 0 (ports_of cabling.now node))
        (M.record_of machine.old)).node) }
    ensures sent { OnOk result (wires.new ≡ wires_after_sends 0
        (node_hears (inbox_of arrivals.now 0 (ports_of cabling.now node))
        (M.record_of machine.old)).sends wires.old) }
    ensures row { length wires.new ≡ length wires.old }
{
    let ports = cabling.ports(node);
    let mut port = 0;
    while let Some(next) = next_heard(heard, ports, port) {
        let far = cabling.far(End { node, port: next });
        hear_end(machine, next, arrivals, far, out, wires)?;
        port = next + 1;
    }
    Ok(())
}

/// A node hears what arrives at its ports, as `hear_ports` has it.
fn hear<M: PortMachine>(
    machine: &mut M,
    cabling: &Cabling,
    node: u8,
    arrivals: &[ArrivalRow],
    heard: PortSet,
    out: &mut Outbox,
    wires: &mut WireRow,
) -> Result<(), OutOfMemory>
    requires exists { node < length cabling.now }
    requires quiet { AreQuietBut heard arrivals.now cabling.now node }
    requires ports { length (ports_of cabling.now node) ≡ (M.record_of machine.old).state.ports }
    ensures node { OnOk result (M.record_of machine.new
        ≡ (node_hears (inbox_of arrivals.now 0 (ports_of cabling.now node))
        (M.record_of machine.old)).node) }
    ensures sent { OnOk result (wires.new ≡ wires_after_sends 0
        (node_hears (inbox_of arrivals.now 0 (ports_of cabling.now node))
        (M.record_of machine.old)).sends wires.old) }
    ensures row { length wires.new ≡ length wires.old }
{
    if heard.is_none() {
        return Ok(());
    }
    hear_ports(machine, cabling, node, arrivals, heard, out, wires)
}

/// A node's part of a turn: it hears what arrives at its ports, and then its clock ticks. What it
/// sends goes onto its wires. At the ports that aren't in `heard` nothing arrives.
pub fn turn_node<M: PortMachine>(
    machine: &mut M,
    cabling: &Cabling,
    node: u8,
    arrivals: &[ArrivalRow],
    heard: PortSet,
    out: &mut Outbox,
    wires: &mut WireRow,
) -> Result<(), OutOfMemory>
    requires exists { node < length cabling.now }
    requires quiet { AreQuietBut heard arrivals.now cabling.now node }
    requires ports { length (ports_of cabling.now node) ≡ (M.record_of machine.old).state.ports }
    ensures node { OnOk result (M.record_of machine.new
        ≡ (node_turn (inbox_of arrivals.now 0 (ports_of cabling.now node))
        (M.record_of machine.old)).node) }
    ensures sent { OnOk result (wires.new ≡ wires_after_sends 0
        (node_turn (inbox_of arrivals.now 0 (ports_of cabling.now node))
        (M.record_of machine.old)).sends wires.old) }
    ensures row { length wires.new ≡ length wires.old }
{
    hear(machine, cabling, node, arrivals, heard, out, wires)?;
    out.clear();
    machine.tick_into(out);
    send(out, wires)?;
    Ok(())
}
