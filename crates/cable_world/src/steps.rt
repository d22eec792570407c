//! A step of one node between two turns.
ghost use Rattle.std.specs.Prelude.{◌≡◌, ◌≢◌, ◌<◌, ◌⊎◌, ℕ, [], length, map, slice_get, slice_index_or, OnOk, IfOk, IsSomeAnd, IsTrue, IsFalse, if◌then◌else◌};
ghost use Rattle.port_state.specs.Ports.{is_connected};
ghost use Rattle.port_state.specs.Machine.{node_disturb, node_plugged, node_pulled};
ghost use Rattle.cable_world.specs.Turn.{wires_after_sends, same_list};
ghost use Rattle.cable_world.specs.running.ActEnds.{AreSameBut};
ghost use Rattle.cable_world.specs.running.NodeActs.{step_of, Suits, note_step, note_both, StepLeads};

use crate::all_nodes::last_change;
use crate::rows::WireRow;
use cabling::OutOfMemory;
use port_state::{Outbox, PortMachine};

/// A node resets the bus, when `turns` turns are done. Answers when its list changed last, which was
/// at the end of turn number `last` before.
fn disturb<M: PortMachine>(
    machine: &mut M,
    turns: u32,
    last: u32,
    out: &mut Outbox,
    wires: &mut WireRow,
) -> Result<u32, OutOfMemory>
    ensures node { M.record_of machine.new ≡ (node_disturb (M.record_of machine.old)).node }
    ensures sent { OnOk result (wires.new
        ≡ wires_after_sends 0 (node_disturb (M.record_of machine.old)).sends wires.old) }
    ensures changed { IfOk result (λ at. at
        ≡ (if same_list (M.record_of machine.old) (M.record_of machine.new) then last
        else turns)) }
{
    let before = machine.list().len();
    out.clear();
    machine.disturb_into(out);
    wires.send_all(out.as_slice())?;
    Ok(last_change(before, machine.list().len(), turns, last))
}

/// A cable is plugged into a port of a node, as `disturb` has it.
fn plug<M: PortMachine>(
    machine: &mut M,
    port: u8,
    turns: u32,
    last: u32,
    out: &mut Outbox,
    wires: &mut WireRow,
) -> Result<u32, OutOfMemory>
    requires exists { port < (M.record_of machine.old).state.ports }
    requires free { IsFalse (is_connected (M.record_of machine.old).state.view.ports port) }
    ensures node { M.record_of machine.new ≡ (node_plugged port (M.record_of machine.old)).node }
    ensures sent { OnOk result (wires.new
        ≡ wires_after_sends 0 (node_plugged port (M.record_of machine.old)).sends wires.old) }
    ensures changed { IfOk result (λ at. at
        ≡ (if same_list (M.record_of machine.old) (M.record_of machine.new) then last
        else turns)) }
{
    let before = machine.list().len();
    out.clear();
    machine.plugged_into(port, out);
    wires.send_all(out.as_slice())?;
    Ok(last_change(before, machine.list().len(), turns, last))
}

/// The cable is pulled from a port of a node, as `disturb` has it.
fn pull<M: PortMachine>(
    machine: &mut M,
    port: u8,
    turns: u32,
    last: u32,
    out: &mut Outbox,
    wires: &mut WireRow,
) -> Result<u32, OutOfMemory>
    requires { IsTrue (is_connected (M.record_of machine.old).state.view.ports port) }
    ensures node { M.record_of machine.new ≡ (node_pulled port (M.record_of machine.old)).node }
    ensures sent { OnOk result (wires.new
        ≡ wires_after_sends 0 (node_pulled port (M.record_of machine.old)).sends wires.old) }
    ensures changed { IfOk result (λ at. at
        ≡ (if same_list (M.record_of machine.old) (M.record_of machine.new) then last
        else turns)) }
{
    let before = machine.list().len();
    out.clear();
    machine.pulled_into(port, out);
    wires.send_all(out.as_slice())?;
    Ok(last_change(before, machine.list().len(), turns, last))
}

/// A step of one node between two turns.
#[derive(Clone, Copy)]
pub enum NodeAct {
    /// It resets the bus.
    Disturb,
    /// A cable is plugged into a port.
    Plug { port: u8 },
    /// The cable is pulled from a port.
    Pull { port: u8 },
}

/// A step of one machine, as `disturb` has it.
fn step_one<M: PortMachine>(
    machine: &mut M,
    act: NodeAct,
    turns: u32,
    last: u32,
    out: &mut Outbox,
    wires: &mut WireRow,
) -> Result<u32, OutOfMemory>
    requires { Suits act (M.record_of machine.old) }
    ensures node { M.record_of machine.new ≡ (step_of act (M.record_of machine.old)).node }
    ensures sent { OnOk result (wires.new
        ≡ wires_after_sends 0 (step_of act (M.record_of machine.old)).sends wires.old) }
    ensures changed { IfOk result (λ at. at
        ≡ (if same_list (M.record_of machine.old) (M.record_of machine.new) then last
        else turns)) }
{
    match act {
        NodeAct::Disturb => disturb(machine, turns, last, out, wires),
        NodeAct::Plug { port } => plug(machine, port, turns, last, out, wires),
        NodeAct::Pull { port } => pull(machine, port, turns, last, out, wires),
    }
}

/// A step of the node of a number, when `turns` turns are done. The node exists.
pub fn step_node<M: PortMachine>(
    machines: &mut [M],
    wires: &mut [WireRow],
    changed: &mut [u32],
    node: u8,
    act: NodeAct,
    turns: u32,
    out: &mut Outbox,
) -> Result<(), OutOfMemory>
    requires exists { node < length machines.old }
    requires rows { length wires.old ≡ length machines.old }
    requires changes { length changed.old ≡ length machines.old }
    requires suits { IsSomeAnd (slice_get (map M.record_of machines.old) node) (λ x. Suits act x) }
    ensures leads { OnOk result (StepLeads (note_step node (step_of act)) turns
        (map M.record_of machines.old) wires.old changed.old
        (map M.record_of machines.new) wires.new changed.new) }
    ensures machines { OnOk result (AreSameBut (λ k. k ≡ node) machines.old machines.new) }
    ensures wires { OnOk result (AreSameBut (λ k. k ≡ node) wires.old wires.new) }
{
    let node = node as usize;
    changed[node] = step_one(
        &mut machines[node],
        act,
        turns,
        changed[node],
        out,
        &mut wires[node],
    )?;
    Ok(())
}

/// A step of one node, and then one of another.
pub fn step_both<M: PortMachine>(
    machines: &mut [M],
    wires: &mut [WireRow],
    changed: &mut [u32],
    first: (u8, NodeAct),
    second: (u8, NodeAct),
    turns: u32,
    out: &mut Outbox,
) -> Result<(), OutOfMemory>
    requires apart { first.0 ≢ second.0 }
    requires first { first.0 < length machines.old }
    requires second { second.0 < length machines.old }
    requires rows { length wires.old ≡ length machines.old }
    requires changes { length changed.old ≡ length machines.old }
    requires first_suits { IsSomeAnd (slice_get (map M.record_of machines.old) first.0)
        (λ x. Suits first.1 x) }
    requires second_suits { IsSomeAnd (slice_get (map M.record_of machines.old) second.0)
        (λ x. Suits second.1 x) }
    ensures leads { OnOk result (StepLeads
        (note_both first.0 (step_of first.1) second.0 (step_of second.1)) turns
        (map M.record_of machines.old) wires.old changed.old
        (map M.record_of machines.new) wires.new changed.new) }
    ensures machines { OnOk result (AreSameBut (λ k. (k ≡ first.0) ⊎ (k ≡ second.0))
        machines.old machines.new) }
    ensures wires { OnOk result (AreSameBut (λ k. (k ≡ first.0) ⊎ (k ≡ second.0))
        wires.old wires.new) }
{
    step_node(machines, wires, changed, first.0, first.1, turns, out)?;
    step_node(machines, wires, changed, second.0, second.1, turns, out)?;
    Ok(())
}
