//! The tables of a world at power-on.
ghost use Rattle.std.specs.Prelude.{◌≡◌, ◌≤◌, [], length, map, replicate, IfOk};
ghost use Rattle.port_state.specs.Machine.{PortNode};
ghost use Rattle.cable_world.specs.Wire.{empty_wire};

use crate::rows::{ArrivalRow, WireRow};
use arrayvec::ArrayVec;
use cabling::OutOfMemory;
use port_state::PortMachine;
use std::alloc::Global;

/// The number of ports of each machine.
pub fn port_counts<M: PortMachine>(machines: &[M]) -> ArrayVec<u8, 63>
    requires { length machines.now ≤ 63 }
    ensures { result.items ≡ map (λ (x : PortNode). x.state.ports) (map M.record_of machines.now) }
{
    let mut counts = ArrayVec::new();
    for node in 0..machines.len() {
        counts.push(machines[node].ports());
    }
    counts
}

/// For each node the wires of its ports, where it has so many.
pub fn wire_rows(alloc: Global, ports: &[u8]) -> Result<Vec<WireRow>, OutOfMemory>
    ensures { IfOk result (λ rows.
        rows.items ≡ map (λ count. replicate count empty_wire) ports.now) }
{
    let mut rows = Vec::with_capacity(alloc, ports.len())?;
    for count in ports {
        rows.push(WireRow::new(alloc, *count)?)?;
    }
    Ok(rows)
}

/// For each node what arrives from its wires, as many as `wire_rows` has.
pub fn arrival_rows(alloc: Global, ports: &[u8]) -> Result<Vec<ArrivalRow>, OutOfMemory>
    ensures { IfOk result (λ rows. rows.items ≡ map (λ count. replicate count []) ports.now) }
{
    let mut rows = Vec::with_capacity(alloc, ports.len())?;
    for count in ports {
        rows.push(ArrivalRow::new(alloc, *count))?;
    }
    Ok(rows)
}

/// For each of so many nodes that its list never changed.
pub fn no_changes(alloc: Global, nodes: usize) -> Result<Vec<u32>, OutOfMemory>
    ensures { IfOk result (λ changed. changed.items ≡ replicate nodes 0) }
{
    let mut changed = Vec::with_capacity(alloc, nodes)?;
    for _ in 0..nodes {
        changed.push(0)?;
    }
    Ok(changed)
}
