//! Ticks of a node's machine.

use crate::nodes::spec;
use phy_machine::{FieldMachine, PackedMachine};
use port_state::{Coins, Outbox, PortMachine};

/// Which machine ticks.
#[derive(Clone, Copy)]
pub enum Kind {
    Field,
    Packed,
}

/// What its ticks do.
#[derive(Clone, Copy)]
pub enum Pace {
    /// They raise the timer alone.
    Idle,
    /// Each takes a row of the step table.
    Busy,
}

/// How many ticks a node without cables takes from the end of its hold to its ID.
const ROWS: u32 = 6;

/// A node of three ports, without cables.
#[derive(Drop)]
pub struct Nodes {
    field: FieldMachine,
    packed: PackedMachine,
    out: Outbox,
}

/// One tick.
fn tick<M: PortMachine>(machine: &mut M, out: &mut Outbox) {
    out.clear();
    machine.tick_into(out);
}

/// The node passes over its hold, and takes the six rows up to its ID.
fn identify<M: PortMachine>(machine: &mut M, out: &mut Outbox) {
    machine.pass(machine.idle_for());
    for _ in 0..ROWS {
        tick(machine, out);
    }
}

/// A tick of this sort, so many times; for a busy one the node resets the bus, and identifies itself, once
/// every six times.
fn run<M: PortMachine>(machine: &mut M, out: &mut Outbox, pace: Pace, times: u32) -> u64 {
    match pace {
        Pace::Idle => {
            for _ in 0..times {
                tick(machine, out);
            }
        }
        Pace::Busy => {
            for _ in 0..times / ROWS {
                out.clear();
                machine.disturb_into(out);
                identify(machine, out);
            }
        }
    }
    machine.list().len() as u64
}

impl Nodes {
    /// Machines that have identified themselves.
    pub fn new() -> Nodes {
        let mut nodes = Nodes {
            field: FieldMachine::new(spec(3, Coins::bits(0, 1))),
            packed: PackedMachine::new(spec(3, Coins::bits(0, 1))),
            out: Outbox::new(),
        };
        identify(&mut nodes.field, &mut nodes.out);
        identify(&mut nodes.packed, &mut nodes.out);
        nodes
    }

    /// So many ticks.
    pub fn run(&mut self, pace: Pace, kind: Kind, times: u32) -> u64 {
        match kind {
            Kind::Field => run(&mut self.field, &mut self.out, pace, times),
            Kind::Packed => run(&mut self.packed, &mut self.out, pace, times),
        }
    }
}
