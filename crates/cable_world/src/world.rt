//! Worlds of machines, whatever the machine.
ghost use Rattle.std.specs.Prelude.{◌≡◌, ◌↔◌, ℕ, ◌+◌, ◌<◌, ◌≤◌, Some, length, map, slice_get, IfOk, OnOk, IsErr, IsTrue, IsFalse, All};
ghost use Rattle.cable_world.specs.Turn.{turn};
ghost use Rattle.port_state.specs.Machine.{PortNode};
ghost use Rattle.cable_world.specs.World.{world_of_nodes, world_with_times};
ghost use Rattle.cable_world.specs.World.{IsNodeAtPowerOn, IsPowered, slack_of};
ghost use Rattle.cable_world.specs.Times.{CanBeForced, KeepsTime, longest_in_range};
ghost use Rattle.cable_world.specs.Run.{IsReached};
ghost use Rattle.cable_world.specs.Parts.{world_record};

use crate::act::{Act, ActStop};
use crate::acting::{act_world, hold_fault, is_memory};
use crate::all_nodes::turn_world;
use crate::rows::{ArrivalRow, WireRow};
use crate::run::{ShowsWires, WorldRun};
use crate::signals::Signals;
use crate::start::{arrival_rows, no_changes, port_counts, wire_rows};
use arrayvec::ArrayVec;
use cabling::{Cabling, End, OutOfMemory};
use port_state::{Outbox, PortMachine, TimeRanges, Timing, View};
use self_id::Attrs;
use std::alloc::{AllocError, Global};

/// A world that keeps a machine for each node and does one turn after the other.
#[derive(Drop)]
pub struct World<M: PortMachine> {
    delay: u8,
    longest: Timing,
    cabling: Cabling,
    machines: Vec<M>,
    wires: Vec<WireRow>,
    // What arrives at the far ends of the wires in a turn; between turns it is of no use.
    arrivals: Vec<ArrivalRow>,
    changed: Vec<u32>,
    turns: u32,
    out: Outbox,
    spent: bool,
    ghost reached: { IsFalse spent → ∥ IsReached (world_record delay longest cabling
        (map M.record_of machines.items) wires.items changed.items turns) ∥₁ },
    ghost marks: { length changed.items ≡ length machines.items },
    ghost same: { IsFalse spent → map length arrivals.items ≡ map length wires.items },
}

impl<M: PortMachine + Drop> World<M> {
    /// The world at power-on: nodes with these machines, each just powered on, and no cable. A cable
    /// delays a signal by at most `delay` turns, 1 to 16. At most 63 nodes, with even clocks.
    pub fn new(alloc: Global, machines: Vec<M>, delay: u8) -> Result<World<M>, OutOfMemory>
        requires some_delay { 1 ≤ delay }
        requires short_delay { delay ≤ 16 }
        requires few { length machines.items ≤ 63 }
        requires power_on { All (λ m. IsNodeAtPowerOn delay (M.record_of m).state) machines.items }
        requires clocks { All (λ m. KeepsTime (longest_in_range delay)
            (M.record_of m).state.timing (M.record_of m).clock) machines.items }
        ensures world { IfOk result (λ w.
            ⟦<World<M> as WorldRun>⟧.world w
            ≡ world_of_nodes delay (map M.record_of machines.items)) }
        ensures spent { IfOk result (λ w. IsFalse (⟦<World<M> as WorldRun>⟧.is_spent w)) }
    {
        World::with_times(alloc, machines, delay, TimeRanges::profile(delay).most)
    }

    /// The same where the times of nodes are in no range, but none is longer than in `longest`, and
    /// they suit the delay. A clock that misses turns has to fit with those that it misses.
    pub fn with_times(
        alloc: Global,
        machines: Vec<M>,
        delay: u8,
        longest: Timing,
    ) -> Result<World<M>, OutOfMemory>
        requires some_delay { 1 ≤ delay }
        requires short_delay { delay ≤ 16 }
        requires few { length machines.items ≤ 63 }
        requires power_on { All (λ m. IsPowered delay longest (M.record_of m).state)
            machines.items }
        requires clocks { All (λ m. KeepsTime longest
            (M.record_of m).state.timing (M.record_of m).clock) machines.items }
        requires forced { All (λ m. CanBeForced (delay + slack_of (map M.record_of machines.items))
            longest (M.record_of m).state.timing) machines.items }
        ensures world { IfOk result (λ w.
            ⟦<World<M> as WorldRun>⟧.world w
            ≡ world_with_times delay longest (map M.record_of machines.items)) }
        ensures spent { IfOk result (λ w. IsFalse (⟦<World<M> as WorldRun>⟧.is_spent w)) }
    {
        let counts = port_counts(&machines);
        let ports = counts.as_slice();
        Ok(World {
            delay,
            longest,
            cabling: Cabling::new(alloc, ports)?,
            wires: wire_rows(alloc, ports)?,
            arrivals: arrival_rows(alloc, ports)?,
            changed: no_changes(alloc, machines.len())?,
            machines,
            turns: 0,
            out: Outbox::new(),
            spent: false,
        })
    }
}

impl<M: PortMachine> WorldRun for World<M> {
    ghost world = { λ w. world_record w.delay w.longest w.cabling
        (map M.record_of w.machines.items) w.wires.items w.changed.items w.turns };

    ghost is_spent = { λ w. w.spent };

    fn act(&mut self, act: &Act) -> Result<(), ActStop> {
        if self.spent {
            return Err(ActStop::Memory(AllocError));
        }
        self.spent = true;
        let done = act_world(
            act,
            &mut self.cabling,
            &mut self.machines,
            &mut self.wires,
            &mut self.changed,
            self.turns,
            &mut self.out,
        );
        self.spent = is_memory(&done);
        done?;
        Ok(())
    }

    fn hold(&mut self, end: End, turns: u16) -> Result<(), ActStop> {
        if self.spent {
            return Err(ActStop::Memory(AllocError));
        }
        if let Some(fault) = hold_fault(&self.cabling, end) {
            return Err(ActStop::Fault(fault));
        }
        self.wires[end.node as usize].hold(end.port, turns);
        Ok(())
    }

    fn turn(&mut self) -> Result<(), OutOfMemory> {
        if self.spent {
            return Err(AllocError);
        }
        self.spent = true;
        turn_world(
            self.delay,
            &self.cabling,
            &mut self.machines,
            &mut self.wires,
            &mut self.changed,
            self.turns,
            &mut self.arrivals,
            &mut self.out,
        )?;
        self.turns += 1;
        self.spent = false;
        Ok(())
    }

    fn run_turns(&mut self, count: u32) -> Result<(), OutOfMemory> {
        if self.spent {
            return Err(AllocError);
        }
        for _ in 0..count {
            self.turn()?;
        }
        Ok(())
    }

    fn delay(&self) -> u8 {
        self.delay
    }

    fn longest(&self) -> Timing {
        self.longest
    }

    fn turns(&self) -> u32 {
        self.turns
    }

    fn cabling(&self) -> &Cabling {
        &self.cabling
    }

    fn view(&self, node: u8) -> View {
        self.machines[node as usize].view()
    }

    fn list(&self, node: u8) -> &[u32] {
        self.machines[node as usize].list()
    }

    fn attrs(&self, node: u8) -> Attrs {
        self.machines[node as usize].attrs()
    }

    fn changed(&self, node: u8) -> u32 {
        self.changed[node as usize]
    }

    fn is_even(&self, node: u8) -> bool {
        self.machines[node as usize].is_even()
    }

    fn misses(&self, node: u8) -> bool {
        self.machines[node as usize].ticks_on(0) == 0
    }

    fn spent(&self) -> bool {
        self.spent
    }

    ghost reached = { λ w. w.reached };
}

impl<M: PortMachine> ShowsWires for World<M> {
    fn count_under_way(&self, end: End) -> usize {
        match self.wires.get(end.node as usize) {
            None => 0,
            Some(row) => row.count(end.port),
        }
    }

    fn under_way(&self, end: End, past: usize) -> Signals<'_> {
        match self.wires.get(end.node as usize) {
            None => Signals::none(),
            Some(row) => row.under_way(end.port, past),
        }
    }

    fn tally(&mut self, node: u8) {
        let at = usize::from(node);
        if at < self.wires.len() {
            self.wires[at].tally();
        }
    }
}
