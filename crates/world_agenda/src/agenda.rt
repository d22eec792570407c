//! The world that visits the nodes that hear something or are due.
ghost use Rattle.std.specs.Prelude.{◌≡◌, ◌↔◌, ◌+◌, ◌<◌, ◌≤◌, ℕ, length, map, IfOk, IsFalse, All};
ghost use Rattle.cable_world.specs.World.{world_of_nodes, world_with_times};
ghost use Rattle.cable_world.specs.World.{IsNodeAtPowerOn, IsPowered, slack_of};
ghost use Rattle.cable_world.specs.Times.{CanBeForced, KeepsTime, longest_in_range};
ghost use Rattle.cable_world.specs.Run.{IsReached};
ghost use Rattle.cable_world.specs.Parts.{world_record};
ghost use Rattle.cable_world.specs.Still.{AreSilent};
ghost use Rattle.cable_world.specs.Turn.{turns_after};
ghost use Rattle.world_agenda.specs.Now.{now_at};
ghost use Rattle.world_agenda.specs.Agenda.{Knows};
ghost use Rattle.world_agenda.specs.Live.{HasLive, HasGivers};
ghost use Rattle.world_agenda.specs.Slow.{HasSlow};

use crate::clocks::{missing, slow_nodes, ticking};
use crate::heard::awaiting;
use crate::live::{live_silent, pass_live};
use crate::node::AgendaNode;
use crate::nodes::{Agenda, act_agenda, due_nodes, turn_agenda};
use crate::still::TellsStillTurns;
use cable_world::parts::{
    ArrivalRow, WireRow, arrival_rows, hold_fault, is_memory, no_changes, port_counts, wire_rows,
};
use cable_world::{
    Act, ActStop, ShowsWires, Signals, WorldRun, still_turns_pass, worlds_stay_lawful,
    worlds_stay_reached,
};
use cabling::{Cabling, End, NodeSet, OutOfMemory};
use port_state::{Outbox, PortMachine, TimeRanges, Timing, View};
use self_id::Attrs;
use std::alloc::{AllocError, Global};

/// A world whose nodes stand at turns of their own. A turn visits those that hear something or are due;
/// the turns in which no node is are passed over.
#[derive(Drop)]
pub struct AgendaWorld<M: PortMachine> {
    delay: u8,
    longest: Timing,
    cabling: Cabling,
    nodes: Vec<AgendaNode<M>>,
    wires: Vec<WireRow>,
    // What arrives at the far ends of the wires in a turn; between turns it is of no use.
    arrivals: Vec<ArrivalRow>,
    changed: Vec<u32>,
    turns: u32,
    // The last turn at whose end no node stood behind the others.
    level: u32,
    // Which nodes are due.
    agenda: Agenda,
    // The nodes on whose wires something may be under way, or of which one may be held.
    live: NodeSet,
    // The nodes from whose wires something may arrive by `arrivals`.
    givers: NodeSet,
    // The nodes whose clocks miss turns.
    slow: NodeSet,
    out: Outbox,
    spent: bool,
    ghost reached: { IsFalse spent → ∥ IsReached (world_record delay longest cabling
        (now_at turns nodes.items) wires.items changed.items turns) ∥₁ },
    ghost early: { level ≤ turns },
    ghost abreast: { IsFalse spent → level ≡ turns → All (λ n. n.clock ≡ turns) nodes.items },
    ghost behind: { IsFalse spent → All (λ n. n.clock ≤ turns) nodes.items },
    ghost idle: { All (λ n. turns ≤ n.clock + n.idle) nodes.items },
    ghost marks: { length changed.items ≡ length nodes.items },
    ghost same: { IsFalse spent → map length arrivals.items ≡ map length wires.items },
    ghost knows: { IsFalse spent → Knows agenda.soon agenda.next
        (map (λ n. n.clock + n.idle) nodes.items) },
    ghost lives: { IsFalse spent → HasLive live wires.items },
    ghost gives: { IsFalse spent → HasGivers givers arrivals.items },
    ghost slows: { IsFalse spent → HasSlow slow (now_at turns nodes.items) },
}

/// The machines as nodes at power-on.
fn agenda_nodes<M: PortMachine + Drop>(
    alloc: Global,
    machines: Vec<M>,
) -> Result<Vec<AgendaNode<M>>, OutOfMemory>
    ensures nodes { IfOk result (λ nodes. map (λ n. M.record_of n.machine) nodes.items
        ≡ map M.record_of machines.items) }
    ensures clocks { IfOk result (λ nodes. All (λ n. n.clock ≡ 0) nodes.items) }
{
    let mut nodes = Vec::with_capacity(alloc, machines.len())?;
    for machine in machines {
        nodes.push(AgendaNode::new(machine))?;
    }
    Ok(nodes)
}

impl<M: PortMachine + Drop> AgendaWorld<M> {
    /// The world at power-on: nodes with these machines, each just powered on, and no cable. A cable
    /// delays a signal by at most `delay` turns, 1 to 16. At most 63 nodes, with even clocks.
    pub fn new(alloc: Global, machines: Vec<M>, delay: u8) -> Result<AgendaWorld<M>, OutOfMemory>
        requires some_delay { 1 ≤ delay }
        requires short_delay { delay ≤ 16 }
        requires few { length machines.items ≤ 63 }
        requires power_on { All (λ m. IsNodeAtPowerOn delay (M.record_of m).state) machines.items }
        requires clocks { All (λ m. KeepsTime (longest_in_range delay)
            (M.record_of m).state.timing (M.record_of m).clock) machines.items }
        ensures world { IfOk result (λ w. ⟦<AgendaWorld<M> as WorldRun>⟧.world w
            ≡ world_of_nodes delay (map M.record_of machines.items)) }
        ensures spent { IfOk result (λ w. IsFalse (⟦<AgendaWorld<M> as WorldRun>⟧.is_spent w)) }
    {
        AgendaWorld::with_times(alloc, machines, delay, TimeRanges::profile(delay).most)
    }

    /// The same where the times of nodes are in no range, but none is longer than in `longest`, and
    /// they suit the delay. A clock that misses turns has to fit with those that it misses.
    pub fn with_times(
        alloc: Global,
        machines: Vec<M>,
        delay: u8,
        longest: Timing,
    ) -> Result<AgendaWorld<M>, OutOfMemory>
        requires some_delay { 1 ≤ delay }
        requires short_delay { delay ≤ 16 }
        requires few { length machines.items ≤ 63 }
        requires power_on { All (λ m. IsPowered delay longest (M.record_of m).state)
            machines.items }
        requires clocks { All (λ m. KeepsTime longest
            (M.record_of m).state.timing (M.record_of m).clock) machines.items }
        requires forced { All (λ m. CanBeForced (delay + slack_of (map M.record_of machines.items))
            longest (M.record_of m).state.timing) machines.items }
        ensures world { IfOk result (λ w. ⟦<AgendaWorld<M> as WorldRun>⟧.world w
            ≡ world_with_times delay longest (map M.record_of machines.items)) }
        ensures spent { IfOk result (λ w. IsFalse (⟦<AgendaWorld<M> as WorldRun>⟧.is_spent w)) }
    {
        worlds_stay_reached();
        let counts = port_counts(&machines);
        let ports = counts.as_slice();
        Ok(AgendaWorld {
            delay,
            longest,
            agenda: Agenda::unknown(),
            live: NodeSet::first(machines.len() as u8),
            slow: slow_nodes(&machines),
            cabling: Cabling::new(alloc, ports)?,
            wires: wire_rows(alloc, ports)?,
            arrivals: arrival_rows(alloc, ports)?,
            changed: no_changes(alloc, machines.len())?,
            givers: NodeSet::first(machines.len() as u8),
            nodes: agenda_nodes(alloc, machines)?,
            turns: 0,
            level: 0,
            out: Outbox::new(),
            spent: false,
        })
    }
}

impl<M: PortMachine> AgendaWorld<M> {
    /// For how many of the next turns no signal is under way and no node is due, `most` at most. They
    /// may be more.
    fn rest(&self, most: u32) -> u32
        requires sound { IsFalse self.now.spent }
        ensures most { result ≤ most }
        ensures silent { 0 < result → AreSilent self.now.wires.items }
        ensures idle { 0 < result →
            All (λ n. self.now.turns + result ≤ n.clock + n.idle) self.now.nodes.items }
    {
        let agenda = self.agenda;
        let rest = agenda.rest(self.turns, most);
        if rest == 0 {
            return 0;
        }
        if !live_silent(&self.wires, self.live) {
            return 0;
        }
        rest
    }

    /// Passes over turns in which no signal is under way and no node is due, `most` at most. Answers how
    /// many these were.
    fn pass_over(&mut self, most: u32) -> u32
        requires sound { IsFalse self.old.spent }
        requires few { self.old.turns + most ≤ 4000000000 }
        ensures most { result ≤ most }
        ensures done { world_record self.new.delay self.new.longest self.new.cabling
            (now_at self.new.turns self.new.nodes.items) self.new.wires.items
            self.new.changed.items self.new.turns
            ≡ turns_after result (world_record self.old.delay self.old.longest self.old.cabling
            (now_at self.old.turns self.old.nodes.items) self.old.wires.items
            self.old.changed.items self.old.turns) }
        ensures nodes { length self.new.nodes.items ≡ length self.old.nodes.items }
        ensures turns { self.new.turns ≡ self.old.turns + result }
        ensures sound { IsFalse self.new.spent }
    {
        let rest = self.rest(most);
        if rest == 0 {
            return 0;
        }
        worlds_stay_lawful();
        worlds_stay_reached();
        still_turns_pass();
        pass_live(&mut self.wires, rest, self.live);
        self.turns += rest;
        rest
    }
}

impl<M: PortMachine> WorldRun for AgendaWorld<M> {
    ghost world = { λ w. world_record w.delay w.longest w.cabling
        (now_at w.turns w.nodes.items) w.wires.items w.changed.items w.turns };

    ghost is_spent = { λ w. w.spent };

    fn act(&mut self, act: &Act) -> Result<(), ActStop> {
        if self.spent {
            return Err(ActStop::Memory(AllocError));
        }
        worlds_stay_lawful();
        worlds_stay_reached();
        self.spent = true;
        let done = act_agenda(
            act,
            &mut self.cabling,
            &mut self.nodes,
            &mut self.wires,
            &mut self.changed,
            self.turns,
            self.level,
            &mut self.out,
            &mut self.agenda,
            &mut self.live,
        );
        self.level = self.turns;
        self.spent = is_memory(&done);
        done
    }

    fn hold(&mut self, end: End, turns: u16) -> Result<(), ActStop> {
        if self.spent {
            return Err(ActStop::Memory(AllocError));
        }
        if let Some(fault) = hold_fault(&self.cabling, end) {
            return Err(ActStop::Fault(fault));
        }
        worlds_stay_lawful();
        worlds_stay_reached();
        self.wires[end.node as usize].hold(end.port, turns);
        self.live.insert(end.node);
        Ok(())
    }

    fn turn(&mut self) -> Result<(), OutOfMemory> {
        if self.spent {
            return Err(AllocError);
        }
        worlds_stay_lawful();
        worlds_stay_reached();
        self.spent = true;
        turn_agenda(
            self.delay,
            &self.cabling,
            &mut self.nodes,
            &mut self.wires,
            &mut self.changed,
            self.turns,
            &mut self.arrivals,
            &mut self.out,
            &mut self.agenda,
            &mut self.live,
            &mut self.givers,
        )?;
        self.turns += 1;
        self.spent = false;
        Ok(())
    }

    fn run_turns(&mut self, count: u32) -> Result<(), OutOfMemory> {
        if self.spent {
            return Err(AllocError);
        }
        let mut left = count - self.pass_over(count);
        while left > 0 {
            self.turn()?;
            left -= 1;
            left -= self.pass_over(left);
        }
        Ok(())
    }

    fn delay(&self) -> u8 {
        self.delay
    }

    fn longest(&self) -> Timing {
        self.longest
    }

    fn turns(&self) -> u32 {
        self.turns
    }

    fn cabling(&self) -> &Cabling {
        &self.cabling
    }

    fn view(&self, node: u8) -> View {
        self.nodes[node as usize].view_at(self.turns)
    }

    fn list(&self, node: u8) -> &[u32] {
        self.nodes[node as usize].list_at(self.turns)
    }

    fn attrs(&self, node: u8) -> Attrs {
        self.nodes[node as usize].attrs_at(self.turns)
    }

    fn changed(&self, node: u8) -> u32 {
        self.changed[node as usize]
    }

    fn is_even(&self, node: u8) -> bool {
        self.nodes[node as usize].is_even_at(self.turns)
    }

    fn misses(&self, node: u8) -> bool {
        self.nodes[node as usize].misses_at(self.turns)
    }

    fn spent(&self) -> bool {
        self.spent
    }

    ghost reached = { λ w. w.reached };
}

impl<M: PortMachine> ShowsWires for AgendaWorld<M> {
    fn count_under_way(&self, end: End) -> usize {
        match self.wires.get(end.node as usize) {
            None => 0,
            Some(row) => row.count(end.port),
        }
    }

    fn under_way(&self, end: End, past: usize) -> Signals<'_> {
        match self.wires.get(end.node as usize) {
            None => Signals::none(),
            Some(row) => row.under_way(end.port, past),
        }
    }

    fn tally(&mut self, node: u8) {
        let at = usize::from(node);
        if at < self.wires.len() {
            self.wires[at].tally();
        }
    }
}

impl<M: PortMachine> TellsStillTurns for AgendaWorld<M> {
    fn still_turns(&self, most: u32) -> u32 {
        if self.spent {
            return 0;
        }
        ticking(&self.nodes, self.slow, self.turns, self.rest(most))
    }

    fn touched(&self) -> NodeSet {
        if self.spent {
            return NodeSet::none();
        }
        worlds_stay_lawful();
        let mut agenda = self.agenda;
        let due = due_nodes(&self.nodes, self.turns, &mut agenda);
        let heard = awaiting(&self.cabling, &self.wires, self.live);
        due.union(heard)
            .union(missing(&self.nodes, self.slow, self.turns))
    }
}
