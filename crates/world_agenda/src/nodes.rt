//! The nodes of an agenda, all of them.
ghost use Rattle.std.specs.Prelude.{◌≡◌, ◌+◌, ◌<◌, ◌≤◌, ℕ, None, Some, [], length, map, OnOk, IfOk, IsFalse, All, if◌then◌else◌};
ghost use Rattle.cabling.specs.Wiring.{ports_of};
ghost use Rattle.port_state.specs.declared.timing.Timing.{Timing};
ghost use Rattle.port_state.specs.Machine.{NodeStep};
ghost use Rattle.cable_world.specs.Act.{ActLeads, IsAct, act_fault};
ghost use Rattle.cable_world.specs.Answer.{IfFault, IsMemory};
ghost use Rattle.cable_world.specs.Lawful.{IsLawful};
ghost use Rattle.cable_world.specs.Parts.{world_record};
ghost use Rattle.cable_world.specs.Turn.{turn, node_turn, wires_after_sends, same_list};
ghost use Rattle.cable_world.specs.Turn.{all_wires_after_sends, last_changes};
ghost use Rattle.cable_world.specs.running.ActEnds.{AreSameBut};
ghost use Rattle.cable_world.specs.running.Hearing.{AreQuietBut, inbox_of};
ghost use Rattle.cable_world.specs.running.NodeActs.{AreLawful};
ghost use Rattle.cable_world.specs.running.Steps.{turns_of, HasItsPorts};
ghost use Rattle.cabling.specs.NodeSet.{Holds, IsEmpty, AgreeBut, IsWithin};
ghost use Rattle.world_agenda.specs.Clock.{caught_up};
ghost use Rattle.world_agenda.specs.Now.{now_at};
ghost use Rattle.world_agenda.specs.Agenda.{AreAtBut, AreBelow, IdlesBut, Knows};
ghost use Rattle.world_agenda.specs.Heard.{AreSparedBut};
ghost use Rattle.world_agenda.specs.Live.{HasLive, HasGivers};

use crate::heard::{Heard, hearers};
use crate::live::{note_live, turn_live};
use crate::node::AgendaNode;
use cable_world::parts::{ArrivalRow, WireRow, act_world, turn_one};
use cable_world::{Act, ActStop};
use cabling::{Cabling, NodeSet, OutOfMemory};
use port_state::{Outbox, PortMachine, PortSet};

// ---- between turns

/// Every machine comes to the end of turn number `turns`. If that is turn number `level`, each stands
/// there already.
fn catch_up<M: PortMachine>(nodes: &mut [AgendaNode<M>], turns: u32, level: u32)
    requires behind { All (λ n. n.clock ≤ turns) nodes.old }
    requires idle { All (λ n. turns ≤ n.clock + n.idle) nodes.old }
    requires level { level ≡ turns → All (λ n. n.clock ≡ turns) nodes.old }
    ensures nodes { map (λ n. M.record_of n.machine) nodes.new ≡ now_at turns nodes.old }
    ensures clocks { All (λ n. n.clock ≡ turns) nodes.new }
    ensures ends { map (λ n. n.clock + n.idle) nodes.new ≡ map (λ n. n.clock + n.idle) nodes.old }
{
    if level == turns {
        return;
    }
    for at in 0..nodes.len() {
        nodes[at].catch_up(turns);
    }
}

/// The clocks of the nodes of a set are set to turn number `turns`, at which those of the others stand.
fn set_clocks<M: PortMachine>(nodes: &mut [AgendaNode<M>], set: NodeSet, turns: u32)
    requires near { AreBelow set (length nodes.old) }
    requires others { AreAtBut set turns (map (λ n. n.clock) nodes.old) }
    ensures clocks { All (λ n. n.clock ≡ turns) nodes.new }
    ensures nodes { map (λ n. M.record_of n.machine) nodes.new
        ≡ map (λ n. M.record_of n.machine) nodes.old }
    ensures same { AreSameBut (Holds set) nodes.old nodes.new }
{
    let mut left = set;
    while let Some(node) = left.take_least() {
        nodes[node as usize].clock = turns;
    }
}

/// Does an act, when `turns` turns are done. First every node catches up; none is behind if `level` is
/// `turns`. Then the nodes that the act may have touched count as due soon, and their wires as live.
pub fn act_agenda<M: PortMachine>(
    act: &Act,
    cabling: &mut Cabling,
    nodes: &mut [AgendaNode<M>],
    wires: &mut [WireRow],
    changed: &mut [u32],
    turns: u32,
    level: u32,
    out: &mut Outbox,
    agenda: &mut Agenda,
    live: &mut NodeSet,
) -> Result<(), ActStop>
    requires is { IsAct act.now }
    requires behind { All (λ n. n.clock ≤ turns) nodes.old }
    requires idle { All (λ n. turns ≤ n.clock + n.idle) nodes.old }
    requires level { level ≡ turns → All (λ n. n.clock ≡ turns) nodes.old }
    requires lawful { AreLawful cabling.old (now_at turns nodes.old) wires.old changed.old turns }
    requires knows { Knows agenda.old.soon agenda.old.next (map (λ n. n.clock + n.idle) nodes.old) }
    ensures done { OnOk result ((d : ℕ) (t : Timing) → ActLeads act.now
        (world_record d t cabling.old (now_at turns nodes.old) wires.old changed.old turns)
        (world_record d t cabling.new (now_at turns nodes.new) wires.new changed.new turns)) }
    ensures accepted { OnOk result ((d : ℕ) (t : Timing) → act_fault act.now
        (world_record d t cabling.old (now_at turns nodes.old) wires.old changed.old turns)
        ≡ None) }
    ensures rows { OnOk result (map length wires.new ≡ map length wires.old) }
    ensures refused { IfFault result (λ f. (d : ℕ) (t : Timing) → act_fault act.now
        (world_record d t cabling.old (now_at turns nodes.old) wires.old changed.old turns)
        ≡ Some f) }
    ensures same { IfFault result (λ f. (cabling.new ≡ cabling.old)
        × (now_at turns nodes.new ≡ now_at turns nodes.old)
        × (wires.new ≡ wires.old) × (changed.new ≡ changed.old)) }
    ensures memory { IsMemory result → (d : ℕ) (t : Timing) → act_fault act.now
        (world_record d t cabling.old (now_at turns nodes.old) wires.old changed.old turns) ≡ None }
    ensures clocks { All (λ n. n.clock ≡ turns) nodes.new }
    ensures knows { (IsMemory result → ⊥) → Knows agenda.new.soon agenda.new.next
        (map (λ n. n.clock + n.idle) nodes.new) }
    ensures live { (IsMemory result → ⊥) → HasLive live.old wires.old → HasLive live.new wires.new }
{
    catch_up(nodes, turns, level);
    match act_world(act, cabling, nodes, wires, changed, turns, out) {
        Ok(touched) => {
            set_clocks(nodes, touched, turns);
            agenda.soon = agenda.soon.union(touched);
            *live = live.union(touched);
            Ok(())
        }
        Err(stop) => match stop {
            ActStop::Fault(fault) => Err(ActStop::Fault(fault)),
            ActStop::Memory(stop) => {
                set_clocks(nodes, NodeSet::first(nodes.len() as u8), turns);
                Err(ActStop::Memory(stop))
            }
        },
    }
}

// ---- a turn

/// Which nodes are due, as far as the world knows: those of `soon` may be in the next turn, and the
/// others are idle to the end of turn number `next`, unless they hear something.
#[derive(Clone, Copy)]
pub struct Agenda {
    pub soon: NodeSet,
    pub next: u32,
}

impl Agenda {
    /// Nothing is known.
    pub fn unknown() -> Agenda
        ensures next { result.next ≡ 0 }
        ensures soon { result.soon ≡ 0 }
    {
        Agenda {
            soon: NodeSet::none(),
            next: 0,
        }
    }

    /// For how many turns after the first `turns` no node is due, `most` at most. They may be more.
    pub fn rest(&self, turns: u32, most: u32) -> u32
        ensures most { result ≤ most }
        ensures none { 0 < result → IsEmpty self.now.soon }
        ensures end { 0 < result → turns + result ≤ self.now.next }
    {
        if !self.soon.is_empty() {
            return 0;
        }
        most.min(self.next.saturating_sub(turns))
    }

    /// A node is idle to the end of this turn, after a turn that comes after `turns` turns.
    fn note(&mut self, node: u8, turns: u32, end: u32)
        requires few { node < 63 }
        requires early { turns < 4000000000 }
        ensures others { AgreeBut self.old.soon self.new.soon node }
        ensures next { self.new.next ≤ self.old.next }
        ensures end { (Holds self.new.soon node → ⊥) → self.new.next ≤ end }
    {
        if end <= turns + 1 {
            self.soon.insert(node);
        } else {
            self.next = self.next.min(end);
        }
    }
}

/// Takes a node into the set of those that are due after `turns` turns, if it may be: it is idle to the
/// end of this turn. Else `next` isn't past this turn.
fn note_due(node: u8, end: u32, turns: u32, next: u32, due: &mut NodeSet) -> u32
    requires { node < 63 }
    ensures others { AgreeBut due.old due.new node }
    ensures idle { (Holds due.new node → ⊥) → turns + 1 ≤ end }
    ensures next { result ≤ next }
    ensures end { (Holds due.new node → ⊥) → result ≤ end }
{
    if end <= turns {
        due.insert(node);
        return next;
    }
    next.min(end)
}

/// The nodes that are due in the turn after `turns` turns, if they hear nothing before. The others
/// don't come to the end of their idle turns before the end of the turn that `agenda` then tells.
pub fn due_nodes<M: PortMachine>(
    nodes: &[AgendaNode<M>],
    turns: u32,
    agenda: &mut Agenda,
) -> NodeSet
    requires few { length nodes.now ≤ 63 }
    requires early { turns < 4000000000 }
    requires below { AreBelow agenda.old.soon (length nodes.now) }
    requires idle { IdlesBut agenda.old.soon agenda.old.next
        (map (λ n. n.clock + n.idle) nodes.now) }
    ensures due { IdlesBut result (turns + 1) (map (λ n. n.clock + n.idle) nodes.now) }
    ensures later { IdlesBut result agenda.new.next (map (λ n. n.clock + n.idle) nodes.now) }
    ensures below { AreBelow result (length nodes.now) }
{
    if turns < agenda.next {
        return agenda.soon;
    }
    let mut due = NodeSet::none();
    let mut next = u32::MAX;
    for at in 0..nodes.len() {
        next = note_due(at as u8, nodes[at].end(), turns, next, &mut due);
    }
    agenda.next = next;
    due
}

/// A node's part of the turn that comes after `turns` turns: its machine catches up and takes its turn,
/// and the agenda notes for how long it is idle then. Answers when its list changed last, which was at
/// the end of turn number `last` before. At the ports that aren't in `heard` nothing arrives.
fn turn_node<M: PortMachine>(
    node: &mut AgendaNode<M>,
    cabling: &Cabling,
    number: u8,
    arrivals: &[ArrivalRow],
    heard: PortSet,
    turns: u32,
    last: u32,
    out: &mut Outbox,
    wires: &mut WireRow,
    agenda: &mut Agenda,
) -> Result<u32, OutOfMemory>
    requires few { turns < 4000000000 }
    requires near { number < 63 }
    requires exists { number < length cabling.now }
    requires quiet { AreQuietBut heard arrivals.now cabling.now number }
    requires behind { node.old.clock ≤ turns }
    requires idle { turns ≤ node.old.clock + node.old.idle }
    requires ports { length (ports_of cabling.now number)
        ≡ (caught_up turns node.old.clock (M.record_of node.old.machine)).state.ports }
    ensures node { OnOk result (
        caught_up (turns + 1) node.new.clock (M.record_of node.new.machine)
        ≡ (node_turn (inbox_of arrivals.now 0 (ports_of cabling.now number))
        (caught_up turns node.old.clock (M.record_of node.old.machine))).node) }
    ensures sent { OnOk result (wires.new ≡ wires_after_sends 0
        (node_turn (inbox_of arrivals.now 0 (ports_of cabling.now number))
        (caught_up turns node.old.clock (M.record_of node.old.machine))).sends wires.old) }
    ensures changed { IfOk result (λ at. at
        ≡ (if same_list (caught_up turns node.old.clock (M.record_of node.old.machine))
        (caught_up (turns + 1) node.new.clock (M.record_of node.new.machine)) then last
        else turns + 1)) }
    ensures clock { node.new.clock ≡ turns + 1 }
    ensures idle { turns ≤ node.new.clock + node.new.idle }
    ensures others { AgreeBut agenda.old.soon agenda.new.soon number }
    ensures next { agenda.new.next ≤ agenda.old.next }
    ensures end { (Holds agenda.new.soon number → ⊥) →
        agenda.new.next ≤ node.new.clock + node.new.idle }
{
    node.catch_up(turns);
    let changed = turn_one(
        node,
        cabling,
        number,
        arrivals,
        heard,
        turns + 1,
        last,
        out,
        wires,
    );
    node.clock = turns + 1;
    agenda.note(number, turns, node.end());
    changed
}

/// The turn of every node, which comes after `turns` turns. Those that hear something or are due take
/// it, and the clocks of the others stay behind. `live` has each node whose wires are live, before and
/// after it.
fn turn_nodes<M: PortMachine>(
    nodes: &mut [AgendaNode<M>],
    cabling: &Cabling,
    arrivals: &[ArrivalRow],
    heard: &Heard,
    visited: NodeSet,
    turns: u32,
    changed: &mut [u32],
    out: &mut Outbox,
    wires: &mut [WireRow],
    agenda: &mut Agenda,
    live: &mut NodeSet,
) -> Result<(), OutOfMemory>
    requires early { turns < 4000000000 }
    requires few { length nodes.old ≤ 63 }
    requires nodes { length nodes.old ≡ length cabling.now }
    requires below { AreBelow visited (length nodes.old) }
    requires spared { AreSparedBut heard.now arrivals.now cabling.now }
    requires within { IsWithin heard.now.nodes visited }
    requires due { IdlesBut visited (turns + 1) (map (λ n. n.clock + n.idle) nodes.old) }
    requires later { IdlesBut visited agenda.old.next (map (λ n. n.clock + n.idle) nodes.old) }
    requires changes { length changed.old ≡ length cabling.now }
    requires rows { length wires.old ≡ length cabling.now }
    requires behind { All (λ n. n.clock ≤ turns) nodes.old }
    requires idle { All (λ n. turns ≤ n.clock + n.idle) nodes.old }
    requires ports { HasItsPorts cabling.now (now_at turns nodes.old) }
    requires live { HasLive live.old wires.old }
    ensures node { OnOk result (now_at (turns + 1) nodes.new
        ≡ map (λ (s : NodeStep). s.node)
        (turns_of arrivals.now cabling.now (now_at turns nodes.old))) }
    ensures changes { OnOk result (changed.new ≡ last_changes (turns + 1)
        (now_at turns nodes.old) (now_at (turns + 1) nodes.new) changed.old) }
    ensures wires { OnOk result (wires.new ≡ all_wires_after_sends
        (turns_of arrivals.now cabling.now (now_at turns nodes.old)) wires.old) }
    ensures behind { OnOk result (All (λ n. n.clock ≤ turns + 1) nodes.new) }
    ensures idle { All (λ n. turns ≤ n.clock + n.idle) nodes.new }
    ensures ahead { OnOk result (All (λ n. turns + 1 ≤ n.clock + n.idle) nodes.new) }
    ensures soon { OnOk result (IdlesBut agenda.new.soon agenda.new.next
        (map (λ n. n.clock + n.idle) nodes.new)) }
    ensures near { OnOk result (AreBelow agenda.new.soon (length nodes.old)) }
    ensures live { OnOk result (HasLive live.new wires.new) }
{
    agenda.soon = NodeSet::none();
    let mut left = visited;
    while let Some(node) = left.take_least() {
        let at = node as usize;
        changed[at] = turn_node(
            &mut nodes[at],
            cabling,
            node,
            arrivals,
            heard.at(node),
            turns,
            changed[at],
            out,
            &mut wires[at],
            agenda,
        )?;
        note_live(&wires[at], node, live);
    }
    Ok(())
}

/// The turn of a world after `turns` turns. Before and after it `live` has each node whose wires are
/// live, and `givers` each from whose wires something arrives.
pub fn turn_agenda<M: PortMachine>(
    delay: u8,
    cabling: &Cabling,
    nodes: &mut [AgendaNode<M>],
    wires: &mut [WireRow],
    changed: &mut [u32],
    turns: u32,
    arrivals: &mut [ArrivalRow],
    out: &mut Outbox,
    agenda: &mut Agenda,
    live: &mut NodeSet,
    givers: &mut NodeSet,
) -> Result<(), OutOfMemory>
    requires few { turns < 4000000000 }
    requires short { delay ≤ 16 }
    requires lawful { (t : Timing) × IsLawful (world_record delay t cabling.now
        (now_at turns nodes.old) wires.old changed.old turns) }
    requires same { map length arrivals.old ≡ map length wires.old }
    requires behind { All (λ n. n.clock ≤ turns) nodes.old }
    requires idle { All (λ n. turns ≤ n.clock + n.idle) nodes.old }
    requires knows { Knows agenda.old.soon agenda.old.next (map (λ n. n.clock + n.idle) nodes.old) }
    requires live { HasLive live.old wires.old }
    requires givers { HasGivers givers.old arrivals.old }
    ensures done { OnOk result ((t : Timing) →
        world_record delay t cabling.now
        (now_at (turns + 1) nodes.new) wires.new changed.new (turns + 1)
        ≡ turn (world_record delay t cabling.now
        (now_at turns nodes.old) wires.old changed.old turns)) }
    ensures same { OnOk result (map length arrivals.new ≡ map length wires.new) }
    ensures behind { OnOk result (All (λ n. n.clock ≤ turns + 1) nodes.new) }
    ensures idle { All (λ n. turns ≤ n.clock + n.idle) nodes.new }
    ensures ahead { OnOk result (All (λ n. turns + 1 ≤ n.clock + n.idle) nodes.new) }
    ensures knows { OnOk result (Knows agenda.new.soon agenda.new.next
        (map (λ n. n.clock + n.idle) nodes.new)) }
    ensures live { OnOk result (HasLive live.new wires.new) }
    ensures givers { OnOk result (HasGivers givers.new arrivals.new) }
{
    turn_live(wires, delay, arrivals, live, givers)?;
    let mut heard = Heard::none();
    hearers(cabling, arrivals, *givers, &mut heard);
    let visited = due_nodes(nodes, turns, agenda).union(heard.nodes);
    turn_nodes(
        nodes, cabling, arrivals, &heard, visited, turns, changed, out, wires, agenda, live,
    )?;
    Ok(())
}
