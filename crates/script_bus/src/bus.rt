//! The bus of a script: what is kept of it, acts and holds.
ghost use Rattle.std.specs.Prelude.{◌≡◌, ◌<◌, ◌≤◌, ◌+◌, ◌==◌, nat_lt, true, false, [], Some, None, Ok, IfOk, IfErr, IfSome, OnOk, IsFalse, IsSomeAnd, All, length, map, replicate};
ghost use Rattle.std.specs.Int.{bit_at};
ghost use Rattle.std.specs.Option.{option_copied, option_map, ok_or};
ghost use Rattle.phy_machine.specs.Any.{any_node};
ghost use Rattle.cable_world.specs.World.{IsPowered, slack_of};
ghost use Rattle.cable_world.specs.Times.{CanBeForced, KeepsTime};
ghost use Rattle.cable_world.specs.Act.{IsAct, act_fault, hold, hold_fault};
ghost use Rattle.cable_world.specs.Run.{IsReached};
ghost use Rattle.cable_world.specs.Unchanged.{TurnsPass};
ghost use Rattle.script_lines.specs.Refusal.{kind_of};
ghost use Rattle.script_text.specs.ReportText.{IsNamedTree, IsNamedReport};
ghost use Rattle.script_trace.specs.Voice.{legend_of};
ghost use Rattle.script_told.specs.Bus.{bus_of_nodes, first_bank, node_named, notes_of, part_with, resets_of, tree_with};
ghost use Rattle.script_told.specs.Step.{Acts, HoldsWire, end_of, notes_after_act};
ghost use Rattle.script_bus.specs.Running.{notes_now, IfFault, IsBus, Stops, reported};

use crate::bank::Bank;
use crate::looks::Looks;
use crate::table::NameTable;
use cable_world::{Act, WorldRun};
use cabling::{Cabling, End, Walk};
use phy_machine::AnyMachine;
use port_state::TimeRanges;
use script_lines::{Kind, LineStop, ScriptTimes};
use script_trace::Legend;
use settle::{Outcome, Part, Report};
use std::alloc::Global;
use std::marker::Model;
use topology_stack::{Name, OutOfMemory};
use world_agenda::AgendaWorld;

/// The number of turns of a script, at most.
const MAX_TURNS: u32 = 2_000_000;

/// What a script keeps beside the world.
#[derive(Drop)]
pub(crate) struct Notes {
    /// What the script says of the times of its nodes.
    pub times: ScriptTimes,
    /// The names of the nodes.
    pub names: NameTable,
    /// The registers of each node.
    pub banks: Vec<Bank>,
    /// What each node saw of the registers, where it keeps a look.
    pub looks: Looks,
    /// The report of the last `settle`, where no act came since.
    pub report: Option<Report>,
    /// The number of reports that were shown.
    pub reports: u32,
    /// The number of maps that were shown.
    pub maps: u32,
}

/// The bus of a script between two of its lines. In a contract it is the bus of the definition.
#[derive(Drop)]
pub struct Bus {
    /// The world: its nodes, its cables and what is on them.
    pub(crate) world: Box<AgendaWorld<AnyMachine>>,
    /// What is kept beside it.
    pub(crate) notes: Box<Notes>,
}

impl Model for Bus {
    ghost use Rattle.script_told.specs.Bus.{Bus};
    ghost use Rattle.std.specs.Coded.{codes};
    ghost use Rattle.port_state.proofs.Lemmas.{clock_code};
    ghost use Rattle.script_bus.specs.Running.{bus_now, IsSound};

    ghost Value = { Bus };

    ghost coded = { Prim.hlevel (codes, clock_code) };

    ghost view = { λ b.
        bus_now (⟦<AgendaWorld<AnyMachine> as WorldRun>⟧.world b.world.value) b.notes.value };

    ghost invariant = { λ b. IsSound
        (bus_now (⟦<AgendaWorld<AnyMachine> as WorldRun>⟧.world b.world.value) b.notes.value)
        (⟦<AgendaWorld<AnyMachine> as WorldRun>⟧.is_spent b.world.value) };
}

/// A tree as it was reported.
#[derive(Clone, Copy)]
pub(crate) struct ReportedTree<'a> {
    pub root: u8,
    pub list: &'a [u32],
    pub order: &'a Walk,
}

/// The end at a port of a node.
pub(crate) fn end_of(node: u8, port: u32) -> End
    ensures { result ≡ end_of node port }
{
    End {
        node,
        port: port.min(255) as u8,
    }
}

/// Whether a part has a node.
fn has(part: &Part, node: u8) -> bool
    ensures { result ≡ (bit_at part.now.nodes node == 1) }
{
    part.nodes.has(node)
}

/// The part of a report with a node.
fn part_with(report: &Report, node: u8) -> Option<&Part>
    ensures { option_copied result ≡ part_with node report.now }
{
    report.parts.as_slice().iter().find(|part| has(part, node))
}

/// Registers that were never used, of so many nodes.
fn first_banks(alloc: Global, nodes: usize) -> Result<Vec<Bank>, OutOfMemory>
    ensures { IfOk result (λ banks. banks.items ≡ replicate nodes first_bank) }
{
    let mut banks = Vec::with_capacity(alloc, nodes)?;
    for _ in 0..nodes {
        banks.push(Bank::new())?;
    }
    Ok(banks)
}

impl Notes {
    /// The notes of so many nodes with these times and names.
    fn new(
        alloc: Global,
        times: ScriptTimes,
        names: NameTable,
        nodes: usize,
    ) -> Result<Notes, OutOfMemory>
        requires { length names ≡ nodes }
        ensures { IfOk result (λ notes. notes_now notes ≡ notes_of times names) }
    {
        Ok(Notes {
            times,
            names,
            banks: first_banks(alloc, nodes)?,
            looks: Looks::none(alloc, nodes)?,
            report: None,
            reports: 0,
            maps: 0,
        })
    }

    /// What is known beside the world.
    pub(crate) fn legend(&self) -> Legend<'_>
        ensures { result ≡ legend_of (notes_now self.now) }
    {
        Legend {
            names: self.names.list().as_slice(),
            nanoseconds: self.times.nanoseconds,
        }
    }

    /// The number of the node with a name.
    fn node(&self, name: &Name) -> Result<u8, LineStop>
        requires { length self.now.names ≤ 63 }
        ensures value { result ≡ ok_or (node_named self.now.names name.now)
            (LineStop.Fault Kind.NoNode) }
        ensures within { IfOk result (λ node. node < length self.now.names) }
    {
        match self.names.number(name) {
            Some(number) => Ok(number as u8),
            None => Err(LineStop::Fault(Kind::NoNode)),
        }
    }

    /// The tree in which a node stands settled, if it does.
    fn reported(&self, node: u8) -> Option<ReportedTree<'_>>
        ensures { option_map reported result ≡ tree_with node (notes_now self.now) }
    {
        let part = part_with(self.report.as_ref()?, node)?;
        match &part.outcome {
            Outcome::Tree { root, list, order } => Some(ReportedTree {
                root: *root,
                list: list.as_slice(),
                order,
            }),
            _ => None,
        }
    }

    /// The tree in which a node stands settled.
    fn tree(&self, node: u8) -> Result<ReportedTree<'_>, LineStop>
        requires { IfSome self.now.report (λ report. IsNamedReport self.now.names report) }
        ensures found { IfOk result (λ tree. tree_with node (notes_now self.now)
            ≡ Some (reported tree)) }
        ensures named { IfOk result (λ tree.
            IsNamedTree self.now.names tree.root tree.list.now tree.order.now) }
        ensures none { IfErr result (λ stop. (stop ≡ LineStop.Fault Kind.NotSettled)
            × (tree_with node (notes_now self.now) ≡ None)) }
    {
        match self.reported(node) {
            Some(tree) => Ok(tree),
            None => Err(LineStop::Fault(Kind::NotSettled)),
        }
    }

    /// An act drops all looks, and the last report no longer stands.
    fn drop_after_act(&mut self)
        ensures { notes_now self.new ≡ notes_after_act (notes_now self.old) }
    {
        self.looks.drop_all();
        self.report = None;
    }
}

/// A law: what holds of each bus.
pub(crate) fn buses_are_sound(bus: &Bus)
    ensures { IsBus bus.now }
{
    let _ = &bus.notes;
}

/// A law: a world that isn't spent is reached.
pub(crate) fn worlds_are_reached<W: WorldRun>(world: &W)
    requires { IsFalse (W.is_spent world.now) }
    ensures { ∥ IsReached (W.world world.now) ∥₁ }
{}

/// A hold in a world in a box.
fn hold_boxed<W: WorldRun>(world: &mut Box<W>, end: End, turns: u16) -> Result<(), LineStop>
    requires { IsFalse (W.is_spent world.old.value) }
    ensures done { OnOk result (W.world world.new.value ≡ hold end turns (W.world world.old.value)) }
    ensures accepted { OnOk result (hold_fault end (W.world world.old.value) ≡ None) }
    ensures passed { OnOk result (TurnsPass 0 (W.world world.old.value) (W.world world.new.value)) }
    ensures stop { IfErr result (IfFault (λ kind.
        IsSomeAnd (hold_fault end (W.world world.old.value)) (λ fault. kind ≡ kind_of fault))) }
    ensures fine { OnOk result (IsFalse (W.is_spent world.new.value)) }
    ensures reached { OnOk result (∥ IsReached (W.world world.new.value) ∥₁) }
{
    world.hold(end, turns)?;
    worlds_are_reached(&**world);
    Ok(())
}

impl Bus {
    /// The bus of nodes with these names, each just powered on, without cables. A cable delays a signal
    /// by at most `delay` turns, 1 to 16. No node takes longer than the longest of these ranges, and all
    /// suit the delay.
    pub fn new(
        alloc: Global,
        names: NameTable,
        machines: Vec<AnyMachine>,
        delay: u8,
        times: ScriptTimes,
    ) -> Result<Bus, OutOfMemory>
        requires some_delay { 1 ≤ delay }
        requires short_delay { delay ≤ 16 }
        requires few { length machines.items ≤ 63 }
        requires named { length names ≡ length machines.items }
        requires power_on { All (λ m. IsPowered delay times.ranges.most (any_node m).state)
            machines.items }
        requires clocks { All (λ m. KeepsTime times.ranges.most
            (any_node m).state.timing (any_node m).clock) machines.items }
        requires forced { All (λ m. CanBeForced (delay + slack_of (map any_node machines.items))
            times.ranges.most (any_node m).state.timing) machines.items }
        ensures { IfOk result (λ bus.
            bus ≡ bus_of_nodes delay times names (map any_node machines.items)) }
    {
        let nodes = machines.len();
        let world = AgendaWorld::with_times(alloc, machines, delay, times.ranges.most)?;
        worlds_are_reached(&world);
        let notes = Box::new(alloc, Notes::new(alloc, times, names, nodes)?)?;
        let world = Box::new(alloc, world)?;
        Ok(Bus { world, notes })
    }

    /// The world, which isn't spent.
    pub(crate) fn world(&self) -> &AgendaWorld<AnyMachine>
        ensures is { ⟦<AgendaWorld<AnyMachine> as WorldRun>⟧.world result.now ≡ self.now.world }
        ensures fine { IsFalse (⟦<AgendaWorld<AnyMachine> as WorldRun>⟧.is_spent result.now) }
    {
        &*self.world
    }

    /// By how many turns a cable delays a signal at most.
    pub(crate) fn delay(&self) -> u8
        ensures value { result ≡ self.now.world.delay }
        ensures some { 1 ≤ result }
        ensures few { result ≤ 16 }
    {
        buses_are_sound(self);
        self.world().delay()
    }

    /// The ranges of the times of nodes.
    pub fn ranges(&self) -> TimeRanges
        ensures { result ≡ self.now.notes.times.ranges }
    {
        self.notes.times.ranges
    }

    /// The number of turns done.
    pub(crate) fn turns(&self) -> u32
        ensures { result ≡ self.now.world.turns }
    {
        self.world().turns()
    }

    /// The nodes with their ports, and the cables between them.
    pub(crate) fn cabling(&self) -> &Cabling
        ensures { result.now ≡ self.now.world.cabling }
    {
        self.world().cabling()
    }

    /// How many resets a node counts.
    pub(crate) fn resets(&self, node: u8) -> u32
        requires { node < length self.now.world.nodes }
        ensures { result ≡ resets_of self.now.world node }
    {
        self.world().view(node).resets
    }

    /// The name of each node.
    pub(crate) fn names(&self) -> &[Name]
        ensures { result.now ≡ self.now.notes.names }
    {
        self.notes.names.list().as_slice()
    }

    /// What is known of the bus beside its world.
    pub(crate) fn legend(&self) -> Legend<'_>
        ensures { result ≡ legend_of self.now.notes }
    {
        self.notes.legend()
    }

    /// The number of the node with a name.
    pub(crate) fn node(&self, name: &Name) -> Result<u8, LineStop>
        ensures value { result ≡ ok_or (node_named self.now.notes.names name.now)
            (LineStop.Fault Kind.NoNode) }
        ensures within { IfOk result (λ node. node < length self.now.world.nodes) }
    {
        self.notes.node(name)
    }

    /// The tree in which a node stands settled.
    pub(crate) fn tree(&self, node: u8) -> Result<ReportedTree<'_>, LineStop>
        ensures found { IfOk result (λ tree. tree_with node self.now.notes ≡ Some (reported tree)) }
        ensures named { IfOk result (λ tree.
            IsNamedTree self.now.notes.names tree.root tree.list.now tree.order.now) }
        ensures none { IfErr result (λ stop. (stop ≡ LineStop.Fault Kind.NotSettled)
            × (tree_with node self.now.notes ≡ None)) }
    {
        self.notes.tree(node)
    }

    /// Fails where the turns that were done and so many more pass the limit.
    pub(crate) fn check_turns(&self, turns: u32) -> Result<(), LineStop>
        ensures within { OnOk result (nat_lt 2000000 (self.now.world.turns + turns) ≡ false) }
        ensures past { IfErr result (λ stop. (stop ≡ LineStop.Fault Kind.TooManyTurns)
            × (nat_lt 2000000 (self.now.world.turns + turns) ≡ true)) }
    {
        buses_are_sound(self);
        if turns > MAX_TURNS - self.turns() {
            return Err(LineStop::Fault(Kind::TooManyTurns));
        }
        Ok(())
    }

    /// Does an act.
    pub(crate) fn act(self, act: &Act) -> Result<Bus, LineStop>
        requires { IsAct act.now }
        ensures done { IfOk result (λ bus. Acts self act.now (Ok (bus, []))) }
        ensures passed { IfOk result (λ bus. TurnsPass 0 self.world bus.world) }
        ensures stop { IfErr result (Stops (Acts self act.now)) }
    {
        let Bus {
            mut world,
            mut notes,
        } = self;
        world.act(act)?;
        worlds_are_reached(&*world);
        notes.drop_after_act();
        Ok(Bus { world, notes })
    }

    /// Does an act that isn't refused.
    pub(crate) fn act_done(self, act: &Act) -> Result<Bus, OutOfMemory>
        requires act { IsAct act.now }
        requires fits { act_fault act.now self.world ≡ None }
        ensures done { IfOk result (λ bus. Acts self act.now (Ok (bus, []))) }
        ensures passed { IfOk result (λ bus. TurnsPass 0 self.world bus.world) }
    {
        match self.act(act) {
            Ok(bus) => Ok(bus),
            Err(LineStop::Memory(error)) => Err(error),
            Err(LineStop::Fault(_)) => unreachable!(),
        }
    }

    /// Holds the wire that leaves an end.
    pub(crate) fn hold(self, end: End, turns: u16) -> Result<Bus, LineStop>
        ensures done { IfOk result (λ bus. HoldsWire self end turns (Ok (bus, []))) }
        ensures stop { IfErr result (Stops (HoldsWire self end turns)) }
    {
        let Bus { mut world, notes } = self;
        hold_boxed(&mut world, end, turns)?;
        Ok(Bus { world, notes })
    }
}
