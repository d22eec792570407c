//! The nodes that a script declares before its bus runs.
ghost use Rattle.std.specs.Prelude.{◌≡◌, ◌<◌, ◌≤◌, ℕ, [], ◌∷◌, ◌++◌, Some, Ok, Err, false, IfOk, IfErr, OnOk, length, map, nat_lt, slice_get, if◌then◌else◌};
ghost use Rattle.port_state.specs.TimeRanges.{AreWithin};
ghost use Rattle.port_state.specs.declared.ranges.TimeRanges.{TimeRanges};
ghost use Rattle.port_state.specs.Machine.{PortNode};
ghost use Rattle.phy_machine.specs.Any.{any_node};
ghost use Rattle.phy_machine.specs.PowerOn.{IsSpec, node_of_spec, with_gap_reset};
ghost use Rattle.script_told.specs.Bus.{bus_of_nodes, is_declared};
ghost use Rattle.script_lines.specs.Range.{IsClockInRange};
ghost use Rattle.script_told.specs.Script.{Declares, SaysTimes, Slows, slows_node, draft_with, takes_times, declaring, with_node, times_of, coins_of};
ghost use Rattle.script_told.specs.Fitting.{AreFitting, IsFitting};
ghost use Rattle.script_bus.specs.Running.{Stops};
ghost use Rattle.script_run.specs.codings.Declaring.{IsDraft, IsLine, IsDeclared, DeclaresNode, draft_now, node_said, plain_said};

use phy_machine::{AnyMachine, FieldMachine, NodeSpec, PackedMachine};
use port_state::{Coins, PortMachine, TimeRanges, Timing};
use script_bus::{Bus, NameTable};
use script_lines::{Kind, LineStop, ScriptTimes, before_first, gap_of, slow_ranges};
use self_id::{Attrs, Standard};
use std::alloc::Global;
use std::mem;
use topology_stack::{Name, OutOfMemory};

/// The number of nodes of a script, at most.
const MAX_NODES: usize = 63;

/// What was declared so far.
#[derive(Drop)]
pub(crate) struct Draft {
    /// A cable delays a signal by at most so many ticks.
    pub delay: u8,
    /// What the script says of the times of its nodes.
    pub times: ScriptTimes,
    /// The names of the nodes.
    pub names: NameTable,
    /// The nodes, each just powered on.
    pub machines: Vec<AnyMachine>,
    /// Whether a clock is slow, so that no further node is declared.
    pub slowed: bool,
}

/// The times that a `node` line gives, in turns.
#[derive(Clone, Copy)]
pub(crate) struct GivenTimes {
    pub hold: Option<u16>,
    pub short: Option<u16>,
    pub long: Option<u16>,
}

/// The coins that a `node` line gives: so many of a word, the first as its lowest bit, or those of a
/// seed.
#[derive(Clone, Copy)]
pub(crate) struct GivenCoins {
    pub word: u64,
    pub len: u8,
    pub seed: Option<u32>,
}

/// What a `node` line says, with the usual values where it doesn't say one.
#[derive(Drop)]
pub(crate) struct NodeLine {
    pub name: Name,
    pub ports: u8,
    /// What the node shows of itself in its self-ID packets.
    pub attrs: Attrs,
    /// Whether its force_root is set.
    pub force: bool,
    /// Whether it sets its gap count back at the second reset.
    pub gap_reset: bool,
    pub times: GivenTimes,
    pub coins: GivenCoins,
    /// Whether its state is kept packed.
    pub packed: bool,
}

/// The times of a node: where one isn't given, the least of its range.
fn times(node: &NodeLine, ranges: TimeRanges) -> Timing
    requires least { AreWithin ranges ranges.least }
    requires line { IsLine ranges node.now }
    ensures value { result
        ≡ times_of ranges node.now.times.hold node.now.times.short node.now.times.long }
    ensures ranged { AreWithin ranges result }
{
    let least = ranges.least;
    let given = node.times;
    Timing {
        hold: given.hold.unwrap_or(least.hold),
        short: given.short.unwrap_or(least.short),
        long: given.long.unwrap_or(least.long),
        ..least
    }
}

/// The coins of a node: those that are given, or of the seed, which is the node's number where none
/// is given.
fn coins(given: GivenCoins, number: u32) -> Coins
    requires { given.len ≤ 64 }
    ensures { result ≡ coins_of number given.word given.len given.seed }
{
    if given.len == 0 {
        Coins::seeded(given.seed.unwrap_or(number))
    } else {
        Coins::bits(given.word, given.len)
    }
}

/// What a node is made of that gets this number, but for whether it resets its gap count.
fn spec(node: &NodeLine, ranges: TimeRanges, number: u32) -> NodeSpec
    requires least { AreWithin ranges ranges.least }
    requires line { IsLine ranges node.now }
    ensures is { IsSpec result }
    ensures timing { AreWithin ranges result.timing }
    ensures value { node_of_spec result ≡ plain_said node.now ranges number }
{
    NodeSpec {
        ports: node.ports,
        attrs: node.attrs,
        timing: times(node, ranges),
        force: node.force,
        coins: coins(node.coins, number),
    }
}

/// A machine of one kind or the other.
fn machine(spec: NodeSpec, packed: bool) -> AnyMachine
    requires { IsSpec spec }
    ensures { any_node result ≡ node_of_spec spec }
{
    if packed {
        AnyMachine::Packed(PackedMachine::new(spec))
    } else {
        AnyMachine::Field(FieldMachine::new(spec))
    }
}

/// A machine that was just powered on, or the same that resets its gap count.
fn with_gap_reset(machine: AnyMachine, gap_reset: bool) -> AnyMachine
    ensures { any_node result ≡ (if gap_reset then with_gap_reset (any_node machine)
        else any_node machine) }
{
    let mut machine = machine;
    if gap_reset {
        machine.reset_gaps();
    }
    machine
}

/// The node that a line declares, just powered on.
fn powered_on(node: &NodeLine, ranges: TimeRanges, number: u32) -> AnyMachine
    requires least { AreWithin ranges ranges.least }
    requires line { IsLine ranges node.now }
    ensures value { any_node result ≡ node_said node.now ranges number }
    ensures power_on { (d : ℕ) → AreFitting d ranges → IsFitting d ranges (any_node result) }
{
    let plain = machine(spec(node, ranges, number), node.packed);
    with_gap_reset(plain, node.gap_reset)
}

/// Before the first machine there is room for all, so that none is moved when more come.
fn make_room(machines: &mut Vec<AnyMachine>) -> Result<(), OutOfMemory>
    ensures { OnOk result (machines.new.items ≡ machines.old.items) }
{
    if machines.is_empty() {
        machines.reserve(MAX_NODES)?;
    }
    Ok(())
}

/// Appends a machine.
fn add_machine(machines: &mut Vec<AnyMachine>, machine: AnyMachine) -> Result<(), OutOfMemory>
    ensures items { OnOk result (machines.new.items ≡ machines.old.items ++ machine ∷ []) }
{
    make_room(machines)?;
    machines.push(machine)?;
    Ok(())
}

impl Draft {
    /// Nothing but a delay, 1 to 16.
    pub fn new(alloc: Global, delay: u8) -> Draft
        requires some { 1 ≤ delay }
        requires few { delay ≤ 16 }
        ensures value { draft_now result ≡ draft_with delay }
        ensures sound { IsDraft result }
    {
        Draft {
            delay,
            times: ScriptTimes::profile(delay),
            names: NameTable::new(alloc),
            machines: Vec::new(alloc),
            slowed: false,
        }
    }

    /// Fails where a clock is slow, where there are 63 nodes, and where one has the name.
    fn check(&self, name: &Name) -> Result<(), LineStop>
        requires { IsDraft self.now }
        ensures even { OnOk result (self.now.slowed ≡ false) }
        ensures few { OnOk result (nat_lt 62 (length self.now.names) ≡ false) }
        ensures new { OnOk result (is_declared self.now.names name.now ≡ false) }
        ensures stop { (node : TimeRanges → ℕ → PortNode)
            → IfErr result (Stops (Declares (Some (draft_now self.now)) name.now node)) }
    {
        if self.slowed {
            return Err(LineStop::Fault(Kind::Late));
        }
        if self.machines.len() >= MAX_NODES {
            return Err(LineStop::Fault(Kind::TooManyNodes));
        }
        if self.names.number(name).is_some() {
            return Err(LineStop::Fault(Kind::Twice));
        }
        Ok(())
    }

    /// Appends a node, which gets the next number. Where there is no memory the names are gone.
    fn push(&mut self, alloc: Global, node: NodeLine) -> Result<(), OutOfMemory>
        requires sound { IsDraft self.old }
        requires line { IsLine self.old.times.ranges node }
        requires few { length self.old.machines.items ≤ 62 }
        requires new { is_declared self.old.names node.name ≡ false }
        ensures value { OnOk result (draft_now self.new ≡ with_node (draft_now self.old)
            node.name (node_said node self.old.times.ranges (length self.old.names))) }
        ensures sound { OnOk result (IsDraft self.new) }
    {
        let number = self.machines.len() as u32;
        let machine = powered_on(&node, self.times.ranges, number);
        add_machine(&mut self.machines, machine)?;
        let names = mem::replace(&mut self.names, NameTable::new(alloc));
        self.names = names.with(node.name)?;
        Ok(())
    }

    /// Declares a node, where no clock is slow yet, it isn't the 64th and its name is new.
    pub fn declare(&mut self, alloc: Global, node: NodeLine) -> Result<(), LineStop>
        requires sound { IsDraft self.old }
        requires line { IsLine self.old.times.ranges node }
        ensures done { OnOk result (IsDeclared self.old node self.new) }
        ensures stop { IfErr result (Stops (DeclaresNode self.old node)) }
        ensures sound { OnOk result (IsDraft self.new) }
    {
        self.check(&node.name)?;
        Ok(self.push(alloc, node)?)
    }

    /// Whether the times of nodes can still be said: no node is declared, and nothing was said of them.
    fn takes_times(&self) -> bool
        requires { IsDraft self.now }
        ensures { result ≡ takes_times (draft_now self.now) }
    {
        self.machines.is_empty() && self.times.nanoseconds.is_none()
    }

    /// The times of nodes are a standard's, of which the delay of a cable is so many nanoseconds, at
    /// least one.
    pub fn say_times(&mut self, standard: Standard, nanoseconds: u32) -> Result<(), LineStop>
        requires sound { IsDraft self.old }
        requires some { 1 ≤ nanoseconds }
        ensures done { OnOk result (SaysTimes (Some (draft_now self.old)) standard nanoseconds
            (Ok (declaring (draft_now self.new), []))) }
        ensures stop { IfErr result
            (Stops (SaysTimes (Some (draft_now self.old)) standard nanoseconds)) }
        ensures sound { OnOk result (IsDraft self.new) }
    {
        if !self.takes_times() {
            return Err(LineStop::Fault(Kind::Late));
        }
        self.times = ScriptTimes::of_standard(standard, self.delay, nanoseconds)?;
        Ok(())
    }

    /// The clock of the node with this number is so many parts per million slower, 1 to 1,000,000, and
    /// misses this turn first, unless a line before said how slow it is.
    fn slow_node(&mut self, number: usize, ppm: u32, first: Option<u32>) -> Result<(), LineStop>
        requires sound { IsDraft self.old }
        requires line { IsClockInRange ppm first }
        requires exists { number < length self.old.machines.items }
        ensures done { OnOk result (slows_node (draft_now self.old) ppm first number
            (slice_get (draft_now self.old).nodes number)
            ≡ Ok (declaring (draft_now self.new), [])) }
        ensures stop { IfErr result (Stops (λ answer. answer
            ≡ slows_node (draft_now self.old) ppm first number
            (slice_get (draft_now self.old).nodes number))) }
        ensures sound { OnOk result (IsDraft self.new) }
    {
        let machine = &mut self.machines[number];
        if !machine.is_even() {
            return Err(LineStop::Fault(Kind::Twice));
        }
        let gap = gap_of(ppm);
        self.times.ranges = slow_ranges(self.delay, self.times.ranges, machine.timing(), gap)?;
        machine.slow_down(gap, before_first(gap, first));
        self.slowed = true;
        Ok(())
    }

    /// The same of the node with a name.
    pub fn slow(&mut self, name: &Name, ppm: u32, first: Option<u32>) -> Result<(), LineStop>
        requires sound { IsDraft self.old }
        requires line { IsClockInRange ppm first }
        ensures done { OnOk result (Slows (Some (draft_now self.old)) name.now ppm first
            (Ok (declaring (draft_now self.new), []))) }
        ensures stop { IfErr result
            (Stops (Slows (Some (draft_now self.old)) name.now ppm first)) }
        ensures sound { OnOk result (IsDraft self.new) }
    {
        match self.names.number(name) {
            None => Err(LineStop::Fault(Kind::NoNode)),
            Some(number) => self.slow_node(number, ppm, first),
        }
    }

    /// The bus of these nodes, without cables.
    pub fn bus(self, alloc: Global) -> Result<Bus, OutOfMemory>
        requires { IsDraft self }
        ensures { IfOk result (λ bus.
            bus ≡ bus_of_nodes self.delay self.times self.names
            (map any_node self.machines.items)) }
    {
        let Draft {
            delay,
            times,
            names,
            machines,
            ..
        } = self;
        Bus::new(alloc, names, machines, delay, times)
    }
}
