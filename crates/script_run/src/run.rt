//! The run of a script.
ghost use Rattle.std.specs.Prelude.{◌≡◌, ◌≤◌, ◌<◌, ◌∷◌, ◌++◌, [], ℕ, true, List, Some, None, Ok, Err, IfOk, IfErr, OnOk, length};
ghost use Rattle.script_lines.specs.Range.{IsClockInRange, IsInRange};
ghost use Rattle.script_told.specs.Script.{Declares, Delays, SaysTimes, Slows, DoesAtStage, DoesOnBus, fresh, declaring, running, bus_of, draft_of, ranges_of};
ghost use Rattle.script_told.specs.Step.{Does};
ghost use Rattle.script_bus.specs.Heard.{Hears};
ghost use Rattle.script_bus.specs.Happening.{happens};
ghost use Rattle.script_bus.specs.Running.{IfFault, Stops};
ghost use Rattle.script_run.specs.codings.Declaring.{IsDraft, IsLine, draft_now, node_said};
ghost use Rattle.script_run.specs.codings.Going.{HearsAt, Prints};
ghost use Rattle.script_run.specs.Viewed.{prints_report};
ghost use Rattle.script_lines.specs.declared.command.Command.TheVariants as command;

use crate::draft::{Draft, GivenCoins, GivenTimes, NodeLine};
use crate::stage::{Phase, Stage};
use port_state::TimeRanges;
use script_bus::{Bus, Listener};
use script_lines::{Command, Kind, LineStop};
use self_id::{Attrs, Standard};
use std::alloc::Global;
use std::mem;
use topology_stack::{Name, OutOfMemory};

/// By how many turns a cable delays a signal at most, where no line says it.
const USUAL_DELAY: u8 = 4;

/// A command is done on a bus. What it prints is answered, but not its report.
fn on_bus<L: Listener>(
    alloc: Global,
    bus: Bus,
    command: &Command,
    listener: &mut L,
) -> Result<(Bus, Vec<u8>), LineStop>
    requires { IsInRange bus.notes.times.ranges command.now }
    ensures done { IfOk result (λ r. (text : List ℕ)
        × Prints (prints_report command.now) (running r.0) r.1.items text
        × Does bus command.now (Ok (r.0, text))) }
    ensures heard { IfOk result (λ r. Hears L.voice bus command.now r.0
        (L.written listener.old) (L.written listener.new)) }
    ensures stop { IfErr result (Stops (Does bus command.now)) }
{
    match command {
        Command::Settle => {
            let bus = bus.settled(alloc, listener)?;
            Ok((bus, Vec::new(alloc)))
        }
        Command::Plan { name } => bus.do_plan(alloc, name, listener),
        _ => bus.command(alloc, command, listener),
    }
}

/// The bus without nodes.
#[inline(never)]
fn empty_bus(alloc: Global) -> Result<Bus, OutOfMemory>
    ensures { IfOk result (λ bus. bus ≡ bus_of fresh) }
{
    Draft::new(alloc, USUAL_DELAY).bus(alloc)
}

/// The bus of the nodes that are declared.
#[inline(never)]
fn declared_bus(alloc: Global, draft: Box<Draft>) -> Result<Bus, OutOfMemory>
    requires { IsDraft draft.value }
    ensures { IfOk result (λ bus. bus ≡ bus_of (declaring (draft_now draft.value))) }
{
    Box::into_inner(draft).bus(alloc)
}

impl Stage {
    /// The ranges of the times of nodes.
    pub fn ranges(&self) -> TimeRanges
        ensures { result ≡ ranges_of self.now }
    {
        match &self.phase {
            Phase::Fresh => TimeRanges::profile(USUAL_DELAY),
            Phase::Declaring(draft) => draft.times.ranges,
            Phase::Running(bus) => bus.ranges(),
        }
    }

    /// The bus that runs from here on.
    #[inline(always)]
    pub fn bus(self, alloc: Global) -> Result<Bus, OutOfMemory>
        ensures { IfOk result (λ bus. bus ≡ bus_of self) }
    {
        match self.phase {
            Phase::Fresh => empty_bus(alloc),
            Phase::Declaring(draft) => declared_bus(alloc, draft),
            Phase::Running(bus) => Ok(bus),
        }
    }

    /// What is declared so far, where declarations are taken.
    fn draft(self, alloc: Global) -> Result<Box<Draft>, LineStop>
        ensures value { IfOk result (λ draft. draft_of self ≡ Some (draft_now draft.value)) }
        ensures sound { IfOk result (λ draft. IsDraft draft.value) }
        ensures ranges { IfOk result (λ draft. draft.value.times.ranges ≡ ranges_of self) }
        ensures late { IfErr result (IfFault (λ kind. (kind ≡ Kind.Late) × (draft_of self ≡ None))) }
    {
        match self.phase {
            Phase::Fresh => Ok(Box::new(alloc, Draft::new(alloc, USUAL_DELAY))?),
            Phase::Declaring(draft) => Ok(draft),
            Phase::Running(_) => Err(LineStop::Fault(Kind::Late)),
        }
    }

    /// A node is declared, where declarations are taken.
    fn declare(&mut self, alloc: Global, line: NodeLine) -> Result<Vec<u8>, LineStop>
        requires { IsLine (ranges_of self.old) line }
        ensures done { IfOk result (λ text. Declares (draft_of self.old) line.name (node_said line)
            (Ok (self.new, text.items))) }
        ensures stop { IfErr result
            (Stops (Declares (draft_of self.old) line.name (node_said line))) }
    {
        let mut draft = mem::replace(self, Stage::new()).draft(alloc)?;
        draft.declare(alloc, line)?;
        self.phase = Phase::Declaring(draft);
        Ok(Vec::new(alloc))
    }

    /// A command that runs the bus. What it prints is answered, but not its report.
    fn run<L: Listener>(
        &mut self,
        alloc: Global,
        command: &Command,
        listener: &mut L,
    ) -> Result<Vec<u8>, LineStop>
        requires { IsInRange (ranges_of self.old) command.now }
        ensures done { IfOk result (λ words. (text : List ℕ)
            × Prints (prints_report command.now) self.new words.items text
            × DoesOnBus self.old command.now (Ok (self.new, text))) }
        ensures heard { OnOk result (HearsAt L.voice self.old command.now self.new
            (L.written listener.old) (L.written listener.new)) }
        ensures stop { IfErr result (Stops (DoesOnBus self.old command.now)) }
    {
        let bus = mem::replace(self, Stage::new()).bus(alloc)?;
        let (bus, words) = on_bus(alloc, bus, command, listener)?;
        self.phase = Phase::Running(bus);
        Ok(words)
    }

    /// A command in which something happens to the world, and nothing is printed.
    #[inline(always)]
    pub fn happen<L: Listener>(
        &mut self,
        alloc: Global,
        command: &Command,
        listener: &mut L,
    ) -> Result<(), LineStop>
        requires range { IsInRange (ranges_of self.old) command.now }
        requires happens { happens command.now ≡ true }
        ensures done { OnOk result (DoesOnBus self.old command.now (Ok (self.new, []))) }
        ensures heard { OnOk result (HearsAt L.voice self.old command.now self.new
            (L.written listener.old) (L.written listener.new)) }
        ensures stop { IfErr result (Stops (DoesOnBus self.old command.now)) }
    {
        let bus = mem::replace(self, Stage::new()).bus(alloc)?;
        let bus = bus.happen(alloc, command, listener)?;
        self.phase = Phase::Running(bus);
        Ok(())
    }

    /// Turns pass, 1 to 2,000,000.
    #[inline(always)]
    pub fn pass<L: Listener>(
        &mut self,
        alloc: Global,
        count: u32,
        listener: &mut L,
    ) -> Result<(), LineStop>
        ensures done { OnOk result (DoesAtStage self.old (command.Turn count) (Ok (self.new, []))) }
        ensures heard { OnOk result (HearsAt L.voice self.old (command.Turn count) self.new
            (L.written listener.old) (L.written listener.new)) }
        ensures stop { IfErr result (Stops (DoesAtStage self.old (command.Turn count))) }
    {
        let bus = mem::replace(self, Stage::new()).bus(alloc)?;
        self.phase = Phase::Running(bus.turn(alloc, count, listener)?);
        Ok(())
    }

    /// The delay is said.
    fn say_delay(&mut self, alloc: Global, delay: u8) -> Result<Vec<u8>, LineStop>
        requires some { 1 ≤ delay }
        requires few { delay ≤ 16 }
        ensures done { IfOk result (λ text.
            Delays self.old delay (Ok (self.new, text.items))) }
        ensures stop { IfErr result (Stops (Delays self.old delay)) }
    {
        if !matches!(self.phase, Phase::Fresh) {
            return Err(LineStop::Fault(Kind::Late));
        }
        self.phase = Phase::Declaring(Box::new(alloc, Draft::new(alloc, delay))?);
        Ok(Vec::new(alloc))
    }

    /// The times of nodes are said.
    fn say_times(
        &mut self,
        alloc: Global,
        standard: Standard,
        nanoseconds: u32,
    ) -> Result<Vec<u8>, LineStop>
        requires { 1 ≤ nanoseconds }
        ensures done { IfOk result (λ text. SaysTimes (draft_of self.old) standard nanoseconds
            (Ok (self.new, text.items))) }
        ensures stop { IfErr result (Stops (SaysTimes (draft_of self.old) standard nanoseconds)) }
    {
        let mut draft = mem::replace(self, Stage::new()).draft(alloc)?;
        draft.say_times(standard, nanoseconds)?;
        self.phase = Phase::Declaring(draft);
        Ok(Vec::new(alloc))
    }

    /// The clock of a node is slow.
    fn slow(
        &mut self,
        alloc: Global,
        name: &Name,
        ppm: u32,
        first: Option<u32>,
    ) -> Result<Vec<u8>, LineStop>
        requires { IsClockInRange ppm first }
        ensures done { IfOk result (λ text. Slows (draft_of self.old) name.now ppm first
            (Ok (self.new, text.items))) }
        ensures stop { IfErr result (Stops (Slows (draft_of self.old) name.now ppm first)) }
    {
        let mut draft = mem::replace(self, Stage::new()).draft(alloc)?;
        draft.slow(name, ppm, first)?;
        self.phase = Phase::Declaring(draft);
        Ok(Vec::new(alloc))
    }

    /// A command is done, and the listener hears what happens in it. What it prints is answered, but not
    /// its report. Where it isn't done, nothing is left of the stage.
    pub fn follow<L: Listener>(
        &mut self,
        alloc: Global,
        command: Command,
        listener: &mut L,
    ) -> Result<Vec<u8>, LineStop>
        requires { IsInRange (ranges_of self.old) command }
        ensures done { IfOk result (λ words. (text : List ℕ)
            × Prints (prints_report command) self.new words.items text
            × DoesAtStage self.old command (Ok (self.new, text))) }
        ensures heard { OnOk result (HearsAt L.voice self.old command self.new
            (L.written listener.old) (L.written listener.new)) }
        ensures stop { IfErr result (Stops (DoesAtStage self.old command)) }
    {
        match command {
            Command::Node {
                name,
                ports,
                speed,
                link,
                contender,
                force,
                power,
                gap,
                gap_reset,
                hold,
                short,
                long,
                coin_word,
                coin_len,
                seed,
                packed,
            } => {
                let attrs = Attrs {
                    link,
                    gap,
                    speed,
                    delay: 0,
                    contender,
                    power,
                    initiated: false,
                };
                let line = NodeLine {
                    name,
                    ports,
                    attrs,
                    force,
                    gap_reset,
                    times: GivenTimes { hold, short, long },
                    coins: GivenCoins {
                        word: coin_word,
                        len: coin_len,
                        seed,
                    },
                    packed,
                };
                self.declare(alloc, line)
            }
            Command::Delay { delay } => self.say_delay(alloc, delay),
            Command::Times {
                standard,
                nanoseconds,
            } => self.say_times(alloc, standard, nanoseconds),
            Command::Clock { name, ppm, first } => self.slow(alloc, &name, ppm, first),
            _ => self.run(alloc, &command, listener),
        }
    }
}
