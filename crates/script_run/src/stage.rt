//! A script that is gone through, a line at a time.
ghost use Rattle.std.specs.Prelude.{◌≡◌, Ok, IfOk, IfErr, OnOk, IsSomeAnd};
ghost use Rattle.settle.specs.Report.{IsReport};
ghost use Rattle.script_told.specs.Step.{DoesSettle};
ghost use Rattle.script_told.specs.Script.{DoesAtStage, fresh, running, bus_of, ranges_of};
ghost use Rattle.script_bus.specs.Running.{IfFault, Stops};
ghost use Rattle.script_run.specs.Viewed.{prints_report};
ghost use Rattle.script_run.specs.codings.Going.{Ends, Follows, LineLeads, LineFails};
ghost use Rattle.script_bus.specs.Viewed.{IsTextOf, IsReadLineOf};
ghost use Rattle.script_lines.specs.Range.{IsInRange};

use crate::draft::Draft;
use crate::reading::{Reading, Writer};
use script_bus::{Bus, happens};
use script_lines::{Command, LineStop, parse_line_with, says_nothing, turn_line};
use std::alloc::Global;
use std::marker::Model;
use topology_stack::OutOfMemory;

/// What a script has come to between two of its lines.
#[derive(Drop)]
pub(crate) enum Phase {
    /// No command came yet.
    Fresh,
    /// Nodes are declared.
    Declaring(Box<Draft>),
    /// The bus runs.
    Running(Bus),
}

/// A script that is gone through, between two of its lines. In a contract it is the stage of the
/// definition.
#[derive(Drop)]
pub(crate) struct Stage {
    pub(crate) phase: Phase,
}

impl Model for Stage {
    ghost use Rattle.script_told.specs.Script.{Stage};
    ghost use Rattle.std.specs.Coded.{codes};
    ghost use Rattle.port_state.proofs.Lemmas.{clock_code};
    ghost use Rattle.script_run.specs.codings.Going.{stage_now, IsPhase};

    ghost Value = { Stage };

    ghost coded = { Prim.hlevel (codes, clock_code) };

    ghost view = { λ s. stage_now s.phase };

    ghost invariant = { λ s. IsPhase s.phase };
}

/// Whether a command prints a report.
fn prints_report(command: &Command) -> bool
    ensures { result ≡ prints_report command.now }
{
    matches!(command, Command::Settle | Command::Plan { .. })
}

impl Stage {
    /// Before the first line.
    pub fn new() -> Stage
        ensures { result ≡ fresh }
    {
        Stage {
            phase: Phase::Fresh,
        }
    }

    /// The bus runs.
    fn of_bus(bus: Bus) -> Stage
        ensures { result ≡ running bus }
    {
        Stage {
            phase: Phase::Running(bus),
        }
    }

    /// The text of the last report, where the bus runs and has one.
    pub fn text(&self, alloc: Global) -> Result<Vec<u8>, OutOfMemory>
        ensures { IfOk result (λ text. IsTextOf (bus_of self.now) text.items) }
    {
        match &self.phase {
            Phase::Running(bus) => bus.text(alloc),
            _ => Ok(Vec::new(alloc)),
        }
    }

    /// The line of the last report, where the bus runs and has one.
    pub fn line(&self, alloc: Global) -> Result<Vec<u8>, OutOfMemory>
        ensures { IfOk result (λ line. IsReadLineOf (bus_of self.now) line.items) }
    {
        match &self.phase {
            Phase::Running(bus) => bus.line(alloc),
            _ => Ok(Vec::new(alloc)),
        }
    }

    /// The same as `obey`, of each command.
    fn obey_any<R: Reading>(
        &mut self,
        alloc: Global,
        command: Command,
        heard: &mut R::Hears,
        out: &mut Vec<u8>,
    ) -> Result<(), LineStop>
        requires { IsInRange (ranges_of self.old) command }
        ensures done { OnOk result (Follows R.Hears.voice R.Writes.writes self.old command self.new
            out.old.items out.new.items
            (R.Hears.written heard.old) (R.Hears.written heard.new)) }
        ensures stop { IfErr result (Stops (DoesAtStage self.old command)) }
    {
        let prints = prints_report(&command);
        let words = self.follow(alloc, command, heard)?;
        R::Writes::write(alloc, prints, &*self, words, out)?;
        Ok(())
    }

    /// A command is done, and what is written of it and heard in it is added.
    #[inline(always)]
    fn obey<R: Reading>(
        &mut self,
        alloc: Global,
        command: Command,
        heard: &mut R::Hears,
        out: &mut Vec<u8>,
    ) -> Result<(), LineStop>
        requires { IsInRange (ranges_of self.old) command }
        ensures done { OnOk result (Follows R.Hears.voice R.Writes.writes self.old command self.new
            out.old.items out.new.items
            (R.Hears.written heard.old) (R.Hears.written heard.new)) }
        ensures stop { IfErr result (Stops (DoesAtStage self.old command)) }
    {
        if happens(&command) {
            return self.happen(alloc, &command, heard);
        }
        self.obey_any::<R>(alloc, command, heard, out)
    }

    /// A line is taken, as `take` has it.
    #[inline(never)]
    fn take_command<R: Reading>(
        &mut self,
        alloc: Global,
        line: &[u8],
        heard: &mut R::Hears,
        out: &mut Vec<u8>,
    ) -> Result<(), LineStop>
        ensures done { OnOk result (LineLeads R.Hears.voice R.Writes.writes self.old line.now
            self.new out.old.items out.new.items
            (R.Hears.written heard.old) (R.Hears.written heard.new)) }
        ensures stop { IfErr result (IfFault (LineFails self.old line.now)) }
    {
        let Some(command) = parse_line_with(alloc, line, self.ranges())? else {
            return Ok(());
        };
        self.obey::<R>(alloc, command, heard, out)
    }

    /// The same. Where the line is nothing, that is seen at once.
    fn take_other<R: Reading>(
        &mut self,
        alloc: Global,
        line: &[u8],
        heard: &mut R::Hears,
        out: &mut Vec<u8>,
    ) -> Result<(), LineStop>
        ensures done { OnOk result (LineLeads R.Hears.voice R.Writes.writes self.old line.now
            self.new out.old.items out.new.items
            (R.Hears.written heard.old) (R.Hears.written heard.new)) }
        ensures stop { IfErr result (IfFault (LineFails self.old line.now)) }
    {
        if says_nothing(line) {
            return Ok(());
        }
        self.take_command::<R>(alloc, line, heard, out)
    }

    /// A line is taken, and what is written of it and heard in it is added.
    pub fn take<R: Reading>(
        &mut self,
        alloc: Global,
        line: &[u8],
        heard: &mut R::Hears,
        out: &mut Vec<u8>,
    ) -> Result<(), LineStop>
        ensures done { OnOk result (LineLeads R.Hears.voice R.Writes.writes self.old line.now
            self.new out.old.items out.new.items
            (R.Hears.written heard.old) (R.Hears.written heard.new)) }
        ensures stop { IfErr result (IfFault (LineFails self.old line.now)) }
    {
        match turn_line(line) {
            Some(count) => Ok(self.pass(alloc, count, heard)?),
            None => self.take_other::<R>(alloc, line, heard, out),
        }
    }

    /// The bus when the `settle` behind the last line is done. What is written of that and heard in it
    /// is added.
    pub fn end<R: Reading>(
        self,
        alloc: Global,
        heard: &mut R::Hears,
        out: &mut Vec<u8>,
    ) -> Result<Bus, LineStop>
        ensures done { IfOk result (λ bus. Ends R.Hears.voice R.Writes.writes self bus
            out.old.items out.new.items
            (R.Hears.written heard.old) (R.Hears.written heard.new)) }
        ensures reported { IfOk result (λ bus. IsSomeAnd bus.notes.report (IsReport bus.world)) }
        ensures stop { IfErr result (Stops (DoesSettle (bus_of self))) }
    {
        let bus = self.bus(alloc)?.settled(alloc, heard)?;
        let stage = Stage::of_bus(bus);
        R::Writes::write(alloc, true, &stage, Vec::new(alloc), out)?;
        Ok(stage.bus(alloc)?)
    }
}
