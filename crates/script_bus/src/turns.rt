//! Turns of a bus, and its reports.
ghost use Rattle.std.specs.Prelude.{◌≡◌, ◌<◌, ◌≤◌, ◌+◌, ◌++◌, ℕ, List, [], nat_lt, true, false, Ok, IfOk, IfErr, OnOk, IsFalse, length};
ghost use Rattle.settle.specs.Report.{HasSettled, quiet_turns_of};
ghost use Rattle.cable_world.specs.Run.{IsReached};
ghost use Rattle.cable_world.specs.Turn.{turns_after};
ghost use Rattle.cable_world.specs.Unchanged.{TurnsPass};
ghost use Rattle.script_told.specs.Step.{Reports, Turns, DoesSettle};
ghost use Rattle.script_lines.specs.declared.command.Command.TheVariants as command;
ghost use Rattle.script_trace.specs.Voice.{legend_of, turns_told};
ghost use Rattle.script_bus.specs.Running.{Stops};
ghost use Rattle.script_bus.specs.Heard.{Hears};
ghost use Rattle.script_bus.specs.Viewed.{IsTextOf};
ghost use Rattle.script_bus.specs.codings.Standing.{IsReportedNow, IsPassed};

use crate::bus::{Bus, buses_are_sound, worlds_are_reached};
use cable_world::WorldRun;
use script_lines::{Kind, LineStop};
use script_text::{reports_can_be_shown, reports_have_one_text, reports_have_texts};
use script_trace::{Legend, Listener, hear_turns};
use settle::{quiet_turns_for, quiet_turns_settle, report_of};
use std::alloc::Global;
use topology_stack::OutOfMemory;
use world_agenda::TellsStillTurns;

/// Turns of a world in a box, which a listener hears.
fn turns_heard<W: TellsStillTurns, L: Listener>(
    alloc: Global,
    world: &mut Box<W>,
    count: u32,
    legend: &Legend,
    listener: &mut L,
) -> Result<(), OutOfMemory>
    requires turns { (W.world world.old.value).turns + count ≤ 4000000000 }
    requires few { length legend.now.names ≤ 63 }
    requires nodes { length legend.now.names ≡ length (W.world world.old.value).nodes }
    requires fine { IsFalse (W.is_spent world.old.value) }
    ensures done { OnOk result
        (W.world world.new.value ≡ turns_after count (W.world world.old.value)) }
    ensures heard { OnOk result (L.written listener.new ≡ L.written listener.old
        ++ turns_told L.voice legend.now count (W.world world.old.value)) }
    ensures passed { OnOk result
        (TurnsPass count (W.world world.old.value) (W.world world.new.value)) }
    ensures fine { OnOk result (IsFalse (W.is_spent world.new.value)) }
    ensures reached { OnOk result (∥ IsReached (W.world world.new.value) ∥₁) }
{
    hear_turns(alloc, &mut **world, count, legend, listener)?;
    worlds_are_reached(&**world);
    Ok(())
}

impl Bus {
    /// Does turns, within the limit.
    pub(crate) fn go<L: Listener>(
        self,
        alloc: Global,
        count: u32,
        listener: &mut L,
    ) -> Result<Bus, OutOfMemory>
        requires { self.world.turns + count ≤ 2000000 }
        ensures done { IfOk result (λ bus. bus
            ≡ record self { world = turns_after count self.world }) }
        ensures passed { IfOk result (λ bus. TurnsPass count self.world bus.world) }
        ensures heard { OnOk result (L.written listener.new ≡ L.written listener.old
            ++ turns_told L.voice (legend_of self.notes) count self.world) }
    {
        let Bus { mut world, notes } = self;
        let legend = notes.legend();
        turns_heard(alloc, &mut world, count, &legend, listener)?;
        Ok(Bus { world, notes })
    }

    /// Does so many turns. `TooManyTurns` comes where they would pass 2,000,000 turns.
    pub fn turn<L: Listener>(
        self,
        alloc: Global,
        count: u32,
        listener: &mut L,
    ) -> Result<Bus, LineStop>
        ensures done { IfOk result (λ bus. Turns self count (Ok (bus, []))) }
        ensures heard { IfOk result (λ bus. Hears L.voice self (command.Turn count) bus
            (L.written listener.old) (L.written listener.new)) }
        ensures stop { IfErr result (Stops (Turns self count)) }
    {
        self.check_turns(count)?;
        Ok(self.go(alloc, count, listener)?)
    }

    /// The number of quiet turns.
    fn quiet_turns(&self) -> u32
        ensures { result ≡ quiet_turns_of self.now.world }
    {
        buses_are_sound(self);
        quiet_turns_for(self.world())
    }

    /// Fails where the quiet turns pass the limit.
    pub(crate) fn check_quiet_turns(&self) -> Result<(), LineStop>
        ensures within { OnOk result
            (nat_lt 2000000 (self.now.world.turns + quiet_turns_of self.now.world) ≡ false) }
        ensures past { IfErr result (λ stop. (stop ≡ LineStop.Fault Kind.TooManyTurns)
            × (nat_lt 2000000 (self.now.world.turns + quiet_turns_of self.now.world) ≡ true)) }
    {
        self.check_turns(self.quiet_turns())
    }

    /// Reports a world that has settled. The number of the report is the next one.
    fn report(&mut self, alloc: Global) -> Result<(), OutOfMemory>
        requires settled { ∥ HasSettled self.old.world ∥₁ }
        requires few { self.old.notes.reports < self.old.world.turns }
        ensures { OnOk result (IsReportedNow self.old self.new) }
    {
        let report = report_of(alloc, &*self.world)?;
        reports_can_be_shown(&*self.world);
        self.notes.reports += 1;
        self.notes.report = Some(report);
        Ok(())
    }

    /// Does the quiet turns, within the limit, and reports what the bus came to.
    pub(crate) fn pass<L: Listener>(
        self,
        alloc: Global,
        listener: &mut L,
    ) -> Result<Bus, OutOfMemory>
        requires { nat_lt 2000000 (self.world.turns + quiet_turns_of self.world) ≡ false }
        ensures reports { IfOk result (λ bus. (text : List ℕ) × Reports self (Ok (bus, text))) }
        ensures heard { OnOk result (IsPassed L.voice (legend_of self.notes) self.world
            (L.written listener.old) (L.written listener.new)) }
    {
        buses_are_sound(&self);
        quiet_turns_settle();
        reports_have_texts();
        let quiet = self.quiet_turns();
        let mut bus = self.go(alloc, quiet, listener)?;
        bus.report(alloc)?;
        Ok(bus)
    }

    /// Does the quiet turns, and reports what the bus came to; the text of the report isn't made.
    /// `TooManyTurns` comes where they would pass 2,000,000 turns.
    pub fn settled<L: Listener>(self, alloc: Global, listener: &mut L) -> Result<Bus, LineStop>
        ensures done { IfOk result (λ bus. (text : List ℕ) × IsTextOf bus text
            × DoesSettle self (Ok (bus, text))) }
        ensures heard { IfOk result (λ bus. Hears L.voice self command.Settle bus
            (L.written listener.old) (L.written listener.new)) }
        ensures stop { IfErr result (Stops (DoesSettle self)) }
    {
        self.check_quiet_turns()?;
        Ok(self.pass(alloc, listener)?)
    }

    /// Does the quiet turns, and answers the text of the report, whose number is the next one.
    /// `TooManyTurns` comes where they would pass 2,000,000 turns.
    pub fn settle<L: Listener>(
        self,
        alloc: Global,
        listener: &mut L,
    ) -> Result<(Bus, Vec<u8>), LineStop>
        ensures done { IfOk result (λ r. DoesSettle self (Ok (r.0, r.1.items))) }
        ensures heard { IfOk result (λ r. Hears L.voice self command.Settle r.0
            (L.written listener.old) (L.written listener.new)) }
        ensures stop { IfErr result (Stops (DoesSettle self)) }
    {
        reports_have_one_text();
        let bus = self.settled(alloc, listener)?;
        let text = bus.text(alloc)?;
        Ok((bus, text))
    }
}
