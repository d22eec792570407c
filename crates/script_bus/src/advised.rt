//! A bus that is advised: cables are pulled, and it settles once more.
ghost use Rattle.std.specs.Prelude.{◌≡◌, ◌++◌, ℕ, List, Ok, IfOk, IfErr, IfSome, IsSomeAnd};
ghost use Rattle.settle.specs.Report.{IsReport};
ghost use Rattle.script_told.specs.Bus as shown;
ghost use Rattle.script_told.specs.Step.{DoesSettle};
ghost use Rattle.script_advice.specs.Advice.{advice_text, all_pulls, AreAdvices, loops_of, PullsLead, Advises};
ghost use Rattle.script_advice.specs.Advising.{ArePullable};
ghost use Rattle.script_bus.specs.Running.{Stops};

use crate::bus::{Bus, buses_are_sound};
use crate::listener::Silent;
use crate::planned::joined;
use cable_world::Act;
use cabling::Cable;
use script_advice::{LoopAdvice, advice_text, advices};
use script_lines::LineStop;
use std::alloc::Global;
use topology_stack::OutOfMemory;

impl Bus {
    /// Pulls cables, each at its lower end.
    fn pull_each(self, cables: &[Cable]) -> Result<Bus, OutOfMemory>
        requires { ArePullable self.world.cabling cables.now }
        ensures { IfOk result (λ bus. PullsLead self cables.now bus) }
    {
        let mut bus = self;
        for cable in cables {
            buses_are_sound(&bus);
            bus = bus.act_done(&Act::Pull { end: cable.a })?;
        }
        Ok(bus)
    }

    /// Pulls the advised cables of each looped component.
    fn pull_all(self, advices: &[LoopAdvice]) -> Result<Bus, OutOfMemory>
        requires { ArePullable self.world.cabling (all_pulls advices.now) }
        ensures { IfOk result (λ bus. PullsLead self (all_pulls advices.now) bus) }
    {
        let mut bus = self;
        for advice in advices {
            buses_are_sound(&bus);
            bus = bus.pull_each(advice.advice.pulls.as_slice())?;
        }
        Ok(bus)
    }

    /// What is advised on a bus that has settled.
    fn advices(&self, alloc: Global) -> Result<Vec<LoopAdvice>, OutOfMemory>
        requires { IsSomeAnd self.now.notes.report (IsReport self.now.world) }
        ensures { IfOk result (λ list. IfSome self.now.notes.report (λ report.
            AreAdvices self.now.world.cabling (loops_of report.parts) list.items)) }
    {
        let report = self.notes.report.as_ref().unwrap();
        advices(alloc, self.cabling(), report.parts.as_slice())
    }

    /// What is advised on a bus that has settled, and its text.
    fn told_advices(&self, alloc: Global) -> Result<(Vec<LoopAdvice>, Vec<u8>), OutOfMemory>
        requires { IsSomeAnd self.now.notes.report (IsReport self.now.world) }
        ensures are { IfOk result (λ r. IfSome self.now.notes.report (λ report.
            AreAdvices self.now.world.cabling (loops_of report.parts) r.0.items)) }
        ensures text { IfOk result (λ r.
            r.1.items ≡ advice_text self.now.notes.names r.0.items) }
        ensures pulls { IfOk result (λ r.
            ArePullable self.now.world.cabling (all_pulls r.0.items)) }
    {
        buses_are_sound(self);
        let advices = self.advices(alloc)?;
        let text = advice_text(alloc, self.names(), &advices)?;
        Ok((advices, text))
    }

    /// The bus settles. Answers a text, and behind it the report.
    fn settled_text(self, alloc: Global, text: Vec<u8>) -> Result<Vec<u8>, LineStop>
        ensures done { IfOk result (λ whole. (after : shown.Bus) × (report : List ℕ)
            × DoesSettle self (Ok (after, report)) × (whole.items ≡ text.items ++ report)) }
        ensures stop { IfErr result (Stops (DoesSettle self)) }
    {
        match self.settle(alloc, &mut Silent) {
            Ok((_, report)) => Ok(joined(text, report.as_slice())?),
            Err(stop) => Err(stop),
        }
    }

    /// The advice on a bus that has settled, and the report once the advised cables are pulled. The
    /// faults are those of `settle`.
    pub fn advised(self, alloc: Global) -> Result<Vec<u8>, LineStop>
        requires { IsSomeAnd self.notes.report (IsReport self.world) }
        ensures done { IfOk result (λ text. (after : shown.Bus)
            × Advises self (Ok (after, text.items))) }
        ensures stop { IfErr result (Stops (Advises self)) }
    {
        let (advices, text) = self.told_advices(alloc)?;
        let bus = self.pull_all(&advices)?;
        bus.settled_text(alloc, text)
    }
}
