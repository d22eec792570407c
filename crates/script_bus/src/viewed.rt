//! The last report of a bus as a text, as a picture and as data.
ghost use Rattle.std.specs.Prelude.{IfOk};
ghost use Rattle.script_bus.specs.Viewed.{IsTextOf, IsGraphOf, IsReadLineOf};

use crate::bus::{Bus, buses_are_sound};
use report_views::{report_graph, report_line};
use script_text::report_text;
use std::alloc::Global;
use topology_stack::OutOfMemory;

impl Bus {
    /// The text of the last report, as `report_text` has it. It is empty where an act came since.
    pub fn text(&self, alloc: Global) -> Result<Vec<u8>, OutOfMemory>
        ensures { IfOk result (λ text. IsTextOf self.now text.items) }
    {
        buses_are_sound(self);
        match &self.notes.report {
            Some(report) => report_text(alloc, report, self.notes.reports, self.notes.names.list()),
            None => Ok(Vec::new(alloc)),
        }
    }

    /// The graph of the last report, as `report_graph` has it. It is empty where an act came since.
    pub fn graph(&self, alloc: Global) -> Result<Vec<u8>, OutOfMemory>
        ensures { IfOk result (λ text. IsGraphOf self.now text.items) }
    {
        buses_are_sound(self);
        match &self.notes.report {
            Some(report) => report_graph(alloc, self.names(), self.cabling(), report),
            None => Ok(Vec::new(alloc)),
        }
    }

    /// The line of the last report, as `report_line` has it. It is empty where an act came since.
    pub fn line(&self, alloc: Global) -> Result<Vec<u8>, OutOfMemory>
        ensures { IfOk result (λ text. IsReadLineOf self.now text.items) }
    {
        buses_are_sound(self);
        match &self.notes.report {
            Some(report) => report_line(alloc, self.names(), self.notes.reports, report),
            None => Ok(Vec::new(alloc)),
        }
    }
}
