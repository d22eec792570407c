//! A trace hears a bus, and grows: a line is appended for each thing that happens.
ghost use Rattle.std.specs.Prelude.{◌≡◌, [], true};
ghost use Rattle.script_trace.specs.Trace.{trace_voice};

use crate::command::put_command;
use crate::legend::Legend;
use crate::listener::Listener;
use crate::watch::{Seen, put_since};
use cable_world::ShowsWires;
use cabling::NodeSet;
use script_lines::Command;
use script_text::OutOfMemory;
use std::alloc::Global;
use std::marker::Model;

/// The lines of a trace so far. In a contract it is their text.
#[derive(Drop)]
pub struct Trace {
    text: Vec<u8>,
}

impl Model for Trace {
    ghost use Rattle.std.specs.Prelude.{List, ℕ};

    ghost Value = { List ℕ };

    ghost view = { λ t. t.text.items };
}

impl Trace {
    /// No lines.
    pub fn new(alloc: Global) -> Trace
        ensures { result ≡ [] }
    {
        Trace {
            text: Vec::new(alloc),
        }
    }

    /// The text of the lines.
    pub fn into_text(self) -> Vec<u8>
        ensures { result.items ≡ self }
    {
        self.text
    }
}

/// A trace to which the lines are appended.
impl Listener for Trace {
    ghost written = { λ trace. trace };

    ghost voice = { trace_voice };

    ghost looks = { true };

    fn command(&mut self, turn: u32, command: &Command) -> Result<(), OutOfMemory> {
        put_command(&mut self.text, turn, command)
    }

    fn since<W: ShowsWires>(
        &mut self,
        legend: &Legend,
        touched: NodeSet,
        seen: &[Seen],
        world: &W,
    ) -> Result<(), OutOfMemory> {
        put_since(&mut self.text, legend.names, touched, seen, world)
    }

    fn hears(&self) -> bool {
        true
    }

    fn news(&self) {}
}
