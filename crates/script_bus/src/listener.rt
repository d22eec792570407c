//! Nobody hears what happens on a bus.
ghost use Rattle.std.specs.Prelude.{[], false};
ghost use Rattle.script_bus.specs.Heard.{silence};

use cable_world::ShowsWires;
use cabling::NodeSet;
use script_lines::Command;
use script_trace::{Legend, Listener, Seen};
use topology_stack::OutOfMemory;

/// Writes nothing, and passes over turns in which nothing happens where the world does.
#[derive(Clone, Copy, Drop)]
pub struct Silent;

impl Listener for Silent {
    ghost written = { λ s. [] };

    ghost voice = { silence };

    ghost looks = { false };

    fn command(&mut self, _turn: u32, _command: &Command) -> Result<(), OutOfMemory> {
        Ok(())
    }

    fn since<W: ShowsWires>(
        &mut self,
        _legend: &Legend,
        _touched: NodeSet,
        _seen: &[Seen],
        _world: &W,
    ) -> Result<(), OutOfMemory> {
        Ok(())
    }

    fn hears(&self) -> bool {
        false
    }

    fn news(&self) {}
}
