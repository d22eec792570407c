//! The dump of waveforms of a bus.
ghost use Rattle.std.specs.Prelude.{◌≡◌, ◌++◌, IfOk};
ghost use Rattle.script_trace.specs.Voice.{legend_of};
ghost use Rattle.script_trace.specs.waves.Head.{head};

use crate::bus::{Bus, buses_are_sound};
use script_trace::Waves;
use std::alloc::Global;
use topology_stack::OutOfMemory;

impl Bus {
    /// The dump of these changes, which led to this bus.
    pub fn dump(&self, alloc: Global, waves: Waves) -> Result<Vec<u8>, OutOfMemory>
        ensures { IfOk result (λ dump. dump.items
            ≡ head (legend_of self.now.notes) self.now.world ++ waves) }
    {
        buses_are_sound(self);
        waves.dump(alloc, &self.legend(), self.world())
    }
}
