//! What a listener is told of an act.
ghost use Rattle.std.specs.Prelude.{◌≡◌, ◌++◌, List, IfOk, OnOk, IsTrue};
ghost use Rattle.script_trace.specs.Voice.{legend_of};
ghost use Rattle.script_trace.specs.Step.{seen_before_act};
ghost use Rattle.script_trace.specs.Event.{Seen};
ghost use Rattle.script_trace.specs.News.{picked, IsEnough};

use crate::bus::{Bus, buses_are_sound};
use cable_world::ShowsWires;
use cabling::NodeSet;
use script_lines::Command;
use script_trace::{Listener, Seen, see_before_act, tally_after_act};
use std::alloc::Global;
use topology_stack::OutOfMemory;

/// Has a world in a box count what is under way at the nodes of a set, as `tally_after_act` does.
fn tally_boxed<W: ShowsWires, L: Listener>(world: &mut Box<W>, touched: NodeSet, listener: &L)
    ensures same { W.world world.new.value ≡ W.world world.old.value }
    ensures spent { W.is_spent world.new.value ≡ W.is_spent world.old.value }
{
    tally_after_act(&mut **world, touched, listener);
}

impl Bus {
    /// An act comes. Answers what the nodes of a set show before it, where the listener looks at it.
    pub(crate) fn tell_before<L: Listener>(
        &self,
        alloc: Global,
        command: &Command,
        touched: NodeSet,
        listener: &mut L,
    ) -> Result<Vec<Seen>, OutOfMemory>
        ensures seen { IfOk result (λ seen. IsTrue L.looks → seen.items
            ≡ picked touched 0 (seen_before_act self.now.world 0 self.now.world.nodes)) }
        ensures written { OnOk result (L.written listener.new ≡ L.written listener.old
            ++ L.voice.command self.now.world.turns command.now) }
    {
        buses_are_sound(self);
        listener.command(self.turns(), command)?;
        let nodes = self.names().len();
        let seen = see_before_act(alloc, self.world(), nodes, touched, &*listener)?;
        Ok(seen)
    }

    /// An act was done, before which the nodes of a set showed `seen`; the others show nothing new.
    pub(crate) fn tell_after<L: Listener>(
        &self,
        touched: NodeSet,
        seen: &[Seen],
        listener: &mut L,
    ) -> Result<(), OutOfMemory>
        ensures { OnOk result ((all : List Seen) →
            IsEnough L.looks touched seen.now all self.now.world →
            L.written listener.new ≡ L.written listener.old
            ++ L.voice.since (legend_of self.now.notes) all self.now.world) }
    {
        buses_are_sound(self);
        listener.since(&self.legend(), touched, seen, self.world())?;
        Ok(())
    }

    /// The same bus, after an act that touched the nodes of a set: its world has counted what is under
    /// way there, where the listener hears anything.
    pub(crate) fn tallied<L: Listener>(self, touched: NodeSet, listener: &L) -> Bus
        ensures { result ≡ self }
    {
        let Bus { mut world, notes } = self;
        tally_boxed(&mut world, touched, listener);
        Bus { world, notes }
    }
}
