//! Who hears what happens on a bus.
ghost use Rattle.std.specs.Prelude.{◌≡◌, ◌≤◌, ◌++◌, ℕ, List, Bool, IfOk, OnOk, IsTrue, IsFalse, length};
ghost use Rattle.script_trace.specs.Event.{Seen};
ghost use Rattle.script_trace.specs.News.{picked, IsEnough};
ghost use Rattle.script_trace.specs.Step.{seen_before_act};
ghost use Rattle.script_trace.specs.Voice.{Voice, TellsNewsAlone, TellsNothing};

use crate::legend::Legend;
use crate::watch::{Seen, seen_before_act};
use cable_world::ShowsWires;
use cabling::NodeSet;
use script_lines::Command;
use script_text::OutOfMemory;
use std::alloc::Global;

/// Hears the acts, the holds and the turns of a bus, and writes down what its voice tells of them, which
/// may be nothing. The legend has the name of each node by its number, 63 at most. Each call fails for want
/// of memory alone.
pub trait Listener {
    // what it has written
    ghost written: { Self → List ℕ };

    // how it tells what happens
    ghost voice: { Voice };

    // whether it tells anything of acts and turns, and so looks at what nodes showed before
    ghost looks: { Bool };

    /// An act or a hold comes, once `turn` turns are done.
    fn command(&mut self, turn: u32, command: &Command) -> Result<(), OutOfMemory>
        ensures { OnOk result (written self.new
            ≡ written self.old ++ voice.command turn command.now) };

    /// Tells what is new in a world. Before, the nodes of a set showed `seen`; the others show nothing
    /// new.
    fn since<W: ShowsWires>(
        &mut self,
        legend: &Legend,
        touched: NodeSet,
        seen: &[Seen],
        world: &W,
    ) -> Result<(), OutOfMemory>
        requires few { length legend.now.names ≤ 63 }
        requires nodes { length legend.now.names ≡ length (W.world world.now).nodes }
        ensures { OnOk result ((all : List Seen) →
            IsEnough looks touched seen.now all (W.world world.now) →
            written self.new ≡ written self.old
            ++ voice.since legend.now all (W.world world.now)) };

    /// Whether it tells anything of acts and turns.
    fn hears(&self) -> bool
        ensures value { result ≡ looks }
        ensures silent { IsFalse result → TellsNothing voice };

    /// A law: where nothing is new, nothing is told.
    fn news(&self)
        ensures { TellsNewsAlone voice };
}

/// What the nodes of a set show before an act, where the listener hears anything. The world has so many
/// nodes.
pub fn see_before_act<W: ShowsWires, L: Listener>(
    alloc: Global,
    world: &W,
    nodes: usize,
    touched: NodeSet,
    listener: &L,
) -> Result<Vec<Seen>, OutOfMemory>
    requires few { nodes ≤ 63 }
    requires nodes { nodes ≡ length (W.world world.now).nodes }
    ensures { IfOk result (λ seen. IsTrue L.looks → seen.items
        ≡ picked touched 0 (seen_before_act (W.world world.now) 0 (W.world world.now).nodes)) }
{
    if listener.hears() {
        let seen = seen_before_act(alloc, world, nodes, touched)?;
        return Ok(seen);
    }
    Ok(Vec::new(alloc))
}

/// Has the world count what is under way at the nodes of a set, where the listener hears anything: so
/// what the next act finds there is known without counting it again.
pub fn tally_after_act<W: ShowsWires, L: Listener>(world: &mut W, touched: NodeSet, listener: &L)
    ensures same { W.world world.new ≡ W.world world.old }
    ensures spent { W.is_spent world.new ≡ W.is_spent world.old }
{
    if !listener.hears() {
        return;
    }
    for node in 0..63 {
        if touched.has(node) {
            world.tally(node);
        }
    }
}
