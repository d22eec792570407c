//! Worlds that tell for how long nothing happens.
ghost use Rattle.std.specs.Prelude.{◌≤◌, ◌<◌, All, IsFalse};
ghost use Rattle.port_state.specs.Clock.{TicksFor};
ghost use Rattle.cable_world.specs.Still.{IsStillFor};
ghost use Rattle.world_agenda.specs.Alone.{LeavesAloneBut};

use cable_world::{ShowsWires, World, WorldRun, worlds_stay_lawful};
use cabling::NodeSet;
use port_state::PortMachine;

/// A world that tells for how many turns nothing happens, and at which nodes something may in a turn.
pub trait TellsStillTurns: ShowsWires {
    /// For how many of the next turns it is known that nothing happens in them, `most` at most: no
    /// signal is under way, no node does more than raise its timer, and no clock misses one of them.
    /// They may be more than those that are known; 0 says nothing.
    fn still_turns(&self, most: u32) -> u32
        ensures most { result ≤ most }
        ensures ticks { All (λ x. TicksFor result x.clock) (Self.world self.now).nodes }
        ensures still { IsStillFor result (Self.world self.now) };

    /// The nodes at which something may happen in the next turn, or whose clocks miss it. It is known of
    /// each other node that it ticks in it, that no more than its timer changes, and that it sends
    /// nothing. Fewer than 4,000,000,000 turns were done before. A spent world may tell any nodes.
    fn touched(&self) -> NodeSet
        requires { (Self.world self.now).turns < 4000000000 }
        ensures { IsFalse (Self.is_spent self.now) →
            LeavesAloneBut result (Self.world self.now) };
}

/// A world that does one turn after the other knows of no such turn, and visits all nodes in each.
impl<M: PortMachine> TellsStillTurns for World<M> {
    fn still_turns(&self, _most: u32) -> u32 {
        0
    }

    fn touched(&self) -> NodeSet {
        worlds_stay_lawful();
        NodeSet::first(self.cabling().nodes())
    }
}
