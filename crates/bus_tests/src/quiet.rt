//! Whether a world has the turns left that it takes to settle.
ghost use Rattle.std.specs.Prelude.{◌+◌, ◌≤◌, IsTrue, IsFalse};
ghost use Rattle.settle.specs.Report.{quiet_turns_of};

use cable_world::WorldRun;
use settle::quiet_turns_for;

/// Whether a world can be asked to settle: it is spent, or does at most 4,000,000,000 turns by then.
pub fn can_settle<W: WorldRun>(world: &W) -> bool
    ensures { IsTrue result → IsFalse (W.is_spent world.now) →
        (W.world world.now).turns + quiet_turns_of (W.world world.now) ≤ 4000000000 }
{
    if world.spent() {
        return true;
    }
    let quiet = quiet_turns_for(world);
    u64::from(world.turns()) + u64::from(quiet) <= 4_000_000_000
}
