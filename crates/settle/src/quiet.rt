//! How many turns without acts a bus is given.
ghost use Rattle.std.specs.Prelude.{◌≡◌, ◌≤◌};
ghost use Rattle.cable_world.specs.Lawful.{IsWellFormed};
ghost use Rattle.cable_world.specs.World.{CableWorld, slack};
ghost use Rattle.cable_world.specs.Run.{IsReached, quiet_turns};
ghost use Rattle.convergence.specs.Turns.{turns_to_settle};
ghost use Rattle.settle.specs.Report.{IsSized, quiet_turns_of};

use cable_world::{WorldRun, worlds_stay_lawful};
use port_state::Timing;

/// The number of turns without acts after which a bus of so many nodes is read, where cables delay
/// a signal by at most `delay` turns, and the times of nodes are in their ranges. At most 63 nodes;
/// the delay is 1 to 16.
pub fn quiet_turns(nodes: u8, delay: u8) -> u32
    requires few { nodes ≤ 63 }
    requires some_delay { 1 ≤ delay }
    requires short_delay { delay ≤ 16 }
    ensures { result ≡ quiet_turns nodes delay }
{
    let nodes = u32::from(nodes);
    u32::from(delay) * (2000 + 4 * nodes * nodes + 8 * nodes)
}

/// The slack of a world: 0 where no clock misses a turn, and else 1.
fn slack_in<W: WorldRun>(world: &W) -> u8
    requires { IsWellFormed (W.world world.now) }
    ensures { result ≡ slack (W.world world.now) }
{
    for node in 0..world.cabling().nodes() {
        if !world.is_even(node) {
            return 1;
        }
    }
    0
}

/// The number of turns in which a world settles, where no node takes longer, in turns, and the slack
/// is 0 or 1.
fn turns_to_settle(nodes: u8, delay: u8, longest: Timing, slack: u8) -> u32
    requires few { nodes ≤ 63 }
    requires short_delay { delay ≤ 16 }
    requires short_slack { slack ≤ 1 }
    ensures { (w : CableWorld) → IsSized w nodes delay longest slack → result ≡ turns_to_settle w }
{
    let slack = u32::from(slack);
    let seen = u32::from(delay) + slack;
    let long = u32::from(longest.long);
    let over = u32::from(nodes) * u32::from(delay);
    let seen_over = u32::from(nodes) * seen;
    let done = over + u32::from(longest.hold) + seen;
    let loops = done + u32::from(longest.timeout) + 1 + slack;
    let trees = done + u32::from(longest.force) + seen_over;
    let round = long + 2 * seen;
    let decision = trees + 12 * seen_over + 33 * round + long + round + 1 + slack;
    loops.max(decision + 315 * seen)
}

/// The number of turns without acts after which a world is read: more than `quiet_turns` where its
/// nodes have long times.
pub fn quiet_turns_for<W: WorldRun>(world: &W) -> u32
    requires { ∥ IsReached (W.world world.now) ∥₁ }
    ensures { result ≡ quiet_turns_of (W.world world.now) }
{
    worlds_stay_lawful();
    let nodes = world.cabling().nodes();
    let delay = world.delay();
    quiet_turns(nodes, delay).max(turns_to_settle(nodes, delay, world.longest(), slack_in(world)))
}
