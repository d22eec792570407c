//! The nodes that are measured.
ghost use Rattle.phy_machine.specs.PowerOn.{IsSpec};
ghost use Rattle.port_state.specs.Timing.{InRange};

use phy_machine::NodeSpec;
use port_state::{Coins, Timing};
use self_id::Attrs;

/// By how many turns a cable delays a signal at most.
pub const DELAY: u8 = 4;

/// A node of so many ports, which draws these coins.
pub fn spec(ports: u8, coins: Coins) -> NodeSpec
    ensures is { IsSpec result }
    ensures timing { InRange 4 result.timing }
{
    NodeSpec {
        ports: ports.clamp(1, 16),
        attrs: Attrs {
            link: true,
            gap: 63,
            speed: 2,
            delay: 0,
            contender: true,
            power: 0,
            initiated: false,
        },
        timing: Timing::usual(DELAY),
        force: false,
        coins,
    }
}
