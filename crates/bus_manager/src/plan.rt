//! The configuration packet that a bus manager sends.
ghost use Rattle.std.specs.Prelude.{◌≡◌, ◌<◌, ℕ, true, length};
ghost use Rattle.bus_manager.specs.Gap.{gap_of};
ghost use Rattle.bus_manager.specs.Hops.{IsHops};
ghost use Rattle.phy_packet.specs.Packet.{quad_of};
ghost use Rattle.phy_packet.specs.declared.packet.PhyPacket.{PhyPacket};
ghost use Rattle.phy_packet.specs.declared.packet.PhyPacket.TheVariants.{Config};
ghost use Rattle.topology_stack.specs.Tree.{walk};

use crate::gap::gap_for;
use crate::paths::hops;
use phy_packet::{PhyPacket, encode};
use topology_stack::BusTree;

/// The configuration packet that makes the node with ID `root_id` root at the next bus reset, and
/// sets the gap count that suits the hops of the tree. `root_id` is less than the number of nodes.
pub fn plan_config(tree: &BusTree, root_id: u8) -> u32
    requires { root_id < length (walk tree.now) }
    ensures { (h : ℕ) → IsHops tree.now h →
        result ≡ quad_of (Config root_id true true (gap_of h) 0) }
{
    let is_node = root_id < tree.len();
    prove!(is_node);
    encode(&PhyPacket::Config {
        root_id,
        force: true,
        set_gap: true,
        gap: gap_for(hops(tree)),
        rest: 0,
    })
}
