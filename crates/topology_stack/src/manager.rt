//! The isochronous resource manager.
ghost use Rattle.std.specs.Prelude.{◌≡◌};
ghost use Rattle.topology_stack.specs.Elect.{elected, IsHighest};
ghost use Rattle.topology_stack.specs.Tree.{walk};

use crate::tree::BusTree;

/// The ID of the isochronous resource manager: the highest one of a node with an active link that
/// contends. `None` where there is no such node.
pub fn elect(tree: &BusTree) -> Option<u8>
    ensures value { result ≡ elected tree.now }
    ensures highest { IsHighest (walk tree.now) result }
{
    let mut manager = None;
    for (id, node) in tree.nodes().iter().enumerate() {
        if node.attrs.link && node.attrs.contender {
            manager = Some(id as u8);
        }
    }
    manager
}
