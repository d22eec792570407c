//! How far the nodes of a bus lie from each other.
ghost use Rattle.std.specs.Prelude.{◌≡◌, ◌+◌, ◌<◌, length};
ghost use Rattle.topology_stack.specs.Tree.{walk};
ghost use Rattle.root_plan.specs.Reach.{IsDistance, IsReach};

use speed_map::parent_of;
use topology_stack::BusTree;

/// The distance of two nodes. Of two different nodes the one with the lower ID isn't the root, and
/// the other isn't below it, so the path goes over its parent.
fn distance(tree: &BusTree, from: u8, to: u8) -> u8
    requires from { from < length (walk tree.now) }
    requires to { to < length (walk tree.now) }
    ensures { IsDistance tree.now from to result }
{
    // a bus tree, whose nodes are at most 63
    let _len = tree.len();
    let mut one = from;
    let mut other = to;
    let mut cables = 0;
    while one != other {
        if one < other {
            one = parent_of(tree, one);
        } else {
            other = parent_of(tree, other);
        }
        cables += 1;
    }
    cables
}

/// The reach of a node: its distance from the node that lies farthest from it.
pub(crate) fn reach(tree: &BusTree, id: u8) -> u8
    requires { id < length (walk tree.now) }
    ensures { IsReach tree.now id result }
{
    let mut reach = 0;
    for other in 0..tree.len() {
        reach = reach.max(distance(tree, id, other));
    }
    reach
}
