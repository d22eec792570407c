//! Laws of the matching along ports.
ghost use Rattle.bus_diff.specs.Along.{EachWalkBeginsFurthest, EachPairIsReached, EachStepIsTaken};

use view_text::{cables_are_of_the_tree, each_node_hangs_on_one_cable};

/// A law: two buses are walked from two nodes such that from no others more nodes are reached, and from none before
/// them as many; and each pair of nodes is reached from there along cables that leave and end at ports of the same
/// numbers. No such cables lead from there to two nodes that are left out, unless one of them is taken for another
/// or they have not as many ports.
pub fn each_walk_begins_furthest()
    ensures start { EachWalkBeginsFurthest }
    ensures reached { EachPairIsReached }
    ensures taken { EachStepIsTaken }
{
    cables_are_of_the_tree();
    each_node_hangs_on_one_cable();
}
