//! Laws of lists.
ghost use Rattle.reset_list.specs.Judged.{ListsAreHeardAsRead, ListsAreRefusedAsRead, AsBeforeIsAsDrawn};
ghost use Rattle.reset_list.specs.Lost.{LossesAreCounted};
ghost use Rattle.reset_list.specs.Shortest.{ShortestIsKept};

use quad_lanes::{capture_is_read_back, good_pairs_are_a_capture};

/// A law: a list is heard as a tree exactly where its capture spells this tree by the standard, and has a fault
/// exactly where its capture is refused for it. So it is judged as `busconf read` and `busconf read95` judge. And that
/// a bus is as before is said exactly where the tree before has the same drawing.
pub fn lists_are_judged_as_read()
    ensures heard { ListsAreHeardAsRead }
    ensures refused { ListsAreRefusedAsRead }
    ensures as_before { AsBeforeIsAsDrawn }
{
    capture_is_read_back();
    good_pairs_are_a_capture();
}

/// A law: what is kept of losses behind resets says of each port that lost a node how often it stands among all losses
/// of all resets, each port once and in the order of first losses. A loss is what a change between a reset's tree and
/// the tree before it takes from a port, and where one of the trees isn't known there is none.
pub fn losses_are_counted()
    ensures { LossesAreCounted }
{}

/// A law: as the shortest time of a port is kept the least of the times from a reset at which it lost its node to the
/// next reset at which something happens to it, where this is that it has a node again and both times are known.
pub fn shortest_times_are_kept()
    ensures { ShortestIsKept }
{}
