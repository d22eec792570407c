//! Laws of cablings.
ghost use Rattle.cabling.specs.Wiring.{AreTheirCables};
ghost use Rattle.cabling.specs.Component.{SharesComponents, ClosedSetsHoldComponents};
ghost use Rattle.cabling.specs.Looped.{HasLeaves, OtherCablesKeepCores};
ghost use Rattle.cabling.specs.Existence.{ComponentsExist, CoresExist};
ghost use Rattle.cabling.specs.Sees.{SeesOneTree};
ghost use Rattle.cabling.specs.Walk.{WalksHoldEachNodeOnce};
ghost use Rattle.cabling.specs.Trees.{ShowsTreesWithoutCore, SeenTreesHaveNoCore};

use crate::wiring::{Cabling, cables_are_two_ended};

/// Two cablings with as many ports at each node and the same set of cables are one.
pub fn cablings_are_their_cables(c: &Cabling, d: &Cabling)
    ensures { AreTheirCables c.now d.now }
{
    cables_are_two_ended(c);
    cables_are_two_ended(d);
}

/// The nodes of a component share it, and a set out of which no cable leads holds the component of
/// each of its nodes.
pub fn components_are_whole(c: &Cabling)
    ensures shared { SharesComponents c.now }
    ensures least { ClosedSetsHoldComponents c.now }
{
    cables_are_two_ended(c);
}

/// From a node of a component a tree is seen exactly where the core of the component is empty. It
/// is no larger than a bus may be.
pub fn trees_have_no_core(c: &Cabling)
    ensures tree { ShowsTreesWithoutCore c.now }
    ensures no_core { SeenTreesHaveNoCore c.now }
{
    cables_are_two_ended(c);
}

/// Where the core of a set is empty, every part of the set that isn't empty has a node with at most
/// one cable into the part.
pub fn trees_have_leaves(c: &Cabling)
    ensures { HasLeaves c.now }
{}

/// A walk holds each node of the component once, and no other.
pub fn walks_hold_each_node_once(c: &Cabling)
    ensures { WalksHoldEachNodeOnce c.now }
{
    cables_are_two_ended(c);
}

/// A cable that lies on no core can be pulled without a change of any core: each node is afterwards
/// in the core of its component exactly where it was before.
pub fn cores_keep_without_other_cables(old: &Cabling, new: &Cabling)
    ensures { OtherCablesKeepCores old.now new.now }
{
    cables_are_two_ended(old);
}

/// From a root one tree at most is seen.
pub fn trees_are_seen_once(c: &Cabling)
    ensures { SeesOneTree c.now }
{}

/// Each node of a cabling has a component, all of whose nodes exist.
pub fn components_exist()
    ensures { ComponentsExist }
{}

/// Each set of nodes has a core.
pub fn cores_exist()
    ensures { CoresExist }
{}
