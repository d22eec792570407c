//! Loops of cables.
ghost use Rattle.std.specs.Prelude.{◌≡◌, ◌<◌, ◌^◌, ℕ, length, MatchBool};
ghost use Rattle.cabling.specs.declared.cable.End.{End};
ghost use Rattle.cabling.specs.NodeSet.{Holds};
ghost use Rattle.cabling.specs.Looped.{HasTwo, IsCore};

use crate::cable::End;
use crate::node_set::NodeSet;
use crate::wiring::{Cabling, cables_are_two_ended};

/// Whether the far end of a port is at a node of the set.
fn leads_into(far: Option<End>, set: NodeSet) -> bool
    ensures { MatchBool result
        ((other : End) × (far ≡ Some other) × Holds set other.node)
        ((other : End) → far ≡ Some other → Holds set other.node → ⊥) }
{
    match far {
        Some(other) => set.has(other.node),
        None => false,
    }
}

impl Cabling {
    /// Whether at least two cables lead from a node into a set.
    fn has_two(&self, node: u8, set: NodeSet) -> bool
        requires { node < length self.now }
        ensures { MatchBool result (HasTwo self.now set node) (HasTwo self.now set node → ⊥) }
    {
        let mut one = false;
        for end in self.ends(node) {
            if leads_into(*end, set) {
                if one {
                    return true;
                }
                one = true;
            }
        }
        false
    }

    /// The core of a set of nodes, which exist: the union of all sets inside it in which each node
    /// has at least two cables into the set. Two cables to one neighbour count as two. Where a
    /// component has a core, its nodes can't agree on a root.
    pub fn core(&self, set: NodeSet) -> NodeSet
        requires { (node : ℕ) → Holds set node → node < length self.now }
        ensures { IsCore self.now set result }
    {
        cables_are_two_ended(self);
        let mut core = set;
        let mut doubtful = set;
        while let Some(node) = doubtful.least() {
            doubtful.remove(node);
            if !self.has_two(node, core) {
                core.remove(node);
                doubtful = doubtful.union(self.neighbours(node)).intersection(core);
            }
        }
        core
    }
}
