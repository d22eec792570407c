//! What belongs together by cables.
ghost use Rattle.std.specs.Prelude.{◌↔◌, ◌<◌, ◌^◌, ℕ, length};
ghost use Rattle.cabling.specs.NodeSet.{Holds};
ghost use Rattle.cabling.specs.Component.{IsNeighbour, IsComponent};

use crate::node_set::NodeSet;
use crate::wiring::{Cabling, cables_are_two_ended};

impl Cabling {
    /// The nodes to which cables lead from a node.
    pub(crate) fn neighbours(&self, node: u8) -> NodeSet
        requires { node < length self.now }
        ensures members { (other : ℕ) → (Holds result other ↔ IsNeighbour self.now node other) }
        ensures small { result < 2 ^ 63 }
    {
        let mut found = NodeSet::none();
        for end in self.ends(node) {
            match end {
                Some(other) => found.insert(other.node),
                None => {}
            }
        }
        found
    }

    /// The component of a node: the least set that holds the node and out of which no cable leads.
    /// The node exists.
    pub fn component(&self, node: u8) -> NodeSet
        requires { node < length self.now }
        ensures component { IsComponent self.now node result }
        ensures exist { (other : ℕ) → Holds result other → other < length self.now }
        ensures small { result < 2 ^ 63 }
    {
        cables_are_two_ended(self);
        let mut done = NodeSet::none();
        let mut waiting = NodeSet::none();
        waiting.insert(node);
        while let Some(next) = waiting.least() {
            done.insert(next);
            waiting = waiting.union(self.neighbours(next)).minus(done);
        }
        done
    }
}
