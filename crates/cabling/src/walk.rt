//! The order in which the nodes of a component identify themselves.
ghost use Rattle.std.specs.Prelude.{◌≡◌, ◌+◌, ◌<◌, ◌≤◌, ◌↔◌, ℕ, List, [], ◌∷◌, ◌++◌, length, Ok, Err, IfOk, IfErr, IsOk, map};
ghost use Rattle.cabling.specs.NodeSet.{Holds, IsEmpty};
ghost use Rattle.cabling.specs.Component.{IsComponent};
ghost use Rattle.cabling.specs.Looped.{IsCore, IsCoreOf};
ghost use Rattle.topology_stack.specs.Tree.{Label};
ghost use Rattle.cabling.specs.Walk.{IsWalk};
ghost use Rattle.cabling.specs.Sees.{SmallTree};

use crate::node_set::NodeSet;
use crate::visits::MAX_NODES;
use crate::wiring::{Cabling, cables_are_two_ended};
use arrayvec::ArrayVec;
use std::marker::Model;

/// Node numbers, at most 63.
#[derive(Debug, Drop)]
pub struct Walk {
    items: ArrayVec<u8, MAX_NODES>,
}

impl Model for Walk {
    ghost use Rattle.std.specs.Prelude.{List, ℕ, length, ◌≤◌};

    ghost Value = { List ℕ };

    ghost view = { λ w. w.items.items };

    ghost invariant = { λ w. length w.items.items ≤ 63 };
}

impl Walk {
    /// The empty list.
    pub fn new() -> Walk
        ensures { result ≡ [] }
    {
        Walk {
            items: ArrayVec::new(),
        }
    }

    /// Appends a node.
    pub fn push(&mut self, node: u8)
        requires { length self.old < 63 }
        ensures { self.new ≡ self.old ++ node ∷ [] }
    {
        self.items.push(node);
    }

    /// The nodes in order.
    pub fn as_slice(&self) -> &[u8]
        ensures value { result.now ≡ self.now }
        ensures few { length result.now ≤ 63 }
    {
        self.items.as_slice()
    }
}

/// A component that has no walk, since cables form loops in it.
#[derive(Clone, Copy, Debug, PartialEq, Eq)]
pub struct Cyclic {
    /// The core of the component, which isn't empty.
    pub core: NodeSet,
}

impl Cabling {
    /// The core of the component of a node.
    pub(crate) fn core_of(&self, node: u8) -> NodeSet
        requires { node < length self.now }
        ensures core { IsCoreOf self.now node result }
        ensures small_trees { IsEmpty result → (label : ℕ → Label) → SmallTree self.now label node }
    {
        cables_are_two_ended(self);
        let component = self.component(node);
        self.core(component)
    }

    /// The nodes of the component of `root`, which exists, as they identify themselves where `root`
    /// is the root of the bus: each after the nodes below it, by rising port (IEEE Std 1394-1995,
    /// self identify). `Cyclic` where the component has a core.
    pub fn walk_from(&self, root: u8) -> Result<Walk, Cyclic>
        requires { root < length self.now }
        ensures walk { IfOk result (λ walk. IsWalk self.now root walk) }
        ensures core { IfErr result (λ cyclic. IsCoreOf self.now root cyclic.core) }
        ensures cyclic { (core : ℕ) → IsCoreOf self.now root core → (IsOk result ↔ IsEmpty core) }
    {
        let core = self.core_of(root);
        if !core.is_empty() {
            return Err(Cyclic { core });
        }
        let visits = self.visits(root);
        let mut walk = Walk::new();
        for visit in visits.as_slice() {
            walk.push(visit.node);
        }
        Ok(walk)
    }
}
