//! Nodes in the order in which they identify themselves, each with the port towards the root.
ghost use Rattle.std.specs.Prelude.{◌≡◌, ◌+◌, ◌<◌, ◌≤◌, ℕ, [], ◌∷◌, ◌++◌, length, reverse, None, MatchOption};
ghost use Rattle.topology_stack.specs.Tree.{Label, Tree};
ghost use Rattle.cabling.specs.Wiring.{ports_of};
ghost use Rattle.cabling.specs.Sees.{Sees, SmallTree};
ghost use Rattle.cabling.specs.codings.Visits.{visits, visits_after, by_port, at_root};

use crate::cable::End;
use crate::wiring::{Cabling, cables_are_two_ended};
use arrayvec::ArrayVec;
use std::marker::Model;

/// The most nodes of a bus.
pub(crate) const MAX_NODES: usize = 63;

/// A node, and the port by which it is come to; none at the root.
#[derive(Clone, Copy, Debug, Default, PartialEq, Eq)]
pub(crate) struct Visit {
    pub node: u8,
    pub from: Option<u8>,
}

/// At most 63 visits.
#[derive(Debug, Drop)]
pub(crate) struct VisitList {
    items: ArrayVec<Visit, MAX_NODES>,
}

impl Model for VisitList {
    ghost use Rattle.std.specs.Prelude.{List, length, ◌≤◌};
    ghost use Rattle.cabling.specs.declared.visits.Visit.{Visit};

    ghost Value = { List Visit };

    ghost view = { λ v. v.items.items };

    ghost invariant = { λ v. length v.items.items ≤ 63 };
}

impl VisitList {
    fn new() -> VisitList
        ensures { result ≡ [] }
    {
        VisitList {
            items: ArrayVec::new(),
        }
    }

    fn push(&mut self, visit: Visit)
        requires { length self.old < 63 }
        ensures { self.new ≡ self.old ++ visit ∷ [] }
    {
        self.items.push(visit);
    }

    /// Takes the last one out.
    fn pop(&mut self) -> Option<Visit>
        ensures { MatchOption result
            ((self.old ≡ []) × (self.new ≡ []))
            (λ visit. self.old ≡ self.new ++ visit ∷ []) }
    {
        self.items.pop()
    }

    pub(crate) fn as_slice(&self) -> &[Visit]
        ensures value { result.now ≡ self.now }
        ensures few { length result.now ≤ 63 }
    {
        self.items.as_slice()
    }

    /// The same visits, the last one first.
    fn in_reverse(&self) -> VisitList
        ensures { result ≡ reverse self.now }
    {
        let mut list = VisitList::new();
        for visit in self.as_slice().iter().rev().copied() {
            list.push(visit);
        }
        list
    }
}

/// The visit by one port of a node that was come to by a port or by none.
fn by_port(from: Option<u8>, port: u8, far: Option<End>) -> Option<Visit>
    ensures { MatchOption result
        (by_port from port far ≡ [])
        (λ visit. by_port from port far ≡ visit ∷ []) }
{
    match far {
        Some(far) => {
            if from == Some(port) {
                None
            } else {
                Some(Visit {
                    node: far.node,
                    from: Some(far.port),
                })
            }
        }
        None => None,
    }
}

impl Cabling {
    /// Appends the visits by a node's ports, but the one by which it was come to.
    fn go_on(&self, visit: Visit, waiting: &mut VisitList)
        requires node { visit.node < length self.now }
        requires room { length waiting.old + length (visits_after self.now visit) ≤ 63 }
        ensures { waiting.new ≡ waiting.old ++ visits_after self.now visit }
    {
        for (port, far) in self.ends(visit.node).iter().enumerate() {
            if let Some(next) = by_port(visit.from, port as u8, *far) {
                waiting.push(next);
            }
        }
    }

    /// The visits of the tree that is seen from a node, which exists and is no larger than a bus
    /// may be: of each node after those of the nodes below it, by rising port.
    pub(crate) fn visits(&self, root: u8) -> VisitList
        requires there { root < length self.now }
        requires small { (label : ℕ → Label) → SmallTree self.now label root }
        ensures { (label : ℕ → Label) (tree : Tree) →
            Sees self.now label root None tree → result ≡ visits self.now (at_root root) tree }
    {
        cables_are_two_ended(self);
        let mut done = VisitList::new();
        let mut waiting = VisitList::new();
        waiting.push(Visit {
            node: root,
            from: None,
        });
        while let Some(visit) = waiting.pop() {
            done.push(visit);
            self.go_on(visit, &mut waiting);
        }
        done.in_reverse()
    }
}
