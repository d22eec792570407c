//! Sets of nodes.
ghost use Rattle.std.specs.Prelude.{◌≡◌, ◌≢◌, ◌↔◌, ◌+◌, ◌-◌, ◌^◌, ◌<◌, ◌≤◌, ℕ, IsTrue, IfSome, IfNone, ◌⊎◌};
ghost use Rattle.cabling.specs.NodeSet.{Holds, IsEmpty, AgreeBut, size_below};

use std::marker::Model;

/// A set of node numbers, 0 to 62.
#[derive(Clone, Copy, Debug, PartialEq, Eq)]
pub struct NodeSet {
    bits: u64,
}

impl Model for NodeSet {
    ghost use Rattle.std.specs.Prelude.{ℕ, ◌<◌, ◌^◌};

    ghost Value = { ℕ };

    ghost view = { λ s. s.bits };

    ghost invariant = { λ s. s.bits < 2 ^ 63 };

    ghost inverse = { λ n. record { bits = n } };
}

impl NodeSet {
    /// The set of no node.
    pub fn none() -> NodeSet
        ensures { result ≡ 0 }
    {
        NodeSet { bits: 0 }
    }

    /// The set of the first nodes, so many of them, at most 63.
    pub fn first(count: u8) -> NodeSet
        requires { count ≤ 63 }
        ensures { (k : ℕ) → Holds result k ↔ k < count }
    {
        NodeSet {
            bits: (1 << count) - 1,
        }
    }

    /// Whether the node is in the set.
    pub fn has(&self, node: u8) -> bool
        ensures { IsTrue result ↔ Holds self.now node }
    {
        node < 63 && self.bits >> node & 1 == 1
    }

    /// The number of nodes in the set, at most 63.
    pub fn len(&self) -> u8
        ensures { result ≡ size_below self.now 63 }
    {
        let mut count = 0;
        for node in 0..63u8 {
            if self.has(node) {
                count += 1;
            }
        }
        count
    }

    /// Whether no node is in the set.
    pub fn is_empty(&self) -> bool
        ensures { IsTrue result ↔ IsEmpty self.now }
    {
        self.bits == 0
    }

    /// The lowest node of the set; `None` where it is empty.
    pub fn least(&self) -> Option<u8>
        ensures holds { IfSome result (λ node. Holds self.now node) }
        ensures small { IfSome result (λ node. node < 63) }
        ensures lowest { IfSome result (λ node. (other : ℕ) → Holds self.now other → node ≤ other) }
        ensures none { IfNone result (IsEmpty self.now) }
    {
        if self.bits == 0 {
            None
        } else {
            Some(self.bits.trailing_zeros() as u8)
        }
    }

    /// Takes a node, 0 to 62, into the set.
    pub fn insert(&mut self, node: u8)
        requires { node < 63 }
        ensures holds { Holds self.new node }
        ensures others { AgreeBut self.old self.new node }
        ensures value { (Holds self.old node → ⊥) → self.new ≡ self.old + 2 ^ node }
        ensures small { self.new < 2 ^ 63 }
    {
        self.bits |= 1 << node;
    }

    /// Takes a node out of the set.
    pub(crate) fn remove(&mut self, node: u8)
        requires small { node < 63 }
        requires held { Holds self.old node }
        ensures gone { Holds self.new node → ⊥ }
        ensures others { AgreeBut self.old self.new node }
        ensures value { self.new + 2 ^ node ≡ self.old }
        ensures small { self.new < 2 ^ 63 }
    {
        self.bits &= !(1 << node);
    }

    /// Takes the lowest node out of the set; `None` where it is empty.
    pub fn take_least(&mut self) -> Option<u8>
        ensures held { IfSome result (λ node. Holds self.old node) }
        ensures lowest { IfSome result (λ node. (other : ℕ) →
            Holds self.old other → node ≤ other) }
        ensures gone { IfSome result (λ node. Holds self.new node → ⊥) }
        ensures others { IfSome result (λ node. AgreeBut self.old self.new node) }
        ensures fewer { IfSome result (λ node. self.new < self.old) }
        ensures none { IfNone result (IsEmpty self.old) }
        ensures same { IfNone result (self.new ≡ self.old) }
    {
        if self.bits == 0 {
            return None;
        }
        let node = self.bits.trailing_zeros();
        self.bits &= !(1 << node);
        Some(node as u8)
    }

    /// The nodes that are in this set or in the other.
    pub fn union(self, other: NodeSet) -> NodeSet
        ensures members { (node : ℕ) → (Holds result node ↔ (Holds self node ⊎ Holds other node)) }
        ensures small { result < 2 ^ 63 }
    {
        NodeSet {
            bits: self.bits | other.bits,
        }
    }

    /// The nodes that are in this set and in the other.
    pub(crate) fn intersection(self, other: NodeSet) -> NodeSet
        ensures members { (node : ℕ) → (Holds result node ↔ (Holds self node × Holds other node)) }
        ensures small { result < 2 ^ 63 }
    {
        NodeSet {
            bits: self.bits & other.bits,
        }
    }

    /// The nodes that are in this set and not in the other.
    pub(crate) fn minus(self, other: NodeSet) -> NodeSet
        ensures members { (node : ℕ) →
            (Holds result node ↔ (Holds self node × (Holds other node → ⊥))) }
        ensures small { result < 2 ^ 63 }
    {
        NodeSet {
            bits: self.bits & !other.bits,
        }
    }
}
