//! A node of the bus, as it shows itself.
ghost use Rattle.std.specs.Prelude.{◌≡◌, ◌+◌, ◌<◌, ◌≤◌, List, [], ◌∷◌, ◌++◌, length};
ghost use Rattle.std.specs.Prelude.{nat_eq};
ghost use Rattle.std.specs.Cmp.Rules.{comparing};
ghost use Rattle.std.proofs.Common.{rules};
ghost use Rattle.std.specs.Cmp.{on_equiv, on_per, partial_equiv_from_equiv};
ghost use Rattle.std.specs.Cmp.Lexicographic.{pointwise, lists_per, lists_equiv, nat_list_eq_equiv};

use crate::quad_group::QuadGroup;
use crate::writing::write_group;
use arrayvec::ArrayVec;
use std::alloc::AllocError;
use std::marker::Model;

/// What a slot of a node leads to.
#[derive(Clone, Copy, Debug, Default, PartialEq, Eq)]
pub enum PortStatus {
    /// The node has no port of this number. Port status 00.
    #[default]
    Absent,
    /// The port has no active cable. Port status 01.
    Unplugged,
    /// The port leads to the node's parent. Port status 10.
    Up,
    /// The port leads to a child. Port status 11.
    Down,
}

/// The attributes of a node in its packet zero.
#[derive(Clone, Copy, Debug, PartialEq, Eq)]
pub struct Attrs {
    /// L: the link layer is active.
    pub link: bool,
    /// gap_cnt, 0 to 63.
    pub gap: u8,
    /// sp, 0 to 3: S100, S200, S400, and 3 as later standards use it.
    pub speed: u8,
    /// The two bits that 1394-1995 calls delay and 1394a-2000 reserves, 0 to 3.
    pub delay: u8,
    /// c: the node may become isochronous resource manager.
    pub contender: bool,
    /// pwr, the power class, 0 to 7.
    pub power: u8,
    /// i: the node initiated the bus reset.
    pub initiated: bool,
}

/// Port statuses by rising slot number, at most 27.
#[derive(Debug, Drop)]
pub struct PortList {
    items: ArrayVec<PortStatus, 27>,
}

impl Model for PortList {
    ghost use Rattle.std.specs.Prelude.{List, length, ◌≤◌};
    ghost use Rattle.self_id.specs.declared.node.PortStatus.{PortStatus};

    ghost Value = { List PortStatus };

    ghost view = { λ p. p.items.items };

    ghost invariant = { λ p. length p.items.items ≤ 27 };
}

/// A list of the same statuses. It takes no memory.
impl Clone for PortList {
    ghost is_clone = { λ list copy. copy ≡ list };

    ghost is_infallible = { λ _. Unit {0} };

    fn clone(&self) -> Result<PortList, AllocError> {
        Ok(PortList {
            items: self.items.clone()?,
        })
    }
}

impl PartialEq for PortList {
    ghost eq = { λ p q. pointwise ⟦<PortStatus as PartialEq>⟧.eq p q };

    ghost laws = { lists_per (Prim.search (comparing, rules)) };

    fn eq(&self, other: &Self) -> bool {
        self.items == other.items
    }
}

impl Eq for PortList {
    ghost laws = { lists_equiv (Prim.search (comparing, rules)) };
}

impl PortList {
    /// The empty list.
    #[inline]
    pub fn new() -> PortList
        ensures { result ≡ [] }
    {
        PortList {
            items: ArrayVec::new(),
        }
    }

    /// Empties the list.
    #[inline]
    pub fn clear(&mut self)
        ensures { self.new ≡ [] }
    {
        self.items.clear();
    }

    /// Appends the status of the next slot.
    #[inline]
    pub fn push(&mut self, status: PortStatus)
        requires { length self.old < 27 }
        ensures { self.new ≡ self.old ++ status ∷ [] }
    {
        self.items.push(status);
    }

    /// The statuses, slot 0 first.
    #[inline]
    pub fn as_slice(&self) -> &[PortStatus]
        ensures value { result.now ≡ self.now }
        ensures few { length result.now ≤ 27 }
    {
        self.items.as_slice()
    }
}

/// What one node says of itself in its self-ID packets.
///
/// It always has 3, 11, 16, 19 or 27 slots, one slot at the most that is up, attributes that fit
/// their bits, and no carried bits of a packet that it doesn't have. With 16 slots its packets are
/// those of IEEE 1394a-2000, with 19 or 27 those of IEEE Std 1394-1995, else those of both.
#[derive(Debug, Drop)]
pub struct SelfId {
    /// What packet zero says besides the ports.
    pub attrs: Attrs,
    /// The slots: 3, 11, 16, 19 or 27.
    pub ports: PortList,
    /// With more than 3 slots three carried bits of packet n = 0: the two reserved bits, then r.
    pub kept_a: u8,
    /// With 16 slots ten carried bits of packet n = 1: the two reserved bits, then its last eight.
    /// With 19 or 27 slots seven: the two reserved bits and r of n = 1, then the two reserved bits,
    /// r and m of n = 2. With 19 slots the last four are 0.
    pub kept_b: u16,
}

impl Model for SelfId {
    ghost use Rattle.self_id.specs.Node.{Node, node_with, IsNode};

    ghost Value = { Node };

    ghost view = { λ s. node_with s.attrs s.ports s.kept_a s.kept_b };

    ghost invariant = { λ s. IsNode (node_with s.attrs s.ports s.kept_a s.kept_b) };
}

ghost use Rattle.self_id.specs.Node.{node_with, IsNode, blank};
ghost use Rattle.self_id.specs.Group.{group};

/// A node that says the same. It takes no memory.
impl Clone for SelfId {
    ghost is_clone = { λ node copy. copy ≡ node };

    ghost is_infallible = { λ _. Unit {0} };

    fn clone(&self) -> Result<SelfId, AllocError> {
        Ok(SelfId {
            attrs: self.attrs,
            ports: self.ports.clone()?,
            kept_a: self.kept_a,
            kept_b: self.kept_b,
        })
    }
}

/// Two nodes are equal where their groups are the same quadlets.
impl PartialEq for SelfId {
    ghost eq = { λ m n. pointwise nat_eq (group m 0) (group n 0) };

    ghost laws = { on_per (λ n. group n 0) (partial_equiv_from_equiv nat_list_eq_equiv) };

    fn eq(&self, other: &Self) -> bool {
        let (mut one, mut other_one) = (QuadGroup::new(), QuadGroup::new());
        write_group(self, 0, &mut one);
        write_group(other, 0, &mut other_one);
        one.as_slice() == other_one.as_slice()
    }
}

impl Eq for SelfId {
    ghost laws = { on_equiv (λ n. group n 0) nat_list_eq_equiv };
}

impl SelfId {
    /// A node with three absent slots that says nothing else. A node is read into its place.
    #[inline(always)]
    pub fn blank() -> SelfId
        ensures { result ≡ blank }
    {
        let mut ports = PortList::new();
        ports.push(PortStatus::Absent);
        ports.push(PortStatus::Absent);
        ports.push(PortStatus::Absent);
        SelfId {
            attrs: Attrs {
                link: false,
                gap: 0,
                speed: 0,
                delay: 0,
                contender: false,
                power: 0,
                initiated: false,
            },
            ports,
            kept_a: 0,
            kept_b: 0,
        }
    }

    /// A node with these attributes and slots that carries no other bits.
    ///
    /// The attributes fit their bits; `ports` has 3, 11, 16, 19 or 27 entries, and one at most is
    /// `Up`.
    pub fn new(attrs: Attrs, ports: &[PortStatus]) -> SelfId
        requires { IsNode (node_with attrs ports.now 0 0) }
        ensures { result ≡ node_with attrs ports.now 0 0 }
    {
        let mut list = PortList::new();
        for port in ports {
            list.push(*port);
        }
        SelfId {
            attrs,
            ports: list,
            kept_a: 0,
            kept_b: 0,
        }
    }
}
