//! The bus tree.
ghost use Rattle.std.specs.Prelude.{◌≡◌, ◌↔◌, ◌+◌, ◌<◌, ◌≤◌, ℕ, List, length, slice_get, Some, Ok, Err, IfOk, IfSome, IsNone};
ghost use Rattle.std.specs.Cmp.{on_equiv, on_per};
ghost use Rattle.std.specs.Cmp.Lexicographic.{pointwise, lists_per, lists_equiv};
ghost use Rattle.std.specs.Cmp.Rules.{comparing};
ghost use Rattle.std.proofs.Common.{rules};
ghost use Rattle.self_id.specs.declared.standard.Standard.TheVariants.{Ieee1995, Ieee2000};
ghost use Rattle.topology_stack.specs.Tree.{Tree, IsBusTree, IsBusTreeOf, emits, walk};
ghost use Rattle.topology_stack.specs.Refused.{Refused};
ghost use Rattle.topology_stack.specs.Far.{Far, IsLooseAt, IsParent};
ghost use Rattle.topology_stack.specs.Stored.{parents_from, children_from};
ghost use Rattle.topology_stack.specs.Answer.{IfFault, UnlessMemory};
ghost use Rattle.topology_stack.specs.declared.fault.TreeFault.{TreeFault};

use crate::fault::TreeStop;
use crate::links::{ChildLists, Links};
use crate::reading::nodes_of;
use crate::slots::far_end;
use self_id::{SelfId, Standard};
use std::alloc::{AllocError, Global};
use std::marker::Model;

/// The tree of a bus: 1 to 63 nodes by ID, each child before its parent. The ID of a node is its
/// place in the order of self identify (IEEE Std 1394-1995). All nodes show themselves by one
/// standard. In a contract a `BusTree` is a `Tree`, and always one of the form `IsBusTree`.
#[derive(Debug, Drop)]
pub struct BusTree {
    nodes: Vec<SelfId>,
    links: Links,
}

impl Model for BusTree {
    ghost use Rattle.topology_stack.specs.Tree.{Tree};
    ghost use Rattle.topology_stack.specs.codings.Code.{tree_of, tree_code};
    ghost use Rattle.topology_stack.specs.Stored.{Stored};

    ghost Value = { Tree };

    ghost coded = { tree_code };

    ghost view = { λ b. tree_of b.nodes.items };

    ghost invariant = { λ b. Stored (tree_of b.nodes.items) b.nodes.items b.links.parents.items
        b.links.children };
}

/// The same bus tree. It takes memory for its nodes.
impl Clone for BusTree {
    ghost is_clone = { λ tree copy. copy ≡ tree };

    ghost is_infallible = { λ _. ⊥ };

    fn clone(&self) -> Result<BusTree, AllocError> {
        Ok(BusTree {
            nodes: self.nodes.clone()?,
            links: self.links.clone()?,
        })
    }
}

/// Two bus trees are equal where their nodes are, in the order of self identify.
impl PartialEq for BusTree {
    ghost eq = { λ t u. pointwise ⟦<SelfId as PartialEq>⟧.eq (walk t) (walk u) };

    ghost laws = { on_per walk (lists_per (Prim.search (comparing, rules))) };

    fn eq(&self, other: &BusTree) -> bool {
        self.nodes == other.nodes
    }
}

impl Eq for BusTree {
    ghost laws = { on_equiv walk (lists_equiv (Prim.search (comparing, rules))) };
}

/// The bus tree of IEEE 1394a-2000 whose nodes emit `quads`, the first quadlets of the self-ID
/// packets of a bus in the order in which they came. It refuses each list that no such tree emits,
/// with its one fault.
pub fn read_tree(alloc: Global, quads: &[u32]) -> Result<BusTree, TreeStop>
    // The tree that is answered emits the list.
    ensures found { IfOk result (λ t. IsBusTreeOf Ieee2000 t × (emits t ≡ quads.now)) }
    // A fault that is answered is the list's.
    ensures refused { IfFault result (λ f. Refused Ieee2000 quads.now f) }
    // A tree that emits the list is answered, unless memory ran out.
    ensures only { (t : Tree) → IsBusTreeOf Ieee2000 t → emits t ≡ quads.now
        → UnlessMemory result (Ok t) }
    // The list's fault is answered, unless memory ran out.
    ensures exact { (f : TreeFault) → Refused Ieee2000 quads.now f
        → UnlessMemory result (Err (TreeStop.Fault f)) }
{
    read_tree_by(alloc, Standard::Ieee2000, quads)
}

/// The same by IEEE Std 1394-1995, in which a node has up to 27 slots in up to four packets.
pub fn read_tree95(alloc: Global, quads: &[u32]) -> Result<BusTree, TreeStop>
    ensures found { IfOk result (λ t. IsBusTreeOf Ieee1995 t × (emits t ≡ quads.now)) }
    ensures refused { IfFault result (λ f. Refused Ieee1995 quads.now f) }
    ensures only { (t : Tree) → IsBusTreeOf Ieee1995 t → emits t ≡ quads.now
        → UnlessMemory result (Ok t) }
    ensures exact { (f : TreeFault) → Refused Ieee1995 quads.now f
        → UnlessMemory result (Err (TreeStop.Fault f)) }
{
    read_tree_by(alloc, Standard::Ieee1995, quads)
}

/// The bus tree of a standard whose nodes emit `quads`, for who has the standard as a value: as
/// `read_tree` and `read_tree95` answer it.
pub fn read_tree_by(alloc: Global, standard: Standard, quads: &[u32]) -> Result<BusTree, TreeStop>
    ensures found { IfOk result (λ t. IsBusTreeOf standard t × (emits t ≡ quads.now)) }
    ensures refused { IfFault result (λ f. Refused standard quads.now f) }
    ensures only { (t : Tree) → IsBusTreeOf standard t → emits t ≡ quads.now
        → UnlessMemory result (Ok t) }
    ensures exact { (f : TreeFault) → Refused standard quads.now f
        → UnlessMemory result (Err (TreeStop.Fault f)) }
{
    let mut links = Links::new();
    let nodes = nodes_of(alloc, standard, quads, &mut links)?;
    Ok(BusTree { nodes, links })
}

impl BusTree {
    /// The number of nodes, 1 to 63.
    pub fn len(&self) -> u8
        ensures value { result ≡ length (walk self.now) }
        ensures some { 0 < result }
        ensures few { result ≤ 63 }
        // A `BusTree` always is a bus tree.
        ensures valid { IsBusTree self.now }
    {
        self.nodes.len() as u8
    }

    /// The node with this ID, which is less than `len`.
    pub fn node(&self, id: u8) -> &SelfId
        requires { id < length (walk self.now) }
        ensures { slice_get (walk self.now) id ≡ Some result.now }
    {
        &self.nodes[id as usize]
    }

    /// The ID of the root, which is the last.
    pub fn root(&self) -> u8
        ensures { result + 1 ≡ length (walk self.now) }
    {
        self.nodes.len() as u8 - 1
    }

    /// The ID at the other end of a slot of the node with this ID. `None` where the slot is absent
    /// or unplugged. `id` is less than `len`, and `slot` less than the number of the node's slots.
    pub fn far(&self, id: u8, slot: u8) -> Option<u8>
        requires id { id < length (walk self.now) }
        requires slot { IfSome (slice_get (walk self.now) id) (λ n. slot < length n.ports) }
        ensures end { Far self.now id slot result }
        ensures none { IsNone result ↔ IsLooseAt self.now id slot }
    {
        let id = id as usize;
        let ports = self.nodes[id].ports.as_slice();
        far_end(
            ports,
            slot as usize,
            self.links.parents[id],
            self.links.children.of(id),
        )
    }

    /// The ID of the parent of the node with this ID, which is less than `len`. `None` where the node
    /// is the root.
    pub fn parent(&self, id: u8) -> Option<u8>
        requires { id < length (walk self.now) }
        ensures parent { IfSome result (IsParent self.now id) }
        // A node has no other parent.
        ensures only { (parent : ℕ) → IsParent self.now id parent → result ≡ Some parent }
        ensures root { IsNone result ↔ (id + 1 ≡ length (walk self.now)) }
    {
        let len = self.len();
        if id + 1 == len {
            return None;
        }
        Some(self.links.parents[id as usize])
    }

    /// The nodes by ID.
    pub fn nodes(&self) -> &[SelfId]
        ensures value { result.now ≡ walk self.now }
        ensures some { 0 < length result.now }
        ensures few { length result.now ≤ 63 }
    {
        &self.nodes
    }

    /// The ID of each node's parent.
    pub(crate) fn parents(&self) -> &[u8]
        ensures value { result.now ≡ parents_from 0 63 self.now }
        ensures len { length result.now ≡ length (walk self.now) }
    {
        &self.links.parents
    }

    /// The IDs of each node's children.
    pub(crate) fn children(&self) -> &ChildLists
        ensures value { result.now ≡ children_from 0 self.now }
        ensures len { length result.now ≡ length (walk self.now) }
    {
        &self.links.children
    }
}
