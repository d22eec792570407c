//! Whether a component came to a tree.
ghost use Rattle.std.specs.Prelude.{◌≡◌, ◌<◌, ◌↔◌, ℕ, All, IfOk, IfSome, IfNone, IsSomeAnd, IsTrue, Some, length, slice_get};
ghost use Rattle.self_id.specs.Node.{FitBits};
ghost use Rattle.cabling.specs.NodeSet.{Holds};
ghost use Rattle.cable_world.specs.Lawful.{IsWellFormed};
ghost use Rattle.cable_world.specs.Outcome.{HasNoLoop, attrs_now};
ghost use Rattle.settle.specs.Reported.{IsReported, IsNoTree};
ghost use Rattle.settle.specs.Report.{AreThere};
ghost use Rattle.settle.specs.codings.Reading.{ShowsTree, ShowsNoTree, IsTop, HasNoTop, FitsTree, AllFit};

use crate::report::Outcome;
use cable_world::WorldRun;
use cabling::{
    Cabling, NodeSet, OutOfMemory, TreeFromFault, Walk, trees_are_seen_once, trees_have_no_core,
};
use quad_lanes::{QuadList, same_list};
use self_id::Attrs;
use std::alloc::Global;
use topology_stack::write_tree;

/// The tree that cables show from a root: what it emits, and its nodes by ID.
#[derive(Drop)]
struct ShownTree {
    list: QuadList,
    order: Walk,
}

/// The tree that the cables show from a node, which exists, where the nodes have these attributes.
/// `None` where cables form loops.
fn tree_shown_from(
    alloc: Global,
    cabling: &Cabling,
    root: u8,
    attrs: &[Attrs],
) -> Result<Option<ShownTree>, OutOfMemory>
    requires root { root < length cabling.now }
    requires entries { length attrs.now ≡ length cabling.now }
    requires valid { All FitBits attrs.now }
    ensures shown { IfOk result (λ o. IfSome o (λ t. ShowsTree cabling.now attrs.now root t.list t.order)) }
    ensures none { IfOk result (λ o. IfNone o (ShowsNoTree cabling.now attrs.now root)) }
{
    trees_have_no_core(cabling);
    trees_are_seen_once(cabling);
    let Ok(order) = cabling.walk_from(root) else {
        return Ok(None);
    };
    match cabling.tree_from(alloc, root, attrs) {
        Ok(tree) => {
            let list = write_tree(alloc, &tree)?;
            Ok(Some(ShownTree { list, order }))
        }
        Err(TreeFromFault::Cyclic { .. }) => Ok(None),
        Err(TreeFromFault::Memory(e)) => Err(e),
    }
}

/// Whether a node has no parent.
fn is_top<W: WorldRun>(world: &W, node: u8) -> bool
    requires { node < length (W.world world.now).nodes }
    ensures { IsTrue result ↔ IsTop (W.world world.now) node }
{
    world.view(node).parent.is_none()
}

/// The first node of a set that has no parent.
fn first_top<W: WorldRun>(world: &W, set: NodeSet) -> Option<u8>
    requires { IsWellFormed (W.world world.now) }
    ensures holds { IfSome result (λ node. Holds set node) }
    ensures top { IfSome result (λ node. IsTop (W.world world.now) node) }
    ensures none { IfNone result (HasNoTop (W.world world.now) set) }
{
    for node in 0..world.cabling().nodes() {
        if set.has(node) && is_top(world, node) {
            return Some(node);
        }
    }
    None
}

/// Whether an ID is the place of a node in an order.
fn is_place(id: Option<u8>, order: &[u8], node: u8) -> bool
    ensures { IsTrue result ↔ IsSomeAnd id (λ i. slice_get order.now i ≡ Some node) }
{
    match id {
        Some(id) => order.get(id as usize).copied() == Some(node),
        None => false,
    }
}

/// Whether a node shows what it has to in a tree with this root.
fn fits<W: WorldRun>(world: &W, node: u8, root: u8, tree: &ShownTree) -> bool
    requires { node < length (W.world world.now).nodes }
    ensures { IsTrue result
        ↔ FitsTree (W.world world.now) root tree.now.list tree.now.order node }
{
    let view = world.view(node);
    (node == root || view.parent.is_some())
        && is_place(view.id, tree.order.as_slice(), node)
        && same_list(world.list(node), tree.list.as_slice())
}

/// Whether all nodes of a set show what they have to in a tree with this root.
fn all_fit<W: WorldRun>(world: &W, set: NodeSet, root: u8, tree: &ShownTree) -> bool
    requires formed { IsWellFormed (W.world world.now) }
    requires there { AreThere (W.world world.now) set }
    ensures { IsTrue result
        ↔ AllFit (W.world world.now) set root tree.now.list tree.now.order }
{
    for node in 0..world.cabling().nodes() {
        if set.has(node) && !fits(world, node, root, tree) {
            return false;
        }
    }
    true
}

/// The tree that a component came to, where it did. Its cables form no loop, and `attrs` has what
/// the nodes of the world show.
pub fn tree_of<W: WorldRun>(
    alloc: Global,
    world: &W,
    set: NodeSet,
    attrs: &[Attrs],
) -> Result<Option<Outcome>, OutOfMemory>
    requires formed { IsWellFormed (W.world world.now) }
    requires there { AreThere (W.world world.now) set }
    requires attrs { attrs.now ≡ attrs_now (W.world world.now) }
    requires no_loop { HasNoLoop (W.world world.now) set }
    ensures tree { IfOk result (λ o. IfSome o (λ t. IsReported (W.world world.now) set t)) }
    ensures none { IfOk result (λ o. IfNone o (IsNoTree (W.world world.now) set)) }
{
    let Some(root) = first_top(world, set) else {
        return Ok(None);
    };
    let Some(tree) = tree_shown_from(alloc, world.cabling(), root, attrs)? else {
        return Ok(None);
    };
    if !all_fit(world, set, root, &tree) {
        return Ok(None);
    }
    Ok(Some(Outcome::Tree {
        root,
        list: tree.list,
        order: tree.order,
    }))
}
