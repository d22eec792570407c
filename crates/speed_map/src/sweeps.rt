//! The rows of a speed map, filled by two sweeps over the nodes.
ghost use Rattle.std.specs.Prelude.{◌≡◌, ◌≢◌, ◌+◌, ◌*◌, ◌≤◌, ◌<◌, ℕ, length, slice_get, Some, IfOk, IfSome, IfNone, replicate};
ghost use Rattle.topology_stack.specs.Tree.{walk};
ghost use Rattle.topology_stack.specs.Far.{Far};
ghost use Rattle.speed_map.specs.Path.{Joined};
ghost use Rattle.speed_map.specs.Rows.{AreRows};
ghost use Rattle.speed_map.specs.codings.Sweep.{KeepFirsts, Rising, Falling, first_of};

use crate::row::{ROW, copy_capped, slots, speed};
use quad_lanes::OutOfMemory;
use std::alloc::Global;
use topology_stack::BusTree;

/// The child at the other end of a slot, if one is there. Children have lower IDs.
fn child_at(tree: &BusTree, id: u8, slot: u8) -> Option<u8>
    requires id { id < length (walk tree.now) }
    requires slot { IfSome (slice_get (walk tree.now) id) (λ n. slot < length n.ports) }
    ensures child { IfSome result (λ k. Far tree.now id slot (Some k) × (k < id)) }
    ensures none { IfNone result ((k : ℕ) → Far tree.now id slot (Some k) → id ≤ k) }
{
    match tree.far(id, slot) {
        Some(child) if child < id => Some(child),
        _ => None,
    }
}

/// Fills the row of a node for its subtree, and answers the first ID of it. The rows of its
/// children are filled for theirs.
fn fill_below(rows: &mut [u8], tree: &BusTree, firsts: &[u8], id: u8) -> u8
    requires id { id < length (walk tree.now) }
    requires firsts { KeepFirsts tree.now firsts.now id }
    requires room { 63 ≤ length firsts.now }
    requires before { Rising tree.now rows.old id }
    ensures first { result ≡ first_of tree.now id }
    ensures after { Rising tree.now rows.new (id + 1) }
{
    // a bus tree, whose nodes are at most 63
    let _len = tree.len();
    let node = tree.node(id);
    let cap = speed(node);
    let to = id as usize;
    let mut first = id;
    rows[ROW * to + to] = cap;
    for slot in 0..slots(node) {
        if let Some(child) = child_at(tree, id, slot) {
            let of = child as usize;
            let low = firsts[of];
            copy_capped(rows, of, to, low as usize, of + 1, cap);
            first = first.min(low);
        }
    }
    first
}

/// The ID of a node's parent. The node isn't the root, whose ID is the last.
pub fn parent_of(tree: &BusTree, id: u8) -> u8
    requires { id + 1 < length (walk tree.now) }
    ensures far { Joined tree.now id result }
    ensures after { id < result }
{
    // a bus tree, of which each node but the root has a slot that leads up
    let _len = tree.len();
    for slot in 0..slots(tree.node(id)) {
        if let Some(parent) = tree.far(id, slot) {
            if parent > id {
                return parent;
            }
        }
    }
    unreachable!()
}

/// Fills the row of a node outside of its subtree. The row of its parent is filled.
fn fill_outside(rows: &mut [u8], tree: &BusTree, firsts: &[u8], id: u8)
    requires id { id + 1 < length (walk tree.now) }
    requires firsts { KeepFirsts tree.now firsts.now (length (walk tree.now)) }
    requires room { 63 ≤ length firsts.now }
    requires before { Falling tree.now rows.old (id + 1) }
    ensures { Falling tree.now rows.new id }
{
    let len = tree.len() as usize;
    let cap = speed(tree.node(id));
    let parent = parent_of(tree, id);
    let of = parent as usize;
    let to = id as usize;
    copy_capped(rows, of, to, 0, firsts[to] as usize, cap);
    copy_capped(rows, of, to, to + 1, len, cap);
}

/// Fills rows of zeros.
fn fill(rows: &mut [u8], tree: &BusTree)
    requires { rows.old ≡ replicate (64 * length (walk tree.now)) 0 }
    ensures { AreRows tree.now rows.new }
{
    let len = tree.len();
    let mut firsts = [0; 63];
    for id in 0..len {
        firsts[id as usize] = fill_below(rows, tree, &firsts, id);
    }
    for id in (0..tree.root()).rev() {
        fill_outside(rows, tree, &firsts, id);
    }
}

/// The rows of a bus's speed map: 64 bytes a node, by ID. The byte at `64 * from + to` is the speed
/// code of the path between these two nodes: the least of its nodes' codes, both ends included,
/// where 3 counts as 2. The bytes of a row behind that of the last node are 0.
pub fn rows(alloc: Global, tree: &BusTree) -> Result<Vec<u8>, OutOfMemory>
    ensures { IfOk result (λ rows. AreRows tree.now rows.items) }
{
    let mut rows = vec![in alloc; 0; ROW * tree.len() as usize]?;
    fill(&mut rows, tree);
    Ok(rows)
}
