//! Reading the nodes of a list and their links, with the first fault.
ghost use Rattle.std.specs.Prelude.{◌≡◌, ◌<◌, ℕ, List, [], length, IfOk};
ghost use Rattle.topology_stack.specs.Tree.{Tree, IsBusTreeOf, walk, emits};
ghost use Rattle.topology_stack.specs.Refused.{Refused};
ghost use Rattle.topology_stack.specs.Answer.{IfFault};
ghost use Rattle.topology_stack.specs.Behind.{IsReadBehind, IsGroupFault};
ghost use Rattle.topology_stack.specs.Links.{AreLinks};

use crate::fault::{TreeFault, TreeStop};
use crate::links::{Links, Roots};
use crate::waiting::{Waiting, after_node};
use self_id::{SelfId, Standard, read_group_into};
use std::alloc::Global;

/// The most nodes of a bus: IDs run from 0 to 62, and 63 means all nodes.
pub(crate) const MAX_NODES: usize = 63;

/// Reads the node whose group stands at a place of a list into the place behind the nodes that were
/// read. The answer is the place after its group.
#[inline]
fn read_behind(
    standard: Standard,
    quads: &[u32],
    at: usize,
    nodes: &mut Vec<SelfId>,
) -> Result<usize, TreeStop>
    requires inside { at < length quads.now }
    requires few { length nodes.old.items < 63 }
    ensures found { IfOk result (λ place.
        IsReadBehind standard quads.now at nodes.old.items nodes.new.items place) }
    ensures refused { IfFault result (IsGroupFault standard quads.now at nodes.old.items) }
{
    let id = nodes.len();
    nodes.push(SelfId::blank())?;
    let after = read_group_into(standard, quads, at, id as u8, &mut nodes[id])?;
    Ok(after)
}

/// The nodes, by ID, of the bus tree of a standard that emits a list. It links them.
#[inline]
pub(crate) fn nodes_of(
    alloc: Global,
    standard: Standard,
    quads: &[u32],
    links: &mut Links,
) -> Result<Vec<SelfId>, TreeStop>
    requires parents { links.old.parents.items ≡ [] }
    requires children { links.old.children ≡ [] }
    ensures found { IfOk result (λ v. (t : Tree) × IsBusTreeOf standard t × (v.items ≡ walk t)
        × (emits t ≡ quads.now)) }
    ensures linked { IfOk result (λ v. (roots : List ℕ)
        × AreLinks v.items roots links.new.parents.items links.new.children) }
    ensures refused { IfFault result (λ f. Refused standard quads.now f) }
{
    let mut nodes = Vec::with_capacity(alloc, quads.len().min(MAX_NODES))?;
    let mut roots = Roots::new();
    let mut at = 0;
    let mut waiting = Waiting {
        trees: 0,
        rooted: false,
    };
    while at < quads.len() {
        if waiting.rooted {
            return Err(TreeStop::Fault(TreeFault::AfterRoot { at }));
        }
        if nodes.len() == MAX_NODES {
            return Err(TreeStop::Fault(TreeFault::TooMany { at }));
        }
        let id = nodes.len();
        let after = read_behind(standard, quads, at, &mut nodes)?;
        waiting = after_node(at, waiting.trees, &nodes[id])?;
        let kept = waiting.trees as usize - 1;
        links.add(roots.latest(kept));
        roots.join(kept, id as u8);
        at = after;
    }
    if waiting.rooted {
        Ok(nodes)
    } else if nodes.is_empty() {
        Err(TreeStop::Fault(TreeFault::Empty))
    } else {
        Err(TreeStop::Fault(TreeFault::NoRoot { at }))
    }
}
