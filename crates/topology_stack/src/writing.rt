//! The list that a bus tree emits.
ghost use Rattle.std.specs.Prelude.{◌≡◌, IfOk};
ghost use Rattle.topology_stack.specs.Tree.{emits};

use crate::tree::BusTree;
use quad_lanes::{OutOfMemory, QuadList};
use self_id::{QuadGroup, write_group};
use std::alloc::Global;

/// The first quadlets of the self-ID packets of a bus, each node's group in the order of the IDs.
/// The tree that `read_tree` answers for a list gives that list again.
pub fn write_tree(alloc: Global, tree: &BusTree) -> Result<QuadList, OutOfMemory>
    ensures { IfOk result (λ quads. quads ≡ emits tree.now) }
{
    let mut quads = QuadList::new(alloc);
    for (id, node) in tree.nodes().iter().enumerate() {
        let mut group = QuadGroup::new();
        write_group(node, id as u8, &mut group);
        quads.extend_from_slice(group.as_slice())?;
    }
    Ok(quads)
}
