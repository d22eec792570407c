//! The bus tree that cables make.
ghost use Rattle.std.specs.Prelude.{◌≡◌, ◌+◌, ◌<◌, ◌≤◌, ℕ, All, length, IfOk, None};
ghost use Rattle.self_id.specs.declared.standard.Standard.TheVariants.{Ieee2000};
ghost use Rattle.topology_stack.specs.Tree.{Tree, IsBusTreeOf};
ghost use Rattle.self_id.specs.Node.{FitBits};
ghost use Rattle.cabling.specs.NodeSet.{IsEmpty};
ghost use Rattle.cabling.specs.Looped.{IsCoreOf};
ghost use Rattle.cabling.specs.Sees.{Sees};
ghost use Rattle.cabling.specs.Labels.{labels};
ghost use Rattle.cabling.specs.codings.Shown.{status, slots_of, shown_node};
ghost use Rattle.cabling.specs.Answer.{IfCyclic};

use crate::cable::End;
use crate::node_set::NodeSet;
use crate::visits::Visit;
use crate::wiring::{Cabling, cables_are_two_ended};
use quad_lanes::{OutOfMemory, QuadList};
use self_id::{Attrs, PortList, PortStatus, QuadGroup, SelfId, slot_count, write_group};
use std::alloc::Global;
use thiserror::Error;
use topology_stack::{BusTree, TreeStop, read_tree};

/// Why `tree_from` answers no tree.
#[derive(Debug, Drop, Error)]
pub enum TreeFromFault {
    /// Cables form loops in the component; this is its core, which isn't empty.
    #[error("cables form loops")]
    Cyclic { core: NodeSet },
    /// There was no memory.
    #[error("out of memory")]
    Memory(OutOfMemory),
}

impl From<OutOfMemory> for TreeFromFault {
    ghost use Rattle.cabling.specs.declared.tree.TreeFromFault.TheVariants.{Memory};

    ghost from_gives = { λ x e. e ≡ Memory x };

    fn from(e: OutOfMemory) -> TreeFromFault {
        TreeFromFault::Memory(e)
    }
}

/// What a port shows of a node that was, or was not, come to by it.
fn status(from: Option<u8>, port: u8, far: Option<End>) -> PortStatus
    ensures { result ≡ status from port far }
{
    match far {
        None => PortStatus::Unplugged,
        Some(_) => {
            if from == Some(port) {
                PortStatus::Up
            } else {
                PortStatus::Down
            }
        }
    }
}

impl Cabling {
    /// The slots that a node shows.
    fn slots(&self, visit: Visit) -> PortList
        requires { visit.node < length self.now }
        ensures { result ≡ slots_of self.now visit }
    {
        let ends = self.ends(visit.node);
        let mut slots = PortList::new();
        for (port, far) in ends.iter().enumerate() {
            slots.push(status(visit.from, port as u8, *far));
        }
        for _ in ends.len()..slot_count(ends.len()) {
            slots.push(PortStatus::Absent);
        }
        slots
    }

    /// The bus tree that is seen from `root`, which exists, where `root` is the root of the bus.
    ///
    /// `attrs` has one entry for each node of the cabling, by its number, and each fits its bits.
    /// `Cyclic` where the component of the root has a core.
    ///
    /// The nodes show themselves by IEEE 1394a-2000. The tree is made as a bus makes it: they write
    /// their self-ID packets in the order of the walk, and the list is read. So trees are made in one
    /// place alone, and what is known of reading says that the tree whose list this is comes out.
    pub fn tree_from(
        &self,
        alloc: Global,
        root: u8,
        attrs: &[Attrs],
    ) -> Result<BusTree, TreeFromFault>
        requires root { root < length self.now }
        requires entries { length attrs.now ≡ length self.now }
        requires valid { All FitBits attrs.now }
        // The tree is the one that is seen from the root.
        ensures tree { IfOk result (λ t. Sees self.now (labels attrs.now) root None t) }
        ensures bus { IfOk result (IsBusTreeOf Ieee2000) }
        // A core that is answered is the component's, and there is a node in it.
        ensures core { IfCyclic result (λ core. IsCoreOf self.now root core × (IsEmpty core → ⊥)) }
        // Where a tree is answered, the component has no core.
        ensures acyclic { IfOk result (λ t.
            (core : ℕ) → IsCoreOf self.now root core → IsEmpty core) }
    {
        cables_are_two_ended(self);
        let core = self.core_of(root);
        if !core.is_empty() {
            return Err(TreeFromFault::Cyclic { core });
        }
        let visits = self.visits(root);
        let mut quads = QuadList::new(alloc);
        for (id, visit) in visits.as_slice().iter().enumerate() {
            let own = attrs[visit.node as usize];
            let node = SelfId::new(own, self.slots(*visit).as_slice());
            let mut group = QuadGroup::new();
            write_group(&node, id as u8, &mut group);
            quads.extend_from_slice(group.as_slice())?;
        }
        match read_tree(alloc, quads.as_slice()) {
            Ok(tree) => Ok(tree),
            Err(TreeStop::Memory(e)) => Err(TreeFromFault::Memory(e)),
            Err(TreeStop::Fault(_)) => unreachable!(),
        }
    }
}
