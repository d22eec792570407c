//! The choice of a root.
ghost use Rattle.std.specs.Prelude.{◌≡◌, ◌↔◌, ◌<◌, true, Some, None, IsNone, IfSome};
ghost use Rattle.topology_stack.specs.Tree.{walk};
ghost use Rattle.topology_stack.specs.Elect.{elected, is_candidate, IsCandidate, IsHighest};
ghost use Rattle.root_plan.specs.Plan.{IsPlan};
ghost use Rattle.root_plan.specs.codings.Climb.{BestFrom};

use crate::reach::reach;
use bus_manager::{gap_for, hops, plan_config};
use self_id::SelfId;
use topology_stack::{BusTree, elect};

/// What a bus manager plans for its bus.
#[derive(Clone, Copy, Debug, PartialEq, Eq)]
pub struct RootPlan {
    /// The ID of the node that is to be root.
    pub root_id: u8,
    /// The number of cables on the longest path of the tree.
    pub hops: u8,
    /// The gap count that suits so many.
    pub gap: u8,
    /// The number of cables from that node to the one farthest from it.
    pub far: u8,
    /// The configuration packet that names this root and this gap count.
    pub packet: u32,
}

/// A node that may be root.
#[derive(Clone, Copy)]
struct Candidate {
    id: u8,
    reach: u8,
}

/// Whether a node may be root: its link is active, and it contends.
fn is_eligible(node: &SelfId) -> bool
    ensures { result ≡ is_candidate node.now }
{
    node.attrs.link && node.attrs.contender
}

/// The candidate of least reach, and of these the one with the highest ID. `manager` is the
/// candidate with the highest ID of all.
fn best_candidate(tree: &BusTree, manager: u8) -> Candidate
    requires { IsHighest (walk tree.now) (Some manager) }
    ensures { BestFrom tree.now 0 result.id result.reach }
{
    let mut best = Candidate {
        id: manager,
        reach: reach(tree, manager),
    };
    for id in (0..manager).rev() {
        if is_eligible(tree.node(id)) {
            let reach = reach(tree, id);
            if reach < best.reach {
                best = Candidate { id, reach };
            }
        }
    }
    best
}

/// The root that suits a bus best, and its packet. Eligible are the nodes with an active link that
/// contend. The distance of two nodes is the number of cables between them, and the reach of a node
/// its greatest distance. The plan's root is the eligible node of least reach, and of these the one
/// with the highest ID.
///
/// `None` where no node is eligible, and so none is elected.
pub fn choose(tree: &BusTree) -> Option<RootPlan>
    ensures none { IsNone result ↔ (elected tree.now ≡ None) }
    ensures plan { IfSome result (λ plan. IsPlan tree.now plan) }
{
    let manager = elect(tree)?;
    let best = best_candidate(tree, manager);
    let hops = hops(tree);
    Some(RootPlan {
        root_id: best.id,
        hops,
        gap: gap_for(hops),
        far: best.reach,
        packet: plan_config(tree, best.id),
    })
}
