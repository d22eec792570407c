//! What a bus settles to after its plan.
ghost use Rattle.std.specs.Prelude.{◌<◌, ◌↔◌, ℕ, length, slice_index, All, IfOk, IfErr, IsOk};
ghost use Rattle.cabling.specs.NodeSet.{IsEmpty};
ghost use Rattle.cabling.specs.Looped.{IsCoreOf};
ghost use Rattle.cabling.specs.Walk.{IsWalk};

use crate::choice::RootPlan;
use cabling::{Cabling, Cyclic, Walk};

/// The nodes of a component in the order in which they identify themselves once the plan's root is
/// root. `order` has the node of each ID now, and each of these nodes exists. `Cyclic` where cables
/// form loops in the component, which has no such order.
pub fn expect(cabling: &Cabling, order: &Walk, plan: &RootPlan) -> Result<Walk, Cyclic>
    requires place { plan.now.root_id < length order.now }
    requires exist { All (λ node. node < length cabling.now) order.now }
    ensures walk { IfOk result (λ walk.
        IsWalk cabling.now (slice_index order.now plan.now.root_id) walk) }
    ensures core { IfErr result (λ cyclic.
        IsCoreOf cabling.now (slice_index order.now plan.now.root_id) cyclic.core) }
    ensures cyclic { (core : ℕ) →
        IsCoreOf cabling.now (slice_index order.now plan.now.root_id) core →
        (IsOk result ↔ IsEmpty core) }
{
    cabling.walk_from(order.as_slice()[plan.root_id as usize])
}
