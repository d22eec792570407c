//! A bus manager's plan is carried out.
ghost use Rattle.std.specs.Prelude.{◌≡◌, ◌+◌, ◌≤◌, ℕ, Any};
ghost use Rattle.std.specs.Prelude.{IfOk, OnOk, OnErr, IsErr, IsTrue, IsFalse};
ghost use Rattle.cable_world.specs.Unchanged.{TurnsPass};
ghost use Rattle.convergence.specs.Milestones.{ResetsAreDone};
ghost use Rattle.settle.specs.Report.{IsReport, IsTreeFrom, quiet_turns_of};
ghost use Rattle.settle.specs.Planned.{SuitsTree, HasId, IsAfterPlan};
ghost use Rattle.settle.specs.Planned.{HaveGap, WantsGap};

use crate::laws::hops_stay;
use crate::report::Report;
use crate::settling::settle;
use cable_world::{Act, ActStop, WorldRun};
use cabling::OutOfMemory;
use outcomes::forced_roots_settle;
use root_plan::RootPlan;
use std::alloc::{AllocError, Global};

/// Node `from` sends the configuration packet of a plan, with R set and its gap count, and resets
/// the bus; then the world settles and is reported as by `settle`. The component of the node has
/// settled as a tree, for which the plan was made. Where the world isn't spent, the turns to settle
/// and those done before are at most 4,000,000,000.
///
/// The node that had the plan's root ID is root then, and every node of the component has the
/// plan's gap count. After want of memory the world is spent, or it has done the act and all turns.
pub fn settle_plan<W: WorldRun>(
    alloc: Global,
    world: &mut W,
    from: u8,
    plan: &RootPlan,
) -> Result<Report, OutOfMemory>
    requires suits { SuitsTree (W.world world.old) from plan.now }
    requires few { IsFalse (W.is_spent world.old) →
        (W.world world.old).turns + quiet_turns_of (W.world world.old) ≤ 4000000000 }
    // The node that had the plan's root ID is the root of the tree.
    ensures root { IfOk result (λ report. (root : ℕ) →
        HasId (W.world world.old) from plan.now.root_id root →
        Any (IsTreeFrom (W.world world.old).cabling from root) report.parts) }
    // One node had it.
    ensures one { OnOk result ((root : ℕ) × HasId (W.world world.old) from plan.now.root_id root) }
    ensures gaps { OnOk result (HaveGap (W.world world.new) from plan.now.gap) }
    // The new tree has as many hops as the old one, so the gap count suits it.
    ensures hops { IfOk result (λ report. Any (WantsGap from plan.now.gap) report.parts) }
    ensures report { IfOk result (λ report. IsReport (W.world world.new) report) }
    ensures done { OnOk result (ResetsAreDone (W.world world.new)) }
    ensures carried { OnOk result
        (IsAfterPlan (W.world world.old) (W.world world.new) from plan.now) }
    ensures passed { OnOk result
        (TurnsPass (quiet_turns_of (W.world world.old)) (W.world world.old) (W.world world.new)) }
    ensures fine { OnOk result (IsFalse (W.is_spent world.new)) }
    ensures memory { OnErr result (IsFalse (W.is_spent world.new) →
        IsAfterPlan (W.world world.old) (W.world world.new) from plan.now) }
    ensures was_spent { IsTrue (W.is_spent world.old) →
        IsErr result × (W.world world.new ≡ W.world world.old) }
{
    if world.spent() {
        return Err(AllocError);
    }
    forced_roots_settle();
    hops_stay(world.cabling());
    let act = Act::Config {
        from,
        root_id: plan.root_id,
        force: true,
        gap: Some(plan.gap),
    };
    match world.act(&act) {
        Ok(()) => settle(alloc, world),
        Err(ActStop::Memory(e)) => Err(e),
        Err(ActStop::Fault(_)) => unreachable!(),
    }
}
