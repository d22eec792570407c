//! A bus manager's plans, carried out.
ghost use Rattle.std.specs.Prelude.{IsFalse, IfOk, IfSome};
ghost use Rattle.settle.specs.Report.{IsReport};

use crate::nodes::{CONTENDER, Node, USUAL, world};
use crate::quiet::can_settle;
use cable_world::{Act, World, WorldRun};
use cabling::{End, components_are_whole};
use phy_machine::AnyMachine;
use root_plan::{RootPlan, choose};
use settle::{Outcome, Report, plans_suit, settle, settle_plan};
use std::alloc::Global;
use std::process::Abort;
use std::test::Fail;
use topology_stack::read_tree;

/// These nodes in a line: a cable leads from each node's port 1, or the first one's port 0, to port 0 of
/// the next.
fn line(rt: &impl Abort, alloc: Global, nodes: &[Node]) -> Result<World<AnyMachine>, Fail> {
    assert!(rt; 1 <= nodes.len() && nodes.len() <= 63);
    let mut world = world(rt, alloc, nodes, 4, false)?;
    for node in 1..nodes.len() as u8 {
        let port = if node == 1 { 0 } else { 1 };
        world.act(&Act::Plug {
            a: End {
                node: node - 1,
                port,
            },
            b: End { node, port: 0 },
        })?;
    }
    Ok(world)
}

/// Chooses a root for the one component of a world that has settled, and carries the plan out from
/// a node. None where there is no tree, or no candidate.
fn replanned<W: WorldRun>(
    rt: &impl Abort,
    alloc: Global,
    world: &mut W,
    report: &Report,
    from: u8,
) -> Result<Option<(RootPlan, Report)>, Fail>
    requires report { IsReport (W.world world.old) report.now }
    requires fine { IsFalse (W.is_spent world.old) }
    ensures report { IfOk result (λ o. IfSome o (λ p. IsReport (W.world world.new) p.1)) }
    ensures fine { IfOk result (λ o. IfSome o (λ p. IsFalse (W.is_spent world.new))) }
{
    let parts = report.parts.as_slice();
    assert!(rt; parts.len() == 1);
    assert!(rt; from < world.cabling().nodes());
    assert!(rt; parts[0].nodes.has(from));
    let Outcome::Tree { list, .. } = &parts[0].outcome else {
        return Ok(None);
    };
    let tree = read_tree(alloc, list.as_slice())?;
    let Some(plan) = choose(&tree) else {
        return Ok(None);
    };
    assert!(rt; can_settle(&*world));
    plans_suit(world, from);
    components_are_whole(world.cabling());
    let settled = settle_plan(alloc, world, from, &plan)?;
    Ok(Some((plan, settled)))
}

/// Settles a world, and plans for it.
fn settled_and_replanned<W: WorldRun>(
    rt: &impl Abort,
    alloc: Global,
    world: &mut W,
    from: u8,
) -> Result<Option<(RootPlan, Report)>, Fail>
    ensures report { IfOk result (λ o. IfSome o (λ p. IsReport (W.world world.new) p.1)) }
    ensures fine { IfOk result (λ o. IfSome o (λ p. IsFalse (W.is_spent world.new))) }
{
    assert!(rt; can_settle(&*world));
    let report = settle(alloc, world)?;
    replanned(rt, alloc, world, &report, from)
}

/// Whether the only part of a report is a tree with this root, list and order.
fn is_tree(report: &Report, its_root: u8, its_list: &[u32], its_order: &[u8]) -> bool {
    let parts = report.parts.as_slice();
    if parts.len() != 1 {
        return false;
    }
    match &parts[0].outcome {
        Outcome::Tree { root, list, order } => {
            *root == its_root && list.as_slice() == its_list && order.as_slice() == its_order
        }
        _ => false,
    }
}

/// The turn of the last change in the first part.
fn last_change(report: &Report) -> Option<u32> {
    match report.parts.as_slice().first() {
        Some(part) => Some(part.changed),
        None => None,
    }
}

/// The plan for the first of three nodes in a line.
const OTHER_END: RootPlan = RootPlan {
    root_id: 1,
    hops: 2,
    gap: 7,
    far: 2,
    packet: 0x01c7_0000,
};

const OTHER_LIST: [u32; 3] = [0x8047_8896, 0x8147_80e4, 0x8247_88d4];

/// Whether the other end of three nodes becomes root.
fn other_end_is_root(planned: &Option<(RootPlan, Report)>) -> bool {
    match planned {
        Some((plan, report)) => {
            *plan == OTHER_END
                && report.turn == 16_480
                && is_tree(report, 2, &OTHER_LIST, &[0, 1, 2])
                && last_change(report) == Some(8511)
        }
        None => false,
    }
}

// the first of three nodes plans; both ends contend
#[test]
fn the_other_end_becomes_root(rt: HostRuntime) -> Result<(), Fail> {
    let mut world = line(&rt, rt.alloc(), &[CONTENDER, USUAL, CONTENDER])?;
    let planned = settled_and_replanned(&rt, rt.alloc(), &mut world, 0)?;
    assert!(rt; other_end_is_root(&planned));
    Ok(())
}

/// The list of five nodes whose middle is root.
const FIVE: [u32; 5] = [
    0x804a_8894,
    0x814a_88e4,
    0x824a_8896,
    0x834a_88b4,
    0x844a_88f4,
];

/// Whether this is the first plan for five nodes, and whether it is the second.
fn is_first(plan: &RootPlan) -> bool {
    plan.hops == 4 && plan.gap == 10 && plan.far == 2
}

fn is_second(plan: &RootPlan) -> bool {
    plan.root_id == 4 && plan.far == 2
}

/// Whether the middle of five nodes is root.
fn middle_is_root(report: &Report) -> bool {
    is_tree(report, 2, &FIVE, &[0, 1, 4, 3, 2])
}

// all of five nodes contend; a second plan follows the first, and finds the root in the middle
#[test]
fn the_middle_becomes_root_and_stays(rt: HostRuntime) -> Result<(), Fail> {
    let mut world = line(&rt, rt.alloc(), &[CONTENDER; 5])?;
    let Some((first, report)) = settled_and_replanned(&rt, rt.alloc(), &mut world, 4)? else {
        assert!(rt; false, "a plan");
        return Ok(());
    };
    assert!(rt; is_first(&first) && middle_is_root(&report));
    let Some((second, report)) = replanned(&rt, rt.alloc(), &mut world, &report, 4)? else {
        assert!(rt; false, "a plan");
        return Ok(());
    };
    assert!(rt; is_second(&second) && middle_is_root(&report));
    Ok(())
}
