//! A bus settles, and is read.
ghost use Rattle.std.specs.Prelude.{◌≡◌, ◌+◌, ◌≤◌, ◌==◌, IfOk, OnOk, OnErr, IsErr, IsTrue, IsFalse};
ghost use Rattle.std.specs.Int.{bit_at};
ghost use Rattle.cable_world.specs.Lawful.{IsWellFormed};
ghost use Rattle.cable_world.specs.Unchanged.{TurnsPass};
ghost use Rattle.convergence.specs.Milestones.{ResetsAreDone};
ghost use Rattle.settle.specs.codings.Reading.{is_in};
ghost use Rattle.settle.specs.Report.{AreParts, IsReport, quiet_turns_of, IsAfterQuiet, HasSettled};
ghost use Rattle.settle.specs.Forced.{ForcedNodeIsRoot};

use crate::part::{attrs_of, part_of};
use crate::quiet::quiet_turns_for;
use crate::report::{Part, PartList, Report};
use cable_world::WorldRun;
use cabling::{OutOfMemory, components_are_whole, components_exist};
use outcomes::{components_settle, forced_roots_settle, resets_spread};
use std::alloc::{AllocError, Global};

/// Whether a part has a node.
fn has(part: &Part, node: u8) -> bool
    ensures { result ≡ (bit_at part.now.nodes node == 1) }
{
    part.nodes.has(node)
}

/// Whether one of these parts has a node.
fn is_in(parts: &[Part], node: u8) -> bool
    ensures { result ≡ is_in parts.now node }
{
    parts.iter().any(|part| has(part, node))
}

/// What is reported of each component of a world that has settled, by their least nodes.
fn parts_of<W: WorldRun>(alloc: Global, world: &W) -> Result<PartList, OutOfMemory>
    requires formed { IsWellFormed (W.world world.now) }
    requires settled { ∥ HasSettled (W.world world.now) ∥₁ }
    ensures { IfOk result (λ parts. AreParts (W.world world.now) parts) }
{
    let cabling = world.cabling();
    components_are_whole(cabling);
    let attrs = attrs_of(alloc, world)?;
    let mut parts = PartList::new(alloc);
    for node in 0..cabling.nodes() {
        if !is_in(parts.as_slice(), node) {
            let nodes = cabling.component(node);
            parts.push(part_of(alloc, world, node, nodes, &attrs)?)?;
        }
    }
    Ok(parts)
}

/// Reports what each component of a world came to that has settled: it isn't spent, and at least as
/// many turns as `quiet_turns_for` says were done since the last act, with or without holds between
/// them.
pub fn report_of<W: WorldRun>(alloc: Global, world: &W) -> Result<Report, OutOfMemory>
    requires fine { IsFalse (W.is_spent world.now) }
    requires settled { ∥ HasSettled (W.world world.now) ∥₁ }
    ensures { IfOk result (IsReport (W.world world.now)) }
{
    Ok(Report {
        turn: world.turns(),
        parts: parts_of(alloc, world)?,
    })
}

/// Does as many turns as `quiet_turns_for` says of a world, and reports what each component came to: each comes to a loop, a contention or a tree,
/// and no node is in R0 or R1 then. Of a world that isn't spent they are, with the turns done before,
/// at most 4,000,000,000.
///
/// Where a reset had just begun in a component without loop, and one of its nodes alone is forced
/// then, that node is the root of its tree.
///
/// After want of memory the world is spent, or it has done all of these turns.
pub fn settle<W: WorldRun>(alloc: Global, world: &mut W) -> Result<Report, OutOfMemory>
    requires { IsFalse (W.is_spent world.old) →
        (W.world world.old).turns + quiet_turns_of (W.world world.old) ≤ 4000000000 }
    ensures report { IfOk result (λ report. IsReport (W.world world.new) report) }
    ensures done { OnOk result (ResetsAreDone (W.world world.new)) }
    ensures quiet { OnOk result (IsAfterQuiet (W.world world.old) (W.world world.new)) }
    ensures forced { IfOk result
        (ForcedNodeIsRoot (W.world world.old) (W.world world.new)) }
    ensures passed { OnOk result
        (TurnsPass (quiet_turns_of (W.world world.old)) (W.world world.old) (W.world world.new)) }
    ensures fine { OnOk result (IsFalse (W.is_spent world.new)) }
    ensures memory { OnErr result (IsFalse (W.is_spent world.new) →
        IsAfterQuiet (W.world world.old) (W.world world.new)) }
    ensures was_spent { IsTrue (W.is_spent world.old) →
        IsErr result × (W.world world.new ≡ W.world world.old) }
{
    if world.spent() {
        return Err(AllocError);
    }
    components_exist();
    components_settle();
    resets_spread();
    forced_roots_settle();
    let quiet = quiet_turns_for(&*world);
    world.run_turns(quiet)?;
    let report = report_of(alloc, &*world)?;
    Ok(report)
}
