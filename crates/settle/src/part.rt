//! What is reported of one component.
ghost use Rattle.std.specs.Prelude.{◌≡◌, ◌<◌, ◌^◌, IfOk, length};
ghost use Rattle.cabling.specs.NodeSet.{Holds};
ghost use Rattle.cabling.specs.Component.{IsComponent};
ghost use Rattle.cable_world.specs.Lawful.{IsWellFormed};
ghost use Rattle.cable_world.specs.Outcome.{attrs_now};
ghost use Rattle.settle.specs.Reported.{IsReported};
ghost use Rattle.settle.specs.codings.Reading.{IsPartOf};
ghost use Rattle.settle.specs.Report.{AreThere, IsGreatest, Drew, LastChanged, IsPart, HasSettled};

use crate::contention::contention_in;
use crate::report::{Outcome, Part};
use crate::tree::tree_of;
use cable_world::WorldRun;
use cabling::{NodeSet, OutOfMemory};
use outcomes::every_bus_settles;
use self_id::Attrs;
use std::alloc::Global;

/// The attributes that the nodes of a world show, by number.
pub fn attrs_of<W: WorldRun>(alloc: Global, world: &W) -> Result<Vec<Attrs>, OutOfMemory>
    requires { IsWellFormed (W.world world.now) }
    ensures { IfOk result (λ attrs. attrs.items ≡ attrs_now (W.world world.now)) }
{
    let mut attrs = Vec::new(alloc);
    for node in 0..world.cabling().nodes() {
        attrs.push(world.attrs(node))?;
    }
    Ok(attrs)
}

/// What a component came to, in a world that has settled. `attrs` has what its nodes show.
fn outcome_of<W: WorldRun>(
    alloc: Global,
    world: &W,
    set: NodeSet,
    attrs: &[Attrs],
) -> Result<Outcome, OutOfMemory>
    requires formed { IsWellFormed (W.world world.now) }
    requires attrs { attrs.now ≡ attrs_now (W.world world.now) }
    requires component { IsPartOf (W.world world.now) set }
    requires there { AreThere (W.world world.now) set }
    requires small { set < 2 ^ 63 }
    requires settled { ∥ HasSettled (W.world world.now) ∥₁ }
    ensures { IfOk result (λ outcome. IsReported (W.world world.now) set outcome) }
{
    every_bus_settles();
    let core = world.cabling().core(set);
    if !core.is_empty() {
        return Ok(Outcome::Loop { nodes: core });
    }
    if let Some(tree) = tree_of(alloc, world, set, attrs)? {
        return Ok(tree);
    }
    match contention_in(world, set) {
        Some((a, b)) => Ok(Outcome::Contention { a, b }),
        None => unreachable!(),
    }
}

/// The greatest number of coins that a node of a set drew. `first` is in the set.
fn rounds_of<W: WorldRun>(world: &W, set: NodeSet, first: u8) -> u16
    requires formed { IsWellFormed (W.world world.now) }
    requires holds { Holds set first }
    requires there { first < length (W.world world.now).nodes }
    ensures { IsGreatest set (Drew (W.world world.now)) result }
{
    let mut most = world.view(first).draws;
    for node in 0..world.cabling().nodes() {
        if set.has(node) {
            most = most.max(world.view(node).draws);
        }
    }
    most
}

/// The greatest of the numbers of turns at which a list of a node of a set last changed. `first` is
/// in the set.
fn last_change_of<W: WorldRun>(world: &W, set: NodeSet, first: u8) -> u32
    requires formed { IsWellFormed (W.world world.now) }
    requires holds { Holds set first }
    requires there { first < length (W.world world.now).nodes }
    ensures { IsGreatest set (LastChanged (W.world world.now)) result }
{
    let mut most = world.changed(first);
    for node in 0..world.cabling().nodes() {
        if set.has(node) {
            most = most.max(world.changed(node));
        }
    }
    most
}

/// What is reported of the component of a node, which exists, in a world that has settled. `attrs`
/// has what the nodes of the world show.
pub fn part_of<W: WorldRun>(
    alloc: Global,
    world: &W,
    node: u8,
    nodes: NodeSet,
    attrs: &[Attrs],
) -> Result<Part, OutOfMemory>
    requires formed { IsWellFormed (W.world world.now) }
    requires attrs { attrs.now ≡ attrs_now (W.world world.now) }
    requires component { IsComponent (W.world world.now).cabling node nodes }
    requires there { AreThere (W.world world.now) nodes }
    requires small { nodes < 2 ^ 63 }
    requires settled { ∥ HasSettled (W.world world.now) ∥₁ }
    ensures part { IfOk result (λ part. IsPart (W.world world.now) part) }
    ensures nodes { IfOk result (λ part. part.nodes ≡ nodes) }
{
    Ok(Part {
        nodes,
        rounds: rounds_of(world, nodes, node),
        changed: last_change_of(world, nodes, node),
        outcome: outcome_of(alloc, world, nodes, attrs)?,
    })
}
