//! Which node of one bus is which of another.
ghost use Rattle.std.specs.Prelude.{◌≡◌, slice_get, IfOk, OnOk};
ghost use Rattle.topology_stack.specs.Tree.{walk};
ghost use Rattle.bus_diff.specs.Matching.{is_port, port_count, IsMatching};
ghost use Rattle.bus_diff.specs.Along.{ports_of, is_same_count, may_be_one, with_pair};
ghost use Rattle.bus_diff.specs.Same.{same_ids};

use crate::guess::{Guess, guessed};
use crate::links::Links;
use crate::pair::{Pair, stays, stood};
use self_id::{PortStatus, SelfId};
use std::alloc::Global;
use topology_stack::{BusTree, OutOfMemory};
use view_text::cables;

/// Whether a slot with this status is a port.
fn is_port(slot: PortStatus) -> bool
    ensures { result ≡ is_port slot }
{
    !matches!(slot, PortStatus::Absent)
}

/// How many ports a node has, plugged or not.
pub(crate) fn port_count(node: &SelfId) -> usize
    ensures { result ≡ port_count node.now.ports }
{
    node.ports
        .as_slice()
        .iter()
        .filter(|slot| is_port(**slot))
        .count()
}

/// How many ports the node with this ID has. `None` where there is none.
fn ports_of(tree: &BusTree, id: u8) -> Option<usize>
    ensures { result ≡ ports_of (slice_get (walk tree.now) id) }
{
    if id >= tree.len() {
        return None;
    }
    Some(port_count(tree.node(id)))
}

/// Whether there are two counts, and they are the same.
fn is_same_count(one: Option<usize>, other: Option<usize>) -> bool
    ensures { result ≡ is_same_count one other }
{
    match (one, other) {
        (Some(one), Some(other)) => one == other,
        _ => false,
    }
}

/// Whether two nodes may be one: both are there and in no pair yet, and have as many ports.
fn may_be_one(old: &BusTree, new: &BusTree, pairs: &[Pair], pair: Pair) -> bool
    ensures { result ≡ may_be_one old.now new.now pairs.now pair }
{
    !stays(pairs, pair.old)
        && !stood(pairs, pair.new)
        && is_same_count(ports_of(old, pair.old), ports_of(new, pair.new))
}

/// Appends a pair, if its nodes may be one.
pub(crate) fn put_pair(
    pairs: &mut Vec<Pair>,
    old: &BusTree,
    new: &BusTree,
    pair: Pair,
) -> Result<(), OutOfMemory>
    ensures { OnOk result (pairs.new.items ≡ with_pair old.now new.now pairs.old.items pair) }
{
    if may_be_one(old, new, pairs, pair) {
        pairs.push(pair)?;
    }
    Ok(())
}

/// The pairs of a guess, but for those that can't be.
fn pairs_of(
    alloc: Global,
    old: &BusTree,
    new: &BusTree,
    guess: &Guess,
) -> Result<Vec<Pair>, OutOfMemory>
    ensures { IfOk result (λ pairs. IsMatching old.now new.now pairs.items) }
{
    let mut pairs = Vec::new(alloc);
    for id in 0..old.len() {
        let pair = Pair {
            old: id,
            new: guess.new_of(id),
        };
        put_pair(&mut pairs, old, new, pair)?;
    }
    Ok(pairs)
}

/// The pairs of nodes with the same ID, but for those that can't be.
pub(crate) fn same_ids(
    alloc: Global,
    old: &BusTree,
    new: &BusTree,
) -> Result<Vec<Pair>, OutOfMemory>
    ensures { IfOk result (λ pairs. pairs.items ≡ same_ids old.now new.now) }
{
    let mut pairs = Vec::new(alloc);
    for id in 0..old.len() {
        let pair = Pair { old: id, new: id };
        put_pair(&mut pairs, old, new, pair)?;
    }
    Ok(pairs)
}

/// Pairs of nodes that are taken for one.
pub(crate) fn matched(alloc: Global, old: &BusTree, new: &BusTree) -> Result<Vec<Pair>, OutOfMemory>
    ensures { IfOk result (λ pairs. IsMatching old.now new.now pairs.items) }
{
    let old_links = Links::of(alloc, old, &cables(alloc, old)?)?;
    let new_links = Links::of(alloc, new, &cables(alloc, new)?)?;
    pairs_of(alloc, old, new, &guessed(&old_links, &new_links))
}
