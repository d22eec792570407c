//! What differs between two buses.
ghost use Rattle.std.specs.Prelude.{◌≡◌, [], ◌||◌, ◌++◌, is_some, Contains, IfOk, OnOk};
ghost use Rattle.bus_diff.specs.declared.change.Change.{Change};
ghost use Rattle.bus_diff.specs.Matching.{IsMatching};
ghost use Rattle.bus_diff.specs.Change.{IsChange, AreChanges, is_one_or_none};
ghost use Rattle.bus_diff.specs.Along.{matched};
ghost use Rattle.bus_diff.specs.Same.{same_ids};
ghost use Rattle.bus_diff.specs.Listed.{if_gone, gone, if_come, come, if_moved, moved, if_other, other_attrs, values_at, values, if_rooted, if_managed, changes, changes_along};

use crate::along::matched_along;
use crate::change::{Change, Quality, value_of};
use crate::hanging::{hangs_on, plugged, pulled};
use crate::matching::{matched, same_ids};
use crate::pair::{Pair, is_one, stays, stood};
use self_id::{Attrs, SelfId};
use std::alloc::Global;
use topology_stack::{BusTree, OutOfMemory, elect};
use view_text::{Cable, cables, cables_are_of_the_tree, each_node_hangs_on_one_cable};

/// Which node of a bus is which of another, and what differs.
#[derive(Debug, Drop)]
pub struct Difference {
    /// The nodes that are in both.
    pub pairs: Vec<Pair>,
    /// What differs.
    pub changes: Vec<Change>,
}

/// Appends that the node of the old bus with this ID went, where it did.
fn put_gone(
    out: &mut Vec<Change>,
    pairs: &[Pair],
    cables: &[Cable],
    id: u8,
) -> Result<(), OutOfMemory>
    ensures { OnOk result (out.new.items ≡ out.old.items ++ if_gone cables.now pairs.now id) }
{
    if stays(pairs, id) {
        return Ok(());
    }
    let cable = hangs_on(cables, id);
    out.push(Change::Went { id, cable })?;
    Ok(())
}

/// Appends which of so many nodes of the old bus went.
fn put_all_gone(
    out: &mut Vec<Change>,
    pairs: &[Pair],
    cables: &[Cable],
    count: u8,
) -> Result<(), OutOfMemory>
    ensures { OnOk result (out.new.items ≡ out.old.items ++ gone cables.now pairs.now count) }
{
    for id in 0..count {
        put_gone(out, pairs, cables, id)?;
    }
    Ok(())
}

/// Appends that the node of the new bus with this ID came, where it did.
fn put_new(
    out: &mut Vec<Change>,
    pairs: &[Pair],
    cables: &[Cable],
    id: u8,
) -> Result<(), OutOfMemory>
    ensures { OnOk result (out.new.items ≡ out.old.items ++ if_come cables.now pairs.now id) }
{
    if stood(pairs, id) {
        return Ok(());
    }
    let cable = hangs_on(cables, id);
    out.push(Change::Came { id, cable })?;
    Ok(())
}

/// Appends which of so many nodes of the new bus came.
fn put_all_new(
    out: &mut Vec<Change>,
    pairs: &[Pair],
    cables: &[Cable],
    count: u8,
) -> Result<(), OutOfMemory>
    ensures { OnOk result (out.new.items ≡ out.old.items ++ come cables.now pairs.now count) }
{
    for id in 0..count {
        put_new(out, pairs, cables, id)?;
    }
    Ok(())
}

/// Whether there is one of two cables.
fn is_moved(from: Option<Cable>, to: Option<Cable>) -> bool
    ensures { result ≡ (is_some from || is_some to) }
{
    from.is_some() || to.is_some()
}

/// Appends that a node moved, where it did.
fn put_move(
    out: &mut Vec<Change>,
    pairs: &[Pair],
    old: &[Cable],
    new: &[Cable],
    pair: Pair,
) -> Result<(), OutOfMemory>
    ensures { OnOk result (out.new.items
        ≡ out.old.items ++ if_moved pairs.now old.now new.now pair) }
{
    let from = pulled(pairs, old, new, pair.old);
    let to = plugged(pairs, old, new, pair.new);
    if !is_moved(from, to) {
        return Ok(());
    }
    out.push(Change::Moved { pair, from, to })?;
    Ok(())
}

/// Appends that a node says another value of itself, where it does.
fn put_value(
    out: &mut Vec<Change>,
    pair: Pair,
    quality: Quality,
    old: Attrs,
    new: Attrs,
) -> Result<(), OutOfMemory>
    ensures { OnOk result (out.new.items ≡ out.old.items ++ if_other pair old new quality) }
{
    let from = value_of(quality, old);
    let to = value_of(quality, new);
    if from == to {
        return Ok(());
    }
    out.push(Change::Value {
        pair,
        quality,
        from,
        to,
    })?;
    Ok(())
}

/// Appends which values a node says of itself that are others.
fn put_attrs(out: &mut Vec<Change>, pair: Pair, old: Attrs, new: Attrs) -> Result<(), OutOfMemory>
    ensures { OnOk result (out.new.items ≡ out.old.items ++ other_attrs pair old new) }
{
    put_value(out, pair, Quality::Link, old, new)?;
    put_value(out, pair, Quality::Gap, old, new)?;
    put_value(out, pair, Quality::Speed, old, new)?;
    put_value(out, pair, Quality::Contender, old, new)?;
    put_value(out, pair, Quality::Power, old, new)?;
    Ok(())
}

/// The attributes of a node.
fn attrs_of(node: &SelfId) -> Attrs
    ensures { result ≡ node.now.attrs }
{
    node.attrs
}

/// The same of the nodes of a pair.
fn put_values(
    out: &mut Vec<Change>,
    pair: Pair,
    old: &[SelfId],
    new: &[SelfId],
) -> Result<(), OutOfMemory>
    ensures { OnOk result (out.new.items ≡ out.old.items ++ values_at old.now new.now pair) }
{
    let (old_id, new_id) = (pair.old as usize, pair.new as usize);
    if old_id >= old.len() {
        return Ok(());
    }
    if new_id >= new.len() {
        return Ok(());
    }
    put_attrs(out, pair, attrs_of(&old[old_id]), attrs_of(&new[new_id]))?;
    Ok(())
}

/// Appends which nodes moved.
fn put_moves(
    out: &mut Vec<Change>,
    pairs: &[Pair],
    old: &[Cable],
    new: &[Cable],
) -> Result<(), OutOfMemory>
    ensures { OnOk result (out.new.items
        ≡ out.old.items ++ moved pairs.now old.now new.now pairs.now) }
{
    for pair in pairs {
        put_move(out, pairs, old, new, *pair)?;
    }
    Ok(())
}

/// Appends which nodes say another value of themselves.
fn put_all_values(
    out: &mut Vec<Change>,
    pairs: &[Pair],
    old: &[SelfId],
    new: &[SelfId],
) -> Result<(), OutOfMemory>
    ensures { OnOk result (out.new.items
        ≡ out.old.items ++ values old.now new.now pairs.now) }
{
    for pair in pairs {
        put_values(out, *pair, old, new)?;
    }
    Ok(())
}

/// Appends that another node is the root, where it is.
fn put_root(out: &mut Vec<Change>, pairs: &[Pair], from: u8, to: u8) -> Result<(), OutOfMemory>
    ensures { OnOk result (out.new.items ≡ out.old.items ++ if_rooted pairs.now from to) }
{
    if is_one(pairs, from, to) {
        return Ok(());
    }
    out.push(Change::Root { from, to })?;
    Ok(())
}

/// Whether these may be IDs of one node, or there is none in both buses.
fn is_one_or_none(pairs: &[Pair], old: Option<u8>, new: Option<u8>) -> bool
    ensures { result ≡ is_one_or_none pairs.now old new }
{
    match (old, new) {
        (None, None) => true,
        (Some(old), Some(new)) => is_one(pairs, old, new),
        _ => false,
    }
}

/// Appends that another node is the isochronous resource manager, where it is.
fn put_manager(
    out: &mut Vec<Change>,
    pairs: &[Pair],
    from: Option<u8>,
    to: Option<u8>,
) -> Result<(), OutOfMemory>
    ensures { OnOk result (out.new.items ≡ out.old.items ++ if_managed pairs.now from to) }
{
    if is_one_or_none(pairs, from, to) {
        return Ok(());
    }
    out.push(Change::Manager { from, to })?;
    Ok(())
}

/// What differs of two buses whose nodes are matched so.
fn changes_of(
    alloc: Global,
    old: &BusTree,
    new: &BusTree,
    pairs: &[Pair],
) -> Result<Vec<Change>, OutOfMemory>
    ensures { IfOk result (λ told. told.items ≡ changes old.now new.now pairs.now) }
{
    let old_cables = cables(alloc, old)?;
    let new_cables = cables(alloc, new)?;
    let mut told = Vec::new(alloc);
    put_all_gone(&mut told, pairs, &old_cables, old.len())?;
    put_all_new(&mut told, pairs, &new_cables, new.len())?;
    put_moves(&mut told, pairs, &old_cables, &new_cables)?;
    put_all_values(&mut told, pairs, old.nodes(), new.nodes())?;
    put_root(&mut told, pairs, old.root(), new.root())?;
    put_manager(&mut told, pairs, elect(old), elect(new))?;
    Ok(told)
}

/// What differs of two buses, with the pairs by which their nodes are matched.
fn differing(
    alloc: Global,
    old: &BusTree,
    new: &BusTree,
    pairs: Vec<Pair>,
) -> Result<Difference, OutOfMemory>
    ensures pairs { IfOk result (λ d. d.pairs.items ≡ pairs.items) }
    ensures list { IfOk result (λ d. d.changes.items ≡ changes old.now new.now d.pairs.items) }
    ensures exact { IfOk result (λ d. AreChanges old.now new.now d.pairs.items d.changes.items) }
{
    let changes = changes_of(alloc, old, new, &pairs)?;
    Ok(Difference { pairs, changes })
}

/// Which node of a bus is which of another, and what differs: exactly that is told, and each of it is so of both
/// buses. Where nothing differs between nodes of the same IDs, nothing is told. Otherwise, that no other matching has
/// less to tell isn't promised.
pub fn compare(alloc: Global, old: &BusTree, new: &BusTree) -> Result<Difference, OutOfMemory>
    // No node stands in two pairs, and each has as many ports in both.
    ensures matching { IfOk result (λ d. IsMatching old.now new.now d.pairs.items) }
    // By these pairs the list of what differs is this one.
    ensures list { IfOk result (λ d. d.changes.items ≡ changes old.now new.now d.pairs.items) }
    // What is told is so of both buses, and differs.
    ensures told { IfOk result (λ d. (change : Change) → Contains d.changes.items change →
        IsChange old.now new.now d.pairs.items change) }
    // All that differs is told.
    ensures all { IfOk result (λ d. (change : Change) →
        IsChange old.now new.now d.pairs.items change → Contains d.changes.items change) }
    // Where each node is the one of its ID and nothing differs so, nothing is told, as of a bus and itself.
    ensures alike { IfOk result (λ d.
        changes old.now new.now (same_ids old.now new.now) ≡ [] → d.changes.items ≡ []) }
    ensures same { IfOk result (λ d. old.now ≡ new.now → d.changes.items ≡ []) }
{
    let alike = same_ids(alloc, old, new)?;
    let told = differing(alloc, old, new, alike)?;
    if told.changes.is_empty() {
        return Ok(told);
    }
    let pairs = matched(alloc, old, new)?;
    let told = differing(alloc, old, new, pairs)?;
    Ok(told)
}

/// The same where both buses are walked along ports of the same numbers, from the first two nodes from which the
/// most are reached. So two buses have one such answer: its pairs by rising ID in the new bus, and its changes in
/// the order of their kinds.
#[tactic(auto, unfolding(crate::specs::Listed::changes_along))]
pub fn compare_along(alloc: Global, old: &BusTree, new: &BusTree) -> Result<Difference, OutOfMemory>
    ensures pairs { IfOk result (λ d. d.pairs.items ≡ matched old.now new.now) }
    ensures list { IfOk result (λ d. d.changes.items ≡ changes_along old.now new.now) }
    // No node stands in two pairs, and each has as many ports in both.
    ensures matching { IfOk result (λ d. IsMatching old.now new.now d.pairs.items) }
    // Exactly what differs is told.
    ensures exact { IfOk result (λ d.
        AreChanges old.now new.now d.pairs.items d.changes.items) }
    // A bus and itself differ in nothing.
    ensures same { IfOk result (λ d. old.now ≡ new.now → d.changes.items ≡ []) }
{
    cables_are_of_the_tree();
    each_node_hangs_on_one_cable();
    let _len = old.len();
    let pairs = matched_along(alloc, old, new)?;
    let told = differing(alloc, old, new, pairs)?;
    Ok(told)
}
