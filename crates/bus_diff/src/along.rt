//! Which node of one bus is which of another, where both are walked along ports of the same numbers.
ghost use Rattle.std.specs.Prelude.{◌≡◌, ◌<◌, ◌++◌, min, map, reverse, ◌==◌, find, option_to_list, length, IfOk, OnOk};
ghost use Rattle.topology_stack.specs.Tree.{walk};
ghost use Rattle.view_text.specs.Cable.{cables};
ghost use Rattle.bus_diff.specs.Along.{pair_of, turned, leads_so, other_end, led_to, with_led, stepped, walked, ways, reached, longer, is_full, with_start, best_with, best_of, by_new_id, matched};

use crate::matching::put_pair;
use crate::pair::Pair;
use std::alloc::Global;
use topology_stack::{BusTree, OutOfMemory};
use view_text::{Cable, cables};

/// The pair of the node of the old bus with this ID.
fn pair_of(pairs: &[Pair], id: u8) -> Option<Pair>
    ensures { result ≡ pair_of pairs.now id }
{
    pairs.iter().copied().find(|pair| pair.old == id)
}

/// The same cable, told from its other end.
fn turned(cable: &Cable) -> Cable
    ensures { result ≡ turned cable.now }
{
    Cable {
        parent: cable.child,
        port: cable.child_port,
        child: cable.parent,
        child_port: cable.port,
        speed: cable.speed,
    }
}

/// Whether a cable leads from this node as another does from its parent.
fn leads_so(cable: &Cable, id: u8, other: &Cable) -> bool
    ensures { result ≡ leads_so cable.now id other.now }
{
    (other.parent == id && other.port == cable.port && other.child_port == cable.child_port)
        || (other.child == id && other.child_port == cable.port && other.port == cable.child_port)
}

/// The cable that leads so.
fn leading_so(far: &[Cable], cable: &Cable, id: u8) -> Option<Cable>
    ensures { result ≡ find (λ d. leads_so cable.now id d) far.now }
{
    far.iter().copied().find(|other| leads_so(cable, id, other))
}

/// The node at a cable's other end.
fn other_end(id: u8, cable: Option<Cable>) -> Option<u8>
    ensures { result ≡ other_end id cable }
{
    match cable {
        Some(cable) => {
            if cable.parent == id {
                Some(cable.child)
            } else {
                Some(cable.parent)
            }
        }
        None => None,
    }
}

/// The node of the new bus to which a cable leads from a pair.
fn led_to(far: &[Cable], cable: &Cable, pair: Option<Pair>) -> Option<u8>
    ensures { result ≡ led_to far.now cable.now pair }
{
    match pair {
        Some(pair) => other_end(pair.new, leading_so(far, cable, pair.new)),
        None => None,
    }
}

/// Appends a pair with this node of the old bus, where there is another for it.
fn put_led(
    pairs: &mut Vec<Pair>,
    old: &BusTree,
    new: &BusTree,
    id: u8,
    other: Option<u8>,
) -> Result<(), OutOfMemory>
    ensures { OnOk result (pairs.new.items
        ≡ with_led old.now new.now pairs.old.items id other) }
{
    match other {
        Some(other) => put_pair(
            pairs,
            old,
            new,
            Pair {
                old: id,
                new: other,
            },
        ),
        None => Ok(()),
    }
}

/// Appends the pair behind a step along a cable, if there is one.
fn put_step(
    pairs: &mut Vec<Pair>,
    old: &BusTree,
    new: &BusTree,
    far: &[Cable],
    cable: &Cable,
) -> Result<(), OutOfMemory>
    ensures { OnOk result (pairs.new.items
        ≡ stepped old.now new.now far.now pairs.old.items cable.now) }
{
    let from = pair_of(pairs, cable.parent);
    let other = led_to(far, cable, from);
    put_led(pairs, old, new, cable.child, other)
}

/// Appends the pairs behind a step along each of these cables.
fn put_walk(
    pairs: &mut Vec<Pair>,
    old: &BusTree,
    new: &BusTree,
    far: &[Cable],
    over: &[Cable],
) -> Result<(), OutOfMemory>
    ensures { OnOk result (pairs.new.items
        ≡ walked old.now new.now far.now pairs.old.items over.now) }
{
    for cable in over {
        put_step(pairs, old, new, far, cable)?;
    }
    Ok(())
}

/// Each cable told from its other end.
fn turned_all(alloc: Global, cables: &[Cable]) -> Result<Vec<Cable>, OutOfMemory>
    ensures { IfOk result (λ list. list.items ≡ map turned cables.now) }
{
    let mut list = Vec::new(alloc);
    for cable in cables {
        list.push(turned(cable))?;
    }
    Ok(list)
}

/// The cables of a bus in the order in which they are walked.
fn ways(alloc: Global, tree: &BusTree) -> Result<Vec<Cable>, OutOfMemory>
    ensures { IfOk result (λ list. list.items ≡ ways (cables tree.now)) }
{
    let mut back = cables(alloc, tree)?;
    let mut list = turned_all(alloc, &back)?;
    back.reverse();
    list.extend_from_slice(&back)?;
    Ok(list)
}

/// The pairs of nodes that are reached from the two nodes of a pair.
fn reached(
    alloc: Global,
    old: &BusTree,
    new: &BusTree,
    far: &[Cable],
    over: &[Cable],
    start: Pair,
) -> Result<Vec<Pair>, OutOfMemory>
    ensures { IfOk result (λ pairs. pairs.items
        ≡ reached old.now new.now far.now over.now start) }
{
    let mut pairs = Vec::new(alloc);
    put_pair(&mut pairs, old, new, start)?;
    put_walk(&mut pairs, old, new, far, over)?;
    Ok(pairs)
}

/// Keeps the longer of two lists, the first where they are as long.
fn keep_longer(best: &mut Vec<Pair>, found: Vec<Pair>)
    ensures { best.new.items ≡ longer best.old.items found.items }
{
    if best.len() < found.len() {
        *best = found;
    }
}

/// Whether no more can be reached.
fn is_full(old: &BusTree, new: &BusTree, pairs: &[Pair]) -> bool
    ensures { result ≡ is_full old.now new.now pairs.now }
{
    pairs.len() == usize::from(old.len()).min(usize::from(new.len()))
}

/// Keeps what is reached from this start, where it is more than the best so far.
fn try_start(
    alloc: Global,
    best: &mut Vec<Pair>,
    old: &BusTree,
    new: &BusTree,
    far: &[Cable],
    over: &[Cable],
    start: Pair,
) -> Result<(), OutOfMemory>
    ensures { OnOk result (best.new.items
        ≡ with_start old.now new.now far.now over.now best.old.items start) }
{
    if is_full(old, new, best) {
        return Ok(());
    }
    let found = reached(alloc, old, new, far, over, start)?;
    keep_longer(best, found);
    Ok(())
}

/// The same from a node of the old bus with each node of the new one.
fn try_node(
    alloc: Global,
    best: &mut Vec<Pair>,
    old: &BusTree,
    new: &BusTree,
    far: &[Cable],
    over: &[Cable],
    id: u8,
) -> Result<(), OutOfMemory>
    ensures { OnOk result (best.new.items
        ≡ best_with old.now new.now far.now over.now best.old.items id (length (walk new.now))) }
{
    for other in 0..new.len() {
        let start = Pair {
            old: id,
            new: other,
        };
        try_start(alloc, best, old, new, far, over, start)?;
    }
    Ok(())
}

/// The first of the longest lists that are reached from any start.
fn best_of(
    alloc: Global,
    old: &BusTree,
    new: &BusTree,
    far: &[Cable],
    over: &[Cable],
) -> Result<Vec<Pair>, OutOfMemory>
    ensures { IfOk result (λ best. best.items
        ≡ best_of old.now new.now far.now over.now (length (walk old.now))) }
{
    let mut best = Vec::new(alloc);
    for id in 0..old.len() {
        try_node(alloc, &mut best, old, new, far, over, id)?;
    }
    Ok(best)
}

/// The pair of the node of the new bus with this ID.
fn pair_to(pairs: &[Pair], id: u8) -> Option<Pair>
    ensures { result ≡ find (λ p. p.new == id) pairs.now }
{
    pairs.iter().copied().find(|pair| pair.new == id)
}

/// Appends a pair, where there is one.
fn put_some(list: &mut Vec<Pair>, pair: Option<Pair>) -> Result<(), OutOfMemory>
    ensures { OnOk result (list.new.items ≡ list.old.items ++ option_to_list pair) }
{
    if let Some(pair) = pair {
        list.push(pair)?;
    }
    Ok(())
}

/// The pairs by rising ID in the new bus.
fn by_new_id(alloc: Global, pairs: &[Pair], count: u8) -> Result<Vec<Pair>, OutOfMemory>
    ensures { IfOk result (λ list. list.items ≡ by_new_id pairs.now count) }
{
    let mut list = Vec::new(alloc);
    for id in 0..count {
        put_some(&mut list, pair_to(pairs, id))?;
    }
    Ok(list)
}

/// Which node is which, along ports.
#[tactic(auto, unfolding(crate::specs::Along::matched))]
pub(crate) fn matched_along(
    alloc: Global,
    old: &BusTree,
    new: &BusTree,
) -> Result<Vec<Pair>, OutOfMemory>
    ensures { IfOk result (λ pairs. pairs.items ≡ matched old.now new.now) }
{
    let far = cables(alloc, new)?;
    let over = ways(alloc, old)?;
    let best = best_of(alloc, old, new, &far, &over)?;
    by_new_id(alloc, &best, new.len())
}
