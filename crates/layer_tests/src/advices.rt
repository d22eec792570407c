//! Which cables are pulled.

use crate::cables::plug_all;
use cabling::{Cable, Cabling, End};
use loop_advice::{Advice, CableList, OutOfMemory, advise, cables_of, check, pull_advised};
use std::alloc::Global;
use std::test::Fail;

/// A cable, given as node, port, node, port.
fn cable([a, p, b, q]: [u8; 4]) -> Cable {
    Cable {
        a: End { node: a, port: p },
        b: End { node: b, port: q },
    }
}

fn list(alloc: Global, cables: &[[u8; 4]]) -> Result<CableList, Fail> {
    let mut list = CableList::new(alloc);
    for ends in cables {
        list.push(cable(*ends))?;
    }
    Ok(list)
}

/// Whether a list has these cables.
fn are(list: &CableList, cables: &[[u8; 4]]) -> bool {
    if list.as_slice().len() != cables.len() {
        return false;
    }
    for (one, ends) in list.as_slice().iter().zip(cables) {
        if *one != cable(*ends) {
            return false;
        }
    }
    true
}

/// Whether the advice for a node has these pulls and these kept cables, and is valid.
fn advice_is(
    alloc: Global,
    cabling: &Cabling,
    node: u8,
    pulls: &[[u8; 4]],
    kept: &[[u8; 4]],
) -> Result<bool, Fail> {
    if node >= cabling.nodes() {
        return Ok(false);
    }
    let advice = advise(alloc, cabling, node)?;
    let same = are(&advice.pulls, pulls) && are(&advice.kept, kept);
    Ok(same && check(cabling, node, &advice))
}

/// Four nodes, of which three form a ring and one is a tail.
fn ring_with_a_tail(alloc: Global, cables: &[[u8; 4]]) -> Result<Cabling, Fail> {
    let mut cabling = Cabling::new(alloc, &[3, 3, 3, 3])?;
    if plug_all(&mut cabling, cables) {
        Ok(cabling)
    } else {
        Err("a cable was refused")?
    }
}

/// Whether cables to pull and to leave are an advice for a node.
fn is_valid(
    alloc: Global,
    cabling: &Cabling,
    node: u8,
    pulls: &[[u8; 4]],
    kept: &[[u8; 4]],
) -> Result<bool, Fail> {
    let pulls = list(alloc, pulls)?;
    let kept = list(alloc, kept)?;
    Ok(node < cabling.nodes() && check(cabling, node, &Advice { pulls, kept }))
}

/// A cable, given as node, port, node, port.
type Ends = [u8; 4];

/// The cables of the ring and its tail.
const RING: &[Ends] = &[[0, 0, 1, 0], [0, 1, 2, 1], [0, 2, 3, 0], [1, 1, 2, 0]];

/// What is kept of them.
const KEPT: &[Ends] = &[[0, 0, 1, 0], [0, 1, 2, 1], [0, 2, 3, 0]];

/// Nodes, what is pulled and what is kept, and whether this is an advice for them.
const CASES: &[(u8, Ends, &[Ends], bool)] = &[
    // from either end
    (
        3,
        [2, 0, 1, 1],
        &[[0, 2, 3, 0], [0, 0, 1, 0], [2, 1, 0, 1]],
        true,
    ),
    // a cable too few
    (0, [1, 1, 2, 0], &[[0, 0, 1, 0], [0, 1, 2, 1]], false),
    // the loop stays
    (
        0,
        [0, 2, 3, 0],
        &[[0, 0, 1, 0], [0, 1, 2, 1], [1, 1, 2, 0]],
        false,
    ),
];

#[test]
fn a_ring_with_a_tail(rt: HostRuntime) -> Result<(), Fail> {
    let cabling = ring_with_a_tail(rt.alloc(), RING)?;
    assert!(rt; advice_is(rt.alloc(), &cabling, 3, &[[1, 1, 2, 0]], KEPT)?);
    for (node, pull, kept, wanted) in CASES {
        assert!(rt; is_valid(rt.alloc(), &cabling, *node, &[*pull], *kept)? == *wanted);
    }
    Ok(())
}

/// Whether the cables of a node's component, once the advised ones are pulled, are these.
fn pulls_leave(
    alloc: Global,
    cabling: &mut Cabling,
    node: u8,
    advice: &Advice,
    left: &[Ends],
) -> Result<bool, OutOfMemory> {
    if node >= cabling.nodes() || !check(cabling, node, advice) {
        return Ok(false);
    }
    pull_advised(cabling, node, advice);
    if node >= cabling.nodes() {
        return Ok(false);
    }
    Ok(are(&cables_of(alloc, cabling, node)?, left))
}

/// The ring and its tail, plugged in another order, and their cables from other ends.
const IN_OTHER_ORDER: &[Ends] = &[[0, 0, 1, 0], [0, 1, 2, 1], [1, 1, 2, 0], [0, 2, 3, 0]];

const FROM_OTHER_ENDS: &[Ends] = &[[0, 2, 3, 0], [0, 0, 1, 0], [2, 1, 0, 1]];

#[test]
fn what_is_advised_is_pulled(rt: HostRuntime) -> Result<(), Fail> {
    let mut cabling = ring_with_a_tail(rt.alloc(), IN_OTHER_ORDER)?;
    let pulls = list(rt.alloc(), &[[2, 0, 1, 1]])?;
    let kept = list(rt.alloc(), FROM_OTHER_ENDS)?;
    assert!(rt; pulls_leave(rt.alloc(), &mut cabling, 3, &Advice { pulls, kept }, KEPT)?);
    Ok(())
}
