//! Captures with each kind of flaw.

use flawed_capture::{Flaw, FlawStop, flaw_of, flawed_capture};
use self_id::Standard;
use std::alloc::Global;
use std::test::Fail;

/// Every kind.
const FLAWS: [Flaw; 13] = [
    Flaw::BadLength,
    Flaw::BadInverse,
    Flaw::NotSelfId,
    Flaw::WrongId,
    Flaw::BadOrder,
    Flaw::Cut,
    Flaw::TwoParents,
    Flaw::Empty,
    Flaw::TooFewChildren,
    Flaw::TreesLeft,
    Flaw::AfterRoot,
    Flaw::NoRoot,
    Flaw::TooMany,
];

/// Numbers of nodes, the least and the most among them.
const NODES: [u8; 4] = [1, 2, 17, 63];

/// Whether a capture with this flaw is made, or it is said that the nodes are too few.
fn is_made(
    alloc: Global,
    standard: Standard,
    flaw: Flaw,
    nodes: u8,
    seed: u32,
) -> Result<bool, Fail> {
    if nodes > 63 {
        return Ok(false);
    }
    match flawed_capture(alloc, standard, flaw, nodes, seed) {
        Ok(bytes) => Ok(flaw_of(alloc, standard, &bytes)? == Some(flaw)),
        Err(FlawStop::TooFewNodes { wanted }) => Ok(nodes < wanted),
        Err(FlawStop::NoBus | FlawStop::NotFound) => Ok(false),
        Err(FlawStop::Memory(error)) => Err(error.into()),
    }
}

/// Whether each kind is made of each number of nodes.
fn all_are_made(alloc: Global, standard: Standard, seed: u32) -> Result<bool, Fail> {
    for nodes in NODES {
        for flaw in FLAWS {
            if !is_made(alloc, standard, flaw, nodes, seed)? {
                return Ok(false);
            }
        }
    }
    Ok(true)
}

#[test]
fn each_kind_of_flaw(rt: HostRuntime) -> Result<(), Fail> {
    assert!(rt; all_are_made(rt.alloc(), Standard::Ieee2000, 1)?);
    assert!(rt; all_are_made(rt.alloc(), Standard::Ieee1995, 2)?);
    Ok(())
}

#[test]
fn flaws_of_few_nodes(rt: HostRuntime) {
    let one = flawed_capture(rt.alloc(), Standard::Ieee2000, Flaw::TreesLeft, 1, 7);
    assert!(rt; matches!(one, Err(FlawStop::TooFewNodes { wanted: 2 })));
}

#[test]
fn no_flaw(rt: HostRuntime) -> Result<(), Fail> {
    let bytes = [0x80, 0x7f, 0x80, 0x54, 0x7f, 0x80, 0x7f, 0xab];
    assert!(rt; flaw_of(rt.alloc(), Standard::Ieee2000, &bytes)?.is_none());
    Ok(())
}

#[test]
fn words_of_flaws(rt: HostRuntime) {
    assert!(rt; Flaw::of_word("TwoParents") == Some(Flaw::TwoParents));
    assert!(rt; Flaw::of_word("twoparents").is_none());
}
