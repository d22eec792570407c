//! Two nodes with a cable or two between them: what they show after turns whose number was worked out
//! beforehand.

use crate::nodes::{Node, ONES, USUAL};
use crate::steps::Look::{
    Changed, Child, Draws, FirstDraws, Id, List, Parent, Resets, TimedOut, Timer,
};
use crate::steps::Step::{Done, Hold, InUse, Look as See, Plug, Pull, Turns};
use crate::steps::{Look, Step, take_in_all};
use port_state::Phase;
use std::test::Fail;

/// Two nodes and a cable: they leave reset, contend, and the one with ones becomes root.
const TWO: &[Step] = &[
    Plug(0, 0, 1, 0),
    Turns(256),
    See(0, Look::Phase(Phase::ResetWait)),
    See(1, Look::Phase(Phase::ResetWait)),
    Turns(1),
    See(0, Look::Phase(Phase::TreeStart)),
    See(1, Look::Phase(Phase::TreeStart)),
    See(0, Timer(0)),
    See(0, Resets(2)),
    See(1, Resets(2)),
    Turns(3),
    See(0, Look::Phase(Phase::Contend)),
    See(1, Look::Phase(Phase::Contend)),
    See(0, Draws(1)),
    See(1, Draws(1)),
    Turns(12),
    See(0, Look::Phase(Phase::ParentShake)),
    Turns(20),
    See(1, Look::Phase(Phase::ChildShake)),
    See(1, Parent(None)),
    See(1, Child(0)),
    Turns(5),
    See(0, Id(Some(0))),
    See(1, Id(None)),
    Turns(1),
    See(1, Id(Some(1))),
    Turns(1),
    See(0, List(&[0x807f_8096, 0x817f_80d6])),
    See(1, List(&[0x807f_8096, 0x817f_80d6])),
    See(0, Changed(299)),
    InUse(0, 0, 1, 1),
    See(0, Look::Phase(Phase::Ready)),
    Done(299),
];

/// The same coins for ever.
const EQUAL: &[Step] = &[
    Plug(0, 0, 1, 0),
    Turns(8_128),
    See(0, Draws(606)),
    See(1, Draws(606)),
    See(0, FirstDraws(0)),
    See(1, FirstDraws(0)),
];

/// Two nodes with two cables between them.
const TWICE: &[Step] = &[
    Plug(0, 0, 1, 0),
    Plug(0, 1, 1, 1),
    Turns(2_304),
    See(0, TimedOut(false)),
    See(1, TimedOut(false)),
    Turns(1),
    See(0, TimedOut(true)),
    See(1, TimedOut(true)),
];

/// A contention of which both wires are held, so that each signal comes as late as it may.
const HELD: &[Step] = &[
    Plug(0, 0, 1, 0),
    Turns(258),
    Hold(0, 0, 40),
    Hold(1, 0, 40),
    Turns(1),
    See(0, Look::Phase(Phase::ParentShake)),
    Turns(3),
    See(0, Look::Phase(Phase::Contend)),
    See(1, Look::Phase(Phase::Contend)),
    Turns(12),
    See(0, Look::Phase(Phase::ParentShake)),
    Turns(20),
    See(1, Look::Phase(Phase::ChildShake)),
    Turns(4),
    See(0, Look::Phase(Phase::SelfIdent)),
    Turns(4),
    See(0, Id(Some(0))),
    Turns(2),
    See(0, List(&[0x807f_8096, 0x817f_80d6])),
    See(0, Changed(304)),
    See(1, Changed(303)),
];

/// A cable that is pulled when a packet is under way, and plugged into the same ends a turn later.
/// The packet doesn't come.
const AGAIN: &[Step] = &[
    Plug(0, 0, 1, 0),
    Turns(298),
    See(0, List(&[0x807f_8096])),
    See(1, List(&[0x807f_8096, 0x817f_80d6])),
    Pull(0, 0),
    Turns(1),
    Plug(0, 0, 1, 0),
    Turns(1),
    See(0, List(&[])),
    See(0, Resets(4)),
    See(1, Resets(4)),
    Turns(256),
    See(0, Look::Phase(Phase::TreeStart)),
    Turns(3),
    See(0, Look::Phase(Phase::Contend)),
    Turns(39),
    See(0, List(&[0x807f_8096, 0x817f_80d6])),
    See(0, Changed(598)),
    See(1, Changed(597)),
];

/// Names, nodes, and the steps that are taken with them.
const CASES: &[(&str, &[Node], &[Step])] = &[
    ("two nodes", &[USUAL, ONES], TWO),
    ("equal coins", &[USUAL, USUAL], EQUAL),
    ("two cables", &[USUAL, USUAL], TWICE),
    ("held wires", &[USUAL, ONES], HELD),
    ("a cable pulled and plugged", &[USUAL, ONES], AGAIN),
];

#[test]
fn two_nodes_show_what_was_worked_out(rt: HostRuntime) -> Result<(), Fail> {
    for (name, nodes, steps) in CASES {
        take_in_all(&rt, rt.alloc(), *nodes, 4, *steps, *name)?;
    }
    Ok(())
}

/// Two nodes whose cable delays by at most one turn.
const NEAR: &[Step] = &[
    Plug(0, 0, 1, 0),
    Turns(64),
    See(0, Look::Phase(Phase::ResetWait)),
    Turns(1),
    See(0, Look::Phase(Phase::TreeStart)),
    Turns(68),
    See(0, Changed(83)),
    See(1, Changed(82)),
    See(1, Id(Some(1))),
];

/// Two nodes whose cable delays by at most sixteen turns.
const FAR: &[Step] = &[
    Plug(0, 0, 1, 0),
    Turns(1_024),
    See(0, Look::Phase(Phase::ResetWait)),
    Turns(1),
    See(0, Look::Phase(Phase::TreeStart)),
    Turns(188),
    See(0, Changed(1_163)),
    See(1, Changed(1_162)),
    See(1, Id(Some(1))),
];

#[test]
fn delays(rt: HostRuntime) -> Result<(), Fail> {
    for (d, steps) in [(1, NEAR), (16, FAR)] {
        take_in_all(&rt, rt.alloc(), &[USUAL, ONES], d, steps, "two nodes")?;
    }
    Ok(())
}
