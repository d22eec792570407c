//! Three nodes and more: what they show after turns whose number was worked out beforehand.

use crate::nodes::{CONTENDER, Node, ONES, USUAL};
use crate::steps::Look::{Changed, Granted, Id, List, Parent, Resets, TimedOut};
use crate::steps::Step::{Agree, Done, Hold, Look as See, Plug, Pull, Reset, Turns};
use crate::steps::{Look, Step, take_in_all};
use port_state::Phase;
use std::test::Fail;

/// Three nodes in line, whose middle becomes root.
const THREE: &[Step] = &[
    Plug(0, 0, 1, 0),
    Plug(1, 1, 2, 0),
    Turns(260),
    See(0, Look::Phase(Phase::SelfIdent)),
    See(0, Parent(Some(0))),
    See(2, Look::Phase(Phase::SelfIdent)),
    See(2, Parent(Some(0))),
    Turns(2),
    See(1, Look::Phase(Phase::SelfIdent)),
    See(1, Granted(true)),
    See(1, Parent(None)),
    Turns(6),
    See(0, List(&[0x807f_8896, 0x817f_8096, 0x827f_80f6])),
    See(1, List(&[0x807f_8896, 0x817f_8096, 0x827f_80f6])),
    See(2, List(&[0x807f_8896, 0x817f_8096, 0x827f_80f6])),
    Turns(8_000),
    See(0, Changed(268)),
];

/// A ring that is closed while a reset goes round.
const RING: &[Step] = &[
    Plug(0, 0, 1, 0),
    Plug(1, 1, 2, 0),
    Plug(2, 1, 3, 0),
    Turns(400),
    Reset(0),
    Turns(1),
    Plug(3, 1, 0, 1),
    Turns(16),
    See(0, Resets(4)),
    See(1, Resets(4)),
    See(2, Resets(4)),
    See(3, Resets(3)),
    Turns(1_000),
    See(0, Resets(4)),
    See(1, Resets(4)),
    See(2, Resets(4)),
    See(3, Resets(3)),
    Turns(7_368),
    Done(8_785),
    See(0, TimedOut(true)),
    See(2, TimedOut(true)),
    See(2, Changed(402)),
    See(2, List(&[])),
];

/// A desk whose camera is pulled while packets are under way, and a wire is held.
const DESK: &[Step] = &[
    Plug(0, 0, 1, 0),
    Turns(300),
    Plug(2, 0, 1, 1),
    Turns(10),
    Plug(3, 0, 1, 4),
    Plug(4, 0, 1, 2),
    Turns(270),
    Hold(1, 0, 3),
    Pull(3, 0),
    Turns(8_560),
    Done(9_140),
    See(0, List(DESK_LIST)),
    See(1, List(DESK_LIST)),
    See(2, List(DESK_LIST)),
    See(4, List(DESK_LIST)),
    See(3, List(&[0x807f_0042])),
    See(3, Changed(841)),
    See(2, Id(Some(0))),
    See(4, Id(Some(1))),
    See(1, Id(Some(2))),
    See(0, Id(Some(3))),
    See(0, Parent(None)),
];

/// The disk, the tape, the hub and the computer.
const DESK_LIST: &[u32] = &[
    0x807f_8090,
    0x817f_0090,
    0x823f_80bf,
    0x8281_5000,
    0x837f_88d4,
];

const DESK_NODES: &[Node] = &[
    CONTENDER,
    Node {
        ports: 6,
        link: false,
        ..ONES
    },
    Node { ports: 2, ..USUAL },
    Node {
        ports: 1,
        speed: 0,
        ..USUAL
    },
    Node {
        ports: 2,
        speed: 0,
        ..USUAL
    },
];

/// Three nodes, of which the first contends.
const LINE_OF_THREE: &[Node] = &[CONTENDER, USUAL, USUAL];

/// Names, nodes, and the steps that are taken with them.
const CASES: &[(&str, &[Node], &[Step])] = &[
    ("three in line", LINE_OF_THREE, THREE),
    ("a ring closed late", &[USUAL, USUAL, ONES, USUAL], RING),
    ("a desk", DESK_NODES, DESK),
];

#[test]
fn nodes_show_what_was_worked_out(rt: HostRuntime) -> Result<(), Fail> {
    for (name, nodes, steps) in CASES {
        take_in_all(&rt, rt.alloc(), *nodes, 4, *steps, *name)?;
    }
    Ok(())
}

#[test]
fn a_line_of_the_most_nodes(rt: HostRuntime) -> Result<(), Fail> {
    let mut steps = [Agree(63); 66];
    for node in 0..62u8 {
        steps[usize::from(node)] = Plug(node, 1, node + 1, 0);
    }
    steps[62] = Turns(2_000);
    steps[63] = See(31, Parent(None));
    steps[64] = See(31, Id(Some(62)));
    take_in_all(&rt, rt.alloc(), &[USUAL; 63], 4, &steps, "line")
}

#[test]
fn a_node_with_the_most_neighbours(rt: HostRuntime) -> Result<(), Fail> {
    let mut nodes = [USUAL; 17];
    nodes[0].ports = 16;
    let mut steps = [Agree(19); 20];
    for port in 0..16u8 {
        steps[usize::from(port)] = Plug(0, port, port + 1, 2);
    }
    steps[16] = Turns(2_000);
    steps[17] = See(0, Parent(None));
    steps[18] = See(0, Id(Some(16)));
    take_in_all(&rt, rt.alloc(), &nodes, 4, &steps, "star")
}
