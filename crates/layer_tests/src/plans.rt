//! The root that suits a bus best.

use cabling::{Cabling, End, OutOfMemory, Walk};
use root_plan::{RootPlan, choose, expect};
use std::alloc::Global;
use std::test::Fail;
use topology_stack::read_tree;

/// Whether the plan for a list's tree is this one.
fn plan_is(alloc: Global, list: &[u32], wanted: RootPlan) -> Result<bool, Fail> {
    let tree = read_tree(alloc, list)?;
    Ok(choose(&tree) == Some(wanted))
}

/// The plan whose root is the second of three nodes in a line.
const SECOND: RootPlan = RootPlan {
    root_id: 1,
    hops: 2,
    gap: 7,
    far: 2,
    packet: 0x01c7_0000,
};

// a line of three whose root is its second node; both ends contend
#[test]
fn of_equal_reach_the_highest_id(rt: HostRuntime) -> Result<(), Fail> {
    assert!(rt; plan_is(rt.alloc(), &[0x807f_8894, 0x817f_8894, 0x827f_80f4], SECOND)?);
    Ok(())
}

/// The plan for a line of 20.
const MIDDLE: RootPlan = RootPlan {
    root_id: 10,
    hops: 19,
    gap: 63,
    far: 10,
    packet: 0x0aff_0000,
};

/// A line of 20 whose root is its last node; all contend.
fn line_of_20() -> [u32; 20] {
    let mut list = [0; 20];
    for (id, quad) in list.iter_mut().enumerate() {
        let ports = match id {
            0 => 0x94,
            19 => 0xd4,
            _ => 0xe4,
        };
        *quad = 0x807f_8800 + 0x0100_0000 * id as u32 + ports;
    }
    list
}

// two are in the middle
#[test]
fn middle_of_a_line(rt: HostRuntime) -> Result<(), Fail> {
    assert!(rt; plan_is(rt.alloc(), &line_of_20(), MIDDLE)?);
    Ok(())
}

/// Whether this is the root that is chosen, and how far the farthest node is from it, or none is.
fn root_is(alloc: Global, list: &[u32], wanted: Option<(u8, u8)>) -> Result<bool, Fail> {
    let tree = read_tree(alloc, list)?;
    Ok(match choose(&tree) {
        Some(plan) => wanted == Some((plan.root_id, plan.far)),
        None => wanted.is_none(),
    })
}

/// The root of each list, or none, and the number of cables from it to the farthest node.
const ROOTS: &[(&[u32], Option<(u8, u8)>)] = &[
    // three leaves on a hub; all contend
    (
        &[0x807f_8894, 0x817f_8894, 0x827f_8894, 0x837f_88fc],
        Some((3, 1)),
    ),
    // the hub doesn't contend
    (
        &[0x807f_8894, 0x817f_8894, 0x827f_8894, 0x837f_80fc],
        Some((2, 2)),
    ),
    // its link isn't active
    (
        &[0x807f_8894, 0x817f_8894, 0x827f_8094, 0x833f_88fc],
        Some((1, 2)),
    ),
    // a line of five whose first two contend
    (
        &[
            0x807f_8894,
            0x817f_88e4,
            0x827f_80e4,
            0x837f_80e4,
            0x847f_80d4,
        ],
        Some((1, 3)),
    ),
    // nobody contends
    (&[0x807f_8094, 0x817f_80d4], None),
];

#[test]
fn who_may_be_root(rt: HostRuntime) -> Result<(), Fail> {
    for (list, wanted) in ROOTS {
        assert!(rt; root_is(rt.alloc(), *list, *wanted)?);
    }
    Ok(())
}

/// Three nodes in a line.
fn line_of_three(alloc: Global) -> Result<Cabling, OutOfMemory> {
    let mut cabling = Cabling::new(alloc, &[3, 3, 3])?;
    let _first = cabling.plug(End { node: 0, port: 0 }, End { node: 1, port: 0 });
    let _second = cabling.plug(End { node: 1, port: 1 }, End { node: 2, port: 0 });
    Ok(cabling)
}

/// Whether the order after the plan for the second of three nodes is this one, where it was 0, 2, 1.
fn order_is(cabling: &Cabling, wanted: &[u8]) -> bool {
    if cabling.nodes() != 3 {
        return false;
    }
    let mut order = Walk::new();
    order.push(0);
    order.push(2);
    order.push(1);
    match expect(cabling, &order, &SECOND) {
        Ok(walk) => walk.as_slice() == wanted,
        Err(_) => false,
    }
}

// two cables between three nodes, of which the second was root
#[test]
fn order_after_the_plan(rt: HostRuntime) -> Result<(), Fail> {
    let cabling = line_of_three(rt.alloc())?;
    assert!(rt; order_is(&cabling, &[0, 1, 2]));
    Ok(())
}
