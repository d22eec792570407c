//! The hops of lines, stars and combs.

use bus_manager::hops;
use quad_lanes::QuadList;
use std::alloc::{AllocError, Global};
use std::test::Fail;
use topology_stack::read_tree;

// What a slot leads to, as a port field.
const LOOSE: u32 = 1;

const UP: u32 = 2;

const DOWN: u32 = 3;

/// Packet zero of a node with three slots.
fn packet(id: u8, p0: u32, p1: u32, p2: u32) -> u32 {
    0x807f_8000 | u32::from(id) << 24 | p0 << 6 | p1 << 4 | p2 << 2
}

/// Nodes in a line whose root is at one end.
fn line(alloc: Global, nodes: u8) -> Result<QuadList, AllocError> {
    let mut list = QuadList::new(alloc);
    for id in 0..nodes {
        let below = if id == 0 { LOOSE } else { DOWN };
        let above = if id + 1 == nodes { LOOSE } else { UP };
        list.push(packet(id, below, above, LOOSE))?;
    }
    Ok(list)
}

/// Leaves on one node with eleven slots, up to eleven.
fn star(alloc: Global, leaves: u8) -> Result<QuadList, AllocError> {
    let mut list = QuadList::new(alloc);
    for id in 0..leaves {
        list.push(packet(id, UP, LOOSE, LOOSE))?;
    }
    let mut fields = 0u32;
    for slot in 0..11u8 {
        let status = if slot < leaves { DOWN } else { LOOSE };
        fields = fields << 2 | status;
    }
    let id = u32::from(leaves) << 24;
    list.push(0x807f_8001 | id | (fields >> 16) << 2)?;
    list.push(0x8080_0000 | id | (fields & 0xffff) << 2)?;
    Ok(list)
}

/// A line of nodes, each with one leaf more.
fn comb(alloc: Global, teeth: u8) -> Result<QuadList, AllocError> {
    let mut list = QuadList::new(alloc);
    let mut id = 0u8;
    for tooth in 0..teeth {
        list.push(packet(id, UP, LOOSE, LOOSE))?;
        let below = if tooth == 0 { LOOSE } else { DOWN };
        let above = if tooth + 1 == teeth { LOOSE } else { UP };
        id = id.wrapping_add(1);
        list.push(packet(id, below, DOWN, above))?;
        id = id.wrapping_add(1);
    }
    Ok(list)
}

/// Whether the longest path of a list's tree has so many cables.
fn hops_are(alloc: Global, list: &QuadList, cables: u8) -> bool {
    match read_tree(alloc, list.as_slice()) {
        Ok(tree) => hops(&tree) == cables,
        Err(_) => false,
    }
}

#[test]
fn lines(rt: HostRuntime) -> Result<(), Fail> {
    for nodes in 1..64u8 {
        let list = line(rt.alloc(), nodes)?;
        assert!(rt; hops_are(rt.alloc(), &list, nodes - 1), "line of {nodes}");
    }
    Ok(())
}

#[test]
fn stars(rt: HostRuntime) -> Result<(), Fail> {
    for leaves in 1..12u8 {
        let list = star(rt.alloc(), leaves)?;
        let cables = if leaves == 1 { 1 } else { 2 };
        assert!(rt; hops_are(rt.alloc(), &list, cables), "star of {leaves}");
    }
    Ok(())
}

#[test]
fn combs(rt: HostRuntime) -> Result<(), Fail> {
    for teeth in 1..32u8 {
        let list = comb(rt.alloc(), teeth)?;
        let cables = if teeth == 1 { 1 } else { teeth + 1 };
        assert!(rt; hops_are(rt.alloc(), &list, cables), "comb of {teeth}");
    }
    Ok(())
}
