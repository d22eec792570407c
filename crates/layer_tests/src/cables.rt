//! Cables, cores, walks and the trees that cables describe.

use crate::nodes::PLAIN;
use cabling::{Cable, CableFault, Cabling, Cyclic, End, OutOfMemory, TreeFromFault};
use std::alloc::Global;
use std::test::Fail;
use topology_stack::write_tree;

/// Plugs cables, each given as node, port, node, port; whether all were plugged.
pub fn plug_all(cabling: &mut Cabling, cables: &[[u8; 4]]) -> bool {
    for [a, p, b, q] in cables {
        let near = End { node: *a, port: *p };
        let far = End { node: *b, port: *q };
        if cabling.plug(near, far).is_err() {
            return false;
        }
    }
    true
}

/// The nodes of the walk from a root; none where there is a loop.
fn walk_is(cabling: &Cabling, root: u8, nodes: &[u8]) -> bool {
    if root >= cabling.nodes() {
        return false;
    }
    match cabling.walk_from(root) {
        Ok(walk) => walk.as_slice() == nodes,
        Err(_) => false,
    }
}

/// Whether the walk from a root is refused with the core that holds these nodes and no others.
fn core_is(cabling: &Cabling, root: u8, nodes: &[u8]) -> bool {
    if root >= cabling.nodes() {
        return false;
    }
    match cabling.walk_from(root) {
        Ok(_) => false,
        Err(Cyclic { core }) => {
            core.len() as usize == nodes.len() && nodes.iter().all(|node| core.has(*node))
        }
    }
}

/// Whether the tree of three nodes from a root, each with the same attributes, emits this list.
fn list_is(
    alloc: Global,
    cabling: &Cabling,
    root: u8,
    list: &[u32],
) -> Result<bool, TreeFromFault> {
    if cabling.nodes() != 3 || root >= 3 {
        return Ok(false);
    }
    let tree = cabling.tree_from(alloc, root, &[PLAIN; 3])?;
    Ok(write_tree(alloc, &tree)?.as_slice() == list)
}

#[test]
fn a_line_of_three(rt: HostRuntime) -> Result<(), Fail> {
    let mut cabling = Cabling::new(rt.alloc(), &[3, 3, 3])?;
    assert!(rt; plug_all(&mut cabling, &[[0, 0, 1, 0], [1, 1, 2, 0]]));
    assert!(rt; walk_is(&cabling, 1, &[0, 2, 1]));
    assert!(rt; walk_is(&cabling, 0, &[2, 1, 0]));
    assert!(rt;
        list_is(
            rt.alloc(),
            &cabling,
            1,
            &[0x807f8094, 0x817f8094, 0x827f80f4]
        )?
    );
    Ok(())
}

/// Whether the walk from a root, once these cables are plugged, is refused with the core that holds these
/// nodes and no others.
fn loops_at(mut cabling: Cabling, cables: &[[u8; 4]], root: u8, core: &[u8]) -> bool {
    plug_all(&mut cabling, cables) && core_is(&cabling, root, core)
}

#[test]
fn loops(rt: HostRuntime) -> Result<(), Fail> {
    // a ring of three with trees of two at two of them
    let trees = [
        [3, 0, 0, 0],
        [0, 1, 1, 0],
        [1, 1, 2, 0],
        [2, 1, 0, 2],
        [3, 1, 4, 0],
        [1, 2, 5, 1],
        [5, 0, 6, 0],
    ];
    let seven = Cabling::new(rt.alloc(), &[4, 4, 3, 2, 1, 2, 1])?;
    assert!(rt; loops_at(seven, &trees, 6, &[0, 1, 2]));
    // two cables between the same two nodes
    let two = Cabling::new(rt.alloc(), &[2, 2])?;
    assert!(rt; loops_at(two, &[[0, 0, 1, 1], [1, 0, 0, 1]], 1, &[0, 1]));
    Ok(())
}

// a ring of three with a node at one of them
#[test]
fn a_ring_is_opened(rt: HostRuntime) -> Result<(), Fail> {
    let mut cabling = Cabling::new(rt.alloc(), &[3, 3, 3, 3])?;
    let cables = [[0, 0, 1, 0], [1, 1, 2, 0], [2, 1, 0, 1], [0, 2, 3, 0]];
    assert!(rt; plug_all(&mut cabling, &cables));
    for root in 0..4 {
        assert!(rt; core_is(&cabling, root, &[0, 1, 2]));
    }
    let near = End { node: 2, port: 0 };
    let far = End { node: 1, port: 1 };
    assert!(rt; cabling.pull(near) == Ok(Cable { a: near, b: far }));
    assert!(rt; cabling.pull(near) == Err(CableFault::NotPlugged { end: near }));
    assert!(rt; walk_is(&cabling, 3, &[1, 2, 0, 3]));
    Ok(())
}

#[test]
fn refusals(rt: HostRuntime) -> Result<(), Fail> {
    let mut cabling = Cabling::new(rt.alloc(), &[3, 3])?;
    let past_port = End { node: 0, port: 3 };
    let past_node = End { node: 9, port: 0 };
    let here = End { node: 0, port: 0 };
    let there = End { node: 1, port: 0 };
    let beside = End { node: 0, port: 1 };
    for (a, b, answer) in [
        (
            past_port,
            past_node,
            Err(CableFault::NoNode { end: past_node }),
        ),
        (here, past_port, Err(CableFault::NoPort { end: past_port })),
        (here, beside, Err(CableFault::SameNode { node: 0 })),
        (here, there, Ok(())),
        (beside, there, Err(CableFault::InUse { end: there })),
    ] {
        assert!(rt; cabling.plug(a, b) == answer);
    }
    Ok(())
}

/// Nodes in a line, as many as a bus may have.
fn longest_line(alloc: Global) -> Result<Cabling, OutOfMemory> {
    let mut cabling = Cabling::new(alloc, &[2; 63])?;
    for node in 0..62u8 {
        let near = End { node, port: 1 };
        let far = End {
            node: node + 1,
            port: 0,
        };
        if cabling.plug(near, far).is_err() {
            break;
        }
    }
    Ok(cabling)
}

#[test]
fn a_line_of_63(rt: HostRuntime) -> Result<(), Fail> {
    let cabling = longest_line(rt.alloc())?;
    let mut nodes = [0; 63];
    for node in 0..63u8 {
        nodes[node as usize] = node;
    }
    assert!(rt; walk_is(&cabling, 62, &nodes));
    nodes.reverse();
    assert!(rt; walk_is(&cabling, 0, &nodes));
    Ok(())
}
