//! Images of topology maps.

use quad_lanes::QuadList;
use std::alloc::Global;
use std::test::Fail;
use topology_map::{ImageFault, crc16, image, read_image};
use topology_stack::read_tree;

/// The image, of generation 1, of the bus of one node that emits 807f0054.
const ALONE: [u32; 4] = [0x0003_ca63, 1, 0x0001_0001, 0x807f_0054];

/// Whether an image is of this generation, with so many nodes and this list.
fn gives(alloc: Global, quads: &[u32], generation: u32, nodes: u32, list: &[u32]) -> bool {
    match read_image(alloc, quads) {
        Ok(parts) => {
            parts.generation == generation
                && u32::from(parts.nodes) == nodes
                && parts.list.as_slice() == list
        }
        Err(_) => false,
    }
}

/// Whether the image of a list's tree, of generation 1, is this one.
fn image_is(alloc: Global, list: &[u32], quads: &[u32]) -> Result<bool, Fail> {
    let tree = read_tree(alloc, list)?;
    Ok(image(alloc, &tree, 1)?.as_slice() == quads)
}

#[test]
fn one_node(rt: HostRuntime) -> Result<(), Fail> {
    assert!(rt; crc16(&ALONE[1..]) == 0xca63);
    assert!(rt; image_is(rt.alloc(), &ALONE[3..], &ALONE)?);
    Ok(())
}

#[test]
fn one_node_is_read(rt: HostRuntime) {
    assert!(rt; gives(rt.alloc(), &ALONE, 1, 1, &ALONE[3..]));
}

/// Whether an image is refused for its length.
fn length_is_wrong(alloc: Global, quads: &[u32], length: usize) -> bool {
    match read_image(alloc, quads) {
        Err(ImageFault::Length { found }) => found == length,
        _ => false,
    }
}

/// Whether an image is refused for its CRC.
fn crc_is_wrong(alloc: Global, quads: &[u32], crc: u16, wanted: u16) -> bool {
    match read_image(alloc, quads) {
        Err(ImageFault::Crc { kept, computed }) => kept == crc && computed == wanted,
        _ => false,
    }
}

/// The image of one node with another CRC, and with another length besides.
const OTHER_CRC: [u32; 4] = [0x0003_ca62, 1, 0x0001_0001, 0x807f_0054];

const OTHER_LENGTH: [u32; 4] = [0x0004_ca62, 1, 0x0001_0001, 0x807f_0054];

#[test]
fn faults_in_their_order(rt: HostRuntime) {
    assert!(rt; crc_is_wrong(rt.alloc(), &OTHER_CRC, 0xca62, 0xca63));
    assert!(rt; length_is_wrong(rt.alloc(), &OTHER_LENGTH, 4));
    assert!(rt; length_is_wrong(rt.alloc(), &OTHER_LENGTH[..2], 2));
}

/// A line of this many nodes, of which the last is the root.
fn line(alloc: Global, nodes: u32) -> Result<QuadList, Fail> {
    let mut list = QuadList::new(alloc);
    for id in 0..nodes {
        let ports = if nodes == 1 {
            0x54
        } else if id == 0 {
            0x94
        } else if id + 1 == nodes {
            0xd4
        } else {
            0xe4
        };
        list.push(0x807f_8000 + (id % 63) * 0x100_0000 + ports)?;
    }
    Ok(list)
}

/// Whether an image is refused whose quadlet at a place has one bit changed.
fn is_refused_with(alloc: Global, quads: &[u32], place: usize) -> Result<bool, Fail> {
    let mut changed = QuadList::new(alloc);
    for (at, quad) in quads.iter().enumerate() {
        changed.push(if at == place { *quad ^ 0x8000 } else { *quad })?;
    }
    Ok(read_image(alloc, changed.as_slice()).is_err())
}

/// Whether an image is refused once a bit of any of its quadlets is changed.
fn is_refused_changed(alloc: Global, quads: &[u32]) -> Result<bool, Fail> {
    for at in 0..quads.len() {
        if !is_refused_with(alloc, quads, at)? {
            return Ok(false);
        }
    }
    Ok(true)
}

/// Whether the image of a line is read back, and with a changed bit is refused.
fn is_read_back(alloc: Global, nodes: u32) -> Result<bool, Fail> {
    let list = line(alloc, nodes)?;
    let tree = read_tree(alloc, list.as_slice())?;
    let quads = image(alloc, &tree, 7)?;
    let read = gives(alloc, quads.as_slice(), 7, nodes, list.as_slice());
    Ok(read && is_refused_changed(alloc, quads.as_slice())?)
}

#[test]
fn a_changed_bit_is_refused(rt: HostRuntime) -> Result<(), Fail> {
    for nodes in [1, 2, 16, 63] {
        assert!(rt; is_read_back(rt.alloc(), nodes)?, "{nodes} nodes");
    }
    Ok(())
}
