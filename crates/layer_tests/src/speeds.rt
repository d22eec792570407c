//! Speeds between nodes.

use speed_map::{image, read_image, rows};
use std::alloc::Global;
use std::test::Fail;
use topology_stack::read_tree;

/// Whether the speed map of a list's tree has these rows.
fn rows_are(alloc: Global, list: &[u32], wanted: &[u8]) -> Result<bool, Fail> {
    let tree = read_tree(alloc, list)?;
    Ok(rows(alloc, &tree)?.as_slice() == wanted)
}

#[test]
fn speed_3_counts_as_2(rt: HostRuntime) -> Result<(), Fail> {
    // node 0 has speed 0, and node 1 has speed 3
    let mut wanted = [0; 128];
    wanted[65] = 2;
    assert!(rt; rows_are(rt.alloc(), &[0x807f_0094, 0x817f_c8d4], &wanted)?);
    Ok(())
}

/// Whether an image, of generation 1, is read back to these rows.
fn is_read(alloc: Global, quads: &[u32], rows: &[u8]) -> bool {
    match read_image(alloc, quads) {
        Ok(parts) => parts.generation == 1 && parts.rows.as_slice() == rows,
        Err(_) => false,
    }
}

/// Whether the image of the speed map of a list's tree of one node, of generation 1, is this one,
/// and is read back.
fn image_is(alloc: Global, list: &[u32], wanted: &[u32]) -> Result<bool, Fail> {
    let tree = read_tree(alloc, list)?;
    let rows = rows(alloc, &tree)?;
    if rows.len() != 64 {
        return Ok(false);
    }
    let quads = image(alloc, &rows, 1)?;
    Ok(quads.as_slice() == wanted && is_read(alloc, quads.as_slice(), &rows))
}

#[test]
fn image_of_one_node(rt: HostRuntime) -> Result<(), Fail> {
    let mut wanted = [0; 18];
    wanted[0] = 0x0011_78b3;
    wanted[1] = 1;
    assert!(rt; image_is(rt.alloc(), &[0x807f_0054], &wanted)?);
    Ok(())
}
