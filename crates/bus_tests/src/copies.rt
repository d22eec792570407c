//! Copies and comparisons: bus trees, nodes and commands.

use script_lines::{Command, parse_line};
use self_id::SelfId;
use std::alloc::AllocError;
use std::test::Fail;
use topology_stack::{BusTree, read_tree};

/// Whether a tree is its copy, and not another one.
fn tree_is_copied(two: &BusTree, other: &BusTree) -> Result<bool, AllocError> {
    Ok(two.clone()? == *two && *other != *two)
}

/// Whether a root is its copy, and first nodes that are the same are equal.
fn nodes_are_copied(nodes: &[SelfId], others: &[SelfId]) -> Result<bool, AllocError> {
    if nodes.len() != 2 || others.len() != 2 {
        return Ok(false);
    }
    Ok(nodes[1].clone()? == nodes[1] && others[0] == nodes[0])
}

#[test]
fn of_trees(rt: HostRuntime) -> Result<(), Fail> {
    let two = read_tree(rt.alloc(), &[0x807f_8094, 0x817f_88d4])?;
    // the root's link layer isn't active
    let other = read_tree(rt.alloc(), &[0x807f_8094, 0x813f_88d4])?;
    assert!(rt; tree_is_copied(&two, &other)?);
    assert!(rt; nodes_are_copied(two.nodes(), other.nodes())?);
    Ok(())
}

/// Whether a command is its copy, and not another one.
fn command_is_copied(plug: &Command, other: &Command) -> Result<bool, AllocError> {
    Ok(plug.clone()? == *plug && *other != *plug)
}

#[test]
fn of_commands(rt: HostRuntime) -> Result<(), Fail> {
    let plug = parse_line(rt.alloc(), b"plug a 0 b 1", 4)?.ok_or("a command")?;
    let other = parse_line(rt.alloc(), b"plug a 0 b 2", 4)?.ok_or("a command")?;
    assert!(rt; command_is_copied(&plug, &other)?);
    Ok(())
}
