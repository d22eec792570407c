//! The texts that show a reset's list.
ghost use Rattle.std.specs.Prelude.{◌≡◌, ◌-◌, ◌<◌, ◌++◌, length, slice_get, Some, IfOk, OnOk};
ghost use Rattle.std.specs.Option.{option_copied};
ghost use Rattle.self_id.specs.Node.{Node};
ghost use Rattle.topology_stack.specs.Tree.{walk};
ghost use Rattle.view_text.specs.Drawing.{all_have};
ghost use Rattle.reset_list.specs.Texts.{refused, manager, numbers, other_nodes, same_manager, other_manager, gap_of, agree, gaps_differ, changed, changes, node_changes, initiator, initiators};

use bus_diff::{changes_text, compare_along};
use capture_reading::{CaptureFault, fault_line};
use self_id::SelfId;
use std::alloc::{AllocError, Global};
use topology_stack::{BusTree, elect};
use view_text::put_field;

/// Appends the head of a reset whose list is refused, and the line of the fault.
#[tactic(auto, unfolding(crate::specs::Texts::refused))]
pub(crate) fn put_refused(
    out: &mut Vec<u8>,
    head: &[u8],
    fault: CaptureFault,
) -> Result<(), AllocError>
    ensures { OnOk result (out.new.items ≡ out.old.items ++ refused head.now fault) }
{
    out.extend_from_slice(head)?;
    out.extend_from_slice(b"\n")?;
    out.extend_from_slice(fault_line(fault).as_bytes())?;
    Ok(())
}

/// Appends the ID of a resource manager, or `none`.
fn put_manager(out: &mut Vec<u8>, word: &[u8], irm: Option<u8>) -> Result<(), AllocError>
    ensures { OnOk result (out.new.items ≡ out.old.items ++ manager word.now irm) }
{
    match irm {
        Some(id) => put_field(out, word, u64::from(id)),
        None => {
            out.extend_from_slice(word)?;
            out.extend_from_slice(b"none")
        }
    }
}

/// Appends the numbers of a bus.
#[tactic(auto, unfolding(crate::specs::Texts::numbers))]
pub(crate) fn put_numbers(out: &mut Vec<u8>, tree: &BusTree) -> Result<(), AllocError>
    ensures { OnOk result (out.new.items ≡ out.old.items ++ numbers tree.now) }
{
    put_field(out, b" nodes ", u64::from(tree.len()))?;
    put_field(out, b" root ", u64::from(tree.root()))?;
    put_manager(out, b" irm ", elect(tree))?;
    out.extend_from_slice(b"\n")?;
    Ok(())
}

/// Appends that there are more or fewer nodes.
#[tactic(auto, unfolding(crate::specs::Texts::other_nodes))]
fn put_other_nodes(out: &mut Vec<u8>, old: u8, new: u8) -> Result<(), AllocError>
    ensures { OnOk result (out.new.items ≡ out.old.items ++ other_nodes old new) }
{
    if new == old {
        return Ok(());
    }
    put_field(out, b"nodes ", u64::from(new))?;
    put_field(out, b", were ", u64::from(old))?;
    out.extend_from_slice(b"\n")?;
    Ok(())
}

fn same_manager(a: Option<u8>, b: Option<u8>) -> bool
    ensures { result ≡ same_manager a b }
{
    match (a, b) {
        (None, None) => true,
        (Some(a), Some(b)) => a == b,
        _ => false,
    }
}

/// Appends that there is another resource manager.
#[tactic(auto, unfolding(crate::specs::Texts::other_manager))]
fn put_other_manager(out: &mut Vec<u8>, old: Option<u8>, new: Option<u8>) -> Result<(), AllocError>
    ensures { OnOk result (out.new.items ≡ out.old.items ++ other_manager old new) }
{
    if same_manager(new, old) {
        return Ok(());
    }
    put_manager(out, b"irm ", new)?;
    put_manager(out, b", was ", old)?;
    out.extend_from_slice(b"\n")?;
    Ok(())
}

/// Whether all nodes have this gap count.
fn all_have(nodes: &[SelfId], gap: u8) -> bool
    ensures { result ≡ all_have gap nodes.now }
{
    for node in nodes {
        if node.attrs.gap != gap {
            return false;
        }
    }
    true
}

/// Whether all nodes have the root's gap count.
fn agree(tree: &BusTree) -> bool
    ensures { result ≡ agree tree.now }
{
    all_have(tree.nodes(), tree.node(tree.root()).attrs.gap)
}

/// Appends that gap counts came to differ.
#[tactic(auto, unfolding(crate::specs::Texts::gaps_differ))]
fn put_gaps_differ(out: &mut Vec<u8>, old: bool, new: bool) -> Result<(), AllocError>
    ensures { OnOk result (out.new.items ≡ out.old.items ++ gaps_differ old new) }
{
    if old && !new {
        out.extend_from_slice(b"gap counts came to differ\n")?;
    }
    Ok(())
}

/// Appends what is another than at the reset before, where there was one.
pub(crate) fn put_changes(
    out: &mut Vec<u8>,
    old: Option<&BusTree>,
    new: &BusTree,
) -> Result<(), AllocError>
    ensures { OnOk result (out.new.items
        ≡ out.old.items ++ changes (option_copied old.entry) new.now) }
{
    let Some(old) = old else {
        return Ok(());
    };
    put_other_nodes(out, old.len(), new.len())?;
    put_other_manager(out, elect(old), elect(new))?;
    put_gaps_differ(out, agree(old), agree(new))?;
    Ok(())
}

/// What is another than at the reset before node by node, where there was one.
pub(crate) fn node_changes(
    alloc: Global,
    old: Option<&BusTree>,
    new: &BusTree,
) -> Result<Vec<u8>, AllocError>
    ensures { IfOk result (λ text.
        text.items ≡ node_changes (option_copied old.entry) new.now) }
{
    match old {
        Some(old) => {
            let found = compare_along(alloc, old, new)?;
            changes_text(alloc, &found.changes)
        }
        None => Ok(Vec::new(alloc)),
    }
}

/// Appends that a node began the reset, if it did.
#[tactic(auto, unfolding(crate::specs::Texts::initiator))]
fn put_initiator(out: &mut Vec<u8>, id: u8, initiated: bool) -> Result<(), AllocError>
    ensures { OnOk result (out.new.items ≡ out.old.items ++ initiator id initiated) }
{
    if initiated {
        put_field(out, b"node ", u64::from(id))?;
        out.extend_from_slice(b" initiated\n")?;
    }
    Ok(())
}

/// Whether the node with this ID began the reset.
pub(crate) fn initiated(tree: &BusTree, id: u8) -> bool
    requires { id < length (walk tree.now) }
    ensures { (n : Node) → slice_get (walk tree.now) id ≡ Some n → result ≡ n.attrs.initiated }
{
    tree.node(id).attrs.initiated
}

/// Appends each node that began the reset.
pub(crate) fn put_initiators(out: &mut Vec<u8>, tree: &BusTree) -> Result<(), AllocError>
    ensures { OnOk result (out.new.items ≡ out.old.items ++ initiators 0 (walk tree.now)) }
{
    for id in 0..tree.len() {
        put_initiator(out, id, initiated(tree, id))?;
    }
    Ok(())
}
