//! The drawing of a bus tree.
ghost use Rattle.std.specs.Prelude.{◌≡◌, ◌+◌, ◌<◌, ◌≤◌, ◌++◌, length, drop, nat_lt, slice_get, IfOk, OnOk, IfSome};
ghost use Rattle.self_id.specs.Node.{downs};
ghost use Rattle.topology_stack.specs.Tree.{walk};
ghost use Rattle.view_text.specs.Drawing.{node_words, cable_text, corner, bar, table_gap, hops_words, hops_line, drawing, IsDrawing};
ghost use Rattle.view_text.specs.codings.Parts.{IsChildAt, AppendsPart};

use crate::cable::{Cable, cable_to};
use crate::gaps::{gap_at, put_gaps};
use crate::node::{between_ports, put_gap_words, put_link_words, put_title};
use crate::words::put_field;
use bus_manager::{gap_for, hops};
use self_id::{PortStatus, SelfId, count_down};
use std::alloc::Global;
use topology_stack::{BusTree, OutOfMemory, elect, put_number};

/// Appends the words of a node.
fn put_node_words(
    out: &mut Vec<u8>,
    id: u8,
    node: &SelfId,
    root: u8,
    irm: Option<u8>,
) -> Result<(), OutOfMemory>
    ensures { OnOk result (out.new.items ≡ out.old.items ++ node_words id node.now root irm) }
{
    put_title(out, id, root, irm)?;
    out.push(b' ')?;
    put_link_words(out, node.attrs)?;
    out.push(b' ')?;
    put_gap_words(out, node.attrs)?;
    out.push(b'\n')?;
    Ok(())
}

/// Appends a cable with its ports and speed.
#[tactic(auto, unfolding(crate::specs::Drawing::cable_text))]
fn put_cable(out: &mut Vec<u8>, cable: Cable) -> Result<(), OutOfMemory>
    ensures { OnOk result (out.new.items
        ≡ out.old.items ++ cable_text cable.port cable.speed cable.child_port) }
{
    put_field(out, b"[", u64::from(cable.port))?;
    out.extend_from_slice(between_ports(cable.speed))?;
    put_number(out, u64::from(cable.child_port))?;
    out.extend_from_slice(b"] ")?;
    Ok(())
}

/// What stands before a cable, where another one of the same parent comes further down, or none.
fn corner(on: bool) -> &'static [u8]
    ensures { result.now ≡ corner on }
{
    if on { b"+--" } else { b"`--" }
}

/// The same of the lines below its child.
fn bar(on: bool) -> &'static [u8]
    ensures { result.now ≡ bar on }
{
    if on { b"|  " } else { b"   " }
}

/// Appends what stands before a child.
fn put_branch(out: &mut Vec<u8>, margin: &[u8], on: bool, cable: Cable) -> Result<(), OutOfMemory>
    ensures { OnOk result (out.new.items ≡ out.old.items ++ (margin.now
        ++ (corner on ++ cable_text cable.port cable.speed cable.child_port))) }
{
    out.extend_from_slice(margin)?;
    out.extend_from_slice(corner(on))?;
    put_cable(out, cable)?;
    Ok(())
}

/// Whether a slot behind this one leads to a child.
fn goes_on(ports: &[PortStatus], slot: usize) -> bool
    requires { slot < length ports.now }
    ensures { result ≡ nat_lt 0 (downs (drop (slot + 1) ports.now)) }
{
    count_down(&ports[slot + 1..]) > 0
}

/// The child below a slot.
fn child_at(tree: &BusTree, id: u8, slot: u8) -> Option<u8>
    requires { IfSome (slice_get (walk tree.now) id) (λ n. slot < length n.ports) }
    ensures child { IsChildAt tree.now id slot result }
    ensures lower { IfSome result (λ child. child < id) }
{
    if id >= tree.len() {
        return None;
    }
    if let PortStatus::Down = tree.node(id).ports.as_slice()[slot as usize] {
        tree.far(id, slot)
    } else {
        None
    }
}

/// Appends the line of a node, and those of all nodes below it by rising port. `margin` is what
/// stands before each line but the first, and stays as it is.
fn put_tree(
    out: &mut Vec<u8>,
    margin: &mut Vec<u8>,
    tree: &BusTree,
    id: u8,
    irm: Option<u8>,
) -> Result<(), OutOfMemory>
    requires { id < length (walk tree.now) }
    ensures lines { OnOk result (AppendsPart tree.now margin.old.items irm id
        out.old.items out.new.items) }
    ensures margin { OnOk result (margin.new.items ≡ margin.old.items) }
{
    put_node_words(out, id, tree.node(id), tree.root(), irm)?;
    let ports = tree.node(id).ports.as_slice();
    for slot in 0..ports.len() {
        if let Some(child) = child_at(tree, id, slot as u8) {
            let on = goes_on(ports, slot);
            put_branch(out, margin, on, cable_to(tree, id, slot as u8, child))?;
            let outer = margin.len();
            margin.extend_from_slice(bar(on))?;
            put_tree(out, margin, tree, child, irm)?;
            margin.truncate(outer);
        }
    }
    Ok(())
}

/// Appends what the table has for hops.
fn put_table_gap(out: &mut Vec<u8>, hops: u8) -> Result<(), OutOfMemory>
    ensures { OnOk result (out.new.items ≡ out.old.items ++ table_gap hops) }
{
    put_field(out, b", gap count ", u64::from(gap_for(hops)))?;
    out.extend_from_slice(b" by the table\n")?;
    Ok(())
}

/// Appends which gap count suits hops.
fn put_hops_words(out: &mut Vec<u8>, hops: u8) -> Result<(), OutOfMemory>
    ensures { OnOk result (out.new.items ≡ out.old.items ++ hops_words hops) }
{
    if hops == 0 {
        out.extend_from_slice(b", any gap count will do\n")
    } else if hops > 15 {
        out.extend_from_slice(b", more than the 15 of the table\n")
    } else {
        put_table_gap(out, hops)
    }
}

/// Appends the hops and the gap count for them.
#[tactic(auto, unfolding(crate::specs::Drawing::hops_line))]
fn put_hops(out: &mut Vec<u8>, hops: u8) -> Result<(), OutOfMemory>
    ensures { OnOk result (out.new.items ≡ out.old.items ++ hops_line hops) }
{
    put_field(out, b"hops ", u64::from(hops))?;
    put_hops_words(out, hops)?;
    Ok(())
}

/// The bytes of most drawings of so many nodes.
fn room(nodes: u8) -> usize {
    160 + 96 * usize::from(nodes)
}

/// The drawing of a bus tree: a line a node, the root at the top, and below each node its children
/// by rising port, each behind the cable between them, `+--[PORT]--SPEED--[PORT] `; then the hops of
/// the bus with the gap count that the table has for them, up to 15, and whether the nodes' gap
/// counts agree with the root's, and if so whether that one is safe or too small for the hops.
pub fn tree_drawing(alloc: Global, tree: &BusTree) -> Result<Vec<u8>, OutOfMemory>
    ensures { IfOk result (λ text. IsDrawing tree.now text.items) }
{
    let mut out = Vec::with_capacity(alloc, room(tree.len()))?;
    let mut margin = Vec::with_capacity(alloc, 64)?;
    let hops = hops(tree);
    let gap = gap_at(tree, tree.root());
    put_tree(&mut out, &mut margin, tree, tree.root(), elect(tree))?;
    put_hops(&mut out, hops)?;
    put_gaps(&mut out, tree, gap, hops)?;
    Ok(out)
}
