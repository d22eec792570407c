//! The graph of a bus tree in Graphviz's language.
ghost use Rattle.std.specs.Prelude.{◌≡◌, ◌++◌, ◌-◌, length, IfOk, OnOk};
ghost use Rattle.topology_stack.specs.Tree.{walk};
ghost use Rattle.view_text.specs.Graph.{graph_head, root_box, irm_box, graph_label, graph_node, graph_nodes, edge_ends, edge_ports, graph_edge, graph_edges, graph};
ghost use Rattle.view_text.specs.GraphDot.{IsTreeDot};

use crate::cable::{Cable, cables};
use crate::node::{put_gap_words, put_link_words, put_title, speed_word};
use crate::words::put_field;
use self_id::SelfId;
use std::alloc::Global;
use topology_stack::{BusTree, OutOfMemory, elect};

/// Appends the label of a node.
#[tactic(auto, unfolding(crate::specs::Graph::graph_label))]
pub(crate) fn put_label(
    out: &mut Vec<u8>,
    id: u8,
    node: &SelfId,
    root: u8,
    irm: Option<u8>,
) -> Result<(), OutOfMemory>
    ensures { OnOk result (out.new.items ≡ out.old.items ++ graph_label id node.now root irm) }
{
    put_title(out, id, root, irm)?;
    out.extend_from_slice(b"\\n")?;
    put_link_words(out, node.attrs)?;
    out.extend_from_slice(b"\\n")?;
    put_gap_words(out, node.attrs)?;
    Ok(())
}

/// Appends what makes the box of the root stand out.
pub(crate) fn put_root_box(out: &mut Vec<u8>, id: u8, root: u8) -> Result<(), OutOfMemory>
    ensures { OnOk result (out.new.items ≡ out.old.items ++ root_box id root) }
{
    if id == root {
        out.extend_from_slice(b", peripheries=2")?;
    }
    Ok(())
}

/// Appends what makes the box of the isochronous resource manager stand out.
pub(crate) fn put_irm_box(out: &mut Vec<u8>, id: u8, irm: Option<u8>) -> Result<(), OutOfMemory>
    ensures { OnOk result (out.new.items ≡ out.old.items ++ irm_box id irm) }
{
    if let Some(irm) = irm {
        if id == irm {
            out.extend_from_slice(b", style=bold")?;
        }
    }
    Ok(())
}

/// Appends a node of the graph.
fn put_node(
    out: &mut Vec<u8>,
    id: u8,
    node: &SelfId,
    root: u8,
    irm: Option<u8>,
) -> Result<(), OutOfMemory>
    ensures { OnOk result (out.new.items ≡ out.old.items ++ graph_node id node.now root irm) }
{
    put_field(out, b"  n", u64::from(id))?;
    out.extend_from_slice(b" [label=\"")?;
    put_label(out, id, node, root, irm)?;
    out.extend_from_slice(b"\"")?;
    put_root_box(out, id, root)?;
    put_irm_box(out, id, irm)?;
    out.extend_from_slice(b"];\n")?;
    Ok(())
}

/// Appends the nodes.
fn put_nodes(out: &mut Vec<u8>, tree: &BusTree, irm: Option<u8>) -> Result<(), OutOfMemory>
    ensures { OnOk result (out.new.items ≡ out.old.items
        ++ graph_nodes 0 (walk tree.now) (length (walk tree.now) - 1) irm) }
{
    for id in 0..tree.len() {
        put_node(out, id, tree.node(id), tree.root(), irm)?;
    }
    Ok(())
}

/// Appends the two nodes of an edge.
fn put_edge_ends(out: &mut Vec<u8>, cable: &Cable) -> Result<(), OutOfMemory>
    ensures { OnOk result (out.new.items ≡ out.old.items ++ edge_ends cable.now) }
{
    put_field(out, b"  n", u64::from(cable.parent))?;
    put_field(out, b" -- n", u64::from(cable.child))?;
    Ok(())
}

/// Appends the two ports of an edge.
fn put_edge_ports(out: &mut Vec<u8>, cable: &Cable) -> Result<(), OutOfMemory>
    ensures { OnOk result (out.new.items ≡ out.old.items ++ edge_ports cable.now) }
{
    put_field(out, b", taillabel=\"", u64::from(cable.port))?;
    put_field(out, b"\", headlabel=\"", u64::from(cable.child_port))?;
    out.extend_from_slice(b"\"];\n")?;
    Ok(())
}

/// Appends an edge.
pub(crate) fn put_edge(out: &mut Vec<u8>, cable: &Cable) -> Result<(), OutOfMemory>
    ensures { OnOk result (out.new.items ≡ out.old.items ++ graph_edge cable.now) }
{
    put_edge_ends(out, cable)?;
    out.extend_from_slice(b" [label=\"")?;
    out.extend_from_slice(speed_word(cable.speed))?;
    put_field(out, b"\", penwidth=", u64::from(cable.speed) + 1)?;
    put_edge_ports(out, cable)?;
    Ok(())
}

/// Appends the edges.
fn put_edges(out: &mut Vec<u8>, cables: &[Cable]) -> Result<(), OutOfMemory>
    ensures { OnOk result (out.new.items ≡ out.old.items ++ graph_edges cables.now) }
{
    for cable in cables {
        put_edge(out, cable)?;
    }
    Ok(())
}

/// Appends what stands before the nodes of a graph.
#[tactic(auto, unfolding(crate::specs::Graph::graph_head))]
pub fn put_graph_head(out: &mut Vec<u8>) -> Result<(), OutOfMemory>
    ensures { OnOk result (out.new.items ≡ out.old.items ++ graph_head) }
{
    out.extend_from_slice(b"graph bus {\n  rankdir=LR;\n  ranksep=1.1;\n  node [shape=box];\n")?;
    out.extend_from_slice(
        b"  edge [headport=w, fontsize=11, labelfontsize=9, labeldistance=2.2, labelangle=-24];\n",
    )?;
    Ok(())
}

/// The graph of a bus tree, which Graphviz draws: a node for each node of the bus, and an edge for
/// each cable with its speed and its ports, the parent's at its tail. The root is at the left, and an
/// edge is wider at a higher speed. The root's box has two lines, and that of the isochronous resource manager a bold one.
/// It is a graph by the grammar of that language, with these nodes and edges and no others.
pub fn tree_graph(alloc: Global, tree: &BusTree) -> Result<Vec<u8>, OutOfMemory>
    ensures text { IfOk result (λ text. text.items ≡ graph tree.now) }
    ensures dot { IfOk result (λ text. IsTreeDot tree.now text.items) }
{
    let mut out = Vec::new(alloc);
    let list = cables(alloc, tree)?;
    put_graph_head(&mut out)?;
    put_nodes(&mut out, tree, elect(tree))?;
    put_edges(&mut out, &list)?;
    out.extend_from_slice(b"}\n")?;
    Ok(out)
}
