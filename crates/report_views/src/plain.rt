//! The graph of a component that came to no tree.
ghost use Rattle.std.specs.Prelude.{◌≡◌, ◌<◌, ◌≤◌, ◌++◌, ◌==◌, [], cond, length, OnOk};
ghost use Rattle.std.specs.Int.{bit_at};
ghost use Rattle.cabling.specs.Wiring.{ports_of};
ghost use Rattle.script_text.specs.ReportText.{AreNamed, name_of};
ghost use Rattle.report_views.specs.PlainGraph.{AreThere, label_end, plain_node, nodes_below, edge_nodes, plain_edge, edge_at, edges_at, edges_below, plain_graph};

use cabling::{Cabling, End, NodeSet};
use settle::Outcome;
use topology_stack::{Name, OutOfMemory};
use view_text::put_field;

/// What ends the label of a node, and its line.
fn label_end(outcome: &Outcome, node: u8) -> &'static [u8]
    ensures { result.now ≡ label_end outcome.now node }
{
    match outcome {
        Outcome::Contention { a, b } if node == *a || node == *b => {
            b"\\ncontention\", style=filled];\n"
        }
        Outcome::Loop { nodes } if nodes.has(node) => b"\\nloop\", style=filled];\n",
        _ => b"\"];\n",
    }
}

/// Appends a node.
#[tactic(auto, unfolding(crate::specs::PlainGraph::plain_node))]
fn put_plain_node(
    out: &mut Vec<u8>,
    names: &[Name],
    outcome: &Outcome,
    node: u8,
) -> Result<(), OutOfMemory>
    requires { node < length names.now }
    ensures { OnOk result (out.new.items
        ≡ out.old.items ++ plain_node names.now outcome.now node) }
{
    put_field(out, b"  n", u64::from(node))?;
    out.extend_from_slice(b" [label=\"")?;
    out.extend_from_slice(names[node as usize].as_bytes())?;
    out.extend_from_slice(label_end(outcome, node))?;
    Ok(())
}

/// Appends a node, where a set holds it.
fn put_held_node(
    out: &mut Vec<u8>,
    names: &[Name],
    outcome: &Outcome,
    set: NodeSet,
    node: u8,
) -> Result<(), OutOfMemory>
    requires { AreNamed names.now set }
    ensures { OnOk result (out.new.items ≡ out.old.items
        ++ cond (bit_at set node == 1) (plain_node names.now outcome.now node) []) }
{
    if set.has(node) {
        put_plain_node(out, names, outcome, node)?;
    }
    Ok(())
}

/// Appends the nodes of a set.
fn put_plain_nodes(
    out: &mut Vec<u8>,
    names: &[Name],
    outcome: &Outcome,
    set: NodeSet,
) -> Result<(), OutOfMemory>
    requires { AreNamed names.now set }
    ensures { OnOk result (out.new.items
        ≡ out.old.items ++ nodes_below names.now outcome.now set 63) }
{
    for node in 0..63 {
        put_held_node(out, names, outcome, set, node)?;
    }
    Ok(())
}

/// Appends the nodes of a cable.
fn put_edge_nodes(out: &mut Vec<u8>, node: u8, far: u8) -> Result<(), OutOfMemory>
    ensures { OnOk result (out.new.items ≡ out.old.items ++ edge_nodes node far) }
{
    put_field(out, b"  n", u64::from(node))?;
    put_field(out, b" -- n", u64::from(far))?;
    Ok(())
}

/// Appends a cable.
fn put_plain_edge(out: &mut Vec<u8>, node: u8, port: u8, far: End) -> Result<(), OutOfMemory>
    ensures { OnOk result (out.new.items ≡ out.old.items ++ plain_edge node port far) }
{
    put_edge_nodes(out, node, far.node)?;
    put_field(out, b" [headport=_, taillabel=\"", u64::from(port))?;
    put_field(out, b"\", headlabel=\"", u64::from(far.port))?;
    out.extend_from_slice(b"\"];\n")?;
    Ok(())
}

/// Appends the cable in a port, at the lower of its two nodes.
fn put_edge_at(out: &mut Vec<u8>, node: u8, port: u8, far: Option<End>) -> Result<(), OutOfMemory>
    ensures { OnOk result (out.new.items ≡ out.old.items ++ edge_at node port far) }
{
    if let Some(far) = far {
        if node < far.node {
            put_plain_edge(out, node, port, far)?;
        }
    }
    Ok(())
}

/// Appends the cables of a node.
fn put_edges_at(out: &mut Vec<u8>, cabling: &Cabling, node: u8) -> Result<(), OutOfMemory>
    requires { node < length cabling.now }
    ensures { OnOk result (out.new.items
        ≡ out.old.items ++ edges_at node 0 (ports_of cabling.now node)) }
{
    for port in 0..cabling.ports(node) {
        let far = cabling.far(End { node, port });
        put_edge_at(out, node, port, far)?;
    }
    Ok(())
}

/// Appends the cables of a node, where a set holds it.
fn put_held_edges(
    out: &mut Vec<u8>,
    cabling: &Cabling,
    set: NodeSet,
    node: u8,
) -> Result<(), OutOfMemory>
    requires { AreThere cabling.now set }
    ensures { OnOk result (out.new.items ≡ out.old.items
        ++ cond (bit_at set node == 1) (edges_at node 0 (ports_of cabling.now node)) []) }
{
    if set.has(node) {
        put_edges_at(out, cabling, node)?;
    }
    Ok(())
}

/// Appends the cables of the nodes of a set.
fn put_plain_edges(out: &mut Vec<u8>, cabling: &Cabling, set: NodeSet) -> Result<(), OutOfMemory>
    requires { AreThere cabling.now set }
    ensures { OnOk result (out.new.items ≡ out.old.items ++ edges_below cabling.now set 63) }
{
    for node in 0..63 {
        put_held_edges(out, cabling, set, node)?;
    }
    Ok(())
}

/// Appends the nodes of a component that came to no tree, and the cables between them.
#[tactic(auto, unfolding(crate::specs::PlainGraph::plain_graph))]
pub(crate) fn put_plain_graph(
    out: &mut Vec<u8>,
    names: &[Name],
    cabling: &Cabling,
    outcome: &Outcome,
    set: NodeSet,
) -> Result<(), OutOfMemory>
    requires named { AreNamed names.now set }
    requires there { AreThere cabling.now set }
    ensures { OnOk result (out.new.items
        ≡ out.old.items ++ plain_graph names.now cabling.now outcome.now set) }
{
    put_plain_nodes(out, names, outcome, set)?;
    put_plain_edges(out, cabling, set)?;
    Ok(())
}
