//! The graph of a bus tree whose nodes have names.
ghost use Rattle.std.specs.Prelude.{◌≡◌, ◌++◌, ◌-◌, length, slice_index, OnOk};
ghost use Rattle.topology_stack.specs.Tree.{walk};
ghost use Rattle.topology_stack.specs.Elect.{elected};
ghost use Rattle.view_text.specs.NamedGraph.{named_front, named_node, named_nodes, between_numbers, numbered_edges, named_graph};

use crate::cable::{Cable, cables};
use crate::graph::{put_edge, put_irm_box, put_label, put_root_box};
use crate::words::put_field;
use self_id::SelfId;
use topology_stack::{BusTree, Name, OutOfMemory, elect};

/// The number of the node with this ID, 0 past the last one.
fn number_at(numbers: &[u8], id: u8) -> u8
    ensures { result ≡ slice_index numbers.now id }
{
    if (id as usize) < numbers.len() {
        numbers[id as usize]
    } else {
        0
    }
}

/// Appends the number and the name of a node.
fn put_front(out: &mut Vec<u8>, number: u8, name: &Name) -> Result<(), OutOfMemory>
    ensures { OnOk result (out.new.items ≡ out.old.items ++ named_front name.now number) }
{
    put_field(out, b"  n", u64::from(number))?;
    out.extend_from_slice(b" [label=\"")?;
    out.extend_from_slice(name.as_bytes())?;
    out.extend_from_slice(b"\\n")?;
    Ok(())
}

/// Appends a node of the graph.
fn put_named_node(
    out: &mut Vec<u8>,
    number: u8,
    name: &Name,
    id: u8,
    node: &SelfId,
    root: u8,
    irm: Option<u8>,
) -> Result<(), OutOfMemory>
    ensures { OnOk result (out.new.items
        ≡ out.old.items ++ named_node name.now number id node.now root irm) }
{
    put_front(out, number, name)?;
    put_label(out, id, node, root, irm)?;
    out.extend_from_slice(b"\"")?;
    put_root_box(out, id, root)?;
    put_irm_box(out, id, irm)?;
    out.extend_from_slice(b"];\n")?;
    Ok(())
}

/// Appends the nodes.
fn put_named_nodes(
    out: &mut Vec<u8>,
    tree: &BusTree,
    names: &[Name],
    numbers: &[u8],
) -> Result<(), OutOfMemory>
    requires { length names.now ≡ length (walk tree.now) }
    ensures { OnOk result (out.new.items ≡ out.old.items
        ++ named_nodes names.now numbers.now 0 (walk tree.now) (length (walk tree.now) - 1)
        (elected tree.now)) }
{
    let irm = elect(tree);
    for id in 0..tree.len() {
        let number = number_at(numbers, id);
        let name = &names[id as usize];
        put_named_node(out, number, name, id, tree.node(id), tree.root(), irm)?;
    }
    Ok(())
}

/// A cable between the numbers of its nodes.
fn between_numbers(numbers: &[u8], cable: &Cable) -> Cable
    ensures { result ≡ between_numbers numbers.now cable.now }
{
    Cable {
        parent: number_at(numbers, cable.parent),
        port: cable.port,
        child: number_at(numbers, cable.child),
        child_port: cable.child_port,
        speed: cable.speed,
    }
}

/// Appends the edges.
fn put_numbered_edges(
    out: &mut Vec<u8>,
    cables: &[Cable],
    numbers: &[u8],
) -> Result<(), OutOfMemory>
    ensures { OnOk result (out.new.items
        ≡ out.old.items ++ numbered_edges numbers.now cables.now) }
{
    for cable in cables {
        put_edge(out, &between_numbers(numbers, cable))?;
    }
    Ok(())
}

/// Appends the nodes and the edges of a bus tree in Graphviz's language, as `tree_graph` has them. A node's
/// label begins with its name, and in the graph a node has a number of its own. `names` and `numbers` have
/// those of each node by its ID; without a number a node has 0.
pub fn put_named_tree(
    out: &mut Vec<u8>,
    tree: &BusTree,
    names: &[Name],
    numbers: &[u8],
) -> Result<(), OutOfMemory>
    requires { length names.now ≡ length (walk tree.now) }
    ensures { OnOk result (out.new.items ≡ out.old.items
        ++ named_graph names.now numbers.now tree.now) }
{
    let alloc = *out.allocator();
    let list = cables(alloc, tree)?;
    put_named_nodes(out, tree, names, numbers)?;
    put_numbered_edges(out, &list, numbers)?;
    Ok(())
}
