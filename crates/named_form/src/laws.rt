//! A law of graphs with names.
ghost use Rattle.named_form.specs.NamedDot.{NamedGraphsAreDot};

/// A law: the graph of each tree with the names of a file is one by the grammar of Graphviz's language, whatever
/// file of names that has no fault. It has a node for each node of the tree and an edge for each of its cables, and no
/// others.
pub fn named_graphs_are_dot()
    ensures { NamedGraphsAreDot }
{}
