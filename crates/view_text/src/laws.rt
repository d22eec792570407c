//! Laws of the cables of a tree.
ghost use Rattle.view_text.specs.Cable.{EachNodeHangsOnOneCable, CablesAreOneLessThanNodes};
ghost use Rattle.view_text.specs.CableEnds.{CablesAreOfTheTree, EachDownSlotHasItsCable};
ghost use Rattle.view_text.specs.GraphDot.{GraphsAreDot};

/// A law: each node of a tree but the root hangs on exactly one of the tree's cables, and there are
/// no others. So a graph with an edge a cable has each cable once, as a drawing of the tree has.
pub fn each_node_hangs_on_one_cable()
    ensures one { EachNodeHangsOnOneCable }
    ensures count { CablesAreOneLessThanNodes }
{}

/// A law: each of the cables of a bus tree leads from a port of the parent to the child that stands
/// there, and from a port of the child back to the parent, with the speed of the path between them;
/// and each slot that is down has its cable.
pub fn cables_are_of_the_tree()
    ensures ends { CablesAreOfTheTree }
    ensures all { EachDownSlotHasItsCable }
{}

/// A law: the graph of each tree is one by the grammar of Graphviz's language. It has a node for each node
/// of the tree and an edge for each of its cables, and no others.
pub fn graphs_are_dot()
    ensures { GraphsAreDot }
{}
