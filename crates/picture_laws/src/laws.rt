//! What the picture of a script is.
ghost use Rattle.picture_laws.specs.Dots.{PicturesAreDot};

use cable_world::acts_keep;
use report_views::report_graphs_are_dot;
use script_lines::names_are_tested;
use settle::reports_are_read_back;
use topology_stack::one_tree;

/// A law: the graph of a script is one by the grammar of Graphviz's language, of the report at the end of its
/// run: with a node for each node and an edge for each cable, and no others.
pub fn pictures_are_dot()
    ensures { PicturesAreDot }
{
    one_tree();
    acts_keep();
    reports_are_read_back();
    names_are_tested();
    report_graphs_are_dot();
}
