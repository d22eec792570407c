//! Laws of the views of reports.
ghost use Rattle.report_views.specs.Dots.{ReportGraphsAreDot};
ghost use Rattle.report_views.specs.OneView.{ReportsHaveOneGraph, ReportsHaveOneLine, NamedReportsHaveGraphs, NamedReportsHaveLines};

use topology_stack::one_tree;

/// A law: a report has one graph and one line at most.
pub fn reports_have_one_view()
    ensures graph { ReportsHaveOneGraph }
    ensures line { ReportsHaveOneLine }
{
    one_tree();
}

/// A law: a report that can be shown has a graph and a line, whatever memory there is to make them.
pub fn reports_have_views()
    ensures graphs { NamedReportsHaveGraphs }
    ensures lines { NamedReportsHaveLines }
{}

/// A law: the graph of each report is one by the grammar of Graphviz's language. It has a node for each node
/// of the report's components and an edge for each of their cables, and no others.
pub fn report_graphs_are_dot()
    ensures { ReportGraphsAreDot }
{
    one_tree();
}
