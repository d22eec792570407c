//! A report as a graph for Graphviz and as a line of JSON, with the names of a script.
//!
//! Both show the nodes by the names that a script gives them.
#![tactic(auto)]

mod laws;
mod line;
mod plain;
mod report;

pub use laws::{report_graphs_are_dot, reports_have_one_view, reports_have_views};
pub use line::report_line;
pub use report::report_graph;
