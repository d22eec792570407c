//! The graph of a report.
ghost use Rattle.std.specs.Prelude.{◌≡◌, All, length, IfOk, OnOk};
ghost use Rattle.script_text.specs.ReportText.{AreNamed, IsNamedTree, IsNamedOutcome, IsNamedPart, IsNamedReport};
ghost use Rattle.report_views.specs.PlainGraph.{AreThere};
ghost use Rattle.report_views.specs.ReportGraph.{IsTreeGraph, IsOutcomeGraph, ArePartGraphs, IsReportGraph};
ghost use Rattle.report_views.specs.codings.Added.{IsAppended};

use crate::plain::put_plain_graph;
use cabling::{Cabling, NodeSet};
use quad_lanes::QuadList;
use script_text::{names_in, tree_of};
use settle::{Outcome, Part, Report};
use std::alloc::Global;
use topology_stack::{Name, OutOfMemory, one_tree};
use view_text::{put_graph_head, put_named_tree};

/// Appends a component that is a tree.
fn put_tree_graph(
    out: &mut Vec<u8>,
    names: &[Name],
    root: u8,
    list: &QuadList,
    order: &[u8],
) -> Result<(), OutOfMemory>
    requires { IsNamedTree names.now root list.now order.now }
    ensures { OnOk result (IsAppended out.old.items (IsTreeGraph names.now list.now order.now)
        out.new.items) }
{
    let _ = root;
    let alloc = *out.allocator();
    let tree = tree_of(alloc, list.as_slice())?;
    one_tree();
    let by_id = names_in(alloc, names, order)?;
    put_named_tree(out, &tree, by_id.as_slice(), order)?;
    Ok(())
}

/// Appends what a component of these nodes came to.
fn put_outcome_graph(
    out: &mut Vec<u8>,
    names: &[Name],
    cabling: &Cabling,
    set: NodeSet,
    outcome: &Outcome,
) -> Result<(), OutOfMemory>
    requires outcome { IsNamedOutcome names.now outcome.now }
    requires named { AreNamed names.now set }
    requires there { AreThere cabling.now set }
    ensures { OnOk result (IsAppended out.old.items
        (IsOutcomeGraph names.now cabling.now set outcome.now) out.new.items) }
{
    match outcome {
        Outcome::Tree { root, list, order } => {
            put_tree_graph(out, names, *root, list, order.as_slice())?;
        }
        _ => put_plain_graph(out, names, cabling, outcome, set)?,
    }
    Ok(())
}

/// Appends components.
fn put_part_graphs(
    out: &mut Vec<u8>,
    names: &[Name],
    cabling: &Cabling,
    parts: &[Part],
) -> Result<(), OutOfMemory>
    requires named { All (IsNamedPart names.now) parts.now }
    requires nodes { length names.now ≡ length cabling.now }
    ensures { OnOk result (IsAppended out.old.items (ArePartGraphs names.now cabling.now parts.now)
        out.new.items) }
{
    for part in parts {
        put_outcome_graph(out, names, cabling, part.nodes, &part.outcome)?;
    }
    Ok(())
}

/// The graph of a report of the nodes of a cabling, which Graphviz draws. `names` has the name of each
/// node by its number.
///
/// A component that is a tree is drawn as `tree_graph` draws it, with the name of each node above its ID.
/// Of a component that is none there are the nodes and the cables between them, with the ports at their
/// ends; the nodes of loops and those that contend are filled and say so.
pub fn report_graph(
    alloc: Global,
    names: &[Name],
    cabling: &Cabling,
    report: &Report,
) -> Result<Vec<u8>, OutOfMemory>
    requires named { IsNamedReport names.now report.now }
    requires nodes { length names.now ≡ length cabling.now }
    ensures { IfOk result (λ text.
        IsReportGraph names.now cabling.now report.now text.items) }
{
    let mut out = Vec::new(alloc);
    put_graph_head(&mut out)?;
    put_part_graphs(&mut out, names, cabling, report.parts.as_slice())?;
    out.extend_from_slice(b"}\n")?;
    Ok(out)
}
