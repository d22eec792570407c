//! The line of JSON of a report.
ghost use Rattle.std.specs.Prelude.{◌≡◌, ◌++◌, ◌<◌, ◌==◌, ◌∷◌, [], All, length, IfOk, OnOk};
ghost use Rattle.std.specs.Int.{bit_at};
ghost use Rattle.json.specs.Token.{string};
ghost use Rattle.json.specs.Json.{array};
ghost use Rattle.json.specs.Tree.{json_tokens, members_tokens};
ghost use Rattle.script_text.specs.ReportText.{AreNamed, IsNamedTree, IsNamedOutcome, IsNamedPart, IsNamedReport, name_of};
ghost use Rattle.report_views.specs.ReportJson.{set_names, IsTreeMember, contention_member, loop_member, IsOutcomeMember, component_value, AreComponents, report_value, IsReadLine};
ghost use Rattle.report_views.specs.codings.Written.{held_tokens, IsWritten, IsComponentWritten, AreWritten};

use bus_json::{JsonText, name_text, put_tree};
use cabling::NodeSet;
use quad_lanes::QuadList;
use script_text::{names_in, tree_of};
use settle::{Outcome, Part, Report};
use std::alloc::Global;
use topology_stack::{Name, OutOfMemory, one_tree};

/// Writes the name of a node.
fn put_name(out: &mut JsonText, names: &[Name], node: u8) -> Result<(), OutOfMemory>
    requires { node < length names.now }
    ensures { OnOk result (out.new ≡ out.old ++ string (name_of names.now node) ∷ []) }
{
    out.string(name_text(&names[node as usize]))
}

/// Writes the name of a node, where a set holds it.
fn put_held(out: &mut JsonText, names: &[Name], set: NodeSet, node: u8) -> Result<(), OutOfMemory>
    requires { AreNamed names.now set }
    ensures { OnOk result (out.new
        ≡ out.old ++ held_tokens (bit_at set node == 1) (name_of names.now node)) }
{
    if set.has(node) {
        put_name(out, names, node)?;
    }
    Ok(())
}

/// Writes the list of the names of a set's nodes.
fn put_set(out: &mut JsonText, names: &[Name], set: NodeSet) -> Result<(), OutOfMemory>
    requires { AreNamed names.now set }
    ensures { OnOk result (out.new
        ≡ out.old ++ json_tokens (array (set_names names.now set))) }
{
    out.open_list()?;
    for node in 0..63 {
        put_held(out, names, set, node)?;
    }
    out.close_list()?;
    Ok(())
}

/// Writes the tree of a component, and ends the component.
fn put_tree_member(
    out: &mut JsonText,
    alloc: Global,
    names: &[Name],
    root: u8,
    list: &QuadList,
    order: &[u8],
) -> Result<(), OutOfMemory>
    requires { IsNamedTree names.now root list.now order.now }
    ensures { OnOk result (IsWritten out.old (IsTreeMember names.now list.now order.now) out.new) }
{
    let _ = root;
    let tree = tree_of(alloc, list.as_slice())?;
    let by_id = names_in(alloc, names, order)?;
    out.key("tree")?;
    out.open_object()?;
    put_tree(out, &tree, by_id.as_slice())?;
    out.close_object()?;
    Ok(())
}

/// Writes the two nodes that contend, and ends the component.
fn put_contention(out: &mut JsonText, names: &[Name], a: u8, b: u8) -> Result<(), OutOfMemory>
    requires lower { a < length names.now }
    requires higher { b < length names.now }
    ensures { OnOk result (out.new
        ≡ out.old ++ members_tokens (contention_member names.now a b)) }
{
    out.key("contention")?;
    out.open_list()?;
    put_name(out, names, a)?;
    put_name(out, names, b)?;
    out.close_list()?;
    out.close_object()?;
    Ok(())
}

/// Writes the nodes of loops, and ends the component.
fn put_loop(out: &mut JsonText, names: &[Name], core: NodeSet) -> Result<(), OutOfMemory>
    requires { AreNamed names.now core }
    ensures { OnOk result (out.new ≡ out.old ++ members_tokens (loop_member names.now core)) }
{
    out.key("loop")?;
    put_set(out, names, core)?;
    out.close_object()?;
    Ok(())
}

/// Writes what a component came to, and ends the component.
fn put_outcome(
    out: &mut JsonText,
    alloc: Global,
    names: &[Name],
    outcome: &Outcome,
) -> Result<(), OutOfMemory>
    requires { IsNamedOutcome names.now outcome.now }
    ensures { OnOk result (IsWritten out.old
        (IsOutcomeMember names.now outcome.now) out.new) }
{
    match outcome {
        Outcome::Tree { root, list, order } => {
            put_tree_member(out, alloc, names, *root, list, order.as_slice())?;
        }
        Outcome::Contention { a, b } => put_contention(out, names, *a, *b)?,
        Outcome::Loop { nodes } => put_loop(out, names, *nodes)?,
    }
    Ok(())
}

/// Writes a component.
fn put_component(
    out: &mut JsonText,
    alloc: Global,
    names: &[Name],
    part: &Part,
) -> Result<(), OutOfMemory>
    requires { IsNamedPart names.now part.now }
    ensures { OnOk result (IsComponentWritten names.now part.now out.old out.new) }
{
    out.open_object()?;
    out.number_member("rounds", u64::from(part.rounds))?;
    out.number_member("changed", u64::from(part.changed))?;
    out.key("names")?;
    put_set(out, names, part.nodes)?;
    put_outcome(out, alloc, names, &part.outcome)?;
    Ok(())
}

/// Writes the list of components.
fn put_components(
    out: &mut JsonText,
    alloc: Global,
    names: &[Name],
    parts: &[Part],
) -> Result<(), OutOfMemory>
    requires { All (IsNamedPart names.now) parts.now }
    ensures { OnOk result (AreWritten names.now parts.now out.old out.new) }
{
    for part in parts {
        put_component(out, alloc, names, part)?;
    }
    out.close_list()?;
    Ok(())
}

/// The line of a report, the `number`th of a script, from 1. `names` has the name of each node by its
/// number.
///
/// `{"schema":1,"report":K,"turn":T,"components":[COMPONENT,..]}`, where a component is
/// `{"rounds":R,"changed":C,"names":["NAME",..],"tree":TREE}`, and in the place of `"tree"` it has
/// `"contention":["NAME","NAME"]` or `"loop":["NAME",..]` where it came to none. TREE is what `bus_line`
/// writes, without the schema, and with a `"name"` behind the ID of each node. It is read back as the
/// value that it is the text of.
pub fn report_line(
    alloc: Global,
    names: &[Name],
    number: u32,
    report: &Report,
) -> Result<Vec<u8>, OutOfMemory>
    requires { IsNamedReport names.now report.now }
    ensures { IfOk result (λ line. IsReadLine names.now number report.now line.items) }
{
    let mut out = JsonText::new(alloc);
    out.open_schema()?;
    out.number_member("report", u64::from(number))?;
    out.number_member("turn", u64::from(report.turn))?;
    out.key("components")?;
    out.open_list()?;
    put_components(&mut out, alloc, names, report.parts.as_slice())?;
    out.close_object()?;
    let line = out.into_line()?;
    Ok(line)
}
