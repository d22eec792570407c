//! The text of a report.
ghost use Rattle.std.specs.Prelude.{◌≡◌, ◌++◌, ◌<◌, ◌==◌, [], All, length, cond, IfOk, OnOk};
ghost use Rattle.std.specs.Int.{bit_at};
ghost use Rattle.script_text.specs.ReportText.{AreNamed, IsNamedTree, IsNamedOutcome, IsNamedPart, IsNamedReport, IsTreeText, IsOutcomeText, IsPartText, ArePartTexts, IsReportText, spaced, all_spaced, numbered, report_line, counts, component_line, root_line, contention_line, loop_line, names_in};
ghost use Rattle.script_text.specs.codings.Appended.{IsAppended};
ghost use Rattle.self_id.specs.declared.standard.Standard.TheVariants.{Ieee2000};
ghost use Rattle.topology_stack.specs.Tree.{Tree, IsBusTreeOf, emits};

use cabling::NodeSet;
use quad_lanes::QuadList;
use settle::{Outcome, Part, Report};
use std::alloc::Global;
use topology_stack::{
    BusTree, Name, NameList, OutOfMemory, TreeStop, one_tree, put_number, read_tree, tree_text,
};

/// For so many bytes of a report there is room from the start.
const ROOM: usize = 512;

/// Appends a word and a number in decimal digits.
#[tactic(auto, unfolding(crate::specs::ReportText::numbered))]
pub fn put_numbered(out: &mut Vec<u8>, word: &[u8], n: u64) -> Result<(), OutOfMemory>
    ensures { OnOk result (out.new.items ≡ out.old.items ++ numbered word.now n) }
{
    out.extend_from_slice(word)?;
    put_number(out, n)
}

/// Appends a space and the name of a node. `names` has the name of each node by its number.
#[tactic(auto, unfolding(crate::specs::ReportText::spaced))]
pub fn put_name(out: &mut Vec<u8>, names: &[Name], node: u8) -> Result<(), OutOfMemory>
    requires { node < length names.now }
    ensures { OnOk result (out.new.items ≡ out.old.items ++ spaced names.now node) }
{
    out.extend_from_slice(b" ")?;
    out.extend_from_slice(names[node as usize].as_bytes())?;
    Ok(())
}

/// Appends the name of a node, where a set holds the node.
fn put_held(out: &mut Vec<u8>, names: &[Name], set: NodeSet, node: u8) -> Result<(), OutOfMemory>
    requires { AreNamed names.now set }
    ensures { OnOk result (out.new.items
        ≡ out.old.items ++ cond (bit_at set node == 1) (spaced names.now node) []) }
{
    if set.has(node) {
        put_name(out, names, node)?;
    }
    Ok(())
}

/// Appends a space and a name for each node of a set, by rising number. `names` has the name of each
/// node by its number.
pub fn put_names(out: &mut Vec<u8>, names: &[Name], set: NodeSet) -> Result<(), OutOfMemory>
    requires { AreNamed names.now set }
    ensures { OnOk result (out.new.items ≡ out.old.items ++ all_spaced names.now set) }
{
    for node in 0..63 {
        put_held(out, names, set, node)?;
    }
    Ok(())
}

/// Appends the first line of a report.
#[tactic(auto, unfolding(crate::specs::ReportText::report_line))]
fn put_report_line(out: &mut Vec<u8>, number: u32, turn: u32) -> Result<(), OutOfMemory>
    ensures { OnOk result (out.new.items ≡ out.old.items ++ report_line number turn) }
{
    put_numbered(out, b"report ", u64::from(number))?;
    put_numbered(out, b" turn ", u64::from(turn))?;
    out.push(b'\n')?;
    Ok(())
}

/// Appends the words on the numbers of a component.
#[tactic(auto, unfolding(crate::specs::ReportText::counts))]
fn put_counts(out: &mut Vec<u8>, rounds: u16, changed: u32) -> Result<(), OutOfMemory>
    ensures { OnOk result (out.new.items ≡ out.old.items ++ counts rounds changed) }
{
    out.extend_from_slice(b"component")?;
    put_numbered(out, b" rounds ", u64::from(rounds))?;
    put_numbered(out, b" changed ", u64::from(changed))?;
    out.extend_from_slice(b" nodes")?;
    Ok(())
}

/// Appends the line of a component.
#[tactic(auto, unfolding(crate::specs::ReportText::component_line))]
fn put_component_line(out: &mut Vec<u8>, names: &[Name], part: &Part) -> Result<(), OutOfMemory>
    requires { AreNamed names.now part.now.nodes }
    ensures { OnOk result (out.new.items ≡ out.old.items ++ component_line names.now part.now) }
{
    put_counts(out, part.rounds, part.changed)?;
    put_names(out, names, part.nodes)?;
    out.push(b'\n')?;
    Ok(())
}

/// Appends the line of a tree's root.
#[tactic(auto, unfolding(crate::specs::ReportText::root_line))]
fn put_root_line(out: &mut Vec<u8>, names: &[Name], root: u8) -> Result<(), OutOfMemory>
    requires { root < length names.now }
    ensures { OnOk result (out.new.items ≡ out.old.items ++ root_line names.now root) }
{
    out.extend_from_slice(b"tree root")?;
    put_name(out, names, root)?;
    out.push(b'\n')?;
    Ok(())
}

/// Appends the line of a contention.
#[tactic(auto, unfolding(crate::specs::ReportText::contention_line))]
fn put_contention(out: &mut Vec<u8>, names: &[Name], a: u8, b: u8) -> Result<(), OutOfMemory>
    requires lower { a < length names.now }
    requires higher { b < length names.now }
    ensures { OnOk result (out.new.items ≡ out.old.items ++ contention_line names.now a b) }
{
    out.extend_from_slice(b"contention")?;
    put_name(out, names, a)?;
    put_name(out, names, b)?;
    out.push(b'\n')?;
    Ok(())
}

/// Appends the line of a loop.
#[tactic(auto, unfolding(crate::specs::ReportText::loop_line))]
fn put_loop(out: &mut Vec<u8>, names: &[Name], core: NodeSet) -> Result<(), OutOfMemory>
    requires { AreNamed names.now core }
    ensures { OnOk result (out.new.items ≡ out.old.items ++ loop_line names.now core) }
{
    out.extend_from_slice(b"loop")?;
    put_names(out, names, core)?;
    out.push(b'\n')?;
    Ok(())
}

/// The names of nodes in an order. `names` has the name of each node by its number.
pub fn names_in(alloc: Global, names: &[Name], order: &[u8]) -> Result<NameList, OutOfMemory>
    requires { All (λ node. node < length names.now) order.now }
    ensures { IfOk result (λ list. list ≡ names_in names.now order.now) }
{
    let mut list = NameList::new(alloc);
    for node in order {
        list.push(names[*node as usize].clone()?)?;
    }
    Ok(list)
}

/// The bus tree that emits a list. Some tree does.
pub fn tree_of(alloc: Global, list: &[u32]) -> Result<BusTree, OutOfMemory>
    requires { (tree : Tree) × IsBusTreeOf Ieee2000 tree × (emits tree ≡ list.now) }
    ensures tree { IfOk result (λ tree. IsBusTreeOf Ieee2000 tree × (emits tree ≡ list.now)) }
{
    match read_tree(alloc, list) {
        Ok(tree) => Ok(tree),
        Err(TreeStop::Memory(memory)) => Err(memory),
        Err(TreeStop::Fault(_)) => unreachable!(),
    }
}

/// Appends what a component came to, where that is a tree.
fn put_tree(
    out: &mut Vec<u8>,
    names: &[Name],
    root: u8,
    list: &QuadList,
    order: &[u8],
) -> Result<(), OutOfMemory>
    requires { IsNamedTree names.now root list.now order.now }
    ensures { OnOk result (IsAppended out.old.items
        (IsTreeText names.now root list.now order.now) out.new.items) }
{
    let alloc = *out.allocator();
    let tree = tree_of(alloc, list.as_slice())?;
    one_tree();
    let by_id = names_in(alloc, names, order)?;
    put_root_line(out, names, root)?;
    let text = tree_text(alloc, &tree, &by_id)?;
    out.extend_from_slice(text.as_slice())?;
    Ok(())
}

/// Appends what a component came to.
fn put_outcome(out: &mut Vec<u8>, names: &[Name], outcome: &Outcome) -> Result<(), OutOfMemory>
    requires { IsNamedOutcome names.now outcome.now }
    ensures { OnOk result (IsAppended out.old.items (IsOutcomeText names.now outcome.now)
        out.new.items) }
{
    match outcome {
        Outcome::Tree { root, list, order } => put_tree(out, names, *root, list, order.as_slice())?,
        Outcome::Contention { a, b } => put_contention(out, names, *a, *b)?,
        Outcome::Loop { nodes } => put_loop(out, names, *nodes)?,
    }
    Ok(())
}

/// Appends the text of a component.
fn put_part(out: &mut Vec<u8>, names: &[Name], part: &Part) -> Result<(), OutOfMemory>
    requires { IsNamedPart names.now part.now }
    ensures { OnOk result (IsAppended out.old.items (IsPartText names.now part.now) out.new.items) }
{
    put_component_line(out, names, part)?;
    put_outcome(out, names, &part.outcome)?;
    Ok(())
}

/// Appends the texts of components.
fn put_parts(out: &mut Vec<u8>, names: &[Name], parts: &[Part]) -> Result<(), OutOfMemory>
    requires { All (IsNamedPart names.now) parts.now }
    ensures { OnOk result (IsAppended out.old.items (ArePartTexts names.now parts.now)
        out.new.items) }
{
    for part in parts {
        put_part(out, names, part)?;
    }
    Ok(())
}

/// The text of a report, the `number`th of a script, from 1. `names` has the name of each node.
///
/// Its first line is `report K turn T`. Then there is `component rounds R changed C nodes NAME NAME`
/// for each component, and what it came to: `tree root NAME` and the text of the tree, `contention
/// NAME NAME` or `loop NAME NAME`.
pub fn report_text(
    alloc: Global,
    report: &Report,
    number: u32,
    names: &NameList,
) -> Result<Vec<u8>, OutOfMemory>
    requires { IsNamedReport names.now report.now }
    ensures { IfOk result (λ text. IsReportText names.now number report.now text.items) }
{
    let mut out = Vec::with_capacity(alloc, ROOM)?;
    put_report_line(&mut out, number, report.turn)?;
    put_parts(&mut out, names.as_slice(), report.parts.as_slice())?;
    Ok(out)
}
