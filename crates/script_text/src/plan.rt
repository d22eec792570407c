//! The line of a plan.
ghost use Rattle.std.specs.Prelude.{◌≡◌, ◌++◌, ◌<◌, All, length, IfOk, OnOk};
ghost use Rattle.script_text.specs.PlanText.{plan_numbers, plan_nodes, all_in, plan_line};

use crate::report::{put_name, put_numbered};
use root_plan::RootPlan;
use std::alloc::Global;
use topology_stack::{Name, OutOfMemory};

/// Appends the numbers of a plan.
#[tactic(auto, unfolding(crate::specs::PlanText::plan_numbers))]
fn put_plan_numbers(out: &mut Vec<u8>, plan: &RootPlan) -> Result<(), OutOfMemory>
    ensures { OnOk result (out.new.items ≡ out.old.items ++ plan_numbers plan.now) }
{
    put_numbered(out, b" hops ", u64::from(plan.hops))?;
    put_numbered(out, b" gap ", u64::from(plan.gap))?;
    put_numbered(out, b" far ", u64::from(plan.far))
}

/// Appends the bus manager and the node that is to be root.
#[tactic(auto, unfolding(crate::specs::PlanText::plan_nodes))]
fn put_plan_nodes(
    out: &mut Vec<u8>,
    names: &[Name],
    name: &Name,
    root: u8,
) -> Result<(), OutOfMemory>
    requires { root < length names.now }
    ensures { OnOk result (out.new.items ≡ out.old.items ++ plan_nodes names.now name.now root) }
{
    out.extend_from_slice(b"plan ")?;
    out.extend_from_slice(name.as_bytes())?;
    out.extend_from_slice(b" root")?;
    put_name(out, names, root)
}

/// Appends the names of nodes in their order.
fn put_all_in(out: &mut Vec<u8>, names: &[Name], nodes: &[u8]) -> Result<(), OutOfMemory>
    requires { All (λ node. node < length names.now) nodes.now }
    ensures { OnOk result (out.new.items ≡ out.old.items ++ all_in names.now nodes.now) }
{
    for node in nodes {
        put_name(out, names, *node)?;
    }
    Ok(())
}

/// The line of a plan: `plan NAME root NAME hops H gap G far F expect NAME NAME`.
///
/// `names` has the name of each node and `name` that of the bus manager. `root` is the node that is to
/// be root, and `expected` are the nodes in the order in which they are expected to identify
/// themselves.
pub fn plan_line(
    alloc: Global,
    names: &[Name],
    name: &Name,
    root: u8,
    plan: &RootPlan,
    expected: &[u8],
) -> Result<Vec<u8>, OutOfMemory>
    requires root { root < length names.now }
    requires nodes { All (λ node. node < length names.now) expected.now }
    ensures { IfOk result (λ line. line.items
        ≡ plan_line names.now name.now root plan.now expected.now) }
{
    let mut out = Vec::new(alloc);
    put_plan_nodes(&mut out, names, name, root)?;
    put_plan_numbers(&mut out, plan)?;
    out.extend_from_slice(b" expect")?;
    put_all_in(&mut out, names, expected)?;
    out.push(b'\n')?;
    Ok(out)
}
