//! What comes to be another value of a node's own variables in a dump.
ghost use Rattle.std.specs.Prelude.{◌≡◌, ◌≤◌, ◌<◌, ◌++◌, OnOk};
ghost use Rattle.script_trace.specs.waves.Value.{flag, id_number, is_root, state_lines, state_value};
ghost use Rattle.script_trace.specs.waves.Change.{id_change, miss_change, root_change, state_change, timeout_change};

use crate::node::state_number;
use crate::waves_value::{put_node_line, put_node_number};
use port_state::{Phase, View};
use script_text::OutOfMemory;

/// The value of a state.
fn state_value(phase: Phase) -> &'static [u8]
    ensures { result.now ≡ state_value phase }
{
    match phase {
        Phase::ResetStart => b"sR0 ",
        Phase::ResetWait => b"sR1 ",
        Phase::TreeStart => b"sT0 ",
        Phase::ChildShake => b"sT1 ",
        Phase::ParentShake => b"sT2 ",
        Phase::Contend => b"sT3 ",
        Phase::SelfIdent => b"sS0 ",
        Phase::Ready => b"sA0 ",
    }
}

/// 1 or 0.
pub(crate) fn flag(is: bool) -> u8
    ensures value { result ≡ flag is }
    ensures few { result ≤ 1 }
{
    if is { 1 } else { 0 }
}

/// Another number for each ID.
fn id_number(id: Option<u8>) -> u16
    ensures { result ≡ id_number id }
{
    match id {
        None => 0,
        Some(id) => u16::from(id) + 1,
    }
}

/// Whether a node is root.
fn is_root(view: &View) -> bool
    ensures { result ≡ is_root view.now }
{
    view.parent.is_none() && state_number(view.phase) >= 6
}

/// Appends a state and its number.
#[tactic(auto, unfolding(crate::specs::waves::Value::state_lines))]
pub(crate) fn put_state_lines(out: &mut Vec<u8>, node: u8, phase: Phase) -> Result<(), OutOfMemory>
    requires { node ≤ 62 }
    ensures { OnOk result (out.new.items ≡ out.old.items ++ state_lines node phase) }
{
    put_node_line(out, node, b's', state_value(phase))?;
    put_node_number(out, node, b'c', 3, u32::from(state_number(phase)))
}

/// Appends that the clock missed the turn, if it did.
pub(crate) fn put_miss(out: &mut Vec<u8>, node: u8, missed: bool) -> Result<(), OutOfMemory>
    requires { node ≤ 62 }
    ensures { OnOk result (out.new.items ≡ out.old.items ++ miss_change node missed) }
{
    if missed {
        put_node_line(out, node, b'm', b"1")?;
    }
    Ok(())
}

/// Appends the state, if it is another.
pub(crate) fn put_state(
    out: &mut Vec<u8>,
    node: u8,
    before: &View,
    after: &View,
) -> Result<(), OutOfMemory>
    requires { node ≤ 62 }
    ensures { OnOk result (out.new.items
        ≡ out.old.items ++ state_change node before.now after.now) }
{
    if state_number(before.phase) != state_number(after.phase) {
        put_state_lines(out, node, after.phase)?;
    }
    Ok(())
}

/// Appends the ID, if it is another.
pub(crate) fn put_id(
    out: &mut Vec<u8>,
    node: u8,
    before: &View,
    after: &View,
) -> Result<(), OutOfMemory>
    requires { node ≤ 62 }
    ensures { OnOk result (out.new.items ≡ out.old.items ++ id_change node before.now after.now) }
{
    if id_number(before.id) == id_number(after.id) {
        return Ok(());
    }
    match after.id {
        None => put_node_line(out, node, b'i', b"bx "),
        Some(id) => put_node_number(out, node, b'i', 6, u32::from(id)),
    }
}

/// Appends whether the configuration timed out, if that is other.
pub(crate) fn put_timeout(
    out: &mut Vec<u8>,
    node: u8,
    before: &View,
    after: &View,
) -> Result<(), OutOfMemory>
    requires { node ≤ 62 }
    ensures { OnOk result (out.new.items
        ≡ out.old.items ++ timeout_change node before.now after.now) }
{
    let timed_out = flag(after.timed_out);
    if flag(before.timed_out) != timed_out {
        put_node_number(out, node, b't', 1, u32::from(timed_out))?;
    }
    Ok(())
}

/// Appends whether the node is root, if that is other.
pub(crate) fn put_root(
    out: &mut Vec<u8>,
    node: u8,
    before: &View,
    after: &View,
) -> Result<(), OutOfMemory>
    requires { node ≤ 62 }
    ensures { OnOk result (out.new.items
        ≡ out.old.items ++ root_change node before.now after.now) }
{
    let root = flag(is_root(after));
    if flag(is_root(before)) != root {
        put_node_number(out, node, b'r', 1, u32::from(root))?;
    }
    Ok(())
}
