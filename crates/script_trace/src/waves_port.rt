//! What comes to be another value of a port's variables in a dump.
ghost use Rattle.std.specs.Prelude.{◌≡◌, ◌≤◌, ◌++◌, slice_index_or, OnOk};
ghost use Rattle.port_state.specs.Ports.{is_port};
ghost use Rattle.script_trace.specs.waves.Value.{level_number, level_value, role, role_lines, role_value, sent_value, shown_lines};
ghost use Rattle.script_trace.specs.waves.Change.{gone_change, port_at, role_change, sent_change, shown_change, signal_line};

use crate::waves_node::flag;
use crate::waves_value::{put_port_line, put_port_number};
use cable_world::Travelling;
use port_state::{Level, PortView, Signal, View};
use script_text::OutOfMemory;

/// What a node shows of a port.
pub(crate) fn port_at(view: &View, port: u8) -> PortView
    ensures { result ≡ port_at view.now port }
{
    let at = usize::from(port);
    if at < view.ports.len() {
        view.ports.get(at)
    } else {
        PortView {
            connected: false,
            shown: Level::Idle,
            child: false,
            asked: false,
            named: false,
        }
    }
}

/// Whether a port is that of the parent.
fn is_parent(parent: Option<u8>, port: u8) -> bool
    ensures { result ≡ is_port parent port }
{
    match parent {
        None => false,
        Some(parent) => parent == port,
    }
}

/// Whether a port leads to the parent, 2, to a child, 1, or to neither, 0.
fn role(parent: Option<u8>, port: u8, view: PortView) -> u8
    ensures { result ≡ role parent port view }
{
    if is_parent(parent, port) {
        2
    } else {
        flag(view.child)
    }
}

/// The value of a role.
fn role_value(role: u8) -> &'static [u8]
    ensures { result.now ≡ role_value role }
{
    if role == 2 {
        b"sparent "
    } else if role == 1 {
        b"schild "
    } else {
        b"s- "
    }
}

/// Another number for each level.
fn level_number(level: Level) -> u8
    ensures { result ≡ level_number level }
{
    match level {
        Level::Reset => 0,
        Level::Idle => 1,
        Level::Parent => 2,
        Level::Child => 3,
    }
}

/// The value of a level that is shown.
fn level_value(level: Level) -> &'static [u8]
    ensures { result.now ≡ level_value level }
{
    match level {
        Level::Reset => b"sBUS_RESET ",
        Level::Idle => b"sIDLE ",
        Level::Parent => b"sRX_PARENT_NOTIFY ",
        Level::Child => b"sRX_CHILD_NOTIFY ",
    }
}

/// Appends a role and its number.
#[tactic(auto, unfolding(crate::specs::waves::Value::role_lines))]
pub(crate) fn put_role_lines(
    out: &mut Vec<u8>,
    node: u8,
    port: u8,
    role: u8,
) -> Result<(), OutOfMemory>
    requires node { node ≤ 62 }
    requires port { port ≤ 15 }
    ensures { OnOk result (out.new.items ≡ out.old.items ++ role_lines node port role) }
{
    put_port_line(out, node, port, b'r', role_value(role))?;
    put_port_number(out, node, port, b'a', 2, u32::from(role))
}

/// Appends a level that is shown, and its number.
#[tactic(auto, unfolding(crate::specs::waves::Value::shown_lines))]
pub(crate) fn put_shown_lines(
    out: &mut Vec<u8>,
    node: u8,
    port: u8,
    level: Level,
) -> Result<(), OutOfMemory>
    requires node { node ≤ 62 }
    requires port { port ≤ 15 }
    ensures { OnOk result (out.new.items ≡ out.old.items ++ shown_lines node port level) }
{
    put_port_line(out, node, port, b'h', level_value(level))?;
    put_port_number(out, node, port, b'b', 2, u32::from(level_number(level)))
}

/// Appends what is sent, and its number, 4 where there is no cable.
#[tactic(auto, unfolding(crate::specs::waves::Value::sent_value))]
pub(crate) fn put_sent_value(
    out: &mut Vec<u8>,
    node: u8,
    port: u8,
    value: &[u8],
    code: u8,
) -> Result<(), OutOfMemory>
    requires node { node ≤ 62 }
    requires port { port ≤ 15 }
    ensures { OnOk result (out.new.items
        ≡ out.old.items ++ sent_value node port value.now code) }
{
    put_port_line(out, node, port, b's', value)?;
    put_port_number(out, node, port, b'c', 3, u32::from(code))
}

/// Appends the role of a port, if it is another.
pub(crate) fn put_role(
    out: &mut Vec<u8>,
    node: u8,
    before: &View,
    after: &View,
    port: u8,
    view: PortView,
) -> Result<(), OutOfMemory>
    requires node { node ≤ 62 }
    requires port { port ≤ 15 }
    ensures { OnOk result (out.new.items
        ≡ out.old.items ++ role_change node before.now after.now port view) }
{
    let now = role(after.parent, port, view);
    if role(before.parent, port, port_at(before, port)) != now {
        put_role_lines(out, node, port, now)?;
    }
    Ok(())
}

/// Appends the level that a port shows, if it is another.
pub(crate) fn put_shown(
    out: &mut Vec<u8>,
    node: u8,
    before: &View,
    port: u8,
    view: PortView,
) -> Result<(), OutOfMemory>
    requires node { node ≤ 62 }
    requires port { port ≤ 15 }
    ensures { OnOk result (out.new.items
        ≡ out.old.items ++ shown_change node before.now port view) }
{
    if level_number(port_at(before, port).shown) != level_number(view.shown) {
        put_shown_lines(out, node, port, view.shown)?;
    }
    Ok(())
}

/// Appends that nothing is sent, where a cable is gone.
pub(crate) fn put_gone(
    out: &mut Vec<u8>,
    node: u8,
    before: &View,
    port: u8,
    view: PortView,
) -> Result<(), OutOfMemory>
    requires node { node ≤ 62 }
    requires port { port ≤ 15 }
    ensures { OnOk result (out.new.items
        ≡ out.old.items ++ gone_change node before.now port view) }
{
    if port_at(before, port).connected && !view.connected {
        put_sent_value(out, node, port, b"s- ", 4)?;
    }
    Ok(())
}

/// Appends a signal that was sent.
fn put_signal(out: &mut Vec<u8>, node: u8, port: u8, signal: Signal) -> Result<(), OutOfMemory>
    requires node { node ≤ 62 }
    requires port { port ≤ 15 }
    ensures { OnOk result (out.new.items ≡ out.old.items ++ signal_line node port signal) }
{
    match signal {
        Signal::Reset => put_sent_value(out, node, port, b"sBUS_RESET ", 0),
        Signal::Idle => put_sent_value(out, node, port, b"sIDLE ", 1),
        Signal::Parent => put_sent_value(out, node, port, b"sTX_PARENT_NOTIFY ", 2),
        Signal::Child => put_sent_value(out, node, port, b"sTX_CHILD_NOTIFY ", 3),
        Signal::Grant => put_port_line(out, node, port, b'g', b"1"),
        Signal::Packet(quad) => put_port_number(out, node, port, b'p', 32, quad),
        Signal::Done => put_port_line(out, node, port, b'd', b"1"),
    }
}

/// Appends a signal, if it was sent just now.
pub(crate) fn put_sent_one(
    out: &mut Vec<u8>,
    node: u8,
    port: u8,
    travelling: Travelling,
) -> Result<(), OutOfMemory>
    requires node { node ≤ 62 }
    requires port { port ≤ 15 }
    ensures { OnOk result (out.new.items ≡ out.old.items ++ sent_change node port travelling) }
{
    if travelling.age == 0 {
        put_signal(out, node, port, travelling.signal)?;
    }
    Ok(())
}

/// How many signals were there before on the wire of a port.
pub(crate) fn there_at(there: &[usize], port: u8) -> usize
    ensures { result ≡ slice_index_or there.now port 0 }
{
    match there.get(port as usize) {
        None => 0,
        Some(count) => *count,
    }
}
