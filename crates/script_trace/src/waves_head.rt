//! What stands in a dump before the first change.
ghost use Rattle.std.specs.Prelude.{◌≡◌, ◌≤◌, ◌<◌, [], ◌∷◌, ◌++◌, length, IfOk, OnOk};
ghost use Rattle.script_trace.specs.waves.Value.{node_code, port_code};
ghost use Rattle.script_trace.specs.waves.Head.{all_port_values, all_port_variables, all_scopes, all_values, head, level_variables, missed_variable, node_scope, node_values, node_variables, opening, own_values, picoseconds, port_values, port_variable, port_variables, role_variables, unit, variable};

use crate::legend::Legend;
use crate::waves_listener::Waves;
use crate::waves_node::put_state_lines;
use crate::waves_port::{put_role_lines, put_sent_value, put_shown_lines};
use crate::waves_value::{put_node_code, put_node_line, put_port_code, put_port_line};
use cable_world::WorldRun;
use port_state::{Level, Phase, PortViews};
use script_text::{Name, OutOfMemory, put_name, put_numbered};
use std::alloc::Global;

/// Appends the variable of a node.
#[tactic(auto, unfolding(crate::specs::waves::Head::variable))]
fn put_variable(
    out: &mut Vec<u8>,
    node: u8,
    kind: &[u8],
    letter: u8,
    name: &[u8],
) -> Result<(), OutOfMemory>
    requires { node ≤ 62 }
    ensures { OnOk result (out.new.items
        ≡ out.old.items ++ variable kind.now (node_code node (letter ∷ [])) name.now) }
{
    out.extend_from_slice(b"$var ")?;
    out.extend_from_slice(kind)?;
    out.push(b' ')?;
    put_node_code(out, node, letter)?;
    out.push(b' ')?;
    out.extend_from_slice(name)?;
    out.extend_from_slice(b" $end\n")?;
    Ok(())
}

/// Appends a variable of a port.
#[tactic(auto, unfolding(crate::specs::waves::Head::variable))]
fn put_port_variable(
    out: &mut Vec<u8>,
    node: u8,
    port: u8,
    kind: &[u8],
    letter: u8,
    word: &[u8],
) -> Result<(), OutOfMemory>
    requires node { node ≤ 62 }
    requires port { port ≤ 15 }
    ensures { OnOk result (out.new.items
        ≡ out.old.items ++ port_variable node port kind.now (letter ∷ []) word.now) }
{
    out.extend_from_slice(b"$var ")?;
    out.extend_from_slice(kind)?;
    out.push(b' ')?;
    put_port_code(out, node, port, letter)?;
    out.push(b' ')?;
    put_numbered(out, b"p", u64::from(port))?;
    out.extend_from_slice(word)?;
    out.extend_from_slice(b" $end\n")?;
    Ok(())
}

/// Appends the variables of a port's role.
#[tactic(auto, unfolding(crate::specs::waves::Head::role_variables))]
fn put_role_variables(out: &mut Vec<u8>, node: u8, port: u8) -> Result<(), OutOfMemory>
    requires node { node ≤ 62 }
    requires port { port ≤ 15 }
    ensures { OnOk result (out.new.items ≡ out.old.items ++ role_variables node port) }
{
    put_port_variable(out, node, port, b"string 1", b'r', b"_role")?;
    put_port_variable(out, node, port, b"reg 2", b'a', b"_role_code")
}

/// Appends the variables of a port's levels.
#[tactic(auto, unfolding(crate::specs::waves::Head::level_variables))]
fn put_level_variables(out: &mut Vec<u8>, node: u8, port: u8) -> Result<(), OutOfMemory>
    requires node { node ≤ 62 }
    requires port { port ≤ 15 }
    ensures { OnOk result (out.new.items ≡ out.old.items ++ level_variables node port) }
{
    put_port_variable(out, node, port, b"string 1", b'h', b"_shows")?;
    put_port_variable(out, node, port, b"reg 2", b'b', b"_shows_code")?;
    put_port_variable(out, node, port, b"string 1", b's', b"_sends")?;
    put_port_variable(out, node, port, b"reg 3", b'c', b"_sends_code")
}

/// Appends the variables of a port.
#[tactic(auto, unfolding(crate::specs::waves::Head::port_variables))]
fn put_port_variables(out: &mut Vec<u8>, node: u8, port: u8) -> Result<(), OutOfMemory>
    requires node { node ≤ 62 }
    requires port { port ≤ 15 }
    ensures { OnOk result (out.new.items ≡ out.old.items ++ port_variables node port) }
{
    put_role_variables(out, node, port)?;
    put_level_variables(out, node, port)?;
    put_port_variable(out, node, port, b"event 1", b'g', b"_grant")?;
    put_port_variable(out, node, port, b"reg 32", b'p', b"_packet")?;
    put_port_variable(out, node, port, b"event 1", b'd', b"_done")
}

/// Appends the first values of a port.
#[tactic(auto, unfolding(crate::specs::waves::Head::port_values))]
fn put_port_values(out: &mut Vec<u8>, node: u8, port: u8) -> Result<(), OutOfMemory>
    requires node { node ≤ 62 }
    requires port { port ≤ 15 }
    ensures { OnOk result (out.new.items ≡ out.old.items ++ port_values node port) }
{
    put_role_lines(out, node, port, 0)?;
    put_shown_lines(out, node, port, Level::Idle)?;
    put_sent_value(out, node, port, b"s- ", 4)?;
    put_port_line(out, node, port, b'p', b"bx ")
}

/// Appends the variables of so many ports, at most 16.
fn put_all_port_variables(out: &mut Vec<u8>, node: u8, ports: &PortViews) -> Result<(), OutOfMemory>
    requires { node ≤ 62 }
    ensures { OnOk result (out.new.items
        ≡ out.old.items ++ all_port_variables node 0 ports.now) }
{
    for port in 0..ports.len() {
        put_port_variables(out, node, port as u8)?;
    }
    Ok(())
}

/// Appends the first values of so many ports, at most 16.
fn put_all_port_values(out: &mut Vec<u8>, node: u8, ports: &PortViews) -> Result<(), OutOfMemory>
    requires { node ≤ 62 }
    ensures { OnOk result (out.new.items ≡ out.old.items ++ all_port_values node 0 ports.now) }
{
    for port in 0..ports.len() {
        put_port_values(out, node, port as u8)?;
    }
    Ok(())
}

/// Appends the variables of a node.
#[tactic(auto, unfolding(crate::specs::waves::Head::node_variables))]
fn put_node_variables(out: &mut Vec<u8>, node: u8) -> Result<(), OutOfMemory>
    requires { node ≤ 62 }
    ensures { OnOk result (out.new.items ≡ out.old.items ++ node_variables node) }
{
    put_variable(out, node, b"string 1", b's', b"state")?;
    put_variable(out, node, b"reg 3", b'c', b"state_code")?;
    put_variable(out, node, b"reg 6", b'i', b"phy_ID")?;
    put_variable(out, node, b"reg 1", b't', b"timeout")?;
    put_variable(out, node, b"reg 1", b'r', b"root")
}

/// Appends the variable of the turns that a node's clock misses, if the clock isn't even.
fn put_missed_variable(out: &mut Vec<u8>, node: u8, steady: bool) -> Result<(), OutOfMemory>
    requires { node ≤ 62 }
    ensures { OnOk result (out.new.items ≡ out.old.items ++ missed_variable node steady) }
{
    if steady {
        return Ok(());
    }
    put_variable(out, node, b"event 1", b'm', b"missed")
}

/// Appends the module of a node, whose clock is even or isn't.
fn put_scope(
    out: &mut Vec<u8>,
    names: &[Name],
    node: u8,
    steady: bool,
    ports: &PortViews,
) -> Result<(), OutOfMemory>
    requires node { node ≤ 62 }
    requires named { node < length names.now }
    ensures { OnOk result (out.new.items
        ≡ out.old.items ++ node_scope names.now node steady ports.now) }
{
    out.extend_from_slice(b"$scope module")?;
    put_name(out, names, node)?;
    out.extend_from_slice(b" $end\n")?;
    put_node_variables(out, node)?;
    put_missed_variable(out, node, steady)?;
    put_all_port_variables(out, node, ports)?;
    out.extend_from_slice(b"$upscope $end\n")?;
    Ok(())
}

/// Appends the first values of a node's own variables.
fn put_own_values(out: &mut Vec<u8>, node: u8) -> Result<(), OutOfMemory>
    requires { node ≤ 62 }
    ensures { OnOk result (out.new.items ≡ out.old.items ++ own_values node) }
{
    put_state_lines(out, node, Phase::ResetStart)?;
    put_node_line(out, node, b'i', b"bx ")?;
    put_node_line(out, node, b't', b"b0 ")?;
    put_node_line(out, node, b'r', b"b0 ")
}

/// Appends the first values of a node.
fn put_values(out: &mut Vec<u8>, node: u8, ports: &PortViews) -> Result<(), OutOfMemory>
    requires { node ≤ 62 }
    ensures { OnOk result (out.new.items ≡ out.old.items ++ node_values node ports.now) }
{
    put_own_values(out, node)?;
    put_all_port_values(out, node, ports)
}

/// Appends the modules of all nodes.
fn put_scopes<W: WorldRun>(out: &mut Vec<u8>, names: &[Name], world: &W) -> Result<(), OutOfMemory>
    requires few { length names.now ≤ 63 }
    requires nodes { length names.now ≡ length (W.world world.now).nodes }
    ensures { OnOk result (out.new.items
        ≡ out.old.items ++ all_scopes names.now 0 (W.world world.now).nodes) }
{
    for node in 0..names.len() {
        let view = world.view(node as u8);
        let steady = world.is_even(node as u8);
        put_scope(out, names, node as u8, steady, &view.ports)?;
    }
    Ok(())
}

/// Appends the first values of all nodes, of which there are so many.
fn put_all_values<W: WorldRun>(
    out: &mut Vec<u8>,
    nodes: usize,
    world: &W,
) -> Result<(), OutOfMemory>
    requires few { nodes ≤ 63 }
    requires nodes { nodes ≡ length (W.world world.now).nodes }
    ensures { OnOk result (out.new.items
        ≡ out.old.items ++ all_values 0 (W.world world.now).nodes) }
{
    for node in 0..nodes {
        let view = world.view(node as u8);
        put_values(out, node as u8, &view.ports)?;
    }
    Ok(())
}

/// Appends that one unit of time is a picosecond, where `d` turns are so many nanoseconds.
fn put_picoseconds(out: &mut Vec<u8>, nanoseconds: u16, d: u8) -> Result<(), OutOfMemory>
    ensures { OnOk result (out.new.items ≡ out.old.items ++ picoseconds nanoseconds d) }
{
    let unit = b"$comment One unit of time is one picosecond, and ";
    put_numbered(out, unit, u64::from(d))?;
    put_numbered(out, b" turns are ", u64::from(nanoseconds))?;
    out.extend_from_slice(b" ns. $end\n$timescale 1 ps $end\n")?;
    Ok(())
}

/// Appends what one unit of time is.
fn put_unit(out: &mut Vec<u8>, nanoseconds: Option<u16>, d: u8) -> Result<(), OutOfMemory>
    ensures { OnOk result (out.new.items ≡ out.old.items ++ unit nanoseconds d) }
{
    match nanoseconds {
        None => out.extend_from_slice(
            b"$comment One unit of time is one turn, which is no time of the standard. $end\n\
            $timescale 1 ns $end\n",
        ),
        Some(nanoseconds) => put_picoseconds(out, nanoseconds, d),
    }
}

/// Appends what stands before the variables.
fn put_opening(out: &mut Vec<u8>, nanoseconds: Option<u16>, d: u8) -> Result<(), OutOfMemory>
    ensures { OnOk result (out.new.items ≡ out.old.items ++ opening nanoseconds d) }
{
    out.extend_from_slice(b"$comment busview waves $end\n")?;
    put_unit(out, nanoseconds, d)?;
    Ok(())
}

/// Appends what stands before the first change.
fn put_head<W: WorldRun>(out: &mut Vec<u8>, legend: &Legend, world: &W) -> Result<(), OutOfMemory>
    requires few { length legend.now.names ≤ 63 }
    requires nodes { length legend.now.names ≡ length (W.world world.now).nodes }
    ensures { OnOk result (out.new.items
        ≡ out.old.items ++ head legend.now (W.world world.now)) }
{
    put_opening(out, legend.nanoseconds, world.delay())?;
    put_scopes(out, legend.names, world)?;
    out.extend_from_slice(b"$enddefinitions $end\n#0\n$dumpvars\n")?;
    put_all_values(out, legend.names.len(), world)?;
    out.extend_from_slice(b"$end\n")?;
    Ok(())
}

impl Waves {
    /// The dump: the variables of the nodes, whose names are in the legend, 63 at most, their first
    /// values, and the changes.
    pub fn dump<W: WorldRun>(
        self,
        alloc: Global,
        legend: &Legend,
        world: &W,
    ) -> Result<Vec<u8>, OutOfMemory>
        requires few { length legend.now.names ≤ 63 }
        requires nodes { length legend.now.names ≡ length (W.world world.now).nodes }
        ensures { IfOk result (λ dump. dump.items ≡ head legend.now (W.world world.now) ++ self) }
    {
        let mut out = Vec::new(alloc);
        put_head(&mut out, legend, world)?;
        out.extend_from_slice(self.text.as_slice())?;
        Ok(out)
    }
}
