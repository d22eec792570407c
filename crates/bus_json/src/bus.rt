//! A bus tree.
ghost use Rattle.std.specs.Prelude.{◌≡◌, ◌<◌, ◌++◌, Some, length, slice_get, IfOk, OnOk};
ghost use Rattle.self_id.specs.Node.{Node};
ghost use Rattle.topology_stack.specs.Tree.{walk};
ghost use Rattle.json.specs.Json.{document};
ghost use Rattle.json.specs.Tree.{json_tokens, items_tokens, members_tokens};
ghost use Rattle.bus_json.specs.Text.{json_line, json_text};
ghost use Rattle.bus_json.specs.codings.Written.{attrs_tokens, name_tokens};
ghost use Rattle.bus_json.specs.Bus.{status_word, port_value, port_items, node_value, node_items, manager_value, tree_members, bus_value};

use crate::json_text::JsonText;
use self_id::{Attrs, PortStatus, SelfId};
use std::alloc::Global;
use std::str;
use topology_stack::{BusTree, Name, OutOfMemory, elect};

/// The word of a port's status.
fn status_word(status: PortStatus) -> &'static str
    ensures { result.now ≡ status_word status }
{
    match status {
        PortStatus::Absent => "absent",
        PortStatus::Unplugged => "inactive",
        PortStatus::Up => "parent",
        PortStatus::Down => "child",
    }
}

/// Writes a port: its status, and the ID of the node that it leads to, if it leads to one.
fn put_port(out: &mut JsonText, status: PortStatus, far: Option<u8>) -> Result<(), OutOfMemory>
    ensures { OnOk result (out.new ≡ out.old ++ json_tokens (port_value status far)) }
{
    out.open_object()?;
    out.string_member("status", status_word(status))?;
    if let Some(id) = far {
        out.number_member("far", u64::from(id))?;
    }
    out.close_object()
}

/// Writes the ports of the node with this ID, and ends their list.
fn put_ports(out: &mut JsonText, tree: &BusTree, id: u8) -> Result<(), OutOfMemory>
    requires { id < length (walk tree.now) }
    ensures { OnOk result ((n : Node) → slice_get (walk tree.now) id ≡ Some n →
        out.new ≡ out.old ++ items_tokens (port_items tree.now id 0 n.ports)) }
{
    let ports = tree.node(id).ports.as_slice();
    for (slot, status) in ports.iter().enumerate() {
        put_port(out, *status, tree.far(id, slot as u8))?;
    }
    out.close_list()?;
    Ok(())
}

/// Writes what a node says of itself beside its ports.
fn put_attrs(out: &mut JsonText, attrs: Attrs) -> Result<(), OutOfMemory>
    ensures { OnOk result (out.new ≡ out.old ++ attrs_tokens attrs) }
{
    out.truth_member("link", attrs.link)?;
    out.number_member("gap", u64::from(attrs.gap))?;
    out.number_member("speed", u64::from(attrs.speed))?;
    out.truth_member("contender", attrs.contender)?;
    out.number_member("power", u64::from(attrs.power))?;
    out.truth_member("initiated", attrs.initiated)?;
    Ok(())
}

/// A name as text.
pub fn name_text(name: &Name) -> &str
    ensures { result.now ≡ name.now }
{
    match str::from_utf8(name.as_bytes()) {
        Ok(text) => text,
        Err(_) => unreachable!(),
    }
}

/// Writes the name of the node with this ID, where it has one.
fn put_name(out: &mut JsonText, names: &[Name], id: u8) -> Result<(), OutOfMemory>
    ensures { OnOk result (out.new ≡ out.old ++ name_tokens (slice_get names.now id)) }
{
    if (id as usize) < names.len() {
        out.string_member("name", name_text(&names[id as usize]))?;
    }
    Ok(())
}

/// Writes the node with this ID.
fn put_node(out: &mut JsonText, tree: &BusTree, names: &[Name], id: u8) -> Result<(), OutOfMemory>
    requires { id < length (walk tree.now) }
    ensures { OnOk result ((n : Node) → slice_get (walk tree.now) id ≡ Some n →
        out.new ≡ out.old ++ json_tokens (node_value tree.now id n (slice_get names.now id))) }
{
    out.open_object()?;
    out.number_member("id", u64::from(id))?;
    put_name(out, names, id)?;
    put_attrs(out, tree.node(id).attrs)?;
    out.key("ports")?;
    out.open_list()?;
    put_ports(out, tree, id)?;
    out.close_object()?;
    Ok(())
}

/// Writes the nodes by rising ID, and ends their list.
fn put_nodes(out: &mut JsonText, tree: &BusTree, names: &[Name]) -> Result<(), OutOfMemory>
    ensures { OnOk result (out.new ≡ out.old
        ++ items_tokens (node_items tree.now names.now 0 (walk tree.now))) }
{
    for id in 0..tree.len() {
        put_node(out, tree, names, id)?;
    }
    out.close_list()?;
    Ok(())
}

/// Writes the ID of the isochronous resource manager, or `null`.
fn put_manager(out: &mut JsonText, manager: Option<u8>) -> Result<(), OutOfMemory>
    ensures { OnOk result (out.new ≡ out.old ++ json_tokens (manager_value manager)) }
{
    match manager {
        None => out.null(),
        Some(id) => out.number(u64::from(id)),
    }
}

/// Writes the members of a bus tree, and ends their object. `names` has the names of the nodes by
/// ID, or none.
pub fn put_tree(out: &mut JsonText, tree: &BusTree, names: &[Name]) -> Result<(), OutOfMemory>
    ensures { OnOk result (out.new ≡ out.old
        ++ members_tokens (tree_members names.now tree.now)) }
{
    out.key("nodes")?;
    out.open_list()?;
    put_nodes(out, tree, names)?;
    out.number_member("root", u64::from(tree.root()))?;
    out.key("manager")?;
    put_manager(out, elect(tree))?;
    out.close_object()?;
    Ok(())
}

/// The line of a bus tree: its nodes by ID, the root and the isochronous resource manager.
///
/// `{"schema":1,"nodes":[NODE,..],"root":ID,"manager":ID}`, where the manager may be `null`. A node
/// is `{"id":I,"link":L,"gap":G,"speed":S,"contender":C,"power":P,"initiated":I,"ports":[PORT,..]}`,
/// and a port `{"status":"absent"}`, `{"status":"inactive"}`, `{"status":"parent","far":ID}` or
/// `{"status":"child","far":ID}`.
pub fn bus_line(alloc: Global, tree: &BusTree) -> Result<Vec<u8>, OutOfMemory>
    ensures line { IfOk result (λ line. line.items ≡ json_line (bus_value tree.now)) }
    ensures reads_back { IfOk result (λ line. document (json_text (bus_value tree.now))
        ≡ Some (bus_value tree.now)) }
{
    let mut out = JsonText::new(alloc);
    out.open_schema()?;
    put_tree(&mut out, tree, &[])?;
    let line = out.into_line()?;
    Ok(line)
}
