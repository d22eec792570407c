//! The changes between two buses.
ghost use Rattle.std.specs.Prelude.{◌≡◌, ◌++◌, ◌∷◌, [], Some, IfOk, OnOk};
ghost use Rattle.json.specs.Token.{key};
ghost use Rattle.json.specs.Json.{document};
ghost use Rattle.json.specs.Tree.{json_tokens, items_tokens, members_tokens};
ghost use Rattle.bus_json.specs.Text.{json_line, json_text};
ghost use Rattle.bus_json.specs.Bus.{manager_value};
ghost use Rattle.diff_json.specs.Changes.{place_value, quality_name, quality_value, change_value, change_items, changes_members, changes_value};
ghost use Rattle.diff_json.specs.Written.{pair_tokens};

use bus_diff::{Change, Pair, Quality};
use bus_json::JsonText;
use std::alloc::Global;
use topology_stack::OutOfMemory;
use view_text::Cable;

/// Writes where a node hangs, or `null`.
fn put_place(out: &mut JsonText, cable: Option<Cable>) -> Result<(), OutOfMemory>
    ensures { OnOk result (out.new ≡ out.old ++ json_tokens (place_value cable)) }
{
    match cable {
        None => out.null(),
        Some(cable) => {
            out.open_object()?;
            out.number_member("parent", u64::from(cable.parent))?;
            out.number_member("port", u64::from(cable.port))?;
            out.number_member("on", u64::from(cable.child_port))?;
            out.close_object()
        }
    }
}

/// Writes the member of this name that is where a node hangs.
fn put_place_member(out: &mut JsonText, name: &str, cable: Option<Cable>) -> Result<(), OutOfMemory>
    ensures { OnOk result (out.new
        ≡ out.old ++ key name.now ∷ json_tokens (place_value cable)) }
{
    out.key(name)?;
    put_place(out, cable)
}

/// Writes the IDs of a node that is in both buses.
fn put_pair(out: &mut JsonText, pair: Pair) -> Result<(), OutOfMemory>
    ensures { OnOk result (out.new ≡ out.old ++ pair_tokens pair) }
{
    out.number_member("old", u64::from(pair.old))?;
    out.number_member("new", u64::from(pair.new))
}

/// The name of what a node says of itself.
fn quality_name(quality: Quality) -> &'static str
    ensures { result.now ≡ quality_name quality }
{
    match quality {
        Quality::Link => "link",
        Quality::Gap => "gap",
        Quality::Speed => "speed",
        Quality::Contender => "contender",
        Quality::Power => "power",
    }
}

/// Writes what a node says of itself.
fn put_quality(out: &mut JsonText, quality: Quality, value: u8) -> Result<(), OutOfMemory>
    ensures { OnOk result (out.new ≡ out.old ++ json_tokens (quality_value quality value)) }
{
    match quality {
        Quality::Link | Quality::Contender => out.truth(value == 1),
        Quality::Gap | Quality::Speed | Quality::Power => out.number(u64::from(value)),
    }
}

/// Writes the member of this name that is what a node says of itself.
fn put_quality_member(
    out: &mut JsonText,
    name: &str,
    quality: Quality,
    value: u8,
) -> Result<(), OutOfMemory>
    ensures { OnOk result (out.new
        ≡ out.old ++ key name.now ∷ json_tokens (quality_value quality value)) }
{
    out.key(name)?;
    put_quality(out, quality, value)
}

/// Writes the member of this name that is the ID of an isochronous resource manager, or `null`.
fn put_manager_member(
    out: &mut JsonText,
    name: &str,
    manager: Option<u8>,
) -> Result<(), OutOfMemory>
    ensures { OnOk result (out.new
        ≡ out.old ++ key name.now ∷ json_tokens (manager_value manager)) }
{
    out.key(name)?;
    match manager {
        None => out.null(),
        Some(id) => out.number(u64::from(id)),
    }
}

/// Writes that a node went.
fn put_went(out: &mut JsonText, id: u8, cable: Option<Cable>) -> Result<(), OutOfMemory>
    ensures { OnOk result (out.new ≡ out.old ++ json_tokens (change_value (Change.Went id cable))) }
{
    out.open_object()?;
    out.string_member("change", "went")?;
    out.number_member("old", u64::from(id))?;
    put_place_member(out, "from", cable)?;
    out.close_object()?;
    Ok(())
}

/// Writes that a node came.
fn put_came(out: &mut JsonText, id: u8, cable: Option<Cable>) -> Result<(), OutOfMemory>
    ensures { OnOk result (out.new ≡ out.old ++ json_tokens (change_value (Change.Came id cable))) }
{
    out.open_object()?;
    out.string_member("change", "came")?;
    out.number_member("new", u64::from(id))?;
    put_place_member(out, "to", cable)?;
    out.close_object()?;
    Ok(())
}

/// Writes that a node hangs elsewhere.
fn put_moved(
    out: &mut JsonText,
    pair: Pair,
    from: Option<Cable>,
    to: Option<Cable>,
) -> Result<(), OutOfMemory>
    ensures { OnOk result (out.new
        ≡ out.old ++ json_tokens (change_value (Change.Moved pair from to))) }
{
    out.open_object()?;
    out.string_member("change", "moved")?;
    put_pair(out, pair)?;
    put_place_member(out, "from", from)?;
    put_place_member(out, "to", to)?;
    out.close_object()?;
    Ok(())
}

/// Writes that a node says something else of itself.
fn put_value(
    out: &mut JsonText,
    pair: Pair,
    quality: Quality,
    from: u8,
    to: u8,
) -> Result<(), OutOfMemory>
    ensures { OnOk result (out.new
        ≡ out.old ++ json_tokens (change_value (Change.Value pair quality from to))) }
{
    out.open_object()?;
    out.string_member("change", quality_name(quality))?;
    put_pair(out, pair)?;
    put_quality_member(out, "from", quality, from)?;
    put_quality_member(out, "to", quality, to)?;
    out.close_object()?;
    Ok(())
}

/// Writes that another node is the root.
fn put_root(out: &mut JsonText, from: u8, to: u8) -> Result<(), OutOfMemory>
    ensures { OnOk result (out.new ≡ out.old ++ json_tokens (change_value (Change.Root from to))) }
{
    out.open_object()?;
    out.string_member("change", "root")?;
    out.number_member("old", u64::from(from))?;
    out.number_member("new", u64::from(to))?;
    out.close_object()?;
    Ok(())
}

/// Writes that another node is the isochronous resource manager.
fn put_manager(out: &mut JsonText, from: Option<u8>, to: Option<u8>) -> Result<(), OutOfMemory>
    ensures { OnOk result (out.new
        ≡ out.old ++ json_tokens (change_value (Change.Manager from to))) }
{
    out.open_object()?;
    out.string_member("change", "manager")?;
    put_manager_member(out, "old", from)?;
    put_manager_member(out, "new", to)?;
    out.close_object()?;
    Ok(())
}

/// Writes a change.
fn put_change(out: &mut JsonText, change: Change) -> Result<(), OutOfMemory>
    ensures { OnOk result (out.new ≡ out.old ++ json_tokens (change_value change)) }
{
    match change {
        Change::Went { id, cable } => put_went(out, id, cable),
        Change::Came { id, cable } => put_came(out, id, cable),
        Change::Moved { pair, from, to } => put_moved(out, pair, from, to),
        Change::Value {
            pair,
            quality,
            from,
            to,
        } => put_value(out, pair, quality, from, to),
        Change::Root { from, to } => put_root(out, from, to),
        Change::Manager { from, to } => put_manager(out, from, to),
    }
}

/// Writes the changes in their order, and ends their list.
fn put_items(out: &mut JsonText, changes: &[Change]) -> Result<(), OutOfMemory>
    ensures { OnOk result (out.new ≡ out.old ++ items_tokens (change_items changes.now)) }
{
    for change in changes {
        put_change(out, *change)?;
    }
    out.close_list()
}

/// Writes the member `changes` of an object, the list of what differs between two buses, and ends the object.
pub fn put_changes(out: &mut JsonText, changes: &[Change]) -> Result<(), OutOfMemory>
    ensures { OnOk result (out.new ≡ out.old ++ members_tokens (changes_members changes.now)) }
{
    out.key("changes")?;
    out.open_list()?;
    put_items(out, changes)?;
    out.close_object()
}

/// The line of what differs between two buses: `{"schema":1,"changes":[CHANGE,..]}`, in the order of the changes, and
/// with an empty list where there is none.
///
/// A change is one of
/// `{"change":"went","old":ID,"from":PLACE}`, `{"change":"came","new":ID,"to":PLACE}`,
/// `{"change":"moved","old":ID,"new":ID,"from":PLACE,"to":PLACE}`,
/// `{"change":"link","old":ID,"new":ID,"from":V,"to":V}`, and so with `gap`, `speed`, `contender` and `power`,
/// `{"change":"root","old":ID,"new":ID}` and `{"change":"manager","old":ID,"new":ID}`, where a manager may be `null`.
/// A place is `{"parent":ID,"port":P,"on":P}`, or `null` for the root.
pub fn changes_line(alloc: Global, changes: &[Change]) -> Result<Vec<u8>, OutOfMemory>
    ensures line { IfOk result (λ line. line.items ≡ json_line (changes_value changes.now)) }
    ensures reads_back { IfOk result (λ line. document (json_text (changes_value changes.now))
        ≡ Some (changes_value changes.now)) }
{
    let mut out = JsonText::new(alloc);
    out.open_schema()?;
    put_changes(&mut out, changes)?;
    let line = out.into_line()?;
    Ok(line)
}
