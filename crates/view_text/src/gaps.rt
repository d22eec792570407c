//! Whether the gap counts of a bus agree.
ghost use Rattle.std.specs.Prelude.{◌≡◌, ◌<◌, ◌++◌, length, slice_get, Some, OnOk};
ghost use Rattle.self_id.specs.Node.{Node};
ghost use Rattle.topology_stack.specs.Tree.{walk};
ghost use Rattle.view_text.specs.Drawing.{all_have, other, others, more_words, less_words, beside_table, past_table, gap_verdict, agree_line, differ_line, gap_line};

use crate::words::put_field;
use bus_manager::gap_for;
use topology_stack::{BusTree, OutOfMemory};

/// The gap count of the node with this ID.
pub(crate) fn gap_at(tree: &BusTree, id: u8) -> u8
    requires { id < length (walk tree.now) }
    ensures { (n : Node) → slice_get (walk tree.now) id ≡ Some n → result ≡ n.attrs.gap }
{
    tree.node(id).attrs.gap
}

/// Whether all nodes have this gap count.
fn all_have(tree: &BusTree, gap: u8) -> bool
    ensures { result ≡ all_have gap (walk tree.now) }
{
    for id in 0..tree.len() {
        if gap_at(tree, id) != gap {
            return false;
        }
    }
    true
}

/// Appends the gap count of a node and its ID, where it is another one.
#[tactic(auto, unfolding(crate::specs::Drawing::other))]
fn put_other(out: &mut Vec<u8>, gap: u8, id: u8, found: u8) -> Result<(), OutOfMemory>
    ensures { OnOk result (out.new.items ≡ out.old.items ++ other gap id found) }
{
    if found != gap {
        put_field(out, b", ", u64::from(found))?;
        put_field(out, b" at node ", u64::from(id))?;
    }
    Ok(())
}

/// Appends the nodes with another gap count.
fn put_others(out: &mut Vec<u8>, tree: &BusTree, gap: u8) -> Result<(), OutOfMemory>
    ensures { OnOk result (out.new.items ≡ out.old.items ++ others gap 0 (walk tree.now)) }
{
    for id in 0..tree.len() {
        put_other(out, gap, id, gap_at(tree, id))?;
    }
    Ok(())
}

/// Appends that a gap count is more than the table's.
fn put_more_words(out: &mut Vec<u8>, table: u8) -> Result<(), OutOfMemory>
    ensures { OnOk result (out.new.items ≡ out.old.items ++ more_words table) }
{
    put_field(out, b", more than the table's ", u64::from(table))?;
    out.extend_from_slice(b": safe, only slower\n")?;
    Ok(())
}

/// Appends that a gap count is less than the table's.
fn put_less_words(out: &mut Vec<u8>, table: u8) -> Result<(), OutOfMemory>
    ensures { OnOk result (out.new.items ≡ out.old.items ++ less_words table) }
{
    put_field(out, b", less than the table's ", u64::from(table))?;
    out.extend_from_slice(b": too small\n")?;
    Ok(())
}

/// Appends how a gap count stands beside the table's.
fn put_beside_table(out: &mut Vec<u8>, gap: u8, table: u8) -> Result<(), OutOfMemory>
    ensures { OnOk result (out.new.items ≡ out.old.items ++ beside_table gap table) }
{
    if gap == table {
        out.extend_from_slice(b", as by the table\n")
    } else if table < gap {
        put_more_words(out, table)
    } else {
        put_less_words(out, table)
    }
}

/// Appends what is said of a gap count where the bus has more hops than the table.
fn put_past_table(out: &mut Vec<u8>, gap: u8) -> Result<(), OutOfMemory>
    ensures { OnOk result (out.new.items ≡ out.old.items ++ past_table gap) }
{
    if gap == 63 {
        out.extend_from_slice(b", the greatest there is\n")
    } else if gap < 40 {
        out.extend_from_slice(b", less than the table's 40 for 15 hops: too small\n")
    } else {
        out.extend_from_slice(b", less than 63, the greatest: may be too small\n")
    }
}

/// Appends what is said of a gap count on which all nodes agree.
fn put_verdict(out: &mut Vec<u8>, gap: u8, hops: u8) -> Result<(), OutOfMemory>
    ensures { OnOk result (out.new.items ≡ out.old.items ++ gap_verdict gap hops) }
{
    if hops == 0 {
        out.extend_from_slice(b"\n")
    } else if hops > 15 {
        put_past_table(out, gap)
    } else {
        put_beside_table(out, gap, gap_for(hops))
    }
}

/// Appends the line where all nodes have this gap count.
#[tactic(auto, unfolding(crate::specs::Drawing::agree_line))]
fn put_agree(out: &mut Vec<u8>, gap: u8, hops: u8) -> Result<(), OutOfMemory>
    ensures { OnOk result (out.new.items ≡ out.old.items ++ agree_line gap hops) }
{
    put_field(out, b"gap counts agree: ", u64::from(gap))?;
    put_verdict(out, gap, hops)?;
    Ok(())
}

/// Appends the line where some node has another gap count.
fn put_differ(out: &mut Vec<u8>, tree: &BusTree, gap: u8) -> Result<(), OutOfMemory>
    ensures { OnOk result (out.new.items ≡ out.old.items ++ differ_line gap (walk tree.now)) }
{
    put_field(out, b"gap counts differ: ", u64::from(gap))?;
    out.extend_from_slice(b" at the root")?;
    put_others(out, tree, gap)?;
    out.extend_from_slice(b"\n")?;
    Ok(())
}

/// Appends whether the nodes' gap counts agree with this one, and if so whether it suits the hops.
pub(crate) fn put_gaps(
    out: &mut Vec<u8>,
    tree: &BusTree,
    gap: u8,
    hops: u8,
) -> Result<(), OutOfMemory>
    ensures { OnOk result (out.new.items
        ≡ out.old.items ++ gap_line gap hops (walk tree.now)) }
{
    if all_have(tree, gap) {
        put_agree(out, gap, hops)
    } else {
        put_differ(out, tree, gap)
    }
}
