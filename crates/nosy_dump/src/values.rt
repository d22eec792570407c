//! What is shown of the resets of a dump for programs: lines of JSON.
ghost use Rattle.std.specs.Prelude.{◌≡◌, ◌++◌, Some, IfOk, OnOk};
ghost use Rattle.json.specs.Tree.{members_tokens};
ghost use Rattle.bus_json.specs.Lines.{IsJsonLine, AreJsonLines};
ghost use Rattle.bus_json.specs.Text.{json_line};
ghost use Rattle.nosy_dump.specs.declared.record.DumpFault.{DumpFault};
ghost use Rattle.nosy_dump.specs.Notes.{noted};
ghost use Rattle.nosy_dump.specs.Json.{IsResetTold, found_members, fault_value, fault_lines, most_members, totals_value, end_lines};

use crate::notes::Notes;
use crate::record::{DumpFault, DumpReset};
use bus_json::JsonText;
use log_line::Origin;
use reset_list::{ListShown, Tally, put_list};
use self_id::Standard;
use std::alloc::{AllocError, Global};

/// The line of a reset, and the tree that its list is heard as.
pub(crate) fn reset_line(
    alloc: Global,
    standard: Standard,
    number: u64,
    reset: &DumpReset,
) -> Result<ListShown, AllocError>
    ensures told { IfOk result (λ shown. IsResetTold standard number reset.now
        shown.text.items shown.tree) }
    ensures json { IfOk result (λ shown. IsJsonLine shown.text.items) }
{
    let mut out = JsonText::new(alloc);
    out.open_schema()?;
    out.number_member("reset", number)?;
    out.number_member("byte", reset.byte)?;
    out.number_member("time", u64::from(reset.time))?;
    let tree = put_list(
        alloc,
        &mut out,
        standard,
        Origin::Core,
        reset.list.as_slice(),
    )?;
    let text = out.into_line()?;
    Ok(ListShown { text, tree })
}

/// Writes that a record is cut, and ends the object.
fn put_cut(out: &mut JsonText) -> Result<(), AllocError>
    ensures { OnOk result (out.new ≡ out.old ++ members_tokens (found_members DumpFault.Cut)) }
{
    out.string_member("kind", "Cut")?;
    out.close_object()?;
    Ok(())
}

/// Writes the length that no record can have, and ends the object.
fn put_length(out: &mut JsonText, size: u32) -> Result<(), AllocError>
    ensures { OnOk result (out.new
        ≡ out.old ++ members_tokens (found_members (DumpFault.BadLength size))) }
{
    out.string_member("kind", "BadLength")?;
    out.number_member("found", u64::from(size))?;
    out.close_object()?;
    Ok(())
}

/// Writes what was found in the record at fault, and ends the object.
fn put_found(out: &mut JsonText, fault: DumpFault) -> Result<(), AllocError>
    ensures { OnOk result (out.new ≡ out.old ++ members_tokens (found_members fault)) }
{
    match fault {
        DumpFault::Cut => put_cut(out),
        DumpFault::BadLength { size } => put_length(out, size),
    }
}

/// The line of the record at a byte that is at fault.
fn fault_line(alloc: Global, byte: u64, fault: DumpFault) -> Result<Vec<u8>, AllocError>
    ensures line { IfOk result (λ line. line.items ≡ json_line (fault_value byte fault)) }
    ensures json { IfOk result (λ line. IsJsonLine line.items) }
{
    let mut out = JsonText::new(alloc);
    out.open_schema()?;
    out.key("refused")?;
    out.open_object()?;
    out.number_member("byte", byte)?;
    put_found(&mut out, fault)?;
    out.close_object()?;
    let line = out.into_line()?;
    Ok(line)
}

/// The same where there is one.
fn fault_lines(alloc: Global, byte: u64, fault: Option<DumpFault>) -> Result<Vec<u8>, AllocError>
    ensures lines { IfOk result (λ text. text.items ≡ fault_lines byte fault) }
    ensures json { IfOk result (λ text. AreJsonLines text.items) }
{
    match fault {
        Some(fault) => fault_line(alloc, byte, fault),
        None => Ok(Vec::new(alloc)),
    }
}

/// Writes how many resets a node began, and ends the object.
fn put_begun(out: &mut JsonText, tally: Tally) -> Result<(), AllocError>
    ensures { OnOk result (out.new ≡ out.old ++ members_tokens (most_members (Some tally))) }
{
    out.key("most")?;
    out.open_object()?;
    out.number_member("node", u64::from(tally.node))?;
    out.number_member("count", tally.count)?;
    out.close_object()?;
    out.close_object()?;
    Ok(())
}

/// The same of who began most, where a node began one.
fn put_most(out: &mut JsonText, tally: Option<Tally>) -> Result<(), AllocError>
    ensures { OnOk result (out.new ≡ out.old ++ members_tokens (most_members tally)) }
{
    match tally {
        Some(tally) => put_begun(out, tally),
        None => out.close_object(),
    }
}

/// The line of what was counted in all.
fn totals_line(alloc: Global, notes: &Notes) -> Result<Vec<u8>, AllocError>
    ensures line { IfOk result (λ line. line.items ≡ json_line (totals_value (noted notes.now))) }
    ensures json { IfOk result (λ line. IsJsonLine line.items) }
{
    let mut out = JsonText::new(alloc);
    out.open_schema()?;
    out.key("totals")?;
    out.open_object()?;
    out.number_member("resets", notes.counts.resets)?;
    out.number_member("refused", notes.counts.refused)?;
    put_most(&mut out, notes.tallies.most())?;
    out.close_object()?;
    let line = out.into_line()?;
    Ok(line)
}

/// The last lines of a dump.
pub(crate) fn end_lines(
    alloc: Global,
    byte: u64,
    fault: Option<DumpFault>,
    notes: &Notes,
) -> Result<Vec<u8>, AllocError>
    ensures lines { IfOk result (λ text. text.items ≡ end_lines byte fault (noted notes.now)) }
    ensures json { IfOk result (λ text. AreJsonLines text.items) }
{
    let mut text = fault_lines(alloc, byte, fault)?;
    let line = totals_line(alloc, notes)?;
    text.extend_from_slice(&line)?;
    Ok(text)
}
