//! What is written of captures that are refused.
ghost use Rattle.std.specs.Prelude.{◌≡◌, ◌++◌, IfOk, OnOk};
ghost use Rattle.json.specs.Json.{no_items, item};
ghost use Rattle.json.specs.Tree.{json_tokens};
ghost use Rattle.diff_form.specs.Difference.{refusal, refused_item, refused_line, shown_refusal, shown_refusals};

use crate::form::DiffForm;
use bus_json::{JsonText, put_refusal};
use capture_reading::{CaptureFault, fault_line};
use std::alloc::Global;
use topology_stack::OutOfMemory;

/// Appends why the capture in the file of this name is refused.
#[tactic(auto, unfolding(crate::specs::Difference::refusal))]
fn put_line(out: &mut Vec<u8>, name: &str, fault: CaptureFault) -> Result<(), OutOfMemory>
    ensures { OnOk result (out.new.items ≡ out.old.items ++ refusal name.now fault) }
{
    out.extend_from_slice(name.as_bytes())?;
    out.extend_from_slice(b": ")?;
    out.extend_from_slice(fault_line(fault).as_bytes())?;
    Ok(())
}

/// Writes the same as an item of JSON.
fn put_item(out: &mut JsonText, name: &str, fault: CaptureFault) -> Result<(), OutOfMemory>
    ensures { OnOk result (out.new ≡ out.old ++ json_tokens (refused_item name.now fault)) }
{
    out.open_object()?;
    out.string_member("file", name)?;
    put_refusal(out, fault)
}

/// The text of one capture that is refused.
fn one_text(alloc: Global, name: &str, fault: CaptureFault) -> Result<Vec<u8>, OutOfMemory>
    ensures { IfOk result (λ text. text.items ≡ refusal name.now fault) }
{
    let mut text = Vec::new(alloc);
    put_line(&mut text, name, fault)?;
    Ok(text)
}

/// The same as a line of JSON.
fn one_line(alloc: Global, name: &str, fault: CaptureFault) -> Result<Vec<u8>, OutOfMemory>
    ensures { IfOk result (λ line. line.items
        ≡ refused_line (item (refused_item name.now fault) no_items)) }
{
    let mut out = JsonText::new(alloc);
    out.open_schema()?;
    out.key("captures")?;
    out.open_list()?;
    put_item(&mut out, name, fault)?;
    out.close_list()?;
    out.close_object()?;
    let line = out.into_line()?;
    Ok(line)
}

/// The text of two captures that are refused.
fn both_text(
    alloc: Global,
    old_name: &str,
    new_name: &str,
    old: CaptureFault,
    new: CaptureFault,
) -> Result<Vec<u8>, OutOfMemory>
    ensures { IfOk result (λ text. text.items
        ≡ refusal old_name.now old ++ refusal new_name.now new) }
{
    let mut text = Vec::new(alloc);
    put_line(&mut text, old_name, old)?;
    put_line(&mut text, new_name, new)?;
    Ok(text)
}

/// The same as a line of JSON.
fn both_line(
    alloc: Global,
    old_name: &str,
    new_name: &str,
    old: CaptureFault,
    new: CaptureFault,
) -> Result<Vec<u8>, OutOfMemory>
    ensures { IfOk result (λ line. line.items ≡ refused_line
        (item (refused_item old_name.now old) (item (refused_item new_name.now new) no_items))) }
{
    let mut out = JsonText::new(alloc);
    out.open_schema()?;
    out.key("captures")?;
    out.open_list()?;
    put_item(&mut out, old_name, old)?;
    put_item(&mut out, new_name, new)?;
    out.close_list()?;
    out.close_object()?;
    let line = out.into_line()?;
    Ok(line)
}

/// What is written of one capture that is refused.
pub(crate) fn shown_refusal(
    alloc: Global,
    form: DiffForm,
    name: &str,
    fault: CaptureFault,
) -> Result<Vec<u8>, OutOfMemory>
    ensures { IfOk result (λ text. text.items ≡ shown_refusal form name.now fault) }
{
    match form {
        DiffForm::Text(_) => one_text(alloc, name, fault),
        DiffForm::Json(_) => one_line(alloc, name, fault),
    }
}

/// What is written of two captures that are refused.
pub(crate) fn shown_refusals(
    alloc: Global,
    form: DiffForm,
    old_name: &str,
    new_name: &str,
    old: CaptureFault,
    new: CaptureFault,
) -> Result<Vec<u8>, OutOfMemory>
    ensures { IfOk result (λ text. text.items
        ≡ shown_refusals form old_name.now new_name.now old new) }
{
    match form {
        DiffForm::Text(_) => both_text(alloc, old_name, new_name, old, new),
        DiffForm::Json(_) => both_line(alloc, old_name, new_name, old, new),
    }
}
