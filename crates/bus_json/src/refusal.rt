//! A refused capture, and a refused script.
ghost use Rattle.std.specs.Prelude.{◌≡◌, ◌++◌, ◌∷◌, [], Some, IfOk, OnOk};
ghost use Rattle.json.specs.Token.{begin_object, end_object, key};
ghost use Rattle.json.specs.Json.{document};
ghost use Rattle.json.specs.Tree.{members_tokens};
ghost use Rattle.bus_json.specs.Text.{json_line, json_text};
ghost use Rattle.bus_json.specs.Refusal.{counts_members, fault_members, refused_members, fault_value, line_members, line_refusal_value};

use crate::json_text::JsonText;
use capture_reading::{CaptureFault, Counts, refusal_of};
use std::alloc::Global;
use topology_stack::OutOfMemory;

/// Writes what was found and wanted, where both are known, and ends the object.
fn put_counts(out: &mut JsonText, counts: Option<Counts>) -> Result<(), OutOfMemory>
    ensures { OnOk result (out.new ≡ out.old ++ members_tokens (counts_members counts)) }
{
    if let Some(Counts { found, wanted }) = counts {
        out.number_member("found", u64::from(found))?;
        out.number_member("wanted", u64::from(wanted))?;
    }
    out.close_object()
}

/// Writes why a list of self-ID packets is refused, as the member `refused` of an object, and ends the
/// object: the pair at fault, the kind of its fault, and what was found and wanted where both are known.
pub fn put_refusal(out: &mut JsonText, fault: CaptureFault) -> Result<(), OutOfMemory>
    ensures { OnOk result (out.new
        ≡ out.old ++ members_tokens (refused_members (fault_members fault))) }
{
    let refusal = refusal_of(fault);
    out.key("refused")?;
    out.open_object()?;
    out.number_member("pair", refusal.pair as u64)?;
    out.string_member("kind", refusal.kind)?;
    put_counts(out, refusal.counts)?;
    out.close_object()?;
    Ok(())
}

/// The line of a refused capture: the pair at fault, the kind of its fault, and what was found and
/// wanted where both are known.
///
/// `{"schema":1,"refused":{"pair":P,"kind":"KIND","found":F,"wanted":W}}`.
pub fn refusal_line(alloc: Global, fault: CaptureFault) -> Result<Vec<u8>, OutOfMemory>
    ensures line { IfOk result (λ line. line.items ≡ json_line (fault_value fault)) }
    ensures reads_back { IfOk result (λ line. document (json_text (fault_value fault))
        ≡ Some (fault_value fault)) }
{
    let mut out = JsonText::new(alloc);
    out.open_schema()?;
    put_refusal(&mut out, fault)?;
    let line = out.into_line()?;
    Ok(line)
}

/// Writes the number of a line and the kind of its fault, and ends the object.
fn put_line(out: &mut JsonText, line: u32, kind: &str) -> Result<(), OutOfMemory>
    ensures { OnOk result (out.new ≡ out.old ++ members_tokens (line_members line kind.now)) }
{
    out.number_member("line", u64::from(line))?;
    out.string_member("kind", kind)?;
    out.close_object()
}

/// The line of a refused script: the number of the line at fault, from 1, and the kind of its fault.
///
/// `{"schema":1,"refused":{"line":L,"kind":"KIND"}}`.
pub fn line_refusal(alloc: Global, line: u32, kind: &str) -> Result<Vec<u8>, OutOfMemory>
    ensures line { IfOk result (λ text. text.items ≡ json_line (line_refusal_value line kind.now)) }
    ensures reads_back { IfOk result (λ text. document (json_text (line_refusal_value line kind.now))
        ≡ Some (line_refusal_value line kind.now)) }
{
    let mut out = JsonText::new(alloc);
    out.open_schema()?;
    out.key("refused")?;
    out.open_object()?;
    put_line(&mut out, line, kind)?;
    out.close_object()?;
    let text = out.into_line()?;
    Ok(text)
}
