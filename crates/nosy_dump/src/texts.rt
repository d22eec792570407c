//! The texts of a dump's resets and of its fault.
ghost use Rattle.std.specs.Prelude.{◌≡◌, ◌++◌, IfOk, OnOk};
ghost use Rattle.nosy_dump.specs.Texts.{head, cut_text, length_text, fault_text, begun, most, totals, end_text};
ghost use Rattle.nosy_dump.specs.Notes.{noted};

use crate::notes::Notes;
use crate::record::{DumpFault, DumpReset};
use reset_list::Tally;
use std::alloc::{AllocError, Global};
use view_text::put_field;

/// The head of the reset with this number.
#[tactic(auto, unfolding(crate::specs::Texts::head))]
pub(crate) fn head(alloc: Global, number: u64, reset: &DumpReset) -> Result<Vec<u8>, AllocError>
    ensures { IfOk result (λ text. text.items ≡ head number reset.now) }
{
    let mut text = Vec::new(alloc);
    put_field(&mut text, b"reset ", number)?;
    put_field(&mut text, b" byte ", reset.byte)?;
    put_field(&mut text, b" time ", u64::from(reset.time))?;
    Ok(text)
}

/// Appends that a dump ends within the record at this byte.
#[tactic(auto, unfolding(crate::specs::Texts::cut_text))]
fn put_cut(out: &mut Vec<u8>, byte: u64) -> Result<(), AllocError>
    ensures { OnOk result (out.new.items ≡ out.old.items ++ cut_text byte) }
{
    put_field(out, b"refused byte ", byte)?;
    out.extend_from_slice(
        b" Cut\nFound the end of the input inside this record, wanted its length and its bytes.\n",
    )?;
    Ok(())
}

/// Appends that the record at this byte can't have its length.
#[tactic(auto, unfolding(crate::specs::Texts::length_text))]
fn put_length(out: &mut Vec<u8>, byte: u64, size: u32) -> Result<(), AllocError>
    ensures { OnOk result (out.new.items ≡ out.old.items ++ length_text byte size) }
{
    put_field(out, b"refused byte ", byte)?;
    put_field(
        out,
        b" BadLength\nFound a record of length ",
        u64::from(size),
    )?;
    out.extend_from_slice(b", wanted 4 to 65536 bytes and a multiple of 4.\n")?;
    Ok(())
}

/// Appends the fault that a dump has at this byte, if it has one.
fn put_fault(out: &mut Vec<u8>, byte: u64, fault: Option<DumpFault>) -> Result<(), AllocError>
    ensures { OnOk result (out.new.items ≡ out.old.items ++ fault_text byte fault) }
{
    match fault {
        None => Ok(()),
        Some(DumpFault::Cut) => put_cut(out, byte),
        Some(DumpFault::BadLength { size }) => put_length(out, byte, size),
    }
}

/// Appends how many resets a node began.
#[tactic(auto, unfolding(crate::specs::Texts::begun))]
fn put_begun(out: &mut Vec<u8>, tally: Tally) -> Result<(), AllocError>
    ensures { OnOk result (out.new.items ≡ out.old.items ++ begun tally) }
{
    put_field(out, b", most begun by node ", u64::from(tally.node))?;
    put_field(out, b": ", tally.count)?;
    Ok(())
}

fn put_most(out: &mut Vec<u8>, tally: Option<Tally>) -> Result<(), AllocError>
    ensures { OnOk result (out.new.items ≡ out.old.items ++ most tally) }
{
    match tally {
        Some(tally) => put_begun(out, tally),
        None => Ok(()),
    }
}

/// Appends the last line of a dump.
#[tactic(auto, unfolding(crate::specs::Texts::totals))]
fn put_totals(out: &mut Vec<u8>, notes: &Notes) -> Result<(), AllocError>
    ensures { OnOk result (out.new.items ≡ out.old.items ++ totals (noted notes.now)) }
{
    put_field(out, b"resets ", notes.counts.resets)?;
    put_field(out, b" refused ", notes.counts.refused)?;
    put_most(out, notes.tallies.most())?;
    out.extend_from_slice(b"\n")?;
    Ok(())
}

/// What is shown behind the resets of a dump: the fault that it has at this byte, if it has one, and what
/// was counted in all.
#[tactic(auto, unfolding(crate::specs::Texts::end_text))]
pub(crate) fn end_text(
    alloc: Global,
    byte: u64,
    fault: Option<DumpFault>,
    notes: &Notes,
) -> Result<Vec<u8>, AllocError>
    ensures { IfOk result (λ text. text.items ≡ end_text byte fault (noted notes.now)) }
{
    let mut text = Vec::new(alloc);
    put_fault(&mut text, byte, fault)?;
    put_totals(&mut text, notes)?;
    Ok(text)
}
