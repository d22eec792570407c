//! What is written of a log of which one reset is wanted.
ghost use Rattle.std.specs.Prelude.{◌≡◌, ◌<◌, ◌≤◌, length, IfOk};
ghost use Rattle.log_import.specs.Import.{too_few, is_error, packets_missing, place_of, IsWritten, IsSearchWritten, IsResetImport};

use crate::finder::{Search, find_reset};
use crate::outcome::{Outcome, Place};
use crate::taken::capture_by;
use reset_log::Pending;
use std::alloc::{AllocError, Global};
use topology_stack::put_number;

/// What is written of a log of which one reset is wanted, and what the log comes to.
#[derive(Debug, Drop)]
pub struct Import {
    /// The capture, or the line of a refusal.
    pub text: Vec<u8>,
    pub outcome: Outcome,
}

/// `refused reset K TooFew found N`.
fn too_few(alloc: Global, wanted: u64, found: u64) -> Result<Vec<u8>, AllocError>
    ensures { IfOk result (λ line. line.items ≡ too_few wanted found) }
{
    let mut line = Vec::new(alloc);
    line.extend_from_slice(b"refused reset ")?;
    put_number(&mut line, wanted)?;
    line.extend_from_slice(b" TooFew found ")?;
    put_number(&mut line, found)?;
    line.extend_from_slice(b"\n")?;
    Ok(line)
}

/// `refused line N IsError`.
fn is_error(alloc: Global, number: u64) -> Result<Vec<u8>, AllocError>
    ensures { IfOk result (λ line. line.items ≡ is_error number) }
{
    let mut line = Vec::new(alloc);
    line.extend_from_slice(b"refused line ")?;
    put_number(&mut line, number)?;
    line.extend_from_slice(b" IsError\n")?;
    Ok(line)
}

/// `refused line N PacketsMissing M`.
fn packets_missing(alloc: Global, number: u64, count: u64) -> Result<Vec<u8>, AllocError>
    ensures { IfOk result (λ line. line.items ≡ packets_missing number count) }
{
    let mut line = Vec::new(alloc);
    line.extend_from_slice(b"refused line ")?;
    put_number(&mut line, number)?;
    line.extend_from_slice(b" PacketsMissing ")?;
    put_number(&mut line, count)?;
    line.extend_from_slice(b"\n")?;
    Ok(line)
}

/// Where a reset stands.
fn place_of(pending: &Pending) -> Place
    ensures { result ≡ place_of pending.now }
{
    Place {
        line: pending.number,
        card: pending.reset.card,
    }
}

/// What is written of a reset: the capture of its list, or why it isn't judged.
fn written(alloc: Global, pending: &Pending) -> Result<Import, AllocError>
    ensures { IfOk result (λ import. IsWritten pending.now import.text.items import.outcome) }
{
    let place = place_of(pending);
    if pending.reset.is_error {
        return Ok(Import {
            text: is_error(alloc, pending.number)?,
            outcome: Outcome::IsError(place),
        });
    }
    if pending.left != 0 {
        return Ok(Import {
            text: packets_missing(alloc, pending.number, u64::from(pending.left))?,
            outcome: Outcome::PacketsMissing(place, pending.left),
        });
    }
    Ok(Import {
        text: capture_by(alloc, &pending.reset)?,
        outcome: Outcome::Written(place),
    })
}

/// What is written of what a search comes to.
fn search_written(alloc: Global, wanted: u64, search: &Search) -> Result<Import, AllocError>
    ensures { IfOk result (λ import.
        IsSearchWritten wanted search.now import.text.items import.outcome) }
{
    match search {
        Search::Found(pending) => written(alloc, pending),
        Search::Fewer(found) => Ok(Import {
            text: too_few(alloc, wanted, *found)?,
            outcome: Outcome::TooFew(*found),
        }),
    }
}

/// The capture of the reset with this number in a log, which is the text of a Linux kernel's trace or log. Resets are
/// counted from 1, each once, in the order in which `resets` shows them. If the log has fewer, or the reset isn't judged,
/// the text is the line of the refusal. `Err` is want of memory.
pub fn reset_import(alloc: Global, log: &[u8], wanted: u64) -> Result<Import, AllocError>
    requires from_one { 0 < wanted }
    requires short { length log.now ≤ 1073741824 }
    ensures { IfOk result (λ import.
        IsResetImport wanted log.now import.text.items import.outcome) }
{
    let search = find_reset(alloc, log, wanted)?;
    search_written(alloc, wanted, &search)
}
