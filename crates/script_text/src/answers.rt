//! What commands print.
ghost use Rattle.std.specs.Prelude.{◌≡◌, ◌++◌, IfOk, OnOk};
ghost use Rattle.resource_manager.specs.Response.{complete};
ghost use Rattle.resource_manager.specs.declared.access.Answer.TheVariants.{Replied};
ghost use Rattle.script_text.specs.CommandText.{csr_text, changed_words, grant_words, grant_text, bid_words, bid_text};

use crate::report::put_numbered;
use resource_manager::{Answer, GrantFault};
use std::alloc::Global;
use topology_stack::{Name, OutOfMemory, put_hex};

/// The line of an answer to a read, a write or a lock that the node with a name asked for: `csr NAME
/// rcode R value V`, with the code and the value of the reply. It is empty where the answer is no
/// reply.
pub fn csr_text(alloc: Global, name: &Name, answer: Answer) -> Result<Vec<u8>, OutOfMemory>
    ensures { IfOk result (λ text. text.items ≡ csr_text name.now answer) }
{
    let mut out = Vec::new(alloc);
    let Answer::Replied(reply) = answer else {
        return Ok(out);
    };
    out.extend_from_slice(b"csr ")?;
    out.extend_from_slice(name.as_bytes())?;
    put_numbered(&mut out, b" rcode ", u64::from(reply.rcode))?;
    put_numbered(&mut out, b" value ", u64::from(reply.value))?;
    out.push(b'\n')?;
    Ok(out)
}

/// Appends which register changed, and what it now holds.
#[tactic(auto, unfolding(crate::specs::CommandText::changed_words))]
fn put_changed(out: &mut Vec<u8>, offset: u32, old: u32) -> Result<(), OutOfMemory>
    ensures { OnOk result (out.new.items ≡ out.old.items ++ changed_words offset old) }
{
    out.extend_from_slice(b" changed 0x")?;
    put_hex(out, 3, offset)?;
    put_numbered(out, b" ", u64::from(old))?;
    Ok(())
}

/// Appends what came of a grant or a release.
fn put_grant(out: &mut Vec<u8>, answer: Answer) -> Result<(), OutOfMemory>
    ensures { OnOk result (out.new.items ≡ out.old.items ++ grant_words answer) }
{
    match answer {
        Answer::Done => out.extend_from_slice(b" done")?,
        Answer::Refused(GrantFault::NoChannel) => out.extend_from_slice(b" no_channel")?,
        Answer::Refused(GrantFault::NoBandwidth { left }) => {
            put_numbered(out, b" no_bandwidth ", u64::from(left))?;
        }
        Answer::Refused(GrantFault::Changed { offset, old }) => {
            put_changed(out, offset, old)?;
        }
        Answer::Replied(_) | Answer::Saw(_) => {}
    }
    Ok(())
}

/// The line of an answer to an allocation or a release that the node with a name asked for. `word` is
/// `allocate ` or `release `; behind it and the name stands `done`, why nothing was granted, or which
/// register changed meanwhile.
pub fn grant_text(
    alloc: Global,
    word: &[u8],
    name: &Name,
    answer: Answer,
) -> Result<Vec<u8>, OutOfMemory>
    ensures { IfOk result (λ text. text.items ≡ grant_text word.now name.now answer) }
{
    let mut out = Vec::new(alloc);
    out.extend_from_slice(word)?;
    out.extend_from_slice(name.as_bytes())?;
    put_grant(&mut out, answer)?;
    out.push(b'\n')?;
    Ok(out)
}

/// Appends what came of an attempt to become bus manager, which found a value in the register.
fn put_bid(out: &mut Vec<u8>, found: u32) -> Result<(), OutOfMemory>
    ensures { OnOk result (out.new.items ≡ out.old.items ++ bid_words (Replied (complete found))) }
{
    if found == 0x3F {
        out.extend_from_slice(b" won")?;
    } else {
        put_numbered(out, b" lost ", u64::from(found))?;
    }
    Ok(())
}

/// The line of an attempt of the node with a name to become bus manager: `manager NAME won` where it
/// found 63 in the register, and else `manager NAME lost ID` with the ID that it found.
pub fn bid_text(alloc: Global, name: &Name, found: u32) -> Result<Vec<u8>, OutOfMemory>
    ensures { IfOk result (λ text. text.items ≡ bid_text name.now (Replied (complete found))) }
{
    let mut out = Vec::new(alloc);
    out.extend_from_slice(b"manager ")?;
    out.extend_from_slice(name.as_bytes())?;
    put_bid(&mut out, found)?;
    out.push(b'\n')?;
    Ok(out)
}
