//! The sentence of a capture's fault.
ghost use Rattle.std.specs.Prelude.{◌≡◌, ◌<◌, ◌≤◌, IfOk};
ghost use Rattle.view_text.specs.Sentence.{first_at, second_at, length_sentence, inverse_sentence};
ghost use Rattle.c_border.specs.Places.{IsUntold};
ghost use Rattle.busconf_c.specs.Sentences.{first_before, IsFirstsSentence, IsCaptureSentence, TellsSentence};

use c_border::{NO_MEMORY, NO_STANDARD, REFUSED, tell_bytes};
use c_records::{FaultRecord, record_sentence, standard_of};
use capture_reading::ShortText;
use quad_lanes::quads_of;
use self_id::Standard;
use std::alloc::Global;
use topology_stack::OutOfMemory;
use view_text::{first_at, put_inverse_sentence, put_length_sentence, second_at};

/// The first quadlet of the pair before a pair, if there is one.
fn first_before(quads: &[u32], pair: usize) -> Option<u32>
    ensures { result ≡ first_before quads.now pair }
{
    if pair == 0 || pair > quads.len() / 2 {
        None
    } else {
        Some(quads[2 * (pair - 1)])
    }
}

/// The sentence of a fault of a capture's list by a standard, for the quadlets of its bytes.
fn firsts_sentence(standard: Standard, quads: &[u32], fault: &FaultRecord) -> ShortText
    ensures { IsFirstsSentence standard quads.now fault.now result }
{
    record_sentence(
        standard,
        first_at(quads, fault.at),
        first_before(quads, fault.at),
        fault,
    )
}

/// The sentence on a capture whose bytes end within a pair.
fn length_text(alloc: Global) -> Result<Vec<u8>, OutOfMemory>
    ensures { IfOk result (λ text. text.items ≡ length_sentence) }
{
    let mut out = Vec::new(alloc);
    put_length_sentence(&mut out)?;
    Ok(out)
}

/// The sentence on a pair of quadlets that aren't inverse.
fn pair_sentence(alloc: Global, quads: &[u32], pair: usize) -> Result<Vec<u8>, OutOfMemory>
    ensures { IfOk result (λ text. text.items
        ≡ inverse_sentence (first_at quads.now pair) (second_at quads.now pair)) }
{
    let mut out = Vec::new(alloc);
    put_inverse_sentence(&mut out, first_at(quads, pair), second_at(quads, pair))?;
    Ok(out)
}

/// The sentence of a fault of a capture's list, as bytes.
fn list_text(
    alloc: Global,
    standard: Standard,
    quads: &[u32],
    fault: &FaultRecord,
) -> Result<Vec<u8>, OutOfMemory>
    ensures { IfOk result (λ text. IsFirstsSentence standard quads.now fault.now text.items) }
{
    let mut out = Vec::new(alloc);
    out.extend_from_slice(firsts_sentence(standard, quads, fault).as_bytes())?;
    Ok(out)
}

/// The sentence of a capture's fault by a standard, whose kind is 13 at most.
fn capture_sentence(
    alloc: Global,
    standard: Standard,
    bytes: &[u8],
    fault: &FaultRecord,
) -> Result<Vec<u8>, OutOfMemory>
    requires { fault.now.kind ≤ 13 }
    ensures { IfOk result (λ text. IsCaptureSentence standard bytes.now fault.now text.items) }
{
    let quads = quads_of(alloc, bytes)?;
    match fault.kind {
        12 => length_text(alloc),
        13 => pair_sentence(alloc, quads.as_slice(), fault.at),
        _ => list_text(alloc, standard, quads.as_slice(), fault),
    }
}

/// Tells the sentence of a capture's fault by the standard of a year, 1995 or 2000, as the program
/// `busview` writes it.
#[unsafe(no_mangle)]
pub extern "C" fn busconf_sentence_capture(
    alloc: Global,
    bytes: &[u8],
    year: u32,
    fault: &FaultRecord,
    place: &mut [u8],
    needed: &mut usize,
) -> u32
    ensures sentence { 0 < fault.now.kind → fault.now.kind ≤ 13 →
        TellsSentence year (λ standard. IsCaptureSentence standard bytes.now fault.now) place.old
        place.new needed.old needed.new result }
    ensures zero { fault.now.kind ≡ 0 →
        IsUntold place.old place.new needed.old needed.new result }
    ensures past { 13 < fault.now.kind →
        IsUntold place.old place.new needed.old needed.new result }
{
    if fault.kind == 0 || fault.kind > 13 {
        return REFUSED;
    }
    let Some(standard) = standard_of(year) else {
        return NO_STANDARD;
    };
    match capture_sentence(alloc, standard, bytes, fault) {
        Ok(text) => tell_bytes(text.as_slice(), place, needed),
        Err(_) => NO_MEMORY,
    }
}
