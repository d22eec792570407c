//! The line of a fault, and the sentence of a list's fault.
ghost use Rattle.std.specs.Prelude.{◌≡◌, ◌<◌, ◌≤◌, slice_index_or};
ghost use Rattle.capture_reading.specs.Line.{fault_line};
ghost use Rattle.c_records.specs.Faults.{fault_in};
ghost use Rattle.c_border.specs.Places.{IsCopied, IsUntold};
ghost use Rattle.heapless_c.specs.Sentences.{quad_before, IsListSentence, WritesSentence};

use c_border::{NO_STANDARD, REFUSED, tell_bytes};
use c_records::{FaultRecord, fault_in, record_sentence, standard_of};
use capture_reading::fault_line;

/// Tells the line of a fault, as the program `busconf` writes it. It takes no memory.
#[unsafe(no_mangle)]
pub extern "C" fn busconf_fault_text(
    fault: &FaultRecord,
    place: &mut [u8],
    needed: &mut usize,
) -> u32
    ensures line { 0 < fault.now.kind → fault.now.kind ≤ 13 →
        IsCopied (fault_line (fault_in fault.now)) place.old place.new needed.new result }
    ensures zero { fault.now.kind ≡ 0 →
        IsUntold place.old place.new needed.old needed.new result }
    ensures past { 13 < fault.now.kind →
        IsUntold place.old place.new needed.old needed.new result }
{
    if fault.kind == 0 || fault.kind > 13 {
        return REFUSED;
    }
    let line = fault_line(fault_in(fault));
    tell_bytes(line.as_bytes(), place, needed)
}

/// The quadlet at a place, or 0 behind the last.
fn quad_at(quads: &[u32], at: usize) -> u32
    ensures { result ≡ slice_index_or quads.now at 0 }
{
    if at < quads.len() { quads[at] } else { 0 }
}

/// The quadlet before a place, if there is one.
fn quad_before(quads: &[u32], at: usize) -> Option<u32>
    ensures { result ≡ quad_before quads.now at }
{
    if at == 0 || at > quads.len() {
        None
    } else {
        Some(quads[at - 1])
    }
}

/// Tells the sentence of a list's fault by the standard of a year, 1995 or 2000. It takes no memory.
#[unsafe(no_mangle)]
pub extern "C" fn busconf_sentence(
    quads: &[u32],
    year: u32,
    fault: &FaultRecord,
    place: &mut [u8],
    needed: &mut usize,
) -> u32
    ensures sentence { 0 < fault.now.kind → fault.now.kind ≤ 11 →
        WritesSentence year (λ standard. IsListSentence standard quads.now fault.now) place.old
        place.new needed.old needed.new result }
    ensures zero { fault.now.kind ≡ 0 →
        IsUntold place.old place.new needed.old needed.new result }
    ensures past { 11 < fault.now.kind →
        IsUntold place.old place.new needed.old needed.new result }
{
    if fault.kind == 0 || fault.kind > 11 {
        return REFUSED;
    }
    let Some(standard) = standard_of(year) else {
        return NO_STANDARD;
    };
    let quad = quad_at(quads, fault.at);
    let text = record_sentence(standard, quad, quad_before(quads, fault.at), fault);
    tell_bytes(text.as_bytes(), place, needed)
}
