//! Changes of a list that put a fault in.
ghost use Rattle.std.specs.Prelude.{◌≡◌, ◌≢◌, ◌<◌, ◌≤◌, ◌+◌, ◌-◌, ◌⊎◌, ◌/◌, ◌%◌, ◌^◌, ◌∷◌, ◌++◌, [], if◌then◌else◌, ℕ, length, take, slice_set, slice_index, IfOk};
ghost use Rattle.self_id.specs.declared.standard.Standard.{Standard};
ghost use Rattle.capture_reading.specs.Capture.{IsCaptureOf};
ghost use Rattle.flawed_capture.specs.Flaw.{HasFlaw, HasListFlaw, least_nodes};
ghost use Rattle.flawed_capture.specs.Other.{IsOther, has_five, last_field, with_up, fields_of, parents_in, other_by};
ghost use Rattle.flawed_capture.specs.SeededFlaw.{list_by, byte_by, bytes_by};
ghost use Rattle.flawed_capture.specs.Spoilt.{EndsWithOther, IsFront, HasMore, HasOtherAndMore, HasOther, IsSpoiltList, IsSpoilt, ComesAt, IsListOfBus};
ghost use Rattle.flawed_capture.specs.declared.flaw.Flaw.{Flaw};

use crate::flaw::Flaw;
use quad_lanes::{capture_is_read_back, capture_of};
use self_id::Standard;
use std::alloc::Global;
use topology_stack::OutOfMemory;

/// All port fields of two bits as 01, which is no cable.
const UNPLUGGED: u32 = 0x5555_5555;
/// All as 10, which is the parent.
const UP: u32 = 0xaaaa_aaaa;
/// The bit that tells packet zero of a node from its further packets.
const FURTHER: u32 = 0x0080_0000;

/// Whether this is 1394a-2000's packet n = 1, which has five port fields.
fn has_five_ports(standard: Standard, quad: u32) -> bool
    ensures { result ≡ has_five standard quad }
{
    match standard {
        Standard::Ieee1995 => false,
        Standard::Ieee2000 => quad / FURTHER % 2 == 1 && quad / 0x0010_0000 % 8 == 1,
    }
}

/// The bits of a self-ID packet's port fields.
fn port_fields(standard: Standard, quad: u32) -> u32
    ensures value { result ≡ fields_of standard quad }
    ensures zero { quad / 2 ^ 23 % 2 ≡ 0 → result ≡ 252 }
    ensures further { quad / 2 ^ 23 % 2 ≡ 1 →
        result ≡ (if has_five standard quad then 261888 else 262140) }
{
    if quad / FURTHER % 2 == 0 {
        0x0000_00fc
    } else if has_five_ports(standard, quad) {
        0x0003_ff00
    } else {
        0x0003_fffc
    }
}

/// The packet with its last port field as 10, which is the parent.
fn with_parent(standard: Standard, quad: u32) -> u32
    ensures { result ≡ with_up (last_field standard quad) quad }
{
    if has_five_ports(standard, quad) {
        quad & !0x0000_0300 | 0x0000_0200
    } else {
        quad & !0x0000_000c | 0x0000_0008
    }
}

/// The packet with 01 in each port field that is 10: nothing leads to a parent.
fn without_parent(quad: u32, fields: u32) -> u32
    ensures { result ≡ quad - parents_in fields quad }
{
    let parents = quad >> 1 & !quad & UNPLUGGED & fields;
    quad.saturating_sub(parents)
}

/// The quadlet that takes the place of a packet's for a fault of a kind. The word says the rest.
#[tactic(auto, unfolding(crate::specs::Other::other_by))]
fn other_quad(flaw: Flaw, standard: Standard, quad: u32, word: u32) -> u32
    ensures other { IsOther flaw standard quad result }
    ensures value { result ≡ other_by flaw standard quad word }
{
    let fields = port_fields(standard, quad);
    match flaw {
        Flaw::BadLength | Flaw::BadInverse | Flaw::Empty => quad,
        Flaw::NotSelfId => quad ^ (word % 3 + 1) * 0x4000_0000,
        Flaw::WrongId => quad ^ (word % 63 + 1) * 0x0100_0000,
        Flaw::BadOrder => quad ^ FURTHER,
        Flaw::Cut => quad | 1,
        Flaw::TwoParents => quad & !fields | UP & fields,
        Flaw::TooFewChildren => quad | fields,
        Flaw::TreesLeft => quad & !fields | UNPLUGGED & fields,
        Flaw::AfterRoot => without_parent(quad, fields),
        Flaw::NoRoot | Flaw::TooMany => with_parent(standard, quad),
    }
}

/// The list with another quadlet at a place.
fn with_other(alloc: Global, list: &[u32], at: usize, quad: u32) -> Result<Vec<u32>, OutOfMemory>
    requires { at < length list.now }
    ensures { IfOk result (λ spoilt. spoilt.items ≡ slice_set list.now at quad) }
{
    let mut spoilt = Vec::from_slice(alloc, list)?;
    spoilt[at] = quad;
    Ok(spoilt)
}

/// The same, and the list ends after it.
fn ended(alloc: Global, list: &[u32], at: usize, quad: u32) -> Result<Vec<u32>, OutOfMemory>
    requires { at < length list.now }
    ensures spoilt { IfOk result (λ spoilt. EndsWithOther list.now spoilt.items) }
    ensures parts { IfOk result (λ spoilt.
        spoilt.items ≡ take (at + 1) (slice_set list.now at quad)) }
{
    let mut spoilt = with_other(alloc, list, at, quad)?;
    spoilt.truncate(at + 1);
    Ok(spoilt)
}

/// The list up to a place.
fn front_of(alloc: Global, list: &[u32], end: usize) -> Result<Vec<u32>, OutOfMemory>
    ensures front { IfOk result (λ spoilt. IsFront list.now spoilt.items) }
    ensures parts { IfOk result (λ spoilt. spoilt.items ≡ take end list.now) }
{
    let mut spoilt = Vec::from_slice(alloc, list)?;
    spoilt.truncate(end);
    Ok(spoilt)
}

/// The list with one quadlet more.
fn with_more(alloc: Global, list: &[u32], more: u32) -> Result<Vec<u32>, OutOfMemory>
    ensures { IfOk result (λ spoilt. spoilt.items ≡ list.now ++ more ∷ []) }
{
    let mut spoilt = Vec::from_slice(alloc, list)?;
    spoilt.push(more)?;
    Ok(spoilt)
}

/// The list with another quadlet at a place, and one more.
fn with_both(
    alloc: Global,
    list: &[u32],
    at: usize,
    quad: u32,
    more: u32,
) -> Result<Vec<u32>, OutOfMemory>
    requires { at < length list.now }
    ensures spoilt { IfOk result (λ spoilt. HasOtherAndMore list.now spoilt.items) }
    ensures parts { IfOk result (λ spoilt.
        spoilt.items ≡ slice_set list.now at quad ++ more ∷ []) }
{
    let mut spoilt = with_other(alloc, list, at, quad)?;
    spoilt.push(more)?;
    Ok(spoilt)
}

/// The list with one quadlet more, or before its end with another quadlet at a place.
fn behind_root(
    alloc: Global,
    list: &[u32],
    at: usize,
    quad: u32,
    more: u32,
) -> Result<Vec<u32>, OutOfMemory>
    requires { at < length list.now }
    ensures spoilt { IfOk result (λ spoilt.
        HasMore list.now spoilt.items ⊎ HasOther list.now spoilt.items) }
    ensures behind { IfOk result (λ spoilt. at + 1 ≡ length list.now →
        spoilt.items ≡ list.now ++ more ∷ []) }
    ensures parts { IfOk result (λ spoilt.
        spoilt.items ≡ list_by Flaw.AfterRoot list.now at quad more) }
{
    if at + 1 == list.len() {
        with_more(alloc, list, more)
    } else {
        with_other(alloc, list, at, quad)
    }
}

/// The list after the change at a place that may put in a fault of a kind.
fn changed(
    alloc: Global,
    standard: Standard,
    flaw: Flaw,
    list: &[u32],
    at: usize,
    word: u32,
) -> Result<Vec<u32>, OutOfMemory>
    requires { at < length list.now }
    ensures spoilt { IfOk result (λ spoilt. IsSpoiltList flaw list.now spoilt.items) }
    ensures sure { flaw ≢ Flaw.BadLength → flaw ≢ Flaw.BadInverse → IfOk result (λ spoilt.
        (nodes : ℕ) → IsListOfBus standard nodes list.now → least_nodes flaw ≤ nodes →
        ComesAt standard flaw list.now at → HasListFlaw standard spoilt.items flaw) }
    ensures value { IfOk result (λ spoilt. spoilt.items ≡ list_by flaw list.now at
        (other_by flaw standard (slice_index list.now at) word) word) }
{
    let quad = other_quad(flaw, standard, list[at], word);
    let is_last = at + 1 == list.len();
    match flaw {
        Flaw::Empty => Ok(Vec::new(alloc)),
        Flaw::Cut => ended(alloc, list, at, quad),
        Flaw::NoRoot if !is_last => front_of(alloc, list, at + 1),
        Flaw::AfterRoot => behind_root(alloc, list, at, quad, word),
        Flaw::TooMany => with_both(alloc, list, at, quad, word),
        _ => with_other(alloc, list, at, quad),
    }
}

/// The bytes of a list's capture.
fn captured(alloc: Global, list: &[u32]) -> Result<Vec<u8>, OutOfMemory>
    ensures { IfOk result (λ bytes. IsCaptureOf list.now bytes.items) }
{
    capture_of(alloc, list)
}

/// The bytes of a list's capture, cut off within the pair at a place.
#[tactic(auto, unfolding(crate::specs::SeededFlaw::bytes_by))]
fn cut_capture(alloc: Global, list: &[u32], at: usize, word: u32) -> Result<Vec<u8>, OutOfMemory>
    requires at { at < length list.now }
    requires few { length list.now ≤ 252 }
    ensures spoilt { IfOk result (λ bytes. IsSpoilt list.now bytes.items Flaw.BadLength) }
    ensures sure { IfOk result (λ bytes.
        (standard : Standard) → HasFlaw standard bytes.items Flaw.BadLength) }
    ensures value { IfOk result (λ bytes. (standard : Standard) →
        bytes.items ≡ bytes_by standard Flaw.BadLength list.now at word) }
{
    let mut bytes = capture_of(alloc, list)?;
    capture_is_read_back();
    bytes.truncate(8 * at + 1 + word as usize % 7);
    Ok(bytes)
}

/// Another byte, as a word says.
fn other_byte(byte: u8, word: u32) -> u8
    ensures other { result ≢ byte }
    ensures value { result ≡ byte_by byte word }
{
    byte ^ (word / 8 % 255 + 1) as u8
}

/// The bytes of a list's capture with another byte in the pair at a place.
#[tactic(auto, unfolding(crate::specs::SeededFlaw::bytes_by))]
fn turned_capture(alloc: Global, list: &[u32], at: usize, word: u32) -> Result<Vec<u8>, OutOfMemory>
    requires at { at < length list.now }
    requires few { length list.now ≤ 252 }
    ensures spoilt { IfOk result (λ bytes. IsSpoilt list.now bytes.items Flaw.BadInverse) }
    ensures sure { IfOk result (λ bytes.
        (standard : Standard) → HasFlaw standard bytes.items Flaw.BadInverse) }
    ensures value { IfOk result (λ bytes. (standard : Standard) →
        bytes.items ≡ bytes_by standard Flaw.BadInverse list.now at word) }
{
    let mut bytes = capture_of(alloc, list)?;
    capture_is_read_back();
    let place = 8 * at + word as usize % 8;
    bytes[place] = other_byte(bytes[place], word);
    Ok(bytes)
}

/// The bytes of a list's capture with a change at a place that may put in a fault of a kind.
#[tactic(auto, unfolding(crate::specs::SeededFlaw::bytes_by))]
pub(crate) fn spoilt_capture(
    alloc: Global,
    standard: Standard,
    flaw: Flaw,
    list: &[u32],
    at: usize,
    word: u32,
) -> Result<Vec<u8>, OutOfMemory>
    requires at { at < length list.now }
    requires few { length list.now ≤ 252 }
    ensures spoilt { IfOk result (λ bytes. IsSpoilt list.now bytes.items flaw) }
    ensures sure { IfOk result (λ bytes. (nodes : ℕ) → IsListOfBus standard nodes list.now →
        least_nodes flaw ≤ nodes → ComesAt standard flaw list.now at →
        HasFlaw standard bytes.items flaw) }
    ensures value { IfOk result (λ bytes. bytes.items ≡ bytes_by standard flaw list.now at word) }
{
    match flaw {
        Flaw::BadLength => cut_capture(alloc, list, at, word),
        Flaw::BadInverse => turned_capture(alloc, list, at, word),
        _ => {
            let spoilt = changed(alloc, standard, flaw, list, at, word)?;
            captured(alloc, &spoilt)
        }
    }
}
