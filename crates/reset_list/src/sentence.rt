//! What was found and what was wanted where a list is refused, in a sentence.
ghost use Rattle.std.specs.Prelude.{◌≡◌, ◌++◌, IfOk, OnOk};
ghost use Rattle.reset_list.specs.Sentence.{packet_count, quad_at, IsBefore, sentence, IsRefusalShown};

use crate::texts::put_refused;
use capture_reading::{CaptureFault, refusal_of};
use log_line::Origin;
use phy_packet::{PhyPacket, decode};
use self_id::Standard;
use std::alloc::{AllocError, Global};
use view_text::{
    first_at, put_inverse_sentence, put_length_sentence, put_tree_sentence, second_at,
};

/// How many packets are whole in a list.
fn packet_count(origin: Origin, list: &[u32]) -> usize
    ensures { result ≡ packet_count origin list.now }
{
    match origin {
        Origin::Controller => list.len() / 2,
        Origin::Core => list.len(),
    }
}

/// The quadlet of the packet at this place, where there is one, and else 0.
fn quad_at(origin: Origin, list: &[u32], at: usize) -> u32
    ensures { result ≡ quad_at origin list.now at }
{
    match origin {
        Origin::Controller => first_at(list, at),
        Origin::Core => { if at < list.len() { list[at] } else { 0 } }
    }
}

/// The packet before this place, if there is one.
fn before_at(origin: Origin, list: &[u32], at: usize) -> Option<PhyPacket>
    ensures { IsBefore origin list.now at result }
{
    if at == 0 || at > packet_count(origin, list) {
        return None;
    }
    Some(decode(quad_at(origin, list, at - 1)))
}

/// Appends the sentence on a list's fault, where this packet stands before its place.
fn put_sentence(
    out: &mut Vec<u8>,
    standard: Standard,
    origin: Origin,
    list: &[u32],
    before: Option<PhyPacket>,
    fault: CaptureFault,
) -> Result<(), AllocError>
    ensures { OnOk result (out.new.items
        ≡ out.old.items ++ sentence standard origin list.now before fault) }
{
    let at = refusal_of(fault).pair;
    match fault {
        CaptureFault::BadLength { .. } => put_length_sentence(out),
        CaptureFault::BadInverse { pair } => {
            put_inverse_sentence(out, first_at(list, pair), second_at(list, pair))
        }
        CaptureFault::Tree(fault) => {
            put_tree_sentence(out, standard, quad_at(origin, list, at), before, fault)
        }
    }
}

/// What is shown of a reset, behind its head, whose list is refused.
pub(crate) fn refusal_text(
    alloc: Global,
    standard: Standard,
    origin: Origin,
    head: &[u8],
    list: &[u32],
    fault: CaptureFault,
) -> Result<Vec<u8>, AllocError>
    ensures { IfOk result (λ text.
        IsRefusalShown standard origin head.now list.now fault text.items) }
{
    let before = before_at(origin, list, refusal_of(fault).pair);
    let mut text = Vec::new(alloc);
    put_refused(&mut text, head, fault)?;
    put_sentence(&mut text, standard, origin, list, before, fault)?;
    Ok(text)
}
