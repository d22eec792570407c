//! What was found and what was wanted where a capture is refused, in a line and a sentence.
ghost use Rattle.std.specs.Prelude.{◌≡◌, ◌++◌, IfOk, OnOk};
ghost use Rattle.bus_view.specs.Sentence.{before_at, sentence, place, note};

use capture_hint::put_hint;
use capture_reading::{CaptureFault, fault_line, refusal_of};
use phy_packet::PhyPacket;
use self_id::Standard;
use std::alloc::Global;
use topology_stack::OutOfMemory;
use view_text::{
    Note, first_at, put_inverse_sentence, put_length_sentence, put_tree_sentence, second_at,
};

/// The packet before this place, if there is one.
fn before_at(packets: &[PhyPacket], at: usize) -> Option<PhyPacket>
    ensures { result ≡ before_at packets.now at }
{
    if at == 0 || at > packets.len() {
        None
    } else {
        Some(packets[at - 1])
    }
}

/// The number of the pair below which the line of a fault stands.
fn place(fault: CaptureFault) -> usize
    ensures { result ≡ place fault }
{
    refusal_of(fault).pair
}

/// Appends the sentence of a capture's fault.
fn put_sentence(
    out: &mut Vec<u8>,
    standard: Standard,
    quads: &[u32],
    packets: &[PhyPacket],
    fault: CaptureFault,
) -> Result<(), OutOfMemory>
    ensures { OnOk result (out.new.items
        ≡ out.old.items ++ sentence standard quads.now packets.now fault) }
{
    let at = place(fault);
    match fault {
        CaptureFault::BadLength { .. } => put_length_sentence(out),
        CaptureFault::BadInverse { pair } => {
            put_inverse_sentence(out, first_at(quads, pair), second_at(quads, pair))
        }
        CaptureFault::Tree(fault) => {
            let before = before_at(packets, at);
            put_tree_sentence(out, standard, first_at(quads, at), before, fault)
        }
    }
}

/// The line of a fault and its sentence by a standard, to stand below the pair at fault, and a hint where
/// the bytes look like something else. `quads` are the quadlets of the bytes, two a pair, and `packets`
/// those of the pairs' first ones.
pub(crate) fn note_of(
    alloc: Global,
    standard: Standard,
    bytes: &[u8],
    quads: &[u32],
    packets: &[PhyPacket],
    fault: CaptureFault,
) -> Result<Note, OutOfMemory>
    ensures { IfOk result (λ n. (n.pair ≡ place fault)
        × (n.text.items ≡ note standard bytes.now quads.now packets.now fault)) }
{
    let mut text = Vec::new(alloc);
    let line = fault_line(fault);
    text.extend_from_slice(line.as_bytes())?;
    put_sentence(&mut text, standard, quads, packets, fault)?;
    put_hint(&mut text, bytes)?;
    Ok(Note {
        pair: place(fault),
        text,
    })
}
