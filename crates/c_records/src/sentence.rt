//! The sentence of a fault's record.
ghost use Rattle.c_records.specs.Sentences.{IsPacketOf, IsSentence};

use crate::fault::tree_fault_in;
use crate::records::FaultRecord;
use capture_reading::ShortText;
use phy_packet::{PhyPacket, decode};
use self_id::Standard;
use view_text::tree_sentence;

/// The packet that a quadlet shows, if there is one.
fn shown(quad: Option<u32>) -> Option<PhyPacket>
    ensures { IsPacketOf quad result }
{
    match quad {
        Some(quad) => Some(decode(quad)),
        None => None,
    }
}

/// Returns the sentence of a list's fault by a standard. `quad` is the quadlet at the fault's place, and
/// `prior` the one before it, if there is one. It takes no memory.
pub fn record_sentence(
    standard: Standard,
    quad: u32,
    prior: Option<u32>,
    fault: &FaultRecord,
) -> ShortText
    ensures { IsSentence standard quad prior fault.now result }
{
    tree_sentence(standard, quad, shown(prior), tree_fault_in(fault))
}
