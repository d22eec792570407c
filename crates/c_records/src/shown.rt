//! A node and its slots as records.
ghost use Rattle.std.specs.Prelude.{◌≡◌};
ghost use Rattle.c_records.specs.Shown.{id_or_none, slot_record, said};

use crate::records::{MAX_SLOTS, NodeRecord, SlotRecord};
use self_id::{PortStatus, SelfId};

/// The number that names no node: 63 means all of them.
const NO_NODE: u8 = 63;

/// A slot that a node doesn't have.
pub const NO_SLOT: SlotRecord = SlotRecord {
    status: 0,
    peer: NO_NODE,
};

/// An ID, or the number that names no node.
pub fn id_or_none(id: Option<u8>) -> u8
    ensures { result ≡ id_or_none id }
{
    match id {
        Some(id) => id,
        None => NO_NODE,
    }
}

/// The record of a slot with what stands at its other end.
pub fn slot_record(status: PortStatus, peer: Option<u8>) -> SlotRecord
    ensures { result ≡ slot_record status peer }
{
    let status = match status {
        PortStatus::Absent => 0,
        PortStatus::Unplugged => 1,
        PortStatus::Up => 2,
        PortStatus::Down => 3,
    };
    SlotRecord {
        status,
        peer: id_or_none(peer),
    }
}

/// The record of what a node says of itself, with its ID and its slots.
pub fn said(id: u8, node: &SelfId, slots: [SlotRecord; MAX_SLOTS]) -> NodeRecord
    ensures { result ≡ said id node.now slots }
{
    let attrs = node.attrs;
    NodeRecord {
        id,
        link: u8::from(attrs.link),
        gap: attrs.gap,
        speed: attrs.speed,
        contender: u8::from(attrs.contender),
        power: attrs.power,
        initiated: u8::from(attrs.initiated),
        slot_count: node.ports.as_slice().len() as u8,
        slots,
    }
}
