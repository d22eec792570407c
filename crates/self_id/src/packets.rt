//! The packets of a group, one at a time.
ghost use Rattle.std.specs.Prelude.{◌≡◌, ◌≤◌, ◌<◌, ℕ, suc, true, length, drop, Ok, Err, IfOk, IfErr};
ghost use Rattle.self_id.specs.Node.{status_of};
ghost use Rattle.phy_packet.proofs.Lemmas.{packet_of};
ghost use Rattle.self_id.specs.Refused.{is_in_order};
ghost use Rattle.self_id.specs.codings.Reading.{and_then, owned, owned_at, zero_in, further_in, zero_from, further_from};

use crate::fault::GroupFault;
use crate::node::{Attrs, PortStatus};
use phy_packet::{PhyPacket, decode};

/// What packet zero says.
#[derive(Clone, Copy, Debug)]
pub(crate) struct ZeroPart {
    pub attrs: Attrs,
    pub p0: PortStatus,
    pub p1: PortStatus,
    pub p2: PortStatus,
    pub more: bool,
}

/// What a further packet says: two reserved bits, eight port fields, r and m.
#[derive(Clone, Copy, Debug)]
pub(crate) struct FurtherPart {
    pub kept: u8,
    pub fields: u16,
    pub r: bool,
    pub more: bool,
}

/// The status that a port field of two bits shows.
#[inline(always)]
pub(crate) fn status(field: u8) -> PortStatus
    ensures { result ≡ status_of field }
{
    match field {
        0 => PortStatus::Absent,
        1 => PortStatus::Unplugged,
        2 => PortStatus::Up,
        _ => PortStatus::Down,
    }
}

/// A packet that stands at a place as a self-ID packet of this node.
#[inline(always)]
fn owned(packet: PhyPacket, at: usize, wanted: u8) -> Result<PhyPacket, GroupFault>
    ensures { result ≡ owned at wanted packet }
{
    match packet {
        PhyPacket::SelfZero { phy_id: found, .. } | PhyPacket::SelfMore { phy_id: found, .. } => {
            if found == wanted {
                Ok(packet)
            } else {
                Err(GroupFault::WrongId { at, found, wanted })
            }
        }
        _ => Err(GroupFault::NotSelfId { at }),
    }
}

/// The self-ID packet of this node at a place.
#[inline(always)]
fn owned_packet(quads: &[u32], at: usize, wanted: u8) -> Result<PhyPacket, GroupFault>
    requires { at ≤ length quads.now }
    ensures { result ≡ owned_at at wanted (drop at quads.now) }
{
    if at == quads.len() {
        return Err(GroupFault::Cut { at });
    }
    owned(decode(quads[at]), at, wanted)
}

/// The quadlet at a place, where it shows packet zero of this node.
#[inline(always)]
pub(crate) fn zero_quad(quads: &[u32], at: usize, wanted: u8) -> Result<u32, GroupFault>
    requires { at ≤ length quads.now }
    ensures ok { IfOk result (λ quad. Ok (zero_in (packet_of quad))
        ≡ and_then (owned_at at wanted (drop at quads.now)) (zero_from at)) }
    ensures order { IfOk result (λ quad. is_in_order 0 (packet_of quad) ≡ true) }
    ensures err { IfErr result (λ f. Err f
        ≡ and_then (owned_at at wanted (drop at quads.now)) (zero_from at)) }
{
    match owned_packet(quads, at, wanted)? {
        PhyPacket::SelfZero { .. } => Ok(quads[at]),
        _ => Err(GroupFault::BadOrder { at }),
    }
}

/// What a packet zero says that a quadlet shows.
#[inline(always)]
pub(crate) fn zero_part(quad: u32) -> ZeroPart
    requires { is_in_order 0 (packet_of quad) ≡ true }
    ensures { result ≡ zero_in (packet_of quad) }
{
    match decode(quad) {
        PhyPacket::SelfZero {
            link,
            gap,
            speed,
            delay,
            contender,
            power,
            p0,
            p1,
            p2,
            initiated,
            more,
            ..
        } => ZeroPart {
            attrs: Attrs {
                link,
                gap,
                speed,
                delay,
                contender,
                power,
                initiated,
            },
            p0: status(p0),
            p1: status(p1),
            p2: status(p2),
            more,
        },
        _ => unreachable!(),
    }
}

/// The quadlet at a place, where it shows the further packet of this node with this number.
#[inline(always)]
pub(crate) fn further_quad(
    quads: &[u32],
    at: usize,
    wanted: u8,
    number: u8,
) -> Result<u32, GroupFault>
    requires { at ≤ length quads.now }
    ensures ok { IfOk result (λ quad. Ok (further_in (packet_of quad))
        ≡ and_then (owned_at at wanted (drop at quads.now)) (further_from at number)) }
    ensures order { IfOk result (λ quad. is_in_order (suc number) (packet_of quad) ≡ true) }
    ensures err { IfErr result (λ f. Err f
        ≡ and_then (owned_at at wanted (drop at quads.now)) (further_from at number)) }
{
    match owned_packet(quads, at, wanted)? {
        PhyPacket::SelfMore { n, .. } if n == number => Ok(quads[at]),
        _ => Err(GroupFault::BadOrder { at }),
    }
}

/// What a further packet says that a quadlet shows.
#[inline(always)]
pub(crate) fn further_part(quad: u32) -> FurtherPart
    requires { (number : ℕ) × (is_in_order (suc number) (packet_of quad) ≡ true) }
    ensures { result ≡ further_in (packet_of quad) }
{
    match decode(quad) {
        PhyPacket::SelfMore {
            kept,
            fields,
            r,
            more,
            ..
        } => FurtherPart {
            kept,
            fields,
            r,
            more,
        },
        _ => unreachable!(),
    }
}
