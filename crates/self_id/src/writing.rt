//! The group of a node, written.
ghost use Rattle.std.specs.Prelude.{◌≡◌, ◌+◌, ◌*◌, ◌^◌, ◌<◌, ◌≤◌, [], length, IsTrue};
ghost use Rattle.phy_packet.specs.Packet.{quad_of};
ghost use Rattle.self_id.specs.Node.{status_bits};
ghost use Rattle.self_id.specs.Group.{fields, zero_packet, eight_packet, five_packet, group};

use crate::node::{PortStatus, SelfId};
use crate::quad_group::QuadGroup;
use phy_packet::{PhyPacket, encode};

/// The port field of a status.
fn field(status: PortStatus) -> u8
    ensures value { result ≡ status_bits status }
    ensures small { result < 4 }
{
    match status {
        PortStatus::Absent => 0,
        PortStatus::Unplugged => 1,
        PortStatus::Up => 2,
        PortStatus::Down => 3,
    }
}

/// The port fields of at most eight slots, the first at the top.
fn fields(ports: &[PortStatus]) -> u16
    requires { length ports.now ≤ 8 }
    ensures value { result ≡ fields ports.now }
    ensures small { result < 2 ^ (2 * length ports.now) }
{
    let mut value = 0;
    for port in ports {
        value = value * 4 + u16::from(field(*port));
    }
    value
}

/// Packet zero of a node.
fn zero_quad(node: &SelfId, id: u8, more: bool) -> u32
    requires { id ≤ 62 }
    ensures { result ≡ quad_of (zero_packet node.now id more) }
{
    let attrs = node.attrs;
    let ports = node.ports.as_slice();
    encode(&PhyPacket::SelfZero {
        phy_id: id,
        link: attrs.link,
        gap: attrs.gap,
        speed: attrs.speed,
        delay: attrs.delay,
        contender: attrs.contender,
        power: attrs.power,
        p0: field(ports[0]),
        p1: field(ports[1]),
        p2: field(ports[2]),
        initiated: attrs.initiated,
        more,
    })
}

/// A further packet of a node, counted from 0, that has eight of its slots. `kept` is its two
/// reserved bits and r.
fn eight_quad(node: &SelfId, id: u8, number: u8, kept: u8, more: bool) -> u32
    requires id { id ≤ 62 }
    requires number { number ≤ 2 }
    requires kept { kept < 8 }
    requires slots { 11 + 8 * number ≤ length node.now.ports }
    ensures { result ≡ quad_of (eight_packet node.now id number kept more) }
{
    let start = 3 + 8 * number as usize;
    encode(&PhyPacket::SelfMore {
        phy_id: id,
        n: number,
        kept: kept / 2,
        fields: fields(&node.ports.as_slice()[start..start + 8]),
        r: kept % 2 == 1,
        more,
    })
}

/// Packet n = 1 of a node with 16 slots.
fn five_quad(node: &SelfId, id: u8) -> u32
    requires id { id ≤ 62 }
    requires slots { length node.now.ports ≡ 16 }
    ensures { result ≡ quad_of (five_packet node.now id) }
{
    let carried = node.kept_b;
    encode(&PhyPacket::SelfMore {
        phy_id: id,
        n: 1,
        kept: (carried / 256) as u8,
        fields: fields(&node.ports.as_slice()[11..]) * 64 + carried / 4 % 64,
        r: carried / 2 % 2 == 1,
        more: carried % 2 == 1,
    })
}

/// Writes the group of a node with its ID, 0 to 62, into an empty list: one quadlet with 3 slots,
/// two with 11, three with 16 or 19, four with 27 (IEEE Std 1394-1995 and IEEE 1394a-2000, self-ID
/// packets).
pub fn write_group(s: &SelfId, id: u8, out: &mut QuadGroup)
    requires id { id ≤ 62 }
    requires empty { out.old ≡ [] }
    ensures { out.new ≡ group s.now id }
{
    let slots = s.ports.as_slice().len();
    if slots == 3 {
        out.push(zero_quad(s, id, false));
        return;
    }
    out.push(zero_quad(s, id, true));
    if slots == 11 {
        out.push(eight_quad(s, id, 0, s.kept_a, false));
        return;
    }
    out.push(eight_quad(s, id, 0, s.kept_a, true));
    if slots == 16 {
        out.push(five_quad(s, id));
        return;
    }
    let kept = (s.kept_b / 16) as u8;
    if slots == 19 {
        out.push(eight_quad(s, id, 1, kept, false));
        return;
    }
    let last = (s.kept_b / 2 % 8) as u8;
    out.push(eight_quad(s, id, 1, kept, true));
    out.push(eight_quad(s, id, 2, last, s.kept_b % 2 == 1));
}
