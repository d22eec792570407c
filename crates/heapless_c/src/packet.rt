//! A PHY packet, both ways.
ghost use Rattle.std.specs.Prelude.{◌≡◌};
ghost use Rattle.phy_packet.specs.Packet.{IsQuadletOf};
ghost use Rattle.phy_packet.specs.declared.packet.PhyPacket.{PhyPacket};
ghost use Rattle.heapless_c.specs.Packets.{blank, packet_record, packet_in, Encodes, RecordsAreReadBack};

use crate::records::PacketRecord;
use c_border::{OK, REFUSED};
use phy_packet::{PhyPacket, decode, encode, is_valid};

/// A record of this kind that has 0 in all other fields.
fn blank(kind: u8) -> PacketRecord
    ensures { result ≡ blank kind }
{
    PacketRecord {
        rest: 0,
        fields: 0,
        kind,
        phy_id: 0,
        force: 0,
        set_gap: 0,
        gap: 0,
        link: 0,
        speed: 0,
        delay: 0,
        contender: 0,
        power: 0,
        p0: 0,
        p1: 0,
        p2: 0,
        initiated: 0,
        more: 0,
        n: 0,
        kept: 0,
        r: 0,
    }
}

/// The record of a packet.
fn packet_record(packet: PhyPacket) -> PacketRecord
    ensures { result ≡ packet_record packet }
{
    match packet {
        PhyPacket::Config {
            root_id,
            force,
            set_gap,
            gap,
            rest,
        } => PacketRecord {
            phy_id: root_id,
            force: u8::from(force),
            set_gap: u8::from(set_gap),
            gap,
            rest: u32::from(rest),
            ..blank(1)
        },
        PhyPacket::LinkOn { phy_id, rest } => PacketRecord {
            phy_id,
            rest,
            ..blank(2)
        },
        PhyPacket::SelfZero {
            phy_id,
            link,
            gap,
            speed,
            delay,
            contender,
            power,
            p0,
            p1,
            p2,
            initiated,
            more,
        } => PacketRecord {
            phy_id,
            link: u8::from(link),
            gap,
            speed,
            delay,
            contender: u8::from(contender),
            power,
            p0,
            p1,
            p2,
            initiated: u8::from(initiated),
            more: u8::from(more),
            ..blank(3)
        },
        PhyPacket::SelfMore {
            phy_id,
            n,
            kept,
            fields,
            r,
            more,
        } => PacketRecord {
            phy_id,
            n,
            kept,
            fields,
            r: u8::from(r),
            more: u8::from(more),
            ..blank(4)
        },
        PhyPacket::Extended { word } => PacketRecord {
            rest: word,
            ..blank(5)
        },
        PhyPacket::Other { word } => PacketRecord {
            rest: word,
            ..blank(6)
        },
    }
}

/// The packet of a record, if its kind is one.
fn packet_in(shown: &PacketRecord) -> Option<PhyPacket>
    ensures { result ≡ packet_in shown.now }
{
    match shown.kind {
        1 => Some(PhyPacket::Config {
            root_id: shown.phy_id,
            force: shown.force != 0,
            set_gap: shown.set_gap != 0,
            gap: shown.gap,
            rest: (shown.rest % 0x1_0000) as u16,
        }),
        2 => Some(PhyPacket::LinkOn {
            phy_id: shown.phy_id,
            rest: shown.rest,
        }),
        3 => Some(PhyPacket::SelfZero {
            phy_id: shown.phy_id,
            link: shown.link != 0,
            gap: shown.gap,
            speed: shown.speed,
            delay: shown.delay,
            contender: shown.contender != 0,
            power: shown.power,
            p0: shown.p0,
            p1: shown.p1,
            p2: shown.p2,
            initiated: shown.initiated != 0,
            more: shown.more != 0,
        }),
        4 => Some(PhyPacket::SelfMore {
            phy_id: shown.phy_id,
            n: shown.n,
            kept: shown.kept,
            fields: shown.fields,
            r: shown.r != 0,
            more: shown.more != 0,
        }),
        5 => Some(PhyPacket::Extended { word: shown.rest }),
        6 => Some(PhyPacket::Other { word: shown.rest }),
        _ => None,
    }
}

/// Tells the packet that a quadlet shows.
#[unsafe(no_mangle)]
pub extern "C" fn busconf_decode(quad: u32, packet: &mut PacketRecord)
    ensures { (p : PhyPacket) × IsQuadletOf quad p × (packet.new ≡ packet_record p) }
{
    *packet = packet_record(decode(quad));
}

/// Tells the quadlet of a packet. A record that is no packet's is refused.
#[unsafe(no_mangle)]
pub extern "C" fn busconf_encode(packet: &PacketRecord, quad: &mut u32) -> u32
    ensures { Encodes packet.now quad.old quad.new result }
{
    match packet_in(packet) {
        Some(found) if is_valid(&found) => {
            *quad = encode(&found);
            OK
        }
        _ => REFUSED,
    }
}

/// A law: the packet of a packet's record is that packet.
pub fn records_are_read_back()
    ensures { RecordsAreReadBack }
{}
