//! From a quadlet to its packet and back.
ghost use Rattle.std.specs.Prelude.{◌≡◌, ◌<◌, ◌^◌, ◌/◌, ◌%◌, ◌↔◌, ◌||◌, IsTrue};
ghost use Rattle.phy_packet.specs.Packet.{quad_of, is_packet_zero, IsValid};
ghost use Rattle.phy_packet.specs.declared.packet.PhyPacket.{PhyPacket};

use crate::packet::PhyPacket;

// How many bits stand below each field.
const TOP: u32 = 30;

const PHY_ID: u32 = 24;

const FORCE: u32 = 23;

const SET_GAP: u32 = 22;

const FURTHER: u32 = 23;

const LINK: u32 = 22;

const GAP: u32 = 16;

const SPEED: u32 = 14;

const DELAY: u32 = 12;

const CONTENDER: u32 = 11;

const POWER: u32 = 8;

const P0: u32 = 6;

const P1: u32 = 4;

const P2: u32 = 2;

const INITIATED: u32 = 1;

const NUMBER: u32 = 20;

const KEPT: u32 = 18;

const FIELDS: u32 = 2;

const R: u32 = 1;

#[inline(always)]
fn config_or_extended(quad: u32) -> PhyPacket
    requires { quad / 2 ^ 30 ≡ 0 }
    ensures valid { IsValid result }
    ensures shown { quad_of result ≡ quad }
{
    let force = (quad >> FORCE) % 2 == 1;
    let set_gap = (quad >> SET_GAP) % 2 == 1;
    if force || set_gap {
        PhyPacket::Config {
            root_id: ((quad >> PHY_ID) % 64) as u8,
            force,
            set_gap,
            gap: ((quad >> GAP) % 64) as u8,
            rest: (quad % 0x1_0000) as u16,
        }
    } else {
        PhyPacket::Extended { word: quad }
    }
}

#[inline(always)]
fn self_zero(quad: u32) -> PhyPacket
    requires top { quad / 2 ^ 30 ≡ 2 }
    requires zero { quad / 2 ^ 23 % 2 ≡ 0 }
    ensures valid { IsValid result }
    ensures shown { quad_of result ≡ quad }
{
    PhyPacket::SelfZero {
        phy_id: ((quad >> PHY_ID) % 64) as u8,
        link: (quad >> LINK) % 2 == 1,
        gap: ((quad >> GAP) % 64) as u8,
        speed: ((quad >> SPEED) % 4) as u8,
        delay: ((quad >> DELAY) % 4) as u8,
        contender: (quad >> CONTENDER) % 2 == 1,
        power: ((quad >> POWER) % 8) as u8,
        p0: ((quad >> P0) % 4) as u8,
        p1: ((quad >> P1) % 4) as u8,
        p2: ((quad >> P2) % 4) as u8,
        initiated: (quad >> INITIATED) % 2 == 1,
        more: quad % 2 == 1,
    }
}

#[inline(always)]
fn self_more(quad: u32) -> PhyPacket
    requires top { quad / 2 ^ 30 ≡ 2 }
    requires one { quad / 2 ^ 23 % 2 ≡ 1 }
    ensures valid { IsValid result }
    ensures shown { quad_of result ≡ quad }
{
    PhyPacket::SelfMore {
        phy_id: ((quad >> PHY_ID) % 64) as u8,
        n: ((quad >> NUMBER) % 8) as u8,
        kept: ((quad >> KEPT) % 4) as u8,
        fields: ((quad >> FIELDS) % 0x1_0000) as u16,
        r: (quad >> R) % 2 == 1,
        more: quad % 2 == 1,
    }
}

/// The packet that a quadlet shows. Every quadlet shows exactly one.
///
/// `encode` of the answer is `quad` again, and `decode` of an encoded packet is that packet.
#[inline(always)]
pub fn decode(quad: u32) -> PhyPacket
    ensures valid { IsValid result }
    ensures shown { quad_of result ≡ quad }
    ensures only { (p : PhyPacket) → IsValid p → quad_of p ≡ quad → result ≡ p }
{
    match quad >> TOP {
        0 => config_or_extended(quad),
        1 => PhyPacket::LinkOn {
            phy_id: ((quad >> PHY_ID) % 64) as u8,
            rest: quad % 0x100_0000,
        },
        2 if (quad >> FURTHER) % 2 == 0 => self_zero(quad),
        2 => self_more(quad),
        _ => PhyPacket::Other { word: quad },
    }
}

/// The first quadlet of a packet whose fields fit, as `is_valid` tells.
pub fn encode(packet: &PhyPacket) -> u32
    requires { IsValid packet.now }
    ensures { result ≡ quad_of packet.now }
{
    match *packet {
        PhyPacket::Config {
            root_id,
            force,
            set_gap,
            gap,
            rest,
        } => {
            (u32::from(root_id) << PHY_ID)
                + (u32::from(force) << FORCE)
                + (u32::from(set_gap) << SET_GAP)
                + (u32::from(gap) << GAP)
                + u32::from(rest)
        }
        PhyPacket::LinkOn { phy_id, rest } => { (1 << TOP) + (u32::from(phy_id) << PHY_ID) + rest }
        PhyPacket::SelfZero {
            phy_id,
            link,
            gap,
            speed,
            delay,
            contender,
            power,
            p0,
            p1,
            p2,
            initiated,
            more,
        } => {
            (2 << TOP)
                + (u32::from(phy_id) << PHY_ID)
                + (u32::from(link) << LINK)
                + (u32::from(gap) << GAP)
                + (u32::from(speed) << SPEED)
                + (u32::from(delay) << DELAY)
                + (u32::from(contender) << CONTENDER)
                + (u32::from(power) << POWER)
                + (u32::from(p0) << P0)
                + (u32::from(p1) << P1)
                + (u32::from(p2) << P2)
                + (u32::from(initiated) << INITIATED)
                + u32::from(more)
        }
        PhyPacket::SelfMore {
            phy_id,
            n,
            kept,
            fields,
            r,
            more,
        } => {
            (2 << TOP)
                + (u32::from(phy_id) << PHY_ID)
                + (1 << FURTHER)
                + (u32::from(n) << NUMBER)
                + (u32::from(kept) << KEPT)
                + (u32::from(fields) << FIELDS)
                + (u32::from(r) << R)
                + u32::from(more)
        }
        PhyPacket::Extended { word } | PhyPacket::Other { word } => word,
    }
}

/// Whether a quadlet shows a self-ID packet zero. Each node sends exactly one.
pub fn is_packet_zero(quad: u32) -> bool
    ensures { result ≡ is_packet_zero quad }
{
    quad >> TOP == 2 && (quad >> FURTHER) % 2 == 0
}

fn config_fits(root_id: u8, force: bool, set_gap: bool, gap: u8) -> bool
    ensures { IsTrue result ↔ ((root_id < 64) × (gap < 64) × IsTrue (force || set_gap)) }
{
    root_id < 64 && gap < 64 && (force || set_gap)
}

fn attributes_fit(gap: u8, speed: u8, delay: u8, power: u8) -> bool
    ensures { IsTrue result ↔ ((gap < 64) × (speed < 4) × (delay < 4) × (power < 8)) }
{
    gap < 64 && speed < 4 && delay < 4 && power < 8
}

fn ports_fit(p0: u8, p1: u8, p2: u8) -> bool
    ensures { IsTrue result ↔ ((p0 < 4) × (p1 < 4) × (p2 < 4)) }
{
    p0 < 4 && p1 < 4 && p2 < 4
}

fn further_fits(phy_id: u8, n: u8, kept: u8) -> bool
    ensures { IsTrue result ↔ ((phy_id < 64) × (n < 8) × (kept < 4)) }
{
    phy_id < 64 && n < 8 && kept < 4
}

/// Whether every field of a packet fits its bits and the packet is one that `decode` can answer: a
/// `Config` has R or T, an `Extended` has neither and the top bits 00, an `Other` the top bits 11.
pub fn is_valid(packet: &PhyPacket) -> bool
    ensures { IsTrue result ↔ IsValid packet.now }
{
    match *packet {
        PhyPacket::Config {
            root_id,
            force,
            set_gap,
            gap,
            rest: _rest,
        } => config_fits(root_id, force, set_gap, gap),
        PhyPacket::LinkOn { phy_id, rest } => phy_id < 64 && rest < 0x100_0000,
        PhyPacket::SelfZero {
            phy_id,
            gap,
            speed,
            delay,
            power,
            p0,
            p1,
            p2,
            ..
        } => phy_id < 64 && attributes_fit(gap, speed, delay, power) && ports_fit(p0, p1, p2),
        PhyPacket::SelfMore {
            phy_id,
            n,
            kept,
            fields: _fields,
            ..
        } => further_fits(phy_id, n, kept),
        PhyPacket::Extended { word } => word >> TOP == 0 && (word >> SET_GAP) % 4 == 0,
        PhyPacket::Other { word } => word >> TOP == 3,
    }
}
