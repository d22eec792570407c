//! A PHY packet in words.
ghost use Rattle.std.specs.Prelude.{◌≡◌, ◌+◌, ◌*◌, ◌<◌, ◌++◌, OnOk};
ghost use Rattle.self_id.specs.Node.{status_of};
ghost use Rattle.view_text.specs.Packet.{status_word, port, ports, zero_link, zero_power, zero_ports, more_text, config_text, link_on_text, extended_text, packet_text};
ghost use Rattle.phy_packet.specs.Packet.{IsValid};

use crate::words::{put_field, put_flag, put_reserved, truth};
use phy_packet::PhyPacket;
use topology_stack::OutOfMemory;

/// The word of a port status of two bits.
fn status_word(bits: u8) -> &'static [u8]
    ensures { result.now ≡ status_word (status_of bits) }
{
    match bits {
        0 => b" absent",
        1 => b" inactive",
        2 => b" parent",
        _ => b" child",
    }
}

/// Appends a port and its status.
#[tactic(auto, unfolding(crate::specs::Packet::port))]
fn put_port(out: &mut Vec<u8>, number: u8, bits: u8) -> Result<(), OutOfMemory>
    ensures { OnOk result (out.new.items ≡ out.old.items ++ port number bits) }
{
    put_field(out, b" p", u64::from(number))?;
    out.extend_from_slice(status_word(bits))?;
    Ok(())
}

/// Appends the eight ports up to the last one, of which 16 bits tell.
fn put_ports(out: &mut Vec<u8>, last: u8, bits: u16) -> Result<(), OutOfMemory>
    ensures { OnOk result (out.new.items ≡ out.old.items ++ ports 8 last bits) }
{
    for place in (0..8u8).rev() {
        let status = ((bits >> (2 * place)) % 4) as u8;
        put_port(out, last.saturating_sub(place), status)?;
    }
    Ok(())
}

/// Appends a packet zero's owner, link, gap count and speed.
fn put_zero_link(
    out: &mut Vec<u8>,
    phy_id: u8,
    link: bool,
    gap: u8,
    speed: u8,
) -> Result<(), OutOfMemory>
    ensures { OnOk result (out.new.items ≡ out.old.items ++ zero_link phy_id link gap speed) }
{
    put_field(out, b"self-ID zero phy_ID ", u64::from(phy_id))?;
    put_flag(out, b" L ", link)?;
    put_field(out, b" gap_cnt ", u64::from(gap))?;
    put_field(out, b" sp ", u64::from(speed))?;
    Ok(())
}

/// Appends what stands behind the speed of a packet zero, up to its ports.
fn put_zero_power(
    out: &mut Vec<u8>,
    delay: u8,
    contender: bool,
    power: u8,
) -> Result<(), OutOfMemory>
    ensures { OnOk result (out.new.items ≡ out.old.items ++ zero_power delay contender power) }
{
    put_reserved(out, b" del ", u64::from(delay))?;
    put_flag(out, b" c ", contender)?;
    put_field(out, b" pwr ", u64::from(power))?;
    Ok(())
}

/// Appends the ports of a packet zero, i and m.
fn put_zero_ports(
    out: &mut Vec<u8>,
    p0: u8,
    p1: u8,
    p2: u8,
    initiated: bool,
    more: bool,
) -> Result<(), OutOfMemory>
    ensures { OnOk result (out.new.items ≡ out.old.items ++ zero_ports p0 p1 p2 initiated more) }
{
    put_port(out, 0, p0)?;
    put_port(out, 1, p1)?;
    put_port(out, 2, p2)?;
    put_flag(out, b" i ", initiated)?;
    put_flag(out, b" m ", more)?;
    Ok(())
}

/// Appends a further packet with its number n, 0 to 7.
fn put_more(
    out: &mut Vec<u8>,
    phy_id: u8,
    n: u8,
    kept: u8,
    bits: u16,
    r: bool,
    more: bool,
) -> Result<(), OutOfMemory>
    requires { n < 8 }
    ensures { OnOk result (out.new.items
        ≡ out.old.items ++ more_text phy_id n kept bits r more) }
{
    put_field(out, b"self-ID n ", u64::from(n))?;
    put_field(out, b" phy_ID ", u64::from(phy_id))?;
    put_reserved(out, b" rsv ", u64::from(kept))?;
    put_ports(out, 10 + 8 * n, bits)?;
    put_reserved(out, b" r ", truth(r))?;
    put_flag(out, b" m ", more)?;
    Ok(())
}

/// Appends a PHY configuration packet.
fn put_config(
    out: &mut Vec<u8>,
    root_id: u8,
    force: bool,
    set_gap: bool,
    gap: u8,
    rest: u16,
) -> Result<(), OutOfMemory>
    ensures { OnOk result (out.new.items
        ≡ out.old.items ++ config_text root_id force set_gap gap rest) }
{
    put_field(out, b"PHY configuration root_ID ", u64::from(root_id))?;
    put_flag(out, b" R ", force)?;
    put_flag(out, b" T ", set_gap)?;
    put_field(out, b" gap_cnt ", u64::from(gap))?;
    put_reserved(out, b" rsv ", u64::from(rest))?;
    Ok(())
}

/// Appends a link-on packet.
fn put_link_on(out: &mut Vec<u8>, phy_id: u8, rest: u32) -> Result<(), OutOfMemory>
    ensures { OnOk result (out.new.items ≡ out.old.items ++ link_on_text phy_id rest) }
{
    put_field(out, b"link-on phy_ID ", u64::from(phy_id))?;
    put_reserved(out, b" rsv ", u64::from(rest))?;
    Ok(())
}

/// Appends an extended packet.
fn put_extended(out: &mut Vec<u8>, word: u32) -> Result<(), OutOfMemory>
    ensures { OnOk result (out.new.items ≡ out.old.items ++ extended_text word) }
{
    put_field(out, b"extended phy_ID ", u64::from((word >> 24) % 64))?;
    put_field(out, b" type ", u64::from((word >> 18) % 16))?;
    Ok(())
}

/// Appends a packet in words: its kind, and its fields by the standard's names (IEEE 1394a-2000,
/// PHY packets).
pub fn put_packet(out: &mut Vec<u8>, packet: &PhyPacket) -> Result<(), OutOfMemory>
    requires { IsValid packet.now }
    ensures { OnOk result (out.new.items ≡ out.old.items ++ packet_text packet.now) }
{
    match *packet {
        PhyPacket::Config {
            root_id,
            force,
            set_gap,
            gap,
            rest,
        } => { put_config(out, root_id, force, set_gap, gap, rest)? }
        PhyPacket::LinkOn { phy_id, rest } => put_link_on(out, phy_id, rest)?,
        PhyPacket::SelfZero {
            phy_id,
            link,
            gap,
            speed,
            delay,
            contender,
            power,
            p0,
            p1,
            p2,
            initiated,
            more,
        } => {
            put_zero_link(out, phy_id, link, gap, speed)?;
            put_zero_power(out, delay, contender, power)?;
            put_zero_ports(out, p0, p1, p2, initiated, more)?;
        }
        PhyPacket::SelfMore {
            phy_id,
            n,
            kept,
            fields,
            r,
            more,
        } => { put_more(out, phy_id, n, kept, fields, r, more)? }
        PhyPacket::Extended { word } => put_extended(out, word)?,
        PhyPacket::Other { .. } => out.extend_from_slice(b"no PHY packet")?,
    }
    Ok(())
}
