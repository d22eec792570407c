//! The pairs of a capture, a line each.
ghost use Rattle.std.specs.Prelude.{◌≡◌, ℕ, ◌+◌, ◌*◌, ◌/◌, ◌^◌, ◌<◌, ◌≤◌, All, List, length, drop, ◌++◌, IfOk, OnOk};
ghost use Rattle.quad_lanes.specs.Pairs.{pairs, firsts, quads_of};
ghost use Rattle.phy_packet.specs.Packet.{IsQuadletOf, IsValid};
ghost use Rattle.view_text.specs.Pairs.{ArePacketsOf, pair_quads, pair_line, below, lines, bytes_text, cut_line, at_end, pairs_text};

use crate::packet::put_packet;
use crate::words::put_field;
use phy_packet::{PhyPacket, decode};
use quad_lanes::quads_of;
use std::alloc::Global;
use topology_stack::{OutOfMemory, put_hex};

/// A text that stands below one pair of a capture.
#[derive(Debug, Drop)]
pub struct Note {
    /// The number of the pair, from 0.
    pub pair: usize,
    /// Whole lines.
    pub text: Vec<u8>,
}

/// The packets that the first quadlets of pairs show.
pub fn packets_of(alloc: Global, quads: &[u32]) -> Result<Vec<PhyPacket>, OutOfMemory>
    ensures { IfOk result (λ packets. ArePacketsOf (firsts quads.now) packets.items) }
{
    let mut packets = Vec::new(alloc);
    let mut rest = quads;
    while let [first, _, after @ ..] = rest {
        packets.push(decode(*first))?;
        rest = after;
    }
    Ok(packets)
}

/// Appends the number of a pair and its quadlets.
fn put_quads(out: &mut Vec<u8>, number: usize, first: u32, second: u32) -> Result<(), OutOfMemory>
    ensures { OnOk result (out.new.items ≡ out.old.items ++ pair_quads number first second) }
{
    put_field(out, b"pair ", number as u64)?;
    out.extend_from_slice(b" ")?;
    put_hex(out, 8, first)?;
    out.extend_from_slice(b" ")?;
    put_hex(out, 8, second)?;
    Ok(())
}

/// Appends the line of a pair.
fn put_pair(
    out: &mut Vec<u8>,
    number: usize,
    first: u32,
    second: u32,
    packet: &PhyPacket,
) -> Result<(), OutOfMemory>
    requires { IsValid packet.now }
    ensures { OnOk result (out.new.items
        ≡ out.old.items ++ pair_line number first second packet.now) }
{
    put_quads(out, number, first, second)?;
    out.extend_from_slice(b" ")?;
    put_packet(out, packet)?;
    out.extend_from_slice(b"\n")?;
    Ok(())
}

/// Appends the note where it stands below this pair.
fn put_below(out: &mut Vec<u8>, number: usize, note: &Note) -> Result<(), OutOfMemory>
    ensures { OnOk result (out.new.items
        ≡ out.old.items ++ below number note.now.pair note.now.text.items) }
{
    if number == note.pair {
        out.extend_from_slice(&note.text)?;
    }
    Ok(())
}

/// Appends the bytes behind the last whole pair.
#[tactic(auto, unfolding(crate::specs::Pairs::cut_line))]
fn put_cut(out: &mut Vec<u8>, number: usize, bytes: &[u8]) -> Result<(), OutOfMemory>
    ensures { OnOk result (out.new.items ≡ out.old.items ++ cut_line number bytes.now) }
{
    if bytes.is_empty() {
        return Ok(());
    }
    put_field(out, b"pair ", number as u64)?;
    out.extend_from_slice(b" ")?;
    put_bytes(out, bytes)?;
    out.extend_from_slice(b" cut\n")?;
    Ok(())
}

/// Appends bytes in hexadecimal digits.
fn put_bytes(out: &mut Vec<u8>, bytes: &[u8]) -> Result<(), OutOfMemory>
    ensures { OnOk result (out.new.items ≡ out.old.items ++ bytes_text bytes.now) }
{
    for byte in bytes {
        put_hex(out, 2, u32::from(*byte))?;
    }
    Ok(())
}

/// Appends the note where no pair that it stands below is whole.
fn put_at_end(out: &mut Vec<u8>, count: usize, note: &Note) -> Result<(), OutOfMemory>
    ensures { OnOk result (out.new.items
        ≡ out.old.items ++ at_end count note.now.pair note.now.text.items) }
{
    if count <= note.pair {
        out.extend_from_slice(&note.text)?;
    }
    Ok(())
}

/// Appends the lines of whole pairs with their packets, and the note below its pair.
fn put_lines(
    out: &mut Vec<u8>,
    quads: &[u32],
    packets: &[PhyPacket],
    note: &Note,
) -> Result<(), OutOfMemory>
    requires few { length quads.now < 2 ^ 60 }
    requires shown { ArePacketsOf (firsts quads.now) packets.now }
    ensures { OnOk result (out.new.items
        ≡ out.old.items ++ lines 0 (pairs quads.now) packets.now
        note.now.pair note.now.text.items) }
{
    let mut number = 0;
    let mut rest = quads;
    let mut left = packets;
    while let ([first, second, after @ ..], [packet, others @ ..]) = (rest, left) {
        put_pair(out, number, *first, *second, packet)?;
        put_below(out, number, note)?;
        number += 1;
        rest = after;
        left = others;
    }
    Ok(())
}

/// The text of a capture's bytes: a line for each pair with its packet field by field, and one for
/// the bytes behind the last whole pair; and the note below its pair, or at the end where there is
/// no such pair. `packets` are those of the pairs' first quadlets.
pub fn pairs_text(
    alloc: Global,
    bytes: &[u8],
    packets: &[PhyPacket],
    note: &Note,
) -> Result<Vec<u8>, OutOfMemory>
    requires few { length bytes.now < 2 ^ 60 }
    requires shown { ArePacketsOf (firsts (quads_of bytes.now)) packets.now }
    ensures { IfOk result (λ text. text.items
        ≡ pairs_text bytes.now packets.now note.now.pair note.now.text.items) }
{
    let mut out = Vec::new(alloc);
    let quads = quads_of(alloc, bytes)?;
    let count = bytes.len() / 8;
    put_lines(&mut out, quads.as_slice(), packets, note)?;
    put_cut(&mut out, count, &bytes[8 * count..])?;
    put_at_end(&mut out, count, note)?;
    Ok(out)
}
