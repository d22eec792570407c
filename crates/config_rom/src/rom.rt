//! A configuration ROM, from bytes and to bytes.
ghost use Rattle.std.specs.Prelude.{◌≡◌, ◌≢◌, ◌↔◌, ◌+◌, ◌*◌, ◌/◌, ◌<◌, ◌≤◌, ◌^◌, ℕ, length, slice_index, slice_set, Err, Ok, Some, IfOk, IsTrue};
ghost use Rattle.quad_lanes.specs.Pairs.{quads_of};
ghost use Rattle.config_rom.specs.declared.fault.RomFault.{RomFault};
ghost use Rattle.config_rom.specs.declared.fault.RomStop.TheVariants.{Fault};
ghost use Rattle.config_rom.specs.Layout.{info_len_of, end_of};
ghost use Rattle.config_rom.specs.Rom.{Parts, IsRom, rom_quads, rom_bytes, unsealed, with_crc};
ghost use Rattle.config_rom.specs.Fault.{rom_fault};
ghost use Rattle.config_rom.specs.Answer.{IfFault, UnlessMemory};

use crate::fault::{RomFault, RomStop};
use crate::reach::end_of;
use byteorder::{BigEndian, ByteOrder};
use quad_lanes::{OutOfMemory, quads_of};
use std::alloc::Global;
use std::marker::Model;

/// The most quadlets of a ROM.
const MAX_QUADS: usize = 256;

/// The name of the bus, which the bus information block begins with: "1394".
pub const BUS_NAME: u32 = 0x3133_3934;

/// A configuration ROM: at most 256 quadlets, with a bus information block and a root directory
/// that are whole. In a contract it is the value of its parts.
#[derive(Debug, Drop)]
pub struct Rom {
    quads: Vec<u32>,
}

impl Model for Rom {
    ghost use Rattle.config_rom.specs.Rom.{Parts};
    ghost use Rattle.config_rom.specs.codings.Parts.{parts_of, HasLayout};

    ghost Value = { Parts };

    ghost view = { λ rom. parts_of rom.quads.items };

    ghost invariant = { λ rom. HasLayout rom.quads.items };
}

impl Rom {
    /// The ROM of these parts: the quadlets of the bus information block, of which the first is
    /// [`BUS_NAME`]; over how many quadlets behind quadlet 0 the CRC there is to be; the entries of
    /// the root directory; and every later quadlet. It has at most 256 quadlets, two of which are
    /// headers. Its CRCs are 0 until [`seal`](crate::seal) or
    /// [`seal_blocks`](crate::seal_blocks) sets them.
    pub fn new(
        alloc: Global,
        info: &[u32],
        crc_length: u8,
        entries: &[u32],
        rest: &[u32],
    ) -> Result<Rom, OutOfMemory>
        requires two { 2 ≤ length info.now }
        requires name { slice_index info.now 0 ≡ 0x31333934 }
        requires few { 2 + length info.now + length entries.now + length rest.now ≤ 256 }
        ensures { IfOk result (λ rom. rom ≡ unsealed info.now crc_length entries.now rest.now) }
    {
        let mut quads = Vec::new(alloc);
        quads.push(info.len() as u32 * 0x100_0000 + u32::from(crc_length) * 0x1_0000)?;
        quads.extend_from_slice(info)?;
        quads.push(entries.len() as u32 * 0x1_0000)?;
        quads.extend_from_slice(entries)?;
        quads.extend_from_slice(rest)?;
        Ok(Rom { quads })
    }

    /// The quadlets, at least 4 and at most 256.
    pub fn quads(&self) -> &[u32]
        ensures value { result.now ≡ rom_quads self.now }
        ensures valid { IsRom self.now }
    {
        self.quads.as_slice()
    }

    /// The number of quadlets of the bus information block, at least 2.
    pub fn info_len(&self) -> u8
        ensures { result ≡ self.now.info_len }
    {
        (self.quads[0] >> 24) as u8
    }

    /// Over how many quadlets behind quadlet 0 the CRC in quadlet 0 is.
    pub fn crc_length(&self) -> u8
        ensures { result ≡ self.now.crc_length }
    {
        ((self.quads[0] >> 16) % 256) as u8
    }

    /// The quadlets of the bus information block, of which the first is the name of the bus.
    pub fn info(&self) -> &[u32]
        ensures { result.now ≡ self.now.info }
    {
        let info_len = usize::from(self.info_len());
        &self.quads()[1..1 + info_len]
    }

    /// The entries of the root directory. [`Rom::entry`] has the fields of one.
    pub fn entries(&self) -> &[u32]
        ensures { result.now ≡ self.now.entries }
    {
        let root = 1 + usize::from(self.info_len());
        let quads = self.quads();
        &quads[root + 1..end_of(quads, root)]
    }

    /// Every quadlet behind the root directory.
    pub fn rest(&self) -> &[u32]
        ensures { result.now ≡ self.now.rest }
    {
        let root = 1 + usize::from(self.info_len());
        let quads = self.quads();
        &quads[end_of(quads, root)..]
    }

    /// Sets the quadlet at a place, in quadlets from 0. It is none of the first two, which are
    /// header and name, nor the header of the root directory. The CRCs stay as they are until they
    /// are sealed.
    pub fn set_quad(&mut self, place: usize, quad: u32)
        requires behind_name { 2 ≤ place }
        requires no_root { place ≢ 1 + self.old.info_len }
        requires inside { place < length (rom_quads self.old) }
        ensures { rom_quads self.new ≡ slice_set (rom_quads self.old) place quad }
    {
        self.quads[place] = quad;
    }

    /// Sets the CRC that quadlet 0 keeps.
    pub(crate) fn set_crc(&mut self, crc: u16)
        ensures { self.new ≡ record self.old { crc = crc } }
    {
        self.quads[0] = with_crc(self.quads[0], crc);
    }

    /// Sets the CRC that the header at a place keeps, which stands where the root directory does or
    /// behind it.
    pub(crate) fn set_crc_at(&mut self, at: usize, crc: u16)
        requires behind { 1 + self.old.info_len ≤ at }
        requires inside { at < length (rom_quads self.old) }
        ensures quads { rom_quads self.new ≡ slice_set (rom_quads self.old) at
            (with_crc (slice_index (rom_quads self.old) at) crc) }
        ensures info_len { self.new.info_len ≡ self.old.info_len }
        ensures crc_length { self.new.crc_length ≡ self.old.crc_length }
    {
        self.quads[at] = with_crc(self.quads[at], crc);
    }

    /// Sets the CRC that the root directory keeps.
    pub(crate) fn set_root_crc(&mut self, crc: u16)
        ensures { self.new ≡ record self.old { root_crc = crc } }
    {
        let root = 1 + (self.quads[0] >> 24) as usize;
        self.quads[root] = with_crc(self.quads[root], crc);
    }
}

/// A quadlet with another CRC in its low sixteen bits.
fn with_crc(quad: u32, crc: u16) -> u32
    ensures { result ≡ with_crc quad crc }
{
    (quad >> 16) * 0x1_0000 + u32::from(crc)
}

/// The quadlet at a place.
fn quad_at(bytes: &[u8], place: usize) -> u32
    requires { place < length (quads_of bytes.now) }
    ensures { result ≡ slice_index (quads_of bytes.now) place }
{
    BigEndian::read_u32(&bytes[4 * place..])
}

/// Whether the block at a place is whole.
fn is_whole(bytes: &[u8], place: usize) -> bool
    requires { place ≤ 256 }
    ensures { IsTrue result ↔ (end_of (quads_of bytes.now) place ≤ length (quads_of bytes.now)) }
{
    let count = bytes.len() / 4;
    place < count && (quad_at(bytes, place) >> 16) as usize + place + 1 <= count
}

/// The first rule that bytes break which are no ROM.
fn fault_of(bytes: &[u8]) -> Option<RomFault>
    ensures { result ≡ rom_fault bytes.now }
{
    let count = bytes.len() / 4;
    if bytes.len() % 4 != 0 {
        return Some(RomFault::RomLength { at: count });
    }
    if count > MAX_QUADS {
        return Some(RomFault::RomTooLong { at: MAX_QUADS });
    }
    if count == 0 {
        return Some(RomFault::RomEmpty { at: 0 });
    }
    let root = 1 + (quad_at(bytes, 0) >> 24) as usize;
    if root == 1 {
        return Some(RomFault::NoInfo { at: 0 });
    }
    if root == 2 {
        return Some(RomFault::Minimal { at: 0 });
    }
    if count < root {
        return Some(RomFault::RomCut { at: count });
    }
    let found = quad_at(bytes, 1);
    if found != BUS_NAME {
        return Some(RomFault::BusName { at: 1, found });
    }
    if !is_whole(bytes, root) {
        return Some(RomFault::RomCut { at: count });
    }
    None
}

/// The ROM with these bytes.
///
/// Refused, in this order, with
/// - `RomLength` where the bytes aren't whole quadlets;
/// - `RomTooLong` where there are more than 256 quadlets, and `RomEmpty` where there is none;
/// - `NoInfo` where the first byte is 0, and `Minimal` where it is 1;
/// - `RomCut` where the bus information block isn't whole;
/// - `BusName` where quadlet 1 isn't 0x31333934;
/// - `RomCut` where the root directory isn't whole.
pub fn decode_rom(alloc: Global, bytes: &[u8]) -> Result<Rom, RomStop>
    // The bytes are those of the ROM that is answered, and the ROM with these bytes is answered.
    ensures found { IfOk result (λ rom. rom_bytes rom ≡ bytes.now) }
    ensures valid { IfOk result (λ rom. IsRom rom) }
    ensures only { (rom : Parts) → IsRom rom → rom_bytes rom ≡ bytes.now →
        UnlessMemory result (Ok rom) }
    // A fault that is answered is the first, and the first is answered.
    ensures refused { IfFault result (λ fault. rom_fault bytes.now ≡ Some fault) }
    ensures exact { (fault : RomFault) → rom_fault bytes.now ≡ Some fault →
        result ≡ Err (Fault fault) }
{
    if let Some(fault) = fault_of(bytes) {
        return Err(RomStop::Fault(fault));
    }
    let list = quads_of(alloc, bytes)?;
    let quads = list.as_slice().to_vec(alloc)?;
    Ok(Rom { quads })
}

/// The bytes of a ROM.
pub fn encode_rom(alloc: Global, rom: &Rom) -> Result<Vec<u8>, OutOfMemory>
    ensures { IfOk result (λ bytes. bytes.items ≡ rom_bytes rom.now) }
{
    let mut bytes = Vec::new(alloc);
    for quad in rom.quads() {
        bytes.extend_from_slice(&quad.to_be_bytes())?;
    }
    Ok(bytes)
}
