//! Configuration ROMs, both ways.

use config_rom::{
    BUS_NAME, BlockKind, CrcState, Entry, EntryType, Rom, blocks, decode_rom, encode_rom, rom_text,
    seal, seal_blocks,
};
use std::alloc::Global;
use std::test::Fail;

/// A ROM with a directory of two entries, of which one leads to a leaf.
const CAMERA: [u32; 12] = [
    0x0404_7a4b,
    0x3133_3934,
    0xf0ff_8002,
    0x00ff_ff12,
    0x0000_0034,
    0x0002_7dc8,
    0x0300_ffff,
    0x8100_0001,
    0x0003_ca63,
    0x0000_0001,
    0x0001_0001,
    0x807f_0054,
];

fn bytes_of(alloc: Global, quads: &[u32]) -> Result<Vec<u8>, Fail> {
    let mut bytes = Vec::new(alloc);
    for quad in quads {
        bytes.extend_from_slice(&quad.to_be_bytes())?;
    }
    Ok(bytes)
}

/// What is said of the camera.
const TEXT: &[u8] = b"rom quadlets 12 info 4 crc_length 4 crc good
info 31333934
info f0ff8002
info 00ffff12
info 00000034
directory 5 length 2 crc good
entry immediate 03 00ffff
entry leaf 01 000001 to 8
leaf 8 length 3 crc good
blocks 2
";

/// The ROM of these quadlets.
fn rom_of(alloc: Global, quads: &[u32]) -> Result<Rom, Fail> {
    let bytes = bytes_of(alloc, quads)?;
    Ok(decode_rom(alloc, &bytes)?)
}

/// Whether these are the quadlets of a ROM, and their bytes what it is written as.
fn is_written(alloc: Global, rom: &Rom, quads: &[u32]) -> Result<bool, Fail> {
    let bytes = bytes_of(alloc, quads)?;
    Ok(rom.quads() == quads && encode_rom(alloc, rom)?.as_slice() == bytes.as_slice())
}

/// Whether this is said of a ROM.
fn text_is(alloc: Global, rom: &Rom, text: &[u8]) -> Result<bool, Fail> {
    let list = blocks(alloc, rom)?;
    Ok(rom_text(alloc, rom, &list)?.as_slice() == text)
}

#[test]
fn reads_writes_and_tells(rt: HostRuntime) -> Result<(), Fail> {
    let rom = rom_of(rt.alloc(), &CAMERA)?;
    assert!(rt; is_written(rt.alloc(), &rom, &CAMERA)?);
    assert!(rt; text_is(rt.alloc(), &rom, TEXT)?);
    Ok(())
}

/// Whether a ROM is the camera's once it is sealed.
fn is_camera_sealed(rom: &mut Rom) -> bool {
    if usize::from(rom.crc_length()) >= rom.quads().len() {
        return false;
    }
    seal(rom);
    rom.quads() == CAMERA.as_slice()
}

/// The head of the camera's ROM with another CRC.
const OTHER_CRC: u32 = 0x0404_7a4c;

const BAD: CrcState = CrcState::Bad {
    kept: 0x7a4c,
    computed: 0x7a4b,
};

#[test]
fn seals(rt: HostRuntime) -> Result<(), Fail> {
    let mut quads = CAMERA;
    quads[0] = OTHER_CRC;
    let mut rom = rom_of(rt.alloc(), &quads)?;
    assert!(rt; rom.info_crc() == BAD && is_camera_sealed(&mut rom));
    Ok(())
}

/// Whether a ROM is the camera's once each of its blocks is sealed.
fn is_camera_with_sealed_blocks(rom: &mut Rom) -> bool {
    if usize::from(rom.crc_length()) >= rom.quads().len() {
        return false;
    }
    seal_blocks(rom).is_ok() && rom.quads() == CAMERA.as_slice()
}

/// Whether the places and the CRCs of a ROM's blocks are these.
fn crcs_are(alloc: Global, rom: &Rom, wanted: &[(u16, CrcState)]) -> Result<bool, Fail> {
    let mut states = Vec::new(alloc);
    let list = blocks(alloc, rom)?;
    for block in list.as_slice() {
        states.push((block.at, block.crc))?;
    }
    Ok(states.as_slice() == wanted)
}

// The camera's ROM without a CRC in any header.
#[test]
fn seals_each_block(rt: HostRuntime) -> Result<(), Fail> {
    let mut quads = CAMERA;
    quads[0] = 0x0404_0000;
    quads[5] = 0x0002_0000;
    quads[8] = 0x0003_0000;
    let mut rom = rom_of(rt.alloc(), &quads)?;
    assert!(rt; is_camera_with_sealed_blocks(&mut rom));
    let wanted = [(5, CrcState::Good), (8, CrcState::Good)];
    assert!(rt; crcs_are(rt.alloc(), &rom, &wanted)?);
    Ok(())
}

/// Two entries of the root directory lead to one place, as a directory and as a leaf, and two lead
/// to one leaf.
const SHARED: &[u32] = &[
    0x0200_0000,
    0x3133_3934,
    0,
    0x0004_0000,
    0xc100_0004,
    0x8100_0003,
    0x8200_0004,
    0x8300_0003,
    0x0001_0000,
    0x0000_0000,
    0x0000_0000,
];

/// What stands where in it.
const PLACES: &[(BlockKind, u16)] = &[
    (BlockKind::Directory, 3),
    (BlockKind::Directory, 8),
    (BlockKind::Leaf, 8),
    (BlockKind::Leaf, 10),
];

/// Whether the kinds and the places of a ROM's blocks are these.
fn places_are(alloc: Global, rom: &Rom, wanted: &[(BlockKind, u16)]) -> Result<bool, Fail> {
    let mut places = Vec::new(alloc);
    let list = blocks(alloc, rom)?;
    for block in list.as_slice() {
        places.push((block.kind, block.at))?;
    }
    Ok(places.as_slice() == wanted)
}

#[test]
fn blocks_are_shared(rt: HostRuntime) -> Result<(), Fail> {
    let rom = rom_of(rt.alloc(), SHARED)?;
    assert!(rt; places_are(rt.alloc(), &rom, PLACES)?);
    Ok(())
}

const INFO: [u32; 4] = [BUS_NAME, 0xf0ff_8002, 0x00ff_ff12, 0x0000_0034];

const ENTRIES: [u32; 2] = [0x0300_ffff, 0x8100_0001];

const LEAF: [u32; 4] = [0x0003_ca63, 0x0000_0001, 0x0001_0001, 0x807f_0054];

/// The camera's ROM from its parts, whose CRCs are left 0.
fn made(alloc: Global) -> Result<Rom, Fail> {
    Ok(Rom::new(alloc, &INFO, 4, &ENTRIES, &LEAF)?)
}

/// Whether a ROM has these parts.
fn has_parts(rom: &Rom, info: &[u32], entries: &[u32], rest: &[u32]) -> bool {
    rom.info() == info && rom.entries() == entries && rom.rest() == rest
}

#[test]
fn made_of_parts(rt: HostRuntime) -> Result<(), Fail> {
    let mut rom = made(rt.alloc())?;
    assert!(rt; has_parts(&rom, &INFO, &ENTRIES, &LEAF) && is_camera_sealed(&mut rom));
    Ok(())
}

/// The last entry and the first.
const TO_LEAF: Entry = Entry {
    entry_type: EntryType::Leaf,
    key: 1,
    value: 1,
    target: Some(8),
};

const VENDOR: Entry = Entry {
    entry_type: EntryType::Immediate,
    key: 3,
    value: 0xffff,
    target: None,
};

#[test]
fn entries_and_quadlets(rt: HostRuntime) -> Result<(), Fail> {
    let mut rom = made(rt.alloc())?;
    assert!(rt; rom.info_len() == 4 && rom.quads().len() == 12);
    assert!(rt; rom.entry(7) == TO_LEAF && rom.entry(6) == VENDOR);
    rom.set_quad(6, 0x0300_fffe);
    assert!(rt; rom.quads()[5] == 0x0002_0000 && rom.quads()[6] == 0x0300_fffe);
    Ok(())
}
