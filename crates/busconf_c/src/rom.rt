//! Configuration ROMs.
ghost use Rattle.std.specs.Prelude.{◌≡◌, map};
ghost use Rattle.c_border.specs.Places.{IsCopied};
ghost use Rattle.busconf_c.specs.Roms.{rom_record, block_with, block_record, TellsBlocks, TellsRom};

use crate::records::{BlockRecord, RomFaultRecord};
use c_border::{NO_MEMORY, OK, REFUSED, TOO_SHORT};
use config_rom::{
    Block, BlockKind, CrcState, Rom, RomFault, RomStop, blocks, decode_rom, rom_refusal,
};
use std::alloc::Global;

/// The record of a fault.
fn rom_record(fault: RomFault) -> RomFaultRecord
    ensures { result ≡ rom_record fault }
{
    let refusal = rom_refusal(fault);
    RomFaultRecord {
        at: refusal.at,
        found: refusal.found,
        kind: refusal.number,
    }
}

/// The record of a block with what is known of its CRC.
fn block_with(block: Block, crc: u8, kept: u16, computed: u16) -> BlockRecord
    ensures { result ≡ block_with block crc kept computed }
{
    let kind = match block.kind {
        BlockKind::Directory => 1,
        BlockKind::Leaf => 2,
    };
    BlockRecord {
        at: block.at,
        length: block.len,
        kept,
        computed,
        kind,
        crc,
    }
}

/// The record of a block.
fn block_record(block: Block) -> BlockRecord
    ensures { result ≡ block_record block }
{
    match block.crc {
        CrcState::Good => block_with(block, 1, 0, 0),
        CrcState::Bad { kept, computed } => block_with(block, 2, kept, computed),
        CrcState::Past => block_with(block, 3, 0, 0),
    }
}

/// Writes the records of blocks to the front of a place, where it has room, and tells how many they
/// are.
fn tell_blocks(list: &[Block], place: &mut [BlockRecord], needed: &mut usize) -> u32
    ensures { IsCopied (map block_record list.now) place.old place.new needed.new result }
{
    *needed = list.len();
    if place.len() < list.len() {
        return TOO_SHORT;
    }
    for (i, block) in list.iter().enumerate() {
        place[i] = block_record(*block);
    }
    OK
}

/// Tells the blocks of a ROM, or their first fault.
fn tell_rom(
    alloc: Global,
    rom: &Rom,
    place: &mut [BlockRecord],
    needed: &mut usize,
    fault: &mut RomFaultRecord,
) -> u32
    ensures { TellsBlocks rom.now place.old place.new needed.old needed.new fault.old fault.new
        result }
{
    match blocks(alloc, rom) {
        Ok(list) => tell_blocks(list.as_slice(), place, needed),
        Err(RomStop::Fault(found)) => {
            *fault = rom_record(found);
            REFUSED
        }
        Err(RomStop::Memory(_)) => NO_MEMORY,
    }
}

/// Tells the blocks of a configuration ROM, or why there are none.
#[unsafe(no_mangle)]
pub extern "C" fn busconf_rom_check(
    alloc: Global,
    bytes: &[u8],
    place: &mut [BlockRecord],
    needed: &mut usize,
    fault: &mut RomFaultRecord,
) -> u32
    ensures { TellsRom bytes.now place.old place.new needed.old needed.new fault.old fault.new
        result }
{
    match decode_rom(alloc, bytes) {
        Ok(rom) => tell_rom(alloc, &rom, place, needed, fault),
        Err(RomStop::Fault(found)) => {
            *fault = rom_record(found);
            REFUSED
        }
        Err(RomStop::Memory(_)) => NO_MEMORY,
    }
}
