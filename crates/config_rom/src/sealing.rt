//! Good CRCs.
ghost use Rattle.std.specs.Prelude.{◌≡◌, ◌↔◌, ◌+◌, ◌<◌, ◌≤◌, ℕ, true, length, take, drop, Err, OnOk, OnErr};
ghost use Rattle.topology_map.specs.Crc.{IsCrc};
ghost use Rattle.config_rom.specs.declared.fault.RomFault.{RomFault};
ghost use Rattle.config_rom.specs.declared.block.BlockKind.{BlockKind};
ghost use Rattle.config_rom.specs.Layout.{end_of};
ghost use Rattle.config_rom.specs.Rom.{IsRom, rom_quads};
ghost use Rattle.config_rom.specs.Block.{BlocksRefused};
ghost use Rattle.config_rom.specs.Seal.{Seals, SealsBlocks, SealedBlocksAreGood};
ghost use Rattle.config_rom.specs.codings.Sealing.{SealsAt, SealedFrom};
ghost use Rattle.config_rom.specs.codings.Marks.{has_mark};

use crate::block::BlockKind;
use crate::fault::RomFault;
use crate::marks::Marks;
use crate::reach::{end_of, reach};
use crate::rom::Rom;
use topology_map::crc16;

/// Sets the CRC of the root directory, and then that of quadlet 0, to the computed ones. Every
/// other bit stays. It takes no memory.
///
/// `crc_length` passes the end of no ROM that is to be sealed: [`Rom::info_crc`] answers `Past`
/// where it does.
pub fn seal(rom: &mut Rom)
    requires { rom.old.crc_length ≤ length (drop 1 (rom_quads rom.old)) }
    ensures { Seals rom.old rom.new }
{
    let root = 1 + usize::from(rom.info_len());
    let quads = rom.quads();
    let root_crc = crc16(&quads[root + 1..end_of(quads, root)]);
    rom.set_root_crc(root_crc);
    let over = usize::from(rom.crc_length());
    let crc = crc16(&rom.quads()[1..1 + over]);
    rom.set_crc(crc);
}

/// Sets the CRC in the header of the block at a place, which is whole.
fn seal_block(rom: &mut Rom, at: usize)
    requires behind { 1 + rom.old.info_len ≤ at }
    requires whole { end_of (rom_quads rom.old) at ≤ length (rom_quads rom.old) }
    ensures sealed { SealsAt (rom_quads rom.old) (rom_quads rom.new) at }
    ensures info_len { rom.new.info_len ≡ rom.old.info_len }
    ensures crc_length { rom.new.crc_length ≡ rom.old.crc_length }
{
    let quads = rom.quads();
    let crc = crc16(&quads[at + 1..end_of(quads, at)]);
    rom.set_crc_at(at, crc);
}

/// Sets the CRC that quadlet 0 keeps.
fn seal_first(rom: &mut Rom)
    requires { rom.old.crc_length ≤ length (drop 1 (rom_quads rom.old)) }
    ensures valid { IsRom rom.old }
    ensures crc { IsCrc (take rom.old.crc_length (drop 1 (rom_quads rom.old))) rom.new.crc }
    ensures others { rom.new ≡ record rom.old { crc = rom.new.crc } }
{
    let over = usize::from(rom.crc_length());
    let crc = crc16(&rom.quads()[1..1 + over]);
    rom.set_crc(crc);
}

/// Sets the CRC in the header of each marked block, from the last one down, so that the CRC of a
/// block is over headers that have theirs.
fn seal_marked(rom: &mut Rom, marks: &Marks, root: usize, count: usize)
    requires root { root ≡ 1 + rom.old.info_len }
    requires count { count ≡ length (rom_quads rom.old) }
    requires inside { root ≤ count }
    requires few { count ≤ 256 }
    requires whole { (k : BlockKind) (p : ℕ) → p < 256 → has_mark marks.now k p ≡ true →
        end_of (rom_quads rom.old) p ≤ length (rom_quads rom.old) }
    ensures sealed { SealedFrom (rom_quads rom.old) (rom_quads rom.new) marks.now root }
    ensures info_len { rom.new.info_len ≡ rom.old.info_len }
    ensures crc_length { rom.new.crc_length ≡ rom.old.crc_length }
{
    for at in (root..count).rev() {
        if marks.has(BlockKind::Directory, at) || marks.has(BlockKind::Leaf, at) {
            seal_block(rom, at);
        }
    }
}

/// Sets the CRC of each block that the root directory leads to, itself included, and then that of
/// quadlet 0, to the computed ones. Every other bit stays. It takes no memory.
///
/// Refused for the first fault of a block, as [`blocks`](crate::blocks) answers it; the ROM is then
/// as it was. `crc_length` passes the end of no ROM that is to be sealed.
pub fn seal_blocks(rom: &mut Rom) -> Result<(), RomFault>
    requires { rom.old.crc_length ≤ length (drop 1 (rom_quads rom.old)) }
    ensures sealed { OnOk result (SealsBlocks rom.old rom.new) }
    // The first fault of the blocks is answered, and no other.
    ensures refused { (fault : RomFault) → (result ≡ Err fault) ↔ BlocksRefused rom.old fault }
    ensures err { OnErr result (rom.new ≡ rom.old) }
{
    let quads = rom.quads();
    let count = quads.len();
    let root = 1 + usize::from(rom.info_len());
    let marks = match reach(quads, root) {
        Ok(marks) => marks,
        Err(fault) => return Err(fault),
    };
    seal_marked(rom, &marks, root, count);
    seal_first(rom);
    Ok(())
}

/// A law: each block of a ROM that [`seal_blocks`] has sealed has a good CRC, where no header of a
/// block stands among the entries of a directory.
pub fn sealed_blocks_are_good()
    ensures { SealedBlocksAreGood }
{}
