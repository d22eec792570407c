//! The text of a ROM.
ghost use Rattle.std.specs.Prelude.{◌≡◌, ◌+◌, ◌<◌, ◌≤◌, ◌++◌, All, length, IfOk, OnOk};
ghost use Rattle.config_rom.specs.declared.block.BlockKind.{BlockKind};
ghost use Rattle.config_rom.specs.Layout.{end_of};
ghost use Rattle.config_rom.specs.Block.{AreBlocks, type_of, key_of, value_of, kind_of};
ghost use Rattle.config_rom.specs.Text.{bad_text, state_text, field, first_line, info_line, info_lines, type_text, target_text, entry_line, entry_lines, kind_text, block_line, inside_lines, block_lines, last_line, IsRomText};

use crate::block::{Block, BlockKind, BlockList};
use crate::crc::CrcState;
use crate::reach::{kind_of, value_of};
use crate::rom::Rom;
use quad_lanes::OutOfMemory;
use std::alloc::Global;
use topology_stack::{put_hex, put_number};

/// Appends a word and a number.
#[tactic(auto, unfolding(crate::specs::Text::field))]
fn put_field(out: &mut Vec<u8>, word: &[u8], n: u64) -> Result<(), OutOfMemory>
    ensures { OnOk result (out.new.items ≡ out.old.items ++ field word.now n) }
{
    out.extend_from_slice(word)?;
    put_number(out, n)?;
    Ok(())
}

/// Appends a CRC that is bad.
#[tactic(auto, unfolding(crate::specs::Text::bad_text))]
fn put_bad(out: &mut Vec<u8>, kept: u16, computed: u16) -> Result<(), OutOfMemory>
    ensures { OnOk result (out.new.items ≡ out.old.items ++ bad_text kept computed) }
{
    out.extend_from_slice(b"bad ")?;
    put_hex(out, 4, u32::from(kept))?;
    out.extend_from_slice(b" ")?;
    put_hex(out, 4, u32::from(computed))?;
    Ok(())
}

/// Appends what is known of a CRC.
fn put_state(out: &mut Vec<u8>, state: CrcState) -> Result<(), OutOfMemory>
    ensures { OnOk result (out.new.items ≡ out.old.items ++ state_text state) }
{
    match state {
        CrcState::Good => out.extend_from_slice(b"good"),
        CrcState::Bad { kept, computed } => put_bad(out, kept, computed),
        CrcState::Past => out.extend_from_slice(b"past"),
    }
}

/// Appends the line of a quadlet of the bus information block.
#[tactic(auto, unfolding(crate::specs::Text::info_line))]
fn put_info(out: &mut Vec<u8>, quad: u32) -> Result<(), OutOfMemory>
    ensures { OnOk result (out.new.items ≡ out.old.items ++ info_line quad) }
{
    out.extend_from_slice(b"info ")?;
    put_hex(out, 8, quad)?;
    out.push(b'\n')?;
    Ok(())
}

/// Appends the lines of the bus information block.
fn put_infos(out: &mut Vec<u8>, quads: &[u32]) -> Result<(), OutOfMemory>
    ensures { OnOk result (out.new.items ≡ out.old.items ++ info_lines quads.now) }
{
    for quad in quads {
        put_info(out, *quad)?;
    }
    Ok(())
}

/// Appends the type of an entry.
fn put_type(out: &mut Vec<u8>, quad: u32) -> Result<(), OutOfMemory>
    ensures { OnOk result (out.new.items ≡ out.old.items ++ type_text (type_of quad)) }
{
    let name: &[u8] = match quad >> 30 {
        0 => b"immediate",
        1 => b"offset",
        2 => b"leaf",
        _ => b"directory",
    };
    out.extend_from_slice(name)
}

/// Appends the place that an entry leads to, if it leads to a block.
fn put_target(out: &mut Vec<u8>, kind: Option<BlockKind>, target: u64) -> Result<(), OutOfMemory>
    ensures { OnOk result (out.new.items ≡ out.old.items ++ target_text kind target) }
{
    match kind {
        Some(_) => {
            out.extend_from_slice(b" to ")?;
            put_number(out, target)
        }
        None => Ok(()),
    }
}

/// Appends the line of an entry.
#[tactic(auto, unfolding(crate::specs::Text::entry_line))]
fn put_entry(out: &mut Vec<u8>, quads: &[u32], at: usize) -> Result<(), OutOfMemory>
    requires few { length quads.now ≤ 256 }
    requires place { at < length quads.now }
    ensures { OnOk result (out.new.items ≡ out.old.items ++ entry_line quads.now at) }
{
    let quad = quads[at];
    out.extend_from_slice(b"entry ")?;
    put_type(out, quad)?;
    out.extend_from_slice(b" ")?;
    put_hex(out, 2, (quad >> 24) % 64)?;
    out.extend_from_slice(b" ")?;
    put_hex(out, 6, value_of(quad))?;
    put_target(out, kind_of(quad), at as u64 + u64::from(value_of(quad)))?;
    out.push(b'\n')?;
    Ok(())
}

/// Appends the lines of so many entries of a directory.
fn put_entries(out: &mut Vec<u8>, quads: &[u32], at: usize, count: usize) -> Result<(), OutOfMemory>
    requires few { length quads.now ≤ 256 }
    requires whole { at + 1 + count ≤ length quads.now }
    ensures { OnOk result (out.new.items ≡ out.old.items ++ entry_lines quads.now at count) }
{
    for entry in 0..count {
        put_entry(out, quads, at + 1 + entry)?;
    }
    Ok(())
}

/// Appends the line of a block.
#[tactic(auto, unfolding(crate::specs::Text::block_line))]
fn put_block_line(out: &mut Vec<u8>, block: Block) -> Result<(), OutOfMemory>
    ensures { OnOk result (out.new.items ≡ out.old.items ++ block_line block) }
{
    let kind: &[u8] = match block.kind {
        BlockKind::Directory => b"directory ",
        BlockKind::Leaf => b"leaf ",
    };
    put_field(out, kind, u64::from(block.at))?;
    put_field(out, b" length ", u64::from(block.len))?;
    out.extend_from_slice(b" crc ")?;
    put_state(out, block.crc)?;
    out.push(b'\n')?;
    Ok(())
}

/// Appends the lines of a block, which is whole.
fn put_block(out: &mut Vec<u8>, quads: &[u32], block: Block) -> Result<(), OutOfMemory>
    requires few { length quads.now ≤ 256 }
    requires whole { block.at + 1 + block.len ≤ length quads.now }
    ensures { OnOk result (out.new.items ≡ out.old.items
        ++ (block_line block ++ inside_lines quads.now block.kind block.at block.len)) }
{
    put_block_line(out, block)?;
    match block.kind {
        BlockKind::Directory => put_entries(
            out,
            quads,
            usize::from(block.at),
            usize::from(block.len),
        )?,
        BlockKind::Leaf => {}
    }
    Ok(())
}

/// Appends the lines of blocks, which are whole.
fn put_blocks(out: &mut Vec<u8>, quads: &[u32], blocks: &[Block]) -> Result<(), OutOfMemory>
    requires few { length quads.now ≤ 256 }
    requires whole { All (λ block. block.at + 1 + block.len ≤ length quads.now) blocks.now }
    ensures { OnOk result (out.new.items ≡ out.old.items ++ block_lines quads.now blocks.now) }
{
    for block in blocks {
        put_block(out, quads, *block)?;
    }
    Ok(())
}

/// Appends the first line of a ROM's text.
#[tactic(auto, unfolding(crate::specs::Text::first_line))]
fn put_first(
    out: &mut Vec<u8>,
    quads: u64,
    info_len: u64,
    crc_length: u64,
    state: CrcState,
) -> Result<(), OutOfMemory>
    ensures { OnOk result (out.new.items
        ≡ out.old.items ++ first_line quads info_len crc_length state) }
{
    put_field(out, b"rom quadlets ", quads)?;
    put_field(out, b" info ", info_len)?;
    put_field(out, b" crc_length ", crc_length)?;
    out.extend_from_slice(b" crc ")?;
    put_state(out, state)?;
    out.push(b'\n')?;
    Ok(())
}

/// Appends the last line.
#[tactic(auto, unfolding(crate::specs::Text::last_line))]
fn put_last(out: &mut Vec<u8>, count: usize) -> Result<(), OutOfMemory>
    ensures { OnOk result (out.new.items ≡ out.old.items ++ last_line count) }
{
    put_field(out, b"blocks ", count as u64)?;
    out.push(b'\n')?;
    Ok(())
}

/// The text of a ROM: a line for the ROM, a line for each quadlet of its bus information block, a
/// line for each block with a line for each entry behind that of a directory, and a last line.
/// `blocks` are those that [`blocks`](crate::blocks) answers for this ROM.
pub fn rom_text(alloc: Global, rom: &Rom, blocks: &BlockList) -> Result<Vec<u8>, OutOfMemory>
    requires { AreBlocks rom.now blocks.now }
    ensures { IfOk result (λ text. IsRomText rom.now blocks.now text.items) }
{
    let quads = rom.quads();
    let info = rom.info_len();
    let mut out = Vec::new(alloc);
    put_first(
        &mut out,
        quads.len() as u64,
        u64::from(info),
        u64::from(rom.crc_length()),
        rom.info_crc(),
    )?;
    put_infos(&mut out, &quads[1..1 + usize::from(info)])?;
    put_blocks(&mut out, quads, blocks.as_slice())?;
    put_last(&mut out, blocks.as_slice().len())?;
    Ok(out)
}
