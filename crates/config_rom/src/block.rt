//! The blocks of a ROM.
ghost use Rattle.std.specs.Prelude.{◌≡◌, ◌+◌, ◌<◌, ◌≤◌, ◌^◌, ℕ, Bool, true, [], ◌∷◌, ◌++◌, List, length, map, All, Ok, Err, IfOk, OnOk, OnErr};
ghost use Rattle.config_rom.specs.declared.fault.RomFault.{RomFault};
ghost use Rattle.config_rom.specs.declared.fault.RomStop.TheVariants.{Fault};
ghost use Rattle.config_rom.specs.declared.block.BlockKind.{BlockKind};
ghost use Rattle.config_rom.specs.declared.block.Block.{Block};
ghost use Rattle.config_rom.specs.Layout.{end_of};
ghost use Rattle.config_rom.specs.Block.{IsBlockOf, AreBlocks, BlocksRefused, place_of, if_in, in_order};
ghost use Rattle.config_rom.specs.Answer.{IfFault, UnlessMemory};
ghost use Rattle.config_rom.specs.codings.Marks.{has_mark};

use crate::crc::{CrcState, crc_state};
use crate::fault::{RomFault, RomStop};
use crate::marks::Marks;
use crate::reach::{end_of, reach};
use crate::rom::Rom;
use quad_lanes::OutOfMemory;
use std::alloc::Global;
use std::marker::Model;

/// What a block of a ROM is.
#[derive(Clone, Copy, Debug, PartialEq, Eq)]
pub enum BlockKind {
    /// A directory, which has entries.
    Directory,
    /// A leaf, which has quadlets of any meaning.
    Leaf,
}

/// A directory or a leaf.
#[derive(Clone, Copy, Debug, PartialEq, Eq)]
pub struct Block {
    /// Which of the two it is.
    pub kind: BlockKind,
    /// The place of its header, in quadlets from 0.
    pub at: u16,
    /// How many quadlets stand behind its header.
    pub len: u16,
    /// What is known of the CRC that its header keeps.
    pub crc: CrcState,
}

/// A list of blocks.
#[derive(Debug, Drop)]
pub struct BlockList {
    items: Vec<Block>,
}

impl Model for BlockList {
    ghost use Rattle.std.specs.Prelude.{List};
    ghost use Rattle.config_rom.specs.declared.block.Block.{Block};

    ghost Value = { List Block };

    ghost view = { λ list. list.items.items };
}

impl BlockList {
    /// The empty list. It takes no memory until the first `push`.
    pub fn new(alloc: Global) -> BlockList
        ensures { result ≡ [] }
    {
        BlockList {
            items: Vec::new(alloc),
        }
    }

    /// Appends a block. Where there is no memory for it the list stays as it was.
    pub fn push(&mut self, block: Block) -> Result<(), OutOfMemory>
        ensures ok { OnOk result (self.new ≡ self.old ++ block ∷ []) }
        ensures err { OnErr result (self.new ≡ self.old) }
    {
        self.items.push(block)?;
        Ok(())
    }

    /// The blocks in order.
    pub fn as_slice(&self) -> &[Block]
        ensures { result.now ≡ self.now }
    {
        self.items.as_slice()
    }
}

/// The block of this kind at a place, which is whole.
fn block_at(quads: &[u32], kind: BlockKind, at: usize) -> Block
    requires few { length quads.now ≤ 256 }
    requires whole { end_of quads.now at ≤ length quads.now }
    ensures kind { result.kind ≡ kind }
    ensures place { result.at ≡ at }
    ensures told { IsBlockOf quads.now result }
{
    let end = end_of(quads, at);
    Block {
        kind,
        at: at as u16,
        len: (end - at - 1) as u16,
        crc: crc_state(&quads[at + 1..end], (quads[at] % 0x1_0000) as u16),
    }
}

/// Appends the block of this kind at a place, if it is marked.
fn push_marked(
    list: &mut BlockList,
    quads: &[u32],
    marks: &Marks,
    kind: BlockKind,
    at: usize,
) -> Result<(), OutOfMemory>
    requires few { length quads.now ≤ 256 }
    requires place { at < length quads.now }
    requires whole { has_mark marks.now kind at ≡ true → end_of quads.now at ≤ length quads.now }
    ensures places { OnOk result (map place_of list.new
        ≡ map place_of list.old ++ if_in (has_mark marks.now) kind at) }
    ensures told { All (IsBlockOf quads.now) list.old → OnOk result (All (IsBlockOf quads.now) list.new) }
{
    if marks.has(kind, at) {
        list.push(block_at(quads, kind, at))?;
    }
    Ok(())
}

/// The marked blocks in order.
fn list_of(alloc: Global, quads: &[u32], marks: &Marks) -> Result<BlockList, OutOfMemory>
    requires few { length quads.now ≤ 256 }
    requires whole { (k : BlockKind) (p : ℕ) → p < 256 → has_mark marks.now k p ≡ true →
        end_of quads.now p ≤ length quads.now }
    ensures places { IfOk result (λ list.
        map place_of list ≡ in_order (has_mark marks.now) (length quads.now)) }
    ensures told { IfOk result (All (IsBlockOf quads.now)) }
{
    let mut list = BlockList::new(alloc);
    for at in 0..quads.len() {
        push_marked(&mut list, quads, marks, BlockKind::Directory, at)?;
        push_marked(&mut list, quads, marks, BlockKind::Leaf, at)?;
    }
    Ok(list)
}

/// The blocks that the root directory of a ROM leads to, itself included, by rising place. A
/// directory comes before a leaf at the same place, and each comes once, however directories share
/// them.
///
/// Refused for the block at the least place that has a fault: with `Outside`, at the block's place,
/// where its header or its quadlets pass the end of the ROM; else, for a directory, with
/// `SelfTarget`, at the first leaf or directory entry whose value is 0.
pub fn blocks(alloc: Global, rom: &Rom) -> Result<BlockList, RomStop>
    // The blocks are answered, unless memory ran out.
    ensures found { IfOk result (AreBlocks rom.now) }
    ensures only { (list : List Block) → AreBlocks rom.now list → UnlessMemory result (Ok list) }
    // A fault that is answered is the first, and the first is answered.
    ensures refused { IfFault result (BlocksRefused rom.now) }
    ensures exact { (fault : RomFault) → BlocksRefused rom.now fault →
        result ≡ Err (Fault fault) }
{
    let quads = rom.quads();
    let root = 1 + usize::from(rom.info_len());
    let marks = match reach(quads, root) {
        Ok(marks) => marks,
        Err(fault) => return Err(RomStop::Fault(fault)),
    };
    Ok(list_of(alloc, quads, &marks)?)
}
