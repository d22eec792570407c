//! Configuration ROMs (IEEE Std 1212) both ways, their blocks, which of them have a good CRC, and
//! text (docs/ROMS.md).
#![tactic(auto)]

mod block;
mod crc;
mod entry;
mod fault;
mod laws;
mod marks;
mod reach;
mod refusal;
mod rom;
mod sealing;
mod text;

pub use block::{Block, BlockKind, BlockList, blocks};
pub use crc::CrcState;
pub use entry::{Entry, EntryType};
pub use fault::{RomFault, RomStop};
pub use laws::{one_list, one_rom, roms_are_refused_so, roms_have_texts};
pub use quad_lanes::OutOfMemory;
pub use refusal::{RomRefusal, refusal_line, rom_line, rom_refusal};
pub use rom::{BUS_NAME, Rom, decode_rom, encode_rom};
pub use sealing::{seal, seal_blocks, sealed_blocks_are_good};
pub use text::rom_text;
