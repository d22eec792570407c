//! The entries of directories.
ghost use Rattle.std.specs.Prelude.{◌≡◌, ◌<◌, length};
ghost use Rattle.config_rom.specs.Rom.{rom_quads};
ghost use Rattle.config_rom.specs.Block.{type_of};
ghost use Rattle.config_rom.specs.Entry.{type_number, IsEntry};

use crate::reach::{kind_of, value_of};
use crate::rom::Rom;

/// What the value of an entry is (IEEE Std 1212, 7.5).
#[derive(Clone, Copy, Debug, PartialEq, Eq)]
pub enum EntryType {
    /// The value itself.
    Immediate,
    /// A place in the units' space, in quadlets.
    Offset,
    /// How many quadlets behind the entry a leaf begins.
    Leaf,
    /// How many quadlets behind the entry a directory begins.
    Directory,
}

/// An entry of a directory.
#[derive(Clone, Copy, Debug, PartialEq, Eq)]
pub struct Entry {
    /// What the value is.
    pub entry_type: EntryType,
    /// What is told, 0 to 63.
    pub key: u8,
    /// The value, of 24 bits.
    pub value: u32,
    /// The place of the block that the entry leads to, in quadlets from 0; none where it leads to
    /// none.
    pub target: Option<u32>,
}

/// The type of the entry in a quadlet.
fn type_of(quad: u32) -> EntryType
    ensures { type_number result ≡ type_of quad }
{
    match quad >> 30 {
        0 => EntryType::Immediate,
        1 => EntryType::Offset,
        2 => EntryType::Leaf,
        _ => EntryType::Directory,
    }
}

impl Rom {
    /// The entry in the quadlet at a place, in quadlets from 0. The entries of a
    /// [`Block`](crate::Block) that is a directory are the `len` quadlets behind its place.
    pub fn entry(&self, place: usize) -> Entry
        requires { place < length (rom_quads self.now) }
        ensures { IsEntry (rom_quads self.now) place result }
    {
        let quad = self.quads()[place];
        let value = value_of(quad);
        Entry {
            entry_type: type_of(quad),
            key: ((quad >> 24) % 64) as u8,
            value,
            target: match kind_of(quad) {
                Some(_) => Some(place as u32 + value),
                None => None,
            },
        }
    }
}
