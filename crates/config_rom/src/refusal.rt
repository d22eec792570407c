//! What is said of a ROM's fault: which kind it is, where it is, and its line.
ghost use Rattle.std.specs.Prelude.{◌≡◌, ◌≤◌, length};
ghost use Rattle.config_rom.specs.Line.{refusal_with, rom_refusal, rom_word, refusal_line, rom_line};

use crate::fault::RomFault;
use capture_reading::ShortText;

/// What each text and record of a refused ROM says of its fault.
#[derive(Clone, Copy, Debug, PartialEq, Eq)]
pub struct RomRefusal {
    /// The place, in quadlets from 0.
    pub at: usize,
    /// What was found in place of the bus's name, or 0.
    pub found: u32,
    /// The number of the kind, 1 to 9, in the order of [`RomFault`].
    pub number: u8,
}

/// The refusal by a kind's number at a place, with what was found.
fn refusal_with(number: u8, at: usize, found: u32) -> RomRefusal
    ensures { result ≡ refusal_with number at found }
{
    RomRefusal { at, found, number }
}

/// What is said of a fault.
pub fn rom_refusal(fault: RomFault) -> RomRefusal
    ensures { result ≡ rom_refusal fault }
{
    match fault {
        RomFault::RomLength { at } => refusal_with(1, at, 0),
        RomFault::RomTooLong { at } => refusal_with(2, at, 0),
        RomFault::RomEmpty { at } => refusal_with(3, at, 0),
        RomFault::NoInfo { at } => refusal_with(4, at, 0),
        RomFault::Minimal { at } => refusal_with(5, at, 0),
        RomFault::RomCut { at } => refusal_with(6, at, 0),
        RomFault::BusName { at, found } => refusal_with(7, at, found),
        RomFault::Outside { at } => refusal_with(8, at, 0),
        RomFault::SelfTarget { at } => refusal_with(9, at, 0),
    }
}

/// The word of the kind with a number; of a number that no kind has the empty one.
fn rom_word(number: u8) -> &'static [u8]
    ensures word { result.now ≡ rom_word number }
    ensures few { length result.now ≤ 20 }
{
    match number {
        1 => b"RomLength",
        2 => b"RomTooLong",
        3 => b"RomEmpty",
        4 => b"NoInfo",
        5 => b"Minimal",
        6 => b"RomCut",
        7 => b"BusName",
        8 => b"Outside",
        9 => b"SelfTarget",
        _ => b"",
    }
}

/// The line of what is said of a fault: `refused quadlet Q KIND`.
#[tactic(auto, unfolding(crate::specs::Line::refusal_line))]
pub fn refusal_line(refusal: RomRefusal) -> ShortText
    ensures { result ≡ refusal_line refusal }
{
    let mut line = ShortText::new();
    line.put(b"refused quadlet ");
    line.put_number(refusal.at);
    line.put(b" ");
    line.put(rom_word(refusal.number));
    line.put(b"\n");
    line
}

/// The line of a ROM's fault.
#[tactic(auto, unfolding(crate::specs::Line::rom_line))]
pub fn rom_line(fault: RomFault) -> ShortText
    ensures { result ≡ rom_line fault }
{
    refusal_line(rom_refusal(fault))
}
