//! The answer to a ROM.
ghost use Rattle.std.specs.Prelude.{IfOk};
ghost use Rattle.config_rom.specs.Rom.{Parts};
ghost use Rattle.config_rom.specs.Answer.{IfFault};
ghost use Rattle.bus_cli.specs.Answer.{AnswersRom, HasRomFault, TellsRom, TextOfRom};
ghost use Rattle.bus_cli.specs.codings.Reading.{status_with, text_with};

use crate::answer::Answer;
use config_rom::{RomStop, blocks, decode_rom, rom_line, rom_text};
use quad_lanes::OutOfMemory;
use std::alloc::Global;

/// The text of the ROM with these bytes, or the first fault.
fn text_of(alloc: Global, bytes: &[u8]) -> Result<Vec<u8>, RomStop>
    ensures text { IfOk result (λ text.
        (v : Parts) × (TellsRom bytes.now v × TextOfRom v text.items)) }
    ensures fault { IfFault result (HasRomFault bytes.now) }
{
    let rom = decode_rom(alloc, bytes)?;
    let list = blocks(alloc, &rom)?;
    Ok(rom_text(alloc, &rom, &list)?)
}

/// The answer to the bytes of a ROM.
pub(crate) fn answer_to_rom(alloc: Global, bytes: &[u8]) -> Result<Answer, OutOfMemory>
    ensures { IfOk result (λ answer.
        AnswersRom bytes.now (status_with answer) (text_with answer)) }
{
    match text_of(alloc, bytes) {
        Ok(text) => Ok(Answer::Valid(text)),
        Err(RomStop::Fault(fault)) => Ok(Answer::Refused(rom_line(fault))),
        Err(RomStop::Memory(error)) => Err(error),
    }
}
