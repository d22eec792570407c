//! The line of a ROM's fault.
ghost use Rattle.std.specs.Prelude.{◌≡◌, ◌<◌, ◌≤◌};
ghost use Rattle.config_rom.specs.Line.{refusal_line};
ghost use Rattle.c_border.specs.Places.{IsCopied, IsUntold};
ghost use Rattle.busconf_c.specs.Roms.{refusal_in};

use crate::records::RomFaultRecord;
use c_border::{REFUSED, tell_bytes};
use config_rom::{RomRefusal, refusal_line};

/// Tells the line of a ROM's fault, as the program `busconf` writes it. It takes no memory.
#[unsafe(no_mangle)]
pub extern "C" fn busconf_rom_fault_text(
    fault: &RomFaultRecord,
    place: &mut [u8],
    needed: &mut usize,
) -> u32
    ensures line { 0 < fault.now.kind → fault.now.kind ≤ 9 →
        IsCopied (refusal_line (refusal_in fault.now)) place.old place.new needed.new result }
    ensures zero { fault.now.kind ≡ 0 →
        IsUntold place.old place.new needed.old needed.new result }
    ensures past { 9 < fault.now.kind →
        IsUntold place.old place.new needed.old needed.new result }
{
    if fault.kind == 0 || fault.kind > 9 {
        return REFUSED;
    }
    let line = refusal_line(RomRefusal {
        at: fault.at,
        found: fault.found,
        number: fault.kind,
    });
    tell_bytes(line.as_bytes(), place, needed)
}
