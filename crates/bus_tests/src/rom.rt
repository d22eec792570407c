//! The form `rom`: ROMs that are cut.

use crate::inputs::{answers, bytes_of, sink_of, words};
use bus_cli::bus_main;
use io_edges::SureSource;
use std::alloc::{AllocError, Global};
use std::test::Fail;

/// The ROM of a camera: a directory of its unit, one below that, and a vendor's name that both the
/// root and the lowest directory lead to.
const CAMERA: &[u32] = &[
    0x0404_92d3,
    0x3133_3934,
    0x20ff_5000,
    0x0006_1b24,
    0x0002_c0de,
    0x0005_1367,
    0x0300_061b,
    0x8100_000c,
    0x0c00_83c0,
    0x8d00_0014,
    0xd100_0001,
    0x0003_937d,
    0x1200_a02d,
    0x1300_0102,
    0xd400_0001,
    0x0003_7f89,
    0x403c_0000,
    0x8100_0002,
    0x8200_0006,
    0x0004_329a,
    0x0000_0000,
    0x0000_0000,
    0x4269_7264,
    0x6f00_0000,
    0x0004_e2f6,
    0x0000_0000,
    0x0000_0000,
    0x4361_6d20,
    0x4f6e_6500,
    0x0002_ab36,
    0x0006_1b24,
    0x0002_c0de,
];

/// The ROM of a disk, whose first CRC is over all of it.
const DISK: &[u32] = &[
    0x041c_b0ec,
    0x3133_3934,
    0x00ff_8000,
    0x00a0_b800,
    0x0000_5eed,
    0x0004_ea6e,
    0x0300_a0b8,
    0x0c00_83c0,
    0x8d00_000c,
    0xd100_0001,
    0x0009_ec2a,
    0x1200_609e,
    0x1301_0483,
    0x3800_609e,
    0x3901_04d8,
    0x3a00_3c0a,
    0x3b00_0000,
    0x5400_4000,
    0x140e_0000,
    0x8100_0004,
    0x0002_32d2,
    0x00a0_b800,
    0x0000_5eed,
    0x0005_c2a5,
    0x0000_0000,
    0x0000_0000,
    0x5370_696e,
    0x6e65_7220,
    0x3830_0000,
];

/// The last place that isn't past a number; 0 if there is none.
fn last_up_to(places: &[usize], number: usize) -> usize {
    let mut last = 0;
    for place in places {
        if *place <= number {
            last = *place;
        }
    }
    last
}

/// The refusal of the first so many bytes of a ROM, fewer than all. The root directory is whole from so
/// many quadlets on, and the first block that isn't whole is the last of these that isn't past the end.
fn cut_line(
    alloc: Global,
    bytes: usize,
    root_whole: usize,
    blocks: &[usize],
) -> Result<String, AllocError> {
    let whole = bytes / 4;
    if bytes % 4 != 0 {
        format!(in alloc; "refused quadlet {whole} RomLength\n")
    } else if whole == 0 {
        format!(in alloc; "refused quadlet 0 RomEmpty\n")
    } else if whole < root_whole {
        format!(in alloc; "refused quadlet {whole} RomCut\n")
    } else {
        let block = last_up_to(blocks, whole);
        format!(in alloc; "refused quadlet {block} Outside\n")
    }
}

/// A ROM, from how many quadlets on its root directory is whole, and its blocks.
type Cut = (&'static [u32], usize, &'static [usize]);

const ROMS: &[Cut] = &[
    (CAMERA, 11, &[11, 15, 19, 24, 29]),
    (DISK, 10, &[10, 20, 23]),
];

/// Whether the first so many bytes of a ROM, fewer than all, are refused.
fn prefix_is_refused(alloc: Global, rom: Cut, bytes: usize) -> Result<bool, AllocError> {
    let (quads, root_whole, blocks) = rom;
    let mut prefix = bytes_of(alloc, quads)?;
    prefix.truncate(bytes);
    let line = cut_line(alloc, bytes, root_whole, blocks)?;
    answers(alloc, &["rom"], prefix, 1, line.as_bytes())
}

/// Whether a whole ROM is answered.
fn is_answered(alloc: Global, quads: &[u32]) -> Result<bool, AllocError> {
    let words = words(alloc, &["rom"])?;
    let mut source = SureSource::new(bytes_of(alloc, quads)?);
    Ok(bus_main(alloc, &words, &mut source, &mut sink_of(alloc, 10_000)?) == 0)
}

#[test]
fn each_prefix_of_a_rom_is_refused(rt: HostRuntime) -> Result<(), Fail> {
    for rom in ROMS {
        for bytes in 0..4 * rom.0.len() {
            assert!(rt;
                prefix_is_refused(rt.alloc(), *rom, bytes)?,
                "{bytes} bytes"
            );
        }
        assert!(rt; is_answered(rt.alloc(), rom.0)?);
    }
    Ok(())
}
