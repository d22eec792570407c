//! Lines of scripts and their faults.

use script_lines::{Command, Kind, LineStop, Name, parse_line};
use std::alloc::Global;
use std::test::Fail;

/// The fault of a line, if it has one.
fn fault(alloc: Global, line: &[u8], d: u8) -> Option<Kind> {
    if d == 0 || d > 16 {
        return None;
    }
    match parse_line(alloc, line, d) {
        Err(LineStop::Fault(kind)) => Some(kind),
        _ => None,
    }
}

/// Lines that have a command.
const COMMANDS: &[&[u8]] = &[
    b"plug a 0 b 4294967295",
    b" \tpull\ta  0x0\t",
    b"reset abcdefghijklmn_0\r",
    b"turn 0x1E8480",
    b"turn 0002000000",
    b"hold a 3 65535",
    b"settle",
    b"config a 62 -",
    b"config a - 63",
    b"config a 0 0",
    b"csr a read 0xFFFFFFFF",
    b"csr read write 1 2",
    b"csr a lock 1 255 2 3",
    b"look a",
    b"allocate a 63 4915",
    b"release a 0 0",
    b"manager a",
    b"plan a",
    b"maps a",
    b"delay 16",
    b"times 1394a 0xFFFFFFFF",
    b"times 1394-1995 1",
    b"node a 16",
    b"node kind 1 kind packed speed 0 link 0 contender 1 force 1 power 7 gap 0 hold 320 short 16 long 40 coins 1",
    b"node a 3 seed 0xffffffff hold 256 short 12 long 32 kind field",
];

/// Lines that have none.
const BLANK: &[&[u8]] = &[b"", b" \t \r", b"\r", b"\t# \xff\x00"];

#[test]
fn lines_with_no_fault(rt: HostRuntime) -> Result<(), Fail> {
    for (lines, command) in [(COMMANDS, true), (BLANK, false)] {
        for line in lines {
            assert!(rt; parse_line(rt.alloc(), *line, 4)?.is_some() == command);
        }
    }
    Ok(())
}

/// Lines and their faults.
const FAULTS: &[(&[u8], Kind)] = &[
    // A carriage return is dropped once, and at the end alone.
    (b"settle\r\r", Kind::Word),
    (b"\r ", Kind::Word),
    (b"\x0c", Kind::Word),
    (b"settle #", Kind::Word),
    (b"reset a\x7f", Kind::Word),
    // Words that are none of the forms, whatever else is wrong.
    (b"resets a", Kind::Word),
    (b"Reset a", Kind::Word),
    (b"plans a", Kind::Word),
    (b"pull A", Kind::Word),
    (b"csr a reads 1", Kind::Word),
    (b"csr a read 1 2", Kind::Word),
    (b"config A - -", Kind::Word),
    (b"times 1394b 170", Kind::Word),
    (b"times 170", Kind::Word),
    (b"times 1394a 170 ns", Kind::Word),
    (b"node a", Kind::Word),
    (b"node A 99 speed", Kind::Word),
    (b"node A 99 speeds 1", Kind::Word),
    (b"node A 99 kind both", Kind::Word),
    // Else the first word at fault.
    (b"pull A x", Kind::Name),
    (b"pull abcdefghijklmnopq 1", Kind::Name),
    (b"pull a 4294967296", Kind::Number),
    (b"pull a 00000000001", Kind::Number),
    (b"pull a 0x000000001", Kind::Number),
    (b"pull a 0x", Kind::Number),
    (b"pull a 0X1", Kind::Number),
    (b"pull a +1", Kind::Number),
    (b"plug a x B 0", Kind::Number),
    (b"turn -", Kind::Number),
    (b"turn 0", Kind::Range),
    (b"turn 2000001", Kind::Range),
    (b"hold a 0 65536", Kind::Range),
    (b"config a 63 -", Kind::Range),
    (b"config a 63 x", Kind::Range),
    (b"config a - 64", Kind::Range),
    (b"csr a lock 1 256 x 3", Kind::Range),
    (b"allocate a 64 4915", Kind::Range),
    (b"release a 63 4916", Kind::Range),
    (b"delay 17", Kind::Range),
    (b"times 1394a 0", Kind::Range),
    (b"times 1394-1995 -1", Kind::Number),
    (b"node a 17", Kind::Range),
    (b"node a 0 speed x", Kind::Range),
    (b"node a 3 speed 9 speed 1", Kind::Range),
    (b"node a 3 speed 1 speed x", Kind::Twice),
    (b"node a 3 coins 0 seed x", Kind::Twice),
    (b"node a 3 seed 1 coins 2", Kind::Twice),
    (b"node a 3 coins 2", Kind::Number),
    (b"node a 3 hold 255", Kind::Range),
    (b"node a 3 hold 321", Kind::Range),
    (b"node a 3 short 11", Kind::Range),
    (b"node a 3 long 41", Kind::Range),
    (b"node a 3 power 8", Kind::Range),
    (b"node a 3 link 2", Kind::Range),
    (b"node a 3 gapreset 2", Kind::Range),
    (b"node a 3 gapreset 1 gapreset 0", Kind::Twice),
];

#[test]
fn lines_with_a_fault(rt: HostRuntime) {
    for (line, kind) in FAULTS {
        assert!(rt; fault(rt.alloc(), *line, 4) == Some(*kind));
    }
}

/// Whether a line, for cables of at most 4 ticks, is this command.
fn is_command(alloc: Global, line: &[u8], wanted: Command) -> Result<bool, LineStop> {
    Ok(parse_line(alloc, line, 4)? == Some(wanted))
}

/// The command that sets a gap count alone, for a node of this name.
fn config(name: Name) -> Command {
    Command::Config {
        name,
        root_id: None,
        gap: Some(31),
    }
}

/// A node of this name that contends, and draws zero, one, one and zero.
fn node(name: Name) -> Command {
    Command::Node {
        name,
        ports: 3,
        speed: 2,
        link: true,
        contender: true,
        force: false,
        power: 0,
        gap: 63,
        gap_reset: false,
        hold: None,
        short: None,
        long: None,
        coin_word: 6,
        coin_len: 4,
        seed: None,
        packed: false,
    }
}

#[test]
fn values_of_commands(rt: HostRuntime) -> Result<(), Fail> {
    let wanted = config(Name::new(b"hub").ok_or("a name")?);
    assert!(rt; is_command(rt.alloc(), b"config hub - 0x1F", wanted)?);
    let wanted = node(Name::new(b"a").ok_or("a name")?);
    assert!(rt; is_command(rt.alloc(), b"node a 3 coins 0110 contender 1", wanted)?);
    Ok(())
}
