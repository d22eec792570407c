//! The types and calls of streams, registers, plans, ROMs, advice and scripts that programs use, and the
//! top call, each named once, so that none goes missing.

use crate::inputs::words;
use bus_manager::Bid;
use cabling::{Cable, CableFault, Cabling, Cyclic, End, Walk};
use config_rom::{Block, BlockKind, BlockList, CrcState, Rom, RomFault, RomStop};
use io_edges::{
    Failed, MemSink, MemSource, ReadSource, ReadStop, Sink, Source, SureSource, WriteSink,
};
use loop_advice::{Advice, CableList};
use resource_manager::{GrantFault, Registers, Reply, Seen};
use root_plan::RootPlan;
use script_run::{Command, Kind, LineStop, ScriptFault, ScriptStop};
use settle::{PartList, Report};
use std::alloc::{AllocError, Global};
use std::io;
use std::test::Fail;
use topology_stack::{BusTree, Name, NameList, TreeStop};

/// What one read of a source answers.
fn read_once<S: Source>(source: &mut S) -> Result<usize, Failed> {
    let mut buf = [0u8; 2];
    source.read(&mut buf)
}

/// What one write to a sink answers.
fn write_once<K: Sink>(sink: &mut K) -> Result<usize, Failed> {
    sink.write(b"ab")
}

/// Why a source wasn't read to its end, each at its place.
const READ_STOPS: [ReadStop; 3] = [
    ReadStop::ReadFault,
    ReadStop::TooLong,
    ReadStop::Memory(AllocError),
];

fn read_stop_place(stop: ReadStop) -> usize {
    match stop {
        ReadStop::ReadFault => 0,
        ReadStop::TooLong => 1,
        ReadStop::Memory(_) => 2,
    }
}

#[test]
fn sources(rt: HostRuntime) -> Result<(), Fail> {
    let alloc = rt.alloc();
    for (at, stop) in READ_STOPS.iter().enumerate() {
        assert!(rt; read_stop_place(*stop) == at);
    }
    let mut faulty = MemSource::new(b"abc".to_vec(alloc)?, vec![in alloc; 1u32]?, 2);
    assert!(rt; read_once(&mut faulty) == Ok(2) && read_once(&mut faulty) == Err(Failed));
    let mut sure = SureSource::new(b"abc".to_vec(alloc)?);
    let all: Vec<u8> = io_edges::read_all(alloc, &mut sure, 10)?;
    assert!(rt; all.as_slice() == b"abc".as_slice());
    assert!(rt; read_once(&mut ReadSource::new(io::empty())) == Ok(0));
    Ok(())
}

/// A sink with room for three bytes.
fn small_sink(alloc: Global) -> Result<MemSink, io_edges::OutOfMemory> {
    MemSink::new(alloc, 3, Vec::new(alloc), 2)
}

#[test]
fn sinks(rt: HostRuntime) -> Result<(), Fail> {
    let mut sink = small_sink(rt.alloc())?;
    assert!(rt; write_once(&mut sink) == Ok(2));
    assert!(rt; io_edges::write_whole(&mut sink, b"cd") == Err(Failed));
    assert!(rt; sink.written() == b"abc".as_slice());
    assert!(rt; write_once(&mut WriteSink::new(io::sink())) == Ok(2));
    Ok(())
}

/// Refusals of each kind, each at its place.
const GRANT_FAULTS: [GrantFault; 3] = [
    GrantFault::NoChannel,
    GrantFault::NoBandwidth { left: 1 },
    GrantFault::Changed {
        offset: 2,
        old: 4900,
    },
];

/// The place of a refusal.
fn grant_place(fault: GrantFault) -> u32 {
    match fault {
        GrantFault::NoChannel => 0,
        GrantFault::NoBandwidth { left } => left,
        GrantFault::Changed { offset, old: _ } => offset,
    }
}

#[test]
fn registers(rt: HostRuntime) {
    let mut regs = Registers::new();
    let reply: Reply = regs.read(0x220);
    assert!(rt; reply.rcode == 0 && reply.value == 4915);
    assert!(rt; regs.write(0x220, 1).rcode == 6);
    assert!(rt; regs.lock(0x220, 2, 4915, 4815).value == 4915);
    regs.reset();
    let seen: Seen = resource_manager::look(&regs);
    assert!(rt; seen.bandwidth == 4915 && seen.hi == u32::MAX && seen.lo == u32::MAX);
    assert!(rt; resource_manager::allocate(&mut regs, seen, 5, 100) == Ok(()));
    let released: Result<(), GrantFault> = resource_manager::release(&mut regs, seen, 5, 100);
    assert!(rt; released == Err(GRANT_FAULTS[0]));
    for (at, fault) in (0..3u32).zip(&GRANT_FAULTS) {
        assert!(rt; grant_place(*fault) == at);
    }
}

/// Whether a node is bus manager after its attempt.
fn has_won(bid: Bid) -> bool {
    match bid {
        Bid::Won => true,
        Bid::Lost { old: _ } => false,
    }
}

#[test]
fn bus_managers(rt: HostRuntime) {
    let mut regs = Registers::new();
    assert!(rt; has_won(bus_manager::attempt(&mut regs, 0)));
    let bid: Bid = bus_manager::attempt(&mut regs, 1);
    assert!(rt; !has_won(bid) && bid == Bid::Lost { old: 0 });
}

/// The tree of two nodes that may be bus manager, and the plan for it.
fn tree_of_two(alloc: Global) -> Result<BusTree, TreeStop> {
    topology_stack::read_tree(alloc, &[0x807f_8894, 0x817f_88d4])
}

const PLAN: RootPlan = RootPlan {
    root_id: 1,
    hops: 1,
    gap: 5,
    far: 1,
    packet: 0x01c5_0000,
};

/// The packet that makes the last node of a tree its root.
fn packet_for_last(tree: &BusTree) -> u32 {
    bus_manager::plan_config(tree, tree.root())
}

/// Two nodes with a cable between them.
fn joined(alloc: Global) -> Result<Cabling, cabling::OutOfMemory> {
    let mut cabling = Cabling::new(alloc, &[3, 3])?;
    let _plugged: Result<(), CableFault> = cabling.plug(FIRST, SECOND);
    Ok(cabling)
}

/// The first ports of the two nodes, and the cable between them.
const FIRST: End = End { node: 0, port: 0 };

const SECOND: End = End { node: 1, port: 0 };

const CABLE: Cable = Cable {
    a: FIRST,
    b: SECOND,
};

/// The order of two nodes after the plan, where it was 0, 1.
fn expected(cabling: &Cabling) -> Option<Walk> {
    if cabling.nodes() != 2 {
        return None;
    }
    let mut order = Walk::new();
    order.push(0);
    order.push(1);
    let expected: Result<Walk, Cyclic> = root_plan::expect(cabling, &order, &PLAN);
    expected.ok()
}

#[test]
fn plans(rt: HostRuntime) -> Result<(), Fail> {
    let tree = tree_of_two(rt.alloc())?;
    assert!(rt; bus_manager::hops(&tree) == 1 && bus_manager::gap_for(1) == 5);
    assert!(rt; packet_for_last(&tree) == PLAN.packet);
    assert!(rt; root_plan::choose(&tree) == Some(PLAN));
    let order = expected(&joined(rt.alloc())?).ok_or("an order")?;
    assert!(rt; order.as_slice() == [0, 1].as_slice());
    Ok(())
}

/// What is advised for the first node, if that is valid advice.
fn advised(alloc: Global, cabling: &Cabling) -> Result<Option<Advice>, loop_advice::OutOfMemory> {
    if cabling.nodes() == 0 {
        return Ok(None);
    }
    let advice: Advice = loop_advice::advise(alloc, cabling, 0)?;
    if loop_advice::check(cabling, 0, &advice) {
        Ok(Some(advice))
    } else {
        Ok(None)
    }
}

#[test]
fn advice(rt: HostRuntime) -> Result<(), Fail> {
    let mut own = CableList::new(rt.alloc());
    own.push(CABLE)?;
    let Advice { pulls, kept } = advised(rt.alloc(), &joined(rt.alloc())?)?.ok_or("advice")?;
    assert!(rt; pulls.as_slice().is_empty() && kept.as_slice() == own.as_slice());
    Ok(())
}

/// Faults of each kind, each at its place here.
const ROM_FAULTS: [RomFault; 9] = [
    RomFault::RomLength { at: 0 },
    RomFault::RomTooLong { at: 1 },
    RomFault::RomEmpty { at: 2 },
    RomFault::NoInfo { at: 3 },
    RomFault::Minimal { at: 4 },
    RomFault::RomCut { at: 5 },
    RomFault::BusName {
        at: 6,
        found: 0x3133_3935,
    },
    RomFault::Outside { at: 7 },
    RomFault::SelfTarget { at: 8 },
];

/// Where a ROM is at fault.
fn rom_place(fault: RomFault) -> usize {
    match fault {
        RomFault::RomLength { at } => at,
        RomFault::RomTooLong { at } => at,
        RomFault::RomEmpty { at } => at,
        RomFault::NoInfo { at } => at,
        RomFault::Minimal { at } => at,
        RomFault::RomCut { at } => at,
        RomFault::BusName { at, found: _ } => at,
        RomFault::Outside { at } => at,
        RomFault::SelfTarget { at } => at,
    }
}

/// The fault for which a ROM is refused.
fn rom_fault(stop: RomStop) -> Option<RomFault> {
    match stop {
        RomStop::Fault(fault) => Some(fault),
        RomStop::Memory(_) => None,
    }
}

/// Whether a CRC is the computed one; none where it is over too many quadlets.
fn is_good(state: CrcState) -> Option<bool> {
    match state {
        CrcState::Good => Some(true),
        CrcState::Bad {
            kept: _,
            computed: _,
        } => Some(false),
        CrcState::Past => None,
    }
}

/// Whether a block is a directory.
fn is_directory(kind: BlockKind) -> bool {
    match kind {
        BlockKind::Directory => true,
        BlockKind::Leaf => false,
    }
}

#[test]
fn faults_of_roms(rt: HostRuntime) {
    for (at, fault) in ROM_FAULTS.iter().enumerate() {
        assert!(rt; rom_place(*fault) == at);
        assert!(rt; rom_fault(RomStop::Fault(*fault)) == Some(*fault));
    }
    assert!(rt; rom_fault(RomStop::Memory(AllocError)).is_none());
    assert!(rt; is_good(CrcState::Past).is_none());
    assert!(rt; !is_directory(BlockKind::Leaf));
}

/// The bytes of a ROM whose root directory has no entries, before it is sealed.
const ROM: [u8; 16] = [
    0x02, 0x02, 0x00, 0x00, 0x31, 0x33, 0x39, 0x34, 0x00, 0x00, 0x00, 0x00, 0x00, 0x00, 0x00, 0x00,
];

/// The directory.
const ROOT: Block = Block {
    kind: BlockKind::Directory,
    at: 3,
    len: 0,
    crc: CrcState::Good,
};

/// Whether a ROM's CRC is good once it is sealed.
fn is_sealed(rom: &mut Rom) -> bool {
    if usize::from(rom.crc_length()) >= rom.quads().len() {
        return false;
    }
    config_rom::seal(rom);
    is_good(rom.info_crc()) == Some(true)
}

/// Whether a ROM has the one directory, and there is a text of it.
fn has_root(alloc: Global, rom: &Rom) -> Result<bool, Fail> {
    let mut own = BlockList::new(alloc);
    own.push(ROOT)?;
    let found: BlockList = config_rom::blocks(alloc, rom)?;
    let text: Vec<u8> = config_rom::rom_text(alloc, rom, &found)?;
    Ok(found.as_slice() == own.as_slice() && text.ends_with(b"blocks 1\n"))
}

#[test]
fn roms(rt: HostRuntime) -> Result<(), Fail> {
    let mut rom: Rom = config_rom::decode_rom(rt.alloc(), &ROM)?;
    assert!(rt; config_rom::encode_rom(rt.alloc(), &rom)?.as_slice() == ROM.as_slice());
    assert!(rt; rom.info_len() == 2 && rom.crc_length() == 2 && rom.quads().len() == 4);
    assert!(rt; is_good(rom.info_crc()) == Some(false) && is_sealed(&mut rom));
    assert!(rt; has_root(rt.alloc(), &rom)?);
    Ok(())
}

/// Faults of scripts, each at its place.
const KINDS: [Kind; 17] = [
    Kind::Word,
    Kind::Number,
    Kind::Name,
    Kind::Twice,
    Kind::Late,
    Kind::TooManyNodes,
    Kind::NoNode,
    Kind::NoPort,
    Kind::InUse,
    Kind::SameNode,
    Kind::NotPlugged,
    Kind::Range,
    Kind::NotSettled,
    Kind::NoManager,
    Kind::NotManager,
    Kind::TooManyTurns,
    Kind::TooManyMaps,
];

/// The place of a fault.
fn kind_place(kind: Kind) -> usize {
    match kind {
        Kind::Word => 0,
        Kind::Number => 1,
        Kind::Name => 2,
        Kind::Twice => 3,
        Kind::Late => 4,
        Kind::TooManyNodes => 5,
        Kind::NoNode => 6,
        Kind::NoPort => 7,
        Kind::InUse => 8,
        Kind::SameNode => 9,
        Kind::NotPlugged => 10,
        Kind::Range => 11,
        Kind::NotSettled => 12,
        Kind::NoManager => 13,
        Kind::NotManager => 14,
        Kind::TooManyTurns => 15,
        Kind::TooManyMaps => 16,
    }
}

/// The fault for which a line is refused, or a script.
fn line_fault(stop: LineStop) -> Option<Kind> {
    match stop {
        LineStop::Fault(kind) => Some(kind),
        LineStop::Memory(_) => None,
    }
}

fn script_fault(stop: ScriptStop) -> Option<ScriptFault> {
    match stop {
        ScriptStop::Fault(fault) => Some(fault),
        ScriptStop::Memory(_) => None,
    }
}

#[test]
fn faults_of_scripts(rt: HostRuntime) {
    for (at, kind) in KINDS.iter().enumerate() {
        assert!(rt; kind_place(*kind) == at);
        assert!(rt; line_fault(LineStop::Fault(*kind)) == Some(*kind));
    }
    assert!(rt; line_fault(LineStop::Memory(AllocError)).is_none());
    let fault = ScriptFault {
        line: 1,
        kind: Kind::Word,
    };
    assert!(rt; script_fault(ScriptStop::Fault(fault)) == Some(fault));
    assert!(rt; script_fault(ScriptStop::Memory(AllocError)).is_none());
}

/// Lines of each kind, each at its place.
const LINES: [&[u8]; 20] = [
    b"node a 3",
    b"plug a 0 b 1",
    b"pull a 0",
    b"reset a",
    b"turn 5",
    b"hold a 0 3",
    b"settle",
    b"config a - 5",
    b"csr a read 0x220",
    b"csr a write 0x220 1",
    b"csr a lock 0x220 2 4915 4815",
    b"look a",
    b"allocate a 5 100",
    b"release a 5 100",
    b"manager a",
    b"plan a",
    b"maps a",
    b"delay 4",
    b"times 1394a 170",
    b"clock a 150 20",
];

/// The place of a command's line.
fn line_place(command: &Command) -> usize {
    match command {
        Command::Node { .. } => 0,
        Command::Plug { .. } => 1,
        Command::Pull { .. } => 2,
        Command::Reset { .. } => 3,
        Command::Turn { .. } => 4,
        Command::Hold { .. } => 5,
        Command::Settle => 6,
        Command::Config { .. } => 7,
        Command::CsrRead { .. } => 8,
        Command::CsrWrite { .. } => 9,
        Command::CsrLock { .. } => 10,
        Command::Look { .. } => 11,
        Command::Allocate { .. } => 12,
        Command::Release { .. } => 13,
        Command::Manager { .. } => 14,
        Command::Plan { .. } => 15,
        Command::Maps { .. } => 16,
        Command::Delay { .. } => 17,
        Command::Times { .. } => 18,
        Command::Clock { .. } => 19,
    }
}

/// The place of a line's command.
fn place_of(alloc: Global, line: &[u8]) -> Option<usize> {
    let parsed: Result<Option<Command>, LineStop> = script_run::parse_line(alloc, line, 4);
    match parsed {
        Ok(Some(command)) => Some(line_place(&command)),
        _ => None,
    }
}

#[test]
fn commands(rt: HostRuntime) {
    for (at, line) in LINES.iter().enumerate() {
        assert!(rt; place_of(rt.alloc(), *line) == Some(at));
    }
}

/// The command of a node of three ports, where no pair of its line says more.
fn usual_node(name: Name) -> Command {
    Command::Node {
        name,
        ports: 3,
        speed: 2,
        link: true,
        contender: false,
        force: false,
        power: 0,
        gap: 63,
        gap_reset: false,
        hold: None,
        short: None,
        long: None,
        coin_word: 0,
        coin_len: 0,
        seed: None,
        packed: false,
    }
}

#[test]
fn a_usual_node(rt: HostRuntime) -> Result<(), Fail> {
    let name = Name::new(b"a").ok_or("a name")?;
    let parsed = script_run::parse_line(rt.alloc(), LINES[0], 4)?;
    assert!(rt; parsed == Some(usual_node(name)));
    Ok(())
}

/// A script of one node, and the line that no script has.
const SCRIPT: &[u8] = b"node a 3\n";

const NO_SCRIPT: &[u8] = b"node\n";

/// The end of what is told of it.
const END: &[u8] = b"nodes 1 root 0 irm none\n";

/// Whether a script is run, and advised, and its text ends so.
fn is_told(alloc: Global, script: &[u8], end: &[u8]) -> Result<bool, ScriptStop> {
    if script.len() > 1_048_576 {
        return Ok(false);
    }
    let run: Vec<u8> = script_run::run_script(alloc, script)?;
    let advised: Vec<u8> = script_run::advise_script(alloc, script)?;
    Ok(run.ends_with(end) && advised.ends_with(end))
}

/// The fault of a script.
fn fault_in(alloc: Global, script: &[u8]) -> Option<ScriptFault> {
    match is_told(alloc, script, b"") {
        Ok(_) => None,
        Err(stop) => script_fault(stop),
    }
}

#[test]
fn scripts(rt: HostRuntime) -> Result<(), Fail> {
    assert!(rt; is_told(rt.alloc(), SCRIPT, END)?);
    let fault = fault_in(rt.alloc(), NO_SCRIPT).ok_or("a fault")?;
    assert!(rt; fault.line == 1 && fault.kind == Kind::Word);
    Ok(())
}

#[test]
fn texts(rt: HostRuntime) -> Result<(), Fail> {
    let alloc = rt.alloc();
    let parts = PartList::new(alloc);
    let report = Report { turn: 40, parts };
    let text: Vec<u8> = script_run::report_text(alloc, &report, 2, &NameList::new(alloc))?;
    assert!(rt; text.as_slice() == b"report 2 turn 40\n".as_slice());
    let shown: Vec<u8> = script_run::summary(alloc, &text)?;
    assert!(rt; shown == text);
    let maps: Vec<u8> = script_run::maps_text(alloc, &tree_of_two(alloc)?, 1)?;
    assert!(rt; maps.starts_with(b"topology\n"));
    let made: Vec<u8> = script_run::make_script(alloc, 1, 7)?;
    assert!(rt; made.as_slice() == b"node n0 3 contender 1 seed 7\nsettle\n".as_slice());
    Ok(())
}

/// The status of the program on a capture of no packets.
fn status_of_nothing(alloc: Global) -> Result<u8, AllocError> {
    let words = words(alloc, &["read"])?;
    let mut source = SureSource::new(Vec::new(alloc));
    let mut sink = MemSink::new(alloc, 100, Vec::new(alloc), 100)?;
    Ok(bus_cli::bus_main::<SureSource, MemSink>(alloc, &words, &mut source, &mut sink))
}

#[test]
fn the_top_call(rt: HostRuntime) -> Result<(), Fail> {
    assert!(rt; status_of_nothing(rt.alloc())? == 1);
    Ok(())
}
