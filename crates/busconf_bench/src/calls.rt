//! The calls that are measured.

use crate::cablings::{Question, Shape, advice_for, answer_to, joined};
use crate::captures::{Way, length_read};
use crate::machines::{Kind, Nodes, Pace};
use crate::worlds::{Course, running, settle, turns};
use bus_cli::MAX_INPUT;
use bus_manager::hops;
use cable_world::World;
use cabling::Cabling;
use config_rom::{Rom, RomStop, blocks, decode_rom, encode_rom, rom_text};
use loop_advice::Advice;
use phy_machine::FieldMachine;
use quad_lanes::{QuadList, first_bad_pair, firsts, pairs_of};
use script_run::{run_script, trace_script};
use speed_map::rows;
use std::alloc::{AllocError, Global};
use std::io;
use std::rt::Clock;
use std::time::Instant;
use topology_map::crc16;
use topology_stack::{BusTree, read_tree};

/// How many times the median is taken of.
const BATCHES: usize = 11;

/// How many pairs the pair check goes over.
const PAIRS: usize = 65_536;

/// A call that is measured.
#[derive(Clone, Copy)]
pub enum Call {
    ReadTree,
    Hops,
    Rows,
    Crc16,
    FirstBadPair,
    PlainRead,
    Read(Way),
    Rom,
    Run,
    Trace,
    Cabling(Question, Shape),
    Tick(Pace, Kind),
    Course(Course, Shape),
}

/// The calls that ask for no shape, by their names.
const PLAIN: [(&str, Call); 15] = [
    ("read_tree", Call::ReadTree),
    ("hops", Call::Hops),
    ("rows", Call::Rows),
    ("crc16", Call::Crc16),
    ("first_bad_pair", Call::FirstBadPair),
    ("plain_read", Call::PlainRead),
    ("tick_idle_field", Call::Tick(Pace::Idle, Kind::Field)),
    ("tick_idle_packed", Call::Tick(Pace::Idle, Kind::Packed)),
    ("tick_busy_field", Call::Tick(Pace::Busy, Kind::Field)),
    ("tick_busy_packed", Call::Tick(Pace::Busy, Kind::Packed)),
    ("read_whole", Call::Read(Way::Whole)),
    ("read_stream", Call::Read(Way::Stream)),
    ("rom", Call::Rom),
    ("run", Call::Run),
    ("trace", Call::Trace),
];

/// The shapes, by their names.
const SHAPES: [(&str, Shape); 3] = [
    ("line", Shape::Line),
    ("star", Shape::Star),
    ("looped", Shape::Looped),
];

/// The questions of a cabling, by their names.
const QUESTIONS: [(&str, Question); 5] = [
    ("component", Question::Component),
    ("core", Question::Core),
    ("walk", Question::Walk),
    ("advice", Question::Advice),
    ("check", Question::Check),
];

/// The courses of a bus, by their names.
const COURSES: [(&str, Course); 2] = [("turn", Course::Turn), ("settle", Course::Settle)];

/// What a table has beside a name.
fn named<T: Copy>(table: &[(&str, T)], name: &str) -> Option<T> {
    for (known, it) in table {
        if *known == name {
            return Some(*it);
        }
    }
    None
}

impl Call {
    /// The call of this name.
    pub fn named(name: &str) -> Option<Call> {
        if let Some(call) = named(&PLAIN, name) {
            return Some(call);
        }
        let (asked, shape) = name.split_once('_')?;
        let shape = named(&SHAPES, shape)?;
        match named(&COURSES, asked) {
            Some(course) => Some(Call::Course(course, shape)),
            None => Some(Call::Cabling(named(&QUESTIONS, asked)?, shape)),
        }
    }
}

/// What a capture gives.
#[derive(Drop)]
struct Capture {
    bytes: Vec<u8>,
    quads: QuadList,
    tree: BusTree,
}

/// What the calls work on.
#[derive(Drop)]
enum Work {
    Capture(Capture, Vec<String>),
    Pairs(QuadList),
    Cabling(Cabling, Advice),
    Nodes(Nodes),
    World(World<FieldMachine>),
    Settle(Shape),
    Rom(Rom),
    Script(Vec<u8>),
}

/// The work that an input gives, if it is one that the call reads.
fn work_of(alloc: Global, call: Call, bytes: &[u8]) -> Result<Option<Work>, AllocError> {
    match call {
        Call::Rom => Ok(decode_rom(alloc, bytes).ok().map(Work::Rom)),
        Call::Run | Call::Trace => Ok(Some(Work::Script(bytes.to_vec(alloc)?))),
        _ => match capture_of(alloc, bytes)? {
            Some(capture) => Ok(Some(work_over(alloc, call, capture)?)),
            None => Ok(None),
        },
    }
}

/// What a capture gives, if it is one of a bus tree.
fn capture_of(alloc: Global, bytes: &[u8]) -> Result<Option<Capture>, AllocError> {
    let Ok(all) = pairs_of(alloc, bytes) else {
        return Ok(None);
    };
    let quads = firsts(alloc, all.as_slice())?;
    let Ok(tree) = read_tree(alloc, quads.as_slice()) else {
        return Ok(None);
    };
    let bytes = bytes.to_vec(alloc)?;
    Ok(Some(Capture { bytes, quads, tree }))
}

/// The work of a call that reads a capture.
fn work_over(alloc: Global, call: Call, capture: Capture) -> Result<Work, AllocError> {
    match call {
        Call::FirstBadPair | Call::PlainRead => Ok(Work::Pairs(pairs_with(alloc, &capture)?)),
        Call::Cabling(_, shape) => {
            let cabling = joined(alloc, shape)?;
            let advice = advice_for(alloc, &cabling)?;
            Ok(Work::Cabling(cabling, advice))
        }
        Call::Tick(_, _) => Ok(Work::Nodes(Nodes::new())),
        Call::Course(Course::Turn, shape) => Ok(Work::World(running(alloc, shape)?)),
        Call::Course(Course::Settle, shape) => Ok(Work::Settle(shape)),
        _ => {
            let words = vec![in alloc; String::from_str(alloc, "read")?]?;
            Ok(Work::Capture(capture, words))
        }
    }
}

/// The first pair of a capture, over and over.
fn pairs_with(alloc: Global, capture: &Capture) -> Result<QuadList, AllocError> {
    let mut pairs = QuadList::new(alloc);
    let first = capture.quads.as_slice().first().copied().unwrap_or(0);
    for _ in 0..PAIRS {
        pairs.extend_from_slice(&[first, !first])?;
    }
    Ok(pairs)
}

/// Decodes a ROM, and tells its blocks and its text. The answer is the length of the text.
fn told(alloc: Global, rom: &Rom) -> Result<u64, RomStop> {
    let bytes = encode_rom(alloc, rom)?;
    let rom = decode_rom(alloc, &bytes)?;
    let blocks = blocks(alloc, &rom)?;
    Ok(rom_text(alloc, &rom, &blocks)?.len() as u64)
}

/// Runs a script. The answer is the length of its text, and 0 where it has none.
fn length_run(alloc: Global, script: &[u8]) -> u64 {
    if script.len() > MAX_INPUT {
        return 0;
    }
    match run_script(alloc, script) {
        Ok(text) => text.len() as u64,
        Err(_) => 0,
    }
}

/// Traces a script. The answer is the length of its trace, and 0 where it has none.
fn length_traced(alloc: Global, script: &[u8]) -> u64 {
    if script.len() > MAX_INPUT {
        return 0;
    }
    match trace_script(alloc, script) {
        Ok(text) => text.len() as u64,
        Err(_) => 0,
    }
}

/// One call. The answer keeps the compiler from leaving it out.
fn once(alloc: Global, call: Call, work: &Work) -> u64 {
    match (work, call) {
        (Work::Capture(capture, words), _) => of_capture(alloc, call, capture, words),
        (Work::Pairs(pairs), Call::PlainRead) => sum_of(pairs.as_slice()),
        (Work::Pairs(pairs), _) => first_bad_of(pairs.as_slice()),
        (Work::Cabling(cabling, advice), Call::Cabling(question, _)) => {
            answer_to(alloc, cabling, advice, question)
        }
        (Work::Settle(shape), _) => settle(alloc, *shape).unwrap_or(0),
        (Work::Rom(rom), _) => told(alloc, rom).unwrap_or(0),
        (Work::Script(script), Call::Trace) => length_traced(alloc, script),
        (Work::Script(script), _) => length_run(alloc, script),
        _ => 0,
    }
}

/// One call over a capture.
fn of_capture(alloc: Global, call: Call, capture: &Capture, words: &[String]) -> u64 {
    match call {
        Call::Read(way) => length_read(alloc, way, words, &capture.bytes),
        Call::ReadTree => match read_tree(alloc, capture.quads.as_slice()) {
            Ok(tree) => u64::from(tree.len()),
            Err(_) => 0,
        },
        Call::Hops => u64::from(hops(&capture.tree)),
        Call::Rows => fastest_of(alloc, &capture.tree),
        Call::Crc16 => u64::from(crc16(capture.quads.as_slice())),
        _ => 0,
    }
}

/// The greatest speed of a speed map's rows.
fn fastest_of(alloc: Global, tree: &BusTree) -> u64 {
    let Ok(rows) = rows(alloc, tree) else {
        return 0;
    };
    rows.iter()
        .map(|speed| u64::from(*speed))
        .max()
        .unwrap_or(0)
}

/// The first bad pair of a buffer; 0 where there is none.
fn first_bad_of(quads: &[u32]) -> u64 {
    if quads.len() % 2 == 0 {
        first_bad_pair(quads).unwrap_or(0) as u64
    } else {
        0
    }
}

/// The sum of a buffer's quadlets.
fn sum_of(quads: &[u32]) -> u64 {
    let mut sum = 0u32;
    for quad in quads {
        sum = sum.wrapping_add(*quad);
    }
    u64::from(sum)
}

/// So many calls.
fn batch(alloc: Global, call: Call, times: u32, work: &mut Work) -> u64 {
    if let (Call::Tick(pace, kind), Work::Nodes(nodes)) = (call, &mut *work) {
        return nodes.run(pace, kind, times);
    }
    if let Work::World(world) = &mut *work {
        return turns(world, times);
    }
    let mut answers = 0u64;
    for _ in 0..times {
        answers = answers.wrapping_add(once(alloc, call, work));
    }
    answers
}

/// The median time of one call, in tenths of a nanosecond, over eleven batches of so many calls.
pub fn measured<R: Clock + AllocGlobal>(
    rt: &R,
    call: Call,
    times: u32,
    bytes: &[u8],
) -> io::Result<Option<u64>> {
    let alloc = rt.alloc();
    let Some(mut work) = work_of(alloc, call, bytes)? else {
        return Ok(None);
    };
    let mut taken = Vec::new(alloc);
    let mut answers = 0u64;
    for _ in 0..BATCHES {
        let start = Instant::now(rt)?;
        answers = answers.wrapping_add(batch(alloc, call, times, &mut work));
        let tenths = start.elapsed(rt)?.as_nanos().saturating_mul(10);
        let each = tenths / u128::from(times.max(1));
        taken.push(u64::try_from(each).unwrap_or(u64::MAX))?;
    }
    taken.sort_unstable();
    // The sum of the answers is a number that no sum of so few is.
    let median = taken.get(BATCHES / 2).copied().unwrap_or(0);
    Ok(Some(if answers == u64::MAX { 0 } else { median }))
}
