//! Each read and each write of the program fails in turn.

use crate::inputs::{capture_of, ends};
use io_edges::{MemSink, MemSource};
use std::alloc::{AllocError, Global};
use std::process::Abort;
use std::test::Fail;

/// The answers to a run of each form that reads something valid.
const READ: &[u8] =
    b"node 0 link 1 gap 63 speed 2 contender 0 power 0 initiated 0 ports ^1 . .\nnode 1 link 1 gap 63 speed 2 contender 1 power 0 initiated 0 ports v0 . .\nnodes 2 root 1 irm 1\n";

const RUN: &[u8] =
    b"report 1 turn 8128\ncomponent rounds 1 changed 299 nodes a b\ntree root b\nnode 0 link 1 gap 63 speed 2 contender 0 power 0 initiated 1 ports ^1 . . name a\nnode 1 link 1 gap 63 speed 2 contender 0 power 0 initiated 1 ports v0 . . name b\nnodes 2 root 1 irm none\n";

const MAPS: &[u8] =
    b"topology\n0003ca63\n00000001\n00010001\n807f0054\nspeed\n001178b3\n00000001\n00000000\n00000000\n00000000\n00000000\n00000000\n00000000\n00000000\n00000000\n00000000\n00000000\n00000000\n00000000\n00000000\n00000000\n00000000\n00000000\n";

/// A form, an input of its, and the text that answers it.
#[derive(Drop)]
struct Run {
    form: &'static str,
    input: Vec<u8>,
    text: &'static [u8],
}

/// The run of a form.
fn run_of(form: &'static str, input: Vec<u8>, text: &'static [u8]) -> Run {
    Run { form, input, text }
}

/// A run of each form that reads something valid.
fn valid_runs(alloc: Global) -> Result<Vec<Run>, AllocError> {
    let mut runs = Vec::new(alloc);
    let capture = capture_of(alloc, &[0x807f_8094, 0x817f_88d4])?;
    runs.push(run_of("read", capture, READ))?;
    let script = b"node a 3 coins 0\nnode b 3 coins 1\nplug a 0 b 0\n\n".to_vec(alloc)?;
    runs.push(run_of("run", script, RUN))?;
    runs.push(run_of("maps", capture_of(alloc, &[0x807f_0054])?, MAPS))?;
    Ok(runs)
}

/// Whether a run whose reads come in pieces of five bytes and fail at one call ends so.
fn ends_reading(
    alloc: Global,
    run: &Run,
    call: u32,
    status: u8,
    text: &[u8],
) -> Result<bool, AllocError> {
    let bytes = run.input.as_slice().to_vec(alloc)?;
    let mut source = MemSource::new(bytes, vec![in alloc; call]?, 5);
    let mut sink = MemSink::new(alloc, 10_000, Vec::new(alloc), 10_000)?;
    ends(alloc, &[run.form], &mut source, &mut sink, status, text)
}

/// Whether a run whose sink has room for so many bytes ends so.
fn ends_writing(
    alloc: Global,
    form: &str,
    input: &[u8],
    room: usize,
    status: u8,
    text: &[u8],
) -> Result<bool, AllocError> {
    let mut source = MemSource::new(input.to_vec(alloc)?, Vec::new(alloc), 64);
    let mut sink = MemSink::new(alloc, room, Vec::new(alloc), 7)?;
    ends(alloc, &[form], &mut source, &mut sink, status, text)
}

// A read of no bytes, which is the end, is a call too.
#[test]
fn each_read_fails(rt: HostRuntime) -> Result<(), Fail> {
    for run in &valid_runs(rt.alloc())? {
        let reads = u32::try_from(run.input.len() / 5 + 2).unwrap_or(0);
        for call in 0..reads {
            assert!(rt; ends_reading(rt.alloc(), run, call, 3, b"")?, "read {call}");
        }
        assert!(rt; ends_reading(rt.alloc(), run, reads, 0, run.text)?);
    }
    Ok(())
}

/// Tries a text with each room that is too small for it, and with one that isn't.
fn try_rooms(
    rt: &impl Abort,
    alloc: Global,
    form: &str,
    input: &[u8],
    text: &[u8],
    whole: u8,
) -> Result<(), Fail> {
    for room in 0..text.len() {
        let ends = ends_writing(alloc, form, input, room, 4, &text[..room])?;
        assert!(rt; ends, "room {room}");
    }
    assert!(rt; ends_writing(alloc, form, input, text.len(), whole, text)?);
    Ok(())
}

/// Forms with inputs that they refuse, and the lines that say so.
const REFUSALS: &[(&str, &[u8], &[u8])] = &[
    (
        "read",
        b"\x80\x7f\x80\x94\x7f\x80\x7f\x6b\x81\x7f\x80\xd4\x7e\x80\x7f\x2a",
        b"refused pair 1 BadInverse\n",
    ),
    ("run", b"delay 17", b"refused line 1 Range\n"),
    ("rom", b"", b"refused quadlet 0 RomEmpty\n"),
];

#[test]
fn each_write_fails(rt: HostRuntime) -> Result<(), Fail> {
    for run in &valid_runs(rt.alloc())? {
        try_rooms(&rt, rt.alloc(), run.form, &run.input, run.text, 0)?;
    }
    for (form, input, line) in REFUSALS {
        try_rooms(&rt, rt.alloc(), *form, *input, *line, 1)?;
    }
    Ok(())
}
