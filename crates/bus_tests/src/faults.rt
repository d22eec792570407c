//! Words that are no form, sources and sinks that fail, and an input that is too long.

use crate::inputs::{answers, capture_of, ends};
use io_edges::{MemSink, MemSource};
use std::alloc::{AllocError, Global};
use std::test::Fail;

/// Which read and which write fails, and the status and the text of `read`.
const FAILING: &[(&str, u32, u32, u8, &[u8])] = &[
    ("the first read fails", 0, 99, 3, b""),
    ("the second read fails", 1, 99, 3, b""),
    ("the first write fails", 99, 0, 4, b""),
    ("the second write fails", 99, 1, 4, b"node 0 lin"),
];

/// Whether `read` ends so where these calls fail.
fn fails(
    alloc: Global,
    failing_read: u32,
    failing_write: u32,
    status: u8,
    text: &[u8],
) -> Result<bool, AllocError> {
    let bytes = capture_of(alloc, &[0x807f_8054])?;
    let mut source = MemSource::new(bytes, vec![in alloc; failing_read]?, 8);
    let mut sink = MemSink::new(alloc, 1000, vec![in alloc; failing_write]?, 10)?;
    ends(alloc, &["read"], &mut source, &mut sink, status, text)
}

#[test]
fn failing_calls(rt: HostRuntime) -> Result<(), Fail> {
    for (name, failing_read, failing_write, status, text) in FAILING {
        let fails = fails(rt.alloc(), *failing_read, *failing_write, *status, *text)?;
        assert!(rt; fails, "{name}");
    }
    Ok(())
}

// One byte too many, and the longest input.
#[test]
fn long_inputs(rt: HostRuntime) -> Result<(), Fail> {
    for (length, status, text) in [
        (1_048_577usize, 6, b"".as_slice()),
        (1_048_576, 1, b"refused pair 0 BadInverse\n"),
    ] {
        let bytes = vec![in rt.alloc(); 0u8; length]?;
        assert!(rt; answers(rt.alloc(), &["read"], bytes, status, text)?);
    }
    Ok(())
}

/// The text of a node that is alone.
const ALONE: &[u8] =
    b"node 0 link 1 gap 63 speed 2 contender 0 power 0 initiated 0 ports . . .\nnodes 1 root 0 irm none\n";

/// Words that are a form or none, and the status and the text.
const FORMS: &[(&[&str], u8, &[u8])] = &[
    (&["read"], 0, ALONE),
    (&[], 2, b""),
    (&["read", "x"], 2, b""),
    (&["Read"], 2, b""),
    (&[""], 2, b""),
    (&["help"], 2, b""),
];

#[test]
fn forms(rt: HostRuntime) -> Result<(), Fail> {
    for (texts, status, text) in FORMS {
        let bytes = capture_of(rt.alloc(), &[0x807f_8054])?;
        assert!(rt; answers(rt.alloc(), *texts, bytes, *status, *text)?);
    }
    Ok(())
}
