//! The forms `advice` and `make`, the longest script, and the list of a node.

use crate::inputs::{answers, ends, sink_of};
use io_edges::MemSource;
use script_run::{advise_script, list_script};
use std::alloc::{AllocError, Global};
use std::test::Fail;
use topology_stack::Name;

/// Two nodes with two cables, and what is advised.
const DOUBLED: &[u8] = b"node a 3 coins 0\nnode b 3 coins 1\nplug a 0 b 0\nplug a 1 b 1\n";

const ADVISED: &[u8] =
    b"advice a b\npull a 1 b 1\nleft 1\nreport 2 turn 16256\ncomponent rounds 1 changed 8427 nodes a b\ntree root b\nnode 0 link 1 gap 63 speed 2 contender 0 power 0 initiated 1 ports ^1 . . name a\nnode 1 link 1 gap 63 speed 2 contender 0 power 0 initiated 1 ports v0 . . name b\nnodes 2 root 1 irm none\n";

/// Whether this is the text of a script's advice.
fn is_advised(alloc: Global, script: &[u8], wanted: &[u8]) -> bool {
    if script.len() > 1_048_576 {
        return false;
    }
    match advise_script(alloc, script) {
        Ok(text) => text.as_slice() == wanted,
        Err(_) => false,
    }
}

/// Scripts, and the status and the text of `advice`.
const ADVICES: &[(&[u8], u8, &[u8])] = &[
    (DOUBLED, 0, ADVISED),
    (
        b"node a 3\nturn 1991000\n",
        1,
        b"refused line 3 TooManyTurns\n",
    ),
    (b"node a 3\nplug a 0 b 0\n", 1, b"refused line 2 NoNode\n"),
];

#[test]
fn advice(rt: HostRuntime) -> Result<(), Fail> {
    assert!(rt; is_advised(rt.alloc(), DOUBLED, ADVISED));
    for (script, status, text) in ADVICES {
        let bytes = script.to_vec(rt.alloc())?;
        assert!(rt; answers(rt.alloc(), &["advice"], bytes, *status, *text)?);
    }
    Ok(())
}

/// The summary of the script that is made for one node.
const MADE: &[u8] =
    b"report 2 turn 16096\ncomponent rounds 0 changed 261 nodes n0\ntree root n0\nnodes 1 root 0 irm 0\n";

/// Words, and the status and the text.
const MAKES: &[(&[&str], u8, &[u8])] = &[
    (&["make", "1", "7"], 0, MADE),
    (&["make", "01", "0x7"], 0, MADE),
    (&["make", "1"], 2, b""),
    (&["make", "0", "7"], 2, b""),
    (&["make", "64", "7"], 2, b""),
    (&["make", "257", "7"], 2, b""),
    (&["make", "1", "4294967296"], 2, b""),
    (&["make", "1", "-7"], 2, b""),
    (&["make", "1", "7", "7"], 2, b""),
    (&["run", "1", "7"], 2, b""),
    (&["advice", "1", "7"], 2, b""),
];

/// Whether words end with this status and this text, where the source fails at its first read.
fn is_made(alloc: Global, texts: &[&str], status: u8, text: &[u8]) -> Result<bool, AllocError> {
    let mut source = MemSource::new(Vec::new(alloc), vec![in alloc; 0u32]?, 8);
    let mut sink = sink_of(alloc, 1000)?;
    ends(alloc, texts, &mut source, &mut sink, status, text)
}

// The source isn't read.
#[test]
fn made_scripts(rt: HostRuntime) -> Result<(), Fail> {
    for (texts, status, text) in MAKES {
        assert!(rt; is_made(rt.alloc(), *texts, *status, *text)?);
    }
    Ok(())
}

#[test]
fn a_script_that_is_too_long(rt: HostRuntime) -> Result<(), Fail> {
    for (length, status, text) in [
        (1_048_576usize, 0, b"report 1 turn 8000\n".as_slice()),
        (1_048_577, 6, b""),
    ] {
        let bytes = vec![in rt.alloc(); b'#'; length]?;
        assert!(rt; answers(rt.alloc(), &["run"], bytes, status, text)?);
    }
    Ok(())
}

/// Whether this is the list of the node `b` at a script's end.
fn list_is(alloc: Global, script: &[u8], wanted: &[u32]) -> bool {
    let Some(name) = Name::new(b"b") else {
        return false;
    };
    if script.len() > 1_048_576 {
        return false;
    }
    match list_script(alloc, script, &name) {
        Ok(list) => list.as_slice() == wanted,
        Err(_) => false,
    }
}

#[test]
fn a_nodes_list(rt: HostRuntime) {
    let script = b"node a 3 coins 0\nnode b 3 coins 1\nplug a 0 b 0\n";
    assert!(rt; list_is(rt.alloc(), script, &[0x807f_8096, 0x817f_80d6]));
}
