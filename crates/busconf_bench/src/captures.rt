//! Reading a capture whole, as the program once did, and as it comes.

use bus_cli::bus_main;
use io_edges::{MemSink, SureSource, read_all, write_whole};
use quad_lanes::{first_bad_pair, firsts, pairs_of};
use std::alloc::{AllocError, Global};
use topology_stack::{NameList, read_tree, tree_text};

/// The way in which a capture is read.
#[derive(Clone, Copy)]
pub enum Way {
    Whole,
    Stream,
}

/// Reads a capture and writes the text of its tree. The answer is the length of the text, and 0
/// where there is none.
pub fn length_read(alloc: Global, way: Way, words: &[String], bytes: &[u8]) -> u64 {
    let length = match way {
        Way::Whole => length_whole(alloc, bytes),
        Way::Stream => length_streamed(alloc, words, bytes),
    };
    length.unwrap_or(0)
}

fn sink_for(alloc: Global) -> Result<MemSink, AllocError> {
    MemSink::new(alloc, 20_000, Vec::new(alloc), 20_000)
}

fn length_streamed(alloc: Global, words: &[String], bytes: &[u8]) -> Result<u64, AllocError> {
    let mut source = SureSource::new(bytes.to_vec(alloc)?);
    let mut sink = sink_for(alloc)?;
    let _status = bus_main(alloc, words, &mut source, &mut sink);
    Ok(sink.written().len() as u64)
}

fn length_whole(alloc: Global, bytes: &[u8]) -> Result<u64, AllocError> {
    let mut source = SureSource::new(bytes.to_vec(alloc)?);
    let mut sink = sink_for(alloc)?;
    let Ok(bytes) = read_all(alloc, &mut source, 1_048_576) else {
        return Ok(0);
    };
    let Ok(pairs) = pairs_of(alloc, &bytes) else {
        return Ok(0);
    };
    if first_bad_pair(pairs.as_slice()).is_some() {
        return Ok(0);
    }
    let quads = firsts(alloc, pairs.as_slice())?;
    let Ok(tree) = read_tree(alloc, quads.as_slice()) else {
        return Ok(0);
    };
    let text = tree_text(alloc, &tree, &NameList::new(alloc))?;
    let _written = write_whole(&mut sink, &text);
    Ok(sink.written().len() as u64)
}
