//! Words and captures to run the top call on.

use bus_cli::bus_main;
use io_edges::{MemSink, Source, SureSource};
use std::alloc::{AllocError, Global};

/// The words of the program.
pub fn words(alloc: Global, texts: &[&str]) -> Result<Vec<String>, AllocError> {
    let mut words = Vec::new(alloc);
    for text in texts {
        words.push(String::from_str(alloc, text)?)?;
    }
    Ok(words)
}

/// The big-endian bytes of quadlets.
pub fn bytes_of(alloc: Global, quads: &[u32]) -> Result<Vec<u8>, AllocError> {
    let mut bytes = Vec::new(alloc);
    for quad in quads {
        bytes.extend_from_slice(&quad.to_be_bytes())?;
    }
    Ok(bytes)
}

/// The capture of packets: the quadlet of each before its inverse.
pub fn capture_of(alloc: Global, packets: &[u32]) -> Result<Vec<u8>, AllocError> {
    let mut bytes = Vec::new(alloc);
    for packet in packets {
        bytes.extend_from_slice(&packet.to_be_bytes())?;
        bytes.extend_from_slice(&(!*packet).to_be_bytes())?;
    }
    Ok(bytes)
}

/// A sink with room for so many bytes, which takes all that fits.
pub fn sink_of(alloc: Global, room: usize) -> Result<MemSink, AllocError> {
    MemSink::new(alloc, room, Vec::new(alloc), 10_000)
}

/// Whether the program ends with this status, and has written this text.
pub fn ends<S: Source>(
    alloc: Global,
    texts: &[&str],
    source: &mut S,
    sink: &mut MemSink,
    status: u8,
    text: &[u8],
) -> Result<bool, AllocError> {
    let words = words(alloc, texts)?;
    Ok(bus_main(alloc, &words, source, sink) == status && sink.written() == text)
}

/// Whether a form on these bytes ends with this status, and has written this text.
pub fn answers(
    alloc: Global,
    texts: &[&str],
    bytes: Vec<u8>,
    status: u8,
    text: &[u8],
) -> Result<bool, AllocError> {
    let mut sink = sink_of(alloc, 10_000)?;
    ends(
        alloc,
        texts,
        &mut SureSource::new(bytes),
        &mut sink,
        status,
        text,
    )
}

/// The most bytes that the source gives at a time, by which `read` is tried.
pub const PIECES: [usize; 5] = [1, 3, 7, 8, 4096];
