//! Captures that are cut, in pieces of each size.

use crate::inputs::{PIECES, capture_of, ends, sink_of};
use io_edges::MemSource;
use std::alloc::{AllocError, Global};
use std::test::Fail;

/// Four leaves on a hub of eleven slots: six packets.
const HUB: [u32; 6] = [
    0x807f_8094,
    0x817f_8094,
    0x827f_8094,
    0x837f_8094,
    0x847f_80dd,
    0x8483_555c,
];

/// The refusal of the first so many bytes of that capture, fewer than all.
fn cut_line(alloc: Global, length: usize) -> Result<String, AllocError> {
    let pair = length / 8;
    match (length, length % 8) {
        (0, _) => format!(in alloc; "refused pair 0 Empty\n"),
        (40, _) => format!(in alloc; "refused pair 5 Cut\n"),
        (_, 0) => format!(in alloc; "refused pair {} NoRoot\n", pair),
        _ => format!(in alloc; "refused pair {} BadLength\n", pair),
    }
}

/// Whether the capture's first so many bytes, fewer than all, are refused, in pieces of any size.
fn is_refused(alloc: Global, bytes: &[u8], line: &[u8]) -> Result<bool, AllocError> {
    for piece in PIECES {
        let mut source = MemSource::new(bytes.to_vec(alloc)?, Vec::new(alloc), piece);
        let mut sink = sink_of(alloc, 10_000)?;
        if !ends(alloc, &["read"], &mut source, &mut sink, 1, line)? {
            return Ok(false);
        }
    }
    Ok(true)
}

#[test]
fn captures_that_are_cut(rt: HostRuntime) -> Result<(), Fail> {
    let whole = capture_of(rt.alloc(), &HUB)?;
    assert!(rt; whole.len() == 48);
    for length in 0..48usize {
        let line = cut_line(rt.alloc(), length)?;
        let refused = is_refused(rt.alloc(), &whole[..length], line.as_bytes())?;
        assert!(rt; refused, "{length} bytes");
    }
    Ok(())
}
