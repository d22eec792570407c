//! Captures of quadlets, and what whole good pairs stand for.
ghost use Rattle.std.specs.Prelude.{◌≡◌, ◌++◌, IfOk, OnOk};
ghost use Rattle.std.specs.Int.{w32, to_be_bytes};
ghost use Rattle.quad_lanes.specs.Capture.{capture, GoodPairsAreACapture, CapturesAreWhole, CapturesAreGood, CapturesAreReadBack};
ghost use Rattle.quad_lanes.specs.Pairs.{inverse};

use crate::list::OutOfMemory;
use std::alloc::Global;

/// A law: bytes that are whole pairs, of which none is bad, are the capture of the firsts of their
/// pairs. So the firsts leave nothing out.
pub fn good_pairs_are_a_capture()
    ensures { GoodPairsAreACapture }
{}

/// A law: the capture of any quadlets is read back. It has 8 bytes a quadlet, no pair of it is bad,
/// and the firsts of its pairs are these quadlets.
pub fn capture_is_read_back()
    ensures whole { CapturesAreWhole }
    ensures good { CapturesAreGood }
    ensures same { CapturesAreReadBack }
{}

/// Appends a quadlet and its inverse, each with its highest byte first.
fn put_pair(out: &mut Vec<u8>, quad: u32) -> Result<(), OutOfMemory>
    ensures { OnOk result (out.new.items
        ≡ out.old.items ++ (to_be_bytes w32 quad ++ to_be_bytes w32 (inverse quad))) }
{
    out.extend_from_slice(&quad.to_be_bytes())?;
    out.extend_from_slice(&(!quad).to_be_bytes())?;
    Ok(())
}

/// Returns the capture of `list`: 8 bytes a quadlet, the quadlet and then its inverse, each with its
/// highest byte first.
///
/// # Errors
/// `OutOfMemory` if no memory is found for the bytes.
pub fn capture_of(alloc: Global, list: &[u32]) -> Result<Vec<u8>, OutOfMemory>
    ensures { IfOk result (λ bytes. bytes.items ≡ capture list.now) }
{
    let mut bytes = Vec::new(alloc);
    for quad in list {
        put_pair(&mut bytes, *quad)?;
    }
    Ok(bytes)
}
