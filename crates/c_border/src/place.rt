//! Lists at places of the caller's.
ghost use Rattle.c_border.specs.Places.{IsCopied};

use crate::status::{OK, TOO_SHORT};

/// Writes bytes to the front of a place, where it has room, and tells how many they are.
pub fn tell_bytes(bytes: &[u8], place: &mut [u8], needed: &mut usize) -> u32
    ensures { IsCopied bytes.now place.old place.new needed.new result }
{
    let count = bytes.len();
    *needed = count;
    if place.len() < count {
        return TOO_SHORT;
    }
    place[..count].copy_from_slice(bytes);
    OK
}

/// Writes quadlets to the front of a place, where it has room, and tells how many they are.
pub fn tell_quads(quads: &[u32], place: &mut [u32], needed: &mut usize) -> u32
    ensures { IsCopied quads.now place.old place.new needed.new result }
{
    let length = quads.len();
    *needed = length;
    if place.len() < length {
        return TOO_SHORT;
    }
    place[..length].copy_from_slice(quads);
    OK
}
