//! Where the first line of a text ends.
ghost use Rattle.std.specs.Prelude.{◌≡◌, ◌<◌, ◌≤◌, length, map, take, position, IfSome};
ghost use Rattle.std.specs.List.{position_or_len};
ghost use Rattle.std.specs.Simd.Lanes.{mask_l};
ghost use Rattle.script_text.specs.Summary.{is_feed};

use std::simd::prelude::*;

/// Which of the 16 bytes at the front are line feeds, byte number k by bit k.
#[inline(always)]
fn feeds_of_16(text: &[u8]) -> u64
    requires { 16 ≤ length text.now }
    ensures { result ≡ mask_l (map is_feed (take 16 text.now)) }
{
    u8x16::from_slice(text)
        .simd_eq(u8x16::splat(b'\n'))
        .to_bitmask()
}

/// The place of the first line feed among the 16 bytes at the front, or 16 where none is.
#[inline(always)]
fn first_feed_of_16(text: &[u8]) -> usize
    requires { 16 ≤ length text.now }
    ensures { result ≡ position_or_len is_feed (take 16 text.now) }
{
    let feeds = feeds_of_16(text);
    if feeds == 0 {
        16
    } else {
        feeds.trailing_zeros() as usize
    }
}

/// The place of the first line feed of a text.
#[inline(always)]
pub fn first_feed(text: &[u8]) -> Option<usize>
    ensures value { result ≡ position is_feed text.now }
    ensures within { IfSome result (λ place. place < length text.now) }
{
    let mut at = 0;
    let mut rest = text;
    while rest.len() >= 16 {
        let first = first_feed_of_16(rest);
        if first < 16 {
            return Some(at + first);
        }
        at += 16;
        rest = &rest[16..];
    }
    while let [c, after @ ..] = rest {
        if *c == b'\n' {
            return Some(at);
        }
        at += 1;
        rest = after;
    }
    None
}
