//! Kernels over vectors: 16 quadlets or 64 bytes at a time, and then what is left one by one.
ghost use Rattle.std.specs.Prelude.{◌≡◌, ◌↔◌, ◌%◌, ◌≤◌, IsTrue, ◌++◌, length, take, drop, map};
ghost use Rattle.std.specs.List.{position_or_len};
ghost use Rattle.std.specs.Simd.Lanes.{mask_l};
ghost use Rattle.quad_lanes.specs.Pairs.{first_bad_pair, is_bad, pairs};
ghost use Rattle.quad_lanes.specs.Rows.{capped};

use std::simd::prelude::*;

/// Which of the 8 pairs at the front are bad, pair number k by bit k.
#[inline(always)]
fn bad_of_eight(quads: &[u32]) -> u64
    requires { 16 ≤ length quads.now }
    ensures { result ≡ mask_l (map is_bad (pairs (take 16 quads.now))) }
{
    let (firsts, seconds) = u32x8::from_slice(quads).deinterleave(u32x8::from_slice(&quads[8..]));
    seconds.simd_ne(!firsts).to_bitmask()
}

/// The number of the first bad one of the 8 pairs at the front, or 8 where all are good.
#[inline(always)]
fn first_bad_of_eight(quads: &[u32]) -> usize
    requires { 16 ≤ length quads.now }
    ensures { result ≡ position_or_len is_bad (pairs (take 16 quads.now)) }
{
    let bad = bad_of_eight(quads);
    if bad == 0 {
        8
    } else {
        bad.trailing_zeros() as usize
    }
}

/// The number of the first pair, counted from 0, whose second quadlet isn't the bitwise inverse of
/// its first. `None` where every pair is good. `quads` holds whole pairs.
pub fn first_bad_pair(quads: &[u32]) -> Option<usize>
    requires { length quads.now % 2 ≡ 0 }
    ensures { result ≡ first_bad_pair quads.now }
{
    let mut pair = 0;
    let mut rest = quads;
    while rest.len() >= 16 {
        let good = first_bad_of_eight(rest);
        if good < 8 {
            return Some(pair + good);
        }
        pair += 8;
        rest = &rest[16..];
    }
    while let [first, second, after @ ..] = rest {
        if *second != !*first {
            return Some(pair);
        }
        pair += 1;
        rest = after;
    }
    None
}

/// Writes the lesser of each of the first 64 bytes of `src` and `cap` at the front of `dst`.
#[inline(always)]
fn min_of_64(dst: &mut [u8], src: &[u8], cap: u8)
    requires to { 64 ≤ length dst.old }
    requires from { 64 ≤ length src.now }
    ensures { dst.new ≡ capped (take 64 src.now) cap ++ drop 64 dst.old }
{
    u8x64::from_slice(src)
        .simd_min(u8x64::splat(cap))
        .copy_to_slice(dst);
}

/// Writes the lesser of each byte of `src` and `cap` at the same place of `dst`. The two rows have
/// one length.
pub fn min_row(dst: &mut [u8], src: &[u8], cap: u8)
    requires { length dst.old ≡ length src.now }
    ensures { dst.new ≡ capped src.now cap }
{
    let mut at = 0;
    while src.len() - at >= 64 {
        min_of_64(&mut dst[at..], &src[at..], cap);
        at += 64;
    }
    for i in at..src.len() {
        dst[i] = src[i].min(cap);
    }
}

/// Whether the first 16 quadlets of two lists are the same.
#[inline(always)]
fn same_16(a: &[u32], b: &[u32]) -> bool
    requires of_a { 16 ≤ length a.now }
    requires of_b { 16 ≤ length b.now }
    ensures { IsTrue result ↔ (take 16 a.now ≡ take 16 b.now) }
{
    u32x16::from_slice(a)
        .simd_ne(u32x16::from_slice(b))
        .to_bitmask()
        == 0
}

/// Whether two lists of quadlets are equal: as long, and the same at each place.
pub fn same_list(a: &[u32], b: &[u32]) -> bool
    ensures { IsTrue result ↔ (a.now ≡ b.now) }
{
    if a.len() != b.len() {
        return false;
    }
    let mut at = 0;
    while a.len() - at >= 16 {
        if !same_16(&a[at..], &b[at..]) {
            return false;
        }
        at += 16;
    }
    for i in at..a.len() {
        if a[i] != b[i] {
            return false;
        }
    }
    true
}
