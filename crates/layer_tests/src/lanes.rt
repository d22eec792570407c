//! Pairs and the kernels over lanes.

use quad_lanes::{
    PairFault, QuadList, first_bad_pair, firsts, min_row, pairs_of, quads_of, same_list,
};
use std::alloc::{AllocError, Global};
use std::test::Fail;

/// Seventeen good pairs, as many as a block has and one more.
fn good_pairs(alloc: Global) -> Result<QuadList, AllocError> {
    let mut list = QuadList::new(alloc);
    for _ in 0..17 {
        list.extend_from_slice(&[0x807f_8054, 0x7f80_7fab])?;
    }
    Ok(list)
}

/// Whether the first bad pair of a list is this one.
fn first_bad_is(list: &QuadList, pair: Option<usize>) -> bool {
    let quads = list.as_slice();
    quads.len() % 2 == 0 && first_bad_pair(quads) == pair
}

#[test]
fn bad_pair_after_the_last_block(rt: HostRuntime) -> Result<(), Fail> {
    let mut list = good_pairs(rt.alloc())?;
    assert!(rt; first_bad_is(&list, None));
    list.extend_from_slice(&[0x807f_8054, 0x7f80_7faa])?;
    assert!(rt; first_bad_is(&list, Some(17)));
    Ok(())
}

/// The least of each of so many bytes and a cap, before sevens.
fn wanted_row(src: &[u8; 200], len: usize, cap: u8) -> [u8; 200] {
    let mut row = [7; 200];
    for i in 0..200 {
        if i < len {
            row[i] = src[i].min(cap);
        }
    }
    row
}

/// Whether the kernel makes this row.
fn row_is_capped(src: &[u8; 200], len: usize, cap: u8) -> bool {
    if len > 200 {
        return false;
    }
    let mut row = [7; 200];
    min_row(&mut row[..len], &src[..len], cap);
    row == wanted_row(src, len, cap)
}

#[test]
fn rows_of_all_lengths(rt: HostRuntime) {
    let mut src = [0u8; 200];
    for i in 0..200 {
        src[i] = (i % 5) as u8;
    }
    for len in [0, 1, 63, 64, 65, 200] {
        for cap in [0, 2, 255] {
            assert!(rt; row_is_capped(&src, len, cap), "{len} with cap {cap}");
        }
    }
}

#[test]
fn lists_that_differ_in_the_last(rt: HostRuntime) {
    let a = [5u32; 17];
    let mut b = a;
    assert!(rt; same_list(&a, &b));
    b[16] = 6;
    assert!(rt; !same_list(&a, &b) && !same_list(&a, &a[..16]));
}

/// Two pairs.
const BYTES: [u8; 16] = [
    0x80, 0x7f, 0x80, 0x54, 0x7f, 0x80, 0x7f, 0xab, 0x00, 0x00, 0x00, 0x01, 0xff, 0xff, 0xff, 0xfe,
];

/// The quadlets of the two pairs.
const QUADS: [u32; 4] = [0x807f_8054, 0x7f80_7fab, 1, 0xffff_fffe];

/// Whether bytes are the pairs of these quadlets, of which these are the first ones.
fn pairs_are(
    alloc: Global,
    bytes: &[u8],
    quads: &[u32],
    first: &[u32],
) -> Result<bool, AllocError> {
    match pairs_of(alloc, bytes) {
        Ok(found) => {
            Ok(found.as_slice() == quads && firsts(alloc, found.as_slice())?.as_slice() == first)
        }
        Err(_) => Ok(false),
    }
}

#[test]
fn bytes_as_quadlets_and_pairs(rt: HostRuntime) -> Result<(), Fail> {
    assert!(rt; quads_of(rt.alloc(), &BYTES[..11])?.as_slice() == &QUADS[..2]);
    assert!(rt; pairs_are(rt.alloc(), &BYTES, &QUADS, &[0x807f_8054, 1])?);
    Ok(())
}

/// Whether bytes are refused behind so many whole pairs.
fn is_cut_after(alloc: Global, bytes: &[u8], pairs: usize) -> bool {
    match pairs_of(alloc, bytes) {
        Err(PairFault::Length { whole_pairs }) => whole_pairs == pairs,
        _ => false,
    }
}

#[test]
fn half_pairs(rt: HostRuntime) {
    for cut in [9, 12, 15] {
        assert!(rt; is_cut_after(rt.alloc(), &BYTES[..cut], 1));
    }
}
