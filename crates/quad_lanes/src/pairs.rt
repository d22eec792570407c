//! Bytes as pairs of quadlets.
ghost use Rattle.std.specs.Prelude.{◌≡◌, ◌≢◌, ◌↔◌, ℕ, ◌/◌, ◌%◌, length, IfOk, OnOk};
ghost use Rattle.quad_lanes.specs.Pairs.{quads_of, firsts};

use crate::list::{OutOfMemory, QuadList};
use byteorder::{BigEndian, ByteOrder};
use std::alloc::Global;

/// Why bytes are no pairs of quadlets.
#[derive(Debug, Drop)]
pub enum PairFault {
    /// The bytes end within a pair, after this many whole pairs.
    Length { whole_pairs: usize },
    /// There was no memory for the list.
    Memory(OutOfMemory),
}

impl From<OutOfMemory> for PairFault {
    ghost use Rattle.quad_lanes.specs.declared.pairs.PairFault.TheVariants.{Memory};

    ghost from_gives = { λ e fault. fault ≡ Memory e };

    fn from(e: OutOfMemory) -> PairFault {
        PairFault::Memory(e)
    }
}

/// The big-endian quadlets of `bytes`, without the bytes after the last whole one.
pub fn quads_of(alloc: Global, bytes: &[u8]) -> Result<QuadList, OutOfMemory>
    ensures quads { IfOk result (λ quads. quads ≡ quads_of bytes.now) }
    ensures count { IfOk result (λ quads. length quads ≡ length bytes.now / 4) }
{
    let mut quads = QuadList::new(alloc);
    let mut rest = bytes;
    while rest.len() >= 4 {
        quads.push(BigEndian::read_u32(rest))?;
        rest = &rest[4..];
    }
    Ok(quads)
}

/// The big-endian quadlets of `bytes`, which are whole pairs of 8 bytes each.
///
/// Bytes that end within a pair are refused with `PairFault::Length`, which counts the whole pairs
/// before. Whether a pair's second quadlet is the inverse of its first tells `first_bad_pair`.
pub fn pairs_of(alloc: Global, bytes: &[u8]) -> Result<QuadList, PairFault>
    ensures quads { IfOk result (λ quads. quads ≡ quads_of bytes.now) }
    ensures count { IfOk result (λ quads. length quads ≡ length bytes.now / 4) }
    ensures whole { OnOk result (length bytes.now % 8 ≡ 0) }
    ensures even { IfOk result (λ quads. length quads % 2 ≡ 0) }

    // exactly where the bytes end within a pair
    ensures cut { (n : ℕ) → (result ≡ Err (PairFault.Length n))
        ↔ ((length bytes.now % 8 ≢ 0) × (n ≡ length bytes.now / 8)) }
{
    if bytes.len() % 8 != 0 {
        return Err(PairFault::Length {
            whole_pairs: bytes.len() / 8,
        });
    }
    Ok(quads_of(alloc, bytes)?)
}

/// The quadlets at even places, counted from 0: the first one of each pair.
pub fn firsts(alloc: Global, quads: &[u32]) -> Result<QuadList, OutOfMemory>
    requires { length quads.now % 2 ≡ 0 }
    ensures quads { IfOk result (λ list. list ≡ firsts quads.now) }
    ensures count { IfOk result (λ list. length list ≡ length quads.now / 2) }
{
    let mut list = QuadList::new(alloc);
    let mut rest = quads;
    while let [first, _, after @ ..] = rest {
        list.push(*first)?;
        rest = after;
    }
    Ok(list)
}
