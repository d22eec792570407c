//! Reading a source to its end, and writing a whole text.
ghost use Rattle.std.specs.Prelude.{◌≡◌, ℕ, ◌-◌, ◌<◌, ◌≤◌, ◌⊎◌, ◌↔◌, length, alloc_error, IfOk, IsOk, OnOk, OnErr, IfSome, IsErrOf, IsErrAnd, IsOkUnless, vec_len};
ghost use Rattle.std.specs.Io.KnownBytes.{Appends, IsAtEnd};
ghost use Rattle.io_edges.specs.Faults.{Rose};
ghost use Rattle.io_edges.specs.Told.{StayTold, LeavesEnd, IfTold, TookOver, AppendsStart};

use crate::stop::{OutOfMemory, ReadStop};
use crate::traits::{Failed, Sink, Source};
use std::alloc::Global;

/// The most bytes of one read.
pub(crate) const PIECE: usize = 4096;

/// The most bytes of one read while fewer were read: a short source needs no larger buffer.
const FIRST: usize = 1024;

/// A place for so many bytes.
fn room_for(alloc: Global, count: usize) -> Result<Vec<u8>, OutOfMemory>
    ensures { IfOk result (λ room. vec_len room ≡ count) }
{
    vec![in alloc; 0; count]
}

/// Reads a source to its end. `limit` is the most bytes that are accepted, at most 1,048,576.
///
/// `ReadFault` comes only where the source's count of faults rose in this call, and `TooLong`
/// exactly where the source gave byte number `limit + 1`. `Memory` is want of memory for the
/// bytes or for a read of them. After each of them the bytes left are the end of those at the call.
pub fn read_all<S: Source>(alloc: Global, source: &mut S, limit: usize) -> Result<Vec<u8>, ReadStop>
    requires { limit ≤ 1048576 }
    ensures all { IfOk result (λ v. IfSome (S.left source.old) (λ bytes. v.items ≡ bytes)) }
    ensures end { OnOk result (IsAtEnd (S.left source.new)) }
    ensures short { IfOk result (λ v. vec_len v ≤ limit) }

    // When each refusal comes, and what is left then.
    ensures fault { IsErrOf result ReadStop.ReadFault →
        Rose (S.faults source.old) (S.faults source.new) }
    ensures long { IfTold (S.left source.old) (S.left source.new) (λ old new.
        IsErrOf result ReadStop.TooLong ↔ TookOver limit old new) }
    ensures rest { LeavesEnd (S.left source.old) (S.left source.new) }
    ensures told { StayTold (S.left source.old) (S.left source.new) }
    ensures later { S.faults source.old ≤ S.faults source.new }

    // Where no fault comes, the told bytes decide between `Ok` and `TooLong`.
    ensures complete { ¬ Rose (S.faults source.old) (S.faults source.new) →
        IfSome (S.left source.old) (λ bytes. length bytes ≤ limit →
        IsOkUnless result (ReadStop.Memory alloc_error)) }
    ensures exceeds { ¬ Rose (S.faults source.old) (S.faults source.new) →
        IfSome (S.left source.old) (λ bytes. limit < length bytes →
        IsErrAnd result (λ stop. (stop ≡ ReadStop.TooLong)
        ⊎ (stop ≡ ReadStop.Memory alloc_error))) }
{
    let mut bytes = Vec::new(alloc);
    let mut first = [0u8; FIRST];
    while bytes.len() < FIRST {
        let count = source.read(&mut first)?;
        if count == 0 {
            return Ok(bytes);
        }
        if count > limit - bytes.len() {
            return Err(ReadStop::TooLong);
        }
        bytes.extend_from_slice(&first[..count])?;
    }
    let mut buf = room_for(alloc, PIECE)?;
    loop {
        let count = source.read(&mut buf)?;
        if count == 0 {
            return Ok(bytes);
        }
        let room = limit - bytes.len();
        if count > room {
            return Err(ReadStop::TooLong);
        }
        bytes.extend_from_slice(&buf[..count])?;
    }
}

/// Appends the whole of `bytes` to a sink. It takes no memory.
///
/// `Failed` comes only where the sink's count of faults rose in this call, and then the first of
/// `bytes` were appended, or none of them.
pub fn write_whole<K: Sink>(sink: &mut K, bytes: &[u8]) -> Result<(), Failed>
    ensures ok { OnOk result (Appends (K.written sink.old) (K.written sink.new) bytes.now) }
    ensures fault { OnErr result (Rose (K.faults sink.old) (K.faults sink.new)) }
    ensures start { OnErr result
        (AppendsStart (K.written sink.old) (K.written sink.new) bytes.now) }
    ensures told { StayTold (K.written sink.old) (K.written sink.new) }
    ensures later { K.faults sink.old ≤ K.faults sink.new }

    // A sink that surely takes so many bytes has no fault, and surely takes what is left of them.
    ensures sure { (n : ℕ) → length bytes.now ≤ n → K.surely_takes sink.old n → IsOk result
        × K.surely_takes sink.new (n - length bytes.now) × (K.faults sink.new ≡ K.faults sink.old) }
{
    let mut at = 0;
    while at < bytes.len() {
        at += sink.write(&bytes[at..])?;
    }
    Ok(())
}
