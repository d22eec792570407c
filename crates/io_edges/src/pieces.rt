//! Reading a source to its end, piece by piece.
ghost use Rattle.std.specs.Prelude.{◌≡◌, ◌≢◌, ◌<◌, ◌≤◌, ◌↔◌, ℕ, List, ◌++◌, length, alloc_error, IsOk, OnOk, OnErr, IfErr, IfSome, IsErrOf};
ghost use Rattle.std.specs.Io.KnownBytes.{IsAtEnd};
ghost use Rattle.io_edges.specs.Faults.{Rose};
ghost use Rattle.io_edges.specs.Told.{AreLeft, StayTold, LeavesEnd, IfTold, TookOver};

use crate::stop::ReadStop;
use crate::traits::{Source, Taker};
use crate::whole::PIECE;

/// Gives the bytes of a source, to its end, to a taker. It takes no memory. `limit` is the most
/// bytes that are accepted, at most 1,048,576.
///
/// `ReadFault` comes only where the source's count of faults rose in this call, and `TooLong`
/// exactly where the source gave byte number `limit + 1`. After each of them the bytes left are
/// the end of those at the call.
pub fn read_pieces<S: Source, T: Taker>(
    source: &mut S,
    limit: usize,
    taker: &mut T,
) -> Result<(), ReadStop>
    requires { limit ≤ 1048576 }
    ensures all { OnOk result ((before : List ℕ) → T.stands_for taker.old before →
        (bytes : List ℕ) × T.stands_for taker.new (before ++ bytes)
        × AreLeft (S.left source.old) bytes × (length bytes ≤ limit)) }
    ensures end { OnOk result (IsAtEnd (S.left source.new)) }

    // When each refusal comes, and what is left then.
    ensures fault { IsErrOf result ReadStop.ReadFault →
        Rose (S.faults source.old) (S.faults source.new) }
    ensures long { IfTold (S.left source.old) (S.left source.new) (λ old new.
        IsErrOf result ReadStop.TooLong ↔ TookOver limit old new) }
    ensures memory { IfErr result (λ stop. stop ≢ ReadStop.Memory alloc_error) }
    ensures rest { LeavesEnd (S.left source.old) (S.left source.new) }
    ensures told { StayTold (S.left source.old) (S.left source.new) }
    ensures later { S.faults source.old ≤ S.faults source.new }

    // Where no fault comes, the told bytes decide between `Ok` and `TooLong`.
    ensures complete { ¬ Rose (S.faults source.old) (S.faults source.new) →
        IfSome (S.left source.old) (λ bytes. length bytes ≤ limit → IsOk result) }
    ensures exceeds { ¬ Rose (S.faults source.old) (S.faults source.new) →
        IfSome (S.left source.old) (λ bytes. limit < length bytes →
        IsErrOf result ReadStop.TooLong) }
{
    let mut buf = [0u8; PIECE];
    let mut room = limit;
    loop {
        let count = source.read(&mut buf)?;
        if count == 0 {
            return Ok(());
        }
        if count > room {
            return Err(ReadStop::TooLong);
        }
        taker.take(&buf[..count]);
        room -= count;
    }
}
