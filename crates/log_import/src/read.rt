//! Reading a log to its end.
ghost use Rattle.std.specs.Prelude.{◌≡◌, ℕ, ◌<◌, ◌≤◌, ◌↔◌, length, alloc_error, IfOk, OnOk, IfSome, IsErrOf, IsOkUnless};
ghost use Rattle.std.specs.Io.KnownBytes.{IsAtEnd};
ghost use Rattle.io_edges.specs.Faults.{Rose};
ghost use Rattle.io_edges.specs.Told.{IfTold, TookOver};

use io_edges::{ReadStop, Source};
use std::alloc::Global;

/// The most bytes of a log.
const MOST: usize = 1_073_741_824;

/// The most bytes of one read.
const PIECE: usize = 65_536;

/// Reads a log to its end. It has at most 1,073,741,824 bytes.
///
/// `ReadFault` comes only where the source's count of faults rose in this call, and `TooLong` exactly where the source
/// gave more bytes.
pub(crate) fn read_log<S: Source>(alloc: Global, source: &mut S) -> Result<Vec<u8>, ReadStop>
    ensures all { IfOk result (λ log. IfSome (S.left source.old) (λ bytes. log.items ≡ bytes)) }
    ensures short { IfOk result (λ log. length log.items ≤ 1073741824) }
    ensures end { OnOk result (IsAtEnd (S.left source.new)) }
    ensures fault { IsErrOf result ReadStop.ReadFault →
        Rose (S.faults source.old) (S.faults source.new) }
    ensures long { IfTold (S.left source.old) (S.left source.new) (λ old new.
        IsErrOf result ReadStop.TooLong ↔ TookOver 1073741824 old new) }
    ensures complete { ¬ Rose (S.faults source.old) (S.faults source.new) →
        IfSome (S.left source.old) (λ bytes. length bytes ≤ 1073741824 →
        IsOkUnless result (ReadStop.Memory alloc_error)) }
{
    let mut log = Vec::new(alloc);
    let mut buf = [0u8; PIECE];
    loop {
        let count = source.read(&mut buf)?;
        if count == 0 {
            return Ok(log);
        }
        let room = MOST - log.len();
        if count > room {
            return Err(ReadStop::TooLong);
        }
        log.extend_from_slice(&buf[..count])?;
    }
}
