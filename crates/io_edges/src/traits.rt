//! What a source and a sink of bytes are.
ghost use Rattle.std.specs.Prelude.{◌≡◌, ℕ, ◌-◌, ◌<◌, ◌≤◌, List, length, Option, ◌++◌, IfOk, IsOkAnd, OnErr};
ghost use Rattle.std.specs.Io.{ReadsAtMost, WritesAtMost};
ghost use Rattle.std.specs.Io.KnownBytes.{ReadConsumes, WriteAppends};
ghost use Rattle.io_edges.specs.Faults.{Rose};
ghost use Rattle.io_edges.specs.Told.{AreBytes, StayTold};

use thiserror::Error;

/// A read or a write that failed. No byte was taken, and the count of faults of the source or the
/// sink rose, or stands at its last value.
#[derive(Clone, Copy, Debug, PartialEq, Eq, Error)]
#[error("the read or the write failed")]
pub struct Failed;

/// A source of bytes. Contracts see the bytes that it has left, if it tells them, and its count of
/// faults. Whether it tells its bytes never changes, and the count never falls.
pub trait Source {
    // The bytes that reads give from here on, where the source tells them: numbers below 256.
    ghost left: { Self → Option (List ℕ) };

    // How many faults there were. The count may stay at the last value of a `u64`.
    ghost faults: { Self → ℕ };

    /// Takes the next bytes into the front of `buf`, and answers how many. `Ok(0)` for a `buf`
    /// that is not empty means the end. Nothing is said of the rest of `buf`. It answers `Failed`
    /// only where the count of faults rose, and then no byte is taken.
    fn read(&mut self, buf: &mut [u8]) -> Result<usize, Failed>
        ensures bound { ReadsAtMost result buf.new }
        ensures bytes { ReadConsumes (left self.old) (left self.new) result buf.new }
        ensures told { StayTold (left self.old) (left self.new) }
        ensures later { faults self.old ≤ faults self.new }
        ensures cause { OnErr result (Rose (faults self.old) (faults self.new)) };

    ghost fit: { (source : Self) → AreBytes (left source) };
}

/// A sink of bytes. Contracts see the bytes that were written, if it tells them, and its count of
/// faults. Whether it tells its bytes never changes, and the count never falls.
pub trait Sink {
    // The bytes written so far, where the sink tells them.
    ghost written: { Self → Option (List ℕ) };

    // How many faults there were. The count may stay at the last value of a `u64`.
    ghost faults: { Self → ℕ };

    // So many more bytes are taken without a fault, in one write or in several. A sink need not
    // promise it of any number.
    ghost surely_takes: { Self → ℕ → Type 0 } = { λ _ _. ⊥ };

    /// Appends the first bytes of `buf`, and answers how many: at least one, unless `buf` is
    /// empty. It answers `Failed` only where the count of faults rose, and then no byte is
    /// appended.
    fn write(&mut self, buf: &[u8]) -> Result<usize, Failed>
        ensures bound { WritesAtMost result buf.now }
        ensures some { 0 < length buf.now → IfOk result (λ count. 0 < count) }
        ensures bytes { WriteAppends (written self.old) (written self.new) result buf.now }
        ensures told { StayTold (written self.old) (written self.new) }
        ensures later { faults self.old ≤ faults self.new }
        ensures cause { OnErr result (Rose (faults self.old) (faults self.new)) }
        ensures sure { (n : ℕ) → length buf.now ≤ n → surely_takes self.old n →
            IsOkAnd result (λ count. surely_takes self.new (n - count))
            × (faults self.new ≡ faults self.old) };
}

/// What takes the bytes of a source piece by piece. It need not keep them.
pub trait Taker {
    // These may be the bytes that it was given so far.
    ghost stands_for: { Self → List ℕ → Type 0 };

    /// Takes the next bytes.
    fn take(&mut self, piece: &[u8])
        ensures { (bytes : List ℕ) → stands_for self.old bytes
            → stands_for self.new (bytes ++ piece.now) };
}
