//! Sources and sinks in memory.
ghost use Rattle.std.specs.Prelude.{◌≡◌, ℕ, ◌+◌, ◌-◌, ◌<◌, ◌≤◌, ◌⊎◌, ◌↔◌, List, [], ◌++◌, length, take, drop, min, Some, Contains, IsTrue, IsOk, IsOkAnd, IsErr, IfOk, OnErr};
ghost use Rattle.std.specs.Io.{ReadsAtMost, WritesAtMost};
ghost use Rattle.std.specs.Io.KnownBytes.{ReadConsumes, WriteAppends};
ghost use Rattle.io_edges.specs.Faults.{Rose, CountsFault, next_count};
ghost use Rattle.io_edges.specs.InMemory.{HasRoom, as_bytes, as_bytes_fit};
ghost use Rattle.io_edges.specs.Told.{StayTold};

use crate::stop::OutOfMemory;
use crate::traits::{Failed, Sink, Source};
use std::alloc::Global;
use std::marker::Model;

/// Copies the bytes from a place on to the front of `buf`, at most so many, and moves the place
/// behind them. It answers how many there were.
fn give(bytes: &[u8], at: &mut usize, buf: &mut [u8], most: usize) -> usize
    requires { at.old ≤ length bytes.now }
    ensures within { at.new ≤ length bytes.now }
    ensures count { result ≡ min (min (length buf.old) most) (length (drop at.old bytes.now)) }
    ensures front { drop at.old bytes.now ≡ take result buf.new ++ drop at.new bytes.now }
    ensures len { length buf.new ≡ length buf.old }
{
    let rest = &bytes[*at..];
    let count = buf.len().min(most).min(rest.len());
    buf[..count].copy_from_slice(&rest[..count]);
    *at += count;
    count
}

/// Whether the call of this number is among those that fail.
fn is_to_fail(fails: &[u32], call: u64) -> bool
    ensures { IsTrue result ↔ Contains fails.now call }
{
    fails.iter().any(|number| u64::from(*number) == call)
}

/// Bytes in memory, given in pieces. The calls of some numbers fail.
#[derive(Debug, Drop)]
pub struct MemSource {
    bytes: Vec<u8>,
    at: usize,
    fails: Vec<u32>,
    piece: usize,
    calls: u64,
    faults: u64,
}

impl Model for MemSource {
    ghost use Rattle.std.specs.Prelude.{drop, length, ◌≤◌};
    ghost use Rattle.io_edges.specs.InMemory.{Given};

    ghost Value = { Given };

    ghost view = { λ s. record {
      left = drop s.at s.bytes.items;
      fails = s.fails.items;
      piece = s.piece;
      calls = s.calls;
      faults = s.faults;
    } };

    ghost invariant = { λ s. (s.at ≤ length s.bytes.items) × (1 ≤ s.piece) };
}

impl MemSource {
    /// A source of `bytes`. Its reads are numbered from 0: those in `fails` fail, and any other
    /// gives as many bytes as it can, but at most `piece`.
    pub fn new(bytes: Vec<u8>, fails: Vec<u32>, piece: usize) -> MemSource
        requires { 1 ≤ piece }
        ensures { result ≡ record {
          left = bytes.items;
          fails = fails.items;
          piece = piece;
          calls = 0;
          faults = 0;
        } }
    {
        MemSource {
            bytes,
            at: 0,
            fails,
            piece,
            calls: 0,
            faults: 0,
        }
    }
}

impl Source for MemSource {
    ghost left = { λ source. Some (as_bytes source.left) };

    ghost faults = { λ source. source.faults };

    fn read(&mut self, buf: &mut [u8]) -> Result<usize, Failed>
        ensures bound { ReadsAtMost result buf.new }
        ensures bytes { ReadConsumes
            (Some (as_bytes self.old.left)) (Some (as_bytes self.new.left)) result buf.new }
        ensures later { self.old.faults ≤ self.new.faults }
        ensures cause { OnErr result (Rose self.old.faults self.new.faults) }

        // Which bytes it gives and which calls fail, how many bytes another gives, and that each call
        // is counted.
        ensures given { ReadConsumes (Some self.old.left) (Some self.new.left) result buf.new }
        ensures fails { IsErr result ↔ Contains self.old.fails self.old.calls }
        ensures count { IfOk result (λ count.
            count ≡ min (min (length buf.old) self.old.piece) (length self.old.left)) }
        ensures counted { CountsFault self.old.faults self.new.faults result }
        ensures rest { self.new ≡ record self.old {
          left = self.new.left;
          calls = next_count self.old.calls;
          faults = self.new.faults;
        } }
    {
        let call = self.calls;
        self.calls = call.saturating_add(1);
        if is_to_fail(&self.fails, call) {
            self.faults = self.faults.saturating_add(1);
            return Err(Failed);
        }
        Ok(give(&self.bytes, &mut self.at, buf, self.piece))
    }

    ghost fit = { λ source. as_bytes_fit source.left };
}

/// Bytes in memory that are given without a fault.
#[derive(Debug, Drop)]
pub struct SureSource {
    bytes: Vec<u8>,
    at: usize,
}

impl Model for SureSource {
    ghost use Rattle.std.specs.Prelude.{ℕ, List, drop, length, ◌≤◌};

    ghost Value = { List ℕ };

    ghost view = { λ s. drop s.at s.bytes.items };

    ghost invariant = { λ s. s.at ≤ length s.bytes.items };
}

impl SureSource {
    /// A source of `bytes`.
    pub fn new(bytes: Vec<u8>) -> SureSource
        ensures { result ≡ bytes.items }
    {
        SureSource { bytes, at: 0 }
    }
}

impl Source for SureSource {
    ghost left = { λ source. Some (as_bytes source) };

    ghost faults = { λ _. 0 };

    fn read(&mut self, buf: &mut [u8]) -> Result<usize, Failed>
        ensures bound { ReadsAtMost result buf.new }
        ensures bytes { ReadConsumes
            (Some (as_bytes self.old)) (Some (as_bytes self.new)) result buf.new }

        // It never fails, and gives the next bytes, as many as it can.
        ensures given { ReadConsumes (Some self.old) (Some self.new) result buf.new }
        ensures sure { IsOk result }
        ensures count { IfOk result (λ count. count ≡ min (length buf.old) (length self.old)) }
    {
        Ok(give(&self.bytes, &mut self.at, buf, usize::MAX))
    }

    ghost fit = { λ source. as_bytes_fit source };
}

/// Bytes that are kept in memory, as far as there is room. The calls of some numbers fail.
#[derive(Debug, Drop)]
pub struct MemSink {
    bytes: Vec<u8>,
    room: usize,
    fails: Vec<u32>,
    piece: usize,
    calls: u64,
    faults: u64,
}

impl Model for MemSink {
    ghost use Rattle.std.specs.Prelude.{length, vec_capacity, ◌≤◌};
    ghost use Rattle.io_edges.specs.InMemory.{Kept};

    ghost Value = { Kept };

    ghost view = { λ s. record {
      bytes = s.bytes.items;
      room = s.room;
      fails = s.fails.items;
      piece = s.piece;
      calls = s.calls;
      faults = s.faults;
    } };

    ghost invariant = { λ s. (length s.bytes.items ≤ s.room)
        × (s.room ≤ vec_capacity s.bytes) × (1 ≤ s.piece) };
}

impl MemSink {
    /// An empty sink with room for `room` bytes. Its writes are numbered from 0: those in `fails`
    /// fail, as does one of some bytes where no room is left, and any other takes as many bytes
    /// as it can, but at most `piece`. The room is taken here, so that no write wants memory.
    pub fn new(
        alloc: Global,
        room: usize,
        fails: Vec<u32>,
        piece: usize,
    ) -> Result<MemSink, OutOfMemory>
        requires { 1 ≤ piece }
        ensures { IfOk result (λ sink. sink ≡ record {
          bytes = [];
          room = room;
          fails = fails.items;
          piece = piece;
          calls = 0;
          faults = 0;
        }) }
    {
        let bytes = Vec::with_capacity(alloc, room)?;
        Ok(MemSink {
            bytes,
            room,
            fails,
            piece,
            calls: 0,
            faults: 0,
        })
    }

    /// The bytes written so far.
    pub fn written(&self) -> &[u8]
        ensures { result.now ≡ self.now.bytes }
    {
        self.bytes.as_slice()
    }
}

impl Sink for MemSink {
    ghost written = { λ sink. Some sink.bytes };

    ghost faults = { λ sink. sink.faults };

    ghost surely_takes = { HasRoom };

    fn write(&mut self, buf: &[u8]) -> Result<usize, Failed>
        ensures bound { WritesAtMost result buf.now }
        ensures some { 0 < length buf.now → IfOk result (λ count. 0 < count) }
        ensures bytes { WriteAppends (Some self.old.bytes) (Some self.new.bytes) result buf.now }
        ensures later { self.old.faults ≤ self.new.faults }
        ensures cause { OnErr result (Rose self.old.faults self.new.faults) }
        ensures sure { (n : ℕ) → length buf.now ≤ n → HasRoom self.old n →
            IsOkAnd result (λ count. HasRoom self.new (n - count))
            × (self.new.faults ≡ self.old.faults) }

        // Which calls fail, how many bytes another takes, and that each call is counted.
        ensures fails { IsErr result ↔ (Contains self.old.fails self.old.calls
            ⊎ ((0 < length buf.now) × (length self.old.bytes ≡ self.old.room))) }
        ensures count { IfOk result (λ count. count
            ≡ min (min (length buf.now) self.old.piece) (self.old.room - length self.old.bytes)) }
        ensures counted { CountsFault self.old.faults self.new.faults result }
        ensures rest { self.new ≡ record self.old {
          bytes = self.new.bytes;
          calls = next_count self.old.calls;
          faults = self.new.faults;
        } }
    {
        let call = self.calls;
        self.calls = call.saturating_add(1);
        let room = self.room - self.bytes.len();
        if is_to_fail(&self.fails, call) || (room == 0 && !buf.is_empty()) {
            self.faults = self.faults.saturating_add(1);
            return Err(Failed);
        }
        let count = buf.len().min(self.piece).min(room);
        self.bytes.extend_from_slice(&buf[..count]).unwrap();
        Ok(count)
    }
}
