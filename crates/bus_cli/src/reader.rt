//! Reading a capture as it comes.
ghost use Rattle.std.specs.Prelude.{◌≡◌, ◌↔◌, ◌+◌, ◌<◌, ◌≤◌, ◌^◌, ℕ, List, [], ◌∷◌, ◌++◌, length, take, IfOk, IfSome, IsSome};
ghost use Rattle.self_id.specs.declared.standard.Standard.TheVariants.{Ieee2000};
ghost use Rattle.topology_stack.specs.Tree.{Tree};
ghost use Rattle.capture_reading.specs.Capture.{Spells, CaptureRefused};
ghost use Rattle.capture_reading.specs.Stop.{IfFault, IfMemory};
ghost use Rattle.quad_lanes.specs.Pairs.{quads_of};
ghost use Rattle.bus_cli.specs.codings.Late.{IsListOf};
ghost use Rattle.bus_cli.specs.codings.Pieces.{HoldsBytes, HoldsExactly, bad_after};

use crate::late::LateReader;
use arrayvec::ArrayVec;
use capture_reading::{CaptureFault, CaptureStop};
use io_edges::Taker;
use quad_lanes::good_pairs_are_a_capture;
use std::alloc::Global;
use std::marker::Model;
use topology_stack::{BusTree, one_answer};

/// A reader of a capture. It keeps the bytes of a pair that isn't whole, and of the pairs before it
/// the number of the first bad one and the list of their first quadlets.
#[derive(Debug, Drop)]
pub(crate) struct CaptureReader {
    rest: ArrayVec<u8, 8>,
    pairs: usize,
    first_bad: Option<usize>,
    packets: LateReader,
}

impl Model for CaptureReader {
    ghost use Rattle.std.specs.Prelude.{◌<◌, length};
    ghost use Rattle.bus_cli.specs.codings.Pieces.{Pieces};

    ghost Value = { Pieces };

    ghost view = { λ r. record {
      rest = r.rest.items;
      pairs = r.pairs;
      first_bad = r.first_bad;
      packets = r.packets;
    } };

    ghost invariant = { λ r. length r.rest.items < 8 };
}

/// The two quadlets of eight bytes. `None` where there are fewer.
fn pair_of(bytes: &[u8]) -> Option<(u32, u32)>
    requires { length bytes.now ≤ 8 }
    ensures pair { IfSome result (λ p. quads_of bytes.now ≡ p.0 ∷ p.1 ∷ []) }
    ensures eight { IsSome result ↔ (length bytes.now ≡ 8) }
{
    match bytes {
        [a, b, c, d, e, f, g, h] => {
            let first = u32::from_be_bytes([*a, *b, *c, *d]);
            let second = u32::from_be_bytes([*e, *f, *g, *h]);
            Some((first, second))
        }
        _ => None,
    }
}

impl CaptureReader {
    /// A reader that was given nothing.
    pub(crate) fn new() -> CaptureReader
        ensures { HoldsBytes result [] }
    {
        CaptureReader {
            rest: ArrayVec::new(),
            pairs: 0,
            first_bad: None,
            packets: LateReader::new(),
        }
    }

    /// Takes a whole pair.
    fn push_pair(&mut self, first: u32, second: u32)
        ensures rest { self.new.rest ≡ self.old.rest }
        ensures pairs { self.old.pairs < 2 ^ 60 → self.new.pairs ≡ self.old.pairs + 1 }
        ensures bad { self.new.first_bad
            ≡ bad_after self.old.first_bad (first, second) self.old.pairs }
        ensures list { (l : List ℕ) → IsListOf self.old.packets l
            → IsListOf self.new.packets (l ++ first ∷ []) }
    {
        if self.first_bad.is_none() && second != !first {
            self.first_bad = Some(self.pairs);
        }
        self.pairs = self.pairs.saturating_add(1);
        self.packets.push(first);
    }

    /// Takes a byte.
    fn push_byte(&mut self, byte: u8)
        ensures { (bytes : List ℕ) → HoldsBytes self.old bytes
            → HoldsBytes self.new (bytes ++ byte ∷ []) }
    {
        self.rest.push(byte);
        if let Some((first, second)) = pair_of(&self.rest) {
            self.rest.clear();
            self.push_pair(first, second);
        }
    }

    /// Takes what stands first: a whole pair where no byte waits, or else a byte. Answers how many
    /// bytes it took.
    fn take_front(&mut self, piece: &[u8]) -> usize
        requires { 0 < length piece.now }
        ensures some { 0 < result }
        ensures most { result ≤ length piece.now }
        ensures held { (bytes : List ℕ) → HoldsBytes self.old bytes
            → HoldsBytes self.new (bytes ++ take result piece.now) }
    {
        if self.rest.is_empty() && piece.len() >= 8 {
            if let Some((first, second)) = pair_of(&piece[..8]) {
                self.push_pair(first, second);
                return 8;
            }
        }
        self.push_byte(piece[0]);
        1
    }

    /// The bus tree that the bytes spell, or their fault. Want of memory comes only where they
    /// spell a tree.
    pub(crate) fn finish(&self, alloc: Global) -> Result<BusTree, CaptureStop>
        ensures tree { IfOk result (λ t. (bytes : List ℕ) → HoldsExactly self.now bytes
            → Spells Ieee2000 bytes t) }
        ensures fault { IfFault result (λ f. (bytes : List ℕ) → HoldsExactly self.now bytes
            → CaptureRefused Ieee2000 bytes f) }
        ensures memory { IfMemory result ((bytes : List ℕ) → HoldsExactly self.now bytes
            → (t : Tree) × Spells Ieee2000 bytes t) }
    {
        good_pairs_are_a_capture();
        one_answer();
        if !self.rest.is_empty() {
            return Err(CaptureStop::Fault(CaptureFault::BadLength { pair: self.pairs }));
        }
        if let Some(pair) = self.first_bad {
            return Err(CaptureStop::Fault(CaptureFault::BadInverse { pair }));
        }
        Ok(self.packets.finish(alloc)?)
    }
}

impl Taker for CaptureReader {
    ghost use Rattle.bus_cli.specs.codings.Pieces.{HoldsBytes};

    ghost stands_for = { HoldsBytes };

    fn take(&mut self, piece: &[u8]) {
        let mut at = 0;
        while at < piece.len() {
            at += self.take_front(&piece[at..]);
        }
    }
}
