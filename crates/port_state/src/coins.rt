//! The coins of a node.
ghost use Rattle.std.specs.Prelude.{◌≡◌, ◌≤◌, ◌<◌, ◌+◌, ◌/◌, ◌%◌, ◌^◌, ◌==◌, if◌then◌else◌};
ghost use Rattle.port_state.specs.Coins.{coins_of_bits, coins_of_seed, coin, coins_after};

use rand_core::utils::NextWord;
use rand_pcg::Pcg32;
use std::marker::Model;

/// The coins that a node draws, one at the beginning of each root contention. They never end, and a
/// reset doesn't put them back.
#[derive(Debug, Drop)]
pub struct Coins {
    source: Source,
}

/// Where coins come from.
#[derive(Debug, Drop)]
enum Source {
    /// The bits of a word, over and over.
    Repeated(Bits),
    /// The top bit of each word of a generator.
    Generated(Pcg32),
}

/// The lowest `len` bits of a word, 1 to 64, and the place of the next one.
#[derive(Debug, Drop)]
struct Bits {
    word: u64,
    len: u8,
    place: u8,
    ghost within: { place < len },
    ghost few: { len ≤ 64 },
}

impl Model for Coins {
    ghost use Rattle.port_state.specs.Coins.{Coins};

    ghost Value = { Coins };

    ghost use Rattle.port_state.specs.CoinSource.{coins_of};

    ghost view = { λ c. coins_of c.source };
}

impl Bits {
    /// The next bit. The place goes round.
    fn next(&mut self) -> bool
        ensures bit { result ≡ (self.old.word / 2 ^ self.old.place % 2 == 1) }
        ensures word { self.new.word ≡ self.old.word }
        ensures len { self.new.len ≡ self.old.len }
        ensures place { let next = self.old.place + 1 in
            self.new.place ≡ (if next == self.old.len then 0 else next) }
    {
        let bit = (self.word >> self.place) % 2 == 1;
        let next = self.place + 1;
        self.place = if next == self.len { 0 } else { next };
        bit
    }
}

impl Coins {
    /// The bits of a word over and over: coin number k, from 0, is bit k modulo `len`, which is 1
    /// to 64.
    pub fn bits(word: u64, len: u8) -> Coins
        requires some { 1 ≤ len }
        requires few { len ≤ 64 }
        ensures { result ≡ coins_of_bits word len }
    {
        Coins {
            source: Source::Repeated(Bits {
                word,
                len,
                place: 0,
            }),
        }
    }

    /// The coins of a seed: coin number k, from 0, is the top bit of word number k of PCG32 with
    /// this state, on stream 54.
    pub fn seeded(seed: u32) -> Coins
        ensures { result ≡ coins_of_seed seed }
    {
        Coins {
            source: Source::Generated(Pcg32::new(u64::from(seed), 54)),
        }
    }

    /// Draws the next coin.
    pub fn next(&mut self) -> bool
        ensures coin { result ≡ coin self.old }
        ensures rest { self.new ≡ coins_after self.old }
    {
        match &mut self.source {
            Source::Repeated(bits) => bits.next(),
            Source::Generated(generator) => generator.next_word() / 0x8000_0000 == 1,
        }
    }
}
