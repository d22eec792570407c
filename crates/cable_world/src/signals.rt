//! Signals under way on one wire, one after the other.
ghost use Rattle.std.specs.Prelude.{◌≡◌, [], drop};
ghost use Rattle.std.specs.Iterator.{YieldsFirst, item_count};
ghost use Rattle.cable_world.specs.running.Rows.{on_port};

use crate::wire::{Travelling, UnderWay};
use std::marker::Model;

/// What is under way on a wire, the oldest first. In a contract it is the list of these signals.
#[derive(Drop)]
pub struct Signals<'a> {
    // What is under way on the wires of a node, of which this port's is meant.
    sent: &'a [UnderWay],
    port: u8,
    // So many of its oldest signals are passed over.
    past: usize,
}

impl<'a> Model for Signals<'a> {
    ghost use Rattle.std.specs.Prelude.{List, drop};
    ghost use Rattle.cable_world.specs.Wire.{Travelling};
    ghost use Rattle.cable_world.specs.running.Rows.{on_port};

    ghost Value = { List Travelling };

    ghost view = { λ s. drop s.past (on_port s.port s.sent.now) };
}

impl<'a> Signals<'a> {
    /// Nothing.
    pub fn none() -> Signals<'a>
        ensures { result ≡ [] }
    {
        Signals::behind(&[], 0, 0)
    }

    /// What is under way on the wire of a port, behind so many of the oldest.
    pub(crate) fn behind(sent: &'a [UnderWay], port: u8, past: usize) -> Signals<'a>
        ensures { result ≡ drop past (on_port port sent.now) }
    {
        Signals { sent, port, past }
    }
}

impl Iterator for Signals<'_> {
    type Item = Travelling;

    ghost next_gives = { YieldsFirst (λ s. s) };

    ghost remaining = { item_count (λ s. s) };

    fn next(&mut self) -> Option<Travelling> {
        while let Some((first, others)) = self.sent.split_first() {
            self.sent = others;
            if !first.ports.has(self.port) {
                continue;
            }
            if self.past == 0 {
                return Some(Travelling {
                    signal: first.signal,
                    age: first.age,
                });
            }
            self.past -= 1;
        }
        None
    }
}
