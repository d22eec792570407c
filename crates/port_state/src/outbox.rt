//! What a node sends in one step, as it is passed on.
ghost use Rattle.std.specs.Prelude.{◌≡◌, ◌<◌, ◌≤◌, ◌↔◌, IsTrue, [], ◌∷◌, ◌++◌, length, ◌+◌};
ghost use Rattle.port_state.specs.PortSet.{on_ports, all_sent};
ghost use Rattle.port_state.specs.Sends.{on_every};

use crate::pairs::Pairs;
use crate::port_set::PortSet;
use crate::ports::PortViews;
use crate::signal::Signal;
use std::marker::Model;

/// How many signals a step sends at most: seven on each of sixteen ports. No step needs as many,
/// since the most is three packets on every port, and Done.
pub const SENDS_LIMIT: usize = 112;

/// A signal that is sent on some ports at once.
#[derive(Clone, Copy, Debug, Default)]
pub struct Sent {
    /// The ports.
    pub ports: PortSet,
    /// The signal.
    pub signal: Signal,
}

/// Signals with the ports on which they are sent, first to last, at most 112, as a machine passes
/// them on: what is sent on some ports at once is kept as one entry.
#[derive(Debug, Drop)]
pub struct Outbox {
    // The entries, of which the first `count` are there.
    entries: [Sent; SENDS_LIMIT],
    count: usize,
}

impl Model for Outbox {
    ghost use Rattle.std.specs.Prelude.{List, length, take, ◌≤◌, ℕ};
    ghost use Rattle.port_state.specs.declared.signal.Signal.{Signal};
    ghost use Rattle.port_state.specs.PortSet.{all_sent};

    ghost Value = { List (ℕ × Signal) };

    ghost view = { λ s. all_sent (take s.count s.entries) };

    ghost invariant = { λ s. (s.count ≤ length (all_sent (take s.count s.entries)))
        × (length (all_sent (take s.count s.entries)) ≤ 112) };
}

impl Outbox {
    /// The empty list.
    pub fn new() -> Outbox
        ensures { result ≡ [] }
    {
        Outbox {
            entries: [Sent {
                ports: PortSet::none(),
                signal: Signal::Idle,
            }; SENDS_LIMIT],
            count: 0,
        }
    }

    /// Appends a port, 0 to 15, and the signal that is sent on it.
    pub fn push(&mut self, port: u8, signal: Signal)
        requires port { port < 16 }
        requires room { length self.old < 112 }
        ensures { self.new ≡ self.old ++ (port, signal) ∷ [] }
    {
        self.entries[self.count] = Sent {
            ports: PortSet::one(port),
            signal,
        };
        self.count += 1;
    }

    /// Appends a signal on each port of a set, in rising port order.
    pub fn push_on(&mut self, ports: PortSet, signal: Signal)
        requires { length self.old + length (on_ports ports signal) ≤ 112 }
        ensures { self.new ≡ self.old ++ on_ports ports signal }
    {
        if !ports.is_none() {
            self.entries[self.count] = Sent { ports, signal };
            self.count += 1;
        }
    }

    /// Appends a signal on each connected port of a node, in rising port order.
    pub fn push_on_every(&mut self, ports: &PortViews, signal: Signal)
        requires { length self.old + length ports.now ≤ 112 }
        ensures sends { self.new ≡ self.old ++ on_every signal ports.now }
        ensures fits { length self.new ≤ length self.old + length ports.now }
    {
        self.push_on(ports.connected(), signal);
    }

    /// Takes away all of them.
    pub fn clear(&mut self)
        ensures { self.new ≡ [] }
    {
        self.count = 0;
    }

    /// Whether there are none.
    pub fn is_none(&self) -> bool
        ensures { IsTrue result ↔ (self.now ≡ []) }
    {
        self.count == 0
    }

    /// The signals with their ports, what was sent first first.
    pub fn as_slice(&self) -> &[Sent]
        ensures value { all_sent result.now ≡ self.now }
        ensures few { length result.now ≤ 112 }
        ensures fits { length self.now ≤ 112 }
    {
        &self.entries[..self.count]
    }

    /// Each port with the signal that is sent on it, what was sent first first.
    pub fn pairs(&self) -> Pairs<'_>
        ensures value { result ≡ self.now }
        ensures few { length self.now ≤ 112 }
    {
        Pairs::of_entries(self.as_slice())
    }
}
