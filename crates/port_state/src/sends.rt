//! What a node sends in one step.
ghost use Rattle.std.specs.Prelude.{◌≡◌, ◌<◌, ◌≤◌, ◌↔◌, IsTrue, [], ◌∷◌, ◌++◌, length};

use crate::outbox::Outbox;
use crate::signal::Signal;
use arrayvec::ArrayVec;
use std::marker::Model;

/// Ports with the signals that are sent on them, first to last, at most 112.
#[derive(Drop)]
pub struct Sends {
    items: ArrayVec<(u8, Signal), 112>,
}

impl Model for Sends {
    ghost use Rattle.std.specs.Prelude.{List, ℕ};
    ghost use Rattle.port_state.specs.declared.signal.Signal.{Signal};

    ghost Value = { List (ℕ × Signal) };

    ghost view = { λ s. s.items.items };
}

impl Sends {
    /// The empty list.
    pub fn new() -> Sends
        ensures { result ≡ [] }
    {
        Sends {
            items: ArrayVec::new(),
        }
    }

    /// Appends a port, 0 to 15, and the signal that is sent on it.
    pub fn push(&mut self, port: u8, signal: Signal)
        requires room { length self.old < 112 }
        ensures { self.new ≡ self.old ++ (port, signal) ∷ [] }
    {
        self.items.push((port, signal));
    }

    /// Appends what an outbox has, to a list that is empty.
    pub fn fill(&mut self, outbox: &Outbox)
        requires { self.old ≡ [] }
        ensures { self.new ≡ outbox.now }
    {
        for (port, signal) in outbox.pairs() {
            self.push(port, signal);
        }
    }

    /// Takes away all of them.
    pub fn clear(&mut self)
        ensures { self.new ≡ [] }
    {
        self.items.clear();
    }

    /// Whether there are none.
    pub fn is_none(&self) -> bool
        ensures { IsTrue result ↔ (self.now ≡ []) }
    {
        self.items.is_empty()
    }

    /// The ports with their signals, what was sent first first.
    pub fn as_slice(&self) -> &[(u8, Signal)]
        ensures { result.now ≡ self.now }
    {
        self.items.as_slice()
    }
}
