//! What a node sends in one step, one port after the other.
ghost use Rattle.std.specs.Prelude.{◌≡◌};
ghost use Rattle.std.specs.Iterator.{YieldsFirst, item_count};
ghost use Rattle.port_state.specs.PortSet.{all_sent};

use crate::outbox::Sent;
use crate::port_set::PortSet;
use crate::signal::Signal;
use std::marker::Model;

/// Ports with the signals that are sent on them, the first first.
#[derive(Drop)]
pub struct Pairs<'a> {
    // On these ports this signal is sent next, and then what these entries say.
    ports: PortSet,
    signal: Signal,
    entries: &'a [Sent],
}

impl<'a> Model for Pairs<'a> {
    ghost use Rattle.std.specs.Prelude.{List, ◌++◌, ℕ};
    ghost use Rattle.port_state.specs.declared.signal.Signal.{Signal};
    ghost use Rattle.port_state.specs.PortSet.{on_ports, all_sent};

    ghost Value = { List (ℕ × Signal) };

    ghost view = { λ p. on_ports p.ports p.signal ++ all_sent p.entries.now };
}

impl Pairs<'_> {
    /// What these entries send.
    pub(crate) fn of_entries(entries: &[Sent]) -> Pairs<'_>
        ensures { result ≡ all_sent entries.now }
    {
        Pairs {
            ports: PortSet::none(),
            signal: Signal::Idle,
            entries,
        }
    }
}

impl Iterator for Pairs<'_> {
    type Item = (u8, Signal);

    ghost next_gives = { YieldsFirst (λ p. p) };

    ghost remaining = { item_count (λ p. p) };

    fn next(&mut self) -> Option<(u8, Signal)> {
        while self.ports.is_none() {
            let Some((first, others)) = self.entries.split_first() else {
                return None;
            };
            self.ports = first.ports;
            self.signal = first.signal;
            self.entries = others;
        }
        let port = self.ports.next_from(0)?;
        self.ports.remove(port);
        Some((port, self.signal))
    }
}
