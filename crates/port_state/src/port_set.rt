//! Sets of ports, as bits.
ghost use Rattle.std.specs.Prelude.{◌≡◌, ◌↔◌, ◌<◌, ◌≤◌, ℕ, true, false, not, ◌&&◌, ◌||◌, ◌==◌, nat_lt, IsTrue, IfSome, IfNone};
ghost use Rattle.port_state.specs.PortSet.{has_port};

use std::marker::Model;

/// A set of the ports of a node, which are numbered from 0 to 15.
#[derive(Clone, Copy, Debug, Default, PartialEq, Eq)]
pub struct PortSet {
    bits: u16,
}

impl Model for PortSet {
    ghost use Rattle.std.specs.Prelude.{ℕ, ◌<◌, ◌^◌};

    ghost Value = { ℕ };

    ghost view = { λ s. s.bits };

    ghost invariant = { λ s. s.bits < 2 ^ 16 };

    ghost inverse = { λ n. record { bits = n } };
}

impl PortSet {
    /// The set of no port.
    pub fn none() -> PortSet
        ensures { (k : ℕ) → has_port result k ≡ false }
    {
        PortSet { bits: 0 }
    }

    /// The ports whose bits are set.
    pub(crate) fn of_bits(bits: u16) -> PortSet
        ensures { result ≡ bits }
    {
        PortSet { bits }
    }

    /// The set of one port, 0 to 15.
    pub fn one(port: u8) -> PortSet
        requires { port < 16 }
        ensures { (k : ℕ) → has_port result k ≡ (k == port) }
    {
        PortSet { bits: 1 << port }
    }

    /// Whether the port is in the set. A port from 16 on is in none.
    pub fn has(self, port: u8) -> bool
        ensures { result ≡ has_port self port }
    {
        port < 16 && self.bits >> port & 1 == 1
    }

    /// Whether no port is in the set.
    pub fn is_none(self) -> bool
        ensures { IsTrue result ↔ ((k : ℕ) → has_port self k ≡ false) }
    {
        self.bits == 0
    }

    /// The lowest port of the set that isn't below this number. `None` where there is none.
    pub fn next_from(self, port: u8) -> Option<u8>
        ensures held { IfSome result (λ next. has_port self next ≡ true) }
        ensures up { IfSome result (λ next. port ≤ next) }
        ensures lowest { IfSome result (λ next. (k : ℕ) → port ≤ k → k < next →
            has_port self k ≡ false) }
        ensures none { IfNone result ((k : ℕ) → port ≤ k → has_port self k ≡ false) }
    {
        if port >= 16 {
            return None;
        }
        let left = self.bits >> port;
        if left == 0 {
            return None;
        }
        Some(port + left.trailing_zeros() as u8)
    }

    /// Takes a port into the set; one from 16 on is passed over.
    pub fn insert(&mut self, port: u8)
        ensures { (k : ℕ) → has_port self.new k
            ≡ (has_port self.old k || k == port && nat_lt port 16) }
    {
        if port < 16 {
            self.bits |= 1 << port;
        }
    }

    /// Takes a port out of the set, if it is in it.
    pub fn remove(&mut self, port: u8)
        ensures { (k : ℕ) → has_port self.new k ≡ (has_port self.old k && not (k == port)) }
    {
        if port < 16 {
            self.bits &= !(1 << port);
        }
    }

    /// The ports of this set but one.
    pub fn without(self, port: u8) -> PortSet
        ensures { (k : ℕ) → has_port result k ≡ (has_port self k && not (k == port)) }
    {
        let mut others = self;
        others.remove(port);
        others
    }

    /// The ports that are in this set or in the other.
    pub fn union(self, other: PortSet) -> PortSet
        ensures { (k : ℕ) → has_port result k ≡ (has_port self k || has_port other k) }
    {
        PortSet {
            bits: self.bits | other.bits,
        }
    }

    /// The ports that are in this set and not in the other.
    pub fn minus(self, other: PortSet) -> PortSet
        ensures { (k : ℕ) → has_port result k ≡ (has_port self k && not (has_port other k)) }
    {
        PortSet {
            bits: self.bits & !other.bits,
        }
    }

    /// The ports that are in this set and in the other.
    pub fn both(self, other: PortSet) -> PortSet
        ensures { (k : ℕ) → has_port result k ≡ (has_port self k && has_port other k) }
    {
        PortSet {
            bits: self.bits & other.bits,
        }
    }
}
