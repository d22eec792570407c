//! What a node knows of its ports, in words of which bit k is about port k.
ghost use Rattle.std.specs.Prelude.{◌≡◌, ℕ, ◌^◌, ◌<◌, ◌==◌, ◌&&◌, ◌↔◌, not, true, false, if◌then◌else◌};
ghost use Rattle.port_state.specs.Entry.{without_marks};
ghost use Rattle.port_state.specs.Ports.{asks, is_remaining, is_unnamed};
ghost use Rattle.port_state.specs.TreeIdentify.{adopt};
ghost use Rattle.port_state.specs.codings.PortWords.{has_bit, level_high, level_low, level_of_bits, lowest_bit, port_at, FitsPorts, is_restless, has_waiting_child};

use crate::ports::PortView;
use crate::signal::Level;

/// The flags and levels of ports: each flag in a word of its own, and a level in two.
#[derive(Clone, Copy, Debug)]
pub(crate) struct Words {
    pub(crate) connected: u16,
    high: u16,
    low: u16,
    child: u16,
    asked: u16,
    named: u16,
}

/// Whether a word has a bit, 0 to 15.
fn has_bit(word: u16, at: u8) -> bool
    requires { at < 16 }
    ensures { result ≡ has_bit word at }
{
    word >> at & 1 == 1
}

/// The word with a bit, 0 to 15, set or cleared.
fn with_bit(word: u16, at: u8, on: bool) -> u16
    requires { at < 16 }
    ensures bits { (k : ℕ) → has_bit result k ≡ (if k == at then on else has_bit word k) }
    ensures fits { (count : ℕ) → at < count → word < 2 ^ count → result < 2 ^ count }
{
    if on {
        word | 1 << at
    } else {
        word & !(1 << at)
    }
}

/// The lowest bit that is set in a word.
pub(crate) fn lowest_bit(word: u16) -> Option<u8>
    ensures { result ≡ lowest_bit word }
{
    if word == 0 {
        None
    } else {
        Some(word.trailing_zeros() as u8)
    }
}

/// The level of two bits, the higher one first.
fn level_of_bits(high: bool, low: bool) -> Level
    ensures { result ≡ level_of_bits high low }
{
    match (high, low) {
        (false, false) => Level::Reset,
        (false, true) => Level::Idle,
        (true, false) => Level::Parent,
        (true, true) => Level::Child,
    }
}

/// The higher bit of a level.
fn level_high(level: Level) -> bool
    ensures { result ≡ level_high level }
{
    matches!(level, Level::Parent | Level::Child)
}

/// The lower bit of a level.
fn level_low(level: Level) -> bool
    ensures { result ≡ level_low level }
{
    matches!(level, Level::Idle | Level::Child)
}

impl Words {
    /// No bit.
    pub(crate) fn new() -> Words
        ensures { FitsPorts 0 result }
    {
        Words {
            connected: 0,
            high: 0,
            low: 0,
            child: 0,
            asked: 0,
            named: 0,
        }
    }

    /// What the words say of a port, 0 to 15.
    pub(crate) fn port(&self, at: u8) -> PortView
        requires { at < 16 }
        ensures { result ≡ port_at self.now at }
    {
        PortView {
            connected: has_bit(self.connected, at),
            shown: level_of_bits(has_bit(self.high, at), has_bit(self.low, at)),
            child: has_bit(self.child, at),
            asked: has_bit(self.asked, at),
            named: has_bit(self.named, at),
        }
    }

    /// Which connected ports show neither Idle nor Parent.
    pub(crate) fn restless_ports(&self) -> u16
        ensures bits { (k : ℕ) → has_bit result k ≡ is_restless (port_at self.now k) }
        ensures fits { (count : ℕ) → FitsPorts count self.now → result < 2 ^ count }
    {
        self.connected & !(self.high ^ self.low)
    }

    /// Which connected ports show Parent.
    pub(crate) fn asking_ports(&self) -> u16
        ensures bits { (k : ℕ) → has_bit result k ≡ asks (port_at self.now k) }
        ensures fits { (count : ℕ) → FitsPorts count self.now → result < 2 ^ count }
    {
        self.connected & self.high & !self.low
    }

    /// Which connected ports don't show Parent.
    pub(crate) fn remaining_ports(&self) -> u16
        ensures bits { (k : ℕ) → has_bit result k ≡ is_remaining (port_at self.now k) }
        ensures fits { (count : ℕ) → FitsPorts count self.now → result < 2 ^ count }
    {
        self.connected & !(self.high & !self.low)
    }

    /// Which connected ports lead to a child that doesn't show Idle.
    pub(crate) fn waiting_children(&self) -> u16
        ensures bits { (k : ℕ) → has_bit result k ≡ has_waiting_child (port_at self.now k) }
        ensures fits { (count : ℕ) → FitsPorts count self.now → result < 2 ^ count }
    {
        self.connected & self.child & !(self.low & !self.high)
    }

    /// Which connected ports lead to a child that hasn't identified itself.
    pub(crate) fn unnamed_ports(&self) -> u16
        ensures bits { (k : ℕ) → has_bit result k ≡ is_unnamed (port_at self.now k) }
        ensures fits { (count : ℕ) → FitsPorts count self.now → result < 2 ^ count }
    {
        self.connected & self.child & !self.named
    }

    /// Says that a port, 0 to 15, shows a level.
    pub(crate) fn show(&mut self, at: u8, level: Level)
        requires { at < 16 }
        ensures ports { (k : ℕ) → port_at self.new k
            ≡ (if k == at then record (port_at self.old k) { shown = level }
            else port_at self.old k) }
        ensures fits { (count : ℕ) →
            at < count → FitsPorts count self.old → FitsPorts count self.new }
    {
        self.high = with_bit(self.high, at, level_high(level));
        self.low = with_bit(self.low, at, level_low(level));
    }

    /// Says this of a port, 0 to 15, and the same as before of each other.
    pub(crate) fn set(&mut self, at: u8, port: PortView)
        requires { at < 16 }
        ensures ports { (k : ℕ) →
            port_at self.new k ≡ (if k == at then port else port_at self.old k) }
        ensures fits { (count : ℕ) →
            at < count → FitsPorts count self.old → FitsPorts count self.new }
    {
        self.connected = with_bit(self.connected, at, port.connected);
        self.show(at, port.shown);
        self.child = with_bit(self.child, at, port.child);
        self.asked = with_bit(self.asked, at, port.asked);
        self.named = with_bit(self.named, at, port.named);
    }

    /// Whether some port has a mark: it leads to a child, or it is said to be asked or named.
    pub(crate) fn has_marks(&self) -> bool
        ensures { result ≡ false
            ↔ ((k : ℕ) → without_marks (port_at self.now k) ≡ port_at self.now k) }
    {
        self.child | self.asked | self.named != 0
    }

    /// Says that no port leads to a child.
    pub(crate) fn clear_marks(&mut self)
        ensures ports { (k : ℕ) → port_at self.new k ≡ without_marks (port_at self.old k) }
        ensures fits { (count : ℕ) → FitsPorts count self.old → FitsPorts count self.new }
    {
        self.child = 0;
        self.asked = 0;
        self.named = 0;
    }

    /// Says that each connected port that shows Parent leads to a child.
    pub(crate) fn adopt_all(&mut self)
        ensures ports { (k : ℕ) → port_at self.new k ≡ adopt (port_at self.old k) }
        ensures fits { (count : ℕ) → FitsPorts count self.old → FitsPorts count self.new }
    {
        self.child |= self.asking_ports();
    }

    /// Says that the child of a port, 0 to 15, was asked.
    pub(crate) fn ask(&mut self, at: u8)
        requires { at < 16 }
        ensures ports { (k : ℕ) → port_at self.new k
            ≡ (if k == at then record (port_at self.old k) { asked = true }
            else port_at self.old k) }
        ensures fits { (count : ℕ) →
            at < count → FitsPorts count self.old → FitsPorts count self.new }
    {
        self.asked = with_bit(self.asked, at, true);
    }

    /// Says that the child of a port, 0 to 15, has identified itself.
    pub(crate) fn name(&mut self, at: u8)
        requires { at < 16 }
        ensures ports { (k : ℕ) → port_at self.new k
            ≡ (if k == at then record (port_at self.old k) { named = true }
            else port_at self.old k) }
        ensures fits { (count : ℕ) →
            at < count → FitsPorts count self.old → FitsPorts count self.new }
    {
        self.named = with_bit(self.named, at, true);
    }
}
