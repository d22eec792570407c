//! Counts of what is under way on the wires of a node, so that it isn't counted again for each question.
ghost use Rattle.std.specs.Prelude.{◌≡◌, ◌≤◌, List, length, take, drop};
ghost use Rattle.cable_world.specs.declared.wire.UnderWay.{UnderWay};
ghost use Rattle.cable_world.specs.running.Rows.{on_port};
ghost use Rattle.cable_world.specs.running.Tally.{IsTally};

use crate::signals::Signals;
use crate::wire::{UnderWay, count_on};

/// How many signals are under way on the wire of each port in so many of the oldest entries.
#[derive(Clone, Copy, Debug)]
pub struct Tally {
    /// The number of entries.
    pub entries: u32,
    /// The numbers of signals, which are of use where there are entries.
    pub counts: [u32; 16],
}

/// The entries behind so many of the oldest.
fn behind(sent: &[UnderWay], entries: u32) -> &[UnderWay]
    requires { entries ≤ length sent.now }
    ensures { result.now ≡ drop entries sent.now }
{
    &sent[entries as usize..]
}

impl Tally {
    /// Nothing is counted.
    pub fn none() -> Tally
        ensures { result.entries ≡ 0 }
    {
        Tally {
            entries: 0,
            counts: [0; 16],
        }
    }

    /// How many signals on the wire of a port are counted.
    fn known(&self, port: u8) -> usize
        ensures { (sent : List UnderWay) → IsTally self.now sent →
            result ≡ length (on_port port (take self.now.entries sent)) }
    {
        if self.entries == 0 || port >= 16 {
            return 0;
        }
        self.counts[port as usize] as usize
    }

    /// How many signals are under way on the wire of a port.
    pub fn count(&self, sent: &[UnderWay], port: u8) -> usize
        requires { IsTally self.now sent.now }
        ensures { result ≡ length (on_port port sent.now) }
    {
        self.known(port) + count_on(behind(sent, self.entries), port)
    }

    /// What is under way on the wire of a port, behind so many of the oldest.
    pub fn signals<'a>(&self, sent: &'a [UnderWay], port: u8, past: usize) -> Signals<'a>
        requires { IsTally self.now sent.now }
        ensures { result ≡ drop past (on_port port sent.now) }
    {
        let known = self.known(port);
        if past < known {
            return Signals::behind(sent, port, past);
        }
        Signals::behind(behind(sent, self.entries), port, past - known)
    }

    /// Counts all entries, where there are so few that 32 bits hold their number.
    pub fn count_all(&mut self, sent: &[UnderWay])
        requires { IsTally self.old sent.now }
        ensures { IsTally self.new sent.now }
    {
        let entries = sent.len();
        if entries > u32::MAX as usize {
            return;
        }
        let mut counts = [0; 16];
        for port in 0..16 {
            counts[port] = self.count(sent, port as u8) as u32;
        }
        *self = Tally {
            entries: entries as u32,
            counts,
        };
    }
}
