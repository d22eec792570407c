//! How long a node stays in its states.
ghost use Rattle.std.specs.Prelude.{◌≡◌, ◌≤◌, ◌*◌, ◌↔◌, IsTrue};
ghost use Rattle.port_state.specs.Timing.{InRange, usual_timing};

/// The times of a node, in ticks. A cable delays a signal by at most `d` ticks, 1 to 16.
#[derive(Clone, Copy, Debug, PartialEq, Eq)]
pub struct Timing {
    /// How long Reset is sent: 64 d to 80 d.
    pub hold: u16,
    /// How long a node that is to be root waits in TreeStart before it asks for a parent: 256 d.
    pub force: u16,
    /// After how long in TreeStart a node says that its configuration timed out: 512 d.
    pub timeout: u16,
    /// The short wait of a contention: 3 d to 4 d.
    pub short: u16,
    /// The long wait of a contention: 8 d to 10 d.
    pub long: u16,
}

impl Timing {
    /// The usual times where a cable delays by at most `d` ticks, 1 to 16: a hold of 64 d, a force
    /// time of 256 d, a timeout of 512 d, and waits of 3 d and 8 d.
    pub fn usual(d: u8) -> Timing
        requires some { 1 ≤ d }
        requires few { d ≤ 16 }
        ensures { result ≡ usual_timing d }
    {
        let d = u16::from(d);
        Timing {
            hold: 64 * d,
            force: 256 * d,
            timeout: 512 * d,
            short: 3 * d,
            long: 8 * d,
        }
    }

    /// Whether each time lies in its range where a cable delays by at most `d` ticks, 1 to 16.
    pub fn in_range(&self, d: u8) -> bool
        requires some { 1 ≤ d }
        requires few { d ≤ 16 }
        ensures { IsTrue result ↔ InRange d self.now }
    {
        let d = u16::from(d);
        (64 * d..=80 * d).contains(&self.hold)
            && self.force == 256 * d
            && self.timeout == 512 * d
            && (3 * d..=4 * d).contains(&self.short)
            && (8 * d..=10 * d).contains(&self.long)
    }
}
