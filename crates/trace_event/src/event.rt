//! What a line of a trace tells.

use port_state::{Phase, Signal};

/// A part of a text.
#[derive(Clone, Copy, Debug, PartialEq, Eq)]
pub struct Part {
    /// Where it begins, in bytes from 0.
    pub start: usize,
    /// How many bytes it has.
    pub len: usize,
}

/// What happens, at a node and on a port of it. Names are parts of the text of the trace.
#[derive(Clone, Copy, Debug, PartialEq, Eq)]
pub enum What {
    /// A cable is plugged into two ports.
    Plug {
        a: Part,
        a_port: u32,
        b: Part,
        b_port: u32,
    },
    /// The cable is pulled out of a port.
    Pull {
        name: Part,
        port: u32,
    },
    /// A node is made to reset the bus.
    Reset {
        name: Part,
    },
    /// A port is held for so many turns.
    Hold {
        name: Part,
        port: u32,
        turns: u32,
    },
    /// A node sends a PHY configuration packet with the ID of a root, a gap count, or both.
    Config {
        name: Part,
        root_id: Option<u32>,
        gap: Option<u32>,
    },
    /// A node enters a state, Self-ID at S0.
    Enters {
        node: Part,
        phase: Phase,
    },
    /// The configuration times out.
    Timeout {
        node: Part,
    },
    /// A port comes to lead to the node's parent.
    ToParent {
        node: Part,
        port: u32,
    },
    /// A port comes to lead to a child.
    ToChild {
        node: Part,
        port: u32,
    },
    /// A node draws a coin, which is shown where it is one of the first 32, and then waits so many turns.
    Coin {
        node: Part,
        coin: Option<u32>,
        wait: u32,
    },
    /// A node takes its ID.
    PhyId {
        node: Part,
        id: u32,
    },
    /// A node sends a signal on a port.
    Sends {
        node: Part,
        port: u32,
        signal: Signal,
    },
    /// A node's clock misses the turn, so that the node doesn't tick in it.
    Misses {
        node: Part,
    },
}

/// An event: what happens once so many turns are done.
#[derive(Clone, Copy, Debug, PartialEq, Eq)]
pub struct Event {
    /// How many turns are done.
    pub turn: u32,
    /// What happens.
    pub what: What,
}
