//! What happens to a world between two turns, and why it may be refused.
use cabling::{CableFault, End, OutOfMemory};
use thiserror::Error;

/// What happens between two turns.
#[derive(Clone, Copy, Debug, PartialEq, Eq)]
pub enum Act {
    /// A cable is plugged into two ends, first at `a` and then at `b`.
    Plug {
        a: End,
        b: End,
    },
    /// The cable is pulled out at this end, and then at the other.
    Pull {
        end: End,
    },
    /// This node, by its number, resets the bus.
    Reset {
        node: u8,
    },
    /// Node number `from` sends a PHY configuration packet to all nodes of its component, and then
    /// resets the bus. With `force` (R) the node that now has the ID `root_id`, 0 to 63, is to be
    /// root, and no other; with a gap count (T), 0 to 63, all nodes take it.
    Config {
        from: u8,
        root_id: u8,
        force: bool,
        gap: Option<u8>,
    },
}

/// Why a world did not do what it was told.
#[derive(Debug, Drop, Error)]
pub enum ActStop {
    /// The cables don't allow it. The world is as it was.
    #[error("refused: {0:?}")]
    Fault(CableFault),
    /// There was no memory, or there was none at an earlier call. The world is spent.
    #[error("out of memory")]
    Memory(OutOfMemory),
}
