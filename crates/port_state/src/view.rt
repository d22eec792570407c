//! What a node shows of itself.
use crate::ports::PortViews;
use crate::signal::Phase;

/// What a node shows of its state.
#[derive(Clone, Copy, Debug)]
pub struct View {
    /// The state.
    pub phase: Phase,
    /// Ticks since the timer was last cleared. It stays at 65,535.
    pub timer: u16,
    /// The wait of the last contention since the last reset, in ticks; 0 before the first.
    pub wait: u16,
    /// The ports, port 0 first.
    pub ports: PortViews,
    /// The port that leads to the parent.
    pub parent: Option<u8>,
    /// This node may identify itself, and its children.
    pub granted: bool,
    /// The phy_ID, 0 to 62.
    pub id: Option<u8>,
    /// How many coins were drawn since the last reset. It stays at 65,535.
    pub draws: u16,
    /// The first 32 of them: coin number j, from 0, is bit j.
    pub first_draws: u32,
    /// The node caused the last reset.
    pub initiated: bool,
    /// gap_cnt, 0 to 63.
    pub gap: u8,
    /// The node waits the force time before it asks for a parent, so that it becomes root.
    pub force: bool,
    /// The gap count from the next reset on, 0 to 63.
    pub next_gap: u8,
    /// Whether the node is to become root from the next reset on.
    pub next_force: bool,
    /// The configuration timed out: the node waited too long in T0, in a loop or since it was reset again.
    pub timed_out: bool,
    /// How many resets there were, the power-on included. It stays at its greatest value.
    pub resets: u32,
}
