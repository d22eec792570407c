//! Bus reset (IEEE Std 1394-1995 and 1394a-2000, states R0 and R1): the entry to a reset, and the
//! rows of a tick.
//!
//! `entry` is how a node comes to R0: it forgets the tree and sends Reset. `ticks` is how it goes
//! on to R1 and to tree identify.
#![tactic(auto)]

mod entry;
mod ticks;

pub use entry::{enter, enter_into};
pub use ticks::{reset_tick, reset_tick_into};
