//! Self identify (IEEE Std 1394-1995 and 1394a-2000): grants, packets and Done, the rows of S0 to
//! S4, and the packets in which a node identifies itself.
//!
//! `hearing` is what a node does with grants, packets and their end; `ticks` is how it grants its
//! children one after the other and then identifies itself; `group` is the packets in which it
//! does so.
#![tactic(auto)]

mod group;
mod hearing;
mod ticks;

pub use hearing::{ident_signal, ident_signal_into};
pub use ticks::{ident_tick, ident_tick_into, node_count};
