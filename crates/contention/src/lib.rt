//! Root contention (IEEE Std 1394-1995 and 1394a-2000): the rows into T3, with a coin, and out of
//! it. Two neighbours asked each other to be parent; each draws a coin and waits, short for 0 and
//! long for 1.
#![tactic(auto)]

mod contend;

pub use contend::{begin, begin_into, contend_tick, contend_tick_into, has_rival};
pub use port_state::Coins;
