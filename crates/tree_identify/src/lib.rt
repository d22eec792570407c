//! Tree identify (IEEE Std 1394-1995 and 1394a-2000): the rows of T0, T1 and T2. Root contention,
//! T3, is in the crate `contention`.
//!
//! One file a state: `tree_start` is T0, `child_shake` T1 and `parent_shake` T2.
#![tactic(auto)]

mod child_shake;
mod parent_shake;
mod ticks;
mod tree_start;

pub use ticks::{tree_tick, tree_tick_into};
