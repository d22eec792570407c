//! A law: the bus trees of either standard are those that cablings show, whose nodes have as many slots as
//! the standard allows, up to 27 by IEEE Std 1394-1995.
#![tactic(auto)]

mod laws;

pub use laws::cablings_show_the_bus_trees;
