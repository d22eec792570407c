//! What a bus manager does (IEEE Std 1394-1995, bus manager): election by a lock, hops, gap counts,
//! and the configuration packet.
#![tactic(auto)]

mod election;
mod gap;
mod paths;
mod plan;

pub use election::{Bid, attempt};
pub use gap::gap_for;
pub use paths::{hops, hops_are_of_node_paths};
pub use plan::plan_config;
